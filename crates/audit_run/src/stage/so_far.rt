//! What a stage of an audit starts from.

ghost use Rattle.audit_rules.specs.Valid.{IsInputs};

use crate::stage::done::Done;
use ddc_base::Bytes;
use recipe::Recipe;

/// An audit before a stage: a recipe with its inputs, and the finished stages.
#[derive(Clone, Copy)]
pub(crate) struct SoFar<'a> {
    pub(crate) recipe: &'a Recipe,
    pub(crate) inputs: &'a [Bytes],
    pub(crate) done: &'a [Done],
    ghost given: { IsInputs recipe.now inputs.now },
}
