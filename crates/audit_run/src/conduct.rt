//! How an audit is run.

ghost use Rattle.audit_rules.specs.Valid.{IsInputs};

use crate::phase::EndedGuest;
use ddc_base::Bytes;
use recipe::Recipe;

/// How an audit is run: its recipe, its inputs, and whether the guest of a finished stage is kept.
#[derive(Clone, Copy)]
pub(crate) struct Conduct<'a> {
    pub(crate) recipe: &'a Recipe,
    pub(crate) inputs: &'a [Bytes],
    pub(crate) ended: EndedGuest,
    ghost given: { IsInputs recipe.now inputs.now },
}
