//! Tests of saving and resuming audits. The expected answers were written down from docs/reference/save.md and audit.md.

ghost use Rattle.std.specs.Prelude.{◌↔◌, All, IsTrue};
ghost use Rattle.mem_files.specs.Outputs.{IsContent};
ghost use Rattle.audit_rules.specs.Valid.{IsInputs};

use ddc_base::Bytes;
use recipe::{Inputs, Recipe};

#[cfg(test)]
mod deltas;
pub mod kept;
#[cfg(test)]
mod places;
#[cfg(test)]
mod saves;
#[cfg(test)]
mod worked;

/// Whether these can be the inputs of a recipe.
pub fn are_inputs(recipe: &Recipe, inputs: &Inputs) -> bool
    ensures { IsTrue result ↔ IsInputs recipe.now inputs.now }
{
    if inputs.len() != recipe.inputs().len() {
        return false;
    }
    are_contents(inputs.as_slice())
}

fn are_contents(inputs: &[Bytes]) -> bool
    ensures { IsTrue result ↔ All IsContent inputs.now }
{
    inputs.iter().all(|input| is_content(input.as_slice()))
}

fn is_content(bytes: &[u8]) -> bool
    ensures { IsTrue result ↔ IsContent bytes.now }
{
    bytes.len() <= 268_435_456
}
