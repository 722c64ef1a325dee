//! The program and the execution context of the present stage.

ghost use Rattle.audit_run.specs.Seen.{first_setting};
ghost use Rattle.mem_files.specs.Outputs.{IsContent};
ghost use Rattle.std.specs.Prelude.{◌≡◌, All, IfOk, option_map};
ghost use Rattle.audit_rules.specs.Positions.{todo};
ghost use Rattle.audit_rules.specs.Stages.{contents};
ghost use Rattle.audit_rules.specs.Valid.{AreDone};

use crate::stage::{Done, box_of, content};
use ddc_base::{Bytes, OutOfMemory};
use guest_run::RunBox;
use recipe::Recipe;
use std::alloc::Global;

/// The program and the execution context of the stage after those that are done; `None` after the last one. Error: out of memory.
pub(crate) fn setting_of<'a>(
    alloc: Global,
    recipe: &'a Recipe,
    inputs: &'a [Bytes],
    done: &'a [Done],
) -> Result<Option<(&'a [u8], RunBox<'a>)>, OutOfMemory>
    requires inputs { All IsContent inputs.now }
    requires done { AreDone recipe.now done.now }
    ensures { IfOk result (λ setting. option_map (λ s. (s.0.now, s.1)) setting
        ≡ first_setting recipe.now (contents inputs.now done.now) (todo recipe.now done.now)) }
{
    let Some(stage) = recipe.stages().as_slice().get(done.len()) else {
        return Ok(None);
    };
    let program = content(recipe, inputs, done, &stage.program);
    let context = box_of(alloc, recipe, stage, inputs, done)?;
    Ok(Some((program, context)))
}
