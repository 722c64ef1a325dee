//! The start of the next stage, or the report.

ghost use Rattle.audit_run.specs.Inside.Parts.{IsStarted, current};
ghost use Rattle.mem_files.specs.Outputs.{IsContent};
ghost use Rattle.recipe.specs.Kept.{IsRecipe};
ghost use Rattle.std.specs.Prelude.{◌≡◌, All, IfOk};
ghost use Rattle.audit_rules.specs.Positions.{enter, todo};
ghost use Rattle.audit_rules.specs.Valid.{AreDone};

use crate::phase::AuditPhase;
use crate::stage::{Done, report_of, start_stage};
use audit_rules::{AuditAnswer, RunCause, StageFault};
use ddc_base::{Bytes, OutOfMemory};
use recipe::Recipe;
use std::alloc::Global;

/// Starts the stage after those that are done; after the last one, makes the report. Error: out of memory.
pub(crate) fn enter(
    alloc: Global,
    recipe: &Recipe,
    inputs: &[Bytes],
    done: &[Done],
) -> Result<AuditPhase, OutOfMemory>
    requires inputs { All IsContent inputs.now }
    requires done { AreDone recipe.now done.now }
    ensures kept { IsRecipe recipe.now }
    ensures started { IfOk result IsStarted }
    ensures entered { IfOk result (λ phase. current recipe.now inputs.now done.now phase ≡ enter recipe.now inputs.now done.now (todo recipe.now done.now)) }
{
    let Some(stage) = recipe.stages().as_slice().get(done.len()) else {
        let report = report_of(alloc, recipe, inputs, done)?;
        return Ok(AuditPhase::Over(AuditAnswer::Completes(report)));
    };
    match start_stage(alloc, recipe, stage, inputs, done)? {
        Ok(guest) => Ok(AuditPhase::Running(guest)),
        Err(cause) => {
            let number = done.len() as u32 + 1;
            let fault = StageFault::Runs(RunCause::Start(cause), 0);
            Ok(AuditPhase::Over(AuditAnswer::Fails(number, fault)))
        }
    }
}
