//! A slice of a stage's run, and its end.

ghost use Rattle.audit_run.specs.Inside.Parts.{later, Slices};
ghost use Rattle.audit_run.specs.Stage.Rules.{IsStageOf};
ghost use Rattle.recipe.specs.Kept.{IsRecipe};
ghost use Rattle.guest_run.specs.Run.{first_end};
ghost use Rattle.std.specs.Prelude.{◌≡◌, ◌≤◌, ◌+◌, ◌-◌, IfOk};
ghost use Rattle.audit_rules.specs.Positions.{at};
ghost use Rattle.audit_rules.specs.Stages.{by_end};
ghost use Rattle.audit_rules.specs.Valid.{IsAt};

use crate::phase::Moved;
use crate::stage::{Exit, SoFar, exited};
use audit_rules::{RunCause, StageFault};
use ddc_base::OutOfMemory;
use guest_run::{Guest, RunEnd, RunRam};
use recipe::Stage;
use std::alloc::Global;

/// At most `most` steps of a stage, up to the end of its run. Returns how many were taken, and whether the run ended. Error: out of memory.
pub(crate) fn run_slice(
    alloc: Global,
    so_far: &SoFar<'_>,
    stage: &Stage,
    guest: &mut Guest<RunRam>,
    most: u64,
) -> Result<(u64, Moved), OutOfMemory>
    requires some { 1 ≤ most }
    requires recipe { IsRecipe so_far.now.recipe.now }
    requires stage { IsStageOf so_far.now.recipe.now stage.now }
    requires current { IsAt so_far.now.recipe.now (at so_far.now.done.now guest.old) stage.now (later so_far.now.recipe.now so_far.now.done.now) }
    ensures slices { Slices so_far.now.recipe.now so_far.now.inputs.now so_far.now.done.now (later so_far.now.recipe.now so_far.now.done.now)
        guest.old most result guest.new }
    // With at least as many steps as the stage has left, its run ends.
    ensures whole { stage.now.steps ≤ guest.old.steps + most → IfOk result (λ step. step.1 ≡ Moved.Ended
        (by_end so_far.now.recipe.now so_far.now.inputs.now so_far.now.done.now stage.now (first_end guest.old (stage.now.steps - guest.old.steps)))) }
{
    let before = guest.steps();
    let slice = most.min(stage.steps - before);
    match guest.run(slice) {
        RunEnd::Spent => {
            if guest.steps() < stage.steps {
                Ok((slice, Moved::Goes))
            } else {
                let fault = StageFault::Runs(RunCause::Spent, stage.steps);
                Ok((slice, Moved::Ended(Err(fault))))
            }
        }
        RunEnd::OutOfMemory => Err(OutOfMemory),
        RunEnd::Trapped(cause) => {
            let step = guest.steps() + 1;
            let fault = StageFault::Runs(RunCause::Trap(cause), step);
            Ok((step - before, Moved::Ended(Err(fault))))
        }
        RunEnd::UnknownCall(number) => {
            let step = guest.steps() + 1;
            let fault = StageFault::Runs(RunCause::Call(number), step);
            Ok((step - before, Moved::Ended(Err(fault))))
        }
        RunEnd::Exited(status) => {
            let step = guest.steps() + 1;
            let result = exited(alloc, so_far, stage, guest.files(), Exit { status, step })?;
            Ok((step - before, Moved::Ended(result)))
        }
    }
}
