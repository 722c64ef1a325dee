//! How the run of a stage ended.

ghost use Rattle.recipe.specs.Kept as kept;
ghost use Rattle.command_plan.specs.Steps.{Says};
ghost use Rattle.stage_commands.specs.Exits.{output_left, run_failed};
ghost use Rattle.stage_commands.specs.Inside.Going.{IsLeft};

use audit_rules::RunCause;
use audit_run::stage::made_by;
use command_plan::{Answer, Stop};
use mem_files::Files;
use recipe::Stage;
use std::alloc::Global;

/// The contents of the stage's output after an exit with this status, or why it left no output.
pub(crate) fn output_left<'a>(
    stage: &Stage,
    status: u8,
    files: &'a Files,
) -> Result<&'a [u8], RunCause>
    requires { kept.IsOutput stage.now.output }
    ensures { IsLeft (output_left stage.now status files.now) result }
{
    if status != 0 {
        return Err(RunCause::Status(status));
    }
    match made_by(stage, files) {
        Some(made) => Ok(made),
        None => Err(RunCause::NoOutput),
    }
}

/// The answer to a run that left no output: status 6, the cause and the step.
pub(crate) fn run_failed(
    alloc: Global,
    stage: &Stage,
    cause: RunCause,
    step: u64,
) -> Result<Answer, Stop>
    ensures { Says (run_failed stage.now cause step) result }
{
    recipe_plan::run_failed(alloc, stage.name.bytes(), cause, step)
}
