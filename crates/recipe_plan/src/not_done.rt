//! Answers about a stage that is not done.

ghost use Rattle.std.specs.Prelude.{◌≡◌, ◌++◌, IfOk, OnOk};
ghost use Rattle.command_plan.specs.declared.status.Status.TheVariants.{CheckFailed, RunFailed};
ghost use Rattle.command_plan.specs.Plan.{answers};
ghost use Rattle.command_plan.specs.Steps.{Says};
ghost use Rattle.recipe_plan.specs.NotDone.{check_failed_line, run_failed_line, stage_name, unfinished};

use crate::causes::{check_cause, run_cause};
use audit_rules::source_check::CheckCause;
use audit_rules::{RunCause, StageFault};
use command_plan::{Answer, Status, Stop};
use ddc_base::{Bytes, OutOfMemory};
use recipe::Recipe;
use std::alloc::Global;

/// The answer about a stage that is not done, by its number from 1. Error: out of memory.
pub fn unfinished(
    alloc: Global,
    recipe: &Recipe,
    number: u32,
    fault: StageFault,
) -> Result<Answer, Stop>
    ensures { Says (unfinished recipe.now number fault) result }
{
    let stage = stage_name(recipe, number);
    match fault {
        StageFault::Runs(cause, step) => run_failed(alloc, stage, cause, step),
        StageFault::Checks(cause) => check_failed(alloc, stage, cause),
    }
}

/// The answer about a stage of this name that made no artefact. Error: out of memory.
pub fn run_failed(alloc: Global, stage: &[u8], cause: RunCause, step: u64) -> Result<Answer, Stop>
    ensures { Says (answers RunFailed (run_failed_line stage.now cause step)) result }
{
    Ok(Answer {
        status: Status::RunFailed,
        text: run_failed_line(alloc, stage, cause, step)?,
    })
}

/// The answer about a stage of this name whose artefact is not what its source stands for.
fn check_failed(alloc: Global, stage: &[u8], cause: CheckCause) -> Result<Answer, Stop>
    ensures { Says (answers CheckFailed (check_failed_line stage.now cause)) result }
{
    Ok(Answer {
        status: Status::CheckFailed,
        text: check_failed_line(alloc, stage, cause)?,
    })
}

/// The name of the stage of this number, from 1.
#[tactic(auto, unfolding(crate::specs::NotDone::stage_name))]
pub fn stage_name(recipe: &Recipe, number: u32) -> &[u8]
    ensures { result.now ≡ stage_name recipe.now.stages number }
{
    match recipe.stages().get((number as usize).saturating_sub(1)) {
        Some(stage) => stage.name.bytes(),
        None => &[],
    }
}

/// A line about a stage: `prefix`, the stage's name, and `after`. Error: out of memory.
pub fn about_stage(
    alloc: Global,
    prefix: &[u8],
    stage: &[u8],
    after: &str,
) -> Result<Bytes, OutOfMemory>
    ensures { IfOk result (λ text. text ≡ prefix.now ++ (stage.now ++ after.now)) }
{
    let mut text = Bytes::from_slice(alloc, prefix)?;
    put_two(&mut text, stage, after.as_bytes())?;
    Ok(text)
}

/// Adds two texts to a text.
fn put_two(text: &mut Bytes, first: &[u8], second: &[u8]) -> Result<(), OutOfMemory>
    ensures { OnOk result (text.new ≡ text.old ++ (first.now ++ second.now)) }
{
    text.extend(first)?;
    text.extend(second)?;
    Ok(())
}

/// The line about a stage that made no artefact.
#[tactic(auto, using(crate::proofs::Written::written), unfolding(crate::specs::NotDone::run_failed_line))]
fn run_failed_line(
    alloc: Global,
    stage: &[u8],
    cause: RunCause,
    step: u64,
) -> Result<Bytes, OutOfMemory>
    ensures { IfOk result (λ text. text ≡ run_failed_line stage.now cause step) }
{
    let cause = run_cause(alloc, cause)?;
    let after = format!(in alloc; " {cause} step {step}\n")?;
    about_stage(alloc, b"run failed ", stage, &after)
}

/// The line about a stage whose artefact is not what its source stands for.
#[tactic(auto, using(crate::proofs::Written::written), unfolding(crate::specs::NotDone::check_failed_line))]
fn check_failed_line(alloc: Global, stage: &[u8], cause: CheckCause) -> Result<Bytes, OutOfMemory>
    ensures { IfOk result (λ text. text ≡ check_failed_line stage.now cause) }
{
    let cause = check_cause(alloc, cause)?;
    let after = format!(in alloc; " {cause}\n")?;
    about_stage(alloc, b"check failed ", stage, &after)
}
