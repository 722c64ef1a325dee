//! The first stages of a recipe, run in order.

ghost use Rattle.audit_run.specs.Earlier.{done_in_order};
ghost use Rattle.audit_run.specs.Inside.Parts.{later};
ghost use Rattle.guest_run.specs.Run.{first_end};
ghost use Rattle.recipe.specs.Kept.{IsRecipe};
ghost use Rattle.std.specs.Prelude.{◌≡◌, ◌++◌, ◌∷◌, [], ◌-◌, ◌≤◌, IfOk, length, take};
ghost use Rattle.audit_rules.specs.Positions.{at, todo};
ghost use Rattle.audit_rules.specs.Stages.{by_end, stage_result};
ghost use Rattle.audit_rules.specs.Valid.{AreDone, IsAt, IsInputs};

use crate::phase::Moved;
use crate::stage::{Done, SoFar, start_stage};
use crate::stage_run::run_slice;
use audit_rules::{RunCause, StageFault};
use ddc_base::{Bytes, ListOf, OutOfMemory};
use guest_run::{Guest, RunRam};
use recipe::{Recipe, Stage};
use std::alloc::Global;

/// A stage that is not done.
#[derive(Clone, Copy)]
pub struct Unfinished {
    /// The stage's number, from 1.
    pub stage: u32,
    /// Why the stage is not done.
    pub fault: StageFault,
}

/// Runs the first `count` stages in order, and returns what they leave or the first one that is not done. Error: out of memory.
pub fn run_earlier(
    alloc: Global,
    recipe: &Recipe,
    inputs: &[Bytes],
    count: usize,
) -> Result<Result<ListOf<Done>, Unfinished>, OutOfMemory>
    requires given { IsInputs recipe.now inputs.now }
    requires count { count ≤ length recipe.now.stages }
    ensures stages { IfOk result (λ run. run ≡ done_in_order recipe.now inputs.now [] (take count recipe.now.stages)) }
    ensures done { IfOk result (λ run. IfOk run (AreDone recipe.now)) }
{
    let mut done = ListOf::new(alloc);
    for stage in &recipe.stages().as_slice()[..count] {
        match run_stage(alloc, recipe, stage, inputs, done.as_slice())? {
            Ok(finished) => done.push(finished)?,
            Err(fault) => {
                let stage = done.len() as u32 + 1;
                return Ok(Err(Unfinished { stage, fault }));
            }
        }
    }
    Ok(Ok(done))
}

/// Runs the stage after those that are done. Returns what it leaves, or why it is not done.
fn run_stage(
    alloc: Global,
    recipe: &Recipe,
    stage: &Stage,
    inputs: &[Bytes],
    done: &[Done],
) -> Result<Result<Done, StageFault>, OutOfMemory>
    requires kept { IsRecipe recipe.now }
    requires given { IsInputs recipe.now inputs.now }
    requires done { AreDone recipe.now done.now }
    requires next { todo recipe.now done.now ≡ stage.now ∷ later recipe.now done.now }
    ensures value { IfOk result (λ run. run ≡ stage_result recipe.now inputs.now done.now stage.now) }
    ensures done { IfOk result (λ run. IfOk run (λ f. AreDone recipe.now (done.now ++ f ∷ []))) }
{
    match start_stage(alloc, recipe, stage, inputs, done)? {
        Ok(guest) => {
            let so_far = SoFar {
                recipe,
                inputs,
                done,
            };
            run_out(alloc, &so_far, stage, guest)
        }
        Err(cause) => Ok(Err(StageFault::Runs(RunCause::Start(cause), 0))),
    }
}

/// Runs a stage to its end. Returns what it leaves, or why it is not done.
fn run_out(
    alloc: Global,
    so_far: &SoFar<'_>,
    stage: &Stage,
    guest: Guest<RunRam>,
) -> Result<Result<Done, StageFault>, OutOfMemory>
    requires kept { IsRecipe so_far.now.recipe.now }
    requires current { IsAt so_far.now.recipe.now (at so_far.now.done.now guest) stage.now (later so_far.now.recipe.now so_far.now.done.now) }
    ensures value { IfOk result (λ run. run ≡ by_end so_far.now.recipe.now so_far.now.inputs.now so_far.now.done.now stage.now
        (first_end guest (stage.now.steps - guest.steps))) }
    ensures done { IfOk result (λ run. IfOk run (λ f. AreDone so_far.now.recipe.now (so_far.now.done.now ++ f ∷ []))) }
{
    let mut guest = guest;
    match run_slice(alloc, so_far, stage, &mut guest, stage.steps)? {
        (_, Moved::Ended(run)) => Ok(run),
        (_, Moved::Goes) => unreachable!(),
    }
}
