//! Finds a stage and runs the stages before it.

ghost use Rattle.std.specs.Prelude.{◌≡◌, ◌<◌, IfOk, IfSome, length};
ghost use Rattle.ddc_base.specs.Outside.{ShelfState};
ghost use Rattle.recipe.specs.Lookups.{stage_at};
ghost use Rattle.audit_rules.specs.Valid.{AreDone, IsInputs};
ghost use Rattle.command_plan.specs.Steps.{Obtains};
ghost use Rattle.stage_commands.specs.Earlier.{needs_earlier, needs_stage};

use crate::words::StageWord;
use audit_run::run_earlier;
use audit_run::stage::Done;
use command_plan::{Stop, usage};
use ddc_base::ListOf;
use recipe::{Inputs, Recipe};
use recipe_plan::unfinished;
use std::alloc::Global;

/// The number of stages before the one of this name. Stops with a usage answer where no stage has the name.
pub(crate) fn stages_before(
    alloc: Global,
    recipe: &Recipe,
    stage: &StageWord<'_>,
) -> Result<usize, Stop>
    ensures obtained { (shelf : ShelfState) → Obtains (needs_stage recipe.now stage.now) shelf shelf result }
    ensures within { IfOk result (λ count. count < length recipe.now.stages) }
{
    match stage_at(recipe, stage) {
        Some(count) => Ok(count),
        None => Err(Stop::Answered(usage(alloc)?)),
    }
}

/// The index of the stage of a name, from 0; `None` where no stage has the name.
fn stage_at(recipe: &Recipe, stage: &StageWord<'_>) -> Option<usize>
    ensures value { result ≡ stage_at recipe.now.stages stage.now }
    ensures index { IfSome result (λ index. index < length recipe.now.stages) }
{
    let name = stage.text().as_bytes();
    recipe
        .stages()
        .as_slice()
        .iter()
        .position(|stage| stage.name.bytes() == name)
}

/// Runs the first `count` stages. Stops with 6 or 7 at the first one that fails.
pub(crate) fn run_before(
    alloc: Global,
    recipe: &Recipe,
    inputs: &Inputs,
    count: usize,
) -> Result<ListOf<Done>, Stop>
    requires given { IsInputs recipe.now inputs.now }
    requires count { count < length recipe.now.stages }
    ensures obtained { (shelf : ShelfState) → Obtains (needs_earlier recipe.now inputs.now count) shelf shelf result }
    ensures done { IfOk result (AreDone recipe.now) }
{
    match run_earlier(alloc, recipe, inputs.as_slice(), count)? {
        Ok(done) => Ok(done),
        Err(not_done) => {
            let answer = unfinished(alloc, recipe, not_done.stage, not_done.fault)?;
            Err(Stop::Answered(answer))
        }
    }
}
