//! What the commands on one stage do first: load the recipe and inputs, and run the stages before it.

ghost use Rattle.std.specs.Prelude.{◌≡◌, ◌<◌, ℕ, IfOk, IfSome, List, MatchOption, None, Some, length, slice_get};
ghost use Rattle.ddc_base.specs.Limits.{most_states};
ghost use Rattle.audit_run.specs.Stage.Rules.{IsStageOf};
ghost use Rattle.recipe.specs.Kept.{IsRecipe};
ghost use Rattle.audit_rules.specs.Valid.{AreDone, IsInputs};
ghost use Rattle.audit_rules.specs.declared.answer.Finished.{Finished};
ghost use Rattle.command_plan.specs.Plan.{Plan};
ghost use Rattle.command_plan.specs.Steps.{Obtains};
ghost use Rattle.recipe_plan.specs.Recipes.{needs_apart, needs_inputs};
ghost use Rattle.stage_commands.specs.Earlier.{needs_earlier, needs_stage};
ghost use Rattle.stage_commands.specs.Inside.Kept.{IsReady};
ghost use Rattle.stage_commands.specs.Names.{each_name};
ghost use Rattle.stage_commands.specs.Ready.{needs_ready};

use crate::earlier::{run_before, stages_before};
use crate::names::{names_apart, names_other};
use crate::words::{NamePrefix, StageWord, StageWords};
use audit_run::stage::Done;
use command_plan::Stop;
use ddc_base::{ListOf, Shelf};
use recipe::{Inputs, Recipe, Stage};
use recipe_plan::{fetch_inputs, fetch_recipe};
use std::alloc::Global;

/// A recipe, its inputs, and the finished stages before one.
#[derive(Drop)]
pub(crate) struct Ready {
    pub(crate) recipe: Recipe,
    pub(crate) inputs: Inputs,
    pub(crate) done: ListOf<Done>,
}

/// Fetches the recipe and the inputs, and runs the stages before STAGE.
pub(crate) fn make_ready<S: Shelf>(
    alloc: Global,
    shelf: &mut S,
    target: &StageWords<'_>,
    prefix: &NamePrefix<'_>,
) -> Result<Ready, Stop>
    ensures obtained { Obtains (needs_ready target.now.recipe target.now.stage prefix.now) (S.state shelf.old) (S.state shelf.new) result }
    ensures ready { IfOk result IsReady }
{
    names_other(alloc, &target.recipe, prefix)?;
    let recipe = fetch_recipe(alloc, shelf, &target.recipe)?;
    let (inputs, done) = run_apart(alloc, shelf, &recipe, &target.stage, prefix)?;
    Ok(Ready {
        recipe,
        inputs,
        done,
    })
}

/// Fetches a recipe's inputs, none of which has a state's name, and runs the stages before STAGE.
fn run_apart<S: Shelf>(
    alloc: Global,
    shelf: &mut S,
    recipe: &Recipe,
    stage: &StageWord<'_>,
    prefix: &NamePrefix<'_>,
) -> Result<(Inputs, ListOf<Done>), Stop>
    ensures obtained { Obtains (λ (next : List (List ℕ) × List Finished → Plan). needs_stage recipe.now stage.now (λ count. each_name (needs_apart recipe.now) prefix.now most_states (λ _.
        needs_inputs recipe.now (λ inputs. needs_earlier recipe.now inputs count (λ done. next (inputs, done)))))) (S.state shelf.old) (S.state shelf.new) result }
    ensures given { IfOk result (λ found. IsInputs recipe.now found.0) }
    ensures done { IfOk result (λ found. AreDone recipe.now found.1) }
    ensures kept { IfOk result (λ found. IsRecipe recipe.now) }
{
    let count = stages_before(alloc, recipe, stage)?;
    names_apart(alloc, recipe, prefix)?;
    run_stages(alloc, shelf, recipe, count)
}

/// Fetches a recipe's inputs, and runs its first `count` stages.
pub(crate) fn run_stages<S: Shelf>(
    alloc: Global,
    shelf: &mut S,
    recipe: &Recipe,
    count: usize,
) -> Result<(Inputs, ListOf<Done>), Stop>
    requires { count < length recipe.now.stages }
    ensures obtained { Obtains (λ (next : List (List ℕ) × List Finished → Plan). needs_inputs recipe.now (λ inputs. needs_earlier recipe.now inputs count (λ done. next (inputs, done))))
        (S.state shelf.old) (S.state shelf.new) result }
    ensures given { IfOk result (λ found. IsInputs recipe.now found.0) }
    ensures done { IfOk result (λ found. AreDone recipe.now found.1) }
    ensures kept { IfOk result (λ found. IsRecipe recipe.now) }
{
    let inputs = fetch_inputs(alloc, shelf, recipe)?;
    let done = run_before(alloc, recipe, &inputs, count)?;
    Ok((inputs, done))
}

/// The stage after the finished ones; `None` where there is no further one.
pub(crate) fn stage_after(ready: &Ready) -> Option<&Stage>
    requires { IsReady ready.now }
    ensures there { MatchOption result (slice_get ready.now.recipe.stages (length ready.now.done) ≡ None)
        (λ stage. slice_get ready.now.recipe.stages (length ready.now.done) ≡ Some stage.now) }
    ensures rules { IfSome result (λ stage. IsStageOf ready.now.recipe stage.now) }
{
    stage_at(&ready.recipe, ready.done.as_slice())
}

/// As `stage_after`, for finished stages that are borrowed.
fn stage_at<'a>(recipe: &'a Recipe, done: &[Done]) -> Option<&'a Stage>
    ensures there { MatchOption result (slice_get recipe.now.stages (length done.now) ≡ None)
        (λ stage. slice_get recipe.now.stages (length done.now) ≡ Some stage.now) }
    ensures rules { IfSome result (λ stage. IsStageOf recipe.now stage.now) }
{
    match recipe.stages().get(done.len()) {
        Some(stage) => Some(stage),
        None => None,
    }
}
