//! `step RECIPE STAGE`: runs the stages before STAGE, and then answers lines about its program.

ghost use Rattle.std.specs.Prelude.{◌≡◌, ℕ, All, IfOk, List, map};
ghost use Rattle.ddc_base.specs.Outside.{ShelfState};
ghost use Rattle.ddc_base.specs.Limits.{most_lines};
ghost use Rattle.mem_files.specs.Outputs.{IsContent};
ghost use Rattle.prompt.specs.Talks.{talk};
ghost use Rattle.recipe.specs.Kept.{IsRecipe};
ghost use Rattle.step_debug.specs.Sessions.{reply_to};
ghost use Rattle.audit_rules.specs.Stages.{contents};
ghost use Rattle.audit_rules.specs.Valid.{AreDone, IsInputs};
ghost use Rattle.audit_rules.specs.declared.answer.Finished.{Finished};
ghost use Rattle.audit_run.specs.Stage.Rules.{AreMade, IsStageOf};
ghost use Rattle.command_plan.specs.Performs.{OutsideState, PerformsTalk, outside};
ghost use Rattle.command_plan.specs.Plan.{Plan, talks};
ghost use Rattle.command_plan.specs.Steps.{Obtains};
ghost use Rattle.command_plan.specs.Words.{usage};
ghost use Rattle.recipe_plan.specs.Recipes.{needs_inputs};
ghost use Rattle.stage_commands.specs.Earlier.{needs_earlier, needs_stage};
ghost use Rattle.stage_commands.specs.Inside.Kept.{IsReady};
ghost use Rattle.stage_commands.specs.Step.{needs_session, session_of, step_plan};

use crate::earlier::stages_before;
use crate::ready::{Ready, run_stages};
use crate::words::{StageWord, StageWords};
use audit_rules::{RunCause, StageFault, StartCause};
use audit_run::stage::{Done, box_of, content};
use command_plan::{Stop, usage};
use ddc_base::limits::MOST_LINES;
use ddc_base::{Bytes, ListOf, OutOfMemory, PutFail, Shelf, Sink};
use guest_run::StartRefusal;
use prompt::{Prompt, converse};
use recipe::{Inputs, Recipe, Stage};
use recipe_plan::{fetch_recipe, unfinished};
use std::alloc::Global;
use step_debug::Session;

/// `step RECIPE STAGE`: answers lines of standard input about STAGE's program, unless a status ends the command before. Statuses 0, 2, 4,
/// 6, 7, 10 to 13.
pub fn perform<S: Shelf, K: Sink, P: Prompt>(
    alloc: Global,
    shelf: &mut S,
    out: &mut K,
    prompt: &mut P,
    words: &[&str],
) -> Result<Result<(), PutFail>, Stop>
    ensures { PerformsTalk (step_plan (map (λ w. w.now) words.now)) (outside (S.state shelf.old) (K.state out.old) (P.state prompt.old))
        (outside (S.state shelf.new) (K.state out.new) (P.state prompt.new)) result }
{
    let Some(words) = StageWords::read(words) else {
        return refuse(alloc);
    };
    let recipe = fetch_recipe(alloc, shelf, &words.recipe)?;
    let (inputs, done) = run_named(alloc, shelf, &recipe, &words.stage)?;
    let ready = Ready {
        recipe,
        inputs,
        done,
    };
    talk(alloc, out, prompt, &ready)
}

/// The answer to wrong arguments: usage.
fn refuse(alloc: Global) -> Result<Result<(), PutFail>, Stop>
    ensures { (state : OutsideState) → PerformsTalk usage state state result }
{
    Err(Stop::Answered(usage(alloc)?))
}

/// Fetches a recipe's inputs, and runs the stages before STAGE.
fn run_named<S: Shelf>(
    alloc: Global,
    shelf: &mut S,
    recipe: &Recipe,
    stage: &StageWord<'_>,
) -> Result<(Inputs, ListOf<Done>), Stop>
    ensures obtained { Obtains (λ (next : List (List ℕ) × List Finished → Plan). needs_stage recipe.now stage.now (λ count.
        needs_inputs recipe.now (λ inputs. needs_earlier recipe.now inputs count (λ done. next (inputs, done)))))
        (S.state shelf.old) (S.state shelf.new) result }
    ensures given { IfOk result (λ found. IsInputs recipe.now found.0) }
    ensures done { IfOk result (λ found. AreDone recipe.now found.1) }
    ensures kept { IfOk result (λ found. IsRecipe recipe.now) }
{
    let count = stages_before(alloc, recipe, stage)?;
    run_stages(alloc, shelf, recipe, count)
}

/// Answers lines about the stage after the finished ones.
fn talk<K: Sink, P: Prompt>(
    alloc: Global,
    out: &mut K,
    prompt: &mut P,
    ready: &Ready,
) -> Result<Result<(), PutFail>, Stop>
    requires { IsReady ready.now }
    ensures { (shelf : ShelfState) → PerformsTalk (needs_session ready.now.recipe ready.now.inputs ready.now.done (λ session. talks (talk reply_to session most_lines)))
        (outside shelf (K.state out.old) (P.state prompt.old)) (outside shelf (K.state out.new) (P.state prompt.new)) result }
{
    let mut session = start_session(alloc, ready)?;
    Ok(converse(&mut session, MOST_LINES, prompt, out))
}

/// Starts the stage after the finished ones. Stops with 6 where it does not start.
fn start_session(alloc: Global, ready: &Ready) -> Result<Session<'_>, Stop>
    requires { IsReady ready.now }
    ensures { (shelf : ShelfState) → Obtains (needs_session ready.now.recipe ready.now.inputs ready.now.done) shelf shelf result }
{
    start_over(
        alloc,
        &ready.recipe,
        ready.inputs.as_slice(),
        ready.done.as_slice(),
    )
}

/// As `start_session`, for inputs and finished stages that are borrowed.
fn start_over<'a>(
    alloc: Global,
    recipe: &'a Recipe,
    inputs: &'a [Bytes],
    done: &'a [Done],
) -> Result<Session<'a>, Stop>
    requires given { IsInputs recipe.now inputs.now }
    requires done { AreDone recipe.now done.now }
    ensures { (shelf : ShelfState) → Obtains (needs_session recipe.now inputs.now done.now) shelf shelf result }
{
    let Some(stage) = recipe.stages().get(done.len()) else {
        return Err(Stop::Answered(usage(alloc)?));
    };
    match open(alloc, recipe, stage, inputs, done)? {
        Ok(session) => Ok(session),
        Err(cause) => {
            let fault = StageFault::Runs(RunCause::Start(cause), 0);
            let answer = unfinished(alloc, recipe, done.len() as u32 + 1, fault)?;
            Err(Stop::Answered(answer))
        }
    }
}

/// A session with a stage's program, or why the program did not start.
fn open<'a>(
    alloc: Global,
    recipe: &'a Recipe,
    stage: &'a Stage,
    inputs: &'a [Bytes],
    done: &'a [Done],
) -> Result<Result<Session<'a>, StartCause>, OutOfMemory>
    requires stage { IsStageOf recipe.now stage.now }
    requires inputs { All IsContent inputs.now }
    requires done { AreMade done.now }
    ensures { IfOk result (λ opened. opened ≡ session_of recipe.now (contents inputs.now done.now) stage.now) }
{
    let given = box_of(alloc, recipe, stage, inputs, done)?;
    let program = content(recipe, inputs, done, &stage.program);
    match Session::new(alloc, program, given, stage.steps) {
        Ok(session) => Ok(Ok(session)),
        Err(StartRefusal::Elf(refusal)) => Ok(Err(StartCause::Elf(refusal))),
        Err(StartRefusal::ArgsTooLong) => Ok(Err(StartCause::ArgsTooLong)),
        Err(StartRefusal::BoxTooLarge) => Ok(Err(StartCause::BoxTooLarge)),
        Err(StartRefusal::OutOfMemory) => Err(OutOfMemory),
    }
}
