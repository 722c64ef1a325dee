//! `left RECIPE STAGE FILE OUT`: runs a stage, however it ends, and saves what it left at FILE.

ghost use Rattle.std.specs.Prelude.{◌≡◌, ◌+◌, ◌≤◌, ℕ, IfOk, List, map};
ghost use Rattle.ddc_base.specs.Limits.{most_steps};
ghost use Rattle.recipe.specs.Kept.{IsRecipe};
ghost use Rattle.audit_rules.specs.Valid.{AreDone, IsInputs};
ghost use Rattle.audit_rules.specs.declared.answer.Finished.{Finished};
ghost use Rattle.command_plan.specs.Performs.{Performs};
ghost use Rattle.command_plan.specs.Plan.{Plan};
ghost use Rattle.command_plan.specs.Steps.{Obtains};
ghost use Rattle.recipe_plan.specs.Recipes.{needs_apart, needs_inputs};
ghost use Rattle.stage_commands.specs.Earlier.{needs_earlier, needs_stage};
ghost use Rattle.stage_commands.specs.Left.{absent_status, run_left, ends_left, file_left_line, left_plan, left_status, none_left_line};

use crate::earlier::stages_before;
use crate::ready::{Ready, run_stages, stage_after};
use crate::words::LeftWords;
use audit_rules::{RunCause, StageFault};
use audit_run::stage::{Done, start_stage};
use command_plan::{Answer, Status, Stop, keep, usage};
use ddc_base::{Bytes, ListOf, Name, OutOfMemory, Shelf};
use guest_run::{Guest, RunEnd, RunRam};
use mem_files::Files;
use recipe::{Inputs, Recipe, Stage};
use recipe_plan::causes::run_cause;
use recipe_plan::{about_stage, apart, fetch_recipe, unfinished};
use std::alloc::Global;
use tool_commands::guest_file::{Wanted, bytes_left_at};

/// How a run ended: the cause, the step, and the files then.
#[derive(Drop)]
struct RunLeft<'a> {
    cause: RunCause,
    step: u64,
    files: &'a Files,
}

/// `left RECIPE STAGE FILE OUT`: saves what STAGE left at FILE. Statuses 0, 2, 4, 6, 7, 10, 11, 13.
pub fn perform<S: Shelf>(alloc: Global, shelf: &mut S, words: &[&str]) -> Result<Answer, Stop>
    ensures { Performs (left_plan (map (λ w. w.now) words.now)) (S.state shelf.old) (S.state shelf.new) result }
{
    let Some(words) = LeftWords::read(words) else {
        return usage(alloc);
    };
    let recipe = fetch_recipe(alloc, shelf, &words.target.recipe)?;
    let (inputs, done) = run_apart(alloc, shelf, &recipe, &words)?;
    let ready = Ready {
        recipe,
        inputs,
        done,
    };
    let stage = match stage_after(&ready) {
        Some(stage) => stage,
        None => return usage(alloc),
    };
    let inputs = ready.inputs.as_slice();
    let done = ready.done.as_slice();
    match start_stage(alloc, &ready.recipe, stage, inputs, done)? {
        Ok(guest) => run_out(alloc, shelf, stage, guest, &words.wanted),
        Err(cause) => {
            let fault = StageFault::Runs(RunCause::Start(cause), 0);
            unfinished(alloc, &ready.recipe, done.len() as u32 + 1, fault)
        }
    }
}

/// Fetches a recipe's inputs, none of which is OUT, and runs the stages before STAGE.
fn run_apart<S: Shelf>(
    alloc: Global,
    shelf: &mut S,
    recipe: &Recipe,
    words: &LeftWords<'_>,
) -> Result<(Inputs, ListOf<Done>), Stop>
    ensures obtained { Obtains (λ (next : List (List ℕ) × List Finished → Plan). needs_stage recipe.now words.now.target.stage (λ count.
        needs_apart recipe.now words.now.wanted.out (λ _. needs_inputs recipe.now (λ inputs. needs_earlier recipe.now inputs count (λ done. next (inputs, done))))))
        (S.state shelf.old) (S.state shelf.new) result }
    ensures given { IfOk result (λ found. IsInputs recipe.now found.0) }
    ensures done { IfOk result (λ found. AreDone recipe.now found.1) }
    ensures kept { IfOk result (λ found. IsRecipe recipe.now) }
{
    let count = stages_before(alloc, recipe, &words.target.stage)?;
    apart(alloc, recipe, &words.wanted.out)?;
    run_stages(alloc, shelf, recipe, count)
}

/// Runs a stage to its end, and saves what is left at FILE.
fn run_out<S: Shelf>(
    alloc: Global,
    shelf: &mut S,
    stage: &Stage,
    guest: Guest<RunRam>,
    wanted: &Wanted<'_>,
) -> Result<Answer, Stop>
    requires fresh { guest.steps ≡ 0 }
    requires some { 1 ≤ stage.now.steps }
    requires few { stage.now.steps ≤ most_steps }
    ensures { Performs (ends_left stage.now.name wanted.now.file wanted.now.out (run_left guest stage.now.steps)) (S.state shelf.old) (S.state shelf.new) result }
{
    let mut guest = guest;
    match end_of(&mut guest, stage.steps) {
        Ok((cause, step)) => {
            let files = guest.files();
            let left = RunLeft { cause, step, files };
            save_left(alloc, shelf, &stage.name, &left, wanted)
        }
        Err(OutOfMemory) => Err(Stop::OutOfMemory),
    }
}

/// Runs at most `most` steps, from 1 to 2^48; returns the cause and the step of the end.
#[tactic(auto, unfolding(crate::specs::Left::run_left))]
fn end_of(guest: &mut Guest<RunRam>, most: u64) -> Result<(RunCause, u64), OutOfMemory>
    requires fresh { guest.old.steps ≡ 0 }
    requires some { 1 ≤ most }
    requires few { most ≤ most_steps }
    ensures { IfOk result (λ end. run_left guest.old most ≡ record { cause = end.0; step = end.1; files = guest.new.world }) }
{
    let end = guest.run(most);
    let step = guest.steps() + 1;
    match end {
        RunEnd::Exited(status) => Ok((RunCause::Status(status), step)),
        RunEnd::Trapped(cause) => Ok((RunCause::Trap(cause), step)),
        RunEnd::UnknownCall(number) => Ok((RunCause::Call(number), step)),
        RunEnd::Spent => Ok((RunCause::Spent, most)),
        RunEnd::OutOfMemory => Err(OutOfMemory),
    }
}

/// Saves the bytes left at FILE, and answers how the run ended. Where nothing was left at FILE, it saves nothing.
#[tactic(auto, unfolding(crate::specs::Left::ends_left))]
fn save_left<S: Shelf>(
    alloc: Global,
    shelf: &mut S,
    stage: &Name,
    left: &RunLeft<'_>,
    wanted: &Wanted<'_>,
) -> Result<Answer, Stop>
    ensures { Performs (ends_left stage.now wanted.now.file wanted.now.out (record { cause = left.now.cause; step = left.now.step; files = left.now.files.now }))
        (S.state shelf.old) (S.state shelf.new) result }
{
    let file = wanted.file.text();
    match bytes_left_at(left.files, &wanted.file) {
        Some(content) => {
            let answer = Answer {
                status: left_status(left.cause),
                text: file_left_line(alloc, stage, file, content.len() as u64, left)?,
            };
            keep(alloc, shelf, &wanted.out, content, answer)
        }
        None => Ok(Answer {
            status: absent_status(left.cause),
            text: none_left_line(alloc, stage, file, left)?,
        }),
    }
}

/// The status where FILE was left: 0 after an exit, 6 after any other end.
fn left_status(cause: RunCause) -> Status
    ensures { result ≡ left_status cause }
{
    match cause {
        RunCause::Status(_) => Status::Yes,
        _ => Status::RunFailed,
    }
}

/// The status where FILE was not left: 10 after an exit, 6 after any other end.
fn absent_status(cause: RunCause) -> Status
    ensures { result ≡ absent_status cause }
{
    match cause {
        RunCause::Status(_) => Status::FileRefused,
        _ => Status::RunFailed,
    }
}

/// The line of what a stage left at FILE: its size in bytes, and the cause and step of the run's end.
#[tactic(auto, using(crate::proofs::Written::written), unfolding(crate::specs::Left::file_left_line))]
fn file_left_line(
    alloc: Global,
    stage: &Name,
    file: &str,
    size: u64,
    left: &RunLeft<'_>,
) -> Result<Bytes, OutOfMemory>
    ensures { IfOk result (λ text. text ≡ file_left_line stage.now file.now size left.now.cause left.now.step) }
{
    let cause = run_cause(alloc, left.cause)?;
    let step = left.step;
    let following = format!(in alloc; " {file} {size} {cause} step {step}\n")?;
    about_stage(alloc, b"left ", stage.bytes(), &following)
}

/// The line of a stage that left nothing at FILE, with the cause and step of the run's end.
#[tactic(auto, using(crate::proofs::Written::written), unfolding(crate::specs::Left::none_left_line))]
fn none_left_line(
    alloc: Global,
    stage: &Name,
    file: &str,
    left: &RunLeft<'_>,
) -> Result<Bytes, OutOfMemory>
    ensures { IfOk result (λ text. text ≡ none_left_line stage.now file.now left.now.cause left.now.step) }
{
    let cause = run_cause(alloc, left.cause)?;
    let step = left.step;
    let following = format!(in alloc; " {file} {cause} step {step}\n")?;
    about_stage(alloc, b"not left ", stage.bytes(), &following)
}
