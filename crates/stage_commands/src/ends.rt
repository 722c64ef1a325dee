//! `ends RECIPE STAGE PREFIX COUNT`: checks that the first saved state is the stage's start, and reports how the run after the last one
//! ends.

ghost use Rattle.std.specs.Prelude.{◌≡◌, ◌≤◌, ℕ, List, map};
ghost use Rattle.ddc_base.specs.Limits.{most_steps};
ghost use Rattle.guest_run.specs.Setting.{Setting};
ghost use Rattle.guest_run.specs.Start.{start_of};
ghost use Rattle.recipe.specs.Kept as kept;
ghost use Rattle.segments.specs.Faults.{start_refusal_of, state_fault_number};
ghost use Rattle.segments.specs.Segments.{EndsWith, StartChecks};
ghost use Rattle.command_plan.specs.declared.status.Status.TheVariants.{Refuted, Yes};
ghost use Rattle.command_plan.specs.Performs.{Performs};
ghost use Rattle.command_plan.specs.Plan.{answers, unless_refused};
ghost use Rattle.command_plan.specs.Steps.{Says};
ghost use Rattle.stage_commands.specs.Ends.{ends_plan, needs_first, needs_last};
ghost use Rattle.stage_commands.specs.Exits.{output_left, run_failed};
ghost use Rattle.stage_commands.specs.States.{end_after, state_parsed};
ghost use Rattle.stage_commands.specs.Texts.{other_first_line, refuted_first_line, refuted_last_line, run_record};
ghost use Rattle.audit_rules.specs.Stages.{finished, start_cause};

use crate::exits::{output_left, run_failed};
use crate::names::fetch_state;
use crate::ready::{make_ready, stage_after};
use crate::texts;
use crate::words::EndsWords;
use audit_rules::{RunCause, StartCause};
use audit_run::stage::{Exit, box_of, content};
use command_plan::{Answer, Status, Stop, usage};
use ddc_base::Shelf;
use guest_run::{Guest, RunEnd, RunRam};
use mem_files::Files;
use recipe::Stage;
use segments::{EndAnswer, StartAnswer, StartFault, StateFault, check_end, check_start};
use std::alloc::Global;

/// `ends RECIPE STAGE PREFIX COUNT`: checks both ends of COUNT saved states. Statuses 0, 1, 2, 4, 6, 7, 10, 11, 13.
pub fn perform<S: Shelf>(alloc: Global, shelf: &mut S, words: &[&str]) -> Result<Answer, Stop>
    ensures { Performs (ends_plan (map (λ w. w.now) words.now)) (S.state shelf.old) (S.state shelf.new) result }
{
    let Some(words) = EndsWords::read(words) else {
        return usage(alloc);
    };
    let ready = make_ready(alloc, shelf, &words.target, &words.prefix)?;
    let first = fetch_state(alloc, shelf, &words.prefix, 0)?;
    let last = fetch_state(alloc, shelf, &words.prefix, words.states.count() - 1)?;
    let stage = match stage_after(&ready) {
        Some(stage) => stage,
        None => return usage(alloc),
    };
    let inputs = ready.inputs.as_slice();
    let done = ready.done.as_slice();
    let given = box_of(alloc, &ready.recipe, stage, inputs, done)?;
    let program = content(&ready.recipe, inputs, done, &stage.program);
    let found = check_start(alloc, program, &given, first.as_slice());
    judge_first(alloc, stage, found, last.as_slice())
}

/// Judges the last text, or answers that the first one is refuted or the stage did not start.
fn judge_first(
    alloc: Global,
    stage: &Stage,
    found: StartAnswer,
    last: &[u8],
) -> Result<Answer, Stop>
    requires output { kept.IsOutput stage.now.output }
    requires few { stage.now.steps ≤ most_steps }
    ensures { (program : List ℕ) (setting : Setting) (first : List ℕ) → StartChecks program setting first found
        → Says (needs_first stage.now (start_of program setting) (state_parsed first) (needs_last stage.now (end_after last.now stage.now.steps))) result }
{
    match found {
        StartAnswer::Yes => judge_last(alloc, stage, last),
        StartAnswer::Start(why) => { run_failed(alloc, stage, RunCause::Start(cause_of(why)), 0) }
        StartAnswer::NotState(why) => refuted_first(alloc, why),
        StartAnswer::Differs(offset) => other_first(alloc, offset),
        StartAnswer::OutOfMemory => Err(Stop::OutOfMemory),
    }
}

/// The cause in an audit's words why a program did not start.
fn cause_of(why: StartFault) -> StartCause
    ensures { start_cause (start_refusal_of why) ≡ result }
{
    match why {
        StartFault::Elf(refusal) => StartCause::Elf(refusal),
        StartFault::ArgsTooLong => StartCause::ArgsTooLong,
        StartFault::BoxTooLarge => StartCause::BoxTooLarge,
    }
}

/// The answer to a first text that is not a state.
fn refuted_first(alloc: Global, why: StateFault) -> Result<Answer, Stop>
    ensures { Says (answers Refuted (refuted_first_line (state_fault_number why))) result }
{
    Ok(Answer {
        status: Status::Refuted,
        text: texts::refuted_first(alloc, why.number())?,
    })
}

/// The answer to a first text that is another state than the start, by the first byte offset at which they differ.
fn other_first(alloc: Global, offset: u64) -> Result<Answer, Stop>
    ensures { Says (answers Refuted (other_first_line offset)) result }
{
    Ok(Answer {
        status: Status::Refuted,
        text: texts::other_first(alloc, offset)?,
    })
}

/// Judges the last text, and reports what the run after it left.
fn judge_last(alloc: Global, stage: &Stage, last: &[u8]) -> Result<Answer, Stop>
    requires output { kept.IsOutput stage.now.output }
    requires few { stage.now.steps ≤ most_steps }
    ensures { Says (needs_last stage.now (end_after last.now stage.now.steps)) result }
{
    match check_end(alloc, last, stage.steps) {
        EndAnswer::Ended(guest, end) => ended(alloc, stage, end, &guest, last),
        EndAnswer::NotState(why) => refuted_last(alloc, why),
        EndAnswer::Over => run_failed(alloc, stage, RunCause::Spent, stage.steps),
        EndAnswer::OutOfMemory => Err(Stop::OutOfMemory),
    }
}

/// The answer to a last text that is not a state.
fn refuted_last(alloc: Global, why: StateFault) -> Result<Answer, Stop>
    ensures { Says (answers Refuted (refuted_last_line (state_fault_number why))) result }
{
    Ok(Answer {
        status: Status::Refuted,
        text: texts::refuted_last(alloc, why.number())?,
    })
}

/// Reports the end of the run after the last state.
fn ended(
    alloc: Global,
    stage: &Stage,
    end: RunEnd,
    guest: &Guest<RunRam>,
    last: &[u8],
) -> Result<Answer, Stop>
    requires output { kept.IsOutput stage.now.output }
    requires few { stage.now.steps ≤ most_steps }
    requires ends { EndsWith last.now stage.now.steps guest.now end }
    ensures { Says (needs_last stage.now (end_after last.now stage.now.steps)) result }
{
    let step = guest.steps() + 1;
    match end {
        RunEnd::Exited(status) => exited(alloc, stage, Exit { status, step }, guest.files()),
        RunEnd::Trapped(cause) => run_failed(alloc, stage, RunCause::Trap(cause), step),
        RunEnd::UnknownCall(number) => run_failed(alloc, stage, RunCause::Call(number), step),
        RunEnd::Spent => unreachable!(),
        RunEnd::OutOfMemory => unreachable!(),
    }
}

/// Reports an exit: what the run did, if it left the stage's output, or else why it failed.
fn exited(alloc: Global, stage: &Stage, exit: Exit, files: &Files) -> Result<Answer, Stop>
    requires { kept.IsOutput stage.now.output }
    ensures { Says (unless_refused (output_left stage.now exit.status files.now) (λ cause. run_failed stage.now cause exit.step)
        (λ made. answers Yes (run_record stage.now.name (finished exit.step files.now made)))) result }
{
    match output_left(stage, exit.status, files) {
        Ok(made) => Ok(Answer {
            status: Status::Yes,
            text: texts::run(alloc, &stage.name, exit.step, files, made)?,
        }),
        Err(cause) => run_failed(alloc, stage, cause, exit.step),
    }
}
