//! `cut RECIPE STAGE EVERY PREFIX`: saves states along a stage's run.

ghost use Rattle.std.specs.Prelude.{◌≤◌, ◌<◌, ◌+◌, map};
ghost use Rattle.ddc_base.specs.Limits.{most_states, most_steps};
ghost use Rattle.guest_run.specs.Run.{first_end};
ghost use Rattle.segments.specs.Segments.{second_text};
ghost use Rattle.recipe.specs.Kept as kept;
ghost use Rattle.command_plan.specs.Performs.{Performs};
ghost use Rattle.command_plan.specs.Plan.{answers, unless_refused};
ghost use Rattle.command_plan.specs.Steps.{Saves, Says};
ghost use Rattle.command_plan.specs.declared.status.Status.TheVariants.{Yes};
ghost use Rattle.stage_commands.specs.Cut.{came_on, cut_plan, next_steps, saved_from};
ghost use Rattle.stage_commands.specs.Exits.{output_left, run_failed};
ghost use Rattle.stage_commands.specs.Inside.Going.{ComesOn, IsBelow};
ghost use Rattle.stage_commands.specs.Names.{piece_name};
ghost use Rattle.stage_commands.specs.States.{state_after};
ghost use Rattle.stage_commands.specs.Texts.{cut_line};

use crate::exits::{output_left, run_failed};
use crate::names::piece_name;
use crate::ready::{make_ready, stage_after};
use crate::texts;
use crate::words::{CutWords, NamePrefix, Spacing};
use audit_rules::RunCause;
use audit_run::stage::{Exit, start_stage};
use checkpoints::write_state;
use command_plan::{Answer, FileName, Status, StepCount, Stop, store, usage};
use ddc_base::Shelf;
use ddc_base::limits::MOST_STATES;
use guest_run::{Guest, RunEnd, RunRam};
use mem_files::Files;
use recipe::Stage;
use std::alloc::Global;

/// `cut RECIPE STAGE EVERY PREFIX`: saves STAGE's states as PREFIX.0, PREFIX.1 and so on. Statuses 0, 2, 4, 6, 7, 10, 11, 13, 14.
pub fn perform<S: Shelf>(alloc: Global, shelf: &mut S, words: &[&str]) -> Result<Answer, Stop>
    ensures { Performs (cut_plan (map (λ w. w.now) words.now)) (S.state shelf.old) (S.state shelf.new) result }
{
    let Some(words) = CutWords::read(words) else {
        return usage(alloc);
    };
    let ready = make_ready(alloc, shelf, &words.target, &words.spacing.prefix)?;
    let stage = match stage_after(&ready) {
        Some(stage) => stage,
        None => return usage(alloc),
    };
    let inputs = ready.inputs.as_slice();
    let done = ready.done.as_slice();
    match start_stage(alloc, &ready.recipe, stage, inputs, done)? {
        Ok(mut guest) => save_along(alloc, shelf, stage, &mut guest, &words.spacing),
        Err(cause) => run_failed(alloc, stage, RunCause::Start(cause), 0),
    }
}

/// Saves the present state of a stage's run, and then those along the run, at most 1,000 in all.
fn save_along<S: Shelf>(
    alloc: Global,
    shelf: &mut S,
    stage: &Stage,
    guest: &mut Guest<RunRam>,
    spacing: &Spacing<'_>,
) -> Result<Answer, Stop>
    requires output { kept.IsOutput stage.now.output }
    requires few { stage.now.steps ≤ most_steps }
    requires below { guest.old.steps < stage.now.steps }
    ensures { Performs (saved_from stage.now spacing.now.every spacing.now.prefix most_states 0 guest.old) (S.state shelf.old) (S.state shelf.new) result }
{
    for saved in 0..MOST_STATES {
        save_state(alloc, shelf, guest, &spacing.prefix, saved)?;
        match go_on(alloc, stage, spacing.every, saved + 1, guest)? {
            Some(answer) => return Ok(answer),
            None => {}
        }
    }
    Ok(Answer {
        status: Status::TooManySegments,
        text: texts::too_many(alloc)?,
    })
}

/// Saves the present state as PREFIX.K for the number K.
fn save_state<S: Shelf>(
    alloc: Global,
    shelf: &mut S,
    guest: &Guest<RunRam>,
    prefix: &NamePrefix<'_>,
    number: u32,
) -> Result<(), Stop>
    requires { number < most_states }
    ensures { Saves (piece_name prefix.now number) (second_text guest.now) (S.state shelf.old) (S.state shelf.new) result }
{
    let name = piece_name(alloc, prefix, number)?;
    let text = write_state(alloc, guest)?;
    store(alloc, shelf, &FileName::of(name.as_str()), text.as_slice())
}

/// Runs the stage by EVERY more steps, or up to its limit. `None` where the run is not over; otherwise the answer to its end.
fn go_on(
    alloc: Global,
    stage: &Stage,
    every: StepCount,
    saved: u32,
    guest: &mut Guest<RunRam>,
) -> Result<Option<Answer>, Stop>
    requires output { kept.IsOutput stage.now.output }
    requires few { stage.now.steps ≤ most_steps }
    requires below { guest.old.steps < stage.now.steps }
    ensures comes_on { ComesOn (came_on stage.now saved (first_end guest.old (next_steps stage.now every guest.old))
        (state_after guest.old (next_steps stage.now every guest.old))) guest.new result }
    ensures below { IsBelow stage.now.steps guest.new result }
{
    let most = every.count().min(stage.steps - guest.steps());
    let end = guest.run(most);
    let steps = guest.steps();
    let step = steps + 1;
    match end {
        RunEnd::Exited(status) => {
            let exit = Exit { status, step };
            Ok(Some(exited(alloc, stage, saved, exit, guest.files())?))
        }
        RunEnd::Trapped(cause) => {
            Ok(Some(run_failed(alloc, stage, RunCause::Trap(cause), step)?))
        }
        RunEnd::UnknownCall(number) => {
            Ok(Some(run_failed(alloc, stage, RunCause::Call(number), step)?))
        }
        RunEnd::Spent if steps < stage.steps => Ok(None),
        RunEnd::Spent => Ok(Some(run_failed(alloc, stage, RunCause::Spent, stage.steps)?)),
        RunEnd::OutOfMemory => Err(Stop::OutOfMemory),
    }
}

/// The answer to an exit after so many saved states.
fn exited(
    alloc: Global,
    stage: &Stage,
    saved: u32,
    exit: Exit,
    files: &Files,
) -> Result<Answer, Stop>
    requires { kept.IsOutput stage.now.output }
    ensures { Says (unless_refused (output_left stage.now exit.status files.now) (λ cause. run_failed stage.now cause exit.step)
        (λ _. answers Yes (cut_line saved exit.step))) result }
{
    match output_left(stage, exit.status, files) {
        Ok(_) => Ok(Answer {
            status: Status::Yes,
            text: texts::cut(alloc, saved, exit.step)?,
        }),
        Err(cause) => run_failed(alloc, stage, cause, exit.step),
    }
}
