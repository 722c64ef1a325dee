//! `run PROGRAM STEPS ARG..`: runs a program within so many steps, and prints how it ended and what it left.

ghost use Rattle.std.specs.Prelude.{◌≡◌, ◌≤◌, ◌<◌, ◌+◌, ◌∷◌, IfOk, map};
ghost use Rattle.ddc_base.specs.Limits.{most_steps};
ghost use Rattle.guest_run.specs.Run.{first_end};
ghost use Rattle.guest_run.specs.Start.{start_of};
ghost use Rattle.command_plan.specs.Performs.{Performs};
ghost use Rattle.command_plan.specs.Steps.{Says};
ghost use Rattle.command_plan.specs.Plan.{answers};
ghost use Rattle.tool_commands.specs.RunProgram.{setting_of, exited_text, end_plan, start_plan, status_of, run_plan};

use crate::run_texts;
use crate::words::{Args, RunWords};
use command_plan::{Answer, FileName, Status, Stop, fetch_file, usage};
use ddc_base::limits::USUAL_HEAP;
use ddc_base::{OutOfMemory, Shelf};
use guest_run::{Guest, RunBox, RunEnd, RunRam, StartRefusal};
use mem_files::Files;
use std::alloc::Global;

/// `run PROGRAM STEPS ARG..`: runs a program. Statuses 0, 2, 6, 10, 11, 13.
pub fn perform<S: Shelf>(alloc: Global, shelf: &mut S, words: &[&str]) -> Result<Answer, Stop>
    ensures { Performs (run_plan (map (λ w. w.now) words.now)) (S.state shelf.old) (S.state shelf.new) result }
{
    let Some(words) = RunWords::read(words) else {
        return usage(alloc);
    };
    let program = fetch_file(alloc, shelf, &words.program)?;
    let setting = box_of(alloc, &words.program, &words.args)?;
    start(alloc, program.as_slice(), &setting, words.steps.count())
}

/// Starts a program in an execution context, and runs it for at most `most` steps, from 1 to 2^48.
fn start(alloc: Global, program: &[u8], setting: &RunBox, most: u64) -> Result<Answer, Stop>
    requires some { 1 ≤ most }
    requires few { most ≤ most_steps }
    ensures { Says (start_plan (start_of program.now setting.now) most) result }
{
    match Guest::<RunRam>::start(alloc, program, setting) {
        Ok(mut guest) => run_guest(alloc, &mut guest, most),
        Err(StartRefusal::Elf(elf)) => run_texts::not_loaded(alloc, elf),
        Err(StartRefusal::ArgsTooLong) => run_texts::too_many_args(alloc),
        Err(StartRefusal::BoxTooLarge) => run_texts::too_large_box(alloc),
        Err(StartRefusal::OutOfMemory) => Err(Stop::OutOfMemory),
    }
}

/// The execution context of the program: its name and the arguments, no environment, no files and 536,870,912 bytes of heap.
#[tactic(auto, using(crate::proofs::Arguments::text_at, crate::proofs::Arguments::text_of_name))]
fn box_of<'a>(
    alloc: Global,
    name: &'a FileName<'a>,
    args: &'a Args<'a>,
) -> Result<RunBox<'a>, OutOfMemory>
    ensures { IfOk result (λ given. given ≡ setting_of (name.now ∷ args.now)) }
{
    let words = args.words();
    let mut given = RunBox::new(alloc, USUAL_HEAP);
    given.push_arg(name.text().as_bytes())?;
    for arg in words {
        given.push_arg(arg.as_bytes())?;
    }
    Ok(given)
}

/// Runs a started program for at most `most` more steps, at least 1.
fn run_guest(alloc: Global, guest: &mut Guest<RunRam>, most: u64) -> Result<Answer, Stop>
    requires some { 1 ≤ most }
    requires few { guest.old.steps + most ≤ most_steps }
    ensures { Says (end_plan (first_end guest.old most) most) result }
{
    let end = guest.run(most);
    let step = guest.steps() + 1;
    match end {
        RunEnd::Exited(status) => exited(alloc, status, step, guest.files()),
        RunEnd::Trapped(cause) => run_texts::trapped(alloc, cause, step),
        RunEnd::UnknownCall(number) => run_texts::called(alloc, number, step),
        RunEnd::Spent => run_texts::spent(alloc, most),
        RunEnd::OutOfMemory => Err(Stop::OutOfMemory),
    }
}

/// The answer to an exit: its status and step, and what the program left.
fn exited(alloc: Global, status: u8, step: u64, files: &Files) -> Result<Answer, Stop>
    ensures { Says (answers (status_of status) (exited_text status step files.now)) result }
{
    Ok(Answer {
        status: status_of(status),
        text: run_texts::exit_text(alloc, status, step, files)?,
    })
}

/// The command's status after an exit: 0 for the exit status 0, or else 6.
fn status_of(status: u8) -> Status
    ensures { result ≡ status_of status }
{
    if status == 0 {
        Status::Yes
    } else {
        Status::RunFailed
    }
}
