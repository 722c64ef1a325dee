//! One command of a script.

ghost use Rattle.elf_load.specs.Image.{IsLoadable, image_of};
ghost use Rattle.ddc_base.specs.Limits.{most_steps};
ghost use Rattle.guest_run.specs.Run.{first_end};
ghost use Rattle.guest_run.specs.Start.{start_of};
ghost use Rattle.kaem_script.specs.Fold.{by_first_end, command, program_name};
ghost use Rattle.kaem_script.specs.Inside.Commands.{Begins, BeginsLeft, Comes, Exits, UnlessStopped, renewed, texts_of, world_in};
ghost use Rattle.kaem_script.specs.Kept.{IsCommand};
ghost use Rattle.kaem_script.specs.Reported.{command_line};
ghost use Rattle.kaem_script.specs.Wants.{HasProgram};
ghost use Rattle.std.specs.Prelude.{◌≡◌, ◌+◌, ◌<◌, ◌≤◌, ◌^◌, ℕ, Ok, IfOk, length};

use crate::cause::CommandCause;
use crate::present::{Present, files_in, renewed};
use crate::reading::Command;
use ddc_base::OutOfMemory;
use ddc_base::limits::USUAL_HEAP;
use elf_load::{Image, read_image};
use guest_run::{Guest, RunBox, RunEnd, RunRam, StartRefusal};
use mem_files::{Files, strip};
use report::Mark;
use report::script::CommandLine;
use std::alloc::Global;

/// A command that ran: its line of the report, and the files that it left.
pub(crate) type Exited = (CommandLine, Files);

/// A command that stopped its script: the cause and the step.
pub(crate) type CommandStop = (CommandCause, u64);

/// Runs a command on the files that exist, within `most` steps.
pub(crate) fn run_command(
    alloc: Global,
    present: Present<'_>,
    words: &Command,
    most: u64,
) -> Result<Result<Exited, CommandStop>, OutOfMemory>
    requires words { IsCommand words.now }
    requires some { 1 ≤ most }
    requires few { most ≤ most_steps }
    ensures comes { IfOk result (Comes (command most (world_in present.entry) words.now)) }
    ensures program { UnlessStopped result (HasProgram (world_in present.entry) words.now) }
{
    match begun(alloc, files_in(&present), words)? {
        Ok(guest) => run_over(alloc, guest, present, most),
        Err(cause) => Ok(Err((cause, 0))),
    }
}

/// Starts the program that a command names, without files, or returns why it does not start, which takes no memory.
#[tactic(auto, unfolding(crate::specs::Fold::command, crate::specs::Leaving::command_left))]
pub(crate) fn begun(
    alloc: Global,
    files: &Files,
    words: &Command,
) -> Result<Result<Guest<RunRam>, CommandCause>, OutOfMemory>
    requires { IsCommand words.now }
    ensures begins { (most : ℕ) → IfOk result (Begins files.now words.now most) }
    ensures leaves { (most number : ℕ) → IfOk result (BeginsLeft files.now words.now most number) }
    ensures program { UnlessStopped result (HasProgram files.now words.now) }
    ensures fresh { IfOk result (λ begun. IfOk begun (λ guest. guest.steps ≡ 0)) }
{
    files.show_sound();
    let Some(program) = files.content(program_name(words)) else {
        return Ok(Err(CommandCause::NoProgram));
    };
    match read_image(program) {
        Ok(image) => {
            let guest = start(alloc, program, &image, words)?;
            Ok(Ok(guest))
        }
        Err(refusal) => Ok(Err(CommandCause::Elf(refusal))),
    }
}

/// Runs a guest with the files that exist.
fn run_over(
    alloc: Global,
    guest: Guest<RunRam>,
    present: Present<'_>,
    most: u64,
) -> Result<Result<Exited, CommandStop>, OutOfMemory>
    requires fresh { guest.steps ≡ 0 }
    requires some { 1 ≤ most }
    requires few { most ≤ most_steps }
    ensures { IfOk result (Comes (by_first_end most (first_end (record guest { world = renewed (world_in present.entry) }) most))) }
{
    let files = renewed(alloc, present)?;
    run(guest.with_files(files), most)
}

/// The name of a command's program.
fn program_name(words: &Command) -> &[u8]
    ensures { result.now ≡ program_name words.now }
{
    match words.as_slice() {
        [] => &[],
        [first, ..] => strip(first.as_slice()),
    }
}

/// Starts a command's program, whose image was read, without files.
fn start(
    alloc: Global,
    program: &[u8],
    image: &Image,
    words: &Command,
) -> Result<Guest<RunRam>, OutOfMemory>
    requires words { IsCommand words.now }
    requires read { image_of program.now ≡ Ok image.now }
    requires loadable { IsLoadable (length program.now) image.now }
    ensures meant { IfOk result (λ guest. start_of program.now (texts_of words.now) ≡ Ok guest) }
    ensures fresh { IfOk result (λ guest. guest.steps ≡ 0) }
{
    let mut context = RunBox::new(alloc, USUAL_HEAP);
    for word in words.as_slice() {
        context.push_arg(word.as_slice())?;
    }
    match Guest::<RunRam>::start_image(alloc, program, image, &context) {
        Ok(guest) => Ok(guest),
        Err(StartRefusal::Elf(_)) => unreachable!(),
        Err(StartRefusal::ArgsTooLong) => unreachable!(),
        Err(StartRefusal::BoxTooLarge) => unreachable!(),
        Err(StartRefusal::OutOfMemory) => Err(OutOfMemory),
    }
}

/// Runs a guest to its exit with 0, within `most` steps.
fn run(guest: Guest<RunRam>, most: u64) -> Result<Result<Exited, CommandStop>, OutOfMemory>
    requires fresh { guest.steps ≡ 0 }
    requires some { 1 ≤ most }
    requires few { most ≤ most_steps }
    ensures { IfOk result (Comes (by_first_end most (first_end guest most))) }
{
    let mut guest = guest;
    match exit(&mut guest, most)? {
        Ok(line) => Ok(Ok((line, guest.into_files()))),
        Err(stop) => Ok(Err(stop)),
    }
}

/// Runs a guest up to its exit with 0, within `most` steps. Returns the line of the command.
fn exit(
    guest: &mut Guest<RunRam>,
    most: u64,
) -> Result<Result<CommandLine, CommandStop>, OutOfMemory>
    requires fresh { guest.old.steps ≡ 0 }
    requires some { 1 ≤ most }
    requires few { most ≤ most_steps }
    ensures { IfOk result (Exits (by_first_end most (first_end guest.old most)) guest.new.world) }
{
    match guest.run(most) {
        RunEnd::Exited(0) => Ok(Ok(line_of(guest))),
        RunEnd::Exited(status) => Ok(Err((CommandCause::Status(status), guest.steps() + 1))),
        RunEnd::Trapped(cause) => Ok(Err((CommandCause::Trap(cause), guest.steps() + 1))),
        RunEnd::UnknownCall(number) => Ok(Err((CommandCause::Call(number), guest.steps() + 1))),
        RunEnd::Spent => Ok(Err((CommandCause::Spent, most))),
        RunEnd::OutOfMemory => Err(OutOfMemory),
    }
}

/// The line of a command whose guest is about to exit.
fn line_of(guest: &Guest<RunRam>) -> CommandLine
    requires { guest.now.steps < 2 ^ 63 }
    ensures { result ≡ command_line (record { steps = guest.now.steps + 1; world = guest.now.world }) }
{
    CommandLine {
        steps: guest.steps() + 1,
        stream1: Mark::of(guest.files().stream(1)),
        stream2: Mark::of(guest.files().stream(2)),
    }
}
