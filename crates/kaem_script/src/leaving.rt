//! What a command left when its run ended, for whatever cause.

ghost use Rattle.guest_run.specs.Run.{first_end};
ghost use Rattle.ddc_base.specs.Limits.{most_steps};
ghost use Rattle.kaem_script.specs.Fold.{AnswersScript};
ghost use Rattle.kaem_script.specs.Inside.Commands.{LeavesOver, UnlessStopped, renewed, world_in};
ghost use Rattle.kaem_script.specs.Kept.{AreCommands, IsCommand};
ghost use Rattle.kaem_script.specs.Leaving.{command_left, left_of_command, end_of_run};
ghost use Rattle.kaem_script.specs.Wants.{HasProgram, OnScriptWant, WantsAt};
ghost use Rattle.std.specs.Prelude.{◌≡◌, ◌∷◌, ◌++◌, ◌≤◌, [], ℕ, IfErr, IfOk, length};

use crate::cause::CommandCause;
use crate::command::begun;
use crate::files::FileList;
use crate::fold::{ScriptStop, fold};
use crate::present::{Present, files_in, renewed};
use crate::reading::Command;
use ddc_base::OutOfMemory;
use guest_run::{Guest, RunEnd, RunRam};
use mem_files::Files;
use std::alloc::Global;

/// What a command's program left: how and at which step its run ended, and the files and streams then. A step that ends a run changes
/// none of them.
#[derive(Drop)]
pub struct CommandLeft {
    /// How the run ended; the status of an exit may be 0.
    pub cause: CommandCause,
    pub step: u64,
    pub files: Files,
}

/// Runs a script's commands in order in one file system, as `audit` does, then the command after them, and returns what that one left,
/// whatever its program ended with. An earlier command may stop the script, and so does the last one if its program does not start.
pub fn left(
    alloc: Global,
    earlier: &[Command],
    command: &Command,
    files: &FileList,
    most: u64,
) -> Result<CommandLeft, ScriptStop>
    requires some { 1 ≤ most }
    requires few { most ≤ most_steps }
    requires earlier { AreCommands earlier.now }
    requires command { IsCommand command.now }
    ensures answer { AnswersScript (left_of_command most files.now.world earlier.now command.now) result }
    ensures memory { IfErr result (λ stop. OnScriptWant stop (WantsAt most files.now.world (earlier.now ++ command.now ∷ []))) }
{
    let (_, present) = fold(alloc, earlier, files.files(), most)?;
    let number = earlier.len() as u32 + 1;
    match left_over(alloc, present, command, most) {
        Ok(Ok(left)) => Ok(left),
        Ok(Err(cause)) => Err(ScriptStop::Failed {
            command: number,
            cause,
            step: 0,
        }),
        Err(OutOfMemory) => Err(ScriptStop::OutOfMemory { command: number }),
    }
}

/// What a command on the files that exist left, or why its program does not start.
fn left_over(
    alloc: Global,
    present: Present<'_>,
    words: &Command,
    most: u64,
) -> Result<Result<CommandLeft, CommandCause>, OutOfMemory>
    requires words { IsCommand words.now }
    requires some { 1 ≤ most }
    requires few { most ≤ most_steps }
    ensures leaves { (number : ℕ) → IfOk result (LeavesOver (command_left most number (world_in present.entry) words.now) number) }
    ensures program { UnlessStopped result (HasProgram (world_in present.entry) words.now) }
{
    match begun(alloc, files_in(&present), words)? {
        Ok(guest) => run_over(alloc, guest, present, most),
        Err(cause) => Ok(Err(cause)),
    }
}

/// What a guest with the files that exist left.
fn run_over(
    alloc: Global,
    guest: Guest<RunRam>,
    present: Present<'_>,
    most: u64,
) -> Result<Result<CommandLeft, CommandCause>, OutOfMemory>
    requires fresh { guest.steps ≡ 0 }
    requires some { 1 ≤ most }
    requires few { most ≤ most_steps }
    ensures { IfOk result (λ left. left ≡ Ok (end_of_run (record guest { world = renewed (world_in present.entry) }) most)) }
{
    let files = renewed(alloc, present)?;
    let left = run_out(guest.with_files(files), most)?;
    Ok(Ok(left))
}

/// Runs a guest to the end of its run, within `most` steps.
fn run_out(guest: Guest<RunRam>, most: u64) -> Result<CommandLeft, OutOfMemory>
    requires fresh { guest.steps ≡ 0 }
    requires some { 1 ≤ most }
    requires few { most ≤ most_steps }
    ensures { IfOk result (λ left. left ≡ end_of_run guest most) }
{
    let mut guest = guest;
    let (cause, step) = end_of(&mut guest, most)?;
    Ok(CommandLeft {
        cause,
        step,
        files: guest.into_files(),
    })
}

/// How a run of at most `most` steps ends: the cause and the step.
#[tactic(auto, unfolding(crate::specs::Leaving::end_of_run))]
fn end_of(guest: &mut Guest<RunRam>, most: u64) -> Result<(CommandCause, u64), OutOfMemory>
    requires fresh { guest.old.steps ≡ 0 }
    requires some { 1 ≤ most }
    requires few { most ≤ most_steps }
    ensures { IfOk result (λ end. end_of_run guest.old most ≡ record { cause = end.0; step = end.1; files = guest.new.world }) }
{
    match guest.run(most) {
        RunEnd::Exited(status) => Ok((CommandCause::Status(status), guest.steps() + 1)),
        RunEnd::Trapped(cause) => Ok((CommandCause::Trap(cause), guest.steps() + 1)),
        RunEnd::UnknownCall(number) => Ok((CommandCause::Call(number), guest.steps() + 1)),
        RunEnd::Spent => Ok((CommandCause::Spent, most)),
        RunEnd::OutOfMemory => Err(OutOfMemory),
    }
}
