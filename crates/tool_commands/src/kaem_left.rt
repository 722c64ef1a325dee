//! `kaem-left SCRIPT LIST STEPS COMMAND FILE OUT`: runs the commands of a script up to one of them, however it ends, and saves what it left
//! at FILE.

ghost use Rattle.std.specs.Prelude.{◌≡◌, map};
ghost use Rattle.command_plan.specs.Performs.{Performs};
ghost use Rattle.tool_commands.specs.KaemLeft.{command_absent_status, kaem_left_plan, command_left_status, command_saved_left};

use crate::guest_file::bytes_left_at;
use crate::kaem::stopped;
use crate::script_texts;
use crate::scripts::{fetch_files, fetch_script, fetch_unlisted};
use crate::words::KaemLeftWords;
use command_plan::{Answer, Status, Stop, keep, usage};
use ddc_base::Shelf;
use kaem_script::{CommandCause, CommandLeft};
use std::alloc::Global;

/// `kaem-left SCRIPT LIST STEPS COMMAND FILE OUT`: saves what COMMAND left at FILE. Statuses 0, 2, 6, 10, 11, 13, 15, 16.
pub fn perform<S: Shelf>(alloc: Global, shelf: &mut S, words: &[&str]) -> Result<Answer, Stop>
    ensures { Performs (kaem_left_plan (map (λ w. w.now) words.now)) (S.state shelf.old) (S.state shelf.new) result }
{
    let Some(words) = KaemLeftWords::read(words) else {
        return usage(alloc);
    };
    let script = fetch_script(alloc, shelf, &words.script)?;
    let commands = script.commands();
    let earlier = words.command.number() as usize - 1;
    let command = match commands.get(earlier) {
        Some(command) => command,
        None => return usage(alloc),
    };
    let names = fetch_unlisted(alloc, shelf, &words.list, &words.wanted.out)?;
    let files = fetch_files(alloc, shelf, &names)?;
    let before = &commands[..earlier];
    match kaem_script::left(alloc, before, command, &files, words.steps.count()) {
        Ok(left) => save(alloc, shelf, &left, &words),
        Err(stop) => stopped(alloc, stop),
    }
}

/// Saves the bytes left at FILE, and answers how the run ended. Where nothing was left at FILE, it saves nothing.
#[tactic(auto, unfolding(crate::specs::KaemLeft::command_saved_left))]
fn save<S: Shelf>(
    alloc: Global,
    shelf: &mut S,
    left: &CommandLeft,
    words: &KaemLeftWords<'_>,
) -> Result<Answer, Stop>
    ensures { Performs (command_saved_left words.now.command words.now.wanted.file words.now.wanted.out left.now)
        (S.state shelf.old) (S.state shelf.new) result }
{
    let file = words.wanted.file.text();
    let number = words.command.number();
    let end = (left.cause, left.step);
    match bytes_left_at(&left.files, &words.wanted.file) {
        Some(content) => {
            let answer = Answer {
                status: command_left_status(left.cause),
                text: script_texts::left(alloc, number, file, content.len() as u64, end)?,
            };
            keep(alloc, shelf, &words.wanted.out, content, answer)
        }
        None => Ok(Answer {
            status: command_absent_status(left.cause),
            text: script_texts::not_left(alloc, number, file, end)?,
        }),
    }
}

/// The status where FILE was left: 0 after an exit, 6 after any other end.
fn command_left_status(cause: CommandCause) -> Status
    ensures { result ≡ command_left_status cause }
{
    match cause {
        CommandCause::Status(_) => Status::Yes,
        _ => Status::RunFailed,
    }
}

/// The status where FILE was not left: 10 after an exit, 6 after any other end.
fn command_absent_status(cause: CommandCause) -> Status
    ensures { result ≡ command_absent_status cause }
{
    match cause {
        CommandCause::Status(_) => Status::FileRefused,
        _ => Status::RunFailed,
    }
}
