//! `help [COMMAND]`: lists the commands with their arguments, or prints what one does.

ghost use Rattle.std.specs.Prelude.{◌≡◌, ◌++◌, ◌∷◌, [], IfOk, OnOk, flat_map, map};
ghost use Rattle.ddc_base.specs.Lines.{line};
ghost use Rattle.command_plan.specs.declared.status.Status.TheVariants.{Yes};
ghost use Rattle.command_plan.specs.Plan.{answers};
ghost use Rattle.command_plan.specs.Steps.{Says};
ghost use Rattle.command_plan.specs.Words.{or_usage};
ghost use Rattle.ddc_app.specs.Help.{all_commands, command_named, form_line, help_plan, help_text, command_page};

use crate::command_word::CommandWord;
use command_plan::{Answer, Status, Stop, usage};
use ddc_base::{Bytes, OutOfMemory};
use std::alloc::Global;

/// `help [COMMAND]`: lists the commands, or prints what COMMAND does. Statuses 0, 2, 13.
pub fn perform(alloc: Global, words: &[&str]) -> Result<Answer, Stop>
    ensures { Says (help_plan (map (λ w. w.now) words.now)) result }
{
    match words {
        [] => help(alloc),
        [word] => on_word(alloc, word),
        _ => usage(alloc),
    }
}

/// The answer that lists all commands.
fn help(alloc: Global) -> Result<Answer, Stop>
    ensures { Says (answers Yes help_text) result }
{
    Ok(Answer {
        status: Status::Yes,
        text: list(alloc)?,
    })
}

/// The answer on a word: what the command of that name does, or a usage answer.
fn on_word(alloc: Global, word: &str) -> Result<Answer, Stop>
    ensures { Says (or_usage (command_named word.now) (λ command. answers Yes (command_page command))) result }
{
    match CommandWord::named(word) {
        Some(command) => page(alloc, command),
        None => usage(alloc),
    }
}

/// The answer that prints what a command does.
fn page(alloc: Global, command: CommandWord) -> Result<Answer, Stop>
    ensures { Says (answers Yes (command_page command)) result }
{
    Ok(Answer {
        status: Status::Yes,
        text: text_of(alloc, command)?,
    })
}

/// The lines of all commands, one each.
fn list(alloc: Global) -> Result<Bytes, OutOfMemory>
    ensures { IfOk result (λ text. text ≡ help_text) }
{
    let mut text = Bytes::new(alloc);
    put_forms(&mut text, CommandWord::all())?;
    Ok(text)
}

/// Appends a line for each of these commands.
fn put_forms(text: &mut Bytes, commands: &[CommandWord]) -> Result<(), OutOfMemory>
    ensures { OnOk result (text.new ≡ text.old ++ flat_map form_line commands.now) }
{
    for command in commands {
        put_line(text, command.form())?;
    }
    Ok(())
}

/// The lines of a command: its arguments, what it does, and its statuses.
#[tactic(auto, using(crate::proofs::Written::written))]
fn text_of(alloc: Global, command: CommandWord) -> Result<Bytes, OutOfMemory>
    ensures { IfOk result (λ text. text ≡ command_page command) }
{
    let mut text = Bytes::new(alloc);
    put_line(&mut text, command.form())?;
    put_line(&mut text, command.answers())?;
    text.extend(b"statuses ")?;
    put_line(&mut text, command.statuses())?;
    Ok(text)
}

/// Appends a line of these words.
#[tactic(auto, using(crate::proofs::Written::written))]
fn put_line(text: &mut Bytes, words: &str) -> Result<(), OutOfMemory>
    ensures { OnOk result (text.new ≡ text.old ++ line (words.now ∷ [])) }
{
    text.extend(words.as_bytes())?;
    text.push(b'\n')?;
    Ok(())
}
