//! The commands of a script.
ghost use Rattle.std.specs.Prelude.{◌≡◌, ◌+◌, ◌≤◌, ◌<◌, [], false, length, Ok, Err, OnOk, IfOk};
ghost use Rattle.std.specs.Result.{result_and};
ghost use Rattle.kaem_script.specs.Script.{Reads, commands_of, ends_or_begins, ends_word, next_word, with_line};

use crate::refusal::{ScriptFault, ScriptRefusal};
use crate::words::{ScriptWord, parts_words, until_line_end, word_at};
use ddc_base::limits::{MOST_COMMANDS, MOST_WORDS};
use ddc_base::{Bytes, ListOf, OutOfMemory};
use std::alloc::Global;
use std::mem;

/// The words of a command, in order. There is at least one, and the first names the program.
pub type Command = ListOf<Bytes>;

/// The commands of a script. Errors: its first fault from left to right, and out of memory.
pub fn commands_of(alloc: Global, script: &[u8]) -> Result<ListOf<Command>, ScriptRefusal>
    ensures { Reads (commands_of script.now) result }
{
    let mut commands = ListOf::new(alloc);
    let mut words = ListOf::new(alloc);
    read(alloc, script, &mut commands, &mut words)?;
    Ok(commands)
}

/// Reads a script into its commands, with the words of the current line.
fn read(
    alloc: Global,
    script: &[u8],
    commands: &mut ListOf<Command>,
    words: &mut Command,
) -> Result<(), ScriptRefusal>
    requires none { commands.old ≡ [] }
    requires no_word { words.old ≡ [] }
    ensures { Reads (commands_of script.now) (result_and result (Ok commands.new)) }
{
    let mut at = 0;
    while at < script.len() {
        let here = &script[at..];
        let byte = here[0];
        if byte == b'\n' {
            end_line(alloc, commands, words)?;
            at += 1;
        } else if parts_words(byte) {
            at += 1;
        } else if byte == b'#' {
            at += 1 + until_line_end(&here[1..]);
        } else {
            match next_word(commands, words, here) {
                Ok(word) => {
                    words.push(Bytes::from_slice(alloc, word.text)?)?;
                    at += word.size;
                }
                Err(fault) => return Err(ScriptRefusal::At(fault, at as u64)),
            }
        }
    }
    end_line(alloc, commands, words)?;
    Ok(())
}

/// The next word, after this many commands and this many words of its line.
#[tactic(auto, unfolding(crate::specs::Script::next_word))]
fn next_word<'s>(
    commands: &ListOf<Command>,
    words: &Command,
    here: &'s [u8],
) -> Result<ScriptWord<'s>, ScriptFault>
    requires { ends_or_begins ends_word here.now ≡ false }
    ensures value { result ≡ next_word (length commands.now) (length words.now) here.now }
    ensures within { IfOk result (λ word. (1 ≤ word.size) × (word.size ≤ length here.now)) }
{
    if words.len() == MOST_WORDS {
        return Err(ScriptFault::TooManyWords);
    }
    if words.is_empty() && commands.len() == MOST_COMMANDS {
        return Err(ScriptFault::TooMany);
    }
    word_at(words.is_empty(), here)
}

/// Makes the words of a line a command, if there are any.
fn end_line(
    alloc: Global,
    commands: &mut ListOf<Command>,
    words: &mut Command,
) -> Result<(), OutOfMemory>
    ensures commands { OnOk result (commands.new ≡ with_line commands.old words.old) }
    ensures words { OnOk result (words.new ≡ []) }
{
    if !words.is_empty() {
        commands.push(mem::replace(words, ListOf::new(alloc)))?;
    }
    Ok(())
}
