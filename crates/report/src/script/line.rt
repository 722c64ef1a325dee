//! One line of a script's report.

ghost use Rattle.std.specs.Prelude.{◌≡◌, IfOk};
ghost use Rattle.report.specs.Inside.Script.Lines.{line_of, longer_line_of, line_of_kind, header_of, script_of, file_of, steps_of, command_of, stream_of, left_of};

use crate::fields::{cut_at, digest_of, file_line_of, mark_of};
use crate::types::{LeftLine, Mark};
use ddc_base::digests::Digest;
use ddc_base::limits::MOST_STEPS;
use ddc_base::{OutOfMemory, read_decimal};
use std::alloc::Global;

/// A line of a script's report.
#[derive(Drop)]
pub enum ScriptLine {
    Header,
    Script(Digest),
    File(LeftLine),
    Command(u64),
    Stream1(Mark),
    Stream2(Mark),
    Left(LeftLine),
    End,
}

/// The line with this text, given without its LF.
#[tactic(auto, unfolding(crate::specs::Inside::Script::Lines::line_of))]
pub(crate) fn line_of(alloc: Global, text: &[u8]) -> Result<Option<ScriptLine>, OutOfMemory>
    ensures { IfOk result (λ line. line ≡ line_of text.now) }
{
    if text == "end".as_bytes() {
        Ok(Some(ScriptLine::End))
    } else {
        longer_line_of(alloc, text)
    }
}

#[tactic(auto, unfolding(crate::specs::Inside::Script::Lines::longer_line_of))]
fn longer_line_of(alloc: Global, text: &[u8]) -> Result<Option<ScriptLine>, OutOfMemory>
    ensures { IfOk result (λ line. line ≡ longer_line_of text.now) }
{
    match cut_at(b' ', text) {
        Some((kind, fields)) => line_of_kind(alloc, kind, fields),
        None => Ok(None),
    }
}

/// A line with more than one word, by its first word.
#[tactic(auto, unfolding(crate::specs::Inside::Script::Lines::line_of_kind))]
fn line_of_kind(
    alloc: Global,
    kind: &[u8],
    fields: &[u8],
) -> Result<Option<ScriptLine>, OutOfMemory>
    ensures { IfOk result (λ line. line ≡ line_of_kind kind.now fields.now) }
{
    if kind == "kaem-report".as_bytes() {
        Ok(header_of(fields))
    } else if kind == "script".as_bytes() {
        Ok(script_of(fields))
    } else if kind == "file".as_bytes() {
        file_of(alloc, fields)
    } else if kind == "command".as_bytes() {
        Ok(command_of(fields))
    } else if kind == "stream".as_bytes() {
        Ok(stream_of(fields))
    } else if kind == "left".as_bytes() {
        left_of(alloc, fields)
    } else {
        Ok(None)
    }
}

#[tactic(auto, unfolding(crate::specs::Inside::Script::Lines::header_of))]
fn header_of(fields: &[u8]) -> Option<ScriptLine>
    ensures { result ≡ header_of fields.now }
{
    match fields {
        b"1" => Some(ScriptLine::Header),
        _ => None,
    }
}

#[tactic(auto, unfolding(crate::specs::Inside::Script::Lines::script_of))]
fn script_of(fields: &[u8]) -> Option<ScriptLine>
    ensures { result ≡ script_of fields.now }
{
    let digest = digest_of(fields)?;
    Some(ScriptLine::Script(digest))
}

#[tactic(auto, unfolding(crate::specs::Inside::Script::Lines::file_of))]
fn file_of(alloc: Global, fields: &[u8]) -> Result<Option<ScriptLine>, OutOfMemory>
    ensures { IfOk result (λ line. line ≡ file_of fields.now) }
{
    match file_line_of(alloc, fields)? {
        Some(file) => Ok(Some(ScriptLine::File(file))),
        None => Ok(None),
    }
}

#[tactic(auto, unfolding(crate::specs::Inside::Script::Lines::command_of))]
fn command_of(fields: &[u8]) -> Option<ScriptLine>
    ensures { result ≡ command_of fields.now }
{
    let steps = steps_of(fields)?;
    Some(ScriptLine::Command(steps))
}

/// A number of steps, from 1 to 2^48.
#[tactic(auto, unfolding(crate::specs::Inside::Script::Lines::steps_of))]
fn steps_of(text: &[u8]) -> Option<u64>
    ensures { result ≡ steps_of text.now }
{
    let steps = read_decimal(text)?;
    if 1 <= steps && steps <= MOST_STEPS {
        Some(steps)
    } else {
        None
    }
}

#[tactic(auto, unfolding(crate::specs::Inside::Script::Lines::stream_of))]
fn stream_of(fields: &[u8]) -> Option<ScriptLine>
    ensures { result ≡ stream_of fields.now }
{
    let (number, mark) = cut_at(b' ', fields)?;
    match number {
        b"1" => {
            let mark = mark_of(mark)?;
            Some(ScriptLine::Stream1(mark))
        }
        b"2" => {
            let mark = mark_of(mark)?;
            Some(ScriptLine::Stream2(mark))
        }
        _ => None,
    }
}

#[tactic(auto, unfolding(crate::specs::Inside::Script::Lines::left_of))]
fn left_of(alloc: Global, fields: &[u8]) -> Result<Option<ScriptLine>, OutOfMemory>
    ensures { IfOk result (λ line. line ≡ left_of fields.now) }
{
    match file_line_of(alloc, fields)? {
        Some(file) => Ok(Some(ScriptLine::Left(file))),
        None => Ok(None),
    }
}
