ghost use Rattle.std.specs.Prelude.{◌≡◌, ◌<◌, IfOk, OnErr, length};
ghost use Rattle.prompt.specs.Prompts.{LineLeaves};
ghost use Rattle.prompt.specs.Reading.{GivesLine, TakesByte, TakesNoLine};
ghost use Rattle.std.specs.Io.KnownBytes.{Keeps};
ghost use Rattle.prompt.specs.Inside.Read.{kept_with, whole_line};

use crate::asking::{Asked, Failed, Line, Prompt};
use std::io;
use std::io::Read;

/// The next byte of a reader; `None` at its end.
fn next_byte<R: Read>(reader: &mut R) -> io::Result<Option<u8>>
    ensures byte { IfOk result (TakesByte (R.remaining reader.old) (R.remaining reader.new)) }
    ensures failed { OnErr result (Keeps (R.remaining reader.old) (R.remaining reader.new)) }
{
    let mut byte = [0];
    if reader.read(&mut byte)? == 0 {
        Ok(None)
    } else {
        Ok(Some(byte[0]))
    }
}

/// The next line of a reader, consumed byte by byte, so that nothing after the line is consumed. An error of the reader
/// is this call's error; no whole line was consumed then.
pub fn read_line<R: Read>(reader: &mut R) -> io::Result<Asked>
    ensures line { IfOk result (GivesLine (R.remaining reader.old) (R.remaining reader.new)) }
    ensures failed { OnErr result (TakesNoLine (R.remaining reader.old) (R.remaining reader.new)) }
{
    let mut line = Line::empty();
    for taken in 0..65_536 {
        match next_byte(reader)? {
            Some(b'\n') => return Ok(whole(line, taken)),
            Some(byte) => keep(&mut line, byte, taken),
            None if taken == 0 => return Ok(Asked::End),
            None => return Ok(whole(line, taken)),
        }
    }
    Ok(Asked::TooLong)
}

/// Stores a byte of a line if it is one of the first 256.
fn keep(line: &mut Line, byte: u8, taken: u32)
    requires { taken < 256 → length line.old < 256 }
    ensures { line.new ≡ kept_with line.old byte taken }
{
    if taken < 256 {
        line.push(byte);
    }
}

/// The result for a line of `size` bytes, of which the first 256 are stored.
fn whole(line: Line, size: u32) -> Asked
    ensures { result ≡ whole_line line size }
{
    if size <= 256 {
        Asked::Line(line)
    } else {
        Asked::TooLong
    }
}

/// An input from a reader, such as the process's standard input (`io::Input::reader`).
///
/// Contracts know nothing of what is left; they count the reader's errors. With standard input it is a trusted interface.
#[derive(Drop)]
pub struct ReaderPrompt<R> {
    reader: R,
    faults: u64,
}

impl<R: Read> ReaderPrompt<R> {
    ghost use Rattle.prompt.specs.Inside.Host.{untold_prompt};

    /// An input from this reader, with no failed call yet.
    pub fn new(reader: R) -> ReaderPrompt<R>
        ensures state { ⟦<ReaderPrompt<R> as Prompt>⟧.state result ≡ untold_prompt 0 }
        ensures as_given { result.reader ≡ reader }
    {
        ReaderPrompt { reader, faults: 0 }
    }
}

impl<R: Read> Prompt for ReaderPrompt<R> {
    ghost use Rattle.prompt.specs.Inside.Host.{untold_prompt};

    ghost state = { λ prompt. untold_prompt prompt.faults };

    fn line(&mut self) -> Result<Asked, Failed>
        ensures leaves { LineLeaves (untold_prompt self.old.faults) result (untold_prompt self.new.faults) }
        ensures whole { IfOk result (GivesLine (R.remaining self.old.reader) (R.remaining self.new.reader)) }
        ensures no_line { OnErr result (TakesNoLine (R.remaining self.old.reader) (R.remaining self.new.reader)) }
    {
        match read_line(&mut self.reader) {
            Ok(asked) => Ok(asked),
            Err(_) => {
                self.faults = self.faults.saturating_add(1);
                Err(Failed)
            }
        }
    }
}
