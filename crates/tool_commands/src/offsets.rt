//! Line and column of a byte offset, and the byte offset of an item of a source.

ghost use Rattle.std.specs.Prelude.{◌≡◌, ◌<◌, ◌≤◌, ◌^◌, IfOk, IfSome, length};
ghost use Rattle.std.specs.List.{position};
ghost use Rattle.hex_langs.specs.Items.Tokens.{is_blank, opens_gap};
ghost use Rattle.tool_commands.specs.Offsets.{IsStopped, after_byte, first_offset, leading_word, offset_of_item, spot_after};

use ddc_base::OutOfMemory;
use hex_langs::items::{Dialect, Halt, Items, Open, gap_length, is_blank, take, token_at};
use std::alloc::Global;

/// A line and a column, both from 1.
#[derive(Clone, Copy)]
pub(crate) struct Spot {
    pub line: u64,
    pub column: u64,
}

impl Spot {
    /// The line and column after a byte.
    fn after(self, byte: u8) -> Spot
        requires line { self.line ≤ 2 ^ 40 }
        requires column { self.column ≤ 2 ^ 40 }
        ensures { result ≡ after_byte self byte }
    {
        if byte == b'\n' {
            Spot {
                line: self.line + 1,
                column: 1,
            }
        } else {
            Spot {
                line: self.line,
                column: self.column + 1,
            }
        }
    }
}

/// The line and column after these bytes, at most 2^32.
pub(crate) fn spot_after(prefix: &[u8]) -> Spot
    requires { length prefix.now ≤ 2 ^ 32 }
    ensures { result ≡ spot_after prefix.now }
{
    let mut spot = Spot { line: 1, column: 1 };
    for byte in prefix {
        spot = spot.after(*byte);
    }
    spot
}

/// The word at the front: its bytes up to the next blank or the end.
pub(crate) fn leading_word(rest: &[u8]) -> &[u8]
    ensures { result.now ≡ leading_word rest.now }
{
    match blank_at(rest) {
        Some(size) => &rest[..size],
        None => rest,
    }
}

/// The index of the first blank; `None` where there is no blank.
fn blank_at(rest: &[u8]) -> Option<usize>
    ensures index { result ≡ position is_blank rest.now }
    ensures within { IfSome result (λ at. at < length rest.now) }
{
    rest.iter().position(|byte| is_blank(*byte))
}

/// The byte offset at which the item of an index, from 0, begins: its token, or the first field or reference of its word. `None` where no
/// such item was read. Error: out of memory.
#[tactic(auto, unfolding(crate::specs::Offsets::offset_of_item))]
pub(crate) fn offset_of_item(
    alloc: Global,
    dialect: Dialect,
    source: &[u8],
    index: u64,
) -> Result<Option<usize>, OutOfMemory>
    ensures { IfOk result (λ offset. offset ≡ offset_of_item dialect source.now index) }
{
    let mut items = Items::new(alloc);
    let mut word = None;
    let mut at = 0;
    while at < source.len() {
        let byte = source[at];
        if opens_gap(byte) {
            at += gap_length(&source[at..]);
            continue;
        }
        match token_at(dialect, byte, &source[at + 1..]) {
            Err(_) => return Ok(None),
            Ok((token, more)) => {
                let first = first_offset(&word, at);
                match take(&mut items, word, at, token) {
                    Err(halt) => return stopped(halt),
                    Ok(next) => {
                        if index < items.len() as u64 {
                            return Ok(Some(first));
                        }
                        word = next;
                        at += 1 + more;
                    }
                }
            }
        }
    }
    Ok(None)
}

/// The result of a scan that halted: `None`, or the error out of memory.
fn stopped(halt: Halt) -> Result<Option<usize>, OutOfMemory>
    ensures { IsStopped halt result }
{
    match halt {
        Halt::OutOfMemory => Err(OutOfMemory),
        Halt::Dangling(_) => Ok(None),
        Halt::Second(_) => Ok(None),
        Halt::TooLong => Ok(None),
    }
}

/// The offset of a token, or of the first token of the word that is open.
fn first_offset(word: &Option<Open<'_>>, at: usize) -> usize
    ensures { result ≡ first_offset word.now at }
{
    match word {
        Some(word) => word.first,
        None => at,
    }
}

/// Whether a byte begins a blank or a comment.
fn opens_gap(byte: u8) -> bool
    ensures { result ≡ opens_gap byte }
{
    matches!(byte, b' ' | b'\t' | b'\n' | b'\r' | b'#' | b';')
}
