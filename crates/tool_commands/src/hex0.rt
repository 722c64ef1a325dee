//! `hex0 SOURCE BINARY`: whether the binary is the hex0 value of the source.

ghost use Rattle.std.specs.Prelude.{map};
ghost use Rattle.ddc_base.specs.Difference as difference;
ghost use Rattle.command_plan.specs.Performs.{Performs};
ghost use Rattle.command_plan.specs.Steps.{Says};
ghost use Rattle.hex_langs.specs.Hex0.{hex0_of};
ghost use Rattle.tool_commands.specs.Hex0.{comparison, hex0_plan};

use crate::words::Hex0Words;
use command_plan::{Answer, Status, Stop, fetch_file, texts, usage};
use ddc_base::{Shelf, first_difference};
use std::alloc::Global;

/// `hex0 SOURCE BINARY`: compares the hex0 value of SOURCE with BINARY. Statuses 0, 2, 3, 10, 11, 13.
pub fn perform<S: Shelf>(alloc: Global, shelf: &mut S, words: &[&str]) -> Result<Answer, Stop>
    ensures { Performs (hex0_plan (map (λ w. w.now) words.now)) (S.state shelf.old) (S.state shelf.new) result }
{
    let Some(words) = Hex0Words::read(words) else {
        return usage(alloc);
    };
    let text = fetch_file(alloc, shelf, &words.source)?;
    let bytes = fetch_file(alloc, shelf, &words.binary)?;
    compare(alloc, text.as_slice(), bytes.as_slice())
}

/// The answer for a source's value and a binary: their length where they are equal, or else the first byte offset at which they differ.
fn compare(alloc: Global, source: &[u8], binary: &[u8]) -> Result<Answer, Stop>
    ensures { Says (comparison (hex0_of source.now) binary.now (difference.first_difference (hex0_of source.now) binary.now)) result }
{
    let value = hex_langs::hex0(alloc, source)?;
    match first_difference(value.as_slice(), binary) {
        None => Ok(Answer {
            status: Status::Yes,
            text: texts::equal(alloc, value.len())?,
        }),
        Some(offset) => Ok(Answer {
            status: Status::Differs,
            text: texts::differs(alloc, offset, value.len(), binary.len())?,
        }),
    }
}
