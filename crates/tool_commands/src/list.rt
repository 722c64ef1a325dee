//! `list BINARY`: lists the words of a file by byte offset, each with its value and its instruction.

ghost use Rattle.std.specs.Prelude.{◌≡◌, ◌+◌, ◌*◌, ◌<◌, ◌^◌, ◌++◌, ◌∷◌, [], IfOk, OnOk, length, map};
ghost use Rattle.byteorder.specs.Endian.{little_number};
ghost use Rattle.rv64_decode.specs.Decode.{decoded};
ghost use Rattle.command_plan.specs.declared.status.Status.TheVariants.{Yes};
ghost use Rattle.command_plan.specs.Performs.{Performs};
ghost use Rattle.command_plan.specs.Steps.{Says};
ghost use Rattle.command_plan.specs.Plan.{answers};
ghost use Rattle.command_plan.specs.Causes.Texts.{hex_word};
ghost use Rattle.tool_commands.specs.List.{instruction_text, word_line, rest_line, listing, list_plan};

use crate::words::binary_word;
use byteorder::{BigEndian, ByteOrder, LittleEndian};
use command_plan::{Answer, Status, Stop, fetch, usage};
use ddc_base::limits::MOST_LISTED;
use ddc_base::{Bytes, OutOfMemory, Shelf};
use rv64_decode::{decode, print};
use std::alloc::Global;

/// `list BINARY`: lists the words of BINARY. Statuses 0, 2, 10, 11, 13.
pub fn perform<S: Shelf>(alloc: Global, shelf: &mut S, words: &[&str]) -> Result<Answer, Stop>
    ensures { Performs (list_plan (map (λ w. w.now) words.now)) (S.state shelf.old) (S.state shelf.new) result }
{
    let Some(binary) = binary_word(words) else {
        return usage(alloc);
    };
    let bytes = fetch(alloc, shelf, &binary, MOST_LISTED)?;
    listed(alloc, bytes.as_slice())
}

/// The answer that lists these bytes, fewer than 2^32.
fn listed(alloc: Global, bytes: &[u8]) -> Result<Answer, Stop>
    requires { length bytes.now < 2 ^ 32 }
    ensures { Says (answers Yes (listing 0 bytes.now)) result }
{
    Ok(Answer {
        status: Status::Yes,
        text: text_of(alloc, bytes)?,
    })
}

/// The lines of all words of four bytes, and of the one to three bytes after them.
#[tactic(auto, using(crate::proofs::Listing::listings))]
fn text_of(alloc: Global, bytes: &[u8]) -> Result<Bytes, OutOfMemory>
    requires { length bytes.now < 2 ^ 32 }
    ensures { IfOk result (λ text. text ≡ listing 0 bytes.now) }
{
    let mut text = Bytes::new(alloc);
    let words = bytes.len() / 4;
    for index in 0..words {
        let at = 4 * index;
        put_word(&mut text, at as u32, &bytes[at..at + 4])?;
    }
    let at = 4 * words;
    if at < bytes.len() {
        put_rest(&mut text, at as u32, &bytes[at..])?;
    }
    Ok(text)
}

/// Appends a number as eight hexadecimal digits, and a blank.
fn put_number(text: &mut Bytes, number: u32) -> Result<(), OutOfMemory>
    ensures { OnOk result (text.new ≡ text.old ++ (hex_word number ++ 32 ∷ [])) }
{
    let mut bytes = [0; 4];
    let mut digits = [b' '; 9];
    BigEndian::write_u32(&mut bytes, number);
    hex::encode_to_slice(&bytes, &mut digits[..8]).unwrap();
    text.extend(&digits)
}

/// Appends the line of a word of four bytes.
#[tactic(auto, using(crate::proofs::Listing::listings))]
fn put_word(text: &mut Bytes, offset: u32, bytes: &[u8]) -> Result<(), OutOfMemory>
    requires { length bytes.now ≡ 4 }
    ensures { OnOk result (text.new ≡ text.old ++ word_line offset (little_number 4 bytes.now)) }
{
    let word = LittleEndian::read_u32(bytes);
    put_number(text, offset)?;
    put_number(text, word)?;
    put_instruction(text, offset, word)?;
    text.push(b'\n')?;
    Ok(())
}

/// Appends a word's instruction, or `?` where the word is not an instruction.
fn put_instruction(text: &mut Bytes, offset: u32, word: u32) -> Result<(), OutOfMemory>
    ensures { OnOk result (text.new ≡ text.old ++ instruction_text offset (decoded word)) }
{
    match decode(word) {
        Some(inst) => text.extend(print(&inst, u64::from(offset)).as_slice()),
        None => text.push(b'?'),
    }
}

/// Appends the line of the last one to three bytes.
#[tactic(auto, using(crate::proofs::Listing::listings))]
fn put_rest(text: &mut Bytes, offset: u32, bytes: &[u8]) -> Result<(), OutOfMemory>
    ensures { OnOk result (text.new ≡ text.old ++ rest_line offset bytes.now) }
{
    put_number(text, offset)?;
    text.extend(b"rest ")?;
    ddc_base::put_hex(text, bytes)?;
    text.push(b'\n')?;
    Ok(())
}
