//! The replies of a session, one line each.

ghost use Rattle.std.specs.Prelude.{◌≡◌, ◌++◌, ◌∷◌, ◌<◌, IfOk, OnOk, Some};
ghost use Rattle.std.specs.List.{flat_map};
ghost use Rattle.guest_run.specs.Run.{Exited, Trapped, UnknownCall};
ghost use Rattle.paged_mem.specs.Memory.{bytes_at, reads};
ghost use Rattle.rv64_decode.specs.Decode.{decoded};
ghost use Rattle.command_plan.specs.Causes.Texts.{hex_address, spent_text};
ghost use Rattle.step_debug.specs.Replies.{break_line, end_line, end_text, fetched_text, shown_instruction, mem_line, no_step_line, regs_line, unknown_line, where_line};

use byteorder::{BigEndian, ByteOrder};
use command_plan::causes;
use ddc_base::{Bytes, OutOfMemory, put_decimal, put_hex};
use guest_run::{Guest, RunRam};
use paged_mem::{Ram, Width};
use rv64_decode::{decode, print};
use rv64_machine::Cause;
use std::alloc::Global;

/// Adds an address in sixteen hexadecimal digits.
fn put_address(text: &mut Bytes, address: u64) -> Result<(), OutOfMemory>
    ensures { OnOk result (text.new ≡ text.old ++ hex_address address) }
{
    let mut bytes = [0; 8];
    BigEndian::write_u64(&mut bytes, address);
    put_hex(text, &bytes)
}

/// Adds the instruction of a word; `?` for an illegal word.
fn put_instruction(text: &mut Bytes, at: u64, word: u32) -> Result<(), OutOfMemory>
    ensures { OnOk result (text.new ≡ text.old ++ shown_instruction at (decoded word)) }
{
    match decode(word) {
        Some(inst) => text.extend(print(&inst, at).as_slice()),
        None => text.push(b'?'),
    }
}

/// Adds the instruction at the pc; `?` if no instruction is there.
fn put_fetched(text: &mut Bytes, guest: &Guest<RunRam>) -> Result<(), OutOfMemory>
    ensures { OnOk result (text.new ≡ text.old ++ fetched_text guest.now.hart.pc (reads guest.now.hart.memory guest.now.hart.pc 4)) }
{
    let at = guest.pc();
    match guest.hart().ram().load(at, Width::W4) {
        Some(word) => put_instruction(text, at, word as u32),
        None => text.push(b'?'),
    }
}

/// The line with the steps taken, the pc and the instruction there. Error of each line: out of memory.
#[tactic(auto, using(crate::proofs::Written::written), unfolding(crate::specs::Replies::where_line))]
pub(crate) fn where_line(alloc: Global, guest: &Guest<RunRam>) -> Result<Bytes, OutOfMemory>
    ensures { IfOk result (λ text. text ≡ where_line guest.now) }
{
    let mut text = Bytes::from_slice(alloc, b"at ")?;
    put_decimal(&mut text, guest.steps())?;
    text.push(b' ')?;
    put_address(&mut text, guest.pc())?;
    text.push(b' ')?;
    put_fetched(&mut text, guest)?;
    text.push(b'\n')?;
    Ok(text)
}

/// The line of the end of a run, with its cause and step.
#[tactic(auto, unfolding(crate::specs::Replies::end_line))]
fn end_line(alloc: Global, cause: &str, step: u64) -> Result<Bytes, OutOfMemory>
    ensures { IfOk result (λ text. text ≡ end_line cause.now step) }
{
    Ok(Bytes::from_vec(format!(in alloc; "end {cause} step {step}\n")?.into_bytes()))
}

/// The line of an exit.
pub(crate) fn exited_line(alloc: Global, status: u8, step: u64) -> Result<Bytes, OutOfMemory>
    ensures { IfOk result (λ text. text ≡ end_line (end_text (Exited status)) step) }
{
    let cause = format!(in alloc; "exited {status}")?;
    end_line(alloc, cause.as_str(), step)
}

/// The line of a trap.
pub(crate) fn trapped_line(alloc: Global, cause: Cause, step: u64) -> Result<Bytes, OutOfMemory>
    ensures { IfOk result (λ text. text ≡ end_line (end_text (Trapped cause)) step) }
{
    let cause = causes::trap(alloc, cause)?;
    end_line(alloc, cause.as_str(), step)
}

/// The line of a call with an unknown number.
pub(crate) fn call_line(alloc: Global, number: u64, step: u64) -> Result<Bytes, OutOfMemory>
    ensures { IfOk result (λ text. text ≡ end_line (end_text (UnknownCall number)) step) }
{
    let cause = causes::call(alloc, number)?;
    end_line(alloc, cause.as_str(), step)
}

/// The line of an exhausted step limit.
pub(crate) fn spent_line(alloc: Global, limit: u64) -> Result<Bytes, OutOfMemory>
    ensures { IfOk result (λ text. text ≡ end_line spent_text limit) }
{
    end_line(alloc, causes::spent(), limit)
}

/// The line of the pc and the registers.
pub(crate) fn regs_line(alloc: Global, guest: &Guest<RunRam>) -> Result<Bytes, OutOfMemory>
    ensures { IfOk result (λ text. text ≡ regs_line guest.now.hart) }
{
    let mut text = Bytes::new(alloc);
    put_address(&mut text, guest.pc())?;
    let registers = guest.hart().registers();
    put_values(&mut text, &registers[1..])?;
    text.push(b'\n')?;
    Ok(text)
}

/// Adds values, with a blank before each.
fn put_values(text: &mut Bytes, values: &[u64]) -> Result<(), OutOfMemory>
    ensures { OnOk result (text.new ≡ text.old ++ flat_map (λ value. 32 ∷ hex_address value) values.now) }
{
    for value in values {
        put_value(text, *value)?;
    }
    Ok(())
}

/// Adds a blank and a value.
#[tactic(auto, using(crate::proofs::Written::written))]
fn put_value(text: &mut Bytes, value: u64) -> Result<(), OutOfMemory>
    ensures { OnOk result (text.new ≡ text.old ++ 32 ∷ hex_address value) }
{
    text.push(b' ')?;
    put_address(text, value)
}

/// The line of bytes of memory; `unmapped` if some of them are not mapped.
#[tactic(auto, using(crate::proofs::Written::written))]
pub(crate) fn mem_line(
    alloc: Global,
    guest: &Guest<RunRam>,
    address: u64,
    count: u8,
) -> Result<Bytes, OutOfMemory>
    ensures { IfOk result (λ text. text ≡ mem_line (bytes_at guest.now.hart.memory address count)) }
{
    let mut buffer = [0; 255];
    let bytes = &mut buffer[..usize::from(count)];
    if !guest.peek(address, bytes) {
        return Bytes::from_slice(alloc, b"unmapped\n");
    }
    let mut text = Bytes::new(alloc);
    put_hex(&mut text, bytes)?;
    text.push(b'\n')?;
    Ok(text)
}

/// The line of a new break.
#[tactic(auto, using(crate::proofs::Written::written), unfolding(crate::specs::Replies::break_line))]
pub(crate) fn break_line(alloc: Global, address: u64) -> Result<Bytes, OutOfMemory>
    ensures { IfOk result (λ text. text ≡ break_line address) }
{
    let mut text = Bytes::from_slice(alloc, b"break ")?;
    put_address(&mut text, address)?;
    text.push(b'\n')?;
    Ok(text)
}

/// The line of going back by more steps than were taken.
pub(crate) fn no_step_line(alloc: Global) -> Result<Bytes, OutOfMemory>
    ensures { IfOk result (λ text. text ≡ no_step_line) }
{
    Bytes::from_slice(alloc, b"no such step\n")
}

/// The line of an unknown command.
pub(crate) fn unknown_line(alloc: Global) -> Result<Bytes, OutOfMemory>
    ensures { IfOk result (λ text. text ≡ unknown_line) }
{
    Bytes::from_slice(alloc, b"unknown\n")
}
