//! Writes the text of a guest.

ghost use Rattle.std.specs.Prelude.{◌≡◌, ◌++◌, IfOk, OnErr, OnOk, drop, option_map};
ghost use Rattle.save_format.specs.StateText.Encoded.{IsStateText, text_of_state};
ghost use Rattle.save_format.specs.StateText.Seen.{reserved_view, state_view};
ghost use Rattle.checkpoints.specs.Checkpoint.{state_of};

use crate::memory_parts::{pages, runs};
use ddc_base::{Bytes, OutOfMemory};
use guest_run::Guest;
use paged_mem::Ram;
use rv64_machine::Hart;
use save_format::state_text::{Reserved, StateParts, descriptors_of, files_of, put_parts};
use std::alloc::Global;

/// Serializes a guest's state (format 2, `ddcstat2`). Error: out of memory.
pub fn write_state<R: Ram>(alloc: Global, guest: &Guest<R>) -> Result<Bytes, OutOfMemory>
    ensures { IfOk result (λ text. text ≡ text_of_state (state_of guest.now)) }
{
    let mut out = Bytes::new(alloc);
    put_state(alloc, &mut out, guest)?;
    Ok(out)
}

/// Adds the text of a guest's state (format 2). Error: out of memory; `out` is unchanged.
pub fn put_state<R: Ram>(
    alloc: Global,
    out: &mut Bytes,
    guest: &Guest<R>,
) -> Result<(), OutOfMemory>
    ensures ok { OnOk result (out.new ≡ out.old ++ text_of_state (state_of guest.now)) }
    ensures err { OnErr result (out.new ≡ out.old) }
{
    let parts = parts_of(alloc, guest)?;
    put_parts(out, &parts)
}

/// The contents of a guest's state, borrowed from it. Error: out of memory.
pub(crate) fn parts_of<R: Ram>(
    alloc: Global,
    guest: &Guest<R>,
) -> Result<StateParts<'_>, OutOfMemory>
    ensures seen { IfOk result (λ parts. state_view parts ≡ state_of guest.now) }
    ensures text { IfOk result (λ parts. IsStateText (state_view parts)) }
{
    let steps = guest.steps();
    let hart = guest.hart();
    let files = guest.files();
    let runs = runs(alloc, hart.ram())?;
    let pages = pages(alloc, hart.ram())?;
    let listed = files_of(alloc, files)?;
    let descriptors = descriptors_of(alloc, files)?;
    Ok(StateParts {
        steps,
        pc: hart.pc(),
        registers: registers_of(hart),
        reservation: reserved_of(hart),
        heap: guest.heap(),
        runs,
        pages,
        files: listed,
        descriptors,
        stream1: files.stream(1),
        stream2: files.stream(2),
    })
}

/// The hart's reservation.
fn reserved_of<R: Ram>(hart: &Hart<R>) -> Option<Reserved>
    ensures { option_map reserved_view result ≡ hart.now.reservation }
{
    match hart.reservation() {
        Some(held) => Some(Reserved {
            width: held.wide,
            at: held.at,
        }),
        None => None,
    }
}

/// The values of x1 to x31.
fn registers_of<R: Ram>(hart: &Hart<R>) -> [u64; 31]
    ensures { result ≡ drop 1 hart.now.registers }
{
    let all = hart.registers();
    let (_, rest) = all.split_at(1);
    let mut registers = [0; 31];
    registers.copy_from_slice(rest);
    registers
}
