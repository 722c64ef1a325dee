//! The guest of a parsed text.

ghost use Rattle.std.specs.Prelude.{◌≡◌, ◌∷◌, [], ◌%◌, ◌↔◌, IsTrue, MatchResult, OnOk, map, option_map};
ghost use Rattle.save_format.specs.ByteFields.Spelling.{InTurn};
ghost use Rattle.save_format.specs.StateText.StateText.{StateText, after_descriptor, after_file};
ghost use Rattle.save_format.specs.StateText.Mappable.{IsHeaderOf};
ghost use Rattle.save_format.specs.StateText.Encoded.{IsDescriptor, IsFile, IsReserved, IsStateText};
ghost use Rattle.save_format.specs.StateText.Seen.{descriptor_view, file_view, reserved_view, state_view};
ghost use Rattle.rv64_machine.specs.Hart.{IsReservation, reserved_bytes};
ghost use Rattle.checkpoints.specs.Checkpoint.{Becomes, MayBeMade, lists_in};
ghost use Rattle.checkpoints.specs.Inside.Parts.{MakesFiles, RefusesReservation};

use crate::file_parts::{FileParts, RestoreRefusal, restore};
use crate::memory::{are_mappable, memory_of};
use ddc_base::OutOfMemory;
use ddc_base::limits::ADDRESS_END;
use guest_run::{Guest, fit_together};
use mem_files::Files;
use paged_mem::Ram;
use rv64_machine::{Hart, Reservation};
use save_format::state_text::{File, NumberedDescriptor, Reserved, StateHeader, StateParts};
use std::alloc::Global;

/// The guest of a parsed text. Errors: `Range` for a count or a range, only then `FileRef` for a reference, and out of memory.
pub fn guest_of<R: Ram>(alloc: Global, parts: &StateParts<'_>) -> Result<Guest<R>, RestoreRefusal>
    requires { IsStateText (state_view parts.now) }
    ensures { Becomes (state_view parts.now) result }
{
    if parts.pc % 4 != 0 {
        return Err(RestoreRefusal::Range);
    }
    let reservation = reservation_of(parts.reservation)?;
    let ram: R = memory_of(alloc, parts)?;
    let hart = hart_of(ram, parts.pc, &parts.registers, reservation);
    if !fit_together(&hart, &parts.heap) {
        return Err(RestoreRefusal::Range);
    }
    let files = files_of(alloc, parts)?;
    Ok(Guest::restore(alloc, hart, files, parts.heap, parts.steps))
}

/// Whether memory is taken for a state with these front fields.
pub fn may_be_made(header: &StateHeader) -> bool
    ensures { (s : StateText) → IsHeaderOf header.now s → IsTrue result ↔ MayBeMade s }
{
    header.pc % 4 == 0 && is_held(header.reservation) && header.mappable
}

/// The front fields of a parsed text, before its pages.
pub fn header_in(parts: &StateParts<'_>) -> StateHeader
    ensures { IsHeaderOf result (state_view parts.now) }
{
    StateHeader {
        steps: parts.steps,
        pc: parts.pc,
        reservation: parts.reservation,
        heap: parts.heap,
        mappable: are_mappable(&parts.runs),
    }
}

/// Whether a hart can hold this reservation.
fn is_held(reserved: Option<Reserved>) -> bool
    ensures { IsTrue result ↔ IsReservation (option_map reserved_view reserved) }
{
    match reserved {
        None => true,
        Some(Reserved { width, at }) => {
            let count = width.count();
            (count == 4 || count == 8) && at % count == 0 && at < ADDRESS_END
        }
    }
}

/// The reservation of a hart: an address below 2^38 that is a multiple of its size. Error: `Range`.
fn reservation_of(reserved: Option<Reserved>) -> Result<Option<Reservation>, RestoreRefusal>
    requires { IsReserved (option_map reserved_view reserved) }
    ensures { MatchResult result
        (λ held. IsReservation (option_map reserved_bytes held) × (option_map reserved_bytes held ≡ option_map reserved_view reserved))
        (RefusesReservation (option_map reserved_view reserved)) }
{
    match reserved {
        None => Ok(None),
        Some(Reserved { width, at }) => {
            if at % width.count() != 0 || at >= ADDRESS_END {
                return Err(RestoreRefusal::Range);
            }
            Ok(Some(Reservation { wide: width, at }))
        }
    }
}

/// A hart with these values in x1 to x31 and this reservation.
fn hart_of<R: Ram>(
    ram: R,
    pc: u64,
    registers: &[u64; 31],
    reservation: Option<Reservation>,
) -> Hart<R>
    requires aligned { pc % 4 ≡ 0 }
    requires reserved { IsReservation (option_map reserved_bytes reservation) }
    ensures { result ≡ record { registers = 0 ∷ registers.now; pc = pc; memory = R.bytes ram; reservation = option_map reserved_bytes reservation } }
{
    let mut hart = Hart::new(ram, pc);
    hart.set_reservation(reservation);
    for index in 0..31u8 {
        hart.set_reg(index + 1, registers[usize::from(index)]);
    }
    hart
}

/// The files of a parsed text.
fn files_of(alloc: Global, parts: &StateParts<'_>) -> Result<Files, RestoreRefusal>
    requires { IsStateText (state_view parts.now) }
    ensures { MakesFiles (lists_in (state_view parts.now)) result }
{
    let mut list = FileParts::new(alloc);
    push_all(&mut list, parts)?;
    restore(alloc, &list)
}

fn push_all<'a>(list: &mut FileParts<'a>, parts: &StateParts<'a>) -> Result<(), OutOfMemory>
    requires empty { list.old ≡ record { files = []; open_files = []; streams = [] } }
    requires text { IsStateText (state_view parts.now) }
    ensures { OnOk result (list.new ≡ lists_in (state_view parts.now)) }
{
    push_files(list, parts.files.as_slice())?;
    push_descriptors(list, parts.descriptors.as_slice())?;
    list.push_stream(parts.stream1)?;
    list.push_stream(parts.stream2)
}

fn push_files<'a>(list: &mut FileParts<'a>, files: &[File<'a>]) -> Result<(), OutOfMemory>
    requires none { list.old.files ≡ [] }
    requires rise { InTurn IsFile after_file 0 (map file_view files.now) }
    ensures { OnOk result (list.new ≡ record list.old { files = map file_view files.now }) }
{
    for file in files {
        list.push_file(file.number, file.name, file.content)?;
    }
    Ok(())
}

fn push_descriptors(
    list: &mut FileParts<'_>,
    descriptors: &[NumberedDescriptor],
) -> Result<(), OutOfMemory>
    requires none { list.old.open_files ≡ [] }
    requires rise { InTurn IsDescriptor after_descriptor 0 (map descriptor_view descriptors.now) }
    ensures { OnOk result (list.new ≡ record list.old { open_files = map descriptor_view descriptors.now }) }
{
    for descriptor in descriptors {
        list.push_open_file(descriptor.fd, descriptor.open_file)?;
    }
    Ok(())
}
