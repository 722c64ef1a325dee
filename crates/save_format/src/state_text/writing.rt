ghost use Rattle.std.specs.Prelude.{◌≡◌, ◌<◌, ◌^◌, ◌++◌, All, OnErr, OnOk, length, map, option_map};
ghost use Rattle.std.specs.Io.{StartsWith};
ghost use Rattle.std.specs.Int.{w64};
ghost use Rattle.save_format.specs.ByteFields.Spelling.{list_text, number_text};
ghost use Rattle.save_format.specs.declared.byte_fields.form.TextForm.TheVariants.{Second};
ghost use Rattle.save_format.specs.StateText.Encoded.{IsShortFile, IsStateText, body_text, descriptor_text, file_text, heap_text, page_text, reservation_text, run_text, text_of_state, u64s};
ghost use Rattle.save_format.specs.StateText.Seen.{file_view, reserved_view, state_view};

use crate::byte_fields::{all_or_none, put_blob32, put_counted, put_u64};
use crate::state_text::parts::{File, Reserved, StateParts};
use crate::state_text::reading::MAGIC;
use ddc_base::{Bytes, OutOfMemory};
use linux_calls::Heap;

#[tactic(auto, using(crate::proofs::ByteFieldsLemmas::Kept::kept))]
fn put_registers(out: &mut Bytes, registers: &[u64]) -> Result<(), OutOfMemory>
    ensures ok { OnOk result (out.new ≡ out.old ++ u64s registers.now) }
    ensures err { OnErr result (StartsWith out.new out.old) }
{
    for register in registers {
        put_u64(out, *register)?;
    }
    Ok(())
}

#[tactic(auto, using(crate::proofs::ByteFieldsLemmas::Kept::kept))]
pub(crate) fn put_reservation(
    out: &mut Bytes,
    reservation: Option<Reserved>,
) -> Result<(), OutOfMemory>
    ensures ok { OnOk result (out.new ≡ out.old ++ reservation_text Second (option_map reserved_view reservation)) }
    ensures err { OnErr result (StartsWith out.new out.old) }
{
    match reservation {
        None => out.push(0),
        Some(held) => {
            out.push(held.width.count() as u8)?;
            put_u64(out, held.at)
        }
    }
}

#[tactic(auto, using(crate::proofs::ByteFieldsLemmas::Kept::kept))]
pub(crate) fn put_heap(out: &mut Bytes, heap: Heap) -> Result<(), OutOfMemory>
    ensures ok { OnOk result (out.new ≡ out.old ++ heap_text heap) }
    ensures err { OnErr result (StartsWith out.new out.old) }
{
    put_u64(out, heap.first)?;
    put_u64(out, heap.now)?;
    put_u64(out, heap.limit)
}

fn put_files(out: &mut Bytes, files: &[File<'_>]) -> Result<(), OutOfMemory>
    requires few { length files.now < 2 ^ 32 }
    requires short { All (λ f. IsShortFile (file_view f)) files.now }
    ensures ok { OnOk result (out.new ≡ out.old ++ list_text file_text (map file_view files.now)) }
    ensures err { OnErr result (out.new ≡ out.old) }
{
    put_counted(out, files)
}

/// Appends the pc, the registers, and the reservation.
#[tactic(auto, using(crate::proofs::StateTextLemmas::Written::written, crate::proofs::ByteFieldsLemmas::Kept::kept))]
fn put_hart(out: &mut Bytes, parts: &StateParts<'_>) -> Result<(), OutOfMemory>
    ensures ok { OnOk result (out.new ≡ out.old ++ (number_text w64 parts.now.pc ++ (u64s parts.now.registers
        ++ reservation_text Second (option_map reserved_view parts.now.reservation)))) }
    ensures err { OnErr result (StartsWith out.new out.old) }
{
    put_u64(out, parts.pc)?;
    put_registers(out, &parts.registers)?;
    put_reservation(out, parts.reservation)
}

/// Appends the numbers after the magic.
#[tactic(auto, using(crate::proofs::StateTextLemmas::Written::written, crate::proofs::ByteFieldsLemmas::Kept::kept))]
fn put_numbers(out: &mut Bytes, parts: &StateParts<'_>) -> Result<(), OutOfMemory>
    ensures ok { OnOk result (out.new ≡ out.old ++ (number_text w64 parts.now.steps ++ (number_text w64 parts.now.pc
        ++ (u64s parts.now.registers ++ (reservation_text Second (option_map reserved_view parts.now.reservation) ++ heap_text parts.now.heap))))) }
    ensures err { OnErr result (StartsWith out.new out.old) }
{
    put_u64(out, parts.steps)?;
    put_hart(out, parts)?;
    put_heap(out, parts.heap)
}

/// Appends the lists after the numbers.
#[tactic(auto, using(crate::proofs::StateTextLemmas::Written::written, crate::proofs::ByteFieldsLemmas::Kept::kept))]
fn put_lists(out: &mut Bytes, parts: &StateParts<'_>) -> Result<(), OutOfMemory>
    requires { IsStateText (state_view parts.now) }
    ensures ok { OnOk result (out.new ≡ out.old ++ (list_text run_text (state_view parts.now).runs ++ (list_text page_text (state_view parts.now).pages
        ++ (list_text file_text (state_view parts.now).files ++ list_text descriptor_text (state_view parts.now).descriptors)))) }
    ensures err { OnErr result (StartsWith out.new out.old) }
{
    put_counted(out, &parts.runs)?;
    put_counted(out, &parts.pages)?;
    put_files(out, parts.files.as_slice())?;
    put_counted(out, &parts.descriptors)
}

/// Appends all that follows the magic.
#[tactic(auto, using(crate::proofs::StateTextLemmas::Written::written, crate::proofs::ByteFieldsLemmas::Kept::kept), unfolding(crate::specs::StateText::Encoded::body_text))]
fn put_body(out: &mut Bytes, parts: &StateParts<'_>) -> Result<(), OutOfMemory>
    requires { IsStateText (state_view parts.now) }
    ensures ok { OnOk result (out.new ≡ out.old ++ body_text Second (state_view parts.now)) }
    ensures err { OnErr result (StartsWith out.new out.old) }
{
    put_numbers(out, parts)?;
    put_lists(out, parts)?;
    put_blob32(out, parts.stream1)?;
    put_blob32(out, parts.stream2)
}

/// Appends the text of a state. Out of memory: a part may have been appended.
#[tactic(auto, using(crate::proofs::StateTextLemmas::Written::written, crate::proofs::ByteFieldsLemmas::Kept::kept))]
fn add_parts(out: &mut Bytes, parts: &StateParts<'_>) -> Result<(), OutOfMemory>
    requires { IsStateText (state_view parts.now) }
    ensures ok { OnOk result (out.new ≡ out.old ++ text_of_state (state_view parts.now)) }
    ensures err { OnErr result (StartsWith out.new out.old) }
{
    out.extend(&MAGIC)?;
    put_body(out, parts)
}

/// Appends the text of a state in format 2, all or none.
pub fn put_parts(out: &mut Bytes, parts: &StateParts<'_>) -> Result<(), OutOfMemory>
    requires { IsStateText (state_view parts.now) }
    ensures ok { OnOk result (out.new ≡ out.old ++ text_of_state (state_view parts.now)) }
    ensures err { OnErr result (out.new ≡ out.old) }
{
    let len = out.len();
    let added = add_parts(out, parts);
    all_or_none(out, len, added)
}
