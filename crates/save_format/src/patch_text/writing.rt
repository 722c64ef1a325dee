//! Writes a state relative to its base.
ghost use Rattle.std.specs.Prelude.{◌≡◌, ◌==◌, ◌<◌, ◌≤◌, ◌*◌, ◌^◌, ◌++◌, All, OnErr, OnOk, if◌then◌else◌, length, map, option_map};
ghost use Rattle.std.specs.Io.{StartsWith};
ghost use Rattle.std.specs.Option.{option_copied};
ghost use Rattle.std.specs.Int.{w16, w32, w64};
ghost use Rattle.save_format.specs.ByteFields.Spelling.{InTurn, blob_text, list_text, number_text};
ghost use Rattle.save_format.specs.declared.byte_fields.form.TextForm.TheVariants.{Second};
ghost use Rattle.save_format.specs.StateText.StateText.{after_page};
ghost use Rattle.save_format.specs.StateText.Encoded.{IsPage, IsShortFile, IsStateText, descriptor_text, heap_text, name_bytes, reservation_text, run_text};
ghost use Rattle.save_format.specs.StateText.Seen.{file_view, page_view, reserved_view, state_view};
ghost use Rattle.save_format.specs.PatchText.Inside.Walking.{Rises};
ghost use Rattle.save_format.specs.PatchText.Encoded.{IsPatched, change_text, changed_bytes_text, content_relative_text, marked_registers_text, marks_of, page_changes, page_changes_text, patch_body_text, patched_file_text, register_text, text_of_patch, values_text};
ghost use Rattle.save_format.specs.PatchText.Seen.{change_view};

use crate::byte_fields::{all_or_none, put_blob16, put_blob32, put_counted, put_u32, put_u64};
use crate::patch_text::change::Change;
use crate::patch_text::fields::known_content;
use crate::patch_text::merging::{are_same, changes};
use crate::patch_text::reading::MAGIC;
use crate::state_text::{File, Page, StateParts, put_heap, put_reservation};
use ddc_base::{Bytes, OutOfMemory};
use std::alloc::Global;

// ---- registers

fn mark_of(known: u64, value: u64) -> u32
    ensures value { result ≡ (if known == value then 0 else 1) }
    ensures small { result ≤ 1 }
{
    if known == value { 0 } else { 1 }
}

/// A number whose bit i is set if the register at i differs.
#[tactic(auto, unfolding(crate::specs::PatchText::Encoded::marks_of))]
fn marks_of(base: &[u64], registers: &[u64]) -> u32
    requires { length base.now ≤ 31 }
    ensures { result ≡ marks_of base.now registers.now }
{
    match base {
        [] => 0,
        [known, more @ ..] => match registers {
            [] => 0,
            [value, rest @ ..] => {
                let higher = marks_of(more, rest);
                mark_of(*known, *value) + 2 * higher
            }
        },
    }
}

#[tactic(auto, using(crate::proofs::ByteFieldsLemmas::Kept::kept))]
fn put_register(out: &mut Bytes, known: u64, value: u64) -> Result<(), OutOfMemory>
    ensures ok { OnOk result (out.new ≡ out.old ++ register_text known value) }
    ensures err { OnErr result (StartsWith out.new out.old) }
{
    if known == value {
        return Ok(());
    }
    put_u64(out, value)
}

/// Appends the registers that differ.
#[tactic(auto, using(crate::proofs::PatchTextLemmas::Written::written, crate::proofs::ByteFieldsLemmas::Kept::kept), unfolding(crate::specs::PatchText::Encoded::values_text))]
fn put_values(out: &mut Bytes, base: &[u64], registers: &[u64]) -> Result<(), OutOfMemory>
    ensures ok { OnOk result (out.new ≡ out.old ++ values_text base.now registers.now) }
    ensures err { OnErr result (StartsWith out.new out.old) }
{
    match base {
        [] => Ok(()),
        [known, more @ ..] => match registers {
            [] => Ok(()),
            [value, rest @ ..] => {
                put_register(out, *known, *value)?;
                put_values(out, more, rest)
            }
        },
    }
}

#[tactic(auto, using(crate::proofs::PatchTextLemmas::Written::written, crate::proofs::ByteFieldsLemmas::Kept::kept))]
fn put_registers(out: &mut Bytes, base: &[u64], registers: &[u64]) -> Result<(), OutOfMemory>
    requires { length base.now ≤ 31 }
    ensures ok { OnOk result (out.new ≡ out.old ++ marked_registers_text base.now registers.now) }
    ensures err { OnErr result (StartsWith out.new out.old) }
{
    put_u32(out, 2 * marks_of(base, registers))?;
    put_values(out, base, registers)
}

// ---- pages

#[tactic(auto, using(crate::proofs::PatchTextLemmas::Written::written, crate::proofs::ByteFieldsLemmas::Kept::kept))]
fn put_bytes(out: &mut Bytes, bytes: Option<&[u8]>) -> Result<(), OutOfMemory>
    ensures ok { OnOk result (out.new ≡ out.old ++ changed_bytes_text (option_copied bytes.entry)) }
    ensures err { OnErr result (StartsWith out.new out.old) }
{
    match bytes {
        None => out.push(0),
        Some(bytes) => {
            out.push(1)?;
            out.extend(bytes)
        }
    }
}

#[tactic(auto, using(crate::proofs::PatchTextLemmas::Written::written, crate::proofs::ByteFieldsLemmas::Kept::kept))]
fn put_change(out: &mut Bytes, change: &Change<'_>) -> Result<(), OutOfMemory>
    ensures ok { OnOk result (out.new ≡ out.old ++ change_text (change_view change.now)) }
    ensures err { OnErr result (StartsWith out.new out.old) }
{
    put_u32(out, change.number)?;
    put_bytes(out, change.bytes)
}

#[tactic(auto, using(crate::proofs::PatchTextLemmas::Written::written, crate::proofs::ByteFieldsLemmas::Kept::kept))]
fn put_changes(out: &mut Bytes, changes: &[Change<'_>]) -> Result<(), OutOfMemory>
    requires { length changes.now < 2 ^ 32 }
    ensures ok { OnOk result (out.new ≡ out.old ++ list_text change_text (map change_view changes.now)) }
    ensures err { OnErr result (StartsWith out.new out.old) }
{
    put_u32(out, changes.len() as u32)?;
    for change in changes {
        put_change(out, change)?;
    }
    Ok(())
}

/// Appends the changes of pages. No page is copied before it is written.
#[tactic(auto, using(crate::proofs::ByteFieldsLemmas::Kept::kept))]
fn put_pages(
    alloc: Global,
    out: &mut Bytes,
    base: &[Page<'_>],
    pages: &[Page<'_>],
) -> Result<(), OutOfMemory>
    requires base { InTurn IsPage after_page 0 (map page_view base.now) }
    requires pages { InTurn IsPage after_page 0 (map page_view pages.now) }
    requires few { length (page_changes (map page_view base.now) (map page_view pages.now)) < 2 ^ 32 }
    ensures ok { OnOk result (out.new ≡ out.old ++ page_changes_text (map page_view base.now) (map page_view pages.now)) }
    ensures err { OnErr result (StartsWith out.new out.old) }
{
    let found = changes(alloc, base, pages)?;
    put_changes(out, found.as_slice())
}

// ---- contents and files

#[tactic(auto, using(crate::proofs::PatchTextLemmas::Written::written, crate::proofs::ByteFieldsLemmas::Kept::kept))]
fn put_content(out: &mut Bytes, known: Option<&[u8]>, content: &[u8]) -> Result<(), OutOfMemory>
    requires { length content.now < 2 ^ 32 }
    ensures ok { OnOk result (out.new ≡ out.old ++ content_relative_text (option_copied known.entry) content.now) }
    ensures err { OnErr result (StartsWith out.new out.old) }
{
    if are_same(known, Some(content)) {
        return out.push(0);
    }
    out.push(1)?;
    put_blob32(out, content)
}

#[tactic(auto, using(crate::proofs::PatchTextLemmas::Written::written, crate::proofs::ByteFieldsLemmas::Kept::kept))]
fn put_file(out: &mut Bytes, known: Option<&[u8]>, file: &File<'_>) -> Result<(), OutOfMemory>
    requires { IsShortFile (file_view file.now) }
    ensures ok { OnOk result (out.new ≡ out.old ++ (number_text w32 file.now.number
        ++ (blob_text w16 (name_bytes (file_view file.now).name) ++ content_relative_text (option_copied known.entry) (file_view file.now).content))) }
    ensures err { OnErr result (StartsWith out.new out.old) }
{
    put_u32(out, file.number)?;
    put_blob16(out, file.name.unwrap_or(&[]))?;
    put_content(out, known, file.content)
}

/// Appends all files, each relative to the base's file with its number.
#[tactic(auto, using(crate::proofs::ByteFieldsLemmas::Kept::kept))]
fn add_files(out: &mut Bytes, base: &[File<'_>], files: &[File<'_>]) -> Result<(), OutOfMemory>
    requires base { Rises (λ file. file.number) 0 (map file_view base.now) }
    requires files { Rises (λ file. file.number) 0 (map file_view files.now) }
    requires few { length files.now < 2 ^ 32 }
    requires short { All (λ f. IsShortFile (file_view f)) files.now }
    ensures ok { OnOk result (out.new ≡ out.old ++ list_text (patched_file_text (map file_view base.now)) (map file_view files.now)) }
    ensures err { OnErr result (StartsWith out.new out.old) }
{
    put_u32(out, files.len() as u32)?;
    let mut at = 0;
    let mut least = 0;
    for file in files {
        let (known, later) = known_content(base, at, file.number);
        put_file(out, known, file)?;
        at = later;
        least = u64::from(file.number) + 1;
    }
    Ok(())
}

// ---- the whole

/// Appends all files, all or none of their texts.
fn put_files(out: &mut Bytes, base: &[File<'_>], files: &[File<'_>]) -> Result<(), OutOfMemory>
    requires base { Rises (λ file. file.number) 0 (map file_view base.now) }
    requires files { Rises (λ file. file.number) 0 (map file_view files.now) }
    requires few { length files.now < 2 ^ 32 }
    requires short { All (λ f. IsShortFile (file_view f)) files.now }
    ensures ok { OnOk result (out.new ≡ out.old ++ list_text (patched_file_text (map file_view base.now)) (map file_view files.now)) }
    ensures err { OnErr result (out.new ≡ out.old) }
{
    let len = out.len();
    let added = add_files(out, base, files);
    all_or_none(out, len, added)
}

/// Appends the pc, the registers that differ, and the reservation.
#[tactic(auto, using(crate::proofs::PatchTextLemmas::Written::written, crate::proofs::ByteFieldsLemmas::Kept::kept))]
fn put_hart(
    out: &mut Bytes,
    base: &StateParts<'_>,
    parts: &StateParts<'_>,
) -> Result<(), OutOfMemory>
    requires { length base.now.registers ≤ 31 }
    ensures ok { OnOk result (out.new ≡ out.old ++ (number_text w64 parts.now.pc ++ (marked_registers_text base.now.registers parts.now.registers
        ++ reservation_text Second (option_map reserved_view parts.now.reservation)))) }
    ensures err { OnErr result (StartsWith out.new out.old) }
{
    put_u64(out, parts.pc)?;
    put_registers(out, &base.registers, &parts.registers)?;
    put_reservation(out, parts.reservation)
}

/// Appends the pc, the registers that differ, the reservation, and the heap.
#[tactic(auto, using(crate::proofs::PatchTextLemmas::Written::written, crate::proofs::ByteFieldsLemmas::Kept::kept))]
fn put_machine(
    out: &mut Bytes,
    base: &StateParts<'_>,
    parts: &StateParts<'_>,
) -> Result<(), OutOfMemory>
    requires { length base.now.registers ≤ 31 }
    ensures ok { OnOk result (out.new ≡ out.old ++ (number_text w64 parts.now.pc
        ++ (marked_registers_text base.now.registers parts.now.registers
        ++ (reservation_text Second (option_map reserved_view parts.now.reservation) ++ heap_text parts.now.heap)))) }
    ensures err { OnErr result (StartsWith out.new out.old) }
{
    put_hart(out, base, parts)?;
    put_heap(out, parts.heap)
}

/// Appends the numbers after the magic.
#[tactic(auto, using(crate::proofs::PatchTextLemmas::Written::written, crate::proofs::ByteFieldsLemmas::Kept::kept))]
fn put_numbers(
    out: &mut Bytes,
    base: &StateParts<'_>,
    parts: &StateParts<'_>,
) -> Result<(), OutOfMemory>
    requires { length base.now.registers ≤ 31 }
    ensures ok { OnOk result (out.new ≡ out.old ++ (number_text w64 parts.now.steps ++ (number_text w64 parts.now.pc
        ++ (marked_registers_text base.now.registers parts.now.registers
        ++ (reservation_text Second (option_map reserved_view parts.now.reservation) ++ heap_text parts.now.heap))))) }
    ensures err { OnErr result (StartsWith out.new out.old) }
{
    put_u64(out, parts.steps)?;
    put_machine(out, base, parts)
}

/// Appends the lists after the numbers.
#[tactic(auto, using(crate::proofs::PatchTextLemmas::Written::written, crate::proofs::ByteFieldsLemmas::Kept::kept))]
fn put_lists(
    alloc: Global,
    out: &mut Bytes,
    base: &StateParts<'_>,
    parts: &StateParts<'_>,
) -> Result<(), OutOfMemory>
    requires base { IsStateText (state_view base.now) }
    requires parts { IsPatched (state_view base.now) (state_view parts.now) }
    ensures ok { OnOk result (out.new ≡ out.old ++ (list_text run_text (state_view parts.now).runs
        ++ (page_changes_text (state_view base.now).pages (state_view parts.now).pages
        ++ (list_text (patched_file_text (state_view base.now).files) (state_view parts.now).files
        ++ list_text descriptor_text (state_view parts.now).descriptors)))) }
    ensures err { OnErr result (StartsWith out.new out.old) }
{
    put_counted(out, &parts.runs)?;
    put_pages(alloc, out, base.pages.as_slice(), parts.pages.as_slice())?;
    put_files(out, base.files.as_slice(), parts.files.as_slice())?;
    put_counted(out, &parts.descriptors)
}

/// Appends all that follows the magic.
#[tactic(auto, using(crate::proofs::PatchTextLemmas::Written::written, crate::proofs::ByteFieldsLemmas::Kept::kept), unfolding(crate::specs::PatchText::Encoded::patch_body_text))]
fn put_body(
    alloc: Global,
    out: &mut Bytes,
    base: &StateParts<'_>,
    parts: &StateParts<'_>,
) -> Result<(), OutOfMemory>
    requires base { IsStateText (state_view base.now) }
    requires parts { IsPatched (state_view base.now) (state_view parts.now) }
    ensures ok { OnOk result (out.new ≡ out.old ++ patch_body_text (state_view base.now) (state_view parts.now)) }
    ensures err { OnErr result (StartsWith out.new out.old) }
{
    put_numbers(out, base, parts)?;
    put_lists(alloc, out, base, parts)?;
    put_content(out, Some(base.stream1), parts.stream1)?;
    put_content(out, Some(base.stream2), parts.stream2)
}

/// Appends the patch of a state. Out of memory: a part may have been appended.
#[tactic(auto, using(crate::proofs::PatchTextLemmas::Written::written, crate::proofs::ByteFieldsLemmas::Kept::kept))]
fn add_patch(
    alloc: Global,
    out: &mut Bytes,
    base: &StateParts<'_>,
    parts: &StateParts<'_>,
) -> Result<(), OutOfMemory>
    requires base { IsStateText (state_view base.now) }
    requires parts { IsPatched (state_view base.now) (state_view parts.now) }
    ensures ok { OnOk result (out.new ≡ out.old ++ text_of_patch (state_view base.now) (state_view parts.now)) }
    ensures err { OnErr result (StartsWith out.new out.old) }
{
    out.extend(&MAGIC)?;
    put_body(alloc, out, base, parts)
}

/// Appends the patch of a state relative to a base, all or none.
pub fn put_patch(
    alloc: Global,
    out: &mut Bytes,
    base: &StateParts<'_>,
    parts: &StateParts<'_>,
) -> Result<(), OutOfMemory>
    requires base { IsStateText (state_view base.now) }
    requires parts { IsPatched (state_view base.now) (state_view parts.now) }
    ensures ok { OnOk result (out.new ≡ out.old ++ text_of_patch (state_view base.now) (state_view parts.now)) }
    ensures err { OnErr result (out.new ≡ out.old) }
{
    let len = out.len();
    let added = add_patch(alloc, out, base, parts);
    all_or_none(out, len, added)
}
