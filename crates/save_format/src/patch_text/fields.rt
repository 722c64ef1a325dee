//! The fields of a patch that need no allocation, each read relative to the base.
ghost use Rattle.std.specs.Prelude.{◌≡◌, ◌==◌, ◌%◌, ◌≤◌, ◌+◌, ◌&&◌, drop, not, length, IfOk, map, option_map};
ghost use Rattle.std.specs.Option.{option_copied};
ghost use Rattle.save_format.specs.ByteFields.Reader.{Finds, byte, bytes, that, u32, u64};
ghost use Rattle.save_format.specs.StateText.StateText.{is_page};
ghost use Rattle.save_format.specs.StateText.Seen.{file_view, page_view, state_view};
ghost use Rattle.save_format.specs.Inside.Headers.{ReadsHeader, lists_relative_at};
ghost use Rattle.save_format.specs.PatchText.Inside.Walking.{Rises, SameFrom};
ghost use Rattle.save_format.specs.PatchText.PatchText.{change_at, changed_bytes_at, content_relative_at, content_in, is_mark, is_new, marked_at, marked_content_at, marked_registers_at, new_content_at, page_bytes_at, page_in, patch_at, patched_file_at, register_at};
ghost use Rattle.save_format.specs.PatchText.Seen.{change_view};

use crate::byte_fields::{Cursor, TextForm, WrongField};
use crate::patch_text::change::Change;
use crate::patch_text::merging::{are_same, bytes_of};
use crate::patch_text::numbered::{from_number, taken};
use crate::patch_text::reading::MAGIC;
use crate::state_text::{
    File, HeaderNumbers, Page, StateParts, heap_of, is_zero, name_of, reservation_of,
};

/// A register: a value other than the base's if it is marked, otherwise the base's.
#[tactic(auto, unfolding(crate::specs::PatchText::PatchText::register_at))]
fn register_of(cursor: &mut Cursor<'_>, known: u64, marked: bool) -> Result<u64, WrongField>
    ensures { Finds (λ x. x) result cursor.new (register_at known marked cursor.old) }
{
    if !marked {
        return Ok(known);
    }
    let at = cursor.len();
    let value = cursor.u64()?;
    if known == value {
        return Err(WrongField { remaining: at });
    }
    Ok(value)
}

/// The registers with these marks.
fn marked_of(cursor: &mut Cursor<'_>, marks: u32, base: &[u64; 31]) -> Result<[u64; 31], WrongField>
    ensures { Finds (λ x. x) result cursor.new (marked_at marks base.now cursor.old) }
{
    let mut higher = marks;
    let mut registers = [0; 31];
    for index in 0..31usize {
        registers[index] = register_of(cursor, base[index], higher % 2 == 1)?;
        higher /= 2;
    }
    Ok(registers)
}

/// The registers: those that are marked have other values than the base's.
#[tactic(auto, unfolding(crate::specs::PatchText::PatchText::marked_registers_at))]
fn registers_of(cursor: &mut Cursor<'_>, base: &[u64; 31]) -> Result<[u64; 31], WrongField>
    ensures { Finds (λ x. x) result cursor.new (marked_registers_at base.now cursor.old) }
{
    let at = cursor.len();
    let marks = cursor.u32()?;
    if marks % 2 != 0 {
        return Err(WrongField { remaining: at });
    }
    marked_of(cursor, marks / 2, base)
}

/// The magic of a patch, and the numbers after it.
#[tactic(auto, unfolding(crate::specs::PatchText::PatchText::patch_at, crate::specs::PatchText::PatchText::patch_body_at, crate::specs::Inside::Headers::lists_relative_at))]
pub(crate) fn numbers_of(
    cursor: &mut Cursor<'_>,
    base: &StateParts<'_>,
) -> Result<HeaderNumbers, WrongField>
    ensures { ReadsHeader (lists_relative_at (state_view base.now)) result cursor.new (patch_at (state_view base.now) cursor.old) }
{
    cursor.begins_with(&MAGIC)?;
    let steps = cursor.u64()?;
    let pc = cursor.u64()?;
    let registers = registers_of(cursor, &base.registers)?;
    let reservation = reservation_of(cursor, TextForm::Second)?;
    let heap = heap_of(cursor)?;
    Ok(HeaderNumbers {
        steps,
        pc,
        registers,
        reservation,
        heap,
    })
}

/// The byte in front of bytes that may be there: 1 if they are, or 0, which is allowed only if the base has bytes here.
fn mark_of(cursor: &mut Cursor<'_>, known: Option<&[u8]>) -> Result<u8, WrongField>
    ensures { Finds (λ x. x) result cursor.new (that (is_mark (option_copied known.entry)) byte cursor.old) }
{
    let at = cursor.len();
    let mark = cursor.byte()?;
    if !is_mark(known, mark) {
        return Err(WrongField { remaining: at });
    }
    Ok(mark)
}

fn is_mark(known: Option<&[u8]>, mark: u8) -> bool
    ensures { result ≡ is_mark (option_copied known.entry) mark }
{
    match known {
        None => mark == 1,
        Some(_) => mark <= 1,
    }
}

/// Whether these bytes differ from the base's.
fn is_new(known: Option<&[u8]>, found: &[u8]) -> bool
    ensures { result ≡ is_new (option_copied known.entry) found.now }
{
    !are_same(known, Some(found))
}

fn is_new_page(known: Option<&[u8]>, found: &[u8]) -> bool
    ensures { result ≡ (is_page found.now && is_new (option_copied known.entry) found.now) }
{
    !is_zero(found) && is_new(known, found)
}

/// The fields after the number of a page.
#[tactic(auto, unfolding(crate::specs::PatchText::PatchText::changed_bytes_at, crate::specs::PatchText::PatchText::page_bytes_at))]
fn changed_of<'a>(
    cursor: &mut Cursor<'a>,
    known: Option<&[u8]>,
) -> Result<Option<&'a [u8]>, WrongField>
    ensures { Finds option_copied result cursor.new (changed_bytes_at (option_copied known.entry) cursor.old) }
{
    match mark_of(cursor, known)? {
        0 => Ok(None),
        _ => {
            let at = cursor.len();
            let found = cursor.bytes(4096)?;
            if !is_new_page(known, found) {
                return Err(WrongField { remaining: at });
            }
            Ok(Some(found))
        }
    }
}

/// The base's content of a file, and the index of the base's next file.
pub(crate) fn known_content<'a>(
    base: &[File<'a>],
    at: usize,
    number: u32,
) -> (Option<&'a [u8]>, usize)
    requires within { at ≤ length base.now }
    requires rises { Rises (λ file. file.number) 0 (map file_view (drop at base.now)) }
    ensures here { option_copied result.0 ≡ content_in (map file_view (drop at base.now)) number }
    ensures within { result.1 ≤ length base.now }
    ensures rises { Rises (λ file. file.number) (number + 1) (map file_view (drop result.1 base.now)) }
    ensures same { SameFrom (λ file. file.number) (number + 1) (map file_view (drop at base.now)) (map file_view (drop result.1 base.now)) }
{
    let from = from_number(base, at, number);
    let (file, later) = taken(base, from, number);
    (content_of(file), later)
}

fn content_of<'a>(file: Option<&File<'a>>) -> Option<&'a [u8]>
    ensures { option_copied result ≡ option_map (λ file. file.content.now) (option_copied file.entry) }
{
    match file {
        None => None,
        Some(file) => Some(file.content),
    }
}

/// A change whose number is at least `least`, and the index of the base's next page.
#[tactic(auto, unfolding(crate::specs::PatchText::PatchText::change_at))]
pub(crate) fn change_of<'a>(
    cursor: &mut Cursor<'a>,
    base: &[Page<'_>],
    at: usize,
    least: u64,
) -> Result<(Change<'a>, usize), WrongField>
    requires within { at ≤ length base.now }
    requires rises { Rises (λ page. page.number) 0 (map page_view (drop at base.now)) }
    ensures read { Finds (λ x. change_view x.0) result cursor.new (change_at (map page_view (drop at base.now)) least cursor.old) }
    ensures within { IfOk result (λ x. x.1 ≤ length base.now) }
    ensures rises { IfOk result (λ x. Rises (λ page. page.number) (x.0.number + 1) (map page_view (drop x.1 base.now))) }
    ensures same { IfOk result (λ x. SameFrom (λ page. page.number) (x.0.number + 1) (map page_view (drop at base.now)) (map page_view (drop x.1 base.now))) }
{
    let number = cursor.u32_from(least)?;
    let from = from_number(base, at, number);
    let (page, later) = taken(base, from, number);
    let bytes = changed_of(cursor, bytes_of(page))?;
    Ok((Change { number, bytes }, later))
}

// ---- contents

/// The base's content, or other bytes preceded by their length.
#[tactic(auto, unfolding(crate::specs::PatchText::PatchText::content_relative_at, crate::specs::PatchText::PatchText::marked_content_at, crate::specs::PatchText::PatchText::new_content_at))]
pub(crate) fn content<'a>(
    cursor: &mut Cursor<'a>,
    known: Option<&'a [u8]>,
) -> Result<&'a [u8], WrongField>
    ensures { Finds (λ x. x.now) result cursor.new (content_relative_at (option_copied known.entry) cursor.old) }
{
    match mark_of(cursor, known)? {
        0 => Ok(known.unwrap_or(&[])),
        _ => {
            let count = cursor.u32()?;
            let at = cursor.len();
            let found = cursor.bytes(count as usize)?;
            if !is_new(known, found) {
                return Err(WrongField { remaining: at });
            }
            Ok(found)
        }
    }
}

// ---- files

/// A file whose number is at least `least`, and the index of the base's next file.
#[tactic(auto, unfolding(crate::specs::PatchText::PatchText::patched_file_at))]
pub(crate) fn file_of<'a>(
    cursor: &mut Cursor<'a>,
    base: &[File<'a>],
    at: usize,
    least: u64,
) -> Result<(File<'a>, usize), WrongField>
    requires within { at ≤ length base.now }
    requires rises { Rises (λ file. file.number) 0 (map file_view (drop at base.now)) }
    ensures read { Finds (λ x. file_view x.0) result cursor.new (patched_file_at (map file_view (drop at base.now)) least cursor.old) }
    ensures within { IfOk result (λ x. x.1 ≤ length base.now) }
    ensures rises { IfOk result (λ x. Rises (λ file. file.number) (x.0.number + 1) (map file_view (drop x.1 base.now))) }
    ensures same { IfOk result (λ x. SameFrom (λ file. file.number) (x.0.number + 1) (map file_view (drop at base.now)) (map file_view (drop x.1 base.now))) }
{
    let number = cursor.u32_from(least)?;
    let name = cursor.blob16()?;
    let (known, later) = known_content(base, at, number);
    let content = content(cursor, known)?;
    let file = File {
        number,
        name: name_of(name),
        content,
    };
    Ok((file, later))
}
