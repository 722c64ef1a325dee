//! States relative to the state of `states`: what is expected comes from docs/reference/delta.md.

ghost use Rattle.save_format.specs.StateText.Seen.{state_view};
ghost use Rattle.save_format.specs.StateText.Encoded.{IsStateText};
ghost use Rattle.save_format.specs.PatchText.Encoded.{IsPatched};

use crate::texts::pieces::Piece::*;
use crate::texts::pieces::*;
use crate::texts::states::STATE;
use ddc_base::{Bytes, OutOfMemory};
use save_format::patch_text::put_patch;
use save_format::state_text::{StateParts, TextRefusal};
use save_format::{patch_text, state_text};
use std::alloc::{AllocError, Global};
use std::process::Abort;
use std::test::Fail;

/// A patch by its fields.
static PATCH: &[Piece] = &[
    Text(b"ddcdiff2"),
    N8(9),
    N8(0x10004),
    // x1 and x31 are other than the base's.
    N4(0x8000_0002),
    N8(100),
    N8(200),
    // Nothing is reserved, and the heap, from 7 on.
    N1(0),
    N8(0x20000),
    N8(0x20010),
    N8(0x1000),
    // A run, from 10 on.
    N4(1),
    N4(16),
    N4(5),
    // Three pages, from 13 on: one that is gone, one that is new, and one with other bytes.
    N4(3),
    N4(16),
    N1(0),
    N4(17),
    N1(1),
    Page(3),
    N4(18),
    N1(1),
    Page(8),
    // Three files, from 22 on: one with the base's content, a new one without bytes, and one with other bytes and no name.
    N4(3),
    N4(0),
    N2(2),
    Text(b"in"),
    N1(0),
    N4(2),
    N2(3),
    Text(b"new"),
    N1(1),
    N4(0),
    N4(3),
    N2(0),
    N1(1),
    N4(1),
    Text(b"x"),
    // A descriptor, from 37 on.
    N4(1),
    N4(0),
    N1(0),
    // The base's first stream, and another second one, from 40 on.
    N1(0),
    N1(1),
    N4(2),
    Text(b"er"),
];

/// Each rule of the form, broken and kept at its edge.
static CHANGES: &[Change] = &[
    (0, Text(b"ddcdiff1"), Some(0)),
    (0, Text(b"ddcdelt2"), Some(0)),
    (0, Text(b"ddcstat2"), Some(0)),
    (1, N8(0xffff_ffff_ffff_ffff), None),
    (2, N8(0xffff_ffff_ffff_ffff), None),
    // x0 is never marked, and a marked register has another value.
    (3, N4(0x8000_0003), Some(3)),
    (4, N8(1), Some(4)),
    (4, N8(0), None),
    (4, N8(2), None),
    (5, N8(31), Some(5)),
    (5, N8(32), None),
    (6, N1(1), Some(6)),
    (6, Text(b"\x04\x01\0\0\0\0\0\0\0"), None),
    (12, N4(0), Some(12)),
    (12, N4(0xffff_ffff), None),
    // A page that the base does not list is not gone.
    (14, N4(15), Some(15)),
    (15, N1(2), Some(15)),
    (15, N1(255), Some(15)),
    (16, N4(15), Some(16)),
    (16, N4(16), Some(16)),
    (17, N1(0), Some(17)),
    (17, N1(2), Some(17)),
    // A page of zeros, and one of the bytes that the base has at another number.
    (18, Page(0), Some(18)),
    (18, Page(7), None),
    (19, N4(16), Some(19)),
    (19, N4(17), Some(19)),
    (19, N4(0xffff_ffff), None),
    (20, N1(2), Some(20)),
    // The base's own bytes.
    (21, Page(9), Some(21)),
    (21, Page(0), Some(21)),
    // A file of which the base has no content.
    (23, N4(1), Some(26)),
    (25, Text(b"\0/"), None),
    (26, N1(2), Some(26)),
    (27, N4(0), Some(27)),
    (27, N4(1), None),
    (30, N1(0), Some(30)),
    (30, N1(2), Some(30)),
    (32, N4(2), Some(32)),
    // The base's own content, which is empty, is wrong after its length.
    (35, N4(0), Some(36)),
    (39, N1(4), Some(39)),
    (40, N1(2), Some(40)),
    (41, N1(2), Some(41)),
    // The base's second stream is empty.
    (41, N1(0), Some(42)),
    (42, N4(0), Some(43)),
    (42, N4(3), Some(43)),
    (43, Text(b"on"), None),
];

/// Where the first wrong field of a patch's text begins relative to a state.
fn wrong_relative<'a>(alloc: Global, known: &StateParts<'a>, text: &'a [u8]) -> Option<u64>
    requires { IsStateText (state_view known.now) }
{
    match patch_text::read(alloc, known, text) {
        Ok(_) => None,
        Err(TextRefusal::Form(offset)) => Some(offset),
        Err(TextRefusal::OutOfMemory) => Some(u64::MAX),
    }
}

fn wrong<'a>(alloc: Global, base: &'a [u8], text: &'a [u8]) -> Option<u64> {
    match state_text::read(alloc, base) {
        Ok(known) => wrong_relative(alloc, &known, text),
        Err(_) => Some(u64::MAX),
    }
}

/// Patches relative to the state.
struct PatchForm;

impl Form for PatchForm {
    fn wrong(alloc: Global, text: &[u8]) -> Option<u64> {
        match text_of(alloc, STATE) {
            Ok(base) => wrong(alloc, &base, text),
            Err(_) => Some(u64::MAX),
        }
    }
}

#[test]
fn a_changed_field_is_named(rt: HostRuntime) -> Result<(), Fail> {
    Ok(check_changes::<PatchForm>(&rt, rt.alloc(), PATCH, CHANGES)?)
}

/// The same patch with 8 bytes reserved.
fn with_reservation(alloc: Global) -> Result<Vec<Piece>, AllocError> {
    replaced(alloc, PATCH, 6, &[N1(8), N8(0x10008)])
}

/// In a page each 64th byte is enough.
#[test]
fn a_cut_field_is_named(rt: HostRuntime) -> Result<(), Fail> {
    check_cuts::<PatchForm>(&rt, rt.alloc(), PATCH, 64)?;
    let other = with_reservation(rt.alloc())?;
    Ok(check_cuts::<PatchForm>(&rt, rt.alloc(), &other, 64)?)
}

#[test]
fn a_byte_after_the_last_field_is_named(rt: HostRuntime) -> Result<(), Fail> {
    let mut text = text_of(rt.alloc(), PATCH)?;
    let end = text.len() as u64;
    text.push(0)?;
    assert_eq!(rt; PatchForm::wrong(rt.alloc(), &text), Some(end));
    Ok(())
}

/// What a patch says relative to the state: steps and pc, x1, x2 and x31, its two pages' numbers and last bytes, and the contents of the files and of both
/// streams.
struct RecipeContents {
    numbers: (u64, u64),
    x: (u64, u64, u64),
    pages: [(u32, u8); 2],
    contents: &'static [u8],
}

fn is_page(parts: &StateParts<'_>, index: usize, number: u32, last: u8) -> bool {
    match parts.pages.get(index) {
        Some(page) => page.number == number && page.bytes.get(4095) == Some(&last),
        None => false,
    }
}

fn has_numbers(parts: &StateParts<'_>, parsed: &RecipeContents) -> bool {
    let x = (parts.registers[0], parts.registers[1], parts.registers[30]);
    (parts.steps, parts.pc) == parsed.numbers && x == parsed.x
}

fn has_pages(parts: &StateParts<'_>, parsed: &RecipeContents) -> bool {
    let [(first, end), (second, last)] = parsed.pages;
    parts.pages.len() == 2 && is_page(parts, 0, first, end) && is_page(parts, 1, second, last)
}

/// The contents of the files and of both streams, with a mark between two.
fn put_contents(out: &mut Bytes, parts: &StateParts<'_>) -> Result<(), OutOfMemory> {
    for file in &parts.files {
        out.extend(file.content)?;
        out.push(b'/')?;
    }
    out.extend(parts.stream1)?;
    out.push(b'/')?;
    out.extend(parts.stream2)
}

fn has_contents(
    alloc: Global,
    parts: &StateParts<'_>,
    parsed: &RecipeContents,
) -> Result<bool, OutOfMemory> {
    let mut out = Bytes::new(alloc);
    put_contents(&mut out, parts)?;
    Ok(out.as_slice() == parsed.contents)
}

/// Whether a patch relative to a state has this text.
fn is_written(
    alloc: Global,
    known: &StateParts<'_>,
    parts: &StateParts<'_>,
    text: &[u8],
) -> Result<bool, OutOfMemory>
    requires base { IsStateText (state_view known.now) }
    requires parts { IsPatched (state_view known.now) (state_view parts.now) }
{
    let mut out = Bytes::new(alloc);
    put_patch(alloc, &mut out, known, parts)?;
    Ok(out.as_slice() == text)
}

/// Whether parts say this, and their patch relative to a state has this text.
fn has_parts(
    alloc: Global,
    known: &StateParts<'_>,
    parts: &StateParts<'_>,
    text: &[u8],
    parsed: &RecipeContents,
) -> Result<bool, OutOfMemory>
    requires base { IsStateText (state_view known.now) }
    requires parts { IsPatched (state_view known.now) (state_view parts.now) }
{
    let has_contents = has_contents(alloc, parts, parsed)?;
    let is_written = is_written(alloc, known, parts, text)?;
    Ok(has_numbers(parts, parsed) && has_pages(parts, parsed) && has_contents && is_written)
}

fn says_relative<'a>(
    alloc: Global,
    known: &StateParts<'a>,
    text: &'a [u8],
    parsed: &RecipeContents,
) -> Result<bool, OutOfMemory>
    requires { IsStateText (state_view known.now) }
{
    match patch_text::read(alloc, known, text) {
        Ok(parts) => has_parts(alloc, known, &parts, text, parsed),
        Err(_) => Ok(false),
    }
}

fn says_relative_text<'a>(
    alloc: Global,
    base: &'a [u8],
    text: &'a [u8],
    parsed: &RecipeContents,
) -> Result<bool, OutOfMemory> {
    match state_text::read(alloc, base) {
        Ok(known) => says_relative(alloc, &known, text, parsed),
        Err(_) => Ok(false),
    }
}

/// Whether the patch of these pieces says this relative to the state, and is written for it.
fn says(alloc: Global, pieces: &[Piece], parsed: &RecipeContents) -> Result<bool, OutOfMemory> {
    let base = text_of(alloc, STATE)?;
    let text = text_of(alloc, pieces)?;
    says_relative_text(alloc, &base, &text, parsed)
}

static PATCH_PARSED: RecipeContents = RecipeContents {
    numbers: (9, 0x10004),
    x: (100, 2, 200),
    pages: [(17, 3), (18, 8)],
    contents: b"abc//x/out/er",
};

#[test]
fn what_stays_is_the_bases(rt: HostRuntime) -> Result<(), Fail> {
    assert!(rt; says(rt.alloc(), PATCH, &PATCH_PARSED)?);
    Ok(())
}

#[test]
fn a_reservation_is_written_again(rt: HostRuntime) -> Result<(), Fail> {
    let patch = with_reservation(rt.alloc())?;
    assert!(rt; says(rt.alloc(), &patch, &PATCH_PARSED)?);
    Ok(())
}

/// The patch of a state against itself has no register, no page and no content.
pub static NOTHING: &[Piece] = &[
    Text(b"ddcdiff2"),
    N8(5),
    N8(0x10000),
    N4(0),
    N1(0),
    N8(0x20000),
    N8(0x20010),
    N8(0x1000),
    N4(2),
    N4(16),
    N4(1),
    N4(18),
    N4(3),
    N4(0),
    N4(2),
    N4(0),
    N2(2),
    Text(b"in"),
    N1(0),
    N4(3),
    N2(0),
    N1(0),
    N4(4),
    N4(0),
    N1(0),
    N4(1),
    N1(1),
    N4(2),
    N1(2),
    N4(3),
    N1(3),
    N4(0),
    N8(1),
    N1(5),
    N1(0),
    N1(0),
];

static NOTHING_PARSED: RecipeContents = RecipeContents {
    numbers: (5, 0x10000),
    x: (1, 2, 31),
    pages: [(16, 7), (18, 9)],
    contents: b"abc//out/",
};

#[test]
fn a_state_differs_from_itself_in_nothing(rt: HostRuntime) -> Result<(), Fail> {
    assert!(rt; says(rt.alloc(), NOTHING, &NOTHING_PARSED)?);
    Ok(())
}
