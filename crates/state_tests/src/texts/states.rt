use crate::texts::pieces::Piece::*;
use crate::texts::pieces::*;
use ddc_base::{Bytes, OutOfMemory};
use mem_files::{Access, Mode, OpenFile};
use save_format::state_text::{StateParts, TextRefusal, put_parts, read};
use std::alloc::{AllocError, Global};
use std::process::Abort;
use std::test::Fail;

/// A state's text by its fields.
pub static STATE: &[Piece] = &[
    Text(b"ddcstat2"),
    N8(5),
    N8(0x10000),
    // x1 to x31, 3 to 33 of the pieces.
    N8(1),
    N8(2),
    N8(3),
    N8(4),
    N8(5),
    N8(6),
    N8(7),
    N8(8),
    N8(9),
    N8(10),
    N8(11),
    N8(12),
    N8(13),
    N8(14),
    N8(15),
    N8(16),
    N8(17),
    N8(18),
    N8(19),
    N8(20),
    N8(21),
    N8(22),
    N8(23),
    N8(24),
    N8(25),
    N8(26),
    N8(27),
    N8(28),
    N8(29),
    N8(30),
    N8(31),
    // Nothing is reserved, 34 of the pieces.
    N1(0),
    // The heap, from 35 on.
    N8(0x20000),
    N8(0x20010),
    N8(0x1000),
    // Two runs, from 38 on.
    N4(2),
    N4(16),
    N4(1),
    N4(18),
    N4(3),
    // Two pages, from 43 on.
    N4(2),
    N4(16),
    Page(7),
    N4(18),
    Page(9),
    // Two files, from 48 on; the second has neither name nor bytes.
    N4(2),
    N4(0),
    N2(2),
    Text(b"in"),
    N4(3),
    Text(b"abc"),
    N4(3),
    N2(0),
    N4(0),
    // Four descriptors, from 57 on.
    N4(4),
    N4(0),
    N1(0),
    N4(1),
    N1(1),
    N4(2),
    N1(2),
    N4(3),
    N1(3),
    N4(0),
    N8(1),
    N1(5),
    // Two streams, from 69 on.
    N4(3),
    Text(b"out"),
    N4(0),
];

/// Each rule of the form, broken and kept at its edge.
static CHANGES: &[Change] = &[
    (0, Text(b"ddcstat0"), Some(0)),
    (0, Text(b"ddcstat3"), Some(0)),
    (0, Text(b"Ddcstat2"), Some(0)),
    (0, Text(b"ddcsave2"), Some(0)),
    (1, N8(0xffff_ffff_ffff_ffff), None),
    (2, N8(0xffff_ffff_ffff_ffff), None),
    // Nothing is reserved, or 4 bytes or 8 from an address on.
    (34, N1(1), Some(34)),
    (34, N1(2), Some(34)),
    (34, N1(3), Some(34)),
    (34, N1(5), Some(34)),
    (34, N1(7), Some(34)),
    (34, N1(9), Some(34)),
    (34, N1(16), Some(34)),
    (34, N1(255), Some(34)),
    (34, Text(b"\x04\x01\0\0\0\0\0\0\0"), None),
    (34, Text(b"\x08\xff\xff\xff\xff\xff\xff\xff\xff"), None),
    (37, N8(0xffff_ffff_ffff_ffff), None),
    // A third run would begin at the count of pages.
    (38, N4(3), Some(43)),
    (38, N4(0xffff_ffff), Some(43)),
    (39, N4(0xffff_ffff), Some(41)),
    // A run has a page.
    (40, N4(0), Some(40)),
    (42, N4(0), Some(42)),
    (42, N4(0xffff_ffff), None),
    // A page lies between two runs.
    (40, N4(2), Some(41)),
    (41, N4(0), Some(41)),
    (41, N4(16), Some(41)),
    (41, N4(17), Some(41)),
    (41, N4(19), None),
    // Pages ascend, and none is all zeros.
    (44, N4(17), None),
    (44, N4(18), Some(46)),
    (44, N4(0xffff_ffff), Some(46)),
    (45, Page(0), Some(45)),
    (46, N4(16), Some(46)),
    (46, N4(17), None),
    (47, Page(0), Some(47)),
    // Files ascend.
    (49, N4(2), None),
    (49, N4(3), Some(54)),
    (54, N4(0), Some(54)),
    (54, N4(0xffff_ffff), None),
    (51, Text(b"\0/"), None),
    // Descriptors ascend, and there are four kinds.
    (59, N1(1), None),
    (59, N1(2), None),
    (59, N1(4), Some(59)),
    (59, N1(255), Some(59)),
    (60, N4(0), Some(60)),
    (60, N4(2), Some(62)),
    (64, N4(2), Some(64)),
    (64, N4(0xffff_ffff), None),
    (66, N4(0xffff_ffff), None),
    (67, N8(0xffff_ffff_ffff_ffff), None),
    // A file is read or written, or both.
    (68, N1(0), Some(68)),
    (68, N1(1), None),
    (68, N1(2), None),
    (68, N1(3), None),
    (68, N1(4), Some(68)),
    (68, N1(6), None),
    (68, N1(7), None),
    (68, N1(8), Some(68)),
    (68, N1(9), Some(68)),
    // A stream of one byte that is not there.
    (71, N4(1), Some(72)),
];

struct StateForm;

impl Form for StateForm {
    fn wrong(alloc: Global, text: &[u8]) -> Option<u64> {
        match read(alloc, text) {
            Ok(_) => None,
            Err(TextRefusal::Form(offset)) => Some(offset),
            Err(TextRefusal::OutOfMemory) => Some(u64::MAX),
        }
    }
}

#[test]
fn a_changed_field_is_named(rt: HostRuntime) -> Result<(), Fail> {
    Ok(check_changes::<StateForm>(&rt, rt.alloc(), STATE, CHANGES)?)
}

/// The same state with 8 bytes reserved, and without a reservation as the first form has it.
fn with_reservation(alloc: Global) -> Result<Vec<Piece>, AllocError> {
    replaced(alloc, STATE, 34, &[N1(8), N8(0x10008)])
}

fn old(alloc: Global) -> Result<Vec<Piece>, AllocError> {
    let pieces = replaced(alloc, STATE, 34, &[])?;
    replaced(alloc, &pieces, 0, &[Text(b"ddcstat1")])
}

/// Of the state with a reservation, and of it in the first form.
fn check_other_cuts(rt: &impl Abort, alloc: Global) -> Result<(), AllocError> {
    check_cuts::<StateForm>(rt, alloc, &with_reservation(alloc)?, 1)?;
    check_cuts::<StateForm>(rt, alloc, &old(alloc)?, 1)
}

#[test]
fn a_cut_field_is_named(rt: HostRuntime) -> Result<(), Fail> {
    check_cuts::<StateForm>(&rt, rt.alloc(), STATE, 1)?;
    Ok(check_other_cuts(&rt, rt.alloc())?)
}

/// Whether pieces are wrong at the byte before a field.
fn is_wrong_before(alloc: Global, pieces: &[Piece], index: usize) -> Result<bool, AllocError> {
    Ok(wrong_of::<StateForm>(alloc, pieces)? == start(pieces, index).checked_sub(1))
}

/// After an old magic the byte that says what is reserved is one of the heap's. So the count of runs has its last byte in front and reads as
/// 512. Of these the first begins at the page 4,096, the second at 4,608, and the third at 512, which stands where the pages are counted.
fn is_wrong_before_the_pages(alloc: Global) -> Result<bool, AllocError> {
    let pieces = changed(alloc, STATE, (0, Text(b"ddcstat1"), None))?;
    is_wrong_before(alloc, &pieces, 43)
}

#[test]
fn an_old_text_has_no_field_for_a_reservation(rt: HostRuntime) -> Result<(), Fail> {
    assert!(rt; is_wrong_before_the_pages(rt.alloc())?);
    Ok(())
}

/// After a new magic the first byte of an old text's heap has to say how many bytes are reserved.
fn is_wrong_at_the_reservation(alloc: Global) -> Result<bool, AllocError> {
    let pieces = replaced(alloc, STATE, 34, &[N8(0x20001)])?;
    let pieces = replaced(alloc, &pieces, 35, &[])?;
    is_wrong_at::<StateForm>(alloc, &pieces, Some(34))
}

#[test]
fn a_new_text_says_what_is_reserved(rt: HostRuntime) -> Result<(), Fail> {
    assert!(rt; is_wrong_at_the_reservation(rt.alloc())?);
    Ok(())
}

/// Asserts that a text is right, and wrong at its end with one byte or two after it.
fn check_longer(rt: &impl Abort, alloc: Global, text: &mut Vec<u8>) -> Result<(), AllocError> {
    let end = text.len() as u64;
    assert_eq!(rt; StateForm::wrong(alloc, text), None);
    text.push(0)?;
    assert_eq!(rt; StateForm::wrong(alloc, text), Some(end));
    text.push(1)?;
    assert_eq!(rt; StateForm::wrong(alloc, text), Some(end));
    Ok(())
}

#[test]
fn a_byte_after_the_last_field_is_named(rt: HostRuntime) -> Result<(), Fail> {
    let mut text = text_of(rt.alloc(), STATE)?;
    Ok(check_longer(&rt, rt.alloc(), &mut text)?)
}

/// Whether the numbers of the state are read.
fn has_numbers(parts: &StateParts<'_>) -> bool {
    (parts.steps, parts.pc, parts.registers[7]) == (5, 0x10000, 8)
        && parts.reservation.is_none()
        && (parts.heap.first, parts.heap.now, parts.heap.limit) == (0x20000, 0x20010, 0x1000)
}

/// Whether its second run is, and its second page.
fn has_runs_and_pages(parts: &StateParts<'_>) -> bool {
    let (Some(run), Some(page)) = (parts.runs.get(1), parts.pages.get(1)) else {
        return false;
    };
    (run.first, run.pages) == (18, 3) && page.number == 18 && page.bytes.get(4095) == Some(&9)
}

/// Whether its files are, and its streams.
fn has_files_and_streams(parts: &StateParts<'_>) -> bool {
    let (Some(first), Some(second)) = (parts.files.get(0), parts.files.get(1)) else {
        return false;
    };
    first.name == Some(b"in")
        && first.content == b"abc".as_slice()
        && second.number == 3
        && second.name.is_none()
        && parts.stream1 == b"out".as_slice()
}

const OPEN: OpenFile = OpenFile::File {
    number: 0,
    file_offset: 1,
    access: Access {
        mode: Mode::Read,
        appends: true,
    },
};

/// Whether its fourth descriptor is.
fn has_descriptors(parts: &StateParts<'_>) -> bool {
    match parts.descriptors.get(3) {
        Some(held) => held.fd == 3 && held.open_file == OPEN,
        None => false,
    }
}

fn check_parts(rt: &impl Abort, parts: &StateParts<'_>) {
    assert!(rt; has_numbers(parts));
    assert!(rt; has_runs_and_pages(parts));
    assert!(rt; has_files_and_streams(parts));
    assert!(rt; has_descriptors(parts));
}

#[test]
fn a_text_is_read(rt: HostRuntime) -> Result<(), Fail> {
    let text = text_of(rt.alloc(), STATE)?;
    // x8 stands at the offset 80, and at 272 what is reserved is said.
    assert_eq!(rt;
        (text.get(80).copied(), text.get(272).copied()),
        (Some(8), Some(0))
    );
    match read(rt.alloc(), &text) {
        Ok(parts) => Ok(check_parts(&rt, &parts)),
        Err(_) => Err("form".into()),
    }
}

/// The text that is written for what a text says; no byte where it is wrong.
fn again(alloc: Global, text: &[u8]) -> Result<Bytes, OutOfMemory> {
    let mut out = Bytes::new(alloc);
    if let Ok(parts) = read(alloc, text) {
        put_parts(&mut out, &parts)?;
    }
    Ok(out)
}

/// Whether the text of these pieces is written for what the text of others says.
fn is_written(alloc: Global, pieces: &[Piece], wanted: &[Piece]) -> Result<bool, OutOfMemory> {
    let text = text_of(alloc, pieces)?;
    let wanted = text_of(alloc, wanted)?;
    Ok(again(alloc, &text)?.as_slice() == wanted.as_slice())
}

#[test]
fn a_text_is_written_again(rt: HostRuntime) -> Result<(), Fail> {
    assert!(rt; is_written(rt.alloc(), STATE, STATE)?);
    Ok(())
}

/// Whether a text says that so many bytes are reserved, and where.
fn reserves(alloc: Global, text: &[u8], count: u64, at: u64) -> bool {
    match read(alloc, text) {
        Ok(parts) => match parts.reservation {
            Some(held) => (held.width.count(), held.at) == (count, at),
            None => false,
        },
        Err(_) => false,
    }
}

/// Whether the state with a reservation says it, and is written again.
fn keeps_reservation(alloc: Global, count: u8, at: u64) -> Result<bool, OutOfMemory> {
    let pieces = replaced(alloc, STATE, 34, &[N1(count), N8(at)])?;
    let text = text_of(alloc, &pieces)?;
    Ok(reserves(alloc, &text, count as u64, at) && is_written(alloc, &pieces, &pieces)?)
}

#[test]
fn a_reservation_is_written_again(rt: HostRuntime) -> Result<(), Fail> {
    assert!(rt; keeps_reservation(rt.alloc(), 8, 0x10008)?);
    assert!(rt; keeps_reservation(rt.alloc(), 4, 0x1000c)?);
    Ok(())
}

fn old_is_written_anew(alloc: Global) -> Result<bool, OutOfMemory> {
    let old = old(alloc)?;
    is_written(alloc, &old, STATE)
}

#[test]
fn an_old_text_is_written_in_the_second_form(rt: HostRuntime) -> Result<(), Fail> {
    assert!(rt; old_is_written_anew(rt.alloc())?);
    Ok(())
}
