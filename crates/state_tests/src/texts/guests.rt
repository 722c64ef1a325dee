use crate::texts::pieces::Piece::*;
use crate::texts::pieces::*;
use crate::texts::states::STATE;
use checkpoints::{StateRefusal, read_state, write_state};
use guest_run::{Guest, RunRam};
use paged_mem::Width;
use rv64_machine::Reservation;
use std::alloc::{AllocError, Global};
use std::process::Abort;
use std::test::Fail;

/// A guest's text after what is reserved, which is the 34th of its pieces.
static AFTER: &[Piece] = &[
    // The heap, from 35 on: of its two pages one is mapped, of which one byte is below the break.
    N8(0x20000),
    N8(0x20001),
    N8(0x2000),
    // Three runs, from 38 on: a page, the heap, and the stack up to the end of memory.
    N4(3),
    N4(16),
    N4(1),
    N4(32),
    N4(1),
    N4(67_106_816),
    N4(2_048),
    // A page, from 45 on.
    N4(1),
    N4(16),
    Page(7),
    // Two files, from 48 on; the second lost its name.
    N4(2),
    N4(0),
    N2(2),
    Text(b"in"),
    N4(3),
    Text(b"abc"),
    N4(1),
    N2(0),
    N4(0),
    // Four descriptors, from 57 on.
    N4(4),
    N4(0),
    N1(0),
    N4(1),
    N1(1),
    N4(2),
    N1(2),
    N4(3),
    N1(3),
    N4(1),
    N8(0),
    N1(3),
    // Two streams, from 69 on.
    N4(3),
    Text(b"out"),
    N4(0),
];

/// What reading gives: 0 is a guest, the others are the refusals' numbers.
const READ: u8 = 0;

const FORM: u8 = 1;

const RANGE: u8 = 2;

const FILE_REF: u8 = 3;

const WANT: u8 = 4;

/// A field by its place, what is put there, and what is read then.
type Row = (usize, Piece, u8);

/// Each rule of states, broken and kept at its edge.
static ROWS: &[Row] = &[
    // The pc is a multiple of 4, and registers are what they are.
    (1, N8(0xffff_ffff_ffff_ffff), READ),
    (2, N8(0x10001), RANGE),
    (2, N8(0x10002), RANGE),
    (2, N8(0x10003), RANGE),
    (2, N8(0x10004), READ),
    (2, N8(0xffff_ffff_ffff_fffc), READ),
    (3, N8(0xffff_ffff_ffff_ffff), READ),
    // Bytes are reserved at a multiple of how many they are, below 2^38, mapped or not.
    (34, N1(1), FORM),
    (34, Text(b"\x04\0\0\0\0\0\0\0\0"), READ),
    (34, Text(b"\x04\x01\0\0\0\0\0\0\0"), RANGE),
    (34, Text(b"\x04\x02\0\0\0\0\0\0\0"), RANGE),
    (34, Text(b"\x04\x03\0\0\0\0\0\0\0"), RANGE),
    (34, Text(b"\x04\x04\0\0\0\0\0\0\0"), READ),
    (34, Text(b"\x08\x04\0\0\0\0\0\0\0"), RANGE),
    (34, Text(b"\x08\x07\0\0\0\0\0\0\0"), RANGE),
    (34, Text(b"\x08\x08\0\x01\0\0\0\0\0"), READ),
    (34, Text(b"\x04\xfc\xff\xff\xff\x3f\0\0\0"), READ),
    (34, Text(b"\x04\0\0\0\0\x40\0\0\0"), RANGE),
    (34, Text(b"\x08\xf8\xff\xff\xff\x3f\0\0\0"), READ),
    (34, Text(b"\x08\0\0\0\0\x40\0\0\0"), RANGE),
    (34, Text(b"\x08\xf8\xff\xff\xff\xff\xff\xff\xff"), RANGE),
    // The heap: where it begins, its break, its limit, and the pages that are mapped.
    (35, N8(0x20001), RANGE),
    (35, N8(0x20004), RANGE),
    (35, N8(0x1f000), RANGE),
    (36, N8(0x1ffff), RANGE),
    (36, N8(0x20000), RANGE),
    (36, N8(0x21000), READ),
    (36, N8(0x21001), RANGE),
    (36, N8(0x22001), RANGE),
    (37, N8(0), RANGE),
    (37, N8(1), READ),
    (37, N8(0x4000_0000), READ),
    (37, N8(0x4000_0001), RANGE),
    (37, N8(0xffff_ffff_ffff_ffff), RANGE),
    (42, N4(2), RANGE),
    // Runs end in memory, and the stack is mapped.
    (43, N4(67_106_817), RANGE),
    (43, N4(67_106_815), RANGE),
    (43, N4(0xffff_ffff), RANGE),
    (44, N4(2_047), RANGE),
    (44, N4(2_049), RANGE),
    (44, N4(0xffff_ffff), RANGE),
    (40, N4(2), READ),
    (41, N4(33), RANGE),
    (40, N4(0xffff_ffff), FORM),
    // Each listed page is mapped.
    (39, N4(17), RANGE),
    (46, N4(15), RANGE),
    (46, N4(17), RANGE),
    (46, N4(32), READ),
    (46, N4(0xffff_ffff), RANGE),
    // Names and numbers of files.
    (51, Text(b".."), READ),
    (51, Text(b"./"), RANGE),
    (51, Text(b"i\0"), RANGE),
    (51, Text(b"\0n"), RANGE),
    (51, Text(b"/n"), READ),
    // The second file gets a name: another, and that of the first.
    (55, Text(b"\x02\0on"), READ),
    (55, Text(b"\x02\0in"), RANGE),
    (54, N4(5_119), FILE_REF),
    (54, N4(5_120), RANGE),
    // Descriptors.
    (59, N1(1), RANGE),
    (59, N1(2), RANGE),
    (61, N1(0), RANGE),
    (61, N1(2), RANGE),
    (63, N1(0), RANGE),
    (63, N1(1), RANGE),
    (64, N4(1_023), READ),
    (64, N4(1_024), RANGE),
    (67, N8(0x7fff_ffff_ffff_ffff), READ),
    (67, N8(0x8000_0000_0000_0000), RANGE),
    // A descriptor's file is listed, and each file has a name or a descriptor.
    (66, N4(2), FILE_REF),
    (66, N4(0), FILE_REF),
];

/// Several fields by their places, each with what is put there, and what is read then.
type Several = (&'static [(usize, Piece)], u8);

/// Rules that it takes several fields to break, or to keep.
static SEVERAL: &[Several] = &[
    // The break at its largest, and a byte above it; a heap of no bytes, and one of the most pages.
    (&[(36, N8(0x22000)), (42, N4(2))], READ),
    (&[(36, N8(0x22001)), (42, N4(3))], RANGE),
    (&[(36, N8(0x20000)), (37, N8(0))], READ),
    (
        &[
            (36, N8(0x4002_0000)),
            (37, N8(0x4000_0000)),
            (42, N4(262_144)),
        ],
        READ,
    ),
    // A page after the largest end is mapped; a page that the largest end is in.
    (&[(37, N8(0x1000)), (42, N4(2))], READ),
    (&[(37, N8(0x1001)), (42, N4(2))], RANGE),
    // The heap ends where the stack begins, and a byte above it, where the page of the break is mapped.
    (
        &[
            (35, N8(0x3f_ff7f_f000)),
            (36, N8(0x3f_ff80_0000)),
            (37, N8(0x1000)),
            (43, N4(67_106_815)),
            (44, N4(2_049)),
        ],
        READ,
    ),
    (
        &[
            (35, N8(0x3f_ff7f_f000)),
            (36, N8(0x3f_ff80_0001)),
            (37, N8(0x1001)),
            (43, N4(67_106_815)),
            (44, N4(2_049)),
        ],
        RANGE,
    ),
    (
        &[
            (35, N8(0xffff_ffff_ffff_f000)),
            (36, N8(0xffff_ffff_ffff_f000)),
        ],
        RANGE,
    ),
    // As many pages beside the heap as may be, and one more.
    (&[(43, N4(67_041_281)), (44, N4(67_583))], READ),
    (&[(43, N4(67_041_280)), (44, N4(67_584))], RANGE),
    // Names of no bytes, of 255 and of 256, and `./` before a name.
    (&[(50, N2(0)), (51, Text(b""))], FILE_REF),
    (&[(50, N2(1)), (51, Text(b"."))], READ),
    (&[(50, N2(255)), (51, Text(&[b'n'; 255]))], READ),
    (&[(50, N2(256)), (51, Text(&[b'n'; 256]))], RANGE),
    (&[(50, N2(4)), (51, Text(b"./in"))], RANGE),
    (&[(50, N2(4)), (51, Text(b"i./n"))], READ),
    // The largest number of a file.
    (&[(54, N4(5_119)), (66, N4(5_119))], READ),
    // Each file has a name, and the open one is not listed; then it is.
    (&[(55, Text(b"\x02\0on")), (66, N4(2))], FILE_REF),
    (&[(55, Text(b"\x02\0on")), (66, N4(0))], READ),
    // A stream at the number 3, with no file after it; a range that is wrong is said before a reference.
    (
        &[
            (55, Text(b"\x02\0on")),
            (65, N1(2)),
            (66, Text(b"")),
            (67, Text(b"")),
            (68, Text(b"")),
        ],
        RANGE,
    ),
    (&[(2, N8(0x10002)), (66, N4(2))], RANGE),
    (&[(36, N8(0x22001)), (66, N4(2))], RANGE),
    (&[(66, N4(2)), (67, N8(0x8000_0000_0000_0000))], RANGE),
    (&[(54, N4(5_120)), (66, N4(5_120))], RANGE),
    // A reservation of no hart is said before a reference.
    (&[(34, Text(b"\x04\x02\0\0\0\0\0\0\0")), (66, N4(2))], RANGE),
    // The form is said before both.
    (&[(2, N8(0x10002)), (68, N1(0))], FORM),
];

/// The text of a guest.
pub fn pieces(alloc: Global) -> Result<Vec<Piece>, AllocError> {
    let mut list = Vec::new(alloc);
    for piece in STATE.iter().take(35) {
        list.push(*piece)?;
    }
    list.extend_from_slice(AFTER)?;
    Ok(list)
}

/// Puts pieces in the places of some.
fn set_all(pieces: &mut [Piece], changes: &[(usize, Piece)]) {
    for (index, piece) in changes {
        set(pieces, *index, *piece);
    }
}

/// The guest's text with some fields changed.
pub fn text_with(alloc: Global, changes: &[(usize, Piece)]) -> Result<Vec<u8>, AllocError> {
    let mut list = pieces(alloc)?;
    set_all(&mut list, changes);
    text_of(alloc, &list)
}

/// The guest's text with other pieces in place of what is reserved.
fn text_with_reservation(alloc: Global, others: &[Piece]) -> Result<Vec<u8>, AllocError> {
    let list = pieces(alloc)?;
    text_of_replaced(alloc, &list, 34, others)
}

/// The guest that a text says; none where it is refused.
pub fn guest_of(alloc: Global, text: &[u8]) -> Option<Guest<RunRam>> {
    read_state(alloc, text).ok()
}

/// What reading a text gives.
fn answer(alloc: Global, text: &[u8]) -> u8 {
    let read: Result<Guest<RunRam>, StateRefusal> = read_state(alloc, text);
    match read {
        Ok(_) => READ,
        Err(StateRefusal::Form(_)) => FORM,
        Err(StateRefusal::Range) => RANGE,
        Err(StateRefusal::FileRef) => FILE_REF,
        Err(StateRefusal::OutOfMemory) => WANT,
    }
}

/// What reading gives where some fields are changed.
fn answer_to(alloc: Global, changes: &[(usize, Piece)]) -> Result<u8, AllocError> {
    Ok(answer(alloc, &text_with(alloc, changes)?))
}

#[test]
fn each_rule_has_its_refusal(rt: HostRuntime) -> Result<(), Fail> {
    for (index, piece, want) in ROWS {
        let changes = [(*index, *piece)];
        assert_eq!(rt; answer_to(rt.alloc(), &changes)?, *want, "{changes:?}");
    }
    Ok(())
}

#[test]
fn each_rule_of_several_fields_has_its_refusal(rt: HostRuntime) -> Result<(), Fail> {
    for (changes, want) in SEVERAL {
        assert_eq!(rt; answer_to(rt.alloc(), changes)?, *want, "{changes:?}");
    }
    Ok(())
}

/// Adds so many named files.
fn put_files(text: &mut Vec<u8>, count: u32) -> Result<(), AllocError> {
    text.extend_from_slice(&count.to_le_bytes())?;
    for number in 0..count {
        text.extend_from_slice(&number.to_le_bytes())?;
        let name = [(number % 64) as u8 + 64, (number / 64 % 128) as u8 + 1];
        text.extend_from_slice(&[2, 0])?;
        text.extend_from_slice(&name)?;
        text.extend_from_slice(&[0; 4])?;
    }
    Ok(())
}

/// Adds the pieces with so many named files in place of the two that they have.
fn put_crowded(text: &mut Vec<u8>, whole: &[Piece], count: u32) -> Result<(), AllocError> {
    put_all(text, whole.get(..48).unwrap_or(&[]))?;
    put_files(text, count)?;
    put_all(text, whole.get(57..).unwrap_or(&[]))
}

/// The guest's text with so many named files.
fn crowded(alloc: Global, count: u32) -> Result<Vec<u8>, AllocError> {
    let whole = pieces(alloc)?;
    let mut text = Vec::new(alloc);
    put_crowded(&mut text, &whole, count)?;
    Ok(text)
}

/// What reading the guest's text with so many named files gives.
fn answer_to_crowd(alloc: Global, count: u32) -> Result<u8, AllocError> {
    Ok(answer(alloc, &crowded(alloc, count)?))
}

#[test]
fn names_are_counted(rt: HostRuntime) -> Result<(), Fail> {
    assert_eq!(rt; answer_to_crowd(rt.alloc(), 4_096)?, READ);
    assert_eq!(rt; answer_to_crowd(rt.alloc(), 4_097)?, RANGE);
    Ok(())
}

/// Whether a guest has this text.
pub fn has_text(alloc: Global, guest: &Guest<RunRam>, text: &[u8]) -> bool {
    match write_state(alloc, guest) {
        Ok(written) => written.as_slice() == text,
        Err(_) => false,
    }
}

/// Whether a text says a guest that has the other text.
fn is_written(alloc: Global, text: &[u8], wanted: &[u8]) -> bool {
    match guest_of(alloc, text) {
        Some(guest) => has_text(alloc, &guest, wanted),
        None => false,
    }
}

fn check_guest(rt: &impl Abort, alloc: Global, guest: &Guest<RunRam>, text: &[u8]) {
    assert_eq!(rt; guest.steps(), 5);
    assert_eq!(rt; guest.pc(), 0x10000);
    assert_eq!(rt; guest.reg(31), 31);
    let mut byte = [0];
    assert!(rt; guest.peek(0x10fff, &mut byte));
    assert_eq!(rt; byte, [7]);
    assert!(rt; has_text(alloc, guest, text));
}

#[test]
fn a_guest_is_written_as_it_was_read(rt: HostRuntime) -> Result<(), Fail> {
    let text = text_with(rt.alloc(), &[])?;
    match guest_of(rt.alloc(), &text) {
        Some(guest) => Ok(check_guest(&rt, rt.alloc(), &guest, &text)),
        None => Err("read".into()),
    }
}

/// What the guest of a text holds reserved.
fn reservation(alloc: Global, text: &[u8]) -> Option<Reservation> {
    match guest_of(alloc, text) {
        Some(guest) => guest.hart().reservation(),
        None => None,
    }
}

/// Whether so many bytes, which are reserved at an address, are held and written.
fn is_held(alloc: Global, count: u8, wide: Width) -> Result<bool, AllocError> {
    let text = text_with_reservation(alloc, &[N1(count), N8(0x10008)])?;
    let held = match reservation(alloc, &text) {
        Some(held) => held.wide == wide && held.at == 0x10008,
        None => false,
    };
    Ok(held && is_written(alloc, &text, &text))
}

#[test]
fn a_reservation_is_held_and_written(rt: HostRuntime) -> Result<(), Fail> {
    assert!(rt; is_held(rt.alloc(), 4, Width::W4)?);
    assert!(rt; is_held(rt.alloc(), 8, Width::W8)?);
    Ok(())
}

/// The guest's text in the first form.
fn old(alloc: Global) -> Result<Vec<u8>, AllocError> {
    let mut list = pieces(alloc)?;
    set(&mut list, 0, Text(b"ddcstat1"));
    text_of_replaced(alloc, &list, 34, &[])
}

fn old_is_written_anew(alloc: Global) -> Result<bool, AllocError> {
    let wanted = text_with(alloc, &[])?;
    Ok(is_written(alloc, &old(alloc)?, &wanted))
}

#[test]
fn an_old_text_is_a_guest_without_a_reservation(rt: HostRuntime) -> Result<(), Fail> {
    assert!(rt; old_is_written_anew(rt.alloc())?);
    Ok(())
}
