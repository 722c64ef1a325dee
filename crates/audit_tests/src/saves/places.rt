//! What makes a text a save of the worked recipe: each rule, broken and kept at its edge.

use crate::saves::saves::{refusal, save_at};
use crate::saves::worked::{Edit, RECIPE, edited};
use audit_run::SaveRefusal;
use ddc_base::{Bytes, OutOfMemory};
use std::alloc::Global;
use std::process::Abort;

/// What is changed in the save after 45 steps, from its end on, and why the text is refused then.
type Row = (&'static [Edit], Option<SaveRefusal>);

const OTHER: Option<SaveRefusal> = Some(SaveRefusal::OtherRecipe);

const STATE: Option<SaveRefusal> = Some(SaveRefusal::State);

/// The recipe's digest is at 8, the inputs' from 44 on, and how many stages are done at 172.
static LEADING: &[Row] = &[
    (&[(0, 1, b"e")], Some(SaveRefusal::Form(0))),
    (&[(8, 1, &[0x11])], OTHER),
    (&[(39, 1, &[0x09])], OTHER),
    (&[(44, 1, &[0xdb])], OTHER),
    (&[(171, 1, &[0xac])], OTHER),
    // No input, one less, one more.
    (&[(44, 128, b""), (40, 1, &[0])], OTHER),
    (&[(140, 32, b""), (40, 1, &[3])], OTHER),
    (&[(172, 0, &[0; 32]), (40, 1, &[5])], OTHER),
    // No stage is done.
    (&[(176, 401, b""), (172, 1, &[0])], None),
];

/// One stage is done: its steps are at 176, its streams at 184 and 220, its left files at 256, and its artefact at 341.
static DONE: &[Row] = &[
    // Steps: none, one, the limit, one more.
    (&[(176, 1, &[0])], STATE),
    (&[(176, 1, &[1])], None),
    (&[(176, 3, &[0xa0, 0x86, 0x01])], None),
    (&[(176, 3, &[0xa1, 0x86, 0x01])], STATE),
    (&[(183, 1, &[1])], STATE),
    // Streams that are no output.
    (&[(184, 4, &[0xff; 4])], None),
    (&[(188, 1, &[0])], None),
    (&[(220, 4, &[0xff; 4])], None),
    (&[(224, 1, &[0])], None),
    // The first left name.
    (&[(260, 4, b"\0\0")], STATE),
    (&[(260, 4, b"\x02\0./")], STATE),
    (&[(260, 4, b"\x03\0./x")], STATE),
    (&[(260, 4, b"\x03\0a/x")], None),
    (&[(262, 2, b"i\0")], STATE),
    (&[(262, 2, b"\0n")], STATE),
    (&[(262, 2, &[b'i'; 255]), (260, 2, &[0xff, 0])], None),
    (&[(262, 2, &[b'i'; 256]), (260, 2, &[0, 1])], STATE),
    // Left names ascend.
    (&[(260, 4, b"\x02\0ou")], None),
    (&[(260, 4, b"\x03\0out")], Some(SaveRefusal::Form(303))),
    (&[(262, 2, b"ow")], Some(SaveRefusal::Form(302))),
    // The length and the digest of a file that is no output.
    (&[(264, 1, &[0])], None),
    (&[(268, 1, &[0])], None),
    // The output's name, length and digest.
    (&[(304, 1, b"u")], STATE),
    (&[(305, 1, &[0xe7])], STATE),
    (&[(309, 1, &[0xdb])], STATE),
    (&[(340, 1, &[0x27])], STATE),
    // The artefact is cut, or is another.
    (&[(341, 1, &[0xe7])], Some(SaveRefusal::Form(576))),
    (&[(345, 1, b""), (341, 1, &[0xe7])], STATE),
    (&[(577, 0, b"\0"), (341, 1, &[0xe9])], STATE),
    (&[(345, 1, &[0x7e])], STATE),
    // An empty artefact that is the output.
    (
        &[
            (345, 232, b""),
            (341, 1, &[0]),
            (
                309,
                32,
                b"\xe3\xb0\xc4\x42\x98\xfc\x1c\x14\x9a\xfb\xf4\xc8\x99\x6f\xb9\x24\x27\xae\x41\xe4\x64\x9b\x93\x4c\xa4\x95\x99\x1b\x78\x52\xb8\x55",
            ),
            (305, 1, &[0]),
        ],
        None,
    ),
];

/// The state begins at 577, its pc is at 593, x8 at 657, what is reserved at 849 and the heap's limit at 866. The last descriptor's file is at
/// 9,172, its cursor at 9,176, and the last field at 9,189.
static PRESENT: &[Row] = &[
    // Steps: none, the last that is left, none left.
    (&[(585, 1, &[0])], None),
    (&[(585, 3, &[0x9f, 0x86, 0x01])], None),
    (&[(585, 3, &[0xa0, 0x86, 0x01])], STATE),
    (&[(592, 1, &[1])], STATE),
    // The pc, and a register.
    (&[(593, 1, &[1])], STATE),
    (&[(593, 1, &[0])], None),
    (&[(657, 2, &[2, 0])], None),
    // Bytes that are reserved: 1, or 4 or 8 at a multiple of these below 2^38.
    (&[(849, 1, &[1])], Some(SaveRefusal::Form(849))),
    (&[(849, 1, &[4, 0, 0, 1, 0, 0, 0, 0, 0])], None),
    (&[(849, 1, &[4, 2, 0, 1, 0, 0, 0, 0, 0])], STATE),
    (&[(849, 1, &[8, 4, 0, 1, 0, 0, 0, 0, 0])], STATE),
    (
        &[(849, 1, &[8, 0xf8, 0xff, 0xff, 0xff, 0x3f, 0, 0, 0])],
        None,
    ),
    (&[(849, 1, &[8, 0, 0, 0, 0, 0x40, 0, 0, 0])], STATE),
    // The first form, which says nothing of it; a save of one form with a state of the other.
    (&[(849, 1, b""), (584, 1, b"1"), (7, 1, b"1")], None),
    (&[(7, 1, b"1")], Some(SaveRefusal::Form(577))),
    (
        &[(849, 1, b""), (584, 1, b"1")],
        Some(SaveRefusal::Form(577)),
    ),
    // Heaps of guests, which the stage does not give.
    (&[(866, 4, &[0xff, 0xff, 0xff, 0x1f])], STATE),
    (&[(866, 4, &[1, 0, 0, 0x20])], STATE),
    (&[(866, 4, &[0, 0, 0, 0x40])], STATE),
    // A file that is not listed, and one that is; a cursor that is too large, and the largest.
    (&[(9_172, 1, &[2])], STATE),
    (&[(9_172, 1, &[0])], None),
    (&[(9_176, 8, &[0, 0, 0, 0, 0, 0, 0, 0x80])], STATE),
    (
        &[(9_176, 8, &[0xff, 0xff, 0xff, 0xff, 0xff, 0xff, 0xff, 0x7f])],
        None,
    ),
    // The end.
    (&[(9_192, 1, b"")], Some(SaveRefusal::Form(9_189))),
    (&[(9_189, 1, &[1])], Some(SaveRefusal::Form(9_193))),
    (&[(9_193, 0, b"\0")], Some(SaveRefusal::Form(9_193))),
    // The form is said before another recipe, and that before what is no place.
    (
        &[(9_193, 0, b"\0"), (593, 1, &[1]), (8, 1, &[0x11])],
        Some(SaveRefusal::Form(9_193)),
    ),
    (&[(593, 1, &[1]), (8, 1, &[0x11])], OTHER),
    (&[(176, 1, &[0]), (171, 1, &[0xac])], OTHER),
    (
        &[(9_193, 0, b"\0"), (176, 1, &[0])],
        Some(SaveRefusal::Form(9_193)),
    ),
];

/// Whether this is why a text is refused after these edits.
fn is_refused(
    alloc: Global,
    text: &[u8],
    edits: &[(usize, usize, &[u8])],
    wanted: Option<SaveRefusal>,
) -> bool {
    match edited(alloc, text, edits) {
        Ok(new) => refusal(alloc, RECIPE, b"abc", new.as_slice()) == wanted,
        Err(OutOfMemory) => false,
    }
}

fn check_rows(rt: &impl Abort, alloc: Global, text: &[u8], rows: &[Row]) {
    for (edits, wanted) in rows {
        assert!(rt; is_refused(alloc, text, edits, *wanted), "{edits:?}");
    }
}

fn check_rules(rt: &impl Abort, alloc: Global, text: &[u8]) {
    assert!(rt; text.len() == 9_193);
    check_rows(rt, alloc, text, LEADING);
    check_rows(rt, alloc, text, DONE);
    check_rows(rt, alloc, text, PRESENT);
}

#[test]
fn each_rule_has_its_refusal(rt: HostRuntime) {
    let text = save_at(rt.alloc(), 45).expect(&rt, "a save");
    check_rules(&rt, rt.alloc(), text.as_slice());
}

fn check_stages(rt: &impl Abort, alloc: Global, text: &[u8]) {
    let record = text.get(176..577).unwrap_or(&[]);
    let two = [(577, 0, record), (172, 1, &[2])];
    assert!(rt; is_refused(alloc, text, &two, STATE));
    let three = [(577, 0, record), (577, 0, record), (172, 1, &[3])];
    assert!(rt; is_refused(alloc, text, &three, STATE));
}

/// The record of the stage that is done stands for both stages; then none is left to be the present one.
#[test]
fn a_stage_is_left(rt: HostRuntime) {
    let text = save_at(rt.alloc(), 45).expect(&rt, "a save");
    check_stages(&rt, rt.alloc(), text.as_slice());
}

/// Adds a left file.
fn put_left(files: &mut Bytes, number: u16) -> Result<(), OutOfMemory> {
    let name = [(number / 128 % 64) as u8 + 1, (number % 128) as u8 + 1];
    files.extend(&[2, 0])?;
    files.extend(&name)?;
    files.extend(&[0; 36])
}

/// Adds so many left files, after how many they are with the others.
fn put_more(files: &mut Bytes, more: u16) -> Result<(), OutOfMemory> {
    files.extend(&more.saturating_add(2).to_le_bytes())?;
    files.extend(&[0; 2])?;
    for number in 0..more {
        put_left(files, number)?;
    }
    Ok(())
}

/// Whether this is why a save is refused whose done stage has left so many files more, before the others.
fn is_crowded(alloc: Global, text: &[u8], more: u16, wanted: Option<SaveRefusal>) -> bool {
    let mut files = Bytes::new(alloc);
    match put_more(&mut files, more) {
        Ok(()) => is_refused(alloc, text, &[(256, 4, files.as_slice())], wanted),
        Err(OutOfMemory) => false,
    }
}

fn check_crowds(rt: &impl Abort, alloc: Global, text: &[u8]) {
    assert!(rt; is_crowded(alloc, text, 4_094, None));
    assert!(rt; is_crowded(alloc, text, 4_095, STATE));
}

#[test]
fn left_files_are_counted(rt: HostRuntime) {
    let text = save_at(rt.alloc(), 45).expect(&rt, "a save");
    check_crowds(&rt, rt.alloc(), text.as_slice());
}
