ghost use Rattle.save_format.specs.Seen.{save_view};
ghost use Rattle.save_format.specs.Encoded.{IsSaveText};

use crate::texts::pieces::Piece::*;
use crate::texts::pieces::*;
use crate::texts::states::STATE;
use ddc_base::{Bytes, OutOfMemory};
use save_format::byte_fields::put_u32;
use save_format::state_text::{TextRefusal, put_parts};
use save_format::{MAGIC, Parts, StagePart, put_stage, read};
use std::alloc::{AllocError, Global};
use std::process::Abort;
use std::test::Fail;

/// A save's text by its fields, up to the state.
static PREFIX: &[Piece] = &[
    Text(b"ddcsave2"),
    // The digest of the recipe, and those of two inputs.
    Digest(1),
    N4(2),
    Digest(2),
    Digest(3),
    // One stage that is done, from 5 on: its steps and its two streams,
    N4(1),
    N8(32),
    N4(0),
    Digest(4),
    N4(0xffff_ffff),
    Digest(5),
    // two files that it left, from 11 on,
    N4(2),
    N2(2),
    Text(b"in"),
    N4(3),
    Digest(6),
    N2(3),
    Text(b"out"),
    N4(3),
    Digest(7),
    // and its artefact, from 20 on.
    N4(3),
    Text(b"abc"),
];

/// Each rule of the form, broken and kept at its edge. The state begins at 22.
static CHANGES: &[Change] = &[
    (0, Text(b"ddcsave0"), Some(0)),
    (0, Text(b"ddcsave3"), Some(0)),
    (0, Text(b"ddcstat2"), Some(0)),
    (6, N8(0xffff_ffff_ffff_ffff), None),
    // Left names ascend by their bytes; a name is before those that it begins.
    (13, Text(b"ou"), None),
    (13, Text(b"pa"), Some(17)),
    (17, Text(b"in\0"), None),
    (17, Text(b"im\xff"), Some(17)),
    (17, Text(b"\0\0\0"), Some(17)),
    (17, Text(b"\xff\xff\xff"), None),
    // The state's own form, at its place.
    (22, Text(b"ddcstat3"), Some(22)),
    (22, Text(b"ddcsave2"), Some(22)),
    (56, N1(1), Some(56)),
    (56, Text(b"\x04\x01\0\0\0\0\0\0\0"), None),
    // A save of one form has a state of that form.
    (0, Text(b"ddcsave1"), Some(22)),
    (22, Text(b"ddcstat1"), Some(22)),
    (62, N4(0), Some(62)),
    (67, Page(0), Some(67)),
    (90, N1(0), Some(90)),
    (93, N4(1), Some(94)),
];

/// The text of a save.
pub fn save(alloc: Global) -> Result<Vec<Piece>, AllocError> {
    let mut pieces = Vec::from_slice(alloc, PREFIX)?;
    pieces.extend_from_slice(STATE)?;
    Ok(pieces)
}

/// The same save in the first form.
fn old(alloc: Global) -> Result<Vec<Piece>, AllocError> {
    let pieces = replaced(alloc, &save(alloc)?, 56, &[])?;
    let pieces = replaced(alloc, &pieces, 22, &[Text(b"ddcstat1")])?;
    replaced(alloc, &pieces, 0, &[Text(b"ddcsave1")])
}

struct SaveForm;

impl Form for SaveForm {
    fn wrong(alloc: Global, text: &[u8]) -> Option<u64> {
        match read(alloc, text) {
            Ok(_) => None,
            Err(TextRefusal::Form(offset)) => Some(offset),
            Err(TextRefusal::OutOfMemory) => Some(u64::MAX),
        }
    }
}

#[test]
fn a_changed_field_is_named(rt: HostRuntime) -> Result<(), Fail> {
    let whole = save(rt.alloc())?;
    Ok(check_changes::<SaveForm>(&rt, rt.alloc(), &whole, CHANGES)?)
}

fn check_both_cuts(rt: &impl Abort, alloc: Global) -> Result<(), AllocError> {
    check_cuts::<SaveForm>(rt, alloc, &save(alloc)?, 1)?;
    check_cuts::<SaveForm>(rt, alloc, &old(alloc)?, 1)
}

#[test]
fn a_cut_field_is_named(rt: HostRuntime) -> Result<(), Fail> {
    Ok(check_both_cuts(&rt, rt.alloc())?)
}

/// Adds a stage's text again.
fn put_again(rt: &impl Abort, out: &mut Bytes, stage: &StagePart) -> Result<(), OutOfMemory> {
    let left = stage.left.as_slice();
    let made = stage.made.as_slice();
    assert!(rt; stage.stream1.length < 1 << 32 && stage.stream2.length < 1 << 32);
    assert!(rt; left.len() < 1 << 32 && made.len() < 1 << 32);
    assert!(rt; left.iter().all(|file| file.name.len() < 1 << 16));
    assert!(rt; left.iter().all(|file| file.mark.length < 1 << 32));
    put_stage(out, stage.steps, (stage.stream1, stage.stream2), left, made)
}

/// Adds the text of a save's state again.
fn put_state_again(out: &mut Bytes, parts: &Parts<'_>) -> Result<(), OutOfMemory>
    requires { IsSaveText (save_view parts.now) }
{
    put_parts(out, &parts.state)
}

/// Adds the text of a save again, all but its state.
fn put_prefix(rt: &impl Abort, out: &mut Bytes, parts: &Parts<'_>) -> Result<(), OutOfMemory> {
    out.extend(&MAGIC)?;
    out.extend(&parts.recipe.0)?;
    put_u32(out, 2)?;
    for input in &parts.inputs {
        out.extend(&input.digest.0)?;
    }
    put_u32(out, 1)?;
    for stage in &parts.done {
        put_again(rt, out, stage)?;
    }
    Ok(())
}

/// The text of the state that a save's text says; no byte where it is wrong.
fn state_again(alloc: Global, text: &[u8]) -> Result<Bytes, OutOfMemory> {
    let mut out = Bytes::new(alloc);
    if let Ok(parts) = read(alloc, text) {
        put_state_again(&mut out, &parts)?;
    }
    Ok(out)
}

/// The text of the save that a text says; no byte where it is wrong.
fn again(rt: &impl Abort, alloc: Global, text: &[u8]) -> Result<Bytes, OutOfMemory> {
    let mut out = Bytes::new(alloc);
    if let Ok(parts) = read(alloc, text) {
        put_prefix(rt, &mut out, &parts)?;
        put_state_again(&mut out, &parts)?;
    }
    Ok(out)
}

#[test]
fn a_text_is_written_again(rt: HostRuntime) -> Result<(), Fail> {
    let text = text_of(rt.alloc(), &save(rt.alloc())?)?;
    assert!(rt; again(&rt, rt.alloc(), &text)?.as_slice() == text.as_slice());
    Ok(())
}

/// Whether a save has no reservation, and the stage of the save's text.
fn has_parts(parts: &Parts<'_>) -> bool {
    match parts.done.get(0) {
        Some(stage) => {
            stage.steps == 32
                && stage.made.as_slice() == b"abc".as_slice()
                && parts.state.reservation.is_none()
        }
        None => false,
    }
}

/// Whether a text says such a save, with the state of `STATE`.
fn says_the_same(alloc: Global, text: &[u8]) -> Result<bool, OutOfMemory> {
    let has_parts = match read(alloc, text) {
        Ok(parts) => has_parts(&parts),
        Err(_) => false,
    };
    let wanted = text_of(alloc, STATE)?;
    Ok(has_parts && state_again(alloc, text)?.as_slice() == wanted.as_slice())
}

/// Whether the first form with this piece in its place is wrong where the state begins.
fn is_mixed(alloc: Global, index: usize, piece: Piece) -> Result<bool, AllocError> {
    let mut pieces = old(alloc)?;
    set(&mut pieces, index, piece);
    is_wrong_at::<SaveForm>(alloc, &pieces, Some(22))
}

#[test]
fn an_old_save_says_the_same(rt: HostRuntime) -> Result<(), Fail> {
    let text = text_of(rt.alloc(), &old(rt.alloc())?)?;
    assert!(rt; says_the_same(rt.alloc(), &text)?);
    // A state of the second form is wrong at its first byte, and so is one of the first form after the second form's magic.
    assert!(rt; is_mixed(rt.alloc(), 22, Text(b"ddcstat2"))?);
    assert!(rt; is_mixed(rt.alloc(), 0, Text(b"ddcsave2"))?);
    Ok(())
}
