//! Where an audit stands relative to the save of `saves`: what is expected comes from docs/reference/delta.md.

use crate::texts::patches::NOTHING;
use crate::texts::pieces::Piece::*;
use crate::texts::pieces::*;
use crate::texts::saves::save;
use ddc_base::digests::Digest;
use save_format::delta_text;
use save_format::delta_text::{DeltaParts, names_other_base};
use save_format::state_text::TextRefusal;
use std::alloc::{AllocError, Global};
use std::process::Abort;
use std::test::Fail;

/// A delta by its fields, up to the patch: the base's stage is kept, and a further one is done.
static PREFIX: &[Piece] = &[
    Text(b"ddcdelt2"),
    Piece::Digest(9),
    N4(1),
    // A further stage, from 3 on.
    N4(1),
    N8(5),
    N4(0),
    Piece::Digest(4),
    N4(0),
    Piece::Digest(5),
    N4(1),
    N2(1),
    Text(b"a"),
    N4(1),
    Piece::Digest(6),
    N4(2),
    Text(b"xy"),
];

/// Each rule of the form, broken and kept at its edge. The patch begins at 16.
static CHANGES: &[Change] = &[
    (0, Text(b"ddcdelt1"), Some(0)),
    (0, Text(b"ddcsave2"), Some(0)),
    // Which base it is of is no question of its form.
    (1, Piece::Digest(8), None),
    // No more stages are kept than there are; of fewer the first further one is another than the base's.
    (2, N4(2), Some(2)),
    (2, N4(0xffff_ffff), Some(2)),
    (2, N4(0), None),
    (4, N8(0xffff_ffff_ffff_ffff), None),
    (11, Text(b"\0"), None),
    (16, Text(b"ddcdiff1"), Some(16)),
    (16, Text(b"ddcstat2"), Some(16)),
    (19, N4(1), Some(19)),
    (20, N1(1), Some(20)),
];

fn delta(alloc: Global) -> Result<Vec<Piece>, AllocError> {
    let mut pieces = Vec::from_slice(alloc, PREFIX)?;
    pieces.extend_from_slice(NOTHING)?;
    Ok(pieces)
}

/// Where the first wrong field of a delta's text begins relative to a save.
fn wrong<'a>(alloc: Global, base: &'a [u8], text: &'a [u8]) -> Option<u64> {
    match save_format::read(alloc, base) {
        Ok(known) => match delta_text::read(alloc, known, text) {
            Ok(_) => None,
            Err(TextRefusal::Form(offset)) => Some(offset),
            Err(TextRefusal::OutOfMemory) => Some(u64::MAX),
        },
        Err(_) => Some(u64::MAX),
    }
}

/// The text of the save.
fn base(alloc: Global) -> Result<Vec<u8>, AllocError> {
    text_of(alloc, &save(alloc)?)
}

/// Deltas relative to the save.
struct DeltaForm;

impl Form for DeltaForm {
    fn wrong(alloc: Global, text: &[u8]) -> Option<u64> {
        match base(alloc) {
            Ok(base) => wrong(alloc, &base, text),
            Err(_) => Some(u64::MAX),
        }
    }
}

#[test]
fn a_changed_field_is_named(rt: HostRuntime) -> Result<(), Fail> {
    let pieces = delta(rt.alloc())?;
    Ok(check_changes::<DeltaForm>(&rt, rt.alloc(), &pieces, CHANGES)?)
}

#[test]
fn a_cut_field_is_named(rt: HostRuntime) -> Result<(), Fail> {
    let pieces = delta(rt.alloc())?;
    Ok(check_cuts::<DeltaForm>(&rt, rt.alloc(), &pieces, 1)?)
}

/// A delta that keeps nothing, and has the base's own stage as its first further one, with its artefact.
fn kept_less(alloc: Global, made: Piece) -> Result<Vec<Piece>, AllocError> {
    let base = save(alloc)?;
    let mut pieces = Vec::from_slice(alloc, &[Text(b"ddcdelt2"), Piece::Digest(9), N4(0), N4(1)])?;
    pieces.extend_from_slice(base.get(6..21).unwrap_or(&[]))?;
    pieces.push(made)?;
    pieces.extend_from_slice(NOTHING)?;
    Ok(pieces)
}

/// Whether such a delta is wrong at a field: none where it is right.
fn is_wrong_with(alloc: Global, made: Piece, field: Option<usize>) -> Result<bool, AllocError> {
    is_wrong_at::<DeltaForm>(alloc, &kept_less(alloc, made)?, field)
}

#[test]
fn a_stage_that_could_be_kept_is_named(rt: HostRuntime) -> Result<(), Fail> {
    assert!(rt; is_wrong_with(rt.alloc(), Text(b"abc"), Some(4))?);
    // With the last byte of its artefact changed it is another stage.
    assert!(rt; is_wrong_with(rt.alloc(), Text(b"abd"), None)?);
    Ok(())
}

fn is_stage(parts: &DeltaParts<'_>, index: usize, steps: u64, made: &[u8]) -> bool {
    match parts.done.get(index) {
        Some(stage) => stage.steps == steps && stage.made.as_slice() == made,
        None => false,
    }
}

/// Whether a delta says its base's digest, the base's stage and the further one, and the steps and x8 of its state.
fn has_parts(parts: &DeltaParts<'_>) -> bool {
    parts.base == Digest([9; 32])
        && (parts.state.steps, parts.state.registers[7]) == (5, 8)
        && parts.done.len() == 2
        && is_stage(parts, 0, 32, b"abc")
        && is_stage(parts, 1, 5, b"xy")
}

fn is_read<'a>(alloc: Global, base: &'a [u8], text: &'a [u8]) -> bool {
    match save_format::read(alloc, base) {
        Ok(known) => match delta_text::read(alloc, known, text) {
            Ok(parts) => has_parts(&parts),
            Err(_) => false,
        },
        Err(_) => false,
    }
}

#[test]
fn stages_are_the_bases_and_the_further_ones(rt: HostRuntime) -> Result<(), Fail> {
    let base = base(rt.alloc())?;
    let text = text_of(rt.alloc(), &delta(rt.alloc())?)?;
    assert!(rt; is_read(rt.alloc(), &base, &text));
    Ok(())
}

/// The digest that the delta does not name, which differs in its last byte.
fn other() -> Digest {
    let mut other = [9; 32];
    other[31] = 8;
    Digest(other)
}

/// Whether so many of a text's first bytes name another base.
fn is_named_by(text: &[u8], count: usize) -> bool {
    names_other_base(&other(), text.get(..count).unwrap_or(text))
}

/// The text of the delta after an old magic.
fn old(alloc: Global) -> Result<Vec<u8>, AllocError> {
    text_of(
        alloc,
        &changed(alloc, &delta(alloc)?, (0, Text(b"ddcdelt1"), None))?,
    )
}

#[test]
fn another_base_is_named(rt: HostRuntime) -> Result<(), Fail> {
    let text = text_of(rt.alloc(), &delta(rt.alloc())?)?;
    assert!(rt; !names_other_base(&Digest([9; 32]), &text));
    assert!(rt; names_other_base(&other(), &text));
    // With the magic and 32 bytes alone it is named, with a byte less it is not, nor after another magic.
    assert!(rt; is_named_by(&text, 40));
    assert!(rt; !is_named_by(&text, 39));
    let old = old(rt.alloc())?;
    assert!(rt; !names_other_base(&other(), &old));
    Ok(())
}
