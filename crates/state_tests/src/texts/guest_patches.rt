//! Guests relative to the guest of `guests`: what is expected comes from docs/reference/delta.md.

use crate::texts::guests::{guest_of, has_text, text_with};
use crate::texts::pieces::Piece::*;
use crate::texts::pieces::*;
use checkpoints::{StateRefusal, apply_patch, write_patch};
use ddc_base::{Bytes, OutOfMemory};
use guest_run::{Guest, RunRam};
use std::alloc::{AllocError, Global};
use std::process::Abort;
use std::test::Fail;

/// Fields of the guest's text by their places, with what is put there.
type Changes = &'static [(usize, Piece)];

/// States that differ from the guest's in steps and registers, in what is reserved, in pages, in files, in descriptors and in streams.
static OTHERS: &[Changes] = &[
    &[],
    &[(1, N8(6))],
    &[
        (2, N8(0x10004)),
        (3, N8(0xffff_ffff_ffff_ffff)),
        (33, N8(0)),
    ],
    &[(34, Text(b"\x08\x08\0\x01\0\0\0\0\0"))],
    &[(36, N8(0x22000)), (42, N4(2))],
    &[(47, Page(8))],
    &[(46, N4(32)), (47, Page(7))],
    &[(45, N4(0)), (46, Text(b"")), (47, Text(b""))],
    &[(51, Text(b"on"))],
    &[(53, Text(b"abd"))],
    &[(52, N4(0)), (53, Text(b""))],
    &[(54, N4(2)), (66, N4(2))],
    &[(56, N4(0)), (67, N8(7))],
    &[(68, N1(7))],
    &[(69, N4(0)), (70, Text(b""))],
    &[(71, Text(b"\x03\0\0\0err"))],
];

/// Whether a patch relative to a guest makes the guest of a text.
fn applies(alloc: Global, known: &Guest<RunRam>, patch: &[u8], wanted: &[u8]) -> bool {
    let made: Result<Guest<RunRam>, StateRefusal> = apply_patch(alloc, known, patch);
    match made {
        Ok(guest) => has_text(alloc, &guest, wanted),
        Err(_) => false,
    }
}

/// The patch relative to a guest of the guest that a text says; none where that is refused.
fn patch_to(alloc: Global, known: &Guest<RunRam>, text: &[u8]) -> Option<Bytes> {
    match guest_of(alloc, text) {
        Some(guest) => write_patch(alloc, known, &guest).ok(),
        None => None,
    }
}

/// Whether a guest's patch to the guest of a text makes it.
fn leads(alloc: Global, known: &Guest<RunRam>, text: &[u8]) -> bool {
    match patch_to(alloc, known, text) {
        Some(patch) => applies(alloc, known, patch.as_slice(), text),
        None => false,
    }
}

/// Whether the patch of the guest with some fields changed makes it, relative to the guest with others changed.
fn makes(alloc: Global, base: Changes, now: Changes) -> Result<bool, AllocError> {
    let base = text_with(alloc, base)?;
    let text = text_with(alloc, now)?;
    Ok(match guest_of(alloc, &base) {
        Some(known) => leads(alloc, &known, &text),
        None => false,
    })
}

#[test]
fn a_patch_makes_the_guest(rt: HostRuntime) -> Result<(), Fail> {
    for base in OTHERS {
        for now in OTHERS {
            assert!(rt; makes(rt.alloc(), base, now)?, "{base:?} {now:?}");
        }
    }
    Ok(())
}

/// How long a guest's patch to itself is.
fn own_length(alloc: Global, known: &Guest<RunRam>) -> Option<usize> {
    match write_patch(alloc, known, known) {
        Ok(patch) => Some(patch.as_slice().len()),
        Err(_) => None,
    }
}

/// How long a guest's patch to the guest of a text is.
fn length_to(alloc: Global, known: &Guest<RunRam>, text: &[u8]) -> Option<usize> {
    match patch_to(alloc, known, text) {
        Some(patch) => Some(patch.as_slice().len()),
        None => None,
    }
}

fn check_lengths(rt: &impl Abort, alloc: Global, known: &Guest<RunRam>, other: &[u8]) {
    assert_eq!(rt; own_length(alloc, known), Some(144));
    // One page more, with its number and its byte.
    assert_eq!(rt; length_to(alloc, known, other), Some(144 + 4_101));
}

#[test]
fn a_guest_differs_from_itself_in_nothing(rt: HostRuntime) -> Result<(), Fail> {
    let text = text_with(rt.alloc(), &[])?;
    let other = text_with(rt.alloc(), &[(47, Page(8))])?;
    match guest_of(rt.alloc(), &text) {
        Some(known) => Ok(check_lengths(&rt, rt.alloc(), &known, &other)),
        None => Err("state".into()),
    }
}

/// What applying a patch with one of its bytes changed gives: 0 is a guest, 1 to 3 are the refusals, and the offset of a wrong field.
fn answer(alloc: Global, known: &Guest<RunRam>, text: &[u8]) -> (u8, u64) {
    let made: Result<Guest<RunRam>, StateRefusal> = apply_patch(alloc, known, text);
    match made {
        Ok(_) => (0, 0),
        Err(StateRefusal::Form(offset)) => (1, offset),
        Err(StateRefusal::Range) => (2, 0),
        Err(StateRefusal::FileRef) => (3, 0),
        Err(StateRefusal::OutOfMemory) => (4, 0),
    }
}

/// A byte of the patch of the guest against itself, what is put there, and the answer.
static BYTES: &[(usize, u8, (u8, u64))] = &[
    (0, b'D', (1, 0)),
    (7, b'1', (1, 0)),
    (8, 6, (0, 0)),
    // The pc is a multiple of 4.
    (16, 2, (2, 0)),
    (16, 4, (0, 0)),
    // x0 is marked, and x1 with the base's value, which the bytes after it are not.
    (24, 1, (1, 24)),
    // The file of the descriptor 3 is not there; with the pc the range is said first.
    (129, 7, (3, 0)),
    // The last stream's field says that a content follows, and none does.
    (143, 1, (1, 144)),
    (143, 2, (1, 143)),
];

/// The answer to a patch with one of its bytes changed.
fn answer_at(
    alloc: Global,
    known: &Guest<RunRam>,
    patch: &[u8],
    offset: usize,
    byte: u8,
) -> Result<(u8, u64), AllocError> {
    let mut text = Vec::from_slice(alloc, patch)?;
    if let Some(at) = text.get_mut(offset) {
        *at = byte;
    }
    Ok(answer(alloc, known, &text))
}

fn check_bytes(
    rt: &impl Abort,
    alloc: Global,
    known: &Guest<RunRam>,
    patch: &[u8],
) -> Result<(), AllocError> {
    for (offset, byte, want) in BYTES {
        let answer = answer_at(alloc, known, patch, *offset, *byte)?;
        assert_eq!(rt; answer, *want, "{offset}");
    }
    Ok(())
}

fn check_own_patch(
    rt: &impl Abort,
    alloc: Global,
    known: &Guest<RunRam>,
) -> Result<(), OutOfMemory> {
    let patch = write_patch(alloc, known, known)?;
    Ok(check_bytes(rt, alloc, known, patch.as_slice())?)
}

#[test]
fn each_refusal_of_a_patch(rt: HostRuntime) -> Result<(), Fail> {
    let text = text_with(rt.alloc(), &[])?;
    match guest_of(rt.alloc(), &text) {
        Some(known) => Ok(check_own_patch(&rt, rt.alloc(), &known)?),
        None => Err("state".into()),
    }
}
