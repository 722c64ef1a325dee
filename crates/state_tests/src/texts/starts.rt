//! The text of a program that took one step, as docs/reference/running.md and loader.md say its start.

use crate::texts::guests::{guest_of, has_text};
use crate::texts::pieces::Piece::*;
use crate::texts::pieces::*;
use checkpoints::{StateRefusal, read_state, write_state};
use ddc_base::{Bytes, OutOfMemory};
use guest_run::{Guest, RunBox, RunEnd, RunRam};
use std::alloc::{AllocError, Global};
use std::process::Abort;
use std::test::Fail;

/// The program's text after one step, with the argument `x` and a heap of at most 4,096 bytes.
pub(crate) static STEPPED: &[Piece] = &[
    Text(b"ddcstat2"),
    N8(1),
    N8(0x1007c),
    // Of x1 to x31 all but the stack pointer are 0.
    N8(0),
    N8(0x3f_ffff_ffc0),
    Text(&[0; 232]),
    // Nothing is reserved.
    N1(0),
    // The heap.
    N8(0x11000),
    N8(0x11000),
    N8(4_096),
    // The segment's page and the stack.
    N4(2),
    N4(16),
    N4(1),
    N4(67_106_816),
    N4(2_048),
    N4(2),
    N4(16),
    // exit.elf: header, one program header, and three instructions that exit with status 0.
    Text(&[
        0x7f, 0x45, 0x4c, 0x46, 0x02, 0x01, 0x01, 0x00, 0x00, 0x00, 0x00, 0x00, 0x00, 0x00, 0x00,
        0x00, 0x02, 0x00, 0xf3, 0x00, 0x01, 0x00, 0x00, 0x00, 0x78, 0x00, 0x01, 0x00, 0x00, 0x00,
        0x00, 0x00, 0x40, 0x00, 0x00, 0x00, 0x00, 0x00, 0x00, 0x00, 0x00, 0x00, 0x00, 0x00, 0x00,
        0x00, 0x00, 0x00, 0x00, 0x00, 0x00, 0x00, 0x40, 0x00, 0x38, 0x00, 0x01, 0x00, 0x00, 0x00,
        0x00, 0x00, 0x00, 0x00, 0x01, 0x00, 0x00, 0x00, 0x07, 0x00, 0x00, 0x00, 0x00, 0x00, 0x00,
        0x00, 0x00, 0x00, 0x00, 0x00, 0x00, 0x00, 0x01, 0x00, 0x00, 0x00, 0x00, 0x00, 0x00, 0x00,
        0x01, 0x00, 0x00, 0x00, 0x00, 0x00, 0x84, 0x00, 0x00, 0x00, 0x00, 0x00, 0x00, 0x00, 0x84,
        0x00, 0x00, 0x00, 0x00, 0x00, 0x00, 0x00, 0x00, 0x10, 0x00, 0x00, 0x00, 0x00, 0x00, 0x00,
        0x13, 0x05, 0x00, 0x00, 0x93, 0x08, 0xd0, 0x05, 0x73, 0x00, 0x00, 0x00,
    ]),
    Text(&[0; 3964]),
    // The last page has the count of arguments, the argument's address, four words of zeros, and the argument at its end.
    N4(67_108_863),
    Text(&[0; 4032]),
    N8(1),
    N8(0x3f_ffff_fffe),
    Text(&[0; 46]),
    Text(b"x\0"),
    // No files, three descriptors, and two empty streams.
    N4(0),
    N4(3),
    N4(0),
    N1(0),
    N4(1),
    N1(1),
    N4(2),
    N1(2),
    N4(0),
    N4(0),
];

/// The bytes of exit.elf in its page.
pub(crate) fn program() -> &'static [u8] {
    match STEPPED.get(17) {
        Some(Text(bytes)) => bytes,
        _ => &[],
    }
}

/// The text of a guest at its start after one step.
fn text_after_step(alloc: Global, guest: &mut Guest<RunRam>) -> Option<Bytes> {
    if guest.steps() == 0 && guest.run(1) == RunEnd::Spent {
        write_state(alloc, guest).ok()
    } else {
        None
    }
}

fn stepped_in(alloc: Global, setting: &RunBox<'_>) -> Option<Bytes> {
    match Guest::<RunRam>::start(alloc, program(), setting) {
        Ok(mut guest) => text_after_step(alloc, &mut guest),
        Err(_) => None,
    }
}

/// The text of the program after one step.
pub(crate) fn stepped(alloc: Global) -> Result<Option<Bytes>, OutOfMemory> {
    let mut setting = RunBox::new(alloc, 4_096);
    setting.push_arg(b"x")?;
    Ok(stepped_in(alloc, &setting))
}

/// Whether the text of the program after one step is this.
fn is_stepped(alloc: Global, wanted: &[u8]) -> Result<bool, OutOfMemory> {
    Ok(match stepped(alloc)? {
        Some(text) => text.as_slice() == wanted,
        None => false,
    })
}

#[test]
fn a_step_has_this_text(rt: HostRuntime) -> Result<(), Fail> {
    let wanted = text_of(rt.alloc(), STEPPED)?;
    assert!(rt; is_stepped(rt.alloc(), &wanted)?);
    Ok(())
}

/// Why a text is refused.
fn refusal(alloc: Global, text: &[u8]) -> Option<StateRefusal> {
    let read: Result<Guest<RunRam>, StateRefusal> = read_state(alloc, text);
    read.err()
}

/// Whether a guest stands after its first step, and exits with 0 in its third.
fn ends_at_the_third(guest: &mut Guest<RunRam>) -> bool {
    guest.steps() == 1 && guest.run(2) == RunEnd::Exited(0) && guest.steps() == 2
}

/// Whether a text says a guest that has the other text, and this guest continues.
fn goes_on(alloc: Global, text: &[u8], wanted: &[u8]) -> bool {
    match guest_of(alloc, text) {
        Some(mut guest) => has_text(alloc, &guest, wanted) && ends_at_the_third(&mut guest),
        None => false,
    }
}

#[test]
fn a_step_is_read_and_goes_on(rt: HostRuntime) -> Result<(), Fail> {
    let text = text_of(rt.alloc(), STEPPED)?;
    assert!(rt; goes_on(rt.alloc(), &text, &text));
    Ok(())
}

/// The text after one step in the first form.
pub(crate) fn old(alloc: Global) -> Result<Vec<u8>, AllocError> {
    let mut list = Vec::from_slice(alloc, STEPPED)?;
    set(&mut list, 0, Text(b"ddcstat1"));
    text_of_replaced(alloc, &list, 6, &[])
}

#[test]
fn an_old_text_of_a_step_goes_on(rt: HostRuntime) -> Result<(), Fail> {
    let text = old(rt.alloc())?;
    let wanted = text_of(rt.alloc(), STEPPED)?;
    assert!(rt; goes_on(rt.alloc(), &text, &wanted));
    Ok(())
}

/// Why the text after one step is refused with another byte at an offset.
fn refusal_with(
    alloc: Global,
    offset: usize,
    byte: u8,
) -> Result<Option<StateRefusal>, AllocError> {
    let mut text = text_of(alloc, STEPPED)?;
    if let Some(at) = text.get_mut(offset) {
        *at = byte;
    }
    Ok(refusal(alloc, &text))
}

/// Whether the text without its last byte is wrong at its last field, which has four.
fn is_cut_at_its_last_field(alloc: Global) -> Result<bool, AllocError> {
    let mut text = text_of(alloc, STEPPED)?;
    let last = text.len() as u64;
    text.pop();
    Ok(refusal(alloc, &text) == Some(StateRefusal::Form(last.saturating_sub(4))))
}

#[test]
fn a_step_with_another_byte_is_refused(rt: HostRuntime) -> Result<(), Fail> {
    // The pc begins at the offset 16, and what is reserved is said at the offset 272.
    assert_eq!(rt;
        refusal_with(rt.alloc(), 16, 0x7d)?,
        Some(StateRefusal::Range)
    );
    assert_eq!(rt;
        refusal_with(rt.alloc(), 272, 1)?,
        Some(StateRefusal::Form(272))
    );
    assert!(rt; is_cut_at_its_last_field(rt.alloc())?);
    Ok(())
}

/// The lengths of the text's fields: rows of so many fields of one length.
static FIELDS: [(u32, usize); 14] = [
    (34, 8),
    (1, 1),
    (3, 8),
    (7, 4),
    (1, 4_096),
    (1, 4),
    (1, 4_096),
    (3, 4),
    (1, 1),
    (1, 4),
    (1, 1),
    (1, 4),
    (1, 1),
    (2, 4),
];

/// Whether a text that ends inside a field is wrong where that begins.
fn is_wrong_within(alloc: Global, text: &[u8], begin: usize, end: usize) -> bool {
    let wanted = Some(StateRefusal::Form(begin as u64));
    (begin..end).all(|size| refusal(alloc, text.get(..size).unwrap_or(text)) == wanted)
}

fn check_fields(rt: &impl Abort, alloc: Global, text: &[u8]) {
    let mut at = 0usize;
    for (count, size) in FIELDS {
        for _ in 0..count {
            let end = at.saturating_add(size);
            assert!(rt; is_wrong_within(alloc, text, at, end), "{at}");
            at = end;
        }
    }
    assert_eq!(rt; at, text.len());
}

#[test]
fn a_step_that_is_cut_is_wrong_at_its_field(rt: HostRuntime) -> Result<(), Fail> {
    let text = text_of(rt.alloc(), STEPPED)?;
    Ok(check_fields(&rt, rt.alloc(), &text))
}
