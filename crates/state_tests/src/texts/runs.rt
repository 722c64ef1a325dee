//! Pieces of a run of three steps, whose texts are those of `starts`.

use crate::texts::pieces::Piece::*;
use crate::texts::pieces::*;
use crate::texts::starts::{STEPPED, old, program, stepped};
use ddc_base::OutOfMemory;
use elf_load::ElfRefusal;
use guest_run::{RunBox, RunEnd};
use segments::*;
use std::alloc::{AllocError, Global};
use std::process::Abort;
use std::test::Fail;

/// A field by its place, and what stands there instead.
type Change = (usize, &'static [Piece]);

/// The program's text at its start, and after its second step, in the places that are other than after its first one: x17, the pc and the steps.
const START: &[Change] = &[(2, &[N8(0x10078)]), (1, &[N8(0)])];

const SECOND: &[Change] = &[
    (5, &[Text(&[0; 112]), N8(93), Text(&[0; 112])]),
    (2, &[N8(0x10080)]),
    (1, &[N8(2)]),
];

/// The program's text with these places changed, the last one first.
fn text(alloc: Global, changes: &[Change]) -> Result<Vec<u8>, AllocError> {
    let mut pieces = Vec::from_slice(alloc, STEPPED)?;
    for (index, others) in changes {
        pieces = replaced(alloc, &pieces, *index, others)?;
    }
    text_of(alloc, &pieces)
}

/// What is changed in each of two texts, and what a check of them answers.
type Row = (&'static [Change], &'static [Change], SegmentAnswer);

static ROWS: [Row; 14] = [
    (START, &[], SegmentAnswer::Yes(1)),
    (START, SECOND, SegmentAnswer::Yes(2)),
    (&[], SECOND, SegmentAnswer::Yes(1)),
    // The same, and back.
    (&[], &[], SegmentAnswer::No(SegmentFault::NotLater)),
    (SECOND, START, SegmentAnswer::No(SegmentFault::NotLater)),
    // The third step ends the run, and no state lies after it.
    (
        START,
        &[(1, &[N8(3)])],
        SegmentAnswer::No(SegmentFault::EndsAt(3)),
    ),
    (
        SECOND,
        &[(1, &[N8(3)])],
        SegmentAnswer::No(SegmentFault::EndsAt(3)),
    ),
    (
        &[],
        &[(1, &[N8(0x1_0000_0000_0001)])],
        SegmentAnswer::No(SegmentFault::EndsAt(3)),
    ),
    (
        &[],
        &[(1, &[N8(0x1_0000_0000_0002)])],
        SegmentAnswer::No(SegmentFault::TooFar),
    ),
    // Another pc, other steps with the pc of the first, another register, another byte of a page.
    (
        START,
        &[(2, &[N8(0x10080)])],
        SegmentAnswer::No(SegmentFault::Differs(16)),
    ),
    (
        START,
        &[(3, &[N8(1)])],
        SegmentAnswer::No(SegmentFault::Differs(24)),
    ),
    (
        START,
        &[(1, &[N8(2)])],
        SegmentAnswer::No(SegmentFault::Differs(16)),
    ),
    (
        &[(2, &[N8(0x1007d)])],
        &[(2, &[N8(0x1007d)])],
        SegmentAnswer::No(SegmentFault::From(StateFault::Range)),
    ),
    (
        &[],
        &[(2, &[N8(0x1007d)])],
        SegmentAnswer::No(SegmentFault::To(StateFault::Range)),
    ),
];

/// Whether a check of two texts answers so.
fn is_answer(alloc: Global, row: &Row) -> Result<bool, AllocError> {
    let (from, to, wanted) = *row;
    let from = text(alloc, from)?;
    let to = text(alloc, to)?;
    Ok(check(alloc, &from, &to) == wanted)
}

#[test]
fn pieces_are_checked(rt: HostRuntime) -> Result<(), Fail> {
    for (index, row) in ROWS.iter().enumerate() {
        assert!(rt; is_answer(rt.alloc(), row)?, "row {index}");
    }
    Ok(())
}

/// A text's first bytes.
fn prefix(text: &[u8], count: usize) -> &[u8] {
    text.get(..count).unwrap_or(text)
}

fn check_forms(rt: &impl Abort, alloc: Global, start: &[u8], first: &[u8], old: &[u8]) {
    let form = StateFault::Form(8);
    let cut = prefix(first, 8);
    assert!(rt; check(alloc, cut, b"") == SegmentAnswer::No(SegmentFault::From(form)));
    assert!(rt; check(alloc, start, cut) == SegmentAnswer::No(SegmentFault::To(form)));
    // A text of the first form says the same state.
    assert!(rt; check(alloc, start, old) == SegmentAnswer::Yes(1));
}

#[test]
fn texts_of_pieces_have_their_form(rt: HostRuntime) -> Result<(), Fail> {
    let start = text(rt.alloc(), START)?;
    let first = text(rt.alloc(), &[])?;
    let old = old(rt.alloc())?;
    Ok(check_forms(&rt, rt.alloc(), &start, &first, &old))
}

/// What a check of a program's first text answers, in the setting in which the program starts.
fn answer_to_start(alloc: Global, program: &[u8], text: &[u8]) -> Result<StartAnswer, OutOfMemory> {
    let mut setting = RunBox::new(alloc, 4_096);
    setting.push_arg(b"x")?;
    Ok(check_start(alloc, program, &setting, text))
}

/// Whether the program's first text is another one without an argument.
fn differs_bare(alloc: Global, text: &[u8]) -> bool {
    let bare = RunBox::new(alloc, 4_096);
    matches!(
        check_start(alloc, program(), &bare, text),
        StartAnswer::Differs(_)
    )
}

fn check_starts(
    rt: &impl Abort,
    alloc: Global,
    start: &[u8],
    first: &[u8],
) -> Result<(), OutOfMemory> {
    assert!(rt; answer_to_start(alloc, program(), start)? == StartAnswer::Yes);
    assert!(rt; answer_to_start(alloc, program(), first)? == StartAnswer::Differs(8));
    let cut = prefix(start, 16);
    let refused = StartAnswer::NotState(StateFault::Form(16));
    assert!(rt; answer_to_start(alloc, program(), cut)? == refused);
    let short = StartAnswer::Start(StartFault::Elf(ElfRefusal::Short));
    assert!(rt; answer_to_start(alloc, b"", cut)? == short);
    assert!(rt; differs_bare(alloc, start));
    Ok(())
}

#[test]
fn first_texts_are_checked(rt: HostRuntime) -> Result<(), Fail> {
    let start = text(rt.alloc(), START)?;
    let first = text(rt.alloc(), &[])?;
    Ok(check_starts(&rt, rt.alloc(), &start, &first)?)
}

/// Whether the run from a text exits with 0 after two steps, at a step up to a limit.
fn exits(alloc: Global, text: &[u8], limit: u64) -> bool {
    match check_end(alloc, text, limit) {
        EndAnswer::Ended(guest, end) => guest.steps() == 2 && end == RunEnd::Exited(0),
        _ => false,
    }
}

/// Whether it has no end up to a limit.
fn is_over(alloc: Global, text: &[u8], limit: u64) -> bool {
    matches!(check_end(alloc, text, limit), EndAnswer::Over)
}

/// Whether a text is wrong in the field at 16.
fn is_refused(alloc: Global, text: &[u8]) -> bool {
    matches!(
        check_end(alloc, text, 3),
        EndAnswer::NotState(StateFault::Form(16))
    )
}

/// Whether the run from the text after one step ends at the third, and at none before.
fn first_text_ends(alloc: Global) -> Result<bool, OutOfMemory> {
    Ok(match stepped(alloc)? {
        Some(first) => exits(alloc, first.as_slice(), 3) && is_over(alloc, first.as_slice(), 2),
        None => false,
    })
}

#[test]
fn last_texts_are_checked(rt: HostRuntime) -> Result<(), Fail> {
    let second = text(rt.alloc(), SECOND)?;
    assert!(rt; exits(rt.alloc(), &second, 3) && exits(rt.alloc(), &second, 0xffff_ffff));
    assert!(rt; is_over(rt.alloc(), &second, 2) && is_over(rt.alloc(), &second, 0));
    assert!(rt; is_refused(rt.alloc(), prefix(&second, 16)));
    assert!(rt; first_text_ends(rt.alloc())?);
    Ok(())
}
