//! Deltas of the worked recipe. The expected results are what whole saves say, or were written down from docs/reference/delta.md.

use crate::saves::kept::{delta_from, delta_of_none, save_relative};
use crate::saves::saves::{old_save_at, save_at};
use crate::saves::worked::{Edit, RECIPE, edited, given};
use audit_run::{DeltaRefusal, SaveRefusal};
use ddc_base::{Bytes, OutOfMemory};
use std::alloc::Global;
use std::process::Abort;

/// The delta of the worked audit against a save of it, after so many steps more.
fn delta_of(alloc: Global, base: &[u8], more: u64) -> Result<Bytes, OutOfMemory> {
    if more < 1 {
        return Err(OutOfMemory);
    }
    match given(alloc, RECIPE, b"abc") {
        Ok((recipe, inputs)) => delta_from(alloc, recipe, inputs, base, more),
        Err(OutOfMemory) => Err(OutOfMemory),
    }
}

/// The save of the worked audit that a base and a delta say.
fn resumed(alloc: Global, base: &[u8], delta: &[u8]) -> Result<Bytes, DeltaRefusal> {
    match given(alloc, RECIPE, b"abc") {
        Ok((recipe, inputs)) => save_relative(alloc, recipe, inputs, base, delta),
        Err(OutOfMemory) => Err(DeltaRefusal::OutOfMemory),
    }
}

/// Whether a delta says relative to its base what a whole save says.
fn says(alloc: Global, base: &[u8], delta: &[u8], save: &[u8]) -> bool {
    match resumed(alloc, base, delta) {
        Ok(text) => text.as_slice() == save,
        Err(_) => false,
    }
}

/// Adds the save of the worked audit after so many steps.
fn put_save(alloc: Global, saves: &mut Vec<Bytes>, steps: u64) -> Result<(), OutOfMemory> {
    let save = save_at(alloc, steps)?;
    saves.push(save)?;
    Ok(())
}

fn put_saves(alloc: Global, saves: &mut Vec<Bytes>) -> Result<(), OutOfMemory> {
    for steps in 1..64 {
        put_save(alloc, saves, steps)?;
    }
    Ok(())
}

/// The saves of the worked audit after each number of steps from 1 on.
fn saves(alloc: Global) -> Result<Vec<Bytes>, OutOfMemory> {
    let mut saves = Vec::new(alloc);
    put_saves(alloc, &mut saves)?;
    Ok(saves)
}

/// Whether a later pause, so many steps after the base, comes back relative to it.
fn comes_back(alloc: Global, base: &[u8], more: u64, save: &[u8]) -> bool {
    match delta_of(alloc, base, more) {
        Ok(delta) => says(alloc, base, delta.as_slice(), save),
        Err(OutOfMemory) => false,
    }
}

/// Whether each of these later pauses, the first of them a step after the base, comes back relative to it.
fn come_back(alloc: Global, base: &[u8], later: &[Bytes]) -> bool {
    let mut more = 0;
    for save in later {
        more = u64::saturating_add(more, 1);
        if !comes_back(alloc, base, more, save.as_slice()) {
            return false;
        }
    }
    true
}

/// Whether all others come back relative to the first.
fn all_come_back(alloc: Global, saves: &[Bytes]) -> bool {
    match saves {
        [base, later @ ..] => come_back(alloc, base.as_slice(), later),
        [] => false,
    }
}

/// Whether each later pause comes back relative to the save with so many before it.
fn all_come_back_from(alloc: Global, first: usize) -> bool {
    match saves(alloc) {
        Ok(saves) => all_come_back(alloc, saves.as_slice().get(first..).unwrap_or(&[])),
        Err(OutOfMemory) => false,
    }
}

#[test]
fn pauses_come_back_relative_to_the_first_one(rt: HostRuntime) {
    assert!(rt; all_come_back_from(rt.alloc(), 0));
}

#[test]
fn pauses_come_back_relative_to_the_last_one_of_a_stage(rt: HostRuntime) {
    assert!(rt; all_come_back_from(rt.alloc(), 30));
}

#[test]
fn pauses_come_back_relative_to_the_next_stages_start(rt: HostRuntime) {
    assert!(rt; all_come_back_from(rt.alloc(), 31));
}

fn check_pairs(rt: &impl Abort, alloc: Global, saves: &[Bytes]) {
    for index in 0..62 {
        let pair = saves.get(index..index + 2).unwrap_or(&[]);
        assert!(rt; all_come_back(alloc, pair), "{index}");
    }
}

#[test]
fn each_pause_comes_back_relative_to_the_one_before_it(rt: HostRuntime) {
    let saves = saves(rt.alloc()).expect(&rt, "saves");
    check_pairs(&rt, rt.alloc(), saves.as_slice());
}

/// Whether this is the delta, after 5 steps more, of the worked audit against its save after so many steps.
fn is_delta_at(alloc: Global, steps: u64, delta: &[u8]) -> bool {
    match save_at(alloc, steps) {
        Ok(base) => is_delta(alloc, base.as_slice(), delta),
        Err(OutOfMemory) => false,
    }
}

fn is_delta(alloc: Global, base: &[u8], wanted: &[u8]) -> bool {
    match delta_of(alloc, base, 5) {
        Ok(delta) => delta.as_slice() == wanted,
        Err(OutOfMemory) => false,
    }
}

/// Whether a delta says relative to its base what the save after so many steps says.
fn says_at(alloc: Global, base: &[u8], delta: &[u8], steps: u64) -> bool {
    match save_at(alloc, steps) {
        Ok(save) => says(alloc, base, delta, save.as_slice()),
        Err(OutOfMemory) => false,
    }
}

/// Whether a save after so many steps of the first form has the delta of the second.
fn has_the_delta(alloc: Global, old: &[u8], first: u64) -> bool {
    match delta_of(alloc, old, 5) {
        Ok(delta) => {
            is_delta_at(alloc, first, delta.as_slice())
                && says_at(alloc, old, delta.as_slice(), first.saturating_add(5))
        }
        Err(OutOfMemory) => false,
    }
}

fn old_has_the_delta(alloc: Global, first: u64) -> bool {
    match old_save_at(alloc, first) {
        Ok(old) => has_the_delta(alloc, old.as_slice(), first),
        Err(OutOfMemory) => false,
    }
}

/// A base of the first form has the deltas of the second, and they come back relative to either.
#[test]
fn an_old_base_has_the_same_deltas(rt: HostRuntime) {
    for first in [1, 31, 32, 40] {
        assert!(rt; old_has_the_delta(rt.alloc(), first), "{first}");
    }
}

/// The delta against itself of the worked audit that a save says.
fn delta_against_itself(alloc: Global, save: &[u8]) -> Result<Bytes, OutOfMemory> {
    match given(alloc, RECIPE, b"abc") {
        Ok((recipe, inputs)) => delta_of_none(alloc, recipe, inputs, save),
        Err(OutOfMemory) => Err(OutOfMemory),
    }
}

/// Whether a save comes back relative to itself.
fn says_itself(alloc: Global, save: &[u8]) -> bool {
    match delta_against_itself(alloc, save) {
        Ok(delta) => says(alloc, save, delta.as_slice(), save),
        Err(OutOfMemory) => false,
    }
}

fn says_itself_at(alloc: Global, steps: u64) -> bool {
    match save_at(alloc, steps) {
        Ok(save) => says_itself(alloc, save.as_slice()),
        Err(OutOfMemory) => false,
    }
}

/// Of two audits that stand at one place, the one says nothing relative to the other. The texts have a header, the present place and no stage.
#[test]
fn an_audit_has_a_delta_against_itself(rt: HostRuntime) {
    for steps in [1, 31, 32, 63] {
        assert!(rt; says_itself_at(rt.alloc(), steps), "{steps}");
    }
}

/// Whether the delta after so many steps more is so long.
fn is_long(alloc: Global, base: &[u8], more: u64, length: usize) -> bool {
    match delta_of(alloc, base, more) {
        Ok(delta) => delta.len() == length,
        Err(OutOfMemory) => false,
    }
}

fn check_lengths(rt: &impl Abort, alloc: Global, base: &[u8]) {
    assert!(rt; is_long(alloc, base, 13, 257));
    assert!(rt; is_long(alloc, base, 31, 4_353));
}

/// From the second stage's start, the stack is written between 13 steps and 31. The fields beside pages and changed registers are counted by the table.
#[test]
fn a_delta_grows_with_what_differs(rt: HostRuntime) {
    let base = save_at(rt.alloc(), 32).expect(&rt, "a save");
    check_lengths(&rt, rt.alloc(), base.as_slice());
}

/// What is changed in a base, from its end on, what in a delta against the base as it was, and why they are refused then.
type Row = (&'static [Edit], &'static [Edit], Option<DeltaRefusal>);

const NEITHER: Option<DeltaRefusal> = None;

const STATE: Option<DeltaRefusal> = Some(DeltaRefusal::State);

const OTHER: Option<DeltaRefusal> = Some(DeltaRefusal::OtherBase);

/// The base is after 40 steps, the delta 5 steps later, so its only finished stage is kept. The digest is at 8, the number of kept stages
/// at 40, that of further ones at 44, and the patch at 48. In the patch the steps are at 56, the pc at 64 and the bits of registers at 72.
static SECOND: &[Row] = &[
    (&[], &[], NEITHER),
    // The base first, as a save is refused.
    (
        &[(0, 1, b"e")],
        &[(0, 1, b"e")],
        Some(DeltaRefusal::Base(SaveRefusal::Form(0))),
    ),
    (
        &[(8, 1, &[0x11])],
        &[(8, 1, &[0])],
        Some(DeltaRefusal::Base(SaveRefusal::OtherRecipe)),
    ),
    (
        &[(593, 1, &[1])],
        &[(8, 1, &[0])],
        Some(DeltaRefusal::Base(SaveRefusal::State)),
    ),
    // Then another base: one that was changed, a digest that was, also before a wrong field.
    (&[(657, 2, &[2, 0])], &[], OTHER),
    (&[], &[(39, 1, &[0x5a, 0x5a])], OTHER),
    (&[(657, 2, &[2, 0])], &[(40, 1, &[9])], OTHER),
    (&[(657, 2, &[2, 0])], &[(40, 300, b"")], OTHER),
    // Then the form: the magic, a digest that is cut, how many are kept, which is one more, and how many are further ones.
    (&[], &[(0, 1, b"e")], Some(DeltaRefusal::Form(0))),
    (&[], &[(7, 1, b"1")], Some(DeltaRefusal::Form(0))),
    (&[], &[(39, 400, b"")], Some(DeltaRefusal::Form(8))),
    (&[], &[(40, 400, b"")], Some(DeltaRefusal::Form(40))),
    (&[], &[(43, 400, b"")], Some(DeltaRefusal::Form(40))),
    (&[], &[(40, 1, &[2])], Some(DeltaRefusal::Form(40))),
    (&[], &[(44, 400, b"")], Some(DeltaRefusal::Form(44))),
    // The patch: its magic, its steps, a bit 0, and a bit of a register that is the base's.
    (&[], &[(48, 1, b"e")], Some(DeltaRefusal::Form(48))),
    (&[], &[(55, 1, b"1")], Some(DeltaRefusal::Form(48))),
    (&[], &[(60, 400, b"")], Some(DeltaRefusal::Form(56))),
    (&[], &[(72, 1, &[1])], Some(DeltaRefusal::Form(72))),
    // Then what is no place: the steps' limit, a pc.
    (&[], &[(56, 3, &[0xa0, 0x86, 0x01])], STATE),
    (&[], &[(56, 3, &[0x9f, 0x86, 0x01])], NEITHER),
    (&[], &[(64, 1, &[1])], STATE),
];

/// A base, after 40 steps, and a delta, 5 steps later.
#[derive(Drop)]
struct Texts {
    base: Bytes,
    delta: Bytes,
}

fn worked_texts(alloc: Global) -> Result<Texts, OutOfMemory> {
    let base = save_at(alloc, 40)?;
    match delta_of(alloc, base.as_slice(), 5) {
        Ok(delta) => Ok(Texts { base, delta }),
        Err(OutOfMemory) => Err(OutOfMemory),
    }
}

/// Whether this is why a delta is refused relative to a base after these edits.
fn is_refused_relative(
    alloc: Global,
    base: &[u8],
    delta: &Bytes,
    edits: &[(usize, usize, &[u8])],
    wanted: Option<DeltaRefusal>,
) -> bool {
    match edited(alloc, delta.as_slice(), edits) {
        Ok(text) => resumed(alloc, base, text.as_slice()).err() == wanted,
        Err(OutOfMemory) => false,
    }
}

/// The same of a row's edits.
fn is_refused(alloc: Global, texts: &Texts, row: &Row) -> bool {
    match edited(alloc, texts.base.as_slice(), row.0) {
        Ok(base) => is_refused_relative(alloc, base.as_slice(), &texts.delta, row.1, row.2),
        Err(OutOfMemory) => false,
    }
}

fn check_rows(rt: &impl Abort, alloc: Global, texts: &Texts, rows: &[Row]) {
    for row in rows {
        assert!(rt; is_refused(alloc, texts, row), "{row:?}");
    }
}

#[test]
fn each_rule_has_its_refusal(rt: HostRuntime) {
    let texts = worked_texts(rt.alloc()).expect(&rt, "a base and a delta");
    check_rows(&rt, rt.alloc(), &texts, SECOND);
}

fn check_kept(rt: &impl Abort, alloc: Global, texts: &Texts) {
    let base = texts.base.as_slice();
    let record = base.get(176..577).unwrap_or(&[]);
    let edits = [
        (48, 0, record),
        (40, 5, &[0, 0, 0, 0, 1]),
        (48, 1, &[1]),
        (40, 1, &[1]),
    ];
    let could = Some(DeltaRefusal::Form(48));
    assert!(rt; is_refused_relative(alloc, base, &texts.delta, &edits[..2], could));
    assert!(rt; is_refused_relative(alloc, base, &texts.delta, &edits[..3], NEITHER));
    // It stands after the kept one: then no stage is left to be the present one.
    assert!(rt; is_refused_relative(alloc, base, &texts.delta, &edits, STATE));
}

/// The stage that is done, at 176 of its save, in the place of one that is kept: it could have been; with another step it could not.
#[test]
fn kept_stages_are_the_most(rt: HostRuntime) {
    let texts = worked_texts(rt.alloc()).expect(&rt, "a base and a delta");
    check_kept(&rt, rt.alloc(), &texts);
}

fn check_ends(rt: &impl Abort, alloc: Global, texts: &Texts) {
    let base = texts.base.as_slice();
    let end = texts.delta.len();
    let longer = Some(DeltaRefusal::Form(end as u64));
    assert!(rt; is_refused_relative(alloc, base, &texts.delta, &[(end, 0, &[0])], longer));
    let last = end.saturating_sub(1);
    let shorter = Some(DeltaRefusal::Form(last as u64));
    assert!(rt; is_refused_relative(alloc, base, &texts.delta, &[(last, 1, b"")], shorter));
}

/// A delta that is longer or shorter by a byte. It ends with the bytes that say that both streams are the base's.
#[test]
fn a_delta_ends_with_its_last_field(rt: HostRuntime) {
    let texts = worked_texts(rt.alloc()).expect(&rt, "a base and a delta");
    check_ends(&rt, rt.alloc(), &texts);
}
