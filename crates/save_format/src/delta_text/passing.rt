//! Skips the fields of a delta, so that its format is checked without allocation.

ghost use Rattle.std.specs.Prelude.{◌≡◌, ◌==◌, ◌&&◌, None, bytes_eq, drop, length, map, nat_le, option_map};
ghost use Rattle.std.specs.Option.{option_copied};
ghost use Rattle.save_format.specs.ByteFields.Reader.{Finds, counted, several};
ghost use Rattle.save_format.specs.DeltaText.DeltaText.{delta_at, delta_header_at, parsed_delta};
ghost use Rattle.save_format.specs.DeltaText.Header.{is_of_other_base};
ghost use Rattle.save_format.specs.DeltaText.Inside.Relative.{IsLeftNext, PassesRelative};
ghost use Rattle.save_format.specs.DeltaText.Stages.{after_further, equal_lefts, equal_marks, equal_stages, further_at, stages_relative_at};
ghost use Rattle.save_format.specs.Inside.Headers.{ReadsHeader, stages_and_state_at};
ghost use Rattle.save_format.specs.Inside.Passing.{GoesPast, JudgesForm};
ghost use Rattle.save_format.specs.SaveText.{SaveText, after_left, saved_left_at, saved_stage_at};
ghost use Rattle.save_format.specs.Seen.{save_view, stage_view};
ghost use Rattle.save_format.specs.Encoded.{IsSaveText};

use crate::byte_fields::{Cursor, WrongField};
use crate::delta_text::reading::MAGIC;
use crate::delta_text::stages::{is_same_left, is_same_mark, kept_of, known_at};
use crate::fields::{digest_of, line_of, pass_stage, stage_header};
use crate::parts::{Parts, StageHeader, StagePart};
use crate::patch_text::pass_patch;
use crate::state_text::TextRefusal;
use ddc_base::digests::Digest;
use report::{LeftLine, Mark};

/// Whether a text begins as a delta whose base has another digest than this one.
pub fn names_other_base(base: &Digest, text: &[u8]) -> bool
    ensures { result ≡ is_of_other_base base.now text.now }
{
    let mut cursor = Cursor::new(text);
    match header_of(&mut cursor) {
        Ok(found) => found != *base,
        Err(_) => false,
    }
}

/// The digest of a delta's base, after its magic.
#[tactic(auto, unfolding(crate::specs::DeltaText::DeltaText::delta_header_at, crate::specs::DeltaText::DeltaText::delta_at, crate::specs::Inside::Headers::stages_and_state_at))]
pub(crate) fn header_of(cursor: &mut Cursor<'_>) -> Result<Digest, WrongField>
    ensures alone { Finds (λ x. x) result cursor.new (delta_header_at cursor.old) }
    ensures first { (base : SaveText) → ReadsHeader (stages_and_state_at base) result cursor.new (delta_at base cursor.old) }
{
    cursor.begins_with(&MAGIC)?;
    digest_of(cursor)
}

/// Whether both hold.
fn are_both(first: bool, second: bool) -> bool
    ensures { result ≡ (first && second) }
{
    if first { second } else { false }
}

/// Whether the file at an index has this name and mark.
fn is_left_at(known: &[LeftLine], index: usize, name: &[u8], mark: Mark) -> bool
    ensures { IsLeftNext (drop index known.now) (record { name = name.now; mark = mark }) result }
{
    match known.get(index) {
        Some(file) => is_same_left(file, name, mark),
        None => false,
    }
}

/// Whether there are at most `count` files.
fn is_reached(known: &[LeftLine], count: u32) -> bool
    ensures { result ≡ nat_le (length known.now) count }
{
    known.len() <= count as usize
}

/// Skips the files that a stage left. Returns whether they are those of the base.
fn pass_lefts(cursor: &mut Cursor<'_>, count: u32, known: &[LeftLine]) -> Result<bool, WrongField>
    ensures { PassesRelative (equal_lefts known.now) result cursor.new (several saved_left_at after_left None count cursor.old) }
{
    let mut last = None;
    let mut same = true;
    for index in 0..count {
        let (name, mark) = line_of(cursor, last)?;
        last = Some(name);
        same = are_both(same, is_left_at(known, index as usize, name, mark));
    }
    Ok(are_both(same, is_reached(known, count)))
}

/// Whether a stage of the base has these steps, marks and artefact, and `same_left` holds for the files that it left.
fn are_same(known: &StagePart, header: StageHeader, same_left: bool, made: &[u8]) -> bool
    ensures { result ≡ (known.now.steps == header.steps && (equal_marks known.now.stream1 header.stream1
        && (equal_marks known.now.stream2 header.stream2 && (same_left && bytes_eq known.now.made made.now)))) }
{
    if known.steps != header.steps {
        return false;
    }
    if !is_same_mark(known.stream1, header.stream1) {
        return false;
    }
    if !is_same_mark(known.stream2, header.stream2) {
        return false;
    }
    are_both(same_left, known.made.as_slice() == made)
}

/// Skips a finished stage. Returns whether it is that of the base.
#[tactic(auto, unfolding(crate::specs::Inside::Headers::left_and_made_at))]
fn pass_relative(cursor: &mut Cursor<'_>, known: &StagePart) -> Result<bool, WrongField>
    ensures { PassesRelative (equal_stages (stage_view known.now)) result cursor.new (saved_stage_at 0 cursor.old) }
{
    let header = stage_header(cursor)?;
    let same_left = pass_lefts(cursor, header.count, known.left.as_slice())?;
    let made = cursor.blob32()?;
    Ok(are_same(known, header, same_left, made))
}

/// Skips a further stage. It is wrong if it equals the base's next stage.
#[tactic(auto, unfolding(crate::specs::DeltaText::Stages::further_at))]
fn pass_further(cursor: &mut Cursor<'_>, known: Option<&StagePart>) -> Result<(), WrongField>
    ensures { GoesPast result cursor.new (further_at (option_map stage_view (option_copied known.entry)) cursor.old) }
{
    let at = cursor.len();
    match known {
        None => pass_stage(cursor),
        Some(known) => {
            if pass_relative(cursor, known)? {
                return Err(WrongField { remaining: at });
            }
            Ok(())
        }
    }
}

/// Skips a count of 4 bytes, and that many further stages.
fn pass_several(cursor: &mut Cursor<'_>, known: Option<&StagePart>) -> Result<(), WrongField>
    ensures { GoesPast result cursor.new (counted further_at after_further (option_map stage_view (option_copied known.entry)) cursor.old) }
{
    let count = cursor.u32()?;
    let mut relative = known;
    for _ in 0..count {
        pass_further(cursor, relative)?;
        relative = None;
    }
    Ok(())
}

/// Skips the finished stages.
#[tactic(auto, unfolding(crate::specs::DeltaText::Stages::stages_relative_at))]
fn pass_stages_relative(cursor: &mut Cursor<'_>, base: &[StagePart]) -> Result<(), WrongField>
    ensures { GoesPast result cursor.new (stages_relative_at (map stage_view base.now) cursor.old) }
{
    let kept = kept_of(cursor, base)?;
    pass_several(cursor, known_at(base, kept))
}

/// Skips a delta.
#[tactic(auto, unfolding(crate::specs::Inside::Headers::stages_and_state_at))]
fn pass_delta<'a>(cursor: &mut Cursor<'a>, base: &Parts<'a>) -> Result<(), WrongField>
    requires { IsSaveText (save_view base.now) }
    ensures { GoesPast result cursor.new (delta_at (save_view base.now) cursor.old) }
{
    let _digest = header_of(cursor)?;
    pass_stages_relative(cursor, base.done.as_slice())?;
    pass_patch(cursor, &base.state)
}

/// Checks that the whole text is a well-formed delta.
#[tactic(auto, unfolding(crate::specs::DeltaText::DeltaText::parsed_delta))]
pub(crate) fn judge<'a>(base: &Parts<'a>, text: &'a [u8]) -> Result<(), TextRefusal>
    requires { IsSaveText (save_view base.now) }
    ensures { JudgesForm result (parsed_delta (save_view base.now) text.now) }
{
    let mut cursor = Cursor::new(text);
    match pass_delta(&mut cursor, base) {
        Ok(()) => {}
        Err(field) => return Err(TextRefusal::Form((text.len() - field.remaining) as u64)),
    }
    match cursor.len() {
        0 => Ok(()),
        remaining => Err(TextRefusal::Form((text.len() - remaining) as u64)),
    }
}
