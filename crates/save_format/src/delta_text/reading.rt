//! Parses the checkpoint in a delta, relative to its base.

ghost use Rattle.std.specs.Prelude.{◌≡◌, ◌++◌, IfOk, Ok, map, option_map, take};
ghost use Rattle.std.specs.Option.{option_copied};
ghost use Rattle.save_format.specs.ByteFields.Reader.{GivesField, counted};
ghost use Rattle.save_format.specs.DeltaText.DeltaText.{DeltaText, IsDelta, delta_at, parsed_delta, text_of_delta};
ghost use Rattle.save_format.specs.DeltaText.Seen.{ReadsDeltaText, delta_view};
ghost use Rattle.save_format.specs.DeltaText.Stages.{after_further, further_at, stages_relative_at};
ghost use Rattle.save_format.specs.Inside.Headers.{stages_and_state_at};
ghost use Rattle.save_format.specs.Seen.{save_view, stage_view};
ghost use Rattle.save_format.specs.Encoded.{IsSaveText};

use crate::byte_fields::{Cursor, ReadStop};
use crate::delta_text::parts::DeltaParts;
use crate::delta_text::passing::{header_of, judge};
use crate::delta_text::stages::{is_other, kept_of, known_at};
use crate::fields::stage_of;
use crate::parts::{Parts, StagePart};
use crate::patch_text::patch_of;
use crate::state_text::TextRefusal;
use ddc_base::digests::Digest;
use std::alloc::{AllocError, Global};

/// The eight bytes that begin the text of a delta.
pub const MAGIC: [u8; 8] = *b"ddcdelt2";

/// A further stage. It is wrong if it equals the base's next stage.
#[tactic(auto, unfolding(crate::specs::DeltaText::Stages::further_at))]
fn further_of(
    alloc: Global,
    cursor: &mut Cursor<'_>,
    known: Option<&StagePart>,
) -> Result<StagePart, ReadStop>
    ensures { GivesField stage_view result cursor.new (further_at (option_map stage_view (option_copied known.entry)) cursor.old) }
{
    let at = cursor.len();
    let stage = stage_of(alloc, cursor)?;
    if !is_other(known, &stage) {
        return Err(ReadStop::Wrong(at));
    }
    Ok(stage)
}

/// A count of 4 bytes, and that many further stages.
fn several_further(
    alloc: Global,
    cursor: &mut Cursor<'_>,
    known: Option<&StagePart>,
) -> Result<Vec<StagePart>, ReadStop>
    ensures { GivesField (λ v. map stage_view v.items) result cursor.new (counted further_at after_further (option_map stage_view (option_copied known.entry)) cursor.old) }
{
    let count = cursor.u32()?;
    let mut stages = Vec::new(alloc);
    let mut relative = known;
    for _ in 0..count {
        let stage = further_of(alloc, cursor, relative)?;
        relative = None;
        stages.push(stage)?;
    }
    Ok(stages)
}

/// The first `kept` stages of the base, followed by the further ones. No artefact is copied.
fn joined(
    base: Vec<StagePart>,
    kept: usize,
    further: Vec<StagePart>,
) -> Result<Vec<StagePart>, AllocError>
    ensures { IfOk result (λ stages. stages.items ≡ take kept base.items ++ further.items) }
{
    let mut stages = base;
    let mut following = further;
    stages.truncate(kept);
    stages.append(&mut following)?;
    Ok(stages)
}

/// The finished stages.
#[tactic(auto, unfolding(crate::specs::DeltaText::Stages::stages_relative_at))]
fn stages_of(
    alloc: Global,
    cursor: &mut Cursor<'_>,
    base: Vec<StagePart>,
) -> Result<Vec<StagePart>, ReadStop>
    ensures { GivesField (λ v. map stage_view v.items) result cursor.new (stages_relative_at (map stage_view base.items) cursor.old) }
{
    let kept = kept_of(cursor, base.as_slice())?;
    let further = several_further(alloc, cursor, known_at(base.as_slice(), kept))?;
    let stages = joined(base, kept as usize, further)?;
    Ok(stages)
}

/// The fields after the digest of a delta's base.
#[tactic(auto, unfolding(crate::specs::Inside::Headers::stages_and_state_at))]
fn after_digest<'a>(
    alloc: Global,
    cursor: &mut Cursor<'a>,
    digest: Digest,
    base: Parts<'a>,
) -> Result<DeltaParts<'a>, ReadStop>
    requires { IsSaveText (save_view base) }
    ensures { GivesField delta_view result cursor.new (stages_and_state_at (save_view base.entry) digest cursor.old) }
{
    let Parts {
        done,
        state,
        recipe: _,
        inputs: _,
    } = base;
    let stages = stages_of(alloc, cursor, done)?;
    let state = patch_of(alloc, cursor, &state)?;
    Ok(DeltaParts {
        base: digest,
        done: stages,
        state,
    })
}

/// A delta at the start of the remaining bytes.
fn delta_of<'a>(
    alloc: Global,
    cursor: &mut Cursor<'a>,
    base: Parts<'a>,
) -> Result<DeltaParts<'a>, ReadStop>
    requires { IsSaveText (save_view base) }
    ensures { GivesField delta_view result cursor.new (delta_at (save_view base.entry) cursor.old) }
{
    let digest = header_of(cursor)?;
    after_digest(alloc, cursor, digest, base)
}

/// Parses a delta relative to its base. Errors: `Form` with the offset of the first wrong field, `OutOfMemory`.
/// Each field is judged given the base and the fields before it; the offset of a wrong field of the patch counts from
/// the start of the delta.
/// The format is checked first, without allocation.
pub fn read<'a>(
    alloc: Global,
    base: Parts<'a>,
    text: &'a [u8],
) -> Result<DeltaParts<'a>, TextRefusal>
    requires { IsSaveText (save_view base) }
    // A parsed delta has this text relative to the base.
    ensures found { IfOk result (λ p. IsDelta (save_view base.entry) (delta_view p) × (text.now ≡ text_of_delta (save_view base.entry) (delta_view p))) }
    // Every such text is parsed, unless memory runs out.
    ensures only { (d : DeltaText) → IsDelta (save_view base.entry) d → text.now ≡ text_of_delta (save_view base.entry) d → ReadsDeltaText result (Ok d) }
    // The offset is that of the first wrong field.
    ensures exact { ReadsDeltaText result (parsed_delta (save_view base.entry) text.now) }
{
    all(alloc, base, text)
}

#[tactic(auto, unfolding(crate::specs::DeltaText::DeltaText::parsed_delta))]
fn all<'a>(alloc: Global, base: Parts<'a>, text: &'a [u8]) -> Result<DeltaParts<'a>, TextRefusal>
    requires { IsSaveText (save_view base) }
    ensures { ReadsDeltaText result (parsed_delta (save_view base.entry) text.now) }
{
    judge(&base, text)?;
    let mut cursor = Cursor::new(text);
    match delta_of(alloc, &mut cursor, base) {
        Ok(parts) => Ok(parts),
        Err(ReadStop::OutOfMemory) => Err(TextRefusal::OutOfMemory),
        Err(ReadStop::Wrong(_)) => unreachable!(),
    }
}
