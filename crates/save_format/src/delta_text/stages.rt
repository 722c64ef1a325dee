//! The finished stages, relative to those of a base.

ghost use Rattle.std.specs.Prelude.{◌≡◌, length, map, nat_le, option_map, slice_get};
ghost use Rattle.std.specs.Option.{option_copied};
ghost use Rattle.save_format.specs.ByteFields.Reader.{Finds, that, u32};
ghost use Rattle.save_format.specs.DeltaText.Stages.{equal_left, equal_lefts, equal_marks, equal_stages, is_other_stage};
ghost use Rattle.save_format.specs.Seen.{stage_view};

use crate::byte_fields::{Cursor, WrongField};
use crate::parts::StagePart;
use report::{LeftLine, Mark};

/// Whether two marks are equal.
pub(crate) fn is_same_mark(first: Mark, second: Mark) -> bool
    ensures { result ≡ equal_marks first second }
{
    first.length == second.length && first.digest.0.as_slice() == second.digest.0.as_slice()
}

/// Whether a left file has this name and mark.
pub(crate) fn is_same_left(first: &LeftLine, name: &[u8], mark: Mark) -> bool
    ensures { result ≡ equal_left first.now (record { name = name.now; mark = mark }) }
{
    first.name.as_slice() == name && is_same_mark(first.mark, mark)
}

fn are_same_lefts(firsts: &[LeftLine], seconds: &[LeftLine]) -> bool
    ensures { result ≡ equal_lefts firsts.now seconds.now }
{
    match firsts {
        [] => match seconds {
            [] => true,
            [_, ..] => false,
        },
        [first, more @ ..] => match seconds {
            [] => false,
            [second, rest @ ..] => {
                is_same_left(first, second.name.as_slice(), second.mark)
                    && are_same_lefts(more, rest)
            }
        },
    }
}

/// Whether a stage of a base has these steps, marks of its two streams, left files, and artefact.
pub fn is_same_stage(
    known: &StagePart,
    steps: u64,
    streams: (Mark, Mark),
    left: &[LeftLine],
    made: &[u8],
) -> bool
    ensures { result ≡ equal_stages (stage_view known.now)
        (record { steps = steps; stream1 = streams.0; stream2 = streams.1; left = left.now; made = made.now }) }
{
    if known.steps != steps {
        return false;
    }
    if !is_same_mark(known.stream1, streams.0) {
        return false;
    }
    if !is_same_mark(known.stream2, streams.1) {
        return false;
    }
    if !are_same_lefts(known.left.as_slice(), left) {
        return false;
    }
    known.made.as_slice() == made
}

/// Whether a stage differs from the base's stage at the same index, if there is one.
pub(crate) fn is_other(known: Option<&StagePart>, stage: &StagePart) -> bool
    ensures { result ≡ is_other_stage (option_map stage_view (option_copied known.entry)) (stage_view stage.now) }
{
    match known {
        None => true,
        Some(known) => !is_same_stage(
            known,
            stage.steps,
            (stage.stream1, stage.stream2),
            stage.left.as_slice(),
            stage.made.as_slice(),
        ),
    }
}

/// The stage of the base at an index.
fn stage_at(base: &[StagePart], index: u32) -> Option<&StagePart>
    ensures { option_copied result ≡ slice_get base.now index }
{
    base.get(index as usize)
}

/// The first stage of the base that is not kept.
pub(crate) fn known_at(base: &[StagePart], kept: u32) -> Option<&StagePart>
    ensures { option_map stage_view (option_copied result) ≡ slice_get (map stage_view base.now) kept }
{
    stage_at(base, kept)
}

/// How many stages of the base are kept, at most all of them.
#[tactic(auto, using(crate::proofs::DeltaTextLemmas::Relative::count_seen))]
pub(crate) fn kept_of(cursor: &mut Cursor<'_>, base: &[StagePart]) -> Result<u32, WrongField>
    ensures { Finds (λ x. x) result cursor.new (that (λ kept. nat_le kept (length (map stage_view base.now))) u32 cursor.old) }
{
    let at = cursor.len();
    let kept = cursor.u32()?;
    if kept as usize > base.len() {
        return Err(WrongField { remaining: at });
    }
    Ok(kept)
}
