//! Writing the delta of an audit in a stage.

ghost use Rattle.std.specs.Prelude.{◌≡◌, ◌<◌, ◌≤◌, ◌^◌, ◌++◌, All, IfOk, OnOk, length, map};
ghost use Rattle.ddc_base.specs.Limits.{page_number_end};
ghost use Rattle.audit_run.specs.Delta.Deltas.{IsBaseAt, base_digest, delta_text_of};
ghost use Rattle.audit_run.specs.Save.Saves.{stage_of};
ghost use Rattle.checkpoints.specs.Checkpoint.{state_of};
ghost use Rattle.save_format.specs.DeltaText.DeltaText.{text_of_delta};
ghost use Rattle.save_format.specs.DeltaText.Stages.{equal_stages, kept_stages, stages_relative_text};
ghost use Rattle.save_format.specs.Seen.{save_view, stage_view};
ghost use Rattle.save_format.specs.Encoded.{IsSaveText, IsShortStage, IsTextOfSave};
ghost use Rattle.audit_rules.specs.Positions.{Position, at};
ghost use Rattle.audit_rules.specs.Valid.{IsPosition};

use crate::delta::base::{digest_of, known_of};
use crate::save::put_done;
use crate::stage::{Done, SoFar};
use checkpoints::put_patch_of;
use ddc_base::{Bytes, OutOfMemory};
use guest_run::{Guest, RunRam};
use save_format::byte_fields::put_u32;
use save_format::delta_text::{MAGIC, is_same_stage};
use save_format::{Parts, StagePart};
use std::alloc::Global;

/// The delta of an audit in a stage against a save of it, its base. The base's pages are compared in place. Error: out of memory.
pub(crate) fn write(
    alloc: Global,
    so_far: &SoFar<'_>,
    guest: &Guest<RunRam>,
    base: &[u8],
) -> Result<Bytes, OutOfMemory>
    requires position { IsPosition so_far.now.recipe.now (at so_far.now.done.now guest.now) }
    requires base { (b : Position) × IsBaseAt so_far.now.recipe.now so_far.now.inputs.now b base.now }
    ensures { IfOk result (λ text. (b : Position) → IsBaseAt so_far.now.recipe.now so_far.now.inputs.now b base.now
        → text ≡ delta_text_of so_far.now.recipe.now so_far.now.inputs.now b (at so_far.now.done.now guest.now)) }
{
    so_far.recipe.show_rules();
    let known = known_of(alloc, base)?;
    relative(alloc, &known, base, so_far.done, guest)
}

/// The delta against the parts of a base.
#[tactic(auto, using(crate::proofs::SaveLemmas::Written::written))]
fn relative(
    alloc: Global,
    known: &Parts<'_>,
    base: &[u8],
    done: &[Done],
    guest: &Guest<RunRam>,
) -> Result<Bytes, OutOfMemory>
    requires text { IsSaveText (save_view known.now) }
    requires encoded { IsTextOfSave (save_view known.now) base.now }
    requires pages { length (save_view known.now).state.pages ≤ page_number_end }
    requires few { length done.now < 2 ^ 32 }
    requires short { All (λ f. IsShortStage (stage_of f)) done.now }
    ensures { IfOk result (λ text. text ≡ text_of_delta (save_view known.now)
        (record { base = base_digest (save_view known.now); stages = map stage_of done.now; state = state_of guest.now })) }
{
    let digest = digest_of(alloc, known, base)?;
    let mut out = Bytes::new(alloc);
    out.extend(&MAGIC)?;
    out.extend(&digest.0)?;
    put_relative(&mut out, &known.done, done)?;
    put_patch_of(alloc, &mut out, &known.state, guest)?;
    Ok(out)
}

/// Adds the number of first stages that are the base's, and then the other stages.
fn put_relative(out: &mut Bytes, known: &[StagePart], done: &[Done]) -> Result<(), OutOfMemory>
    requires few { length done.now < 2 ^ 32 }
    requires short { All (λ f. IsShortStage (stage_of f)) done.now }
    ensures { OnOk result (out.new ≡ out.old ++ stages_relative_text (map stage_view known.now) (map stage_of done.now)) }
{
    let kept = kept_of(known, done);
    put_u32(out, kept as u32)?;
    put_done(out, &done[kept..])
}

/// The number of first stages that are the same in both.
#[tactic(auto, unfolding(save_format::specs::DeltaText::Stages::kept_stages))]
fn kept_of(known: &[StagePart], done: &[Done]) -> usize
    ensures value { result ≡ kept_stages (map stage_view known.now) (map stage_of done.now) }
    ensures few { result ≤ length done.now }
{
    match known {
        [] => 0,
        [first, more @ ..] => match done {
            [] => 0,
            [stage, later @ ..] => {
                if is_same(first, stage) {
                    1 + kept_of(more, later)
                } else {
                    0
                }
            }
        },
    }
}

/// Whether a finished stage is as the base says.
fn is_same(known: &StagePart, done: &Done) -> bool
    ensures { result ≡ equal_stages (stage_view known.now) (stage_of done.now) }
{
    let finished = done.finished();
    is_same_stage(
        known,
        finished.steps,
        (finished.stream1, finished.stream2),
        finished.left.as_slice(),
        finished.made.as_slice(),
    )
}
