//! A delta's base: its parts, and the digest by which deltas name it.

ghost use Rattle.std.specs.Prelude.{◌≡◌, ◌++◌, IfOk, IsOk, IsTrue, Ok, OnOk, length, map};
ghost use Rattle.std.specs.Prelude.{◌<◌, ◌^◌, All};
ghost use Rattle.audit_run.specs.Delta.Deltas.{base_digest};
ghost use Rattle.save_format.specs.ByteFields.Spelling.{list_text};
ghost use Rattle.save_format.specs.SaveText.{SaveText, parsed_save};
ghost use Rattle.save_format.specs.Seen.{save_view, stage_view};
ghost use Rattle.save_format.specs.Encoded.{IsSaveText, IsShortStage, IsTextOfSave, stage_text, text_of_save};

use ddc_base::digests::Digest;
use ddc_base::{Bytes, OutOfMemory, digest};
use save_format::byte_fields::{put_counted, put_u32};
use save_format::state_text::{TextRefusal, put_parts};
use save_format::{MAGIC, Parts, StagePart, put_stage};
use std::alloc::Global;

/// The parts of a well-formed save. Their pages are borrowed from its bytes. Error: out of memory.
pub(crate) fn known_of(alloc: Global, base: &[u8]) -> Result<Parts<'_>, OutOfMemory>
    requires { IsOk (parsed_save base.now) }
    ensures parsed { IfOk result (λ known. parsed_save base.now ≡ Ok (save_view known)) }
    ensures text { IfOk result (λ known. IsSaveText (save_view known)) }
    ensures encoded { IfOk result (λ known. IsTextOfSave (save_view known) base.now) }
{
    match save_format::read(alloc, base) {
        Ok(known) => Ok(known),
        Err(TextRefusal::Form(_)) => unreachable!(),
        Err(TextRefusal::OutOfMemory) => Err(OutOfMemory),
    }
}

/// The digest of a base's text in the second form. A base in that form is the text itself. Error: out of memory.
pub(crate) fn digest_of(
    alloc: Global,
    known: &Parts<'_>,
    base: &[u8],
) -> Result<Digest, OutOfMemory>
    requires text { IsSaveText (save_view known.now) }
    requires encoded { IsTextOfSave (save_view known.now) base.now }
    ensures { IfOk result (λ digest. digest ≡ base_digest (save_view known.now)) }
{
    if is_second(base) {
        return Ok(digest(base));
    }
    let text = second_text(alloc, known)?;
    Ok(digest(text.as_slice()))
}

/// Whether a save has the second form.
fn is_second(base: &[u8]) -> bool
    ensures { IsTrue result → (save : SaveText) → IsTextOfSave save base.now → base.now ≡ text_of_save save }
{
    base.starts_with(&MAGIC)
}

/// The text of a save in the second form.
#[tactic(auto, using(crate::proofs::SaveLemmas::Written::written), unfolding(save_format::specs::Encoded::save_text_in))]
fn second_text(alloc: Global, known: &Parts<'_>) -> Result<Bytes, OutOfMemory>
    requires { IsSaveText (save_view known.now) }
    ensures { IfOk result (λ text. text ≡ text_of_save (save_view known.now)) }
{
    let mut out = Bytes::new(alloc);
    out.extend(&MAGIC)?;
    out.extend(&known.recipe.0)?;
    put_counted(&mut out, known.inputs.as_slice())?;
    put_stages(&mut out, &known.done)?;
    put_parts(&mut out, &known.state)?;
    Ok(out)
}

fn put_stages(out: &mut Bytes, stages: &[StagePart]) -> Result<(), OutOfMemory>
    requires few { length stages.now < 2 ^ 32 }
    requires short { All (λ stage. IsShortStage (stage_view stage)) stages.now }
    ensures { OnOk result (out.new ≡ out.old ++ list_text stage_text (map stage_view stages.now)) }
{
    put_u32(out, stages.len() as u32)?;
    for stage in stages {
        put_part(out, stage)?;
    }
    Ok(())
}

fn put_part(out: &mut Bytes, stage: &StagePart) -> Result<(), OutOfMemory>
    requires { IsShortStage (stage_view stage.now) }
    ensures { OnOk result (out.new ≡ out.old ++ stage_text (stage_view stage.now)) }
{
    put_stage(
        out,
        stage.steps,
        (stage.stream1, stage.stream2),
        stage.left.as_slice(),
        stage.made.as_slice(),
    )
}
