//! Writing the save of an audit in a stage.

ghost use Rattle.std.specs.Prelude.{◌≡◌, ◌<◌, ◌^◌, ◌++◌, All, IfOk, OnOk, length, map};
ghost use Rattle.audit_run.specs.Save.Saves.{digest_of, save_of, stage_of};
ghost use Rattle.save_format.specs.ByteFields.Spelling.{list_text};
ghost use Rattle.save_format.specs.Encoded.{IsShortStage, digest_text, stage_text, text_of_save};
ghost use Rattle.audit_rules.specs.Positions.{at};
ghost use Rattle.audit_rules.specs.Valid.{IsInputs, IsPosition};

use crate::stage::Done;
use checkpoints::put_state;
use ddc_base::{Bytes, OutOfMemory, digest};
use guest_run::{Guest, RunRam};
use recipe::Recipe;
use save_format::byte_fields::put_u32;
use save_format::{MAGIC, put_stage};
use std::alloc::Global;

/// The save of an audit in a stage, in the second form. Error: out of memory.
#[tactic(auto, using(crate::proofs::SaveLemmas::Written::written), unfolding(save_format::specs::Encoded::save_text_in))]
pub fn write(
    alloc: Global,
    recipe: &Recipe,
    inputs: &[Bytes],
    done: &[Done],
    guest: &Guest<RunRam>,
) -> Result<Bytes, OutOfMemory>
    requires given { IsInputs recipe.now inputs.now }
    requires position { IsPosition recipe.now (at done.now guest.now) }
    ensures { IfOk result (λ text. text ≡ text_of_save (save_of recipe.now inputs.now (at done.now guest.now))) }
{
    let mut out = Bytes::new(alloc);
    out.extend(&MAGIC)?;
    out.extend(&recipe.digest().0)?;
    put_inputs(&mut out, inputs)?;
    put_done(&mut out, done)?;
    put_state(alloc, &mut out, guest)?;
    Ok(out)
}

fn put_inputs(out: &mut Bytes, inputs: &[Bytes]) -> Result<(), OutOfMemory>
    requires { length inputs.now < 2 ^ 32 }
    ensures { OnOk result (out.new ≡ out.old ++ list_text digest_text (map digest_of inputs.now)) }
{
    put_u32(out, inputs.len() as u32)?;
    for input in inputs {
        out.extend(&digest(input.as_slice()).0)?;
    }
    Ok(())
}

pub(crate) fn put_done(out: &mut Bytes, done: &[Done]) -> Result<(), OutOfMemory>
    requires few { length done.now < 2 ^ 32 }
    requires short { All (λ f. IsShortStage (stage_of f)) done.now }
    ensures { OnOk result (out.new ≡ out.old ++ list_text stage_text (map stage_of done.now)) }
{
    put_u32(out, done.len() as u32)?;
    for stage in done {
        put_one(out, stage)?;
    }
    Ok(())
}

fn put_one(out: &mut Bytes, stage: &Done) -> Result<(), OutOfMemory>
    requires { IsShortStage (stage_of stage.now) }
    ensures { OnOk result (out.new ≡ out.old ++ stage_text (stage_of stage.now)) }
{
    let finished = stage.finished();
    put_stage(
        out,
        finished.steps,
        (finished.stream1, finished.stream2),
        finished.left.as_slice(),
        finished.made.as_slice(),
    )
}
