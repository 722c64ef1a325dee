//! Reading a position from a save.

ghost use Rattle.std.specs.Prelude.{◌≡◌, ◌↔◌, All, Err, IfOk, IsOk, IsTrue, List, length, map};
ghost use Rattle.audit_run.specs.Save.Saves.{IsResumedAs, MayOccur, Resumes, Current, digest_of, finished_of, save_of, save_refusal_number};
ghost use Rattle.audit_run.specs.Save.Inside.Seen.{AreDigests};
ghost use Rattle.guest_run.specs.Valid.{IsValid};
ghost use Rattle.recipe.specs.Kept.{IsRecipe};
ghost use Rattle.ddc_base.specs.declared.digests.Digest.{Digest};
ghost use Rattle.save_format.specs.PatchText.Encoded.{IsPatched};
ghost use Rattle.save_format.specs.SaveText.{SaveText, parsed_save};
ghost use Rattle.save_format.specs.StateText.Mappable.{IsHeaderOf};
ghost use Rattle.save_format.specs.Encoded.{IsStageText, IsTextOfSave};
ghost use Rattle.save_format.specs.Seen.{stage_view};
ghost use Rattle.save_format.specs.StateText.Seen.{state_view};
ghost use Rattle.save_format.specs.StateText.StateText.{StateText};
ghost use Rattle.audit_rules.specs.Positions.{Position, at};
ghost use Rattle.audit_rules.specs.Valid.{IsInputs, IsPosition};

use crate::save::judging::are_done;
use crate::save::origin::is_text_of;
use crate::stage::Done;
use audit_rules::Finished;
use checkpoints::{RestoreRefusal, header_in, may_be_made, patched_guest_of};
use ddc_base::digests::Digest;
use ddc_base::{Bytes, OutOfMemory, digest};
use guest_run::{Guest, RunRam};
use recipe::Recipe;
use save_format::state_text::{self, StateHeader, TextRefusal};
use save_format::{InputPart, Parts, StagePart, header_of};
use std::alloc::Global;
use std::marker::Model;

/// Why a text is not a save of an audit.
#[derive(Clone, Copy, Debug, PartialEq, Eq)]
pub enum SaveRefusal {
    /// The first wrong field begins at this byte offset.
    Form(u64),
    /// The save is of another recipe, or of other inputs.
    OtherRecipe,
    /// What it says is not a position of the recipe's audit.
    State,
    OutOfMemory,
}

impl From<OutOfMemory> for SaveRefusal {
    ghost use Rattle.audit_run.specs.declared.save.reading.SaveRefusal.TheVariants as refusal;

    ghost from_gives = { λ _ why. why ≡ refusal.OutOfMemory };

    fn from(_error: OutOfMemory) -> SaveRefusal {
        SaveRefusal::OutOfMemory
    }
}

impl SaveRefusal {
    /// The number of the refusal, from 1.
    pub fn number(&self) -> u8
        ensures { result ≡ save_refusal_number self.now }
    {
        match self {
            SaveRefusal::Form(_) => 1,
            SaveRefusal::OtherRecipe => 2,
            SaveRefusal::State => 3,
            SaveRefusal::OutOfMemory => 4,
        }
    }
}

/// A position of an audit: the finished stages and the present guest.
#[derive(Drop)]
pub struct Resumed {
    done: Vec<Done>,
    guest: Guest<RunRam>,
}

impl Model for Resumed {
    ghost use Rattle.audit_run.specs.Save.Inside.Seen.{position_code};
    ghost use Rattle.audit_rules.specs.Positions.{Position, at};

    ghost Value = { Position };

    ghost coded = { position_code };

    ghost view = { λ r. at r.done.items r.guest };
}

impl Resumed {
    /// The stages that are done, in the recipe's order, and the present stage's guest.
    pub fn into_parts(self) -> (Vec<Done>, Guest<RunRam>)
        ensures { at result.0.items result.1 ≡ self }
    {
        let Resumed { done, guest } = self;
        (done, guest)
    }
}

/// The position of the audit of this recipe and these inputs, from a save of it.
pub fn read(
    alloc: Global,
    recipe: &Recipe,
    inputs: &[Bytes],
    text: &[u8],
) -> Result<Resumed, SaveRefusal>
    requires { IsInputs recipe.now inputs.now }
    // The result is a position of the audit, and the text is one of its saves.
    ensures position { IfOk result (λ p. IsPosition recipe.now p) }
    ensures found { IfOk result (λ p. IsTextOfSave (save_of recipe.now inputs.now p) text.now) }
    // Every save of every position of the audit, reached or not, is read as that position, unless memory runs out.
    ensures only { (p : Position) → IsPosition recipe.now p → IsTextOfSave (save_of recipe.now inputs.now p) text.now → IsResumedAs p result }
    // When each error occurs.
    ensures exact { Resumes recipe.now inputs.now text.now result }
{
    judged(alloc, recipe, inputs, text)
}

/// Judges a text as a save. It is a function of its own so that its further clauses are proved once.
fn judged(
    alloc: Global,
    recipe: &Recipe,
    inputs: &[Bytes],
    text: &[u8],
) -> Result<Resumed, SaveRefusal>
    ensures kept { IsRecipe recipe.now }
    ensures resumes { Resumes recipe.now inputs.now text.now result }
    ensures valid { IfOk result (λ p. IsValid p.at) }
{
    let digest = recipe.digest();
    let parts = match save_format::read(alloc, text) {
        Ok(parts) => parts,
        Err(TextRefusal::Form(offset)) => return Err(SaveRefusal::Form(offset)),
        Err(TextRefusal::OutOfMemory) => return Err(wanting(recipe, inputs, text)),
    };
    if !is_of(&parts, digest, inputs) {
        return Err(SaveRefusal::OtherRecipe);
    }
    let Parts {
        done,
        state,
        recipe: _,
        inputs: _,
    } = parts;
    position_of(alloc, recipe, done, &state)
}

/// Why a well-formed text is not resumed, if memory ran out for the lists of its parts.
fn wanting(recipe: &Recipe, inputs: &[Bytes], text: &[u8]) -> SaveRefusal
    requires { IsOk (parsed_save text.now) }
    ensures { Resumes recipe.now inputs.now text.now (Err result) }
{
    if !is_text_of(text, recipe, inputs) {
        return SaveRefusal::OtherRecipe;
    }
    let header = header_of(text);
    if may_occur(recipe, header.stages as usize, &header.state) {
        SaveRefusal::OutOfMemory
    } else {
        SaveRefusal::State
    }
}

/// Whether a save of the recipe with this many finished stages and this state allocates memory. `header` is the state without its pages.
fn may_occur(recipe: &Recipe, stages: usize, header: &StateHeader) -> bool
    ensures { (save : SaveText) → stages ≡ length save.stages → IsHeaderOf header.now save.state → IsTrue result ↔ MayOccur recipe.now save }
{
    let Some(stage) = recipe.stages().as_slice().get(stages) else {
        return false;
    };
    if header.steps >= stage.steps || header.heap.limit != stage.heap {
        return false;
    }
    may_be_made(header)
}

/// Whether a save is of the recipe of this digest and of these inputs.
fn is_of(parts: &Parts<'_>, recipe: &Digest, inputs: &[Bytes]) -> bool
    ensures { IsTrue result ↔ ((parts.now.recipe ≡ recipe.now) × AreDigests parts.now.inputs.items inputs.now) }
{
    if parts.recipe != *recipe {
        return false;
    }
    are_digests(&parts.inputs, inputs)
}

fn are_digests(parts: &[InputPart], inputs: &[Bytes]) -> bool
    ensures { IsTrue result ↔ AreDigests parts.now inputs.now }
{
    match parts {
        [] => match inputs {
            [] => true,
            [_, ..] => false,
        },
        [part, more @ ..] => match inputs {
            [] => false,
            [input, rest @ ..] => { is_digest_of(part, input) && are_digests(more, rest) }
        },
    }
}

pub(crate) fn is_digest_of(part: &InputPart, input: &Bytes) -> bool
    ensures { IsTrue result ↔ (part.now.digest ≡ digest_of input.now) }
{
    part.digest == digest(input.as_slice())
}

/// The position with these finished stages and the present guest's state, which may be relative to a base's.
pub(crate) fn position_of(
    alloc: Global,
    recipe: &Recipe,
    parts: Vec<StagePart>,
    state: &state_text::StateParts<'_>,
) -> Result<Resumed, SaveRefusal>
    requires stages { All IsStageText (map stage_view parts.items) }
    requires state { (base : StateText) × IsPatched base (state_view state.now) }
    ensures current { (digest : Digest) (inputs : List Digest) → Current recipe.now (record { recipe = digest; inputs = inputs; stages = map stage_view parts.items; state = state_view state.now }) result }
    ensures valid { IfOk result (λ p. IsValid p.at) }
{
    let header = header_in(state);
    if !may_occur(recipe, parts.as_slice().len(), &header) {
        return Err(SaveRefusal::State);
    }
    let done = done_of(alloc, parts)?;
    if !are_done(recipe, done.as_slice()) {
        return Err(SaveRefusal::State);
    }
    match patched_guest_of(alloc, state) {
        Ok(guest) => {
            guest.show_valid();
            Ok(Resumed { done, guest })
        }
        Err(RestoreRefusal::Range) => Err(SaveRefusal::State),
        Err(RestoreRefusal::FileRef) => Err(SaveRefusal::State),
        Err(RestoreRefusal::OutOfMemory) => Err(SaveRefusal::OutOfMemory),
    }
}

/// The finished stages of a save.
fn done_of(alloc: Global, parts: Vec<StagePart>) -> Result<Vec<Done>, OutOfMemory>
    ensures { IfOk result (λ done. done.items ≡ map (λ part. finished_of (stage_view part)) parts.items) }
{
    let mut done = Vec::new(alloc);
    for part in parts {
        done.push(finished_of(part))?;
    }
    Ok(done)
}

/// A finished stage of a save.
fn finished_of(part: StagePart) -> Done
    ensures { result ≡ finished_of (stage_view part) }
{
    let StagePart {
        steps,
        stream1,
        stream2,
        left,
        made,
    } = part;
    Done::of(Finished {
        steps,
        stream1,
        stream2,
        left,
        made,
    })
}
