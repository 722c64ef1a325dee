//! Reading a position from a base and a delta.

ghost use Rattle.std.specs.Prelude.{◌≡◌, IfOk, Ok};
ghost use Rattle.audit_run.specs.Delta.Deltas.{base_digest, GoesOnRelative, HasDelta, IsBaseAt, IsResumedRelativeAs, ResumesRelative, delta_refusal_number, delta_text_of};
ghost use Rattle.audit_run.specs.Delta.Inside.Judging.{JudgesBase};
ghost use Rattle.audit_run.specs.Save.Saves.{Resumes};
ghost use Rattle.guest_run.specs.Valid.{IsValid};
ghost use Rattle.recipe.specs.Kept.{IsRecipe};
ghost use Rattle.save_format.specs.Seen.{save_view};
ghost use Rattle.save_format.specs.Encoded.{IsSaveText};
ghost use Rattle.audit_rules.specs.Positions.{Position};
ghost use Rattle.audit_rules.specs.Valid.{IsInputs, IsPosition};

use crate::delta::base::{digest_of, known_of};
use crate::save::{Resumed, SaveRefusal, position_of};
use ddc_base::digests::Digest;
use ddc_base::{Bytes, OutOfMemory};
use recipe::Recipe;
use save_format::Parts;
use save_format::delta_text::{self, DeltaParts, names_other_base};
use save_format::state_text::TextRefusal;
use std::alloc::Global;

/// Why a text is not a delta of an audit against its base.
#[derive(Clone, Copy, Debug, PartialEq, Eq)]
pub enum DeltaRefusal {
    /// The base is not a save of the audit, for this reason, which is never out of memory.
    Base(SaveRefusal),
    /// The first wrong field of the delta begins at this byte offset.
    Form(u64),
    /// The delta is against another base.
    OtherBase,
    /// What it says is not a position of the recipe's audit.
    State,
    OutOfMemory,
}

impl From<OutOfMemory> for DeltaRefusal {
    ghost use Rattle.audit_run.specs.declared.delta.reading.DeltaRefusal.TheVariants as refusal;

    ghost from_gives = { λ _ why. why ≡ refusal.OutOfMemory };

    fn from(_error: OutOfMemory) -> DeltaRefusal {
        DeltaRefusal::OutOfMemory
    }
}

impl DeltaRefusal {
    /// The number of the refusal: 1 to 3 for a base, as for a save; 4 for out of memory; 5 to 7 for a delta.
    pub fn number(&self) -> u8
        ensures { result ≡ delta_refusal_number self.now }
    {
        match self {
            DeltaRefusal::Base(refusal) => refusal.number(),
            DeltaRefusal::Form(_) => 5,
            DeltaRefusal::OtherBase => 6,
            DeltaRefusal::State => 7,
            DeltaRefusal::OutOfMemory => 4,
        }
    }
}

/// The position of the audit of this recipe and these inputs, from a save of it and a delta against that save.
pub fn read(
    alloc: Global,
    recipe: &Recipe,
    inputs: &[Bytes],
    base: &[u8],
    text: &[u8],
) -> Result<Resumed, DeltaRefusal>
    requires { IsInputs recipe.now inputs.now }
    // The result is a position of the audit, and the text is its delta against the base's position.
    ensures position { IfOk result (λ p. IsPosition recipe.now p) }
    ensures found { IfOk result (λ p. HasDelta recipe.now inputs.now base.now text.now p) }
    // The delta of every position of the audit against every base is read as that position, with each save of the base, unless memory runs
    // out.
    ensures only { (b : Position) (p : Position) → IsBaseAt recipe.now inputs.now b base.now → IsPosition recipe.now p
        → text.now ≡ delta_text_of recipe.now inputs.now b p → IsResumedRelativeAs p result }
    // When each error occurs.
    ensures exact { ResumesRelative recipe.now inputs.now base.now text.now result }
{
    judged(alloc, recipe, inputs, base, text)
}

/// Judges a base, and then a text relative to it. It is a function of its own so that its further clauses are proved once.
fn judged(
    alloc: Global,
    recipe: &Recipe,
    inputs: &[Bytes],
    base: &[u8],
    text: &[u8],
) -> Result<Resumed, DeltaRefusal>
    requires { IsInputs recipe.now inputs.now }
    ensures kept { IsRecipe recipe.now }
    ensures base { IfOk result (λ p. (b : Position) → Resumes recipe.now inputs.now base.now (Ok b) → IsPosition recipe.now b) }
    ensures resumes { ResumesRelative recipe.now inputs.now base.now text.now result }
    ensures valid { IfOk result (λ p. IsValid p.at) }
{
    recipe.show_rules();
    judge_base(alloc, recipe, inputs, base)?;
    let known = known_of(alloc, base)?;
    let digest = digest_of(alloc, &known, base)?;
    relative(alloc, recipe, known, &digest, text)
}

/// Judges the base as a save is judged. The guest made from it is dropped before another is made.
fn judge_base(
    alloc: Global,
    recipe: &Recipe,
    inputs: &[Bytes],
    base: &[u8],
) -> Result<(), DeltaRefusal>
    requires { IsInputs recipe.now inputs.now }
    ensures { JudgesBase recipe.now inputs.now base.now result }
{
    match crate::save::read(alloc, recipe, inputs, base) {
        Ok(_position) => Ok(()),
        Err(SaveRefusal::Form(offset)) => Err(DeltaRefusal::Base(SaveRefusal::Form(offset))),
        Err(SaveRefusal::OtherRecipe) => Err(DeltaRefusal::Base(SaveRefusal::OtherRecipe)),
        Err(SaveRefusal::State) => Err(DeltaRefusal::Base(SaveRefusal::State)),
        Err(SaveRefusal::OutOfMemory) => Err(DeltaRefusal::OutOfMemory),
    }
}

/// The position that a text says relative to a base with this digest. Out of memory hides neither another base's name nor a wrong form.
fn relative<'a>(
    alloc: Global,
    recipe: &Recipe,
    known: Parts<'a>,
    base: &Digest,
    text: &'a [u8],
) -> Result<Resumed, DeltaRefusal>
    requires text { IsSaveText (save_view known) }
    requires named { base.now ≡ base_digest (save_view known) }
    ensures goes { GoesOnRelative recipe.now (save_view known.entry) text.now result }
    ensures valid { IfOk result (λ p. IsValid p.at) }
{
    if names_other_base(base, text) {
        return Err(DeltaRefusal::OtherBase);
    }
    let parts = match delta_text::read(alloc, known, text) {
        Ok(parts) => parts,
        Err(TextRefusal::Form(offset)) => return Err(DeltaRefusal::Form(offset)),
        Err(TextRefusal::OutOfMemory) => return Err(DeltaRefusal::OutOfMemory),
    };
    let DeltaParts {
        done,
        state,
        base: _,
    } = parts;
    match position_of(alloc, recipe, done, &state) {
        Ok(position) => Ok(position),
        Err(SaveRefusal::Form(_)) => unreachable!(),
        Err(SaveRefusal::OtherRecipe) => unreachable!(),
        Err(SaveRefusal::State) => Err(DeltaRefusal::State),
        Err(SaveRefusal::OutOfMemory) => Err(DeltaRefusal::OutOfMemory),
    }
}
