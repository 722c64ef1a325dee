//! What these commands print besides the lines of `audit`.

ghost use Rattle.std.specs.Prelude.{◌≡◌, IfOk};
ghost use Rattle.audit_commands.specs.PauseTexts.{delta_refused_line, paused_line, save_refused_line};

use audit_run::DeltaRefusal;
use audit_run::save::SaveRefusal;
use ddc_base::{Bytes, OutOfMemory};
use recipe_plan::about_stage;
use std::alloc::Global;

/// The line of a paused audit: its stage, and the steps taken in it. Error: out of memory.
#[tactic(auto, using(crate::proofs::Written::written), unfolding(crate::specs::PauseTexts::paused_line))]
pub fn paused(alloc: Global, stage: &[u8], steps: u64) -> Result<Bytes, OutOfMemory>
    ensures { IfOk result (λ text. text ≡ paused_line stage.now steps) }
{
    let after = format!(in alloc; " {steps}\n")?;
    about_stage(alloc, b"paused ", stage, &after)
}

/// The line for a file that is not a save of the recipe and its inputs. Error: out of memory.
#[tactic(auto, unfolding(crate::specs::PauseTexts::save_refused_line))]
pub fn refused(alloc: Global, refusal: SaveRefusal) -> Result<Bytes, OutOfMemory>
    ensures { IfOk result (λ text. text ≡ save_refused_line refusal) }
{
    let number = refusal.number();
    Ok(Bytes::from_vec(format!(in alloc; "save refused {number}\n")?.into_bytes()))
}

/// The line for files that are not a save of the recipe and its inputs and a delta against it. Error: out of memory.
#[tactic(auto, unfolding(crate::specs::PauseTexts::delta_refused_line))]
pub fn delta_refused(alloc: Global, refusal: DeltaRefusal) -> Result<Bytes, OutOfMemory>
    ensures { IfOk result (λ text. text ≡ delta_refused_line refusal) }
{
    let printed = refusal.number();
    Ok(Bytes::from_vec(format!(in alloc; "save refused {printed}\n")?.into_bytes()))
}
