//! Laws of deltas. Each law is the contract of a function that does nothing.

ghost use Rattle.audit_run.specs.Delta.Deltas.{DeltaAnswer, HasDelta, ResumesRelative, delta_text_of};
ghost use Rattle.ddc_base.specs.Limits.{most_save};
ghost use Rattle.audit_run.specs.Delta.Judged.{judged_relative};
ghost use Rattle.recipe.specs.Kept.{IsRecipe};
ghost use Rattle.recipe.specs.declared.contents.RecipeContents.{RecipeContents};
ghost use Rattle.std.specs.Prelude.{◌≡◌, ◌≢◌, ◌<◌, ℕ, Err, List, Ok, length};
ghost use Rattle.audit_rules.specs.Positions.{Position};
ghost use Rattle.audit_rules.specs.Valid.{IsInputs, IsPosition};

use crate::delta::reading::DeltaRefusal;

/// Every base and text have exactly one answer other than out of memory: `judged_relative`.
pub fn every_delta_has_one_answer()
    ensures answer { (recipe : RecipeContents) (inputs : List (List ℕ)) (base text : List ℕ) → ResumesRelative recipe inputs base text (judged_relative recipe inputs base text) }
    ensures settled { (recipe : RecipeContents) (inputs : List (List ℕ)) (base text : List ℕ) → judged_relative recipe inputs base text ≢ Err DeltaRefusal.OutOfMemory }
    ensures one { (recipe : RecipeContents) (inputs : List (List ℕ)) (base text : List ℕ) (first second : DeltaAnswer recipe inputs base text)
        → first.result ≡ second.result }
{}

/// A position has one delta against a base, and that delta is judged as the position. The contract of `Audit::resume_delta` has the
/// converse: whatever is resumed is the delta of a position.
pub fn positions_have_one_delta()
    ensures one { (recipe : RecipeContents) (inputs : List (List ℕ)) (base first second : List ℕ) (p : Position) → IsRecipe recipe → IsInputs recipe inputs
        → HasDelta recipe inputs base first p → HasDelta recipe inputs base second p → first ≡ second }
    ensures judged { (recipe : RecipeContents) (inputs : List (List ℕ)) (base text : List ℕ) (p : Position) → IsRecipe recipe → IsInputs recipe inputs
        → IsPosition recipe p → HasDelta recipe inputs base text p → judged_relative recipe inputs base text ≡ Ok p }
{}

/// The delta of every position against every base has fewer than 4,294,967,296 bytes.
pub fn deltas_are_short()
    ensures { (recipe : RecipeContents) (inputs : List (List ℕ)) (base p : Position) → IsRecipe recipe → IsInputs recipe inputs → IsPosition recipe base
        → IsPosition recipe p → length (delta_text_of recipe inputs base p) < most_save }
{}
