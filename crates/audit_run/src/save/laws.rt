//! Laws of saves. Each law is the contract of a function that does nothing.

ghost use Rattle.audit_run.specs.Save.Inside.Tests.{is_of, is_saved_position};
ghost use Rattle.ddc_base.specs.Limits.{most_save};
ghost use Rattle.audit_run.specs.Save.Judged.{judged};
ghost use Rattle.audit_run.specs.Save.Saves.{SaveAnswer, IsOf, IsSavedPosition, Resumes, save_of};
ghost use Rattle.recipe.specs.Kept.{IsRecipe};
ghost use Rattle.recipe.specs.declared.contents.RecipeContents.{RecipeContents};
ghost use Rattle.save_format.specs.SaveText.{SaveText};
ghost use Rattle.save_format.specs.Encoded.{IsTextOfSave};
ghost use Rattle.std.specs.Prelude.{◌≡◌, ◌≢◌, ◌<◌, ◌↔◌, ℕ, Err, IsTrue, List, length};
ghost use Rattle.audit_rules.specs.Positions.{Position};
ghost use Rattle.audit_rules.specs.Valid.{IsInputs, IsPosition};

use crate::save::reading::SaveRefusal;

/// Every text has exactly one answer other than out of memory: `judged`.
pub fn every_text_has_one_answer()
    ensures answer { (recipe : RecipeContents) (inputs : List (List ℕ)) (text : List ℕ) → Resumes recipe inputs text (judged recipe inputs text) }
    ensures settled { (recipe : RecipeContents) (inputs : List (List ℕ)) (text : List ℕ) → judged recipe inputs text ≢ Err SaveRefusal.OutOfMemory }
    ensures one { (recipe : RecipeContents) (inputs : List (List ℕ)) (text : List ℕ) (first second : SaveAnswer recipe inputs text)
        → first.result ≡ second.result }
{}

/// The tests by which a text is judged decide the rules of saves.
pub fn the_tests_are_the_rules()
    ensures of { (recipe : RecipeContents) (inputs : List (List ℕ)) (save : SaveText) → IsTrue (is_of recipe inputs save) ↔ IsOf recipe inputs save }
    ensures position { (recipe : RecipeContents) (save : SaveText) → IsTrue (is_saved_position recipe save) ↔ IsSavedPosition recipe save }
{}

/// The saves of every position have fewer than 4,294,967,296 bytes.
pub fn saves_are_short()
    ensures { (recipe : RecipeContents) (inputs : List (List ℕ)) (p : Position) (text : List ℕ) → IsRecipe recipe → IsInputs recipe inputs → IsPosition recipe p
        → IsTextOfSave (save_of recipe inputs p) text → length text < most_save }
{}
