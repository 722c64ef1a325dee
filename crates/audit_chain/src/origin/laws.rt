//! Laws of dependencies by length and digest. Each law is the contract of a function that does nothing.

ghost use Rattle.audit_chain.specs.Provenance.{Collision, SameMark, SameMarks, audited_met, mark_named, same_artefacts};
ghost use Rattle.audit_chain.specs.declared.origin.meeting.Meeting.TheVariants.{Read, Run};
ghost use Rattle.audit_chain.specs.Rests.Agree.{IsSameArtefact};
ghost use Rattle.audit_chain.specs.Rests.Basis.{layouts, lines, texts};
ghost use Rattle.audit_chain.specs.Rests.Walk.{meets, walk};
ghost use Rattle.wheeler.specs.AllContents.{all_contents, stage_named};
ghost use Rattle.recipe.specs.Kept.{IsMade, IsRecipe};
ghost use Rattle.recipe.specs.declared.contents.RecipeContents.{RecipeContents};
ghost use Rattle.recipe.specs.declared.parts.Stage.{Stage};
ghost use Rattle.report.specs.Marks.{mark_of};
ghost use Rattle.report.specs.declared.types.Report.{Report};
ghost use Rattle.std.specs.Prelude.{◌≡◌, ◌≢◌, ◌⊎◌, [], ℕ, All, List, Some, true};
ghost use Rattle.audit_rules.specs.Bench.{bench};
ghost use Rattle.audit_rules.specs.Contents.{content};
ghost use Rattle.audit_rules.specs.Valid.{IsInputs};
ghost use Rattle.audit_rules.specs.declared.answer.AuditAnswer.TheVariants.{Completes};
ghost use Rattle.audit_chain.specs.Settled.{is_settled_line};
ghost use Rattle.wheeler.specs.Assumptions.{Holds};
ghost use Rattle.wheeler.specs.Largest.{AllImplement};
ghost use Rattle.wheeler.specs.Settled.{KnowsMacroCode};
ghost use Rattle.wheeler.specs.declared.assumption.Assumption.{Assumption};

use wheeler::Semantics;

/// In a true report the length and digest of each name are those of the bytes that the name stands for.
pub fn marks_are_of_the_contents()
    ensures { (recipe : RecipeContents) (inputs : List (List ℕ)) (report : Report) (name : List ℕ) → IsRecipe recipe → IsInputs recipe inputs
        → bench recipe inputs ≡ Completes report → IsMade recipe recipe.stages name
        → mark_named recipe report name ≡ Some (mark_of (content recipe (all_contents recipe inputs) name)) }
{}

/// In two true reports of one recipe, equal lengths and digests of a stage's dependencies mean the same artefact, or two different contents
/// with one length and digest are at hand. The dependencies are the texts, the programs that are inputs, and the layouts that a check in M1
/// leaves free. The artefact has the same bytes; if the stage is checked in M1, the same items.
pub fn the_marks_settle_it()
    ensures { (recipe : RecipeContents) (inputs others : List (List ℕ)) (report other : Report) (name : List ℕ) (stage : Stage)
        → IsRecipe recipe → IsInputs recipe inputs → IsInputs recipe others
        → bench recipe inputs ≡ Completes report → bench recipe others ≡ Completes other
        → stage_named recipe.stages name ≡ Some stage → SameMarks recipe report other name
        → IsSameArtefact recipe inputs others stage ⊎ Collision }
{}

/// Without assumptions and free layouts that matter, the lengths and digests of the texts alone settle the artefact, whatever programs ran.
/// Otherwise two different contents with one length and digest are at hand.
pub fn the_marked_texts_settle_it()
    ensures { (recipe : RecipeContents) (inputs others : List (List ℕ)) (report other : Report) (name : List ℕ) (stage : Stage)
        → IsRecipe recipe → IsInputs recipe inputs → IsInputs recipe others
        → bench recipe inputs ≡ Completes report → bench recipe others ≡ Completes other
        → stage_named recipe.stages name ≡ Some stage → lines recipe name ≡ [] → layouts recipe name ≡ []
        → All (SameMark recipe report other) (texts recipe name)
        → IsSameArtefact recipe inputs others stage ⊎ Collision }
{}

/// If no line `audited` or `same` is printed, no dependency of the stage, read or run, has the audited binary's bytes. The stage itself
/// does not count.
pub fn an_untold_binary_is_not_met()
    ensures { (recipe : RecipeContents) (inputs : List (List ℕ)) (report : Report) (name : List ℕ) → IsRecipe recipe → IsInputs recipe inputs
        → bench recipe inputs ≡ Completes report → audited_met recipe report Read name ≡ [] → audited_met recipe report Run name ≡ []
        → same_artefacts recipe report Read name ≡ [] → same_artefacts recipe report Run name ≡ []
        → (met : List ℕ) → IsMade recipe recipe.stages met → meets (walk recipe name) met ≡ true → met ≢ name
        → content recipe (all_contents recipe inputs) met ≢ content recipe (all_contents recipe inputs) recipe.compare.binary }
{}

/// An assumption that lengths and digests settle holds under each semantics in which the programs of sources in M1 implement them. Otherwise two
/// different contents with one length and one digest are at hand.
pub fn settled_lines_hold<S: Semantics>()
    ensures { KnowsMacroCode S.prescribes → (recipe : RecipeContents) (inputs : List (List ℕ)) (report : Report) → IsRecipe recipe → IsInputs recipe inputs
        → bench recipe inputs ≡ Completes report → (line : Assumption) → is_settled_line recipe inputs report line ≡ true
        → Holds S.prescribes (AllImplement S.prescribes) recipe (all_contents recipe inputs) line ⊎ Collision }
{
    wheeler::semantics_laws::settled_lines_hold::<S>();
}
