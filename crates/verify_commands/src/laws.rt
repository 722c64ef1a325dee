//! Laws of what is printed. Each law is the contract of a function that does nothing.

ghost use Rattle.audit_chain.specs.Provenance.{Collision};
ghost use Rattle.audit_chain.specs.Rests.Agree.{IsSameArtefact};
ghost use Rattle.verify_commands.specs.Provenance.{origin_text};
ghost use Rattle.verify_commands.specs.Verify.{provenance_plan, verify_plan};
ghost use Rattle.command_plan.specs.Plan.{LoadsBytes, outcome};
ghost use Rattle.ddc_base.specs.Outside.{NamedFiles};
ghost use Rattle.wheeler.specs.AllContents.{stage_named};
ghost use Rattle.recipe.specs.Kept.{IsRecipe};
ghost use Rattle.recipe.specs.declared.contents.RecipeContents.{RecipeContents};
ghost use Rattle.recipe.specs.declared.parts.Stage.{Stage};
ghost use Rattle.report.specs.declared.types.Report.{Report};
ghost use Rattle.std.specs.Prelude.{◌≡◌, ◌⊎◌, ℕ, List, Some};
ghost use Rattle.audit_rules.specs.Bench.{bench};
ghost use Rattle.audit_rules.specs.Valid.{IsInputs};
ghost use Rattle.audit_rules.specs.declared.answer.AuditAnswer.TheVariants.{Completes};

use audit_chain::origin::laws::the_marks_settle_it;

/// Two completed audits of one recipe have the same artefact of a stage if `provenance` prints the same lines for it, or two different
/// contents with one length and one digest are known. The lines are those below the stage's comparison. If the stage is checked in M1, the
/// artefacts have the same items.
pub fn what_is_printed_settles_it()
    ensures { (recipe : RecipeContents) (inputs others : List (List ℕ)) (report other : Report) (name : List ℕ) (stage : Stage)
        → IsRecipe recipe → IsInputs recipe inputs → IsInputs recipe others
        → bench recipe inputs ≡ Completes report → bench recipe others ≡ Completes other
        → stage_named recipe.stages name ≡ Some stage → origin_text recipe inputs report name ≡ origin_text recipe others other name
        → IsSameArtefact recipe inputs others stage ⊎ Collision }
{
    the_marks_settle_it();
}

/// For the same words and files `provenance` and `verify` return the same status and load the same files, and no file changes.
pub fn it_judges_as_verify()
    ensures status { (words : List (List ℕ)) (files : NamedFiles) → (outcome (provenance_plan words) files).status ≡ (outcome (verify_plan words) files).status }
    ensures files { (words : List (List ℕ)) (files : NamedFiles) → (outcome (provenance_plan words) files).files ≡ files }
    ensures loads { (words : List (List ℕ)) (files : NamedFiles) → LoadsBytes (provenance_plan words) files → LoadsBytes (verify_plan words) files }
{}
