//! A law of what the audit commands answer. It is the contract of a function that does nothing.

ghost use Rattle.recipe.specs.declared.contents.RecipeContents.{RecipeContents};
ghost use Rattle.std.specs.Prelude.{◌≡◌, ◌≤◌, ℕ, List, length};
ghost use Rattle.audit_rules.specs.Bench.{bench};
ghost use Rattle.audit_rules.specs.declared.answer.AuditAnswer.TheVariants.{Fails};
ghost use Rattle.audit_rules.specs.declared.answer.StageFault.{StageFault};

/// The number of a stage that is not done is one of the recipe's, so the printed line has the stage's name.
pub fn failed_stages_are_of_the_recipe()
    ensures first { (recipe : RecipeContents) (inputs : List (List ℕ)) (number : ℕ) (fault : StageFault) → bench recipe inputs ≡ Fails number fault
        → 1 ≤ number }
    ensures last { (recipe : RecipeContents) (inputs : List (List ℕ)) (number : ℕ) (fault : StageFault) → bench recipe inputs ≡ Fails number fault
        → number ≤ length recipe.stages }
{}
