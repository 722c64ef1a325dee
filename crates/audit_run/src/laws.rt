//! Laws of audits. Each law is the contract of a function that does nothing.

ghost use Rattle.audit_run.specs.Advances.{Advances};
ghost use Rattle.audit_run.specs.Earlier.{done_in_order, goes_on_after};
ghost use Rattle.audit_run.specs.Saved.{phase_at};
ghost use Rattle.audit_run.specs.declared.phase.Progress.{Progress};
ghost use Rattle.recipe.specs.Kept.{IsRecipe};
ghost use Rattle.recipe.specs.declared.contents.RecipeContents.{RecipeContents};
ghost use Rattle.std.specs.Prelude.{◌≡◌, ℕ, [], List, Some, drop, take};
ghost use Rattle.audit_rules.specs.Bench.{bench};
ghost use Rattle.audit_rules.specs.Positions.{Position, Phase, continue, finish};
ghost use Rattle.audit_rules.specs.Valid.{IsPosition};

/// A resumed audit gives the answer of its position's continuation, whether an audit ever reached that position or not. After any advance,
/// also one that runs out of memory, continuing to the end gives that answer.
pub fn resumed_audits_continue()
    ensures { (recipe : RecipeContents) (inputs : List (List ℕ)) (p : Position) (most : ℕ) (answer : Progress) (now : Phase) → IsRecipe recipe
        → IsPosition recipe p → Advances (phase_at recipe inputs p) most answer (Some now)
        → finish recipe inputs now ≡ continue recipe inputs p }
{}

/// The earlier stages are the audit's own: `bench` gives their result first and then continues after them.
pub fn earlier_stages_are_the_audits()
    ensures { (recipe : RecipeContents) (inputs : List (List ℕ)) (count : ℕ) → bench recipe inputs
        ≡ goes_on_after recipe inputs (drop count recipe.stages) (done_in_order recipe inputs [] (take count recipe.stages)) }
{}
