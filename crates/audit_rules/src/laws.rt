//! Laws of benches, positions and reports of a well-formed recipe. Each law is the contract of a function that does nothing.

ghost use Rattle.recipe.specs.Kept.{IsRecipe};
ghost use Rattle.recipe.specs.declared.contents.RecipeContents.{RecipeContents};
ghost use Rattle.report.specs.Reports.{IsReport};
ghost use Rattle.report.specs.declared.types.Report.{Report};
ghost use Rattle.std.specs.Prelude.{◌≡◌, ◌≤◌, ◌+◌, ◌-◌, ◌^◌, ℕ, List};
ghost use Rattle.audit_rules.specs.Bench.{bench};
ghost use Rattle.audit_rules.specs.Positions.{Position, Phase, On, Over, beginning, continue, finish, forward, forward_from, position, step, todo};
ghost use Rattle.audit_rules.specs.Valid.{IsInputs, IsPosition, IsPhase, limits};
ghost use Rattle.audit_rules.specs.declared.answer.AuditAnswer.TheVariants.{Completes};

/// Advancing by some steps and then by more is advancing by their sum.
pub fn steps_in_parts()
    ensures position { (recipe : RecipeContents) (inputs : List (List ℕ)) (p q : Position) (first more : ℕ)
        → forward recipe inputs p first ≡ On q → forward recipe inputs p (first + more) ≡ forward recipe inputs q more }
    ensures phase { (recipe : RecipeContents) (inputs : List (List ℕ)) (from : Phase) (first more : ℕ)
        → forward_from recipe inputs (forward_from recipe inputs from first) more ≡ forward_from recipe inputs from (first + more) }
{}

/// From every valid position, reached or not, continuing to the end gives one answer, after any number of steps.
pub fn positions_keep_their_answer()
    ensures { (recipe : RecipeContents) (inputs : List (List ℕ)) (p : Position) (count : ℕ) → IsRecipe recipe → IsPosition recipe p
        → finish recipe inputs (forward recipe inputs p count) ≡ continue recipe inputs p }
{}

/// From every position of an audit, continuing to the end gives the answer of `bench`, and so its report.
pub fn positions_have_the_answer_of_the_bench()
    ensures { (recipe : RecipeContents) (inputs : List (List ℕ)) (count : ℕ) → IsRecipe recipe
        → finish recipe inputs (position recipe inputs count) ≡ bench recipe inputs }
{}

/// After as many steps as the stages' limits allow, an audit is over, with the answer of its continuation.
pub fn limits_are_enough()
    ensures { (recipe : RecipeContents) (inputs : List (List ℕ)) (p : Position) (count : ℕ) → IsRecipe recipe → IsPosition recipe p
        → limits (todo recipe p.done) ≤ p.at.steps + count → forward recipe inputs p count ≡ Over (continue recipe inputs p) }
{}

/// One advance by 2^64 - 1 steps ends an audit, since a recipe allows fewer than 2^64 steps in all. The answer is that of `bench`, and from
/// a valid position that of its continuation.
pub fn one_advance_is_enough()
    ensures position { (recipe : RecipeContents) (inputs : List (List ℕ)) (p : Position) → IsRecipe recipe → IsPosition recipe p
        → forward recipe inputs p (2 ^ 64 - 1) ≡ Over (continue recipe inputs p) }
    ensures beginning { (recipe : RecipeContents) (inputs : List (List ℕ)) → IsRecipe recipe
        → position recipe inputs (2 ^ 64 - 1) ≡ Over (bench recipe inputs) }
{}

/// A step from a valid position gives a valid position or an answer with a well-formed report. So does the beginning.
pub fn steps_keep_positions_valid()
    ensures step { (recipe : RecipeContents) (inputs : List (List ℕ)) (p : Position) → IsRecipe recipe → IsInputs recipe inputs → IsPosition recipe p
        → IsPhase recipe (step recipe inputs p) }
    ensures steps { (recipe : RecipeContents) (inputs : List (List ℕ)) (p : Position) (count : ℕ) → IsRecipe recipe → IsInputs recipe inputs
        → IsPosition recipe p → IsPhase recipe (forward recipe inputs p count) }
    ensures beginning { (recipe : RecipeContents) (inputs : List (List ℕ)) → IsRecipe recipe → IsInputs recipe inputs
        → IsPhase recipe (beginning recipe inputs) }
{}

/// Every report of an audit is well formed, from the beginning or from any valid position.
pub fn reports_are_well_formed()
    ensures bench { (recipe : RecipeContents) (inputs : List (List ℕ)) (report : Report) → IsRecipe recipe → IsInputs recipe inputs
        → bench recipe inputs ≡ Completes report → IsReport report }
    ensures position { (recipe : RecipeContents) (inputs : List (List ℕ)) (p : Position) (report : Report) → IsRecipe recipe → IsInputs recipe inputs
        → IsPosition recipe p → continue recipe inputs p ≡ Completes report → IsReport report }
{}
