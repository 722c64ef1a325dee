//! Laws of the definitions. Each law is the contract of a function that does nothing.

ghost use Rattle.guest_run.specs.Program.{ProgramRun};
ghost use Rattle.guest_run.specs.Setting.{Setting};
ghost use Rattle.guest_run.specs.Start.{start_of};
ghost use Rattle.mem_files.specs.World.{World};
ghost use Rattle.recipe.specs.Kept.{IsRecipe};
ghost use Rattle.recipe.specs.declared.contents.RecipeContents.{RecipeContents};
ghost use Rattle.report.specs.declared.types.Report.{Report};
ghost use Rattle.std.specs.Prelude.{◌≡◌, ◌≤◌, ◌↔◌, ℕ, List, None, Some, length, true};
ghost use Rattle.verifier.specs.Faults.{first_fault, left_at};
ghost use Rattle.verifier.specs.TrueReport.{IsYes, TrueReport};
ghost use Rattle.audit_rules.specs.Bench.{all_equal, bench};
ghost use Rattle.audit_rules.specs.Valid.{IsInputs};
ghost use Rattle.audit_rules.specs.declared.answer.AuditAnswer.TheVariants.{Completes};

/// For a well-formed recipe and inputs within their limits, a report has no fault exactly if `bench` completes with this report.
pub fn one_report()
    ensures { (recipe : RecipeContents) (inputs : List (List ℕ)) (report : Report) → IsRecipe recipe → IsInputs recipe inputs
        → (first_fault recipe inputs report ≡ None) ↔ (bench recipe inputs ≡ Completes report) }
{}

/// A stage's run is judged right exactly if the recorded step is from 1 to the limit and the program, in its execution context, exits with
/// 0 at that step and leaves these files.
pub fn a_judged_run_is_a_run()
    ensures { (program : List ℕ) (setting : Setting) (limit step : ℕ) (world : World)
        → (left_at (start_of program setting) limit step ≡ Some world) ↔ ((1 ≤ step) × (step ≤ limit) × ProgramRun program setting step 0 world) }
{}

/// For a well-formed recipe and as many inputs as it names, a report has no fault exactly if every line of it is true, clause by clause
/// (`TrueReport`). The inputs may have any contents.
pub fn no_fault_is_every_word_true()
    ensures { (recipe : RecipeContents) (inputs : List (List ℕ)) (report : Report) → IsRecipe recipe → length inputs ≡ length recipe.inputs
        → TrueReport recipe inputs report ↔ (first_fault recipe inputs report ≡ None) }
{}

/// A report has no fault and says `equal` of every compared stage exactly if every line of it is true and the artefact of each compared
/// stage is the audited binary, byte for byte (`IsYes`).
pub fn a_yes_in_its_own_words()
    ensures { (recipe : RecipeContents) (inputs : List (List ℕ)) (report : Report) → IsRecipe recipe → length inputs ≡ length recipe.inputs
        → IsYes recipe inputs report ↔ ((first_fault recipe inputs report ≡ None) × (all_equal report.compare ≡ true)) }
{}
