//! A law of verdicts. It is the contract of a function that does nothing.

ghost use Rattle.verifier.specs.Conclusion.Verdicts.{Shows};
ghost use Rattle.recipe.specs.Kept.{IsRecipe};
ghost use Rattle.recipe.specs.declared.contents.RecipeContents.{RecipeContents};
ghost use Rattle.report.specs.declared.types.Report.{Report};
ghost use Rattle.std.specs.Prelude.{◌≡◌, ℕ, List, None};
ghost use Rattle.verifier.specs.Faults.{first_fault};
ghost use Rattle.verifier.specs.Verdicts.{true_verdict};
ghost use Rattle.audit_rules.specs.Valid.{IsInputs};

use crate::laws::one_report;
use wheeler::Meaning;
use wheeler::laws::the_bench_concludes;

/// For a well-formed recipe and inputs within their limits, a report without a fault shows what its verdict does, under every meaning of
/// sources.
pub fn a_true_report_shows<M: Meaning>()
    ensures { (recipe : RecipeContents) (inputs : List (List ℕ)) (report : Report) → IsRecipe recipe → IsInputs recipe inputs
        → first_fault recipe inputs report ≡ None → Shows M.prescribes M.compiles recipe inputs report.compare (true_verdict report.compare) }
{
    one_report();
    the_bench_concludes::<M>();
}
