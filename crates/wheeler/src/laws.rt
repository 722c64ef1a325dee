//! Laws of every meaning. Each law is the contract of a function that does nothing.

ghost use Rattle.wheeler.specs.AllContents.{stage_named};
ghost use Rattle.wheeler.specs.Assumptions.{assumed, is_trusted};
ghost use Rattle.wheeler.specs.Concludes.{Concludes};
ghost use Rattle.wheeler.specs.Follows.{HasCompared};
ghost use Rattle.wheeler.specs.Listed.{ConcludesListed, ListedHold};
ghost use Rattle.wheeler.specs.Routes.{about, assumed_for, unless_checked, is_on, route, route_named};
ghost use Rattle.recipe.specs.Kept.{IsRecipe};
ghost use Rattle.recipe.specs.declared.contents.RecipeContents.{RecipeContents};
ghost use Rattle.recipe.specs.declared.parts.Stage.{Stage};
ghost use Rattle.report.specs.declared.types.Report.{Report};
ghost use Rattle.std.specs.Prelude.{◌≡◌, ◌-◌, ◌∷◌, [], ℕ, All, List, None, Some, filter, slice_get, true};
ghost use Rattle.audit_rules.specs.Bench.{all_equal, bench};
ghost use Rattle.audit_rules.specs.Valid.{IsInputs};
ghost use Rattle.audit_rules.specs.declared.answer.AuditAnswer.TheVariants.{Completes};

use crate::meaning::Meaning;

/// Each compared stage of a well-formed recipe exists, and if it is unchecked it has a parent source.
pub fn compared_stages_are_there()
    ensures { (recipe : RecipeContents) → IsRecipe recipe → All (HasCompared recipe) recipe.compare.stages }
{}

/// Wheeler's argument, in both directions: if `bench` completes, for a well-formed recipe and inputs within their limits, each comparison
/// has its conclusion, from the assumptions of that stage's route alone.
pub fn the_bench_concludes<M: Meaning>()
    ensures { (recipe : RecipeContents) (inputs : List (List ℕ)) (report : Report) → IsRecipe recipe → IsInputs recipe inputs
        → bench recipe inputs ≡ Completes report → Concludes M.prescribes M.compiles recipe inputs report.compare }
{}

/// A stage's route is its program and then the route of the stage that makes that program, if one does; a checked stage's route is empty. A
/// stage's number and its name have the same route.
pub fn a_route_goes_back()
    ensures back { (recipe : RecipeContents) (name : List ℕ) (stage : Stage) → IsRecipe recipe → stage_named recipe.stages name ≡ Some stage
        → route_named recipe name ≡ unless_checked stage.check (stage.program ∷ route_named recipe stage.program) }
    ensures ends { (recipe : RecipeContents) (name : List ℕ) → stage_named recipe.stages name ≡ None → route_named recipe name ≡ [] }
    ensures number { (recipe : RecipeContents) (number : ℕ) (stage : Stage) → IsRecipe recipe → slice_get recipe.stages (number - 1) ≡ Some stage
        → route recipe number ≡ route_named recipe stage.name }
{}

/// Every name on a route is the program of an unchecked stage, and a route's assumptions are those of the whole audit about its members, in
/// the same order.
pub fn routes_are_trusted()
    ensures programs { (recipe : RecipeContents) (number : ℕ) (name : List ℕ) → is_on (route recipe number) name ≡ true → is_trusted recipe name ≡ true }
    ensures lines { (recipe : RecipeContents) (number : ℕ)
        → assumed_for recipe number ≡ filter (λ line. is_on (route recipe number) (about line)) (assumed recipe) }
{}

/// If all comparisons are equal and every listed assumption holds, every assumption of the audit holds, every stage follows, and the
/// audited binary implements the source of each compared stage that has one.
pub fn an_equal_bench_concludes<M: Meaning>()
    ensures { (recipe : RecipeContents) (inputs : List (List ℕ)) (report : Report) → IsRecipe recipe → IsInputs recipe inputs
        → bench recipe inputs ≡ Completes report → all_equal report.compare ≡ true → ListedHold M.prescribes M.compiles recipe inputs
        → ConcludesListed M.prescribes M.compiles recipe inputs }
{}
