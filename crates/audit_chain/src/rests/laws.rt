//! Laws of bases. Each law is the contract of a function that does nothing.

ghost use Rattle.audit_chain.specs.Rests.Agree.{Agree, AgreeOnPrograms, BasisHolds, IsSameArtefact, WalkFollows};
ghost use Rattle.audit_chain.specs.Rests.Basis.{layouts, lines, ran};
ghost use Rattle.audit_chain.specs.Rests.Composed.{ChecksAlike, HasComposed, HaveOneValue};
ghost use Rattle.audit_chain.specs.Rests.Walk.{HasParts, meets, runs_meet, walk};
ghost use Rattle.wheeler.specs.Assumptions.{assumed};
ghost use Rattle.wheeler.specs.Routes.{about, is_on, route_named};
ghost use Rattle.wheeler.specs.AllContents.{all_contents, stage_named};
ghost use Rattle.recipe.specs.Kept.{IsRecipe};
ghost use Rattle.recipe.specs.declared.contents.RecipeContents.{RecipeContents};
ghost use Rattle.recipe.specs.declared.parts.Stage.{Stage};
ghost use Rattle.report.specs.declared.types.Report.{Report};
ghost use Rattle.std.specs.Prelude.{◌≡◌, [], ℕ, Bool, List, Some, filter, true};
ghost use Rattle.audit_rules.specs.Bench.{bench};
ghost use Rattle.audit_rules.specs.Contents.{content};
ghost use Rattle.audit_rules.specs.Valid.{IsInputs};
ghost use Rattle.audit_rules.specs.declared.answer.AuditAnswer.TheVariants.{Completes};

use wheeler::Meaning;

/// Without assumptions about a stage, its artefact is a function of the texts that `rests` prints, whatever programs ran. Two completed
/// audits of one recipe that agree on the stage's texts and layouts have the same artefact; all other inputs may differ.
pub fn without_a_line_the_texts_settle_it()
    ensures { (recipe : RecipeContents) (inputs others : List (List ℕ)) (report other : Report) (name : List ℕ) (stage : Stage)
        → IsRecipe recipe → IsInputs recipe inputs → IsInputs recipe others
        → bench recipe inputs ≡ Completes report → bench recipe others ≡ Completes other
        → stage_named recipe.stages name ≡ Some stage → lines recipe name ≡ [] → Agree recipe inputs others name
        → IsSameArtefact recipe inputs others stage }
{}

/// Also with assumptions, two completed audits have the same artefact if they agree on the texts, the layouts and the programs that are
/// inputs.
pub fn the_basis_settles_it()
    ensures { (recipe : RecipeContents) (inputs others : List (List ℕ)) (report other : Report) (name : List ℕ) (stage : Stage)
        → IsRecipe recipe → IsInputs recipe inputs → IsInputs recipe others
        → bench recipe inputs ≡ Completes report → bench recipe others ≡ Completes other
        → stage_named recipe.stages name ≡ Some stage → AgreeOnPrograms recipe inputs others name → Agree recipe inputs others name
        → IsSameArtefact recipe inputs others stage }
{}

/// If every assumption of a stage's basis holds, the stage follows, and so does every stage among its dependencies.
pub fn the_walk_follows<M: Meaning>()
    ensures { (recipe : RecipeContents) (inputs : List (List ℕ)) (report : Report) (name : List ℕ) → IsRecipe recipe → IsInputs recipe inputs
        → bench recipe inputs ≡ Completes report → BasisHolds M.prescribes M.compiles recipe inputs name
        → WalkFollows M.prescribes recipe inputs name }
{}

/// If every stage among the dependencies is checked and no free layout matters, the artefact has the value that the languages' definitions
/// alone compose from the texts, without a run. The artefact is these bytes or, if checked in M1, a hex2 text with these items.
pub fn checked_stages_are_composed()
    ensures { (recipe : RecipeContents) (inputs : List (List ℕ)) (report : Report) (name : List ℕ) (stage : Stage) → IsRecipe recipe → IsInputs recipe inputs
        → bench recipe inputs ≡ Completes report → stage_named recipe.stages name ≡ Some stage → ran recipe name ≡ [] → layouts recipe name ≡ []
        → HasComposed recipe inputs name (content recipe (all_contents recipe inputs) name) }
{}

/// The dependencies of a stage are the least set of names that has the stage's name and, with each stage, the parts of that stage.
pub fn the_way_back_is_the_least()
    ensures begins { (recipe : RecipeContents) (name : List ℕ) → IsRecipe recipe → meets (walk recipe name) name ≡ true }
    ensures parts { (recipe : RecipeContents) (name : List ℕ) → IsRecipe recipe → HasParts recipe (meets (walk recipe name)) }
    ensures least { (recipe : RecipeContents) (name : List ℕ) (chosen : List ℕ → Bool) → chosen name ≡ true → HasParts recipe chosen
        → (other : List ℕ) → meets (walk recipe name) other ≡ true → chosen other ≡ true }
{}

/// The assumptions of a basis are those of the whole audit about programs among the dependencies, in its order. The programs of the stage's
/// own route are among these.
pub fn the_lines_are_those_of_the_audit()
    ensures lines { (recipe : RecipeContents) (name : List ℕ)
        → lines recipe name ≡ filter (λ line. runs_meet (walk recipe name) (about line)) (assumed recipe) }
    ensures route { (recipe : RecipeContents) (name program : List ℕ) → IsRecipe recipe → is_on (route_named recipe name) program ≡ true
        → runs_meet (walk recipe name) program ≡ true }
{}

/// Two recipes with the same sources, checks and texts among the dependencies make the same bytes, or hex2 texts with the same items, if
/// every dependency is checked and no free layout matters. That holds whatever programs ran.
pub fn recipes_that_check_alike_make_the_same()
    ensures { (recipe other : RecipeContents) (inputs others : List (List ℕ)) (report whole : Report) (name : List ℕ) (stage twin : Stage)
        → IsRecipe recipe → IsRecipe other → IsInputs recipe inputs → IsInputs other others
        → bench recipe inputs ≡ Completes report → bench other others ≡ Completes whole
        → stage_named recipe.stages name ≡ Some stage → stage_named other.stages name ≡ Some twin
        → ran recipe name ≡ [] → layouts recipe name ≡ [] → ran other name ≡ [] → layouts other name ≡ []
        → ChecksAlike recipe other inputs others name
        → HaveOneValue (content recipe (all_contents recipe inputs) name) (content other (all_contents other others) name) }
{}
