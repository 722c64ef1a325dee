//! What the commands of an audit in segments share: loading the recipe, a save and the inputs, and the rule that other files are not
//! inputs.

ghost use Rattle.std.specs.Prelude.{ℕ, IfOk, List};
ghost use Rattle.ddc_base.specs.Outside.{ShelfState};
ghost use Rattle.ddc_base.specs.Limits.{most_save};
ghost use Rattle.audit_rules.specs.Valid.{IsInputs};
ghost use Rattle.command_plan.specs.Plan.{Plan, needs};
ghost use Rattle.command_plan.specs.Steps.{Obtains};
ghost use Rattle.recipe_plan.specs.Recipes.{needs_apart, needs_inputs, needs_recipe};

use crate::words::{PieceWords, RelativeWords};
use command_plan::{FileName, Stop, fetch};
use ddc_base::limits::MOST_SAVE;
use ddc_base::{Bytes, Shelf};
use recipe::{Inputs, Recipe};
use recipe_plan::{apart, fetch_inputs, fetch_recipe};
use std::alloc::Global;

/// The recipe; the report and the save must not be its inputs.
pub(crate) fn fetch_apart<S: Shelf>(
    alloc: Global,
    shelf: &mut S,
    words: &PieceWords<'_>,
) -> Result<Recipe, Stop>
    ensures { Obtains (λ next. needs_recipe words.now.recipe (λ parsed. needs_apart parsed words.now.piece.report (λ _.
        needs_apart parsed words.now.piece.save (λ _. next parsed))))
        (S.state shelf.old) (S.state shelf.new) result }
{
    let recipe = fetch_recipe(alloc, shelf, &words.recipe)?;
    both_apart(alloc, &recipe, &words.piece.report, &words.piece.save)?;
    Ok(recipe)
}

/// Ends the command if one of two files is an input.
fn both_apart(
    alloc: Global,
    recipe: &Recipe,
    report: &FileName<'_>,
    save: &FileName<'_>,
) -> Result<(), Stop>
    ensures { (shelf : ShelfState) → Obtains (λ next. needs_apart recipe.now report.now (λ _. needs_apart recipe.now save.now next)) shelf shelf result }
{
    apart(alloc, recipe, report)?;
    apart(alloc, recipe, save)
}

/// The recipe; the report, the base and the patch must not be its inputs.
pub(crate) fn fetch_relative<S: Shelf>(
    alloc: Global,
    shelf: &mut S,
    words: &RelativeWords<'_>,
) -> Result<Recipe, Stop>
    ensures { Obtains (λ next. needs_recipe words.now.recipe (λ parsed. needs_apart parsed words.now.piece.report (λ _. needs_apart parsed words.now.base (λ _.
        needs_apart parsed words.now.piece.save (λ _. next parsed)))))
        (S.state shelf.old) (S.state shelf.new) result }
{
    let recipe = fetch_recipe(alloc, shelf, &words.recipe)?;
    both_apart(alloc, &recipe, &words.piece.report, &words.base)?;
    apart(alloc, &recipe, &words.piece.save)?;
    Ok(recipe)
}

/// Loads a save or a delta, and then the inputs of a recipe.
pub(crate) fn fetch_save<S: Shelf>(
    alloc: Global,
    shelf: &mut S,
    recipe: &Recipe,
    save: &FileName<'_>,
) -> Result<(Bytes, Inputs), Stop>
    ensures obtained { Obtains (λ (next : List ℕ × List (List ℕ) → Plan). needs save.now most_save (λ text. needs_inputs recipe.now (λ inputs. next (text, inputs))))
        (S.state shelf.old) (S.state shelf.new) result }
    ensures given { IfOk result (λ found. IsInputs recipe.now found.1) }
{
    let text = fetch(alloc, shelf, save, MOST_SAVE)?;
    let inputs = fetch_inputs(alloc, shelf, recipe)?;
    Ok((text, inputs))
}
