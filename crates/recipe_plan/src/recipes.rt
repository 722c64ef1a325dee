//! Loading and reading a recipe, and the rule that other files are not its inputs.

ghost use Rattle.std.specs.Prelude.{◌≡◌, ◌++◌};
ghost use Rattle.ddc_base.specs.Outside.{ShelfState};
ghost use Rattle.command_plan.specs.declared.status.Status.TheVariants.{RecipeRefused};
ghost use Rattle.command_plan.specs.Plan.{answers};
ghost use Rattle.command_plan.specs.Steps.{Obtains, Says};
ghost use Rattle.recipe_plan.specs.Recipes.{is_input, needs_apart, needs_recipe, needs_recipe_after, reads_recipe_after};
ghost use Rattle.recipe_plan.specs.Texts.{recipe_line};

use crate::texts;
use command_plan::words::is_one_file;
use command_plan::{Answer, FileName, Status, Stop, fetch, usage};
use ddc_base::limits::MOST_RECIPE;
use ddc_base::{Bytes, Shelf};
use recipe::{Recipe, RecipeRefusal};
use std::alloc::Global;

/// Loads and reads a recipe. Errors: not a recipe, and those of `command_plan::fetch`.
pub fn fetch_recipe<S: Shelf>(
    alloc: Global,
    shelf: &mut S,
    file: &FileName<'_>,
) -> Result<Recipe, Stop>
    ensures { Obtains (needs_recipe file.now) (S.state shelf.old) (S.state shelf.new) result }
{
    fetch_recipe_after(alloc, shelf, file, &[])
}

/// Loads and reads a recipe; the answer to any other file stands after `prefix`. Errors: that answer, and those of `command_plan::fetch`.
pub fn fetch_recipe_after<S: Shelf>(
    alloc: Global,
    shelf: &mut S,
    file: &FileName<'_>,
    prefix: &[u8],
) -> Result<Recipe, Stop>
    ensures { Obtains (needs_recipe_after prefix.now file.now) (S.state shelf.old) (S.state shelf.new) result }
{
    let bytes = fetch(alloc, shelf, file, MOST_RECIPE)?;
    read(alloc, bytes, prefix)
}

/// Reads a recipe and drops its text.
fn read(alloc: Global, bytes: Bytes, prefix: &[u8]) -> Result<Recipe, Stop>
    ensures { (shelf : ShelfState) → Obtains (reads_recipe_after prefix.now bytes) shelf shelf result }
{
    read_recipe(alloc, bytes.as_slice(), prefix)
}

/// Reads a text as a recipe; the answer to any other text stands after `prefix`. Errors: that answer, and out of memory.
pub fn read_recipe(alloc: Global, text: &[u8], prefix: &[u8]) -> Result<Recipe, Stop>
    ensures { (shelf : ShelfState) → Obtains (reads_recipe_after prefix.now text.now) shelf shelf result }
{
    match recipe::read(alloc, text) {
        Ok(recipe) => Ok(recipe),
        Err(RecipeRefusal::OutOfMemory) => Err(Stop::OutOfMemory),
        Err(refusal) => Err(Stop::Answered(refused(alloc, refusal, prefix)?)),
    }
}

/// The answer to a file that is not a recipe, after `prefix`.
fn refused(alloc: Global, refusal: RecipeRefusal, prefix: &[u8]) -> Result<Answer, Stop>
    ensures { Says (answers RecipeRefused (prefix.now ++ recipe_line refusal)) result }
{
    let line = texts::recipe_line(alloc, refusal)?;
    Ok(Answer {
        status: Status::RecipeRefused,
        text: texts::after(alloc, prefix, line.as_slice())?,
    })
}

/// Ends the command with `usage` if a file is one of the recipe's inputs. Error: out of memory.
#[tactic(auto, unfolding(crate::specs::Recipes::needs_apart))]
pub fn apart(alloc: Global, recipe: &Recipe, file: &FileName<'_>) -> Result<(), Stop>
    ensures { (shelf : ShelfState) → Obtains (needs_apart recipe.now file.now) shelf shelf result }
{
    if is_input(recipe, file.text()) {
        return Err(Stop::Answered(usage(alloc)?));
    }
    Ok(())
}

/// Whether a file is one of the inputs, by its path.
fn is_input(recipe: &Recipe, file: &str) -> bool
    ensures { result ≡ is_input recipe.now file.now }
{
    recipe
        .inputs()
        .as_slice()
        .iter()
        .any(|input| is_one_file(input.path.as_str(), file))
}
