//! Loading the inputs of a recipe.

ghost use Rattle.std.specs.Prelude.{◌≡◌, ◌≤◌, IfOk, All, length, map};
ghost use Rattle.ddc_base.specs.Limits.{most_content};
ghost use Rattle.mem_files.specs.Outputs.{IsContent};
ghost use Rattle.recipe.specs.Kept.{IsRecipe};
ghost use Rattle.audit_rules.specs.Valid.{IsInputs};
ghost use Rattle.command_plan.specs.Plan.{needs_all};
ghost use Rattle.command_plan.specs.Steps.{Obtains};
ghost use Rattle.recipe_plan.specs.Recipes.{needs_inputs, needs_inputs_within};

use command_plan::{FileName, Stop, fetch};
use ddc_base::Shelf;
use ddc_base::limits::{MOST_CONTENT, MOST_INPUTS};
use recipe::{Input, Inputs, Path, Recipe};
use std::alloc::Global;

/// A recipe, and a content for each of its inputs.
#[derive(Drop)]
pub struct Supplied {
    pub recipe: Recipe,
    pub inputs: Inputs,
    pub ghost given: { IsInputs recipe inputs },
}

/// Loads the inputs of a recipe, in order, at most 1,073,741,824 bytes together. Errors: those of `command_plan::fetch`.
pub fn fetch_inputs<S: Shelf>(alloc: Global, shelf: &mut S, recipe: &Recipe) -> Result<Inputs, Stop>
    ensures obtained { Obtains (needs_inputs recipe.now) (S.state shelf.old) (S.state shelf.new) result }
    ensures inputs { IfOk result (IsInputs recipe.now) }
    ensures kept { IsRecipe recipe.now }
{
    fetch_inputs_within(alloc, shelf, recipe, MOST_INPUTS)
}

/// Loads the inputs of a recipe, in order, at most `budget` bytes together. Errors: those of `command_plan::fetch`.
pub fn fetch_inputs_within<S: Shelf>(
    alloc: Global,
    shelf: &mut S,
    recipe: &Recipe,
    budget: u64,
) -> Result<Inputs, Stop>
    ensures obtained { Obtains (needs_inputs_within budget recipe.now) (S.state shelf.old) (S.state shelf.new) result }
    ensures inputs { IfOk result (IsInputs recipe.now) }
    ensures kept { IsRecipe recipe.now }
{
    fetch_each(alloc, shelf, recipe.inputs().as_slice(), budget)
}

/// Loads these inputs, in order.
fn fetch_each<S: Shelf>(
    alloc: Global,
    shelf: &mut S,
    inputs: &[Input],
    mut budget: u64,
) -> Result<Inputs, Stop>
    ensures obtained { Obtains (needs_all most_content budget (map (λ input. input.path) inputs.now))
        (S.state shelf.old) (S.state shelf.new) result }
    ensures count { IfOk result (λ contents. length contents ≡ length inputs.now) }
    ensures each { IfOk result (All IsContent) }
{
    let mut contents = Inputs::new(alloc);
    for input in inputs {
        let content = fetch(
            alloc,
            shelf,
            &name_of(&input.path),
            MOST_CONTENT.min(budget),
        )?;
        budget -= size_of(content.as_slice());
        contents.push(content)?;
    }
    Ok(contents)
}

/// A path as the name of a file.
#[tactic(auto, using(crate::proofs::Loading::path_names))]
fn name_of(path: &Path) -> FileName<'_>
    ensures { result ≡ path.now }
{
    FileName::of(path.as_str())
}

/// The length of an input in bytes.
fn size_of(content: &[u8]) -> u64
    requires { length content.now ≤ most_content }
    ensures size { result ≡ length content.now }
    ensures content { IsContent content.now }
{
    content.len() as u64
}
