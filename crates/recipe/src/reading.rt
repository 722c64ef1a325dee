ghost use Rattle.std.specs.Prelude.{◌≤◌, IfOk, length};
ghost use Rattle.recipe.specs.Text.Reading.{Gives};
ghost use Rattle.recipe.specs.Reading.{first_walk, recipe_of};

use crate::accepted::Recipe;
use crate::comparison::compare_of;
use crate::contents::RecipeContents;
use crate::inputs::inputs_of;
use crate::prefix::top_of;
use crate::references::second_walk;
use crate::sources::sources_of;
use crate::stages::stages_of;
use crate::text::{RecipeRefusal, document};
use std::alloc::Global;

/// Reads a recipe. Error: the first refusal of its two walks.
#[tactic(auto, using(crate::proofs::Keeps::keeps), unfolding(crate::specs::Reading::recipe_of))]
pub fn read(alloc: Global, bytes: &[u8]) -> Result<Recipe, RecipeRefusal>
    ensures { Gives (λ recipe. recipe) result (recipe_of bytes.now) }
{
    let parsed = first_walk(alloc, bytes)?;
    second_walk(&parsed)?;
    Ok(Recipe::new(parsed))
}

/// The first walk: reads each table with its keys.
#[tactic(auto, unfolding(crate::specs::Reading::first_walk))]
fn first_walk(alloc: Global, bytes: &[u8]) -> Result<RecipeContents, RecipeRefusal>
    ensures parsed { Gives (λ parsed. parsed) result (first_walk bytes.now) }
    ensures few_inputs { IfOk result (λ parsed. length parsed.inputs ≤ 256) }
    ensures few_sources { IfOk result (λ parsed. length parsed.sources ≤ 256) }
    ensures few_stages { IfOk result (λ parsed. length parsed.stages ≤ 256) }
{
    let document = document(alloc, bytes)?;
    let top = top_of(alloc, &document)?;
    let inputs = inputs_of(alloc, top.inputs.as_slice())?;
    let sources = sources_of(alloc, inputs.as_slice(), top.sources.as_slice())?;
    let stages = stages_of(
        alloc,
        inputs.as_slice(),
        sources.as_slice(),
        top.stages.as_slice(),
    )?;
    let compare = compare_of(alloc, top.format, top.compare)?;
    Ok(RecipeContents {
        digest: ddc_base::digest(bytes),
        format: top.format,
        inputs,
        sources,
        stages,
        compare,
    })
}
