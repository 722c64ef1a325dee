//! File names of saved states, and the arguments that they come from.

ghost use Rattle.std.specs.Prelude.{◌≡◌, ◌≤◌, ◌<◌, IfOk, IfSome, IsTrue, string_bytes};
ghost use Rattle.ddc_base.specs.Outside.{ShelfState};
ghost use Rattle.ddc_base.specs.Limits.{most_state, most_states};
ghost use Rattle.command_plan.specs.Plan.{needs};
ghost use Rattle.command_plan.specs.Words.{is_file_word};
ghost use Rattle.command_plan.specs.Steps.{Obtains};
ghost use Rattle.recipe_plan.specs.Recipes.{needs_apart};
ghost use Rattle.stage_commands.specs.Names.{as_states, each_name, is_prefix, needs_other, piece_name};

use crate::words::NamePrefix;
use command_plan::words::{has_no_zero_byte, is_one_file};
use command_plan::{FileName, Stop, fetch, usage};
use ddc_base::limits::{MOST_STATE, MOST_STATES};
use ddc_base::{Bytes, OutOfMemory, Shelf, read_decimal};
use recipe::Recipe;
use recipe_plan::apart;
use std::alloc::Global;

/// Whether PREFIX has 1 to 250 bytes, none of them zero.
pub(crate) fn is_prefix(prefix: &str) -> bool
    ensures { result ≡ is_prefix prefix.now }
{
    1 <= prefix.len() && prefix.len() <= 250 && has_no_zero_byte(prefix)
}

/// Reads a number of states, from 1 to 1,000; `None` for all other words.
#[tactic(auto, unfolding(crate::specs::Names::as_states))]
pub(crate) fn states_of(word: &str) -> Option<u32>
    ensures value { result ≡ as_states word.now }
    ensures within { IfSome result (λ count. (1 ≤ count) × (count ≤ most_states)) }
{
    let count = read_decimal(word.as_bytes())?;
    if 1 <= count && count <= MOST_STATES as u64 {
        Some(count as u32)
    } else {
        None
    }
}

/// The name PREFIX.K of the state of a number K, below 1,000.
pub(crate) fn piece_name(
    alloc: Global,
    prefix: &NamePrefix<'_>,
    number: u32,
) -> Result<String, OutOfMemory>
    requires { number < most_states }
    ensures name { IfOk result (λ name. string_bytes name ≡ piece_name prefix.now number) }
    ensures file { IsTrue (is_file_word (piece_name prefix.now number)) }
{
    let prefix = prefix.text();
    Ok(format!(in alloc; "{prefix}.{number}")?)
}

/// Fetches the state of a number, below 1,000.
pub(crate) fn fetch_state<S: Shelf>(
    alloc: Global,
    shelf: &mut S,
    prefix: &NamePrefix<'_>,
    number: u32,
) -> Result<Bytes, Stop>
    requires { number < most_states }
    ensures { Obtains (needs (piece_name prefix.now number) most_state) (S.state shelf.old) (S.state shelf.new) result }
{
    let name = piece_name(alloc, prefix, number)?;
    fetch(alloc, shelf, &FileName::of(name.as_str()), MOST_STATE)
}

/// Stops with a usage answer where one of PREFIX.0 to PREFIX.999 names the same file as RECIPE.
pub(crate) fn names_other(
    alloc: Global,
    file: &FileName<'_>,
    prefix: &NamePrefix<'_>,
) -> Result<(), Stop>
    ensures { (shelf : ShelfState) → Obtains (each_name (needs_other file.now) prefix.now most_states) shelf shelf result }
{
    for number in 0..MOST_STATES {
        let name = piece_name(alloc, prefix, number)?;
        other(alloc, file, &FileName::of(name.as_str()))?;
    }
    Ok(())
}

/// Stops with a usage answer where two words name the same file.
#[tactic(auto, unfolding(crate::specs::Names::needs_other))]
fn other(alloc: Global, file: &FileName<'_>, name: &FileName<'_>) -> Result<(), Stop>
    ensures { (shelf : ShelfState) → Obtains (needs_other file.now name.now) shelf shelf result }
{
    if is_one_file(file.text(), name.text()) {
        return Err(Stop::Answered(usage(alloc)?));
    }
    Ok(())
}

/// Stops with a usage answer where one of PREFIX.0 to PREFIX.999 names the same file as an input.
pub(crate) fn names_apart(
    alloc: Global,
    recipe: &Recipe,
    prefix: &NamePrefix<'_>,
) -> Result<(), Stop>
    ensures { (shelf : ShelfState) → Obtains (each_name (needs_apart recipe.now) prefix.now most_states) shelf shelf result }
{
    for number in 0..MOST_STATES {
        let name = piece_name(alloc, prefix, number)?;
        apart(alloc, recipe, &FileName::of(name.as_str()))?;
    }
    Ok(())
}
