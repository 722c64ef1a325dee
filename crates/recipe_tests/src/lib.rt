//! Tests of the recipe: a table of recipes with the answers of docs/reference/recipe.md, and what a good one says.
#![tactic(auto)]

ghost use Rattle.std.specs.Prelude.{◌≡◌, ◌++◌, IfOk, string_bytes};
ghost use Rattle.std.specs.List.{repeat};

use ddc_base::OutOfMemory;
use std::alloc::Global;

#[cfg(test)]
mod changes;
#[cfg(test)]
mod document;
#[cfg(test)]
mod formats;
#[cfg(test)]
mod limits;
#[cfg(test)]
mod orders;
#[cfg(test)]
mod parsed;
pub mod reports;
#[cfg(test)]
mod texts;

/// A piece so many times between two others.
pub fn repeated(
    alloc: Global,
    prefix: &str,
    piece: &str,
    count: usize,
    back: &str,
) -> Result<String, OutOfMemory>
    ensures { IfOk result (λ text. string_bytes text ≡ prefix.now ++ repeat count piece.now ++ back.now) }
{
    let mut text = String::from_str(alloc, prefix)?;
    text.push_str(piece.repeat(alloc, count)?.as_str())?;
    text.push_str(back)?;
    Ok(text)
}
