//! Reads arrays and lists of their elements.

ghost use Rattle.std.specs.Prelude.{◌≤◌, IfOk, length, map, []};
ghost use Rattle.toml.specs.View.{view};
ghost use Rattle.recipe.specs.Text.Reading.{Gives, NeverWants, a_name, a_table, a_word, an_array, gathered};
ghost use Rattle.recipe.specs.Text.Inside.Views.{tables_view};

use crate::text::keys::{Key, Place};
use crate::text::refusal::RecipeRefusal;
use crate::text::values::{name, table, word};
use ddc_base::{Bytes, ListOf, Name};
use std::alloc::Global;
use toml::{Table, Value};

/// The values of an array, which must have `least` to `most` of them.
#[tactic(auto, using(crate::proofs::TextLemmas::Arrays::arrays), unfolding(crate::specs::Text::Reading::an_array))]
pub fn array(
    least: usize,
    most: usize,
    place: Place,
    key: Key,
    value: &Value,
) -> Result<&[Value], RecipeRefusal>
    ensures values { Gives (λ values. map view values.now) result (an_array least most place key (view value.now)) }
    ensures few { IfOk result (λ values. length values.now ≤ most) }
    ensures memory { NeverWants result }
{
    match value.as_array() {
        Some(array) => {
            if array.len() > most {
                Err(RecipeRefusal::TooMany(place, key))
            } else if array.len() < least {
                Err(RecipeRefusal::Missing(place, key))
            } else {
                Ok(array.as_slice())
            }
        }
        None => Err(RecipeRefusal::Missing(place, key)),
    }
}

/// Reads one name from each value.
pub fn names(
    alloc: Global,
    place: Place,
    key: Key,
    values: &[Value],
) -> Result<ListOf<Name>, RecipeRefusal>
    ensures { Gives (λ x. x) result (gathered (λ _ element. a_name place key element) [] (map view values.now)) }
{
    let mut names = ListOf::new(alloc);
    for value in values {
        let name = name(place, key, value)?;
        names.push(name)?;
    }
    Ok(names)
}

/// Reads one word for a program from each value.
pub fn words(
    alloc: Global,
    place: Place,
    key: Key,
    values: &[Value],
) -> Result<ListOf<Bytes>, RecipeRefusal>
    ensures { Gives (λ x. x) result (gathered (λ _ element. a_word place key element) [] (map view values.now)) }
{
    let mut words = ListOf::new(alloc);
    for value in values {
        let word = word(alloc, place, key, value)?;
        words.push(word)?;
    }
    Ok(words)
}

/// Reads one table from each value.
pub fn tables(
    alloc: Global,
    place: Place,
    key: Key,
    values: &[Value],
) -> Result<Vec<&Table>, RecipeRefusal>
    ensures tables { Gives (λ x. tables_view x.items) result (gathered (λ _ element. a_table place key element) [] (map view values.now)) }
    ensures few { IfOk result (λ x. length x.items ≤ length values.now) }
{
    let mut tables = Vec::new(alloc);
    for value in values {
        let table = table(place, key, value)?;
        tables.push(table)?;
    }
    Ok(tables)
}
