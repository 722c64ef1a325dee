//! Readers of one value. Each takes the place of the table and the key, which its refusals name.

ghost use Rattle.std.specs.Prelude.{◌≡◌};
ghost use Rattle.std.specs.List.{list_all};
ghost use Rattle.toml.specs.View.{view, table_view};
ghost use Rattle.recipe.specs.Text.Reading.{Gives, NeverWants, a_text, a_name, a_path, a_word, a_number, a_table, in_range, is_word, is_word_byte};

use crate::text::keys::{Key, Place};
use crate::text::paths::{Path, is_path};
use crate::text::refusal::RecipeRefusal;
use ddc_base::{Bytes, Name};
use std::alloc::Global;
use toml::{Table, Value};

/// Reads a string.
#[tactic(auto, unfolding(crate::specs::Text::Reading::a_text))]
pub fn text(place: Place, key: Key, value: &Value) -> Result<&str, RecipeRefusal>
    ensures value { Gives (λ text. text.now) result (a_text place key (view value.now)) }
    ensures memory { NeverWants result }
{
    match value.as_str() {
        Some(text) => Ok(text),
        None => Err(RecipeRefusal::Missing(place, key)),
    }
}

/// Reads a name.
#[tactic(auto, unfolding(crate::specs::Text::Reading::a_name))]
pub fn name(place: Place, key: Key, value: &Value) -> Result<Name, RecipeRefusal>
    ensures value { Gives (λ name. name) result (a_name place key (view value.now)) }
    ensures memory { NeverWants result }
{
    let text = text(place, key, value)?;
    match Name::read(text.as_bytes()) {
        Some(name) => Ok(name),
        None => Err(RecipeRefusal::BadName(place, key)),
    }
}

/// Reads a path of a file outside.
#[tactic(auto, unfolding(crate::specs::Text::Reading::a_path))]
pub fn path(alloc: Global, place: Place, key: Key, value: &Value) -> Result<Path, RecipeRefusal>
    ensures { Gives (λ path. path) result (a_path place key (view value.now)) }
{
    let text = text(place, key, value)?;
    if is_path(text.as_bytes()) {
        Ok(Path::keep(alloc, text)?)
    } else {
        Err(RecipeRefusal::BadPath(place, key))
    }
}

/// Reads a word for a program: at most 255 bytes, none of them zero.
#[tactic(auto, unfolding(crate::specs::Text::Reading::a_word))]
pub fn word(alloc: Global, place: Place, key: Key, value: &Value) -> Result<Bytes, RecipeRefusal>
    ensures { Gives (λ word. word) result (a_word place key (view value.now)) }
{
    let text = text(place, key, value)?.as_bytes();
    if is_word(text) {
        Ok(Bytes::from_slice(alloc, text)?)
    } else {
        Err(RecipeRefusal::BadPath(place, key))
    }
}

/// Whether a text can be handed to a program.
#[tactic(auto, unfolding(crate::specs::Text::Reading::is_word))]
fn is_word(text: &[u8]) -> bool
    ensures { result ≡ is_word text.now }
{
    text.len() <= 255 && are_word_bytes(text)
}

/// Whether every byte is allowed in a word.
fn are_word_bytes(text: &[u8]) -> bool
    ensures { result ≡ list_all is_word_byte text.now }
{
    text.iter().all(|byte| matches!(*byte, 1..=255))
}

/// Reads a number from `least` to `most`.
#[tactic(auto, unfolding(crate::specs::Text::Reading::a_number))]
pub fn number(
    least: u64,
    most: u64,
    place: Place,
    key: Key,
    value: &Value,
) -> Result<u64, RecipeRefusal>
    ensures value { Gives (λ number. number) result (a_number least most place key (view value.now)) }
    ensures memory { NeverWants result }
{
    match value.as_integer() {
        Some(number) => match in_range(least, most, number) {
            Some(number) => Ok(number),
            None => Err(RecipeRefusal::BadNumber(place, key)),
        },
        None => Err(RecipeRefusal::Missing(place, key)),
    }
}

/// The number, if it is in the range.
fn in_range(least: u64, most: u64, number: i64) -> Option<u64>
    ensures { result ≡ in_range least most number }
{
    if number < 0 {
        return None;
    }
    let number = number as u64;
    if least <= number && number <= most {
        Some(number)
    } else {
        None
    }
}

/// Reads a table.
#[tactic(auto, unfolding(crate::specs::Text::Reading::a_table))]
pub fn table(place: Place, key: Key, value: &Value) -> Result<&Table, RecipeRefusal>
    ensures value { Gives (λ table. table_view table.now) result (a_table place key (view value.now)) }
    ensures memory { NeverWants result }
{
    match value.as_table() {
        Some(table) => Ok(table),
        None => Err(RecipeRefusal::Missing(place, key)),
    }
}
