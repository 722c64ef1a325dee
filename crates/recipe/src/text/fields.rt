//! The values at the keys of a table.

ghost use Rattle.std.specs.Prelude.{◌≡◌, option_map, string_bytes};
ghost use Rattle.std.specs.List.{list_all};
ghost use Rattle.std.specs.BTreeMap.{keys as map_keys};
ghost use Rattle.ddc_base.specs.Results.{or_error};
ghost use Rattle.toml.specs.Data.{get_member};
ghost use Rattle.toml.specs.View.{view, table_view};
ghost use Rattle.recipe.specs.Text.Keys.{key_word, is_known_key, are_listed};
ghost use Rattle.recipe.specs.Text.Reading.{Gives, NeverWants, required, optional, a_name, a_number, no_other_key};
ghost use Rattle.recipe.specs.declared.text.refusal.RecipeRefusal.TheVariants.{Missing as Absent};

use crate::text::keys::{Key, Place};
use crate::text::refusal::RecipeRefusal;
use crate::text::values::{name, number};
use ddc_base::Name;
use toml::{Table, Value};

/// The value at a key; `None` if the key is absent.
pub fn find(table: &Table, key: Key) -> Option<&Value>
    ensures { option_map (λ v. view v.now) result ≡ get_member (key_word key) (table_view table.now) }
{
    find_word(table, key.word())
}

/// The value at a key, by its word.
fn find_word<'a>(table: &'a Table, word: &str) -> Option<&'a Value>
    ensures { option_map (λ v. view v.now) result ≡ get_member word.now (table_view table.now) }
{
    table.get(word)
}

/// The value at a required key.
pub fn required(place: Place, key: Key, table: &Table) -> Result<&Value, RecipeRefusal>
    ensures value { Gives (λ v. view v.now) result (or_error (Absent place key) (get_member (key_word key) (table_view table.now))) }
    ensures memory { NeverWants result }
{
    match find(table, key) {
        Some(value) => Ok(value),
        None => Err(RecipeRefusal::Missing(place, key)),
    }
}

/// Reads the name at a required key.
#[tactic(auto, unfolding(crate::specs::Text::Reading::required))]
pub fn required_name(place: Place, key: Key, table: &Table) -> Result<Name, RecipeRefusal>
    ensures value { Gives (λ x. x) result (required a_name place key (table_view table.now)) }
    ensures memory { NeverWants result }
{
    name(place, key, required(place, key, table)?)
}

/// Reads the name at an optional key.
#[tactic(auto, unfolding(crate::specs::Text::Reading::optional))]
pub fn optional_name(place: Place, key: Key, table: &Table) -> Result<Option<Name>, RecipeRefusal>
    ensures value { Gives (λ x. x) result (optional a_name place key (table_view table.now)) }
    ensures memory { NeverWants result }
{
    match find(table, key) {
        Some(value) => Ok(Some(name(place, key, value)?)),
        None => Ok(None),
    }
}

/// Reads the number at a required key, from `least` to `most`.
#[tactic(auto, unfolding(crate::specs::Text::Reading::required))]
pub fn required_number(
    least: u64,
    most: u64,
    place: Place,
    key: Key,
    table: &Table,
) -> Result<u64, RecipeRefusal>
    ensures value { Gives (λ x. x) result (required (a_number least most) place key (table_view table.now)) }
    ensures memory { NeverWants result }
{
    number(least, most, place, key, required(place, key, table)?)
}

/// Reads the number at an optional key, from `least` to `most`.
#[tactic(auto, unfolding(crate::specs::Text::Reading::optional))]
pub fn optional_number(
    least: u64,
    most: u64,
    place: Place,
    key: Key,
    table: &Table,
) -> Result<Option<u64>, RecipeRefusal>
    ensures value { Gives (λ x. x) result (optional (a_number least most) place key (table_view table.now)) }
    ensures memory { NeverWants result }
{
    match find(table, key) {
        Some(value) => Ok(Some(number(least, most, place, key, value)?)),
        None => Ok(None),
    }
}

/// Refuses a table that has any other key than these.
#[tactic(auto, unfolding(crate::specs::Text::Reading::no_other_key))]
pub fn no_other_key(place: Place, keys: &[Key], table: &Table) -> Result<(), RecipeRefusal>
    ensures value { Gives (λ x. x) result (no_other_key place keys.now (table_view table.now)) }
    ensures memory { NeverWants result }
{
    if are_listed(keys, table) {
        Ok(())
    } else {
        Err(RecipeRefusal::Unknown(place))
    }
}

/// Whether a table has no other keys than these.
fn are_listed(keys: &[Key], table: &Table) -> bool
    ensures { result ≡ are_listed keys.now (table_view table.now) }
{
    are_keys_listed(keys, table)
}

/// Whether the map of a table has no other keys than these.
fn are_keys_listed(keys: &[Key], table: &Table) -> bool
    ensures { result ≡ list_all (λ k. is_known_key keys.now (string_bytes k)) (map_keys table.now) }
{
    table
        .keys()
        .all(|key| is_listed(keys, key.as_str().as_bytes()))
}

/// Whether a text is one of the keys.
fn is_listed(keys: &[Key], text: &[u8]) -> bool
    ensures { result ≡ is_known_key keys.now text.now }
{
    keys.iter().any(|key| key.word().as_bytes() == text)
}
