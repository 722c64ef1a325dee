ghost use Rattle.std.specs.Prelude.{◌≡◌, ◌<◌, ◌≤◌, ◌^◌, ◌-◌, [], IfOk, length};
ghost use Rattle.toml.specs.View.{table_view, view};
ghost use Rattle.recipe.specs.Text.Inside.Views.{tables_view};
ghost use Rattle.recipe.specs.Text.Reading.{Gives, NeverWants, a_list, a_name, gathered, required};
ghost use Rattle.recipe.specs.Tables.{a_language, next_source, source_language, source_table};

use crate::names::{Above, required_new_name};
use crate::parts::{Input, Source, SourceLanguage};
use crate::text::{
    Key, Place, RecipeRefusal, array, names, no_other_key, optional_number, required, text,
};
use ddc_base::languages::Language;
use ddc_base::limits::MOST_ADDRESS;
use ddc_base::{ListOf, Name};
use std::alloc::Global;
use toml::{Table, Value};

/// The base of a source that names none: 0x600000.
const DEFAULT_BASE: u64 = 6_291_456;

/// Reads the sources of the tables.
pub(crate) fn sources_of(
    alloc: Global,
    inputs: &[Input],
    tables: &[&Table],
) -> Result<ListOf<Source>, RecipeRefusal>
    requires { length tables.now ≤ 256 }
    ensures sources { Gives (λ x. x) result (gathered (next_source inputs.now) [] (tables_view tables.now)) }
    ensures few { IfOk result (λ x. length x ≤ 256) }
{
    let mut sources = ListOf::new(alloc);
    for table in tables {
        let source = next_source(alloc, inputs, &sources, *table)?;
        sources.push(source)?;
    }
    Ok(sources)
}

/// Reads the source of a table, after the sources before it.
fn next_source(
    alloc: Global,
    inputs: &[Input],
    sources: &ListOf<Source>,
    table: &Table,
) -> Result<Source, RecipeRefusal>
    requires { length sources.now < 2 ^ 32 - 1 }
    ensures { Gives (λ x. x) result (next_source inputs.now sources.now (table_view table.now)) }
{
    let place = Place {
        table: crate::text::Table::Source,
        number: sources.len() as u32 + 1,
    };
    source_of(alloc, inputs, sources.as_slice(), place, table)
}

/// Reads the source of a table at its place.
#[tactic(auto, unfolding(crate::specs::Tables::source_table))]
fn source_of(
    alloc: Global,
    inputs: &[Input],
    sources: &[Source],
    place: Place,
    table: &Table,
) -> Result<Source, RecipeRefusal>
    ensures { Gives (λ x. x) result (source_table inputs.now sources.now place (table_view table.now)) }
{
    let above = Above {
        inputs,
        sources,
        stages: &[],
    };
    let name = required_new_name(&above, place, table)?;
    let lang = required_language(place, table)?;
    let base = optional_number(0, MOST_ADDRESS, place, Key::Base, table)?.unwrap_or(DEFAULT_BASE);
    let files = required_names(alloc, place, table)?;
    no_other_key(place, &[Key::Name, Key::Lang, Key::Base, Key::Files], table)?;
    Ok(Source {
        name,
        lang,
        base,
        files,
    })
}

/// Reads the language of a source.
#[tactic(auto, unfolding(crate::specs::Text::Reading::required))]
fn required_language(place: Place, table: &Table) -> Result<SourceLanguage, RecipeRefusal>
    ensures value { Gives (λ x. x) result (required a_language place Key.Lang (table_view table.now)) }
    ensures memory { NeverWants result }
{
    language(place, required(place, Key::Lang, table)?)
}

/// Reads a language from a value.
#[tactic(auto, unfolding(crate::specs::Tables::a_language))]
fn language(place: Place, value: &Value) -> Result<SourceLanguage, RecipeRefusal>
    ensures value { Gives (λ x. x) result (a_language place Key.Lang (view value.now)) }
    ensures memory { NeverWants result }
{
    let word = text(place, Key::Lang, value)?;
    match source_language(word.as_bytes()) {
        Some(language) => Ok(language),
        None => Err(RecipeRefusal::BadName(place, Key::Lang)),
    }
}

/// The language that a word names.
fn source_language(word: &[u8]) -> Option<SourceLanguage>
    ensures { result ≡ source_language word.now }
{
    match word {
        b"other" => Some(SourceLanguage::Other),
        _ => Language::named(word).map(SourceLanguage::Defined),
    }
}

/// Reads the files of a source.
#[tactic(auto, unfolding(crate::specs::Text::Reading::required, crate::specs::Text::Reading::a_list))]
fn required_names(alloc: Global, place: Place, table: &Table) -> Result<ListOf<Name>, RecipeRefusal>
    ensures { Gives (λ x. x) result (required (a_list a_name 1 64) place Key.Files (table_view table.now)) }
{
    let value = required(place, Key::Files, table)?;
    let values = array(1, 64, place, Key::Files, value)?;
    names(alloc, place, Key::Files, values)
}
