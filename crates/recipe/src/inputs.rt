ghost use Rattle.std.specs.Prelude.{◌<◌, ◌≤◌, ◌^◌, ◌-◌, [], IfOk, length};
ghost use Rattle.toml.specs.View.{table_view};
ghost use Rattle.recipe.specs.Text.Inside.Views.{tables_view};
ghost use Rattle.recipe.specs.Text.Reading.{Gives, a_path, gathered, required};
ghost use Rattle.recipe.specs.Tables.{input_table, next_input};

use crate::names::{Above, required_new_name};
use crate::parts::Input;
use crate::text::{Key, Path, Place, RecipeRefusal, no_other_key, optional_name, path, required};
use ddc_base::ListOf;
use std::alloc::Global;
use toml::Table;

/// Reads the inputs of the tables.
pub(crate) fn inputs_of(alloc: Global, tables: &[&Table]) -> Result<ListOf<Input>, RecipeRefusal>
    requires { length tables.now ≤ 256 }
    ensures inputs { Gives (λ x. x) result (gathered next_input [] (tables_view tables.now)) }
    ensures few { IfOk result (λ x. length x ≤ 256) }
{
    let mut inputs = ListOf::new(alloc);
    for table in tables {
        let input = next_input(alloc, &inputs, *table)?;
        inputs.push(input)?;
    }
    Ok(inputs)
}

/// Reads the input of a table, after the inputs before it.
fn next_input(alloc: Global, inputs: &ListOf<Input>, table: &Table) -> Result<Input, RecipeRefusal>
    requires { length inputs.now < 2 ^ 32 - 1 }
    ensures { Gives (λ x. x) result (next_input inputs.now (table_view table.now)) }
{
    let place = Place {
        table: crate::text::Table::Input,
        number: inputs.len() as u32 + 1,
    };
    input_of(alloc, inputs.as_slice(), place, table)
}

/// Reads the input of a table at its place.
#[tactic(auto, unfolding(crate::specs::Tables::input_table))]
fn input_of(
    alloc: Global,
    inputs: &[Input],
    place: Place,
    table: &Table,
) -> Result<Input, RecipeRefusal>
    ensures { Gives (λ x. x) result (input_table inputs.now place (table_view table.now)) }
{
    let above = Above {
        inputs,
        sources: &[],
        stages: &[],
    };
    let name = required_new_name(&above, place, table)?;
    let path = required_path(alloc, place, table)?;
    let implements = optional_name(place, Key::Implements, table)?;
    no_other_key(place, &[Key::Name, Key::Path, Key::Implements], table)?;
    Ok(Input {
        name,
        path,
        implements,
    })
}

/// The path of an input.
#[tactic(auto, unfolding(crate::specs::Text::Reading::required))]
fn required_path(alloc: Global, place: Place, table: &Table) -> Result<Path, RecipeRefusal>
    ensures { Gives (λ x. x) result (required a_path place Key.Path (table_view table.now)) }
{
    path(alloc, place, Key::Path, required(place, Key::Path, table)?)
}
