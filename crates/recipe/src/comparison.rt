ghost use Rattle.std.specs.Prelude.{◌≡◌, [], map};
ghost use Rattle.toml.specs.View.{table_view, view};
ghost use Rattle.recipe.specs.Text.Reading.{Gives, NeverWants, gathered, required};
ghost use Rattle.recipe.specs.Tables as spec;
ghost use Rattle.recipe.specs.Tables.{compare_table, compared_stages, is_among, next_stage_name, some_stage_names};

use crate::parts::Compare;
use crate::text::{Key, Place, RecipeRefusal, array, name, no_other_key, required, required_name};
use ddc_base::{ListOf, Name};
use std::alloc::Global;
use toml::{Table, Value};

/// The place of the only table `compare`.
pub(crate) const COMPARE: Place = Place {
    table: crate::text::Table::Compare,
    number: 0,
};

/// The key under which a recipe of a format names the stages that it compares.
pub(crate) fn stages_key(format: u32) -> Key
    ensures { result ≡ spec.stages_key format }
{
    if format == 1 { Key::Stage } else { Key::Stages }
}

/// Reads what is compared at the end.
#[tactic(auto, unfolding(crate::specs::Tables::compare_table))]
pub(crate) fn compare_of(
    alloc: Global,
    format: u32,
    table: &Table,
) -> Result<Compare, RecipeRefusal>
    ensures { Gives (λ x. x) result (compare_table format (table_view table.now)) }
{
    let stages = compared_stages(alloc, format, table)?;
    let binary = required_name(COMPARE, Key::Binary, table)?;
    no_other_key(COMPARE, &[stages_key(format), Key::Binary], table)?;
    Ok(Compare { stages, binary })
}

/// The stages that are compared: one in format 1, 1 to 16 in format 2.
#[tactic(auto, unfolding(crate::specs::Tables::compared_stages))]
fn compared_stages(alloc: Global, format: u32, table: &Table) -> Result<ListOf<Name>, RecipeRefusal>
    ensures { Gives (λ x. x) result (compared_stages format (table_view table.now)) }
{
    if format == 1 {
        one_stage(alloc, table)
    } else {
        required_stages(alloc, table)
    }
}

/// The one stage of format 1.
fn one_stage(alloc: Global, table: &Table) -> Result<ListOf<Name>, RecipeRefusal>
    ensures { Gives (λ x. x) result (spec.one_stage (table_view table.now)) }
{
    let stage = required_name(COMPARE, Key::Stage, table)?;
    let mut stages = ListOf::new(alloc);
    stages.push(stage)?;
    Ok(stages)
}

/// The 1 to 16 stages of format 2.
#[tactic(auto, unfolding(crate::specs::Text::Reading::required, crate::specs::Tables::some_stage_names))]
fn required_stages(alloc: Global, table: &Table) -> Result<ListOf<Name>, RecipeRefusal>
    ensures { Gives (λ x. x) result (required some_stage_names COMPARE Key.Stages (table_view table.now)) }
{
    let value = required(COMPARE, Key::Stages, table)?;
    names_of(alloc, array(1, 16, COMPARE, Key::Stages, value)?)
}

/// Reads one name from each value and refuses a repeated name.
fn names_of(alloc: Global, values: &[Value]) -> Result<ListOf<Name>, RecipeRefusal>
    ensures { Gives (λ x. x) result (gathered (next_stage_name COMPARE Key.Stages) [] (map view values.now)) }
{
    let mut names = ListOf::new(alloc);
    for value in values {
        let name = next_name(&names, value)?;
        names.push(name)?;
    }
    Ok(names)
}

/// Reads a name from a value and refuses one that is already in the list.
#[tactic(auto, unfolding(crate::specs::Tables::next_stage_name))]
fn next_name(names: &ListOf<Name>, value: &Value) -> Result<Name, RecipeRefusal>
    ensures value { Gives (λ x. x) result (next_stage_name COMPARE Key.Stages names.now (view value.now)) }
    ensures memory { NeverWants result }
{
    let name = name(COMPARE, Key::Stages, value)?;
    if is_among(names.as_slice(), &name) {
        Err(RecipeRefusal::DoubleName(COMPARE, Key::Stages))
    } else {
        Ok(name)
    }
}

/// Whether a name is in the list.
fn is_among(names: &[Name], name: &Name) -> bool
    ensures { result ≡ is_among names.now name.now }
{
    names.iter().any(|other| *other == *name)
}
