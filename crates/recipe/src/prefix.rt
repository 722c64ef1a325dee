ghost use Rattle.std.specs.Prelude.{◌≤◌, IfOk, IfSome, length, option_map};
ghost use Rattle.toml.specs.View.{table_view};
ghost use Rattle.recipe.specs.Text.Inside.Views.{tables_view};
ghost use Rattle.recipe.specs.Text.Reading.{Gives, NeverWants, a_list, a_number, a_table, optional, required};
ghost use Rattle.recipe.specs.Inside.Views.{top_view};
ghost use Rattle.recipe.specs.Tables.{top_table};

use crate::text::{
    Key, Place, RecipeRefusal, array, find, no_other_key, required, required_number, table, tables,
};
use crate::top_tables::Top;
use std::alloc::Global;
use toml::Table;

/// The place of the top table.
const TOP: Place = Place {
    table: crate::text::Table::Top,
    number: 0,
};

/// Reads the tables of the top table.
#[tactic(auto, unfolding(crate::specs::Tables::top_table))]
pub(crate) fn top_of<'a>(alloc: Global, top: &'a Table) -> Result<Top<'a>, RecipeRefusal>
    ensures { Gives top_view result (top_table (table_view top.now)) }
{
    let format = format_of(top)?;
    let inputs = required_tables(alloc, Key::Input, top)?;
    let sources = optional_tables(alloc, Key::Source, top)?.unwrap_or(Vec::new(alloc));
    let stages = required_tables(alloc, Key::Stage, top)?;
    let compare = required_table(Key::Compare, top)?;
    no_other_key(
        TOP,
        &[
            Key::Format,
            Key::Input,
            Key::Source,
            Key::Stage,
            Key::Compare,
        ],
        top,
    )?;
    Ok(Top {
        format,
        inputs,
        sources,
        stages,
        compare,
    })
}

/// The recipe's format, 1 or 2.
fn format_of(top: &Table) -> Result<u32, RecipeRefusal>
    ensures value { Gives (λ x. x) result (required (a_number 1 2) TOP Key.Format (table_view top.now)) }
    ensures memory { NeverWants result }
{
    let format = required_number(1, 2, TOP, Key::Format, top)?;
    Ok(format as u32)
}

/// Reads 1 to 256 tables at a key of the top table.
#[tactic(auto, unfolding(crate::specs::Text::Reading::required, crate::specs::Text::Reading::a_list))]
fn required_tables<'a>(
    alloc: Global,
    key: Key,
    top: &'a Table,
) -> Result<Vec<&'a Table>, RecipeRefusal>
    ensures tables { Gives (λ x. tables_view x.items) result (required (a_list a_table 1 256) TOP key (table_view top.now)) }
    ensures few { IfOk result (λ x. length x.items ≤ 256) }
{
    let values = array(1, 256, TOP, key, required(TOP, key, top)?)?;
    tables(alloc, TOP, key, values)
}

/// Reads 0 to 256 tables at a key of the top table; `None` if the key is absent.
#[tactic(auto, unfolding(crate::specs::Text::Reading::optional, crate::specs::Text::Reading::a_list))]
fn optional_tables<'a>(
    alloc: Global,
    key: Key,
    top: &'a Table,
) -> Result<Option<Vec<&'a Table>>, RecipeRefusal>
    ensures tables { Gives (λ x. option_map (λ t. tables_view t.items) x) result (optional (a_list a_table 0 256) TOP key (table_view top.now)) }
    ensures few { IfOk result (λ x. IfSome x (λ t. length t.items ≤ 256)) }
{
    match find(top, key) {
        Some(value) => {
            let values = array(0, 256, TOP, key, value)?;
            Ok(Some(tables(alloc, TOP, key, values)?))
        }
        None => Ok(None),
    }
}

/// Reads the table at a key of the top table.
#[tactic(auto, unfolding(crate::specs::Text::Reading::required))]
fn required_table<'a>(key: Key, top: &'a Table) -> Result<&'a Table, RecipeRefusal>
    ensures value { Gives (λ x. table_view x.now) result (required a_table TOP key (table_view top.now)) }
    ensures memory { NeverWants result }
{
    table(TOP, key, required(TOP, key, top)?)
}
