ghost use Rattle.std.specs.Prelude.{◌<◌, ◌≤◌, ◌^◌, ◌-◌, [], IfOk, length, unwrap_or};
ghost use Rattle.toml.specs.View.{table_view};
ghost use Rattle.recipe.specs.Text.Inside.Views.{tables_view};
ghost use Rattle.recipe.specs.Text.Reading.{Gives, a_list, a_word, gathered, optional, required};
ghost use Rattle.recipe.specs.Tables.{next_stage, stage_table};

use crate::names::{Above, required_new_name};
use crate::parts::{Input, Source, Stage};
use crate::stage_files::{optional_files, required_output};
use crate::text::{
    Key, Place, RecipeRefusal, array, find, no_other_key, optional_name, optional_number, required,
    required_name, required_number, words,
};
use ddc_base::limits::{MOST_HEAP, MOST_STEPS, USUAL_HEAP};
use ddc_base::{Bytes, ListOf};
use std::alloc::Global;
use toml::Table;

/// The keys of a stage.
const KEYS: [Key; 10] = [
    Key::Name,
    Key::Program,
    Key::Args,
    Key::Env,
    Key::Files,
    Key::Output,
    Key::Steps,
    Key::Heap,
    Key::Check,
    Key::Becomes,
];

/// Reads the stages of the tables.
pub(crate) fn stages_of(
    alloc: Global,
    inputs: &[Input],
    sources: &[Source],
    tables: &[&Table],
) -> Result<ListOf<Stage>, RecipeRefusal>
    requires { length tables.now ≤ 256 }
    ensures stages { Gives (λ x. x) result (gathered (next_stage inputs.now sources.now) [] (tables_view tables.now)) }
    ensures few { IfOk result (λ x. length x ≤ 256) }
{
    let mut stages = ListOf::new(alloc);
    for table in tables {
        let stage = next_stage(alloc, inputs, sources, &stages, *table)?;
        stages.push(stage)?;
    }
    Ok(stages)
}

/// Reads the stage of a table, after the stages before it.
fn next_stage(
    alloc: Global,
    inputs: &[Input],
    sources: &[Source],
    stages: &ListOf<Stage>,
    table: &Table,
) -> Result<Stage, RecipeRefusal>
    requires { length stages.now < 2 ^ 32 - 1 }
    ensures { Gives (λ x. x) result (next_stage inputs.now sources.now stages.now (table_view table.now)) }
{
    let place = Place {
        table: crate::text::Table::Stage,
        number: stages.len() as u32 + 1,
    };
    let above = Above {
        inputs,
        sources,
        stages: stages.as_slice(),
    };
    stage_of(alloc, &above, place, table)
}

/// Reads the stage of a table at its place.
#[tactic(auto, unfolding(crate::specs::Tables::stage_table))]
fn stage_of(
    alloc: Global,
    above: &Above<'_>,
    place: Place,
    table: &Table,
) -> Result<Stage, RecipeRefusal>
    ensures { Gives (λ x. x) result (stage_table above.now.inputs.now above.now.sources.now above.now.stages.now place (table_view table.now)) }
{
    let name = required_new_name(above, place, table)?;
    let program = required_name(place, Key::Program, table)?;
    let args = required_args(alloc, place, table)?;
    let env = optional_env(alloc, place, table)?.unwrap_or(ListOf::new(alloc));
    let files = optional_files(alloc, place, table)?.unwrap_or(ListOf::new(alloc));
    let output = required_output(alloc, place, table)?;
    let steps = required_number(1, MOST_STEPS, place, Key::Steps, table)?;
    let heap = optional_number(0, MOST_HEAP, place, Key::Heap, table)?.unwrap_or(USUAL_HEAP);
    let check = optional_name(place, Key::Check, table)?;
    let becomes = optional_name(place, Key::Becomes, table)?;
    no_other_key(place, &KEYS, table)?;
    Ok(Stage {
        name,
        program,
        args,
        env,
        files,
        output,
        steps,
        heap,
        check,
        becomes,
    })
}

/// Reads the arguments of a stage's program.
#[tactic(auto, unfolding(crate::specs::Text::Reading::required, crate::specs::Text::Reading::a_list))]
fn required_args(alloc: Global, place: Place, table: &Table) -> Result<ListOf<Bytes>, RecipeRefusal>
    ensures { Gives (λ x. x) result (required (a_list a_word 1 64) place Key.Args (table_view table.now)) }
{
    let value = required(place, Key::Args, table)?;
    let values = array(1, 64, place, Key::Args, value)?;
    words(alloc, place, Key::Args, values)
}

/// Reads the environment of a stage's program; `None` if the key is absent.
#[tactic(auto, unfolding(crate::specs::Text::Reading::optional, crate::specs::Text::Reading::a_list))]
fn optional_env(
    alloc: Global,
    place: Place,
    table: &Table,
) -> Result<Option<ListOf<Bytes>>, RecipeRefusal>
    ensures { Gives (λ x. x) result (optional (a_list a_word 0 64) place Key.Env (table_view table.now)) }
{
    match find(table, Key::Env) {
        Some(value) => {
            let values = array(0, 64, place, Key::Env, value)?;
            Ok(Some(words(alloc, place, Key::Env, values)?))
        }
        None => Ok(None),
    }
}
