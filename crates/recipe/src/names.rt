//! Names that no table above a table has.

ghost use Rattle.std.specs.Prelude.{◌≡◌};
ghost use Rattle.toml.specs.View.{table_view, view};
ghost use Rattle.recipe.specs.Text.Reading.{Gives, NeverWants, required};
ghost use Rattle.recipe.specs.Tables.{a_new_name, is_input_name, is_source_name, is_stage_name, is_taken};

use crate::parts::{Input, Source, Stage};
use crate::text::{Key, Place, RecipeRefusal, name, required};
use ddc_base::Name;
use toml::{Table, Value};

/// The tables above a table: the inputs, sources and stages read so far.
#[derive(Clone, Copy)]
pub(crate) struct Above<'a> {
    pub(crate) inputs: &'a [Input],
    pub(crate) sources: &'a [Source],
    pub(crate) stages: &'a [Stage],
}

/// Reads the name of a table, which must differ from all names above.
#[tactic(auto, unfolding(crate::specs::Text::Reading::required))]
pub(crate) fn required_new_name(
    above: &Above<'_>,
    place: Place,
    table: &Table,
) -> Result<Name, RecipeRefusal>
    ensures value { Gives (λ x. x) result (required (a_new_name above.now.inputs.now above.now.sources.now above.now.stages.now) place Key.Name (table_view table.now)) }
    ensures memory { NeverWants result }
{
    new_name(above, place, required(place, Key::Name, table)?)
}

/// Reads a name from a value, which must differ from all names above.
#[tactic(auto, unfolding(crate::specs::Tables::a_new_name))]
fn new_name(above: &Above<'_>, place: Place, value: &Value) -> Result<Name, RecipeRefusal>
    ensures value { Gives (λ x. x) result (a_new_name above.now.inputs.now above.now.sources.now above.now.stages.now place Key.Name (view value.now)) }
    ensures memory { NeverWants result }
{
    let name = name(place, Key::Name, value)?;
    if is_taken(above, &name) {
        Err(RecipeRefusal::DoubleName(place, Key::Name))
    } else {
        Ok(name)
    }
}

/// Whether a table above has the name.
#[tactic(auto, unfolding(crate::specs::Tables::is_taken))]
fn is_taken(above: &Above<'_>, name: &Name) -> bool
    ensures { result ≡ is_taken above.now.inputs.now above.now.sources.now above.now.stages.now name.now }
{
    is_input_name(above.inputs, name)
        || is_source_name(above.sources, name)
        || is_stage_name(above.stages, name)
}

fn is_input_name(inputs: &[Input], name: &Name) -> bool
    ensures { result ≡ is_input_name inputs.now name.now }
{
    inputs.iter().any(|input| input.name == *name)
}

fn is_source_name(sources: &[Source], name: &Name) -> bool
    ensures { result ≡ is_source_name sources.now name.now }
{
    sources.iter().any(|source| source.name == *name)
}

fn is_stage_name(stages: &[Stage], name: &Name) -> bool
    ensures { result ≡ is_stage_name stages.now name.now }
{
    stages.iter().any(|stage| stage.name == *name)
}
