//! The files of a stage and its output: the paths of its program.

ghost use Rattle.std.specs.Prelude.{◌≡◌, [], IfOk, map, option_map};
ghost use Rattle.toml.specs.View.{table_view, view};
ghost use Rattle.recipe.specs.Text.Reading.{Gives, NeverWants, gathered, optional, required};
ghost use Rattle.recipe.specs.Tables.{an_output, entry_text, guest_path, is_file_path, next_file, output_parsed, some_files};

use crate::parts::{Output, StageFile};
use crate::text::{
    Key, Place, RecipeRefusal, array, find, is_path, no_other_key, required, table, text,
};
use ddc_base::{Bytes, ListOf, Name, OutOfMemory};
use mem_files::strip;
use std::alloc::Global;
use toml::{Table, Value};

/// Reads the files of a stage; `None` if the key is absent.
#[tactic(auto, unfolding(crate::specs::Text::Reading::optional))]
pub(crate) fn optional_files(
    alloc: Global,
    place: Place,
    table: &Table,
) -> Result<Option<ListOf<StageFile>>, RecipeRefusal>
    ensures { Gives (λ x. x) result (optional some_files place Key.Files (table_view table.now)) }
{
    match find(table, Key::Files) {
        Some(value) => Ok(Some(some_files(alloc, place, value)?)),
        None => Ok(None),
    }
}

/// Reads the files of an array.
#[tactic(auto, unfolding(crate::specs::Tables::some_files))]
fn some_files(
    alloc: Global,
    place: Place,
    value: &Value,
) -> Result<ListOf<StageFile>, RecipeRefusal>
    ensures { Gives (λ x. x) result (some_files place Key.Files (view value.now)) }
{
    files_of(alloc, place, array(0, 256, place, Key::Files, value)?)
}

/// Reads the files of the entries.
fn files_of(
    alloc: Global,
    place: Place,
    entries: &[Value],
) -> Result<ListOf<StageFile>, RecipeRefusal>
    ensures { Gives (λ x. x) result (gathered (next_file place Key.Files) [] (map view entries.now)) }
{
    let mut files = ListOf::new(alloc);
    for entry in entries {
        let file = next_file(alloc, place, &files, entry)?;
        files.push(file)?;
    }
    Ok(files)
}

/// Reads the file of an entry, after the files before it.
#[tactic(auto, unfolding(crate::specs::Tables::next_file))]
fn next_file(
    alloc: Global,
    place: Place,
    files: &ListOf<StageFile>,
    value: &Value,
) -> Result<StageFile, RecipeRefusal>
    ensures { Gives (λ x. x) result (next_file place Key.Files files.now (view value.now)) }
{
    let entry = table(place, Key::Files, value)?;
    let path_text = entry_text(place, Key::Path, entry)?;
    let from_text = entry_text(place, Key::From, entry)?;
    no_other_key(place, &[Key::Path, Key::From], entry)?;
    let from = match Name::read(from_text.as_bytes()) {
        Some(from) => from,
        None => return Err(RecipeRefusal::BadName(place, Key::Files)),
    };
    let path = match guest_path(path_text.as_bytes()) {
        Some(path) => path,
        None => return Err(RecipeRefusal::BadPath(place, Key::Files)),
    };
    if is_file_path(files.as_slice(), path) {
        return Err(RecipeRefusal::DoubleName(place, Key::Files));
    }
    Ok(StageFile {
        path: Bytes::from_slice(alloc, path)?,
        from,
    })
}

/// The string at a key of an entry.
#[tactic(auto, unfolding(crate::specs::Text::Reading::a_text))]
fn entry_text<'a>(place: Place, key: Key, entry: &'a Table) -> Result<&'a str, RecipeRefusal>
    ensures value { Gives (λ x. x.now) result (entry_text place Key.Files key (table_view entry.now)) }
    ensures memory { NeverWants result }
{
    match find(entry, key) {
        Some(value) => text(place, Key::Files, value),
        None => Err(RecipeRefusal::Missing(place, Key::Files)),
    }
}

/// The path of a program's file: a text without a leading `./`; `None` if it is not a path.
fn guest_path(text: &[u8]) -> Option<&[u8]>
    ensures { option_map (λ x. x.now) result ≡ guest_path text.now }
{
    let path = strip(text);
    if is_path(path) { Some(path) } else { None }
}

/// Whether one of the files has the path.
fn is_file_path(files: &[StageFile], path: &[u8]) -> bool
    ensures { result ≡ is_file_path files.now path.now }
{
    files.iter().any(|file| file.path.as_slice() == path)
}

/// Reads the output of a stage.
#[tactic(auto, unfolding(crate::specs::Text::Reading::required))]
pub(crate) fn required_output(
    alloc: Global,
    place: Place,
    table: &Table,
) -> Result<Output, RecipeRefusal>
    ensures { Gives (λ x. x) result (required an_output place Key.Output (table_view table.now)) }
{
    output(alloc, place, required(place, Key::Output, table)?)
}

/// Reads an output from a value.
#[tactic(auto, unfolding(crate::specs::Tables::an_output))]
fn output(alloc: Global, place: Place, value: &Value) -> Result<Output, RecipeRefusal>
    ensures { Gives (λ x. x) result (an_output place Key.Output (view value.now)) }
{
    let text = text(place, Key::Output, value)?;
    match output_of(alloc, text.as_bytes())? {
        Some(output) => Ok(output),
        None => Err(RecipeRefusal::BadPath(place, Key::Output)),
    }
}

/// The output that a text names.
fn output_of(alloc: Global, text: &[u8]) -> Result<Option<Output>, OutOfMemory>
    ensures { IfOk result (λ x. x ≡ output_parsed text.now) }
{
    if text == "-".as_bytes() {
        return Ok(Some(Output::Stream));
    }
    match guest_path(text) {
        Some(path) => Ok(Some(Output::File(Bytes::from_slice(alloc, path)?))),
        None => Ok(None),
    }
}
