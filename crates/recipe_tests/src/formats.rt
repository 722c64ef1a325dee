//! Recipes of format 2: the example of docs/reference/recipe.md with two compared stages, and changes of it.

use crate::repeated;
use crate::texts::{EXAMPLE, answers, answers_once, answers_twice, with};
use ddc_base::OutOfMemory;
use recipe::{Recipe, read};
use std::alloc::Global;
use std::process::Abort;
use std::test::Fail;

/// The compared stages.
const STAGES: &str = "stages = [\"two\", \"one\"]";

/// What is changed, into what, and the answer.
type Row = (&'static str, &'static str, &'static str);

static FORMATS: [Row; 6] = [
    ("", "", "accepted"),
    ("format = 2", "format = 0", "8 top 0 format"),
    ("format = 2", "format = 3", "8 top 0 format"),
    ("format = 2", "format = -2", "8 top 0 format"),
    ("format = 2", "format = 2.0", "2 top 0 format"),
    ("format = 2", "format = 1", "2 compare 0 stage"),
];

/// What replaces the compared stages in the recipe, and the answer.
static COMPARED: [(&str, &str); 30] = [
    ("", "2 compare 0 stages"),
    ("stage = \"two\"", "2 compare 0 stages"),
    ("stages = \"two\"", "2 compare 0 stages"),
    ("stages = {}", "2 compare 0 stages"),
    ("stages = 2", "2 compare 0 stages"),
    ("stages = []", "2 compare 0 stages"),
    ("stages = [2]", "2 compare 0 stages"),
    ("stages = [\"two\", 1]", "2 compare 0 stages"),
    ("stages = [[\"two\"]]", "2 compare 0 stages"),
    ("stages = [\"\"]", "4 compare 0 stages"),
    ("stages = [\"Two\"]", "4 compare 0 stages"),
    ("stages = [\"two\", \"o-ne\"]", "4 compare 0 stages"),
    ("stages = [\"two\", \"two\"]", "5 compare 0 stages"),
    ("stages = [\"one\", \"two\", \"one\"]", "5 compare 0 stages"),
    ("stages = [\"gone\", \"gone\"]", "5 compare 0 stages"),
    ("stages = [\"gone\"]", "6 compare 0 stages"),
    ("stages = [\"two\", \"gone\"]", "6 compare 0 stages"),
    ("stages = [\"bin\", \"two\"]", "6 compare 0 stages"),
    ("stages = [\"two\", \"copy_src\"]", "6 compare 0 stages"),
    ("stages = [\"two\"]", "accepted"),
    ("stages = [\"one\"]", "accepted"),
    ("stages = [\"one\", \"two\"]", "accepted"),
    ("stages = [\"two\"]\nstage = \"two\"", "3 compare 0"),
    ("stage = \"gone\"\nstages = [\"two\"]", "3 compare 0"),
    // Two faults: which one is answered.
    ("stages = [\"Two\", 1]", "4 compare 0 stages"),
    ("stages = [1, \"Two\"]", "2 compare 0 stages"),
    ("stages = [\"two\", \"two\", \"Two\"]", "5 compare 0 stages"),
    ("stages = [\"two\", \"Two\", \"two\"]", "4 compare 0 stages"),
    (
        "stages = [\"gone\", \"one\", \"one\"]",
        "5 compare 0 stages",
    ),
    ("stages = [\"gone\"]\nmore = 1", "3 compare 0"),
];

/// What replaces the compared stages and the binary in the recipe, and the answer.
static ORDERS: [Row; 5] = [
    (STAGES, "binary = 1", "2 compare 0 binary"),
    ("stages = [1]", "binary = 1", "2 compare 0 stages"),
    (
        "stages = [\"one\", \"one\"]",
        "binary = 1",
        "5 compare 0 stages",
    ),
    (
        "stages = [\"two\", \"gone\"]",
        "binary = \"gone\"",
        "6 compare 0 stages",
    ),
    (STAGES, "binary = \"two\"", "6 compare 0 binary"),
];

/// The example in format 2.
fn example(alloc: Global) -> Result<String, OutOfMemory> {
    let text = with(alloc, EXAMPLE, "format = 1", "format = 2")?;
    with(alloc, text.as_str(), "stage = \"two\"", STAGES)
}

/// Whether the reader answers this to the example with one change.
fn example_answers(alloc: Global, change: (&str, &str), wanted: &str) -> Result<bool, OutOfMemory> {
    let example = example(alloc)?;
    answers_once(alloc, example.as_str(), change, wanted)
}

/// Whether the reader answers this to the example with others in place of the compared stages and of the binary.
fn example_answers_twice(
    alloc: Global,
    (stages, binary, wanted): (&str, &str, &str),
) -> Result<bool, OutOfMemory> {
    let example = example(alloc)?;
    answers_twice(
        alloc,
        example.as_str(),
        (STAGES, stages),
        ("binary = \"bin\"", binary),
        wanted,
    )
}

fn check_formats(rt: &impl Abort, alloc: Global, rows: &[Row]) -> Result<(), OutOfMemory> {
    for row in rows {
        assert!(rt; example_answers(alloc, (row.0, row.1), row.2)?, "{row:?}");
    }
    Ok(())
}

fn check_compared(
    rt: &impl Abort,
    alloc: Global,
    rows: &[(&str, &str)],
) -> Result<(), OutOfMemory> {
    for row in rows {
        assert!(rt; example_answers(alloc, (STAGES, row.0), row.1)?, "{row:?}");
    }
    Ok(())
}

fn check_orders(rt: &impl Abort, alloc: Global, rows: &[Row]) -> Result<(), OutOfMemory> {
    for row in rows {
        assert!(rt; example_answers_twice(alloc, *row)?, "{row:?}");
    }
    Ok(())
}

#[test]
fn of_the_format(rt: HostRuntime) -> Result<(), Fail> {
    Ok(check_formats(&rt, rt.alloc(), &FORMATS)?)
}

#[test]
fn of_the_compared_stages(rt: HostRuntime) -> Result<(), Fail> {
    Ok(check_compared(&rt, rt.alloc(), &COMPARED)?)
}

#[test]
fn of_stages_and_binary(rt: HostRuntime) -> Result<(), Fail> {
    Ok(check_orders(&rt, rt.alloc(), &ORDERS)?)
}

/// Adds a stage's table.
fn put_table(alloc: Global, tables: &mut String, number: u32) -> Result<(), OutOfMemory> {
    let table = format!(in alloc;
        "[[stage]]\nname = \"t{number}\"\nprogram = \"one\"\nargs = [\"copy\"]\noutput = \"out\"\nsteps = 1\n"
    )?;
    Ok(tables.push_str(table.as_str())?)
}

/// Adds a stage's name to those that are compared.
fn put_name(alloc: Global, names: &mut String, number: u32) -> Result<(), OutOfMemory> {
    let name = format!(in alloc; ", \"t{number}\"")?;
    Ok(names.push_str(name.as_str())?)
}

/// Adds so many stages' tables and the head of the last table.
fn put_tables(alloc: Global, tables: &mut String, more: u32) -> Result<(), OutOfMemory> {
    for number in 0..more {
        put_table(alloc, tables, number)?;
    }
    Ok(tables.push_str("[compare]\n")?)
}

/// Adds the names of so many stages more and the end of their list.
fn put_names(alloc: Global, names: &mut String, more: u32) -> Result<(), OutOfMemory> {
    for number in 0..more {
        put_name(alloc, names, number)?;
    }
    Ok(names.push_str("]")?)
}

fn with_tables(alloc: Global, more: u32) -> Result<String, OutOfMemory> {
    let example = example(alloc)?;
    let mut tables = String::new(alloc);
    put_tables(alloc, &mut tables, more)?;
    with(alloc, example.as_str(), "[compare]\n", tables.as_str())
}

/// The example with so many stages more, all of which are compared.
fn with_stages(alloc: Global, more: u32) -> Result<String, OutOfMemory> {
    let text = with_tables(alloc, more)?;
    let mut names = String::from_str(alloc, "stages = [\"two\", \"one\"")?;
    put_names(alloc, &mut names, more)?;
    with(alloc, text.as_str(), STAGES, names.as_str())
}

fn stages_answer(alloc: Global, more: u32, wanted: &str) -> Result<bool, OutOfMemory> {
    let text = with_stages(alloc, more)?;
    answers(alloc, text.as_bytes(), wanted)
}

#[test]
fn sixteen_stages_are_compared(rt: HostRuntime) -> Result<(), Fail> {
    assert!(rt; stages_answer(rt.alloc(), 0, "accepted")?);
    assert!(rt; stages_answer(rt.alloc(), 14, "accepted")?);
    assert!(rt; stages_answer(rt.alloc(), 15, "9 compare 0 stages")?);
    Ok(())
}

/// Whether the reader answers this to the example that compares so many numbers.
fn numbers_answer(alloc: Global, count: usize, wanted: &str) -> Result<bool, OutOfMemory> {
    let new = repeated(alloc, "stages = [", "1, ", count, "]")?;
    example_answers(alloc, (STAGES, new.as_str()), wanted)
}

/// More elements than may be are refused before any of them is looked at.
#[test]
fn their_number_is_tried_first(rt: HostRuntime) -> Result<(), Fail> {
    assert!(rt; numbers_answer(rt.alloc(), 16, "2 compare 0 stages")?);
    assert!(rt; numbers_answer(rt.alloc(), 17, "9 compare 0 stages")?);
    Ok(())
}

/// Whether a recipe says that it is of format 2 and compares these stages.
fn compares(recipe: &Recipe, stages: &[&str]) -> bool {
    let compared = recipe.compare().stages.as_slice();
    if compared.len() != stages.len() {
        return false;
    }
    for index in 0..compared.len().min(stages.len()) {
        if compared[index].bytes() != stages[index].as_bytes() {
            return false;
        }
    }
    recipe.format() == 2
}

/// Whether a text is a recipe that compares these stages.
fn says(alloc: Global, text: &[u8], stages: &[&str]) -> bool {
    match read(alloc, text) {
        Ok(recipe) => compares(&recipe, stages),
        Err(_) => false,
    }
}

/// The example with these compared stages.
fn with_compared(alloc: Global, new: &str) -> Result<String, OutOfMemory> {
    let example = example(alloc)?;
    with(alloc, example.as_str(), STAGES, new)
}

/// Whether the example with these compared stages compares them.
fn example_says(alloc: Global, new: &str, stages: &[&str]) -> Result<bool, OutOfMemory> {
    let text = with_compared(alloc, new)?;
    Ok(says(alloc, text.as_bytes(), stages))
}

#[test]
fn the_stages_keep_their_order(rt: HostRuntime) -> Result<(), Fail> {
    assert!(rt; example_says(rt.alloc(), STAGES, &["two", "one"])?);
    assert!(rt; example_says(rt.alloc(), "stages = [\"one\", \"two\"]", &["one", "two"])?);
    assert!(rt; example_says(rt.alloc(), "stages = [\"one\"]", &["one"])?);
    Ok(())
}
