//! Recipes, each with the lines of every stage's route, written down from docs/reference/argument.md.

ghost use Rattle.std.specs.Prelude.{◌≤◌, length};

use crate::meanings::lines::{put_lines, recipe_text};
use ddc_base::OutOfMemory;
use recipe::{Recipe, read};
use std::alloc::Global;
use std::mem::drop;
use std::process::Abort;
use wheeler::assumptions_for;

/// Stages, and for each stage a line with its number and the lines of its route.
type Row = (&'static str, &'static str);

static ROUTES: [Row; 14] = [
    // one program; none of a checked stage
    (
        r#"{ name = "a", program = "seed", $ }"#,
        "1\nimplements seed zero\n",
    ),
    (
        r#"{ name = "a", program = "seed", $, check = "zero" }"#,
        "1\n",
    ),
    // two routes with nothing in common
    (
        r#"{ name = "a", program = "seed", $ }, { name = "b", program = "tool", $ }"#,
        "1\nimplements seed zero\n2\nimplements tool other\n",
    ),
    (
        r#"{ name = "a", program = "seed", $, becomes = "other" }, { name = "b", program = "tool", $, becomes = "words" }, { name = "c", program = "a", $ }, { name = "d", program = "b", $ }"#,
        "1\nimplements seed zero\n2\nimplements tool other\n3\nimplements seed zero\ncompiles zero a other\n4\nimplements tool other\ncompiles other b words\n",
    ),
    // a prefix that is shared
    (
        r#"{ name = "a", program = "seed", $, becomes = "other" }, { name = "b", program = "a", $ }, { name = "c", program = "a", $ }"#,
        "1\nimplements seed zero\n2\nimplements seed zero\ncompiles zero a other\n3\nimplements seed zero\ncompiles zero a other\n",
    ),
    // a route inside another
    (
        r#"{ name = "a", program = "seed", $, becomes = "other" }, { name = "b", program = "a", $, becomes = "words" }, { name = "c", program = "b", $ }"#,
        "1\nimplements seed zero\n2\nimplements seed zero\ncompiles zero a other\n3\nimplements seed zero\ncompiles zero a other\ncompiles other b words\n",
    ),
    // a fork after a shared program
    (
        r#"{ name = "a", program = "seed", $, becomes = "other" }, { name = "b", program = "a", $, becomes = "words" }, { name = "c", program = "a", $, becomes = "one" }, { name = "d", program = "c", $ }"#,
        "1\nimplements seed zero\n2\nimplements seed zero\ncompiles zero a other\n3\nimplements seed zero\ncompiles zero a other\n4\nimplements seed zero\ncompiles zero a other\ncompiles other c one\n",
    ),
    // a route ends at what a checked stage makes: by a check that is enough, by one of another source, by one in M1
    (
        r#"{ name = "a", program = "seed", $, check = "zero" }, { name = "b", program = "a", $, becomes = "other" }, { name = "c", program = "b", $ }, { name = "d", program = "seed", $ }"#,
        "1\n2\n3\ncompiles zero b other\n4\nimplements seed zero\n",
    ),
    (
        r#"{ name = "a", program = "seed", $, check = "one", becomes = "two" }, { name = "b", program = "a", $ }"#,
        "1\n2\nimplements a two\n",
    ),
    (
        r#"{ name = "a", program = "seed", $, check = "words", becomes = "words" }, { name = "b", program = "a", $, becomes = "other" }, { name = "c", program = "b", $ }"#,
        "1\n2\nimplements a words\n3\nimplements a words\ncompiles words b other\n",
    ),
    // a checked stage in the middle of a chain
    (
        r#"{ name = "a", program = "seed", $, becomes = "other" }, { name = "b", program = "a", $, check = "words", becomes = "zero" }, { name = "c", program = "b", $, becomes = "one" }, { name = "d", program = "c", $ }"#,
        "1\nimplements seed zero\n2\n3\nimplements b zero\n4\nimplements b zero\ncompiles zero c one\n",
    ),
    // the lines have the order of the recipe, and not that of the route
    (
        r#"{ name = "a", program = "spare", $, becomes = "zero" }, { name = "b", program = "seed", $, becomes = "other" }, { name = "c", program = "b", $, becomes = "one" }, { name = "d", program = "c", $ }"#,
        "1\nimplements spare zero\n2\nimplements seed zero\n3\nimplements seed zero\ncompiles zero b other\n4\nimplements seed zero\ncompiles zero b other\ncompiles other c one\n",
    ),
    // a stage that no other rests on adds nothing to a route
    (
        r#"{ name = "a", program = "tool", $, becomes = "words" }, { name = "b", program = "seed", $, becomes = "other" }, { name = "c", program = "b", $ }"#,
        "1\nimplements tool other\n2\nimplements seed zero\n3\nimplements seed zero\ncompiles zero b other\n",
    ),
    // sixteen stages: odd ones run the seed, even ones the stage before
    (
        r#"{ name = "a", program = "seed", $, becomes = "other" }, { name = "b", program = "a", $ }, { name = "c", program = "seed", $, becomes = "other" }, { name = "d", program = "c", $ },
        { name = "e", program = "seed", $, becomes = "other" }, { name = "f", program = "e", $ }, { name = "g", program = "seed", $, becomes = "other" }, { name = "h", program = "g", $ },
        { name = "i", program = "seed", $, becomes = "other" }, { name = "j", program = "i", $ }, { name = "k", program = "seed", $, becomes = "other" }, { name = "l", program = "k", $ },
        { name = "m", program = "seed", $, becomes = "other" }, { name = "n", program = "m", $ }, { name = "o", program = "seed", $, becomes = "other" }, { name = "p", program = "o", $ }"#,
        "1\nimplements seed zero\n2\nimplements seed zero\ncompiles zero a other\n3\nimplements seed zero\n4\nimplements seed zero\ncompiles zero c other\n\
        5\nimplements seed zero\n6\nimplements seed zero\ncompiles zero e other\n7\nimplements seed zero\n8\nimplements seed zero\ncompiles zero g other\n\
        9\nimplements seed zero\n10\nimplements seed zero\ncompiles zero i other\n11\nimplements seed zero\n12\nimplements seed zero\ncompiles zero k other\n\
        13\nimplements seed zero\n14\nimplements seed zero\ncompiles zero m other\n15\nimplements seed zero\n16\nimplements seed zero\ncompiles zero o other\n",
    ),
];

/// Adds the number of a stage, and the lines of its route.
fn put_route(
    alloc: Global,
    lines: &mut String,
    recipe: &Recipe,
    number: u32,
) -> Result<(), OutOfMemory>
    requires some { 1 ≤ number }
    requires there { number ≤ length recipe.now.stages }
{
    put_number(alloc, lines, number)?;
    let found = assumptions_for(alloc, recipe, number)?;
    put_lines(lines, found.as_slice())
}

fn put_number(alloc: Global, lines: &mut String, number: u32) -> Result<(), OutOfMemory> {
    let line = format!(in alloc; "{number}\n")?;
    lines.push_str(line.as_str())?;
    Ok(())
}

/// Adds the lines of each stage's route, under its number.
fn put_routes(alloc: Global, lines: &mut String, recipe: &Recipe) -> Result<(), OutOfMemory> {
    let count = recipe.stages().as_slice().len();
    for index in 0..count {
        put_route(alloc, lines, recipe, index as u32 + 1)?;
    }
    Ok(())
}

/// The same of a recipe's text, where it is one.
fn put_recipe(alloc: Global, lines: &mut String, text: &str) -> Result<(), OutOfMemory> {
    match read(alloc, text.as_bytes()) {
        Ok(recipe) => {
            let put = put_routes(alloc, lines, &recipe);
            drop(recipe);
            put
        }
        Err(_) => Ok(()),
    }
}

fn routes(alloc: Global, stages: &str) -> Result<String, OutOfMemory> {
    let text = recipe_text(alloc, stages)?;
    let mut lines = String::new(alloc);
    put_recipe(alloc, &mut lines, text.as_str())?;
    Ok(lines)
}

fn are_routes(alloc: Global, stages: &str, wanted: &str) -> bool {
    match routes(alloc, stages) {
        Ok(lines) => lines.as_str() == wanted,
        Err(OutOfMemory) => false,
    }
}

fn are_right(rt: &impl Abort, alloc: Global, rows: &[Row]) {
    for (stages, wanted) in rows {
        assert!(rt; are_routes(alloc, stages, wanted), "{stages}");
    }
}

#[test]
fn of_stages(rt: HostRuntime) {
    are_right(&rt, rt.alloc(), &ROUTES);
}
