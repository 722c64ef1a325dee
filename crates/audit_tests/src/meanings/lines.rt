//! The assumptions of each recipe of the tables, as lines.

use crate::meanings::recipes::{CHECKED, INPUTS, KEYS, LEADING, UNCHECKED};
use crate::meanings::with_stages;
use ddc_base::{Name, OutOfMemory};
use recipe::{Recipe, read};
use std::alloc::Global;
use std::mem::drop;
use std::process::Abort;
use wheeler::{Assembly, Assumption, assumptions, laws};

fn text(name: &Name) -> &str {
    std::str::from_utf8(name.bytes()).unwrap_or("no text")
}

fn put_word(lines: &mut String, word: &str) -> Result<(), OutOfMemory> {
    lines.push_str(" ")?;
    lines.push_str(word)?;
    Ok(())
}

fn put_words(lines: &mut String, first: &str, names: &[&Name]) -> Result<(), OutOfMemory> {
    lines.push_str(first)?;
    for name in names {
        put_word(lines, text(name))?;
    }
    lines.push_str("\n")?;
    Ok(())
}

fn put_line(lines: &mut String, assumption: &Assumption) -> Result<(), OutOfMemory> {
    match assumption {
        Assumption::Implements { made, source } => {
            put_words(lines, "implements", &[made, source])
        }
        Assumption::Compiles {
            source,
            stage,
            becomes,
        } => put_words(lines, "compiles", &[source, stage, becomes]),
    }
}

/// Adds the lines of assumptions.
pub(crate) fn put_lines(lines: &mut String, found: &[Assumption]) -> Result<(), OutOfMemory> {
    for assumption in found {
        put_line(lines, assumption)?;
    }
    Ok(())
}

fn put_assumptions(alloc: Global, lines: &mut String, recipe: &Recipe) -> Result<(), OutOfMemory> {
    let found = assumptions(alloc, recipe)?;
    put_lines(lines, found.as_slice())
}

fn put_refusal(alloc: Global, lines: &mut String, number: u8) -> Result<(), OutOfMemory> {
    let line = format!(in alloc; "refused {}", number)?;
    lines.push_str(line.as_str())?;
    Ok(())
}

/// Adds the lines of a recipe, or the number of its refusal.
fn put_recipe(alloc: Global, lines: &mut String, text: &str) -> Result<(), OutOfMemory> {
    match read(alloc, text.as_bytes()) {
        Ok(recipe) => {
            let put = put_assumptions(alloc, lines, &recipe);
            drop(recipe);
            put
        }
        Err(refusal) => put_refusal(alloc, lines, refusal.number()),
    }
}

/// The recipe with these stages.
pub(crate) fn recipe_text(alloc: Global, stages: &str) -> Result<String, OutOfMemory> {
    let stages = stages.replace(alloc, "$", KEYS)?;
    with_stages(alloc, LEADING, stages.as_str())
}

/// The lines of a recipe with these stages, or the number of its refusal.
fn lines(alloc: Global, stages: &str) -> Result<String, OutOfMemory> {
    let text = recipe_text(alloc, stages)?;
    let mut lines = String::new(alloc);
    put_recipe(alloc, &mut lines, text.as_str())?;
    Ok(lines)
}

fn are_lines(alloc: Global, stages: &str, wanted: &str) -> bool {
    match lines(alloc, stages) {
        Ok(lines) => lines.as_str() == wanted,
        Err(OutOfMemory) => false,
    }
}

fn are_right(rt: &impl Abort, alloc: Global, rows: &[(&'static str, &'static str)]) {
    for (stages, wanted) in rows {
        assert!(rt; are_lines(alloc, stages, wanted), "{stages}");
    }
}

#[test]
fn of_inputs(rt: HostRuntime) {
    are_right(&rt, rt.alloc(), &INPUTS);
}

#[test]
fn of_checked_stages(rt: HostRuntime) {
    are_right(&rt, rt.alloc(), &CHECKED);
}

#[test]
fn of_unchecked_stages(rt: HostRuntime) {
    are_right(&rt, rt.alloc(), &UNCHECKED);
}

/// The law at a meaning.
#[test]
fn of_a_meaning(_rt: HostRuntime) {
    laws::the_bench_concludes::<Assembly>();
}
