//! The assumptions of an audit.

ghost use Rattle.wheeler.specs.Assumptions.{assumed, checked_line, compiles_line, implements_line, input_assumption, is_trusted, stage_assumption, trust_lines};
ghost use Rattle.wheeler.specs.Inside.Trusting.{trusts};
ghost use Rattle.wheeler.specs.Listed.{counts, lines_listed};
ghost use Rattle.wheeler.specs.Routes.{assumed_for, is_on};
ghost use Rattle.recipe.specs.Lookups.{hex_check};
ghost use Rattle.std.specs.List.{cons_option};
ghost use Rattle.std.specs.Prelude.{◌≡◌, ◌≤◌, ◌++◌, [], IfOk, OnOk, length, option_map};

use crate::assumption::{Assumption, Assumptions};
use crate::routing::route;
use crate::trusted::Trusted;
use ddc_base::languages::Language;
use ddc_base::{ListOf, Name, OutOfMemory};
use recipe::{Input, Recipe, SourceLanguage, Stage};
use std::alloc::Global;

/// The assumptions about programs of an audit's unchecked stages: one for each such input or stage. Inputs are first, then stages, each in
/// the recipe's order. Error: out of memory.
///
/// A stage that is checked in hex0, hex1 or hex2 as a program of the check's own source has no assumption.
pub fn assumptions(alloc: Global, recipe: &Recipe) -> Result<Assumptions, OutOfMemory>
    ensures { IfOk result (λ lines. lines ≡ assumed recipe.now) }
{
    trust_lines(alloc, recipe, &Trusted::OfAll)
}

/// The assumptions for one stage, by its number from 1: those of `assumptions` about the programs of its route. The route is its own
/// program, that program's own if an unchecked stage makes it, and so on. Empty if the stage is checked. Error: out of memory.
pub fn assumptions_for(
    alloc: Global,
    recipe: &Recipe,
    stage: u32,
) -> Result<Assumptions, OutOfMemory>
    requires some { 1 ≤ stage }
    requires there { stage ≤ length recipe.now.stages }
    ensures { IfOk result (λ lines. lines ≡ assumed_for recipe.now stage) }
{
    let programs = route(alloc, recipe, stage)?;
    trust_lines(alloc, recipe, &Trusted::These(programs.as_slice()))
}

/// The assumptions of an audit whose audited binary later audits may run: like `assumptions`, and each compared stage counts as the program
/// of an unchecked stage. A compared stage without a source has none. Error: out of memory.
pub fn assumptions_with_compared(alloc: Global, recipe: &Recipe) -> Result<Assumptions, OutOfMemory>
    ensures { IfOk result (λ lines. lines ≡ lines_listed recipe.now) }
{
    trust_lines(alloc, recipe, &Trusted::WithCompared)
}

/// The assumptions about what is trusted: inputs first and then stages, each in the recipe's order.
#[tactic(auto, unfolding(crate::specs::Assumptions::trust_lines))]
fn trust_lines(
    alloc: Global,
    recipe: &Recipe,
    trusted: &Trusted<'_>,
) -> Result<Assumptions, OutOfMemory>
    ensures { IfOk result (λ lines. lines ≡ trust_lines (trusts recipe.now trusted.now) recipe.now) }
{
    let mut lines = ListOf::new(alloc);
    for input in recipe.inputs().as_slice() {
        push_line(&mut lines, input_line(recipe, trusted, input))?;
    }
    for stage in recipe.stages().as_slice() {
        push_line(&mut lines, stage_line(recipe, trusted, stage))?;
    }
    Ok(lines)
}

/// Adds an assumption, if there is one.
fn push_line(lines: &mut Assumptions, line: Option<Assumption>) -> Result<(), OutOfMemory>
    ensures { OnOk result (lines.new ≡ lines.old ++ cons_option line []) }
{
    match line {
        Some(line) => lines.push(line),
        None => Ok(()),
    }
}

/// The assumption about an input; `None` if it is not trusted or has no source.
#[tactic(auto, unfolding(crate::specs::Assumptions::input_assumption))]
fn input_line(recipe: &Recipe, trusted: &Trusted<'_>, input: &Input) -> Option<Assumption>
    ensures { result ≡ input_assumption (trusts recipe.now trusted.now) recipe.now input.now }
{
    if trusts(recipe, trusted, &input.name) {
        implements_line(&input.name, recipe.source_of(&input.name))
    } else {
        None
    }
}

/// The assumption about a stage's artefact; `None` if it is not trusted or needs none.
#[tactic(auto, unfolding(crate::specs::Assumptions::stage_assumption))]
fn stage_line(recipe: &Recipe, trusted: &Trusted<'_>, stage: &Stage) -> Option<Assumption>
    ensures { result ≡ stage_assumption (trusts recipe.now trusted.now) recipe.now stage.now }
{
    if !trusts(recipe, trusted, &stage.name) {
        return None;
    }
    let source = recipe.source_of(&stage.name);
    match &stage.check {
        Some(check) => checked_line(&stage.name, hex_check(recipe, check), source),
        None => compiles_line(recipe.source_of(&stage.program), &stage.name, source),
    }
}

/// The assumption that a name stands for a program of its source; `None` if it has no source.
fn implements_line(name: &Name, source: Option<&Name>) -> Option<Assumption>
    ensures { result ≡ implements_line name.now (option_map (λ x. x.now) source.entry) }
{
    match source {
        Some(source) => Some(Assumption::Implements {
            made: name.copy(),
            source: source.copy(),
        }),
        None => None,
    }
}

/// The assumption that the source of a stage's program makes a program of the stage's source.
fn compiles_line(source: Option<&Name>, stage: &Name, becomes: Option<&Name>) -> Option<Assumption>
    ensures { result ≡ compiles_line (option_map (λ x. x.now) source.entry) stage.now (option_map (λ x. x.now) becomes.entry) }
{
    match source {
        Some(source) => match becomes {
            Some(becomes) => Some(Assumption::Compiles {
                source: source.copy(),
                stage: stage.copy(),
                becomes: becomes.copy(),
            }),
            None => None,
        },
        None => None,
    }
}

/// The assumption that a checked stage makes a program of its source; `None` if its check in hex0, hex1 or hex2 is of that very source.
fn checked_line(stage: &Name, check: Option<&Name>, source: Option<&Name>) -> Option<Assumption>
    ensures { result ≡ checked_line stage.now (option_map (λ x. x.now) check.entry) (option_map (λ x. x.now) source.entry) }
{
    let source = source?;
    match check {
        Some(check) => {
            if *check == *source {
                None
            } else {
                implements_line(stage, Some(source))
            }
        }
        None => implements_line(stage, Some(source)),
    }
}

/// The name of a check's source, if it is in hex0, hex1 or hex2.
fn hex_check<'a>(recipe: &Recipe, check: &'a Name) -> Option<&'a Name>
    ensures { option_map (λ x. x.now) result ≡ hex_check recipe.now.sources check.now }
{
    match recipe.source(check)?.lang {
        SourceLanguage::Defined(Language::Hex0 | Language::Hex1 | Language::Hex2) => Some(check),
        SourceLanguage::Defined(Language::M1) => None,
        SourceLanguage::Other => None,
    }
}

/// Whether the program of a name is trusted.
fn trusts(recipe: &Recipe, trusted: &Trusted<'_>, name: &Name) -> bool
    ensures { result ≡ trusts recipe.now trusted.now name.now }
{
    match trusted {
        Trusted::OfAll => is_trusted(recipe, name),
        Trusted::These(programs) => is_on(programs, name),
        Trusted::WithCompared => counts(recipe, name),
    }
}

/// Whether a name is that of the program of an unchecked stage, or of a compared stage.
#[tactic(auto, unfolding(crate::specs::Listed::counts))]
fn counts(recipe: &Recipe, name: &Name) -> bool
    ensures { result ≡ counts recipe.now name.now }
{
    is_trusted(recipe, name) || is_on(recipe.compare().stages.as_slice(), name)
}

/// Whether the list has this name.
fn is_on(programs: &[Name], name: &Name) -> bool
    ensures { result ≡ is_on programs.now name.now }
{
    programs.iter().any(|program| *program == *name)
}

/// Whether a name is that of the program of an unchecked stage.
#[tactic(auto, unfolding(crate::specs::Assumptions::is_trusted))]
fn is_trusted(recipe: &Recipe, name: &Name) -> bool
    ensures { result ≡ is_trusted recipe.now name.now }
{
    recipe
        .stages()
        .as_slice()
        .iter()
        .any(|stage| stage.check.is_none() && stage.program == *name)
}
