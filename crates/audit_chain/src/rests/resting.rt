//! The dependencies of a stage's artefact.

ghost use Rattle.audit_chain.specs.Rests.Basis.{has_file, layout_name, layouts, lines, own_layout, own_layout_name, ran, ran_name, speaks_of, spoken, spoken_name, text_name, texts};
ghost use Rattle.audit_chain.specs.Rests.Walk.{bytes_meet, is_free, meets, runs_meet, walk};
ghost use Rattle.wheeler.specs.Assumptions.{assumed};
ghost use Rattle.wheeler.specs.Routes.{about, is_on};
ghost use Rattle.recipe.specs.Lookups.{hex_check};
ghost use Rattle.std.specs.List.{cons_option, list_any};
ghost use Rattle.std.specs.Prelude.{◌≡◌, ◌&&◌, ◌++◌, [], IfOk, None, OnOk, Some, bytes_eq, filter, filter_map, if◌then◌else◌, is_none, is_some};

use crate::remaining_lines::copy_line;
use crate::rests::basis_part::BasisPart;
use crate::rests::walking::{bytes_meet, files_meet, meets, runs_meet, walk};
use ddc_base::languages::Language;
use ddc_base::{ListOf, Name, OutOfMemory};
use recipe::{Recipe, SourceLanguage, Stage};
use std::alloc::Global;
use wheeler::{Assumption, Assumptions, assumptions};

/// The dependencies of a stage's artefact, as `rests` prints them. Each list has the recipe's order.
#[derive(Drop)]
pub struct Basis {
    /// The inputs that are read.
    pub texts: ListOf<Name>,
    /// The stages whose bytes matter and whose check, in M1, leaves their layout free.
    pub layouts: ListOf<Name>,
    /// The stage itself, if it is checked in M1; else empty.
    pub own_layout: ListOf<Name>,
    /// The unchecked stages among the dependencies.
    pub ran: ListOf<Name>,
    /// The assumptions about programs.
    pub lines: Assumptions,
    /// The stages whose artefacts are files of sources that the assumptions name, dependencies or not.
    pub spoken: ListOf<Name>,
}

/// The dependencies of the artefact of the stage of a name. Error: out of memory.
pub fn basis_of(alloc: Global, recipe: &Recipe, name: &Name) -> Result<Basis, OutOfMemory>
    ensures texts { IfOk result (λ basis. basis.texts ≡ texts recipe.now name.now) }
    ensures layouts { IfOk result (λ basis. basis.layouts ≡ layouts recipe.now name.now) }
    ensures own_layout { IfOk result (λ basis. basis.own_layout ≡ own_layout recipe.now name.now) }
    ensures ran { IfOk result (λ basis. basis.ran ≡ ran recipe.now name.now) }
    ensures lines { IfOk result (λ basis. basis.lines ≡ lines recipe.now name.now) }
    ensures spoken { IfOk result (λ basis. basis.spoken ≡ spoken recipe.now name.now) }
{
    let parts = walk(alloc, recipe, name)?;
    let texts = texts_of(alloc, recipe, parts.as_slice())?;
    let layouts = layouts_of(alloc, recipe, parts.as_slice())?;
    let own_layout = own_layout_of(alloc, recipe, name)?;
    let ran = ran_of(alloc, recipe, parts.as_slice())?;
    let whole = assumptions(alloc, recipe)?;
    let lines = lines_of(alloc, parts.as_slice(), whole.as_slice())?;
    let spoken = spoken_of(alloc, recipe, lines.as_slice())?;
    Ok(Basis {
        texts,
        layouts,
        own_layout,
        ran,
        lines,
        spoken,
    })
}

/// The inputs that are read.
fn texts_of(
    alloc: Global,
    recipe: &Recipe,
    parts: &[BasisPart],
) -> Result<ListOf<Name>, OutOfMemory>
    ensures { IfOk result (λ names. names ≡ filter_map (text_name parts.now) recipe.now.inputs) }
{
    let mut names = ListOf::new(alloc);
    for input in recipe.inputs().as_slice() {
        push_name(&mut names, &input.name, files_meet(parts, &input.name))?;
    }
    Ok(names)
}

/// The stages whose free layout matters.
fn layouts_of(
    alloc: Global,
    recipe: &Recipe,
    parts: &[BasisPart],
) -> Result<ListOf<Name>, OutOfMemory>
    ensures { IfOk result (λ names. names ≡ filter_map (layout_name recipe.now parts.now) recipe.now.stages) }
{
    let mut names = ListOf::new(alloc);
    for stage in recipe.stages().as_slice() {
        push_name(&mut names, &stage.name, has_layout(recipe, parts, stage))?;
    }
    Ok(names)
}

/// The stage of a name, if its check leaves its layout free.
fn own_layout_of(alloc: Global, recipe: &Recipe, own: &Name) -> Result<ListOf<Name>, OutOfMemory>
    ensures { IfOk result (λ names. names ≡ filter_map (own_layout_name recipe.now own.now) recipe.now.stages) }
{
    let mut names = ListOf::new(alloc);
    for stage in recipe.stages().as_slice() {
        push_name(&mut names, &stage.name, is_own_layout(recipe, own, stage))?;
    }
    Ok(names)
}

/// Whether a stage has this name and its check leaves its layout free.
fn is_own_layout(recipe: &Recipe, own: &Name, stage: &Stage) -> bool
    ensures { result ≡ (bytes_eq own.now stage.now.name && is_free recipe.now stage.now) }
{
    *own == stage.name && is_free(recipe, stage)
}

/// The unchecked stages among these parts.
fn ran_of(alloc: Global, recipe: &Recipe, parts: &[BasisPart]) -> Result<ListOf<Name>, OutOfMemory>
    ensures { IfOk result (λ names. names ≡ filter_map (ran_name parts.now) recipe.now.stages) }
{
    let mut names = ListOf::new(alloc);
    for stage in recipe.stages().as_slice() {
        push_name(&mut names, &stage.name, has_run(parts, stage))?;
    }
    Ok(names)
}

/// Whether a stage is among these parts, and unchecked.
fn has_run(parts: &[BasisPart], stage: &Stage) -> bool
    ensures { result ≡ (meets parts.now stage.now.name && is_none stage.now.check) }
{
    meets(parts, &stage.name) && stage.check.is_none()
}

/// Whether a stage's bytes matter and its check leaves its layout free.
fn has_layout(recipe: &Recipe, parts: &[BasisPart], stage: &Stage) -> bool
    ensures { result ≡ (bytes_meet parts.now stage.now.name && is_free recipe.now stage.now) }
{
    bytes_meet(parts, &stage.name) && is_free(recipe, stage)
}

/// Adds a name, if it is wanted.
pub(crate) fn push_name(
    names: &mut ListOf<Name>,
    name: &Name,
    wanted: bool,
) -> Result<(), OutOfMemory>
    ensures { OnOk result (names.new ≡ names.old ++ cons_option (if wanted then Some name.now else None) []) }
{
    if wanted {
        names.push(name.copy())
    } else {
        Ok(())
    }
}

/// Whether a stage's check leaves the layout of its artefact free.
#[tactic(auto, unfolding(crate::specs::Rests::Walk::is_free))]
pub(crate) fn is_free(recipe: &Recipe, stage: &Stage) -> bool
    ensures { result ≡ is_free recipe.now stage.now }
{
    match &stage.check {
        Some(check) => !is_hex(recipe, check),
        None => false,
    }
}

/// Whether a check is in hex0, hex1 or hex2.
fn is_hex(recipe: &Recipe, check: &Name) -> bool
    ensures { result ≡ is_some (hex_check recipe.now.sources check.now) }
{
    match recipe.source(check) {
        Some(source) => match source.lang {
            SourceLanguage::Defined(Language::Hex0 | Language::Hex1 | Language::Hex2) => true,
            SourceLanguage::Defined(Language::M1) => false,
            SourceLanguage::Other => false,
        },
        None => false,
    }
}

/// The assumptions about programs among these parts.
fn lines_of(
    alloc: Global,
    parts: &[BasisPart],
    whole: &[Assumption],
) -> Result<Assumptions, OutOfMemory>
    ensures { IfOk result (λ lines. lines ≡ filter (λ line. runs_meet parts.now (about line)) whole.now) }
{
    let mut lines = ListOf::new(alloc);
    for line in whole {
        push_line(&mut lines, line, runs_meet(parts, about(line)))?;
    }
    Ok(lines)
}

/// Adds an assumption, if it is wanted.
fn push_line(lines: &mut Assumptions, line: &Assumption, wanted: bool) -> Result<(), OutOfMemory>
    ensures { OnOk result (lines.new ≡ lines.old ++ cons_option (if wanted then Some line.now else None) []) }
{
    if wanted {
        lines.push(copy_line(line))
    } else {
        Ok(())
    }
}

/// The name of the program that an assumption is about.
fn about(line: &Assumption) -> &Name
    ensures { result.now ≡ about line.now }
{
    match line {
        Assumption::Implements { made, source: _ } => made,
        Assumption::Compiles {
            source: _,
            stage,
            becomes: _,
        } => stage,
    }
}

/// The stages whose artefacts are files of sources that these assumptions name.
fn spoken_of(
    alloc: Global,
    recipe: &Recipe,
    lines: &[Assumption],
) -> Result<ListOf<Name>, OutOfMemory>
    ensures { IfOk result (λ names. names ≡ filter_map (spoken_name recipe.now lines.now) recipe.now.stages) }
{
    let mut names = ListOf::new(alloc);
    for stage in recipe.stages().as_slice() {
        push_name(
            &mut names,
            &stage.name,
            speak_of(recipe, lines, &stage.name),
        )?;
    }
    Ok(names)
}

/// Whether one of the assumptions names a source with this file.
fn speak_of(recipe: &Recipe, lines: &[Assumption], name: &Name) -> bool
    ensures { result ≡ list_any (speaks_of recipe.now name.now) lines.now }
{
    lines.iter().any(|line| speaks_of(recipe, name, line))
}

/// Whether an assumption names a source with this file.
fn speaks_of(recipe: &Recipe, file: &Name, line: &Assumption) -> bool
    ensures { result ≡ speaks_of recipe.now file.now line.now }
{
    match line {
        Assumption::Implements { made: _, source } => has_file(recipe, source, file),
        Assumption::Compiles {
            source,
            stage: _,
            becomes,
        } => has_file(recipe, source, file) || has_file(recipe, becomes, file),
    }
}

/// Whether the source of a name has this file.
fn has_file(recipe: &Recipe, source: &Name, file: &Name) -> bool
    ensures { result ≡ has_file recipe.now source.now file.now }
{
    match recipe.source(source) {
        Some(source) => is_on(source.files.as_slice(), file),
        None => false,
    }
}

/// Whether the list has this name.
pub(crate) fn is_on(names: &[Name], name: &Name) -> bool
    ensures { result ≡ is_on names.now name.now }
{
    names.iter().any(|other| *other == *name)
}
