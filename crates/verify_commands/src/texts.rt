//! Texts of the command `verify`.

ghost use Rattle.recipe_plan.specs.Texts.{compared_lines};
ghost use Rattle.ddc_base.specs.Lines.{line};
ghost use Rattle.std.specs.Prelude.{◌≡◌, ◌++◌, [], ◌∷◌, IfOk, IfSome, OnOk, codes, flat_map, length, ◌<◌, ◌≤◌};
ghost use Rattle.verify_commands.specs.Texts.{assumed_text, assumption_line, claim, headline, refuted_line, route_text, true_text, yes_line};
ghost use Rattle.wheeler.specs.Routes.{assumed_named};
ghost use Rattle.recipe.specs.Lookups.{stage_at};

use audit_rules::all_equal;
use ddc_base::{Bytes, Name, OutOfMemory};
use recipe::Recipe;
use recipe_plan::texts::compared_lines;
use report::CompareLine;
use std::alloc::Global;
use verifier::Part;
use wheeler::{Assumption, Assumptions, assumptions, assumptions_for};

/// The line of a false report: its first part that is false, and the place of that part.
#[tactic(auto, unfolding(crate::specs::Texts::refuted_line))]
pub fn refuted(alloc: Global, part: Part, place: u32) -> Result<Bytes, OutOfMemory>
    ensures { IfOk result (λ text. text ≡ refuted_line part place) }
{
    let part = part.word();
    Ok(Bytes::from_vec(format!(in alloc; "refuted {part} {place}\n")?.into_bytes()))
}

/// The text of a true report: the comparisons, after a yes where all are equal, and the assumptions about the recipe's programs.
pub fn accepted(alloc: Global, recipe: &Recipe, lines: &[CompareLine]) -> Result<Bytes, OutOfMemory>
    ensures { IfOk result (λ text. text ≡ true_text recipe.now lines.now) }
{
    let mut text = verdict(alloc, lines)?;
    put_assumed(alloc, &mut text, recipe)?;
    Ok(text)
}

/// The lines of the comparisons, after a yes where all are equal.
fn verdict(alloc: Global, lines: &[CompareLine]) -> Result<Bytes, OutOfMemory>
    ensures { IfOk result (λ text. text ≡ headline lines.now ++ compared_lines lines.now) }
{
    let text = compared_lines(alloc, lines)?;
    if all_equal(lines) {
        yes(alloc, &text)
    } else {
        Ok(text)
    }
}

/// A yes, and then the comparisons.
#[tactic(auto, unfolding(crate::specs::Texts::yes_line))]
fn yes(alloc: Global, compared: &Bytes) -> Result<Bytes, OutOfMemory>
    ensures { IfOk result (λ text. text ≡ yes_line ++ compared.now) }
{
    let mut text = Bytes::from_slice(alloc, b"yes\n")?;
    text.extend(compared.as_slice())?;
    Ok(text)
}

/// Appends the assumptions: in format 1 those of all unchecked stages, in format 2 those of each compared stage.
fn put_assumed(alloc: Global, text: &mut Bytes, recipe: &Recipe) -> Result<(), OutOfMemory>
    ensures { OnOk result (text.new ≡ text.old ++ assumed_text recipe.now) }
{
    if recipe.format() == 1 {
        let lines = assumptions(alloc, recipe)?;
        put_assumptions(alloc, text, lines.as_slice())
    } else {
        put_routes(alloc, text, recipe, recipe.compare().stages.as_slice())
    }
}

/// Appends the routes of these stages.
fn put_routes(
    alloc: Global,
    text: &mut Bytes,
    recipe: &Recipe,
    stages: &[Name],
) -> Result<(), OutOfMemory>
    ensures { OnOk result (text.new ≡ text.old ++ flat_map (route_text recipe.now) stages.now) }
{
    for stage in stages {
        text.extend(route(alloc, recipe, stage)?.as_slice())?;
    }
    Ok(())
}

/// The route of a stage: a line with its name, and its assumptions.
#[tactic(auto, using(crate::proofs::Written::written), unfolding(crate::specs::Texts::route_line))]
fn route(alloc: Global, recipe: &Recipe, stage: &Name) -> Result<Bytes, OutOfMemory>
    ensures { IfOk result (λ text. text ≡ route_text recipe.now stage.now) }
{
    let mut text = Bytes::from_slice(alloc, b"route ")?;
    text.extend(stage.bytes())?;
    text.push(b'\n')?;
    let lines = assumptions_of(alloc, recipe, stage)?;
    put_assumptions(alloc, &mut text, lines.as_slice())?;
    Ok(text)
}

/// The assumptions for the stage of a name.
fn assumptions_of(alloc: Global, recipe: &Recipe, name: &Name) -> Result<Assumptions, OutOfMemory>
    ensures { IfOk result (λ lines. lines ≡ assumed_named recipe.now name.now) }
{
    match stage_index(recipe, name) {
        Some(index) => assumptions_for(alloc, recipe, index as u32 + 1),
        None => Ok(Assumptions::new(alloc)),
    }
}

/// The index of the stage of a name, from 0; `None` where no stage has the name.
fn stage_index(recipe: &Recipe, name: &Name) -> Option<usize>
    ensures index { result ≡ stage_at recipe.now.stages name.now }
    ensures bound { IfSome result (λ index. index < length recipe.now.stages) }
    ensures few { length recipe.now.stages ≤ 256 }
{
    recipe
        .stages()
        .as_slice()
        .iter()
        .position(|stage| stage.name == *name)
}

/// Appends a line for each assumption.
pub(crate) fn put_assumptions(
    alloc: Global,
    text: &mut Bytes,
    assumptions: &[Assumption],
) -> Result<(), OutOfMemory>
    ensures { OnOk result (text.new ≡ text.old ++ flat_map assumption_line assumptions.now) }
{
    for assumption in assumptions {
        text.extend(assumed(alloc, assumption)?.as_slice())?;
    }
    Ok(())
}

/// The line of an assumption about a program.
#[tactic(auto, using(crate::proofs::Claims::begun), unfolding(crate::specs::Texts::assumption_line))]
pub(crate) fn assumed(alloc: Global, assumption: &Assumption) -> Result<Bytes, OutOfMemory>
    ensures { IfOk result (λ text. text ≡ assumption_line assumption.now) }
{
    let mut text = Bytes::from_slice(alloc, b"assumes ")?;
    put_claim(&mut text, assumption)?;
    Ok(text)
}

/// Appends the words of an assumption, and the end of its line.
pub(crate) fn put_claim(text: &mut Bytes, assumption: &Assumption) -> Result<(), OutOfMemory>
    ensures { OnOk result (text.new ≡ text.old ++ line (claim assumption.now)) }
{
    match assumption {
        Assumption::Implements { made, source } => put_implements(text, made, source),
        Assumption::Compiles {
            source,
            stage,
            becomes,
        } => put_compiles(text, source, stage, becomes),
    }
}

/// Appends that a program implements its source.
#[tactic(auto, using(crate::proofs::Written::written))]
fn put_implements(text: &mut Bytes, made: &Name, source: &Name) -> Result<(), OutOfMemory>
    ensures { OnOk result (text.new ≡ text.old ++ line (codes "implements" ∷ made.now ∷ source.now ∷ [])) }
{
    text.extend(b"implements ")?;
    put_pair(text, made, source)
}

/// Appends that a source in a stage compiles another source.
#[tactic(auto, using(crate::proofs::Written::written))]
fn put_compiles(
    text: &mut Bytes,
    source: &Name,
    stage: &Name,
    becomes: &Name,
) -> Result<(), OutOfMemory>
    ensures { OnOk result (text.new ≡ text.old ++ line (codes "compiles" ∷ source.now ∷ stage.now ∷ becomes.now ∷ [])) }
{
    text.extend(b"compiles ")?;
    put_word(text, source)?;
    put_pair(text, stage, becomes)
}

/// Appends a name and a blank.
#[tactic(auto, using(crate::proofs::Written::written))]
pub(crate) fn put_word(text: &mut Bytes, name: &Name) -> Result<(), OutOfMemory>
    ensures { OnOk result (text.new ≡ text.old ++ (name.now ++ codes " ")) }
{
    text.extend(name.bytes())?;
    text.push(b' ')?;
    Ok(())
}

/// Appends the last two names of a line, and its end.
#[tactic(auto, using(crate::proofs::Written::written))]
pub(crate) fn put_pair(text: &mut Bytes, first: &Name, second: &Name) -> Result<(), OutOfMemory>
    ensures { OnOk result (text.new ≡ text.old ++ line (first.now ∷ second.now ∷ [])) }
{
    put_word(text, first)?;
    text.extend(second.bytes())?;
    text.push(b'\n')?;
    Ok(())
}
