//! `rests RECIPE STAGE`: prints where a stage's artefact comes from, by the recipe alone.

ghost use Rattle.std.specs.Prelude.{◌≡◌, ◌++◌, [], ◌∷◌, IfOk, OnOk, map, option_map};
ghost use Rattle.ddc_base.specs.Lines.{line};
ghost use Rattle.command_plan.specs.declared.status.Status.TheVariants.{Yes};
ghost use Rattle.command_plan.specs.Performs.{Performs};
ghost use Rattle.command_plan.specs.Plan.{answers};
ghost use Rattle.command_plan.specs.Steps.{Says};
ghost use Rattle.wheeler.specs.AllContents.{stage_named};
ghost use Rattle.verify_commands.specs.Inside.BasisTexts.{basis_text};
ghost use Rattle.verify_commands.specs.Rests.{names_text, rests_files, rests_plan, rests_text};

use crate::texts::put_assumptions;
use audit_chain::rests::{Basis, basis_of};
use command_plan::words::has_no_zero_byte;
use command_plan::{Answer, FileName, Status, Stop, usage};
use ddc_base::{Bytes, Name, OutOfMemory, Shelf};
use recipe::{Recipe, Stage};
use recipe_plan::fetch_recipe;
use std::alloc::Global;

/// `rests RECIPE STAGE`: prints the dependencies of STAGE's artefact. Statuses 0, 2, 4, 10, 11, 13.
#[tactic(auto, using(command_plan::proofs::Performing::performing))]
pub fn perform<S: Shelf>(alloc: Global, shelf: &mut S, words: &[&str]) -> Result<Answer, Stop>
    ensures { Performs (rests_plan (map (λ w. w.now) words.now)) (S.state shelf.old) (S.state shelf.new) result }
{
    let [recipe, stage] = words else {
        return usage(alloc);
    };
    let Some(recipe) = FileName::read(recipe) else {
        return usage(alloc);
    };
    if !has_no_zero_byte(stage) {
        return usage(alloc);
    }
    rests(alloc, shelf, &recipe, stage)
}

/// Loads a recipe, and prints the dependencies of the stage of a name.
fn rests<S: Shelf>(
    alloc: Global,
    shelf: &mut S,
    recipe: &FileName<'_>,
    stage: &str,
) -> Result<Answer, Stop>
    ensures { Performs (rests_files recipe.now stage.now) (S.state shelf.old) (S.state shelf.new) result }
{
    let recipe = fetch_recipe(alloc, shelf, recipe)?;
    match stage_named(&recipe, stage) {
        Some(stage) => answer(alloc, &recipe, &stage.name),
        None => usage(alloc),
    }
}

/// The stage of a name; `None` where no stage has the name.
fn stage_named<'a>(recipe: &'a Recipe, name: &str) -> Option<&'a Stage>
    ensures { option_map (λ x. x.now) result ≡ stage_named recipe.now.stages name.now }
{
    recipe
        .stages()
        .as_slice()
        .iter()
        .find(|stage| stage.name.bytes() == name.as_bytes())
}

/// The answer for the stage of a name.
fn answer(alloc: Global, recipe: &Recipe, name: &Name) -> Result<Answer, Stop>
    ensures { Says (answers Yes (rests_text recipe.now name.now)) result }
{
    Ok(Answer {
        status: Status::Yes,
        text: text_of(alloc, recipe, name)?,
    })
}

/// The text of the stage of a name.
#[tactic(auto, unfolding(crate::specs::Rests::rests_text))]
fn text_of(alloc: Global, recipe: &Recipe, name: &Name) -> Result<Bytes, OutOfMemory>
    ensures { IfOk result (λ text. text ≡ rests_text recipe.now name.now) }
{
    let basis = basis_of(alloc, recipe, name)?;
    written(alloc, &basis)
}

/// The text of these dependencies.
#[tactic(auto, using(crate::proofs::Written::written))]
fn written(alloc: Global, basis: &Basis) -> Result<Bytes, OutOfMemory>
    ensures { IfOk result (λ text. text ≡ basis_text basis.now) }
{
    let mut text = Bytes::new(alloc);
    put_names(&mut text, b"text", basis.texts.as_slice())?;
    put_names(&mut text, b"layout", basis.layouts.as_slice())?;
    put_names(&mut text, b"layout", basis.own_layout.as_slice())?;
    put_names(&mut text, b"run", basis.ran.as_slice())?;
    put_assumptions(alloc, &mut text, basis.lines.as_slice())?;
    put_names(&mut text, b"speaks", basis.spoken.as_slice())?;
    Ok(text)
}

/// Appends a line for each name, with this word before it.
pub(crate) fn put_names(text: &mut Bytes, what: &[u8], names: &[Name]) -> Result<(), OutOfMemory>
    ensures { OnOk result (text.new ≡ text.old ++ names_text what.now names.now) }
{
    for name in names {
        put_name(text, what, name)?;
    }
    Ok(())
}

/// Appends the line of a name, with this word before it.
#[tactic(auto, using(crate::proofs::Written::written))]
pub(crate) fn put_name(text: &mut Bytes, what: &[u8], name: &Name) -> Result<(), OutOfMemory>
    ensures { OnOk result (text.new ≡ text.old ++ line (what.now ∷ name.now ∷ [])) }
{
    text.extend(what)?;
    text.push(b' ')?;
    text.extend(name.bytes())?;
    text.push(b'\n')?;
    Ok(())
}
