//! The execution context of a stage's program, and its start.

ghost use Rattle.audit_run.specs.Stage.Rules.{AreMade, IsStageOf};
ghost use Rattle.audit_run.specs.Stage.Begins.{Begins};
ghost use Rattle.guest_run.specs.Setting.{place_refusal};
ghost use Rattle.guest_run.specs.Start.{start_of};
ghost use Rattle.mem_files.specs.Names.{stripped};
ghost use Rattle.mem_files.specs.Outputs.{IsContent};
ghost use Rattle.std.specs.FinMap as map;
ghost use Rattle.std.specs.Prelude.{◌≡◌, [], All, IfOk, None, OnOk};
ghost use Rattle.audit_rules.specs.Contents.{box_of};
ghost use Rattle.audit_rules.specs.Stages.{contents, start_stage};

use crate::stage::contents::content;
use crate::stage::done::Done;
use audit_rules::StartCause;
use ddc_base::{Bytes, OutOfMemory};
use guest_run::{Guest, RunBox, RunRam, StartRefusal};
use mem_files::PlaceRefusal;
use recipe::{Recipe, Stage};
use std::alloc::Global;

/// The execution context of a stage's program. Texts and contents are borrowed. Error: out of memory.
pub fn box_of<'a>(
    alloc: Global,
    recipe: &'a Recipe,
    stage: &'a Stage,
    inputs: &'a [Bytes],
    done: &'a [Done],
) -> Result<RunBox<'a>, OutOfMemory>
    requires stage { IsStageOf recipe.now stage.now }
    requires inputs { All IsContent inputs.now }
    requires done { AreMade done.now }
    ensures { IfOk result (λ context. context ≡ box_of recipe.now (contents inputs.now done.now) stage.now) }
{
    let mut context = RunBox::new(alloc, stage.heap);
    fill(&mut context, recipe, stage, inputs, done)?;
    Ok(context)
}

/// Adds a stage's texts and files to an empty execution context.
fn fill<'a>(
    context: &mut RunBox<'a>,
    recipe: &'a Recipe,
    stage: &'a Stage,
    inputs: &'a [Bytes],
    done: &'a [Done],
) -> Result<(), OutOfMemory>
    requires none { context.old ≡ record { args = []; env = []; files = map.empty; heap = stage.now.heap } }
    requires stage { IsStageOf recipe.now stage.now }
    requires inputs { All IsContent inputs.now }
    requires done { AreMade done.now }
    ensures { OnOk result (context.new ≡ box_of recipe.now (contents inputs.now done.now) stage.now) }
{
    for text in stage.args.as_slice() {
        context.push_arg(text.as_slice())?;
    }
    for text in stage.env.as_slice() {
        context.push_env(text.as_slice())?;
    }
    for file in stage.files.as_slice() {
        let bytes = content(recipe, inputs, done, &file.from);
        place(context, file.path.as_slice(), bytes)?;
    }
    Ok(())
}

/// Adds a file that no rule refuses.
fn place<'a>(context: &mut RunBox<'a>, path: &[u8], bytes: &'a [u8]) -> Result<(), OutOfMemory>
    requires stripped { stripped path.now ≡ path.now }
    requires fits { place_refusal context.old.files path.now bytes.now ≡ None }
    ensures { OnOk result (context.new ≡ record context.old { files = map.insert context.old.files path.now bytes.now }) }
{
    match context.place(path, bytes) {
        Ok(()) => Ok(()),
        Err(PlaceRefusal::BadName) => unreachable!(),
        Err(PlaceRefusal::Twice) => unreachable!(),
        Err(PlaceRefusal::Full) => unreachable!(),
        Err(PlaceRefusal::OutOfMemory) => Err(OutOfMemory),
    }
}

/// The started program of a stage, or why it does not start. Error: out of memory.
pub fn start_stage(
    alloc: Global,
    recipe: &Recipe,
    stage: &Stage,
    inputs: &[Bytes],
    done: &[Done],
) -> Result<Result<Guest<RunRam>, StartCause>, OutOfMemory>
    requires stage { IsStageOf recipe.now stage.now }
    requires inputs { All IsContent inputs.now }
    requires done { AreMade done.now }
    ensures begins { IfOk result (λ begun. Begins (start_stage recipe.now (contents inputs.now done.now) stage.now) begun) }
    ensures fresh { IfOk result (λ begun. IfOk begun (λ guest. guest.steps ≡ 0)) }
{
    let context = box_of(alloc, recipe, stage, inputs, done)?;
    let program = content(recipe, inputs, done, &stage.program);
    start(alloc, program, &context)
}

/// A started program, or why it does not start.
fn start(
    alloc: Global,
    program: &[u8],
    context: &RunBox<'_>,
) -> Result<Result<Guest<RunRam>, StartCause>, OutOfMemory>
    ensures begins { IfOk result (λ begun. Begins (start_of program.now context.now) begun) }
    ensures fresh { IfOk result (λ begun. IfOk begun (λ guest. guest.steps ≡ 0)) }
{
    match Guest::<RunRam>::start(alloc, program, context) {
        Ok(guest) => Ok(Ok(guest)),
        Err(StartRefusal::Elf(refusal)) => Ok(Err(StartCause::Elf(refusal))),
        Err(StartRefusal::ArgsTooLong) => Ok(Err(StartCause::ArgsTooLong)),
        Err(StartRefusal::BoxTooLarge) => Ok(Err(StartCause::BoxTooLarge)),
        Err(StartRefusal::OutOfMemory) => Err(OutOfMemory),
    }
}
