//! The execution context of a stage's program.

ghost use Rattle.ddc_base.specs.Limits.{most_content, most_names};
ghost use Rattle.mem_files.specs.Names.{is_stripped_name};
ghost use Rattle.std.specs.FinMap as map;
ghost use Rattle.std.specs.List.{fold};
ghost use Rattle.std.specs.Prelude.{◌≡◌, ◌<◌, ◌≤◌, false, length, Contains, IfOk, IsTrue, OnOk};
ghost use Rattle.verifier.specs.Inside.Holdings.{CanPlace, IsHeld, so_far};
ghost use Rattle.audit_rules.specs.Contents.{box_of, with_stage_file};

use crate::held::Held;
use ddc_base::OutOfMemory;
use guest_run::RunBox;
use mem_files::PlaceRefusal;
use recipe::{Stage, StageFile};
use std::alloc::Global;

/// The execution context of a stage's program, with everything borrowed. Error: out of memory.
#[tactic(auto, unfolding(audit_rules::specs::Contents::box_of))]
pub(crate) fn box_of<'a>(
    alloc: Global,
    held: &Held<'a>,
    stage: &'a Stage,
) -> Result<RunBox<'a>, OutOfMemory>
    requires held { IsHeld held.now }
    requires known { Contains held.now.recipe.now.stages stage.now }
    ensures { IfOk result (λ context. context ≡ box_of held.now.recipe.now (so_far held.now) stage.now) }
{
    let mut context = RunBox::new(alloc, stage.heap);
    for text in stage.args.as_slice() {
        context.push_arg(text.as_slice())?;
    }
    for variable in stage.env.as_slice() {
        context.push_env(variable.as_slice())?;
    }
    place_files(&mut context, held, stage.files.as_slice())?;
    Ok(context)
}

/// Adds files, each with the bytes that its name stands for.
fn place_files<'a>(
    context: &mut RunBox<'a>,
    held: &Held<'a>,
    files: &[StageFile],
) -> Result<(), OutOfMemory>
    requires held { IsHeld held.now }
    requires free { CanPlace context.old.files files.now }
    ensures { OnOk result (context.new ≡ record context.old { files = fold (with_stage_file held.now.recipe.now (so_far held.now)) context.old.files files.now }) }
{
    for file in files {
        place(context, file.path.as_slice(), held.bytes(&file.from))?;
    }
    Ok(())
}

/// Adds a file that no rule refuses.
fn place<'a>(context: &mut RunBox<'a>, path: &[u8], content: &'a [u8]) -> Result<(), OutOfMemory>
    requires named { IsTrue (is_stripped_name path.now) }
    requires absent { map.contains_key context.old.files path.now ≡ false }
    requires small { length content.now ≤ most_content }
    requires few { map.len context.old.files < most_names }
    ensures { OnOk result (context.new ≡ record context.old { files = map.insert context.old.files path.now content.now }) }
{
    match context.place(path, content) {
        Ok(()) => Ok(()),
        Err(PlaceRefusal::BadName) => unreachable!(),
        Err(PlaceRefusal::Twice) => unreachable!(),
        Err(PlaceRefusal::Full) => unreachable!(),
        Err(PlaceRefusal::OutOfMemory) => Err(OutOfMemory),
    }
}
