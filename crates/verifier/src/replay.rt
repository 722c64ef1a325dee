//! Replaying a stage.

ghost use Rattle.guest_run.specs.Run.{end_at};
ghost use Rattle.guest_run.specs.Start.{start_of};
ghost use Rattle.mem_files.specs.Outputs.{out};
ghost use Rattle.std.specs.Option.{option_copied};
ghost use Rattle.std.specs.Prelude.{◌≡◌, ◌+◌, ◌≤◌, Contains, IfOk};
ghost use Rattle.ddc_base.specs.Results.{or_error};
ghost use Rattle.ddc_base.specs.Limits.{most_steps};
ghost use Rattle.verifier.specs.Faults.{checked_artefact, exit_of, left_at, recorded, replayed, size_of};
ghost use Rattle.verifier.specs.Inside.Holdings.{IsHeld, IsOutputName, IsRecorded, Judged, OnStopWant, judged_left, so_far};
ghost use Rattle.verifier.specs.declared.part.Part.TheVariants as part;
ghost use Rattle.verifier.specs.Verdicts.{CanWantAt};
ghost use Rattle.audit_rules.specs.Contents.{Contents, box_of, check_of, program_of};
ghost use Rattle.audit_rules.specs.Stages.{output_of};

use crate::checking::is_right;
use crate::context::box_of;
use crate::held::Held;
use crate::left::has_left;
use crate::part::Part;
use crate::stop::JudgingStop;
use ddc_base::limits::MOST_ARTEFACTS;
use ddc_base::{Bytes, OutOfMemory};
use elf_load::read_image;
use guest_run::{Guest, RunEnd, RunRam, StartRefusal};
use mem_files::Files;
use recipe::{Output, Stage};
use report::StageLine;
use std::alloc::Global;

/// A stage of the recipe, and the report's line on it.
#[derive(Drop)]
pub(crate) struct ReportedStage<'a> {
    pub(crate) stage: &'a Stage,
    pub(crate) line: &'a StageLine,
}

/// The artefact of a stage whose line is true. Errors: the first wrong part, out of memory. `total` is the number of bytes of the
/// artefacts so far.
#[tactic(auto, unfolding(crate::specs::Faults::replayed))]
pub(crate) fn replay(
    alloc: Global,
    held: &Held<'_>,
    reported: &ReportedStage<'_>,
    total: u64,
) -> Result<Bytes, JudgingStop>
    requires held { IsHeld held.now }
    requires known { Contains held.now.recipe.now.stages reported.now.stage.now }
    requires total { total ≡ size_of (so_far held.now) }
    requires small { total ≤ MOST_ARTEFACTS }
    ensures value { Judged (λ made. made) (replayed held.now.recipe.now (so_far held.now) reported.now.stage.now reported.now.line.now) result }
    ensures memory { OnStopWant result (CanWantAt held.now.recipe.now (so_far held.now) reported.now.stage.now reported.now.line.now) }
{
    let guest = exited(alloc, held, reported)?;
    left(alloc, held, reported, total, guest.files())
}

/// The artefact left by a run, if all that it left is as the line says and the artefact is what its source stands for.
fn left(
    alloc: Global,
    held: &Held<'_>,
    reported: &ReportedStage<'_>,
    total: u64,
    files: &Files,
) -> Result<Bytes, JudgingStop>
    requires held { IsHeld held.now }
    requires known { Contains held.now.recipe.now.stages reported.now.stage.now }
    requires total { total ≡ size_of (so_far held.now) }
    requires small { total ≤ MOST_ARTEFACTS }
    ensures value { Judged (λ made. made) (judged_left held.now.recipe.now (so_far held.now) reported.now.stage.now reported.now.line.now files.now) result }
    ensures memory { OnStopWant result (λ p. (p ≡ part.Assembled) × IsRecorded (so_far held.now) reported.now.stage.now reported.now.line.now files.now) }
{
    let Some(made) = recorded(reported, total, files) else {
        return Err(JudgingStop::Refuted(Part::Files));
    };
    match checked(alloc, held, reported.stage, made) {
        Ok(Some(made)) => Ok(made),
        Ok(None) => Err(JudgingStop::Refuted(Part::Assembled)),
        Err(OutOfMemory) => Err(JudgingStop::OutOfMemory(Part::Assembled)),
    }
}

/// A copy of an artefact; `None` if its check finds something wrong.
fn checked(
    alloc: Global,
    held: &Held<'_>,
    stage: &Stage,
    made: &[u8],
) -> Result<Option<Bytes>, OutOfMemory>
    requires { IsHeld held.now }
    ensures { IfOk result (λ copy. or_error part.Assembled copy ≡ checked_artefact made.now (check_of held.now.recipe.now (so_far held.now) stage.now made.now)) }
{
    if is_right(alloc, held, stage, made)? {
        Ok(Some(Bytes::from_slice(alloc, made)?))
    } else {
        Ok(None)
    }
}

/// The guest of a stage's program, after its exit with 0 at exactly the recorded step.
fn exited(
    alloc: Global,
    held: &Held<'_>,
    reported: &ReportedStage<'_>,
) -> Result<Guest<RunRam>, JudgingStop>
    requires held { IsHeld held.now }
    requires known { Contains held.now.recipe.now.stages reported.now.stage.now }
    ensures value { let stage = reported.now.stage.now in
        Judged (λ guest. guest.world) (or_error part.Run (left_at (start_of (program_of held.now.recipe.now (so_far held.now) stage) (box_of held.now.recipe.now (so_far held.now) stage)) stage.steps reported.now.line.now.steps)) result }
    ensures memory { OnStopWant result (CanWantAt held.now.recipe.now (so_far held.now) reported.now.stage.now reported.now.line.now) }
{
    let stage = reported.stage;
    let step = reported.line.steps;
    if step == 0 || step > stage.steps {
        return Err(JudgingStop::Refuted(Part::Run));
    }
    let program = held.bytes(&stage.program);
    let image = match read_image(program) {
        Ok(image) => image,
        Err(_) => return Err(JudgingStop::Refuted(Part::Run)),
    };
    let context = match box_of(alloc, held, stage) {
        Ok(context) => context,
        Err(OutOfMemory) => return Err(JudgingStop::OutOfMemory(Part::Run)),
    };
    match Guest::<RunRam>::start_image(alloc, program, &image, &context) {
        Ok(guest) => run_out(guest, step),
        Err(StartRefusal::Elf(_)) => Err(JudgingStop::Refuted(Part::Run)),
        Err(StartRefusal::ArgsTooLong) => Err(JudgingStop::Refuted(Part::Run)),
        Err(StartRefusal::BoxTooLarge) => Err(JudgingStop::Refuted(Part::Run)),
        Err(StartRefusal::OutOfMemory) => Err(JudgingStop::OutOfMemory(Part::Run)),
    }
}

/// The fresh guest after so many steps, the last of which must be its exit with 0.
fn run_out(guest: Guest<RunRam>, step: u64) -> Result<Guest<RunRam>, JudgingStop>
    requires fresh { guest.steps ≡ 0 }
    requires some { 1 ≤ step }
    requires few { step ≤ most_steps }
    ensures value { Judged (λ guest. guest.world) (or_error part.Run (exit_of (end_at guest step))) result }
    ensures memory { OnStopWant result (λ p. p ≡ part.Run) }
{
    let mut guest = guest;
    run_to(&mut guest, step)?;
    Ok(guest)
}

/// Runs a fresh guest for so many steps, the last of which must be its exit with 0.
fn run_to(guest: &mut Guest<RunRam>, step: u64) -> Result<(), JudgingStop>
    requires fresh { guest.old.steps ≡ 0 }
    requires some { 1 ≤ step }
    requires few { step ≤ most_steps }
    ensures value { Judged (λ _. guest.new.world) (or_error part.Run (exit_of (end_at guest.old step))) result }
    ensures memory { OnStopWant result (λ p. p ≡ part.Run) }
{
    match guest.run(step) {
        RunEnd::Exited(status) => {
            if status != 0 {
                return Err(JudgingStop::Refuted(Part::Run));
            }
            if guest.steps() + 1 != step {
                return Err(JudgingStop::Refuted(Part::Run));
            }
            Ok(())
        }
        RunEnd::Trapped(_) => Err(JudgingStop::Refuted(Part::Run)),
        RunEnd::UnknownCall(_) => Err(JudgingStop::Refuted(Part::Run)),
        RunEnd::Spent => Err(JudgingStop::Refuted(Part::Run)),
        RunEnd::OutOfMemory => Err(JudgingStop::OutOfMemory(Part::Run)),
    }
}

/// The artefact left by a run; `None` if what was left is not as the line says or the artefacts together exceed their limit.
fn recorded<'f>(reported: &ReportedStage<'_>, total: u64, files: &'f Files) -> Option<&'f [u8]>
    requires named { IsOutputName reported.now.stage.now.output }
    requires small { total ≤ MOST_ARTEFACTS }
    ensures { (so_far : Contents) → total ≡ size_of so_far → option_copied result ≡ recorded so_far reported.now.stage.now reported.now.line.now files.now }
{
    if !has_left(reported.line, files) {
        return None;
    }
    let made = artefact(&reported.stage.output, files)?;
    if reported.line.made.is_of(made) && total + made.len() as u64 <= MOST_ARTEFACTS {
        Some(made)
    } else {
        None
    }
}

/// The bytes at a stage's output; `None` if it does not exist.
fn artefact<'f>(output: &Output, files: &'f Files) -> Option<&'f [u8]>
    requires { IsOutputName output.now }
    ensures { option_copied result ≡ out files.now (output_of output.now) }
{
    match output {
        Output::Stream => Some(files.stream(1)),
        Output::File(path) => files.content(path.as_slice()),
    }
}
