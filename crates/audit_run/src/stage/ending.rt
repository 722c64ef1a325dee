//! The end of a stage's run.

ghost use Rattle.audit_run.specs.Stage.Makes.{Makes};
ghost use Rattle.ddc_base.specs.Limits.{most_artefacts};
ghost use Rattle.audit_run.specs.Stage.Rules.{IsStageOf};
ghost use Rattle.mem_files.specs.Outputs.{out};
ghost use Rattle.recipe.specs.Kept as kept;
ghost use Rattle.std.specs.Option.{option_copied};
ghost use Rattle.std.specs.Prelude.{◌≡◌, ◌≤◌, IfOk, OnErr, Some};
ghost use Rattle.audit_rules.specs.Stages.{artefact_bytes, exited_with, finished, output_of};

use crate::stage::done::Done;
use crate::stage::left::{Known, left_lines};
use crate::stage::so_far::SoFar;
use crate::stage::sources::check_of;
use audit_rules::{Finished, RunCause, StageFault};
use ddc_base::limits::MOST_ARTEFACTS;
use ddc_base::{Bytes, OutOfMemory};
use mem_files::Files;
use recipe::{Output, Stage};
use report::Mark;
use std::alloc::Global;

/// How a program exited: its status, and the step, counted from 1.
#[derive(Clone, Copy)]
pub struct Exit {
    pub status: u8,
    pub step: u64,
}

/// The result of a stage's run whose program exited. Error: out of memory.
///
/// Memory runs out only if an artefact was made, which is then checked and kept.
pub(crate) fn exited(
    alloc: Global,
    so_far: &SoFar<'_>,
    stage: &Stage,
    files: &Files,
    exit: Exit,
) -> Result<Result<Done, StageFault>, OutOfMemory>
    requires recipe { kept.IsRecipe so_far.now.recipe.now }
    requires stage { IsStageOf so_far.now.recipe.now stage.now }
    requires small { artefact_bytes so_far.now.done.now ≤ most_artefacts }
    ensures answer { IfOk result (λ r. r
        ≡ exited_with so_far.now.recipe.now so_far.now.inputs.now so_far.now.done.now stage.now exit.status exit.step files.now) }
    ensures want { OnErr result (Makes stage.now so_far.now.done.now exit.status files.now) }
{
    let Exit { status, step } = exit;
    if status != 0 {
        return Ok(Err(StageFault::Runs(RunCause::Status(status), step)));
    }
    let Some(made) = made_by(stage, files) else {
        return Ok(Err(StageFault::Runs(RunCause::NoOutput, step)));
    };
    if artefact_bytes(so_far.done) + made.len() as u64 > MOST_ARTEFACTS {
        return Ok(Err(StageFault::Runs(RunCause::Crowded, step)));
    }
    match check_of(alloc, so_far, stage, made)? {
        Some(cause) => Ok(Err(StageFault::Checks(cause))),
        None => Ok(Ok(finish(alloc, stage, files, step, made)?)),
    }
}

/// The bytes at a stage's output; `None` if it does not exist.
pub fn made_by<'a>(stage: &Stage, files: &'a Files) -> Option<&'a [u8]>
    requires { kept.IsOutput stage.now.output }
    ensures { option_copied result ≡ out files.now (output_of stage.now.output) }
{
    match &stage.output {
        Output::Stream => Some(files.stream(1)),
        Output::File(path) => files.content(path.as_slice()),
    }
}

/// The number of bytes of all artefacts so far.
fn artefact_bytes(done: &[Done]) -> u64
    requires { artefact_bytes done.now ≤ most_artefacts }
    ensures { result ≡ artefact_bytes done.now }
{
    let mut total = 0;
    for stage in done {
        total += stage.made().len() as u64;
    }
    total
}

/// The finished stage: what its program left, with the marks, and a copy of the artefact. The artefact's mark is computed once.
#[tactic(auto, unfolding(audit_rules::specs::Stages::finished))]
fn finish(
    alloc: Global,
    stage: &Stage,
    files: &Files,
    steps: u64,
    made: &[u8],
) -> Result<Done, OutOfMemory>
    requires { out files.now (output_of stage.now.output) ≡ Some made.now }
    ensures { IfOk result (λ f. f ≡ finished steps files.now made.now) }
{
    let mark = Mark::of(made);
    let stream2 = Mark::of(files.stream(2));
    let (stream1, left) = match &stage.output {
        Output::Stream => (mark, left_lines(alloc, files, &None)?),
        Output::File(path) => {
            let path = path.as_slice();
            let known = Some(Known { path, mark });
            (Mark::of(files.stream(1)), left_lines(alloc, files, &known)?)
        }
    };
    let made = Bytes::from_slice(alloc, made)?;
    Ok(Done::new(
        Finished {
            steps,
            stream1,
            stream2,
            left,
            made,
        },
        mark,
    ))
}
