//! An advance.

ghost use Rattle.audit_run.specs.Advances.{Advances, WantsWithin, progress_of_answer, progress_of_comparisons};
ghost use Rattle.audit_run.specs.Inside.Parts.{IsAtRest, IsPhaseAfter, IsStarted, SaysOf, seen, current};
ghost use Rattle.std.specs.Prelude.{◌≡◌, ◌≤◌, None, OnErr, OnOk, Some};
ghost use Rattle.audit_rules.specs.Positions.{forward_from};
ghost use Rattle.audit_rules.specs.Valid.{IsInputs};

use crate::conduct::Conduct;
use crate::entering::enter;
use crate::phase::{AuditPhase, Course, EndedGuest, Progress};
use crate::stage::Done;
use crate::stretch::advance_started;
use audit_rules::{AuditAnswer, StageFault, all_equal};
use ddc_base::{Bytes, OutOfMemory};
use recipe::Recipe;
use report::CompareLine;
use std::alloc::Global;

/// At most `most` steps of an audit that remains usable after out of memory.
pub(crate) fn advance_parts(
    alloc: Global,
    recipe: &Recipe,
    inputs: &[Bytes],
    course: &mut Course,
    most: u64,
) -> Progress
    requires some { 1 ≤ most }
    requires rest { IsAtRest recipe.now inputs.now course.old.done.items course.old.phase }
    ensures answer { Advances (record { recipe = recipe.now; inputs = inputs.now; current = seen course.old.done.items course.old.phase }) most result
        (seen course.new.done.items course.new.phase) }
    ensures rest { IsAtRest recipe.now inputs.now course.new.done.items course.new.phase }
{
    match begin(
        alloc,
        recipe,
        inputs,
        course.done.as_slice(),
        &mut course.phase,
    ) {
        Ok(()) => {}
        Err(OutOfMemory) => return Progress::OutOfMemory,
    }
    let conduct = Conduct {
        recipe,
        inputs,
        ended: EndedGuest::Kept,
    };
    match advance_started(alloc, &conduct, course, most) {
        Ok(()) => progress_of(&course.phase),
        Err(OutOfMemory) => Progress::OutOfMemory,
    }
}

/// At most `most` steps of an audit that out of memory ends.
pub(crate) fn take_piece(
    alloc: Global,
    recipe: &Recipe,
    inputs: &[Bytes],
    course: &mut Course,
    most: u64,
) -> Result<(), OutOfMemory>
    requires rest { IsAtRest recipe.now inputs.now course.old.done.items course.old.phase }
    ensures ok { OnOk result (seen course.new.done.items course.new.phase
        ≡ Some (forward_from recipe.now inputs.now (current recipe.now inputs.now course.old.done.items course.old.phase) most)) }
    ensures rest { OnOk result (IsAtRest recipe.now inputs.now course.new.done.items course.new.phase) }
    ensures err { OnErr result (WantsWithin (record { recipe = recipe.now; inputs = inputs.now; current = seen course.old.done.items course.old.phase }) most) }
{
    begin(
        alloc,
        recipe,
        inputs,
        course.done.as_slice(),
        &mut course.phase,
    )?;
    let conduct = Conduct {
        recipe,
        inputs,
        ended: EndedGuest::GivenUp,
    };
    advance_started(alloc, &conduct, course, most)
}

/// Enters the first stage, if it was not entered yet. Error: out of memory, which leaves the audit as it was.
fn begin(
    alloc: Global,
    recipe: &Recipe,
    inputs: &[Bytes],
    done: &[Done],
    phase: &mut AuditPhase,
) -> Result<(), OutOfMemory>
    requires given { IsInputs recipe.now inputs.now }
    requires phase { IsPhaseAfter recipe.now done.now phase.old }
    ensures ok { OnOk result (current recipe.now inputs.now done.now phase.new ≡ current recipe.now inputs.now done.now phase.old) }
    ensures started { OnOk result (IsStarted phase.new) }
    ensures current { IsPhaseAfter recipe.now done.now phase.new }
    ensures err { OnErr result (phase.new ≡ phase.old) }
    ensures ready { OnErr result (seen done.now phase.old ≡ None) }
{
    match phase {
        AuditPhase::Running(_) | AuditPhase::Over(_) => Ok(()),
        AuditPhase::Ready => {
            phase.set(enter(alloc, recipe, inputs, done)?);
            Ok(())
        }
    }
}

/// What `advance` returns for an audit that stands here.
fn progress_of(phase: &AuditPhase) -> Progress
    requires { IsStarted phase.now }
    ensures { SaysOf phase.now result }
{
    match phase {
        AuditPhase::Ready => unreachable!(),
        AuditPhase::Running(_) => Progress::Paused,
        AuditPhase::Over(answer) => progress_of_answer(answer),
    }
}

/// What `advance` returns for an answer.
fn progress_of_answer(answer: &AuditAnswer) -> Progress
    ensures { result ≡ progress_of_answer answer.now }
{
    match answer {
        AuditAnswer::Completes(report) => progress_of_comparisons(report.compare.as_slice()),
        AuditAnswer::Fails(stage, StageFault::Runs(cause, step)) => Progress::RunFailed {
            stage: *stage,
            cause: *cause,
            step: *step,
        },
        AuditAnswer::Fails(stage, StageFault::Checks(cause)) => Progress::CheckFailed {
            stage: *stage,
            cause: *cause,
        },
    }
}

/// What `advance` returns for these comparisons.
fn progress_of_comparisons(lines: &[CompareLine]) -> Progress
    ensures { result ≡ progress_of_comparisons lines.now }
{
    if all_equal(lines) {
        Progress::Equal
    } else {
        Progress::Differs
    }
}
