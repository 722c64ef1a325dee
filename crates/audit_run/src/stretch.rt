//! An audit's steps.

ghost use Rattle.audit_run.specs.Inside.Parts.{IsPhaseAfter, IsStarted, KeepsPhase, later, Slices, current, WantsAfter};
ghost use Rattle.recipe.specs.Kept.{IsRecipe};
ghost use Rattle.std.specs.Prelude.{◌≡◌, ◌++◌, ◌∷◌, [], ◌≤◌, IfOk, OnErr, OnOk, Ok};
ghost use Rattle.audit_rules.specs.Positions.{at, stage_closed, forward_from, todo};
ghost use Rattle.audit_rules.specs.Valid.{AreDone, IsPosition};

use crate::conduct::Conduct;
use crate::entering::enter;
use crate::phase::{AuditPhase, Course, EndedGuest, Moved};
use crate::stage::{Done, SoFar};
use crate::stage_run::run_slice;
use audit_rules::AuditAnswer;
use ddc_base::OutOfMemory;
use guest_run::{Guest, RunRam};
use std::alloc::Global;

/// After a stage is done: drops its guest unless it is to be kept.
fn leave(phase: &mut AuditPhase, ended: EndedGuest)
    ensures { KeepsPhase ended phase.old phase.new }
{
    match ended {
        EndedGuest::Kept => {}
        EndedGuest::GivenUp => phase.set(AuditPhase::Ready),
    }
}

/// After a stage is done: starts the next one, or ends the audit. Error: out of memory, which leaves the stages and a guest that is kept.
fn close(
    alloc: Global,
    conduct: &Conduct<'_>,
    course: &mut Course,
    finished: Done,
) -> Result<(), OutOfMemory>
    requires done { AreDone conduct.now.recipe.now (course.old.done.items ++ finished ∷ []) }
    requires remaining { todo conduct.now.recipe.now (course.old.done.items ++ finished ∷ []) ≡ later conduct.now.recipe.now course.old.done.items }
    ensures ok { OnOk result (current conduct.now.recipe.now conduct.now.inputs.now course.new.done.items course.new.phase
        ≡ stage_closed conduct.now.recipe.now conduct.now.inputs.now course.old.done.items
        (later conduct.now.recipe.now course.old.done.items) (Ok finished)) }
    ensures started { OnOk result (IsStarted course.new.phase) }
    ensures phase { OnErr result (KeepsPhase conduct.now.ended course.old.phase course.new.phase) }
    ensures done { OnErr result (course.new.done.items ≡ course.old.done.items) }
{
    leave(&mut course.phase, conduct.ended);
    course.done.push(finished)?;
    match enter(
        alloc,
        conduct.recipe,
        conduct.inputs,
        course.done.as_slice(),
    ) {
        Ok(entered) => {
            course.phase.set(entered);
            Ok(())
        }
        Err(OutOfMemory) => {
            course.done.pop();
            Err(OutOfMemory)
        }
    }
}

/// At most `most` steps of the present stage.
fn run_present(
    alloc: Global,
    so_far: &SoFar<'_>,
    guest: &mut Guest<RunRam>,
    most: u64,
) -> Result<(u64, Moved), OutOfMemory>
    requires some { 1 ≤ most }
    requires current { IsPosition so_far.now.recipe.now (at so_far.now.done.now guest.old) }
    ensures kept { IsRecipe so_far.now.recipe.now }
    ensures slices { Slices so_far.now.recipe.now so_far.now.inputs.now so_far.now.done.now (later so_far.now.recipe.now so_far.now.done.now)
        guest.old most result guest.new }
{
    let stage = &so_far.recipe.stages().as_slice()[so_far.done.len()];
    run_slice(alloc, so_far, stage, guest, most)
}

/// Runs the present stage up to its end, by at most `most` steps. Returns how many of these are used up: at least one, and all if the audit
/// is over. Error: out of memory.
fn stretch(
    alloc: Global,
    conduct: &Conduct<'_>,
    course: &mut Course,
    most: u64,
) -> Result<u64, OutOfMemory>
    requires some { 1 ≤ most }
    requires current { IsPhaseAfter conduct.now.recipe.now course.old.done.items course.old.phase }
    requires started { IsStarted course.old.phase }
    ensures ok { IfOk result (λ taken. current conduct.now.recipe.now conduct.now.inputs.now course.new.done.items course.new.phase
        ≡ forward_from conduct.now.recipe.now conduct.now.inputs.now
        (current conduct.now.recipe.now conduct.now.inputs.now course.old.done.items course.old.phase) taken) }
    ensures some { IfOk result (λ taken. 1 ≤ taken) }
    ensures most { IfOk result (λ taken. taken ≤ most) }
    ensures started { OnOk result (IsStarted course.new.phase) }
    ensures current { OnOk result (IsPhaseAfter conduct.now.recipe.now course.new.done.items course.new.phase) }
    ensures err { OnErr result (WantsAfter conduct.now.ended conduct.now.recipe.now conduct.now.inputs.now
        (current conduct.now.recipe.now conduct.now.inputs.now course.old.done.items course.old.phase) most course.new.done.items course.new.phase) }
{
    let (taken, moved) = match &mut course.phase {
        AuditPhase::Running(guest) => {
            let so_far = SoFar {
                recipe: conduct.recipe,
                inputs: conduct.inputs,
                done: course.done.as_slice(),
            };
            run_present(alloc, &so_far, guest, most)?
        }
        AuditPhase::Ready | AuditPhase::Over(_) => return Ok(most),
    };
    match moved {
        Moved::Goes => Ok(taken),
        Moved::Ended(Ok(finished)) => {
            close(alloc, conduct, course, finished)?;
            Ok(taken)
        }
        Moved::Ended(Err(fault)) => {
            let stage = course.done.len() as u32 + 1;
            course
                .phase
                .set(AuditPhase::Over(AuditAnswer::Fails(stage, fault)));
            Ok(taken)
        }
    }
}

/// At most `most` steps of an audit whose first stage was entered.
pub(crate) fn advance_started(
    alloc: Global,
    conduct: &Conduct<'_>,
    course: &mut Course,
    most: u64,
) -> Result<(), OutOfMemory>
    requires current { IsPhaseAfter conduct.now.recipe.now course.old.done.items course.old.phase }
    requires started { IsStarted course.old.phase }
    ensures ok { OnOk result (current conduct.now.recipe.now conduct.now.inputs.now course.new.done.items course.new.phase
        ≡ forward_from conduct.now.recipe.now conduct.now.inputs.now
        (current conduct.now.recipe.now conduct.now.inputs.now course.old.done.items course.old.phase) most) }
    ensures started { OnOk result (IsStarted course.new.phase) }
    ensures current { OnOk result (IsPhaseAfter conduct.now.recipe.now course.new.done.items course.new.phase) }
    ensures err { OnErr result (WantsAfter conduct.now.ended conduct.now.recipe.now conduct.now.inputs.now
        (current conduct.now.recipe.now conduct.now.inputs.now course.old.done.items course.old.phase) most course.new.done.items course.new.phase) }
{
    let mut remaining = most;
    while remaining > 0 {
        remaining -= stretch(alloc, conduct, course, remaining)?;
    }
    Ok(())
}
