//! `delta-resume RECIPE BASE PATCH REPORT STEPS`: continues an audit from a save and a delta against it, and keeps the new delta.

ghost use Rattle.std.specs.Prelude.{IfOk, map};
ghost use Rattle.recipe.specs.Kept.{IsRecipe};
ghost use Rattle.command_plan.specs.declared.status.Status.TheVariants.{SaveRefused};
ghost use Rattle.command_plan.specs.Performs.{Performs};
ghost use Rattle.command_plan.specs.Plan.{answers};
ghost use Rattle.command_plan.specs.Steps.{Says};
ghost use Rattle.audit_run.specs.Delta.Audits.{IsResumedRelative, ResumesAuditRelative};
ghost use Rattle.audit_commands.specs.Delta.{delta_resume_plan};
ghost use Rattle.audit_commands.specs.Inside.Refusing.{RefusesDelta};
ghost use Rattle.audit_commands.specs.PauseTexts.{delta_refused_line};

use crate::fetching::{fetch_relative, fetch_save};
use crate::going::{Kept, go_on};
use crate::pause_texts;
use crate::words::RelativeWords;
use audit_run::{Audit, DeltaRefusal};
use command_plan::{Answer, Status, Stop, fetch, usage};
use ddc_base::limits::MOST_SAVE;
use ddc_base::{Bytes, Shelf};
use recipe_plan::Supplied;
use std::alloc::Global;

/// `delta-resume RECIPE BASE PATCH REPORT STEPS`: continues an audit from a save and a delta against it, and keeps the new delta. Statuses
/// 0, 2, 3, 4, 6 to 13.
pub fn perform<S: Shelf>(alloc: Global, shelf: &mut S, words: &[&str]) -> Result<Answer, Stop>
    ensures { Performs (delta_resume_plan (map (λ w. w.now) words.now)) (S.state shelf.old) (S.state shelf.new) result }
{
    let Some(words) = RelativeWords::read(words) else {
        return usage(alloc);
    };
    let recipe = fetch_relative(alloc, shelf, &words)?;
    let save = fetch(alloc, shelf, &words.base, MOST_SAVE)?;
    let (delta, inputs) = fetch_save(alloc, shelf, &recipe, &words.piece.save)?;
    let supplied = Supplied { recipe, inputs };
    let base = save.as_slice();
    match read(alloc, supplied, base, delta) {
        Ok(audit) => go_on(alloc, shelf, audit, Kept::Relative(base), &words.piece),
        Err(refusal) => refuse(alloc, refusal),
    }
}

/// The audit at the position that a save and a delta against it say; the delta's text is not kept.
fn read(alloc: Global, supplied: Supplied, base: &[u8], delta: Bytes) -> Result<Audit, DeltaRefusal>
    ensures exact { ResumesAuditRelative supplied.recipe supplied.inputs base.now delta result }
    ensures found { IfOk result (λ audit. IsResumedRelative supplied.recipe supplied.inputs base.now delta audit) }
    ensures kept { IsRecipe supplied.recipe }
{
    let delta = delta.as_slice();
    Audit::resume_delta(alloc, supplied.recipe, supplied.inputs, base, delta)
}

/// The answer to a refused save or delta. Error: out of memory, if the refusal is that.
fn refuse(alloc: Global, refusal: DeltaRefusal) -> Result<Answer, Stop>
    ensures { RefusesDelta refusal result }
{
    match refusal {
        DeltaRefusal::OutOfMemory => Err(Stop::OutOfMemory),
        refusal => refused(alloc, refusal),
    }
}

/// The answer to a refused save or delta, other than out of memory.
fn refused(alloc: Global, refusal: DeltaRefusal) -> Result<Answer, Stop>
    ensures { Says (answers SaveRefused (delta_refused_line refusal)) result }
{
    Ok(Answer {
        status: Status::SaveRefused,
        text: pause_texts::delta_refused(alloc, refusal)?,
    })
}
