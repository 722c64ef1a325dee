//! `resume RECIPE SAVE REPORT STEPS`: runs another segment of an audit, from the position that a save says.

ghost use Rattle.std.specs.Prelude.{map};
ghost use Rattle.ddc_base.specs.Outside.{ShelfState};
ghost use Rattle.audit_run.specs.Saved.{phase_at};
ghost use Rattle.command_plan.specs.declared.status.Status.TheVariants.{SaveRefused};
ghost use Rattle.command_plan.specs.Performs.{Performs};
ghost use Rattle.command_plan.specs.Plan.{answers};
ghost use Rattle.command_plan.specs.Steps.{Obtains, Says};
ghost use Rattle.audit_commands.specs.Inside.Refusing.{Refuses};
ghost use Rattle.audit_commands.specs.Pause.{needs_position, resume_plan};
ghost use Rattle.audit_commands.specs.PauseTexts.{save_refused_line};

use crate::fetching::{fetch_apart, fetch_save};
use crate::going::{Kept, go_on};
use crate::pause_texts;
use crate::words::PieceWords;
use audit_run::Audit;
use audit_run::save::SaveRefusal;
use command_plan::{Answer, Status, Stop, usage};
use ddc_base::{Bytes, Shelf};
use recipe_plan::Supplied;
use std::alloc::Global;

/// `resume RECIPE SAVE REPORT STEPS`: runs another segment of an audit, from the position that a save says. Statuses 0, 2, 3, 4, 6 to 13.
pub fn perform<S: Shelf>(alloc: Global, shelf: &mut S, words: &[&str]) -> Result<Answer, Stop>
    ensures { Performs (resume_plan (map (λ w. w.now) words.now)) (S.state shelf.old) (S.state shelf.new) result }
{
    let Some(words) = PieceWords::read(words) else {
        return usage(alloc);
    };
    let recipe = fetch_apart(alloc, shelf, &words)?;
    let (text, inputs) = fetch_save(alloc, shelf, &recipe, &words.piece.save)?;
    let audit = audit_at(alloc, Supplied { recipe, inputs }, text)?;
    go_on(alloc, shelf, audit, Kept::Whole, &words.piece)
}

/// The audit at the position that a save says, or what ends the command.
fn audit_at(alloc: Global, supplied: Supplied, text: Bytes) -> Result<Audit, Stop>
    ensures { (shelf : ShelfState) → Obtains (λ next. needs_position supplied.recipe supplied.inputs text (λ p. next (phase_at supplied.recipe supplied.inputs p)))
        shelf shelf result }
{
    match Audit::resume(alloc, supplied.recipe, supplied.inputs, text.as_slice()) {
        Ok(audit) => Ok(audit),
        Err(refusal) => Err(Stop::Answered(refuse(alloc, refusal)?)),
    }
}

/// The answer to a refused save. Error: out of memory, if the refusal is that.
pub(crate) fn refuse(alloc: Global, refusal: SaveRefusal) -> Result<Answer, Stop>
    ensures { Refuses refusal result }
{
    match refusal {
        SaveRefusal::OutOfMemory => Err(Stop::OutOfMemory),
        refusal => refused(alloc, refusal),
    }
}

/// The answer to a refused save, other than out of memory.
fn refused(alloc: Global, refusal: SaveRefusal) -> Result<Answer, Stop>
    ensures { Says (answers SaveRefused (save_refused_line refusal)) result }
{
    Ok(Answer {
        status: Status::SaveRefused,
        text: pause_texts::refused(alloc, refusal)?,
    })
}
