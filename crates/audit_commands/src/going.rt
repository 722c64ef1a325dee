//! Continuing an audit, and answering where it then stands.

ghost use Rattle.std.specs.Prelude.{◌≡◌, ℕ, IfOk, List, Some};
ghost use Rattle.audit_rules.specs.Positions.{Position, Phase, On, forward_from};
ghost use Rattle.audit_run.specs.Saved.{IsOn};
ghost use Rattle.audit_run.specs.Seen.{phase};
ghost use Rattle.audit_commands.specs.Inside.Keeping.{Keeps};
ghost use Rattle.command_plan.specs.Performs.{Performs};
ghost use Rattle.audit_commands.specs.Pause.{came_to, paused};

use crate::audit::tell;
use crate::pause_texts;
use crate::words::Piece;
use audit_run::Audit;
use command_plan::{Answer, FileName, Status, Stop, keep};
use ddc_base::{Bytes, OutOfMemory, Shelf};
use recipe_plan::stage_name;
use std::alloc::Global;

/// What is saved of an audit that is not over.
#[derive(Clone, Copy)]
pub(crate) enum Kept<'a> {
    /// The whole save of its position.
    Whole,
    /// The delta of its position against this save of the same recipe and inputs.
    Relative(&'a [u8]),
}

/// Advances an audit by a segment, and then saves its position or its report.
pub(crate) fn go_on<S: Shelf>(
    alloc: Global,
    shelf: &mut S,
    audit: Audit,
    kept: Kept<'_>,
    piece: &Piece<'_>,
) -> Result<Answer, Stop>
    requires { (text : Position → List ℕ) × Keeps audit.recipe audit.inputs kept text }
    ensures { (text : Position → List ℕ) → Keeps audit.recipe audit.inputs kept.entry text
        → Performs (came_to audit.recipe text piece.now.save piece.now.report (forward_from audit.recipe audit.inputs (phase audit) piece.now.steps))
        (S.state shelf.old) (S.state shelf.new) result }
{
    let audit = audit.advanced(piece.steps.count())?;
    settle(alloc, shelf, &audit, kept, piece)
}

/// Saves the position of an audit that is not over, or the report of one that is.
fn settle<S: Shelf>(
    alloc: Global,
    shelf: &mut S,
    audit: &Audit,
    kept: Kept<'_>,
    piece: &Piece<'_>,
) -> Result<Answer, Stop>
    requires current { (current : Phase) × (audit.now.current ≡ Some current) }
    requires keeps { (text : Position → List ℕ) × Keeps audit.now.recipe audit.now.inputs kept text }
    ensures { (current : Phase) (text : Position → List ℕ) → audit.now.current ≡ Some current → Keeps audit.now.recipe audit.now.inputs kept.entry text
        → Performs (came_to audit.now.recipe text piece.now.save piece.now.report current) (S.state shelf.old) (S.state shelf.new) result }
{
    match audit.answer() {
        Some(answer) => tell(alloc, shelf, audit.recipe(), answer, &piece.report),
        None => keep_position(alloc, shelf, audit, kept, &piece.save),
    }
}

/// Saves an audit's position, and answers with the stage and its steps.
fn keep_position<S: Shelf>(
    alloc: Global,
    shelf: &mut S,
    audit: &Audit,
    kept: Kept<'_>,
    name: &FileName<'_>,
) -> Result<Answer, Stop>
    requires on { IsOn audit.now.current }
    requires keeps { (text : Position → List ℕ) × Keeps audit.now.recipe audit.now.inputs kept text }
    ensures { (p : Position) (text : Position → List ℕ) → audit.now.current ≡ Some (On p) → Keeps audit.now.recipe audit.now.inputs kept.entry text
        → Performs (paused audit.now.recipe text name.now p) (S.state shelf.old) (S.state shelf.new) result }
{
    let text = kept_text(audit, kept)?;
    let (stage, steps) = audit.place();
    let line = pause_texts::paused(alloc, stage_name(audit.recipe(), stage), steps)?;
    let answer = Answer {
        status: Status::Paused,
        text: line,
    };
    keep(alloc, shelf, name, text.as_slice(), answer)
}

/// The save, or the delta, of an audit's position.
fn kept_text(audit: &Audit, kept: Kept<'_>) -> Result<Bytes, OutOfMemory>
    requires on { IsOn audit.now.current }
    requires keeps { (text : Position → List ℕ) × Keeps audit.now.recipe audit.now.inputs kept text }
    ensures { (p : Position) (text : Position → List ℕ) → audit.now.current ≡ Some (On p) → Keeps audit.now.recipe audit.now.inputs kept.entry text
        → IfOk result (λ bytes. bytes ≡ text p) }
{
    match kept {
        Kept::Whole => audit.save(),
        Kept::Relative(base) => audit.save_delta_of(base),
    }
}
