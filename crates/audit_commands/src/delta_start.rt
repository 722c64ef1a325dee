//! `delta-start RECIPE BASE PATCH REPORT STEPS`: continues an audit from a save, and keeps the delta against it.

ghost use Rattle.std.specs.Prelude.{map};
ghost use Rattle.command_plan.specs.Performs.{Performs};
ghost use Rattle.audit_commands.specs.Delta.{delta_start_plan};

use crate::fetching::{fetch_relative, fetch_save};
use crate::going::{Kept, go_on};
use crate::resume::refuse;
use crate::words::RelativeWords;
use audit_run::Audit;
use command_plan::{Answer, Stop, usage};
use ddc_base::Shelf;
use std::alloc::Global;

/// `delta-start RECIPE BASE PATCH REPORT STEPS`: continues an audit from a save, and keeps the delta against it. Statuses 0, 2, 3, 4, 6 to
/// 13.
pub fn perform<S: Shelf>(alloc: Global, shelf: &mut S, words: &[&str]) -> Result<Answer, Stop>
    ensures { Performs (delta_start_plan (map (λ w. w.now) words.now)) (S.state shelf.old) (S.state shelf.new) result }
{
    let Some(words) = RelativeWords::read(words) else {
        return usage(alloc);
    };
    let recipe = fetch_relative(alloc, shelf, &words)?;
    let (save, inputs) = fetch_save(alloc, shelf, &recipe, &words.base)?;
    let base = save.as_slice();
    match Audit::resume(alloc, recipe, inputs, base) {
        Ok(audit) => go_on(alloc, shelf, audit, Kept::Relative(base), &words.piece),
        Err(refusal) => refuse(alloc, refusal),
    }
}
