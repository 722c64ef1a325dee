//! `part RECIPE SAVE REPORT STEPS`: runs the first segment of an audit.

ghost use Rattle.std.specs.Prelude.{map};
ghost use Rattle.command_plan.specs.Performs.{Performs};
ghost use Rattle.audit_commands.specs.Pause.{part_plan};

use crate::fetching::fetch_apart;
use crate::going::{Kept, go_on};
use crate::words::PieceWords;
use audit_run::Audit;
use command_plan::{Answer, Stop, usage};
use ddc_base::Shelf;
use recipe_plan::fetch_inputs;
use std::alloc::Global;

/// `part RECIPE SAVE REPORT STEPS`: runs the first segment of an audit. Statuses 0, 2, 3, 4, 6, 7, 8, 10 to 13.
pub fn perform<S: Shelf>(alloc: Global, shelf: &mut S, words: &[&str]) -> Result<Answer, Stop>
    ensures { Performs (part_plan (map (λ w. w.now) words.now)) (S.state shelf.old) (S.state shelf.new) result }
{
    let Some(words) = PieceWords::read(words) else {
        return usage(alloc);
    };
    let recipe = fetch_apart(alloc, shelf, &words)?;
    let inputs = fetch_inputs(alloc, shelf, &recipe)?;
    let audit = Audit::new(alloc, recipe, inputs);
    go_on(alloc, shelf, audit, Kept::Whole, &words.piece)
}
