//! `version`: prints the release of `ddc`, and the logic in which it is proved.

ghost use Rattle.std.specs.Prelude.{◌≡◌, IfOk, map};
ghost use Rattle.command_plan.specs.declared.status.Status.TheVariants.{Yes};
ghost use Rattle.command_plan.specs.Plan.{answers};
ghost use Rattle.command_plan.specs.Steps.{Says};
ghost use Rattle.ddc_app.specs.Version.{version_plan, version_text};

use command_plan::{Answer, Status, Stop, usage};
use ddc_base::{Bytes, OutOfMemory};
use std::alloc::Global;

/// `version`: prints the release and the logic. Statuses 0, 2, 13.
pub fn perform(alloc: Global, words: &[&str]) -> Result<Answer, Stop>
    ensures { Says (version_plan (map (λ w. w.now) words.now)) result }
{
    match words {
        [] => version(alloc),
        _ => usage(alloc),
    }
}

/// The answer with the release and the logic.
fn version(alloc: Global) -> Result<Answer, Stop>
    ensures { Says (answers Yes version_text) result }
{
    Ok(Answer {
        status: Status::Yes,
        text: text_of(alloc)?,
    })
}

/// The two lines of the release and the logic.
fn text_of(alloc: Global) -> Result<Bytes, OutOfMemory>
    ensures { IfOk result (λ text. text ≡ version_text) }
{
    Bytes::from_slice(alloc, b"ddc 1.0\nrattle logic dac8208d650f15bf\n")
}
