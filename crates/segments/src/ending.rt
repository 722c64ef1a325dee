//! The check of the last text.

ghost use Rattle.segments.specs.Ending.{EndChecks};
ghost use Rattle.segments.specs.Segments.{IsStateOf};

use crate::answers::StateFault;
use crate::reading::{Unread, guest_of};
use guest_run::{Guest, RunEnd, RunRam};
use std::alloc::Global;

/// The answer of a check of a last text.
#[derive(Drop)]
pub enum EndAnswer {
    /// The guest before the end of its run, and the end: an exit, a trap or an unknown call.
    Ended(Guest<RunRam>, RunEnd),
    NotState(StateFault),
    /// The run does not end at a step up to the limit.
    Over,
    OutOfMemory,
}

/// Finds how the run from a text's state ends, at a step up to `limit` (included), counted from the program's start.
pub fn check_end(alloc: Global, last: &[u8], limit: u64) -> EndAnswer
    ensures { EndChecks last.now limit result }
{
    match guest_of(alloc, last) {
        Ok(guest) => run_on(guest, last, limit),
        Err(Unread::Fault(why)) => EndAnswer::NotState(why),
        Err(Unread::OutOfMemory) => EndAnswer::OutOfMemory,
    }
}

fn run_on(guest: Guest<RunRam>, last: &[u8], limit: u64) -> EndAnswer
    requires { IsStateOf last.now guest }
    ensures { EndChecks last.now limit result }
{
    let mut guest = guest;
    let first = guest.steps();
    if limit <= first {
        return EndAnswer::Over;
    }
    let end = guest.run(limit - first);
    match end {
        RunEnd::Exited(_) => EndAnswer::Ended(guest, end),
        RunEnd::Trapped(_) => EndAnswer::Ended(guest, end),
        RunEnd::UnknownCall(_) => EndAnswer::Ended(guest, end),
        RunEnd::Spent => EndAnswer::Over,
        RunEnd::OutOfMemory => EndAnswer::OutOfMemory,
    }
}
