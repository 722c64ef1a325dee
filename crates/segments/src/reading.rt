//! Reads texts of states.

ghost use Rattle.std.specs.Prelude.{Ok};
ghost use Rattle.segments.specs.Inside.Recorded.{ReadBy, RecordedBy};

use crate::answers::StateFault;
use checkpoints::{StateRefusal, read_state, write_state};
use ddc_base::{Bytes, OutOfMemory};
use guest_run::{Guest, RunRam};
use std::alloc::Global;

/// Why a text was not read.
#[derive(Clone, Copy)]
pub(crate) enum Unread {
    Fault(StateFault),
    OutOfMemory,
}

/// What is kept of a state that was read: its steps, and its text in format 2.
#[derive(Drop)]
pub(crate) struct Recorded {
    pub(crate) steps: u64,
    pub(crate) text: Bytes,
}

/// Reads the guest of a text.
pub(crate) fn guest_of(alloc: Global, text: &[u8]) -> Result<Guest<RunRam>, Unread>
    ensures { ReadBy text.now result }
{
    match read_state::<RunRam>(alloc, text) {
        Ok(guest) => Ok(guest),
        Err(StateRefusal::Form(offset)) => Err(Unread::Fault(StateFault::Form(offset))),
        Err(StateRefusal::Range) => Err(Unread::Fault(StateFault::Range)),
        Err(StateRefusal::FileRef) => Err(Unread::Fault(StateFault::FileRef)),
        Err(StateRefusal::OutOfMemory) => Err(Unread::OutOfMemory),
    }
}

/// Reads a text and keeps the steps and the text of its state.
pub(crate) fn recorded_by(alloc: Global, text: &[u8]) -> Result<Recorded, Unread>
    ensures { RecordedBy text.now result }
{
    match guest_of(alloc, text) {
        Ok(guest) => tell(alloc, &guest, text),
        Err(why) => Err(why),
    }
}

fn tell(alloc: Global, guest: &Guest<RunRam>, text: &[u8]) -> Result<Recorded, Unread>
    requires { ReadBy text.now (Ok guest.now) }
    ensures { RecordedBy text.now result }
{
    let steps = guest.steps();
    match write_state(alloc, guest) {
        Ok(own) => Ok(Recorded { steps, text: own }),
        Err(OutOfMemory) => Err(Unread::OutOfMemory),
    }
}
