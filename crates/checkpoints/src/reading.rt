//! Reads a guest from its text.

ghost use Rattle.std.specs.Prelude.{◌≡◌, ◌<◌, ◌^◌, Err, IfOk, IsOk};
ghost use Rattle.guest_run.specs.State.{GuestState};
ghost use Rattle.guest_run.specs.Valid.{IsValid};
ghost use Rattle.save_format.specs.StateText.Encoded.{IsTextOfState};
ghost use Rattle.save_format.specs.StateText.StateText.{parsed_state};
ghost use Rattle.checkpoints.specs.Checkpoint.{IsReadAs, ReadsState, state_of, state_refusal_number};

use crate::file_parts::RestoreRefusal;
use crate::restoring::{guest_of, may_be_made};
use guest_run::Guest;
use paged_mem::Ram;
use save_format::state_text::{TextRefusal, header_of, read};
use std::alloc::Global;

/// Why a text is not a guest. Its form is checked first, then counts and ranges, then references.
#[derive(Clone, Copy, Debug, PartialEq, Eq)]
pub enum StateRefusal {
    /// The field that begins at this offset is the first wrong one.
    Form(u64),
    /// A count or a range is not that of a guest.
    Range,
    /// A descriptor's file is missing, or a file has neither a name nor a descriptor.
    FileRef,
    OutOfMemory,
}

impl StateRefusal {
    /// The number of the refusal, from 1.
    pub fn number(&self) -> u8
        ensures { result ≡ state_refusal_number self.now }
    {
        match self {
            StateRefusal::Form(_) => 1,
            StateRefusal::Range => 2,
            StateRefusal::FileRef => 3,
            StateRefusal::OutOfMemory => 4,
        }
    }
}

/// Parses a guest's state (either format).
pub fn read_state<R: Ram>(alloc: Global, text: &[u8]) -> Result<Guest<R>, StateRefusal>
    // The result has this text.
    ensures found { IfOk result (λ guest. IsTextOfState (state_of guest) text.now) }
    // Each text of a valid state is read as the guest in that state, unless memory runs out.
    ensures only { (g : GuestState) → IsValid g → g.steps < 2 ^ 64 → IsTextOfState (state_of g) text.now → IsReadAs g result }
    // When each refusal occurs.
    ensures exact { ReadsState text.now result }
{
    judged(alloc, text)
}

/// Why a text of the right form is not a guest, after memory ran out for the lists of its parts.
fn wanting(text: &[u8]) -> StateRefusal
    requires { IsOk (parsed_state text.now) }
    ensures { ReadsState text.now (Err result) }
{
    let header = header_of(text);
    if may_be_made(&header) {
        StateRefusal::OutOfMemory
    } else {
        StateRefusal::Range
    }
}

fn judged<R: Ram>(alloc: Global, text: &[u8]) -> Result<Guest<R>, StateRefusal>
    ensures { ReadsState text.now result }
{
    let parts = match read(alloc, text) {
        Ok(parts) => parts,
        Err(TextRefusal::Form(offset)) => return Err(StateRefusal::Form(offset)),
        Err(TextRefusal::OutOfMemory) => return Err(wanting(text)),
    };
    match guest_of(alloc, &parts) {
        Ok(guest) => Ok(guest),
        Err(RestoreRefusal::Range) => Err(StateRefusal::Range),
        Err(RestoreRefusal::FileRef) => Err(StateRefusal::FileRef),
        Err(RestoreRefusal::OutOfMemory) => Err(StateRefusal::OutOfMemory),
    }
}
