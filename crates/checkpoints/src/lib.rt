//! Guests as texts, and back. A guest between two steps is written as one text and read from it unchanged. Module `memory_parts` has its
//! memory, and `file_parts` has its files.
//!
//! docs/reference/save.md has the rules for a reader, and specs/Checkpoint.antt the same for the prover.
#![tactic(auto)]

pub mod file_parts;
pub mod laws;
mod memory;
pub mod memory_parts;
mod patching;
mod reading;
mod restoring;
mod writing;

pub use crate::file_parts::RestoreRefusal;
pub use patching::{
    apply_patch, guest_relative, known_of, patched_guest_of, put_patch_of, write_patch,
};
pub use reading::{StateRefusal, read_state};
pub use restoring::{guest_of, header_in, may_be_made};
pub use writing::{put_state, write_state};
