//! The text of a patch: a state, stored as its difference from a base state.
//!
//! The fields are in docs/reference/delta.md for readers, and in specs/PatchText/PatchText.antt for the prover.

mod change;
mod fields;
pub mod laws;
mod mapping;
mod merging;
mod numbered;
mod passing;
mod reading;
mod writing;

pub use change::Change;
pub use mapping::header_of;
pub(crate) use passing::pass_patch;
pub(crate) use reading::patch_of;
pub use reading::read;
pub use writing::put_patch;
