//! The delta of an audit in a stage against a save, its base; and the position that a base and a delta say.
//!
//! docs/reference/delta.md has the rules for a reader, and specs/Delta/Deltas.antt the same for the prover.

mod base;
pub mod laws;
mod reading;
mod writing;

pub use reading::{DeltaRefusal, read};
pub(crate) use writing::write;
