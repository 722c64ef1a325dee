//! The text of a delta: an audit's checkpoint, stored as its difference from a base save.
//!
//! The fields are in docs/reference/delta.md for readers, and in specs/DeltaText/DeltaText.antt for the prover.

pub mod laws;
mod parts;
mod passing;
mod reading;
mod stages;

pub use parts::DeltaParts;
pub use passing::names_other_base;
pub use reading::{MAGIC, read};
pub use stages::is_same_stage;
