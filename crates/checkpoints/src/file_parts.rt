//! A guest's files as lists, and files made from lists of any origin.
//!
//! docs/reference/files.md has the rules for a reader, and specs/FileParts/ the same for the prover.

mod judging;
pub mod laws;
mod parts;
mod restoring;

pub use parts::FileParts;
pub use restoring::{RestoreRefusal, restore};
