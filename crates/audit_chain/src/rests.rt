//! The dependencies of a stage's artefact: the texts that people read, and the assumptions about programs.
//!
//! The rules for people: docs/reference/rests.md.

mod basis_part;
pub mod laws;
pub(crate) mod resting;
pub(crate) mod walking;

pub use basis_part::{BasisPart, BasisParts};
pub use resting::{Basis, basis_of};
