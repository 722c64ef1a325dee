//! The assumptions that are left: of several audits, where an earlier one discharges assumptions of a later one, and of one artefact
//! (`rests`).
//!
//! The rules for people: docs/reference/chain.md, docs/reference/rests.md.
#![tactic(auto)]

mod giving;
pub mod laws;
mod link;
pub mod origin;
mod remaining_lines;
pub mod rests;

pub use link::{ChainLine, ChainLines, ChainLinks, Link};
pub use remaining_lines::remaining;
