//! The commands of an audit. `audit` runs it whole; `part` and `resume` run segments of it; `delta_start` and `delta_resume` save only what
//! differs from a save. `show` prints a report, and `demo` has a built-in recipe.
//!
//! Their rules for people: docs/reference/command-line.md.
#![tactic(auto)]

pub mod audit;
pub mod delta_resume;
pub mod delta_start;
pub mod demo;
mod fetching;
mod generated;
mod going;
pub mod laws;
pub mod part;
pub mod pause_texts;
pub mod resume;
pub mod show;
mod words;
