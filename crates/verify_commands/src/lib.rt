//! The commands that judge a report, judge several reports one after another, and print where a stage's artefact comes from.
//!
//! The rules for people are in docs/reference/command-line.md. docs/reference/verify.md has what a replay judges; docs/reference/rests.md
//! and docs/reference/provenance.md have the dependencies of an artefact.
#![tactic(auto)]

pub mod chain;
mod chain_texts;
mod explanation;
pub mod laws;
mod pair;
mod provenance_texts;
pub mod rests;
pub mod texts;
pub mod verify;

pub use explanation::Explanation;
