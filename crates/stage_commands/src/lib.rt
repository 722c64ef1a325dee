//! The commands on the run of one stage. `step` shows what its program does, and `left` what it left. `cut` saves states along the run,
//! `segment` checks a segment between two of them, and `ends` the start of the first and the end of the last one.
//!
//! The rules for people are in docs/reference/command-line.md, docs/reference/step.md and docs/reference/segments.md.
#![tactic(auto)]

pub mod cut;
mod earlier;
pub mod ends;
mod exits;
pub mod laws;
pub mod left;
mod names;
mod ready;
pub mod segment;
pub mod step;
mod texts;
mod words;
