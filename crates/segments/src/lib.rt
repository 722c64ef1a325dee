//! Checks a run in segments, each by itself and in any order. A segment is two texts of states, and the run must lead from the first to
//! the second.
//!
//! docs/reference/segments.md has the rules for a reader, and specs/Segments.antt the same for the prover.
#![tactic(auto)]

mod answers;
mod checking;
mod ending;
pub mod laws;
mod reading;

pub use answers::{SegmentAnswer, SegmentFault, StartAnswer, StartFault, StateFault};
pub use checking::{check, check_start};
pub use ending::{EndAnswer, check_end};
