//! The audit: its stages and the comparison, in as many advances as a caller likes, with saves between them. `stage` is one stage, `check`
//! its check, `save` the saves, and `delta` what differs from a save.
//!
//! docs/reference/audit.md has the rules.
#![tactic(auto)]

mod advance;
mod audit;
mod bench;
pub mod check;
mod conduct;
pub mod delta;
mod earlier;
mod entering;
pub mod laws;
mod phase;
pub mod save;
mod setting;
pub mod stage;
mod stage_run;
mod stretch;

pub use crate::delta::DeltaRefusal;
pub use crate::save::SaveRefusal;
pub use audit::Audit;
pub use bench::run_bench;
pub use earlier::{Unfinished, run_earlier};
pub use phase::Progress;
