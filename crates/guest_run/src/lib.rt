//! Starts and runs a guest program.
//!
//! The rules, with their public sources, are in docs/reference/running.md.
#![tactic(auto)]

mod borrowed;
mod fitting;
mod given;
mod guest;
pub mod laws;
mod placing;
mod run;
mod run_box;
mod stack;

pub use fitting::fit_together;
pub use guest::{Guest, StartRefusal};
pub use run::RunEnd;
pub use run_box::RunBox;

/// The type of memory in which programs run.
pub type RunRam = paged_mem::PagedRam;
