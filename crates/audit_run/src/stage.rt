//! One stage of an audit: its execution context, its start, the end of its run, and the report of all stages.
//!
//! docs/reference/audit.md has the rules.

mod contents;
mod context;
mod done;
mod ending;
mod left;
mod reporting;
mod so_far;
mod sources;

pub use contents::content;
pub use context::{box_of, start_stage};
pub use done::Done;
pub(crate) use ending::exited;
pub use ending::{Exit, made_by};
pub use reporting::report_of;
pub(crate) use so_far::SoFar;
