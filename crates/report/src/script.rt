//! The report of a script of commands: its type, and its unique text.
//!
//! The rules for readers: docs/reference/kaem-report.md.

pub mod laws;
mod line;
mod reading;
mod state;
mod types;
mod writing;

pub use reading::read;
pub use types::{CommandLine, CommandLines, ScriptReport};
pub use writing::write;
