//! The report of an audit, and (in `script`) of a script of commands: the type of each, and its unique text.
//!
//! The rules for readers: docs/reference/report.md and docs/reference/kaem-report.md.
#![tactic(auto)]

mod fields;
pub mod laws;
mod line;
mod reading;
mod refusal;
pub mod script;
mod state;
mod types;
mod writing;

pub use reading::read;
pub use refusal::ReportRefusal;
pub use types::{
    CompareLine, CompareLines, Compared, InputLine, InputLines, LeftLine, LeftLines, Mark, Report,
    StageLine, StageLines,
};
pub use writing::write;
