//! What an audit is: the contents, execution contexts (`Setting`) and texts of its stages, its definition (`bench`), its report and its
//! positions; and the check of an artefact against its source (`source_check`).
//!
//! Its rules for people: docs/reference/audit.md. The crates that run an audit or judge its report have code of their own, proved equal to
//! these definitions.
#![tactic(auto)]

mod answer;
mod cause;
mod comparison;
pub mod laws;
pub mod source_check;

pub use answer::{AuditAnswer, Finished, StageFault};
pub use cause::{RunCause, StartCause};
pub use comparison::all_equal;
