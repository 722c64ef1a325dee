//! The dependencies of a stage's artefact, by the lengths and digests in a true report.
//!
//! The rules for people: docs/reference/provenance.md.

pub mod laws;
mod marks;
mod meeting;
mod reported;
mod settling;
mod telling;

pub use marks::mark_named;
pub use meeting::Meeting;
pub use reported::Reported;
pub use settling::{Replayed, is_settled_line};
pub use telling::{Origin, names_source, origin_of};
