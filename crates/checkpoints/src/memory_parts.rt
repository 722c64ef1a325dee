//! A guest's memory as runs of mapped pages and the pages that are not all zeros, and back.
//!
//! docs/reference/save.md says for a reader what a state's text lists of a memory, and specs/MemoryParts/Canonical.antt the same for the prover.

pub mod laws;
mod listing;
mod making;

pub use listing::{pages, runs};
pub use making::{are_mapped, fill_pages, map_runs};
