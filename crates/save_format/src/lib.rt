//! The text of a save: an audit's checkpoint between two steps, as stored in a file. The modules below are the fields
//! of such texts (`byte_fields`) and the text of a state (`state_text`).
//!
//! The fields are in docs/reference/save.md for readers, and in specs/SaveText.antt for the prover.
#![tactic(auto)]

pub mod byte_fields;
pub mod delta_text;
mod fields;
pub mod laws;
mod mapping;
mod parts;
pub mod patch_text;
mod reading;
pub mod state_text;
mod writing;

pub use fields::digest_of;
pub use mapping::{SaveHeader, header_of, origin_of};
pub use parts::{InputPart, Parts, StagePart};
pub use reading::{MAGIC, read};
pub use writing::put_stage;
