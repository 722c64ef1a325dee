//! The save of an audit in a stage, and the position that a save says.
//!
//! docs/reference/save.md has the rules for a reader, and specs/Save/Saves.antt the same for the prover.

mod judging;
pub mod laws;
mod origin;
mod reading;
mod writing;

pub(crate) use reading::position_of;
pub use reading::{Resumed, SaveRefusal, read};
pub(crate) use writing::put_done;
pub use writing::write;
