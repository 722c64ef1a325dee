//! Standard input line by line (`Prompt`): one in memory, one from a reader, and the session that answers each line with one segment.
//!
//! The rules for readers: docs/reference/outside.md.
#![tactic(auto)]

mod asking;
mod conversation;
mod memory;
mod reading;

pub use asking::{Asked, Failed, Line, Prompt};
pub use conversation::{Respond, converse};
pub use memory::MemPrompt;
pub use reading::{ReaderPrompt, read_line};
