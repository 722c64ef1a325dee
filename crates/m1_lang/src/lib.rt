//! M1: the items of hex2 that a source expands to. Module `words` has the meaning of single words.
//!
//! The rules, with their public source, are in docs/reference/m1.md.
#![tactic(auto)]

mod definitions;
mod expansion;
pub mod laws;
mod refusal;
mod taking;
pub mod words;

pub use expansion::expand;
pub use hex_langs::writer::write_items;
pub use refusal::M1Refusal;
