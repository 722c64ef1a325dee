//! The words of an M1 source and their meaning.
//!
//! The rules, with their public source, are in docs/reference/m1.md.

mod meaning;
mod numbers;
mod splitting;
mod value;

pub use meaning::{WordFault, WordMeaning, meaning_of};
pub use splitting::{Ahead, next_word};
pub use value::Value;
