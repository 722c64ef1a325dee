//! Linking: the bytes that the items of a hex1 or hex2 source stand for, and the value of a source in any of the languages.
//!
//! The rules, with their public sources, are in docs/reference/linking.md.

mod joining;
mod labels;
pub mod laws;
mod number;
mod values;

pub use joining::link;
pub use number::{i_field, modulo_word};
pub use values::{HexLanguage, value};
