//! Reads hex1 and hex2 sources as items, before they are linked.
//!
//! The rules, with their public sources, are in docs/reference/hex1.md and hex2.md.

mod item;
mod items;
pub mod laws;
mod reader;
mod token;
mod words;

pub use item::{Item, Kind, LabelName};
pub use items::Items;
pub use reader::{HexRefusal, items1, items2};
pub use token::{Dialect, Token, TokenFault, byte_of, gap_length, is_blank, token_at};
pub use words::{Begun, Halt, Open, take, take_byte, take_four};
