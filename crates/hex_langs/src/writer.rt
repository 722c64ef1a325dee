//! Writes items as a text of hex2. The text is read as the same items if they can be written and the text is not too long
//! (`laws::written_is_read_again`).
//!
//! docs/reference/m1.md has the lines.

pub mod laws;
mod writing;

pub use writing::write_items;
