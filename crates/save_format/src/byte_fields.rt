//! Fields of a byte text: read from left to right, and written. A wrong field is reported by how many bytes were left at it.
//!
//! A field is a little-endian number, a byte, a fixed number of bytes, a length and that many bytes, or a list of items.

mod cursor;
mod form;
mod item;
pub mod laws;
mod spelling;

pub use cursor::{Cursor, ReadStop, WrongField};
pub use form::TextForm;
pub(crate) use item::pass_counted;
pub use item::{TextItem, counted, items, put_counted};
pub(crate) use spelling::all_or_none;
pub use spelling::{put_blob16, put_blob32, put_u16, put_u32, put_u64};
