//! The text of a state: a guest between two steps, as stored in a file.
//!
//! The fields are in docs/reference/save.md for readers, and in specs/StateText/StateText.antt for the prover. Fields
//! that are well-formed may still describe no state of any guest.

mod items;
pub mod laws;
mod listing;
mod mapping;
mod parts;
mod reading;
mod writing;

pub(crate) use items::{is_zero, name_of};
pub use listing::{descriptors_of, files_of};
pub use mapping::{StateHeader, header_of};
pub(crate) use mapping::{runs_mappable, state_header};
pub(crate) use parts::HeaderNumbers;
pub use parts::{File, NumberedDescriptor, Page, Reserved, Run, StateParts};
pub(crate) use reading::{heap_of, parts_in, pass_state_in, reservation_of};
pub use reading::{TextRefusal, read};
pub use writing::put_parts;
pub(crate) use writing::{put_heap, put_reservation};
