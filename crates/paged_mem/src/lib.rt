//! The guest's memory: bytes at the mapped addresses, in whole pages of 4,096 bytes below 2^38.
//!
//! Rules and their public sources: docs/reference/memory.md.
#![tactic(auto)]

mod access;
mod entries;
mod flat;
mod gaps;
pub mod laws;
mod mapping;
mod paged;
mod pages;
mod ram;
mod rows;

pub use flat::FlatRam;
pub use paged::PagedRam;
pub use ram::{PageView, Ram, StoreRefusal, Width};

/// The size of a page in bytes.
pub const PAGE: u64 = 4_096;

const PAGE_LEN: usize = PAGE as usize;
