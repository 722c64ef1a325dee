//! The audit's check of an artefact against its source, in each language that ddc defines.

mod checking;
mod items;

pub use checking::check;
