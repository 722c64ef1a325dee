//! Whether an artefact is what its source stands for, in the four languages that ddc defines; and why it is not.
//!
//! The crates that check have code of their own, proved equal to this definition; only the two smallest tests are shared.

mod cause;
pub mod laws;
mod names;

pub use cause::{CheckCause, HexCause, M1Cause};
pub use names::{same_kind, same_name};
