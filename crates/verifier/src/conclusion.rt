//! The verifier's verdict with what it shows: Wheeler's argument in both directions, from the verifier's own yes.
//!
//! Its rules for people: docs/reference/argument.md.

mod concluding;
pub mod laws;

pub use concluding::verify;
