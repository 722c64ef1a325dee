//! The replay of a report, which trusts nothing in it, and what its verdict shows under every meaning of sources (`conclusion`).
//!
//! Its rules for people: docs/reference/verify.md. It shares no code with the crate that runs an audit. Both are proved against the
//! definitions of `audit_rules` and use the layers below (docs/ARCHITECTURE.md).
#![tactic(auto)]

mod checking;
pub mod conclusion;
mod context;
mod header;
mod held;
mod judging;
pub mod laws;
mod left;
mod part;
mod replay;
mod stop;

pub use judging::verify;
pub use part::{Part, Verdict};
