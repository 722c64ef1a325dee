//! Wheeler's argument: what sources mean, what is assumed of an audit's programs, and what follows from its report.
//!
//! Its rules for people: docs/reference/argument.md. The conclusions hold for every meaning. A meaning has no code that runs, and the
//! program needs none.
#![tactic(auto)]

mod assembly;
mod assumption;
mod deterministic;
pub mod laws;
mod listing;
mod macro_assembly;
mod meaning;
mod of_meaning;
mod other_languages;
mod routing;
mod semantics;
pub mod semantics_laws;
mod trusted;

pub use assembly::Assembly;
pub use assumption::{Assumption, Assumptions};
pub use deterministic::Deterministic;
pub use listing::{assumptions, assumptions_for, assumptions_with_compared};
pub use macro_assembly::MacroAssembly;
pub use meaning::Meaning;
pub use of_meaning::OfMeaning;
pub use other_languages::{OtherLanguages, WithMachineCode, WithMacroCode};
pub use semantics::Semantics;
