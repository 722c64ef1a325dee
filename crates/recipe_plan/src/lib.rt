//! What commands on a recipe share: loading the recipe, its inputs and a report, and the rule that other files are not inputs. Also the
//! lines that several commands print about these and about a stage that is not done.
//!
//! Its rules for people: docs/reference/command-line.md and docs/reference/audit.md.
#![tactic(auto)]

pub mod causes;
mod inputs;
mod not_done;
mod recipes;
mod reports;
pub mod texts;
mod words;

pub use inputs::{Supplied, fetch_inputs, fetch_inputs_within};
pub use not_done::{about_stage, run_failed, stage_name, unfinished};
pub use recipes::{apart, fetch_recipe, fetch_recipe_after, read_recipe};
pub use reports::{compared_status, fetch_report, fetch_report_after};
pub use words::AuditWords;
