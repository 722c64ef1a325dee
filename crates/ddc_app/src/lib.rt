//! The top call: everything that the program `ddc` does.
#![tactic(auto)]

mod command_word;
mod help;
pub mod laws;
mod top_call;
mod version;

pub use command_plan::Status;
pub use top_call::run;
