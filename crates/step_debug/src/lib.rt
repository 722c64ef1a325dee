//! Stepping sessions: a program's run, line by line. Each line is a command (`lines`), and each reply is one line (`replies`).
//!
//! The rules for people: docs/reference/step.md.
#![tactic(auto)]

mod command;
pub mod laws;
mod lines;
mod replies;
mod stepping;

pub use command::SessionCommand;
pub use lines::read_command;
pub use stepping::Session;
