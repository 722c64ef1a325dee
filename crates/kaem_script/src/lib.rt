//! Scripts of commands in one file system.
//!
//! docs/reference/kaem.md has the rules for a reader, and specs/Script.antt and specs/Fold.antt the same for the prover.
#![tactic(auto)]

mod auditing;
mod cause;
mod command;
mod files;
mod fold;
pub mod laws;
mod leaving;
mod marks;
mod present;
mod reading;
mod refusal;
mod replay;
mod script;
mod verdict;
mod verifying;
mod words;

pub use auditing::audit;
pub use cause::CommandCause;
pub use files::FileList;
pub use fold::ScriptStop;
pub use leaving::{CommandLeft, left};
pub use reading::Command;
pub use refusal::{ScriptFault, ScriptRefusal};
pub use script::{Script, read};
pub use verdict::{ScriptPart, ScriptVerdict};
pub use verifying::verify;
