//! The commands that take no recipe: `hex0`, `asm` and `where` of the languages, `list` and `run` of the machine, `kaem`, `kaem-verify` and
//! `kaem-left` of scripts.
//!
//! The rules for people are in docs/reference/command-line.md.
#![tactic(auto)]

pub mod asm;
pub mod guest_file;
pub mod hex0;
pub mod kaem;
pub mod kaem_left;
pub mod kaem_verify;
pub mod laws;
pub mod list;
mod listed_file;
mod offsets;
pub mod refusal_offset;
pub mod run;
pub mod run_texts;
mod script_texts;
mod scripts;
mod shown_words;
mod words;
