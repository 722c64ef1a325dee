//! One RV64IMA hart: its registers, its pc, its memory and its reservation, and one step of it.
//!
//! The source of what each instruction does is The RISC-V Instruction Set Manual, Volume I (Unprivileged ISA): "RV32I",
//! "RV64I", "M" and "A".
//! This project chose that a hart stops at a trap, and what the causes hold. The rules are in docs/reference/machine.md.
#![tactic(auto)]

mod answer;
mod arithmetic;
mod atomics;
mod effect;
mod hart;
pub mod laws;

pub use answer::{Cause, Reservation, StepEnd};
pub use hart::Hart;
