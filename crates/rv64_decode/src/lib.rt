//! Converts instruction words of RV64I, M and A to instructions and back, and prints instructions.
//!
//! The public source is The RISC-V Instruction Set Manual, Volume I (Unprivileged ISA): "RV32I Base Integer Instruction
//! Set", the sections "Base Instruction Formats" and "Immediate Encoding Variants", and the chapter "A".
#![tactic(auto)]

mod field;
pub mod laws;
mod reading;
mod text;
mod writing;

use field::{has_rd, has_rs1, has_rs2};
pub use reading::{decode, decode_as};
use rv64_table::Op;
pub use text::{InstText, print};
pub use writing::encode;
use writing::{fits_register, has_immediate};

/// An instruction: its operation and its fields. A field that the operation's form lacks is 0.
#[derive(Clone, Copy)]
pub struct Inst {
    /// The operation.
    pub op: Op,
    /// The destination register, below 32.
    pub rd: u8,
    /// The first source register, below 32.
    pub rs1: u8,
    /// The second source register, below 32.
    pub rs2: u8,
    /// The immediate, sign-extended if its form is signed. In the atomic rows it is the two bits for the order of accesses, aq above rl.
    pub imm: i64,
}

impl Inst {
    ghost use Rattle.std.specs.Prelude.{◌≡◌};
    ghost use Rattle.rv64_decode.specs.Encode as encoding;

    /// Whether the fields are valid in the operation's form. Registers are below 32 if the form has them and 0
    /// otherwise; the immediate is one of the form.
    /// `encode` accepts exactly these instructions, and `decode` returns no others.
    pub fn is_encodable(&self) -> bool
        ensures { result ≡ encoding.is_encodable self.now }
    {
        let form = self.op.row().form;
        fits_register(self.rd, has_rd(form))
            && fits_register(self.rs1, has_rs1(form))
            && fits_register(self.rs2, has_rs2(form))
            && has_immediate(form, self.imm)
    }
}
