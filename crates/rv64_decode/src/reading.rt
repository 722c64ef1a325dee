//! The instruction of a word.

ghost use Rattle.std.specs.Prelude.{◌≡◌, ◌<◌, IfSome, IsTrue, Some, option_map};
ghost use Rattle.rv64_decode.specs.Decode.{decoded};
ghost use Rattle.rv64_decode.specs.Encode.{is_encodable};
ghost use Rattle.rv64_table.specs.Table.{row_for};

use crate::Inst;
use crate::field::{has_rd, has_rs1, has_rs2, immediate, register};
use rv64_table::{Op, row_of};

/// The instruction of a word; `None` if the word has no row. A field that the form lacks is 0.
#[inline(always)]
pub fn decode(word: u32) -> Option<Inst>
    ensures value { result ≡ decoded word }
    ensures rd { IfSome result (λ inst. inst.rd < 32) }
    ensures rs1 { IfSome result (λ inst. inst.rs1 < 32) }
    ensures rs2 { IfSome result (λ inst. inst.rs2 < 32) }
    ensures encodable { IfSome result (λ inst. IsTrue (is_encodable inst)) }
{
    let op = row_of(word)?;
    Some(decode_as(op, word))
}

/// The instruction of a word whose row is that of `op`. The known operation gives the form, and only its fields are read.
#[inline(always)]
pub fn decode_as(op: Op, word: u32) -> Inst
    requires { option_map (λ row. row.op) (row_for word) ≡ Some op }
    ensures value { decoded word ≡ Some result }
    ensures rd { result.rd < 32 }
    ensures rs1 { result.rs1 < 32 }
    ensures rs2 { result.rs2 < 32 }
    ensures encodable { IsTrue (is_encodable result) }
{
    let form = op.form();
    Inst {
        op,
        rd: register(has_rd(form), word, 11, 7),
        rs1: register(has_rs1(form), word, 19, 15),
        rs2: register(has_rs2(form), word, 24, 20),
        imm: immediate(form, word),
    }
}
