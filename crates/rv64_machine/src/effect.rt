ghost use Rattle.std.specs.Prelude.{◌≡◌};
ghost use Rattle.rv64_machine.specs.Arithmetic.{wrapped};
ghost use Rattle.rv64_machine.specs.Meaning.{meaning};
ghost use Rattle.rv64_machine.specs.Inside.Computed.{computed, other_effect};

use crate::arithmetic::{
    difference, difference_word, even, extended, flag, high_signed, high_signed_unsigned,
    high_unsigned, is_less, low_word, pattern, product, product_word, quotient, quotient_unsigned,
    quotient_unsigned_word, quotient_word, remainder, remainder_unsigned, remainder_unsigned_word,
    remainder_word, shifted_left, shifted_left_word, shifted_right, shifted_right_signed,
    shifted_right_signed_word, shifted_right_word, sum, sum_word,
};
use paged_mem::Width;
use rv64_table::Op;

/// The effect of an instruction on its hart.
#[derive(Clone, Copy)]
pub enum Effect {
    /// rd is set to the value.
    Put(u64),
    /// rd is set to the address of the next instruction, and the hart continues at the target.
    Jump(u64),
    /// If the test holds, the hart continues at the target.
    Branch(bool, u64),
    /// rd is set to the number at the address, zero-extended.
    Load(Width, u64),
    /// rd is set to the number at the address, sign-extended.
    LoadSigned(Width, u64),
    /// The low bytes of the value are written at the address.
    Store {
        width: Width,
        at: u64,
        value: u64,
    },
    /// No effect but the next instruction.
    Next,
    /// Calls the system.
    Call,
    /// Stops the hart.
    Break,
    /// rd is set to the number at the address, sign-extended, and its bytes are reserved.
    LoadReserved(Width, u64),
    /// If these bytes are reserved, the low bytes of the value are written there and rd is set to 0; otherwise rd is
    /// set to 1. The reservation ends.
    StoreConditional {
        width: Width,
        at: u64,
        value: u64,
    },
    /// rd is set to the number at the address, sign-extended. The operation's result on that number and the value is written there.
    Amo {
        operation: AmoOperation,
        width: Width,
        at: u64,
        value: u64,
    },
}

/// How an atomic memory operation combines the number in memory with the value of rs2.
#[derive(Clone, Copy)]
pub enum AmoOperation {
    Swap,
    Add,
    Xor,
    And,
    Or,
    Min,
    Max,
    MinUnsigned,
    MaxUnsigned,
}

/// The effect of a row, from the values of rs1 and rs2, the immediate and the pc. There is one line for each row, as in
/// `specs/Meaning.antt`.
#[inline(always)]
pub fn effect_of(op: Op, a: u64, b: u64, imm: i64, pc: u64) -> Effect
    ensures { result ≡ meaning op a b (wrapped 64 imm) pc }
{
    let i = pattern(imm);
    match op {
        Op::Lui => Effect::Put(i),
        Op::Auipc => Effect::Put(sum(pc, i)),
        Op::Jal => Effect::Jump(sum(pc, i)),
        Op::Jalr => Effect::Jump(even(sum(a, i))),
        Op::Beq => Effect::Branch(a == b, sum(pc, i)),
        Op::Bne => Effect::Branch(a != b, sum(pc, i)),
        Op::Blt => Effect::Branch(is_less(a, b), sum(pc, i)),
        Op::Bge => Effect::Branch(!is_less(a, b), sum(pc, i)),
        Op::Bltu => Effect::Branch(a < b, sum(pc, i)),
        Op::Bgeu => Effect::Branch(a >= b, sum(pc, i)),
        Op::Lb => Effect::LoadSigned(Width::W1, sum(a, i)),
        Op::Lh => Effect::LoadSigned(Width::W2, sum(a, i)),
        Op::Lw => Effect::LoadSigned(Width::W4, sum(a, i)),
        Op::Ld => Effect::Load(Width::W8, sum(a, i)),
        Op::Lbu => Effect::Load(Width::W1, sum(a, i)),
        Op::Lhu => Effect::Load(Width::W2, sum(a, i)),
        Op::Lwu => Effect::Load(Width::W4, sum(a, i)),
        Op::Sb => store(Width::W1, sum(a, i), b),
        Op::Sh => store(Width::W2, sum(a, i), b),
        Op::Sw => store(Width::W4, sum(a, i), b),
        Op::Sd => store(Width::W8, sum(a, i), b),
        Op::Fence => Effect::Next,
        Op::Ecall => Effect::Call,
        Op::Ebreak => Effect::Break,
        _ => other_effect_of(op, a, b, i),
    }
}

/// The effect of a row that uses neither the pc nor an immediate offset: the atomic rows, and the rows that compute a value.
#[inline(always)]
fn other_effect_of(op: Op, a: u64, b: u64, i: u64) -> Effect
    ensures { result ≡ other_effect op a b i }
{
    match op {
        Op::Lrw => Effect::LoadReserved(Width::W4, a),
        Op::Scw => store_conditional(Width::W4, a, b),
        Op::Amoswapw => amo(AmoOperation::Swap, Width::W4, a, b),
        Op::Amoaddw => amo(AmoOperation::Add, Width::W4, a, b),
        Op::Amoxorw => amo(AmoOperation::Xor, Width::W4, a, b),
        Op::Amoandw => amo(AmoOperation::And, Width::W4, a, b),
        Op::Amoorw => amo(AmoOperation::Or, Width::W4, a, b),
        Op::Amominw => amo(AmoOperation::Min, Width::W4, a, b),
        Op::Amomaxw => amo(AmoOperation::Max, Width::W4, a, b),
        Op::Amominuw => amo(AmoOperation::MinUnsigned, Width::W4, a, b),
        Op::Amomaxuw => amo(AmoOperation::MaxUnsigned, Width::W4, a, b),
        Op::Lrd => Effect::LoadReserved(Width::W8, a),
        Op::Scd => store_conditional(Width::W8, a, b),
        Op::Amoswapd => amo(AmoOperation::Swap, Width::W8, a, b),
        Op::Amoaddd => amo(AmoOperation::Add, Width::W8, a, b),
        Op::Amoxord => amo(AmoOperation::Xor, Width::W8, a, b),
        Op::Amoandd => amo(AmoOperation::And, Width::W8, a, b),
        Op::Amoord => amo(AmoOperation::Or, Width::W8, a, b),
        Op::Amomind => amo(AmoOperation::Min, Width::W8, a, b),
        Op::Amomaxd => amo(AmoOperation::Max, Width::W8, a, b),
        Op::Amominud => amo(AmoOperation::MinUnsigned, Width::W8, a, b),
        Op::Amomaxud => amo(AmoOperation::MaxUnsigned, Width::W8, a, b),
        _ => Effect::Put(value_of(op, a, b, i)),
    }
}

/// The effect of a store.
#[inline(always)]
fn store(width: Width, at: u64, value: u64) -> Effect
    ensures { result ≡ Effect.Store width at value }
{
    Effect::Store { width, at, value }
}

/// The effect of a store-conditional.
#[inline(always)]
fn store_conditional(width: Width, at: u64, value: u64) -> Effect
    ensures { result ≡ Effect.StoreConditional width at value }
{
    Effect::StoreConditional { width, at, value }
}

/// The effect of an atomic memory operation.
#[inline(always)]
fn amo(operation: AmoOperation, width: Width, at: u64, value: u64) -> Effect
    ensures { result ≡ Effect.Amo operation width at value }
{
    Effect::Amo {
        operation,
        width,
        at,
        value,
    }
}

/// The value that a row computes from rs1 and rs2 or the immediate; 0 for a row that computes none from these. There is
/// one line for each such row.
#[inline(always)]
fn value_of(op: Op, a: u64, b: u64, i: u64) -> u64
    ensures { result ≡ computed op a b i }
{
    match op {
        Op::Addi => sum(a, i),
        Op::Slti => flag(is_less(a, i)),
        Op::Sltiu => flag(a < i),
        Op::Xori => a ^ i,
        Op::Ori => a | i,
        Op::Andi => a & i,
        Op::Slli => shifted_left(a, i),
        Op::Srli => shifted_right(a, i),
        Op::Srai => shifted_right_signed(a, i),
        Op::Add => sum(a, b),
        Op::Sub => difference(a, b),
        Op::Sll => shifted_left(a, b),
        Op::Slt => flag(is_less(a, b)),
        Op::Sltu => flag(a < b),
        Op::Xor => a ^ b,
        Op::Srl => shifted_right(a, b),
        Op::Sra => shifted_right_signed(a, b),
        Op::Or => a | b,
        Op::And => a & b,
        Op::Addiw => extended(sum_word(low_word(a), low_word(i))),
        Op::Slliw => extended(shifted_left_word(low_word(a), i)),
        Op::Srliw => extended(shifted_right_word(low_word(a), i)),
        Op::Sraiw => extended(shifted_right_signed_word(low_word(a), i)),
        Op::Addw => extended(sum_word(low_word(a), low_word(b))),
        Op::Subw => extended(difference_word(low_word(a), low_word(b))),
        Op::Sllw => extended(shifted_left_word(low_word(a), b)),
        Op::Srlw => extended(shifted_right_word(low_word(a), b)),
        Op::Sraw => extended(shifted_right_signed_word(low_word(a), b)),
        Op::Mul => product(a, b),
        Op::Mulh => high_signed(a, b),
        Op::Mulhsu => high_signed_unsigned(a, b),
        Op::Mulhu => high_unsigned(a, b),
        Op::Div => quotient(a, b),
        Op::Divu => quotient_unsigned(a, b),
        Op::Rem => remainder(a, b),
        Op::Remu => remainder_unsigned(a, b),
        Op::Mulw => extended(product_word(low_word(a), low_word(b))),
        Op::Divw => extended(quotient_word(low_word(a), low_word(b))),
        Op::Divuw => extended(quotient_unsigned_word(low_word(a), low_word(b))),
        Op::Remw => extended(remainder_word(low_word(a), low_word(b))),
        Op::Remuw => extended(remainder_unsigned_word(low_word(a), low_word(b))),
        _ => 0,
    }
}
