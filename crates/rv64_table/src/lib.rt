//! The instructions of RV64I, M and A, as one table of 87 rows, and the row that a word belongs to.
//!
//! The public source is The RISC-V Instruction Set Manual, Volume I (Unprivileged ISA): the chapters
//! "RV32I", "RV64I", "M" and "A" and the chapter "RV32/64G Instruction Set Listings".
#![tactic(auto)]

ghost use Rattle.std.specs.Prelude.{◌≡◌};
ghost use Rattle.rv64_table.specs.Table.{table};

pub mod laws;
mod lookup;

pub use lookup::{row_at_once, row_of};

/// The shape of an instruction word: which of its bits are fixed, and which fields the others hold.
#[derive(Clone, Copy, PartialEq, Eq)]
pub enum Form {
    /// Two source registers and a destination.
    R,
    /// One source register, a destination and a signed immediate of 12 bits.
    I,
    /// As I, but the immediate is a shift by 6 bits, and funct6 is fixed.
    H,
    /// As I, but the immediate is a shift by 5 bits, and funct7 is fixed.
    K,
    /// Two source registers and a signed immediate of 12 bits.
    S,
    /// As S, but the immediate is a branch offset of 13 bits, which is even.
    B,
    /// A destination and the upper 20 bits of an immediate of 32 bits.
    U,
    /// A destination and a jump offset of 21 bits, which is even.
    J,
    /// No fields: every bit is fixed.
    E,
    /// As A, but without a second source register. This is the form of load-reserved.
    L,
    /// As R, but funct7 consists of funct5 and the two bits for the order of accesses, which are the immediate.
    A,
}

/// The operations, named after the standard's mnemonics, in the order of the table.
#[derive(Clone, Copy, PartialEq, Eq)]
pub enum Op {
    Lui,
    Auipc,
    Jal,
    Jalr,
    Beq,
    Bne,
    Blt,
    Bge,
    Bltu,
    Bgeu,
    Lb,
    Lh,
    Lw,
    Ld,
    Lbu,
    Lhu,
    Lwu,
    Sb,
    Sh,
    Sw,
    Sd,
    Addi,
    Slti,
    Sltiu,
    Xori,
    Ori,
    Andi,
    Slli,
    Srli,
    Srai,
    Add,
    Sub,
    Sll,
    Slt,
    Sltu,
    Xor,
    Srl,
    Sra,
    Or,
    And,
    Fence,
    Ecall,
    Ebreak,
    Addiw,
    Slliw,
    Srliw,
    Sraiw,
    Addw,
    Subw,
    Sllw,
    Srlw,
    Sraw,
    Mul,
    Mulh,
    Mulhsu,
    Mulhu,
    Div,
    Divu,
    Rem,
    Remu,
    Mulw,
    Divw,
    Divuw,
    Remw,
    Remuw,
    Lrw,
    Scw,
    Amoswapw,
    Amoaddw,
    Amoxorw,
    Amoandw,
    Amoorw,
    Amominw,
    Amomaxw,
    Amominuw,
    Amomaxuw,
    Lrd,
    Scd,
    Amoswapd,
    Amoaddd,
    Amoxord,
    Amoandd,
    Amoord,
    Amomind,
    Amomaxd,
    Amominud,
    Amomaxud,
}

macro_rules! forms {
    ($op:expr; $($form:ident: $($variant:ident)*;)*) => {
        match $op { $($(Op::$variant => Form::$form),*),* }
    };
}

impl Op {
    ghost use Rattle.std.specs.Prelude.{Some, option_map};
    ghost use Rattle.rv64_table.specs.Table.{op_number, row_with};

    /// The form of this operation's row. It is a match on the operation, so a decoder that has found the operation reads no table.
    #[tactic(auto, unfolding(crate::specs::Table::table))]
    pub fn form(self) -> Form
        ensures { option_map (λ r. r.form) (row_with self) ≡ Some result }
    {
        forms! { self;
            R: Add Sub Sll Slt Sltu Xor Srl Sra Or And Addw Subw Sllw Srlw Sraw Mul Mulh Mulhsu
                Mulhu Div Divu Rem Remu Mulw Divw Divuw Remw Remuw;
            I: Jalr Lb Lh Lw Ld Lbu Lhu Lwu Addi Slti Sltiu Xori Ori Andi Fence Addiw;
            H: Slli Srli Srai;
            K: Slliw Srliw Sraiw;
            S: Sb Sh Sw Sd;
            B: Beq Bne Blt Bge Bltu Bgeu;
            U: Lui Auipc;
            J: Jal;
            E: Ecall Ebreak;
            L: Lrw Lrd;
            A: Scw Amoswapw Amoaddw Amoxorw Amoandw Amoorw Amominw Amomaxw Amominuw Amomaxuw Scd
                Amoswapd Amoaddd Amoxord Amoandd Amoord Amomind Amomaxd Amominud Amomaxud;
        }
    }

    /// The number of this operation: the index of its row in the table, from 0.
    pub fn number(self) -> usize
        ensures { result ≡ op_number self }
    {
        self as usize
    }

    /// The row of this operation.
    pub fn row(self) -> Row
        ensures table { row_with self ≡ Some result }
        ensures op { result.op ≡ self }
    {
        let rows = listed();
        rows[self.number()]
    }
}

/// A row of the table. The words with `word & mask == want` are those of the operation `op`.
#[derive(Clone, Copy, PartialEq, Eq)]
pub struct Row {
    /// The bits that the operation fixes.
    pub mask: u32,
    /// The values of those bits.
    pub want: u32,
    /// The fields that the other bits hold.
    pub form: Form,
    /// The operation.
    pub op: Op,
}

macro_rules! table {
    ($($form:ident $mask:literal $want:literal $op:ident)*) => {
        [$(Row { mask: $mask, want: $want, form: Form::$form, op: Op::$op }),*]
    };
}

/// The table, with each row's mask and value as bits of the word.
static ROWS: [Row; 87] = table! {
    U 0x0000_007F 0x0000_0037 Lui
    U 0x0000_007F 0x0000_0017 Auipc
    J 0x0000_007F 0x0000_006F Jal
    I 0x0000_707F 0x0000_0067 Jalr
    B 0x0000_707F 0x0000_0063 Beq
    B 0x0000_707F 0x0000_1063 Bne
    B 0x0000_707F 0x0000_4063 Blt
    B 0x0000_707F 0x0000_5063 Bge
    B 0x0000_707F 0x0000_6063 Bltu
    B 0x0000_707F 0x0000_7063 Bgeu
    I 0x0000_707F 0x0000_0003 Lb
    I 0x0000_707F 0x0000_1003 Lh
    I 0x0000_707F 0x0000_2003 Lw
    I 0x0000_707F 0x0000_3003 Ld
    I 0x0000_707F 0x0000_4003 Lbu
    I 0x0000_707F 0x0000_5003 Lhu
    I 0x0000_707F 0x0000_6003 Lwu
    S 0x0000_707F 0x0000_0023 Sb
    S 0x0000_707F 0x0000_1023 Sh
    S 0x0000_707F 0x0000_2023 Sw
    S 0x0000_707F 0x0000_3023 Sd
    I 0x0000_707F 0x0000_0013 Addi
    I 0x0000_707F 0x0000_2013 Slti
    I 0x0000_707F 0x0000_3013 Sltiu
    I 0x0000_707F 0x0000_4013 Xori
    I 0x0000_707F 0x0000_6013 Ori
    I 0x0000_707F 0x0000_7013 Andi
    H 0xFC00_707F 0x0000_1013 Slli
    H 0xFC00_707F 0x0000_5013 Srli
    H 0xFC00_707F 0x4000_5013 Srai
    R 0xFE00_707F 0x0000_0033 Add
    R 0xFE00_707F 0x4000_0033 Sub
    R 0xFE00_707F 0x0000_1033 Sll
    R 0xFE00_707F 0x0000_2033 Slt
    R 0xFE00_707F 0x0000_3033 Sltu
    R 0xFE00_707F 0x0000_4033 Xor
    R 0xFE00_707F 0x0000_5033 Srl
    R 0xFE00_707F 0x4000_5033 Sra
    R 0xFE00_707F 0x0000_6033 Or
    R 0xFE00_707F 0x0000_7033 And
    I 0x0000_707F 0x0000_000F Fence
    E 0xFFFF_FFFF 0x0000_0073 Ecall
    E 0xFFFF_FFFF 0x0010_0073 Ebreak
    I 0x0000_707F 0x0000_001B Addiw
    K 0xFE00_707F 0x0000_101B Slliw
    K 0xFE00_707F 0x0000_501B Srliw
    K 0xFE00_707F 0x4000_501B Sraiw
    R 0xFE00_707F 0x0000_003B Addw
    R 0xFE00_707F 0x4000_003B Subw
    R 0xFE00_707F 0x0000_103B Sllw
    R 0xFE00_707F 0x0000_503B Srlw
    R 0xFE00_707F 0x4000_503B Sraw
    R 0xFE00_707F 0x0200_0033 Mul
    R 0xFE00_707F 0x0200_1033 Mulh
    R 0xFE00_707F 0x0200_2033 Mulhsu
    R 0xFE00_707F 0x0200_3033 Mulhu
    R 0xFE00_707F 0x0200_4033 Div
    R 0xFE00_707F 0x0200_5033 Divu
    R 0xFE00_707F 0x0200_6033 Rem
    R 0xFE00_707F 0x0200_7033 Remu
    R 0xFE00_707F 0x0200_003B Mulw
    R 0xFE00_707F 0x0200_403B Divw
    R 0xFE00_707F 0x0200_503B Divuw
    R 0xFE00_707F 0x0200_603B Remw
    R 0xFE00_707F 0x0200_703B Remuw
    L 0xF9F0_707F 0x1000_202F Lrw
    A 0xF800_707F 0x1800_202F Scw
    A 0xF800_707F 0x0800_202F Amoswapw
    A 0xF800_707F 0x0000_202F Amoaddw
    A 0xF800_707F 0x2000_202F Amoxorw
    A 0xF800_707F 0x6000_202F Amoandw
    A 0xF800_707F 0x4000_202F Amoorw
    A 0xF800_707F 0x8000_202F Amominw
    A 0xF800_707F 0xA000_202F Amomaxw
    A 0xF800_707F 0xC000_202F Amominuw
    A 0xF800_707F 0xE000_202F Amomaxuw
    L 0xF9F0_707F 0x1000_302F Lrd
    A 0xF800_707F 0x1800_302F Scd
    A 0xF800_707F 0x0800_302F Amoswapd
    A 0xF800_707F 0x0000_302F Amoaddd
    A 0xF800_707F 0x2000_302F Amoxord
    A 0xF800_707F 0x6000_302F Amoandd
    A 0xF800_707F 0x4000_302F Amoord
    A 0xF800_707F 0x8000_302F Amomind
    A 0xF800_707F 0xA000_302F Amomaxd
    A 0xF800_707F 0xC000_302F Amominud
    A 0xF800_707F 0xE000_302F Amomaxud
};

#[tactic(auto, unfolding(crate::specs::Table::table))]
fn listed() -> &'static [Row; 87]
    ensures { result.now ≡ table }
{
    &ROWS
}

/// The table, row by row in the standard's order.
pub fn rows() -> [Row; 87]
    ensures { result ≡ table }
{
    *listed()
}
