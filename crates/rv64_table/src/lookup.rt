//! Finds the row of a word from its opcode and its fields funct3, funct7 and, for a load-reserved, rs2.

ghost use Rattle.std.specs.Prelude.{◌≡◌, ◌==◌, ℕ, ◌+◌, ◌*◌, ◌/◌, ◌%◌, IfSome, Some, option_map, find};
ghost use Rattle.rv64_table.specs.Table.{matches, row_for, table};
ghost use Rattle.rv64_table.specs.Inside.Lookup.{found_at, pick, rows_of};

use crate::Op;

const OPCODE_LUI: u32 = 0x37;

const OPCODE_AUIPC: u32 = 0x17;

const OPCODE_JAL: u32 = 0x6F;

const OPCODE_JALR: u32 = 0x67;

const OPCODE_BRANCH: u32 = 0x63;

const OPCODE_LOAD: u32 = 0x03;

const OPCODE_STORE: u32 = 0x23;

const OPCODE_OP_IMM: u32 = 0x13;

const OPCODE_OP: u32 = 0x33;

const OPCODE_MISC_MEM: u32 = 0x0F;

const OPCODE_SYSTEM: u32 = 0x73;

const OPCODE_OP_IMM_32: u32 = 0x1B;

const OPCODE_OP_32: u32 = 0x3B;

const OPCODE_AMO: u32 = 0x2F;

/// The operation whose row has these bits (`word & mask == want`); `None` if the word has no row.
#[inline(always)]
pub fn row_of(word: u32) -> Option<Op>
    ensures { result ≡ option_map (λ r. r.op) (row_for word) }
{
    let funct3 = (word >> 12) & 0x7;
    let funct7 = word >> 25;
    match word & 0x7F {
        OPCODE_LUI => Some(Op::Lui),
        OPCODE_AUIPC => Some(Op::Auipc),
        OPCODE_JAL => Some(Op::Jal),
        OPCODE_JALR => jalr(funct3),
        OPCODE_BRANCH => branch(funct3),
        OPCODE_LOAD => load(funct3),
        OPCODE_STORE => store(funct3),
        OPCODE_OP_IMM => op_imm(funct3, funct7),
        OPCODE_OP => op(funct3, funct7),
        OPCODE_MISC_MEM => misc_mem(funct3),
        OPCODE_SYSTEM => system(word),
        OPCODE_OP_IMM_32 => op_imm_32(funct3, funct7),
        OPCODE_OP_32 => op_32(funct3, funct7),
        OPCODE_AMO => atomic(funct3, funct7, (word >> 15) & 0x3FF),
        _ => None,
    }
}

macro_rules! by_key {
    ($key:expr; $($literal:literal $row:expr;)*) => {
        match $key {
            $($literal => $row,)*
            _ => None,
        }
    };
}

/// The operation of a word's row, from a number made of its opcode and funct3. In octal, the number has two digits for
/// bits 6 to 2 of the word and one for funct3.
/// Only the arms that need funct7 read it. `None` does not say that the word has no row: atomic rows are not searched.
#[inline(always)]
#[tactic(auto, unfolding(crate::specs::Table::table))]
fn at_key(key: u32, word: u32) -> Option<Op>
    ensures row { (registers : ℕ) → IfSome result (λ op. found_at key word registers ≡ Some op) }
    ensures fields { IfSome result (λ op. key / 8 == 28 ≡ (key == 224)) }
{
    by_key! { key;
        0o00_0 Some(Op::Lb); 0o00_1 Some(Op::Lh); 0o00_2 Some(Op::Lw); 0o00_3 Some(Op::Ld);
        0o00_4 Some(Op::Lbu); 0o00_5 Some(Op::Lhu); 0o00_6 Some(Op::Lwu);
        0o03_0 Some(Op::Fence);
        0o04_0 Some(Op::Addi); 0o04_1 op_imm(1, word >> 25); 0o04_2 Some(Op::Slti); 0o04_3 Some(Op::Sltiu);
        0o04_4 Some(Op::Xori); 0o04_5 op_imm(5, word >> 25); 0o04_6 Some(Op::Ori); 0o04_7 Some(Op::Andi);
        0o05_0 Some(Op::Auipc); 0o05_1 Some(Op::Auipc); 0o05_2 Some(Op::Auipc); 0o05_3 Some(Op::Auipc);
        0o05_4 Some(Op::Auipc); 0o05_5 Some(Op::Auipc); 0o05_6 Some(Op::Auipc); 0o05_7 Some(Op::Auipc);
        0o06_0 Some(Op::Addiw); 0o06_1 op_imm_32(1, word >> 25); 0o06_5 op_imm_32(5, word >> 25);
        0o10_0 Some(Op::Sb); 0o10_1 Some(Op::Sh); 0o10_2 Some(Op::Sw); 0o10_3 Some(Op::Sd);
        0o14_0 op(0, word >> 25); 0o14_1 op(1, word >> 25); 0o14_2 op(2, word >> 25); 0o14_3 op(3, word >> 25);
        0o14_4 op(4, word >> 25); 0o14_5 op(5, word >> 25); 0o14_6 op(6, word >> 25); 0o14_7 op(7, word >> 25);
        0o15_0 Some(Op::Lui); 0o15_1 Some(Op::Lui); 0o15_2 Some(Op::Lui); 0o15_3 Some(Op::Lui);
        0o15_4 Some(Op::Lui); 0o15_5 Some(Op::Lui); 0o15_6 Some(Op::Lui); 0o15_7 Some(Op::Lui);
        0o16_0 op_32(0, word >> 25); 0o16_1 op_32(1, word >> 25); 0o16_4 op_32(4, word >> 25);
        0o16_5 op_32(5, word >> 25); 0o16_6 op_32(6, word >> 25); 0o16_7 op_32(7, word >> 25);
        0o30_0 Some(Op::Beq); 0o30_1 Some(Op::Bne); 0o30_4 Some(Op::Blt);
        0o30_5 Some(Op::Bge); 0o30_6 Some(Op::Bltu); 0o30_7 Some(Op::Bgeu);
        0o31_0 Some(Op::Jalr);
        0o33_0 Some(Op::Jal); 0o33_1 Some(Op::Jal); 0o33_2 Some(Op::Jal); 0o33_3 Some(Op::Jal);
        0o33_4 Some(Op::Jal); 0o33_5 Some(Op::Jal); 0o33_6 Some(Op::Jal); 0o33_7 Some(Op::Jal);
        0o34_0 system(word);
    }
}

/// The operation of a word's row, found by one jump. `None` does not say that the word has no row: ask `row_of` then. A
/// loop over many words asks this function first.
#[inline(always)]
pub fn row_at_once(word: u32) -> Option<Op>
    ensures { IfSome result (λ op. option_map (λ r. r.op) (row_for word) ≡ Some op) }
{
    if word % 4 != 3 {
        return None;
    }
    at_key(8 * (word / 4 % 32) + word / 0x1000 % 8, word)
}

#[tactic(auto, unfolding(crate::specs::Table::table))]
fn jalr(funct3: u32) -> Option<Op>
    ensures { result ≡ pick (rows_of OPCODE_JALR table) funct3 0 0 }
{
    match funct3 {
        0 => Some(Op::Jalr),
        _ => None,
    }
}

#[tactic(auto, unfolding(crate::specs::Table::table))]
fn branch(funct3: u32) -> Option<Op>
    ensures { result ≡ pick (rows_of OPCODE_BRANCH table) funct3 0 0 }
{
    match funct3 {
        0 => Some(Op::Beq),
        1 => Some(Op::Bne),
        4 => Some(Op::Blt),
        5 => Some(Op::Bge),
        6 => Some(Op::Bltu),
        7 => Some(Op::Bgeu),
        _ => None,
    }
}

#[tactic(auto, unfolding(crate::specs::Table::table))]
fn load(funct3: u32) -> Option<Op>
    ensures { result ≡ pick (rows_of OPCODE_LOAD table) funct3 0 0 }
{
    match funct3 {
        0 => Some(Op::Lb),
        1 => Some(Op::Lh),
        2 => Some(Op::Lw),
        3 => Some(Op::Ld),
        4 => Some(Op::Lbu),
        5 => Some(Op::Lhu),
        6 => Some(Op::Lwu),
        _ => None,
    }
}

#[tactic(auto, unfolding(crate::specs::Table::table))]
fn store(funct3: u32) -> Option<Op>
    ensures { result ≡ pick (rows_of OPCODE_STORE table) funct3 0 0 }
{
    match funct3 {
        0 => Some(Op::Sb),
        1 => Some(Op::Sh),
        2 => Some(Op::Sw),
        3 => Some(Op::Sd),
        _ => None,
    }
}

#[tactic(auto, unfolding(crate::specs::Table::table))]
#[inline(always)]
fn op_imm(funct3: u32, funct7: u32) -> Option<Op>
    ensures { result ≡ pick (rows_of OPCODE_OP_IMM table) funct3 funct7 0 }
{
    match (funct3, funct7 >> 1) {
        (0, _) => Some(Op::Addi),
        (1, 0x00) => Some(Op::Slli),
        (2, _) => Some(Op::Slti),
        (3, _) => Some(Op::Sltiu),
        (4, _) => Some(Op::Xori),
        (5, 0x00) => Some(Op::Srli),
        (5, 0x10) => Some(Op::Srai),
        (6, _) => Some(Op::Ori),
        (7, _) => Some(Op::Andi),
        _ => None,
    }
}

#[tactic(auto, unfolding(crate::specs::Table::table))]
#[inline(always)]
fn op(funct3: u32, funct7: u32) -> Option<Op>
    ensures { result ≡ pick (rows_of OPCODE_OP table) funct3 funct7 0 }
{
    match (funct7, funct3) {
        (0x00, 0) => Some(Op::Add),
        (0x20, 0) => Some(Op::Sub),
        (0x00, 1) => Some(Op::Sll),
        (0x00, 2) => Some(Op::Slt),
        (0x00, 3) => Some(Op::Sltu),
        (0x00, 4) => Some(Op::Xor),
        (0x00, 5) => Some(Op::Srl),
        (0x20, 5) => Some(Op::Sra),
        (0x00, 6) => Some(Op::Or),
        (0x00, 7) => Some(Op::And),
        (0x01, 0) => Some(Op::Mul),
        (0x01, 1) => Some(Op::Mulh),
        (0x01, 2) => Some(Op::Mulhsu),
        (0x01, 3) => Some(Op::Mulhu),
        (0x01, 4) => Some(Op::Div),
        (0x01, 5) => Some(Op::Divu),
        (0x01, 6) => Some(Op::Rem),
        (0x01, 7) => Some(Op::Remu),
        _ => None,
    }
}

#[tactic(auto, unfolding(crate::specs::Table::table))]
fn misc_mem(funct3: u32) -> Option<Op>
    ensures { result ≡ pick (rows_of OPCODE_MISC_MEM table) funct3 0 0 }
{
    match funct3 {
        0 => Some(Op::Fence),
        _ => None,
    }
}

#[tactic(auto, unfolding(crate::specs::Table::table))]
#[inline(always)]
fn op_imm_32(funct3: u32, funct7: u32) -> Option<Op>
    ensures { result ≡ pick (rows_of OPCODE_OP_IMM_32 table) funct3 funct7 0 }
{
    match (funct3, funct7) {
        (0, _) => Some(Op::Addiw),
        (1, 0x00) => Some(Op::Slliw),
        (5, 0x00) => Some(Op::Srliw),
        (5, 0x20) => Some(Op::Sraiw),
        _ => None,
    }
}

#[tactic(auto, unfolding(crate::specs::Table::table))]
#[inline(always)]
fn op_32(funct3: u32, funct7: u32) -> Option<Op>
    ensures { result ≡ pick (rows_of OPCODE_OP_32 table) funct3 funct7 0 }
{
    match (funct7, funct3) {
        (0x00, 0) => Some(Op::Addw),
        (0x20, 0) => Some(Op::Subw),
        (0x00, 1) => Some(Op::Sllw),
        (0x00, 5) => Some(Op::Srlw),
        (0x20, 5) => Some(Op::Sraw),
        (0x01, 0) => Some(Op::Mulw),
        (0x01, 4) => Some(Op::Divw),
        (0x01, 5) => Some(Op::Divuw),
        (0x01, 6) => Some(Op::Remw),
        (0x01, 7) => Some(Op::Remuw),
        _ => None,
    }
}

/// The operation of an atomic row from funct5, the upper five bits of funct7. `registers` holds rs2 above rs1; rs2 is 0
/// in a load-reserved.
#[tactic(auto, unfolding(crate::specs::Table::table))]
fn atomic(funct3: u32, funct7: u32, registers: u32) -> Option<Op>
    ensures { result ≡ pick (rows_of OPCODE_AMO table) funct3 funct7 registers }
{
    match (funct3, funct7 >> 2, registers >> 5) {
        (2, 0x02, 0) => Some(Op::Lrw),
        (2, 0x03, _) => Some(Op::Scw),
        (2, 0x01, _) => Some(Op::Amoswapw),
        (2, 0x00, _) => Some(Op::Amoaddw),
        (2, 0x04, _) => Some(Op::Amoxorw),
        (2, 0x0C, _) => Some(Op::Amoandw),
        (2, 0x08, _) => Some(Op::Amoorw),
        (2, 0x10, _) => Some(Op::Amominw),
        (2, 0x14, _) => Some(Op::Amomaxw),
        (2, 0x18, _) => Some(Op::Amominuw),
        (2, 0x1C, _) => Some(Op::Amomaxuw),
        (3, 0x02, 0) => Some(Op::Lrd),
        (3, 0x03, _) => Some(Op::Scd),
        (3, 0x01, _) => Some(Op::Amoswapd),
        (3, 0x00, _) => Some(Op::Amoaddd),
        (3, 0x04, _) => Some(Op::Amoxord),
        (3, 0x0C, _) => Some(Op::Amoandd),
        (3, 0x08, _) => Some(Op::Amoord),
        (3, 0x10, _) => Some(Op::Amomind),
        (3, 0x14, _) => Some(Op::Amomaxd),
        (3, 0x18, _) => Some(Op::Amominud),
        (3, 0x1C, _) => Some(Op::Amomaxud),
        _ => None,
    }
}

#[tactic(auto, unfolding(crate::specs::Table::table), using(std::proofs::lemmas::Nat::and_mask))]
#[inline(always)]
fn system(word: u32) -> Option<Op>
    ensures { result ≡ option_map (λ r. r.op) (find (λ r. matches r word) (rows_of OPCODE_SYSTEM table)) }
{
    match word {
        0x0000_0073 => Some(Op::Ecall),
        0x0010_0073 => Some(Op::Ebreak),
        _ => None,
    }
}
