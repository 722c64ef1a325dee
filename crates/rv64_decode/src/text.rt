//! The printed text of an instruction.

ghost use Rattle.std.specs.Prelude.{◌≡◌, ◌+◌, ◌≤◌, ◌++◌, length};
ghost use Rattle.std.specs.Fmt.{signed_decimal};
ghost use Rattle.rv64_decode.specs.Text as spec;

use crate::Inst;
use arrayvec::ArrayVec;
use itoa::Buffer;
use rv64_table::{Form, Op};
use std::marker::Model;

/// The text of one instruction: at most 48 bytes of ASCII, without a line end.
#[derive(Drop)]
pub struct InstText {
    bytes: ArrayVec<u8, 48>,
}

impl Model for InstText {
    ghost use Rattle.std.specs.Prelude.{ℕ, List, ◌≤◌, length};

    ghost Value = { List ℕ };

    ghost view = { λ text. text.bytes.items };

    ghost invariant = { λ text. length text.bytes.items ≤ 48 };
}

impl InstText {
    ghost use Rattle.std.specs.Prelude.{[]};

    /// The bytes of the text.
    pub fn as_slice(&self) -> &[u8]
        ensures bytes { result.now ≡ self.now }
        ensures short { length result.now ≤ 48 }
    {
        self.bytes.as_slice()
    }

    fn empty() -> InstText
        ensures { result ≡ [] }
    {
        InstText {
            bytes: ArrayVec::new(),
        }
    }

    fn push(&mut self, bytes: &[u8])
        requires { length self.old + length bytes.now ≤ 48 }
        ensures { self.new ≡ self.old ++ bytes.now }
    {
        self.bytes.try_extend_from_slice(bytes).unwrap();
    }

    fn push_register(&mut self, before: &[u8], number: u8)
        requires { length self.old + length before.now ≤ 44 }
        ensures text { self.new ≡ self.old ++ before.now ++ spec.register number }
        ensures capacity { length self.new ≤ length self.old + length before.now + 4 }
    {
        let mut digits = Buffer::new();
        self.push(before);
        self.push(b"x");
        self.push(digits.format(number).as_bytes());
    }

    fn push_signed(&mut self, before: &[u8], number: i64)
        requires { length self.old + length before.now ≤ 28 }
        ensures text { self.new ≡ self.old ++ before.now ++ signed_decimal number }
        ensures capacity { length self.new ≤ length self.old + length before.now + 20 }
    {
        let mut digits = Buffer::new();
        self.push(before);
        self.push(digits.format(number).as_bytes());
    }

    fn push_hex(&mut self, before: &[u8], number: u64, count: u32)
        requires few { count ≤ 16 }
        requires capacity { length self.old + length before.now + count ≤ 48 }
        ensures text { self.new ≡ self.old ++ before.now ++ spec.hex_digits count number }
        ensures capacity { length self.new ≡ length self.old + length before.now + count }
    {
        self.push(before);
        for i in 0..count {
            let digit = (number >> (4 * (count - 1 - i))) & 0xF;
            self.push(&[hex_digit(digit as u8)]);
        }
    }

    fn push_operands(&mut self, form: Form, inst: &Inst, pc: u64)
        requires named { self.old ≡ spec.name inst.now.op }
        requires short { length self.old ≤ 9 }
        ensures { self.new ≡ spec.form_text form inst.now pc }
    {
        match form {
            Form::R => self.push_registers(inst),
            Form::I => self.push_form_i(inst),
            Form::H => self.push_immediate(inst),
            Form::K => self.push_immediate(inst),
            Form::S => self.push_memory(inst, inst.rs2),
            Form::B => self.push_branch(inst, pc),
            Form::U => self.push_upper(inst),
            Form::J => self.push_jump(inst, pc),
            Form::E => {}
            Form::L => self.push_load_reserved(inst),
            Form::A => self.push_atomic(inst),
        }
    }

    fn push_registers(&mut self, inst: &Inst)
        requires named { self.old ≡ spec.name inst.now.op }
        requires short { length self.old ≤ 9 }
        ensures { self.new ≡ spec.registers_text inst.now }
    {
        self.push_register(b" ", inst.rd);
        self.push_register(b", ", inst.rs1);
        self.push_register(b", ", inst.rs2);
    }

    fn push_immediate(&mut self, inst: &Inst)
        requires named { self.old ≡ spec.name inst.now.op }
        requires short { length self.old ≤ 9 }
        ensures { self.new ≡ spec.immediate_text inst.now }
    {
        self.push_register(b" ", inst.rd);
        self.push_register(b", ", inst.rs1);
        self.push_signed(b", ", inst.imm);
    }

    fn push_memory(&mut self, inst: &Inst, value: u8)
        requires named { self.old ≡ spec.name inst.now.op }
        requires short { length self.old ≤ 9 }
        ensures { self.new ≡ spec.memory_text inst.now value }
    {
        self.push_register(b" ", value);
        self.push_signed(b", ", inst.imm);
        self.push_register(b"(", inst.rs1);
        self.push(b")");
    }

    fn push_form_i(&mut self, inst: &Inst)
        requires named { self.old ≡ spec.name inst.now.op }
        requires short { length self.old ≤ 9 }
        ensures { self.new ≡ spec.form_i_text inst.now.op inst.now }
    {
        match inst.op {
            Op::Jalr => self.push_memory(inst, inst.rd),
            Op::Lb => self.push_memory(inst, inst.rd),
            Op::Lh => self.push_memory(inst, inst.rd),
            Op::Lw => self.push_memory(inst, inst.rd),
            Op::Ld => self.push_memory(inst, inst.rd),
            Op::Lbu => self.push_memory(inst, inst.rd),
            Op::Lhu => self.push_memory(inst, inst.rd),
            Op::Lwu => self.push_memory(inst, inst.rd),
            Op::Fence => {}
            _ => self.push_immediate(inst),
        }
    }

    /// Appends the order of accesses and the destination register.
    fn push_ordered(&mut self, inst: &Inst)
        requires named { self.old ≡ spec.name inst.now.op }
        requires short { length self.old ≤ 9 }
        ensures text { self.new ≡ spec.ordered_text inst.now }
        ensures capacity { length self.new ≤ 19 }
    {
        self.push(order_suffix(inst.imm.cast_unsigned()).as_bytes());
        self.push_register(b" ", inst.rd);
    }

    fn push_load_reserved(&mut self, inst: &Inst)
        requires named { self.old ≡ spec.name inst.now.op }
        requires short { length self.old ≤ 9 }
        ensures { self.new ≡ spec.load_reserved_text inst.now }
    {
        self.push_ordered(inst);
        self.push_register(b", (", inst.rs1);
        self.push(b")");
    }

    fn push_atomic(&mut self, inst: &Inst)
        requires named { self.old ≡ spec.name inst.now.op }
        requires short { length self.old ≤ 9 }
        ensures { self.new ≡ spec.atomic_text inst.now }
    {
        self.push_ordered(inst);
        self.push_register(b", ", inst.rs2);
        self.push_register(b", (", inst.rs1);
        self.push(b")");
    }

    fn push_branch(&mut self, inst: &Inst, pc: u64)
        requires named { self.old ≡ spec.name inst.now.op }
        requires short { length self.old ≤ 9 }
        ensures { self.new ≡ spec.branch_text inst.now pc }
    {
        self.push_register(b" ", inst.rs1);
        self.push_register(b", ", inst.rs2);
        self.push_hex(b", ", target(pc, inst.imm), 16);
    }

    fn push_upper(&mut self, inst: &Inst)
        requires named { self.old ≡ spec.name inst.now.op }
        requires short { length self.old ≤ 9 }
        ensures { self.new ≡ spec.upper_text inst.now }
    {
        self.push_register(b" ", inst.rd);
        self.push_hex(b", ", inst.imm.cast_unsigned() >> 12 & 0xF_FFFF, 5);
    }

    fn push_jump(&mut self, inst: &Inst, pc: u64)
        requires named { self.old ≡ spec.name inst.now.op }
        requires short { length self.old ≤ 9 }
        ensures { self.new ≡ spec.jump_text inst.now pc }
    {
        self.push_register(b" ", inst.rd);
        self.push_hex(b", ", target(pc, inst.imm), 16);
    }
}

/// The text of an instruction at the address `pc`.
pub fn print(inst: &Inst, pc: u64) -> InstText
    ensures { result ≡ spec.text inst.now pc }
{
    let mut text = InstText::empty();
    text.push(name(inst.op).as_bytes());
    text.push_operands(inst.op.row().form, inst, pc);
    text
}

/// The target of a jump or a branch at `pc`.
fn target(pc: u64, imm: i64) -> u64
    ensures { result ≡ spec.target pc imm }
{
    pc.wrapping_add(imm.cast_unsigned())
}

/// The order of accesses, as a suffix of the name.
fn order_suffix(bits: u64) -> &'static str
    ensures text { result.now ≡ spec.order_suffix bits }
    ensures capacity { length result.now ≤ 5 }
{
    match bits {
        1 => ".rl",
        2 => ".aq",
        3 => ".aqrl",
        _ => "",
    }
}

fn hex_digit(digit: u8) -> u8
    requires { digit ≤ 15 }
    ensures { result ≡ spec.hex_digit digit }
{
    if digit < 10 {
        b'0' + digit
    } else {
        b'a' + (digit - 10)
    }
}

macro_rules! names {
    ($op:expr; $($variant:ident $name:literal)*) => {
        match $op { $(Op::$variant => $name),* }
    };
}

fn name(op: Op) -> &'static str
    ensures text { result.now ≡ spec.name op }
    ensures capacity { length result.now ≤ 9 }
{
    names! { op;
        Lui "lui" Auipc "auipc" Jal "jal" Jalr "jalr" Beq "beq" Bne "bne" Blt "blt" Bge "bge"
        Bltu "bltu" Bgeu "bgeu" Lb "lb" Lh "lh" Lw "lw" Ld "ld" Lbu "lbu" Lhu "lhu" Lwu "lwu"
        Sb "sb" Sh "sh" Sw "sw" Sd "sd" Addi "addi" Slti "slti" Sltiu "sltiu" Xori "xori"
        Ori "ori" Andi "andi" Slli "slli" Srli "srli" Srai "srai" Add "add" Sub "sub" Sll "sll"
        Slt "slt" Sltu "sltu" Xor "xor" Srl "srl" Sra "sra" Or "or" And "and" Fence "fence"
        Ecall "ecall" Ebreak "ebreak" Addiw "addiw" Slliw "slliw" Srliw "srliw" Sraiw "sraiw"
        Addw "addw" Subw "subw" Sllw "sllw" Srlw "srlw" Sraw "sraw" Mul "mul" Mulh "mulh"
        Mulhsu "mulhsu" Mulhu "mulhu" Div "div" Divu "divu" Rem "rem" Remu "remu" Mulw "mulw"
        Divw "divw" Divuw "divuw" Remw "remw" Remuw "remuw"
        Lrw "lr.w" Scw "sc.w" Amoswapw "amoswap.w" Amoaddw "amoadd.w" Amoxorw "amoxor.w"
        Amoandw "amoand.w" Amoorw "amoor.w" Amominw "amomin.w" Amomaxw "amomax.w"
        Amominuw "amominu.w" Amomaxuw "amomaxu.w" Lrd "lr.d" Scd "sc.d" Amoswapd "amoswap.d"
        Amoaddd "amoadd.d" Amoxord "amoxor.d" Amoandd "amoand.d" Amoord "amoor.d" Amomind "amomin.d"
        Amomaxd "amomax.d" Amominud "amominu.d" Amomaxud "amomaxu.d"
    }
}
