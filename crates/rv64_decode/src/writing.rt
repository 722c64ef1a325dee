//! The word of an instruction.

ghost use Rattle.std.specs.Prelude.{if◌then◌else◌, ◌≡◌, ◌+◌, ◌%◌, ◌^◌, ◌<◌, ◌&&◌, ℕ, Some, IsTrue, nat_lt, int_le, int_lt};
ghost use Rattle.std.specs.Int.{w64, cast_unsigned};
ghost use Rattle.rv64_decode.specs.Decode.{decoded};
ghost use Rattle.rv64_decode.specs.Encode as encoding;

use crate::Inst;
use crate::field::bits;
use rv64_table::Form;

/// The word of an instruction whose fields are valid in its operation's form (`Inst::is_encodable`). It is the only
/// word that `decode` maps to the instruction.
pub fn encode(inst: &Inst) -> u32
    requires { IsTrue (encoding.is_encodable inst.now) }
    ensures decodes { decoded result ≡ Some inst.now }
    ensures only { (word : ℕ) → word < 2 ^ 32 → decoded word ≡ Some inst.now → result ≡ word }
{
    let row = inst.op.row();
    joined(row.want, inst, immediate_bits(row.form, inst))
}

/// A row's required bits, an instruction's registers in their bit positions, and the placed immediate.
fn joined(want: u32, inst: &Inst, immediate: u32) -> u32
    requires { encoding.joined_fields want inst.now immediate < 2 ^ 32 }
    ensures { result ≡ encoding.joined_fields want inst.now immediate }
{
    want + (u32::from(inst.rd) << 7)
        + (u32::from(inst.rs1) << 15)
        + (u32::from(inst.rs2) << 20)
        + immediate
}

/// The bits of an instruction's immediate in the positions that a form gives them.
fn immediate_bits(form: Form, inst: &Inst) -> u32
    ensures { result ≡ encoding.immediate_bits form (cast_unsigned w64 inst.now.imm % 2 ^ 32) }
{
    let number = (inst.imm.cast_unsigned() & 0xFFFF_FFFF) as u32;
    placed_bits(form, number)
}

/// The bits of a number in the positions that a form gives its immediate.
fn placed_bits(form: Form, number: u32) -> u32
    ensures { result ≡ encoding.immediate_bits form number }
{
    match form {
        Form::R | Form::E => 0,
        Form::I => bits(number, 11, 0) << 20,
        Form::H => bits(number, 5, 0) << 20,
        Form::K => bits(number, 4, 0) << 20,
        Form::L | Form::A => bits(number, 1, 0) << 25,
        Form::S => (bits(number, 11, 5) << 25) + (bits(number, 4, 0) << 7),
        Form::B => placed_branch(number),
        Form::U => bits(number, 31, 12) << 12,
        Form::J => placed_jump(number),
    }
}

fn placed_branch(number: u32) -> u32
    ensures { result ≡ encoding.immediate_bits Form.B number }
{
    (bits(number, 12, 12) << 31)
        + (bits(number, 10, 5) << 25)
        + (bits(number, 4, 1) << 8)
        + (bits(number, 11, 11) << 7)
}

fn placed_jump(number: u32) -> u32
    ensures { result ≡ encoding.immediate_bits Form.J number }
{
    (bits(number, 20, 20) << 31)
        + (bits(number, 10, 1) << 21)
        + (bits(number, 11, 11) << 20)
        + (bits(number, 19, 12) << 12)
}

/// Whether a register is below 32, or is 0 if the form names none.
pub fn fits_register(register: u8, named: bool) -> bool
    ensures { result ≡ nat_lt register (if named then 32 else 1) }
{
    register < if named { 32 } else { 1 }
}

/// Whether a number is an immediate of a form.
pub fn has_immediate(form: Form, number: i64) -> bool
    ensures { result ≡ encoding.has_immediate form number }
{
    match form {
        Form::R | Form::E => is_within(0, 1, number),
        Form::I | Form::S => is_within(-0x800, 0x800, number),
        Form::H => is_within(0, 64, number),
        Form::K => is_within(0, 32, number),
        Form::L | Form::A => is_within(0, 4, number),
        Form::B => is_within(-0x1000, 0x1000, number) && is_multiple(2, number),
        Form::U => is_within(-0x8000_0000, 0x8000_0000, number) && is_multiple(0x1000, number),
        Form::J => is_within(-0x10_0000, 0x10_0000, number) && is_multiple(2, number),
    }
}

fn is_within(low: i64, high: i64, number: i64) -> bool
    ensures { result ≡ (int_le low number && int_lt number high) }
{
    low <= number && number < high
}

fn is_multiple(unit: u64, number: i64) -> bool
    requires { 0 < unit }
    ensures { result ≡ encoding.is_multiple unit number }
{
    number.unsigned_abs() % unit == 0
}
