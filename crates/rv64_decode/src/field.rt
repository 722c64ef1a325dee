//! Bit ranges of a word, and the registers and the immediate that a form stores in them.

ghost use Rattle.std.specs.Prelude.{if◌then◌else◌, ◌≡◌, ◌+◌, ◌-◌, ◌*◌, ◌^◌, ◌<◌, ◌≤◌};
ghost use Rattle.rv64_decode.specs.Fields as fields;

use rv64_table::Form;

/// Bits high..low of a word.
pub fn bits(word: u32, high: u32, low: u32) -> u32
    requires order { low ≤ high }
    requires within { high < 32 }
    requires part { high - low < 31 }
    ensures value { result ≡ fields.bits word high low }
    ensures below { result < 2 ^ (high - low + 1) }
{
    let width = high - low + 1;
    (word >> low) & ((1 << width) - 1)
}

/// The register that bits high..low of a word name; 0 if the word names no register there.
pub fn register(named: bool, word: u32, high: u32, low: u32) -> u8
    requires five { high ≡ low + 4 }
    requires within { high < 32 }
    ensures value { result ≡ (if named then fields.bits word high low else 0) }
    ensures below { result < 32 }
{
    if named {
        bits(word, high, low) as u8
    } else {
        0
    }
}

/// The signed value of `width` bits in two's complement.
pub fn signed(width: u32, number: u32) -> i64
    requires some { 0 < width }
    requires within { width ≤ 32 }
    requires below { number < 2 ^ width }
    ensures { result ≡ fields.signed width number }
{
    if number < 1 << (width - 1) {
        i64::from(number)
    } else {
        i64::from(number) - (1 << width)
    }
}

/// Whether words of a form name a destination register.
pub fn has_rd(form: Form) -> bool
    ensures { result ≡ fields.has_rd form }
{
    !matches!(form, Form::S | Form::B | Form::E)
}

/// Whether words of a form name a first source register.
pub fn has_rs1(form: Form) -> bool
    ensures { result ≡ fields.has_rs1 form }
{
    !matches!(form, Form::U | Form::J | Form::E)
}

/// Whether words of a form name a second source register.
pub fn has_rs2(form: Form) -> bool
    ensures { result ≡ fields.has_rs2 form }
{
    matches!(form, Form::R | Form::S | Form::B | Form::A)
}

/// The immediate of a word of a form; 0 if the form has none.
#[inline(always)]
pub fn immediate(form: Form, word: u32) -> i64
    ensures { result ≡ fields.immediate form word }
{
    match form {
        Form::R | Form::E => 0,
        Form::I => upper_twelve(word),
        Form::H => i64::from(bits(word, 25, 20)),
        Form::K => i64::from(bits(word, 24, 20)),
        Form::S => store_offset(word),
        Form::B => branch_offset(word),
        Form::L | Form::A => i64::from(bits(word, 26, 25)),
        Form::U => signed(32, bits(word, 31, 12) << 12),
        Form::J => jump_offset(word),
    }
}

/// The signed value of bits 31..20.
#[inline(always)]
fn upper_twelve(word: u32) -> i64
    ensures { result ≡ fields.signed 12 (fields.bits word 31 20) }
{
    i64::from(word.cast_signed() >> 20)
}

/// The offset of a store: bits 31..25 signed, followed by bits 11..7.
#[inline(always)]
fn store_offset(word: u32) -> i64
    ensures { result ≡ fields.signed 12 (fields.bits word 31 25 * 2 ^ 5 + fields.bits word 11 7) }
{
    i64::from(word.cast_signed() >> 25) * 0x20 + i64::from(bits(word, 11, 7))
}

/// The offset of a branch, whose sign is bit 31.
#[inline(always)]
fn branch_offset(word: u32) -> i64
    ensures { result ≡ fields.signed 13 (fields.branch_offset word) }
{
    let low = (bits(word, 7, 7) << 11) + (bits(word, 30, 25) << 5) + (bits(word, 11, 8) << 1);
    i64::from(word.cast_signed() >> 31) * 0x1000 + i64::from(low)
}

/// The offset of a jump, whose sign is bit 31.
#[inline(always)]
fn jump_offset(word: u32) -> i64
    ensures { result ≡ fields.signed 21 (fields.jump_offset word) }
{
    let low = (bits(word, 19, 12) << 12) + (bits(word, 20, 20) << 11) + (bits(word, 30, 21) << 1);
    i64::from(word.cast_signed() >> 31) * 0x10_0000 + i64::from(low)
}
