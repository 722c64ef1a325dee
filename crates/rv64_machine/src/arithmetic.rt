//! The computations of the table's rows, at 64 and at 32 bits.

ghost use Rattle.std.specs.Prelude.{◌≡◌, ◌%◌, ◌*◌, ◌^◌, ◌<◌, pos};
ghost use Rattle.paged_mem.specs.Ram.{count_of};
ghost use Rattle.rv64_machine.specs.Meaning.{even, less};
ghost use Rattle.rv64_decode.specs.Fields.{signed};
ghost use Rattle.rv64_machine.specs.Arithmetic.{difference, flag, floored, high_product, low_word, product, quotient, quotient_unsigned, remainder, remainder_unsigned, shifted_left, shifted_right, shifted_right_signed, sign_extended, sum, wrapped};

use paged_mem::Width;

/// The low 32 bits.
pub fn low_word(a: u64) -> u32
    ensures { result ≡ low_word a }
{
    (a & 0xFFFF_FFFF) as u32
}

/// A word sign-extended to 64 bits.
pub fn extended(n: u32) -> u64
    ensures { result ≡ sign_extended 32 n }
{
    i64::from(n.cast_signed()).cast_unsigned()
}

/// The 64 bits of an immediate.
pub fn pattern(imm: i64) -> u64
    ensures { result ≡ wrapped 64 imm }
{
    imm.cast_unsigned()
}

/// 1 if the test holds, otherwise 0.
pub fn flag(test: bool) -> u64
    ensures { result ≡ flag test }
{
    if test { 1 } else { 0 }
}

/// The address with bit 0 cleared.
pub fn even(a: u64) -> u64
    ensures { result ≡ even a }
{
    a - a % 2
}

/// Whether a is less than b, both signed.
pub fn is_less(a: u64, b: u64) -> bool
    ensures { result ≡ less a b }
{
    a.cast_signed() < b.cast_signed()
}

/// The sum modulo 2^64.
pub fn sum(a: u64, b: u64) -> u64
    ensures { result ≡ sum 64 a b }
{
    a.wrapping_add(b)
}

/// The sum modulo 2^32.
pub fn sum_word(a: u32, b: u32) -> u32
    ensures { result ≡ sum 32 a b }
{
    a.wrapping_add(b)
}

/// The difference modulo 2^64.
pub fn difference(a: u64, b: u64) -> u64
    ensures { result ≡ difference 64 a b }
{
    a.wrapping_sub(b)
}

/// The difference modulo 2^32.
pub fn difference_word(a: u32, b: u32) -> u32
    ensures { result ≡ difference 32 a b }
{
    a.wrapping_sub(b)
}

/// a shifted left by the low six bits of b.
pub fn shifted_left(a: u64, b: u64) -> u64
    ensures { result ≡ shifted_left 64 a (b % 64) }
{
    a.wrapping_shl((b % 64) as u32)
}

/// a shifted left by the low five bits of b.
pub fn shifted_left_word(a: u32, b: u64) -> u32
    ensures { result ≡ shifted_left 32 a (b % 32) }
{
    a.wrapping_shl((b % 32) as u32)
}

/// a shifted right by the low six bits of b, filled with zeros.
pub fn shifted_right(a: u64, b: u64) -> u64
    ensures { result ≡ shifted_right a (b % 64) }
{
    a >> (b % 64)
}

/// a shifted right by the low five bits of b, filled with zeros.
pub fn shifted_right_word(a: u32, b: u64) -> u32
    ensures { result ≡ shifted_right a (b % 32) }
{
    a >> (b % 32)
}

/// a shifted right by the low six bits of b, filled with its sign.
pub fn shifted_right_signed(a: u64, b: u64) -> u64
    ensures { result ≡ shifted_right_signed 64 a (b % 64) }
{
    (a.cast_signed() >> (b % 64)).cast_unsigned()
}

/// a shifted right by the low five bits of b, filled with its sign.
pub fn shifted_right_signed_word(a: u32, b: u64) -> u32
    ensures { result ≡ shifted_right_signed 32 a (b % 32) }
{
    (a.cast_signed() >> (b % 32)).cast_unsigned()
}

/// The low 64 bits of the product.
pub fn product(a: u64, b: u64) -> u64
    ensures { result ≡ product 64 a b }
{
    a.wrapping_mul(b)
}

/// The low 32 bits of the product.
pub fn product_word(a: u32, b: u32) -> u32
    ensures { result ≡ product 32 a b }
{
    a.wrapping_mul(b)
}

/// The upper 64 bits of a number of 128 bits.
pub fn high_half(product: i128) -> u64
    ensures { result ≡ wrapped 64 (floored product 64) }
{
    ((product >> 64) as i64).cast_unsigned()
}

/// The upper half of the product of a and b, both signed.
pub fn high_signed(a: u64, b: u64) -> u64
    ensures { result ≡ high_product (signed 64 a) (signed 64 b) }
{
    high_half(i128::from(a.cast_signed()) * i128::from(b.cast_signed()))
}

/// The upper half of the product of a, signed, and b, unsigned.
pub fn high_signed_unsigned(a: u64, b: u64) -> u64
    ensures { result ≡ high_product (signed 64 a) (pos b) }
{
    high_half(i128::from(a.cast_signed()) * i128::from(b))
}

/// The upper half of the product of a and b, both unsigned.
pub fn high_unsigned(a: u64, b: u64) -> u64
    ensures { result ≡ high_product (pos a) (pos b) }
{
    ((u128::from(a) * u128::from(b)) >> 64) as u64
}

/// The signed quotient, rounded toward zero; all ones if b is 0.
pub fn quotient(a: u64, b: u64) -> u64
    ensures { result ≡ quotient 64 a b }
{
    if b == 0 {
        return u64::MAX;
    }
    a.cast_signed()
        .wrapping_div(b.cast_signed())
        .cast_unsigned()
}

/// The signed remainder, with the sign of a; a itself if b is 0.
pub fn remainder(a: u64, b: u64) -> u64
    ensures { result ≡ remainder 64 a b }
{
    if b == 0 {
        return a;
    }
    a.cast_signed()
        .wrapping_rem(b.cast_signed())
        .cast_unsigned()
}

/// The unsigned quotient; all ones if b is 0.
pub fn quotient_unsigned(a: u64, b: u64) -> u64
    ensures { result ≡ quotient_unsigned 64 a b }
{
    if b == 0 { u64::MAX } else { a / b }
}

/// The unsigned remainder; a itself if b is 0.
pub fn remainder_unsigned(a: u64, b: u64) -> u64
    ensures { result ≡ remainder_unsigned a b }
{
    if b == 0 { a } else { a % b }
}

/// The signed quotient of two words, as `quotient`.
pub fn quotient_word(a: u32, b: u32) -> u32
    ensures { result ≡ quotient 32 a b }
{
    if b == 0 {
        return u32::MAX;
    }
    a.cast_signed()
        .wrapping_div(b.cast_signed())
        .cast_unsigned()
}

/// The signed remainder of two words, as `remainder`.
pub fn remainder_word(a: u32, b: u32) -> u32
    ensures { result ≡ remainder 32 a b }
{
    if b == 0 {
        return a;
    }
    a.cast_signed()
        .wrapping_rem(b.cast_signed())
        .cast_unsigned()
}

/// The unsigned quotient of two words, as `quotient_unsigned`.
pub fn quotient_unsigned_word(a: u32, b: u32) -> u32
    ensures { result ≡ quotient_unsigned 32 a b }
{
    if b == 0 { u32::MAX } else { a / b }
}

/// The unsigned remainder of two words, as `remainder_unsigned`.
pub fn remainder_unsigned_word(a: u32, b: u32) -> u32
    ensures { result ≡ remainder_unsigned a b }
{
    if b == 0 { a } else { a % b }
}

/// A number of the width, sign-extended to 64 bits.
pub fn widened(width: Width, n: u64) -> u64
    requires { n < 2 ^ (8 * count_of width) }
    ensures { result ≡ sign_extended (8 * count_of width) n }
{
    match width {
        Width::W1 => extended_byte(n as u8),
        Width::W2 => extended_half(n as u16),
        Width::W4 => extended(n as u32),
        Width::W8 => n,
    }
}

/// A byte sign-extended to 64 bits.
pub fn extended_byte(n: u8) -> u64
    ensures { result ≡ sign_extended 8 n }
{
    i64::from(n.cast_signed()).cast_unsigned()
}

/// A half-word sign-extended to 64 bits.
pub fn extended_half(n: u16) -> u64
    ensures { result ≡ sign_extended 16 n }
{
    i64::from(n.cast_signed()).cast_unsigned()
}
