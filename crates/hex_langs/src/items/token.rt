//! Tokens of hex1 and hex2.

ghost use Rattle.hex.specs.Hex.{hex_digit_value, is_hex_digit};
ghost use Rattle.hex_langs.specs.Items.Tokens.{is_blank, gap_length, name_length, pair_at, field_at, named_by, sign_token, rel_at, token_at, ends_name, opens_gap, byte_of, byte_at, second_name, pad_at, one_byte, IsPair};
ghost use Rattle.hex_langs.specs.Hex0.{begins_comment};
ghost use Rattle.std.specs.List.{position_or_len};
ghost use Rattle.hex_langs.specs.declared.items.token.Dialect.TheVariants.{Hex2};
ghost use Rattle.std.specs.Prelude.{◌≡◌, ℕ, List, ◌<◌, ◌≤◌, ◌+◌, ◌-◌, length, IfOk, IfSome, Some, None, drop, true};

use crate::items::item::{Item, Kind, LabelName};

/// The language of a source.
#[derive(Clone, Copy)]
pub enum Dialect {
    Hex1,
    Hex2,
}

/// Why no token begins at an offset.
#[derive(Clone, Copy)]
pub enum TokenFault {
    OddDigits,
    BadField,
}

/// A token.
#[derive(Drop)]
pub enum Token<'s> {
    Byte(u8),
    Field(u32),
    Reference(Kind, LabelName<'s>),
    Alone(Item<'s>),
}

pub fn opens_gap(byte: u8) -> bool
    ensures { result ≡ opens_gap byte }
{
    matches!(byte, b' ' | b'\t' | b'\n' | b'\r' | b'#' | b';')
}

pub fn is_blank(byte: u8) -> bool
    ensures { result ≡ is_blank byte }
{
    matches!(byte, b' ' | b'\t' | b'\n' | b'\r')
}

fn begins_comment(byte: u8) -> bool
    ensures { result ≡ begins_comment byte }
{
    matches!(byte, b'#' | b';')
}

/// The number of bytes of the blanks and comments at the front.
pub fn gap_length(source: &[u8]) -> usize
    ensures value { result ≡ gap_length source.now }
    ensures within { result ≤ length source.now }
{
    let mut in_comment = false;
    for (index, byte) in source.iter().enumerate() {
        if in_comment {
            in_comment = *byte != b'\n';
        } else if begins_comment(*byte) {
            in_comment = true;
        } else if !is_blank(*byte) {
            return index;
        }
    }
    source.len()
}

fn ends_name(byte: u8) -> bool
    ensures { result ≡ ends_name byte }
{
    matches!(byte, b' ' | b'\t' | b'\n' | b'\r' | b'>')
}

/// The number of bytes of the name at the front; 0 if there is no name.
#[tactic(auto, unfolding(crate::specs::Items::Tokens::name_length))]
fn name_length(dialect: Dialect, rest: &[u8]) -> usize
    ensures value { result ≡ name_length dialect rest.now }
    ensures within { result ≤ length rest.now }
{
    match dialect {
        Dialect::Hex1 => one_byte(rest),
        Dialect::Hex2 => until_end(rest),
    }
}

fn one_byte(rest: &[u8]) -> usize
    ensures value { result ≡ one_byte rest.now }
    ensures within { result ≤ length rest.now }
{
    match rest {
        [] => 0,
        [byte, ..] => usize::from(!is_blank(*byte)),
    }
}

fn until_end(rest: &[u8]) -> usize
    ensures value { result ≡ position_or_len ends_name rest.now }
    ensures within { result ≤ length rest.now }
{
    for (index, byte) in rest.iter().enumerate() {
        if ends_name(*byte) {
            return index;
        }
    }
    rest.len()
}

/// The value of a hexadecimal digit of either case; `None` for every other byte.
fn digit_value(byte: u8) -> Option<u8>
    ensures value { result ≡ hex_digit_value byte }
    ensures small { IfSome result (λ value. value < 16) }
{
    match byte {
        b'0'..=b'9' => Some(byte - b'0'),
        b'a'..=b'f' => Some(byte - b'a' + 10),
        b'A'..=b'F' => Some(byte - b'A' + 10),
        _ => None,
    }
}

/// The byte of two hexadecimal digits, the high one first; `None` if one of the two is not a digit.
pub fn byte_of(high: u8, low: u8) -> Option<u8>
    ensures { result ≡ byte_of (hex_digit_value high) (hex_digit_value low) }
{
    match (digit_value(high), digit_value(low)) {
        (Some(high), Some(low)) => Some(16 * high + low),
        _ => None,
    }
}

/// The byte of a digit and the next one after blanks and comments, and the number of bytes it takes after the first digit.
#[tactic(auto, unfolding(crate::specs::Items::Tokens::pair_at))]
pub(crate) fn pair_at(digit: u8, rest: &[u8]) -> Result<(u8, usize), TokenFault>
    ensures value { IsPair result (pair_at digit rest.now) }
    ensures within { IfOk result (λ found. found.1 ≤ length rest.now) }
{
    let gap = gap_length(rest);
    match rest[gap..].first() {
        None => Err(TokenFault::OddDigits),
        Some(low) => match byte_of(digit, *low) {
            None => Err(TokenFault::OddDigits),
            Some(value) => Ok((value, gap + 1)),
        },
    }
}

/// The token of a byte that `pair_at` found.
fn byte_token<'s>(pair: Result<(u8, usize), TokenFault>) -> Result<(Token<'s>, usize), TokenFault>
    ensures { IsPair pair result }
{
    let (value, more) = pair?;
    Ok((Token::Byte(value), more))
}

/// The byte of the digits at an index and after it.
fn byte_at(rest: &[u8], index: usize) -> Option<u8>
    requires { index + 1 < length rest.now }
    ensures { result ≡ byte_at rest.now index }
{
    byte_of(rest[index], rest[index + 1])
}

/// The field after `.`: 8 digits that follow at once.
#[tactic(auto, unfolding(crate::specs::Items::Tokens::field_at))]
fn field_at<'s>(rest: &'s [u8]) -> Result<(Token<'s>, usize), TokenFault>
    ensures value { result ≡ field_at rest.now }
    ensures within { IfOk result (λ found. found.1 ≤ length rest.now) }
{
    if rest.len() < 8 {
        return Err(TokenFault::BadField);
    }
    match (
        byte_at(rest, 0),
        byte_at(rest, 2),
        byte_at(rest, 4),
        byte_at(rest, 6),
    ) {
        (Some(a), Some(b), Some(c), Some(d)) => {
            Ok((Token::Field(u32::from_le_bytes([a, b, c, d])), 8))
        }
        _ => Err(TokenFault::BadField),
    }
}

/// What a sign makes of the name after it.
#[derive(Clone, Copy)]
enum Sign {
    Label,
    Absolute,
    Reference(Kind),
}

/// The token of a sign and a name.
fn signed<'s>(sign: Sign, name: LabelName<'s>) -> Token<'s>
    ensures { result ≡ sign_token sign name.entry }
{
    match sign {
        Sign::Label => Token::Alone(Item::Label(name)),
        Sign::Absolute => Token::Alone(Item::Abs(name)),
        Sign::Reference(kind) => Token::Reference(kind, name),
    }
}

/// The token of a sign and the name that follows at once.
fn named<'s>(dialect: Dialect, sign: Sign, rest: &'s [u8]) -> Result<(Token<'s>, usize), TokenFault>
    ensures value { result ≡ named_by (sign_token sign) (name_length dialect rest.now) rest.now }
    ensures within { IfOk result (λ found. found.1 ≤ length rest.now) }
{
    let size = name_length(dialect, rest);
    if size == 0 {
        return Err(TokenFault::BadField);
    }
    Ok((signed(sign, LabelName::new(&rest[..size])), size))
}

/// The token after `%`: a name and, in hex2, optionally `>` and a second name.
fn relative<'s>(dialect: Dialect, rest: &'s [u8]) -> Result<(Token<'s>, usize), TokenFault>
    ensures value { result ≡ rel_at dialect rest.now }
    ensures within { IfOk result (λ found. found.1 ≤ length rest.now) }
{
    let size = name_length(dialect, rest);
    if size == 0 {
        return Err(TokenFault::BadField);
    }
    match dialect {
        Dialect::Hex1 => Ok((Token::Alone(Item::Rel(LabelName::new(&rest[..size]))), size)),
        Dialect::Hex2 => {
            if size < rest.len() && rest[size] == b'>' {
                gap_after(size, rest)
            } else {
                Ok((Token::Alone(Item::Rel(LabelName::new(&rest[..size]))), size))
            }
        }
    }
}

/// The token of two names: the second follows the first one's `>`.
fn gap_after<'s>(size: usize, rest: &'s [u8]) -> Result<(Token<'s>, usize), TokenFault>
    requires { size < length rest.now }
    ensures value { result ≡ second_name size (name_length Hex2 (drop (size + 1) rest.now)) rest.now }
    ensures within { IfOk result (λ found. found.1 ≤ length rest.now) }
{
    let second = &rest[size + 1..];
    let more = name_length(Dialect::Hex2, second);
    if more == 0 {
        return Err(TokenFault::BadField);
    }
    let gap = Item::Gap(
        LabelName::new(&rest[..size]),
        LabelName::new(&second[..more]),
    );
    Ok((Token::Alone(gap), size + 1 + more))
}

/// The token that begins with a byte, and the number of bytes it takes after that byte.
#[tactic(auto, unfolding(crate::specs::Items::Tokens::token_at))]
pub fn token_at<'s>(
    dialect: Dialect,
    byte: u8,
    rest: &'s [u8],
) -> Result<(Token<'s>, usize), TokenFault>
    ensures value { result ≡ token_at dialect byte rest.now }
    ensures within { IfOk result (λ found. found.1 ≤ length rest.now) }
{
    match byte {
        b'0'..=b'9' | b'a'..=b'f' | b'A'..=b'F' => byte_token(pair_at(byte, rest)),
        b'.' => field_at(rest),
        b':' => named(dialect, Sign::Label, rest),
        b'!' => named(dialect, Sign::Reference(Kind::I), rest),
        b'@' => named(dialect, Sign::Reference(Kind::B), rest),
        b'$' => named(dialect, Sign::Reference(Kind::J), rest),
        b'~' => named(dialect, Sign::Reference(Kind::U), rest),
        b'&' => named(dialect, Sign::Absolute, rest),
        b'%' => relative(dialect, rest),
        _ => pad_at(dialect, byte),
    }
}

/// The token of `<`, which hex1 lacks.
fn pad_at<'s>(dialect: Dialect, byte: u8) -> Result<(Token<'s>, usize), TokenFault>
    ensures value { (rest : List ℕ) → result ≡ pad_at dialect byte rest }
    ensures within { IfOk result (λ found. found.1 ≡ 0) }
{
    match (dialect, byte) {
        (Dialect::Hex2, b'<') => Ok((Token::Alone(Item::Pad), 0)),
        _ => Err(TokenFault::BadField),
    }
}

/// Whether a byte is a hexadecimal digit.
pub(crate) fn is_digit(byte: u8) -> bool
    ensures { result ≡ is_hex_digit byte }
{
    digit_value(byte).is_some()
}
