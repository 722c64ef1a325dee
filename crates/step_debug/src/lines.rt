//! Reading the lines of a session as commands.

ghost use Rattle.std.specs.Prelude.{◌≡◌, ◌==◌, ◌+◌, ◌<◌, ◌^◌, ◌≤◌, IfSome, length, drop, option_map};
ghost use Rattle.std.specs.List.{position};
ghost use Rattle.step_debug.specs.Lines.{as_address, as_count, command_of, cut, digit_of, number_from, ranged, with_digit, worded};

use crate::command::SessionCommand;
use ddc_base::limits::MOST_STEPS;
use ddc_base::read_decimal;

/// The most bytes of memory that a line can request.
const MOST_BYTES: u64 = 64;

/// The command of a line.
pub fn read_command(line: &[u8]) -> SessionCommand
    ensures { result ≡ command_of line.now }
{
    if line == "where".as_bytes() {
        SessionCommand::Where
    } else if line == "go".as_bytes() {
        SessionCommand::Go
    } else if line == "regs".as_bytes() {
        SessionCommand::Regs
    } else if line == "quit".as_bytes() {
        SessionCommand::Quit
    } else {
        match cut(line) {
            Some((word, rest)) => worded(word, rest),
            None => SessionCommand::Unknown,
        }
    }
}

/// The command of a word and the rest of the line after the blank.
fn worded(word: &[u8], rest: &[u8]) -> SessionCommand
    ensures { result ≡ worded word.now rest.now }
{
    if word == "step".as_bytes() {
        match read_count(MOST_STEPS, rest) {
            Some(count) => SessionCommand::Step(count),
            None => SessionCommand::Unknown,
        }
    } else if word == "back".as_bytes() {
        match read_count(MOST_STEPS, rest) {
            Some(count) => SessionCommand::Back(count),
            None => SessionCommand::Unknown,
        }
    } else if word == "break".as_bytes() {
        match read_address(rest) {
            Some(at) => SessionCommand::Break(at),
            None => SessionCommand::Unknown,
        }
    } else if word == "mem".as_bytes() {
        match cut(rest) {
            Some((address, count)) => ranged(read_address(address), read_count(MOST_BYTES, count)),
            None => SessionCommand::Unknown,
        }
    } else {
        SessionCommand::Unknown
    }
}

/// The command `mem`; unknown if the address or the number is invalid.
fn ranged(at: Option<u64>, count: Option<u64>) -> SessionCommand
    requires { IfSome count (λ count. count ≤ 64) }
    ensures { result ≡ ranged at count }
{
    match (at, count) {
        (Some(at), Some(count)) => SessionCommand::Mem(at, count as u8),
        _ => SessionCommand::Unknown,
    }
}

/// What is before the first blank and what is after it; `None` without a blank.
#[tactic(auto, unfolding(crate::specs::Lines::cut))]
fn cut(text: &[u8]) -> Option<(&[u8], &[u8])>
    ensures { option_map (λ cut. (cut.0.now, cut.1.now)) result ≡ cut text.now }
{
    match offset_of_blank(text) {
        Some(at) => Some((&text[..at], after(text, at))),
        None => None,
    }
}

/// The index of the first blank.
fn offset_of_blank(text: &[u8]) -> Option<usize>
    ensures value { result ≡ position (λ b. b == 32) text.now }
    ensures within { IfSome result (λ at. at < length text.now) }
{
    text.iter().position(|byte| *byte == b' ')
}

/// What is after an index.
fn after(text: &[u8], at: usize) -> &[u8]
    requires { at < length text.now }
    ensures { result.now ≡ drop (at + 1) text.now }
{
    &text[at + 1..]
}

/// A decimal number from 1 to `most`, both included; `None` for any other text.
#[tactic(auto, unfolding(crate::specs::Lines::as_count))]
fn read_count(most: u64, text: &[u8]) -> Option<u64>
    ensures value { result ≡ as_count most text.now }
    ensures few { IfSome result (λ count. count ≤ most) }
{
    match read_decimal(text) {
        Some(count) if 1 <= count && count <= most => Some(count),
        _ => None,
    }
}

/// An address in 1 to 16 hexadecimal digits; `None` for any other text.
#[tactic(auto, unfolding(crate::specs::Lines::as_address))]
fn read_address(text: &[u8]) -> Option<u64>
    ensures { result ≡ as_address text.now }
{
    if 1 <= text.len() && text.len() <= 16 {
        number_of(text)
    } else {
        None
    }
}

/// The number below 2^64 that hexadecimal digits write; `None` for any other text.
#[tactic(auto, using(crate::proofs::Digits::digits))]
fn number_of(text: &[u8]) -> Option<u64>
    ensures { result ≡ number_from 0 text.now }
{
    let mut value: u64 = 0;
    for byte in text {
        match with_digit(value, *byte) {
            Some(number) => value = number,
            None => return None,
        }
    }
    Some(value)
}

/// A number with one more hexadecimal digit; `None` if it is not a digit or the result is not below 2^64.
fn with_digit(value: u64, byte: u8) -> Option<u64>
    ensures { result ≡ with_digit value (λ number. Some number) (digit_of byte) }
{
    let digit = digit_of(byte)?;
    value.checked_mul(16)?.checked_add(digit)
}

/// The value of a lower-case hexadecimal digit.
fn digit_of(byte: u8) -> Option<u64>
    ensures { result ≡ digit_of byte }
{
    match byte {
        b'0'..=b'9' => Some(u64::from(byte - b'0')),
        b'a'..=b'f' => Some(u64::from(byte - b'a' + 10)),
        _ => None,
    }
}
