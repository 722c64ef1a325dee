//! The meaning of a word.

ghost use Rattle.std.specs.Prelude.{◌≡◌, ◌≤◌, is_some, pos, neg_ℤ, ◌≤ℤ◌};
ghost use Rattle.m1_lang.specs.Words.Digits.{digit_bytes};
ghost use Rattle.m1_lang.specs.Words.Forms.{between, byte_tokens, store_field, rounded_field, ranged_tokens, is_within, whole_token, value_tokens, quoted_tokens, number_tokens, number_after, numbered_tokens, takes_number, form_tokens};
ghost use Rattle.m1_lang.specs.Words.Numbers.{number_in};
ghost use Rattle.m1_lang.specs.Words.Meanings.{MeansTokens, MeansResult, meaning_tokens};
ghost use Rattle.m1_lang.specs.Words.Representation.Meanings.{MeansForm};

use crate::words::numbers::number_in;
use hex_langs::items::{Dialect, Token, byte_of, token_at};
use hex_langs::link::{i_field, modulo_word};

/// The meaning of a word. Many bytes are given as text of the source.
#[derive(Drop)]
pub enum WordMeaning<'s> {
    /// The bytes of hexadecimal digits two by two.
    Digits(&'s [u8]),
    /// The bytes of a text and then one to four zero bytes, up to a multiple of 4 in all.
    Text(&'s [u8]),
    /// Four bytes, the low one first.
    Number(u32),
    /// One token of hex2.
    One(Token<'s>),
}

/// Why a word has no meaning.
#[derive(Clone, Copy)]
pub enum WordFault {
    /// It has no known form.
    UnknownWord,
    /// Its number is out of its sign's range.
    NumberRange,
}

/// Whether a text consists of pairs of digits.
fn are_pairs(text: &[u8]) -> bool
    ensures { result ≡ is_some (digit_bytes text.now) }
{
    let mut at = 0;
    while at < text.len() {
        if at + 1 == text.len() {
            return false;
        }
        match byte_of(text[at], text[at + 1]) {
            None => return false,
            Some(_) => at += 2,
        }
    }
    true
}

/// The meaning of a positive even number of digits; `None` for other texts.
fn digits<'s>(text: &'s [u8]) -> Option<WordMeaning<'s>>
    ensures { MeansTokens result (byte_tokens (digit_bytes text.now)) }
{
    if text.len() == 0 || !are_pairs(text) {
        return None;
    }
    Some(WordMeaning::Digits(text))
}

/// The one token of hex2 that takes the whole word; `None` if it does not exist.
#[tactic(auto, unfolding(crate::specs::Words::Forms::whole_token))]
fn whole_token<'s>(text: &'s [u8]) -> Option<Token<'s>>
    ensures { result ≡ whole_token text.now }
{
    let (first, rest) = text.split_first()?;
    match token_at(Dialect::Hex2, *first, rest) {
        Err(_) => None,
        Ok((token, more)) => {
            if more == rest.len() {
                Some(token)
            } else {
                None
            }
        }
    }
}

/// The meaning of a value: digits alone, or `.` and 8 digits.
#[tactic(auto, unfolding(crate::specs::Words::Forms::value_tokens))]
pub(crate) fn value_meaning<'s>(text: &'s [u8]) -> Option<WordMeaning<'s>>
    ensures { MeansTokens result (value_tokens text.now) }
{
    match text.first() {
        Some(b'.') => Some(WordMeaning::One(whole_token(text)?)),
        _ => digits(text),
    }
}

/// The text between a word's quotes.
fn between<'s>(rest: &'s [u8]) -> &'s [u8]
    ensures { result.now ≡ between rest.now }
{
    &rest[..rest.len().saturating_sub(1)]
}

/// The meaning of a word in quotes: a text or digits.
fn quoted<'s>(text: &'s [u8]) -> Option<WordMeaning<'s>>
    ensures { MeansTokens result (quoted_tokens text.now) }
{
    match text.split_first() {
        Some((b'"', rest)) => Some(WordMeaning::Text(between(rest))),
        Some((b'\'', rest)) => digits(between(rest)),
        _ => None,
    }
}

/// The S field of a number: bits 11..5 in bits 31..25, and bits 4..0 in bits 11..7.
fn store_field(n: u32) -> u32
    ensures { result ≡ store_field n }
{
    n / 32 % 128 * 33_554_432 + n % 32 * 128
}

/// The upper field of a number: bits 31..12, rounded.
fn rounded_field(n: i64) -> u32
    requires low { neg_ℤ (pos 1099511627776) ≤ℤ n }
    requires high { n ≤ℤ pos 1099511627776 }
    ensures { result ≡ rounded_field n }
{
    modulo_word(n + 2048) / 4096 * 4096
}

/// Whether low <= n < high.
fn is_within(n: i64, low: i64, high: i64) -> bool
    ensures { result ≡ is_within n low high }
{
    low <= n && n < high
}

/// A number's meaning, if the number is in range.
fn ranged<'s>(fits: bool, meaning: WordMeaning<'s>) -> Result<WordMeaning<'s>, WordFault>
    ensures { MeansResult result (ranged_tokens fits (meaning_tokens meaning.entry)) }
{
    if fits {
        Ok(meaning)
    } else {
        Err(WordFault::NumberRange)
    }
}

/// The meaning of a number after `!`, `@`, `~` or `%`.
fn number_after<'s>(sign: u8, n: i64) -> Result<WordMeaning<'s>, WordFault>
    requires low { neg_ℤ (pos 1099511627776) ≤ℤ n }
    requires high { n ≤ℤ pos 1099511627776 }
    ensures { MeansResult result (number_tokens sign n) }
{
    let is_short = is_within(n, -2048, 2048);
    let is_word = is_within(n, -2_147_483_648, 4_294_967_296);
    if sign == b'!' {
        ranged(
            is_short,
            WordMeaning::One(Token::Field(i_field(modulo_word(n)))),
        )
    } else if sign == b'@' {
        ranged(
            is_short,
            WordMeaning::One(Token::Field(store_field(modulo_word(n)))),
        )
    } else if sign == b'~' {
        ranged(is_word, WordMeaning::One(Token::Field(rounded_field(n))))
    } else {
        ranged(is_word, WordMeaning::Number(modulo_word(n)))
    }
}

/// Whether a sign takes a number.
fn takes_number(sign: u8) -> bool
    ensures { result ≡ takes_number sign }
{
    matches!(sign, b'!' | b'@' | b'~' | b'%')
}

/// The meaning of a sign that takes a number and of the text after it, if that is a number.
fn signed<'s>(sign: u8, rest: &[u8]) -> Option<Result<WordMeaning<'s>, WordFault>>
    ensures { MeansForm result (number_after sign (number_in rest.now)) }
{
    match number_in(rest) {
        None => None,
        Some(n) => Some(number_after(sign, n)),
    }
}

/// The meaning of a word that is a sign and a number.
#[tactic(auto, unfolding(crate::specs::Words::Forms::numbered_tokens))]
fn numbered<'s>(text: &'s [u8]) -> Option<Result<WordMeaning<'s>, WordFault>>
    ensures { MeansForm result (numbered_tokens text.now) }
{
    let (sign, rest) = text.split_first()?;
    if takes_number(*sign) {
        signed(*sign, rest)
    } else {
        None
    }
}

/// The meaning of a word that no definition names.
#[tactic(auto, unfolding(crate::specs::Words::Forms::form_tokens))]
pub fn meaning_of<'s>(text: &'s [u8]) -> Result<WordMeaning<'s>, WordFault>
    ensures { MeansResult result (form_tokens text.now) }
{
    if let Some(meaning) = quoted(text) {
        return Ok(meaning);
    }
    if let Some(meaning) = value_meaning(text) {
        return Ok(meaning);
    }
    if let Some(found) = numbered(text) {
        return found;
    }
    match whole_token(text) {
        Some(token) => Ok(WordMeaning::One(token)),
        None => Err(WordFault::UnknownWord),
    }
}
