//! Takes the tokens that words give.

ghost use Rattle.std.specs.Prelude.{◌≡◌, ◌≤◌, ℕ, [], ◌∷◌, IfSome, length, map, replicate};
ghost use Rattle.ddc_base.specs.Limits.{most_items};
ghost use Rattle.hex_langs.specs.declared.items.token.Token.TheVariants.{Byte};
ghost use Rattle.m1_lang.specs.Words.Forms.{defined_tokens, padded, tokens_of};
ghost use Rattle.m1_lang.specs.Words.Meanings.{MeansResult, MeansTokens, prefix_bytes, meaning_tokens};
ghost use Rattle.m1_lang.specs.Representation.Passes.{TakesTokens, values_in};

use crate::definitions::Definitions;
use crate::words::{WordFault, WordMeaning, meaning_of};
use hex_langs::items::{Begun, Halt, Items, LabelName, Open, byte_of, take, take_byte, take_four};

/// Takes bytes.
fn take_bytes<'s>(
    items: &mut Items<'s>,
    mut word: Option<Open<'s>>,
    bytes: &[u8],
) -> Result<Option<Open<'s>>, Halt>
    requires { length items.old ≤ most_items }
    ensures takes { (at : ℕ) → TakesTokens result word.entry at (map Byte bytes.now) items.old items.new }
    ensures few { length items.new ≤ most_items }
{
    for byte in bytes {
        match take_byte(items, word, *byte) {
            Err(halt) => return Err(halt),
            Ok(next) => word = next,
        }
    }
    Ok(word)
}

/// The bytes of eight digits.
fn four_bytes(digits: &[u8]) -> Option<(u8, u8, u8, u8)>
    ensures { IfSome result (λ four. prefix_bytes digits.now ≡ four.0 ∷ four.1 ∷ four.2 ∷ four.3 ∷ []) }
{
    let [a, b, c, d, e, f, g, h] = digits else {
        return None;
    };
    match (
        byte_of(*a, *b),
        byte_of(*c, *d),
        byte_of(*e, *f),
        byte_of(*g, *h),
    ) {
        (Some(first), Some(second), Some(third), Some(fourth)) => {
            Some((first, second, third, fourth))
        }
        _ => None,
    }
}

/// Takes the bytes of digits two by two. Eight digits after the fields of a word, the most frequent case, are taken at once.
fn take_digits<'s>(
    items: &mut Items<'s>,
    word: Option<Open<'s>>,
    digits: &[u8],
) -> Result<Option<Open<'s>>, Halt>
    requires { length items.old ≤ most_items }
    ensures takes { (at : ℕ) → TakesTokens result word.entry at (map Byte (prefix_bytes digits.now)) items.old items.new }
    ensures few { length items.new ≤ most_items }
{
    match word {
        None => take_pairs(items, None, digits),
        Some(open) => match (open.begun, four_bytes(digits)) {
            (Begun::Nothing, Some((a, b, c, d))) => match take_four(items, open, [a, b, c, d]) {
                Err(halt) => Err(halt),
                Ok(()) => Ok(None),
            },
            _ => take_pairs(items, Some(open), digits),
        },
    }
}

/// Takes the bytes of digits two by two, in order.
fn take_pairs<'s>(
    items: &mut Items<'s>,
    mut word: Option<Open<'s>>,
    digits: &[u8],
) -> Result<Option<Open<'s>>, Halt>
    requires { length items.old ≤ most_items }
    ensures takes { (at : ℕ) → TakesTokens result word.entry at (map Byte (prefix_bytes digits.now)) items.old items.new }
    ensures few { length items.new ≤ most_items }
{
    let mut at = 0;
    while at + 1 < digits.len() {
        match byte_of(digits[at], digits[at + 1]) {
            None => return Ok(word),
            Some(byte) => match take_byte(items, word, byte) {
                Err(halt) => return Err(halt),
                Ok(next) => {
                    word = next;
                    at += 2;
                }
            },
        }
    }
    Ok(word)
}

/// Takes a text and one to four zero bytes after it.
fn take_text<'s>(
    items: &mut Items<'s>,
    word: Option<Open<'s>>,
    text: &[u8],
) -> Result<Option<Open<'s>>, Halt>
    requires { length items.old ≤ most_items }
    ensures takes { (at : ℕ) → TakesTokens result word.entry at (map Byte (padded text.now)) items.old items.new }
    ensures few { length items.new ≤ most_items }
{
    match take_bytes(items, word, text) {
        Err(halt) => Err(halt),
        Ok(next) => take_zeros(items, next, 4 - text.len() % 4),
    }
}

/// Takes zero bytes.
fn take_zeros<'s>(
    items: &mut Items<'s>,
    mut word: Option<Open<'s>>,
    count: usize,
) -> Result<Option<Open<'s>>, Halt>
    requires { length items.old ≤ most_items }
    ensures takes { (at : ℕ) → TakesTokens result word.entry at (map Byte (replicate count 0)) items.old items.new }
    ensures few { length items.new ≤ most_items }
{
    for i in 0..count {
        match take_byte(items, word, 0) {
            Err(halt) => return Err(halt),
            Ok(next) => word = next,
        }
    }
    Ok(word)
}

/// Takes the tokens of a word at an offset.
pub(crate) fn take_meaning<'s>(
    items: &mut Items<'s>,
    word: Option<Open<'s>>,
    at: usize,
    meaning: WordMeaning<'s>,
) -> Result<Option<Open<'s>>, Halt>
    requires { length items.old ≤ most_items }
    ensures takes { TakesTokens result word.entry at (meaning_tokens meaning.entry) items.old items.new }
    ensures few { length items.new ≤ most_items }
{
    match meaning {
        WordMeaning::Digits(digits) => take_digits(items, word, digits),
        WordMeaning::Text(text) => take_text(items, word, text),
        WordMeaning::Number(n) => take_bytes(items, word, &n.to_le_bytes()),
        WordMeaning::One(token) => take(items, word, at, token),
    }
}

/// The meaning of a word that a definition names.
fn defined_meaning<'s>(table: &Definitions<'s>, text: &'s [u8]) -> Option<WordMeaning<'s>>
    ensures { MeansTokens result (defined_tokens (values_in table.now text.now)) }
{
    match table.get(&LabelName::new(text)) {
        None => None,
        Some(value) => value.meaning(),
    }
}

/// The meaning of a word, with these definitions.
pub(crate) fn meaning_by<'s>(
    table: &Definitions<'s>,
    text: &'s [u8],
) -> Result<WordMeaning<'s>, WordFault>
    ensures { MeansResult result (tokens_of (values_in table.now) text.now) }
{
    match defined_meaning(table, text) {
        Some(meaning) => Ok(meaning),
        None => meaning_of(text),
    }
}
