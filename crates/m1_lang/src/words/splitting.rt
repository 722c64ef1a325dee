//! The words of an M1 source.

ghost use Rattle.std.specs.Prelude.{◌≡◌, ◌≤◌, ◌==◌, length, IfSome};
ghost use Rattle.std.specs.List.{position_or_len};
ghost use Rattle.hex_langs.specs.Items.Tokens.{is_blank};
ghost use Rattle.m1_lang.specs.Words.Words.{word_more};
ghost use Rattle.m1_lang.specs.Words.Ahead.{FindsAhead};

use hex_langs::items::{gap_length, is_blank};

/// The index of the first such quote, or the length without one.
fn until_quote(rest: &[u8], quote: u8) -> usize
    ensures value { result ≡ position_or_len (λ b. b == quote) rest.now }
    ensures within { result ≤ length rest.now }
{
    for (index, byte) in rest.iter().enumerate() {
        if *byte == quote {
            return index;
        }
    }
    rest.len()
}

/// The index of the first blank, or the length without one.
fn until_blank(rest: &[u8]) -> usize
    ensures value { result ≡ position_or_len is_blank rest.now }
    ensures within { result ≤ length rest.now }
{
    for (index, byte) in rest.iter().enumerate() {
        if is_blank(*byte) {
            return index;
        }
    }
    rest.len()
}

/// The number of bytes of a word after its first; `None` if its quote is not closed.
#[tactic(auto, unfolding(crate::specs::Words::Words::word_more))]
fn word_more(byte: u8, rest: &[u8]) -> Option<usize>
    ensures value { result ≡ word_more byte rest.now }
    ensures within { IfSome result (λ more. more ≤ length rest.now) }
{
    if byte == b'"' || byte == b'\'' {
        let size = until_quote(rest, byte);
        if size < rest.len() {
            Some(size + 1)
        } else {
            None
        }
    } else {
        Some(until_blank(rest))
    }
}

/// What follows an offset, after blanks and comments.
#[derive(Drop)]
pub enum Ahead<'s> {
    End,
    /// A quote that is not closed, with its offset.
    Open(usize),
    /// A word: its offset, its text, and the offset after it.
    Word(usize, &'s [u8], usize),
}

/// Finds the next word from an offset on.
pub fn next_word<'s>(source: &'s [u8], at: usize) -> Ahead<'s>
    requires { at ≤ length source.now }
    ensures { FindsAhead result source.now at }
{
    let start = at + gap_length(&source[at..]);
    if start >= source.len() {
        return Ahead::End;
    }
    match word_more(source[start], &source[start + 1..]) {
        None => Ahead::Open(start),
        Some(more) => {
            let after = start + 1 + more;
            Ahead::Word(start, &source[start..after], after)
        }
    }
}
