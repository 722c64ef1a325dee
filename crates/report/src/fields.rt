//! The fields of a line, each read by itself.

ghost use Rattle.std.specs.Prelude.{◌≡◌, ◌<◌, IsTrue, ◌+◌, ◌==◌, length, drop, IfOk, IfSome, option_map};
ghost use Rattle.std.specs.List.{position, list_all};
ghost use Rattle.ddc_base.specs.HexTexts.{is_lower_digit};
ghost use Rattle.report.specs.Inside.Cuts.{cut_at};
ghost use Rattle.report.specs.Inside.Fields.{file_name_of, hex_of, digit_value, pairs_of, digest_of, mark_of, file_line_of, lengths_of, is_difference, difference_of, compared_of};

use crate::types::{Compared, LeftLine, Mark};
use ddc_base::digests::Digest;
use ddc_base::{Bytes, HexFail, OutOfMemory, are_lower_digits, read_decimal, read_hex};
use std::alloc::Global;

/// The text before and after the first such byte; `None` if the text lacks it.
#[tactic(auto, unfolding(crate::specs::Inside::Cuts::cut_at))]
pub(crate) fn cut_at(byte: u8, text: &[u8]) -> Option<(&[u8], &[u8])>
    ensures value { option_map (λ cut. (cut.0.now, cut.1.now)) result ≡ cut_at byte text.now }
    ensures shorter { IfSome result (λ cut. length cut.1.now < length text.now) }
{
    match place_of(byte, text) {
        Some(at) => Some((&text[..at], after(text, at))),
        None => None,
    }
}

/// The offset of the first such byte.
fn place_of(byte: u8, text: &[u8]) -> Option<usize>
    ensures value { result ≡ position (λ b. b == byte) text.now }
    ensures within { IfSome result (λ at. at < length text.now) }
{
    text.iter().position(|b| *b == byte)
}

fn after(text: &[u8], at: usize) -> &[u8]
    requires { at < length text.now }
    ensures { result.now ≡ drop (at + 1) text.now }
{
    &text[at + 1..]
}

/// The 1 to 255 bytes of a word's hexadecimal text.
#[tactic(auto, unfolding(crate::specs::Inside::Fields::file_name_of))]
fn file_name_of(alloc: Global, word: &[u8]) -> Result<Option<Bytes>, OutOfMemory>
    ensures { IfOk result (λ name. name ≡ file_name_of word.now) }
{
    if 1 <= word.len() && word.len() <= 510 {
        hex_of(alloc, word)
    } else {
        Ok(None)
    }
}

fn hex_of(alloc: Global, word: &[u8]) -> Result<Option<Bytes>, OutOfMemory>
    ensures { IfOk result (λ bytes. bytes ≡ hex_of word.now) }
{
    match read_hex(alloc, word) {
        Ok(bytes) => Ok(Some(bytes)),
        Err(HexFail::Bad) => Ok(None),
        Err(HexFail::OutOfMemory) => Err(OutOfMemory),
    }
}

/// The digest of a word's hexadecimal text.
#[tactic(auto, unfolding(crate::specs::Inside::Fields::digest_of))]
pub(crate) fn digest_of(word: &[u8]) -> Option<Digest>
    ensures { result ≡ digest_of word.now }
{
    if word.len() == 64 && are_lower_digits(word) {
        Some(Digest(bytes_of(word)))
    } else {
        None
    }
}

/// The 32 bytes of 64 lower-case digits.
///
/// Computes the value of a digit without a branch on the digit, because the digits of a digest are as good as random.
fn bytes_of(word: &[u8]) -> [u8; 32]
    requires count { length word.now ≡ 64 }
    requires digits { IsTrue (list_all is_lower_digit word.now) }
    ensures { result ≡ pairs_of word.now }
{
    let mut bytes = [0; 32];
    for (index, byte) in bytes.iter_mut().enumerate() {
        *byte = 16 * digit_value(word[2 * index]) + digit_value(word[2 * index + 1]);
    }
    bytes
}

/// The value of a lower-case digit.
fn digit_value(digit: u8) -> u8
    requires { IsTrue (is_lower_digit digit) }
    ensures value { result ≡ digit_value digit }
    ensures small { result < 16 }
{
    if digit < b'a' {
        digit - b'0'
    } else {
        digit - b'a' + 10
    }
}

/// The length and the digest in a text.
#[tactic(auto, unfolding(crate::specs::Inside::Fields::mark_of))]
pub(crate) fn mark_of(text: &[u8]) -> Option<Mark>
    ensures { result ≡ mark_of text.now }
{
    let (length, digest) = cut_at(b' ', text)?;
    let length = read_decimal(length)?;
    let digest = digest_of(digest)?;
    Some(Mark { length, digest })
}

/// The name of a file and its mark, from a text.
#[tactic(auto, unfolding(crate::specs::Inside::Fields::file_line_of))]
pub(crate) fn file_line_of(alloc: Global, text: &[u8]) -> Result<Option<LeftLine>, OutOfMemory>
    ensures { IfOk result (λ file. file ≡ file_line_of text.now) }
{
    let Some((name, mark)) = cut_at(b' ', text) else {
        return Ok(None);
    };
    let Some(name) = file_name_of(alloc, name)? else {
        return Ok(None);
    };
    let Some(mark) = mark_of(mark) else {
        return Ok(None);
    };
    Ok(Some(LeftLine { name, mark }))
}

/// The result of a comparison, from a text.
#[tactic(auto, unfolding(crate::specs::Inside::Fields::compared_of))]
pub(crate) fn compared_of(text: &[u8]) -> Option<Compared>
    ensures { result ≡ compared_of text.now }
{
    let (how, numbers) = cut_at(b' ', text)?;
    if how == "equal".as_bytes() {
        let length = read_decimal(numbers)?;
        Some(Compared::Equal(length))
    } else if how == "differs".as_bytes() {
        difference_of(numbers)
    } else {
        None
    }
}

/// The offset and the two lengths in a text.
#[tactic(auto, unfolding(crate::specs::Inside::Fields::difference_of))]
fn difference_of(text: &[u8]) -> Option<Compared>
    ensures { result ≡ difference_of text.now }
{
    let (offset, lengths) = cut_at(b' ', text)?;
    let offset = read_decimal(offset)?;
    let (ours, theirs) = lengths_of(lengths)?;
    if is_difference(offset, ours, theirs) {
        Some(Compared::Differs(offset, ours, theirs))
    } else {
        None
    }
}

/// The two lengths in a text.
#[tactic(auto, unfolding(crate::specs::Inside::Fields::lengths_of))]
fn lengths_of(text: &[u8]) -> Option<(u64, u64)>
    ensures { result ≡ lengths_of text.now }
{
    let (ours, theirs) = cut_at(b' ', text)?;
    let ours = read_decimal(ours)?;
    let theirs = read_decimal(theirs)?;
    Some((ours, theirs))
}

/// Whether the offset is at most both lengths, and below one of them.
fn is_difference(offset: u64, ours: u64, theirs: u64) -> bool
    ensures { result ≡ is_difference offset ours theirs }
{
    offset <= ours && offset <= theirs && (offset < ours || offset < theirs)
}
