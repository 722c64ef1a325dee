//! Words of a file as they are printed: with bytes from `!` to `~` only.

ghost use Rattle.std.specs.Prelude.{◌≡◌, ◌++◌, IfOk, OnOk, take};
ghost use Rattle.tool_commands.specs.ShownWords.{is_shown_as_it_is, shown_byte, shown_each, shown_word};

use ddc_base::{Bytes, OutOfMemory, put_hex};
use std::alloc::Global;

/// The most bytes of a word that are shown.
const MOST_SHOWN: usize = 64;

/// A word as it is printed. Of a word longer than 64 bytes, the first 64 are shown, and two dots after them.
#[tactic(auto, unfolding(crate::specs::ShownWords::shown_word))]
pub(crate) fn shown_word(alloc: Global, word: &[u8]) -> Result<Bytes, OutOfMemory>
    ensures { IfOk result (λ shown. shown ≡ shown_word word.now) }
{
    if word.len() <= MOST_SHOWN {
        return shown_each(alloc, word);
    }
    let mut shown = shown_each(alloc, &word[..MOST_SHOWN])?;
    shown.extend(b"..")?;
    Ok(shown)
}

/// The bytes of a word, each as it is printed.
fn shown_each(alloc: Global, word: &[u8]) -> Result<Bytes, OutOfMemory>
    ensures { IfOk result (λ shown. shown ≡ shown_each word.now) }
{
    let mut shown = Bytes::new(alloc);
    for byte in word {
        show_byte(&mut shown, *byte)?;
    }
    Ok(shown)
}

/// Appends a byte as it is printed: a plain one unchanged, every other as `\x` and two hexadecimal digits.
fn show_byte(shown: &mut Bytes, byte: u8) -> Result<(), OutOfMemory>
    ensures { OnOk result (shown.new ≡ shown.old ++ shown_byte byte) }
{
    if is_shown_as_it_is(byte) {
        return shown.push(byte);
    }
    shown.extend(b"\\x")?;
    put_hex(shown, &[byte])
}

/// Whether a byte is printed unchanged: ASCII from `!` to `~` except the backslash.
fn is_shown_as_it_is(byte: u8) -> bool
    ensures { result ≡ is_shown_as_it_is byte }
{
    matches!(byte, b'!'..=b'[' | b']'..=b'~')
}
