//! One word of a script.
ghost use Rattle.std.specs.Prelude.{◌≡◌, ◌+◌, ◌-◌, ◌<◌, ◌≤◌, ◌==◌, false, length, Ok, Err, IfOk};
ghost use Rattle.std.specs.List.{list_any, position_or_len};
ghost use Rattle.kaem_script.specs.Script.{begins, ends_line, ends_or_begins, ends_quoted, ends_word, parts_words, is_wrong, plain_word, quoted_word, word_at};

use crate::refusal::ScriptFault;
use mem_files::strip;
use std::marker::Model;

/// A word: its text, and the number of bytes that it takes.
#[derive(Drop)]
pub(crate) struct ScriptWord<'s> {
    pub text: &'s [u8],
    pub size: usize,
}

impl<'s> Model for ScriptWord<'s> {
    ghost use Rattle.kaem_script.specs.Script.{ScriptWord};

    ghost Value = { ScriptWord };

    ghost view = { λ w. record { text = w.text.now; size = w.size } };
}

/// Whether a byte separates words: blank, tab or CR.
pub(crate) fn parts_words(byte: u8) -> bool
    ensures { result ≡ parts_words byte }
{
    byte == b' ' || byte == b'\t' || byte == b'\r'
}

fn ends_word(byte: u8) -> bool
    ensures { result ≡ ends_word byte }
{
    parts_words(byte) || byte == b'\n'
}

/// The number of bytes before the end of a line.
pub(crate) fn until_line_end(rest: &[u8]) -> usize
    ensures value { result ≡ position_or_len ends_line rest.now }
    ensures within { result ≤ length rest.now }
{
    for (index, byte) in rest.iter().enumerate() {
        if *byte == b'\n' {
            return index;
        }
    }
    rest.len()
}

fn until_word_end(rest: &[u8]) -> usize
    ensures value { result ≡ position_or_len ends_word rest.now }
    ensures within { result ≤ length rest.now }
{
    for (index, byte) in rest.iter().enumerate() {
        if ends_word(*byte) {
            return index;
        }
    }
    rest.len()
}

fn until_quote(rest: &[u8]) -> usize
    ensures value { result ≡ position_or_len ends_quoted rest.now }
    ensures within { result ≤ length rest.now }
{
    for (index, byte) in rest.iter().enumerate() {
        if *byte == b'"' || *byte == b'\n' {
            return index;
        }
    }
    rest.len()
}

fn is_wrong(byte: u8) -> bool
    ensures { result ≡ is_wrong byte }
{
    byte == b'"' || byte == b'$' || byte == b'\\' || byte == 0
}

fn has_wrong(text: &[u8]) -> bool
    ensures { result ≡ list_any is_wrong text.now }
{
    text.iter().any(|byte| is_wrong(*byte))
}

/// An unquoted word, which runs to the next blank or to the end of its line.
#[tactic(auto, unfolding(crate::specs::Script::plain_word))]
fn plain_word(here: &[u8]) -> Result<ScriptWord<'_>, ScriptFault>
    requires { ends_or_begins ends_word here.now ≡ false }
    ensures value { result ≡ plain_word here.now }
    ensures within { IfOk result (λ word. (1 ≤ word.size) × (word.size ≤ length here.now)) }
{
    let text = &here[..until_word_end(here)];
    if has_wrong(text) {
        return Err(ScriptFault::BadWord);
    }
    Ok(ScriptWord {
        text,
        size: text.len(),
    })
}

/// A quoted word, given the bytes after its opening quote.
#[tactic(auto, unfolding(crate::specs::Script::quoted_word))]
fn quoted_word(rest: &[u8]) -> Result<ScriptWord<'_>, ScriptFault>
    ensures value { result ≡ quoted_word rest.now }
    ensures within { IfOk result (λ word. (2 ≤ word.size) × (word.size ≤ length rest.now + 1)) }
{
    let (text, closing) = rest.split_at(until_quote(rest));
    match closing {
        [b'"', following @ ..] => {
            if !ends_word_here(following) || text.contains(&0) {
                return Err(ScriptFault::BadWord);
            }
            Ok(ScriptWord {
                text,
                size: text.len() + 2,
            })
        }
        _ => Err(ScriptFault::OpenQuote),
    }
}

/// Whether nothing follows here, or a byte that ends a word.
fn ends_word_here(here: &[u8]) -> bool
    ensures { result ≡ ends_or_begins ends_word here.now }
{
    match here {
        [] => true,
        [byte, ..] => ends_word(*byte),
    }
}

/// The word that begins here.
#[tactic(auto, unfolding(crate::specs::Script::word_at))]
pub(crate) fn word_at(first: bool, here: &[u8]) -> Result<ScriptWord<'_>, ScriptFault>
    requires { ends_or_begins ends_word here.now ≡ false }
    ensures value { result ≡ word_at first here.now }
    ensures within { IfOk result (λ word. (1 ≤ word.size) × (word.size ≤ length here.now)) }
{
    let word = match here {
        [b'"', rest @ ..] => quoted_word(rest)?,
        _ => plain_word(here)?,
    };
    if first && strip(word.text).is_empty() {
        return Err(ScriptFault::BadWord);
    }
    if word.text.len() > 255 {
        return Err(ScriptFault::LongWord);
    }
    Ok(word)
}
