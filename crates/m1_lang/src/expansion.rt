//! The items that an M1 source expands to.

ghost use Rattle.std.specs.Prelude.{◌≡◌, ◌≤◌, length, None};
ghost use Rattle.ddc_base.specs.Limits.{most_items};
ghost use Rattle.hex_langs.specs.Items.Reading.{formed};
ghost use Rattle.m1_lang.specs.Words.Forms.{tokens_of};
ghost use Rattle.m1_lang.specs.Expansion.{counted_items, Expands, expansion_of, halt_refusal, word_refusal};
ghost use Rattle.m1_lang.specs.Representation.Passes.{reading_at, SkipsOne, TakesWord, values_in};

use crate::definitions::{Definitions, definitions_of, is_define};
use crate::refusal::M1Refusal;
use crate::taking::{meaning_by, take_meaning};
use crate::words::{Ahead, WordFault, next_word};
use ddc_base::limits::MOST_SOURCE;
use hex_langs::items::{Halt, Items, Open};
use std::alloc::Global;

/// The items that an M1 source of at most 67,108,864 bytes expands to, or its first refusal. Names are borrowed from the source.
///
/// Refusals come in this order: a quote that is not closed, then the definitions in order, then the other words in order.
///
/// Public source: the language M1 of stage0-posix and mescc-tools. docs/reference/m1.md has the rules of this project's profile.
pub fn expand<'s>(alloc: Global, source: &'s [u8]) -> Result<Items<'s>, M1Refusal>
    ensures { Expands (expansion_of source.now) result }
{
    if source.len() > MOST_SOURCE {
        return Err(M1Refusal::TooLong);
    }
    match definitions_of(alloc, source) {
        Err(why) => Err(why),
        Ok(table) => items_by(alloc, &table, source),
    }
}

/// The offset after the name and the value of a definition.
fn after_definition(source: &[u8], at: usize) -> usize
    requires { at ≤ length source.now }
    ensures { SkipsOne result source.now at }
{
    match next_word(source, at) {
        Ahead::Word(_, _, following) => match next_word(source, following) {
            Ahead::Word(_, _, after) => after,
            _ => source.len(),
        },
        _ => source.len(),
    }
}

/// Takes a word at an offset.
fn take_word<'s>(
    items: &mut Items<'s>,
    table: &Definitions<'s>,
    word: Option<Open<'s>>,
    at: usize,
    text: &'s [u8],
) -> Result<Option<Open<'s>>, M1Refusal>
    requires { length items.old ≤ most_items }
    ensures takes { TakesWord result word.entry at (tokens_of (values_in table.now) text.now) items.old items.new }
    ensures few { length items.new ≤ most_items }
{
    match meaning_by(table, text) {
        Err(fault) => Err(word_refusal(fault, at)),
        Ok(meaning) => match take_meaning(items, word, at, meaning) {
            Err(halt) => Err(halt_refusal(halt)),
            Ok(next) => Ok(next),
        },
    }
}

/// The items of the words outside definitions.
fn items_by<'s>(
    alloc: Global,
    table: &Definitions<'s>,
    source: &'s [u8],
) -> Result<Items<'s>, M1Refusal>
    ensures { Expands (counted_items (formed None (reading_at (values_in table.now) source.now 0))) result }
{
    let mut items = Items::new(alloc);
    let mut word = None;
    let mut at = 0;
    while at < source.len() {
        match next_word(source, at) {
            Ahead::Word(start, text, after) => {
                if is_define(text) {
                    at = after_definition(source, after);
                } else {
                    match take_word(&mut items, table, word, start, text) {
                        Err(why) => return Err(why),
                        Ok(next) => {
                            word = next;
                            at = after;
                        }
                    }
                }
            }
            _ => at = source.len(),
        }
    }
    match word {
        None => Ok(items),
        Some(word) => Err(M1Refusal::Dangling(word.first as u64)),
    }
}

/// The refusal of a token that is not taken.
fn halt_refusal(halt: Halt) -> M1Refusal
    ensures { result ≡ halt_refusal halt }
{
    match halt {
        Halt::Dangling(first) => M1Refusal::Dangling(first as u64),
        Halt::Second(at) => M1Refusal::UnknownWord(at as u64),
        Halt::TooLong => M1Refusal::TooLong,
        Halt::OutOfMemory => M1Refusal::OutOfMemory,
    }
}

/// The refusal of a word.
fn word_refusal(fault: WordFault, at: usize) -> M1Refusal
    ensures { result ≡ word_refusal fault at }
{
    match fault {
        WordFault::UnknownWord => M1Refusal::UnknownWord(at as u64),
        WordFault::NumberRange => M1Refusal::NumberRange(at as u64),
    }
}
