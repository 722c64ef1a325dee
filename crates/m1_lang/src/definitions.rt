//! The definitions of an M1 source.

ghost use Rattle.std.specs.Prelude.{◌≡◌, ◌≤◌, length, IfOk};
ghost use Rattle.m1_lang.specs.Words.Words.{words_of};
ghost use Rattle.indexmap.specs.IndexMap.{hasher_of};
ghost use Rattle.hex_langs.specs.NameKeys.{IsKeyedBy, begun_by};
ghost use Rattle.m1_lang.specs.Definitions.{defined_names, definitions_in, is_define};
ghost use Rattle.m1_lang.specs.Representation.Passes.{quote_or, open_at, DefinesOne, Enters, Tabulates, TakesName, parts_at};

use crate::refusal::M1Refusal;
use crate::words::{Ahead, Value, next_word};
use ddc_base::{NamesKey, OutOfMemory};
use hex_langs::items::LabelName;
use hex_langs::name_keys::KeyNames;
use indexmap::IndexMap;
use std::alloc::Global;

/// The value of each definition's name.
pub(crate) type Definitions<'s> = IndexMap<LabelName<'s>, Value<'s>, NamesKey>;

pub(crate) fn is_define(text: &[u8]) -> bool
    ensures { result ≡ is_define text.now }
{
    text == b"DEFINE".as_slice()
}

/// The offset of the quote that is not closed, from an offset on; `None` if every quote is closed.
fn open_quote(source: &[u8], from: usize) -> Option<usize>
    requires { from ≤ length source.now }
    ensures { result ≡ open_at source.now from }
{
    let mut at = from;
    while at < source.len() {
        match next_word(source, at) {
            Ahead::End => return None,
            Ahead::Open(offset) => return Some(offset),
            Ahead::Word(_, _, after) => at = after,
        }
    }
    None
}

/// Adds the name of a definition after its `DEFINE` to the digest. Returns the offset after its value.
fn take_name(names: &mut KeyNames, source: &[u8], at: usize) -> usize
    requires { at ≤ length source.now }
    ensures { TakesName result source.now at names.old names.new }
{
    match next_word(source, at) {
        Ahead::Word(_, name, following) => match next_word(source, following) {
            Ahead::Word(_, _, after) => {
                names.add(name);
                after
            }
            _ => source.len(),
        },
        _ => source.len(),
    }
}

/// The key of the table of definitions, made of all their names.
fn names_key(source: &[u8]) -> NamesKey
    ensures { result.begun ≡ begun_by (defined_names (parts_at source.now 0)) }
{
    let mut names = KeyNames::new();
    let mut at = 0;
    while at < source.len() {
        match next_word(source, at) {
            Ahead::Word(_, text, after) => {
                if is_define(text) {
                    at = take_name(&mut names, source, after);
                } else {
                    at = after;
                }
            }
            _ => at = source.len(),
        }
    }
    names.key()
}

/// Adds a definition. Returns whether its name was already defined. Error: out of memory.
fn add_definition<'s>(
    table: &mut Definitions<'s>,
    name: &'s [u8],
    value: Value<'s>,
) -> Result<bool, OutOfMemory>
    ensures enters { Enters result name.now value.entry table.old table.new }
    ensures kept { hasher_of table.new ≡ hasher_of table.old }
{
    Ok(table.insert(LabelName::new(name), value)?.is_some())
}

/// Adds one definition after its `DEFINE`. Returns the offset after it.
fn define<'s>(
    table: &mut Definitions<'s>,
    source: &'s [u8],
    start: usize,
    at: usize,
) -> Result<usize, M1Refusal>
    requires { at ≤ length source.now }
    ensures defines { DefinesOne result start source.now at table.old table.new }
    ensures kept { hasher_of table.new ≡ hasher_of table.old }
{
    let Ahead::Word(_, name, following) = next_word(source, at) else {
        return Err(M1Refusal::BadDefine(start as u64));
    };
    let Ahead::Word(_, value, after) = next_word(source, following) else {
        return Err(M1Refusal::BadDefine(start as u64));
    };
    match Value::new(value) {
        None => Err(M1Refusal::BadDefine(start as u64)),
        Some(value) => match add_definition(table, name, value)? {
            true => Err(M1Refusal::DoubleDefine(start as u64)),
            false => Ok(after),
        },
    }
}

/// The refusal of an open quote from an offset on, otherwise that of a definition.
fn unless_open(source: &[u8], at: usize, refusal: M1Refusal) -> M1Refusal
    requires { at ≤ length source.now }
    ensures { result ≡ quote_or (open_at source.now at) refusal }
{
    match open_quote(source, at) {
        Some(offset) => M1Refusal::OpenString(offset as u64),
        None => refusal,
    }
}

/// The table of the definitions, or the first refusal of the source's quotes and definitions.
pub(crate) fn definitions_of<'s>(
    alloc: Global,
    source: &'s [u8],
) -> Result<Definitions<'s>, M1Refusal>
    ensures tabulates { Tabulates result (definitions_in (words_of source.now)) }
    ensures keyed { IfOk result (λ table. IsKeyedBy (defined_names (parts_at source.now 0)) table) }
{
    let mut table = IndexMap::with_hasher(alloc, names_key(source));
    let mut at = 0;
    while at < source.len() {
        match next_word(source, at) {
            Ahead::End => return Ok(table),
            Ahead::Open(offset) => return Err(M1Refusal::OpenString(offset as u64)),
            Ahead::Word(start, text, after) => {
                if is_define(text) {
                    match define(&mut table, source, start, after) {
                        Err(why) => return Err(unless_open(source, after, why)),
                        Ok(next) => at = next,
                    }
                } else {
                    at = after;
                }
            }
        }
    }
    Ok(table)
}
