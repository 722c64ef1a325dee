//! Whether an artefact is what its source stands for.

ghost use Rattle.hex_langs.specs.Items.Reading.{ReadsItems, items_of};
ghost use Rattle.ddc_base.specs.Limits.{most_address};
ghost use Rattle.hex_langs.specs.declared.items.item.Item.{Item as RowItem};
ghost use Rattle.hex_langs.specs.declared.items.reader.HexRefusal.{HexRefusal as Refusal};
ghost use Rattle.hex_langs.specs.declared.items.token.Dialect.TheVariants as dialect;
ghost use Rattle.hex_langs.specs.Link.Link.{Links};
ghost use Rattle.hex_langs.specs.Link.Values.{linked};
ghost use Rattle.audit_rules.specs.SourceCheck.Checks.{check, checked, first_other_item, hex_value, items_against, joined_files, same_item};
ghost use Rattle.std.specs.Prelude.{◌≡◌, ◌≤◌, is_none, ℕ, List, Result, IfOk};
ghost use Rattle.verifier.specs.Inside.Holdings.{IsHeld, so_far};
ghost use Rattle.verifier.specs.Inside.Refusing.{RefusesHex, RefusesM1};
ghost use Rattle.audit_rules.specs.Contents.{check_of, text_of};

use crate::held::Held;
use audit_rules::source_check::{same_kind, same_name};
use ddc_base::languages::Language;
use ddc_base::{Bytes, OutOfMemory};
use hex_langs::hex0;
use hex_langs::items::{HexRefusal, Item, Items, items1, items2};
use hex_langs::link::link;
use m1_lang::{M1Refusal, expand};
use recipe::{Source, SourceLanguage, Stage};
use std::alloc::Global;

/// Whether an artefact is right by its stage's check; true for an unchecked stage. Error: out of memory.
#[tactic(auto, unfolding(audit_rules::specs::Contents::check_of))]
pub(crate) fn is_right(
    alloc: Global,
    held: &Held<'_>,
    stage: &Stage,
    made: &[u8],
) -> Result<bool, OutOfMemory>
    requires { IsHeld held.now }
    ensures { IfOk result (λ right. right ≡ is_none (check_of held.now.recipe.now (so_far held.now) stage.now made.now)) }
{
    let Some(name) = &stage.check else {
        return Ok(true);
    };
    let Some(source) = held.recipe.source(name) else {
        return Ok(true);
    };
    match source.lang {
        SourceLanguage::Defined(language) => gives_text(alloc, held, source, language, made),
        SourceLanguage::Other => Ok(true),
    }
}

/// Whether a source's text has this artefact as its value in its language. A source of one file is not copied.
#[tactic(auto, unfolding(audit_rules::specs::Contents::text_of))]
fn gives_text(
    alloc: Global,
    held: &Held<'_>,
    source: &Source,
    language: Language,
    made: &[u8],
) -> Result<bool, OutOfMemory>
    requires { source.now.base ≤ most_address }
    ensures { IfOk result (λ right. right ≡ is_none (check language source.now.base (joined_files (text_of held.now.recipe.now (so_far held.now) source.now).files) made.now)) }
{
    if let [only] = source.files.as_slice() {
        return gives(alloc, language, source.base, held.bytes(only), made);
    }
    let text = joined(alloc, held, source)?;
    gives(alloc, language, source.base, text.as_slice(), made)
}

/// The text of a source: its files, with one LF between neighbours.
#[tactic(auto, unfolding(audit_rules::specs::Contents::text_of))]
fn joined(alloc: Global, held: &Held<'_>, source: &Source) -> Result<Bytes, OutOfMemory>
    ensures { IfOk result (λ text. text ≡ joined_files (text_of held.now.recipe.now (so_far held.now) source.now).files) }
{
    let [first, others @ ..] = source.files.as_slice() else {
        return Ok(Bytes::new(alloc));
    };
    let mut text = Bytes::from_slice(alloc, held.bytes(first))?;
    for name in others {
        text.push(b'\n')?;
        text.extend(held.bytes(name))?;
    }
    Ok(text)
}

/// Whether a source has this artefact as its value in a language.
#[tactic(auto, unfolding(audit_rules::specs::SourceCheck::Checks::check))]
fn gives(
    alloc: Global,
    language: Language,
    base: u64,
    source: &[u8],
    made: &[u8],
) -> Result<bool, OutOfMemory>
    requires { base ≤ most_address }
    ensures { IfOk result (λ right. right ≡ is_none (check language base source.now made.now)) }
{
    match language {
        Language::Hex0 => Ok(hex0(alloc, source)?.as_slice() == made),
        Language::Hex1 => links_to(alloc, items1(alloc, source), base, made),
        Language::Hex2 => links_to(alloc, items2(alloc, source), base, made),
        Language::M1 => match expand(alloc, source) {
            Ok(items) => reads_as(alloc, &items, made),
            Err(refusal) => m1_refused(refusal),
        },
    }
}

/// Whether items, if they were read, link at a base to an artefact.
fn links_to(
    alloc: Global,
    items: Result<Items<'_>, HexRefusal>,
    base: u64,
    made: &[u8],
) -> Result<bool, OutOfMemory>
    requires { base ≤ most_address }
    ensures { (meant : Result (List RowItem) Refusal) → ReadsItems meant items.entry → IfOk result (λ right. right ≡ is_none (checked (hex_value (linked base meant)) made.now)) }
{
    match items {
        Ok(items) => is_value(link(alloc, &items, base), made),
        Err(refusal) => hex_refused(refusal),
    }
}

/// Whether a linked value, if linking succeeded, is an artefact.
fn is_value(value: Result<Bytes, HexRefusal>, made: &[u8]) -> Result<bool, OutOfMemory>
    ensures { (meant : Result (List ℕ) Refusal) → Links value meant → IfOk result (λ right. right ≡ is_none (checked (hex_value meant) made.now)) }
{
    match value {
        Ok(bytes) => Ok(bytes.as_slice() == made),
        Err(refusal) => hex_refused(refusal),
    }
}

/// Whether an artefact is a hex2 text with these items.
fn reads_as(alloc: Global, items: &Items<'_>, made: &[u8]) -> Result<bool, OutOfMemory>
    ensures { IfOk result (λ right. right ≡ is_none (items_against items.now (items_of dialect.Hex2 made.now))) }
{
    match items2(alloc, made) {
        Ok(found) => Ok(same_items(items, &found)),
        Err(refusal) => hex_refused(refusal),
    }
}

/// False for a refusal of a language. Error: out of memory, if the refusal is that.
fn hex_refused(refusal: HexRefusal) -> Result<bool, OutOfMemory>
    ensures { RefusesHex refusal result }
{
    match refusal {
        HexRefusal::OddDigits(_)
        | HexRefusal::BadField(_)
        | HexRefusal::Dangling(_)
        | HexRefusal::DoubleLabel(_)
        | HexRefusal::NoLabel(_)
        | HexRefusal::OutOfReach(_)
        | HexRefusal::TooLong => Ok(false),
        HexRefusal::OutOfMemory => Err(OutOfMemory),
    }
}

/// False for a refusal of a language. Error: out of memory, if the refusal is that.
fn m1_refused(refusal: M1Refusal) -> Result<bool, OutOfMemory>
    ensures { RefusesM1 refusal result }
{
    match refusal {
        M1Refusal::BadDefine(_)
        | M1Refusal::DoubleDefine(_)
        | M1Refusal::OpenString(_)
        | M1Refusal::UnknownWord(_)
        | M1Refusal::NumberRange(_)
        | M1Refusal::Dangling(_)
        | M1Refusal::TooLong => Ok(false),
        M1Refusal::OutOfMemory => Err(OutOfMemory),
    }
}

/// Whether two lists have the same items in the same order.
fn same_items(ours: &Items<'_>, theirs: &Items<'_>) -> bool
    ensures { result ≡ is_none (first_other_item ours.now theirs.now) }
{
    if ours.len() != theirs.len() {
        return false;
    }
    for index in 0..ours.len() {
        let Some(item) = ours.get(index) else {
            return false;
        };
        let Some(other) = theirs.get(index) else {
            return false;
        };
        if !same_item(&item, &other) {
            return false;
        }
    }
    true
}

/// Whether two items are the same.
#[tactic(auto, unfolding(audit_rules::specs::SourceCheck::Checks::same_item))]
fn same_item(ours: &Item<'_>, theirs: &Item<'_>) -> bool
    ensures { result ≡ same_item ours.now theirs.now }
{
    match ours {
        Item::Byte(ours) => matches!(theirs, Item::Byte(theirs) if ours == theirs),
        Item::Label(ours) => matches!(theirs, Item::Label(theirs) if same_name(ours, theirs)),
        Item::Word(ours, kind, name) => {
            matches!(theirs, Item::Word(theirs, their_kind, their_name)
                if ours == theirs && same_kind(*kind, *their_kind) && same_name(name, their_name))
        }
        Item::Rel(ours) => matches!(theirs, Item::Rel(theirs) if same_name(ours, theirs)),
        Item::Gap(ours, from) => {
            matches!(theirs, Item::Gap(theirs, their_from)
                if same_name(ours, theirs) && same_name(from, their_from))
        }
        Item::Abs(ours) => matches!(theirs, Item::Abs(theirs) if same_name(ours, theirs)),
        Item::Pad => matches!(theirs, Item::Pad),
    }
}
