ghost use Rattle.audit_run.specs.Check.Inside.Refusing.{RefusesHex, RefusesM1};
ghost use Rattle.hex_langs.specs.Items.Reading.{items_of};
ghost use Rattle.hex_langs.specs.declared.items.token.Dialect.TheVariants as dialect;
ghost use Rattle.hex_langs.specs.Link.Link.{link_of};
ghost use Rattle.ddc_base.specs.declared.languages.Language.TheVariants as language;
ghost use Rattle.ddc_base.specs.Limits.{most_address};
ghost use Rattle.audit_rules.specs.SourceCheck.Checks.{check as check_of, checked, differs, hex_value, items_against};
ghost use Rattle.audit_rules.specs.declared.source_check.cause.CheckCause.TheVariants as cause;
ghost use Rattle.std.specs.Prelude.{◌≡◌, ◌≤◌, IfOk, Some};

use crate::check::items::first_other_item;
use audit_rules::source_check::{CheckCause, HexCause, M1Cause};
use ddc_base::languages::Language;
use ddc_base::{OutOfMemory, first_difference};
use hex_langs::hex0;
use hex_langs::items::{HexRefusal, Items, items1, items2};
use hex_langs::link::link;
use m1_lang::{M1Refusal, expand};
use std::alloc::Global;

/// What is wrong with an artefact of a source in a language, at the address `base`, which hex0 and M1 do not use; `None` if nothing is.
/// Error: out of memory.
///
/// docs/reference/audit.md has the rules.
pub fn check(
    alloc: Global,
    language: Language,
    base: u64,
    source: &[u8],
    made: &[u8],
) -> Result<Option<CheckCause>, OutOfMemory>
    requires { base ≤ most_address }
    ensures { IfOk result (λ cause. cause ≡ check_of language base source.now made.now) }
{
    match language {
        Language::Hex0 => check_hex0(alloc, base, source, made),
        Language::Hex1 => check_hex1(alloc, base, source, made),
        Language::Hex2 => check_hex2(alloc, base, source, made),
        Language::M1 => check_m1(alloc, base, source, made),
    }
}

#[tactic(auto, unfolding(audit_rules::specs::SourceCheck::Checks::check))]
fn check_hex0(
    alloc: Global,
    base: u64,
    source: &[u8],
    made: &[u8],
) -> Result<Option<CheckCause>, OutOfMemory>
    ensures { IfOk result (λ cause. cause ≡ check_of language.Hex0 base source.now made.now) }
{
    let value = hex0(alloc, source)?;
    Ok(differs_at(first_difference(value.as_slice(), made)))
}

#[tactic(auto, unfolding(audit_rules::specs::SourceCheck::Checks::check))]
fn check_hex1(
    alloc: Global,
    base: u64,
    source: &[u8],
    made: &[u8],
) -> Result<Option<CheckCause>, OutOfMemory>
    requires { base ≤ most_address }
    ensures { IfOk result (λ cause. cause ≡ check_of language.Hex1 base source.now made.now) }
{
    match items1(alloc, source) {
        Ok(items) => check_linked(alloc, base, &items, made),
        Err(refusal) => hex_refused(refusal),
    }
}

#[tactic(auto, unfolding(audit_rules::specs::SourceCheck::Checks::check))]
fn check_hex2(
    alloc: Global,
    base: u64,
    source: &[u8],
    made: &[u8],
) -> Result<Option<CheckCause>, OutOfMemory>
    requires { base ≤ most_address }
    ensures { IfOk result (λ cause. cause ≡ check_of language.Hex2 base source.now made.now) }
{
    match items2(alloc, source) {
        Ok(items) => check_linked(alloc, base, &items, made),
        Err(refusal) => hex_refused(refusal),
    }
}

#[tactic(auto, unfolding(audit_rules::specs::SourceCheck::Checks::check))]
fn check_m1(
    alloc: Global,
    base: u64,
    source: &[u8],
    made: &[u8],
) -> Result<Option<CheckCause>, OutOfMemory>
    ensures { IfOk result (λ cause. cause ≡ check_of language.M1 base source.now made.now) }
{
    match expand(alloc, source) {
        Ok(items) => check_items(alloc, &items, made),
        Err(refusal) => m1_refused(refusal),
    }
}

/// The check of an artefact against the link of these items at a base.
fn check_linked(
    alloc: Global,
    base: u64,
    items: &Items<'_>,
    made: &[u8],
) -> Result<Option<CheckCause>, OutOfMemory>
    requires { base ≤ most_address }
    ensures { IfOk result (λ cause. cause ≡ checked (hex_value (link_of items.now base)) made.now) }
{
    match link(alloc, items, base) {
        Ok(value) => Ok(differs_at(first_difference(value.as_slice(), made))),
        Err(refusal) => hex_refused(refusal),
    }
}

/// The check of an artefact that must be a hex2 text with these items.
fn check_items(
    alloc: Global,
    items: &Items<'_>,
    made: &[u8],
) -> Result<Option<CheckCause>, OutOfMemory>
    ensures { IfOk result (λ cause. cause ≡ items_against items.now (items_of dialect.Hex2 made.now)) }
{
    match items2(alloc, made) {
        Ok(found) => Ok(differs_at(first_other_item(items, &found))),
        Err(refusal) => no_items(refusal),
    }
}

/// The check's result for the first difference, or for no difference.
fn differs_at(offset: Option<u64>) -> Option<CheckCause>
    ensures { result ≡ differs offset }
{
    match offset {
        None => None,
        Some(offset) => Some(CheckCause::Differs(offset)),
    }
}

/// The check's result if a source of hex1 or hex2 has no value.
fn hex_refused(refusal: HexRefusal) -> Result<Option<CheckCause>, OutOfMemory>
    ensures { RefusesHex (λ why. Some (cause.Hex why)) refusal result }
{
    Ok(Some(CheckCause::Hex(hex_cause(refusal)?)))
}

/// The check's result if the artefact has no items.
fn no_items(refusal: HexRefusal) -> Result<Option<CheckCause>, OutOfMemory>
    ensures { RefusesHex (λ why. Some (cause.NotItems why)) refusal result }
{
    Ok(Some(CheckCause::NotItems(hex_cause(refusal)?)))
}

/// The check's result if a source of M1 has no items.
fn m1_refused(refusal: M1Refusal) -> Result<Option<CheckCause>, OutOfMemory>
    ensures { RefusesM1 (λ why. Some (cause.M1 why)) refusal result }
{
    Ok(Some(CheckCause::M1(m1_cause(refusal)?)))
}

/// The refusal as a cause. Error: out of memory, if the refusal is that.
fn hex_cause(refusal: HexRefusal) -> Result<HexCause, OutOfMemory>
    ensures { RefusesHex (λ why. why) refusal result }
{
    match refusal {
        HexRefusal::OddDigits(at) => Ok(HexCause::OddDigits(at)),
        HexRefusal::BadField(at) => Ok(HexCause::BadField(at)),
        HexRefusal::Dangling(at) => Ok(HexCause::Dangling(at)),
        HexRefusal::DoubleLabel(index) => Ok(HexCause::DoubleLabel(index)),
        HexRefusal::NoLabel(index) => Ok(HexCause::NoLabel(index)),
        HexRefusal::OutOfReach(index) => Ok(HexCause::OutOfReach(index)),
        HexRefusal::TooLong => Ok(HexCause::TooLong),
        HexRefusal::OutOfMemory => Err(OutOfMemory),
    }
}

/// The refusal as a cause. Error: out of memory, if the refusal is that.
fn m1_cause(refusal: M1Refusal) -> Result<M1Cause, OutOfMemory>
    ensures { RefusesM1 (λ why. why) refusal result }
{
    match refusal {
        M1Refusal::BadDefine(at) => Ok(M1Cause::BadDefine(at)),
        M1Refusal::DoubleDefine(at) => Ok(M1Cause::DoubleDefine(at)),
        M1Refusal::OpenString(at) => Ok(M1Cause::OpenString(at)),
        M1Refusal::UnknownWord(at) => Ok(M1Cause::UnknownWord(at)),
        M1Refusal::NumberRange(at) => Ok(M1Cause::NumberRange(at)),
        M1Refusal::Dangling(at) => Ok(M1Cause::Dangling(at)),
        M1Refusal::TooLong => Ok(M1Cause::TooLong),
        M1Refusal::OutOfMemory => Err(OutOfMemory),
    }
}
