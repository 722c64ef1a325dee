//! What an audit provides to later ones, and which of their assumptions it discharges.

ghost use Rattle.audit_chain.specs.Chain.{input_bytes, given_contents, gives, names_input, is_struck, is_same_text, same_files, same_text, text_of_stage, given_text_named};
ghost use Rattle.recipe.specs.Lookups.{input_at};
ghost use Rattle.std.specs.List.{list_all, list_any};
ghost use Rattle.std.specs.Prelude.{◌≡◌, [], get_or, map, option_map};
ghost use Rattle.verifier.specs.Faults.{same_language};
ghost use Rattle.audit_rules.specs.Contents.{defined, text_of};

use crate::link::Link;
use ddc_base::languages::Language;
use ddc_base::{Bytes, Name};
use recipe::{Content, Input, Recipe, Source, SourceLanguage};
use wheeler::Assumption;

/// Whether one of the earlier audits discharges an assumption of an audit.
#[tactic(auto, unfolding(crate::specs::Chain::is_struck))]
pub(crate) fn is_struck(earlier: &[Link], link: &Link, line: &Assumption) -> bool
    ensures { result ≡ is_struck earlier.now link.now line.now }
{
    match line {
        Assumption::Implements { made, source } => {
            if !names_input(&link.recipe, made) {
                return false;
            }
            match source_named(link, source) {
                Some(source) => is_given(earlier, input_bytes(link, made), link, source),
                None => false,
            }
        }
        Assumption::Compiles { .. } => false,
    }
}

/// Whether one of these audits provides bytes with the text of a source of another audit.
fn is_given(earlier: &[Link], bytes: &[u8], link: &Link, source: &Source) -> bool
    ensures { result ≡ list_any (gives bytes.now (text_of link.now.recipe (given_contents link.now) source.now)) earlier.now }
{
    earlier
        .iter()
        .any(|other| gives(other, bytes, link, source))
}

/// Whether an audit provides bytes with the text of a source of another audit: they are its audited binary, and the text is that of a
/// compared stage's source.
#[tactic(auto, unfolding(crate::specs::Chain::gives))]
fn gives(other: &Link, bytes: &[u8], link: &Link, source: &Source) -> bool
    ensures { result ≡ gives bytes.now (text_of link.now.recipe (given_contents link.now) source.now) other.now }
{
    input_bytes(other, &other.recipe.compare().binary) == bytes && gives_text(other, link, source)
}

/// Whether the text is that of the source of a compared stage of `other`.
fn gives_text(other: &Link, link: &Link, source: &Source) -> bool
    ensures { result ≡ list_any (λ stage. is_same_text (text_of link.now.recipe (given_contents link.now) source.now) (text_of_stage other.now stage))
        other.now.recipe.compare.stages }
{
    other
        .recipe
        .compare()
        .stages
        .as_slice()
        .iter()
        .any(|stage| is_of_stage(other, stage, link, source))
}

/// Whether the text is that of the source of a stage.
fn is_of_stage(other: &Link, stage: &Name, link: &Link, source: &Source) -> bool
    ensures { result ≡ is_same_text (text_of link.now.recipe (given_contents link.now) source.now) (text_of_stage other.now stage.now) }
{
    match source_of_stage(other, stage) {
        Some(own) => same_text(other, own, link, source),
        None => false,
    }
}

/// The source of a stage; `None` if it has none or one of the source's files is not an input.
#[tactic(auto, unfolding(crate::specs::Chain::text_of_stage))]
fn source_of_stage<'a>(link: &'a Link, stage: &Name) -> Option<&'a Source>
    ensures { option_map (λ source. text_of link.now.recipe (given_contents link.now) source.now) result ≡ text_of_stage link.now stage.now }
{
    match link.recipe.source_of(stage) {
        Some(name) => source_named(link, name),
        None => None,
    }
}

/// The source of this name; `None` if one of its files is not an input.
#[tactic(auto, unfolding(crate::specs::Chain::given_text))]
fn source_named<'a>(link: &'a Link, name: &Name) -> Option<&'a Source>
    ensures { option_map (λ source. text_of link.now.recipe (given_contents link.now) source.now) result ≡ given_text_named link.now name.now }
{
    match link.recipe.source(name) {
        Some(source) => {
            if are_inputs(&link.recipe, source.files.as_slice()) {
                Some(source)
            } else {
                None
            }
        }
        None => None,
    }
}

/// Whether all these names are inputs'.
pub(crate) fn are_inputs(recipe: &Recipe, names: &[Name]) -> bool
    ensures { result ≡ list_all (names_input recipe.now) names.now }
{
    names.iter().all(|name| names_input(recipe, name))
}

/// Whether a name is an input.
fn names_input(recipe: &Recipe, name: &Name) -> bool
    ensures { result ≡ names_input recipe.now name.now }
{
    input_index(recipe.inputs().as_slice(), name).is_some()
}

/// The index of the input of a name; `None` if it is not an input.
fn input_index(inputs: &[Input], name: &Name) -> Option<usize>
    ensures { result ≡ input_at inputs.now name.now }
{
    inputs.iter().position(|input| input.name == *name)
}

/// The bytes of the input of a name; empty if it is not an input.
#[tactic(auto, unfolding(audit_rules::specs::Contents::content))]
fn input_bytes<'a>(link: &'a Link, name: &Name) -> &'a [u8]
    ensures { result.now ≡ input_bytes link.now name.now }
{
    match link.recipe.content(name) {
        Some(Content::Input(index)) => at(link.inputs.as_slice(), index),
        Some(Content::Stage(_)) => &[],
        None => &[],
    }
}

/// The bytes at an index; none past the end.
pub(crate) fn at(all: &[Bytes], index: usize) -> &[u8]
    ensures { result.now ≡ get_or all.now index [] }
{
    match all.get(index) {
        Some(bytes) => bytes.as_slice(),
        None => &[],
    }
}

/// Whether sources of two audits have the same text.
#[tactic(auto, unfolding(crate::specs::Chain::same_text, audit_rules::specs::Contents::text_of))]
fn same_text(first: &Link, one: &Source, second: &Link, other: &Source) -> bool
    ensures { result ≡ same_text (text_of first.now.recipe (given_contents first.now) one.now)
        (text_of second.now.recipe (given_contents second.now) other.now) }
{
    same_language(defined(one.lang), defined(other.lang))
        && one.base == other.base
        && same_files(first, one.files.as_slice(), second, other.files.as_slice())
}

/// The language of a source, if ddc defines it.
fn defined(language: SourceLanguage) -> Option<Language>
    ensures { result ≡ defined language }
{
    match language {
        SourceLanguage::Defined(language) => Some(language),
        SourceLanguage::Other => None,
    }
}

/// Whether both are the same language, or both `None`.
fn same_language(one: Option<Language>, other: Option<Language>) -> bool
    ensures { result ≡ same_language one other }
{
    one == other
}

/// Whether two lists of files have the same bytes, one by one.
fn same_files(first: &Link, ones: &[Name], second: &Link, others: &[Name]) -> bool
    ensures { result ≡ same_files (map (input_bytes first.now) ones.now) (map (input_bytes second.now) others.now) }
{
    match ones {
        [] => others.is_empty(),
        [one, ones @ ..] => match others {
            [] => false,
            [other, others @ ..] => {
                input_bytes(first, one) == input_bytes(second, other)
                    && same_files(first, ones, second, others)
            }
        },
    }
}
