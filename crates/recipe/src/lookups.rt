//! What the names of a recipe stand for.

ghost use Rattle.std.specs.Prelude.{◌≡◌, ◌<◌, IfSome, length, option_and_then, option_map, slice_get};
ghost use Rattle.recipe.specs.Lookups.{IsIndex};
ghost use Rattle.recipe.specs.Lookups.{content_named, content_source, hex_check, input_at, is_hex, source_named, stage_at, stage_source};

use crate::contents::RecipeContents;
use crate::parts::{Content, Input, Source, SourceLanguage, Stage};
use ddc_base::Name;
use ddc_base::languages::Language;

/// The index of the input with a name.
pub(crate) fn input_at(inputs: &[Input], name: &Name) -> Option<usize>
    ensures value { result ≡ input_at inputs.now name.now }
    ensures index { IfSome result (λ index. index < length inputs.now) }
{
    inputs.iter().position(|input| input.name == *name)
}

/// The index of the stage with a name.
pub(crate) fn stage_at(stages: &[Stage], name: &Name) -> Option<usize>
    ensures value { result ≡ stage_at stages.now name.now }
    ensures index { IfSome result (λ index. index < length stages.now) }
{
    stages.iter().position(|stage| stage.name == *name)
}

/// The source with a name.
pub(crate) fn source_named<'a>(sources: &'a [Source], name: &Name) -> Option<&'a Source>
    ensures { option_map (λ x. x.now) result ≡ source_named sources.now name.now }
{
    sources.iter().find(|source| source.name == *name)
}

/// The input with a name, otherwise the stage whose artefact has this name.
#[tactic(auto, unfolding(crate::specs::Lookups::content_named))]
pub(crate) fn content_of(inputs: &[Input], stages: &[Stage], name: &Name) -> Option<Content>
    ensures value { result ≡ content_named inputs.now stages.now name.now }
    ensures index { IfSome result (IsIndex inputs.now stages.now) }
{
    match input_at(inputs, name) {
        Some(index) => Some(Content::Input(index)),
        None => match stage_at(stages, name) {
            Some(index) => Some(Content::Stage(index)),
            None => None,
        },
    }
}

/// The name of the source of a program.
#[tactic(auto, unfolding(crate::specs::Lookups::content_source))]
pub(crate) fn content_source(parsed: &RecipeContents, content: Content) -> Option<&Name>
    ensures { option_map (λ x. x.now) result ≡ content_source parsed.now content }
{
    match content {
        Content::Input(index) => input_source(parsed.inputs.as_slice(), index),
        Content::Stage(index) => artefact_source(
            parsed.sources.as_slice(),
            parsed.stages.as_slice(),
            index,
        ),
    }
}

/// The name of the source of an input.
fn input_source(inputs: &[Input], index: usize) -> Option<&Name>
    ensures { option_map (λ x. x.now) result ≡ option_and_then (λ input. input.implements) (slice_get inputs.now index) }
{
    match inputs.get(index) {
        Some(input) => input.implements.as_ref(),
        None => None,
    }
}

/// The name of the source of a stage's artefact, by the stage's index.
fn artefact_source<'a>(sources: &'a [Source], stages: &'a [Stage], index: usize) -> Option<&'a Name>
    ensures { option_map (λ x. x.now) result ≡ option_and_then (stage_source sources.now) (slice_get stages.now index) }
{
    match stages.get(index) {
        Some(stage) => stage_source(sources, stage),
        None => None,
    }
}

/// The name of the source of a stage's artefact: the one that it becomes, otherwise that of its check in hex0, hex1 or hex2.
#[tactic(auto, unfolding(crate::specs::Lookups::stage_source))]
fn stage_source<'a>(sources: &'a [Source], stage: &'a Stage) -> Option<&'a Name>
    ensures { option_map (λ x. x.now) result ≡ stage_source sources.now stage.now }
{
    match &stage.becomes {
        Some(name) => Some(name),
        None => match &stage.check {
            Some(name) => hex_check(sources, name),
            None => None,
        },
    }
}

/// The name of a check's source, if its language is hex0, hex1 or hex2.
fn hex_check<'a>(sources: &'a [Source], name: &'a Name) -> Option<&'a Name>
    ensures { option_map (λ x. x.now) result ≡ hex_check sources.now name.now }
{
    match source_named(sources, name) {
        Some(source) => {
            if is_hex(source.lang) {
                Some(name)
            } else {
                None
            }
        }
        None => None,
    }
}

/// Whether a checked artefact in this language is the value of its source.
fn is_hex(language: SourceLanguage) -> bool
    ensures { result ≡ is_hex language }
{
    match language {
        SourceLanguage::Defined(Language::Hex0 | Language::Hex1 | Language::Hex2) => true,
        SourceLanguage::Defined(Language::M1) => false,
        SourceLanguage::Other => false,
    }
}
