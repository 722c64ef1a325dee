//! The check of a stage's artefact.

ghost use Rattle.std.specs.Prelude.{◌≡◌, ◌≤◌, IfOk, map, option_map};
ghost use Rattle.ddc_base.specs.Limits.{most_address};
ghost use Rattle.recipe.specs.Kept as kept;
ghost use Rattle.audit_rules.specs.SourceCheck.Checks.{joined_files};
ghost use Rattle.audit_rules.specs.Contents.{check_of, check_source, content, defined, text_check, text_of};
ghost use Rattle.audit_rules.specs.Stages.{contents};

use crate::check::check;
use crate::stage::contents::content;
use crate::stage::so_far::SoFar;
use audit_rules::source_check::CheckCause;
use ddc_base::languages::Language;
use ddc_base::{Bytes, Name, OutOfMemory};
use recipe::{Recipe, Source, SourceLanguage, Stage};
use std::alloc::Global;

/// What is wrong with a stage's artefact; `None` if nothing is or the stage is unchecked. Error: out of memory.
#[tactic(auto, unfolding(audit_rules::specs::Contents::check_of))]
pub(crate) fn check_of(
    alloc: Global,
    so_far: &SoFar<'_>,
    stage: &Stage,
    made: &[u8],
) -> Result<Option<CheckCause>, OutOfMemory>
    requires { kept.IsRecipe so_far.now.recipe.now }
    ensures { IfOk result (λ cause. cause ≡ check_of so_far.now.recipe.now (contents so_far.now.inputs.now so_far.now.done.now) stage.now made.now) }
{
    match check_source(so_far.recipe, stage) {
        Some(source) => match defined(source.lang) {
            Some(language) => check_text(alloc, so_far, source, language, made),
            None => Ok(None),
        },
        None => Ok(None),
    }
}

/// The source that a stage's check names; `None` for an unchecked stage.
pub(crate) fn check_source<'a>(recipe: &'a Recipe, stage: &Stage) -> Option<&'a Source>
    ensures { option_map (λ x. x.now) result ≡ check_source recipe.now stage.now }
{
    match &stage.check {
        Some(name) => recipe.source(name),
        None => None,
    }
}

/// The language of a source, if ddc defines it.
pub(crate) fn defined(language: SourceLanguage) -> Option<Language>
    ensures { result ≡ defined language }
{
    match language {
        SourceLanguage::Defined(language) => Some(language),
        SourceLanguage::Other => None,
    }
}

/// The check against a source's text. A source of one file is not copied.
#[tactic(auto, unfolding(audit_rules::specs::Contents::text_of))]
fn check_text(
    alloc: Global,
    so_far: &SoFar<'_>,
    source: &Source,
    language: Language,
    made: &[u8],
) -> Result<Option<CheckCause>, OutOfMemory>
    requires { source.now.base ≤ most_address }
    ensures { IfOk result (λ cause. cause
        ≡ text_check (text_of so_far.now.recipe.now (contents so_far.now.inputs.now so_far.now.done.now) source.now) (Some language) made.now) }
{
    match source.files.as_slice() {
        [name] => check(
            alloc,
            language,
            source.base,
            content(so_far.recipe, so_far.inputs, so_far.done, name),
            made,
        ),
        names => {
            let text = joined(alloc, so_far, names)?;
            check(alloc, language, source.base, text.as_slice(), made)
        }
    }
}

/// The contents of these names, with one LF between neighbours.
fn joined(alloc: Global, so_far: &SoFar<'_>, names: &[Name]) -> Result<Bytes, OutOfMemory>
    ensures { IfOk result (λ text. text
        ≡ joined_files (map (content so_far.now.recipe.now (contents so_far.now.inputs.now so_far.now.done.now)) names.now)) }
{
    let mut text = Bytes::new(alloc);
    for (index, name) in names.iter().enumerate() {
        if index > 0 {
            text.push(b'\n')?;
        }
        text.extend(content(so_far.recipe, so_far.inputs, so_far.done, name))?;
    }
    Ok(text)
}
