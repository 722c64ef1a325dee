//! What a report says of its recipe, compared with the recipe.

ghost use Rattle.std.specs.Prelude.{◌≡◌};
ghost use Rattle.verifier.specs.Faults.{is_header, names_compared, names_inputs, names_stages, same_language};
ghost use Rattle.audit_rules.specs.Contents.{check_language};

use ddc_base::Name;
use ddc_base::languages::Language;
use recipe::{Input, Recipe, SourceLanguage, Stage};
use report::{CompareLine, InputLine, Report, StageLine};

/// Whether a report has the recipe's format, digest and names, in order, and the languages of its checks.
#[tactic(auto, unfolding(crate::specs::Faults::is_header))]
pub(crate) fn is_header(recipe: &Recipe, report: &Report) -> bool
    ensures { result ≡ is_header recipe.now report.now }
{
    let compare = recipe.compare();
    recipe.format() == report.form
        && recipe.digest().0 == report.recipe.0
        && names_inputs(recipe.inputs().as_slice(), report.inputs.as_slice())
        && names_stages(recipe, recipe.stages().as_slice(), report.stages.as_slice())
        && names_compared(
            &compare.binary,
            compare.stages.as_slice(),
            report.compare.as_slice(),
        )
}

/// Whether there is a line for each input, with its name.
fn names_inputs(inputs: &[Input], lines: &[InputLine]) -> bool
    ensures { result ≡ names_inputs inputs.now lines.now }
{
    match inputs {
        [] => lines.is_empty(),
        [input, inputs @ ..] => match lines {
            [] => false,
            [line, lines @ ..] => input.name == line.name && names_inputs(inputs, lines),
        },
    }
}

/// Whether there is a line for each stage, with its name and the language of its check.
fn names_stages(recipe: &Recipe, stages: &[Stage], lines: &[StageLine]) -> bool
    ensures { result ≡ names_stages recipe.now stages.now lines.now }
{
    match stages {
        [] => lines.is_empty(),
        [stage, stages @ ..] => match lines {
            [] => false,
            [line, lines @ ..] => {
                stage.name == line.name
                    && same_language(check_language(recipe, stage), line.checked)
                    && names_stages(recipe, stages, lines)
            }
        },
    }
}

/// Whether there is a line for each compared stage, with its name and that of the binary.
fn names_compared(binary: &Name, stages: &[Name], lines: &[CompareLine]) -> bool
    ensures { result ≡ names_compared binary.now stages.now lines.now }
{
    match stages {
        [] => lines.is_empty(),
        [stage, stages @ ..] => match lines {
            [] => false,
            [line, lines @ ..] => {
                *stage == line.stage
                    && *binary == line.binary
                    && names_compared(binary, stages, lines)
            }
        },
    }
}

/// The language in which a stage is checked; `None` for an unchecked stage.
#[tactic(auto, unfolding(audit_rules::specs::Contents::check_language))]
fn check_language(recipe: &Recipe, stage: &Stage) -> Option<Language>
    ensures { result ≡ check_language recipe.now stage.now }
{
    let name = stage.check.as_ref()?;
    let source = recipe.source(name)?;
    match source.lang {
        SourceLanguage::Defined(language) => Some(language),
        SourceLanguage::Other => None,
    }
}

/// Whether both are the same language, or both `None`.
fn same_language(ours: Option<Language>, theirs: Option<Language>) -> bool
    ensures { result ≡ same_language ours theirs }
{
    ours == theirs
}
