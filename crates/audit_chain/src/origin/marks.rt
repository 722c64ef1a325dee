//! The lengths and digests in a report, by the recipe's names.

ghost use Rattle.audit_chain.specs.Provenance.{is_audited, content_mark, mark_named, same_mark};
ghost use Rattle.std.specs.Prelude.{◌≡◌};

use ddc_base::Name;
use recipe::{Content, Recipe};
use report::{Mark, Report};

/// The length and digest in a report of a name, an input or a stage's artefact; `None` if it is neither.
#[tactic(auto, unfolding(crate::specs::Provenance::mark_named))]
pub fn mark_named(recipe: &Recipe, report: &Report, name: &Name) -> Option<Mark>
    ensures { result ≡ mark_named recipe.now report.now name.now }
{
    match recipe.content(name) {
        Some(found) => content_mark(report, found),
        None => None,
    }
}

/// The length and digest of an input or a stage, by its index.
fn content_mark(report: &Report, found: Content) -> Option<Mark>
    ensures { result ≡ content_mark report.now found }
{
    match found {
        Content::Input(index) => match report.inputs.as_slice().get(index) {
            Some(line) => Some(line.mark),
            None => None,
        },
        Content::Stage(index) => match report.stages.as_slice().get(index) {
            Some(line) => Some(line.made),
            None => None,
        },
    }
}

/// Whether both are the same length and digest; false if either is `None`.
fn same_mark(one: Option<Mark>, other: Option<Mark>) -> bool
    ensures { result ≡ same_mark one other }
{
    match one {
        Some(one) => match other {
            Some(other) => one.length == other.length && one.digest.0 == other.digest.0,
            None => false,
        },
        None => false,
    }
}

/// Whether a report has the same length and digest for a name and for the audited binary.
pub(crate) fn is_audited(recipe: &Recipe, report: &Report, name: &Name) -> bool
    ensures { result ≡ is_audited recipe.now report.now name.now }
{
    same_mark(
        mark_named(recipe, report, name),
        mark_named(recipe, report, &recipe.compare().binary),
    )
}
