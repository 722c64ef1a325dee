//! The words that commands of an audit share.

ghost use Rattle.std.specs.Prelude.{◌≡◌, map};
ghost use Rattle.recipe_plan.specs.Inside.Words.{as_audit_words};

use command_plan::{FileName, two_files};

/// The names of a recipe and of the report of its audit.
#[derive(Drop)]
pub struct AuditWords<'w> {
    pub recipe: FileName<'w>,
    pub report: FileName<'w>,
}

impl<'w> AuditWords<'w> {
    /// The words `RECIPE REPORT`; `None` for any others.
    pub fn read(words: &[&'w str]) -> Option<AuditWords<'w>>
        ensures { result ≡ as_audit_words (map (λ w. w.now) words.now) }
    {
        let [recipe, report] = words else {
            return None;
        };
        let (recipe, report) = two_files(recipe, report)?;
        Some(AuditWords { recipe, report })
    }
}
