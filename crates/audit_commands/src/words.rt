//! The words of the audit commands, each set of them as one value.

ghost use Rattle.std.specs.Prelude.{◌≡◌, map};
ghost use Rattle.audit_commands.specs.Inside.Words.{relative_words, report_word, whole_words};

use command_plan::{FileName, StepCount, four_files, three_files};

/// The word `REPORT`; `None` for any others.
pub(crate) fn report_word<'w>(words: &[&'w str]) -> Option<FileName<'w>>
    ensures { result ≡ report_word (map (λ w. w.now) words.now) }
{
    let [report] = words else {
        return None;
    };
    FileName::read(report)
}

/// A segment of an audit: at most so many steps, the name for its save or delta, and the name for its report.
#[derive(Drop)]
pub(crate) struct Piece<'w> {
    pub save: FileName<'w>,
    pub report: FileName<'w>,
    pub steps: StepCount,
}

/// The name of a recipe, and a segment of its audit.
#[derive(Drop)]
pub(crate) struct PieceWords<'w> {
    pub recipe: FileName<'w>,
    pub piece: Piece<'w>,
}

impl<'w> PieceWords<'w> {
    /// The words `RECIPE SAVE REPORT STEPS`; `None` for any others.
    pub(crate) fn read(words: &[&'w str]) -> Option<PieceWords<'w>>
        ensures { result ≡ whole_words (map (λ w. w.now) words.now) }
    {
        let [recipe, save, report, steps] = words else {
            return None;
        };
        let (recipe, save, report) = three_files(recipe, save, report)?;
        let steps = StepCount::read(steps)?;
        let piece = Piece {
            save,
            report,
            steps,
        };
        Some(PieceWords { recipe, piece })
    }
}

/// The names of a recipe and of a base, and a segment of the audit that keeps a delta against the base.
#[derive(Drop)]
pub(crate) struct RelativeWords<'w> {
    pub recipe: FileName<'w>,
    pub base: FileName<'w>,
    pub piece: Piece<'w>,
}

impl<'w> RelativeWords<'w> {
    /// The words `RECIPE BASE PATCH REPORT STEPS`; `None` for any others.
    pub(crate) fn read(words: &[&'w str]) -> Option<RelativeWords<'w>>
        ensures { result ≡ relative_words (map (λ w. w.now) words.now) }
    {
        let [recipe, base, patch, report, steps] = words else {
            return None;
        };
        let (recipe, base, save, report) = four_files(recipe, base, patch, report)?;
        let steps = StepCount::read(steps)?;
        let piece = Piece {
            save,
            report,
            steps,
        };
        Some(RelativeWords {
            recipe,
            base,
            piece,
        })
    }
}
