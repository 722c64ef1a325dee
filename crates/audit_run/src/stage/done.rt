ghost use Rattle.std.specs.Prelude.{◌≡◌};
ghost use Rattle.report.specs.Marks.{mark_of};

use audit_rules::Finished;
use report::Mark;
use std::marker::Model;

/// A finished stage, seen as `Finished`, with its artefact's mark, so that the mark is computed once.
#[derive(Drop)]
pub struct Done {
    finished: Finished,
    mark: Mark,
}

impl Model for Done {
    ghost use Rattle.audit_rules.specs.declared.answer.Finished.{Finished};
    ghost use Rattle.std.specs.Prelude.{◌≡◌};
    ghost use Rattle.report.specs.Marks.{mark_of};

    ghost Value = { Finished };

    ghost view = { λ done. done.finished };

    ghost invariant = { λ done. done.mark ≡ mark_of done.finished.made };
}

impl Done {
    /// A finished stage with its artefact's mark.
    pub(crate) fn new(finished: Finished, mark: Mark) -> Done
        requires { mark ≡ mark_of finished.made }
        ensures { result ≡ finished }
    {
        Done { finished, mark }
    }

    /// A finished stage; computes its artefact's mark.
    pub fn of(finished: Finished) -> Done
        ensures { result ≡ finished }
    {
        let mark = Mark::of(finished.made.as_slice());
        Done { finished, mark }
    }

    /// The stage's record.
    pub fn finished(&self) -> &Finished
        ensures { result.now ≡ self.now }
    {
        &self.finished
    }

    /// The stage's artefact.
    pub fn made(&self) -> &[u8]
        ensures { result.now ≡ self.now.made }
    {
        self.finished.made.as_slice()
    }

    /// The mark of the stage's artefact.
    pub fn mark(&self) -> Mark
        ensures { result ≡ mark_of self.now.made }
    {
        self.mark
    }
}
