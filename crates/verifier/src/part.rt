ghost use Rattle.std.specs.Prelude.{◌≡◌};
ghost use Rattle.verifier.specs.Words.{part_word};

/// A part of a report, in the order in which the parts are judged.
#[derive(Clone, Copy)]
pub enum Part {
    /// What the report says of the recipe: its digest, the names in it, and the languages of its checks.
    Header,
    /// The length and the digest of an input.
    Input,
    /// A stage's run: it exits with 0 at the recorded step.
    Run,
    /// What a stage left: the streams, the files and the artefact.
    Files,
    /// The artefact of a checked stage: it is what its source stands for.
    Assembled,
    /// A comparison.
    Compare,
}

impl Part {
    /// The word that commands print for this part.
    pub fn word(self) -> &'static str
        ensures { result.now ≡ part_word self }
    {
        match self {
            Part::Header => "header",
            Part::Input => "input",
            Part::Run => "run",
            Part::Files => "files",
            Part::Assembled => "assembled",
            Part::Compare => "compare",
        }
    }
}

/// The verdict on a report.
#[derive(Clone, Copy)]
pub enum Verdict {
    /// The report is true, and each comparison says that artefact and binary are equal.
    Yes,
    /// The report is true, and some comparison says that they differ.
    TrueButDiffers,
    /// The first part that is not true, and its place. The place is the number, from 1, of the input, the stage or, in form 2, the
    /// comparison. It is 0 for the header and, in form 1, for the comparison.
    Refuted { part: Part, place: u32 },
    /// Out of memory at the stage of this number, from 1: in its run, or in its check and the copy of its artefact. Everything judged
    /// before is true.
    OutOfMemory { stage: u32, part: Part },
}
