ghost use Rattle.std.specs.Prelude.{◌≡◌};
ghost use Rattle.kaem_script.specs.Words.{script_part_word};

/// A part of a script's report, in the order of the checks.
#[derive(Clone, Copy, PartialEq, Eq)]
pub enum ScriptPart {
    /// The digest of the script.
    Header,
    /// The name, the length and the digest of a listed file.
    File,
    /// A command's run, which must exit with 0 at the recorded step.
    Run,
    /// What a command wrote to its streams.
    Streams,
    /// The files at the end.
    Left,
}

impl ScriptPart {
    /// The word that a command prints for it.
    pub fn word(self) -> &'static str
        ensures { result.now ≡ script_part_word self }
    {
        match self {
            ScriptPart::Header => "header",
            ScriptPart::File => "file",
            ScriptPart::Run => "run",
            ScriptPart::Streams => "streams",
            ScriptPart::Left => "left",
        }
    }
}

/// The verdict of a replay of a script's report.
#[derive(Clone, Copy, PartialEq, Eq)]
pub enum ScriptVerdict {
    /// Every word of the report is true.
    Yes,
    /// The first part that is not true. `place` is the number of the file or of the command, from 1, and 0 for the header and the files
    /// at the end.
    Refuted { part: ScriptPart, place: u32 },
    /// This process ran out of memory at the command of this number, from 1. Nothing checked before is untrue.
    OutOfMemory { command: u32 },
}
