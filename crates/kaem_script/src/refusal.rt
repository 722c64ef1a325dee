ghost use Rattle.std.specs.Prelude.{◌≡◌};
ghost use Rattle.kaem_script.specs.declared.refusal.ScriptRefusal.TheVariants.{OutOfMemory};

use ddc_base;

/// What is wrong with a script.
#[derive(Clone, Copy, Debug, PartialEq, Eq)]
pub enum ScriptFault {
    /// A quote is not closed in its line.
    OpenQuote = 1,
    /// A word has no valid form, or the first word of a line names no program.
    BadWord = 2,
    /// A word has more than 255 bytes.
    LongWord = 3,
    /// A line has a 65th word.
    TooManyWords = 4,
    /// The script has a 4,097th command.
    TooMany = 5,
}

/// Why a script was not read.
#[derive(Clone, Copy, Debug, PartialEq, Eq)]
pub enum ScriptRefusal {
    /// The first fault, with the offset of its word's first byte.
    At(ScriptFault, u64),
    OutOfMemory,
}

impl From<ddc_base::OutOfMemory> for ScriptRefusal {
    ghost from_gives = { λ _ refusal. refusal ≡ OutOfMemory };

    fn from(_error: ddc_base::OutOfMemory) -> ScriptRefusal {
        ScriptRefusal::OutOfMemory
    }
}
