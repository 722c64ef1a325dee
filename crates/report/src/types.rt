ghost use Rattle.report.specs.Marks.{is_mark_of, mark_of};
ghost use Rattle.std.specs.Prelude.{◌≡◌};

use ddc_base::digests::Digest;
use ddc_base::languages::Language;
use ddc_base::{Bytes, ListOf, Name, digest};

/// The lines of the inputs, in the recipe's order.
pub type InputLines = ListOf<InputLine>;
/// The lines of the comparisons, in the recipe's order.
pub type CompareLines = ListOf<CompareLine>;
/// The lines of files. The files that a stage or a script left ascend strictly by the bytes of their names.
pub type LeftLines = ListOf<LeftLine>;
/// The blocks of the stages, in the recipe's order.
pub type StageLines = ListOf<StageLine>;

/// The mark of some content: its number of bytes, and their SHA-256 digest (FIPS 180-4).
#[derive(Clone, Copy, PartialEq, Eq)]
pub struct Mark {
    pub length: u64,
    pub digest: Digest,
}

impl Mark {
    /// The mark of bytes. Allocates nothing.
    pub fn of(bytes: &[u8]) -> Mark
        ensures { result ≡ mark_of bytes.now }
    {
        Mark {
            length: bytes.len() as u64,
            digest: digest(bytes),
        }
    }

    /// Whether this is the mark of these bytes. The digest is computed only if the length is equal.
    #[tactic(auto, unfolding(crate::specs::Marks::is_mark_of))]
    pub fn is_of(&self, bytes: &[u8]) -> bool
        ensures { result ≡ is_mark_of self.now bytes.now }
    {
        self.length == bytes.len() as u64 && self.digest.0 == digest(bytes).0
    }
}

/// An input of the recipe, and the mark of its file.
#[derive(Drop)]
pub struct InputLine {
    pub name: Name,
    pub mark: Mark,
}

/// A file that a program left or was given: its name, of 1 to 255 bytes, and the mark of its content.
#[derive(Drop)]
pub struct LeftLine {
    pub name: Bytes,
    pub mark: Mark,
}

/// A stage of an audit, as the report has it.
#[derive(Drop)]
pub struct StageLine {
    pub name: Name,
    /// The step at which its program exited.
    pub steps: u64,
    /// The mark of its standard output.
    pub stream1: Mark,
    /// The mark of its standard error.
    pub stream2: Mark,
    /// At most 4,096 files.
    pub left: LeftLines,
    /// The mark of its artefact.
    pub made: Mark,
    /// The language in which its artefact was checked; `None` if it was not.
    pub checked: Option<Language>,
}

/// The result of a comparison.
#[derive(Clone, Copy, PartialEq, Eq)]
pub enum Compared {
    /// Both have the same bytes. The field is their number.
    Equal(u64),
    /// The first offset at which they differ or one has ended, the artefact's length, and the binary's length. The
    /// offset is at most both lengths, and below one of them.
    Differs(u64, u64, u64),
}

/// The comparison of a stage's artefact with an input, the audited binary.
#[derive(Drop)]
pub struct CompareLine {
    pub stage: Name,
    pub binary: Name,
    pub result: Compared,
}

/// The report of an audit: 1 to 256 inputs, 1 to 256 stages, and the comparisons.
#[derive(Drop)]
pub struct Report {
    /// The format number, 1 or 2. A report of format 1 has one comparison, one of format 2 has 1 to 16.
    pub form: u32,
    /// The digest of the recipe's bytes.
    pub recipe: Digest,
    pub inputs: InputLines,
    pub stages: StageLines,
    pub compare: CompareLines,
}
