use ddc_base::Bytes;
use ddc_base::digests::Digest;
use report::{LeftLines, Mark};

/// An input of the recipe.
#[derive(Clone, Copy)]
pub struct InputPart {
    pub digest: Digest,
}

/// A finished stage.
#[derive(Drop)]
pub struct StagePart {
    /// The step at which its program exited.
    pub steps: u64,
    /// The mark of its program's standard output. Its length is below 2^32, as in all marks here.
    pub stream1: Mark,
    /// The mark of its program's standard error.
    pub stream2: Mark,
    /// The files that its program left, ascending by the bytes of their names.
    pub left: LeftLines,
    /// Its artefact.
    pub made: Bytes,
}

/// The first fields of a finished stage.
#[derive(Clone, Copy)]
pub(crate) struct StageHeader {
    pub steps: u64,
    pub stream1: Mark,
    pub stream2: Mark,
    /// How many files its program left.
    pub count: u32,
}

/// The fields of a save. The contents of its state are borrowed.
#[derive(Drop)]
pub struct Parts<'a> {
    /// The digest of the recipe's bytes.
    pub recipe: Digest,
    /// The inputs, in the recipe's order.
    pub inputs: Vec<InputPart>,
    /// The finished stages, in the recipe's order.
    pub done: Vec<StagePart>,
    /// The guest of the current stage.
    pub state: crate::state_text::StateParts<'a>,
}
