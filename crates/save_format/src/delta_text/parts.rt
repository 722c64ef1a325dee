use crate::parts::StagePart;
use ddc_base::digests::Digest;

/// The checkpoint in a delta. The contents of its state are borrowed, from the base if they are unchanged.
#[derive(Drop)]
pub struct DeltaParts<'a> {
    /// The digest of the base's text in format 2.
    pub base: Digest,
    /// The finished stages, in the recipe's order.
    pub done: Vec<StagePart>,
    /// The guest of the current stage.
    pub state: crate::state_text::StateParts<'a>,
}
