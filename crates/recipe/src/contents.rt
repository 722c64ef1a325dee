use crate::parts::{Compare, Input, Source, Stage};
use ddc_base::ListOf;
use ddc_base::digests::Digest;

/// The contents of a recipe.
#[derive(Drop)]
pub(crate) struct RecipeContents {
    /// The digest of the recipe's bytes.
    pub(crate) digest: Digest,
    /// 1 or 2.
    pub(crate) format: u32,
    pub(crate) inputs: ListOf<Input>,
    pub(crate) sources: ListOf<Source>,
    pub(crate) stages: ListOf<Stage>,
    pub(crate) compare: Compare,
}
