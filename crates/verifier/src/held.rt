//! What names stand for while a report is replayed.

ghost use Rattle.std.specs.Prelude.{◌≡◌, [], get_or};
ghost use Rattle.verifier.specs.Inside.Holdings.{so_far};
ghost use Rattle.audit_rules.specs.Contents.{content};

use ddc_base::{Bytes, Name};
use recipe::{Content, Recipe};

/// The recipe, the inputs, and the artefacts of the stages so far, all borrowed.
#[derive(Drop)]
pub(crate) struct Held<'a> {
    pub(crate) recipe: &'a Recipe,
    pub(crate) inputs: &'a [Bytes],
    pub(crate) artefacts: &'a [Bytes],
}

impl<'a> Held<'a> {
    /// The bytes that a name stands for: an input or an artefact.
    #[tactic(auto, unfolding(audit_rules::specs::Contents::content))]
    pub(crate) fn bytes(&self, name: &Name) -> &'a [u8]
        ensures { result.now ≡ content self.now.recipe.now (so_far self.now) name.now }
    {
        let Some(content) = self.recipe.content(name) else {
            return &[];
        };
        match content {
            Content::Input(index) => bytes_at(self.inputs, index),
            Content::Stage(index) => bytes_at(self.artefacts, index),
        }
    }
}

/// The bytes at an index; empty past the end.
fn bytes_at(all: &[Bytes], index: usize) -> &[u8]
    ensures { result.now ≡ get_or all.now index [] }
{
    match all.get(index) {
        Some(bytes) => bytes.as_slice(),
        None => &[],
    }
}
