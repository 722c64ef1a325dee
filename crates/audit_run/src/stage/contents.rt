ghost use Rattle.std.specs.Prelude.{◌≡◌, []};
ghost use Rattle.audit_rules.specs.Contents.{bytes_of_content, content};
ghost use Rattle.audit_rules.specs.Stages.{contents};

use crate::stage::done::Done;
use ddc_base::{Bytes, Name};
use recipe::{Content, Recipe};

/// The bytes that a name stands for, among the inputs and the artefacts so far; empty for any other name, which a recipe's rules exclude.
#[tactic(auto, unfolding(audit_rules::specs::Contents::content))]
pub fn content<'a>(recipe: &Recipe, inputs: &'a [Bytes], done: &'a [Done], name: &Name) -> &'a [u8]
    ensures { result.now ≡ content recipe.now (contents inputs.now done.now) name.now }
{
    match recipe.content(name) {
        Some(found) => bytes_at(inputs, done, found),
        None => &[],
    }
}

/// The bytes of an input or of an artefact.
fn bytes_at<'a>(inputs: &'a [Bytes], done: &'a [Done], found: Content) -> &'a [u8]
    ensures { result.now ≡ bytes_of_content (contents inputs.now done.now) found }
{
    match found {
        Content::Input(index) => match inputs.get(index) {
            Some(bytes) => bytes.as_slice(),
            None => &[],
        },
        Content::Stage(index) => match done.get(index) {
            Some(done) => done.made(),
            None => &[],
        },
    }
}
