ghost use Rattle.std.specs.Prelude.{◌≡◌, ◌≤◌, IfSome, length, option_map, take};
ghost use Rattle.recipe.specs.Lookups.{IsIndex};
ghost use Rattle.recipe.specs.Kept.{IsRecipe};
ghost use Rattle.recipe.specs.Lookups.{content_named, source_named, source_of};

use crate::contents::RecipeContents;
use crate::lookups::{content_of, content_source, source_named};
use crate::parts::{Compare, Content, Input, Source, Stage};
use ddc_base::digests::Digest;
use ddc_base::{ListOf, Name};
use std::marker::Model;

/// A recipe that both walks accepted. Contracts see its contents.
#[derive(Drop)]
pub struct Recipe {
    parsed: RecipeContents,
}

impl Model for Recipe {
    ghost use Rattle.recipe.specs.Kept.{IsRecipe};
    ghost use Rattle.recipe.specs.declared.contents.RecipeContents.{RecipeContents};

    ghost Value = { RecipeContents };

    ghost view = { λ recipe. recipe.parsed };

    ghost invariant = { λ recipe. IsRecipe recipe.parsed };
}

impl Recipe {
    /// A recipe with contents that both walks accepted.
    pub(crate) fn new(parsed: RecipeContents) -> Recipe
        requires { IsRecipe parsed }
        ensures { result ≡ parsed }
    {
        Recipe { parsed }
    }

    /// The SHA-256 digest (FIPS 180-4) of the recipe's bytes.
    pub fn digest(&self) -> &Digest
        ensures value { result.now ≡ self.now.digest }
        ensures kept { IsRecipe self.now }
    {
        &self.parsed.digest
    }

    /// Shows that the recipe is well-formed (`IsRecipe`).
    pub fn show_rules(&self)
        ensures { IsRecipe self.now }
    {
        let _ = &self.parsed;
    }

    /// The recipe's format: 1 or 2.
    pub fn format(&self) -> u32
        ensures value { result ≡ self.now.format }
        ensures kept { IsRecipe self.now }
    {
        self.parsed.format
    }

    /// The inputs.
    pub fn inputs(&self) -> &ListOf<Input>
        ensures value { result.now ≡ self.now.inputs }
        ensures kept { IsRecipe self.now }
    {
        &self.parsed.inputs
    }

    /// The sources.
    pub fn sources(&self) -> &ListOf<Source>
        ensures value { result.now ≡ self.now.sources }
        ensures kept { IsRecipe self.now }
    {
        &self.parsed.sources
    }

    /// The stages.
    pub fn stages(&self) -> &ListOf<Stage>
        ensures value { result.now ≡ self.now.stages }
        ensures kept { IsRecipe self.now }
    {
        &self.parsed.stages
    }

    /// The stages and the binary that are compared.
    pub fn compare(&self) -> &Compare
        ensures value { result.now ≡ self.now.compare }
        ensures kept { IsRecipe self.now }
    {
        &self.parsed.compare
    }

    /// The content that a name stands for: the input with that name, otherwise the artefact of the stage with that name.
    pub fn content(&self, name: &Name) -> Option<Content>
        ensures value { result ≡ content_named self.now.inputs self.now.stages name.now }
        ensures index { IfSome result (IsIndex self.now.inputs self.now.stages) }
    {
        content_of(
            self.parsed.inputs.as_slice(),
            self.parsed.stages.as_slice(),
            name,
        )
    }

    /// The content that a name stands for at a stage, given by its index from 0. Only inputs and earlier stages count.
    pub fn content_before(&self, stage: usize, name: &Name) -> Option<Content>
        requires { stage ≤ length self.now.stages }
        ensures value { result ≡ content_named self.now.inputs (take stage self.now.stages) name.now }
        ensures index { IfSome result (IsIndex self.now.inputs (take stage self.now.stages)) }
    {
        content_of(
            self.parsed.inputs.as_slice(),
            &self.parsed.stages.as_slice()[..stage],
            name,
        )
    }

    /// The source with a name.
    pub fn source(&self, name: &Name) -> Option<&Source>
        ensures { option_map (λ x. x.now) result ≡ source_named self.now.sources name.now }
    {
        source_named(self.parsed.sources.as_slice(), name)
    }

    /// The name of the source of the program with this name.
    pub fn source_of(&self, name: &Name) -> Option<&Name>
        ensures { option_map (λ x. x.now) result ≡ source_of self.now name.now }
    {
        match self.content(name) {
            Some(content) => content_source(&self.parsed, content),
            None => None,
        }
    }
}
