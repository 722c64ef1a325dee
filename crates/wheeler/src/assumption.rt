use ddc_base::{ListOf, Name};

/// An assumption about a program that an unchecked stage runs. The names are the recipe's.
#[derive(Drop)]
pub enum Assumption {
    /// The content of this name, an input or a stage's artefact, is a program of the source.
    Implements {
        made: Name,
        source: Name,
    },
    /// What the source prescribes at the stage's output, in its execution context, is a program of the other source.
    Compiles {
        source: Name,
        stage: Name,
        becomes: Name,
    },
}

/// A list of assumptions.
pub type Assumptions = ListOf<Assumption>;
