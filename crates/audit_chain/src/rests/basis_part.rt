use ddc_base::{ListOf, Name};

/// A part from which a stage's artefact is made, by its name.
#[derive(Drop)]
pub enum BasisPart {
    /// Bytes that are read as they are: a file of an unchecked stage's program, or one of a check's source.
    Reads(Name),
    /// The one file of a check's source in hex2, of which only the items matter.
    Links(Name),
    /// The program that an unchecked stage runs.
    Runs(Name),
}

/// A list of parts.
pub type BasisParts = ListOf<BasisPart>;
