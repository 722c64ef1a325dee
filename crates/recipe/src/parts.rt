use crate::text::Path;
use ddc_base::languages::Language;
use ddc_base::{Bytes, ListOf, Name};

/// The inputs' contents, in the recipe's order.
pub type Inputs = ListOf<Bytes>;

/// A file that the audit is given.
#[derive(Drop)]
pub struct Input {
    pub name: Name,
    /// The path by which a file store (`Shelf`) loads it.
    pub path: Path,
    /// The name of the source that it is trusted to be a program of.
    pub implements: Option<Name>,
}

/// The language of a source.
#[derive(Clone, Copy)]
pub enum SourceLanguage {
    /// A language that ddc defines.
    Defined(Language),
    /// The word `other`: a language without a definition here.
    Other,
}

/// A program's text.
#[derive(Drop)]
pub struct Source {
    pub name: Name,
    pub lang: SourceLanguage,
    /// The base address of the value of a hex1 or hex2 source: at most 2^37.
    pub base: u64,
    /// The names of 1 to 64 contents that make up the text, in order.
    pub files: ListOf<Name>,
}

/// A file that a stage's program finds.
#[derive(Drop)]
pub struct StageFile {
    /// The program's path of it: 1 to 255 bytes that do not begin with `./`.
    pub path: Bytes,
    /// The name of its content.
    pub from: Name,
}

/// What a stage makes.
#[derive(Drop)]
pub enum Output {
    /// What the program writes on its standard output.
    Stream,
    /// The file with this path that the program leaves: 1 to 255 bytes that do not begin with `./`.
    File(Bytes),
}

/// A run of a program, which makes an artefact.
#[derive(Drop)]
pub struct Stage {
    pub name: Name,
    /// The name of an input or of an earlier stage's artefact.
    pub program: Name,
    /// 1 to 64 texts of at most 255 bytes, none of them zero.
    pub args: ListOf<Bytes>,
    /// At most 64 texts of at most 255 bytes, none of them zero.
    pub env: ListOf<Bytes>,
    /// At most 256 files with distinct paths.
    pub files: ListOf<StageFile>,
    pub output: Output,
    /// The largest number of steps of the run: 1 to 2^48.
    pub steps: u64,
    /// The largest size of the heap in bytes: at most 2^30.
    pub heap: u64,
    /// The name of the source whose value the artefact must be.
    pub check: Option<Name>,
    /// The name of the source that the artefact is a program of.
    pub becomes: Option<Name>,
}

/// The stages and the binary that are compared at the end.
#[derive(Drop)]
pub struct Compare {
    /// The names of stages without repetition: one in format 1, 1 to 16 in format 2.
    pub stages: ListOf<Name>,
    /// The name of an input.
    pub binary: Name,
}

/// What the name of an input or a stage stands for, by its index from 0.
#[derive(Clone, Copy, PartialEq, Eq)]
pub enum Content {
    /// The input with this index.
    Input(usize),
    /// The artefact of the stage with this index.
    Stage(usize),
}
