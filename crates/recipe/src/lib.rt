//! The recipe of an audit, and what its names stand for. Two walks read its tables from a TOML text; module `text` reads the value at a
//! key of a table.
//!
//! Its rules for people: docs/reference/recipe.md.
#![tactic(auto)]

mod accepted;
mod comparison;
mod contents;
mod inputs;
pub mod laws;
mod lookups;
mod names;
mod parts;
mod prefix;
mod reading;
mod references;
mod sources;
mod stage_files;
mod stages;
pub mod text;
mod top_tables;

pub use crate::text::{Key, Path, Place, RecipeRefusal, Table};
pub use accepted::Recipe;
pub use parts::{
    Compare, Content, Input, Inputs, Output, Source, SourceLanguage, Stage, StageFile,
};
pub use reading::read;
