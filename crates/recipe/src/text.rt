//! Reads the value at a key of a recipe's tables, or refuses it.
//!
//! The tables are those of a document of TOML 1.0.0 (toml.io), whose bytes are UTF-8 (RFC 3629). docs/reference/recipe.md has the rules
//! for a reader.

mod documents;
mod fields;
mod keys;
mod lists;
mod paths;
mod refusal;
mod values;

pub use documents::document;
pub use fields::{
    find, no_other_key, optional_name, optional_number, required, required_name, required_number,
};
pub use keys::{Key, Place, Table};
pub use lists::{array, names, tables, words};
pub use paths::{Path, is_path};
pub use refusal::RecipeRefusal;
pub use values::{name, number, path, table, text, word};
