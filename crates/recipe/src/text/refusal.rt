ghost use Rattle.std.specs.Prelude.{◌≡◌};
ghost use Rattle.recipe.specs.Text.Refusals.{recipe_refusal_number, recipe_refusal_place, refusal_key};
ghost use Rattle.recipe.specs.declared.text.refusal.RecipeRefusal.TheVariants.{OutOfMemory as Wanting};

use crate::text::keys::{Key, Place};
use std::alloc::{AllocError, AllocFailed};
use thiserror::Error;

/// Why a text is not a recipe: the first refusal of the two walks, with its table and key.
#[derive(Clone, Copy, Debug, Error)]
pub enum RecipeRefusal {
    /// The bytes are not a TOML text.
    #[error("not TOML")]
    NotToml,
    /// A key is absent or has the wrong type, an array is too short, or a program of an unchecked stage has no source.
    #[error("missing")]
    Missing(Place, Key),
    /// The table has a key that tables of its kind do not have.
    #[error("unknown key")]
    Unknown(Place),
    /// The name is invalid, or the language is not one of the five or not one in which a stage can be checked.
    #[error("bad name")]
    BadName(Place, Key),
    /// The name, or the path among a stage's files, is already used above.
    #[error("double name")]
    DoubleName(Place, Key),
    /// The name stands for nothing that exists by then.
    #[error("not made yet")]
    NotMadeYet(Place, Key),
    /// The path, or the word for a program, is invalid.
    #[error("bad path")]
    BadPath(Place, Key),
    /// The number is out of its range.
    #[error("bad number")]
    BadNumber(Place, Key),
    /// The array is longer than its limit.
    #[error("too many")]
    TooMany(Place, Key),
    #[error("out of memory")]
    OutOfMemory,
}

impl RecipeRefusal {
    /// The number of the refusal, 1 to 10 in the order of the variants.
    pub fn number(&self) -> u8
        ensures { result ≡ recipe_refusal_number self.now }
    {
        match self {
            RecipeRefusal::NotToml => 1,
            RecipeRefusal::Missing(_, _) => 2,
            RecipeRefusal::Unknown(_) => 3,
            RecipeRefusal::BadName(_, _) => 4,
            RecipeRefusal::DoubleName(_, _) => 5,
            RecipeRefusal::NotMadeYet(_, _) => 6,
            RecipeRefusal::BadPath(_, _) => 7,
            RecipeRefusal::BadNumber(_, _) => 8,
            RecipeRefusal::TooMany(_, _) => 9,
            RecipeRefusal::OutOfMemory => 10,
        }
    }

    /// The refused table, if there is one.
    pub fn place(&self) -> Option<Place>
        ensures { result ≡ recipe_refusal_place self.now }
    {
        match self {
            RecipeRefusal::NotToml | RecipeRefusal::OutOfMemory => None,
            RecipeRefusal::Unknown(place) => Some(*place),
            RecipeRefusal::Missing(place, _)
            | RecipeRefusal::BadName(place, _)
            | RecipeRefusal::DoubleName(place, _)
            | RecipeRefusal::NotMadeYet(place, _)
            | RecipeRefusal::BadPath(place, _)
            | RecipeRefusal::BadNumber(place, _)
            | RecipeRefusal::TooMany(place, _) => Some(*place),
        }
    }

    /// The refused key, if there is one.
    pub fn key(&self) -> Option<Key>
        ensures { result ≡ refusal_key self.now }
    {
        match self {
            RecipeRefusal::NotToml | RecipeRefusal::Unknown(_) | RecipeRefusal::OutOfMemory => None,
            RecipeRefusal::Missing(_, key)
            | RecipeRefusal::BadName(_, key)
            | RecipeRefusal::DoubleName(_, key)
            | RecipeRefusal::NotMadeYet(_, key)
            | RecipeRefusal::BadPath(_, key)
            | RecipeRefusal::BadNumber(_, key)
            | RecipeRefusal::TooMany(_, key) => Some(*key),
        }
    }
}

impl From<ddc_base::OutOfMemory> for RecipeRefusal {
    ghost from_gives = { λ _ e. e ≡ Wanting };

    fn from(_error: ddc_base::OutOfMemory) -> RecipeRefusal {
        RecipeRefusal::OutOfMemory
    }
}

impl From<AllocError> for RecipeRefusal {
    ghost from_gives = { λ _ e. e ≡ Wanting };

    fn from(_error: AllocError) -> RecipeRefusal {
        RecipeRefusal::OutOfMemory
    }
}

impl<T: Drop> From<AllocFailed<T>> for RecipeRefusal {
    ghost from_gives = { λ _ e. e ≡ Wanting };

    fn from(_error: AllocFailed<T>) -> RecipeRefusal {
        RecipeRefusal::OutOfMemory
    }
}
