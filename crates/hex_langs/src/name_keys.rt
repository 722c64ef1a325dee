//! The key of a table of names.

ghost use Rattle.std.specs.Prelude.{◌≡◌, ℕ, List, [], ◌∷◌, ◌++◌};
ghost use Rattle.hex_langs.specs.NameKeys.{Took, begun_by};

use ddc_base::{NamesDigest, NamesKey};

/// A digest of the names that a table will have. Allocates nothing.
#[derive(Drop)]
pub struct KeyNames {
    digest: NamesDigest,
    are_none: bool,
}

impl KeyNames {
    /// A digest of no names yet.
    pub fn new() -> KeyNames
        ensures { Took result [] }
    {
        KeyNames {
            digest: NamesDigest::new(),
            are_none: true,
        }
    }

    /// Adds one more name to the digest.
    pub fn add(&mut self, name: &[u8])
        ensures { (names : List (List ℕ)) → Took self.old names → Took self.new (names ++ name.now ∷ []) }
    {
        self.digest.add(name);
        self.are_none = false;
    }

    /// The key of a table that has these names.
    pub fn key(self) -> NamesKey
        ensures { (names : List (List ℕ)) → Took self names → result.begun ≡ begun_by names }
    {
        // An empty list of names needs no digest.
        if self.are_none {
            NamesKey::of_none()
        } else {
            self.digest.key()
        }
    }
}
