//! How tables over names from outside the program are hashed.

ghost use Rattle.std.specs.Hash.DefaultHasher as sip;
ghost use Rattle.std.specs.Prelude.{◌≡◌, [], ◌++◌, ℕ, List};
ghost use Rattle.sha2.specs.Hashers.{Holds256};
ghost use Rattle.sha2.specs.Sha256.{sha256};
ghost use Rattle.ddc_base.specs.NameTables.{begun_with, framed};

use sha2::{Digest as _, Sha256};
use std::hash::{BuildHasher, DefaultHasher, Hasher};

/// Digests the names that will be the keys of a table, one after the other. Allocates nothing.
#[derive(Drop)]
pub struct NamesDigest {
    taken: Sha256,
}

impl NamesDigest {
    /// A digest of no names.
    pub fn new() -> NamesDigest
        ensures { Holds256 result.taken [] }
    {
        NamesDigest {
            taken: Sha256::new(),
        }
    }

    /// Adds one more name.
    pub fn add(&mut self, name: &[u8])
        ensures { (message : List ℕ) → Holds256 self.old.taken message → Holds256 self.new.taken (message ++ framed name.now) }
    {
        let length = name.len();
        if length < 255 {
            self.taken.update(&[length as u8]);
        } else {
            self.taken.update(&[255]);
            self.taken.update(&length.to_le_bytes());
        }
        self.taken.update(name);
    }

    /// The hasher of the table of these names.
    pub fn key(self) -> NamesKey
        ensures { (message : List ℕ) → Holds256 self.taken message → result.begun ≡ begun_with (sha256 message) }
    {
        let mut begun = DefaultHasher::new();
        begun.write(&self.taken.finalize());
        NamesKey { begun }
    }
}

/// The `BuildHasher` of a table over names: SipHash whose first input is the SHA-256 digest of all the names.
/// Any change of a name changes this key, so nobody can prepare names that collide.
#[derive(Clone, Copy)]
pub struct NamesKey {
    begun: DefaultHasher,
}

impl NamesKey {
    /// The key of a table without entries.
    pub fn of_none() -> NamesKey
        ensures { result.begun ≡ sip.initial }
    {
        NamesKey {
            begun: DefaultHasher::new(),
        }
    }
}

impl BuildHasher for NamesKey {
    type Hasher = DefaultHasher;

    ghost build_hasher = { λ key. key.begun };

    fn build_hasher(&self) -> DefaultHasher {
        self.begun
    }
}
