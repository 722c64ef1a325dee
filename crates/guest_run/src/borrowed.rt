//! Bytes borrowed from their owner.

ghost use Rattle.std.specs.Prelude.{◌≡◌, length};

use std::marker::Model;

/// Borrowed bytes. Contracts see a list of numbers below 256.
#[derive(Drop)]
pub(crate) struct Borrowed<'a> {
    bytes: &'a [u8],
}

impl<'a> Model for Borrowed<'a> {
    ghost use Rattle.std.specs.Prelude.{ℕ, List};

    ghost Value = { List ℕ };

    ghost view = { λ borrowed. borrowed.bytes.now };
}

impl<'a> Borrowed<'a> {
    /// Borrows these bytes.
    pub(crate) fn new(bytes: &'a [u8]) -> Borrowed<'a>
        ensures { result ≡ bytes.now }
    {
        Borrowed { bytes }
    }

    /// All the bytes.
    pub(crate) fn as_slice(&self) -> &'a [u8]
        ensures { result.now ≡ self.now }
    {
        self.bytes
    }

    /// The number of bytes.
    pub(crate) fn len(&self) -> usize
        ensures { result ≡ length self.now }
    {
        self.bytes.len()
    }
}
