//! Tests of the languages: rows of the reference pages, and sources whose bytes Debian's hex2 gives (tests/languages).

ghost use Rattle.std.specs.Prelude.{◌≡◌, IfOk, codes, string_bytes};
ghost use Rattle.std.specs.List.{repeat};

use ddc_base::OutOfMemory;
use std::alloc::Global;

#[cfg(test)]
mod hex0;
#[cfg(test)]
mod linked;
pub mod m1;
#[cfg(test)]
mod sources;

/// The text of so many zero bytes in a source.
pub fn zeros(alloc: Global, count: usize) -> Result<String, OutOfMemory>
    ensures { IfOk result (λ text. string_bytes text ≡ repeat count (codes " 00")) }
{
    Ok(" 00".repeat(alloc, count)?)
}
