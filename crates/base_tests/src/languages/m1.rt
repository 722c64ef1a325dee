//! Tests of M1: rows of the reference page, and sources whose bytes Debian's M1 and hex2 give (tests/languages).

ghost use Rattle.std.specs.Prelude.{◌≡◌, IfOk, codes, string_bytes};
ghost use Rattle.std.specs.List.{repeat};

use ddc_base::OutOfMemory;
use std::alloc::Global;

#[cfg(test)]
mod m1_linked;
#[cfg(test)]
mod sources;

/// The text of so many blanks in a source.
pub fn blanks(alloc: Global, count: usize) -> Result<String, OutOfMemory>
    ensures { IfOk result (λ text. string_bytes text ≡ repeat count (codes " ")) }
{
    Ok(" ".repeat(alloc, count)?)
}
