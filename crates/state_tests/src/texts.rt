//! Tests of the texts of states and saves: what is expected comes from docs/reference/save.md and docs/reference/delta.md.

ghost use Rattle.std.specs.Prelude.{◌≡◌, ◌++◌, OnOk, replicate};

use std::alloc::AllocError;

#[cfg(test)]
mod deltas;
#[cfg(test)]
mod guest_patches;
#[cfg(test)]
mod guests;
#[cfg(test)]
mod patches;
#[cfg(test)]
mod pieces;
#[cfg(test)]
mod runs;
#[cfg(test)]
mod saves;
#[cfg(test)]
mod starts;
#[cfg(test)]
mod states;

/// Adds 32 bytes that stand for a digest, each of them the given one.
pub fn put_digest(out: &mut Vec<u8>, byte: u8) -> Result<(), AllocError>
    ensures { OnOk result (out.new.items ≡ out.old.items ++ replicate 32 byte) }
{
    out.extend_from_slice(&[byte; 32])
}
