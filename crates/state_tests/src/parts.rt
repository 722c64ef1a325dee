//! Tests of files, memories and guests as parts, by the public calls of their crates alone: a crate of their own, so that none
//! of those crates is proved twice for its tests.

ghost use Rattle.std.specs.Prelude.{◌≡◌};

use save_format::state_text::Run;

#[cfg(test)]
mod files;
#[cfg(test)]
mod guests;
#[cfg(test)]
mod memories;

/// So many pages from one on.
pub fn run_at(first: u32, pages: u32) -> Run
    ensures first { result.first ≡ first }
    ensures pages { result.pages ≡ pages }
{
    Run { first, pages }
}
