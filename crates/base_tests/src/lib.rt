//! Tests of `ddc_base`, `prompt` and the languages, by their public calls.
#![tactic(auto)]

ghost use Rattle.std.specs.Prelude.{◌≡◌, ◌%◌};

#[cfg(test)]
mod hosts;
pub mod languages;
#[cfg(test)]
mod outside;
#[cfg(test)]
mod prompts;
#[cfg(test)]
mod saving;
#[cfg(test)]
mod streams;
#[cfg(test)]
mod texts;

/// The byte at an offset of the streams that the tests read. Its period divides no buffer's size.
pub fn byte_at(offset: usize) -> u8
    ensures { result ≡ offset % 251 }
{
    (offset % 251) as u8
}
