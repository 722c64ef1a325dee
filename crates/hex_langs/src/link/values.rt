//! The value of a source in one of the languages.

ghost use Rattle.std.specs.Prelude.{◌≤◌};
ghost use Rattle.ddc_base.specs.Limits.{most_address};
ghost use Rattle.hex_langs.specs.Link.Link.{Links};
ghost use Rattle.hex_langs.specs.Link.Values.{value_of, linked};

use crate::hex0;
use crate::items::{HexRefusal, Items, items1, items2};
use crate::link::joining::link;
use ddc_base::Bytes;
use std::alloc::Global;

/// A language in which a source stands for bytes.
#[derive(Clone, Copy)]
pub enum HexLanguage {
    Hex0,
    Hex1,
    Hex2,
}

/// The bytes that a source stands for in a language, from the address `base` on, or the first refusal. hex0 ignores the base and refuses
/// nothing.
///
/// docs/reference/hex0.md, hex1.md, hex2.md and linking.md have the rules.
pub fn value(
    alloc: Global,
    language: HexLanguage,
    base: u64,
    source: &[u8],
) -> Result<Bytes, HexRefusal>
    requires { base ≤ most_address }
    ensures { Links result (value_of language base source.now) }
{
    match language {
        HexLanguage::Hex0 => Ok(hex0(alloc, source)?),
        HexLanguage::Hex1 => linked(alloc, base, items1(alloc, source)),
        HexLanguage::Hex2 => linked(alloc, base, items2(alloc, source)),
    }
}

/// The bytes of the items of a source, if it has items; otherwise its refusal.
fn linked(
    alloc: Global,
    base: u64,
    items: Result<Items<'_>, HexRefusal>,
) -> Result<Bytes, HexRefusal>
    requires { base ≤ most_address }
    ensures { Links result (linked base items.entry) }
{
    link(alloc, &items?, base)
}
