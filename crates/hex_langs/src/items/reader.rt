//! Reads sources of hex1 and hex2 as items.

ghost use Rattle.hex_langs.specs.Items.Reading.{items_of, ReadsItems, fault_at, halted};
ghost use Rattle.hex_langs.specs.Items.Refusals.{hex_refusal_number, hex_refusal_place};
ghost use Rattle.hex_langs.specs.declared.items.token.Dialect.TheVariants.{Hex1, Hex2};
ghost use Rattle.std.specs.Prelude.{◌≡◌, ◌<◌};

use crate::items::items::Items;
use crate::items::token::{
    Dialect, TokenFault, gap_length, is_digit, opens_gap, pair_at, token_at,
};
use crate::items::words::{Halt, take, take_byte};
use ddc_base::OutOfMemory;
use ddc_base::limits::MOST_SOURCE;
use std::alloc::Global;

/// The first refusal of a source, with a byte offset, or of its items, with an item number. Both count from 0.
#[derive(Clone, Copy, PartialEq, Eq)]
pub enum HexRefusal {
    /// The digit at this offset has no partner.
    OddDigits(u64),
    /// No token begins at this offset, or the token there is a second reference of a word.
    BadField(u64),
    /// The fields from this offset on are not followed by exactly the four bytes of their word.
    Dangling(u64),
    /// The label of this item was defined by an earlier one.
    DoubleLabel(u64),
    /// A label that this item names is not defined.
    NoLabel(u64),
    /// A distance or an address of this item does not fit.
    OutOfReach(u64),
    /// The source has more than 67,108,864 bytes, or more than 33,554,432 items.
    TooLong,
    OutOfMemory,
}

impl From<OutOfMemory> for HexRefusal {
    ghost use Rattle.hex_langs.specs.declared.items.reader.HexRefusal.TheVariants.{OutOfMemory};

    ghost from_gives = { λ _ e. e ≡ OutOfMemory };

    fn from(_error: OutOfMemory) -> HexRefusal {
        HexRefusal::OutOfMemory
    }
}

impl HexRefusal {
    /// The number of the refusal, from 1.
    pub fn number(&self) -> u8
        ensures { result ≡ hex_refusal_number self.now }
    {
        match self {
            HexRefusal::OddDigits(_) => 1,
            HexRefusal::BadField(_) => 2,
            HexRefusal::Dangling(_) => 3,
            HexRefusal::DoubleLabel(_) => 4,
            HexRefusal::NoLabel(_) => 5,
            HexRefusal::OutOfReach(_) => 6,
            HexRefusal::TooLong => 7,
            HexRefusal::OutOfMemory => 8,
        }
    }

    /// The byte offset or item number of the refusal; 0 if it has none.
    pub fn place(&self) -> u64
        ensures { result ≡ hex_refusal_place self.now }
    {
        match self {
            HexRefusal::OddDigits(at)
            | HexRefusal::BadField(at)
            | HexRefusal::Dangling(at)
            | HexRefusal::DoubleLabel(at)
            | HexRefusal::NoLabel(at)
            | HexRefusal::OutOfReach(at) => *at,
            HexRefusal::TooLong | HexRefusal::OutOfMemory => 0,
        }
    }
}

/// The items of a hex1 source of at most 67,108,864 bytes, or the first refusal from left to right. Names are borrowed from the source.
///
/// Public source: the language hex1 of stage0-posix. docs/reference/hex1.md has the rules of this project's profile.
pub fn items1<'s>(alloc: Global, source: &'s [u8]) -> Result<Items<'s>, HexRefusal>
    ensures { ReadsItems (items_of Hex1 source.now) result }
{
    items_of(alloc, Dialect::Hex1, source)
}

/// The items of a hex2 source of at most 67,108,864 bytes, or the first refusal from left to right. Names are borrowed from the source.
///
/// Public source: the language hex2 of stage0-posix and mescc-tools. docs/reference/hex2.md has the rules of this project's profile.
pub fn items2<'s>(alloc: Global, source: &'s [u8]) -> Result<Items<'s>, HexRefusal>
    ensures { ReadsItems (items_of Hex2 source.now) result }
{
    items_of(alloc, Dialect::Hex2, source)
}

/// The items of a source.
fn items_of<'s>(alloc: Global, dialect: Dialect, source: &'s [u8]) -> Result<Items<'s>, HexRefusal>
    ensures { ReadsItems (items_of dialect source.now) result }
{
    if source.len() > MOST_SOURCE {
        return Err(HexRefusal::TooLong);
    }
    let mut items = Items::new(alloc);
    let mut word = None;
    let mut at = 0;
    while at < source.len() {
        let byte = source[at];
        if opens_gap(byte) {
            at += gap_length(&source[at..]);
        } else if is_digit(byte) {
            match pair_at(byte, &source[at + 1..]) {
                Err(fault) => return Err(fault_at(fault, at)),
                Ok((value, more)) => match take_byte(&mut items, word, value) {
                    Err(halt) => return Err(halted(halt)),
                    Ok(next) => {
                        word = next;
                        at += 1 + more;
                    }
                },
            }
        } else {
            match token_at(dialect, byte, &source[at + 1..]) {
                Err(fault) => return Err(fault_at(fault, at)),
                Ok((token, more)) => match take(&mut items, word, at, token) {
                    Err(halt) => return Err(halted(halt)),
                    Ok(next) => {
                        word = next;
                        at += 1 + more;
                    }
                },
            }
        }
    }
    match word {
        None => Ok(items),
        Some(word) => Err(HexRefusal::Dangling(word.first as u64)),
    }
}

/// The refusal of an offset at which no token begins.
fn fault_at(fault: TokenFault, at: usize) -> HexRefusal
    ensures { result ≡ fault_at fault at }
{
    match fault {
        TokenFault::OddDigits => HexRefusal::OddDigits(at as u64),
        TokenFault::BadField => HexRefusal::BadField(at as u64),
    }
}

/// The refusal of a token that is not taken.
fn halted(halt: Halt) -> HexRefusal
    ensures { result ≡ halted halt }
{
    match halt {
        Halt::Dangling(first) => HexRefusal::Dangling(first as u64),
        Halt::Second(at) => HexRefusal::BadField(at as u64),
        Halt::TooLong => HexRefusal::TooLong,
        Halt::OutOfMemory => HexRefusal::OutOfMemory,
    }
}
