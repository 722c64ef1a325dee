//! Words: fields and at most one reference, followed by exactly four bytes.

ghost use Rattle.hex_langs.specs.Items.Words.{taken, byte_taken, word_items, Takes, Adds};
ghost use Rattle.ddc_base.specs.Limits.{most_items};
ghost use Rattle.hex_langs.specs.declared.items.item.Item.TheVariants.{Byte};
ghost use Rattle.hex_langs.specs.declared.items.token.Token.TheVariants as token;
ghost use Rattle.std.specs.Prelude.{ℕ, bit_xor};
ghost use Rattle.std.specs.Int.{w32, from_le_bytes, to_le_bytes};
ghost use Rattle.std.specs.Prelude.{◌≡◌, [], ◌∷◌, ◌≤◌, ◌<◌, length, map, OnErr};

use crate::items::item::{Item, Kind, LabelName};
use crate::items::items::Items;
use crate::items::token::Token;
use ddc_base::OutOfMemory;
use ddc_base::limits::MOST_ITEMS;

/// The bytes of an open word so far.
#[derive(Clone, Copy)]
pub enum Begun {
    Nothing,
    One(u8),
    Two(u8, u8),
    Three(u8, u8, u8),
}

/// A word that lacks some of its four bytes.
#[derive(Drop)]
pub struct Open<'s> {
    /// The offset of its first field or reference.
    pub first: usize,
    /// Its fields, XORed.
    pub mask: u32,
    pub reference: Option<(Kind, LabelName<'s>)>,
    pub begun: Begun,
}

/// Why a token is not taken.
#[derive(Clone, Copy)]
pub enum Halt {
    /// The word that begins at this offset is not complete.
    Dangling(usize),
    /// The reference at this offset is the second one of its word.
    Second(usize),
    /// The list would have more items than allowed.
    TooLong,
    OutOfMemory,
}

impl From<OutOfMemory> for Halt {
    ghost use Rattle.hex_langs.specs.declared.items.words.Halt.TheVariants.{OutOfMemory};

    ghost from_gives = { λ _ e. e ≡ OutOfMemory };

    fn from(_error: OutOfMemory) -> Halt {
        Halt::OutOfMemory
    }
}

/// Takes one token, with or without an open word before it. An error leaves the items unchanged.
pub fn take<'s>(
    items: &mut Items<'s>,
    word: Option<Open<'s>>,
    at: usize,
    token: Token<'s>,
) -> Result<Option<Open<'s>>, Halt>
    requires { length items.old ≤ most_items }
    ensures takes { Takes result (taken word.entry at token.entry) items.old items.new }
    ensures few { length items.new ≤ most_items }
    ensures kept { OnErr result (items.new ≡ items.old) }
{
    match (word, token) {
        (None, Token::Byte(byte)) => {
            add(items, Item::Byte(byte))?;
            Ok(None)
        }
        (None, Token::Alone(item)) => {
            add(items, item)?;
            Ok(None)
        }
        (None, Token::Field(mask)) => Ok(Some(Open {
            first: at,
            mask,
            reference: None,
            begun: Begun::Nothing,
        })),
        (None, Token::Reference(kind, name)) => Ok(Some(Open {
            first: at,
            mask: 0,
            reference: Some((kind, name)),
            begun: Begun::Nothing,
        })),
        (Some(word), Token::Byte(byte)) => byte_of_word(items, word, byte),
        (Some(word), Token::Field(mask)) => match word.begun {
            Begun::Nothing => Ok(Some(Open {
                mask: word.mask ^ mask,
                ..word
            })),
            _ => Err(Halt::Dangling(word.first)),
        },
        (Some(word), Token::Reference(kind, name)) => match (word.reference, word.begun) {
            (Some(_), _) => Err(Halt::Second(at)),
            (None, Begun::Nothing) => Ok(Some(Open {
                reference: Some((kind, name)),
                ..word
            })),
            (None, _) => Err(Halt::Dangling(word.first)),
        },
        (Some(word), Token::Alone(_)) => Err(Halt::Dangling(word.first)),
    }
}

/// Takes a byte, with or without an open word before it. An error leaves the items unchanged.
pub fn take_byte<'s>(
    items: &mut Items<'s>,
    word: Option<Open<'s>>,
    byte: u8,
) -> Result<Option<Open<'s>>, Halt>
    requires { length items.old ≤ most_items }
    ensures takes { (at : ℕ) → Takes result (taken word.entry at (token.Byte byte)) items.old items.new }
    ensures few { length items.new ≤ most_items }
    ensures kept { OnErr result (items.new ≡ items.old) }
{
    match word {
        None => {
            add(items, Item::Byte(byte))?;
            Ok(None)
        }
        Some(word) => byte_of_word(items, word, byte),
    }
}

/// Takes a byte of an open word.
fn byte_of_word<'s>(
    items: &mut Items<'s>,
    word: Open<'s>,
    byte: u8,
) -> Result<Option<Open<'s>>, Halt>
    requires { length items.old ≤ most_items }
    ensures takes { Takes result (byte_taken word.entry byte) items.old items.new }
    ensures few { length items.new ≤ most_items }
    ensures kept { OnErr result (items.new ≡ items.old) }
{
    let begun = match word.begun {
        Begun::Nothing => Begun::One(byte),
        Begun::One(a) => Begun::Two(a, byte),
        Begun::Two(a, b) => Begun::Three(a, b, byte),
        Begun::Three(a, b, c) => {
            take_four(items, word, [a, b, c, byte])?;
            return Ok(None);
        }
    };
    Ok(Some(Open {
        first: word.first,
        mask: word.mask,
        reference: word.reference,
        begun,
    }))
}

/// Takes all four bytes of an open word at once. An error leaves the items unchanged.
pub fn take_four<'s>(items: &mut Items<'s>, word: Open<'s>, bytes: [u8; 4]) -> Result<(), Halt>
    requires { length items.old ≤ most_items }
    ensures adds { Adds (word_items word.entry.reference (bit_xor word.entry.mask (from_le_bytes w32 bytes))) result items.old items.new }
    ensures few { length items.new ≤ most_items }
    ensures kept { OnErr result (items.new ≡ items.old) }
{
    let value = word.mask ^ u32::from_le_bytes(bytes);
    match word.reference {
        None => add_bytes(items, value),
        Some((kind, name)) => add(items, Item::Word(value, kind, name)),
    }
}

/// Adds an item, unless the list is full.
fn add<'s>(items: &mut Items<'s>, item: Item<'s>) -> Result<(), Halt>
    requires { length items.old ≤ most_items }
    ensures adds { Adds (item.entry ∷ []) result items.old items.new }
    ensures few { length items.new ≤ most_items }
    ensures kept { OnErr result (items.new ≡ items.old) }
{
    if items.len() == MOST_ITEMS {
        return Err(Halt::TooLong);
    }
    items.push(item)?;
    Ok(())
}

/// Adds the four bytes of a word without a reference.
fn add_bytes<'s>(items: &mut Items<'s>, value: u32) -> Result<(), Halt>
    requires { length items.old ≤ most_items }
    ensures adds { Adds (map Byte (to_le_bytes w32 value)) result items.old items.new }
    ensures few { length items.new ≤ most_items }
    ensures kept { OnErr result (items.new ≡ items.old) }
{
    if items.len() > MOST_ITEMS - 4 {
        return Err(Halt::TooLong);
    }
    items.push_bytes(value.to_le_bytes())?;
    Ok(())
}
