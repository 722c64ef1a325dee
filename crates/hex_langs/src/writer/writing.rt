//! Items as a text of hex2.

ghost use Rattle.std.specs.Prelude.{◌≡◌, ◌<◌, ◌++◌, ◌∷◌, [], IfOk, OnOk, length, slice_index, slice_index_or};
ghost use Rattle.hex_langs.specs.declared.items.item.Item.TheVariants.{Pad};
ghost use Rattle.std.specs.Int.{w32, to_le_bytes};
ghost use Rattle.hex.specs.Hex.{encode_upper, upper_digits};
ghost use Rattle.hex_langs.specs.Writer.Writing.{item_line, kind_sign, items_text};

use crate::items::{Item, Items, Kind};
use ddc_base::{Bytes, OutOfMemory};
use std::alloc::Global;

/// The hex2 text of these items: one line for each item, with upper-case digits. Error: out of memory.
///
/// hex2 reads it as the same items if no name is empty or has a blank or `>`, each number fits its field, and the text has at most
/// 67,108,864 bytes.
pub fn write_items(alloc: Global, items: &Items<'_>) -> Result<Bytes, OutOfMemory>
    ensures { IfOk result (λ text. text ≡ items_text items.now) }
{
    let mut text = Bytes::new(alloc);
    for index in 0..items.len() {
        put_item(&mut text, items, index)?;
    }
    Ok(text)
}

/// Adds the line of the item at an index.
fn put_item(text: &mut Bytes, items: &Items<'_>, index: usize) -> Result<(), OutOfMemory>
    requires { index < length items.now }
    ensures { OnOk result (text.new ≡ text.old ++ item_line (slice_index_or items.now index Pad)) }
{
    match items.get(index) {
        Some(item) => put_line(text, &item),
        None => Ok(()),
    }
}

/// Adds the line of an item.
fn put_line(text: &mut Bytes, item: &Item<'_>) -> Result<(), OutOfMemory>
    ensures { OnOk result (text.new ≡ text.old ++ item_line item.now) }
{
    match item {
        Item::Byte(byte) => put_byte(text, *byte),
        Item::Label(name) => put_named(text, b':', name.bytes()),
        Item::Word(value, kind, name) => put_word(text, *value, *kind, name.bytes()),
        Item::Rel(name) => put_named(text, b'%', name.bytes()),
        Item::Gap(name, other) => put_gap(text, name.bytes(), other.bytes()),
        Item::Abs(name) => put_named(text, b'&', name.bytes()),
        Item::Pad => text.extend(b"<\n"),
    }
}

/// The upper-case digit of a value below 16.
fn digit(value: u8) -> u8
    requires { value < 16 }
    ensures { result ≡ slice_index upper_digits value }
{
    b"0123456789ABCDEF"[value as usize]
}

/// Adds the line of a byte.
#[tactic(auto, unfolding(hex::specs::Hex::encode_with))]
fn put_byte(text: &mut Bytes, byte: u8) -> Result<(), OutOfMemory>
    ensures { OnOk result (text.new ≡ text.old ++ (encode_upper (byte ∷ []) ++ 10 ∷ [])) }
{
    text.extend(&[digit(byte / 16), digit(byte % 16), b'\n'])
}

/// Adds the line of a sign and a name.
fn put_named(text: &mut Bytes, sign: u8, name: &[u8]) -> Result<(), OutOfMemory>
    ensures { OnOk result (text.new ≡ text.old ++ sign ∷ (name.now ++ 10 ∷ [])) }
{
    text.push(sign)?;
    text.extend(name)?;
    text.push(b'\n')
}

/// Adds the line of two names.
fn put_gap(text: &mut Bytes, name: &[u8], other: &[u8]) -> Result<(), OutOfMemory>
    ensures { OnOk result (text.new ≡ text.old ++ 37 ∷ (name.now ++ 62 ∷ (other.now ++ 10 ∷ []))) }
{
    text.push(b'%')?;
    text.extend(name)?;
    text.push(b'>')?;
    text.extend(other)?;
    text.push(b'\n')
}

/// The sign of a kind.
fn kind_sign(kind: Kind) -> u8
    ensures { result ≡ kind_sign kind }
{
    match kind {
        Kind::I => b'!',
        Kind::B => b'@',
        Kind::J => b'$',
        Kind::U => b'~',
    }
}

/// Adds the line of a word.
#[tactic(auto, unfolding(hex::specs::Hex::encode_with))]
fn put_word(text: &mut Bytes, value: u32, kind: Kind, name: &[u8]) -> Result<(), OutOfMemory>
    ensures { OnOk result (text.new ≡ text.old ++ kind_sign kind ∷ (name.now ++ 32 ∷ (encode_upper (to_le_bytes w32 value) ++ 10 ∷ []))) }
{
    let [a, b, c, d] = value.to_le_bytes();
    text.push(kind_sign(kind))?;
    text.extend(name)?;
    text.push(b' ')?;
    text.extend(&[
        digit(a / 16),
        digit(a % 16),
        digit(b / 16),
        digit(b % 16),
        digit(c / 16),
        digit(c % 16),
        digit(d / 16),
        digit(d % 16),
        b'\n',
    ])
}
