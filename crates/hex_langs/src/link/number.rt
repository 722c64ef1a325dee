//! The numbers of items of four bytes.

ghost use Rattle.std.specs.Prelude.{◌≡◌, ◌<◌, ◌≤◌, ◌-ℤ◌, pos};
ghost use Rattle.hex_langs.specs.declared.items.item.Kind.TheVariants.{U};
ghost use Rattle.hex_langs.specs.Link.Link.{distance_number, word_number, written_number, i_field, b_field, j_field, modulo_word, fits_even};
ghost use Rattle.hex_langs.specs.Link.Representation.Tables.{address_in, AreSmall};
ghost use Rattle.std.specs.Prelude.{◌≤ℤ◌, ◌^◌, neg_ℤ, unsigned_abs};

use crate::items::{Item, Kind};
use crate::link::labels::{LabelTable, address_in};

/// Why an item has no number.
#[derive(Clone, Copy)]
pub enum Miss {
    NoLabel,
    OutOfReach,
}

/// A distance as a word of 32 bits, if it fits.
fn distance_number(distance: i64) -> Result<u32, Miss>
    ensures { result ≡ distance_number distance }
{
    if distance < -2_147_483_648 || distance >= 2_147_483_648 {
        return Err(Miss::OutOfReach);
    }
    Ok((distance as i32).cast_unsigned())
}

/// Bits 11..0 of a number in bits 31..20: the immediate of an instruction of format I (RISC-V Unprivileged ISA, "Immediate Encoding
/// Variants").
pub fn i_field(distance: u32) -> u32
    ensures { result ≡ i_field distance }
{
    distance % 4096 * 1_048_576
}

fn b_field(distance: u32) -> u32
    ensures { result ≡ b_field distance }
{
    distance / 4096 % 2 * 2_147_483_648
        + distance / 32 % 64 * 33_554_432
        + distance / 2 % 16 * 256
        + distance / 2048 % 2 * 128
}

fn j_field(distance: u32) -> u32
    ensures { result ≡ j_field distance }
{
    distance / 1_048_576 % 2 * 2_147_483_648
        + distance / 2 % 1024 * 2_097_152
        + distance / 2048 % 2 * 1_048_576
        + distance / 4096 % 256 * 4096
}

/// A number modulo 2^32.
pub fn modulo_word(distance: i64) -> u32
    ensures { result ≡ modulo_word distance }
{
    distance.rem_euclid(4_294_967_296) as u32
}

fn is_even_within(distance: i64, half: i64) -> bool
    requires { pos 0 ≤ℤ half }
    ensures { result ≡ fits_even distance (unsigned_abs half) }
{
    modulo_word(distance) % 2 == 0 && distance >= -half && distance < half
}

/// The number of a word whose label is at a distance.
fn word_number(value: u32, kind: Kind, distance: i64) -> Result<u32, Miss>
    requires low { neg_ℤ (pos 1099511627776) ≤ℤ distance }
    requires high { distance ≤ℤ pos 1099511627776 }
    ensures { result ≡ word_number value kind distance }
{
    match kind {
        Kind::I => Ok(value ^ i_field(modulo_word(distance + 4))),
        Kind::B => {
            if !is_even_within(distance, 4096) {
                return Err(Miss::OutOfReach);
            }
            Ok(value ^ b_field(modulo_word(distance)))
        }
        Kind::J => {
            if !is_even_within(distance, 1_048_576) {
                return Err(Miss::OutOfReach);
            }
            Ok(value ^ j_field(modulo_word(distance)))
        }
        Kind::U => {
            let shifted = distance + 2048;
            if shifted < -2_147_483_648 || shifted >= 2_147_483_648 {
                return Err(Miss::OutOfReach);
            }
            Ok(value ^ (modulo_word(shifted) / 4096 * 4096))
        }
    }
}

/// The distance of one address from another.
fn distance(at: u64, from: u64) -> i64
    requires at { at < 2 ^ 40 }
    requires from { from < 2 ^ 40 }
    ensures value { result ≡ pos at -ℤ pos from }
    ensures low { neg_ℤ (pos 1099511627776) ≤ℤ result }
    ensures high { result ≤ℤ pos 1099511627776 }
{
    at as i64 - from as i64
}

/// The number of an item of four bytes.
pub(crate) fn number_of<'s>(
    table: &LabelTable<'s>,
    address: u64,
    item: &Item<'s>,
) -> Result<u32, Miss>
    requires address { address < 2 ^ 40 }
    requires small { AreSmall (address_in table.now) }
    ensures { result ≡ written_number (address_in table.now) address item.now }
{
    match item {
        Item::Word(value, kind, name) => match address_in(table, name) {
            None => Err(Miss::NoLabel),
            Some(at) => word_number(*value, *kind, distance(at, address)),
        },
        Item::Rel(name) => match address_in(table, name) {
            None => Err(Miss::NoLabel),
            Some(at) => distance_number(distance(at, address) - 4),
        },
        Item::Gap(name, other) => match address_in(table, name) {
            None => Err(Miss::NoLabel),
            Some(at) => match address_in(table, other) {
                None => Err(Miss::NoLabel),
                Some(from) => distance_number(distance(at, from)),
            },
        },
        Item::Abs(name) => match address_in(table, name) {
            None => Err(Miss::NoLabel),
            Some(at) => {
                if at < 4_294_967_296 {
                    Ok(at as u32)
                } else {
                    Err(Miss::OutOfReach)
                }
            }
        },
        _ => Ok(0),
    }
}
