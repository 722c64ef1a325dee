//! The bytes of all items.

ghost use Rattle.std.specs.Prelude.{◌≡◌, ◌<◌, ◌≤◌, ◌^◌, ◌++◌, length, OnOk, OnErr, replicate};
ghost use Rattle.ddc_base.specs.Limits.{most_address};
ghost use Rattle.hex_langs.specs.Link.Link.{bytes_from, Links, link_of, item_bytes};
ghost use Rattle.hex_langs.specs.Link.Representation.Tables.{address_in, AreSmall, Puts};

use crate::items::{HexRefusal, Item, Items, LabelName};
use crate::link::labels::{LabelTable, item_at, labels_of};
use crate::link::number::{Miss, number_of};
use ddc_base::{Bytes, OutOfMemory};
use std::alloc::Global;

/// The bytes of items at a base address, or the first refusal. The time grows with the number of items and the length of their names.
pub fn link(alloc: Global, items: &Items<'_>, base: u64) -> Result<Bytes, HexRefusal>
    requires { base ≤ most_address }
    ensures { Links result (link_of items.now base) }
{
    let table = labels_of(alloc, items, base)?;
    joined(alloc, &table, items, base)
}

/// Why an item's bytes are not written.
pub(crate) enum JoinFail {
    Miss(Miss),
    OutOfMemory,
}

impl From<OutOfMemory> for JoinFail {
    ghost use Rattle.hex_langs.specs.declared.link.joining.JoinFail.TheVariants.{OutOfMemory};

    ghost from_gives = { λ _ e. e ≡ OutOfMemory };

    fn from(_error: OutOfMemory) -> JoinFail {
        JoinFail::OutOfMemory
    }
}

/// Writes the bytes of one item.
fn put<'s>(
    out: &mut Bytes,
    table: &LabelTable<'s>,
    address: u64,
    item: &Item<'s>,
) -> Result<(), JoinFail>
    requires address { address < 2 ^ 40 }
    requires small { AreSmall (address_in table.now) }
    ensures { Puts result (item_bytes (address_in table.now) address item.now) out.old out.new }
{
    match item {
        Item::Byte(byte) => out.push(*byte)?,
        Item::Label(_) => {}
        Item::Pad => put_zeros(out, (4 - address % 4) % 4)?,
        _ => match number_of(table, address, item) {
            Err(miss) => return Err(JoinFail::Miss(miss)),
            Ok(number) => out.extend(&number.to_le_bytes())?,
        },
    }
    Ok(())
}

/// Writes at most three zero bytes.
fn put_zeros(out: &mut Bytes, count: u64) -> Result<(), OutOfMemory>
    requires { count < 4 }
    ensures ok { OnOk result (out.new ≡ out.old ++ replicate count 0) }
    ensures err { OnErr result (out.new ≡ out.old) }
{
    let zeros = [0; 4];
    out.extend(&zeros[..count as usize])
}

/// The bytes of all items.
fn joined<'s>(
    alloc: Global,
    table: &LabelTable<'s>,
    items: &Items<'s>,
    base: u64,
) -> Result<Bytes, HexRefusal>
    requires base { base ≤ most_address }
    requires small { AreSmall (address_in table.now) }
    ensures { Links result (bytes_from (address_in table.now) base 0 items.now) }
{
    let mut out = Bytes::new(alloc);
    for index in 0..items.len() {
        let address = base + out.len() as u64;
        let item = item_at(items, index);
        match put(&mut out, table, address, &item) {
            Err(JoinFail::Miss(Miss::NoLabel)) => return Err(HexRefusal::NoLabel(index as u64)),
            Err(JoinFail::Miss(Miss::OutOfReach)) => {
                return Err(HexRefusal::OutOfReach(index as u64));
            }
            Err(JoinFail::OutOfMemory) => return Err(HexRefusal::OutOfMemory),
            Ok(()) => {}
        }
    }
    Ok(out)
}
