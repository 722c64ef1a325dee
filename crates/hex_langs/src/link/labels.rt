//! The table of labels.

ghost use Rattle.std.specs.Prelude.{◌≡◌, ◌<◌, ◌≤◌, length, slice_index_or, IfOk};
ghost use Rattle.ddc_base.specs.Limits.{most_address};
ghost use Rattle.indexmap.specs.IndexMap.{IsEmpty, hasher_of};
ghost use Rattle.hex_langs.specs.Items.Labels.{label_names};
ghost use Rattle.hex_langs.specs.Link.Link.{size_at};
ghost use Rattle.hex_langs.specs.Link.Representation.Tables.{Adds, Tables, address_in};
ghost use Rattle.hex_langs.specs.NameKeys.{IsKeyedBy, begun_by};

use crate::items::{HexRefusal, Item, Items, LabelName};
use crate::name_keys::KeyNames;
use ddc_base::{NamesKey, OutOfMemory};
use indexmap::IndexMap;
use std::alloc::Global;

/// The address of each label.
pub(crate) type LabelTable<'s> = IndexMap<LabelName<'s>, u64, NamesKey>;

/// The address of a label.
pub(crate) fn address_in<'s>(table: &LabelTable<'s>, name: &LabelName<'s>) -> Option<u64>
    ensures { result ≡ address_in table.now name.now }
{
    table.get(name).copied()
}

/// The number of bytes of an item at an address, 0 to 4.
pub(crate) fn size_at(address: u64, item: &Item<'_>) -> u64
    ensures value { result ≡ size_at address item.now }
    ensures small { result ≤ 4 }
{
    match item {
        Item::Byte(_) => 1,
        Item::Label(_) => 0,
        Item::Pad => (4 - address % 4) % 4,
        _ => 4,
    }
}

/// The item at an index.
pub(crate) fn item_at<'s>(items: &Items<'s>, index: usize) -> Item<'s>
    requires { index < length items.now }
    ensures { result ≡ slice_index_or items.now index result }
{
    match items.get(index) {
        Some(item) => item,
        None => unreachable!(),
    }
}

/// An empty table with room for the labels of items. Its key is made of their names.
fn table_for<'s>(alloc: Global, items: &Items<'s>) -> Result<LabelTable<'s>, OutOfMemory>
    ensures empty { IfOk result IsEmpty }
    ensures keyed { IfOk result (λ table. IsKeyedBy (label_names items.now) table) }
{
    let (count, key) = count_and_key(items.others());
    Ok(IndexMap::with_capacity_and_hasher(alloc, count, key)?)
}

/// The number of labels that items define, and the key of a table of them.
fn count_and_key(items: &[Item<'_>]) -> (usize, NamesKey)
    ensures { result.1.begun ≡ begun_by (label_names items.now) }
{
    let mut names = KeyNames::new();
    let mut count = 0_usize;
    for item in items {
        if let Item::Label(name) = item {
            names.add(name.bytes());
            count = count.saturating_add(1);
        }
    }
    (count, names.key())
}

/// Adds the label that an item at an address defines. Returns whether its name was already in the table.
fn add_label<'s>(
    table: &mut LabelTable<'s>,
    item: &Item<'s>,
    address: u64,
) -> Result<bool, OutOfMemory>
    ensures adds { Adds result item.now address table.old table.new }
    ensures kept { hasher_of table.new ≡ hasher_of table.old }
{
    match item {
        Item::Label(name) => Ok(
            table
                .insert(LabelName::new(name.bytes()), address)?
                .is_some(),
        ),
        _ => Ok(false),
    }
}

/// The address of each label. Errors: the first item that defines a label again, out of memory.
pub(crate) fn labels_of<'s>(
    alloc: Global,
    items: &Items<'s>,
    base: u64,
) -> Result<LabelTable<'s>, HexRefusal>
    requires base { base ≤ most_address }
    ensures tables { Tables result items.now base }
    ensures keyed { IfOk result (λ table. IsKeyedBy (label_names items.now) table) }
{
    let mut table = table_for(alloc, items)?;
    let mut address = base;
    for index in 0..items.len() {
        let item = item_at(items, index);
        if add_label(&mut table, &item, address)? {
            return Err(HexRefusal::DoubleLabel(index as u64));
        }
        address += size_at(address, &item);
    }
    Ok(table)
}
