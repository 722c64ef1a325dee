//! A compact list of items.

ghost use Rattle.std.specs.Prelude.{◌≡◌, ◌<◌, ◌≤◌, ◌+◌, List, [], ◌∷◌, ◌++◌, length, map, slice_get, OnOk, OnErr};
ghost use Rattle.std.specs.List.{AllByRecursion};
ghost use Rattle.std.specs.Option.{option_copied};
ghost use Rattle.ddc_base.specs.Limits.{most_items};
ghost use Rattle.hex_langs.specs.Items.Labels.{label_names};
ghost use Rattle.hex_langs.specs.Items.Representation.Packed.{items_of, ArePacked};
ghost use Rattle.hex_langs.specs.declared.items.item.Item.TheVariants.{Byte};

use crate::items::item::{Item, LabelName};
use ddc_base::OutOfMemory;
use std::alloc::{AllocFailed, Global};
use std::marker::Model;

/// A list of items. A byte takes four bytes of memory; every other item takes four bytes and its own size.
#[derive(Drop)]
pub struct Items<'s> {
    codes: Vec<u32>,
    others: Vec<Item<'s>>,
}

impl<'s> Model for Items<'s> {
    ghost use Rattle.std.specs.Prelude.{List};
    ghost use Rattle.hex_langs.specs.declared.items.item.Item.{Item};
    ghost use Rattle.hex_langs.specs.Items.Representation.Packed.{items_of, ArePacked};

    ghost Value = { List Item };

    ghost view = { λ i. items_of i.codes.items i.others.items };

    ghost invariant = { λ i. ArePacked i.codes.items i.others.items };
}

/// Adds a byte.
fn add_byte(codes: &mut Vec<u32>, byte: u8) -> Result<(), OutOfMemory>
    ensures ok { OnOk result (codes.new.items ≡ codes.old.items ++ byte ∷ []) }
    ensures err { OnErr result (codes.new.items ≡ codes.old.items) }
    ensures byte { byte < 256 }
{
    codes.push(u32::from(byte))?;
    Ok(())
}

/// Adds four bytes. Error: out of memory; the codes are unchanged.
fn add_four(codes: &mut Vec<u32>, bytes: [u8; 4]) -> Result<(), OutOfMemory>
    ensures ok { OnOk result (codes.new.items ≡ codes.old.items ++ bytes) }
    ensures err { OnErr result (codes.new.items ≡ codes.old.items) }
    ensures four { length bytes ≡ 4 }
    ensures small { AllByRecursion (λ byte. byte < 256) bytes }
{
    let [a, b, c, d] = bytes;
    codes.extend_from_slice(&[u32::from(a), u32::from(b), u32::from(c), u32::from(d)])?;
    Ok(())
}

/// Adds four bytes as items. Error: out of memory; the items are unchanged.
fn add_bytes(codes: &mut Vec<u32>, others: &[Item<'_>], bytes: [u8; 4]) -> Result<(), OutOfMemory>
    requires packed { ArePacked codes.old.items others.now }
    requires capacity { length codes.old.items + 4 ≤ most_items }
    ensures packed { ArePacked codes.new.items others.now }
    ensures ok { OnOk result (items_of codes.new.items others.now ≡ items_of codes.old.items others.now ++ map Byte bytes) }
    ensures err { OnErr result (items_of codes.new.items others.now ≡ items_of codes.old.items others.now) }
{
    add_four(codes, bytes)
}

/// Adds another item.
fn add_other<'s>(
    codes: &mut Vec<u32>,
    others: &mut Vec<Item<'s>>,
    item: Item<'s>,
) -> Result<(), OutOfMemory>
    requires { length others.old.items ≤ most_items }
    ensures ok_codes { OnOk result (codes.new.items ≡ codes.old.items ++ (256 + length others.old.items) ∷ []) }
    ensures ok_others { OnOk result (others.new.items ≡ others.old.items ++ item.entry ∷ []) }
    ensures err_codes { OnErr result (codes.new.items ≡ codes.old.items) }
    ensures err_others { OnErr result (others.new.items ≡ others.old.items) }
{
    let code = 256 + others.len() as u32;
    codes.push(code)?;
    match others.push(item) {
        Ok(()) => Ok(()),
        Err(AllocFailed { .. }) => {
            codes.pop();
            Err(OutOfMemory)
        }
    }
}

/// Adds an item.
fn add_item<'s>(
    codes: &mut Vec<u32>,
    others: &mut Vec<Item<'s>>,
    item: Item<'s>,
) -> Result<(), OutOfMemory>
    requires packed { ArePacked codes.old.items others.old.items }
    requires capacity { length codes.old.items < most_items }
    ensures packed { ArePacked codes.new.items others.new.items }
    ensures ok { OnOk result (items_of codes.new.items others.new.items ≡ items_of codes.old.items others.old.items ++ item.entry ∷ []) }
    ensures err { OnErr result (items_of codes.new.items others.new.items ≡ items_of codes.old.items others.old.items) }
{
    match item {
        Item::Byte(byte) => add_byte(codes, byte)?,
        item => add_other(codes, others, item)?,
    }
    Ok(())
}

impl<'s> Items<'s> {
    /// Adds one item at the end. Error: out of memory; the items are unchanged.
    pub fn push(&mut self, item: Item<'s>) -> Result<(), OutOfMemory>
        requires { length self.old < most_items }
        ensures ok { OnOk result (self.new ≡ self.old ++ item.entry ∷ []) }
        ensures err { OnErr result (self.new ≡ self.old) }
    {
        add_item(&mut self.codes, &mut self.others, item)
    }
}

impl<'s> Items<'s> {
    /// Adds four bytes at the end. Error: out of memory; the items are unchanged.
    pub fn push_bytes(&mut self, bytes: [u8; 4]) -> Result<(), OutOfMemory>
        requires { length self.old + 4 ≤ most_items }
        ensures ok { OnOk result (self.new ≡ self.old ++ map Byte bytes) }
        ensures err { OnErr result (self.new ≡ self.old) }
    {
        add_bytes(&mut self.codes, self.others.as_slice(), bytes)
    }
}

impl<'s> Items<'s> {
    /// An empty list. Allocates nothing.
    #[tactic(auto, unfolding(crate::specs::Items::Representation::Packed::items_of))]
    pub fn new(alloc: Global) -> Items<'s>
        ensures { result ≡ [] }
    {
        Items {
            codes: Vec::new(alloc),
            others: Vec::new(alloc),
        }
    }

    /// The number of items.
    pub fn len(&self) -> usize
        ensures value { result ≡ length self.now }
        ensures few { result ≤ most_items }
    {
        self.codes.len()
    }

    /// The items that are not bytes, in order. They define the same labels as all items.
    pub(crate) fn others(&self) -> &[Item<'s>]
        ensures { label_names result.now ≡ label_names self.now }
    {
        self.others.as_slice()
    }

    /// The item at an index from 0, or `None` past the end.
    pub fn get(&self, index: usize) -> Option<Item<'s>>
        ensures { result ≡ slice_get self.now index }
    {
        item_at(self.codes.as_slice(), self.others.as_slice(), index)
    }
}

/// A copy of an item.
fn copied<'s>(item: &Item<'s>) -> Item<'s>
    ensures { result ≡ item.now }
{
    match item {
        Item::Byte(byte) => Item::Byte(*byte),
        Item::Label(name) => Item::Label(LabelName::new(name.bytes())),
        Item::Word(value, kind, name) => Item::Word(*value, *kind, LabelName::new(name.bytes())),
        Item::Rel(name) => Item::Rel(LabelName::new(name.bytes())),
        Item::Gap(name, other) => Item::Gap(
            LabelName::new(name.bytes()),
            LabelName::new(other.bytes()),
        ),
        Item::Abs(name) => Item::Abs(LabelName::new(name.bytes())),
        Item::Pad => Item::Pad,
    }
}

fn other_at<'t, 's>(others: &'t [Item<'s>], index: usize) -> Option<&'t Item<'s>>
    ensures { option_copied result ≡ slice_get others.now index }
{
    others.get(index)
}

fn item_at<'s>(codes: &[u32], others: &[Item<'s>], index: usize) -> Option<Item<'s>>
    requires { ArePacked codes.now others.now }
    ensures { result ≡ slice_get (items_of codes.now others.now) index }
{
    if index >= codes.len() {
        return None;
    }
    let code = codes[index] as usize;
    if code < 256 {
        return Some(Item::Byte(code as u8));
    }
    match other_at(others, code - 256) {
        Some(item) => Some(copied(item)),
        None => Some(Item::Pad),
    }
}
