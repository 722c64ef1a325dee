ghost use Rattle.std.specs.Prelude.{◌≡◌, ◌<◌, ◌^◌, ℕ, List, ◌++◌, All, OnErr, OnOk, length, map};
ghost use Rattle.std.specs.Io.{StartsWith};
ghost use Rattle.save_format.specs.ByteFields.Reader.{Finds, GivesField, Reader, counted, several};
ghost use Rattle.save_format.specs.ByteFields.Spelling.{list_text};
ghost use Rattle.save_format.specs.Inside.Passing.{GoesPast};

use crate::byte_fields::cursor::{Cursor, ReadStop, WrongField};
use crate::byte_fields::spelling::{all_or_none, put_u32};
use ddc_base::{Bytes, OutOfMemory};
use std::alloc::Global;

/// An item of a list. Reading it may depend on the preceding item.
pub trait TextItem<'a>: Sized + Drop {
    // The item as contracts see it.
    ghost Seen: { Type 0 };

    ghost seen: { Self → Seen };

    // How it is read, if its first number must be at least the given one.
    ghost read_from: { ℕ → Reader Seen };

    // The least number of the next item.
    ghost next_least: { Seen → ℕ };

    // Its text, and which items have one.
    ghost text: { Seen → List ℕ };

    ghost IsShort: { Seen → Type 0 };

    /// Reads the item. Its first number must be at least `least`.
    fn take(cursor: &mut Cursor<'a>, least: u64) -> Result<Self, WrongField>
        ensures { Finds seen result cursor.new (read_from least cursor.old) };

    /// The least number of the next item.
    fn least_after(&self) -> u64
        ensures { result ≡ next_least (seen self.now) };

    /// Appends its text. Out of memory: a part may have been appended.
    fn add(&self, out: &mut Bytes) -> Result<(), OutOfMemory>
        requires { IsShort (seen self.now) }
        ensures ok { OnOk result (out.new ≡ out.old ++ text (seen self.now)) }
        ensures err { OnErr result (StartsWith out.new out.old) };

    /// Appends its text, all or none.
    final fn put(&self, out: &mut Bytes) -> Result<(), OutOfMemory>
        requires { IsShort (seen self.now) }
        ensures ok { OnOk result (out.new ≡ out.old ++ text (seen self.now)) }
        ensures err { OnErr result (out.new ≡ out.old) }
    {
        let len = out.len();
        let added = self.add(out);
        all_or_none(out, len, added)
    }
}

/// Reads `count` items, each given the preceding one. The count alone causes no allocation.
pub fn items<'a, T: TextItem<'a>>(
    alloc: Global,
    cursor: &mut Cursor<'a>,
    count: u32,
) -> Result<Vec<T>, ReadStop>
    ensures { GivesField (λ v. map T.seen v.items) result cursor.new (several T.read_from T.next_least 0 count cursor.old) }
{
    let mut items = Vec::new(alloc);
    let mut least = 0;
    for _ in 0..count {
        let item = T::take(cursor, least)?;
        least = item.least_after();
        items.push(item)?;
    }
    Ok(items)
}

/// Skips a count of 4 bytes, and that many items.
pub(crate) fn pass_counted<'a, T: TextItem<'a>>(cursor: &mut Cursor<'a>) -> Result<(), WrongField>
    ensures { GoesPast result cursor.new (counted T.read_from T.next_least 0 cursor.old) }
{
    let count = cursor.u32()?;
    let mut least = 0;
    for _ in 0..count {
        let item = T::take(cursor, least)?;
        least = item.least_after();
    }
    Ok(())
}

/// A count of 4 bytes, and that many items.
pub fn counted<'a, T: TextItem<'a>>(
    alloc: Global,
    cursor: &mut Cursor<'a>,
) -> Result<Vec<T>, ReadStop>
    ensures { GivesField (λ v. map T.seen v.items) result cursor.new (counted T.read_from T.next_least 0 cursor.old) }
{
    let count = cursor.u32()?;
    items(alloc, cursor, count)
}

/// Appends a count of 4 bytes, and the texts of these items. Out of memory: a part may have been appended.
#[tactic(auto, using(crate::proofs::ByteFieldsLemmas::Kept::kept))]
fn add_counted<'a, T: TextItem<'a>>(out: &mut Bytes, items: &[T]) -> Result<(), OutOfMemory>
    requires few { length items.now < 2 ^ 32 }
    requires short { All (λ item. T.IsShort (T.seen item)) items.now }
    ensures ok { OnOk result (out.new ≡ out.old ++ list_text T.text (map T.seen items.now)) }
    ensures err { OnErr result (StartsWith out.new out.old) }
{
    put_u32(out, items.len() as u32)?;
    for item in items {
        item.put(out)?;
    }
    Ok(())
}

/// Appends a count of 4 bytes, and the texts of these items, all or none.
pub fn put_counted<'a, T: TextItem<'a>>(out: &mut Bytes, items: &[T]) -> Result<(), OutOfMemory>
    requires few { length items.now < 2 ^ 32 }
    requires short { All (λ item. T.IsShort (T.seen item)) items.now }
    ensures ok { OnOk result (out.new ≡ out.old ++ list_text T.text (map T.seen items.now)) }
    ensures err { OnErr result (out.new ≡ out.old) }
{
    let len = out.len();
    let added = add_counted(out, items);
    all_or_none(out, len, added)
}
