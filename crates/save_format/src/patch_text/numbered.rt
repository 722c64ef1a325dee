//! Lists in the order of rising numbers, and walking them by number.
ghost use Rattle.std.specs.Prelude.{◌≡◌, ◌≤◌, ◌+◌, ℕ, drop, length, map, option_map};
ghost use Rattle.std.specs.Option.{option_copied};
ghost use Rattle.save_format.specs.PatchText.Numbered.{item_numbered};
ghost use Rattle.save_format.specs.PatchText.Inside.Walking.{IsFirst, Rises, SameFrom};

use crate::patch_text::change::Change;
use crate::state_text::{File, Page};

/// An item with a number of its own.
pub trait Numbered: Sized + Drop {
    // The item as contracts see it.
    ghost Seen: { Type 0 };

    ghost seen: { Self → Seen };

    // The item's number.
    ghost number_of: { Seen → ℕ };

    /// The item's number.
    fn number(&self) -> u32
        ensures { result ≡ number_of (seen self.now) };
}

impl<'a> Numbered for Page<'a> {
    ghost use Rattle.save_format.specs.StateText.StateText.{PageText};
    ghost use Rattle.save_format.specs.StateText.Seen.{page_view};

    ghost Seen = { PageText };

    ghost seen = { page_view };

    ghost number_of = { λ page. page.number };

    fn number(&self) -> u32 {
        self.number
    }
}

impl<'a> Numbered for File<'a> {
    ghost use Rattle.mem_files.specs.Lists.{ListedFile};
    ghost use Rattle.save_format.specs.StateText.Seen.{file_view};

    ghost Seen = { ListedFile };

    ghost seen = { file_view };

    ghost number_of = { λ file. file.number };

    fn number(&self) -> u32 {
        self.number
    }
}

impl<'a> Numbered for Change<'a> {
    ghost use Rattle.save_format.specs.PatchText.PatchText.{PageChange};
    ghost use Rattle.save_format.specs.PatchText.Seen.{change_view};

    ghost Seen = { PageChange };

    ghost seen = { change_view };

    ghost number_of = { λ change. change.number };

    fn number(&self) -> u32 {
        self.number
    }
}

/// The index of the first item from `index` on whose number is at least `number`.
pub fn from_number<T: Numbered>(items: &[T], index: usize, number: u32) -> usize
    requires within { index ≤ length items.now }
    requires rises { Rises T.number_of 0 (map T.seen (drop index items.now)) }
    ensures within { result ≤ length items.now }
    ensures rises { Rises T.number_of number (map T.seen (drop result items.now)) }
    ensures same { SameFrom T.number_of number (map T.seen (drop index items.now)) (map T.seen (drop result items.now)) }
{
    let mut index = index;
    while index < items.len() {
        if items[index].number() >= number {
            break;
        }
        index += 1;
    }
    index
}

/// The item at the index if it has this number, and the index after it; otherwise `None` and the same index.
pub fn taken<T: Numbered>(items: &[T], index: usize, number: u32) -> (Option<&T>, usize)
    requires within { index ≤ length items.now }
    requires rises { Rises T.number_of number (map T.seen (drop index items.now)) }
    ensures here { option_map T.seen (option_copied result.0) ≡ item_numbered T.number_of (map T.seen (drop index items.now)) number }
    ensures within { result.1 ≤ length items.now }
    ensures rises { Rises T.number_of (number + 1) (map T.seen (drop result.1 items.now)) }
    ensures same { SameFrom T.number_of (number + 1) (map T.seen (drop index items.now)) (map T.seen (drop result.1 items.now)) }
{
    match items.get(index) {
        None => (None, index),
        Some(item) => {
            if item.number() == number {
                (Some(item), index + 1)
            } else {
                (None, index)
            }
        }
    }
}

/// The number of the item at an index.
pub fn first_number<T: Numbered>(items: &[T], index: usize) -> Option<u32>
    ensures { IsFirst (λ item. T.number_of (T.seen item)) (drop index items.now) result }
{
    match items.get(index) {
        None => None,
        Some(item) => Some(item.number()),
    }
}
