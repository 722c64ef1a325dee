//! The first item at which two lists differ.

ghost use Rattle.hex_langs.specs.declared.items.item.Item.{Item as ItemOf};
ghost use Rattle.audit_rules.specs.SourceCheck.Checks.{first_other_item, same_item};
ghost use Rattle.std.specs.Prelude.{◌≡◌, ◌<◌, length, slice_index_or};

use audit_rules::source_check::{same_kind, same_name};
use hex_langs::items::{Item, Items};

/// The number, from 0, of the first item at which two lists differ or exactly one of them has ended.
pub(crate) fn first_other_item(ours: &Items<'_>, theirs: &Items<'_>) -> Option<u64>
    ensures { result ≡ first_other_item ours.now theirs.now }
{
    let shorter = ours.len().min(theirs.len());
    for index in 0..shorter {
        if !same_at(ours, theirs, index) {
            return Some(index as u64);
        }
    }
    if ours.len() == theirs.len() {
        None
    } else {
        Some(shorter as u64)
    }
}

/// Whether both lists have the same item at an index.
fn same_at(ours: &Items<'_>, theirs: &Items<'_>, index: usize) -> bool
    requires ours { index < length ours.now }
    requires theirs { index < length theirs.now }
    ensures { (d : ItemOf) → result ≡ same_item (slice_index_or ours.now index d) (slice_index_or theirs.now index d) }
{
    match (ours.get(index), theirs.get(index)) {
        (Some(one), Some(other)) => same_item(&one, &other),
        _ => unreachable!(),
    }
}

/// Whether two items are the same.
#[tactic(auto, unfolding(audit_rules::specs::SourceCheck::Checks::same_item))]
fn same_item(one: &Item<'_>, other: &Item<'_>) -> bool
    ensures { result ≡ same_item one.now other.now }
{
    match (one, other) {
        (Item::Byte(a), Item::Byte(b)) => a == b,
        (Item::Label(x), Item::Label(y)) => same_name(x, y),
        (Item::Word(a, j, x), Item::Word(b, k, y)) => a == b
            && same_kind(*j, *k)
            && same_name(x, y),
        (Item::Rel(x), Item::Rel(y)) => same_name(x, y),
        (Item::Gap(x, z), Item::Gap(y, w)) => same_name(x, y) && same_name(z, w),
        (Item::Abs(x), Item::Abs(y)) => same_name(x, y),
        (Item::Pad, Item::Pad) => true,
        _ => false,
    }
}
