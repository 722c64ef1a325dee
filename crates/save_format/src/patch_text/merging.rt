//! Differences of pages, and their application: both walk two lists together, by number.
ghost use Rattle.std.specs.Prelude.{◌≡◌, IfOk, map, option_map};
ghost use Rattle.std.specs.Option.{option_copied};
ghost use Rattle.save_format.specs.ByteFields.Spelling.{InTurn};
ghost use Rattle.save_format.specs.StateText.StateText.{after_page};
ghost use Rattle.save_format.specs.StateText.Encoded.{IsPage};
ghost use Rattle.save_format.specs.StateText.Seen.{page_view};
ghost use Rattle.save_format.specs.PatchText.Inside.Walking.{IsLowest, Rises};
ghost use Rattle.save_format.specs.PatchText.PatchText.{bytes_changed_by, changed_pages, equal_contents};
ghost use Rattle.save_format.specs.PatchText.Encoded.{page_change_of, page_changes};
ghost use Rattle.save_format.specs.PatchText.Seen.{bytes_in, change_view};

use crate::patch_text::change::Change;
use crate::patch_text::numbered::{first_number, taken};
use crate::state_text::Page;
use ddc_base::OutOfMemory;
use std::alloc::Global;

/// The lower of two first numbers.
fn lowest(first: Option<u32>, second: Option<u32>) -> Option<u32>
    ensures { IsLowest first second result }
{
    match first {
        None => second,
        Some(first) => match second {
            None => Some(first),
            Some(second) => Some(first.min(second)),
        },
    }
}

/// Whether both are absent, or both have the same bytes.
pub(crate) fn are_same(known: Option<&[u8]>, found: Option<&[u8]>) -> bool
    ensures { result ≡ equal_contents (option_copied known.entry) (option_copied found.entry) }
{
    match known {
        None => found.is_none(),
        Some(known) => match found {
            None => false,
            Some(found) => known == found,
        },
    }
}

/// The changes that turn the pages of a base into these pages. Error: out of memory.
pub fn changes<'a>(
    alloc: Global,
    base: &[Page<'_>],
    pages: &[Page<'a>],
) -> Result<Vec<Change<'a>>, OutOfMemory>
    requires base { InTurn IsPage after_page 0 (map page_view base.now) }
    requires pages { InTurn IsPage after_page 0 (map page_view pages.now) }
    ensures { IfOk result (λ v. map change_view v.items ≡ page_changes (map page_view base.now) (map page_view pages.now)) }
{
    let mut found = Vec::new(alloc);
    let mut at = 0;
    let mut now = 0;
    let mut least = 0;
    while let Some(number) = lowest(first_number(base, at), first_number(pages, now)) {
        let (known, later) = taken(base, at, number);
        let (page, later_now) = taken(pages, now, number);
        if let Some(change) = change_of(number, known, page) {
            found.push(change)?;
        }
        at = later;
        now = later_now;
        least = u64::from(number) + 1;
    }
    Ok(found)
}

/// The change of the base's page with this number; `None` if nothing changed.
fn change_of<'a>(
    number: u32,
    known: Option<&Page<'_>>,
    found: Option<&Page<'a>>,
) -> Option<Change<'a>>
    ensures { option_map change_view result ≡ page_change_of number (bytes_in known.entry) (bytes_in found.entry) }
{
    let bytes = bytes_of(found);
    if are_same(bytes_of(known), bytes) {
        None
    } else {
        Some(Change { number, bytes })
    }
}

/// The bytes of a page, if there is one.
pub(crate) fn bytes_of<'a>(page: Option<&Page<'a>>) -> Option<&'a [u8]>
    ensures { option_copied result ≡ bytes_in page.entry }
{
    match page {
        None => None,
        Some(page) => Some(page.bytes),
    }
}

/// The pages obtained by applying changes to those of a base. Error: out of memory.
pub fn changed<'a>(
    alloc: Global,
    base: &[Page<'a>],
    changes: &[Change<'a>],
) -> Result<Vec<Page<'a>>, OutOfMemory>
    requires base { InTurn IsPage after_page 0 (map page_view base.now) }
    requires changes { Rises (λ change. change.number) 0 (map change_view changes.now) }
    ensures { IfOk result (λ v. map page_view v.items ≡ changed_pages (map page_view base.now) (map change_view changes.now)) }
{
    let mut pages = Vec::new(alloc);
    let mut at = 0;
    let mut now = 0;
    let mut least = 0;
    while let Some(number) = lowest(first_number(base, at), first_number(changes, now)) {
        let (known, later) = taken(base, at, number);
        let (change, later_now) = taken(changes, now, number);
        if let Some(bytes) = made_of(known, change) {
            pages.push(Page { number, bytes })?;
        }
        at = later;
        now = later_now;
        least = u64::from(number) + 1;
    }
    Ok(pages)
}

/// The bytes of a page after a change, if it has one.
fn made_of<'a>(known: Option<&Page<'a>>, change: Option<&Change<'a>>) -> Option<&'a [u8]>
    ensures { option_copied result ≡ bytes_changed_by (bytes_in known.entry) (option_map change_view (option_copied change.entry)) }
{
    match change {
        None => bytes_of(known),
        Some(change) => change.bytes,
    }
}
