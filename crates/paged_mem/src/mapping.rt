ghost use Rattle.std.specs.Prelude.{◌≡◌, ◌+◌, ◌*◌, ◌%◌, ◌<◌, ◌≤◌, IsTrue, OnOk, OnErr, length};
ghost use Rattle.ddc_base.specs.Limits.{address_end};
ghost use Rattle.paged_mem.specs.Memory.{IsFree, maps, with_bytes, without, zeros};
ghost use Rattle.paged_mem.specs.Inside.Entries.{ArePages, flat, held_pages};
ghost use Rattle.paged_mem.specs.Inside.Flat.{AreFlatPages, memory_of};

use crate::entries::Entry;
use crate::gaps::{close_gap, insert_numbers, open_entries, open_gap};
use crate::pages::rank;
use crate::{PAGE, PAGE_LEN};
use ddc_base::OutOfMemory;
use std::alloc::AllocError;

/// Maps `count` pages of zeros, none of them mapped before, from the page at `first` on.
pub fn map_pages(
    pages: &mut Vec<u64>,
    bytes: &mut Vec<u8>,
    first: u64,
    count: usize,
) -> Result<(), OutOfMemory>
    requires sound { AreFlatPages pages.old.items bytes.old.items }
    requires aligned { first % 4096 ≡ 0 }
    requires low { first + 4096 * count ≤ address_end }
    requires free { IsFree (memory_of pages.old.items bytes.old.items) first (4096 * count) }
    ensures sound { AreFlatPages pages.new.items bytes.new.items }
    ensures ok { OnOk result (memory_of pages.new.items bytes.new.items
        ≡ with_bytes (memory_of pages.old.items bytes.old.items) first (zeros (4096 * count))) }
    ensures err { OnErr result (memory_of pages.new.items bytes.new.items ≡ memory_of pages.old.items bytes.old.items) }
{
    let at = rank(pages, first / PAGE);
    open_gap(bytes, PAGE_LEN * at, PAGE_LEN * count, 0)?;
    match insert_numbers(pages, at, first / PAGE, count) {
        Ok(()) => Ok(()),
        Err(AllocError) => {
            close_gap(bytes, PAGE_LEN * at, PAGE_LEN * count);
            Err(OutOfMemory)
        }
    }
}

/// Unmaps `count` mapped pages from the page at `first` on.
pub fn unmap_pages(pages: &mut Vec<u64>, bytes: &mut Vec<u8>, first: u64, count: usize)
    requires sound { AreFlatPages pages.old.items bytes.old.items }
    requires aligned { first % 4096 ≡ 0 }
    requires present { IsTrue (maps (memory_of pages.old.items bytes.old.items) first (4096 * count)) }
    ensures sound { AreFlatPages pages.new.items bytes.new.items }
    ensures unmapped { memory_of pages.new.items bytes.new.items
        ≡ without (memory_of pages.old.items bytes.old.items) first (4096 * count) }
{
    let at = rank(pages, first / PAGE);
    close_gap(pages, at, count);
    close_gap(bytes, PAGE_LEN * at, PAGE_LEN * count);
}

/// Maps `count` pages without stored bytes, none of them mapped before, from the page at `first` on.
pub fn map_entries(
    pages: &mut Vec<u64>,
    entries: &mut Vec<Entry>,
    first: u64,
    count: usize,
) -> Result<(), OutOfMemory>
    requires pages { ArePages pages.old.items entries.old.items }
    requires aligned { first % 4096 ≡ 0 }
    requires low { first + 4096 * count ≤ address_end }
    requires free { IsFree (memory_of pages.old.items (flat entries.old.items)) first (4096 * count) }
    ensures pages { ArePages pages.new.items entries.new.items }
    ensures held { held_pages pages.new.items entries.new.items ≡ held_pages pages.old.items entries.old.items }
    ensures ok { OnOk result (memory_of pages.new.items (flat entries.new.items)
        ≡ with_bytes (memory_of pages.old.items (flat entries.old.items)) first (zeros (4096 * count))) }
    ensures err { OnErr result (memory_of pages.new.items (flat entries.new.items) ≡ memory_of pages.old.items (flat entries.old.items)) }
{
    let at = rank(pages, first / PAGE);
    open_entries(entries, at, count)?;
    match insert_numbers(pages, at, first / PAGE, count) {
        Ok(()) => Ok(()),
        Err(AllocError) => {
            close_gap(entries, at, count);
            Err(OutOfMemory)
        }
    }
}

/// Unmaps `count` mapped pages from the page at `first` on, and frees their bytes.
pub fn unmap_entries(pages: &mut Vec<u64>, entries: &mut Vec<Entry>, first: u64, count: usize)
    requires pages { ArePages pages.old.items entries.old.items }
    requires aligned { first % 4096 ≡ 0 }
    requires present { IsTrue (maps (memory_of pages.old.items (flat entries.old.items)) first (4096 * count)) }
    ensures pages { ArePages pages.new.items entries.new.items }
    ensures held { length (held_pages pages.new.items entries.new.items) ≤ length (held_pages pages.old.items entries.old.items) }
    ensures unmapped { memory_of pages.new.items (flat entries.new.items)
        ≡ without (memory_of pages.old.items (flat entries.old.items)) first (4096 * count) }
{
    let at = rank(pages, first / PAGE);
    close_gap(pages, at, count);
    close_gap(entries, at, count);
}
