ghost use Rattle.std.specs.Prelude.{◌≡◌, ◌+◌, ◌*◌, ◌%◌, ◌^◌, ◌<◌, ◌≤◌, [], Err, IfSome, Some, IsTrue, OnOk, OnErr, length};
ghost use Rattle.ddc_base.specs.Limits.{address_end};
ghost use Rattle.paged_mem.specs.Memory.{IsFree, maps, reads, with_bytes, without, zeros};
ghost use Rattle.paged_mem.specs.Ram.{count_of, Stores, StoresNear, Writes};
ghost use Rattle.paged_mem.specs.Inside.Entries.{ArePages, AreRowsOf, IsHeldPage};
ghost use Rattle.paged_mem.specs.Inside.Wholeness.{ArePages-prop, AreRowsOf-prop, IsHeldPage-prop};
ghost use Rattle.paged_mem.specs.Paged.{pages_touched, TouchesUnheld};
ghost use Rattle.std.specs.FinMap as map;

use crate::access::{
    fetch_near, load_at, load_near, mapped_at, page_at, read_at, run_at, store_near, write_at,
};
use crate::entries::{Entry, count_held};
use crate::mapping::{map_entries, unmap_entries};
use crate::ram::{PageView, Ram, StoreRefusal, Width};
use crate::rows::{PageRow, Rows};
use ddc_base::OutOfMemory;
use std::alloc::Global;
use std::marker::Model;

/// A guest's memory that allocates bytes only for pages that were written. Each mapped page has an entry: the page's
/// 4,096 bytes, or nothing while all of them are zero since the page was mapped.
///
/// Three rows of pages need no search: the row from the first page on, the row after it, and the row up to the last page.
/// Any other address is found by a search. The page of the last fetch is remembered if it has stored bytes.
/// Contracts see the map, and the numbers of the pages with stored bytes.
#[derive(Drop)]
pub struct PagedRam {
    pages: Vec<u64>,
    entries: Vec<Entry>,
    rows: Rows,
    code: PageRow,
    alloc: Global,
    ghost are: { ArePages pages.items entries.items } by { ArePages-prop pages.items entries.items },
    ghost rows_are: { AreRowsOf pages.items rows } by { AreRowsOf-prop pages.items rows },
    ghost code_is: { IsHeldPage pages.items entries.items code } by { IsHeldPage-prop pages.items entries.items code },
}

impl Model for PagedRam {
    ghost use Rattle.paged_mem.specs.Held.{PagedMemory};
    ghost use Rattle.paged_mem.specs.Inside.Codes.{paged_code};
    ghost use Rattle.paged_mem.specs.Inside.Wholeness.{IsWhole-memory_of};
    ghost use Rattle.paged_mem.specs.Inside.Entries.{flat, held_pages};
    ghost use Rattle.paged_mem.specs.Inside.Flat.{memory_of};

    ghost Value = { PagedMemory };

    ghost coded = { paged_code };

    ghost view = { λ ram. record {
      bytes = memory_of ram.pages.items (flat ram.entries.items);
      whole = IsWhole-memory_of ram.pages.items (flat ram.entries.items) ram.are.sound;
      held = held_pages ram.pages.items ram.entries.items;
    } };
}

impl PagedRam {
    /// How many mapped pages have stored bytes. The other pages use no memory but their entry's.
    pub fn held(&self) -> u64
        ensures { result ≡ length self.now.held }
    {
        count_held(&self.entries)
    }
}

impl Ram for PagedRam {
    ghost bytes = { λ ram. ram.bytes };

    fn empty(alloc: Global) -> PagedRam
        ensures empty { result.bytes ≡ map.empty }
        ensures held { result.held ≡ [] }
    {
        PagedRam {
            pages: Vec::new(alloc),
            entries: Vec::new(alloc),
            rows: Rows::none(),
            code: PageRow::none(),
            alloc,
        }
    }

    #[inline(always)]
    fn load(&self, at: u64, width: Width) -> Option<u64> {
        load_at(&self.pages, &self.entries, &self.rows, at, width)
    }

    /// Before it writes, allocates the bytes of each page concerned that has none stored yet. Out of memory: no byte
    /// has changed, and some of these pages may now have stored zeros.
    #[inline(always)]
    fn store(&mut self, at: u64, width: Width, value: u64) -> Result<(), StoreRefusal>
        ensures stores { Stores self.old.bytes at (count_of width) value result self.new.bytes }
        ensures raises { length self.new.held ≤ length self.old.held + pages_touched at (count_of width) }
        ensures kept { length self.old.held ≤ length self.new.held }
        ensures unmapped { result ≡ Err StoreRefusal.Unmapped → self.new.held ≡ self.old.held }
        ensures wants { result ≡ Err StoreRefusal.OutOfMemory → TouchesUnheld self.old.held at (count_of width) }
    {
        if self.store_near(at, width, value) {
            return Ok(());
        }
        self.write_from(at, &value.to_le_bytes()[..width.count() as usize])
    }

    #[inline(always)]
    fn load_near(&self, at: u64, width: Width) -> Option<u64> {
        load_near(&self.pages, &self.entries, &self.rows, at, width)
    }

    /// Remembers the page if it is in one of the rows and has stored bytes: the next fetch from it looks up no entry.
    #[inline(always)]
    fn fetch_near(&mut self, at: u64) -> Option<u64>
        requires { at % 4 ≡ 0 }
        ensures same { self.new ≡ self.old }
        ensures value { IfSome result (λ value. reads self.old.bytes at 4 ≡ Some value) }
        ensures fits { IfSome result (λ value. value < 2 ^ 32) }
    {
        fetch_near(&self.pages, &self.entries, &self.rows, &mut self.code, at)
    }

    #[inline(always)]
    fn store_near(&mut self, at: u64, width: Width, value: u64) -> bool
        ensures stores { StoresNear self.old.bytes at (count_of width) value result self.new.bytes }
        ensures held { self.new.held ≡ self.old.held }
    {
        store_near(&self.pages, &mut self.entries, &self.rows, at, width, value)
    }

    fn mapped(&self, at: u64, count: u64) -> bool {
        mapped_at(&self.pages, &self.entries, &self.rows, at, count)
    }

    fn read_into(&self, at: u64, out: &mut [u8]) -> bool {
        read_at(&self.pages, &self.entries, &self.rows, at, out)
    }

    /// Before it writes, allocates the bytes of each page concerned that has none stored yet.
    fn write_from(&mut self, at: u64, source: &[u8]) -> Result<(), StoreRefusal>
        ensures writes { Writes self.old.bytes at source.now result self.new.bytes }
        ensures raises { length self.new.held ≤ length self.old.held + pages_touched at (length source.now) }
        ensures kept { length self.old.held ≤ length self.new.held }
        ensures unmapped { result ≡ Err StoreRefusal.Unmapped → self.new.held ≡ self.old.held }
        ensures wants { result ≡ Err StoreRefusal.OutOfMemory → TouchesUnheld self.old.held at (length source.now) }
    {
        let written = write_at(
            self.alloc,
            &self.pages,
            &mut self.entries,
            &self.rows,
            at,
            source,
        );
        self.code = PageRow::none();
        written
    }

    fn map_zero(&mut self, first: u64, pages: u64) -> Result<(), OutOfMemory>
        requires aligned { first % 4096 ≡ 0 }
        requires low { first + 4096 * pages ≤ address_end }
        requires free { IsFree self.old.bytes first (4096 * pages) }
        ensures ok { OnOk result (self.new.bytes ≡ with_bytes self.old.bytes first (zeros (4096 * pages))) }
        ensures err { OnErr result (self.new.bytes ≡ self.old.bytes) }
        ensures held { self.new.held ≡ self.old.held }
    {
        let mapped = map_entries(&mut self.pages, &mut self.entries, first, pages as usize);
        self.rows = Rows::of(&self.pages);
        self.code = PageRow::none();
        mapped
    }

    fn unmap(&mut self, first: u64, pages: u64)
        requires aligned { first % 4096 ≡ 0 }
        requires present { IsTrue (maps self.old.bytes first (4096 * pages)) }
        ensures unmapped { self.new.bytes ≡ without self.old.bytes first (4096 * pages) }
        ensures held { length self.new.held ≤ length self.old.held }
    {
        unmap_entries(&mut self.pages, &mut self.entries, first, pages as usize);
        self.rows = Rows::of(&self.pages);
        self.code = PageRow::none();
    }

    fn run_from(&self, at: u64) -> Option<(u64, u64)> {
        run_at(&self.pages, &self.entries, at)
    }

    fn page(&self, first: u64) -> PageView<'_> {
        page_at(&self.pages, &self.entries, first)
    }

    ghost whole = { λ ram. ram.whole };
}
