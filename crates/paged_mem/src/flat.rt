ghost use Rattle.std.specs.Prelude.{◌≢◌, ◌*◌, Err};
ghost use Rattle.paged_mem.specs.Ram.{count_of, Stores, Writes};
ghost use Rattle.paged_mem.specs.Inside.Flat.{AreFlatPages};
ghost use Rattle.paged_mem.specs.Inside.Wholeness.{AreFlatPages-prop};

use crate::mapping::{map_pages, unmap_pages};
use crate::pages::{fill, number, put, put_number, row_from, span};
use crate::ram::{PageView, Ram, StoreRefusal, Width};
use crate::{PAGE, PAGE_LEN};
use ddc_base::OutOfMemory;
use std::alloc::Global;
use std::marker::Model;

/// A guest's memory in one vector: the mapped page numbers, ascending, and the bytes of all those pages in that order.
///
/// A lookup first guesses that the page is in the row from the first page on (a program's), or in the row up to the
/// last page (the stack's). If neither is true, it searches the page numbers by halves.
#[derive(Drop)]
pub struct FlatRam {
    pages: Vec<u64>,
    bytes: Vec<u8>,
    ghost sound: { AreFlatPages pages.items bytes.items } by { AreFlatPages-prop pages.items bytes.items },
}

impl Model for FlatRam {
    ghost use Rattle.paged_mem.specs.Held.{Held};
    ghost use Rattle.paged_mem.specs.Inside.Codes.{held_code};
    ghost use Rattle.paged_mem.specs.Inside.Wholeness.{IsWhole-memory_of};
    ghost use Rattle.paged_mem.specs.Inside.Flat.{memory_of};

    ghost Value = { Held };

    ghost coded = { held_code };

    ghost view = { λ ram. record {
      bytes = memory_of ram.pages.items ram.bytes.items;
      whole = IsWhole-memory_of ram.pages.items ram.bytes.items ram.sound;
    } };
}

impl Ram for FlatRam {
    ghost bytes = { λ ram. ram.bytes };

    fn empty(alloc: Global) -> FlatRam {
        FlatRam {
            pages: Vec::new(alloc),
            bytes: Vec::new(alloc),
        }
    }

    fn load(&self, at: u64, width: Width) -> Option<u64> {
        match span(&self.pages, at, width.count()) {
            None => None,
            Some(start) => Some(number(&self.bytes, start, width)),
        }
    }

    fn store(&mut self, at: u64, width: Width, value: u64) -> Result<(), StoreRefusal>
        ensures stores { Stores self.old.bytes at (count_of width) value result self.new.bytes }
        ensures needs_no_memory { result ≢ Err StoreRefusal.OutOfMemory }
    {
        match span(&self.pages, at, width.count()) {
            None => Err(StoreRefusal::Unmapped),
            Some(start) => {
                put_number(&mut self.bytes, start, width, value);
                Ok(())
            }
        }
    }

    fn load_near(&self, _at: u64, _width: Width) -> Option<u64> {
        None
    }

    fn fetch_near(&mut self, _at: u64) -> Option<u64> {
        None
    }

    fn store_near(&mut self, _at: u64, _width: Width, _value: u64) -> bool {
        false
    }

    fn mapped(&self, at: u64, count: u64) -> bool {
        span(&self.pages, at, count).is_some()
    }

    fn read_into(&self, at: u64, out: &mut [u8]) -> bool {
        match span(&self.pages, at, out.len() as u64) {
            None => false,
            Some(start) => {
                fill(out, &self.bytes, start);
                true
            }
        }
    }

    fn write_from(&mut self, at: u64, source: &[u8]) -> Result<(), StoreRefusal>
        ensures writes { Writes self.old.bytes at source.now result self.new.bytes }
        ensures needs_no_memory { result ≢ Err StoreRefusal.OutOfMemory }
    {
        match span(&self.pages, at, source.len() as u64) {
            None => Err(StoreRefusal::Unmapped),
            Some(start) => {
                put(&mut self.bytes, start, source);
                Ok(())
            }
        }
    }

    fn map_zero(&mut self, first: u64, pages: u64) -> Result<(), OutOfMemory> {
        map_pages(&mut self.pages, &mut self.bytes, first, pages as usize)
    }

    fn unmap(&mut self, first: u64, pages: u64) {
        unmap_pages(&mut self.pages, &mut self.bytes, first, pages as usize);
    }

    fn run_from(&self, at: u64) -> Option<(u64, u64)> {
        match row_from(&self.pages, at / PAGE) {
            None => None,
            Some((first, count)) => Some((PAGE * first, count)),
        }
    }

    fn page(&self, first: u64) -> PageView<'_> {
        match span(&self.pages, first, PAGE) {
            None => PageView::Unmapped,
            Some(start) => PageView::Full(&self.bytes[start..start + PAGE_LEN]),
        }
    }

    ghost whole = { λ ram. ram.whole };
}
