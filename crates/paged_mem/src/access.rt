//! Reading and writing at addresses, over pages and their entries.

ghost use Rattle.std.specs.Prelude.{◌≡◌, ◌+◌, ◌-◌, ◌*◌, ◌%◌, ◌^◌, ◌<◌, ◌≤◌, length, IfSome, slice_index, unwrap_or, Err, Some};
ghost use Rattle.paged_mem.specs.Memory.{bytes_at, maps, reads};
ghost use Rattle.paged_mem.specs.Ram.{count_of, RunsFrom, shown_bytes, StoresNear, Writes};
ghost use Rattle.paged_mem.specs.Inside.Entries.{AreFull, ArePages, AreRowsOf, IsHeldPage, flat, held_pages};
ghost use Rattle.paged_mem.specs.Inside.Flat.{AreLow, Rises, Spans, memory_of, number_at};
ghost use Rattle.paged_mem.specs.Paged.{pages_touched, TouchesUnheld};

use crate::entries::{Entry, number_held, number_in, put_into, read, take_memory, write};
use crate::pages::{find, row_from, span};
use crate::ram::{PageView, StoreRefusal, Width};
use crate::rows::{PageRow, Rows};
use crate::{PAGE, PAGE_LEN};
use ddc_base::OutOfMemory;
use std::alloc::Global;

/// The byte at an index of these pages.
fn byte_at(entries: &[Entry], start: usize) -> u64
    requires full { AreFull entries.now }
    requires within { start < 4096 * length entries.now }
    ensures value { result ≡ slice_index (flat entries.now) start }
    ensures fits { result < 256 }
{
    number_in(&entries[start / PAGE_LEN], start % PAGE_LEN, Width::W1)
}

fn two_across(entries: &[Entry], start: usize) -> u64
    requires full { AreFull entries.now }
    requires within { start + 2 ≤ 4096 * length entries.now }
    requires few { 4096 * length entries.now < 2 ^ 64 }
    ensures value { result ≡ number_at (flat entries.now) start 2 }
    ensures fits { result < 2 ^ 16 }
{
    byte_at(entries, start) + 0x100 * byte_at(entries, start + 1)
}

fn four_across(entries: &[Entry], start: usize) -> u64
    requires full { AreFull entries.now }
    requires within { start + 4 ≤ 4096 * length entries.now }
    requires few { 4096 * length entries.now < 2 ^ 64 }
    ensures value { result ≡ number_at (flat entries.now) start 4 }
    ensures fits { result < 2 ^ 32 }
{
    two_across(entries, start) + 0x1_0000 * two_across(entries, start + 2)
}

/// The little-endian number of an access that begins at an index of these pages.
fn number_from(entries: &[Entry], start: usize, width: Width) -> u64
    requires full { AreFull entries.now }
    requires within { start + count_of width ≤ 4096 * length entries.now }
    requires few { 4096 * length entries.now < 2 ^ 64 }
    ensures value { result ≡ number_at (flat entries.now) start (count_of width) }
    ensures fits { result < 2 ^ (8 * count_of width) }
{
    let low = start % PAGE_LEN;
    if low + width.count() as usize <= PAGE_LEN {
        return number_in(&entries[start / PAGE_LEN], low, width);
    }
    match width {
        Width::W1 => byte_at(entries, start),
        Width::W2 => two_across(entries, start),
        Width::W4 => four_across(entries, start),
        Width::W8 => {
            four_across(entries, start) + 0x1_0000_0000 * four_across(entries, start + 4)
        }
    }
}

/// The number at an address, found by a search among all pages; `None` if a byte of it is unmapped.
#[cold]
#[inline(never)]
fn load_anywhere(pages: &[u64], entries: &[Entry], at: u64, width: Width) -> Option<u64>
    requires { ArePages pages.now entries.now }
    ensures value { result ≡ reads (memory_of pages.now (flat entries.now)) at (count_of width) }
    ensures fits { IfSome result (λ value. value < 2 ^ (8 * count_of width)) }
{
    match span(pages, at, width.count()) {
        None => None,
        Some(start) => Some(number_from(entries, start, width)),
    }
}

/// The number at an address, if its bytes lie in one page of one of the rows; otherwise `None`.
#[inline(always)]
pub fn load_near(
    _pages: &[u64],
    entries: &[Entry],
    rows: &Rows,
    at: u64,
    width: Width,
) -> Option<u64>
    requires pages { ArePages _pages.now entries.now }
    requires rows { AreRowsOf _pages.now rows.now }
    ensures value { IfSome result (λ value. reads (memory_of _pages.now (flat entries.now)) at (count_of width) ≡ Some value) }
    ensures fits { IfSome result (λ value. value < 2 ^ (8 * count_of width)) }
{
    let low = (at % PAGE) as usize;
    if low + width.count() as usize <= PAGE_LEN {
        if let Some(index) = rows.find(at) {
            return Some(number_in(&entries[index], low, width));
        }
    }
    None
}

/// The four bytes at a multiple of 4, if their page is in one of the rows and has stored bytes. `code` remembers that
/// page: the next fetch from it looks up no entry.
#[inline(always)]
pub fn fetch_near(
    _pages: &[u64],
    entries: &[Entry],
    rows: &Rows,
    code: &mut PageRow,
    at: u64,
) -> Option<u64>
    requires pages { ArePages _pages.now entries.now }
    requires rows { AreRowsOf _pages.now rows.now }
    requires code { IsHeldPage _pages.now entries.now code.old }
    requires aligned { at % 4 ≡ 0 }
    ensures code { IsHeldPage _pages.now entries.now code.new }
    ensures value { IfSome result (λ value. reads (memory_of _pages.now (flat entries.now)) at 4 ≡ Some value) }
    ensures fits { IfSome result (λ value. value < 2 ^ 32) }
{
    if at.wrapping_sub(code.base) >= code.size {
        *code = held_page(_pages, entries, rows, at);
    }
    word_in(_pages, entries, *code, at)
}

/// The page of an address, if it is in one of the rows and has stored bytes; otherwise a row of no pages.
#[inline(always)]
fn held_page(_pages: &[u64], entries: &[Entry], rows: &Rows, at: u64) -> PageRow
    requires pages { ArePages _pages.now entries.now }
    requires rows { AreRowsOf _pages.now rows.now }
    ensures { IsHeldPage _pages.now entries.now result }
{
    match rows.find(at) {
        Some(index) if entries[index].is_some() => PageRow {
            base: at - at % PAGE,
            size: PAGE,
            index,
        },
        _ => PageRow::none(),
    }
}

/// The four bytes at a multiple of 4, if they lie on this page, which has stored bytes.
#[inline(always)]
fn word_in(_pages: &[u64], entries: &[Entry], page: PageRow, at: u64) -> Option<u64>
    requires pages { ArePages _pages.now entries.now }
    requires page { IsHeldPage _pages.now entries.now page }
    requires aligned { at % 4 ≡ 0 }
    ensures value { IfSome result (λ value. reads (memory_of _pages.now (flat entries.now)) at 4 ≡ Some value) }
    ensures fits { IfSome result (λ value. value < 2 ^ 32) }
{
    let ahead = at.wrapping_sub(page.base);
    if ahead < page.size {
        return Some(number_held(&entries[page.index], ahead as usize, Width::W4));
    }
    None
}

/// The number at an address; `None` if a byte of it is unmapped.
#[inline(always)]
pub fn load_at(pages: &[u64], entries: &[Entry], rows: &Rows, at: u64, width: Width) -> Option<u64>
    requires pages { ArePages pages.now entries.now }
    requires rows { AreRowsOf pages.now rows.now }
    ensures value { result ≡ reads (memory_of pages.now (flat entries.now)) at (count_of width) }
    ensures fits { IfSome result (λ value. value < 2 ^ (8 * count_of width)) }
{
    match load_near(pages, entries, rows, at, width) {
        Some(value) => Some(value),
        None => load_anywhere(pages, entries, at, width),
    }
}

/// The index where the bytes of `count` addresses from `at` on begin, if all of them are on these pages. On one page of
/// a row, no search is needed.
#[inline(always)]
fn start_of(pages: &[u64], rows: &Rows, at: u64, count: u64) -> Option<usize>
    requires rising { Rises pages.now }
    requires low { AreLow pages.now }
    requires few { 4096 * length pages.now < 2 ^ 64 }
    requires rows { AreRowsOf pages.now rows.now }
    ensures { Spans pages.now at count result }
{
    let low = at % PAGE;
    if count != 0 && count <= PAGE - low {
        if let Some(index) = rows.find(at) {
            return Some(PAGE_LEN * index + low as usize);
        }
    }
    span(pages, at, count)
}

/// Fills `out` from an address on. If a byte is unmapped: returns `false`, and `out` is unchanged.
pub fn read_at(pages: &[u64], entries: &[Entry], rows: &Rows, at: u64, out: &mut [u8]) -> bool
    requires pages { ArePages pages.now entries.now }
    requires rows { AreRowsOf pages.now rows.now }
    ensures answer { result ≡ maps (memory_of pages.now (flat entries.now)) at (length out.old) }
    ensures moved { out.new ≡ unwrap_or (bytes_at (memory_of pages.now (flat entries.now)) at (length out.old)) out.old }
{
    match start_of(pages, rows, at, out.len() as u64) {
        None => false,
        Some(start) => {
            read(entries, start, out);
            true
        }
    }
}

/// Writes bytes from an address on, all or none. Allocates the memory of all pages concerned before it writes.
pub fn write_at(
    alloc: Global,
    pages: &[u64],
    entries: &mut [Entry],
    rows: &Rows,
    at: u64,
    source: &[u8],
) -> Result<(), StoreRefusal>
    requires pages { ArePages pages.now entries.old }
    requires rows { AreRowsOf pages.now rows.now }
    ensures pages { ArePages pages.now entries.new }
    ensures writes { Writes (memory_of pages.now (flat entries.old)) at source.now result (memory_of pages.now (flat entries.new)) }
    ensures raises { length (held_pages pages.now entries.new)
        ≤ length (held_pages pages.now entries.old) + pages_touched at (length source.now) }
    ensures kept { length (held_pages pages.now entries.old) ≤ length (held_pages pages.now entries.new) }
    ensures unmapped { result ≡ Err StoreRefusal.Unmapped
        → held_pages pages.now entries.new ≡ held_pages pages.now entries.old }
    ensures wants { result ≡ Err StoreRefusal.OutOfMemory
        → TouchesUnheld (held_pages pages.now entries.old) at (length source.now) }
{
    if source.is_empty() {
        return Ok(());
    }
    let Some(start) = start_of(pages, rows, at, source.len() as u64) else {
        return Err(StoreRefusal::Unmapped);
    };
    let end = start + source.len();
    match take_memory(alloc, entries, start / PAGE_LEN, (end - 1) / PAGE_LEN + 1) {
        Ok(()) => {
            write(entries, start, source);
            Ok(())
        }
        Err(OutOfMemory) => Err(StoreRefusal::OutOfMemory),
    }
}

/// Stores the low bytes of a number, if the access lies in one page of one of the rows and that page has stored bytes.
#[inline(always)]
pub fn store_near(
    _pages: &[u64],
    entries: &mut [Entry],
    rows: &Rows,
    at: u64,
    width: Width,
    value: u64,
) -> bool
    requires pages { ArePages _pages.now entries.old }
    requires rows { AreRowsOf _pages.now rows.now }
    ensures pages { ArePages _pages.now entries.new }
    ensures stores { StoresNear (memory_of _pages.now (flat entries.old)) at (count_of width) value result
        (memory_of _pages.now (flat entries.new)) }
    ensures held { held_pages _pages.now entries.new ≡ held_pages _pages.now entries.old }
    ensures code { (page : PageRow) → IsHeldPage _pages.now entries.old page → IsHeldPage _pages.now entries.new page }
{
    let low = (at % PAGE) as usize;
    let count = width.count() as usize;
    let bytes = value.to_le_bytes();
    if low + count <= PAGE_LEN {
        if let Some(index) = rows.find(at) {
            if entries[index].is_some() {
                put_into(&mut entries[index], low, &bytes[..count]);
                return true;
            }
        }
    }
    false
}

/// The page at an address: unmapped, zero if it has no stored bytes, or its bytes.
pub fn page_at<'a>(pages: &[u64], entries: &'a [Entry], first: u64) -> PageView<'a>
    requires pages { ArePages pages.now entries.now }
    requires aligned { first % 4096 ≡ 0 }
    ensures { shown_bytes result ≡ bytes_at (memory_of pages.now (flat entries.now)) first 4096 }
{
    match find(pages, first / PAGE) {
        None => PageView::Unmapped,
        Some(index) => match &entries[index] {
            None => PageView::Zero,
            Some(page) => PageView::Full(&page[..]),
        },
    }
}

/// Whether `count` bytes from an address on are all mapped.
pub fn mapped_at(pages: &[u64], entries: &[Entry], rows: &Rows, at: u64, count: u64) -> bool
    requires pages { ArePages pages.now entries.now }
    requires rows { AreRowsOf pages.now rows.now }
    ensures { result ≡ maps (memory_of pages.now (flat entries.now)) at count }
{
    start_of(pages, rows, at, count).is_some()
}

/// The first run of mapped pages from the page of an address on.
pub fn run_at(pages: &[u64], entries: &[Entry], at: u64) -> Option<(u64, u64)>
    requires { ArePages pages.now entries.now }
    ensures { RunsFrom (memory_of pages.now (flat entries.now)) at result }
{
    match row_from(pages, at / PAGE) {
        None => None,
        Some((first, count)) => Some((PAGE * first, count)),
    }
}
