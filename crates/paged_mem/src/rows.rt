//! Rows of consecutive pages, in which an address is found without a search.

ghost use Rattle.std.specs.Prelude.{◌≡◌, ℕ, ◌+◌, ◌/◌, ◌^◌, ◌<◌, IfSome, List, Some};
ghost use Rattle.paged_mem.specs.Inside.Entries.{AreRowsOf, Entry, IsHeldPage, IsRowOf};
ghost use Rattle.paged_mem.specs.Inside.Flat.{AreLow, Rises, page_index};

use crate::PAGE;

/// Pages with consecutive numbers: the address of the first one, the number of bytes of all of them, and the index of
/// the first one among the mapped pages.
#[derive(Clone, Copy, PartialEq, Eq)]
pub struct PageRow {
    pub base: u64,
    pub size: u64,
    pub index: usize,
}

impl PageRow {
    /// The row without pages.
    pub fn none() -> PageRow
        ensures held { (pages : List ℕ) (entries : List Entry) → IsHeldPage pages entries result }
        ensures start { result.index ≡ 0 }
    {
        PageRow {
            base: 0,
            size: 0,
            index: 0,
        }
    }
}

/// The index of an address's page among the mapped pages, if it lies in this row.
#[inline(always)]
pub fn find_in(row: PageRow, at: u64) -> Option<usize>
    requires { row.index + row.size < 2 ^ 64 }
    ensures { (pages : List ℕ) → Rises pages → IsRowOf pages row → IfSome result (λ index. page_index pages (at / 4096) ≡ Some index) }
{
    let ahead = at.wrapping_sub(row.base);
    if ahead < row.size {
        Some(row.index + (ahead / PAGE) as usize)
    } else {
        None
    }
}

/// The consecutive pages from the one at an index on; the row without pages if there is no page at the index.
pub fn row_at(pages: &[u64], start: usize) -> PageRow
    requires rising { Rises pages.now }
    requires low { AreLow pages.now }
    ensures row { IsRowOf pages.now result }
    ensures start { start ≡ 0 → result.index ≡ 0 }
{
    if start >= pages.len() {
        return PageRow::none();
    }
    let first = pages[start];
    let mut known = start;
    let mut end = pages.len();
    while end - known > 1 {
        let middle = known + (end - known) / 2;
        if pages[middle] == first + (middle - start) as u64 {
            known = middle;
        } else {
            end = middle;
        }
    }
    PageRow {
        base: PAGE * first,
        size: PAGE * ((known - start) as u64 + 1),
        index: start,
    }
}

/// The consecutive pages up to the last one.
pub fn last_row(pages: &[u64]) -> PageRow
    requires rising { Rises pages.now }
    requires low { AreLow pages.now }
    ensures { IsRowOf pages.now result }
{
    if pages.is_empty() {
        return PageRow::none();
    }
    let last = pages.len() - 1;
    let mut start = 0;
    let mut known = last;
    while start < known {
        let middle = start + (known - start) / 2;
        if pages[middle] + (last - middle) as u64 == pages[last] {
            known = middle;
        } else {
            start = middle + 1;
        }
    }
    PageRow {
        base: PAGE * pages[known],
        size: PAGE * (last - known + 1) as u64,
        index: known,
    }
}

/// Three rows: from the first page on, the row after it, and up to the last page. These are usually a program's, its
/// data's if they lie apart, and its stack's.
#[derive(Clone, Copy)]
pub struct Rows {
    pub first: PageRow,
    pub second: PageRow,
    pub last: PageRow,
}

impl Rows {
    /// The rows of a memory without pages.
    pub fn none() -> Rows
        ensures { (pages : List ℕ) → AreRowsOf pages result }
    {
        Rows {
            first: PageRow::none(),
            second: PageRow::none(),
            last: PageRow::none(),
        }
    }

    /// The rows of these pages.
    pub fn of(pages: &[u64]) -> Rows
        requires rising { Rises pages.now }
        requires low { AreLow pages.now }
        ensures { AreRowsOf pages.now result }
    {
        let first = row_at(pages, 0);
        Rows {
            first,
            second: row_at(pages, (first.size / PAGE) as usize),
            last: last_row(pages),
        }
    }

    /// The index of an address's page among the mapped pages, if it lies in one of the rows.
    #[inline(always)]
    pub fn find(&self, at: u64) -> Option<usize>
        requires first { self.now.first.index + self.now.first.size < 2 ^ 64 }
        requires second { self.now.second.index + self.now.second.size < 2 ^ 64 }
        requires last { self.now.last.index + self.now.last.size < 2 ^ 64 }
        ensures { (pages : List ℕ) → Rises pages → AreRowsOf pages self.now → IfSome result (λ index. page_index pages (at / 4096) ≡ Some index) }
    {
        // The compiler knows this index, and adds nothing for it.
        let first = PageRow {
            index: 0,
            ..self.first
        };
        match find_in(first, at) {
            Some(index) => Some(index),
            None => match find_in(self.last, at) {
                Some(index) => Some(index),
                None => find_in(self.second, at),
            },
        }
    }
}
