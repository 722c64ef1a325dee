//! The runs and pages of a memory.

ghost use Rattle.std.specs.Prelude.{◌≡◌, ◌≤◌, ◌+◌, ◌*◌, ◌==◌, ◌++◌, ◌∷◌, [], map, IfOk, OnOk, MatchOption};
ghost use Rattle.std.specs.List.{list_all};
ghost use Rattle.ddc_base.specs.Limits.{page_number_end};
ghost use Rattle.paged_mem.specs.Memory.{bytes_at};
ghost use Rattle.save_format.specs.StateText.Seen.{page_view};
ghost use Rattle.checkpoints.specs.MemoryParts.Canonical.{runs_of, listed_page, page_texts_from, pages_of};

use ddc_base::OutOfMemory;
use paged_mem::{PAGE, PageView, Ram};
use save_format::state_text::{Page, Run};
use std::alloc::Global;

/// The runs of mapped pages, ascending and as few as possible. Error: out of memory.
pub fn runs<R: Ram>(alloc: Global, ram: &R) -> Result<Vec<Run>, OutOfMemory>
    ensures { IfOk result (λ v. v.items ≡ runs_of (R.bytes ram.now)) }
{
    let mut found = Vec::new(alloc);
    let mut page = 0;
    while let Some((first, pages)) = ram.run_from(PAGE * page) {
        found.push(Run {
            first: (first / PAGE) as u32,
            pages: pages as u32,
        })?;
        page = first / PAGE + pages;
    }
    Ok(found)
}

/// The pages that are not all zeros, ascending. Their bytes are borrowed. Error: out of memory.
pub fn pages<R: Ram>(alloc: Global, ram: &R) -> Result<Vec<Page<'_>>, OutOfMemory>
    ensures { IfOk result (λ v. map page_view v.items ≡ pages_of (R.bytes ram.now)) }
{
    let mut found = Vec::new(alloc);
    let mut page = 0;
    while let Some((first, count)) = ram.run_from(PAGE * page) {
        push_pages(ram, first / PAGE, count, &mut found)?;
        page = first / PAGE + count;
    }
    Ok(found)
}

/// Adds the listed ones among `count` pages from `first` on.
fn push_pages<'a, R: Ram>(
    ram: &'a R,
    first: u64,
    count: u64,
    found: &mut Vec<Page<'a>>,
) -> Result<(), OutOfMemory>
    requires { first + count ≤ page_number_end }
    ensures { OnOk result (map page_view found.new.items ≡ map page_view found.old.items ++ page_texts_from (R.bytes ram.now) first count) }
{
    for i in 0..count {
        let number = (first + i) as u32;
        if let Some(bytes) = listed_bytes(ram, number) {
            found.push(Page { number, bytes })?;
        }
    }
    Ok(())
}

/// The bytes of a page, if it is listed.
fn listed_bytes<R: Ram>(ram: &R, number: u32) -> Option<&[u8]>
    ensures { MatchOption result (listed_page number (bytes_at (R.bytes ram.now) (4096 * number) 4096) ≡ [])
        (λ bytes. listed_page number (bytes_at (R.bytes ram.now) (4096 * number) 4096) ≡ record { number = number; bytes = bytes.now } ∷ []) }
{
    match ram.page(PAGE * u64::from(number)) {
        PageView::Unmapped => None,
        PageView::Zero => None,
        PageView::Full(bytes) => {
            if is_zero(bytes) {
                return None;
            }
            Some(bytes)
        }
    }
}

/// Whether all bytes are zero.
fn is_zero(bytes: &[u8]) -> bool
    ensures { result ≡ list_all (λ b. b == 0) bytes.now }
{
    bytes.iter().all(|byte| *byte == 0)
}
