//! Whether a memory and a heap fit together.

ghost use Rattle.guest_run.specs.Valid.{Fits, pages_apart, pages_from};
ghost use Rattle.ddc_base.specs.Limits.{address_end, page_number_end};
ghost use Rattle.guest_run.specs.Inside.Bounds.{HasBounds};
ghost use Rattle.linux_calls.specs.HeapOf.{IsHeapOf, is_apart_from_heap};
ghost use Rattle.paged_mem.specs.Memory.{IsFree, page_up};
ghost use Rattle.std.specs.Prelude.{◌≡◌, ◌+◌, ◌-◌, ◌*◌, ◌%◌, ◌≤◌, ◌↔◌, count_by, true, IsTrue};

use crate::stack;
use ddc_base::limits::{MOST_HEAP, MOST_PAGES_APART, STACK_SIZE};
use linux_calls::Heap;
use paged_mem::{PAGE, Ram};
use rv64_machine::Hart;

/// Whether a hart's memory and a heap fit together, as in a valid state.
pub fn fit_together<R: Ram>(hart: &Hart<R>, heap: &Heap) -> bool
    ensures { IsTrue result ↔ Fits hart.now.memory heap.entry.now }
{
    let ram = hart.ram();
    if !has_bounds(heap) {
        return false;
    }
    if !is_heap_of(ram, heap) {
        return false;
    }
    if !ram.mapped(stack::END - STACK_SIZE, STACK_SIZE) {
        return false;
    }
    pages_apart(ram, heap) <= MOST_PAGES_APART
}

/// Whether a heap's numbers are within their bounds.
fn has_bounds(heap: &Heap) -> bool
    ensures { IsTrue result ↔ HasBounds heap.entry.now }
{
    if heap.first % PAGE != 0 || heap.limit > MOST_HEAP {
        return false;
    }
    if heap.first > stack::END - STACK_SIZE - heap.limit {
        return false;
    }
    heap.first <= heap.now && heap.now <= heap.first + heap.limit
}

/// Whether the heap's pages up to its break are mapped, and its remaining pages up to its limit are unmapped.
fn is_heap_of<R: Ram>(ram: &R, heap: &Heap) -> bool
    requires { HasBounds heap.now }
    ensures { IsTrue result ↔ IsHeapOf (R.bytes ram.now) heap.entry.now }
{
    let end = page_up(heap.now);
    let top = page_up(heap.first + heap.limit);
    if !ram.mapped(heap.first, end - heap.first) {
        return false;
    }
    is_free(ram, end, top - end)
}

/// Whether no byte of these whole pages is mapped.
fn is_free<R: Ram>(ram: &R, at: u64, count: u64) -> bool
    requires aligned { at % 4096 ≡ 0 }
    requires low { at + count ≤ address_end }
    ensures { IsTrue result ↔ IsFree (R.bytes ram.now) at count }
{
    match ram.run_from(at) {
        Some((first, _)) => at + count <= first,
        None => true,
    }
}

/// Rounds an address up to a multiple of the page size.
fn page_up(address: u64) -> u64
    requires { address ≤ address_end }
    ensures { result ≡ page_up address }
{
    address.next_multiple_of(PAGE)
}

/// The number of mapped pages outside a heap.
fn pages_apart<R: Ram>(ram: &R, heap: &Heap) -> u64
    requires { HasBounds heap.now }
    ensures { result ≡ pages_apart (R.bytes ram.now) heap.entry.now }
{
    let mut count = 0;
    let mut page = 0;
    while let Some((first, pages)) = ram.run_from(PAGE * page) {
        count += apart_in_row(heap, first / PAGE, pages);
        page = first / PAGE + pages;
    }
    count
}

/// The number of pages outside a heap among `pages` consecutive ones from page number `first`.
fn apart_in_row(heap: &Heap, first: u64, pages: u64) -> u64
    requires bounds { HasBounds heap.now }
    requires low { first + pages ≤ page_number_end }
    ensures value { result ≡ count_by (λ page. is_apart_from_heap heap.entry.now (4096 * page)) (pages_from first pages) }
    ensures few { result ≤ pages }
{
    let mut count = 0;
    for i in 0..pages {
        count += u64::from(is_apart(heap, PAGE * (first + i)));
    }
    count
}

/// Whether an address lies outside all pages that a heap has or may get.
fn is_apart(heap: &Heap, at: u64) -> bool
    requires { HasBounds heap.now }
    ensures { result ≡ is_apart_from_heap heap.entry.now at }
{
    at < heap.first || page_up(heap.first + heap.limit) <= at
}
