//! Entries of pages: reads and writes that span several pages.

ghost use Rattle.std.specs.Prelude.{◌≡◌, ℕ, ◌+◌, ◌-◌, ◌*◌, ◌%◌, ◌^◌, ◌<◌, ◌≤◌, length, take, drop, is_some, IsSome, OnOk, OnErr, None, List, slice_index, slice_index_or};
ghost use Rattle.paged_mem.specs.Inside.Entries.{AreFull, page_content, flat, held_pages};
ghost use Rattle.paged_mem.specs.Inside.Flat.{number_at, overwritten};
ghost use Rattle.paged_mem.specs.Ram.{count_of};

use crate::PAGE_LEN;
use crate::pages::{fill, number};
use crate::ram::Width;
use ddc_base::OutOfMemory;
use std::alloc::{AllocFailed, Global};
use std::cmp;

/// A mapped page's 4,096 bytes, or `None` if all of them have been zero since the page was mapped.
pub type Entry = Option<Box<[u8; PAGE_LEN]>>;

/// The little-endian number of an access that lies within a page.
pub fn number_in(entry: &Entry, low: usize, width: Width) -> u64
    requires { low + count_of width ≤ 4096 }
    ensures value { result ≡ number_at (page_content entry.now) low (count_of width) }
    ensures fits { result < 2 ^ (8 * count_of width) }
{
    match entry {
        None => 0,
        Some(page) => number(&page[..], low, width),
    }
}

/// The little-endian number of an access that lies within a page with stored bytes.
#[inline(always)]
pub fn number_held(entry: &Entry, low: usize, width: Width) -> u64
    requires held { IsSome entry.now }
    requires within { low + count_of width ≤ 4096 }
    ensures value { result ≡ number_at (page_content entry.now) low (count_of width) }
    ensures fits { result < 2 ^ (8 * count_of width) }
{
    match entry {
        None => unreachable!(),
        Some(page) => number(&page[..], low, width),
    }
}

/// Fills `out` with zeros.
fn clear(out: &mut [u8])
    ensures len { length out.new ≡ length out.old }
    ensures zero { (k : ℕ) → slice_index out.new k ≡ 0 }
{
    for byte in out.iter_mut() {
        *byte = 0;
    }
}

/// Fills `out` with the bytes of a page from an index on.
fn fill_from(entry: &Entry, low: usize, out: &mut [u8])
    requires { low + length out.old ≤ 4096 }
    ensures { out.new ≡ take (length out.old) (drop low (page_content entry.now)) }
{
    match entry {
        None => clear(out),
        Some(page) => fill(out, &page[..], low),
    }
}

/// Overwrites bytes from an index on in a page that has stored bytes.
pub fn put_into(entry: &mut Entry, low: usize, source: &[u8])
    requires held { IsSome entry.old }
    requires within { low + length source.now ≤ 4096 }
    ensures held { IsSome entry.new }
    ensures content { page_content entry.new ≡ overwritten (page_content entry.old) low source.now }
    ensures full { length (page_content entry.new) ≡ 4096 }
{
    match entry {
        None => {}
        Some(page) => page[low..low + source.len()].copy_from_slice(source),
    }
}

/// How many of the `left` bytes from an index on lie on the page of that index.
fn piece(at: usize, remaining: usize) -> usize
    ensures few { result ≤ remaining }
    ensures within { at % 4096 + result ≤ 4096 }
    ensures some { 0 < remaining → 0 < result }
{
    cmp::min(PAGE_LEN - at % PAGE_LEN, remaining)
}

/// Fills `out` with the bytes of these pages from an index on.
pub fn read(entries: &[Entry], start: usize, out: &mut [u8])
    requires full { AreFull entries.now }
    requires within { start + length out.old ≤ 4096 * length entries.now }
    requires few { 4096 * length entries.now < 2 ^ 64 }
    ensures { out.new ≡ take (length out.old) (drop start (flat entries.now)) }
{
    let mut done = 0;
    while done < out.len() {
        let at = start + done;
        let count = piece(at, out.len() - done);
        fill_from(
            &entries[at / PAGE_LEN],
            at % PAGE_LEN,
            &mut out[done..done + count],
        );
        done += count;
    }
}

/// Overwrites the bytes of these pages from an index on. Each page concerned has stored bytes.
pub fn write(entries: &mut [Entry], start: usize, source: &[u8])
    requires full { AreFull entries.old }
    requires within { start + length source.now ≤ 4096 * length entries.old }
    requires few { 4096 * length entries.old < 2 ^ 64 }
    requires held { (k : ℕ) → start < 4096 * (k + 1) → 4096 * k < start + length source.now
        → IsSome (slice_index_or entries.old k None) }
    ensures full { AreFull entries.new }
    ensures bytes { flat entries.new ≡ overwritten (flat entries.old) start source.now }
    ensures same { (pages : List ℕ) → held_pages pages entries.new ≡ held_pages pages entries.old }
{
    let mut done = 0;
    while done < source.len() {
        let at = start + done;
        let count = piece(at, source.len() - done);
        put_into(
            &mut entries[at / PAGE_LEN],
            at % PAGE_LEN,
            &source[done..done + count],
        );
        done += count;
    }
}

/// Allocates the bytes of a page that has none stored yet; they are zero at first.
fn hold(alloc: Global, entry: &mut Entry) -> Result<(), OutOfMemory>
    requires { length (page_content entry.old) ≡ 4096 }
    ensures bytes { page_content entry.new ≡ page_content entry.old }
    ensures full { length (page_content entry.new) ≡ 4096 }
    ensures ok { OnOk result (IsSome entry.new) }
    ensures err { OnErr result ((entry.old ≡ None) × (entry.new ≡ None)) }
    ensures kept { IsSome entry.old → IsSome entry.new }
{
    if entry.is_some() {
        return Ok(());
    }
    match Box::new(alloc, [0; PAGE_LEN]) {
        Ok(page) => {
            *entry = Some(page);
            Ok(())
        }
        Err(AllocFailed { .. }) => Err(OutOfMemory),
    }
}

/// Allocates the bytes of each of these pages that has none stored yet; they are zero at first.
pub fn take_memory(
    alloc: Global,
    entries: &mut [Entry],
    first: usize,
    end: usize,
) -> Result<(), OutOfMemory>
    requires full { AreFull entries.old }
    requires order { first ≤ end }
    requires within { end ≤ length entries.old }
    ensures full { AreFull entries.new }
    ensures len { length entries.new ≡ length entries.old }
    ensures bytes { flat entries.new ≡ flat entries.old }
    ensures raises { (pages : List ℕ)
        → length (held_pages pages entries.new) ≤ length (held_pages pages entries.old) + (end - first) }
    ensures kept { (pages : List ℕ) → length (held_pages pages entries.old) ≤ length (held_pages pages entries.new) }
    ensures ok { OnOk result ((k : ℕ) → first ≤ k → k < end → IsSome (slice_index_or entries.new k None)) }
    ensures err { OnErr result ((k : ℕ) × (first ≤ k) × (k < end) × (slice_index_or entries.old k None ≡ None)) }
{
    for index in first..end {
        hold(alloc, &mut entries[index])?;
    }
    Ok(())
}

/// How many of these entries have stored bytes.
pub fn count_held(entries: &[Entry]) -> u64
    requires { length entries.now < 2 ^ 64 }
    ensures { (pages : List ℕ) → length pages ≡ length entries.now → result ≡ length (held_pages pages entries.now) }
{
    let mut count = 0;
    for entry in entries {
        if entry.is_some() {
            count += 1;
        }
    }
    count
}
