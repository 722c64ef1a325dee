ghost use Rattle.std.specs.Prelude.{◌≡◌, ◌+◌, ◌*◌, ◌^◌, ◌<◌, ◌≤◌, ◌==◌, ◌&&◌, nat_lt, length, slice_index, take, drop};
ghost use Rattle.std.specs.Vec.{vec_len};
ghost use Rattle.paged_mem.specs.Inside.Flat.{Rises, AreLow, IsRank, IsRow, Spans, page_index, number_at, overwritten};
ghost use Rattle.paged_mem.specs.Memory.{bytes_of};
ghost use Rattle.paged_mem.specs.Ram.{count_of};

use crate::ram::Width;
use crate::{PAGE, PAGE_LEN};

/// How many pages have a number below this one.
pub fn rank(pages: &[u64], number: u64) -> usize
    requires { Rises pages.now }
    ensures { IsRank pages.now number result }
{
    match pages.binary_search(&number) {
        Ok(found) => found,
        Err(rank) => rank,
    }
}

/// The index of the page with this number. Pages in a row from the first one on, or up to the last one, are found without a search.
pub fn find(pages: &[u64], number: u64) -> Option<usize>
    requires { Rises pages.now }
    ensures { result ≡ page_index pages.now number }
{
    if pages.is_empty() {
        return None;
    }
    let last = pages.len() - 1;
    let ahead = number.wrapping_sub(pages[0]) as usize;
    if is_at(pages, ahead, number) {
        return Some(ahead);
    }
    let after = last.wrapping_sub(pages[last].wrapping_sub(number) as usize);
    if is_at(pages, after, number) {
        return Some(after);
    }
    let rank = rank(pages, number);
    if is_at(pages, rank, number) {
        Some(rank)
    } else {
        None
    }
}

/// Whether the page at an index has this number.
fn is_at(pages: &[u64], index: usize, number: u64) -> bool
    ensures { result ≡ (nat_lt index (length pages.now) && slice_index pages.now index == number) }
{
    index < pages.len() && pages[index] == number
}

/// The index where the bytes of `count` addresses from `at` on begin, if all of them are on these pages.
pub fn span(pages: &[u64], at: u64, count: u64) -> Option<usize>
    requires rising { Rises pages.now }
    requires low { AreLow pages.now }
    requires few { 4096 * length pages.now < 2 ^ 64 }
    ensures { Spans pages.now at count result }
{
    if count == 0 {
        return Some(0);
    }
    let Some(last) = at.checked_add(count - 1) else {
        return None;
    };
    let Some(page) = find(pages, at / PAGE) else {
        return None;
    };
    let more = last / PAGE - at / PAGE;
    if more < (pages.len() - page) as u64 && pages[page + more as usize] == last / PAGE {
        Some(PAGE_LEN * page + (at % PAGE) as usize)
    } else {
        None
    }
}

/// Overwrites as many bytes as `source` has, from an index on.
pub fn put(bytes: &mut Vec<u8>, start: usize, source: &[u8])
    requires { start + length source.now ≤ vec_len bytes.old }
    ensures { bytes.new.items ≡ overwritten bytes.old.items start source.now }
{
    bytes[start..start + source.len()].copy_from_slice(source);
}

/// Writes the low bytes of a number, as many as an access of this width has, lowest first, from an index on.
pub fn put_number(bytes: &mut Vec<u8>, start: usize, width: Width, value: u64)
    requires { start + count_of width ≤ vec_len bytes.old }
    ensures { bytes.new.items ≡ overwritten bytes.old.items start (bytes_of (count_of width) value) }
{
    // A slice of a fixed length is written by one store.
    let low = value.to_le_bytes();
    match width {
        Width::W1 => put(bytes, start, &low[..1]),
        Width::W2 => put(bytes, start, &low[..2]),
        Width::W4 => put(bytes, start, &low[..4]),
        Width::W8 => put(bytes, start, &low),
    }
}

/// Fills `out` with the bytes from an index on.
pub fn fill(out: &mut [u8], bytes: &[u8], start: usize)
    requires { start + length out.old ≤ length bytes.now }
    ensures { out.new ≡ take (length out.old) (drop start bytes.now) }
{
    out.copy_from_slice(&bytes[start..start + out.len()]);
}

fn two_at(bytes: &[u8], start: usize) -> u64
    requires { start + 2 ≤ length bytes.now }
    ensures value { result ≡ number_at bytes.now start 2 }
    ensures fits { result < 2 ^ 16 }
{
    bytes[start] as u64 + 0x100 * bytes[start + 1] as u64
}

fn four_at(bytes: &[u8], start: usize) -> u64
    requires { start + 4 ≤ length bytes.now }
    ensures value { result ≡ number_at bytes.now start 4 }
    ensures fits { result < 2 ^ 32 }
{
    two_at(bytes, start) + 0x1_0000 * two_at(bytes, start + 2)
}

fn eight_at(bytes: &[u8], start: usize) -> u64
    requires { start + 8 ≤ length bytes.now }
    ensures { result ≡ number_at bytes.now start 8 }
{
    four_at(bytes, start) + 0x1_0000_0000 * four_at(bytes, start + 4)
}

/// The little-endian number of an access that begins at an index.
pub fn number(bytes: &[u8], start: usize, width: Width) -> u64
    requires { start + count_of width ≤ length bytes.now }
    ensures value { result ≡ number_at bytes.now start (count_of width) }
    ensures fits { result < 2 ^ (8 * count_of width) }
{
    match width {
        Width::W1 => bytes[start] as u64,
        Width::W2 => two_at(bytes, start),
        Width::W4 => four_at(bytes, start),
        Width::W8 => eight_at(bytes, start),
    }
}

/// The first page with this number or a later one, and how many consecutive pages there are from it on.
pub fn row_from(pages: &[u64], number: u64) -> Option<(u64, u64)>
    requires rising { Rises pages.now }
    requires low { AreLow pages.now }
    ensures { IsRow pages.now number result }
{
    let start = rank(pages, number);
    if start == pages.len() {
        return None;
    }
    let first = pages[start];
    let mut count = 1;
    while count < pages.len() - start && pages[start + count] == first + count as u64 {
        count += 1;
    }
    Some((first, count as u64))
}
