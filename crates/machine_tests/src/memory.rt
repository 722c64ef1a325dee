//! Scripts of calls, run on both memories with the same answers. What is wanted follows from docs/reference/memory.md.

use crate::page_address;
use paged_mem::{FlatRam, PageView, PagedRam, Ram, StoreRefusal, Width};
use std::alloc::Global;
use std::process::Abort;

/// The last page that may be mapped, and its last byte.
const LAST_PAGE: u64 = 0x3f_ffff_f000;

const LAST_BYTE: u64 = 0x3f_ffff_ffff;

/// A call on a memory, with what it has to answer last.
#[derive(Clone, Copy)]
enum Call {
    /// Maps pages where none is.
    Map(u64, u64),
    /// Takes mapped pages away.
    Unmap(u64, u64),
    /// Stores a number, which is done.
    Store(u64, Width, u64),
    /// Stores a number of which a byte is unmapped, which is refused.
    Refuse(u64, Width),
    Load(u64, Width, Option<u64>),
    RunFrom(u64, Option<(u64, u64)>),
    Mapped(u64, u64, bool),
    /// Writes bytes, which is done, or else refused.
    Write(u64, &'static [u8], bool),
    /// Reads six bytes; where one is unmapped, it leaves what was there.
    Read(u64, Option<[u8; 6]>),
    /// Whether a page is mapped.
    Page(u64, bool),
}

fn maps<R: Ram>(rt: &impl Abort, ram: &mut R, first: u64, pages: u64) {
    assert!(rt; first % 4096 == 0);
    assert!(rt; pages < 0x400_0000);
    assert!(rt; first <= 0x40_0000_0000 - 4096 * pages);
    match ram.run_from(first) {
        None => {}
        Some((run, _)) => assert!(rt; first + 4096 * pages <= run),
    }
    assert!(rt;
        ram.map_zero(first, pages).is_ok(),
        "{pages} pages at {first}"
    );
}

fn unmaps<R: Ram>(rt: &impl Abort, ram: &mut R, first: u64, pages: u64) {
    assert!(rt; first % 4096 == 0);
    assert!(rt; pages < 0x400_0000);
    let mapped = ram.mapped(first, 4096 * pages);
    assert!(rt; mapped);
    ram.unmap(first, pages);
}

fn reads<R: Ram>(ram: &R, at: u64, want: Option<[u8; 6]>) -> bool {
    let mut out = [1; 6];
    let done = ram.read_into(at, &mut out);
    done == want.is_some() && out == want.unwrap_or([1; 6])
}

fn has_page<R: Ram>(ram: &R, first: u64) -> bool {
    first % 4096 == 0 && ram.page(first) != PageView::Unmapped
}

/// Makes a call; whether it answers as it has to.
fn answers<R: Ram>(rt: &impl Abort, ram: &mut R, call: Call) -> bool {
    match call {
        Call::Map(first, pages) => {
            maps(rt, ram, first, pages);
            true
        }
        Call::Unmap(first, pages) => {
            unmaps(rt, ram, first, pages);
            true
        }
        Call::Store(at, width, value) => ram.store(at, width, value).is_ok(),
        Call::Refuse(at, width) => { ram.store(at, width, u64::MAX) == Err(StoreRefusal::Unmapped) }
        Call::Load(at, width, want) => ram.load(at, width) == want,
        Call::RunFrom(at, want) => ram.run_from(at) == want,
        Call::Mapped(at, count, want) => ram.mapped(at, count) == want,
        Call::Write(at, bytes, true) => ram.write_from(at, bytes).is_ok(),
        Call::Write(at, bytes, false) => {
            ram.write_from(at, bytes) == Err(StoreRefusal::Unmapped)
        }
        Call::Read(at, want) => reads(ram, at, want),
        Call::Page(first, want) => has_page(ram, first) == want,
    }
}

/// Makes the calls of a script, in order.
fn run<R: Ram>(rt: &impl Abort, ram: &mut R, script: &[Call]) {
    for (index, call) in script.iter().enumerate() {
        assert!(rt; answers(rt, ram, *call), "call {index}");
    }
}

/// Mappings in falling, rising and broken order.
static MAPPED_IN_ANY_ORDER: [Call; 16] = [
    Call::RunFrom(0, None),
    Call::Map(0x9000, 1),
    Call::Map(0x5000, 2),
    Call::Map(LAST_PAGE, 1),
    Call::Map(0x7000, 2),
    Call::Map(0xb000, 3),
    Call::Map(0x1000, 1),
    Call::Map(0x20_0000, 64),
    Call::RunFrom(0, Some((0x1000, 1))),
    Call::RunFrom(0x2000, Some((0x5000, 5))),
    Call::RunFrom(0x6fff, Some((0x6000, 4))),
    Call::RunFrom(0xa000, Some((0xb000, 3))),
    Call::RunFrom(0x20_1000, Some((0x20_1000, 63))),
    Call::RunFrom(0x24_0000, Some((LAST_PAGE, 1))),
    Call::RunFrom(0x40_0000_0000, None),
    Call::RunFrom(u64::MAX, None),
];

/// Stores and loads within pages, across two of them, and where a byte is unmapped.
static STORED_AND_LOADED: [Call; 24] = [
    Call::Load(0x5ffc, Width::W8, Some(0)),
    Call::Store(0x5ffc, Width::W8, 0x0102_0304_0506_0708),
    Call::Load(0x5ffc, Width::W4, Some(0x0506_0708)),
    Call::Load(0x5fff, Width::W2, Some(0x0405)),
    Call::Load(0x6000, Width::W4, Some(0x0102_0304)),
    Call::Load(0x6003, Width::W1, Some(0x01)),
    Call::Load(0x5ffd, Width::W4, Some(0x0405_0607)),
    Call::Store(0x6fff, Width::W2, 0xbeef),
    Call::Load(0x6fff, Width::W1, Some(0xef)),
    Call::Load(0x7000, Width::W1, Some(0xbe)),
    Call::Refuse(0x9ffd, Width::W4),
    Call::Load(0x9ffc, Width::W4, Some(0)),
    Call::Refuse(0xafff, Width::W2),
    Call::Load(0xb000, Width::W1, Some(0)),
    Call::Store(LAST_BYTE - 7, Width::W8, u64::MAX),
    Call::Load(LAST_BYTE, Width::W1, Some(0xff)),
    Call::Load(LAST_BYTE, Width::W2, None),
    Call::Refuse(LAST_BYTE - 2, Width::W4),
    Call::Load(0xffff_ffff_ffff_fffc, Width::W8, None),
    Call::Refuse(u64::MAX, Width::W1),
    Call::Load(0, Width::W8, None),
    Call::Store(0x20_3ff8, Width::W8, 7),
    Call::Load(0x20_3fff, Width::W4, Some(0)),
    Call::Load(0x20_3ff8, Width::W8, Some(7)),
];

/// After bytes that were written over several pages: their edges, reads, and no bytes, which are mapped everywhere.
static WRITTEN_AND_READ: [Call; 9] = [
    Call::Load(0xb7ff, Width::W2, Some(0x0700)),
    Call::Load(0xdb27, Width::W2, Some(0x0007)),
    Call::Read(0x5ffe, Some([0x06, 0x05, 0x04, 0x03, 0x02, 0x01])),
    Call::Read(0x9ffd, None),
    Call::Write(0xa000, b"", true),
    Call::Mapped(0x5000, 0x5000, true),
    Call::Mapped(0x5000, 0x5001, false),
    Call::Mapped(u64::MAX, 0, true),
    Call::Mapped(u64::MAX, 2, false),
];

/// Pages taken away in the middle of a row, at its ends, and mapped again.
static UNMAPPED_AND_MAPPED: [Call; 18] = [
    Call::Unmap(0x6000, 1),
    Call::RunFrom(0x5000, Some((0x5000, 1))),
    Call::Load(0x5ffc, Width::W8, None),
    Call::Load(0x5ffc, Width::W4, Some(0x0506_0708)),
    Call::Load(0x7000, Width::W1, Some(0xbe)),
    Call::Page(0x6000, false),
    Call::Map(0x6000, 1),
    Call::Load(0x6000, Width::W8, Some(0)),
    Call::RunFrom(0x5000, Some((0x5000, 5))),
    Call::Unmap(0x20_0000, 8),
    Call::Unmap(0x23_e000, 2),
    Call::RunFrom(0x20_0000, Some((0x20_8000, 54))),
    Call::Unmap(LAST_PAGE, 1),
    Call::RunFrom(0x24_0000, None),
    Call::Map(LAST_PAGE, 1),
    Call::Load(LAST_BYTE, Width::W1, Some(0)),
    Call::Unmap(0x1000, 0),
    Call::RunFrom(0, Some((0x1000, 1))),
];

/// Two pages at 4,096, and the last page below 2^38. The loads depend on the order of bytes in RISC-V and on the map's edges. Of one store
/// only the last byte is unmapped, and other stores take only the low bytes of a number.
static NUMBERS: [Call; 18] = [
    Call::Map(4096, 2),
    Call::Map(LAST_PAGE, 1),
    Call::Store(0x1ffc, Width::W8, 0x0102_0304_0506_0708),
    Call::Load(0x1ffc, Width::W1, Some(0x08)),
    Call::Load(0x1fff, Width::W2, Some(0x0405)),
    Call::Load(0x1ffe, Width::W4, Some(0x0304_0506)),
    Call::Load(0x1ffc, Width::W8, Some(0x0102_0304_0506_0708)),
    Call::Load(0x2003, Width::W1, Some(0x01)),
    Call::Load(0x0fff, Width::W2, None),
    Call::Load(0x1000, Width::W2, Some(0)),
    Call::Load(0x2ff8, Width::W8, Some(0)),
    Call::Load(0x2ff9, Width::W8, None),
    Call::Load(0xffff_ffff_ffff_fffc, Width::W8, None),
    Call::Load(0xffff_ffff_ffff_ffff, Width::W1, None),
    Call::Refuse(0x2ffd, Width::W4),
    Call::Load(0x2ffc, Width::W4, Some(0)),
    Call::Store(0x1000, Width::W2, 0x12_3456),
    Call::Load(0x1000, Width::W4, Some(0x3456)),
];

/// Then bytes at the end of a page and past it, areas and runs, and pages that are taken away and mapped again, which read 0.
static BYTES_AND_RUNS: [Call; 20] = [
    Call::Write(0x2ffe, b"ab", true),
    Call::Write(0x2ffe, b"xyz", false),
    Call::Read(0x2ffa, Some([0, 0, 0, 0, b'a', b'b'])),
    Call::Read(0x2ffe, None),
    Call::Mapped(0x1000, 8192, true),
    Call::Mapped(0x1000, 8193, false),
    Call::Mapped(0x0fff, 1, false),
    Call::Mapped(0xffff_ffff_ffff_ffff, 0, true),
    Call::RunFrom(0, Some((0x1000, 2))),
    Call::RunFrom(0x1fff, Some((0x1000, 2))),
    Call::RunFrom(0x2abc, Some((0x2000, 1))),
    Call::RunFrom(0x3000, Some((0x3f_ffff_f000, 1))),
    Call::RunFrom(0x40_0000_0000, None),
    Call::Page(0x3000, false),
    Call::Page(0x2000, true),
    Call::Write(0x1000, b"old", true),
    Call::Unmap(0x1000, 1),
    Call::Load(0x1000, Width::W1, None),
    Call::Map(0x1000, 1),
    Call::Load(0x1000, Width::W4, Some(0)),
];

fn script<R: Ram>(rt: &impl Abort, ram: &mut R) {
    run(rt, ram, &MAPPED_IN_ANY_ORDER);
    run(rt, ram, &STORED_AND_LOADED);
    let bytes = [7; 9000];
    assert!(rt; ram.write_from(0xb800, &bytes) == Ok(()));
    assert!(rt; ram.write_from(0xc001, &bytes) == Err(StoreRefusal::Unmapped));
    run(rt, ram, &WRITTEN_AND_READ);
    run(rt, ram, &UNMAPPED_AND_MAPPED);
}

fn three_pages<R: Ram>(rt: &impl Abort, ram: &mut R) {
    run(rt, ram, &NUMBERS);
    run(rt, ram, &BYTES_AND_RUNS);
}

fn script_on<R: Ram>(rt: &impl Abort, alloc: Global) {
    script(rt, &mut R::empty(alloc));
}

fn three_pages_on<R: Ram>(rt: &impl Abort, alloc: Global) {
    three_pages(rt, &mut R::empty(alloc));
}

#[test]
fn flat_memory(rt: HostRuntime) {
    script_on::<FlatRam>(&rt, rt.alloc());
    three_pages_on::<FlatRam>(&rt, rt.alloc());
}

#[test]
fn paged_memory(rt: HostRuntime) {
    script_on::<PagedRam>(&rt, rt.alloc());
    three_pages_on::<PagedRam>(&rt, rt.alloc());
}

/// Whether a load and a refused store take no page.
fn takes_none(ram: &mut PagedRam) -> bool {
    ram.held() == 0
        && ram.load(page_address(2), Width::W8) == Some(0)
        && ram.store(12_284, Width::W8, 1).is_err()
        && ram.held() == 0
}

/// Whether a store takes two pages.
fn takes_two(ram: &mut PagedRam) -> bool {
    ram.store(4092, Width::W8, 1).is_ok() && ram.held() == 2
}

/// Whether the second of three pages was written, and the third not.
fn has_views(ram: &PagedRam) -> bool {
    ram.page(8192) == PageView::Zero
        && matches!(ram.page(4096), PageView::Full(_))
        && ram.page(12_288) == PageView::Unmapped
}

fn check_held(rt: &impl Abort, ram: &mut PagedRam) {
    maps(rt, ram, 0, 3);
    assert!(rt; takes_none(ram));
    assert!(rt; takes_two(ram));
    assert!(rt; has_views(ram));
    unmaps(rt, ram, 4096, 1);
    assert!(rt; ram.held() == 1);
}

/// Memory is taken for pages that are written, and for no others: a load and a refused store take none.
#[test]
fn held_pages(rt: HostRuntime) {
    check_held(&rt, &mut PagedRam::empty(rt.alloc()));
}
