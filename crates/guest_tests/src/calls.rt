//! Calls in a row: what Linux answers (tests/calls/expected.txt), and this project's own limits and orders.

ghost use Rattle.std.specs.Prelude.{◌<◌};
ghost use Rattle.std.proofs.Props.{props};
ghost use Rattle.linux_calls.specs.HeapOf.{IsHeapOf};

use crate::letter;
use ddc_base::OutOfMemory;
use linux_calls::*;
use mem_files::Files;
use paged_mem::{FlatRam, Ram, Width};
use std::alloc::Global;
use std::process::Abort;

/// A guest without a hart: two mapped pages at TEXTS, and a heap that is empty at first.
#[derive(Drop)]
struct Guest {
    ram: FlatRam,
    files: Files,
    heap: Heap,
    ghost valid: { IsHeapOf ram.bytes heap } by { Prim.hlevel props },
}

const TEXTS: u64 = 0x1_0000;

const F: i64 = 0x1_0000;

const G: i64 = 0x1_0040;

const DOT_F: i64 = 0x1_0080;

const DOTS_G: i64 = 0x1_00c0;

const EMPTY: i64 = 0x1_0100;

const H: i64 = 0x1_0140;

const SLASH_F: i64 = 0x1_0180;

const DOT_ONLY: i64 = 0x1_01c0;

const LONGEST: i64 = 0x1_0200;

const TOO_LONG: i64 = 0x1_0400;

const DOTS_ALONE: i64 = 0x1_0600;

const BUFFER: i64 = 0x1_1000;

const LAST: i64 = 0x1_1ffe;

const NOWHERE: i64 = 16;

const CWD: i64 = -100;

const HEAP: u64 = 0x2_0000;

const HEAP_END: u64 = 0x3_0000;

/// A call, its first three arguments, and what it answers, as a signed number.
type Row = (u64, [i64; 3], i64);

impl Guest {
    fn new(alloc: Global) -> Result<Guest, OutOfMemory> {
        let mut ram = FlatRam::empty(alloc);
        ram.map_zero(TEXTS, 2)?;
        let files = Files::new(alloc)?;
        let heap = Heap {
            first: HEAP,
            now: HEAP,
            limit: HEAP_END - HEAP,
        };
        Ok(Guest { ram, files, heap })
    }

    /// Writes bytes into the memory; false where it isn't mapped.
    fn put(&mut self, at: u64, bytes: &[u8]) -> bool {
        self.ram.write_from(at, bytes).is_ok()
    }

    fn byte(&self, at: u64) -> Option<u64> {
        self.ram.load(at, Width::W1)
    }

    fn ask(&mut self, alloc: Global, number: u64, arguments: [i64; 3]) -> CallEnd {
        let [x, y, z] = arguments;
        let regs = CallRegs {
            number,
            a: [
                x.cast_unsigned(),
                y.cast_unsigned(),
                z.cast_unsigned(),
                0,
                0,
                0,
            ],
        };
        call(alloc, &regs, &mut self.ram, &mut self.files, &mut self.heap)
    }

    /// Makes the calls of rows, and asks for each one's answer.
    fn run(&mut self, rt: &impl Abort, alloc: Global, rows: &[Row]) -> bool {
        for (index, &(number, arguments, want)) in rows.iter().enumerate() {
            let end = self.ask(alloc, number, arguments);
            assert!(rt; end == CallEnd::Back(want.cast_unsigned()), "call {index}");
        }
        true
    }
}

/// The guest's texts, each with the address where it stands.
static PLACED: [(i64, &[u8]); 10] = [
    (F, b"f"),
    (G, b"g"),
    (DOT_F, b"./f"),
    (DOTS_G, b"././g"),
    (H, b"h"),
    (SLASH_F, b"/f"),
    (DOT_ONLY, b"./"),
    (LONGEST, &[b'n'; 255]),
    (TOO_LONG, &[b'n'; 256]),
    (LAST, b"x"),
];

fn put_texts(guest: &mut Guest) {
    for &(at, text) in &PLACED {
        guest.put(at.cast_unsigned(), text);
    }
    for index in 0..128u64 {
        guest.put(DOTS_ALONE as u64 + 2 * index, b"./");
    }
}

/// What is asked of a guest, one after the other.
#[derive(Clone, Copy)]
enum Step {
    /// The answers to calls.
    Rows(&'static [Row]),
    /// How a call with one argument ends.
    Ends(u64, i64, CallEnd),
    /// Writes bytes, all of which are mapped.
    Put(u64, &'static [u8]),
    /// The byte at an address; none where it is unmapped.
    Byte(u64, Option<u64>),
    /// Opens as many files as there are descriptors.
    OpenAll,
    /// Makes as many files as there are names.
    NameAll,
}

/// Whether a step is as it has to be.
fn is_right(rt: &impl Abort, alloc: Global, guest: &mut Guest, step: Step) -> bool {
    match step {
        Step::Rows(rows) => guest.run(rt, alloc, rows),
        Step::Ends(number, argument, want) => guest.ask(alloc, number, [argument, 0, 0]) == want,
        Step::Put(at, bytes) => guest.put(at, bytes),
        Step::Byte(at, want) => guest.byte(at) == want,
        Step::OpenAll => open_all(rt, alloc, guest),
        Step::NameAll => name_all(rt, alloc, guest),
    }
}

fn walk(rt: &impl Abort, alloc: Global, guest: &mut Guest, steps: &[Step]) {
    put_texts(guest);
    for (index, step) in steps.iter().enumerate() {
        assert!(rt; is_right(rt, alloc, guest, *step), "step {index}");
    }
}

/// Takes steps with a new guest, whose texts are in place.
fn check(rt: &impl Abort, alloc: Global, steps: &[Step]) {
    let mut guest = Guest::new(alloc).expect(rt, "memory");
    walk(rt, alloc, &mut guest, steps);
}

static REMOVED_WHILE_OPEN: [Row; 9] = [
    (SYS_OPENAT, [CWD, F, 577], 3),
    (SYS_WRITE, [3, BUFFER, 5], 5),
    (SYS_UNLINKAT, [CWD, F, 0], 0),
    (SYS_WRITE, [3, BUFFER, 5], 5),
    (SYS_LSEEK, [3, 0, 2], 10),
    (SYS_CLOSE, [3, 0, 0], 0),
    (SYS_FACCESSAT, [CWD, F, 0], -2),
    (SYS_CLOSE, [3, 0, 0], -9),
    (SYS_LSEEK, [1, 0, 0], -29),
];

static LOWEST_DESCRIPTOR: [Row; 10] = [
    (SYS_OPENAT, [CWD, F, 66], 3),
    (SYS_OPENAT, [CWD, G, 66], 4),
    (SYS_OPENAT, [CWD, F, 0], 5),
    (SYS_CLOSE, [4, 0, 0], 0),
    (SYS_OPENAT, [CWD, DOT_F, 0], 4),
    (SYS_CLOSE, [3, 0, 0], 0),
    (SYS_CLOSE, [5, 0, 0], 0),
    (SYS_OPENAT, [CWD, DOTS_G, 0], 3),
    (SYS_OPENAT, [CWD, G, 0], 5),
    (SYS_OPENAT, [CWD, H, 0], -2),
];

static FLAGS: [Row; 16] = [
    (SYS_OPENAT, [CWD, F, 65], 3),
    (SYS_WRITE, [3, BUFFER, 8], 8),
    (SYS_READ, [3, BUFFER, 8], -9),
    (SYS_OPENAT, [CWD, F, 193], -17),
    (SYS_OPENAT, [CWD, F, 0], 4),
    (SYS_WRITE, [4, BUFFER, 1], -9),
    (SYS_READ, [4, BUFFER, 3], 3),
    (SYS_READ, [4, BUFFER, 100], 5),
    (SYS_READ, [4, BUFFER, 1], 0),
    (SYS_OPENAT, [CWD, F, 1025], 5),
    (SYS_LSEEK, [5, 2, 0], 2),
    (SYS_WRITE, [5, BUFFER, 2], 2),
    (SYS_LSEEK, [5, 0, 1], 10),
    (SYS_OPENAT, [CWD, F, 512], 6),
    (SYS_LSEEK, [6, 0, 2], 0),
    (SYS_READ, [4, BUFFER, 1], 0),
];

static GAPS_AND_CURSORS: [Row; 11] = [
    (SYS_OPENAT, [CWD, F, 66], 3),
    (SYS_LSEEK, [3, 100, 0], 100),
    (SYS_WRITE, [3, BUFFER, 4], 4),
    (SYS_LSEEK, [3, 0, 0], 0),
    (SYS_READ, [3, BUFFER, 50], 50),
    (SYS_LSEEK, [3, -1, 0], -22),
    (SYS_LSEEK, [3, -51, 1], -22),
    (SYS_LSEEK, [3, -4, 2], 100),
    (SYS_READ, [3, BUFFER, 50], 4),
    (SYS_LSEEK, [3, 0, 9], -22),
    (SYS_LSEEK, [99, 0, 0], -9),
];

static BAD_ARGUMENTS: [Row; 21] = [
    (SYS_OPENAT, [CWD, NOWHERE, 0], -14),
    (SYS_OPENAT, [CWD, EMPTY, 64], -2),
    (SYS_OPENAT, [CWD, H, 0], -2),
    (SYS_OPENAT, [77, F, 64], -9),
    (SYS_OPENAT, [CWD, F, 66], 3),
    (SYS_OPENAT, [3, F, 0], -20),
    (SYS_UNLINKAT, [3, F, 0], -20),
    (SYS_UNLINKAT, [77, F, 0], -9),
    (SYS_UNLINKAT, [CWD, H, 0], -2),
    (SYS_FACCESSAT, [CWD, F, 8], -22),
    (SYS_FACCESSAT, [CWD, H, 0], -2),
    (SYS_FCHMODAT, [CWD, H, 448], -2),
    (SYS_FCHMODAT, [CWD, F, 448], 0),
    (SYS_WRITE, [3, NOWHERE, 4], -14),
    (SYS_WRITE, [3, BUFFER, 4], 4),
    (SYS_LSEEK, [3, 0, 0], 0),
    (SYS_READ, [3, NOWHERE, 4], -14),
    (SYS_LSEEK, [3, 0, 1], 0),
    (SYS_READ, [99, BUFFER, 1], -9),
    (SYS_WRITE, [99, BUFFER, 1], -9),
    (SYS_CLOSE, [99, 0, 0], -9),
];

static PATHS: [Row; 12] = [
    (SYS_OPENAT, [CWD, LONGEST, 65], 3),
    (SYS_OPENAT, [CWD, TOO_LONG, 65], -36),
    (SYS_OPENAT, [CWD, DOTS_ALONE, 65], -36),
    (SYS_OPENAT, [CWD, EMPTY, 65], -2),
    (SYS_FACCESSAT, [CWD, DOT_ONLY, 0], -2),
    (SYS_FACCESSAT, [CWD, -1, 0], -14),
    (SYS_FACCESSAT, [CWD, LAST, 0], -2),
    (SYS_FACCESSAT, [0x1_ffff_ff9c, H, 0], -2),
    (SYS_FACCESSAT, [9, SLASH_F, 0], -2),
    (SYS_FACCESSAT, [9, H, 0], -9),
    (SYS_FACCESSAT, [3, H, 0], -20),
    (SYS_FACCESSAT, [0x1_0000_0003, H, 0], -20),
];

static ORDERS: [Row; 20] = [
    (SYS_UNLINKAT, [9, NOWHERE, 1], -14),
    (SYS_UNLINKAT, [9, TOO_LONG, 1], -36),
    (SYS_UNLINKAT, [9, F, 1], -9),
    (SYS_UNLINKAT, [CWD, H, 1], -22),
    (SYS_UNLINKAT, [CWD, H, 0x1_0000_0000], -2),
    (SYS_FACCESSAT, [9, H, 8], -9),
    (SYS_FACCESSAT, [CWD, H, 8], -22),
    (SYS_FACCESSAT, [CWD, H, 7], -2),
    (SYS_FCHMODAT, [9, H, 0], -9),
    (SYS_OPENAT, [9, NOWHERE, 3], -14),
    (SYS_OPENAT, [9, H, 3], -22),
    (SYS_OPENAT, [9, H, 0], -9),
    (SYS_LSEEK, [99, 0, 9], -9),
    (SYS_LSEEK, [1, 0, 9], -29),
    (SYS_READ, [1, NOWHERE, 1], -9),
    (SYS_READ, [0, NOWHERE, 1], 0),
    (SYS_WRITE, [0, NOWHERE, 0], -9),
    (SYS_WRITE, [1, NOWHERE, 0], 0),
    (SYS_WRITE, [1, BUFFER, 4097], -14),
    (SYS_WRITE, [1, BUFFER, 4096], 4096),
];

static LIMITS: [Row; 9] = [
    (SYS_OPENAT, [CWD, F, 66], 3),
    (SYS_LSEEK, [3, i64::MAX, 0], i64::MAX),
    (SYS_LSEEK, [3, 1, 1], -22),
    (SYS_LSEEK, [3, 0, 3], -22),
    (SYS_WRITE, [3, NOWHERE, 1], -14),
    (SYS_WRITE, [3, BUFFER, 1], -27),
    (SYS_READ, [3, NOWHERE, 1], 0),
    (SYS_LSEEK, [3, 268_435_455, 0], 268_435_455),
    (SYS_WRITE, [3, BUFFER, 2], -27),
];

static FULL: [Row; 16] = [
    (SYS_OPENAT, [CWD, F, 66], 3),
    (SYS_LSEEK, [3, 268_435_455, 0], 268_435_455),
    (SYS_WRITE, [3, BUFFER, 1], 1),
    (SYS_WRITE, [3, BUFFER, 1], -27),
    (SYS_OPENAT, [CWD, G, 66], 4),
    (SYS_LSEEK, [4, 268_435_452, 0], 268_435_452),
    (SYS_WRITE, [4, BUFFER, 1], 1),
    (SYS_WRITE, [1, BUFFER, 4], -28),
    (SYS_WRITE, [1, BUFFER, 3], 3),
    (SYS_WRITE, [1, BUFFER, 1], -28),
    (SYS_WRITE, [4, BUFFER, 3], -28),
    (SYS_WRITE, [4, BUFFER, 4], -27),
    (SYS_WRITE, [4, NOWHERE, 1], -14),
    (SYS_WRITE, [4, BUFFER, 0], 0),
    (SYS_LSEEK, [4, 0, 0], 0),
    (SYS_WRITE, [4, BUFFER, 8], 8),
];

static TOO_MANY: [Row; 8] = [
    (SYS_OPENAT, [CWD, F, 64], -24),
    (SYS_OPENAT, [CWD, F, 192], -24),
    (SYS_OPENAT, [CWD, H, 0], -24),
    (SYS_OPENAT, [2000, F, 64], -9),
    (SYS_OPENAT, [CWD, F, 67], -22),
    (SYS_CLOSE, [500, 0, 0], 0),
    (SYS_OPENAT, [CWD, F, 192], -17),
    (SYS_OPENAT, [CWD, F, 0], 500),
];

static NO_MORE_NAMES: [Row; 5] = [
    (SYS_OPENAT, [CWD, H, 64], -28),
    (SYS_OPENAT, [CWD, H, 0], -2),
    (SYS_OPENAT, [CWD, BUFFER, 192], -17),
    (SYS_UNLINKAT, [CWD, BUFFER, 0], 0),
    (SYS_OPENAT, [CWD, H, 64], 3),
];

/// The same rows as tests/calls/expected.txt.
#[test]
fn as_linux(rt: HostRuntime) {
    let alloc = rt.alloc();
    check(&rt, alloc, &[Step::Rows(&REMOVED_WHILE_OPEN)]);
    check(&rt, alloc, &[Step::Rows(&LOWEST_DESCRIPTOR)]);
    check(&rt, alloc, &[Step::Rows(&FLAGS)]);
    check(&rt, alloc, &[Step::Rows(&GAPS_AND_CURSORS)]);
    check(&rt, alloc, &[Step::Rows(&BAD_ARGUMENTS)]);
}

#[test]
fn as_this_project(rt: HostRuntime) {
    let alloc = rt.alloc();
    check(&rt, alloc, &[Step::Rows(&PATHS)]);
    check(&rt, alloc, &[Step::Rows(&ORDERS)]);
    check(&rt, alloc, &[Step::Rows(&LIMITS)]);
}

/// One file of the most bytes, and writes that end at the limit of all files and streams, and one byte past it. A file that
/// is too large is refused before too many bytes in all.
#[test]
fn the_last_byte(rt: HostRuntime) {
    check(&rt, rt.alloc(), &[Step::Rows(&FULL)]);
}

static AT_THE_EDGE: [Step; 2] = [
    Step::Put(0x1_1f00, &[b'n'; 256]),
    Step::Rows(&[
        (SYS_FACCESSAT, [CWD, 0x1_1f00, 0], -36),
        (SYS_FACCESSAT, [CWD, 0x1_1f01, 0], -14),
    ]),
];

/// A path of 256 bytes that ends with the last mapped byte is too long, and one of 255 bytes runs into the unmapped page.
#[test]
fn paths_at_the_edge(rt: HostRuntime) {
    check(&rt, rt.alloc(), &AT_THE_EDGE);
}

fn open_all(rt: &impl Abort, alloc: Global, guest: &mut Guest) -> bool {
    for fd in 3..1024i64 {
        guest.run(rt, alloc, &[(SYS_OPENAT, [CWD, F, 64], fd)]);
    }
    true
}

#[test]
fn the_last_descriptor(rt: HostRuntime) {
    check(&rt, rt.alloc(), &[Step::OpenAll, Step::Rows(&TOO_MANY)]);
}

static MADE_AND_CLOSED: [Row; 2] = [
    (SYS_OPENAT, [CWD, BUFFER, 64], 3),
    (SYS_CLOSE, [3, 0, 0], 0),
];

/// Makes the files of 256 names that begin with one letter.
fn make_names(rt: &impl Abort, alloc: Global, guest: &mut Guest, first: u8)
    requires { first < 16 }
{
    for second in 0..16 {
        for third in 0..16 {
            let name = [letter(first), letter(second), letter(third), 0];
            assert!(rt; guest.put(BUFFER as u64, &name));
            guest.run(rt, alloc, &MADE_AND_CLOSED);
        }
    }
}

fn name_all(rt: &impl Abort, alloc: Global, guest: &mut Guest) -> bool {
    for first in 0..16 {
        make_names(rt, alloc, guest, first);
    }
    true
}

/// With 4,096 names no other file is made; those that are there open as ever.
#[test]
fn the_last_name(rt: HostRuntime) {
    check(
        &rt,
        rt.alloc(),
        &[Step::NameAll, Step::Rows(&NO_MORE_NAMES)],
    );
}

static ENDS: [Step; 4] = [
    Step::Ends(SYS_EXIT, 0, CallEnd::Exit(0)),
    Step::Ends(SYS_EXIT_GROUP, 0x1ff, CallEnd::Exit(255)),
    Step::Ends(0x1_0000_005d, 0, CallEnd::Unknown(0x1_0000_005d)),
    Step::Ends(92, 0, CallEnd::Unknown(92)),
];

#[test]
fn ends(rt: HostRuntime) {
    check(&rt, rt.alloc(), &ENDS);
}

const FIRST: i64 = 0x2_0000;

const END: i64 = 0x3_0000;

/// Two pages of heap, and then breaks that take one away, give one, and lie outside or at the ends.
static BREAKS: [Step; 9] = [
    Step::Rows(&[
        (SYS_BRK, [0, 0, 0], FIRST),
        (SYS_BRK, [FIRST + 8192, 0, 0], FIRST + 8192),
    ]),
    Step::Put(HEAP + 4095, &[1, 2]),
    Step::Rows(&[(SYS_BRK, [FIRST + 1, 0, 0], FIRST + 1)]),
    // The page of the break, and a page that fell away.
    Step::Byte(HEAP + 4095, Some(1)),
    Step::Byte(HEAP + 4096, None),
    Step::Rows(&[(SYS_BRK, [FIRST + 4097, 0, 0], FIRST + 4097)]),
    // A page that came again.
    Step::Byte(HEAP + 4096, Some(0)),
    Step::Rows(&[
        (SYS_BRK, [FIRST - 1, 0, 0], FIRST + 4097),
        (SYS_BRK, [END + 1, 0, 0], FIRST + 4097),
        (SYS_BRK, [END, 0, 0], END),
        (SYS_BRK, [FIRST, 0, 0], FIRST),
    ]),
    // An empty heap.
    Step::Byte(HEAP, None),
];

/// A heap that shrank and grew reads 0, and the page that holds the break keeps its bytes.
#[test]
fn the_break(rt: HostRuntime) {
    check(&rt, rt.alloc(), &BREAKS);
}
