ghost use Rattle.std.specs.Prelude.{Some};

use crate::byte_at;
use ddc_base::{Deliver, Loaded, PutFail, Sink, WriterSink, read_within, write_whole};
use std::alloc::Global;
use std::io;
use std::io::{ErrorKind, Read, Write};
use std::process::Abort;

/// A reader of so many bytes, which gives a few at a time, is interrupted at first, and may fail after some of them.
#[derive(Drop)]
struct Stream {
    given: usize,
    len: usize,
    step: usize,
    fails_after: usize,
    is_interrupted: bool,
}

impl Stream {
    fn new(len: usize, step: usize, fails_after: usize) -> Stream {
        Stream {
            given: 0,
            len,
            step,
            fails_after,
            is_interrupted: false,
        }
    }
}

impl Read for Stream {
    fn read(&mut self, buf: &mut [u8]) -> io::Result<usize> {
        if !self.is_interrupted {
            self.is_interrupted = true;
            return Err(io::Error::from(ErrorKind::Interrupted));
        }
        if self.given >= self.fails_after {
            return Err(io::Error::other("the reader broke"));
        }
        let left = self.len.saturating_sub(self.given);
        let count = buf.len().min(self.step).min(left);
        for byte in &mut buf[..count] {
            *byte = byte_at(self.given);
            self.given = self.given.saturating_add(1);
        }
        Ok(count)
    }
}

/// How many bytes a reader has and how many it gives at a time, how many are expected, and the limit.
type Row = (usize, usize, u64, u64);

static ROWS: [Row; 9] = [
    (0, 1, 0, 0),
    (1, 1, 0, 0),
    (9_000, 7, 0, 9_000),
    (9_000, 4_096, 9_000, 8_999),
    (9_000, 8_192, 3, 9_001),
    (20_000, 20_000, 20_000, 20_000),
    (20_001, 20_001, 20_001, 20_000),
    (20_001, 20_001, 18_446_744_073_709_551_615, 20_000),
    (5_000, 64, 0, 18_446_744_073_709_551_615),
];

fn are_streamed(content: &[u8]) -> bool {
    content
        .iter()
        .enumerate()
        .all(|(at, byte)| *byte == byte_at(at))
}

/// Whether this is what a read of so many bytes gives.
fn is_given(given: &Loaded, len: usize, limit: u64) -> bool {
    match given {
        Loaded::Bytes(content) => {
            content.len() == len && len as u64 <= limit && are_streamed(content.as_slice())
        }
        Loaded::TooLong => len as u64 > limit,
        Loaded::Absent => false,
    }
}

fn gives(alloc: Global, stream: &mut Stream, row: &Row) -> bool {
    match read_within(alloc, stream, row.2, row.3) {
        Ok(given) => is_given(&given, row.0, row.3),
        Err(_) => false,
    }
}

fn reads(alloc: Global, row: &Row) -> bool {
    let mut stream = Stream::new(row.0, row.1, usize::MAX);
    gives(alloc, &mut stream, row) && stream.given as u64 <= row.3.saturating_add(1)
}

fn fails(alloc: Global, mut stream: Stream, expected: u64, limit: u64) -> bool {
    read_within(alloc, &mut stream, expected, limit).is_err()
}

fn check_reads(rt: &impl Abort, alloc: Global, rows: &[Row]) {
    for row in rows {
        assert!(rt; reads(alloc, row), "{row:?}");
    }
}

/// An error in mid-stream is no shorter content.
fn check_breaks(rt: &impl Abort, alloc: Global, places: &[usize]) {
    for fails_after in places {
        let broken = Stream::new(9_000, 512, *fails_after);
        assert!(rt; fails(alloc, broken, 9_000, 9_000));
    }
}

#[test]
fn reads_within_a_limit(rt: HostRuntime) {
    check_reads(&rt, rt.alloc(), &ROWS);
    // Fewer bytes than are expected, where these are over the limit, are an error.
    let short = Stream::new(20_000, 4_096, usize::MAX);
    assert!(rt; fails(rt.alloc(), short, 20_001, 20_000));
    check_breaks(&rt, rt.alloc(), &[0, 1, 4_096, 9_000]);
}

/// A writer that takes a few bytes at a time, and nothing once it is full. It tells what it holds, and what of it has arrived.
#[derive(Drop)]
struct Slow {
    held: Vec<u8>,
    arrived: Vec<u8>,
    step: usize,
    budget: usize,
}

impl Write for Slow {
    ghost contents = { λ slow. Some slow.held.items };

    fn write(&mut self, buf: &[u8]) -> io::Result<usize> {
        let budget = self.budget.saturating_sub(self.held.len());
        let count = buf.len().min(self.step).min(budget);
        self.held.extend_from_slice(&buf[..count])?;
        Ok(count)
    }

    fn flush(&mut self) -> io::Result<()> {
        Ok(())
    }
}

impl Deliver for Slow {
    ghost delivered = { λ slow. Some slow.arrived.items };

    fn deliver(&mut self) -> io::Result<()> {
        self.arrived.clear();
        self.arrived.extend_from_slice(&self.held)?;
        Ok(())
    }
}

fn writes(slow: &mut Slow) -> bool {
    write_whole(slow, b"0123456789").is_ok()
        && slow.held.as_slice() == b"0123456789".as_slice()
        && slow.arrived.as_slice() == b"0123456789".as_slice()
}

fn puts<S: Sink>(sink: &mut S) -> bool {
    sink.put(b"") == Ok(())
        && sink.put(b"abcdefgh") == Ok(())
        && sink.put(b"ijk") == Err(PutFail::Failed)
}

fn puts_over(slow: &mut Slow) -> bool {
    let mut sink = WriterSink::new(slow);
    puts(&mut sink)
}

fn writes_and_puts(slow: &mut Slow) -> bool {
    writes(slow) && puts_over(slow) && slow.held.as_slice() == b"0123456789abcdefghij".as_slice()
}

#[test]
fn writes_whole_pieces(rt: HostRuntime) {
    let mut slow = Slow {
        held: Vec::new(rt.alloc()),
        arrived: Vec::new(rt.alloc()),
        step: 3,
        budget: 20,
    };
    assert!(rt; writes_and_puts(&mut slow));
}
