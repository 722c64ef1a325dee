//! Tests of input lines (`Prompt`), in memory and over a reader: each line at its limits, and faults.

use ddc_base::{Bytes, OutOfMemory};
use prompt::{Asked, Failed, MemPrompt, Prompt, ReaderPrompt};
use std::alloc::Global;
use std::io;
use std::io::Read;
use std::process::Abort;
use std::test::Fail;

/// A front part of so many bytes `x`, the bytes after it, and the lines that are given: how many bytes each has, 999 for one that is too long.
type Row = (usize, &'static str, &'static [usize]);

static ROWS: [Row; 16] = [
    (0, "", &[]),
    (0, "\n", &[0]),
    (0, "\n\n", &[0, 0]),
    (1, "", &[1]),
    (1, "\n", &[1]),
    (1, "\r\n", &[2]),
    (2, "\nab\n\nc", &[2, 2, 0, 1]),
    // 256 bytes at most, the LF not counted.
    (256, "", &[256]),
    (256, "\nab", &[256, 2]),
    (257, "", &[999]),
    (257, "\nab", &[999, 2]),
    // 65,536 bytes at most are taken, the LF counted.
    (65_535, "\nab", &[999, 2]),
    (65_536, "\nab", &[999, 0, 2]),
    (65_537, "\nab", &[999, 1, 2]),
    (65_536, "", &[999]),
    (131_073, "", &[999, 999, 1]),
];

/// Adds the bytes of a row.
fn put_row(bytes: &mut Bytes, row: &Row) -> Result<(), OutOfMemory> {
    for _ in 0..row.0 {
        bytes.push(b'x')?;
    }
    bytes.extend(row.1.as_bytes())
}

/// The bytes of a row.
fn bytes_of(alloc: Global, row: &Row) -> Result<Bytes, OutOfMemory> {
    let mut bytes = Bytes::new(alloc);
    put_row(&mut bytes, row)?;
    Ok(bytes)
}

/// Whether the next line of an input has this size.
fn gives_line<P: Prompt>(prompt: &mut P, size: usize) -> bool {
    match prompt.line() {
        Ok(Asked::Line(line)) => line.as_slice().len() == size,
        Ok(Asked::TooLong) => size == 999,
        Ok(Asked::End) | Err(Failed) => false,
    }
}

fn gives_end<P: Prompt>(prompt: &mut P) -> bool {
    matches!(prompt.line(), Ok(Asked::End))
}

/// Whether an input gives exactly these lines, and then twice that nothing is left.
fn gives<P: Prompt>(prompt: &mut P, lines: &[usize]) -> bool {
    for size in lines {
        if !gives_line(prompt, *size) {
            return false;
        }
    }
    gives_end(prompt) && gives_end(prompt)
}

/// A reader of these bytes, which fails once at a read.
#[derive(Drop)]
struct Source<'a> {
    bytes: &'a [u8],
    reads: usize,
    fails_at: usize,
}

impl<'a> Read for Source<'a> {
    fn read(&mut self, buf: &mut [u8]) -> io::Result<usize> {
        self.reads = self.reads.saturating_add(1);
        if self.reads == self.fails_at {
            return Err(io::Error::other("the reader broke"));
        }
        let count = buf.len().min(self.bytes.len());
        buf[..count].copy_from_slice(&self.bytes[..count]);
        self.bytes = &self.bytes[count..];
        Ok(count)
    }
}

fn is_given_held(alloc: Global, bytes: &[u8], lines: &[usize]) -> Result<bool, OutOfMemory> {
    let mut held = MemPrompt::new(alloc, bytes)?;
    Ok(gives(&mut held, lines))
}

fn is_given_read(bytes: &[u8], lines: &[usize]) -> bool {
    let mut read = ReaderPrompt::new(Source {
        bytes,
        reads: 0,
        fails_at: 0,
    });
    gives(&mut read, lines)
}

fn are_given(alloc: Global, bytes: &[u8], lines: &[usize]) -> Result<bool, OutOfMemory> {
    Ok(is_given_held(alloc, bytes, lines)? && is_given_read(bytes, lines))
}

fn is_given(alloc: Global, row: &Row) -> Result<bool, OutOfMemory> {
    let bytes = bytes_of(alloc, row)?;
    are_given(alloc, bytes.as_slice(), row.2)
}

fn check(rt: &impl Abort, alloc: Global, rows: &[Row]) -> Result<(), OutOfMemory> {
    for row in rows {
        assert!(rt; is_given(alloc, row)?, "{row:?}");
    }
    Ok(())
}

#[test]
fn lines_are_given(rt: HostRuntime) -> Result<(), Fail> {
    Ok(check(&rt, rt.alloc(), &ROWS)?)
}

/// Whether an input gives a line, and then fails.
fn fails_second<P: Prompt>(prompt: &mut P) -> bool {
    matches!(prompt.line(), Ok(Asked::Line(_))) && matches!(prompt.line(), Err(Failed))
}

/// The second call would take six bytes, and takes three.
fn fails_held(held: &mut MemPrompt) -> Result<bool, OutOfMemory> {
    held.fail_line(2)?;
    Ok(fails_second(held) && held.unread() == b"fg\nh".as_slice() && gives(held, &[2, 1]))
}

fn held_fails(alloc: Global) -> Result<bool, OutOfMemory> {
    let mut held = MemPrompt::new(alloc, b"ab\ncdefg\nh")?;
    fails_held(&mut held)
}

/// What a failed call has read is lost, and the next call continues after it.
fn read_fails() -> bool {
    let mut read = ReaderPrompt::new(Source {
        bytes: b"ab\ncd\n",
        reads: 0,
        fails_at: 5,
    });
    fails_second(&mut read) && gives(&mut read, &[1])
}

#[test]
fn lines_fail(rt: HostRuntime) -> Result<(), Fail> {
    assert!(rt; held_fails(rt.alloc())?);
    assert!(rt; read_fails());
    Ok(())
}
