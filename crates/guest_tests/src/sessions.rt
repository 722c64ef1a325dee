//! Sessions over a program of 26 instructions that copies the file `in` to `out`: each line of a session, and each way to be wrong.

use ddc_base::{Bytes, MemSink, OutOfMemory, PutFail, read_hex};
use guest_run::RunBox;
use prompt::{MemPrompt, converse};
use std::alloc::Global;
use std::process::Abort;
use step_debug::Session;

/// copy.elf, 232 bytes: header, one program header, 26 instructions from 0x10078 on, and the names `in` and `out`.
const COPY: &str =
    "7f454c460201010000000000000000000200f30001000000780001000000000040000000000000000000000000000000000000004000380001000000000000000100000007000000000000000000000000000100000000000000010000000000e800000000000000e80000000000000000100000000000001305c0f9b70501009385050e1306000093088003730000001305c0f9b70501009385350e130610247300000037140000b30481401305300093850400130604009308f00373000000630c0500130605001305400093080004730000006ff09ffd9308d00573000000696e006f75740000";

/// A session's lines, its limit, and what is printed.
type Row = (&'static str, u32, &'static str);

/// The lines of one row each; a row with several has them in one session.
static ROWS: [Row; 24] = [
    ("where", 100, "at 0 0000000000010078 addi x10, x0, -100\n"),
    ("step 1", 100, "at 1 000000000001007c lui x11, 00010\n"),
    (
        "step 13\nwhere\nmem 100e0 3\nback 13\ngo",
        100_000,
        "at 13 00000000000100ac addi x10, x0, 3\nat 13 00000000000100ac addi x10, x0, 3\n696e00\nat 0 0000000000010078 addi x10, x0, -100\nend exited 0 step 32\n",
    ),
    // At the end the state before it stands, and the end comes again.
    (
        "go\nwhere\nstep 1\ngo\nback 32\nback 31",
        100,
        "end exited 0 step 32\nat 31 00000000000100dc ecall\nend exited 0 step 32\nend exited 0 step 32\nno such step\nat 0 0000000000010078 addi x10, x0, -100\n",
    ),
    // Steps up to the end, and to one before it.
    (
        "step 31\nstep 1",
        100,
        "at 31 00000000000100dc ecall\nend exited 0 step 32\n",
    ),
    (
        "step 32\nwhere",
        100,
        "end exited 0 step 32\nat 31 00000000000100dc ecall\n",
    ),
    ("step 281474976710656", 100, "end exited 0 step 32\n"),
    // The limit wins over the end and over the break.
    (
        "go\nwhere\ngo",
        31,
        "end spent step 31\nat 31 00000000000100dc ecall\nend spent step 31\n",
    ),
    ("go", 32, "end exited 0 step 32\n"),
    (
        "break 100ac\ngo",
        13,
        "break 00000000000100ac\nend spent step 13\n",
    ),
    (
        "break 100ac\ngo\nback 1\nstep 1",
        14,
        "break 00000000000100ac\nat 13 00000000000100ac addi x10, x0, 3\nat 12 00000000000100a8 sub x9, x2, x8\nat 13 00000000000100ac addi x10, x0, 3\n",
    ),
    (
        "step 13\nback 1\ngo\nstep 1\nback 13",
        13,
        "end spent step 13\nat 12 00000000000100a8 sub x9, x2, x8\nend spent step 13\nend spent step 13\nat 0 0000000000010078 addi x10, x0, -100\n",
    ),
    // `go` at the break takes a step; the break is there until another is.
    (
        "break 00100ac\ngo\ngo\nback 24\ngo",
        100,
        "break 00000000000100ac\nat 13 00000000000100ac addi x10, x0, 3\nat 24 00000000000100ac addi x10, x0, 3\nat 0 0000000000010078 addi x10, x0, -100\nat 13 00000000000100ac addi x10, x0, 3\n",
    ),
    (
        "break 1\nbreak 100dc\nbreak 10078\ngo",
        100,
        "break 0000000000000001\nbreak 00000000000100dc\nbreak 0000000000010078\nend exited 0 step 32\n",
    ),
    // A step does not look at the break.
    (
        "break 10080\nstep 3",
        100,
        "break 0000000000010080\nat 3 0000000000010084 addi x12, x0, 0\n",
    ),
    (
        "break 0\nbreak ffffffffffffffff\nbreak 00000000000000001",
        100,
        "break 0000000000000000\nbreak ffffffffffffffff\nunknown\n",
    ),
    (
        "break 100AC\nbreak\nbreak \nbreak g\nbreak 0x1\nbreak 1 ",
        100,
        "unknown\nunknown\nunknown\nunknown\nunknown\nunknown\n",
    ),
    // 64 bytes of memory at most, all of them mapped: the program's last page ends at 0x11000.
    (
        "mem 10ffe 2\nmem 10ffe 3\nmem ffffffffffffffff 1\nmem ffffffffffffffff 2\nmem 0 1",
        100,
        "0000\nunmapped\nunmapped\nunmapped\nunmapped\n",
    ),
    (
        "mem 10078 4\nmem 10078 0\nmem 10078 65\nmem 10078 04\nmem 10078\nmem  10078 4\nmem 10078 4 ",
        100,
        "1305c0f9\nunknown\nunknown\nunknown\nunknown\nunknown\nunknown\n",
    ),
    (
        "mem 100c0 64",
        100,
        "630c0500130605001305400093080004730000006ff09ffd9308d00573000000696e006f75740000000000000000000000000000000000000000000000000000\n",
    ),
    (
        "step 0\nstep 01\nstep\nstep \nstep +1\nstep 281474976710657\nstep 1 1\nSTEP 1\n step 1",
        100,
        "unknown\nunknown\nunknown\nunknown\nunknown\nunknown\nunknown\nunknown\nunknown\n",
    ),
    (
        "back 0\nback 1\nback 281474976710656\nback 281474976710657\nback x",
        100,
        "unknown\nno such step\nno such step\nunknown\nunknown\n",
    ),
    (
        "\nwhere \nwheres\ngo 1\nregs 1\nquit 1\nwhere\r\n",
        100,
        "unknown\nunknown\nunknown\nunknown\nunknown\nunknown\nunknown\n",
    ),
    // Nothing is said of `quit`, nor of a line after it.
    (
        "where\nquit\nwhere",
        100,
        "at 0 0000000000010078 addi x10, x0, -100\n",
    ),
];

/// Adds the argument and the file.
fn give(rt: &impl Abort, setting: &mut RunBox<'_>) {
    assert!(rt; setting.push_arg(b"copy").is_ok());
    assert!(rt; setting.place(b"in", b"abc").is_ok());
}

/// Holds a session of a program in a setting, with a standard input.
fn hold_in<'a>(
    rt: &impl Abort,
    alloc: Global,
    program: &'a [u8],
    setting: RunBox<'a>,
    limit: u32,
    prompt: &mut MemPrompt,
    out: &mut MemSink,
) -> Result<(), PutFail> {
    let started = Session::new(alloc, program, setting, u64::from(limit));
    let mut session = started.expect(rt, "a start");
    converse(&mut session, 65_536, prompt, out)
}

/// The same in the setting with the argument and the file.
fn hold_with<'a>(
    rt: &impl Abort,
    alloc: Global,
    program: &'a [u8],
    limit: u32,
    prompt: &mut MemPrompt,
    out: &mut MemSink,
) -> Result<(), PutFail> {
    let mut setting = RunBox::new(alloc, 536_870_912);
    give(rt, &mut setting);
    hold_in(rt, alloc, program, setting, limit, prompt, out)
}

/// The same of copy.elf.
fn hold(
    rt: &impl Abort,
    alloc: Global,
    prompt: &mut MemPrompt,
    limit: u32,
    out: &mut MemSink,
) -> Result<(), PutFail> {
    let copy = read_hex(alloc, COPY.as_bytes()).expect(rt, "a program");
    hold_with(rt, alloc, copy.as_slice(), limit, prompt, out)
}

/// How many lines a text has.
fn lines_of(text: &[u8]) -> usize {
    let mut count: usize = 0;
    for byte in text {
        if *byte == b'\n' {
            count = count.saturating_add(1);
        }
    }
    count
}

/// Whether an output has a text, and one piece for each of its lines.
fn has_lines(out: &MemSink, text: &[u8]) -> bool {
    out.written() == text && out.pieces().len() == lines_of(text)
}

/// Whether a session with a standard input prints this.
fn prints(rt: &impl Abort, alloc: Global, prompt: &mut MemPrompt, limit: u32, want: &str) -> bool {
    let mut out = MemSink::new(alloc);
    let end = hold(rt, alloc, prompt, limit, &mut out);
    end == Ok(()) && has_lines(&out, want.as_bytes())
}

/// Whether lines are answered by this in one session.
fn are_answered(rt: &impl Abort, alloc: Global, lines: &str, limit: u32, want: &str) -> bool {
    let mut prompt = MemPrompt::new(alloc, lines.as_bytes()).expect(rt, "memory");
    prints(rt, alloc, &mut prompt, limit, want)
}

fn check_rows(rt: &impl Abort, alloc: Global, rows: &[Row]) {
    for &(lines, limit, want) in rows {
        assert!(rt; are_answered(rt, alloc, lines, limit, want), "{lines}");
    }
}

#[test]
fn lines_are_answered(rt: HostRuntime) {
    check_rows(&rt, rt.alloc(), &ROWS);
}

/// x2 is the stack, and openat(-100, 0x100e0, 0, ..), the call 56, is made next.
const REGISTERS: &str = "at 5 000000000001008c ecall\n000000000001008c \
    0000000000000000 0000003fffffffc0 0000000000000000 0000000000000000 0000000000000000 0000000000000000 0000000000000000 \
    0000000000000000 0000000000000000 ffffffffffffff9c 00000000000100e0 0000000000000000 0000000000000000 0000000000000000 \
    0000000000000000 0000000000000000 0000000000000038 0000000000000000 0000000000000000 0000000000000000 0000000000000000 \
    0000000000000000 0000000000000000 0000000000000000 0000000000000000 0000000000000000 0000000000000000 0000000000000000 \
    0000000000000000 0000000000000000 0000000000000000\n";

#[test]
fn registers_are_shown(rt: HostRuntime) {
    assert!(rt; are_answered(&rt, rt.alloc(), "step 5\nregs\n", 100, REGISTERS));
}

/// How many pieces a session writes; `None` where it is cut.
fn pieces(rt: &impl Abort, alloc: Global, prompt: &mut MemPrompt) -> Option<usize> {
    let mut out = MemSink::new(alloc);
    let end = hold(rt, alloc, prompt, 100, &mut out);
    if end == Ok(()) {
        Some(out.pieces().len())
    } else {
        None
    }
}

/// Whether a session writes so many pieces and leaves this, where the line of this number fails.
fn leaves_of(
    rt: &impl Abort,
    alloc: Global,
    prompt: &mut MemPrompt,
    failing: u64,
    count: usize,
    unread: &[u8],
) -> bool {
    prompt.fail_line(failing).is_ok()
        && pieces(rt, alloc, prompt) == Some(count)
        && prompt.unread() == unread
}

/// The same over lines.
fn leaves(
    rt: &impl Abort,
    alloc: Global,
    lines: &[u8],
    failing: u64,
    count: usize,
    unread: &[u8],
) -> bool {
    let mut prompt = MemPrompt::new(alloc, lines).expect(rt, "memory");
    leaves_of(rt, alloc, &mut prompt, failing, count, unread)
}

#[test]
fn what_is_left_stays(rt: HostRuntime) {
    assert!(rt; leaves(&rt, rt.alloc(), b"where\nquit\nwhere\n", 0, 1, b"where\n"));
}

/// After `quit` and after the end no line is asked for, so none fails.
#[test]
fn no_line_after_the_last_fails(rt: HostRuntime) {
    assert!(rt; leaves(&rt, rt.alloc(), b"where\nquit\n", 3, 1, b""));
    assert!(rt; leaves(&rt, rt.alloc(), b"where\n", 3, 1, b""));
}

/// The number of the line that fails, of the put that fails, and what is put whole.
static FAULTS: [(u64, u64, usize); 5] = [(1, 0, 0), (2, 0, 1), (3, 0, 2), (0, 1, 0), (0, 2, 1)];

/// The line that each `where` is answered by.
const LINE: &str = "at 0 0000000000010078 addi x10, x0, -100\n";

/// Whether an output has so many lines whole, and half of one where a write failed.
fn has_whole(out: &MemSink, put_fails: u64, count: usize) -> bool {
    let half = if put_fails == 0 { 0 } else { LINE.len() / 2 };
    let whole = LINE.len().saturating_mul(count);
    out.pieces().len() == count && out.written().len() == whole.saturating_add(half)
}

/// Whether a session is cut in its output after so many whole lines.
fn is_cut_into(
    rt: &impl Abort,
    alloc: Global,
    prompt: &mut MemPrompt,
    out: &mut MemSink,
    put_fails: u64,
    count: usize,
) -> bool {
    out.fail_put(put_fails).is_ok()
        && hold(rt, alloc, prompt, 100, out) == Err(PutFail::Failed)
        && has_whole(out, put_fails, count)
}

/// Whether a session is cut after so many whole lines, where the line of this number fails.
fn is_cut_over(
    rt: &impl Abort,
    alloc: Global,
    prompt: &mut MemPrompt,
    line_fails: u64,
    put_fails: u64,
    count: usize,
) -> bool {
    let mut out = MemSink::new(alloc);
    prompt.fail_line(line_fails).is_ok()
        && is_cut_into(rt, alloc, prompt, &mut out, put_fails, count)
}

fn is_cut(rt: &impl Abort, alloc: Global, line_fails: u64, put_fails: u64, count: usize) -> bool {
    let mut prompt = MemPrompt::new(alloc, b"where\nwhere\n").expect(rt, "memory");
    is_cut_over(rt, alloc, &mut prompt, line_fails, put_fails, count)
}

#[test]
fn faults_cut_a_session(rt: HostRuntime) {
    for &(line_fails, put_fails, count) in &FAULTS {
        assert!(rt; is_cut(&rt, rt.alloc(), line_fails, put_fails, count));
    }
}

/// So many empty lines.
fn empty_lines(alloc: Global, count: u32) -> Result<Bytes, OutOfMemory> {
    let mut lines = Bytes::new(alloc);
    for _ in 0..count {
        lines.push(b'\n')?;
    }
    Ok(lines)
}

fn check_counted(rt: &impl Abort, alloc: Global, lines: &[u8]) {
    assert!(rt; leaves(rt, alloc, lines, 0, 65_536, b"\n\n"));
}

#[test]
fn lines_are_counted(rt: HostRuntime) {
    let lines = empty_lines(rt.alloc(), 65_538).expect(&rt, "memory");
    check_counted(&rt, rt.alloc(), lines.as_slice());
}
