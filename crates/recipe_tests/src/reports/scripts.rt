ghost use Rattle.report.specs.Script.Reports.{IsScriptReport};

use crate::reports::put_text;
use ddc_base::{Bytes, OutOfMemory, digest, put_hex};
use report::ReportRefusal;
use report::script::{CommandLine, ScriptReport, read, write};
use std::alloc::Global;
use std::process::Abort;
use std::test::Fail;

/// The report of a script of two commands, `./copy.elf` and, after a comment, `"out" x`, over examples/report/copy.elf and a copy of it
/// under the name `in`. The digests are those of `sha256sum`, and what the program leaves is what `qemu-riscv64` leaves.
static EXAMPLE: &str = "\
kaem-report 1\n\
script 5b544eaf879399c9d37e34356a8842f02a6cb537d69cfa52ec6a88eb0dc91427\n\
file 636f70792e656c66 232 da8dcb705eb55cbf9f4852135f93a902f4584b973901f37abb829fd299d0b026\n\
file 696e 232 da8dcb705eb55cbf9f4852135f93a902f4584b973901f37abb829fd299d0b026\n\
command 32\n\
stream 1 0 e3b0c44298fc1c149afbf4c8996fb92427ae41e4649b934ca495991b7852b855\n\
stream 2 0 e3b0c44298fc1c149afbf4c8996fb92427ae41e4649b934ca495991b7852b855\n\
command 32\n\
stream 1 0 e3b0c44298fc1c149afbf4c8996fb92427ae41e4649b934ca495991b7852b855\n\
stream 2 0 e3b0c44298fc1c149afbf4c8996fb92427ae41e4649b934ca495991b7852b855\n\
left 636f70792e656c66 232 da8dcb705eb55cbf9f4852135f93a902f4584b973901f37abb829fd299d0b026\n\
left 696e 232 da8dcb705eb55cbf9f4852135f93a902f4584b973901f37abb829fd299d0b026\n\
left 6f7574 232 da8dcb705eb55cbf9f4852135f93a902f4584b973901f37abb829fd299d0b026\n\
end\n\
";

/// How many lines it has.
const LINES: u64 = 14;

/// Changes of the example: from this line on so many lines are replaced by a text, in which `*` stands for the digest of no bytes. What comes
/// of it is no report from this line on, or a report's text where the number is 0, as the grammar of docs/reference/kaem-report.md has it.
type Row = (u64, u64, &'static str, u64);

/// Each field, letter and blank of the first two lines.
static FIRST_LINES: [Row; 20] = [
    (1, 1, "kaem-report 0\n", 1),
    (1, 1, "kaem-report 2\n", 1),
    (1, 1, "kaem-report 01\n", 1),
    (1, 1, "kaem-report 1 \n", 1),
    (1, 1, "kaem-report 1 1\n", 1),
    (1, 1, "kaem-report  1\n", 1),
    (1, 1, " kaem-report 1\n", 1),
    (1, 1, "kaem-report\n", 1),
    (1, 1, "kaem-report 1\r\n", 1),
    (1, 1, "Kaem-report 1\n", 1),
    (1, 1, "ddc-report 1\n", 1),
    (1, 1, "\n", 1),
    (2, 1, "script *\n", 0),
    (2, 1, "script *0\n", 2),
    (2, 1, "script * \n", 2),
    (2, 1, "script 0\n", 2),
    (2, 1, "script\n", 2),
    (2, 1, "recipe *\n", 2),
    (
        2,
        1,
        "script E3B0C44298FC1C149AFBF4C8996FB92427AE41E4649B934CA495991B7852B855\n",
        2,
    ),
    (
        2,
        1,
        "script g3b0c44298fc1c149afbf4c8996fb92427ae41e4649b934ca495991b7852b855\n",
        2,
    ),
];

/// The same of the lines of files and commands.
static FILES_AND_COMMANDS: [Row; 25] = [
    (3, 1, "file 00 18446744073709551615 *\n", 0),
    (3, 1, "file 69 18446744073709551616 *\n", 3),
    (3, 1, "file 69 00 *\n", 3),
    (3, 1, "file 69 +1 *\n", 3),
    (3, 1, "file 6F 0 *\n", 3),
    (3, 1, "file 6 0 *\n", 3),
    (3, 1, "file 6g 0 *\n", 3),
    (3, 1, "file  0 *\n", 3),
    (3, 1, "file 0 *\n", 3),
    (3, 1, "file 69 0 * \n", 3),
    (3, 1, "file 69 *\n", 3),
    (3, 1, "file copy 0 *\n", 3),
    (3, 1, "input prog 0 *\n", 3),
    (5, 1, "command 0\n", 5),
    (5, 1, "command 1\n", 0),
    (5, 1, "command 281474976710656\n", 0),
    (5, 1, "command 281474976710657\n", 5),
    (5, 1, "command 18446744073709551616\n", 5),
    (5, 1, "command 032\n", 5),
    (5, 1, "command 3 2\n", 5),
    (5, 1, "command 32 \n", 5),
    (5, 1, "command -1\n", 5),
    (5, 1, "command\n", 5),
    (5, 1, "command \n", 5),
    (5, 1, "stage one 32\n", 5),
];

/// The same of streams, of what is left, and of the last line.
static STREAMS_AND_LEFT: [Row; 22] = [
    (6, 1, "stream 0 0 *\n", 6),
    (6, 1, "stream 2 0 *\n", 6),
    (6, 1, "stream 3 0 *\n", 6),
    (6, 1, "stream 01 0 *\n", 6),
    (6, 1, "stream 1 *\n", 6),
    (6, 1, "stream1 0 *\n", 6),
    (6, 1, "stream 1 18446744073709551615 *\n", 0),
    (7, 1, "stream 1 0 *\n", 7),
    (11, 1, "left 00 0 *\n", 0),
    (11, 1, "left 69 0 *\n", 0),
    (11, 1, "left 696e 0 *\n", 12),
    (11, 1, "left 696e00 0 *\n", 12),
    (11, 1, "left 70 0 *\n", 12),
    (11, 1, "left 6F 0 *\n", 11),
    (11, 1, "left 696 0 *\n", 11),
    (13, 1, "left 696e00 0 *\n", 0),
    (13, 1, "left 696d 0 *\n", 13),
    (13, 1, "made 0 *\n", 13),
    (14, 1, "end \n", 14),
    (14, 1, "End\n", 14),
    (14, 1, "end\r\n", 14),
    (14, 1, "end 0\n", 14),
];

/// A line or a whole part left out.
static LEFT_OUT: [Row; 23] = [
    (1, 1, "", 1),
    (2, 1, "", 2),
    (3, 1, "", 0),
    (4, 1, "", 0),
    (5, 1, "", 5),
    (6, 1, "", 6),
    (7, 1, "", 7),
    (8, 1, "", 8),
    (9, 1, "", 9),
    (10, 1, "", 10),
    (11, 1, "", 0),
    (12, 1, "", 0),
    (13, 1, "", 0),
    (14, 1, "", 14),
    (3, 2, "", 0),
    (5, 3, "", 0),
    (8, 3, "", 0),
    (5, 6, "", 0),
    (11, 3, "", 0),
    (3, 11, "", 0),
    (3, 12, "", 3),
    (5, 10, "", 5),
    (11, 4, "", 11),
];

/// A line too many, and parts in another order.
static ADDED: [Row; 15] = [
    (5, 0, "file 69 0 *\n", 0),
    (8, 0, "file 69 0 *\n", 8),
    (11, 0, "file 69 0 *\n", 11),
    (14, 0, "file 69 0 *\n", 14),
    (3, 0, "left 00 0 *\n", 4),
    (5, 0, "left 00 0 *\n", 6),
    (8, 0, "left 00 0 *\n", 9),
    (14, 0, "command 1\n", 14),
    (3, 0, "end\n", 4),
    (11, 0, "end\n", 12),
    (15, 0, "x", 15),
    (15, 0, "\n", 15),
    (15, 0, "end\n", 15),
    (1, 14, "", 1),
    (1, 14, "\n", 1),
];

/// What comes of each line of the example if it stands twice, and if it changes places with the next.
static LINE_FAULTS: [(u64, u64); 14] = [
    (2, 1),
    (3, 2),
    (0, 0),
    (0, 5),
    (6, 5),
    (7, 6),
    (8, 7),
    (9, 8),
    (10, 9),
    (11, 10),
    (12, 12),
    (13, 13),
    (14, 14),
    (15, 0),
];

/// Adds the example's lines from one number to another.
fn put_lines(out: &mut Bytes, first: u64, last: u64) -> Result<(), OutOfMemory> {
    let mut number = 0u64;
    for line in EXAMPLE.lines() {
        number = number.saturating_add(1);
        if first <= number && number <= last {
            out.extend(line.as_bytes())?;
            out.push(b'\n')?;
        }
    }
    Ok(())
}

/// Adds the example with so many lines replaced by a text.
fn put_changed(out: &mut Bytes, row: &Row) -> Result<(), OutOfMemory> {
    let (first, count, text, _) = *row;
    put_lines(out, 1, first.saturating_sub(1))?;
    put_text(out, text.as_bytes())?;
    put_lines(out, first.saturating_add(count), LINES)
}

/// 0 where a text is what is written for its report, and else a line that no text has.
fn fault_of_report(alloc: Global, report: &ScriptReport, text: &[u8]) -> Result<u64, OutOfMemory>
    requires { IsScriptReport report.now }
{
    let written = write(alloc, report)?;
    Ok(if written.as_slice() == text {
        0
    } else {
        u64::MAX
    })
}

/// The line at which a text is no report, or 0 where it is one, which then is what is written for it.
fn fault_of(alloc: Global, text: &[u8]) -> Result<u64, OutOfMemory> {
    match read(alloc, text) {
        Ok(report) => fault_of_report(alloc, &report, text),
        Err(ReportRefusal::Form(number)) => Ok(number),
        Err(ReportRefusal::OutOfMemory) => Err(OutOfMemory),
    }
}

/// Whether a command's line has these steps and no byte in its streams.
fn is_quiet(line: Option<&CommandLine>, steps: u64) -> bool {
    line.is_some_and(|line| {
        line.steps == steps
            && line.stream1.length == 0
            && line.stream1.digest == digest(b"")
            && line.stream2.length == 0
            && line.stream2.digest == digest(b"")
    })
}

/// Whether the fields of some kinds are those of the example's text.
fn is_example(report: &ScriptReport) -> bool {
    let Some(second) = report.files.get(1) else {
        return false;
    };
    let Some(third) = report.left.get(2) else {
        return false;
    };
    report.files.len() == 2
        && report.commands.len() == 2
        && report.left.len() == 3
        && report.script == digest(b"./copy.elf\n# made\n\"out\" x\n")
        && second.name.as_slice() == b"in".as_slice()
        && second.mark.length == 232
        && third.name.as_slice() == b"out".as_slice()
        && third.mark == second.mark
        && is_quiet(report.commands.get(0), 32)
        && is_quiet(report.commands.get(1), 32)
}

fn is_read(alloc: Global) -> bool {
    match read(alloc, EXAMPLE.as_bytes()) {
        Ok(report) => is_example(&report),
        Err(_) => false,
    }
}

#[test]
fn the_example_is_read(rt: HostRuntime) {
    assert!(rt; is_read(rt.alloc()));
}

/// The line at which a change of the example is no report.
fn fault_of_changed(alloc: Global, row: &Row) -> Result<u64, OutOfMemory> {
    let mut out = Bytes::new(alloc);
    put_changed(&mut out, row)?;
    fault_of(alloc, out.as_slice())
}

fn check_changes(rt: &impl Abort, alloc: Global, rows: &[Row]) -> Result<(), OutOfMemory> {
    for row in rows {
        assert!(rt; fault_of_changed(alloc, row)? == row.3, "{row:?}");
    }
    Ok(())
}

fn check_all(rt: &impl Abort, alloc: Global, tables: &[&[Row]]) -> Result<(), OutOfMemory> {
    for rows in tables {
        check_changes(rt, alloc, rows)?;
    }
    Ok(())
}

#[test]
fn changes_are_refused_at_their_line(rt: HostRuntime) -> Result<(), Fail> {
    Ok(check_all(
        &rt,
        rt.alloc(),
        &[
            &FIRST_LINES,
            &FILES_AND_COMMANDS,
            &STREAMS_AND_LEFT,
            &LEFT_OUT,
            &ADDED,
        ],
    )?)
}

/// Adds the example with a line twice.
fn put_doubled(out: &mut Bytes, number: u64) -> Result<(), OutOfMemory> {
    put_lines(out, 1, number)?;
    put_lines(out, number, LINES)
}

/// Adds the example with a line and the next in each other's place.
fn put_swapped(out: &mut Bytes, number: u64) -> Result<(), OutOfMemory> {
    let next = number.saturating_add(1);
    put_lines(out, 1, number.saturating_sub(1))?;
    put_lines(out, next, next)?;
    put_lines(out, number, number)?;
    put_lines(out, next.saturating_add(1), LINES)
}

fn fault_of_doubled(alloc: Global, number: u64) -> Result<u64, OutOfMemory> {
    let mut out = Bytes::new(alloc);
    put_doubled(&mut out, number)?;
    fault_of(alloc, out.as_slice())
}

fn fault_of_swapped(alloc: Global, number: u64) -> Result<u64, OutOfMemory> {
    let mut out = Bytes::new(alloc);
    put_swapped(&mut out, number)?;
    fault_of(alloc, out.as_slice())
}

/// Whether this comes of a line.
fn has_faults(alloc: Global, number: u64, faults: (u64, u64)) -> Result<bool, OutOfMemory> {
    let doubled = fault_of_doubled(alloc, number)?;
    let swapped = fault_of_swapped(alloc, number)?;
    Ok(doubled == faults.0 && swapped == faults.1)
}

fn check_lines(rt: &impl Abort, alloc: Global, rows: &[(u64, u64)]) -> Result<(), OutOfMemory> {
    let mut number = 0u64;
    for row in rows {
        number = number.saturating_add(1);
        assert!(rt; has_faults(alloc, number, *row)?, "{row:?}");
    }
    Ok(())
}

#[test]
fn lines_stand_once_and_in_order(rt: HostRuntime) -> Result<(), Fail> {
    Ok(check_lines(&rt, rt.alloc(), &LINE_FAULTS)?)
}

fn check_cut(rt: &impl Abort, alloc: Global, text: &[u8], line: u64) -> Result<(), OutOfMemory> {
    assert!(rt; fault_of(alloc, text)? == line, "{line}");
    Ok(())
}

/// Adds the example byte by byte, and asserts at each that the line of the cut is lacking.
fn check_cuts(
    rt: &impl Abort,
    alloc: Global,
    text: &mut Bytes,
    whole: &[u8],
) -> Result<(), OutOfMemory> {
    let mut line = 1u64;
    for byte in whole {
        check_cut(rt, alloc, text.as_slice(), line)?;
        text.push(*byte)?;
        if *byte == b'\n' {
            line = line.saturating_add(1);
        }
    }
    check_cut(rt, alloc, text.as_slice(), 0)
}

#[test]
fn a_cut_text_lacks_the_line_of_the_cut(rt: HostRuntime) -> Result<(), Fail> {
    let mut text = Bytes::new(rt.alloc());
    Ok(check_cuts(&rt, rt.alloc(), &mut text, EXAMPLE.as_bytes())?)
}

/// How many files, commands and left files, the names of the latter of so many bytes; and the line at which this is no report, or 0.
type Sizes = (u32, u32, u16, usize, u64);

static SIZES: [Sizes; 10] = [
    (0, 0, 0, 2, 0),
    (4096, 0, 0, 2, 0),
    (4097, 0, 0, 2, 4099),
    (0, 4096, 0, 2, 0),
    (0, 4097, 0, 2, 12291),
    (0, 0, 4096, 2, 0),
    (0, 0, 4097, 2, 4099),
    (4096, 4096, 4096, 2, 0),
    (0, 0, 1, 255, 0),
    (0, 0, 1, 256, 3),
];

/// Adds a file that was left, whose name has so many bytes.
fn put_left(text: &mut Bytes, number: u16, name: usize) -> Result<(), OutOfMemory> {
    put_text(text, b"left ")?;
    put_hex(text, &number.to_be_bytes())?;
    for _ in 2..name {
        put_text(text, b"00")?;
    }
    put_text(text, b" 0 *\n")
}

fn put_sized(text: &mut Bytes, row: &Sizes) -> Result<(), OutOfMemory> {
    let (files, commands, left, name, _) = *row;
    put_text(text, b"kaem-report 1\nscript *\n")?;
    for _ in 0..files {
        put_text(text, b"file 61 0 *\n")?;
    }
    for _ in 0..commands {
        put_text(text, b"command 1\nstream 1 0 *\nstream 2 0 *\n")?;
    }
    for number in 0..left {
        put_left(text, number, name)?;
    }
    put_text(text, b"end\n")
}

fn fault_of_sized(alloc: Global, row: &Sizes) -> Result<u64, OutOfMemory> {
    let mut text = Bytes::new(alloc);
    put_sized(&mut text, row)?;
    fault_of(alloc, text.as_slice())
}

fn check_sizes(rt: &impl Abort, alloc: Global, rows: &[Sizes]) -> Result<(), OutOfMemory> {
    for row in rows {
        assert!(rt; fault_of_sized(alloc, row)? == row.4, "{row:?}");
    }
    Ok(())
}

#[test]
fn counts_have_limits(rt: HostRuntime) -> Result<(), Fail> {
    Ok(check_sizes(&rt, rt.alloc(), &SIZES)?)
}

fn fault_of_text(alloc: Global, encoded: &[u8]) -> Result<u64, OutOfMemory> {
    let mut text = Bytes::new(alloc);
    put_text(&mut text, encoded)?;
    fault_of(alloc, text.as_slice())
}

#[test]
fn an_audits_report_is_none_of_a_script(rt: HostRuntime) -> Result<(), Fail> {
    assert!(rt; fault_of_text(rt.alloc(), b"ddc-report 1\nrecipe *\n")? == 1);
    Ok(())
}
