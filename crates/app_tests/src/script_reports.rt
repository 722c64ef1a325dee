//! Replays of a script's report, of the report with one change, and on changed files, by `kaem-verify`. The expected answers were written
//! down from docs/reference/kaem.md and docs/reference/kaem-report.md.

use crate::scenes::{saves, says};
use crate::scripts::{LIST, SCRIPT, shelf_of};
use ddc_app::Status;
use ddc_base::{Bytes, MemShelf, OutOfMemory};
use std::alloc::Global;
use std::process::Abort;
use std::test::Fail;

/// The worked report: `*` stands for the digest of no bytes, and `+` for copy.elf's.
static REPORT: &str = "\
kaem-report 1\n\
script 5b544eaf879399c9d37e34356a8842f02a6cb537d69cfa52ec6a88eb0dc91427\n\
file 636f70792e656c66 232 +\n\
file 696e 232 +\n\
command 32\n\
stream 1 0 *\n\
stream 2 0 *\n\
command 32\n\
stream 1 0 *\n\
stream 2 0 *\n\
left 636f70792e656c66 232 +\n\
left 696e 232 +\n\
left 6f7574 232 +\n\
end\n\
";

const LINES: u64 = 14;

/// Adds a text in which `*` and `+` stand for digests.
fn put_text(out: &mut Bytes, text: &[u8]) -> Result<(), OutOfMemory> {
    for byte in text {
        match *byte {
            b'*' => {
                out.extend(b"e3b0c44298fc1c149afbf4c8996fb92427ae41e4649b934ca495991b7852b855")?;
            }
            b'+' => {
                out.extend(b"da8dcb705eb55cbf9f4852135f93a902f4584b973901f37abb829fd299d0b026")?;
            }
            other => out.push(other)?,
        }
    }
    Ok(())
}

/// Adds the worked report's lines from one number to another.
fn put_lines(out: &mut Bytes, first: u64, last: u64) -> Result<(), OutOfMemory> {
    let mut number = 0u64;
    for line in REPORT.lines() {
        number = number.saturating_add(1);
        if first <= number && number <= last {
            put_text(out, line.as_bytes())?;
            out.push(b'\n')?;
        }
    }
    Ok(())
}

/// The worked report with so many lines from one number on replaced by a text.
fn changed(alloc: Global, first: u64, count: u64, text: &str) -> Result<Bytes, OutOfMemory> {
    let mut report = Bytes::new(alloc);
    put_lines(&mut report, 1, first.saturating_sub(1))?;
    put_text(&mut report, text.as_bytes())?;
    put_lines(&mut report, first.saturating_add(count), LINES)?;
    Ok(report)
}

/// The status of a text that is no yes.
fn status_of(text: &str) -> Status {
    if text.starts_with("report") {
        Status::ReportRefused
    } else {
        Status::Refuted
    }
}

/// Runs `kaem-verify s l r` on a file store with this report, and compares its status and text.
fn judged(
    rt: &impl Abort,
    alloc: Global,
    shelf: &mut MemShelf,
    report: &[u8],
    ending: (Status, &str),
) -> Result<(), OutOfMemory> {
    shelf.set("r", report)?;
    says(rt, alloc, shelf, &["kaem-verify", "s", "l", "r"], ending)?;
    assert_eq!(rt; saves(shelf), 0);
    Ok(())
}

/// From this line on so many are replaced by a text; what is then said.
static CHANGES: &[(u64, u64, &str, &str)] = &[
    // the digest of the script, and what comes after it
    (2, 1, "script *\n", "refuted header 0\n"),
    (2, 2, "script *\nfile 61 0 *\n", "refuted header 0\n"),
    // the files of the list: their names, lengths and digests, their order and their count
    (3, 1, "file 636f70792e656c66 231 +\n", "refuted file 1\n"),
    (3, 1, "file 636f70792e656c66 232 *\n", "refuted file 1\n"),
    (3, 1, "file 636f70792e656c67 232 +\n", "refuted file 1\n"),
    (
        3,
        1,
        "file 2e2f636f70792e656c66 232 +\n",
        "refuted file 1\n",
    ),
    (4, 1, "file 696e 0 *\n", "refuted file 2\n"),
    (4, 1, "file 696f 232 +\n", "refuted file 2\n"),
    (
        3,
        2,
        "file 696e 232 +\nfile 636f70792e656c66 232 +\n",
        "refuted file 1\n",
    ),
    (4, 2, "file 696e 0 *\ncommand 31\n", "refuted file 2\n"),
    (3, 2, "", "refuted file 1\n"),
    (5, 0, "file 61 0 *\n", "refuted file 3\n"),
    // the steps of the commands
    (5, 1, "command 31\n", "refuted run 1\n"),
    (5, 1, "command 33\n", "refuted run 1\n"),
    (5, 1, "command 1\n", "refuted run 1\n"),
    (5, 1, "command 281474976710656\n", "refuted run 1\n"),
    (8, 1, "command 31\n", "refuted run 2\n"),
    (8, 1, "command 33\n", "refuted run 2\n"),
    // their streams, which come before the next command
    (6, 1, "stream 1 1 *\n", "refuted streams 1\n"),
    (6, 1, "stream 1 0 +\n", "refuted streams 1\n"),
    (7, 1, "stream 2 1 *\n", "refuted streams 1\n"),
    (7, 2, "stream 2 0 +\ncommand 31\n", "refuted streams 1\n"),
    (9, 1, "stream 1 0 +\n", "refuted streams 2\n"),
    (10, 1, "stream 2 1 *\n", "refuted streams 2\n"),
    (10, 2, "stream 2 0 +\n", "refuted streams 2\n"),
    // commands too few and too many, each in its turn
    (8, 3, "", "refuted run 2\n"),
    (5, 6, "", "refuted run 1\n"),
    (8, 4, "", "refuted run 2\n"),
    (
        11,
        0,
        "command 32\nstream 1 0 *\nstream 2 0 *\n",
        "refuted run 3\n",
    ),
    (
        11,
        1,
        "command 1\nstream 1 1 *\nstream 2 0 *\n",
        "refuted run 3\n",
    ),
    // the files that are left
    (11, 1, "left 636f70792e656c66 231 +\n", "refuted left 0\n"),
    (12, 1, "left 696e 232 *\n", "refuted left 0\n"),
    (13, 1, "left 6f7575 232 +\n", "refuted left 0\n"),
    (11, 3, "", "refuted left 0\n"),
    (14, 0, "left 7a 0 *\n", "refuted left 0\n"),
    (11, 0, "left 61 0 *\n", "refuted left 0\n"),
    // texts that are no report
    (1, 1, "kaem-report 2\n", "report line 1\n"),
    (1, 1, "ddc-report 1\n", "report line 1\n"),
    (1, 14, "", "report line 1\n"),
    (2, 1, "script +0\n", "report line 2\n"),
    (3, 1, "file 232 +\n", "report line 3\n"),
    (3, 1, "file 636f70792e656c66 0232 +\n", "report line 3\n"),
    (4, 1, "file 696E 232 +\n", "report line 4\n"),
    (5, 1, "command 0\n", "report line 5\n"),
    (5, 1, "command 032\n", "report line 5\n"),
    (5, 1, "command 281474976710657\n", "report line 5\n"),
    (6, 1, "stream 2 0 *\n", "report line 6\n"),
    (8, 0, "file 61 0 *\n", "report line 8\n"),
    (12, 0, "command 32\n", "report line 12\n"),
    (13, 1, "left 696e 232 +\n", "report line 13\n"),
    (14, 1, "end", "report line 14\n"),
    (15, 0, "\n", "report line 15\n"),
];

/// The same over files of its own.
fn script_judged(
    rt: &impl Abort,
    alloc: Global,
    report: &[u8],
    text: &str,
) -> Result<(), OutOfMemory> {
    let mut shelf = shelf_of(alloc, SCRIPT, LIST)?;
    judged(rt, alloc, &mut shelf, report, (status_of(text), text))
}

/// Replays the worked report with so many lines replaced.
fn change_judged(
    rt: &impl Abort,
    alloc: Global,
    (first, count): (u64, u64),
    change: &str,
    text: &str,
) -> Result<(), OutOfMemory> {
    let report = changed(alloc, first, count, change)?;
    script_judged(rt, alloc, report.as_slice(), text)
}

#[test]
fn the_first_part_that_is_not_true_is_named(rt: HostRuntime) -> Result<(), Fail> {
    for &(first, count, change, text) in CHANGES {
        change_judged(&rt, rt.alloc(), (first, count), change, text)?;
    }
    Ok(())
}

/// What is said where a line is left out, and where it stands twice.
static LINES_OUT_AND_TWICE: [(&str, &str); 14] = [
    ("report line 1\n", "report line 2\n"),
    ("report line 2\n", "report line 3\n"),
    ("refuted file 1\n", "refuted file 2\n"),
    ("refuted file 2\n", "refuted file 3\n"),
    ("report line 5\n", "report line 6\n"),
    ("report line 6\n", "report line 7\n"),
    ("report line 7\n", "report line 8\n"),
    ("report line 8\n", "report line 9\n"),
    ("report line 9\n", "report line 10\n"),
    ("report line 10\n", "report line 11\n"),
    ("refuted left 0\n", "report line 12\n"),
    ("refuted left 0\n", "report line 13\n"),
    ("refuted left 0\n", "report line 14\n"),
    ("report line 14\n", "report line 15\n"),
];

/// The worked report with the line of a number twice.
fn doubled(alloc: Global, number: u64) -> Result<Bytes, OutOfMemory> {
    let mut report = Bytes::new(alloc);
    put_lines(&mut report, 1, number)?;
    put_lines(&mut report, number, LINES)?;
    Ok(report)
}

/// Replays it.
fn doubled_judged(
    rt: &impl Abort,
    alloc: Global,
    number: u64,
    text: &str,
) -> Result<(), OutOfMemory> {
    let report = doubled(alloc, number)?;
    script_judged(rt, alloc, report.as_slice(), text)
}

#[test]
fn each_line_counts_once(rt: HostRuntime) -> Result<(), Fail> {
    let mut number = 0u64;
    for (out, twice) in LINES_OUT_AND_TWICE {
        number = number.saturating_add(1);
        change_judged(&rt, rt.alloc(), (number, 1), "", out)?;
        doubled_judged(&rt, rt.alloc(), number, twice)?;
    }
    Ok(())
}

/// Files that are changed after the report, each by its name and content, and what is then said.
type Changed = (&'static str, &'static [u8], Status, &'static str);

static FILES: &[Changed] = &[
    ("l", LIST, Status::Yes, "yes 2\n"),
    (
        "s",
        b"./copy.elf\n\"out\" x\n",
        Status::Refuted,
        "refuted header 0\n",
    ),
    (
        "s",
        b"./copy.elf\n$\n",
        Status::ScriptRefused,
        "script refused 2 11\n",
    ),
    ("l", b"in\ncopy.elf\n", Status::Refuted, "refuted file 1\n"),
    ("l", b"copy.elf\n", Status::Refuted, "refuted file 2\n"),
    ("l", b"", Status::Refuted, "refuted file 1\n"),
    (
        "l",
        b"copy.elf\nin\ntext\n",
        Status::Refuted,
        "refuted file 3\n",
    ),
    ("l", b"copy.elf\n./in\n", Status::Yes, "yes 2\n"),
    (
        "l",
        b"copy.elf\nin",
        Status::ListRefused,
        "list refused 2\n",
    ),
    ("l", b"copy.elf\nin\nr\n", Status::Usage, "usage\n"),
    ("in", b"abc", Status::Refuted, "refuted file 2\n"),
    ("copy.elf", b"abc", Status::Refuted, "refuted file 1\n"),
    ("out", b"abc", Status::Yes, "yes 2\n"),
];

fn file_judged(
    rt: &impl Abort,
    alloc: Global,
    shelf: &mut MemShelf,
    &(name, content, status, text): &Changed,
) -> Result<(), OutOfMemory> {
    shelf.set(name, content)?;
    let report = changed(alloc, 1, 0, "")?;
    judged(rt, alloc, shelf, report.as_slice(), (status, text))
}

fn changed_file_judged(rt: &impl Abort, alloc: Global, row: &Changed) -> Result<(), OutOfMemory> {
    let mut shelf = shelf_of(alloc, SCRIPT, LIST)?;
    file_judged(rt, alloc, &mut shelf, row)
}

#[test]
fn a_report_is_of_its_script_and_its_files(rt: HostRuntime) -> Result<(), Fail> {
    for row in FILES {
        changed_file_judged(&rt, rt.alloc(), row)?;
    }
    Ok(())
}
