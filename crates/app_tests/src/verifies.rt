//! Replays of one report, of the report with one change, and on changed files. The expected answers were written down from
//! docs/reference/verify.md and docs/reference/report.md.

use crate::audits::{REPORT, audit_shelf};
use crate::scenes::{Step, content, ends, over_worked, says, unheard};
use crate::worked::{EXIT, with};
use ddc_app::Status;
use ddc_base::{Bytes, MemShelf, OutOfMemory};
use std::alloc::Global;
use std::process::Abort;
use std::test::Fail;

/// Runs `verify a.toml r`, and compares its status and text.
fn verifies(
    rt: &impl Abort,
    alloc: Global,
    shelf: &mut MemShelf,
    ending: (Status, &str),
) -> Result<(), OutOfMemory> {
    says(rt, alloc, shelf, &["verify", "a.toml", "r"], ending)
}

/// The status of a text that is no yes.
fn status_of(text: &str) -> Status {
    if text.starts_with("report") {
        Status::ReportRefused
    } else {
        Status::Refuted
    }
}

/// Adds a line with one piece replaced.
fn put_changed(
    alloc: Global,
    text: &mut Bytes,
    line: &str,
    old: &str,
    new: &str,
) -> Result<(), OutOfMemory> {
    text.extend(with(alloc, line, old, new)?.as_bytes())
}

/// The report with one piece of the line of a number, from 1, replaced.
fn altered(alloc: Global, number: usize, old: &str, new: &str) -> Result<Bytes, OutOfMemory> {
    let mut text = Bytes::new(alloc);
    for (index, line) in REPORT.lines().enumerate() {
        if index + 1 == number {
            put_changed(alloc, &mut text, line, old, new)?;
        } else {
            text.extend(line.as_bytes())?;
        }
        text.push(b'\n')?;
    }
    Ok(text)
}

/// A line's number, what is changed in it, into what, and what is printed.
type Row = (usize, &'static str, &'static str, &'static str);

static FIELDS: [Row; 71] = [
    // the recipe's digest
    (2, "10b5", "10b4", "refuted header 0\n"),
    // the name, the length and the digest of each input
    (3, "prog", "prig", "refuted header 0\n"),
    (3, "232", "233", "refuted input 1\n"),
    (3, "da8d", "da8e", "refuted input 1\n"),
    (4, "text", "test", "refuted header 0\n"),
    (4, "465", "464", "refuted input 2\n"),
    (4, "26db", "26da", "refuted input 2\n"),
    (5, "src", "sec", "refuted header 0\n"),
    (5, " 3 ", " 4 ", "refuted input 3\n"),
    (5, "ba78", "ba79", "refuted input 3\n"),
    (6, "bin", "ban", "refuted header 0\n"),
    (6, " 3 ", " 2 ", "refuted input 4\n"),
    (6, "ba78", "ba77", "refuted input 4\n"),
    (6, "ba78", "ca78", "refuted input 4\n"),
    // the name and the step of stage one
    (7, "one", "two", "refuted header 0\n"),
    (7, "32", "31", "refuted run 1\n"),
    (7, "32", "33", "refuted run 1\n"),
    (7, "32", "0", "refuted run 1\n"),
    (7, "32", "3", "refuted run 1\n"),
    (7, "32", "100000", "refuted run 1\n"),
    (7, "32", "100001", "refuted run 1\n"),
    (7, "32", "18446744073709551615", "refuted run 1\n"),
    (7, "32", "032", "report line 7\n"),
    // its streams
    (8, " 0 ", " 1 ", "refuted files 1\n"),
    (8, "e3b0", "e3b1", "refuted files 1\n"),
    (9, " 0 ", " 1 ", "refuted files 1\n"),
    (9, "e3b0", "e3b1", "refuted files 1\n"),
    // its files: the name, the length, the digest, and a file more; the artefact's digest under another name
    (10, "696e", "696d", "refuted files 1\n"),
    (10, "232", "231", "refuted files 1\n"),
    (10, "da8d", "ea8d", "refuted files 1\n"),
    (
        10,
        "left",
        "left 61 0 e3b0c44298fc1c149afbf4c8996fb92427ae41e4649b934ca495991b7852b855\nleft",
        "refuted files 1\n",
    ),
    (11, "6f7574", "6f7575", "refuted files 1\n"),
    (11, "6f7574", "6f75", "refuted files 1\n"),
    (11, "232", "23", "refuted files 1\n"),
    (11, "da8d", "da8c", "refuted files 1\n"),
    (
        11,
        "left",
        "left 6f 0 e3b0c44298fc1c149afbf4c8996fb92427ae41e4649b934ca495991b7852b855\nleft",
        "refuted files 1\n",
    ),
    (
        12,
        "made",
        "left 70 0 e3b0c44298fc1c149afbf4c8996fb92427ae41e4649b934ca495991b7852b855\nmade",
        "refuted files 1\n",
    ),
    // its artefact
    (12, "232", "2322", "refuted files 1\n"),
    (12, "da8d", "da8e", "refuted files 1\n"),
    // the language of its check
    (13, "hex0", "hex1", "refuted header 0\n"),
    (13, "hex0", "hex2", "refuted header 0\n"),
    (13, "hex0", "m1", "refuted header 0\n"),
    (13, "checked hex0", "unchecked", "refuted header 0\n"),
    // stage two
    (14, "two", "too", "refuted header 0\n"),
    (14, "32", "31", "refuted run 2\n"),
    (14, "32", "33", "refuted run 2\n"),
    (14, "32", "43", "refuted run 2\n"),
    (15, " 0 ", " 2 ", "refuted files 2\n"),
    (15, "e3b0", "e3b1", "refuted files 2\n"),
    (16, " 0 ", " 2 ", "refuted files 2\n"),
    (16, "e3b0", "e3b1", "refuted files 2\n"),
    (17, "696e", "696f", "refuted files 2\n"),
    (17, " 3 ", " 4 ", "refuted files 2\n"),
    (17, "ba78", "ba79", "refuted files 2\n"),
    (18, "6f7574", "6f7573", "refuted files 2\n"),
    (18, " 3 ", " 2 ", "refuted files 2\n"),
    (18, "ba78", "ba79", "refuted files 2\n"),
    (
        18,
        "left",
        "left 6e 0 e3b0c44298fc1c149afbf4c8996fb92427ae41e4649b934ca495991b7852b855\nleft",
        "refuted files 2\n",
    ),
    (19, " 3 ", " 1 ", "refuted files 2\n"),
    (19, "ba78", "ba79", "refuted files 2\n"),
    (20, "unchecked", "checked hex0", "refuted header 0\n"),
    // the comparison
    (21, "two", "one", "refuted header 0\n"),
    (21, "bin", "src", "refuted header 0\n"),
    (21, "equal 3", "equal 4", "refuted compare 0\n"),
    (21, "equal 3", "equal 2", "refuted compare 0\n"),
    (21, "equal 3", "differs 0 3 3", "refuted compare 0\n"),
    (21, "equal 3", "differs 2 3 3", "refuted compare 0\n"),
    (21, "equal 3", "differs 3 3 4", "refuted compare 0\n"),
    (21, "equal 3", "equal 03", "report line 21\n"),
    (22, "end", "end ", "report line 22\n"),
    (22, "end", "end\n", "report line 23\n"),
];

/// Replays the report with one change.
fn names_field(
    rt: &impl Abort,
    alloc: Global,
    shelf: &mut MemShelf,
    &(number, old, new, text): &Row,
) -> Result<(), OutOfMemory> {
    shelf.set("r", altered(alloc, number, old, new)?.as_slice())?;
    verifies(rt, alloc, shelf, (status_of(text), text))
}

#[test]
fn altered_fields_are_named(rt: HostRuntime) -> Result<(), Fail> {
    let mut shelf = audit_shelf(rt.alloc(), "", "")?;
    for row in &FIELDS {
        names_field(&rt, rt.alloc(), &mut shelf, row)?;
    }
    Ok(())
}

/// What is done to a line.
#[derive(Clone, Copy)]
enum Edit {
    LeftOut,
    Doubled,
    Swapped,
}

/// Appends the line of a number, from 1.
fn put(text: &mut Bytes, number: usize) -> Result<(), OutOfMemory> {
    let line = REPORT.lines().nth(number.saturating_sub(1)).unwrap_or("");
    text.extend(line.as_bytes())?;
    text.push(b'\n')
}

/// The report with the line of a number, from 1, left out, doubled, or swapped with the next one.
fn edited(alloc: Global, edit: Edit, number: usize) -> Result<Bytes, OutOfMemory> {
    let mut text = Bytes::new(alloc);
    for at in 1..23 {
        match edit {
            Edit::LeftOut if at == number => {}
            Edit::Doubled if at == number => {
                put(&mut text, at)?;
                put(&mut text, at)?;
            }
            Edit::Swapped if at == number => put(&mut text, at + 1)?,
            Edit::Swapped if at.saturating_sub(1) == number => put(&mut text, number)?,
            _ => put(&mut text, at)?,
        }
    }
    Ok(text)
}

/// What is printed where the line of each number is left out.
static LEFT_OUT: [&str; 22] = [
    "report line 1\n",
    "report line 2\n",
    "refuted header 0\n",
    "refuted header 0\n",
    "refuted header 0\n",
    "refuted header 0\n",
    "report line 7\n",
    "report line 8\n",
    "report line 9\n",
    "refuted files 1\n",
    "refuted files 1\n",
    "report line 12\n",
    "report line 13\n",
    "report line 14\n",
    "report line 15\n",
    "report line 16\n",
    "refuted files 2\n",
    "refuted files 2\n",
    "report line 19\n",
    "report line 20\n",
    "report line 21\n",
    "report line 22\n",
];

/// What is printed where it is doubled.
static DOUBLED: [&str; 22] = [
    "report line 2\n",
    "report line 3\n",
    "refuted header 0\n",
    "refuted header 0\n",
    "refuted header 0\n",
    "refuted header 0\n",
    "report line 8\n",
    "report line 9\n",
    "report line 10\n",
    "report line 11\n",
    "report line 12\n",
    "report line 13\n",
    "report line 14\n",
    "report line 15\n",
    "report line 16\n",
    "report line 17\n",
    "report line 18\n",
    "report line 19\n",
    "report line 20\n",
    "report line 21\n",
    "report line 22\n",
    "report line 23\n",
];

/// What is printed where it is swapped with the next one.
static SWAPPED: [&str; 21] = [
    "report line 1\n",
    "report line 2\n",
    "refuted header 0\n",
    "refuted header 0\n",
    "refuted header 0\n",
    "report line 7\n",
    "report line 7\n",
    "report line 8\n",
    "report line 9\n",
    "report line 11\n",
    "report line 12\n",
    "report line 12\n",
    "report line 13\n",
    "report line 14\n",
    "report line 15\n",
    "report line 16\n",
    "report line 18\n",
    "report line 19\n",
    "report line 19\n",
    "report line 20\n",
    "report line 21\n",
];

/// Tries an edit of the line of a number.
fn tries_line(
    rt: &impl Abort,
    alloc: Global,
    shelf: &mut MemShelf,
    (edit, number): (Edit, usize),
    text: &str,
) -> Result<(), OutOfMemory> {
    shelf.set("r", edited(alloc, edit, number)?.as_slice())?;
    verifies(rt, alloc, shelf, (status_of(text), text))
}

/// Tries one edit of each line of the report.
fn tries(rt: &impl Abort, alloc: Global, edit: Edit, texts: &[&str]) -> Result<(), OutOfMemory> {
    let mut shelf = audit_shelf(alloc, "", "")?;
    for (index, text) in texts.iter().enumerate() {
        tries_line(rt, alloc, &mut shelf, (edit, index + 1), text)?;
    }
    Ok(())
}

#[test]
fn lines_are_left_out_doubled_and_swapped(rt: HostRuntime) -> Result<(), Fail> {
    let alloc = rt.alloc();
    tries(&rt, alloc, Edit::LeftOut, &LEFT_OUT)?;
    tries(&rt, alloc, Edit::Doubled, &DOUBLED)?;
    tries(&rt, alloc, Edit::Swapped, &SWAPPED)?;
    Ok(())
}

/// The lines of a report whose stages have each other's records, and of one whose stages stand the other way round.
static OTHER_ORDERS: [([usize; 22], &str); 2] = [
    (
        [
            1, 2, 3, 4, 5, 6, 7, 15, 16, 17, 18, 19, 13, 14, 8, 9, 10, 11, 12, 20, 21, 22,
        ],
        "refuted files 1\n",
    ),
    (
        [
            1, 2, 3, 4, 5, 6, 14, 15, 16, 17, 18, 19, 20, 7, 8, 9, 10, 11, 12, 13, 21, 22,
        ],
        "refuted header 0\n",
    ),
];

/// The lines of these numbers.
fn ordered(alloc: Global, numbers: &[usize]) -> Result<Bytes, OutOfMemory> {
    let mut report = Bytes::new(alloc);
    for number in numbers {
        put(&mut report, *number)?;
    }
    Ok(report)
}

/// Replays a report of these lines.
fn tries_order(
    rt: &impl Abort,
    alloc: Global,
    shelf: &mut MemShelf,
    numbers: &[usize],
    text: &str,
) -> Result<(), OutOfMemory> {
    shelf.set("r", ordered(alloc, numbers)?.as_slice())?;
    verifies(rt, alloc, shelf, (Status::Refuted, text))
}

#[test]
fn records_are_those_of_their_stages(rt: HostRuntime) -> Result<(), Fail> {
    let mut shelf = audit_shelf(rt.alloc(), "", "")?;
    for (numbers, text) in &OTHER_ORDERS {
        tries_order(&rt, rt.alloc(), &mut shelf, numbers, text)?;
    }
    Ok(())
}

/// A binary, the status and the text.
static BINARIES: [(&[u8], Status, &str); 3] = [
    (b"abc", Status::Yes, "yes\nequal two bin 3\n"),
    (b"abd", Status::Differs, "differs two bin 2 3 3\n"),
    (b"", Status::Differs, "differs two bin 0 3 0\n"),
];

/// Makes the audit with a binary, and replays its report.
fn is_true(
    rt: &impl Abort,
    alloc: Global,
    shelf: &mut MemShelf,
    binary: &[u8],
    ending: (Status, &str),
) -> Result<(), OutOfMemory> {
    shelf.set("b.bin", binary)?;
    assert_eq!(rt; ends(alloc, shelf, &["audit", "a.toml", "r"])?, ending.0);
    verifies(rt, alloc, shelf, ending)
}

fn is_true_of(
    rt: &impl Abort,
    alloc: Global,
    binary: &[u8],
    ending: (Status, &str),
) -> Result<(), OutOfMemory> {
    let mut shelf = audit_shelf(alloc, "", "")?;
    is_true(rt, alloc, &mut shelf, binary, ending)
}

#[test]
fn true_reports_are_verified(rt: HostRuntime) -> Result<(), Fail> {
    for &(binary, status, text) in &BINARIES {
        is_true_of(&rt, rt.alloc(), binary, (status, text))?;
    }
    Ok(())
}

/// A report that says how the artefact and the binary `abd` differ, in one line.
static COMPARISONS: [(&str, Status, &str); 7] = [
    ("differs 2 3 3", Status::Differs, "differs two bin 2 3 3\n"),
    ("differs 1 3 3", Status::Refuted, "refuted compare 0\n"),
    ("differs 2 4 3", Status::Refuted, "refuted compare 0\n"),
    ("differs 2 3 4", Status::Refuted, "refuted compare 0\n"),
    ("differs 3 3 4", Status::Refuted, "refuted compare 0\n"),
    ("equal 3", Status::Refuted, "refuted compare 0\n"),
    ("equal 2", Status::Refuted, "refuted compare 0\n"),
];

/// The report with the line of that binary.
fn report_of_abd(alloc: Global) -> Result<String, OutOfMemory> {
    let old = "input bin 3 ba7816bf8f01cfea414140de5dae2223b00361a396177a9cb410ff61f20015ad";
    let new = "input bin 3 a52d159f262b2c6ddb724a61840befc36eb30c88877a4030b65cbe86298449c9";
    with(alloc, REPORT, old, new)
}

/// Replays that report with a comparison.
fn compares(
    rt: &impl Abort,
    alloc: Global,
    shelf: &mut MemShelf,
    compare: &str,
    ending: (Status, &str),
) -> Result<(), OutOfMemory> {
    let report = report_of_abd(alloc)?;
    let altered = with(alloc, report.as_str(), "equal 3", compare)?;
    shelf.set("r", altered.as_bytes())?;
    verifies(rt, alloc, shelf, ending)
}

/// Replays that report with each comparison.
fn compares_all(rt: &impl Abort, alloc: Global, shelf: &mut MemShelf) -> Result<(), OutOfMemory> {
    shelf.set("b.bin", b"abd")?;
    for &(compare, status, text) in &COMPARISONS {
        compares(rt, alloc, shelf, compare, (status, text))?;
    }
    Ok(())
}

#[test]
fn comparisons_are_judged(rt: HostRuntime) -> Result<(), Fail> {
    let mut shelf = audit_shelf(rt.alloc(), "", "")?;
    compares_all(&rt, rt.alloc(), &mut shelf)?;
    Ok(())
}

/// A file that is another after the audit, and what is printed then.
static CHANGED: [(&str, &str); 5] = [
    ("a.toml", "refuted header 0\n"),
    ("copy.elf", "refuted input 1\n"),
    ("copy.hex0", "refuted input 2\n"),
    ("a.bin", "refuted input 3\n"),
    ("b.bin", "refuted input 4\n"),
];

/// Adds a byte to a file.
fn lengthen(alloc: Global, shelf: &mut MemShelf, name: &str) -> Result<(), OutOfMemory> {
    let mut longer = content(alloc, shelf, name)?;
    longer.push(b'\n')?;
    shelf.set(name, longer.as_slice())
}

/// Replays the report over a changed file.
fn names_file(
    rt: &impl Abort,
    alloc: Global,
    shelf: &mut MemShelf,
    name: &str,
    text: &str,
) -> Result<(), OutOfMemory> {
    shelf.set("r", REPORT.as_bytes())?;
    lengthen(alloc, shelf, name)?;
    verifies(rt, alloc, shelf, (Status::Refuted, text))
}

fn names_changed(
    rt: &impl Abort,
    alloc: Global,
    name: &str,
    text: &str,
) -> Result<(), OutOfMemory> {
    let mut shelf = audit_shelf(alloc, "", "")?;
    names_file(rt, alloc, &mut shelf, name, text)
}

#[test]
fn changed_files_are_named(rt: HostRuntime) -> Result<(), Fail> {
    for (name, text) in CHANGED {
        names_changed(&rt, rt.alloc(), name, text)?;
    }
    Ok(())
}

/// Stage one's program exits at step 3 and leaves no `out`: with 0, or with 7. The line of its file, its recorded step, and what is printed.
type Exit = (u8, &'static str, &'static str, &'static str);

static EARLIER_EXITS: [Exit; 5] = [
    (
        0,
        "input prog 132 3b61506bee017bee5e3842a9fac88b3257a2da89ab42a6dd6db5fd86ca0fa559",
        "32",
        "refuted run 1\n",
    ),
    (
        0,
        "input prog 132 3b61506bee017bee5e3842a9fac88b3257a2da89ab42a6dd6db5fd86ca0fa559",
        "4",
        "refuted run 1\n",
    ),
    (
        0,
        "input prog 132 3b61506bee017bee5e3842a9fac88b3257a2da89ab42a6dd6db5fd86ca0fa559",
        "2",
        "refuted run 1\n",
    ),
    (
        0,
        "input prog 132 3b61506bee017bee5e3842a9fac88b3257a2da89ab42a6dd6db5fd86ca0fa559",
        "3",
        "refuted files 1\n",
    ),
    (
        7,
        "input prog 132 98a8abe9f122b4e01c038c02ce441ce5b0b2dea583df0dcc57656347b151cef7",
        "3",
        "refuted run 1\n",
    ),
];

/// Sets a program that exits with this status.
fn set_program(shelf: &mut MemShelf, status: u8) -> Result<(), OutOfMemory> {
    let mut program = EXIT;
    // the immediate of `addi x10, x0, STATUS`, from its bit 20 on
    program[122] = status << 4;
    shelf.set("copy.elf", &program)
}

/// The report with this line of the program's file, and this step.
fn report_of_exit(alloc: Global, line: &str, step: &str) -> Result<String, OutOfMemory> {
    let old = "input prog 232 da8dcb705eb55cbf9f4852135f93a902f4584b973901f37abb829fd299d0b026";
    let report = with(alloc, REPORT, old, line)?;
    let stage = format!(in alloc; "stage one {step}\n")?;
    with(alloc, report.as_str(), "stage one 32\n", stage.as_str())
}

/// Replays that report over that program.
fn judges_exit(
    rt: &impl Abort,
    alloc: Global,
    shelf: &mut MemShelf,
    &(status, line, step, text): &Exit,
) -> Result<(), OutOfMemory> {
    set_program(shelf, status)?;
    shelf.set("r", report_of_exit(alloc, line, step)?.as_bytes())?;
    verifies(rt, alloc, shelf, (Status::Refuted, text))
}

#[test]
fn exits_are_judged(rt: HostRuntime) -> Result<(), Fail> {
    let mut shelf = audit_shelf(rt.alloc(), "", "")?;
    for exit in &EARLIER_EXITS {
        judges_exit(&rt, rt.alloc(), &mut shelf, exit)?;
    }
    Ok(())
}

/// The report with other ends of its lines.
fn ended_otherwise(alloc: Global) -> Result<Bytes, OutOfMemory> {
    let mut ended = Bytes::new(alloc);
    for line in REPORT.lines() {
        ended.extend(line.as_bytes())?;
        ended.extend(b"\r\n")?;
    }
    Ok(ended)
}

/// Replays two texts that begin no report.
fn refuses(rt: &impl Abort, alloc: Global, shelf: &mut MemShelf) -> Result<(), OutOfMemory> {
    let refused = (Status::ReportRefused, "report line 1\n");
    shelf.set("r", ended_otherwise(alloc)?.as_slice())?;
    verifies(rt, alloc, shelf, refused)?;
    shelf.set("r", b"")?;
    verifies(rt, alloc, shelf, refused)
}

#[test]
fn texts_that_are_no_report(rt: HostRuntime) -> Result<(), Fail> {
    let mut shelf = audit_shelf(rt.alloc(), "", "")?;
    refuses(&rt, rt.alloc(), &mut shelf)?;
    Ok(())
}

static FAULTS: [(u64, &str); 6] = [
    (1, "shelf fault a.toml\n"),
    (2, "shelf fault r\n"),
    (3, "shelf fault copy.elf\n"),
    (4, "shelf fault copy.hex0\n"),
    (5, "shelf fault a.bin\n"),
    (6, "shelf fault b.bin\n"),
];

fn passes(
    rt: &impl Abort,
    alloc: Global,
    shelf: &mut MemShelf,
    load: u64,
    text: &str,
) -> Result<(), OutOfMemory> {
    shelf.set("r", REPORT.as_bytes())?;
    shelf.fail_load(load)?;
    verifies(rt, alloc, shelf, (Status::ShelfFault, text))?;
    verifies(rt, alloc, shelf, (Status::Yes, "yes\nequal two bin 3\n"))?;
    unheard(rt, alloc, shelf, &["verify", "a.toml", "r"])
}

/// The same over files of its own.
fn fault_passes(rt: &impl Abort, alloc: Global, load: u64, text: &str) -> Result<(), OutOfMemory> {
    let mut shelf = audit_shelf(alloc, "", "")?;
    passes(rt, alloc, &mut shelf, load, text)
}

/// The recipe is load 1, the report load 2, and the inputs are loads 3 to 6.
#[test]
fn faults_are_reported_and_pass(rt: HostRuntime) -> Result<(), Fail> {
    for (load, text) in FAULTS {
        fault_passes(&rt, rt.alloc(), load, text)?;
    }
    Ok(())
}

static LOADS: [Step; 3] = [
    Step::Set("r", REPORT),
    Step::Run(
        &["verify", "a.toml", "r"],
        Status::Yes,
        "yes\nequal two bin 3\n",
    ),
    Step::Called(&[
        ("a.toml", Some(1_048_576)),
        ("r", Some(1_073_741_824)),
        ("copy.elf", Some(268_435_456)),
        ("copy.hex0", Some(268_435_456)),
        ("a.bin", Some(268_435_456)),
        ("b.bin", Some(268_435_456)),
    ]),
];

#[test]
fn loads_come_in_order(rt: HostRuntime) -> Result<(), Fail> {
    over_worked(&rt, rt.alloc(), &LOADS)?;
    Ok(())
}

static WORDS: [Step; 3] = [
    Step::Usage(&[
        &["verify"],
        &["verify", "a.toml"],
        &["verify", "a.toml", "r", "r"],
        &["verify", "a.toml", "a.toml"],
        &["verify", "a.toml", ""],
        &["verify", "a.toml", "b.bin"],
        &["verify", "a.toml", "./a.toml"],
        &["verify", "a.toml", "././b.bin"],
    ]),
    Step::Run(
        &["verify", "a.toml", "r"],
        Status::FileRefused,
        "file refused r absent\n",
    ),
    Step::Run(
        &["verify", "a.bin", "r"],
        Status::RecipeRefused,
        "recipe refused 1\n",
    ),
];

#[test]
fn the_words_of_verify_are_judged(rt: HostRuntime) -> Result<(), Fail> {
    over_worked(&rt, rt.alloc(), &WORDS)?;
    Ok(())
}
