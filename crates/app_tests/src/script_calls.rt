//! The words and the calls of `kaem` and `kaem-verify`: what is judged in which turn, and what the outside fails at. The expected answers
//! were written down from docs/reference/command-line.md.

use crate::scenes::{Step, saves, says, walk};
use crate::scripts::{LIST, REPORT, SCRIPT, comes_to, shelf_of};
use ddc_app::Status;
use ddc_base::{MemShelf, OutOfMemory};
use std::alloc::Global;
use std::process::Abort;
use std::test::Fail;

/// The answer of the worked script, and of the replay of its report.
const DONE: (Status, &str) = (Status::Yes, "done 2 steps 64\n");

const TRUE: (Status, &str) = (Status::Yes, "yes 2\n");

/// Words over the worked script, with the status and the text.
static WORDS: &[(&[&str], Status, &str)] = &[
    (&["kaem"], Status::Usage, "usage\n"),
    (&["kaem", "s"], Status::Usage, "usage\n"),
    (&["kaem", "s", "l"], Status::Usage, "usage\n"),
    (&["kaem", "s", "l", "r"], Status::Usage, "usage\n"),
    (&["kaem", "s", "l", "r", "9", "9"], Status::Usage, "usage\n"),
    (&["kaem", "s", "l", "r", "0"], Status::Usage, "usage\n"),
    (&["kaem", "s", "l", "r", "01"], Status::Usage, "usage\n"),
    (
        &["kaem", "s", "l", "r", "281474976710657"],
        Status::Usage,
        "usage\n",
    ),
    (&["kaem", "s", "l", "r", ""], Status::Usage, "usage\n"),
    (&["kaem", "s", "l", "r", "x"], Status::Usage, "usage\n"),
    (&["kaem", "s", "s", "r", "9"], Status::Usage, "usage\n"),
    (&["kaem", "s", "l", "s", "9"], Status::Usage, "usage\n"),
    (&["kaem", "s", "l", "l", "9"], Status::Usage, "usage\n"),
    (&["kaem", "s", "./s", "r", "9"], Status::Usage, "usage\n"),
    (
        &["kaem", "./s", "l", "././s", "9"],
        Status::Usage,
        "usage\n",
    ),
    (&["kaem", "s", "l", "./l", "9"], Status::Usage, "usage\n"),
    (&["kaem", "", "l", "r", "9"], Status::Usage, "usage\n"),
    (&["kaem", "s", "", "r", "9"], Status::Usage, "usage\n"),
    (&["kaem", "s", "l", "", "9"], Status::Usage, "usage\n"),
    (&["kaem", "s\0", "l", "r", "9"], Status::Usage, "usage\n"),
    (&["Kaem", "s", "l", "r", "9"], Status::Usage, "usage\n"),
    (&["kaem-verify"], Status::Usage, "usage\n"),
    (&["kaem-verify", "s", "l"], Status::Usage, "usage\n"),
    (
        &["kaem-verify", "s", "l", "r", "9"],
        Status::Usage,
        "usage\n",
    ),
    (&["kaem-verify", "s", "s", "r"], Status::Usage, "usage\n"),
    (&["kaem-verify", "s", "l", "./s"], Status::Usage, "usage\n"),
    (&["kaem-verify", "s", "l", "l"], Status::Usage, "usage\n"),
    (&["kaem-verify", "s", "l", ""], Status::Usage, "usage\n"),
    (
        &["kaem", "none", "also", "r", "9"],
        Status::FileRefused,
        "file refused none absent\n",
    ),
    (
        &["kaem", "s", "none", "r", "9"],
        Status::FileRefused,
        "file refused none absent\n",
    ),
    (
        &["kaem", "./", "l", "r", "9"],
        Status::FileRefused,
        "file refused ./ absent\n",
    ),
    (
        &["kaem-verify", "none", "also", "r"],
        Status::FileRefused,
        "file refused none absent\n",
    ),
    (
        &["kaem-verify", "s", "none", "r"],
        Status::FileRefused,
        "file refused none absent\n",
    ),
    (
        &["kaem-verify", "s", "l", "r"],
        Status::FileRefused,
        "file refused r absent\n",
    ),
    (
        &["kaem-verify", "s", "l", "text"],
        Status::ReportRefused,
        "report line 1\n",
    ),
    (&["kaem", "s", "l", "in", "32"], Status::Usage, "usage\n"),
    (
        &["kaem", "s", "l", "./copy.elf", "32"],
        Status::Usage,
        "usage\n",
    ),
];

fn judges_words(rt: &impl Abort, alloc: Global, shelf: &mut MemShelf) -> Result<(), OutOfMemory> {
    for &(words, status, text) in WORDS {
        says(rt, alloc, shelf, words, (status, text))?;
    }
    assert_eq!(rt; saves(shelf), 0);
    Ok(())
}

#[test]
fn the_words_of_both_commands_are_judged(rt: HostRuntime) -> Result<(), Fail> {
    let mut shelf = shelf_of(rt.alloc(), SCRIPT, LIST)?;
    judges_words(&rt, rt.alloc(), &mut shelf)?;
    Ok(())
}

/// Words, a script and a list, of which two things are wrong: what is said is of the first in order.
type Order = (
    &'static [&'static str],
    &'static [u8],
    &'static [u8],
    Status,
    &'static str,
);

static ORDERS: &[Order] = &[
    // the words, and then the script
    (
        &["kaem", "s", "s", "r", "9"],
        b"\"",
        b"",
        Status::Usage,
        "usage\n",
    ),
    (
        &["kaem", "s", "none", "r", "9"],
        b"\"",
        b"",
        Status::ScriptRefused,
        "script refused 1 0\n",
    ),
    (
        &["kaem-verify", "s", "none", "also"],
        b"\"",
        b"",
        Status::ScriptRefused,
        "script refused 1 0\n",
    ),
    // the list, and then its words beside the report
    (
        &["kaem", "s", "l", "r", "9"],
        b"",
        b"r\n\n",
        Status::ListRefused,
        "list refused 2\n",
    ),
    (
        &["kaem-verify", "s", "l", "r"],
        b"",
        b"r\nr\n",
        Status::ListRefused,
        "list refused 2\n",
    ),
    (
        &["kaem", "s", "l", "r", "9"],
        b"",
        b"none\nr\n",
        Status::Usage,
        "usage\n",
    ),
    (
        &["kaem-verify", "s", "l", "r"],
        b"",
        b"none\nr\n",
        Status::Usage,
        "usage\n",
    ),
    (
        &["kaem", "s", "l", "./r", "9"],
        b"",
        b"r\n",
        Status::Usage,
        "usage\n",
    ),
    (
        &["kaem-verify", "s", "l", "././text"],
        b"",
        b"none\ntext\n",
        Status::Usage,
        "usage\n",
    ),
    // the report, and then the files
    (
        &["kaem-verify", "s", "l", "r"],
        b"",
        b"none\n",
        Status::FileRefused,
        "file refused r absent\n",
    ),
    (
        &["kaem-verify", "s", "l", "text"],
        b"",
        b"none\n",
        Status::ReportRefused,
        "report line 1\n",
    ),
    // the files in order, and then the commands
    (
        &["kaem", "s", "l", "r", "9"],
        b"nothing",
        b"none\nalso\n",
        Status::FileRefused,
        "file refused none absent\n",
    ),
    (
        &["kaem", "s", "l", "r", "9"],
        b"nothing",
        b"copy.elf\nalso\n",
        Status::FileRefused,
        "file refused also absent\n",
    ),
];

/// Runs words that save nothing.
fn saves_nothing(
    rt: &impl Abort,
    alloc: Global,
    shelf: &mut MemShelf,
    words: &[&str],
    ending: (Status, &str),
) -> Result<(), OutOfMemory> {
    says(rt, alloc, shelf, words, ending)?;
    assert_eq!(rt; saves(shelf), 0);
    Ok(())
}

fn judged_in_turn(
    rt: &impl Abort,
    alloc: Global,
    &(words, script, list, status, text): &Order,
) -> Result<(), OutOfMemory> {
    let mut shelf = shelf_of(alloc, script, list)?;
    saves_nothing(rt, alloc, &mut shelf, words, (status, text))
}

#[test]
fn each_thing_is_judged_in_its_turn(rt: HostRuntime) -> Result<(), Fail> {
    for order in ORDERS {
        judged_in_turn(&rt, rt.alloc(), order)?;
    }
    Ok(())
}

/// Takes steps over the worked script.
fn over_script(rt: &impl Abort, alloc: Global, steps: &[Step]) -> Result<(), OutOfMemory> {
    let mut shelf = shelf_of(alloc, SCRIPT, LIST)?;
    walk(rt, alloc, &mut shelf, steps)
}

/// `kaem` over the worked script, and `kaem-verify` over its report.
const KAEM: &[&str] = &["kaem", "s", "l", "r", "32"];

const VERIFY: &[&str] = &["kaem-verify", "s", "l", "r"];

/// The calls of `kaem` and then of `kaem-verify`.
static CALLS: [Step; 3] = [
    Step::Run(KAEM, Status::Yes, "done 2 steps 64\n"),
    Step::Run(VERIFY, Status::Yes, "yes 2\n"),
    Step::Called(&[
        ("s", Some(1_048_576)),
        ("l", Some(1_048_576)),
        ("copy.elf", Some(268_435_456)),
        ("in", Some(268_435_456)),
        ("r", None),
        ("s", Some(1_048_576)),
        ("l", Some(1_048_576)),
        ("r", Some(1_073_741_824)),
        ("copy.elf", Some(268_435_456)),
        ("in", Some(268_435_456)),
    ]),
];

#[test]
fn calls_come_in_order(rt: HostRuntime) -> Result<(), Fail> {
    over_script(&rt, rt.alloc(), &CALLS)?;
    Ok(())
}

/// Each load of `kaem` fails.
static LOADS: [(u64, &str); 4] = [
    (1, "shelf fault s\n"),
    (2, "shelf fault l\n"),
    (3, "shelf fault copy.elf\n"),
    (4, "shelf fault in\n"),
];

/// The load of this number fails once.
fn load_passes(
    rt: &impl Abort,
    alloc: Global,
    shelf: &mut MemShelf,
    load: u64,
    text: &str,
) -> Result<(), OutOfMemory> {
    shelf.fail_load(load)?;
    comes_to(rt, alloc, shelf, "32", (Status::ShelfFault, text))?;
    comes_to(rt, alloc, shelf, "32", DONE)
}

fn failed_load_passes(
    rt: &impl Abort,
    alloc: Global,
    load: u64,
    text: &str,
) -> Result<(), OutOfMemory> {
    let mut shelf = shelf_of(alloc, SCRIPT, LIST)?;
    load_passes(rt, alloc, &mut shelf, load, text)
}

#[test]
fn loads_that_fail_are_named(rt: HostRuntime) -> Result<(), Fail> {
    for (load, text) in LOADS {
        failed_load_passes(&rt, rt.alloc(), load, text)?;
    }
    Ok(())
}

/// After the four loads of `kaem` each load of `kaem-verify` fails.
static VERIFY_LOADS: [(u64, &str); 5] = [
    (5, "shelf fault s\n"),
    (6, "shelf fault l\n"),
    (7, "shelf fault r\n"),
    (8, "shelf fault copy.elf\n"),
    (9, "shelf fault in\n"),
];

/// The load of this number fails once, in the replay.
fn replay_passes(
    rt: &impl Abort,
    alloc: Global,
    shelf: &mut MemShelf,
    load: u64,
    text: &str,
) -> Result<(), OutOfMemory> {
    comes_to(rt, alloc, shelf, "32", DONE)?;
    shelf.fail_load(load)?;
    says(rt, alloc, shelf, VERIFY, (Status::ShelfFault, text))?;
    says(rt, alloc, shelf, VERIFY, TRUE)
}

fn failed_replay_passes(
    rt: &impl Abort,
    alloc: Global,
    load: u64,
    text: &str,
) -> Result<(), OutOfMemory> {
    let mut shelf = shelf_of(alloc, SCRIPT, LIST)?;
    replay_passes(rt, alloc, &mut shelf, load, text)
}

#[test]
fn loads_of_a_replay_that_fail_are_named(rt: HostRuntime) -> Result<(), Fail> {
    for (load, text) in VERIFY_LOADS {
        failed_replay_passes(&rt, rt.alloc(), load, text)?;
    }
    Ok(())
}

static FAILED_SAVE: [Step; 4] = [
    Step::FailSave(1),
    Step::Run(KAEM, Status::ShelfFault, "shelf fault r\n"),
    Step::Run(KAEM, Status::Yes, "done 2 steps 64\n"),
    Step::Holds("r", REPORT),
];

#[test]
fn a_save_that_fails_is_named(rt: HostRuntime) -> Result<(), Fail> {
    over_script(&rt, rt.alloc(), &FAILED_SAVE)?;
    Ok(())
}

static UNHEARD: [Step; 4] = [
    Step::Unheard(KAEM),
    Step::Holds("r", REPORT),
    Step::Unheard(VERIFY),
    Step::Holds("r", REPORT),
];

/// A put that fails comes after the save.
#[test]
fn a_put_that_fails_leaves_the_report(rt: HostRuntime) -> Result<(), Fail> {
    over_script(&rt, rt.alloc(), &UNHEARD)?;
    Ok(())
}
