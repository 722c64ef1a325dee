//! What a command of a script left, by `kaem-left` over listed files. What is printed was written down from docs/reference/command-line.md, and what
//! stands after so many steps from the listing of copy.elf.

use crate::left_files::FAILS;
use crate::scenes::{Step, saves, says, walk};
use crate::scripts::{LIST, SCRIPT, shelf_of};
use crate::worked::program_of;
use ddc_app::Status;
use ddc_base::{Call, MemShelf, OutOfMemory};
use std::alloc::Global;
use std::process::Abort;
use std::test::Fail;

/// Programs and texts, all of them listed.
const ALL: &[u8] = b"copy.elf\nin\nexit.elf\ncall.elf\ntrap.elf\nsays.elf\ntext\nfails.elf\n";

/// A script, its words STEPS, COMMAND and FILE, the status and the text, and what is saved then.
type Row = (
    &'static [u8],
    (&'static str, &'static str, &'static str),
    Status,
    &'static str,
    Option<&'static [u8]>,
);

/// The second command fails in its step 9, and says three bytes on its standard error.
const FAILING: &[u8] = b"says.elf\nfails.elf\nsays.elf\n";

static ROWS: [Row; 28] = [
    // the streams are of one command
    (
        b"says.elf\nexit.elf\n",
        ("9", "1", "1"),
        Status::Yes,
        "left 1 1 3 status 0 step 9\n",
        Some(b"ELF"),
    ),
    (
        b"says.elf\nexit.elf\n",
        ("9", "1", "2"),
        Status::Yes,
        "left 1 2 0 status 0 step 9\n",
        Some(b""),
    ),
    (
        b"says.elf\nexit.elf\n",
        ("9", "2", "1"),
        Status::Yes,
        "left 2 1 0 status 0 step 3\n",
        Some(b""),
    ),
    // a name with leading `./` is the same file, and is printed as it was given
    (
        b"says.elf\nexit.elf\n",
        ("9", "2", "././text"),
        Status::Yes,
        "left 2 ././text 3 status 0 step 3\n",
        Some(b"abc"),
    ),
    // a file that has a stream's name, and others that are not there
    (
        b"says.elf\nexit.elf\n",
        ("9", "1", "./1"),
        Status::FileRefused,
        "not left 1 ./1 status 0 step 9\n",
        None,
    ),
    (
        b"says.elf\nexit.elf\n",
        ("9", "1", "3"),
        Status::FileRefused,
        "not left 1 3 status 0 step 9\n",
        None,
    ),
    (
        b"says.elf\nexit.elf\n",
        ("9", "1", "tex"),
        Status::FileRefused,
        "not left 1 tex status 0 step 9\n",
        None,
    ),
    // a file that a command makes is not there before it
    (
        b"exit.elf\n./copy.elf\nexit.elf\n",
        ("32", "1", "out"),
        Status::FileRefused,
        "not left 1 out status 0 step 3\n",
        None,
    ),
    // a program that fails, and what it wrote to its standard error
    (
        FAILING,
        ("9", "2", "2"),
        Status::Yes,
        "left 2 2 3 status 12 step 9\n",
        Some(b"ELF"),
    ),
    (
        FAILING,
        ("9", "2", "1"),
        Status::Yes,
        "left 2 1 0 status 12 step 9\n",
        Some(b""),
    ),
    (
        FAILING,
        ("9", "2", "text"),
        Status::Yes,
        "left 2 text 3 status 12 step 9\n",
        Some(b"abc"),
    ),
    (
        FAILING,
        ("9", "2", "out"),
        Status::FileRefused,
        "not left 2 out status 12 step 9\n",
        None,
    ),
    (
        FAILING,
        ("9", "1", "1"),
        Status::Yes,
        "left 1 1 3 status 0 step 9\n",
        Some(b"ELF"),
    ),
    (
        FAILING,
        ("9", "3", "1"),
        Status::RunFailed,
        "run failed 2 status 12 step 9\n",
        None,
    ),
    // the limit: `out` is made in step 11, and written before step 31
    (
        b"./copy.elf\n",
        ("10", "1", "out"),
        Status::RunFailed,
        "not left 1 out spent step 10\n",
        None,
    ),
    (
        b"./copy.elf\n",
        ("11", "1", "out"),
        Status::RunFailed,
        "left 1 out 0 spent step 11\n",
        Some(b""),
    ),
    (
        b"./copy.elf\n",
        ("31", "1", "2"),
        Status::RunFailed,
        "left 1 2 0 spent step 31\n",
        Some(b""),
    ),
    (
        b"./copy.elf\nexit.elf\n",
        ("31", "2", "out"),
        Status::RunFailed,
        "run failed 1 spent step 31\n",
        None,
    ),
    // a trap, and a call that is not in the table
    (
        b"trap.elf\n",
        ("9", "1", "1"),
        Status::RunFailed,
        "left 1 1 0 trap illegal 00000000 step 1\n",
        Some(b""),
    ),
    (
        b"exit.elf\ntrap.elf\n",
        ("9", "2", "out"),
        Status::RunFailed,
        "not left 2 out trap illegal 00000000 step 1\n",
        None,
    ),
    (
        b"call.elf\n",
        ("9", "1", "2"),
        Status::RunFailed,
        "left 1 2 0 call 999 step 3\n",
        Some(b""),
    ),
    // no start
    (
        b"exit.elf\nnothing a\n",
        ("9", "2", "text"),
        Status::RunFailed,
        "run failed 2 no-program step 0\n",
        None,
    ),
    (
        b"text\n",
        ("9", "1", "1"),
        Status::RunFailed,
        "run failed 1 start elf 1 step 0\n",
        None,
    ),
    // what stands behind the command plays no part
    (
        b"says.elf\nnothing\n",
        ("9", "1", "1"),
        Status::Yes,
        "left 1 1 3 status 0 step 9\n",
        Some(b"ELF"),
    ),
    // no such command, no script
    (
        b"exit.elf\n# more\n",
        ("9", "2", "1"),
        Status::Usage,
        "usage\n",
        None,
    ),
    (b"", ("9", "1", "1"), Status::Usage, "usage\n", None),
    (
        b"exit.elf\n",
        ("9", "4096", "1"),
        Status::Usage,
        "usage\n",
        None,
    ),
    (
        b"exit.elf\n$",
        ("9", "1", "1"),
        Status::ScriptRefused,
        "script refused 2 9\n",
        None,
    ),
];

/// The files of scripts, with one program more.
fn left_shelf(alloc: Global, script: &[u8]) -> Result<MemShelf, OutOfMemory> {
    let mut shelf = shelf_of(alloc, script, ALL)?;
    shelf.set("fails.elf", program_of(alloc, FAILS)?.as_slice())?;
    Ok(shelf)
}

/// Runs a row's command, and compares what is held under OUT after it.
fn leaves(
    rt: &impl Abort,
    alloc: Global,
    shelf: &mut MemShelf,
    &(_, (steps, command, file), status, text, _): &Row,
    held: Option<&[u8]>,
) -> Result<(), OutOfMemory> {
    let words = ["kaem-left", "s", "l", steps, command, file, "o"];
    says(rt, alloc, shelf, &words, (status, text))?;
    assert!(rt; shelf.get("o") == held, "{text}");
    Ok(())
}

fn saves_left(rt: &impl Abort, alloc: Global, row: &Row) -> Result<(), OutOfMemory> {
    let mut shelf = left_shelf(alloc, row.0)?;
    leaves(rt, alloc, &mut shelf, row, row.4)
}

#[test]
fn what_a_command_left_is_saved(rt: HostRuntime) -> Result<(), Fail> {
    for row in &ROWS {
        saves_left(&rt, rt.alloc(), row)?;
    }
    Ok(())
}

fn stays(
    rt: &impl Abort,
    alloc: Global,
    shelf: &mut MemShelf,
    row: &Row,
) -> Result<(), OutOfMemory> {
    shelf.set("o", b"as before")?;
    leaves(rt, alloc, shelf, row, Some(b"as before".as_slice()))
}

fn stays_left(rt: &impl Abort, alloc: Global, row: &Row) -> Result<(), OutOfMemory> {
    let mut shelf = left_shelf(alloc, row.0)?;
    stays(rt, alloc, &mut shelf, row)
}

/// Where nothing is left, what OUT held stays.
#[test]
fn a_refusal_leaves_out_as_it_was(rt: HostRuntime) -> Result<(), Fail> {
    for row in &ROWS {
        if row.4.is_none() {
            stays_left(&rt, rt.alloc(), row)?;
        }
    }
    Ok(())
}

/// `kaem-left` over the worked script, whose first command copies a program, and whose second one runs the copy.
const FIRST: &[&str] = &["kaem-left", "s", "l", "32", "1", "out", "o"];

const SECOND: &[&str] = &["kaem-left", "s", "l", "32", "2", "out", "./o"];

fn saves_copies(rt: &impl Abort, alloc: Global, shelf: &mut MemShelf) -> Result<(), OutOfMemory> {
    let first = (Status::Yes, "left 1 out 232 status 0 step 32\n");
    says(rt, alloc, shelf, FIRST, first)?;
    assert!(rt; shelf.get("o").is_some());
    assert!(rt; shelf.get("o") == shelf.get("copy.elf"));
    let second = (Status::Yes, "left 2 out 232 status 0 step 32\n");
    says(rt, alloc, shelf, SECOND, second)?;
    assert!(rt; shelf.get("./o") == shelf.get("copy.elf"));
    assert!(rt; shelf.get("out").is_none());
    assert_eq!(rt; saves(shelf), 2);
    Ok(())
}

/// The files of the worked script are the program that its commands copied.
#[test]
fn whole_files_are_saved(rt: HostRuntime) -> Result<(), Fail> {
    let mut shelf = shelf_of(rt.alloc(), SCRIPT, LIST)?;
    saves_copies(&rt, rt.alloc(), &mut shelf)?;
    Ok(())
}

static WORDS: [Step; 1] = [Step::Usage(&[
    &["kaem-left"],
    &["kaem-left", "s", "l", "9", "1", "out"],
    &["kaem-left", "s", "l", "9", "1", "out", "o", "o"],
    &["kaem-left", "", "l", "9", "1", "out", "o"],
    &["kaem-left", "s", "", "9", "1", "out", "o"],
    &["kaem-left", "s", "l", "9", "1", "out", ""],
    &["kaem-left", "s", "l", "0", "1", "out", "o"],
    &["kaem-left", "s", "l", "09", "1", "out", "o"],
    &["kaem-left", "s", "l", "281474976710657", "1", "out", "o"],
    // COMMAND is no number from 1 to 4,096
    &["kaem-left", "s", "l", "9", "", "out", "o"],
    &["kaem-left", "s", "l", "9", "0", "out", "o"],
    &["kaem-left", "s", "l", "9", "01", "out", "o"],
    &["kaem-left", "s", "l", "9", "4097", "out", "o"],
    &["kaem-left", "s", "l", "9", "x", "out", "o"],
    // FILE is no guest's name, or its line would be two
    &["kaem-left", "s", "l", "9", "1", "", "o"],
    &["kaem-left", "s", "l", "9", "1", "././", "o"],
    &["kaem-left", "s", "l", "9", "1", "o\0", "o"],
    &["kaem-left", "s", "l", "9", "1", "o\nleft", "o"],
    &["kaem-left", "s", "l", "9", "1", "o\x7f", "o"],
    // two of SCRIPT, LIST and OUT name the same file
    &["kaem-left", "s", "./s", "9", "1", "out", "o"],
    &["kaem-left", "s", "l", "9", "1", "out", "s"],
    &["kaem-left", "s", "l", "9", "1", "out", "././l"],
    &["kaem-lefts", "s", "l", "9", "1", "out", "o"],
])];

/// A command that does not exist: the script is loaded, and nothing more. A listed OUT: the list too.
static TURNS: [Step; 8] = [
    Step::Calls(0),
    Step::Usage(&[&["kaem-left", "s", "none", "9", "3", "out", "o"]]),
    Step::Calls(1),
    Step::Usage(&[&["kaem-left", "s", "l", "9", "2", "out", "./in"]]),
    Step::Calls(3),
    Step::Set("l", "in\nin\n"),
    Step::Run(
        &["kaem-left", "s", "l", "9", "1", "out", "in"],
        Status::ListRefused,
        "list refused 2\n",
    ),
    Step::Saves(0),
];

fn judges_words(rt: &impl Abort, alloc: Global, shelf: &mut MemShelf) -> Result<(), OutOfMemory> {
    walk(rt, alloc, shelf, &WORDS)?;
    walk(rt, alloc, shelf, &TURNS)
}

#[test]
fn the_words_of_kaem_left_are_judged(rt: HostRuntime) -> Result<(), Fail> {
    let mut shelf = shelf_of(rt.alloc(), SCRIPT, LIST)?;
    judges_words(&rt, rt.alloc(), &mut shelf)?;
    Ok(())
}

static FAULTS: [&[Step]; 7] = [
    &[
        Step::FailSave(1),
        Step::Run(FIRST, Status::ShelfFault, "shelf fault o\n"),
    ],
    &[
        Step::FailLoad(1),
        Step::Run(FIRST, Status::ShelfFault, "shelf fault s\n"),
        Step::Absent("o"),
    ],
    &[
        Step::FailLoad(2),
        Step::Run(FIRST, Status::ShelfFault, "shelf fault l\n"),
        Step::Absent("o"),
    ],
    &[
        Step::FailLoad(3),
        Step::Run(FIRST, Status::ShelfFault, "shelf fault copy.elf\n"),
        Step::Absent("o"),
    ],
    &[
        Step::FailLoad(4),
        Step::Run(FIRST, Status::ShelfFault, "shelf fault in\n"),
        Step::Absent("o"),
    ],
    &[
        Step::Run(FIRST, Status::Yes, "left 1 out 232 status 0 step 32\n"),
        Step::Called(&[
            ("s", Some(1_048_576)),
            ("l", Some(1_048_576)),
            ("copy.elf", Some(268_435_456)),
            ("in", Some(268_435_456)),
            ("o", None),
        ]),
    ],
    // a put that fails comes after the save
    &[
        Step::Set("l", "copy.elf\nin\ntext\n"),
        Step::Unheard(&["kaem-left", "s", "l", "32", "1", "text", "o"]),
        Step::Holds("o", "abc"),
    ],
];

/// Takes steps over the worked script, and tells whether the last call is a save.
fn ends_in_a_save(rt: &impl Abort, alloc: Global, steps: &[Step]) -> Result<bool, OutOfMemory> {
    let mut shelf = shelf_of(alloc, SCRIPT, LIST)?;
    walk(rt, alloc, &mut shelf, steps)?;
    Ok(matches!(shelf.calls().last(), Some(Call::Save { .. })))
}

/// The last call is the one save; where it fails, what stood under OUT is open, and the fault is said.
#[test]
fn calls_that_fail_are_named(rt: HostRuntime) -> Result<(), Fail> {
    for (number, steps) in FAULTS.iter().enumerate() {
        let saved = ends_in_a_save(&rt, rt.alloc(), steps)?;
        assert_eq!(&rt; saved, number >= 5);
    }
    Ok(())
}
