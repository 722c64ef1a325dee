//! What a stage's program left, by `left` over the worked recipe, whose two stages take 32 steps each. What is printed was written down from
//! docs/reference/command-line.md, and what stands after so many steps from the listing of copy.elf.

use crate::audits::audit_shelf;
use crate::scenes::{Step, says, walk};
use crate::worked::program_of;
use ddc_app::Status;
use ddc_base::{Call, MemShelf, OutOfMemory};
use std::alloc::Global;
use std::process::Abort;
use std::test::Fail;

/// It writes the three bytes after its first one to stream 2, and exits with 12 in its step 9.
pub(crate) const FAILS: &str =
    "13052000b7050100938515001306300093080004730000001305c0009308d00573000000";

/// What is changed in the recipe, STAGE, FILE, the status and the text, and what is saved then.
type Row = (
    (&'static str, &'static str),
    (&'static str, &'static str),
    Status,
    &'static str,
    Option<&'static [u8]>,
);

const SAME: (&str, &str) = ("", "");

const FAILING: (&str, &str) = ("\"copy.elf\"", "\"fails.elf\"");

static ROWS: [Row; 26] = [
    (
        SAME,
        ("two", "out"),
        Status::Yes,
        "left two out 3 status 0 step 32\n",
        Some(b"abc"),
    ),
    (
        SAME,
        ("two", "in"),
        Status::Yes,
        "left two in 3 status 0 step 32\n",
        Some(b"abc"),
    ),
    // a name with leading `./` is the same file, and is printed as it was given
    (
        SAME,
        ("two", "././out"),
        Status::Yes,
        "left two ././out 3 status 0 step 32\n",
        Some(b"abc"),
    ),
    (
        SAME,
        ("two", "1"),
        Status::Yes,
        "left two 1 0 status 0 step 32\n",
        Some(b""),
    ),
    (
        SAME,
        ("two", "2"),
        Status::Yes,
        "left two 2 0 status 0 step 32\n",
        Some(b""),
    ),
    // a file that has a stream's name, and others that are not there
    (
        SAME,
        ("two", "./1"),
        Status::FileRefused,
        "not left two ./1 status 0 step 32\n",
        None,
    ),
    (
        SAME,
        ("two", "3"),
        Status::FileRefused,
        "not left two 3 status 0 step 32\n",
        None,
    ),
    (
        SAME,
        ("two", "ou"),
        Status::FileRefused,
        "not left two ou status 0 step 32\n",
        None,
    ),
    (
        SAME,
        ("one", "out/"),
        Status::FileRefused,
        "not left one out/ status 0 step 32\n",
        None,
    ),
    // a program that fails, and what it wrote to its standard error
    (
        FAILING,
        ("one", "2"),
        Status::Yes,
        "left one 2 3 status 12 step 9\n",
        Some(b"ELF"),
    ),
    (
        FAILING,
        ("one", "1"),
        Status::Yes,
        "left one 1 0 status 12 step 9\n",
        Some(b""),
    ),
    (
        FAILING,
        ("one", "out"),
        Status::FileRefused,
        "not left one out status 12 step 9\n",
        None,
    ),
    (
        FAILING,
        ("two", "2"),
        Status::RunFailed,
        "run failed one status 12 step 9\n",
        None,
    ),
    // the limit: `out` is made in step 11, and written before step 31
    (
        ("steps = 100000", "steps = 10"),
        ("one", "out"),
        Status::RunFailed,
        "not left one out spent step 10\n",
        None,
    ),
    (
        ("steps = 100000", "steps = 11"),
        ("one", "out"),
        Status::RunFailed,
        "left one out 0 spent step 11\n",
        Some(b""),
    ),
    (
        ("steps = 100000", "steps = 31"),
        ("one", "2"),
        Status::RunFailed,
        "left one 2 0 spent step 31\n",
        Some(b""),
    ),
    (
        ("steps = 100000", "steps = 31"),
        ("two", "out"),
        Status::RunFailed,
        "run failed one spent step 31\n",
        None,
    ),
    // a trap, and a call that is not in the table
    (
        ("\"copy.elf\"", "\"breaks.elf\""),
        ("one", "1"),
        Status::RunFailed,
        "left one 1 0 trap break step 1\n",
        Some(b""),
    ),
    (
        ("\"copy.elf\"", "\"breaks.elf\""),
        ("one", "out"),
        Status::RunFailed,
        "not left one out trap break step 1\n",
        None,
    ),
    (
        ("\"copy.elf\"", "\"calls.elf\""),
        ("one", "2"),
        Status::RunFailed,
        "left one 2 0 call 0 step 1\n",
        Some(b""),
    ),
    // no start
    (
        ("\"copy.elf\"", "\"copy.hex0\""),
        ("one", "out"),
        Status::RunFailed,
        "run failed one start elf 2 step 0\n",
        None,
    ),
    // the check of a stage before, and none of its own
    (
        ("\"copy.hex0\"", "\"altered.hex0\""),
        ("two", "out"),
        Status::CheckFailed,
        "check failed one differs 0\n",
        None,
    ),
    (
        ("\"copy.hex0\"", "\"altered.hex0\""),
        ("one", "2"),
        Status::Yes,
        "left one 2 0 status 0 step 32\n",
        Some(b""),
    ),
    // no such stage, no recipe, an OUT that is an input
    (SAME, ("three", "out"), Status::Usage, "usage\n", None),
    (
        ("\"hex0\"", "\"m1\""),
        ("two", "out"),
        Status::RecipeRefused,
        "recipe refused 2 stage 1 becomes\n",
        None,
    ),
    (
        ("\"b.bin\"", "\"././o\""),
        ("two", "out"),
        Status::Usage,
        "usage\n",
        None,
    ),
];

/// The worked files with one change, and three programs more.
fn shelf_of(alloc: Global, change: (&str, &str)) -> Result<MemShelf, OutOfMemory> {
    let mut shelf = audit_shelf(alloc, change.0, change.1)?;
    shelf.set("fails.elf", program_of(alloc, FAILS)?.as_slice())?;
    shelf.set("breaks.elf", program_of(alloc, "73001000")?.as_slice())?;
    shelf.set("calls.elf", program_of(alloc, "73000000")?.as_slice())?;
    Ok(shelf)
}

/// Runs a row's command, and compares what is held under OUT after it.
fn leaves(
    rt: &impl Abort,
    alloc: Global,
    shelf: &mut MemShelf,
    &(_, (stage, file), status, text, _): &Row,
    held: Option<&[u8]>,
) -> Result<(), OutOfMemory> {
    let words = ["left", "a.toml", stage, file, "o"];
    says(rt, alloc, shelf, &words, (status, text))?;
    assert!(rt; shelf.get("o") == held, "{text}");
    Ok(())
}

fn saves_left(rt: &impl Abort, alloc: Global, row: &Row) -> Result<(), OutOfMemory> {
    let mut shelf = shelf_of(alloc, row.0)?;
    leaves(rt, alloc, &mut shelf, row, row.4)
}

#[test]
fn what_a_stage_left_is_saved(rt: HostRuntime) -> Result<(), Fail> {
    for row in &ROWS {
        saves_left(&rt, rt.alloc(), row)?;
    }
    Ok(())
}

fn saves_artefact(rt: &impl Abort, alloc: Global, shelf: &mut MemShelf) -> Result<(), OutOfMemory> {
    let words = ["left", "a.toml", "one", "out", "./o"];
    let text = "left one out 232 status 0 step 32\n";
    says(rt, alloc, shelf, &words, (Status::Yes, text))?;
    assert!(rt; shelf.get("./o").is_some());
    assert!(rt; shelf.get("./o") == shelf.get("copy.elf"));
    assert!(rt; shelf.get("o").is_none());
    Ok(())
}

/// The artefact of the first stage is the program that it copied.
#[test]
fn a_whole_artefact_is_saved(rt: HostRuntime) -> Result<(), Fail> {
    let mut shelf = shelf_of(rt.alloc(), SAME)?;
    saves_artefact(&rt, rt.alloc(), &mut shelf)?;
    Ok(())
}

static NAMED: [Step; 4] = [
    Step::Run(
        &["left", "a.toml", "one", "./1", "o"],
        Status::Yes,
        "left one ./1 3 status 12 step 9\n",
    ),
    Step::Holds("o", "abc"),
    Step::Run(
        &["left", "a.toml", "one", "1", "o"],
        Status::Yes,
        "left one 1 0 status 12 step 9\n",
    ),
    Step::Holds("o", ""),
];

fn named(rt: &impl Abort, alloc: Global, shelf: &mut MemShelf) -> Result<(), OutOfMemory> {
    shelf.set("copy.elf", program_of(alloc, FAILS)?.as_slice())?;
    walk(rt, alloc, shelf, &NAMED)
}

/// `1` is a stream, and a file of that name is given as `./1`.
#[test]
fn a_file_may_have_the_name_of_a_stream(rt: HostRuntime) -> Result<(), Fail> {
    let given = "path = \"in\", from = \"prog\"";
    let mut shelf = shelf_of(rt.alloc(), (given, "path = \"1\", from = \"src\""))?;
    named(&rt, rt.alloc(), &mut shelf)?;
    Ok(())
}

fn stays(
    rt: &impl Abort,
    alloc: Global,
    shelf: &mut MemShelf,
    row: &Row,
) -> Result<(), OutOfMemory> {
    shelf.set("o", b"as before")?;
    leaves(rt, alloc, shelf, row, Some(b"as before".as_slice()))
}

fn stays_left(rt: &impl Abort, alloc: Global, row: &Row) -> Result<(), OutOfMemory> {
    let mut shelf = shelf_of(alloc, row.0)?;
    stays(rt, alloc, &mut shelf, row)
}

/// Where nothing is left, what OUT held stays.
#[test]
fn a_refusal_leaves_out_as_it_was(rt: HostRuntime) -> Result<(), Fail> {
    for row in &ROWS {
        if row.4.is_none() {
            stays_left(&rt, rt.alloc(), row)?;
        }
    }
    Ok(())
}

static WORDS: [Step; 1] = [Step::Usage(&[
    &["left"],
    &["left", "a.toml"],
    &["left", "a.toml", "two"],
    &["left", "a.toml", "two", "out"],
    &["left", "a.toml", "two", "out", "o", "o"],
    &["left", "", "two", "out", "o"],
    &["left", "a.toml", "two", "out", ""],
    &["left", "a.toml", "two\0", "out", "o"],
    // FILE is no guest's name
    &["left", "a.toml", "two", "", "o"],
    &["left", "a.toml", "two", "././", "o"],
    &["left", "a.toml", "two", "o\0", "o"],
    // OUT and RECIPE name the same file
    &["left", "a.toml", "two", "out", "a.toml"],
    &["left", "a.toml", "two", "out", "./a.toml"],
    &["left", "././a.toml", "two", "out", "a.toml"],
    &["lefts", "a.toml", "two", "out", "o"],
])];

/// OUT and an input name the same file: the recipe is loaded, and nothing more.
static CLASH: [Step; 3] = [
    Step::Calls(0),
    Step::Usage(&[&["left", "a.toml", "two", "out", "./b.bin"]]),
    Step::Calls(1),
];

/// A name that is too long is no guest's.
fn long_name(rt: &impl Abort, alloc: Global, shelf: &mut MemShelf) -> Result<(), OutOfMemory> {
    let long = [b'n'; 256];
    let long = str::from_utf8(&long).unwrap_or("");
    assert_eq!(rt; long.len(), 256);
    let words = ["left", "a.toml", "two", long, "o"];
    says(rt, alloc, shelf, &words, (Status::Usage, "usage\n"))
}

fn judges_words(rt: &impl Abort, alloc: Global, shelf: &mut MemShelf) -> Result<(), OutOfMemory> {
    walk(rt, alloc, shelf, &WORDS)?;
    long_name(rt, alloc, shelf)?;
    walk(rt, alloc, shelf, &CLASH)
}

#[test]
fn the_words_of_left_are_judged(rt: HostRuntime) -> Result<(), Fail> {
    let mut shelf = shelf_of(rt.alloc(), SAME)?;
    judges_words(&rt, rt.alloc(), &mut shelf)?;
    Ok(())
}

static FAULTS: [&[Step]; 5] = [
    &[
        Step::FailSave(1),
        Step::Run(
            &["left", "a.toml", "two", "out", "o"],
            Status::ShelfFault,
            "shelf fault o\n",
        ),
    ],
    &[
        Step::FailLoad(1),
        Step::Run(
            &["left", "a.toml", "two", "out", "o"],
            Status::ShelfFault,
            "shelf fault a.toml\n",
        ),
        Step::Absent("o"),
    ],
    &[
        Step::FailLoad(2),
        Step::Run(
            &["left", "a.toml", "two", "out", "o"],
            Status::ShelfFault,
            "shelf fault copy.elf\n",
        ),
        Step::Absent("o"),
    ],
    &[
        Step::FailLoad(5),
        Step::Run(
            &["left", "a.toml", "two", "out", "o"],
            Status::ShelfFault,
            "shelf fault b.bin\n",
        ),
        Step::Absent("o"),
    ],
    &[
        Step::Run(
            &["left", "a.toml", "two", "out", "o"],
            Status::Yes,
            "left two out 3 status 0 step 32\n",
        ),
        Step::Calls(6),
        Step::Saves(1),
    ],
];

/// Takes steps over the files, and tells whether the last call is a save.
fn ends_in_a_save(rt: &impl Abort, alloc: Global, steps: &[Step]) -> Result<bool, OutOfMemory> {
    let mut shelf = shelf_of(alloc, SAME)?;
    walk(rt, alloc, &mut shelf, steps)?;
    Ok(matches!(shelf.calls().last(), Some(Call::Save { .. })))
}

/// The last call is the one save; where it fails, what stood under OUT is open, and the fault is said.
#[test]
fn a_failed_save_is_a_fault(rt: HostRuntime) -> Result<(), Fail> {
    for (number, steps) in FAULTS.iter().enumerate() {
        let saved = ends_in_a_save(&rt, rt.alloc(), steps)?;
        assert_eq!(&rt; saved, number == 4);
    }
    Ok(())
}
