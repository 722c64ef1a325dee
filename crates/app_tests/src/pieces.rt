//! Runs in segments: the worked recipe, whose two stages take 32 steps each, and that recipe with one change. The expected answers were
//! written down from docs/reference/command-line.md, docs/reference/segments.md and docs/reference/save.md.

use crate::audits::{RECIPE, REPORT, audit_shelf};
use crate::scenes::{Step, alter, are_usage, ends, holds, over_worked, says, walk};
use crate::worked::{program_of, with};
use ddc_app::Status;
use ddc_base::{MemShelf, OutOfMemory};
use std::alloc::Global;
use std::process::Abort;
use std::test::Fail;

/// A command line, its status and its text.
pub(crate) type Row = (&'static [&'static str], Status, &'static str);

/// Runs command lines one after the other, and compares their statuses and texts.
pub(crate) fn says_all(
    rt: &impl Abort,
    alloc: Global,
    shelf: &mut MemShelf,
    rows: &[Row],
) -> Result<(), OutOfMemory> {
    for &(words, status, text) in rows {
        says(rt, alloc, shelf, words, (status, text))?;
    }
    Ok(())
}

/// The cut of the second stage by 10 steps.
pub(crate) const CUT: &[Row] = &[(
    &["cut", "a.toml", "two", "10", "c"],
    Status::Yes,
    "cut 4 step 32\n",
)];

/// A file store with the four states of that cut.
pub(crate) fn cut_shelf(rt: &impl Abort, alloc: Global) -> Result<MemShelf, OutOfMemory> {
    let mut shelf = audit_shelf(alloc, "", "")?;
    says_all(rt, alloc, &mut shelf, CUT)?;
    Ok(shelf)
}

static WORKED: [Row; 9] = [
    (&["segment", "c.0", "c.1"], Status::Yes, "segment yes 10\n"),
    (&["segment", "c.1", "c.2"], Status::Yes, "segment yes 10\n"),
    (&["segment", "c.2", "c.3"], Status::Yes, "segment yes 10\n"),
    (&["segment", "c.0", "c.2"], Status::Yes, "segment yes 20\n"),
    (&["segment", "c.0", "c.3"], Status::Yes, "segment yes 30\n"),
    (
        &["segment", "c.1", "c.0"],
        Status::Refuted,
        "refuted segment later\n",
    ),
    // A name that begins as an input's does names another file.
    (
        &["cut", "a.toml", "two", "10", "copy"],
        Status::Yes,
        "cut 4 step 32\n",
    ),
    // States of the other stage, which reads other bytes.
    (
        &["cut", "a.toml", "one", "8", "d"],
        Status::Yes,
        "cut 4 step 32\n",
    ),
    (&["segment", "d.2", "d.3"], Status::Yes, "segment yes 8\n"),
];

/// Runs command lines over the states of the cut.
fn cut_says(rt: &impl Abort, alloc: Global, rows: &[Row]) -> Result<(), OutOfMemory> {
    let mut shelf = cut_shelf(rt, alloc)?;
    says_all(rt, alloc, &mut shelf, rows)
}

fn checks(rt: &impl Abort, alloc: Global, shelf: &mut MemShelf) -> Result<(), OutOfMemory> {
    says_all(rt, alloc, shelf, &WORKED)?;
    assert!(rt; shelf.get("c.4").is_none());
    Ok(())
}

#[test]
fn pieces_are_checked(rt: HostRuntime) -> Result<(), Fail> {
    let mut shelf = cut_shelf(&rt, rt.alloc())?;
    checks(&rt, rt.alloc(), &mut shelf)?;
    Ok(())
}

/// The lines of a stage's block in the worked report, but for the last one.
fn block(name: &str) -> &'static str {
    let (_, from) = REPORT.split_once(name).unwrap_or(("", ""));
    let (lines, _) = from.split_once("checked").unwrap_or(("", ""));
    lines.trim_end_matches("un")
}

/// Prints the ends of the worked stage, whose cut has so many states.
fn ends_are(
    rt: &impl Abort,
    alloc: Global,
    shelf: &mut MemShelf,
    count: &str,
) -> Result<(), OutOfMemory> {
    let wanted = format!(in alloc; "stage two{}", block("stage two"))?;
    let words = ["ends", "a.toml", "two", "c", count];
    says(rt, alloc, shelf, &words, (Status::Yes, wanted.as_str()))
}

#[test]
fn ends_are_those_of_the_report(rt: HostRuntime) -> Result<(), Fail> {
    let mut shelf = cut_shelf(&rt, rt.alloc())?;
    for count in ["1", "2", "3", "4"] {
        ends_are(&rt, rt.alloc(), &mut shelf, count)?;
    }
    Ok(())
}

/// Where `c.2` is altered, to which bytes, and what is printed of `c.1` and it.
type Alteration = (usize, &'static [u8], Status, &'static str);

/// Two runs of pages stand at 297, and three pages after their count at 317, the program's bytes at 325. The files begin at 12,621: `in` with its
/// content at 12,637, `out` with its number at 12,640. The fourth of five descriptors has its cursor at 12,681, and the second stream its length at 12,712.
static ALTERATIONS: [Alteration; 14] = [
    (0, b"d", Status::Yes, "segment yes 10\n"),
    (0, b"D", Status::Refuted, "refuted segment to 1\n"),
    (7, b"1", Status::Refuted, "refuted segment to 1\n"),
    // The steps: as many as `c.1` has, 40, 2^48 more than `c.1` has, and one more.
    (8, b"\x0a", Status::Refuted, "refuted segment later\n"),
    (8, b"\x28", Status::Refuted, "refuted segment ends 32\n"),
    (
        8,
        b"\x0a\0\0\0\0\0\x01",
        Status::Refuted,
        "refuted segment ends 32\n",
    ),
    (
        8,
        b"\x0b\0\0\0\0\0\x01",
        Status::Refuted,
        "refuted segment far\n",
    ),
    (16, b"\x01", Status::Refuted, "refuted segment to 2\n"),
    // A register, a page, a file, a file that a descriptor has no more, a descriptor, a stream.
    (80, b"\x02", Status::Refuted, "refuted segment differs 80\n"),
    (
        325,
        b"\x7e",
        Status::Refuted,
        "refuted segment differs 325\n",
    ),
    (
        12_639,
        b"d",
        Status::Refuted,
        "refuted segment differs 12639\n",
    ),
    (12_640, b"\x09", Status::Refuted, "refuted segment to 3\n"),
    (
        12_681,
        b"\x01",
        Status::Refuted,
        "refuted segment differs 12681\n",
    ),
    (
        12_712,
        b"\x01\0\0\0x",
        Status::Refuted,
        "refuted segment differs 12712\n",
    ),
];

/// Alters a state, and runs one command line.
fn alters(
    rt: &impl Abort,
    alloc: Global,
    shelf: &mut MemShelf,
    (name, at, bytes): (&str, usize, &[u8]),
    (words, status, text): Row,
) -> Result<(), OutOfMemory> {
    alter(alloc, shelf, name, at, bytes)?;
    says(rt, alloc, shelf, words, (status, text))
}

fn alters_cut(
    rt: &impl Abort,
    alloc: Global,
    altered: (&str, usize, &[u8]),
    row: Row,
) -> Result<(), OutOfMemory> {
    let mut shelf = cut_shelf(rt, alloc)?;
    alters(rt, alloc, &mut shelf, altered, row)
}

const SEGMENT: &[&str] = &["segment", "c.1", "c.2"];

#[test]
fn altered_states_are_refuted(rt: HostRuntime) -> Result<(), Fail> {
    for (at, bytes, status, text) in ALTERATIONS {
        alters_cut(&rt, rt.alloc(), ("c.2", at, bytes), (SEGMENT, status, text))?;
    }
    Ok(())
}

/// What the former text is refuted by: its form, its pc, the file of a descriptor.
type Former = (usize, &'static [u8], &'static str);

static FORMER: [Former; 3] = [
    (0, b"D", "refuted segment from 1\n"),
    (16, b"\x01", "refuted segment from 2\n"),
    (12_640, b"\x09", "refuted segment from 3\n"),
];

/// Alters the former state, and the latter one's form.
fn alters_both(
    rt: &impl Abort,
    alloc: Global,
    shelf: &mut MemShelf,
    (at, bytes, text): Former,
) -> Result<(), OutOfMemory> {
    alter(alloc, shelf, "c.2", at, bytes)?;
    alter(alloc, shelf, "c.3", 0, b"D")?;
    let words = ["segment", "c.2", "c.3"];
    says(rt, alloc, shelf, &words, (Status::Refuted, text))
}

fn alters_former(rt: &impl Abort, alloc: Global, former: Former) -> Result<(), OutOfMemory> {
    let mut shelf = cut_shelf(rt, alloc)?;
    alters_both(rt, alloc, &mut shelf, former)
}

#[test]
fn the_former_text_is_judged_first(rt: HostRuntime) -> Result<(), Fail> {
    for former in FORMER {
        alters_former(&rt, rt.alloc(), former)?;
    }
    Ok(())
}

/// Which of `c.0` and `c.3` is altered, where, to which bytes, and what `ends` says.
static ENDS: [(&str, usize, &[u8], &str); 5] = [
    ("c.0", 0, b"D", "refuted first 1\n"),
    ("c.0", 16, b"\x01", "refuted first 2\n"),
    ("c.0", 80, b"\x02", "refuted first differs 80\n"),
    ("c.3", 0, b"D", "refuted last 1\n"),
    ("c.3", 16, b"\x01", "refuted last 2\n"),
];

pub(crate) const ENDS_WORDS: &[&str] = &["ends", "a.toml", "two", "c", "4"];

#[test]
fn altered_ends_are_refuted(rt: HostRuntime) -> Result<(), Fail> {
    for (name, at, bytes, text) in ENDS {
        let row = (ENDS_WORDS, Status::Refuted, text);
        alters_cut(&rt, rt.alloc(), (name, at, bytes), row)?;
    }
    Ok(())
}

static OTHER_ENDS: [Row; 5] = [
    // States of another stage: the file `in` has another length in it, at 8,533.
    (
        &["ends", "a.toml", "one", "c", "4"],
        Status::Refuted,
        "refuted first differs 8533\n",
    ),
    (
        &["ends", "a.toml", "two", "c", "5"],
        Status::FileRefused,
        "file refused c.4 absent\n",
    ),
    (
        &["ends", "a.toml", "two", "d", "1"],
        Status::FileRefused,
        "file refused d.0 absent\n",
    ),
    (
        &["ends", "none", "two", "c", "4"],
        Status::FileRefused,
        "file refused none absent\n",
    ),
    (
        &["segment", "c.3", "c.4"],
        Status::FileRefused,
        "file refused c.4 absent\n",
    ),
];

#[test]
fn ends_of_others_are_refuted(rt: HostRuntime) -> Result<(), Fail> {
    cut_says(&rt, rt.alloc(), &OTHER_ENDS)?;
    Ok(())
}

/// What is changed in the recipe, into what, the command lines over it, and how many states are saved then.
type Change = (&'static str, &'static str, &'static [Row], usize);

/// The second stage's keys up to its limit.
const SECOND: &str = "from = \"src\" }]\noutput = \"out\"\nsteps = 100000";

static CHANGES: [Change; 6] = [
    // A state is saved although the next step ends the run, and none at the limit.
    (
        "steps = 100000",
        "steps = 31",
        &[
            (
                &["cut", "a.toml", "one", "31", "c"],
                Status::RunFailed,
                "run failed one spent step 31\n",
            ),
            (
                &["ends", "a.toml", "one", "c", "1"],
                Status::RunFailed,
                "run failed one spent step 31\n",
            ),
        ],
        1,
    ),
    (
        "",
        "",
        &[
            (
                &["cut", "a.toml", "one", "31", "c"],
                Status::Yes,
                "cut 2 step 32\n",
            ),
            (&["segment", "c.0", "c.1"], Status::Yes, "segment yes 31\n"),
        ],
        2,
    ),
    // The stages before one are made first.
    (
        "from = \"prog\"",
        "from = \"src\"",
        &[
            (
                &["cut", "a.toml", "two", "10", "c"],
                Status::CheckFailed,
                "check failed one differs 0\n",
            ),
            (
                &["cut", "a.toml", "one", "10", "c"],
                Status::Yes,
                "cut 4 step 32\n",
            ),
        ],
        4,
    ),
    (
        "\"copy.elf\"",
        "\"exit.elf\"",
        &[
            (
                &["cut", "a.toml", "two", "10", "c"],
                Status::RunFailed,
                "run failed one no-output step 3\n",
            ),
            (
                &["cut", "a.toml", "one", "1", "c"],
                Status::RunFailed,
                "run failed one no-output step 3\n",
            ),
            (
                &["ends", "a.toml", "one", "c", "3"],
                Status::RunFailed,
                "run failed one no-output step 3\n",
            ),
        ],
        3,
    ),
    (
        "\"copy.elf\"",
        "\"copy.hex0\"",
        &[(
            &["cut", "a.toml", "one", "1", "c"],
            Status::RunFailed,
            "run failed one start elf 2 step 0\n",
        )],
        0,
    ),
    (
        "format = 1",
        "format = 1\nformat = 1",
        &[
            (
                &["cut", "a.toml", "two", "10", "c"],
                Status::RecipeRefused,
                "recipe refused 1\n",
            ),
            (
                &["ends", "a.toml", "two", "c", "1"],
                Status::RecipeRefused,
                "recipe refused 1\n",
            ),
        ],
        0,
    ),
];

/// The number of states in the file store.
pub(crate) fn states(shelf: &MemShelf) -> usize {
    ["c.0", "c.1", "c.2", "c.3", "c.4"]
        .iter()
        .filter(|name| shelf.get(name).is_some())
        .count()
}

fn cuts(
    rt: &impl Abort,
    alloc: Global,
    shelf: &mut MemShelf,
    (rows, saved): (&[Row], usize),
) -> Result<(), OutOfMemory> {
    says_all(rt, alloc, shelf, rows)?;
    assert_eq!(rt; states(shelf), saved);
    Ok(())
}

fn cuts_changed(
    rt: &impl Abort,
    alloc: Global,
    &(old, new, rows, saved): &Change,
) -> Result<(), OutOfMemory> {
    let mut shelf = audit_shelf(alloc, old, new)?;
    cuts(rt, alloc, &mut shelf, (rows, saved))
}

#[test]
fn recipes_are_cut(rt: HostRuntime) -> Result<(), Fail> {
    for change in &CHANGES {
        cuts_changed(&rt, rt.alloc(), change)?;
    }
    Ok(())
}

/// Sets the recipe with another limit of the second stage.
fn set_limited(alloc: Global, shelf: &mut MemShelf, limit: &str) -> Result<(), OutOfMemory> {
    let keys = format!(in alloc; "from = \"src\" }}]\noutput = \"out\"\nsteps = {limit}")?;
    shelf.set(
        "a.toml",
        with(alloc, RECIPE, SECOND, keys.as_str())?.as_bytes(),
    )
}

/// Prints the ends of the cut under another limit.
fn limited(
    rt: &impl Abort,
    alloc: Global,
    shelf: &mut MemShelf,
    limit: &str,
    status: Status,
) -> Result<(), OutOfMemory> {
    set_limited(alloc, shelf, limit)?;
    assert_eq!(rt; ends(alloc, shelf, ENDS_WORDS)?, status);
    Ok(())
}

fn limited_cut(
    rt: &impl Abort,
    alloc: Global,
    limit: &str,
    status: Status,
) -> Result<(), OutOfMemory> {
    let mut shelf = cut_shelf(rt, alloc)?;
    limited(rt, alloc, &mut shelf, limit, status)
}

#[test]
fn ends_keep_the_stages_limit(rt: HostRuntime) -> Result<(), Fail> {
    limited_cut(&rt, rt.alloc(), "31", Status::RunFailed)?;
    limited_cut(&rt, rt.alloc(), "32", Status::Yes)?;
    Ok(())
}

/// The stage's limit, the status and the text.
static LIMITS: [(&str, Status, &str); 3] = [
    ("100000", Status::TooManySegments, "too many segments\n"),
    ("1001", Status::TooManySegments, "too many segments\n"),
    (
        "1000",
        Status::RunFailed,
        "run failed one spent step 1000\n",
    ),
];

/// Cuts an endless program by single steps.
fn cuts_endless(
    rt: &impl Abort,
    alloc: Global,
    shelf: &mut MemShelf,
    ending: (Status, &str),
) -> Result<(), OutOfMemory> {
    shelf.set("copy.elf", program_of(alloc, "6f000000")?.as_slice())?;
    says(
        rt,
        alloc,
        shelf,
        &["cut", "a.toml", "one", "1", "c"],
        ending,
    )?;
    assert!(rt; shelf.get("c.999").is_some());
    assert!(rt; shelf.get("c.1000").is_none());
    Ok(())
}

/// A file store whose stages have this limit.
fn limited_shelf(alloc: Global, limit: &str) -> Result<MemShelf, OutOfMemory> {
    let keys = format!(in alloc; "steps = {limit}")?;
    audit_shelf(alloc, "steps = 100000", keys.as_str())
}

fn cuts_limited(
    rt: &impl Abort,
    alloc: Global,
    limit: &str,
    ending: (Status, &str),
) -> Result<(), OutOfMemory> {
    let mut shelf = limited_shelf(alloc, limit)?;
    cuts_endless(rt, alloc, &mut shelf, ending)
}

/// An endless program, whose one instruction jumps to itself.
#[test]
fn a_thousand_states_are_the_most(rt: HostRuntime) -> Result<(), Fail> {
    for (limit, status, text) in LIMITS {
        cuts_limited(&rt, rt.alloc(), limit, (status, text))?;
    }
    Ok(())
}

/// Words that are no command line, and words that are one.
static WORDS: [&[&str]; 27] = [
    &["cut"],
    &["cut", "a.toml", "two", "10"],
    &["cut", "a.toml", "two", "10", "c", "d"],
    &["cut", "a.toml", "two", "0", "c"],
    &["cut", "a.toml", "two", "010", "c"],
    &["cut", "a.toml", "two", "281474976710657", "c"],
    &["cut", "a.toml", "two", "10", ""],
    &["cut", "a.toml", "two", "10", "c\0"],
    &["cut", "", "two", "10", "c"],
    &["cut", "a.toml", "t\0", "10", "c"],
    &["cut", "a.toml", "three", "10", "c"],
    &["cut", "a.toml", "", "10", "c"],
    &["segment"],
    &["segment", "c.0"],
    &["segment", "c.0", "c.1", "c.2"],
    &["segment", "", "c.1"],
    &["segment", "c.0", "c.0"],
    &["segment", "c.0", "././c.0"],
    &["ends"],
    &["ends", "a.toml", "two", "c"],
    &["ends", "a.toml", "two", "c", "4", "4"],
    &["ends", "a.toml", "two", "c", "0"],
    &["ends", "a.toml", "two", "c", "04"],
    &["ends", "a.toml", "two", "c", "1001"],
    &["ends", "a.toml", "two", "", "4"],
    &["ends", "a.toml", "three", "c", "4"],
    &["ends", "", "two", "c", "4"],
];

#[test]
fn words_of_pieces_are_judged(rt: HostRuntime) -> Result<(), Fail> {
    let mut shelf = cut_shelf(&rt, rt.alloc())?;
    are_usage(&rt, rt.alloc(), &mut shelf, &WORDS)?;
    Ok(())
}

/// The longest prefix, and one that is too long.
static LONG: [(usize, Status); 2] = [(250, Status::Yes), (251, Status::Usage)];

fn long_prefix(alloc: Global, length: usize) -> Result<String, OutOfMemory> {
    let mut prefix = String::new(alloc);
    for _ in 0..length {
        prefix.push('p')?;
    }
    Ok(prefix)
}

/// Cuts under a prefix of so many bytes.
fn cuts_under(
    rt: &impl Abort,
    alloc: Global,
    shelf: &mut MemShelf,
    (length, status): (usize, Status),
) -> Result<(), OutOfMemory> {
    let prefix = long_prefix(alloc, length)?;
    let words = ["cut", "a.toml", "two", "10", prefix.as_str()];
    assert_eq!(rt; ends(alloc, shelf, &words)?, status);
    Ok(())
}

#[test]
fn prefixes_have_at_most_250_bytes(rt: HostRuntime) -> Result<(), Fail> {
    let mut shelf = audit_shelf(rt.alloc(), "", "")?;
    for row in LONG {
        cuts_under(&rt, rt.alloc(), &mut shelf, row)?;
    }
    Ok(())
}

/// An input's path, a prefix, and whether a state's name names the same file as the path.
static CLASHES: [(&str, &str, bool); 8] = [
    ("c.0", "c", true),
    ("c.999", "c", true),
    ("c.1000", "c", false),
    ("c.01", "c", false),
    ("c.", "c", false),
    ("././c.7", "c", true),
    ("c.7", "./c", true),
    ("c/../c.7", "c", false),
];

/// A file store with a file under this path, which is an input's.
fn clash_shelf(alloc: Global, path: &str) -> Result<MemShelf, OutOfMemory> {
    let keys = format!(in alloc; "\"{path}\"")?;
    audit_shelf(alloc, "\"b.bin\"", keys.as_str())
}

/// Cuts under a prefix beside that input.
fn judges_name(
    rt: &impl Abort,
    alloc: Global,
    shelf: &mut MemShelf,
    (path, prefix, clashes): (&str, &str, bool),
) -> Result<(), OutOfMemory> {
    shelf.set(path, b"abc")?;
    let words = ["cut", "a.toml", "two", "10", prefix];
    let status = if clashes { Status::Usage } else { Status::Yes };
    assert_eq!(rt; ends(alloc, shelf, &words)?, status, "{path}");
    assert!(rt; holds(shelf, path, b"abc"));
    Ok(())
}

fn judges_clash(
    rt: &impl Abort,
    alloc: Global,
    clash: (&str, &str, bool),
) -> Result<(), OutOfMemory> {
    let mut shelf = clash_shelf(alloc, clash.0)?;
    judges_name(rt, alloc, &mut shelf, clash)
}

#[test]
fn names_of_states_are_judged(rt: HostRuntime) -> Result<(), Fail> {
    for clash in CLASHES {
        judges_clash(&rt, rt.alloc(), clash)?;
    }
    Ok(())
}

static NO_STATES: [Step; 2] = [
    Step::Usage(&[
        &["cut", "c.5", "two", "10", "c"],
        &["cut", "././c.999", "two", "10", "c"],
        &["ends", "c.0", "two", "./c", "4"],
    ]),
    Step::Calls(0),
];

/// As an input, RECIPE must not name the same file as a state, which is answered before anything is loaded.
#[test]
fn the_recipe_is_no_state(rt: HostRuntime) -> Result<(), Fail> {
    let mut shelf = MemShelf::new(rt.alloc());
    walk(&rt, rt.alloc(), &mut shelf, &NO_STATES)?;
    Ok(())
}

pub(crate) const CUT_WORDS: &[&str] = &["cut", "a.toml", "two", "10", "c"];

/// Two checks over the states of the cut, and all calls.
static CALLS: [Step; 4] = [
    Step::Run(CUT_WORDS, Status::Yes, "cut 4 step 32\n"),
    Step::Run(&["segment", "c.1", "c.2"], Status::Yes, "segment yes 10\n"),
    Step::Run(
        &["ends", "a.toml", "two", "c", "1"],
        Status::Yes,
        "stage two 32\n\
         stream 1 0 e3b0c44298fc1c149afbf4c8996fb92427ae41e4649b934ca495991b7852b855\n\
         stream 2 0 e3b0c44298fc1c149afbf4c8996fb92427ae41e4649b934ca495991b7852b855\n\
         left 696e 3 ba7816bf8f01cfea414140de5dae2223b00361a396177a9cb410ff61f20015ad\n\
         left 6f7574 3 ba7816bf8f01cfea414140de5dae2223b00361a396177a9cb410ff61f20015ad\n\
         made 3 ba7816bf8f01cfea414140de5dae2223b00361a396177a9cb410ff61f20015ad\n",
    ),
    Step::Called(&[
        ("a.toml", Some(1_048_576)),
        ("copy.elf", Some(268_435_456)),
        ("copy.hex0", Some(268_435_456)),
        ("a.bin", Some(268_435_456)),
        ("b.bin", Some(268_435_456)),
        ("c.0", None),
        ("c.1", None),
        ("c.2", None),
        ("c.3", None),
        ("c.1", Some(4_294_967_296)),
        ("c.2", Some(4_294_967_296)),
        ("a.toml", Some(1_048_576)),
        ("copy.elf", Some(268_435_456)),
        ("copy.hex0", Some(268_435_456)),
        ("a.bin", Some(268_435_456)),
        ("b.bin", Some(268_435_456)),
        ("c.0", Some(4_294_967_296)),
        ("c.0", Some(4_294_967_296)),
    ]),
];

#[test]
fn calls_of_pieces_come_in_order(rt: HostRuntime) -> Result<(), Fail> {
    over_worked(&rt, rt.alloc(), &CALLS)?;
    Ok(())
}
