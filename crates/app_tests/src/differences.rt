//! Audits by differences from a whole save, with the worked recipe, whose two stages take 32 steps each. The expected answers were written
//! down from docs/reference/command-line.md and docs/reference/delta.md. The lengths are those of the differences that
//! tests/saves/write_delta.py writes.

use crate::audits::{REPORT, audit_shelf};
use crate::pauses::{Opening, opens_worked};
use crate::scenes::{Wanted, alter, are_calls, are_usage_of, content, ends, holds, saves, says};
use ddc_app::Status;
use ddc_base::{MemShelf, OutOfMemory};
use std::alloc::Global;
use std::process::Abort;
use std::test::Fail;

/// A command, its steps, its status and its text.
pub(crate) type Piece = (&'static str, &'static str, Status, &'static str);

pub(crate) const EQUAL: &str = "equal two bin 3\n";

/// Runs pieces of the audit `a.toml` with the base `s`, the patch `p` and the report `r`; `part` saves under `s`.
pub(crate) fn pieces(
    rt: &impl Abort,
    alloc: Global,
    shelf: &mut MemShelf,
    rows: &[Piece],
) -> Result<(), OutOfMemory> {
    for &(command, steps, status, text) in rows {
        match command {
            "part" => {
                let words = [command, "a.toml", "s", "r", steps];
                says(rt, alloc, shelf, &words, (status, text))?;
            }
            _ => {
                let words = [command, "a.toml", "s", "p", "r", steps];
                says(rt, alloc, shelf, &words, (status, text))?;
            }
        }
    }
    Ok(())
}

/// A file store whose audit paused after 32 steps.
pub(crate) fn based(alloc: Global) -> Result<MemShelf, OutOfMemory> {
    let mut shelf = audit_shelf(alloc, "", "")?;
    match ends(alloc, &mut shelf, &["part", "a.toml", "s", "r", "32"])? {
        Status::Paused => Ok(shelf),
        _ => Err(OutOfMemory),
    }
}

/// The same with the difference after 13 further steps.
pub(crate) fn differing(alloc: Global) -> Result<MemShelf, OutOfMemory> {
    let mut shelf = based(alloc)?;
    match ends(
        alloc,
        &mut shelf,
        &["delta-start", "a.toml", "s", "p", "r", "13"],
    )? {
        Status::Paused => Ok(shelf),
        _ => Err(OutOfMemory),
    }
}

/// Whether a text has these bytes from an offset on.
fn has_at(text: &[u8], at: usize, bytes: &[u8]) -> bool {
    text.get(at..at.saturating_add(bytes.len())).unwrap_or(&[]) == bytes
}

fn first_difference(
    rt: &impl Abort,
    alloc: Global,
    shelf: &mut MemShelf,
) -> Result<(), OutOfMemory> {
    let start = ("delta-start", "13", Status::Paused, "paused two 13\n");
    pieces(rt, alloc, shelf, &[start])?;
    let first = shelf.get("p").unwrap_or(&[]);
    assert_eq!(rt; first.len(), 257);
    assert!(rt; has_at(first, 169, &[0, 0, 0, 0]));
    Ok(())
}

fn second_difference(
    rt: &impl Abort,
    alloc: Global,
    shelf: &mut MemShelf,
) -> Result<(), OutOfMemory> {
    let further = ("delta-resume", "18", Status::Paused, "paused two 31\n");
    pieces(rt, alloc, shelf, &[further])?;
    let second = shelf.get("p").unwrap_or(&[]);
    assert_eq!(rt; second.len(), 4_353);
    let page = [1, 0, 0, 0, 0xfe, 0xff, 0xff, 0x03, 1];
    assert!(rt; has_at(second, 161, &page));
    assert!(rt; shelf.get("r").is_none());
    Ok(())
}

/// The last piece, which leaves the base and the difference.
fn last_piece(rt: &impl Abort, alloc: Global, shelf: &mut MemShelf) -> Result<(), OutOfMemory> {
    let second = content(alloc, shelf, "p")?;
    pieces(
        rt,
        alloc,
        shelf,
        &[("delta-resume", "1", Status::Yes, EQUAL)],
    )?;
    assert!(rt; holds(shelf, "r", REPORT.as_bytes()));
    assert!(rt; holds(shelf, "p", second.as_slice()));
    Ok(())
}

fn all_differences(
    rt: &impl Abort,
    alloc: Global,
    shelf: &mut MemShelf,
    base: &[u8],
) -> Result<(), OutOfMemory> {
    first_difference(rt, alloc, shelf)?;
    second_difference(rt, alloc, shelf)?;
    last_piece(rt, alloc, shelf)?;
    assert!(rt; holds(shelf, "s", base));
    let yes = (Status::Yes, "yes\nequal two bin 3\n");
    says(rt, alloc, shelf, &["verify", "a.toml", "r"], yes)
}

/// After 13 steps of the second stage no page differs from its start; after 31 one does, the stack's page of number 3FFFFFE.
#[test]
fn differences_come_to_the_report(rt: HostRuntime) -> Result<(), Fail> {
    let mut shelf = based(rt.alloc())?;
    let base = content(rt.alloc(), &shelf, "s")?;
    all_differences(&rt, rt.alloc(), &mut shelf, base.as_slice())?;
    Ok(())
}

static PIECES: [&[Piece]; 5] = [
    &[
        ("part", "63", Status::Paused, "paused two 31\n"),
        ("delta-start", "1", Status::Yes, EQUAL),
    ],
    &[
        ("part", "1", Status::Paused, "paused one 1\n"),
        ("delta-start", "281474976710656", Status::Yes, EQUAL),
    ],
    // Past the end of a stage, and a stage after the base's.
    &[
        ("part", "1", Status::Paused, "paused one 1\n"),
        ("delta-start", "30", Status::Paused, "paused one 31\n"),
        ("delta-resume", "1", Status::Paused, "paused two 0\n"),
        ("delta-resume", "31", Status::Paused, "paused two 31\n"),
        ("delta-resume", "281474976710656", Status::Yes, EQUAL),
    ],
    // A difference is begun anew, and the audit continues from the new one.
    &[
        ("part", "32", Status::Paused, "paused two 0\n"),
        ("delta-start", "31", Status::Paused, "paused two 31\n"),
        ("delta-start", "2", Status::Paused, "paused two 2\n"),
        ("delta-resume", "30", Status::Yes, EQUAL),
    ],
    // The audit is over, and its last difference stays.
    &[
        ("part", "62", Status::Paused, "paused two 30\n"),
        ("delta-start", "1", Status::Paused, "paused two 31\n"),
        ("delta-resume", "1", Status::Yes, EQUAL),
        ("delta-resume", "1", Status::Yes, EQUAL),
    ],
];

fn reports(
    rt: &impl Abort,
    alloc: Global,
    shelf: &mut MemShelf,
    rows: &[Piece],
) -> Result<(), OutOfMemory> {
    pieces(rt, alloc, shelf, rows)?;
    assert!(rt; holds(shelf, "r", REPORT.as_bytes()));
    assert_eq!(rt; shelf.get("p").is_some(), rows.len() > 2);
    Ok(())
}

fn reports_worked(rt: &impl Abort, alloc: Global, rows: &[Piece]) -> Result<(), OutOfMemory> {
    let mut shelf = audit_shelf(alloc, "", "")?;
    reports(rt, alloc, &mut shelf, rows)
}

#[test]
fn all_pieces_come_to_the_report(rt: HostRuntime) -> Result<(), Fail> {
    for rows in PIECES {
        reports_worked(&rt, rt.alloc(), rows)?;
    }
    Ok(())
}

/// What is changed in the recipe, into what, two pieces that pause, and the last one.
type Change = (&'static str, &'static str, &'static [Piece; 3]);

static CHANGES: [Change; 4] = [
    (
        "\"b.bin\"",
        "\"abd\"",
        &[
            ("part", "32", Status::Paused, "paused two 0\n"),
            ("delta-start", "31", Status::Paused, "paused two 31\n"),
            (
                "delta-resume",
                "1",
                Status::Differs,
                "differs two bin 2 3 3\n",
            ),
        ],
    ),
    (
        "steps = 100000",
        "steps = 31",
        &[
            ("part", "10", Status::Paused, "paused one 10\n"),
            ("delta-start", "20", Status::Paused, "paused one 30\n"),
            (
                "delta-resume",
                "1",
                Status::RunFailed,
                "run failed one spent step 31\n",
            ),
        ],
    ),
    (
        "\"copy.elf\"",
        "\"exit.elf\"",
        &[
            ("part", "1", Status::Paused, "paused one 1\n"),
            ("delta-start", "1", Status::Paused, "paused one 2\n"),
            (
                "delta-resume",
                "9",
                Status::RunFailed,
                "run failed one no-output step 3\n",
            ),
        ],
    ),
    (
        "from = \"prog\"",
        "from = \"src\"",
        &[
            ("part", "20", Status::Paused, "paused one 20\n"),
            ("delta-start", "11", Status::Paused, "paused one 31\n"),
            (
                "delta-resume",
                "1",
                Status::CheckFailed,
                "check failed one differs 0\n",
            ),
        ],
    ),
];

/// The last piece, and then all from the base at once.
fn last_pieces(
    rt: &impl Abort,
    alloc: Global,
    shelf: &mut MemShelf,
    last: Piece,
    (base, patch): (&[u8], &[u8]),
) -> Result<(), OutOfMemory> {
    let over = last.2 == Status::Differs;
    pieces(rt, alloc, shelf, &[last])?;
    assert_eq!(rt; shelf.get("r").is_some(), over);
    assert_eq!(rt; saves(shelf), 2 + over as usize);
    assert!(rt; holds(shelf, "s", base));
    assert!(rt; holds(shelf, "p", patch));
    let at_once = ("delta-start", "100000", last.2, last.3);
    pieces(rt, alloc, shelf, &[at_once])?;
    assert!(rt; holds(shelf, "p", patch));
    Ok(())
}

fn comes_to(
    rt: &impl Abort,
    alloc: Global,
    shelf: &mut MemShelf,
    rows: &[Piece; 3],
) -> Result<(), OutOfMemory> {
    pieces(rt, alloc, shelf, &rows[..2])?;
    assert_eq!(rt; saves(shelf), 2);
    let base = content(alloc, shelf, "s")?;
    let patch = content(alloc, shelf, "p")?;
    last_pieces(
        rt,
        alloc,
        shelf,
        rows[2],
        (base.as_slice(), patch.as_slice()),
    )
}

fn change_comes_to(
    rt: &impl Abort,
    alloc: Global,
    &(old, new, rows): &Change,
) -> Result<(), OutOfMemory> {
    let mut shelf = audit_shelf(alloc, old, new)?;
    comes_to(rt, alloc, &mut shelf, rows)
}

/// A pause sets the patch alone, 3 the report alone, and a failure nothing. The same from the base at once.
#[test]
fn differences_come_to_what_the_audit_does(rt: HostRuntime) -> Result<(), Fail> {
    for change in &CHANGES {
        change_comes_to(&rt, rt.alloc(), change)?;
    }
    Ok(())
}

/// Where a text is changed, to which bytes, and what is printed.
type Alteration = (usize, &'static [u8], &'static str);

/// A difference's digest begins at 8, the number of its kept stages stands at 40, the magic of its patch at 48, its steps at 56 and its pc at 64.
/// It has 257 bytes, the last of which says that the second stream is the base's.
static PATCHES: [Alteration; 12] = [
    (0, b"D", "save refused 5\n"),
    (7, b"1", "save refused 5\n"),
    (8, b"\0", "save refused 6\n"),
    (39, b"\0", "save refused 6\n"),
    // Another base is said before a wrong field after it.
    (39, b"\0\x02", "save refused 6\n"),
    // The base has one stage, which is kept.
    (40, b"\x02", "save refused 5\n"),
    (55, b"1", "save refused 5\n"),
    (256, b"\x01", "save refused 5\n"),
    (257, b"\0", "save refused 5\n"),
    // More steps than the stage may take; and a pc between words.
    (58, b"\xff", "save refused 7\n"),
    (64, b"\xae", "save refused 7\n"),
    // The form is judged before the place.
    (64, b"\xae\0\x01\0\0\0\0\0\x01", "save refused 5\n"),
];

/// The altered difference is refused, and stays.
fn refuses(
    rt: &impl Abort,
    alloc: Global,
    shelf: &mut MemShelf,
    text: &'static str,
) -> Result<(), OutOfMemory> {
    let patch = content(alloc, shelf, "p")?;
    let row = ("delta-resume", "1", Status::SaveRefused, text);
    pieces(rt, alloc, shelf, &[row])?;
    assert_eq!(rt; saves(shelf), 2);
    assert!(rt; holds(shelf, "p", patch.as_slice()));
    assert!(rt; shelf.get("r").is_none());
    Ok(())
}

fn refuses_altered(
    rt: &impl Abort,
    alloc: Global,
    &(at, bytes, text): &Alteration,
) -> Result<(), OutOfMemory> {
    let mut shelf = differing(alloc)?;
    assert_eq!(rt; shelf.get("p").unwrap_or(&[]).len(), 257);
    alter(alloc, &mut shelf, "p", at, bytes)?;
    refuses(rt, alloc, &mut shelf, text)
}

/// Nothing is set where a difference is refused.
#[test]
fn differences_are_refused(rt: HostRuntime) -> Result<(), Fail> {
    for row in &PATCHES {
        refuses_altered(&rt, rt.alloc(), row)?;
    }
    Ok(())
}

/// The first bytes of the difference are refused.
fn refuses_cut(
    rt: &impl Abort,
    alloc: Global,
    shelf: &mut MemShelf,
    size: usize,
) -> Result<(), OutOfMemory> {
    let patch = content(alloc, shelf, "p")?;
    shelf.set("p", patch.as_slice().get(..size).unwrap_or(&[]))?;
    let row = ("delta-resume", "1", Status::SaveRefused, "save refused 5\n");
    pieces(rt, alloc, shelf, &[row])
}

fn refuses_differing(rt: &impl Abort, alloc: Global, size: usize) -> Result<(), OutOfMemory> {
    let mut shelf = differing(alloc)?;
    refuses_cut(rt, alloc, &mut shelf, size)
}

/// The difference without its last byte, and without all but its front: at fewer than 40 bytes it names no base.
#[test]
fn differences_that_are_cut_are_refused(rt: HostRuntime) -> Result<(), Fail> {
    for size in [0, 7, 8, 39, 40, 44, 48, 256] {
        refuses_differing(&rt, rt.alloc(), size)?;
    }
    Ok(())
}

static OTHER_BASES: [Piece; 4] = [
    ("part", "45", Status::Paused, "paused two 13\n"),
    ("delta-resume", "1", Status::SaveRefused, "save refused 6\n"),
    ("part", "32", Status::Paused, "paused two 0\n"),
    ("delta-resume", "1", Status::Paused, "paused two 14\n"),
];

/// A base after 45 steps in place of the one after 32.
#[test]
fn a_difference_from_another_save_is_refused(rt: HostRuntime) -> Result<(), Fail> {
    let mut shelf = differing(rt.alloc())?;
    pieces(&rt, rt.alloc(), &mut shelf, &OTHER_BASES)?;
    Ok(())
}

/// After 32 steps one stage is done, whose record is at 176; so the state begins at 577, and its pc is at 593.
static BASES: [Alteration; 5] = [
    (0, b"D", "save refused 1\n"),
    (7, b"1", "save refused 1\n"),
    (8, b"\0", "save refused 2\n"),
    (176, b"\0", "save refused 3\n"),
    (593, b"\x01", "save refused 3\n"),
];

/// Both commands refuse the base.
fn both_refuse(
    rt: &impl Abort,
    alloc: Global,
    shelf: &mut MemShelf,
    text: &'static str,
) -> Result<(), OutOfMemory> {
    let start = ("delta-start", "1", Status::SaveRefused, text);
    let resume = ("delta-resume", "1", Status::SaveRefused, text);
    pieces(rt, alloc, shelf, &[start, resume])
}

/// Both refuse the altered base, whatever the patch is, and leave it.
fn refuses_base(
    rt: &impl Abort,
    alloc: Global,
    shelf: &mut MemShelf,
    &(at, bytes, text): &Alteration,
) -> Result<(), OutOfMemory> {
    alter(alloc, shelf, "s", at, bytes)?;
    let base = content(alloc, shelf, "s")?;
    both_refuse(rt, alloc, shelf, text)?;
    shelf.set("p", b"")?;
    both_refuse(rt, alloc, shelf, text)?;
    assert_eq!(rt; saves(shelf), 2);
    assert!(rt; holds(shelf, "s", base.as_slice()));
    Ok(())
}

fn refuses_altered_base(
    rt: &impl Abort,
    alloc: Global,
    row: &Alteration,
) -> Result<(), OutOfMemory> {
    let mut shelf = differing(alloc)?;
    refuses_base(rt, alloc, &mut shelf, row)
}

/// A base is refused by both commands as `resume` refuses a save, whatever the patch is.
#[test]
fn bases_are_refused(rt: HostRuntime) -> Result<(), Fail> {
    for row in &BASES {
        refuses_altered_base(&rt, rt.alloc(), row)?;
    }
    Ok(())
}

fn refuses_others(rt: &impl Abort, alloc: Global, shelf: &mut MemShelf) -> Result<(), OutOfMemory> {
    shelf.set("b.bin", b"abd")?;
    both_refuse(rt, alloc, shelf, "save refused 2\n")?;
    shelf.set("b.bin", b"abc")?;
    pieces(
        rt,
        alloc,
        shelf,
        &[("delta-resume", "100", Status::Yes, EQUAL)],
    )
}

#[test]
fn bases_of_others_are_refused(rt: HostRuntime) -> Result<(), Fail> {
    let mut shelf = differing(rt.alloc())?;
    refuses_others(&rt, rt.alloc(), &mut shelf)?;
    Ok(())
}

/// The words after either command.
static WORDS: [&[&str]; 25] = [
    &[],
    &["a.toml", "s", "p", "r"],
    &["a.toml", "s", "p", "1"],
    &["a.toml", "s", "p", "r", "1", "1"],
    // Each is a file word.
    &["", "s", "p", "r", "1"],
    &["a.toml", "", "p", "r", "1"],
    &["a.toml", "s", "", "r", "1"],
    &["a.toml", "s", "p", "", "1"],
    &["a\0", "s", "p", "r", "1"],
    &["a.toml", "s\0", "p", "r", "1"],
    &["a.toml", "s", "p\0", "r", "1"],
    &["a.toml", "s", "p", "r\0", "1"],
    // No two may name the same file.
    &["a.toml", "a.toml", "p", "r", "1"],
    &["a.toml", "s", "a.toml", "r", "1"],
    &["a.toml", "s", "p", "a.toml", "1"],
    &["a.toml", "s", "s", "r", "1"],
    &["a.toml", "s", "p", "s", "1"],
    &["a.toml", "s", "p", "p", "1"],
    &["a.toml", "s", "././s", "r", "1"],
    &["a.toml", "./r", "p", "r", "1"],
    &["./a.toml", "s", "p", "a.toml", "1"],
    // Steps.
    &["a.toml", "s", "p", "r", "0"],
    &["a.toml", "s", "p", "r", "01"],
    &["a.toml", "s", "p", "r", "281474976710657"],
    &["none", "s", "p", "r", ""],
];

fn judges_words(rt: &impl Abort, alloc: Global, shelf: &mut MemShelf) -> Result<(), OutOfMemory> {
    are_usage_of(rt, alloc, shelf, "delta-start", &WORDS)?;
    are_usage_of(rt, alloc, shelf, "delta-resume", &WORDS)?;
    assert!(rt; shelf.calls().is_empty());
    Ok(())
}

/// Nothing is loaded before the words are judged.
#[test]
fn words_are_judged(rt: HostRuntime) -> Result<(), Fail> {
    let mut shelf = audit_shelf(rt.alloc(), "", "")?;
    judges_words(&rt, rt.alloc(), &mut shelf)?;
    Ok(())
}

static OPENINGS: [Opening; 9] = [
    (
        &["none", "s", "p", "r", "1"],
        Status::FileRefused,
        "file refused none absent\n",
        1,
    ),
    (
        &["a.bin", "s", "p", "r", "1"],
        Status::RecipeRefused,
        "recipe refused 1\n",
        1,
    ),
    // The base, the patch or the report is an input, which is judged after the recipe.
    (
        &["a.bin", "b.bin", "copy.elf", "r", "1"],
        Status::RecipeRefused,
        "recipe refused 1\n",
        1,
    ),
    (
        &["a.toml", "b.bin", "p", "r", "1"],
        Status::Usage,
        "usage\n",
        1,
    ),
    (
        &["a.toml", "s", "b.bin", "r", "1"],
        Status::Usage,
        "usage\n",
        1,
    ),
    (
        &["a.toml", "s", "p", "copy.elf", "1"],
        Status::Usage,
        "usage\n",
        1,
    ),
    // So it is after leading `./`.
    (
        &["a.toml", "./b.bin", "p", "r", "1"],
        Status::Usage,
        "usage\n",
        1,
    ),
    (
        &["a.toml", "s", "././a.bin", "r", "1"],
        Status::Usage,
        "usage\n",
        1,
    ),
    (
        &["a.toml", "s", "p", "./copy.elf", "1"],
        Status::Usage,
        "usage\n",
        1,
    ),
];

#[test]
fn recipes_and_names_are_judged(rt: HostRuntime) -> Result<(), Fail> {
    for opening in &OPENINGS {
        opens_worked(&rt, rt.alloc(), "delta-start", opening)?;
        opens_worked(&rt, rt.alloc(), "delta-resume", opening)?;
    }
    Ok(())
}

static WITHOUT_BASE: [Piece; 2] = [
    (
        "delta-start",
        "1",
        Status::FileRefused,
        "file refused s absent\n",
    ),
    (
        "delta-resume",
        "1",
        Status::FileRefused,
        "file refused s absent\n",
    ),
];

static WITHOUT_PATCH: [Piece; 2] = [
    (
        "delta-start",
        "1",
        Status::FileRefused,
        "file refused none absent\n",
    ),
    (
        "delta-resume",
        "1",
        Status::FileRefused,
        "file refused p absent\n",
    ),
];

static WITHOUT_INPUT: [Piece; 1] = [(
    "delta-resume",
    "1",
    Status::FileRefused,
    "file refused none absent\n",
)];

fn loads_in_order(rt: &impl Abort, alloc: Global, shelf: &mut MemShelf) -> Result<(), OutOfMemory> {
    pieces(rt, alloc, shelf, &WITHOUT_BASE)?;
    shelf.set("s", b"")?;
    pieces(rt, alloc, shelf, &WITHOUT_PATCH)?;
    shelf.set("p", b"")?;
    pieces(rt, alloc, shelf, &WITHOUT_INPUT)
}

/// A base that is not there is said before a patch, and that before an input; an input before a base that is no save.
#[test]
fn loads_come_in_order(rt: HostRuntime) -> Result<(), Fail> {
    let mut shelf = audit_shelf(rt.alloc(), "\"a.bin\"", "\"none\"")?;
    loads_in_order(&rt, rt.alloc(), &mut shelf)?;
    Ok(())
}

/// A call by its name, and the limit of a load; a save has none.
static CALLS: [Wanted; 21] = [
    ("a.toml", Some(1_048_576)),
    ("copy.elf", Some(268_435_456)),
    ("copy.hex0", Some(268_435_456)),
    ("a.bin", Some(268_435_456)),
    ("b.bin", Some(268_435_456)),
    ("s", None),
    ("a.toml", Some(1_048_576)),
    ("s", Some(4_294_967_296)),
    ("copy.elf", Some(268_435_456)),
    ("copy.hex0", Some(268_435_456)),
    ("a.bin", Some(268_435_456)),
    ("b.bin", Some(268_435_456)),
    ("p", None),
    ("a.toml", Some(1_048_576)),
    ("s", Some(4_294_967_296)),
    ("p", Some(4_294_967_296)),
    ("copy.elf", Some(268_435_456)),
    ("copy.hex0", Some(268_435_456)),
    ("a.bin", Some(268_435_456)),
    ("b.bin", Some(268_435_456)),
    ("r", None),
];

fn calls_in_order(rt: &impl Abort, alloc: Global, shelf: &mut MemShelf) -> Result<(), OutOfMemory> {
    pieces(
        rt,
        alloc,
        shelf,
        &[("delta-resume", "19", Status::Yes, EQUAL)],
    )?;
    assert!(rt; are_calls(shelf.calls(), &CALLS));
    Ok(())
}

#[test]
fn calls_come_in_order(rt: HostRuntime) -> Result<(), Fail> {
    let mut shelf = differing(rt.alloc())?;
    calls_in_order(&rt, rt.alloc(), &mut shelf)?;
    Ok(())
}
