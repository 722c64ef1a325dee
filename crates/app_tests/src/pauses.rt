//! Audits in segments: the worked recipe, whose two stages take 32 steps each, and that recipe with one change. The expected answers were
//! written down from docs/reference/command-line.md and docs/reference/save.md.

use crate::audits::{REPORT, audit_shelf};
use crate::scenes::{
    Step, Wanted, alter, are_calls, are_usage_of, content, ends, holds, over, over_worked, saves,
    says, says_of,
};
use crate::worked::with;
use ddc_app::Status;
use ddc_base::{Bytes, MemShelf, OutOfMemory};
use std::alloc::Global;
use std::process::Abort;
use std::test::Fail;

/// A command, its steps, its status and its text.
type Piece = (&'static str, &'static str, Status, &'static str);

/// Runs pieces of the audit `a.toml` with the save `s` and the report `r`.
fn pieces(
    rt: &impl Abort,
    alloc: Global,
    shelf: &mut MemShelf,
    rows: &[Piece],
) -> Result<(), OutOfMemory> {
    for &(command, steps, status, text) in rows {
        let words = [command, "a.toml", "s", "r", steps];
        says(rt, alloc, shelf, &words, (status, text))?;
    }
    Ok(())
}

/// The names in the file store that no segment changes.
static OTHERS: [&str; 10] = [
    "exit.elf",
    "copy.elf",
    "copy.hex0",
    "altered.hex0",
    "a.bin",
    "b.bin",
    "abd",
    "ab",
    "abcd",
    "a.toml",
];

/// Whether all other files of the worked file store are unchanged.
fn others_stay(alloc: Global, shelf: &MemShelf) -> Result<bool, OutOfMemory> {
    let fresh = audit_shelf(alloc, "", "")?;
    Ok(OTHERS.iter().all(|name| shelf.get(name) == fresh.get(name)))
}

static PIECES: [&[Piece]; 7] = [
    &[("part", "64", Status::Yes, "equal two bin 3\n")],
    &[("part", "281474976710656", Status::Yes, "equal two bin 3\n")],
    &[
        ("part", "63", Status::Paused, "paused two 31\n"),
        ("resume", "1", Status::Yes, "equal two bin 3\n"),
    ],
    &[
        ("part", "32", Status::Paused, "paused two 0\n"),
        ("resume", "32", Status::Yes, "equal two bin 3\n"),
    ],
    &[
        ("part", "31", Status::Paused, "paused one 31\n"),
        (
            "resume",
            "281474976710656",
            Status::Yes,
            "equal two bin 3\n",
        ),
    ],
    &[
        ("part", "1", Status::Paused, "paused one 1\n"),
        ("resume", "30", Status::Paused, "paused one 31\n"),
        ("resume", "1", Status::Paused, "paused two 0\n"),
        ("resume", "31", Status::Paused, "paused two 31\n"),
        ("resume", "1", Status::Yes, "equal two bin 3\n"),
    ],
    // A save is begun anew.
    &[
        ("part", "63", Status::Paused, "paused two 31\n"),
        ("part", "2", Status::Paused, "paused one 2\n"),
        ("resume", "62", Status::Yes, "equal two bin 3\n"),
    ],
];

/// Runs segments that end in the worked report, which is then true.
fn reports(
    rt: &impl Abort,
    alloc: Global,
    shelf: &mut MemShelf,
    rows: &[Piece],
) -> Result<(), OutOfMemory> {
    pieces(rt, alloc, shelf, rows)?;
    assert!(rt; holds(shelf, "r", REPORT.as_bytes()));
    assert_eq!(rt; shelf.get("s").is_some(), rows.len() > 1);
    assert!(rt; others_stay(alloc, shelf)?);
    let yes = (Status::Yes, "yes\nequal two bin 3\n");
    says(rt, alloc, shelf, &["verify", "a.toml", "r"], yes)
}

fn reports_worked(rt: &impl Abort, alloc: Global, rows: &[Piece]) -> Result<(), OutOfMemory> {
    let mut shelf = audit_shelf(alloc, "", "")?;
    reports(rt, alloc, &mut shelf, rows)
}

#[test]
fn pieces_come_to_the_report(rt: HostRuntime) -> Result<(), Fail> {
    for rows in PIECES {
        reports_worked(&rt, rt.alloc(), rows)?;
    }
    Ok(())
}

/// What is changed in the recipe, into what, the first piece and the second one.
type Change = (&'static str, &'static str, Piece, Piece);

static CHANGES: [Change; 6] = [
    (
        "\"b.bin\"",
        "\"abd\"",
        ("part", "63", Status::Paused, "paused two 31\n"),
        ("resume", "1", Status::Differs, "differs two bin 2 3 3\n"),
    ),
    (
        "steps = 100000",
        "steps = 31",
        ("part", "30", Status::Paused, "paused one 30\n"),
        (
            "resume",
            "1",
            Status::RunFailed,
            "run failed one spent step 31\n",
        ),
    ),
    (
        "\"copy.elf\"",
        "\"exit.elf\"",
        ("part", "2", Status::Paused, "paused one 2\n"),
        (
            "resume",
            "9",
            Status::RunFailed,
            "run failed one no-output step 3\n",
        ),
    ),
    (
        "\"copy.elf\"",
        "\"copy.hex0\"",
        (
            "part",
            "1",
            Status::RunFailed,
            "run failed one start elf 2 step 0\n",
        ),
        (
            "resume",
            "1",
            Status::FileRefused,
            "file refused s absent\n",
        ),
    ),
    (
        "from = \"prog\"",
        "from = \"src\"",
        ("part", "31", Status::Paused, "paused one 31\n"),
        (
            "resume",
            "1",
            Status::CheckFailed,
            "check failed one differs 0\n",
        ),
    ),
    (
        "\ncheck = \"copy_src\"",
        "",
        (
            "part",
            "1",
            Status::RecipeRefused,
            "recipe refused 2 input 1 implements\n",
        ),
        (
            "resume",
            "1",
            Status::RecipeRefused,
            "recipe refused 2 input 1 implements\n",
        ),
    ),
];

fn comes_to(
    rt: &impl Abort,
    alloc: Global,
    shelf: &mut MemShelf,
    first: Piece,
    second: Piece,
) -> Result<(), OutOfMemory> {
    let paused = first.2 == Status::Paused;
    let over = second.2 == Status::Differs;
    pieces(rt, alloc, shelf, &[first])?;
    assert_eq!(rt; shelf.get("s").is_some(), paused);
    assert_eq!(rt; saves(shelf), paused as usize);
    pieces(rt, alloc, shelf, &[second])?;
    assert_eq!(rt; shelf.get("r").is_some(), over);
    assert_eq!(rt; saves(shelf), paused as usize + over as usize);
    Ok(())
}

fn change_comes_to(
    rt: &impl Abort,
    alloc: Global,
    &(old, new, first, second): &Change,
) -> Result<(), OutOfMemory> {
    let mut shelf = audit_shelf(alloc, old, new)?;
    comes_to(rt, alloc, &mut shelf, first, second)
}

/// A pause saves the save alone, 3 the report alone, and a failure nothing.
#[test]
fn pieces_come_to_what_the_audit_does(rt: HostRuntime) -> Result<(), Fail> {
    for change in &CHANGES {
        change_comes_to(&rt, rt.alloc(), change)?;
    }
    Ok(())
}

/// A file store with the audit that paused after so many steps.
fn paused(alloc: Global, steps: &str) -> Result<MemShelf, OutOfMemory> {
    let mut shelf = audit_shelf(alloc, "", "")?;
    match ends(alloc, &mut shelf, &["part", "a.toml", "s", "r", steps])? {
        Status::Paused => Ok(shelf),
        _ => Err(OutOfMemory),
    }
}

/// Where a text is changed, to which bytes, and what is printed.
type Alteration = (usize, &'static [u8], &'static str);

/// After 45 steps one stage is done, whose record is 401 bytes at 176; so the state begins at 577, its pc is at 593, and what is reserved at 849.
static ALTERATIONS: [Alteration; 8] = [
    (0, b"D", "save refused 1\n"),
    (9_193, b"\0", "save refused 1\n"),
    (849, b"\x01", "save refused 1\n"),
    // A save of the first form with a state of the second, and the other way round.
    (7, b"1", "save refused 1\n"),
    (584, b"1", "save refused 1\n"),
    (8, b"\0", "save refused 2\n"),
    (176, b"\0", "save refused 3\n"),
    (593, b"\x01", "save refused 3\n"),
];

/// The altered save is refused.
fn refuses(
    rt: &impl Abort,
    alloc: Global,
    shelf: &mut MemShelf,
    &(at, bytes, text): &Alteration,
) -> Result<(), OutOfMemory> {
    alter(alloc, shelf, "s", at, bytes)?;
    let row = ("resume", "1", Status::SaveRefused, text);
    pieces(rt, alloc, shelf, &[row])?;
    assert_eq!(rt; saves(shelf), 1);
    Ok(())
}

fn refuses_paused(rt: &impl Abort, alloc: Global, row: &Alteration) -> Result<(), OutOfMemory> {
    let mut shelf = paused(alloc, "45")?;
    refuses(rt, alloc, &mut shelf, row)
}

#[test]
fn saves_are_refused(rt: HostRuntime) -> Result<(), Fail> {
    for row in &ALTERATIONS {
        refuses_paused(&rt, rt.alloc(), row)?;
    }
    Ok(())
}

/// A step that ends the audit, one that is refused for another recipe's save, and one for a text that is no save.
const LAST: Piece = ("resume", "1", Status::Yes, "equal two bin 3\n");

const OTHER: Piece = ("resume", "1", Status::SaveRefused, "save refused 2\n");

const NONE: Piece = ("resume", "1", Status::SaveRefused, "save refused 1\n");

/// Adds an LF to the recipe: the same words in other bytes.
fn lengthen_recipe(alloc: Global, shelf: &mut MemShelf) -> Result<(), OutOfMemory> {
    let mut recipe = content(alloc, shelf, "a.toml")?;
    recipe.push(b'\n')?;
    shelf.set("a.toml", recipe.as_slice())
}

fn refuses_others(rt: &impl Abort, alloc: Global, shelf: &mut MemShelf) -> Result<(), OutOfMemory> {
    shelf.set("b.bin", b"abd")?;
    pieces(rt, alloc, shelf, &[OTHER])?;
    shelf.set("b.bin", b"abc")?;
    pieces(rt, alloc, shelf, &[LAST])?;
    lengthen_recipe(alloc, shelf)?;
    pieces(rt, alloc, shelf, &[OTHER])?;
    shelf.set("s", b"")?;
    pieces(rt, alloc, shelf, &[NONE])
}

#[test]
fn saves_of_others_are_refused(rt: HostRuntime) -> Result<(), Fail> {
    let mut shelf = paused(rt.alloc(), "63")?;
    refuses_others(&rt, rt.alloc(), &mut shelf)?;
    Ok(())
}

/// Makes the save one of the first form.
fn make_old(alloc: Global, shelf: &mut MemShelf) -> Result<(), OutOfMemory> {
    let old = without_byte(alloc, shelf.get("s").unwrap_or(&[]), 849)?;
    shelf.set("s", old.as_slice())?;
    alter(alloc, shelf, "s", 7, b"1")?;
    alter(alloc, shelf, "s", 584, b"1")
}

/// A text without the byte at an offset.
fn without_byte(alloc: Global, text: &[u8], at: usize) -> Result<Bytes, OutOfMemory> {
    let mut new = Bytes::from_slice(alloc, text.get(..at).unwrap_or(&[]))?;
    new.extend(text.get(at.saturating_add(1)..).unwrap_or(&[]))?;
    Ok(new)
}

fn resumes_old(rt: &impl Abort, alloc: Global, shelf: &mut MemShelf) -> Result<(), OutOfMemory> {
    make_old(alloc, shelf)?;
    pieces(rt, alloc, shelf, &[LAST])?;
    assert!(rt; holds(shelf, "r", REPORT.as_bytes()));
    Ok(())
}

/// The save as the first form had it: both magics end with another byte, and the byte that says that nothing is reserved is not there.
#[test]
fn an_old_save_is_resumed(rt: HostRuntime) -> Result<(), Fail> {
    let mut shelf = paused(rt.alloc(), "63")?;
    resumes_old(&rt, rt.alloc(), &mut shelf)?;
    Ok(())
}

fn believes(rt: &impl Abort, alloc: Global, shelf: &mut MemShelf) -> Result<(), OutOfMemory> {
    alter(alloc, shelf, "s", 657, &[2, 0])?;
    let equal = ("resume", "1000", Status::Yes, "equal two bin 3\n");
    pieces(rt, alloc, shelf, &[equal])?;
    let wanted = with(alloc, REPORT, "stage two 32", "stage two 43")?;
    assert!(rt; holds(shelf, "r", wanted.as_bytes()));
    let refuted = (Status::Refuted, "refuted run 2\n");
    says(rt, alloc, shelf, &["verify", "a.toml", "r"], refuted)
}

/// After 45 steps x8, at 657, has how many bytes are read at once: of 4,096 it is made 2, so that the loop is taken once more, in 11 steps.
#[test]
fn an_altered_save_is_believed_and_refuted(rt: HostRuntime) -> Result<(), Fail> {
    let mut shelf = paused(rt.alloc(), "45")?;
    believes(&rt, rt.alloc(), &mut shelf)?;
    Ok(())
}

/// The words after either command.
static WORDS: [&[&str]; 22] = [
    &[],
    &["a.toml"],
    &["a.toml", "s"],
    &["a.toml", "s", "r"],
    &["a.toml", "s", "r", "1", "1"],
    // Each is a file word, and no two are equal.
    &["", "s", "r", "1"],
    &["a.toml", "", "r", "1"],
    &["a.toml", "s", "", "1"],
    &["a\0", "s", "r", "1"],
    &["a.toml", "s\0", "r", "1"],
    &["a.toml", "s", "r\0", "1"],
    &["a.toml", "a.toml", "r", "1"],
    &["a.toml", "s", "a.toml", "1"],
    &["a.toml", "s", "s", "1"],
    // Steps.
    &["a.toml", "s", "r", ""],
    &["a.toml", "s", "r", "0"],
    &["a.toml", "s", "r", "01"],
    &["a.toml", "s", "r", "+1"],
    &["a.toml", "s", "r", "1 "],
    &["a.toml", "s", "r", "281474976710657"],
    &["a.toml", "s", "r", "18446744073709551617"],
    &["none", "s", "r", "0"],
];

fn judges_words(rt: &impl Abort, alloc: Global, shelf: &mut MemShelf) -> Result<(), OutOfMemory> {
    are_usage_of(rt, alloc, shelf, "part", &WORDS)?;
    are_usage_of(rt, alloc, shelf, "resume", &WORDS)?;
    assert!(rt; shelf.calls().is_empty());
    Ok(())
}

/// Nothing is loaded before the words are judged.
#[test]
fn words_are_judged(rt: HostRuntime) -> Result<(), Fail> {
    let mut shelf = audit_shelf(rt.alloc(), "", "")?;
    judges_words(&rt, rt.alloc(), &mut shelf)?;
    Ok(())
}

/// Words after either command, their ending, and how many calls were answered.
pub(crate) type Opening = (&'static [&'static str], Status, &'static str, usize);

static OPENINGS: [Opening; 9] = [
    (
        &["none", "s", "r", "1"],
        Status::FileRefused,
        "file refused none absent\n",
        1,
    ),
    (
        &["a.bin", "s", "r", "1"],
        Status::RecipeRefused,
        "recipe refused 1\n",
        1,
    ),
    (
        &["a.bin", "b.bin", "r", "1"],
        Status::RecipeRefused,
        "recipe refused 1\n",
        1,
    ),
    // The save or the report is an input.
    (&["a.toml", "b.bin", "r", "1"], Status::Usage, "usage\n", 1),
    (
        &["a.toml", "s", "copy.elf", "1"],
        Status::Usage,
        "usage\n",
        1,
    ),
    (
        &["a.toml", "a.bin", "b.bin", "1"],
        Status::Usage,
        "usage\n",
        1,
    ),
    // So it is after leading `./`; and words are judged before anything is loaded.
    (
        &["a.toml", "./b.bin", "r", "1"],
        Status::Usage,
        "usage\n",
        1,
    ),
    (
        &["a.toml", "s", "././copy.elf", "1"],
        Status::Usage,
        "usage\n",
        1,
    ),
    (&["a.toml", "s", "./s", "1"], Status::Usage, "usage\n", 0),
];

/// Runs a command with these words, and compares its status, its text and how many calls were answered.
fn opens(
    rt: &impl Abort,
    alloc: Global,
    shelf: &mut MemShelf,
    command: &'static str,
    &(words, status, text, calls): &Opening,
) -> Result<(), OutOfMemory> {
    says_of(rt, alloc, shelf, command, words, (status, text))?;
    assert_eq!(rt; shelf.calls().len(), calls);
    Ok(())
}

pub(crate) fn opens_worked(
    rt: &impl Abort,
    alloc: Global,
    command: &'static str,
    opening: &Opening,
) -> Result<(), OutOfMemory> {
    let mut shelf = audit_shelf(alloc, "", "")?;
    opens(rt, alloc, &mut shelf, command, opening)
}

#[test]
fn recipes_and_names_are_judged(rt: HostRuntime) -> Result<(), Fail> {
    for opening in &OPENINGS {
        opens_worked(&rt, rt.alloc(), "part", opening)?;
        opens_worked(&rt, rt.alloc(), "resume", opening)?;
    }
    Ok(())
}

static ABSENT: [Step; 4] = [
    Step::Run(
        &["part", "a.toml", "s", "r", "1"],
        Status::FileRefused,
        "file refused none absent\n",
    ),
    Step::Run(
        &["resume", "a.toml", "s", "r", "1"],
        Status::FileRefused,
        "file refused s absent\n",
    ),
    Step::Set("s", ""),
    Step::Run(
        &["resume", "a.toml", "s", "r", "1"],
        Status::FileRefused,
        "file refused none absent\n",
    ),
];

/// An absent input is answered before a save that is invalid, and after a save that is absent.
#[test]
fn saves_are_loaded_before_inputs(rt: HostRuntime) -> Result<(), Fail> {
    over(&rt, rt.alloc(), ("\"a.bin\"", "\"none\""), &ABSENT)?;
    Ok(())
}

/// The recipe is load 1 of `part`, and the inputs are loads 2 to 5.
static PART_LOADS: [(u64, &str); 5] = [
    (1, "shelf fault a.toml\n"),
    (2, "shelf fault copy.elf\n"),
    (3, "shelf fault copy.hex0\n"),
    (4, "shelf fault a.bin\n"),
    (5, "shelf fault b.bin\n"),
];

/// A load of `part` fails, and the same call again continues.
fn part_load_passes(
    rt: &impl Abort,
    alloc: Global,
    shelf: &mut MemShelf,
    load: u64,
    text: &'static str,
) -> Result<(), OutOfMemory> {
    shelf.fail_load(load)?;
    pieces(
        rt,
        alloc,
        shelf,
        &[("part", "63", Status::ShelfFault, text)],
    )?;
    assert_eq!(rt; saves(shelf), 0);
    pieces(rt, alloc, shelf, PIECES[2])
}

fn part_loads_pass(
    rt: &impl Abort,
    alloc: Global,
    load: u64,
    text: &'static str,
) -> Result<(), OutOfMemory> {
    let mut shelf = audit_shelf(alloc, "", "")?;
    part_load_passes(rt, alloc, &mut shelf, load, text)
}

/// The save of this number fails in a piece, and the other files stay.
fn fault_stays(
    rt: &impl Abort,
    alloc: Global,
    shelf: &mut MemShelf,
    save: u64,
    piece: Piece,
) -> Result<(), OutOfMemory> {
    shelf.fail_save(save)?;
    pieces(rt, alloc, shelf, &[piece])?;
    assert!(rt; others_stay(alloc, shelf)?);
    Ok(())
}

fn part_save_passes(rt: &impl Abort, alloc: Global, piece: Piece) -> Result<(), OutOfMemory> {
    let mut shelf = audit_shelf(alloc, "", "")?;
    fault_stays(rt, alloc, &mut shelf, 1, piece)?;
    pieces(rt, alloc, &mut shelf, PIECES[2])
}

/// The pieces whose save fails.
static PART_SAVES: [Piece; 2] = [
    ("part", "63", Status::ShelfFault, "shelf fault s\n"),
    ("part", "64", Status::ShelfFault, "shelf fault r\n"),
];

#[test]
fn faults_of_part_are_reported_and_pass(rt: HostRuntime) -> Result<(), Fail> {
    for (load, text) in PART_LOADS {
        part_loads_pass(&rt, rt.alloc(), load, text)?;
    }
    for piece in PART_SAVES {
        part_save_passes(&rt, rt.alloc(), piece)?;
    }
    Ok(())
}

/// After the five loads of `part` the recipe is load 6, the save load 7, and the inputs are loads 8 to 11.
static RESUME_LOADS: [(u64, &str); 6] = [
    (6, "shelf fault a.toml\n"),
    (7, "shelf fault s\n"),
    (8, "shelf fault copy.elf\n"),
    (9, "shelf fault copy.hex0\n"),
    (10, "shelf fault a.bin\n"),
    (11, "shelf fault b.bin\n"),
];

/// A load of `resume` fails, and the same call again continues.
fn resume_load_passes(
    rt: &impl Abort,
    alloc: Global,
    shelf: &mut MemShelf,
    load: u64,
    text: &'static str,
) -> Result<(), OutOfMemory> {
    shelf.fail_load(load)?;
    pieces(
        rt,
        alloc,
        shelf,
        &[("resume", "1", Status::ShelfFault, text)],
    )?;
    assert_eq!(rt; saves(shelf), 1);
    pieces(rt, alloc, shelf, &[LAST])
}

fn resume_loads_pass(
    rt: &impl Abort,
    alloc: Global,
    load: u64,
    text: &'static str,
) -> Result<(), OutOfMemory> {
    let mut shelf = paused(alloc, "63")?;
    resume_load_passes(rt, alloc, &mut shelf, load, text)
}

fn resume_save_stays(rt: &impl Abort, alloc: Global, piece: Piece) -> Result<(), OutOfMemory> {
    let mut shelf = paused(alloc, "1")?;
    fault_stays(rt, alloc, &mut shelf, 2, piece)
}

/// The pieces whose save fails.
static RESUME_SAVES: [Piece; 2] = [
    ("resume", "1", Status::ShelfFault, "shelf fault s\n"),
    ("resume", "63", Status::ShelfFault, "shelf fault r\n"),
];

#[test]
fn faults_of_resume_are_reported_and_pass(rt: HostRuntime) -> Result<(), Fail> {
    for (load, text) in RESUME_LOADS {
        resume_loads_pass(&rt, rt.alloc(), load, text)?;
    }
    for piece in RESUME_SAVES {
        resume_save_stays(&rt, rt.alloc(), piece)?;
    }
    Ok(())
}

static UNHEARD: [Step; 2] = [
    Step::Unheard(&["part", "a.toml", "s", "r", "63"]),
    Step::Run(
        &["resume", "a.toml", "s", "r", "1"],
        Status::Yes,
        "equal two bin 3\n",
    ),
];

#[test]
fn a_failed_put_leaves_what_was_saved(rt: HostRuntime) -> Result<(), Fail> {
    over_worked(&rt, rt.alloc(), &UNHEARD)?;
    Ok(())
}

static CALLS: [Wanted; 13] = [
    ("a.toml", Some(1_048_576)),
    ("copy.elf", Some(268_435_456)),
    ("copy.hex0", Some(268_435_456)),
    ("a.bin", Some(268_435_456)),
    ("b.bin", Some(268_435_456)),
    ("s", None),
    ("a.toml", Some(1_048_576)),
    ("s", Some(4_294_967_296)),
    ("copy.elf", Some(268_435_456)),
    ("copy.hex0", Some(268_435_456)),
    ("a.bin", Some(268_435_456)),
    ("b.bin", Some(268_435_456)),
    ("r", None),
];

fn calls_in_order(rt: &impl Abort, alloc: Global, shelf: &mut MemShelf) -> Result<(), OutOfMemory> {
    pieces(rt, alloc, shelf, PIECES[2])?;
    assert!(rt; are_calls(shelf.calls(), &CALLS));
    Ok(())
}

#[test]
fn calls_come_in_order(rt: HostRuntime) -> Result<(), Fail> {
    let mut shelf = audit_shelf(rt.alloc(), "", "")?;
    calls_in_order(&rt, rt.alloc(), &mut shelf)?;
    Ok(())
}
