//! Files that are cut, and calls of the outside that fail, each with the same call again on what it left. The expected answers were written
//! down from docs/reference/command-line.md.

use crate::audits::{REPORT, audit_shelf};
use crate::scenes::holds;
use ddc_app::Status;
use ddc_base::{Bytes, MemShelf, MemSink, OutOfMemory};
use prompt::MemPrompt;
use std::alloc::Global;
use std::process::Abort;
use std::test::Fail;
use wheeler::Assembly;

/// What a session is asked: the first line's reply is the put that fails, and the second line is left for the same call again.
const LINES: &[u8] = b"where\nwhere\n";

/// A status and a text.
type Answer = (Status, &'static str);

/// Runs words with a standard input, and compares their status and text.
fn says(
    rt: &impl Abort,
    alloc: Global,
    shelf: &mut MemShelf,
    words: &[&str],
    (status, text): Answer,
) -> Result<(), OutOfMemory> {
    let mut out = MemSink::new(alloc);
    let mut prompt = MemPrompt::new(alloc, LINES)?;
    assert_eq!(rt;
        ddc_app::run::<Assembly, _, _, _>(alloc, words, shelf, &mut out, &mut prompt),
        status
    );
    assert_eq!(rt; out.written(), text.as_bytes(), "{words:?}");
    Ok(())
}

/// The worked report, and what the worked recipe's audit says.
const EQUAL: Answer = (Status::Yes, "equal two bin 3\n");

/// Makes a piece of the audit, and sets the report.
fn add_save(
    rt: &impl Abort,
    alloc: Global,
    shelf: &mut MemShelf,
    steps: &str,
) -> Result<(), OutOfMemory> {
    says(
        rt,
        alloc,
        shelf,
        &["part", "a.toml", "s", "r", steps],
        PAUSED,
    )?;
    shelf.set("r", REPORT.as_bytes())
}

/// The worked files, with the report and, where steps are named, the save of a piece of the audit.
fn shelf_with(rt: &impl Abort, alloc: Global, steps: &str) -> Result<MemShelf, OutOfMemory> {
    let mut shelf = audit_shelf(alloc, "", "")?;
    add_save(rt, alloc, &mut shelf, steps)?;
    Ok(shelf)
}

const PAUSED: Answer = (Status::Paused, "paused two 31\n");

/// The text's first lines, so many of them.
fn first_lines(alloc: Global, text: &str, count: usize) -> Result<Bytes, OutOfMemory> {
    let mut cut = Bytes::new(alloc);
    for line in text.lines().take(count) {
        cut.extend(line.as_bytes())?;
        cut.push(b'\n')?;
    }
    Ok(cut)
}

/// The worked report has 22 lines. Of its first n - 1 lines, whole or with a part of the next, line n is the first that begins no report.
static REFUSED: [&str; 22] = [
    "report line 1\n",
    "report line 2\n",
    "report line 3\n",
    "report line 4\n",
    "report line 5\n",
    "report line 6\n",
    "report line 7\n",
    "report line 8\n",
    "report line 9\n",
    "report line 10\n",
    "report line 11\n",
    "report line 12\n",
    "report line 13\n",
    "report line 14\n",
    "report line 15\n",
    "report line 16\n",
    "report line 17\n",
    "report line 18\n",
    "report line 19\n",
    "report line 20\n",
    "report line 21\n",
    "report line 22\n",
];

/// Shows and replays a text as the report.
fn refuses(
    rt: &impl Abort,
    alloc: Global,
    shelf: &mut MemShelf,
    report: &[u8],
    text: &'static str,
) -> Result<(), OutOfMemory> {
    let refused = (Status::ReportRefused, text);
    shelf.set("r", report)?;
    says(rt, alloc, shelf, &["show", "r"], refused)?;
    says(rt, alloc, shelf, &["verify", "a.toml", "r"], refused)
}

/// Tries so many lines of the report, and then a part of the next line, without its end.
fn refuses_cut(
    rt: &impl Abort,
    alloc: Global,
    shelf: &mut MemShelf,
    whole: usize,
    text: &'static str,
) -> Result<(), OutOfMemory> {
    let mut cut = first_lines(alloc, REPORT, whole)?;
    refuses(rt, alloc, shelf, cut.as_slice(), text)?;
    cut.extend(part_of(REPORT.as_bytes(), cut.len()))?;
    refuses(rt, alloc, shelf, cut.as_slice(), text)
}

/// Two bytes from an offset on.
fn part_of(text: &[u8], at: usize) -> &[u8] {
    text.get(at..at.saturating_add(2)).unwrap_or(b"")
}

#[test]
fn cut_reports_are_refused_at_their_line(rt: HostRuntime) -> Result<(), Fail> {
    assert_eq!(&rt; REPORT.lines().count(), REFUSED.len());
    let mut shelf = audit_shelf(rt.alloc(), "", "")?;
    for (whole, text) in REFUSED.iter().enumerate() {
        refuses_cut(&rt, rt.alloc(), &mut shelf, whole, text)?;
    }
    Ok(())
}

/// Resumes from the first bytes of a save.
fn refuses_save(
    rt: &impl Abort,
    alloc: Global,
    shelf: &mut MemShelf,
    save: &[u8],
) -> Result<(), OutOfMemory> {
    shelf.set("s", save)?;
    let words = ["resume", "a.toml", "s", "r", "1"];
    let refused = (Status::SaveRefused, "save refused 1\n");
    says(rt, alloc, shelf, &words, refused)?;
    assert!(rt; shelf.get("r").is_none());
    Ok(())
}

/// Resumes from the beginnings of a save that are shorter than 40 bytes.
fn refuses_saves(rt: &impl Abort, alloc: Global, save: &[u8]) -> Result<(), OutOfMemory> {
    let mut shelf = audit_shelf(alloc, "", "")?;
    for size in 0..40 {
        refuses_save(rt, alloc, &mut shelf, save.get(..size).unwrap_or(save))?;
    }
    Ok(())
}

/// A save's first field has 8 bytes, and its second the recipe's digest of 32.
#[test]
fn saves_that_end_in_the_digest_are_refused(rt: HostRuntime) -> Result<(), Fail> {
    let whole = shelf_with(&rt, rt.alloc(), "63")?;
    refuses_saves(&rt, rt.alloc(), whole.get("s").unwrap_or(b""))?;
    Ok(())
}

/// The recipe is load 1, and the inputs are loads 2 to 5.
static LOADS: [(u64, &str); 5] = [
    (1, "shelf fault a.toml\n"),
    (2, "shelf fault copy.elf\n"),
    (3, "shelf fault copy.hex0\n"),
    (4, "shelf fault a.bin\n"),
    (5, "shelf fault b.bin\n"),
];

/// Whether two file stores hold the same under each of these names.
fn are_alike(one: &MemShelf, other: &MemShelf, names: &[&str]) -> bool {
    names.iter().all(|name| one.get(name) == other.get(name))
}

static NAMES: [&str; 9] = [
    "a.toml",
    "copy.elf",
    "copy.hex0",
    "a.bin",
    "b.bin",
    "altered.hex0",
    "exit.elf",
    "r",
    "s",
];

/// Makes the audit again over what a failed load left.
fn load_passes(
    rt: &impl Abort,
    alloc: Global,
    shelf: &mut MemShelf,
    (load, text): (u64, &'static str),
    fresh: &MemShelf,
) -> Result<(), OutOfMemory> {
    let words = ["audit", "a.toml", "r"];
    shelf.fail_load(load)?;
    says(rt, alloc, shelf, &words, (Status::ShelfFault, text))?;
    assert!(rt; are_alike(shelf, fresh, &NAMES));
    says(rt, alloc, shelf, &words, EQUAL)?;
    assert!(rt; holds(shelf, "r", REPORT.as_bytes()));
    Ok(())
}

fn failed_load_passes(
    rt: &impl Abort,
    alloc: Global,
    load: (u64, &'static str),
    fresh: &MemShelf,
) -> Result<(), OutOfMemory> {
    let mut shelf = audit_shelf(alloc, "", "")?;
    load_passes(rt, alloc, &mut shelf, load, fresh)
}

#[test]
fn a_failed_load_of_an_audit_passes(rt: HostRuntime) -> Result<(), Fail> {
    let fresh = audit_shelf(rt.alloc(), "", "")?;
    for load in LOADS {
        failed_load_passes(&rt, rt.alloc(), load, &fresh)?;
    }
    Ok(())
}

/// Makes the audit again over what a failed save left.
fn save_passes(
    rt: &impl Abort,
    alloc: Global,
    shelf: &mut MemShelf,
    fresh: &MemShelf,
) -> Result<(), OutOfMemory> {
    let words = ["audit", "a.toml", "r"];
    shelf.fail_save(1)?;
    says(
        rt,
        alloc,
        shelf,
        &words,
        (Status::ShelfFault, "shelf fault r\n"),
    )?;
    assert!(rt; are_alike(shelf, fresh, &NAMES[..7]));
    assert!(rt; shelf.get("s").is_none());
    says(rt, alloc, shelf, &words, EQUAL)?;
    assert!(rt; holds(shelf, "r", REPORT.as_bytes()));
    Ok(())
}

fn failed_save_passes(rt: &impl Abort, alloc: Global, fresh: &MemShelf) -> Result<(), OutOfMemory> {
    let mut shelf = audit_shelf(alloc, "", "")?;
    save_passes(rt, alloc, &mut shelf, fresh)
}

#[test]
fn a_failed_save_of_an_audit_passes(rt: HostRuntime) -> Result<(), Fail> {
    let fresh = audit_shelf(rt.alloc(), "", "")?;
    failed_save_passes(&rt, rt.alloc(), &fresh)?;
    Ok(())
}

/// A call of each command, its status and its text.
type Call = (&'static [&'static str], Status, &'static str);

static GOOD: [Call; 12] = [
    (
        &["hex0", "copy.hex0", "copy.elf"],
        Status::Yes,
        "equal 232\n",
    ),
    (
        &["asm", "hex0", "0", "copy.hex0", "made"],
        Status::Yes,
        "made 232\n",
    ),
    (&["list", "a.bin"], Status::Yes, "00000000 rest 616263\n"),
    (
        &["run", "exit.elf", "10"],
        Status::Yes,
        "exited 0 step 3\n\
         stream 1 0 e3b0c44298fc1c149afbf4c8996fb92427ae41e4649b934ca495991b7852b855\n\
         stream 2 0 e3b0c44298fc1c149afbf4c8996fb92427ae41e4649b934ca495991b7852b855\n",
    ),
    (&["audit", "a.toml", "r"], Status::Yes, "equal two bin 3\n"),
    (
        &["part", "a.toml", "t", "r", "63"],
        Status::Paused,
        "paused two 31\n",
    ),
    (
        &["resume", "a.toml", "s", "r", "1"],
        Status::Yes,
        "equal two bin 3\n",
    ),
    (
        &["verify", "a.toml", "r"],
        Status::Yes,
        "yes\nequal two bin 3\n",
    ),
    (&["show", "r"], Status::Yes, REPORT),
    (
        &["step", "a.toml", "two"],
        Status::Yes,
        "at 0 0000000000010078 addi x10, x0, -100\n",
    ),
    (
        &["left", "a.toml", "two", "out", "o"],
        Status::Yes,
        "left two out 3 status 0 step 32\n",
    ),
    (&["demo", "5"], Status::Yes, "demo 5 steps 64 equal yes\n"),
];

/// Runs words twice with one output and one input, of which the first put fails.
fn passes(
    rt: &impl Abort,
    alloc: Global,
    shelf: &mut MemShelf,
    &(words, status, text): &Call,
) -> Result<(), OutOfMemory> {
    let mut out = MemSink::new(alloc);
    out.fail_put(1)?;
    let mut prompt = MemPrompt::new(alloc, LINES)?;
    says_again(
        rt,
        alloc,
        shelf,
        (&mut out, &mut prompt),
        words,
        (status, text),
    );
    Ok(())
}

/// The same with these.
fn says_again(
    rt: &impl Abort,
    alloc: Global,
    shelf: &mut MemShelf,
    (out, prompt): (&mut MemSink, &mut MemPrompt),
    words: &[&str],
    (status, text): Answer,
) {
    let failed = ddc_app::run::<Assembly, _, _, _>(alloc, words, shelf, out, prompt);
    assert_eq!(rt; failed, Status::OutFault);
    let half = text.as_bytes().get(..text.len() / 2).unwrap_or(b"");
    assert_eq!(rt; out.written(), half);
    let passed = ddc_app::run::<Assembly, _, _, _>(alloc, words, shelf, out, prompt);
    assert_eq!(rt; passed, status);
    let whole = out.written().get(half.len()..).unwrap_or(b"");
    assert_eq!(rt; whole, text.as_bytes());
}

fn failed_put_passes(rt: &impl Abort, alloc: Global, call: &Call) -> Result<(), OutOfMemory> {
    let mut shelf = shelf_with(rt, alloc, "63")?;
    passes(rt, alloc, &mut shelf, call)
}

/// The first write fails after half of its piece; the same call on the same file store, output and input then has its good answer.
#[test]
fn a_failed_put_passes(rt: HostRuntime) -> Result<(), Fail> {
    for call in &GOOD {
        failed_put_passes(&rt, rt.alloc(), call)?;
    }
    Ok(())
}
