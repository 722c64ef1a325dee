//! Sessions of `step` over the worked recipe, whose two stages take 32 steps each, and `demo`. What they print was written down from
//! docs/reference/step.md and docs/reference/command-line.md, and what stands at an address from the listing of copy.elf.

use crate::audits::audit_shelf;
use crate::scenes::are_calls;
use crate::worked::EXIT;
use ddc_app::Status;
use ddc_base::{Bytes, MemShelf, MemSink, OutOfMemory};
use prompt::MemPrompt;
use std::alloc::Global;
use std::process::Abort;
use std::test::Fail;
use wheeler::Assembly;

/// The words of the worked session.
const WORDS: [&str; 3] = ["step", "a.toml", "two"];

/// Its lines.
const LINES: &str = "step 13\nwhere\nmem 100e0 3\nback 13\ngo\n";

/// Its replies.
const REPLIES: [&str; 5] = [
    "at 13 00000000000100ac addi x10, x0, 3\n",
    "at 13 00000000000100ac addi x10, x0, 3\n",
    "696e00\n",
    "at 0 0000000000010078 addi x10, x0, -100\n",
    "end exited 0 step 32\n",
];

/// The top call with a standard input.
fn run(
    alloc: Global,
    words: &[&str],
    shelf: &mut MemShelf,
    out: &mut MemSink,
    prompt: &mut MemPrompt,
) -> Status {
    ddc_app::run::<Assembly, _, _, _>(alloc, words, shelf, out, prompt)
}

/// Whether these are the pieces that were put.
fn are_pieces(found: &[Bytes], wanted: &[&str]) -> bool {
    found.len() == wanted.len()
        && found
            .iter()
            .zip(wanted)
            .all(|(piece, text)| piece.as_slice() == text.as_bytes())
}

/// A session: its words, its lines, which line and which write fail, its status, its replies, and what is left.
#[derive(Clone, Copy)]
struct Talk<'t> {
    words: &'t [&'t str],
    lines: &'t [u8],
    failing_line: u64,
    failing_put: u64,
    status: Status,
    replies: &'t [&'t str],
    unread: &'t [u8],
}

/// Holds a session on a file store.
fn holds_talk(
    rt: &impl Abort,
    alloc: Global,
    shelf: &mut MemShelf,
    talk: &Talk<'_>,
) -> Result<(), OutOfMemory> {
    let mut out = MemSink::new(alloc);
    out.fail_put(talk.failing_put)?;
    let mut prompt = MemPrompt::new(alloc, talk.lines)?;
    prompt.fail_line(talk.failing_line)?;
    let status = run(alloc, talk.words, shelf, &mut out, &mut prompt);
    comes_to(rt, talk, status, &out, &prompt);
    Ok(())
}

/// Compares how a session ended.
fn comes_to(rt: &impl Abort, talk: &Talk<'_>, status: Status, out: &MemSink, prompt: &MemPrompt) {
    assert_eq!(rt; status, talk.status);
    assert!(rt; are_pieces(out.pieces(), talk.replies), "{:?}", talk.words);
    assert_eq!(rt; prompt.unread(), talk.unread);
}

/// Holds a session over the worked files, whose recipe has a piece changed.
fn talks_over(
    rt: &impl Abort,
    alloc: Global,
    (old, new): (&str, &str),
    talk: &Talk<'_>,
) -> Result<(), OutOfMemory> {
    let mut shelf = audit_shelf(alloc, old, new)?;
    holds_talk(rt, alloc, &mut shelf, talk)
}

/// Holds a session in which nothing fails.
fn talks(
    rt: &impl Abort,
    alloc: Global,
    stage: &str,
    lines: &[u8],
    replies: &[&str],
    unread: &[u8],
) -> Result<(), OutOfMemory> {
    let talk = Talk {
        words: &["step", "a.toml", stage],
        lines,
        failing_line: 0,
        failing_put: 0,
        status: Status::Yes,
        replies,
        unread,
    };
    talks_over(rt, alloc, ("", ""), &talk)
}

/// A session's stage, its lines, and its replies. All its lines are taken.
type Row = (&'static str, &'static str, &'static [&'static str]);

static ROWS: [Row; 9] = [
    ("two", LINES, &REPLIES),
    // no line, and a line without a reply
    ("two", "", &[]),
    ("two", "quit\n", &[]),
    ("two", "quit", &[]),
    // the last line has no LF, and a line may be empty
    (
        "one",
        "where",
        &["at 0 0000000000010078 addi x10, x0, -100\n"],
    ),
    ("one", "\n", &["unknown\n"]),
    // stage `one` reads 232 bytes of its copier
    (
        "one",
        "step 18\nregs\nstep 1\nmem 100e3 4\n",
        &[
            "at 18 00000000000100c0 beq x10, x0, 00000000000100d8\n",
            "00000000000100c0 0000000000000000 0000003fffffffc0 0000000000000000 \
0000000000000000 0000000000000000 0000000000000000 0000000000000000 \
0000000000001000 0000003fffffefc0 00000000000000e8 0000003fffffefc0 \
0000000000001000 0000000000000000 0000000000000000 0000000000000000 \
0000000000000000 000000000000003f 0000000000000000 0000000000000000 \
0000000000000000 0000000000000000 0000000000000000 0000000000000000 \
0000000000000000 0000000000000000 0000000000000000 0000000000000000 \
0000000000000000 0000000000000000 0000000000000000 0000000000000000\n",
            "at 19 00000000000100c4 addi x12, x10, 0\n",
            "6f757400\n",
        ],
    ),
    // a break is met twice, then the program ends, and the session continues
    (
        "two",
        "break 100ac\ngo\ngo\ngo\nwhere\nback 31\nback 1\nbreak 0\n",
        &[
            "break 00000000000100ac\n",
            "at 13 00000000000100ac addi x10, x0, 3\n",
            "at 24 00000000000100ac addi x10, x0, 3\n",
            "end exited 0 step 32\n",
            "at 31 00000000000100dc ecall\n",
            "at 0 0000000000010078 addi x10, x0, -100\n",
            "no such step\n",
            "break 0000000000000000\n",
        ],
    ),
    (
        "two",
        "step 01\nstep 0\nmem 0 1\nStep 1\n step 1\n",
        &[
            "unknown\n",
            "unknown\n",
            "unmapped\n",
            "unknown\n",
            "unknown\n",
        ],
    ),
];

#[test]
fn stages_are_stepped_through(rt: HostRuntime) -> Result<(), Fail> {
    for &(stage, lines, replies) in &ROWS {
        talks(&rt, rt.alloc(), stage, lines.as_bytes(), replies, &[])?;
    }
    Ok(())
}

/// After `quit` no line is asked for.
#[test]
fn nothing_is_read_after_the_end(rt: HostRuntime) -> Result<(), Fail> {
    let reply = "at 0 0000000000010078 addi x10, x0, -100\n";
    talks(
        &rt,
        rt.alloc(),
        "two",
        b"where\nquit\nwhere\n",
        &[reply],
        b"where\n",
    )?;
    Ok(())
}

/// Bytes of one value, so many of them, and then a text.
fn filled(alloc: Global, count: u32, text: &str) -> Result<Bytes, OutOfMemory> {
    let mut bytes = Bytes::new(alloc);
    for _ in 0..count {
        bytes.push(b'w')?;
    }
    bytes.extend(text.as_bytes())?;
    Ok(bytes)
}

/// How many bytes the line has, and the replies.
static LONG: [(u32, &[&str]); 5] = [
    (256, &["unknown\n"]),
    (257, &["unknown\n"]),
    (65_535, &["unknown\n"]),
    (65_536, &["unknown\n", "unknown\n"]),
    (65_537, &["unknown\n", "unknown\n"]),
];

fn long_line(
    rt: &impl Abort,
    alloc: Global,
    count: u32,
    replies: &[&str],
) -> Result<(), OutOfMemory> {
    let lines = filled(alloc, count, "\nquit\nwhere\n")?;
    talks(rt, alloc, "two", lines.as_slice(), replies, b"where\n")
}

/// A line of 256 bytes is one, and so is a longer one, of which at most 65,536 bytes are taken; what is left of it is the next line.
#[test]
fn long_lines_are_one_line(rt: HostRuntime) -> Result<(), Fail> {
    for (count, replies) in LONG {
        long_line(&rt, rt.alloc(), count, replies)?;
    }
    Ok(())
}

/// So many lines that are no command.
fn unknown_lines(alloc: Global, count: u32) -> Result<Bytes, OutOfMemory> {
    let mut lines = Bytes::new(alloc);
    for _ in 0..count {
        lines.extend(b"?\n")?;
    }
    Ok(lines)
}

/// Holds a session over these lines, of which the last one fails.
fn answers_lines(
    rt: &impl Abort,
    alloc: Global,
    shelf: &mut MemShelf,
    lines: &[u8],
) -> Result<(), OutOfMemory> {
    let mut out = MemSink::new(alloc);
    let mut prompt = MemPrompt::new(alloc, lines)?;
    prompt.fail_line(65_537)?;
    let status = run(alloc, &WORDS, shelf, &mut out, &mut prompt);
    assert_eq!(rt; status, Status::Yes);
    assert_eq!(rt; out.pieces().len(), 65_536);
    assert_eq!(rt; prompt.unread(), b"?\n".as_slice());
    Ok(())
}

fn answers_worked(rt: &impl Abort, alloc: Global, lines: &[u8]) -> Result<(), OutOfMemory> {
    let mut shelf = audit_shelf(alloc, "", "")?;
    answers_lines(rt, alloc, &mut shelf, lines)
}

/// A session answers 65,536 lines, and asks for no further one.
#[test]
fn a_session_has_so_many_lines(rt: HostRuntime) -> Result<(), Fail> {
    let lines = unknown_lines(rt.alloc(), 65_537)?;
    answers_worked(&rt, rt.alloc(), lines.as_slice())?;
    Ok(())
}

/// The call that fails, how many replies are said, and what is left.
static FAILED_LINES: [(u64, usize, &str); 7] = [
    (1, 0, " 13\nwhere\nmem 100e0 3\nback 13\ngo\n"),
    (2, 1, "re\nmem 100e0 3\nback 13\ngo\n"),
    (3, 2, "0e0 3\nback 13\ngo\n"),
    (4, 3, " 13\ngo\n"),
    (5, 4, "o\n"),
    (6, 5, ""),
    (7, 5, ""),
];

fn failed_line(
    rt: &impl Abort,
    alloc: Global,
    failing: u64,
    reported: usize,
    unread: &str,
) -> Result<(), OutOfMemory> {
    let status = if failing < 7 {
        Status::OutFault
    } else {
        Status::Yes
    };
    let talk = Talk {
        words: &WORDS,
        lines: LINES.as_bytes(),
        failing_line: failing,
        failing_put: 0,
        status,
        replies: REPLIES.get(..reported).unwrap_or(&[]),
        unread: unread.as_bytes(),
    };
    talks_over(rt, alloc, ("", ""), &talk)
}

/// Each line of the worked session fails in turn; the sixth call finds nothing left, and there is no seventh. A call that fails takes half
/// of its bytes.
#[test]
fn a_failed_line_ends_the_session(rt: HostRuntime) -> Result<(), Fail> {
    for (failing, reported, unread) in FAILED_LINES {
        failed_line(&rt, rt.alloc(), failing, reported, unread)?;
    }
    Ok(())
}

/// The put that fails, how many replies are said, and what is left.
static FAILED_PUTS: [(u64, usize, &str); 5] = [
    (1, 0, "where\nmem 100e0 3\nback 13\ngo\n"),
    (2, 1, "mem 100e0 3\nback 13\ngo\n"),
    (3, 2, "back 13\ngo\n"),
    (4, 3, "go\n"),
    (5, 4, ""),
];

fn failed_put(
    rt: &impl Abort,
    alloc: Global,
    failing: u64,
    reported: usize,
    unread: &str,
) -> Result<(), OutOfMemory> {
    let talk = Talk {
        words: &WORDS,
        lines: LINES.as_bytes(),
        failing_line: 0,
        failing_put: failing,
        status: Status::OutFault,
        replies: REPLIES.get(..reported).unwrap_or(&[]),
        unread: unread.as_bytes(),
    };
    talks_over(rt, alloc, ("", ""), &talk)
}

/// Each put of the worked session fails in turn, after half of its reply; the lines so far are taken, and no further one.
#[test]
fn a_failed_put_ends_the_session(rt: HostRuntime) -> Result<(), Fail> {
    for (failing, reported, unread) in FAILED_PUTS {
        failed_put(&rt, rt.alloc(), failing, reported, unread)?;
    }
    Ok(())
}

/// What a command says in one text, with a standard input that is not read.
fn says(
    rt: &impl Abort,
    alloc: Global,
    shelf: &mut MemShelf,
    words: &[&str],
    (status, text): (Status, &str),
) -> Result<(), OutOfMemory> {
    let talk = Talk {
        words,
        lines: b"where\n",
        failing_line: 1,
        failing_put: 0,
        status,
        replies: &[text],
        unread: b"where\n",
    };
    holds_talk(rt, alloc, shelf, &talk)
}

/// The load of a number fails, which is that of a name.
fn names_load(
    rt: &impl Abort,
    alloc: Global,
    shelf: &mut MemShelf,
    words: &[&str],
    (load, name): (u64, &str),
) -> Result<(), OutOfMemory> {
    shelf.fail_load(load)?;
    let text = format!(in alloc; "shelf fault {name}\n")?;
    says(rt, alloc, shelf, words, (Status::ShelfFault, text.as_str()))
}

fn names_worked_load(
    rt: &impl Abort,
    alloc: Global,
    words: &[&str],
    load: (u64, &str),
) -> Result<(), OutOfMemory> {
    let mut shelf = audit_shelf(alloc, "", "")?;
    names_load(rt, alloc, &mut shelf, words, load)
}

/// The recipe is load 1, and the inputs are loads 2 to 5.
#[test]
fn a_failed_load_begins_no_session(rt: HostRuntime) -> Result<(), Fail> {
    let names = ["a.toml", "copy.elf", "copy.hex0", "a.bin", "b.bin"];
    for load in (1u64..).zip(names) {
        names_worked_load(&rt, rt.alloc(), &WORDS, load)?;
    }
    Ok(())
}

/// What is changed in the recipe, into what, the stage, and the status and the text where no session begins.
type Refusal = (
    &'static str,
    &'static str,
    &'static str,
    Status,
    &'static str,
);

static REFUSALS: [Refusal; 13] = [
    // a stage is named by its name alone
    ("", "", "three", Status::Usage, "usage\n"),
    ("", "", "", Status::Usage, "usage\n"),
    ("", "", "prog", Status::Usage, "usage\n"),
    ("", "", "Two", Status::Usage, "usage\n"),
    ("", "", "tw", Status::Usage, "usage\n"),
    // the recipe comes before the stage, and the stage before the inputs
    (
        "format = 1",
        "format = 3",
        "three",
        Status::RecipeRefused,
        "recipe refused 8 top 0 format\n",
    ),
    (
        "\"copy.elf\"",
        "\"none\"",
        "three",
        Status::Usage,
        "usage\n",
    ),
    // every input is loaded
    (
        "\"b.bin\"",
        "\"none\"",
        "one",
        Status::FileRefused,
        "file refused none absent\n",
    ),
    // the stages before it are run and checked
    (
        "steps = 100000",
        "steps = 31",
        "two",
        Status::RunFailed,
        "run failed one spent step 31\n",
    ),
    (
        "\"copy.elf\"",
        "\"exit.elf\"",
        "two",
        Status::RunFailed,
        "run failed one no-output step 3\n",
    ),
    (
        "\"copy.hex0\"",
        "\"altered.hex0\"",
        "two",
        Status::CheckFailed,
        "check failed one differs 0\n",
    ),
    // its own start may be refused
    (
        "\"copy.elf\"",
        "\"copy.hex0\"",
        "one",
        Status::RunFailed,
        "run failed one start elf 2 step 0\n",
    ),
    (
        "\"copy.elf\"",
        "\"empty\"",
        "one",
        Status::RunFailed,
        "run failed one start elf 1 step 0\n",
    ),
];

fn begins_none(
    rt: &impl Abort,
    alloc: Global,
    &(old, new, stage, status, text): &Refusal,
) -> Result<(), OutOfMemory> {
    let mut shelf = audit_shelf(alloc, old, new)?;
    says(
        rt,
        alloc,
        &mut shelf,
        &["step", "a.toml", stage],
        (status, text),
    )
}

#[test]
fn some_stages_begin_no_session(rt: HostRuntime) -> Result<(), Fail> {
    for refusal in &REFUSALS {
        begins_none(&rt, rt.alloc(), refusal)?;
    }
    Ok(())
}

/// What is changed in the recipe, into what, and the replies.
static ALONE: [(&str, &str, &[&str]); 3] = [
    (
        "\"copy.hex0\"",
        "\"altered.hex0\"",
        &["end exited 0 step 32\n"],
    ),
    ("steps = 100000", "steps = 31", &["end spent step 31\n"]),
    ("\"copy.elf\"", "\"exit.elf\"", &["end exited 0 step 3\n"]),
];

fn talks_alone(
    rt: &impl Abort,
    alloc: Global,
    change: (&str, &str),
    replies: &[&str],
) -> Result<(), OutOfMemory> {
    let talk = Talk {
        words: &["step", "a.toml", "one"],
        lines: b"go\n",
        failing_line: 0,
        failing_put: 0,
        status: Status::Yes,
        replies,
        unread: b"",
    };
    talks_over(rt, alloc, change, &talk)
}

/// What is after the stage's start is not looked at: its own check, its limit, the comparison.
#[test]
fn a_stage_is_stepped_through_alone(rt: HostRuntime) -> Result<(), Fail> {
    for (old, new, replies) in ALONE {
        talks_alone(&rt, rt.alloc(), (old, new), replies)?;
    }
    Ok(())
}

static OTHER_WORDS: [&[&str]; 7] = [
    &["step"],
    &["step", "a.toml"],
    &["step", "a.toml", "two", "two"],
    &["step", "", "two"],
    &["step", "a\0b", "two"],
    &["step", "a.toml", "two\0"],
    &["steps", "a.toml", "two"],
];

fn judges_words(rt: &impl Abort, alloc: Global, shelf: &mut MemShelf) -> Result<(), OutOfMemory> {
    for words in OTHER_WORDS {
        says(rt, alloc, shelf, words, (Status::Usage, "usage\n"))?;
    }
    assert_eq!(rt; shelf.calls().len(), 0);
    Ok(())
}

#[test]
fn the_words_of_a_session_are_judged(rt: HostRuntime) -> Result<(), Fail> {
    let mut shelf = audit_shelf(rt.alloc(), "", "")?;
    judges_words(&rt, rt.alloc(), &mut shelf)?;
    Ok(())
}

/// The words of a demonstration, its status and its text.
type Shown = (&'static [&'static str], Status, &'static str);

static DEMOS: [Shown; 10] = [
    (&["demo", "1"], Status::Yes, "demo 1 steps 64 equal yes\n"),
    (
        &["demo", "4096"],
        Status::Yes,
        "demo 4096 steps 64 equal yes\n",
    ),
    (
        &["demo", "4097"],
        Status::Yes,
        "demo 4097 steps 75 equal yes\n",
    ),
    (&["demo"], Status::Usage, "usage\n"),
    (&["demo", "0"], Status::Usage, "usage\n"),
    (&["demo", "01"], Status::Usage, "usage\n"),
    (&["demo", "16777217"], Status::Usage, "usage\n"),
    (&["demo", "-1"], Status::Usage, "usage\n"),
    (&["demo", ""], Status::Usage, "usage\n"),
    (&["demo", "1", "1"], Status::Usage, "usage\n"),
];

fn demonstrates(
    rt: &impl Abort,
    alloc: Global,
    &(words, status, text): &Shown,
) -> Result<(), OutOfMemory> {
    let mut shelf = audit_shelf(alloc, "", "")?;
    says(rt, alloc, &mut shelf, words, (status, text))
}

#[test]
fn demonstrations_are_made(rt: HostRuntime) -> Result<(), Fail> {
    for shown in &DEMOS {
        demonstrates(&rt, rt.alloc(), shown)?;
    }
    Ok(())
}

fn loads_two(rt: &impl Abort, alloc: Global, shelf: &mut MemShelf) -> Result<(), OutOfMemory> {
    let reported = (Status::Yes, "demo 5 steps 64 equal yes\n");
    says(rt, alloc, shelf, &["demo", "5"], reported)?;
    let wanted = [
        ("copy.elf", Some(268_435_456)),
        ("copy.hex0", Some(268_435_456)),
    ];
    assert!(rt; are_calls(shelf.calls(), &wanted));
    Ok(())
}

/// A demonstration loads two files, and saves none.
#[test]
fn a_demonstration_loads_two_files(rt: HostRuntime) -> Result<(), Fail> {
    let mut shelf = audit_shelf(rt.alloc(), "", "")?;
    loads_two(&rt, rt.alloc(), &mut shelf)?;
    Ok(())
}

/// The words of a demonstration that fails.
const DEMO: &[&str] = &["demo", "1"];

/// Sets a file, and then no demonstration is made.
fn fails_over(
    rt: &impl Abort,
    alloc: Global,
    shelf: &mut MemShelf,
    (name, content): (&str, &[u8]),
    ending: (Status, &str),
) -> Result<(), OutOfMemory> {
    shelf.set(name, content)?;
    says(rt, alloc, shelf, DEMO, ending)
}

fn fails_over_worked(
    rt: &impl Abort,
    alloc: Global,
    file: (&str, &[u8]),
    ending: (Status, &str),
) -> Result<(), OutOfMemory> {
    let mut shelf = audit_shelf(alloc, "", "")?;
    fails_over(rt, alloc, &mut shelf, file, ending)
}

/// Nothing is in the file store, and then the program alone.
fn fails_bare(rt: &impl Abort, alloc: Global, shelf: &mut MemShelf) -> Result<(), OutOfMemory> {
    let absent = (Status::FileRefused, "file refused copy.elf absent\n");
    says(rt, alloc, shelf, DEMO, absent)?;
    let absent = (Status::FileRefused, "file refused copy.hex0 absent\n");
    fails_over(rt, alloc, shelf, ("copy.elf", &EXIT), absent)
}

/// Another program, or another source, replaces that of a demonstration.
#[test]
fn demonstrations_fail(rt: HostRuntime) -> Result<(), Fail> {
    let alloc = rt.alloc();
    let failed = (Status::RunFailed, "run failed one no-output step 3\n");
    fails_over_worked(&rt, alloc, ("copy.elf", &EXIT), failed)?;
    let failed = (Status::CheckFailed, "check failed one differs 0\n");
    fails_over_worked(&rt, alloc, ("copy.hex0", b"00"), failed)?;
    let mut bare = MemShelf::new(alloc);
    fails_bare(&rt, alloc, &mut bare)?;
    names_worked_load(&rt, alloc, DEMO, (1, "copy.elf"))?;
    names_worked_load(&rt, alloc, DEMO, (2, "copy.hex0"))?;
    Ok(())
}
