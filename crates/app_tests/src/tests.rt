use crate::copying::copy_twice;
use crate::scenes::{are_calls, holds, says};
use crate::worked::{EXIT, run};
use command_plan::{Answer, FileName, Stop};
use ddc_app::Status;
use ddc_base::{MemShelf, MemSink, OutOfMemory};
use std::alloc::Global;
use std::process::Abort;
use std::test::Fail;

/// A report, with the SHA-256 digest of no bytes in every place.
const REPORT: &str = "\
ddc-report 1\n\
recipe e3b0c44298fc1c149afbf4c8996fb92427ae41e4649b934ca495991b7852b855\n\
input a 0 e3b0c44298fc1c149afbf4c8996fb92427ae41e4649b934ca495991b7852b855\n\
stage s 1\n\
stream 1 0 e3b0c44298fc1c149afbf4c8996fb92427ae41e4649b934ca495991b7852b855\n\
stream 2 0 e3b0c44298fc1c149afbf4c8996fb92427ae41e4649b934ca495991b7852b855\n\
left 6f 0 e3b0c44298fc1c149afbf4c8996fb92427ae41e4649b934ca495991b7852b855\n\
made 0 e3b0c44298fc1c149afbf4c8996fb92427ae41e4649b934ca495991b7852b855\n\
checked m1\n\
compare s a equal 0\n\
end\n\
";

/// exit.elf with another word at an offset.
fn altered(offset: usize, word: u32) -> [u8; 132] {
    let mut file = EXIT;
    let bytes = word.to_le_bytes();
    for (target, byte) in file.iter_mut().skip(offset).zip(bytes) {
        *target = byte;
    }
    file
}

/// A file store with the files of the worked examples.
fn worked_shelf(alloc: Global) -> Result<MemShelf, OutOfMemory> {
    let mut shelf = MemShelf::new(alloc);
    shelf.set("commented", b"# a\n7F 4\n5;x")?;
    shelf.set("pair", &[0x7F, 0x45])?;
    shelf.set("empty", b"")?;
    shelf.set("zero", &[0])?;
    shelf.set("exits", &[0x13, 5, 0, 0, 0x93, 8, 0xD0, 5, 0x73, 0, 0, 0])?;
    shelf.set("no word", &[0xFF, 0xFF, 0xFF, 0xFF, 1])?;
    shelf.set("exit.elf", &EXIT)?;
    shelf.set("report", REPORT.as_bytes())?;
    shelf.set("half a report", b"ddc-report 1\nrecipe 0\n")?;
    shelf.set("call 0", &altered(124, 0x0000_0893))?;
    shelf.set("illegal", &altered(120, 0))?;
    shelf.set("class", &altered(4, 0x0001_0101))?;
    Ok(shelf)
}

/// A line of words, its status and its text.
type Row = (&'static [&'static str], Status, &'static str);

/// Runs each line of words on the worked files, and compares its status and text.
fn answers(rt: &impl Abort, alloc: Global, table: &[Row]) -> Result<(), OutOfMemory> {
    let mut shelf = worked_shelf(alloc)?;
    answers_on(rt, alloc, &mut shelf, table)
}

/// Runs each line of words on a file store, and compares their status and text.
fn answers_on(
    rt: &impl Abort,
    alloc: Global,
    shelf: &mut MemShelf,
    table: &[Row],
) -> Result<(), OutOfMemory> {
    for (words, status, text) in table {
        says(rt, alloc, shelf, words, (*status, text))?;
    }
    Ok(())
}

static VALUES: [Row; 5] = [
    (&["hex0", "commented", "pair"], Status::Yes, "equal 2\n"),
    (&["hex0", "empty", "empty"], Status::Yes, "equal 0\n"),
    (
        &["hex0", "empty", "zero"],
        Status::Differs,
        "differs 0 0 1\n",
    ),
    (
        &["hex0", "commented", "zero"],
        Status::Differs,
        "differs 0 2 1\n",
    ),
    (
        &["hex0", "none", "pair"],
        Status::FileRefused,
        "file refused none absent\n",
    ),
];

#[test]
fn values_are_compared(rt: HostRuntime) -> Result<(), Fail> {
    answers(&rt, rt.alloc(), &VALUES)?;
    Ok(())
}

/// A source of M1 whose items are a label and eight bytes.
const WORKED: &[u8] = b"DEFINE addi 13000000\nDEFINE rd_a0 .00050000\n:s rd_a0 !5 addi \"hi\"";

static SOURCES: [Row; 6] = [
    (
        &["asm", "m1", "0", "worked.m1", "text"],
        Status::Yes,
        "made 27\n",
    ),
    (
        &["asm", "hex2", "0", "text", "made"],
        Status::Yes,
        "made 8\n",
    ),
    (
        &["asm", "m1", "0", "range.m1", "text"],
        Status::CheckFailed,
        "refused 5 0\n",
    ),
    (
        &["asm", "m1", "0", "worked.m1", "././worked.m1"],
        Status::Usage,
        "usage\n",
    ),
    (
        &["asm", "m1", "x", "worked.m1", "text"],
        Status::Usage,
        "usage\n",
    ),
    (
        &["asm", "m2", "0", "worked.m1", "text"],
        Status::Usage,
        "usage\n",
    ),
];

/// Assembles the worked source in two steps, and compares what was saved.
fn assembles(rt: &impl Abort, alloc: Global, shelf: &mut MemShelf) -> Result<(), OutOfMemory> {
    shelf.set("worked.m1", WORKED)?;
    shelf.set("range.m1", b"!2048")?;
    answers_on(rt, alloc, shelf, &SOURCES)?;
    assert!(rt; holds(shelf, "text", b":s\n13\n05\n50\n00\n68\n69\n00\n00\n"));
    assert!(rt; holds(shelf, "made", &[0x13, 5, 0x50, 0, 0x68, 0x69, 0, 0]));
    Ok(())
}

#[test]
fn sources_are_assembled(rt: HostRuntime) -> Result<(), Fail> {
    let mut shelf = worked_shelf(rt.alloc())?;
    assembles(&rt, rt.alloc(), &mut shelf)?;
    Ok(())
}

/// The listing of a program that exits, and of a word that is no instruction.
const EXITS: &str =
    "00000000 00000513 addi x10, x0, 0\n00000004 05d00893 addi x17, x0, 93\n00000008 00000073 ecall\n";

const NO_WORD: &str = "00000000 ffffffff ?\n00000004 rest 01\n";

static LISTED: [Row; 4] = [
    (&["list", "exits"], Status::Yes, EXITS),
    (&["list", "no word"], Status::Yes, NO_WORD),
    (&["list", "empty"], Status::Yes, ""),
    (
        &["list", "none"],
        Status::FileRefused,
        "file refused none absent\n",
    ),
];

#[test]
fn words_are_listed(rt: HostRuntime) -> Result<(), Fail> {
    answers(&rt, rt.alloc(), &LISTED)?;
    Ok(())
}

/// What is printed of a run that exits with 0.
const EXITED: &str = "exited 0 step 3\n\
    stream 1 0 e3b0c44298fc1c149afbf4c8996fb92427ae41e4649b934ca495991b7852b855\n\
    stream 2 0 e3b0c44298fc1c149afbf4c8996fb92427ae41e4649b934ca495991b7852b855\n";

static RUNS: [Row; 7] = [
    (&["run", "exit.elf", "3"], Status::Yes, EXITED),
    (&["run", "exit.elf", "3", "a"], Status::Yes, EXITED),
    (
        &["run", "exit.elf", "2"],
        Status::RunFailed,
        "failed spent step 2\n",
    ),
    (
        &["run", "call 0", "9"],
        Status::RunFailed,
        "failed call 0 step 3\n",
    ),
    (
        &["run", "illegal", "9"],
        Status::RunFailed,
        "failed trap illegal 00000000 step 1\n",
    ),
    (
        &["run", "class", "9"],
        Status::RunFailed,
        "failed start elf 3 step 0\n",
    ),
    (
        &["run", "none", "9"],
        Status::FileRefused,
        "file refused none absent\n",
    ),
];

#[test]
fn programs_are_run(rt: HostRuntime) -> Result<(), Fail> {
    answers(&rt, rt.alloc(), &RUNS)?;
    Ok(())
}

static SHOWN: [Row; 5] = [
    (&["show", "report"], Status::Yes, REPORT),
    (
        &["show", "half a report"],
        Status::ReportRefused,
        "report line 2\n",
    ),
    (&["show", "empty"], Status::ReportRefused, "report line 1\n"),
    (
        &["show", "none"],
        Status::FileRefused,
        "file refused none absent\n",
    ),
    (&["show", "report", "report"], Status::Usage, "usage\n"),
];

#[test]
fn reports_are_shown(rt: HostRuntime) -> Result<(), Fail> {
    answers(&rt, rt.alloc(), &SHOWN)?;
    Ok(())
}

static USAGE: [Row; 8] = [
    (&["hex0", "commented"], Status::Usage, "usage\n"),
    (&["hex0", "comm\0ented", "pair"], Status::Usage, "usage\n"),
    (&["hex1", "commented", "pair"], Status::Usage, "usage\n"),
    (&["list"], Status::Usage, "usage\n"),
    (&["run", "exit.elf", "0"], Status::Usage, "usage\n"),
    (&["run", "exit.elf", "03"], Status::Usage, "usage\n"),
    (&["run", "exit.elf", "3", "\0"], Status::Usage, "usage\n"),
    (&[], Status::Usage, "usage\n"),
];

#[test]
fn other_words_are_usage(rt: HostRuntime) -> Result<(), Fail> {
    answers(&rt, rt.alloc(), &USAGE)?;
    Ok(())
}

/// The put that fails, the status, and what was written.
static FAULTS: [(u64, Status, &str); 4] = [
    (0, Status::ShelfFault, "shelf fault commented\n"),
    (0, Status::ShelfFault, "shelf fault pair\n"),
    (0, Status::Yes, "equal 2\n"),
    (1, Status::OutFault, "equa"),
];

/// Compares two files, with a put that fails.
fn puts(
    rt: &impl Abort,
    alloc: Global,
    shelf: &mut MemShelf,
    failing_put: u64,
    (status, text): (Status, &str),
) -> Result<(), OutOfMemory> {
    let mut out = MemSink::new(alloc);
    out.fail_put(failing_put)?;
    let words = ["hex0", "commented", "pair"];
    assert_eq!(rt; run(alloc, &words, shelf, &mut out)?, status);
    assert_eq!(rt; out.written(), text.as_bytes());
    Ok(())
}

/// The first and the third load fail, too.
fn faults(rt: &impl Abort, alloc: Global, shelf: &mut MemShelf) -> Result<(), OutOfMemory> {
    shelf.fail_load(1)?;
    shelf.fail_load(3)?;
    for &(failing_put, status, text) in &FAULTS {
        puts(rt, alloc, shelf, failing_put, (status, text))?;
    }
    Ok(())
}

#[test]
fn faults_of_the_outside(rt: HostRuntime) -> Result<(), Fail> {
    let mut shelf = worked_shelf(rt.alloc())?;
    faults(&rt, rt.alloc(), &mut shelf)?;
    Ok(())
}

#[test]
fn statuses_have_their_numbers(rt: HostRuntime) {
    let table: [(Status, u8); 11] = [
        (Status::Yes, 0),
        (Status::Usage, 2),
        (Status::Differs, 3),
        (Status::RunFailed, 6),
        (Status::FileRefused, 10),
        (Status::ShelfFault, 11),
        (Status::OutFault, 12),
        (Status::OutOfMemory, 13),
        (Status::TooManySegments, 14),
        (Status::ScriptRefused, 15),
        (Status::ListRefused, 16),
    ];
    for (status, number) in table {
        assert_eq!(rt; status.number(), number);
    }
}

/// Compares two files, and judges what the outside was asked.
fn asks(rt: &impl Abort, alloc: Global, shelf: &mut MemShelf) -> Result<(), OutOfMemory> {
    let mut out = MemSink::new(alloc);
    let words = ["hex0", "commented", "pair"];
    assert_eq!(rt; run(alloc, &words, shelf, &mut out)?, Status::Yes);
    let wanted = [
        ("commented", Some(268_435_456)),
        ("pair", Some(268_435_456)),
    ];
    assert!(rt; are_calls(shelf.calls(), &wanted));
    assert_eq!(rt; out.pieces().len(), 1);
    Ok(())
}

#[test]
fn only_the_plan_is_asked(rt: HostRuntime) -> Result<(), Fail> {
    let mut shelf = worked_shelf(rt.alloc())?;
    asks(&rt, rt.alloc(), &mut shelf)?;
    Ok(())
}

/// Whether a call was done with this text.
fn is_done(done: &Result<Answer, Stop>, text: &[u8]) -> bool {
    matches!(done, Ok(answer) if answer.text.as_slice() == text)
}

/// Whether a call of the file store failed, with this text.
fn is_fault(done: &Result<Answer, Stop>, text: &[u8]) -> bool {
    matches!(done, Err(Stop::ShelfFault(fault)) if fault.as_slice() == text)
}

fn copy_pair(alloc: Global, shelf: &mut MemShelf) -> Result<Answer, Stop> {
    let (pair, one, two) = (
        FileName::of("pair"),
        FileName::of("one"),
        FileName::of("two"),
    );
    copy_twice(alloc, shelf, &pair, &one, &two)
}

fn copy_is_done(alloc: Global, shelf: &mut MemShelf) -> bool {
    is_done(&copy_pair(alloc, shelf), b"equal 2\n")
}

fn copy_is_fault(alloc: Global, shelf: &mut MemShelf) -> bool {
    is_fault(&copy_pair(alloc, shelf), b"shelf fault two\n")
}

/// The second save fails once.
fn copies(rt: &impl Abort, alloc: Global, shelf: &mut MemShelf) -> Result<(), OutOfMemory> {
    shelf.fail_save(2)?;
    assert!(rt; copy_is_fault(alloc, shelf));
    assert!(rt; holds(shelf, "one", &[0x7F, 0x45]));
    assert!(rt; copy_is_done(alloc, shelf));
    assert!(rt; holds(shelf, "two", &[0x7F, 0x45]));
    Ok(())
}

#[test]
fn names_are_saved_in_order(rt: HostRuntime) -> Result<(), Fail> {
    let mut shelf = worked_shelf(rt.alloc())?;
    copies(&rt, rt.alloc(), &mut shelf)?;
    Ok(())
}
