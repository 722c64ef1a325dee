//! Audits of one stage, by each cause with which a run or a check ends one.
//! The causes were written down from docs/reference/audit.md, and the code from the instruction set manual (objdump reads it so).

use crate::scenes::says;
use crate::worked::{COPY, EXIT, decoded, program_of, with};
use ddc_app::Status;
use ddc_base::{Bytes, MemShelf, OutOfMemory};
use std::alloc::Global;
use std::process::Abort;
use std::test::Fail;

/// One stage, which finds `data` as the file `in`. Its artefact, the file `out`, is checked, and compared with `data`.
const RECIPE: &str = r#"format = 1
[[input]]
name = "prog"
path = "prog.elf"
[[input]]
name = "text"
path = "text"
[[input]]
name = "data"
path = "data"
[[source]]
name = "src"
lang = "hex0"
base = 4294967295
files = ["text"]
[[stage]]
name = "one"
program = "prog"
args = ["prog"]
files = [{ path = "in", from = "data" }]
output = "out"
steps = 32
check = "src"
[compare]
stage = "one"
binary = "data"
"#;

/// Nothing is changed in the recipe.
const SAME: (&str, &str) = ("", "");

/// The artefact is the file that the program was given.
const GIVEN: (&str, &str) = ("\"out\"", "\"in\"");

/// The artefact is what the program writes on its standard output.
const WRITTEN: (&str, &str) = ("\"out\"", "\"-\"");

/// Code in hexadecimal, what is changed in the recipe, and the cause and the step of the run that fails.
type Run = (&'static str, &'static str, &'static str, &'static str);

static RUNS: [Run; 24] = [
    ("00000000", "", "", "trap illegal 00000000 step 1"),
    ("ffffffff", "", "", "trap illegal ffffffff step 1"),
    // jal x0, 0x10000
    (
        "6f000100",
        "",
        "",
        "trap fetch-unmapped 0000000000020078 step 2",
    ),
    // jal x0, 2
    (
        "6f002000",
        "",
        "",
        "trap fetch-misaligned 000000000001007a step 1",
    ),
    // ld x5, 8(x0); lb x5, -1(x0)
    (
        "83328000",
        "",
        "",
        "trap load-unmapped 0000000000000008 step 1",
    ),
    (
        "8302f0ff",
        "",
        "",
        "trap load-unmapped ffffffffffffffff step 1",
    ),
    // sd x0, 16(x0)
    (
        "23380000",
        "",
        "",
        "trap store-unmapped 0000000000000010 step 1",
    ),
    // ebreak
    ("73001000", "", "", "trap break step 1"),
    // a trap counts as a step, and comes within one step
    ("73001000", "steps = 32", "steps = 1", "trap break step 1"),
    // ecall with x17 of 0; addi x17, x0, -1; addi x17, x0, 65
    ("73000000", "", "", "call 0 step 1"),
    (
        "9308f0ff73000000",
        "",
        "",
        "call 18446744073709551615 step 2",
    ),
    ("9308100473000000", "", "", "call 65 step 2"),
    // exit with 7, with -1, with 256; exit_group with 1
    ("130570009308d00573000000", "", "", "status 7 step 3"),
    ("1305f0ff9308d00573000000", "", "", "status 255 step 3"),
    ("130500109308d00573000000", "", "", "no-output step 3"),
    ("130510009308e00573000000", "", "", "status 1 step 3"),
    // exit with 0
    ("130500009308d00573000000", "", "", "no-output step 3"),
    (
        "130500009308d00573000000",
        "steps = 32",
        "steps = 3",
        "no-output step 3",
    ),
    (
        "130500009308d00573000000",
        "steps = 32",
        "steps = 2",
        "spent step 2",
    ),
    (
        "130500009308d00573000000",
        "\"out\"",
        "\"./-\"",
        "no-output step 3",
    ),
    // exit with 7: a step too few comes before the status, the status before the check of `in`
    (
        "130570009308d00573000000",
        "steps = 32",
        "steps = 2",
        "spent step 2",
    ),
    (
        "130570009308d00573000000",
        "output = \"out\"",
        "output = \"in\"",
        "status 7 step 3",
    ),
    // jal x0, 0
    ("6f000000", "", "", "spent step 32"),
    (
        "6f000000",
        "steps = 32",
        "steps = 100000",
        "spent step 100000",
    ),
];

/// A byte of exit.elf, what it is changed to, and the number of the loader's refusal.
static STARTS: [(usize, u8, &str); 10] = [
    (0, 0x00, "2"),
    (4, 0x01, "3"),
    (5, 0x02, "3"),
    (18, 0x3e, "4"),
    (16, 0x03, "5"),
    (54, 0x37, "6"),
    (64, 0x03, "7"),
    (64, 0x02, "8"),
    (96, 0x85, "10"),
    (24, 0x79, "12"),
];

/// The line of the source's language, the source, what copy.elf makes, and the cause of the check that fails.
type Check = (&'static str, &'static str, &'static str, &'static str);

static BYTES: [Check; 22] = [
    ("hex0", "61 62 63", "abd", "differs 2"),
    ("hex0", "61 62 63", "ab", "differs 2"),
    ("hex0", "61 62 # 63", "abc", "differs 2"),
    ("hex0", "", "a", "differs 0"),
    ("hex0", "61", "", "differs 0"),
    ("hex1", "61 :b 62", "ac", "differs 1"),
    ("hex1", "0", "", "hex 1 0"),
    ("hex1", "00 ?", "", "hex 2 3"),
    ("hex1", ":a !a 13", "", "hex 3 3"),
    ("hex1", ":a 00 :a", "", "hex 4 2"),
    ("hex1", "00 &q", "", "hex 5 1"),
    // at the base 2^32 - 1 its address still fits, after a byte it does not
    ("hex1", ":a &a", "", "differs 0"),
    ("hex1", "00 :a &a", "", "hex 6 2"),
    ("hex2", "61 :b 62", "ab\0", "differs 2"),
    ("hex2", "0", "", "hex 1 0"),
    ("hex2", "00 ?", "", "hex 2 3"),
    ("hex2", ":a !a 13", "", "hex 3 3"),
    ("hex2", ":a 00 :a", "", "hex 4 2"),
    ("hex2", "00 &quest", "", "hex 5 1"),
    ("hex2", ":a &a", "", "differs 0"),
    ("hex2", "00 :a &a", "", "hex 6 2"),
    ("hex2", "<", "a", "differs 0"),
];

static ITEMS: [Check; 15] = [
    ("m1", "DEFINE x", "0", "m1 1 0"),
    ("m1", "DEFINE a 00 DEFINE a 11", "0", "m1 2 12"),
    ("m1", "00 'a", "0", "m1 3 3"),
    ("m1", "foo", "0", "m1 4 0"),
    ("m1", "00 !2048", "0", "m1 5 3"),
    ("m1", "DEFINE f .00000000 00 f", "0", "m1 6 22"),
    ("m1", "7F45", "7F 4", "items 1 3"),
    ("m1", "7F45", "7F ?", "items 2 3"),
    ("m1", "7F45", "7F !x 13", "items 3 3"),
    ("m1", "7F45", "7F 46", "differs 1"),
    ("m1", "7F45", "7F", "differs 1"),
    ("m1", "7F45", "7F 45 :a", "differs 2"),
    ("m1", ":a &a", ":a &b", "differs 1"),
    ("m1", ":a !a 13000000", ":a @a 13000000", "differs 1"),
    ("m1", "", "<", "differs 0"),
];

/// A language, a source, and an artefact that is what it stands for.
static GOOD: [(&str, &str, &str, &str); 7] = [
    ("hex0", "61 62 63", "abc", "3"),
    ("hex0", "", "", "0"),
    ("hex1", ":a 61 62 #\n63", "abc", "3"),
    ("hex2", "61 62 :label %one>one 63 :one", "ab\0\0\0\0c", "7"),
    // M1: the items count, however they are laid out, and labels are not judged
    ("m1", "DEFINE x 7F45\nx", "7f 4#\n5", "7"),
    ("m1", ":a :a !1 13000000", ":a :a 13 00 10 00", "17"),
    ("m1", "", "# nothing\n", "10"),
];

/// A file store with a recipe that is changed once, a program, a source and the file that the program is given.
fn stage_shelf(
    alloc: Global,
    change: (&str, &str),
    program: &[u8],
    text: &str,
    data: &str,
) -> Result<MemShelf, OutOfMemory> {
    let mut shelf = MemShelf::new(alloc);
    let (old, new) = change;
    shelf.set("a.toml", with(alloc, RECIPE, old, new)?.as_bytes())?;
    shelf.set("prog.elf", program)?;
    shelf.set("text", text.as_bytes())?;
    shelf.set("data", data.as_bytes())?;
    Ok(shelf)
}

/// The pieces of a line as one text.
fn joined(alloc: Global, pieces: &[&str]) -> Result<String, OutOfMemory> {
    let mut text = String::new(alloc);
    for piece in pieces {
        text.push_str(piece)?;
    }
    Ok(text)
}

/// Makes the audit on a file store. Compares its status and its line, in a few pieces, and whether it saved a report.
fn answers(
    rt: &impl Abort,
    alloc: Global,
    shelf: &mut MemShelf,
    status: Status,
    line: &[&str],
) -> Result<(), OutOfMemory> {
    let text = joined(alloc, line)?;
    let words = ["audit", "a.toml", "r"];
    says(rt, alloc, shelf, &words, (status, text.as_str()))?;
    let saved = matches!(status, Status::Yes | Status::Differs);
    assert_eq!(rt; shelf.get("r").is_some(), saved);
    Ok(())
}

/// Compares the cause of a run that fails.
fn run_fails(
    rt: &impl Abort,
    alloc: Global,
    change: (&str, &str),
    program: &[u8],
    cause: &str,
) -> Result<(), OutOfMemory> {
    let mut shelf = stage_shelf(alloc, change, program, "61 62", "abc")?;
    let line = ["run failed one ", cause, "\n"];
    answers(rt, alloc, &mut shelf, Status::RunFailed, &line)
}

/// Compares the cause of a run of this code.
fn code_fails(
    rt: &impl Abort,
    alloc: Global,
    &(code, old, new, cause): &Run,
) -> Result<(), OutOfMemory> {
    let program = program_of(alloc, code)?;
    run_fails(rt, alloc, (old, new), program.as_slice(), cause)
}

#[test]
fn runs_fail(rt: HostRuntime) -> Result<(), Fail> {
    for run in &RUNS {
        code_fails(&rt, rt.alloc(), run)?;
    }
    Ok(())
}

/// exit.elf with its program header so many times: it has segments that overlap, or too many.
fn with_headers(alloc: Global, count: u8) -> Result<Bytes, OutOfMemory> {
    let mut file = Bytes::from_slice(alloc, &EXIT[..56])?;
    file.push(count)?;
    file.extend(&EXIT[57..64])?;
    for _ in 0..count {
        file.extend(&EXIT[64..120])?;
    }
    Ok(file)
}

/// Compares the refusal of exit.elf with another byte.
fn start_fails(
    rt: &impl Abort,
    alloc: Global,
    (index, byte): (usize, u8),
    number: &str,
) -> Result<(), OutOfMemory> {
    let mut program = EXIT;
    if let Some(target) = program.get_mut(index) {
        *target = byte;
    }
    let cause = format!(in alloc; "start elf {number} step 0")?;
    run_fails(rt, alloc, SAME, &program, cause.as_str())
}

/// Compares the refusal of so many program headers.
fn headers_fail(rt: &impl Abort, alloc: Global, count: u8, cause: &str) -> Result<(), OutOfMemory> {
    let program = with_headers(alloc, count)?;
    run_fails(rt, alloc, SAME, program.as_slice(), cause)
}

#[test]
fn starts_fail(rt: HostRuntime) -> Result<(), Fail> {
    let alloc = rt.alloc();
    for &(index, byte, number) in &STARTS {
        start_fails(&rt, alloc, (index, byte), number)?;
    }
    run_fails(&rt, alloc, SAME, &EXIT[..63], "start elf 1 step 0")?;
    headers_fail(&rt, alloc, 17, "start elf 9 step 0")?;
    headers_fail(&rt, alloc, 2, "start elf 11 step 0")?;
    Ok(())
}

/// The line of a stage that is given 256 files.
fn many_files(alloc: Global) -> Result<String, OutOfMemory> {
    let mut files = String::from_str(alloc, "files = [")?;
    for number in 0..256 {
        put_file(alloc, &mut files, number)?;
    }
    files.push_str("]")?;
    Ok(files)
}

fn put_file(alloc: Global, files: &mut String, number: u64) -> Result<(), OutOfMemory> {
    let entry = format!(in alloc; "{{ path = \"{number}\", from = \"data\" }},")?;
    files.push_str(entry.as_str())?;
    Ok(())
}

/// So many bytes that 256 files of them are too much.
fn large(alloc: Global) -> Result<Bytes, OutOfMemory> {
    let mut data = Bytes::new(alloc);
    for _ in 0..2_097_153 {
        data.push(b'a')?;
    }
    Ok(data)
}

/// A file store with the recipe of these files.
fn large_shelf(alloc: Global) -> Result<MemShelf, OutOfMemory> {
    let files = many_files(alloc)?;
    let old = "files = [{ path = \"in\", from = \"data\" }]";
    stage_shelf(alloc, (old, files.as_str()), &EXIT, "", "")
}

fn is_too_large(rt: &impl Abort, alloc: Global, shelf: &mut MemShelf) -> Result<(), OutOfMemory> {
    shelf.set("data", large(alloc)?.as_slice())?;
    let line = ["run failed one start box step 0\n"];
    answers(rt, alloc, shelf, Status::RunFailed, &line)
}

/// 256 files of 2,097,152 bytes are as many as may be; a byte more in one of them is too much.
#[test]
fn a_box_is_too_large(rt: HostRuntime) -> Result<(), Fail> {
    let mut shelf = large_shelf(rt.alloc())?;
    is_too_large(&rt, rt.alloc(), &mut shelf)?;
    Ok(())
}

/// Makes the audit in which copy.elf makes `data`, and compares its status and its line.
fn copies(
    rt: &impl Abort,
    alloc: Global,
    lang: &str,
    text: &str,
    data: &str,
    status: Status,
    line: &[&str],
) -> Result<(), OutOfMemory> {
    let program = decoded(alloc, COPY)?;
    let change = ("hex0", lang);
    let mut shelf = stage_shelf(alloc, change, program.as_slice(), text, data)?;
    answers(rt, alloc, &mut shelf, status, line)
}

#[test]
fn checks_fail(rt: HostRuntime) -> Result<(), Fail> {
    let alloc = rt.alloc();
    for table in [BYTES.as_slice(), ITEMS.as_slice()] {
        for &(lang, text, data, cause) in table {
            let line = ["check failed one ", cause, "\n"];
            copies(&rt, alloc, lang, text, data, Status::CheckFailed, &line)?;
        }
    }
    Ok(())
}

#[test]
fn checks_succeed(rt: HostRuntime) -> Result<(), Fail> {
    let alloc = rt.alloc();
    for &(lang, text, data, length) in &GOOD {
        let line = ["equal one data ", length, "\n"];
        copies(&rt, alloc, lang, text, data, Status::Yes, &line)?;
    }
    Ok(())
}

/// What is changed in the recipe, the source, the status and the line.
static ARTEFACTS: [((&str, &str), &str, Status, &str); 4] = [
    (GIVEN, "61 62 63", Status::Yes, "equal one data 3\n"),
    (
        GIVEN,
        "61 62",
        Status::CheckFailed,
        "check failed one differs 2\n",
    ),
    (WRITTEN, "", Status::Differs, "differs one data 0 0 3\n"),
    (
        WRITTEN,
        "61",
        Status::CheckFailed,
        "check failed one differs 0\n",
    ),
];

fn artefact_is(
    rt: &impl Abort,
    alloc: Global,
    change: (&str, &str),
    text: &str,
    (status, line): (Status, &str),
) -> Result<(), OutOfMemory> {
    let mut shelf = stage_shelf(alloc, change, &EXIT, text, "abc")?;
    answers(rt, alloc, &mut shelf, status, &[line])
}

/// exit.elf leaves the file that it was given, and writes nothing.
#[test]
fn artefacts_are_what_the_recipe_says(rt: HostRuntime) -> Result<(), Fail> {
    for &(change, text, status, line) in &ARTEFACTS {
        artefact_is(&rt, rt.alloc(), change, text, (status, line))?;
    }
    Ok(())
}
