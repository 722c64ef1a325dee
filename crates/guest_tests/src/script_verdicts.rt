//! Verdicts on reports of scripts: a true one, and one fault or two at each part.

use crate::exit_program::EXIT;
use crate::scripts::listed;
use ddc_base::{Bytes, OutOfMemory};
use kaem_script::{FileList, Script, ScriptPart, ScriptStop, ScriptVerdict, audit, read, verify};
use report::script;
use report::script::ScriptReport;
use std::alloc::Global;
use std::process::Abort;

/// The script that is run twice: it makes `out`, and then runs it.
static SCRIPT: &[u8] = b"./copy.elf\n# made\n\"out\" x\n";

/// Its report over copy.elf and a copy of it under the name `in`: `*` stands for the digest of no bytes, and `+` for copy.elf's, both by
/// sha256sum; the script's is by sha256sum too.
static EXAMPLE: &str = "\
kaem-report 1\n\
script 5b544eaf879399c9d37e34356a8842f02a6cb537d69cfa52ec6a88eb0dc91427\n\
file 636f70792e656c66 232 +\n\
file 696e 232 +\n\
command 32\n\
stream 1 0 *\n\
stream 2 0 *\n\
command 32\n\
stream 1 0 *\n\
stream 2 0 *\n\
left 636f70792e656c66 232 +\n\
left 696e 232 +\n\
left 6f7574 232 +\n\
end\n\
";

const LINES: u64 = 14;

/// Adds a text in which `*` and `+` stand for digests.
fn put_text(out: &mut Bytes, text: &[u8]) -> Result<(), OutOfMemory> {
    for byte in text {
        match *byte {
            b'*' => {
                out.extend(b"e3b0c44298fc1c149afbf4c8996fb92427ae41e4649b934ca495991b7852b855")?;
            }
            b'+' => {
                out.extend(b"da8dcb705eb55cbf9f4852135f93a902f4584b973901f37abb829fd299d0b026")?;
            }
            other => out.push(other)?,
        }
    }
    Ok(())
}

/// Adds the example's lines from one number to another.
fn put_lines(out: &mut Bytes, first: u64, last: u64) -> Result<(), OutOfMemory> {
    let mut number = 0u64;
    for line in EXAMPLE.lines() {
        number = number.saturating_add(1);
        if first <= number && number <= last {
            put_text(out, line.as_bytes())?;
            out.push(b'\n')?;
        }
    }
    Ok(())
}

/// Adds the example, where so many lines from this one on are replaced by a text.
fn put_changed(out: &mut Bytes, first: u64, count: u64, change: &str) -> Result<(), OutOfMemory> {
    put_lines(out, 1, first.saturating_sub(1))?;
    put_text(out, change.as_bytes())?;
    put_lines(out, first.saturating_add(count), LINES)
}

/// What a replay says of a report's text over files.
fn judged_text(
    rt: &impl Abort,
    alloc: Global,
    script: &Script,
    files: &FileList,
    text: &[u8],
) -> ScriptVerdict {
    let report = script::read(alloc, text).expect(rt, "a report");
    verify(alloc, script, files, &report)
}

/// The same of a script's text.
fn judged(
    rt: &impl Abort,
    alloc: Global,
    source: &[u8],
    files: &FileList,
    text: &[u8],
) -> ScriptVerdict {
    let script = read(alloc, source).expect(rt, "a script");
    judged_text(rt, alloc, &script, files, text)
}

/// The same over copy.elf and a file `in`.
fn judged_over(
    rt: &impl Abort,
    alloc: Global,
    source: &[u8],
    input: Option<&[u8]>,
    reversed: bool,
    text: &[u8],
) -> ScriptVerdict {
    let files = listed(rt, alloc, input, reversed);
    judged(rt, alloc, source, &files, text)
}

/// What a replay says of the example with such a change over copy.elf and a copy of it, in this order or the other.
fn judged_change(
    rt: &impl Abort,
    alloc: Global,
    reversed: bool,
    first: u64,
    count: u64,
    change: &str,
) -> Result<ScriptVerdict, OutOfMemory> {
    let mut text = Bytes::new(alloc);
    put_changed(&mut text, first, count, change)?;
    Ok(judged_over(rt, alloc, SCRIPT, None, reversed, text.as_slice()))
}

/// Asserts that in the example with such a change this part, if any, is the first that is not true.
fn check_change(
    rt: &impl Abort,
    alloc: Global,
    reversed: bool,
    (first, count, change): (u64, u64, &str),
    want: ScriptVerdict,
) {
    let verdict = judged_change(rt, alloc, reversed, first, count, change);
    assert!(rt; verdict == Ok(want), "{change}");
}

/// Changes of the example: from this line on so many lines are replaced by a text; the first part that is then not true, and its place.
static CHANGES: &[(u64, u64, &str, ScriptPart, u32)] = &[
    (2, 1, "script *\n", ScriptPart::Header, 0),
    (2, 2, "script *\nfile 61 0 *\n", ScriptPart::Header, 0),
    (3, 1, "file 636f70792e656c66 231 +\n", ScriptPart::File, 1),
    (3, 1, "file 636f70792e656c66 232 *\n", ScriptPart::File, 1),
    (3, 1, "file 636f70792e656c67 232 +\n", ScriptPart::File, 1),
    (
        3,
        1,
        "file 2e2f636f70792e656c66 232 +\n",
        ScriptPart::File,
        1,
    ),
    (
        3,
        2,
        "file 696e 232 +\nfile 636f70792e656c66 232 +\n",
        ScriptPart::File,
        1,
    ),
    (4, 1, "file 696e 0 *\n", ScriptPart::File, 2),
    (4, 2, "file 696e 0 *\ncommand 31\n", ScriptPart::File, 2),
    (4, 1, "", ScriptPart::File, 2),
    (3, 2, "", ScriptPart::File, 1),
    (5, 0, "file 61 0 *\n", ScriptPart::File, 3),
    (5, 1, "command 31\n", ScriptPart::Run, 1),
    (5, 1, "command 33\n", ScriptPart::Run, 1),
    (5, 1, "command 1\n", ScriptPart::Run, 1),
    (5, 1, "command 281474976710656\n", ScriptPart::Run, 1),
    (8, 1, "command 33\n", ScriptPart::Run, 2),
    (6, 1, "stream 1 1 *\n", ScriptPart::Streams, 1),
    (6, 1, "stream 1 0 +\n", ScriptPart::Streams, 1),
    (7, 1, "stream 2 1 *\n", ScriptPart::Streams, 1),
    (7, 2, "stream 2 0 +\ncommand 31\n", ScriptPart::Streams, 1),
    (10, 1, "stream 2 0 +\n", ScriptPart::Streams, 2),
    (9, 1, "stream 1 0 +\n", ScriptPart::Streams, 2),
    (8, 3, "", ScriptPart::Run, 2),
    (5, 6, "", ScriptPart::Run, 1),
    (
        5,
        0,
        "command 32\nstream 1 0 *\nstream 2 0 *\n",
        ScriptPart::Run,
        3,
    ),
    (8, 4, "", ScriptPart::Run, 2),
    (11, 1, "", ScriptPart::Left, 0),
    (13, 1, "", ScriptPart::Left, 0),
    (11, 3, "", ScriptPart::Left, 0),
    (13, 1, "left 6f7574 231 +\n", ScriptPart::Left, 0),
    (13, 1, "left 6f7574 232 *\n", ScriptPart::Left, 0),
    (13, 1, "left 6f7575 232 +\n", ScriptPart::Left, 0),
    (14, 0, "left 7a 0 *\n", ScriptPart::Left, 0),
    (11, 0, "left 61 0 *\n", ScriptPart::Left, 0),
];

#[test]
fn a_true_report_is_a_yes(rt: HostRuntime) {
    let alloc = rt.alloc();
    check_change(&rt, alloc, false, (1, 0, ""), ScriptVerdict::Yes);
    // The files that are given are another list in another order.
    let refuted = ScriptVerdict::Refuted {
        part: ScriptPart::File,
        place: 1,
    };
    check_change(&rt, alloc, true, (1, 0, ""), refuted);
}

#[test]
fn the_first_part_that_fails_is_named(rt: HostRuntime) {
    for &(first, count, change, part, place) in CHANGES {
        let refuted = ScriptVerdict::Refuted { part, place };
        check_change(&rt, rt.alloc(), false, (first, count, change), refuted);
    }
}

/// Scripts of one command on copy.elf and a file `in` of the bytes `abc`, with their digests by sha256sum: the program is absent, or is not
/// a program.
static NO_RUNS: [(&[u8], &str); 2] = [
    (
        b"out\n",
        "54034ac5c6e9ea95734ec2b729fd6d62abf64af34a9f9ce5d466cb788191a73d",
    ),
    (
        b"in\n",
        "ab5080369a968a3638a5a5e0df9932a3656766bec904667f72438fd49cd515b0",
    ),
];

/// What a report of such a script says below its digest, as if the command had exited.
static CLAIM: &str = "\n\
file 636f70792e656c66 232 +\n\
file 696e 3 ba7816bf8f01cfea414140de5dae2223b00361a396177a9cb410ff61f20015ad\n\
command 3\n\
stream 1 0 *\n\
stream 2 0 *\n\
left 636f70792e656c66 232 +\n\
left 696e 3 ba7816bf8f01cfea414140de5dae2223b00361a396177a9cb410ff61f20015ad\n\
end\n\
";

/// Adds this claim of a script.
fn put_claim(text: &mut Bytes, digest: &str) -> Result<(), OutOfMemory> {
    text.extend(b"kaem-report 1\nscript ")?;
    text.extend(digest.as_bytes())?;
    put_text(text, CLAIM.as_bytes())
}

/// What a replay says over copy.elf and the file `in` of this claim of a script.
fn judged_claim(
    rt: &impl Abort,
    alloc: Global,
    source: &[u8],
    digest: &str,
) -> Result<ScriptVerdict, OutOfMemory> {
    let mut text = Bytes::new(alloc);
    put_claim(&mut text, digest)?;
    Ok(judged_over(rt, alloc, source, Some(b"abc"), false, text.as_slice()))
}

#[test]
fn a_program_that_does_not_start_has_no_run(rt: HostRuntime) {
    for &(source, digest) in &NO_RUNS {
        let refuted = ScriptVerdict::Refuted {
            part: ScriptPart::Run,
            place: 1,
        };
        let verdict = judged_claim(&rt, rt.alloc(), source, digest);
        assert!(rt; verdict == Ok(refuted), "{digest}");
    }
}

/// Whether what an audit of a script reports is verified over files, and not over others.
fn is_verified_end(
    alloc: Global,
    script: &Script,
    end: &Result<ScriptReport, ScriptStop>,
    files: &FileList,
    others: &FileList,
) -> bool {
    match end {
        Ok(report) => {
            verify(alloc, script, files, report) == ScriptVerdict::Yes
                && verify(alloc, script, others, report) != ScriptVerdict::Yes
        }
        Err(_) => false,
    }
}

/// The same of an audit of it over the files.
fn is_audited(alloc: Global, script: &Script, files: &FileList, others: &FileList) -> bool {
    let end = audit(alloc, script, files, 100);
    is_verified_end(alloc, script, &end, files, others)
}

/// The same of a script's text.
fn is_verified(
    rt: &impl Abort,
    alloc: Global,
    source: &[u8],
    files: &FileList,
    others: &FileList,
) -> bool {
    let script = read(alloc, source).expect(rt, "a script");
    is_audited(alloc, &script, files, others)
}

/// The same where the others have another `in`.
fn is_verified_apart(
    rt: &impl Abort,
    alloc: Global,
    source: &[u8],
    files: &FileList,
    reversed: bool,
) -> bool {
    let others = listed(rt, alloc, Some(b"other"), reversed);
    is_verified(rt, alloc, source, files, &others)
}

/// Asserts the same of copy.elf and this file `in`.
fn check_verified(rt: &impl Abort, alloc: Global, source: &[u8], input: &[u8], reversed: bool) {
    let files = listed(rt, alloc, Some(input), reversed);
    check_apart(rt, alloc, source, &files, reversed);
}

fn check_apart(rt: &impl Abort, alloc: Global, source: &[u8], files: &FileList, reversed: bool) {
    assert!(rt; is_verified_apart(rt, alloc, source, files, reversed));
}

#[test]
fn what_is_audited_is_verified(rt: HostRuntime) {
    let alloc = rt.alloc();
    check_verified(&rt, alloc, b"", b"abc", true);
    check_verified(&rt, alloc, b"copy.elf\n", b"abc", true);
    check_verified(&rt, alloc, b"copy.elf\nout\n./in\n", &EXIT, false);
}
