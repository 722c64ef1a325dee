//! Scripts of commands: what a text says, each way to be wrong with its offset, and commands over one world of files.

ghost use Rattle.std.specs.Prelude.{◌≤◌, ◌^◌};

use crate::exit_program::{EXIT, altered};
use ddc_base::digests::Digest;
use ddc_base::{Bytes, OutOfMemory, read_hex};
use elf_load::ElfRefusal;
use kaem_script::{
    CommandCause, FileList, Script, ScriptFault, ScriptRefusal, ScriptStop, audit, read,
};
use mem_files::PlaceRefusal;
use report::LeftLine;
use report::script::{CommandLine, ScriptReport};
use rv64_machine::Cause;
use std::alloc::Global;
use std::process::Abort;

/// How many commands a script has, or its first fault.
fn read_as(alloc: Global, script: &[u8]) -> Result<usize, ScriptRefusal> {
    let script = read(alloc, script)?;
    Ok(script.commands().len())
}

/// Scripts that are read, with the number of their commands.
static READ: &[(&[u8], usize)] = &[
    (b"", 0),
    (b"\n", 0),
    (b"\n \t\r\n# a\n#", 0),
    (b"a", 1),
    (b"a\n", 1),
    (b"\ta\r\n\n./b  c\td", 2),
    (b"./copy.elf\n# made\n\"out\" x\n", 2),
    (b"a b#c \"# $\\\" # \"\n", 1),
    (b"a \"\" \"b\rc\"\r\n", 1),
    (b"\"a b\" \"c\"", 1),
];

/// Scripts that break a rule, with the offset of the word.
static REFUSED: &[(&[u8], ScriptFault, u64)] = &[
    (b"\"a\n", ScriptFault::OpenQuote, 0),
    (b"a \"b\" \"c", ScriptFault::OpenQuote, 6),
    (b"a \"b\n\"\n", ScriptFault::OpenQuote, 2),
    (b"a\n\n b \"\0", ScriptFault::OpenQuote, 6),
    (b"a $b\n", ScriptFault::BadWord, 2),
    (b"a b\\\nc\n", ScriptFault::BadWord, 2),
    (b"a b\"c\"\n", ScriptFault::BadWord, 2),
    (b"a \"b\"c\n", ScriptFault::BadWord, 2),
    (b"a \"b\"\"c\"\n", ScriptFault::BadWord, 2),
    (b"a b\0\n", ScriptFault::BadWord, 2),
    (b"a \"b\0\"\n", ScriptFault::BadWord, 2),
    (b"\"\" a\n", ScriptFault::BadWord, 0),
    (b"a\n./\n", ScriptFault::BadWord, 2),
    (b" \"././\" a\n", ScriptFault::BadWord, 1),
    (b"a $\nb \"\n", ScriptFault::BadWord, 2),
];

#[test]
fn scripts_are_read(rt: HostRuntime) {
    for (script, commands) in READ {
        assert!(rt; read_as(rt.alloc(), script) == Ok(*commands));
    }
}

#[test]
fn the_first_fault_is_named(rt: HostRuntime) {
    for (script, fault, offset) in REFUSED {
        assert!(rt; read_as(rt.alloc(), script) == Err(ScriptRefusal::At(*fault, *offset)));
    }
}

/// Adds so many copies of some bytes, and an end.
fn put_many(text: &mut Bytes, piece: &[u8], count: u64, end: &[u8]) -> Result<(), OutOfMemory> {
    for _ in 0..count {
        text.extend(piece)?;
    }
    text.extend(end)
}

/// How many commands such a script has, or its first fault.
fn read_many_as(
    alloc: Global,
    piece: &[u8],
    count: u64,
    end: &[u8],
) -> Result<Result<usize, ScriptRefusal>, OutOfMemory> {
    let mut text = Bytes::new(alloc);
    put_many(&mut text, piece, count, end)?;
    Ok(read_as(alloc, text.as_slice()))
}

/// A piece, how often it stands, and what stands after it, with the number of commands or the fault.
type Limit = (
    &'static [u8],
    u64,
    &'static [u8],
    Result<usize, ScriptRefusal>,
);

static LIMITS: &[Limit] = &[
    (b"a ", 64, b"# more", Ok(1)),
    (
        b"a ",
        64,
        b"b",
        Err(ScriptRefusal::At(ScriptFault::TooManyWords, 128)),
    ),
    (
        b"a ",
        64,
        b"\"",
        Err(ScriptRefusal::At(ScriptFault::TooManyWords, 128)),
    ),
    (b"a\n", 4_096, b"# more", Ok(4_096)),
    (
        b"a\n",
        4_096,
        b" b",
        Err(ScriptRefusal::At(ScriptFault::TooMany, 8_193)),
    ),
    (
        b"a\n",
        4_096,
        b"$",
        Err(ScriptRefusal::At(ScriptFault::TooMany, 8_192)),
    ),
    (
        b"a\n",
        4_095,
        b"a $",
        Err(ScriptRefusal::At(ScriptFault::BadWord, 8_192)),
    ),
    (b"a", 255, b"", Ok(1)),
    (
        b"a",
        256,
        b"",
        Err(ScriptRefusal::At(ScriptFault::LongWord, 0)),
    ),
    (
        b"a",
        256,
        b"$",
        Err(ScriptRefusal::At(ScriptFault::BadWord, 0)),
    ),
    (
        b"./",
        128,
        b"",
        Err(ScriptRefusal::At(ScriptFault::BadWord, 0)),
    ),
];

#[test]
fn scripts_keep_their_limits(rt: HostRuntime) {
    for (piece, count, end, answer) in LIMITS {
        let read = read_many_as(rt.alloc(), piece, *count, end);
        assert!(rt; read == Ok(*answer));
    }
}

/// Whether a script has one command of these two words.
fn is_command_of(script: &Script, first: &[u8], second: &[u8]) -> bool {
    match script.commands() {
        [words] => match words.as_slice() {
            [a, b] => a.as_slice() == first && b.as_slice() == second,
            _ => false,
        },
        _ => false,
    }
}

fn check_command(rt: &impl Abort, script: &Script, first: &[u8], second: &[u8]) {
    assert!(rt; is_command_of(script, first, second));
}

/// Asserts that a text is a script of one command of these two words.
fn check_words(rt: &impl Abort, alloc: Global, script: &[u8], first: &[u8], second: &[u8]) {
    let script = read(alloc, script).expect(rt, "a script");
    check_command(rt, &script, first, second);
}

#[test]
fn words_are_kept_as_written(rt: HostRuntime) {
    let alloc = rt.alloc();
    check_words(&rt, alloc, b"./a/b c", b"./a/b", b"c");
    check_words(&rt, alloc, b"\"./a\" \"b \t# $\\\"\n", b"./a", b"b \t# $\\");
    check_words(&rt, alloc, b"a \"\"", b"a", b"");
}

/// Copies the file `in` to `out` in 32 steps, and exits with 0: 232 bytes.
const COPY: &str =
    "7f454c460201010000000000000000000200f30001000000780001000000000040000000000000000000000000000000000000004000380001000000000000000100000007000000000000000000000000000100000000000000010000000000e800000000000000e80000000000000000100000000000001305c0f9b70501009385050e1306000093088003730000001305c0f9b70501009385350e130610247300000037140000b30481401305300093850400130604009308f00373000000630c0500130605001305400093080004730000006ff09ffd9308d00573000000696e006f75740000";
/// Of the 232 bytes, by sha256sum.
const COPY_DIGEST: &str = "da8dcb705eb55cbf9f4852135f93a902f4584b973901f37abb829fd299d0b026";
/// Of no bytes, by sha256sum.
const EMPTY_DIGEST: &str = "e3b0c44298fc1c149afbf4c8996fb92427ae41e4649b934ca495991b7852b855";
/// Of the script that is run twice, by sha256sum.
const SCRIPT_DIGEST: &str = "5b544eaf879399c9d37e34356a8842f02a6cb537d69cfa52ec6a88eb0dc91427";

fn push(rt: &impl Abort, files: &mut FileList, name: &[u8], content: &[u8]) {
    assert!(rt; files.push(name, content).is_ok());
}

/// Adds copy.elf and this file `in`, in this order or the other.
fn fill(rt: &impl Abort, files: &mut FileList, copy: &[u8], input: &[u8], reversed: bool) {
    if reversed {
        push(rt, files, b"./in", input);
        push(rt, files, b"copy.elf", copy);
    } else {
        push(rt, files, b"./copy.elf", copy);
        push(rt, files, b"in", input);
    }
}

/// The list of a program and a file `in`, which is a copy of it where no content is given.
fn list_of(
    rt: &impl Abort,
    alloc: Global,
    copy: &[u8],
    input: Option<&[u8]>,
    reversed: bool,
) -> FileList {
    let mut files = FileList::new(alloc).expect(rt, "memory");
    fill(rt, &mut files, copy, input.unwrap_or(copy), reversed);
    files
}

/// The list of copy.elf and a file `in`, which is another copy where no content is given, in this order or the other.
pub(crate) fn listed(
    rt: &impl Abort,
    alloc: Global,
    input: Option<&[u8]>,
    reversed: bool,
) -> FileList {
    let copy = read_hex(alloc, COPY.as_bytes()).expect(rt, "a program");
    list_of(rt, alloc, copy.as_slice(), input, reversed)
}

/// How a script has to end.
#[derive(Clone, Copy)]
enum Ending {
    /// At this command, for this cause, at this step.
    Stop(u32, CommandCause, u64),
    /// With the report of two copies.
    Copies,
    /// With the report of no command over two files.
    Nothing,
}

/// Whether a script that stopped there has to.
fn is_stop(at: (u32, CommandCause, u64), wanted: Ending) -> bool {
    match wanted {
        Ending::Stop(command, cause, step) => at == (command, cause, step),
        _ => false,
    }
}

/// Whether a report is wanted.
fn is_report(alloc: Global, report: &ScriptReport, wanted: Ending) -> bool {
    match wanted {
        Ending::Stop(..) => false,
        Ending::Copies => is_of_two_copies(alloc, report),
        Ending::Nothing => report.commands.len() == 0 && report.left.len() == 2,
    }
}

/// Whether a script that did not go on has to stop there.
fn is_stopped(stop: ScriptStop, wanted: Ending) -> bool {
    match stop {
        ScriptStop::Failed {
            command,
            cause,
            step,
        } => is_stop((command, cause, step), wanted),
        ScriptStop::OutOfMemory { .. } => false,
    }
}

fn is_end(alloc: Global, end: &Result<ScriptReport, ScriptStop>, wanted: Ending) -> bool {
    match end {
        Ok(report) => is_report(alloc, report, wanted),
        Err(stop) => is_stopped(*stop, wanted),
    }
}

/// Whether a script over files ends as it has to.
fn ends_over(alloc: Global, script: &Script, files: &FileList, most: u64, wanted: Ending) -> bool
    requires some { 1 ≤ most }
    requires few { most ≤ 2 ^ 48 }
{
    let end = audit(alloc, script, files, most);
    is_end(alloc, &end, wanted)
}

/// The same of a script's text.
fn text_ends_over(
    rt: &impl Abort,
    alloc: Global,
    script: &[u8],
    files: &FileList,
    most: u64,
    wanted: Ending,
) -> bool
    requires some { 1 ≤ most }
    requires few { most ≤ 2 ^ 48 }
{
    let script = read(alloc, script).expect(rt, "a script");
    ends_over(alloc, &script, files, most, wanted)
}

/// The same over copy.elf and a file `in`.
fn ends(
    rt: &impl Abort,
    alloc: Global,
    script: &[u8],
    input: Option<&[u8]>,
    most: u64,
    wanted: Ending,
) -> bool
    requires some { 1 ≤ most }
    requires few { most ≤ 2 ^ 48 }
{
    let files = listed(rt, alloc, input, false);
    text_ends_over(rt, alloc, script, &files, most, wanted)
}

/// Asserts that a script stops within 100 steps of each command at this command, for this cause, at this step.
fn check_stop(
    rt: &impl Abort,
    alloc: Global,
    script: &[u8],
    input: &[u8],
    (command, cause, step): (u32, CommandCause, u64),
) {
    let wanted = Ending::Stop(command, cause, step);
    assert!(rt; ends(rt, alloc, script, Some(input), 100, wanted));
}

/// Scripts, the file `in`, and the command at which each stops, the cause and the step.
static STOPS: &[(&[u8], &[u8], u32, CommandCause, u64)] = &[
    (b"out\n", b"", 1, CommandCause::NoProgram, 0),
    (
        b"copy.elf\nout",
        b"abc",
        2,
        CommandCause::Elf(ElfRefusal::Short),
        0,
    ),
];

#[test]
fn a_script_stops_at_its_first_failure(rt: HostRuntime) {
    for &(script, input, command, cause, step) in STOPS {
        check_stop(&rt, rt.alloc(), script, input, (command, cause, step));
    }
}

/// What a command made is there for the next one, under the name that it has then.
#[test]
fn a_script_stops_where_a_program_is_not_made(rt: HostRuntime) {
    let script = b"copy.elf\nout\nelse\n";
    let stop = (3, CommandCause::NoProgram, 0);
    check_stop(&rt, rt.alloc(), script, &EXIT, stop);
}

#[test]
fn a_script_stops_where_its_steps_are_spent(rt: HostRuntime) {
    let wanted = Ending::Stop(1, CommandCause::Spent, 31);
    assert!(rt; ends(&rt, rt.alloc(), b"copy.elf", Some(b"abc"), 31, wanted));
}

/// A word of exit.elf, what it is changed to, and the cause and the step at which the program ends. The first row has addi x10, x0, 7 in
/// place of addi x10, x0, 0. The second has addi x17, x0, 999 in place of addi x17, x0, 93. The third has no instruction.
static OTHERWISE: [(usize, u32, CommandCause, u64); 3] = [
    (120, 0x0070_0513, CommandCause::Status(7), 3),
    (124, 0x3e70_0893, CommandCause::Call(999), 3),
    (120, 0, CommandCause::Trap(Cause::Illegal(0)), 1),
];

#[test]
fn a_script_stops_at_a_program_that_ends_otherwise(rt: HostRuntime) {
    for &(offset, word, cause, step) in &OTHERWISE {
        let program = altered(offset, word);
        check_stop(&rt, rt.alloc(), b"in", &program, (1, cause, step));
    }
}

/// Whether a digest is this hexadecimal text.
fn is_digest(alloc: Global, digest: &Digest, text: &str) -> bool {
    match read_hex(alloc, text.as_bytes()) {
        Ok(bytes) => digest.0.as_slice() == bytes.as_slice(),
        Err(_) => false,
    }
}

/// Whether a line says copy.elf's bytes under a name.
fn is_copy(alloc: Global, line: &LeftLine, name: &[u8]) -> bool {
    line.name.as_slice() == name
        && line.mark.length == 232
        && is_digest(alloc, &line.mark.digest, COPY_DIGEST)
}

/// Whether copy.elf and `in` were given, which are copy.elf's bytes.
fn are_given(alloc: Global, lines: &[LeftLine]) -> bool {
    match lines {
        [first, second] => is_copy(alloc, first, b"copy.elf") && is_copy(alloc, second, b"in"),
        _ => false,
    }
}

/// Whether copy.elf, `in` and `out` are left, which are copy.elf's bytes.
fn are_left(alloc: Global, lines: &[LeftLine]) -> bool {
    match lines {
        [first, second, third] => {
            is_copy(alloc, first, b"copy.elf")
                && is_copy(alloc, second, b"in")
                && is_copy(alloc, third, b"out")
        }
        _ => false,
    }
}

/// Whether a command took 32 steps and wrote nothing.
fn is_silent(alloc: Global, line: &CommandLine) -> bool {
    line.steps == 32
        && line.stream1.length == 0
        && line.stream2.length == 0
        && is_digest(alloc, &line.stream1.digest, EMPTY_DIGEST)
}

/// Whether there were two commands, both of which took 32 steps and wrote nothing.
fn are_silent(alloc: Global, lines: &[CommandLine]) -> bool {
    match lines {
        [first, second] => is_silent(alloc, first) && is_silent(alloc, second),
        _ => false,
    }
}

/// Whether a report is of two copies.
fn is_of_two_copies(alloc: Global, report: &ScriptReport) -> bool {
    are_given(alloc, report.files.as_slice())
        && are_left(alloc, report.left.as_slice())
        && are_silent(alloc, report.commands.as_slice())
        && is_digest(alloc, &report.script, SCRIPT_DIGEST)
}

#[test]
fn a_script_runs_what_it_made(rt: HostRuntime) {
    let script = b"./copy.elf\n# made\n\"out\" x\n";
    assert!(rt; ends(&rt, rt.alloc(), script, None, 100_000, Ending::Copies));
    assert!(rt; ends(&rt, rt.alloc(), b"", None, 1, Ending::Nothing));
}

/// Whether a list takes two files, and refuses a name that it has and one of which nothing is left.
fn takes_two_of_four(files: &mut FileList) -> bool {
    files.push(b"b", b"1") == Ok(())
        && files.push(b"././a", b"2") == Ok(())
        && files.push(b"./b", b"3") == Err(PlaceRefusal::Twice)
        && files.push(b"./", b"4") == Err(PlaceRefusal::BadName)
}

/// Whether a list has these two files, in the order in which they were added.
fn has_both(files: &FileList) -> bool {
    match files.names() {
        [first, second] => {
            first.as_slice() == b"b".as_slice()
                && second.as_slice() == b"a".as_slice()
                && files.files().content(b"b") == Some(b"1".as_slice())
        }
        _ => false,
    }
}

fn check_list(rt: &impl Abort, files: &mut FileList) {
    assert!(rt; takes_two_of_four(files) && has_both(files));
}

#[test]
fn a_list_refuses_as_placing_does(rt: HostRuntime) {
    let mut files = FileList::new(rt.alloc()).expect(&rt, "memory");
    check_list(&rt, &mut files);
}
