//! Scripts of commands, by `kaem` on listed files. The expected answers were written down from docs/reference/kaem.md,
//! docs/reference/kaem-report.md and docs/reference/command-line.md.

use crate::scenes::{holds, saves, says};
use crate::worked::{COPY, EXIT, decoded, program_of};
use ddc_app::Status;
use ddc_base::{Bytes, MemShelf, OutOfMemory};
use std::alloc::Global;
use std::process::Abort;
use std::test::Fail;

/// The script that makes `out` and runs it.
pub(crate) const SCRIPT: &[u8] = b"./copy.elf\n# made\n\"out\" x\n";

pub(crate) const LIST: &[u8] = b"copy.elf\nin\n";

/// All files but the script and the list.
const ALL: &[u8] = b"copy.elf\n./in\nexit.elf\nseven.elf\ncall.elf\ntrap.elf\nsays.elf\ntext\n";

/// Exits with 7; makes the call 999; has no instruction at its start; writes `ELF` to stream 1 and exits with 0 in its step 9.
static PROGRAMS: &[(&str, &str)] = &[
    ("seven.elf", "130570009308d00573000000"),
    ("call.elf", "130500009308703e73000000"),
    ("trap.elf", "000000009308d00573000000"),
    (
        "says.elf",
        "13051000b705010093851500130630009308000473000000130500009308d00573000000",
    ),
];

/// Sets the copier under its names, and a text.
fn set_copier(alloc: Global, shelf: &mut MemShelf) -> Result<(), OutOfMemory> {
    let copy = decoded(alloc, COPY)?;
    for name in ["copy.elf", "in", "./in"] {
        shelf.set(name, copy.as_slice())?;
    }
    shelf.set("exit.elf", &EXIT)?;
    shelf.set("text", b"abc")
}

/// Sets a program.
fn set_program(
    alloc: Global,
    shelf: &mut MemShelf,
    name: &str,
    code: &str,
) -> Result<(), OutOfMemory> {
    shelf.set(name, program_of(alloc, code)?.as_slice())
}

/// The copier, its bytes once more as `in`, the programs, a text that is not a program, and a script and a list.
pub(crate) fn shelf_of(alloc: Global, script: &[u8], list: &[u8]) -> Result<MemShelf, OutOfMemory> {
    let mut shelf = MemShelf::new(alloc);
    set_copier(alloc, &mut shelf)?;
    for (name, code) in PROGRAMS {
        set_program(alloc, &mut shelf, name, code)?;
    }
    shelf.set("s", script)?;
    shelf.set("l", list)?;
    Ok(shelf)
}

/// Runs a script with a list over the files, and compares its status and text.
fn script_comes_to(
    rt: &impl Abort,
    alloc: Global,
    (script, list): (&[u8], &[u8]),
    steps: &str,
    ending: (Status, &str),
) -> Result<(), OutOfMemory> {
    let mut shelf = shelf_of(alloc, script, list)?;
    comes_to(rt, alloc, &mut shelf, steps, ending)
}

/// Runs `kaem s l r STEPS` over these files, and compares its status and text. Only a script that is done saves its report.
pub(crate) fn comes_to(
    rt: &impl Abort,
    alloc: Global,
    shelf: &mut MemShelf,
    steps: &str,
    ending: (Status, &str),
) -> Result<(), OutOfMemory> {
    says(rt, alloc, shelf, &["kaem", "s", "l", "r", steps], ending)?;
    assert_eq!(rt; saves(shelf) == 1, ending.0 == Status::Yes);
    Ok(())
}

/// The report of the script that runs what it made. Digests are sha256sum's.
pub(crate) const REPORT: &str = "\
kaem-report 1\n\
script 5b544eaf879399c9d37e34356a8842f02a6cb537d69cfa52ec6a88eb0dc91427\n\
file 636f70792e656c66 232 da8dcb705eb55cbf9f4852135f93a902f4584b973901f37abb829fd299d0b026\n\
file 696e 232 da8dcb705eb55cbf9f4852135f93a902f4584b973901f37abb829fd299d0b026\n\
command 32\n\
stream 1 0 e3b0c44298fc1c149afbf4c8996fb92427ae41e4649b934ca495991b7852b855\n\
stream 2 0 e3b0c44298fc1c149afbf4c8996fb92427ae41e4649b934ca495991b7852b855\n\
command 32\n\
stream 1 0 e3b0c44298fc1c149afbf4c8996fb92427ae41e4649b934ca495991b7852b855\n\
stream 2 0 e3b0c44298fc1c149afbf4c8996fb92427ae41e4649b934ca495991b7852b855\n\
left 636f70792e656c66 232 da8dcb705eb55cbf9f4852135f93a902f4584b973901f37abb829fd299d0b026\n\
left 696e 232 da8dcb705eb55cbf9f4852135f93a902f4584b973901f37abb829fd299d0b026\n\
left 6f7574 232 da8dcb705eb55cbf9f4852135f93a902f4584b973901f37abb829fd299d0b026\n\
end\n\
";

fn runs_what_it_made(
    rt: &impl Abort,
    alloc: Global,
    shelf: &mut MemShelf,
) -> Result<(), OutOfMemory> {
    let done = (Status::Yes, "done 2 steps 64\n");
    comes_to(rt, alloc, shelf, "100000", done)?;
    assert!(rt; holds(shelf, "r", REPORT.as_bytes()));
    // What a script leaves is in its report alone.
    assert!(rt; shelf.get("out").is_none());
    let yes = (Status::Yes, "yes 2\n");
    says(rt, alloc, shelf, &["kaem-verify", "s", "l", "r"], yes)?;
    assert_eq!(rt; saves(shelf), 1);
    Ok(())
}

#[test]
fn a_script_runs_what_it_made(rt: HostRuntime) -> Result<(), Fail> {
    let mut shelf = shelf_of(rt.alloc(), SCRIPT, LIST)?;
    runs_what_it_made(&rt, rt.alloc(), &mut shelf)?;
    Ok(())
}

/// A script, a list, what is printed, and the report.
type Done = (&'static [u8], &'static [u8], &'static str, &'static str);

static REPORTS: &[Done] = &[
    (
        b"says.elf\n",
        b"says.elf\n",
        "done 1 steps 9\n",
        "\
kaem-report 1\n\
script b92eff94bba30f3c7e1c11800d15b3081a6d7858070939e44c88b52af2575224\n\
file 736179732e656c66 156 e885a0830e3f9b94ad3361e6ba5311ae5c173d3c7ec606abc1809cc4cbad596a\n\
command 9\n\
stream 1 3 706abe3c90152075e656b661079730facf323f3ebccda7547ee1935c90845a09\n\
stream 2 0 e3b0c44298fc1c149afbf4c8996fb92427ae41e4649b934ca495991b7852b855\n\
left 736179732e656c66 156 e885a0830e3f9b94ad3361e6ba5311ae5c173d3c7ec606abc1809cc4cbad596a\n\
end\n\
",
    ),
    (
        b"",
        b"text\n",
        "done 0 steps 0\n",
        "\
kaem-report 1\n\
script e3b0c44298fc1c149afbf4c8996fb92427ae41e4649b934ca495991b7852b855\n\
file 74657874 3 ba7816bf8f01cfea414140de5dae2223b00361a396177a9cb410ff61f20015ad\n\
left 74657874 3 ba7816bf8f01cfea414140de5dae2223b00361a396177a9cb410ff61f20015ad\n\
end\n\
",
    ),
    (
        b"# a\n",
        b"",
        "done 0 steps 0\n",
        "\
kaem-report 1\n\
script fd99dedae7c3f7532f8a65d60f811a05dc9dc3e1c5936b0c554c98aafdad8c10\n\
end\n\
",
    ),
];

/// Runs a script, and compares its report.
fn saves_report(
    rt: &impl Abort,
    alloc: Global,
    shelf: &mut MemShelf,
    text: &str,
    report: &str,
) -> Result<(), OutOfMemory> {
    comes_to(rt, alloc, shelf, "9", (Status::Yes, text))?;
    assert!(rt; holds(shelf, "r", report.as_bytes()));
    Ok(())
}

fn script_saves_report(
    rt: &impl Abort,
    alloc: Global,
    &(script, list, text, report): &Done,
) -> Result<(), OutOfMemory> {
    let mut shelf = shelf_of(alloc, script, list)?;
    saves_report(rt, alloc, &mut shelf, text, report)
}

#[test]
fn reports_are_saved(rt: HostRuntime) -> Result<(), Fail> {
    for done in REPORTS {
        script_saves_report(&rt, rt.alloc(), done)?;
    }
    Ok(())
}

/// A script over all files, its steps, the status and the text.
type End = (&'static [u8], &'static str, Status, &'static str);

static ENDS: &[End] = &[
    (
        b"./copy.elf\n# made\n\"out\" x\n",
        "100000",
        Status::Yes,
        "done 2 steps 64\n",
    ),
    (
        b"./copy.elf\n# made\n\"out\" x\n",
        "281474976710656",
        Status::Yes,
        "done 2 steps 64\n",
    ),
    // the limit is each command's own
    (
        b"./copy.elf\n# made\n\"out\" x\n",
        "32",
        Status::Yes,
        "done 2 steps 64\n",
    ),
    (
        b"./copy.elf\n# made\n\"out\" x\n",
        "31",
        Status::RunFailed,
        "run failed 1 spent step 31\n",
    ),
    (
        b"says.elf\ncopy.elf\nout",
        "31",
        Status::RunFailed,
        "run failed 2 spent step 31\n",
    ),
    // no command, and commands with words
    (b"", "1", Status::Yes, "done 0 steps 0\n"),
    (b"# a\n \t\r\n", "1", Status::Yes, "done 0 steps 0\n"),
    (b"says.elf", "9", Status::Yes, "done 1 steps 9\n"),
    (
        b"says.elf \"\"\n././exit.elf a b\n\"./copy.elf\"",
        "32",
        Status::Yes,
        "done 3 steps 44\n",
    ),
    // a name that no file has, at the beginning and after commands
    (
        b"out\n",
        "9",
        Status::RunFailed,
        "run failed 1 no-program step 0\n",
    ),
    (
        b"exit.elf\nout\n",
        "9",
        Status::RunFailed,
        "run failed 2 no-program step 0\n",
    ),
    (
        b"copy.elf\nout\nouter",
        "32",
        Status::RunFailed,
        "run failed 3 no-program step 0\n",
    ),
    (
        b"Exit.elf",
        "9",
        Status::RunFailed,
        "run failed 1 no-program step 0\n",
    ),
    // a file that is no program
    (
        b"text a",
        "9",
        Status::RunFailed,
        "run failed 1 start elf 1 step 0\n",
    ),
    (
        b"exit.elf\nexit.elf\ntext",
        "9",
        Status::RunFailed,
        "run failed 3 start elf 1 step 0\n",
    ),
    // other ends, and nothing after them
    (
        b"seven.elf\nout",
        "9",
        Status::RunFailed,
        "run failed 1 status 7 step 3\n",
    ),
    (
        b"exit.elf\nseven.elf",
        "3",
        Status::RunFailed,
        "run failed 2 status 7 step 3\n",
    ),
    (
        b"call.elf\ntext",
        "9",
        Status::RunFailed,
        "run failed 1 call 999 step 3\n",
    ),
    (
        b"trap.elf",
        "9",
        Status::RunFailed,
        "run failed 1 trap illegal 00000000 step 1\n",
    ),
    (
        b"exit.elf",
        "2",
        Status::RunFailed,
        "run failed 1 spent step 2\n",
    ),
    (
        b"seven.elf",
        "2",
        Status::RunFailed,
        "run failed 1 spent step 2\n",
    ),
    (b"exit.elf", "3", Status::Yes, "done 1 steps 3\n"),
];

#[test]
fn scripts_end_with_their_commands(rt: HostRuntime) -> Result<(), Fail> {
    for &(script, steps, status, text) in ENDS {
        script_comes_to(&rt, rt.alloc(), (script, ALL), steps, (status, text))?;
    }
    Ok(())
}

/// Scripts that break a rule.
static REFUSED: &[(&[u8], &str)] = &[
    (b"\"a\n", "script refused 1 0\n"),
    (b"a \"b\" \"c", "script refused 1 6\n"),
    (b"a \"b\n\"\n", "script refused 1 2\n"),
    (b"a\n\n b \"\0", "script refused 1 6\n"),
    (b"a $b\n", "script refused 2 2\n"),
    (b"a b\\\nc\n", "script refused 2 2\n"),
    (b"a b\"c\"\n", "script refused 2 2\n"),
    (b"a \"b\"c\n", "script refused 2 2\n"),
    (b"a \"b\"\"c\"\n", "script refused 2 2\n"),
    (b"a b\0\n", "script refused 2 2\n"),
    (b"a \"b\0\"\n", "script refused 2 2\n"),
    (b"\"\" a\n", "script refused 2 0\n"),
    (b"a\n./\n", "script refused 2 2\n"),
    (b" \"././\" a\n", "script refused 2 1\n"),
    (b"a $\nb \"\n", "script refused 2 2\n"),
    (b"copy.elf\ncopy.elf $\n", "script refused 2 18\n"),
];

/// Both commands refuse the script.
fn both_refuse(
    rt: &impl Abort,
    alloc: Global,
    shelf: &mut MemShelf,
    text: &str,
) -> Result<(), OutOfMemory> {
    let refused = (Status::ScriptRefused, text);
    comes_to(rt, alloc, shelf, "9", refused)?;
    says(rt, alloc, shelf, &["kaem-verify", "s", "l", "r"], refused)
}

fn script_is_refused(
    rt: &impl Abort,
    alloc: Global,
    script: &[u8],
    text: &str,
) -> Result<(), OutOfMemory> {
    let mut shelf = shelf_of(alloc, script, LIST)?;
    both_refuse(rt, alloc, &mut shelf, text)
}

#[test]
fn scripts_are_refused_at_their_word(rt: HostRuntime) -> Result<(), Fail> {
    for &(script, text) in REFUSED {
        script_is_refused(&rt, rt.alloc(), script, text)?;
    }
    Ok(())
}

/// So many copies of some bytes, and an end.
fn many(alloc: Global, piece: &[u8], count: u64, end: &[u8]) -> Result<Bytes, OutOfMemory> {
    let mut text = Bytes::new(alloc);
    for _ in 0..count {
        text.extend(piece)?;
    }
    text.extend(end)?;
    Ok(text)
}

/// A piece, how often it stands, what stands after it, the status and the text.
type Limit = (&'static [u8], u64, &'static [u8], Status, &'static str);

static SCRIPT_LIMITS: &[Limit] = &[
    (b"exit.elf ", 64, b"# more", Status::Yes, "done 1 steps 3\n"),
    (
        b"exit.elf ",
        64,
        b"b",
        Status::ScriptRefused,
        "script refused 4 576\n",
    ),
    (
        b"exit.elf ",
        64,
        b"$",
        Status::ScriptRefused,
        "script refused 4 576\n",
    ),
    (
        b"exit.elf\n",
        4_096,
        b"# more",
        Status::Yes,
        "done 4096 steps 12288\n",
    ),
    (
        b"exit.elf\n",
        4_096,
        b" b",
        Status::ScriptRefused,
        "script refused 5 36865\n",
    ),
    (
        b"exit.elf\n",
        4_096,
        b"\"",
        Status::ScriptRefused,
        "script refused 5 36864\n",
    ),
    (
        b"a",
        255,
        b"",
        Status::RunFailed,
        "run failed 1 no-program step 0\n",
    ),
    (
        b"a",
        256,
        b"",
        Status::ScriptRefused,
        "script refused 3 0\n",
    ),
    (
        b"a",
        256,
        b"$",
        Status::ScriptRefused,
        "script refused 2 0\n",
    ),
    (b"\n", 1_048_576, b"", Status::Yes, "done 0 steps 0\n"),
    (
        b"\n",
        1_048_576,
        b"\n",
        Status::FileRefused,
        "file refused s too long\n",
    ),
];

/// Runs a script that is so long.
fn long_script(
    rt: &impl Abort,
    alloc: Global,
    &(piece, count, end, status, text): &Limit,
) -> Result<(), OutOfMemory> {
    let script = many(alloc, piece, count, end)?;
    script_comes_to(rt, alloc, (script.as_slice(), ALL), "3", (status, text))
}

#[test]
fn scripts_keep_their_limits(rt: HostRuntime) -> Result<(), Fail> {
    for limit in SCRIPT_LIMITS {
        long_script(&rt, rt.alloc(), limit)?;
    }
    Ok(())
}

/// A list, the status and the text of a script that runs exit.elf.
static LISTS: &[(&[u8], Status, &str)] = &[
    (b"exit.elf\n", Status::Yes, "done 1 steps 3\n"),
    (b"in\nexit.elf\n", Status::Yes, "done 1 steps 3\n"),
    // the script and the list may be listed
    (b"s\nl\nexit.elf\n", Status::Yes, "done 1 steps 3\n"),
    // no file, and none of the program's name
    (b"", Status::RunFailed, "run failed 1 no-program step 0\n"),
    (
        b"in\n",
        Status::RunFailed,
        "run failed 1 no-program step 0\n",
    ),
    // what is loaded is the word as it was written
    (
        b"././exit.elf\n",
        Status::FileRefused,
        "file refused ././exit.elf absent\n",
    ),
    (
        b"exit.elf\nnone\nalso\n",
        Status::FileRefused,
        "file refused none absent\n",
    ),
    (b"! ~\n", Status::ListRefused, "list refused 1\n"),
    (b"!\n~\n", Status::FileRefused, "file refused ! absent\n"),
    // lines that are not ended, and those that are no word
    (b"in", Status::ListRefused, "list refused 1\n"),
    (b"exit.elf\nin", Status::ListRefused, "list refused 2\n"),
    (b"\n", Status::ListRefused, "list refused 1\n"),
    (b"in\n\n", Status::ListRefused, "list refused 2\n"),
    (b"exit.elf\n\nin\n", Status::ListRefused, "list refused 2\n"),
    (b"in \n", Status::ListRefused, "list refused 1\n"),
    (b" in\n", Status::ListRefused, "list refused 1\n"),
    (b"in\t\n", Status::ListRefused, "list refused 1\n"),
    (b"in\r\n", Status::ListRefused, "list refused 1\n"),
    (b"in\0\n", Status::ListRefused, "list refused 1\n"),
    (b"i\x7f\n", Status::ListRefused, "list refused 1\n"),
    (b"i\xf6\n", Status::ListRefused, "list refused 1\n"),
    // words of which nothing is left, or that stand for an earlier line's file
    (b"./\n", Status::ListRefused, "list refused 1\n"),
    (b"in\n././\n", Status::ListRefused, "list refused 2\n"),
    (b"in\n./in\n", Status::ListRefused, "list refused 2\n"),
    (b"in\nin\n", Status::ListRefused, "list refused 2\n"),
    (
        b"./in\ntext\n././in\n",
        Status::ListRefused,
        "list refused 3\n",
    ),
    (b"in\nin", Status::ListRefused, "list refused 2\n"),
    // the report
    (b"r\n", Status::Usage, "usage\n"),
    (b"exit.elf\n./r\n", Status::Usage, "usage\n"),
    (b"././r\nnone\n", Status::Usage, "usage\n"),
    (
        b"r/\nr.r\n",
        Status::FileRefused,
        "file refused r/ absent\n",
    ),
];

#[test]
fn lists_are_judged_before_their_files(rt: HostRuntime) -> Result<(), Fail> {
    for &(list, status, text) in LISTS {
        script_comes_to(&rt, rt.alloc(), (b"exit.elf\n", list), "3", (status, text))?;
    }
    Ok(())
}

static LIST_LIMITS: &[Limit] = &[
    (
        b"a",
        255,
        b"\n",
        Status::FileRefused,
        "file refused aaaaaaaaaaaaaaaaaaaaaaaaaaaaaaaaaaaaaaaaaaaaaaaaaaaaaaaaaaaaaaaaaaaaaaaaaaaaaaaaaaaaaaaaaaaaaaaaaaaaaaaaaaaaaaaaaaaaaaaaaaaaaaaaaaaaaaaaaaaaaaaaaaaaaaaaaaaaaaaaaaaaaaaaaaaaaaaaaaaaaaaaaaaaaaaaaaaaaaaaaaaaaaaaaaaaaaaaaaaaaaaaaaaaaaaaaaaaaaaaaaaaaaaaaaaaaaa absent\n",
    ),
    (b"a", 256, b"\n", Status::ListRefused, "list refused 1\n"),
    (
        b"./",
        127,
        b"a\n",
        Status::FileRefused,
        "file refused ./././././././././././././././././././././././././././././././././././././././././././././././././././././././././././././././././././././././././././././././././././././././././././././././././././././././././././././././././././././././././././././././a absent\n",
    ),
    (b"./", 127, b"ab\n", Status::ListRefused, "list refused 1\n"),
    (
        b"\n",
        1_048_576,
        b"",
        Status::ListRefused,
        "list refused 1\n",
    ),
    (
        b"\n",
        1_048_577,
        b"",
        Status::FileRefused,
        "file refused l too long\n",
    ),
    (
        b"in ",
        349_525,
        b"\n",
        Status::ListRefused,
        "list refused 1\n",
    ),
];

/// Runs no script with a list that is so long.
fn long_list(
    rt: &impl Abort,
    alloc: Global,
    &(piece, count, end, status, text): &Limit,
) -> Result<(), OutOfMemory> {
    let list = many(alloc, piece, count, end)?;
    script_comes_to(rt, alloc, (b"", list.as_slice()), "3", (status, text))
}

#[test]
fn lists_keep_their_limits(rt: HostRuntime) -> Result<(), Fail> {
    for limit in LIST_LIMITS {
        long_list(&rt, rt.alloc(), limit)?;
    }
    Ok(())
}

/// Sets as many empty files as this, and the list of them with an end.
fn set_listed(
    alloc: Global,
    shelf: &mut MemShelf,
    count: u64,
    end: &str,
) -> Result<(), OutOfMemory> {
    let mut list = Bytes::new(alloc);
    for number in 0..count {
        set_empty(alloc, shelf, &mut list, number)?;
    }
    list.extend(end.as_bytes())?;
    shelf.set("l", list.as_slice())
}

/// Sets an empty file whose name has this number, and adds its line to the list.
fn set_empty(
    alloc: Global,
    shelf: &mut MemShelf,
    list: &mut Bytes,
    number: u64,
) -> Result<(), OutOfMemory> {
    let name = format!(in alloc; "a{number}")?;
    shelf.set(name.as_str(), b"")?;
    list.extend(name.as_bytes())?;
    list.push(b'\n')
}

/// How many files are listed, the end of the list, the status and the text.
static COUNTS: &[(u64, &str, Status, &str)] = &[
    (4_096, "", Status::Yes, "done 0 steps 0\n"),
    (4_096, "a", Status::ListRefused, "list refused 4097\n"),
    (4_096, "b\n", Status::ListRefused, "list refused 4097\n"),
    (4_096, "\n\n", Status::ListRefused, "list refused 4097\n"),
    (4_095, "a0\nb\n", Status::ListRefused, "list refused 4096\n"),
];

fn many_listed(
    rt: &impl Abort,
    alloc: Global,
    (count, end): (u64, &str),
    ending: (Status, &str),
) -> Result<(), OutOfMemory> {
    let mut shelf = shelf_of(alloc, b"", b"")?;
    set_listed(alloc, &mut shelf, count, end)?;
    comes_to(rt, alloc, &mut shelf, "3", ending)
}

#[test]
fn a_list_has_at_most_4096_files(rt: HostRuntime) -> Result<(), Fail> {
    for &(count, end, status, text) in COUNTS {
        many_listed(&rt, rt.alloc(), (count, end), (status, text))?;
    }
    Ok(())
}
