//! Two faults at once, or more: which one is answered.

use crate::texts::{Change, GOOD, answers_twice};
use ddc_base::OutOfMemory;
use std::alloc::Global;
use std::process::Abort;
use std::test::Fail;

/// What is set against what, two changes, and the answer.
type Row = (&'static str, Change, Change, &'static str);

static FIRST_WALK: [Row; 17] = [
    (
        "a key and a later one",
        ("format = 1", "format = 3"),
        ("\n[compare]", "\n[compared]"),
        "8 top 0 format",
    ),
    (
        "top's unknown key and a table",
        ("format = 1", "format = 1\ntitle = 1"),
        ("name = \"prog\"", "name = 5"),
        "3 top 0",
    ),
    (
        "an unknown key and a later key",
        ("name = \"prog\"", "file = 1\nname = \"prog\""),
        ("path = \"copy.elf\"", "path = 5"),
        "2 input 1 path",
    ),
    (
        "an unknown key and a later table",
        ("path = \"copy.elf\"", "file = 1\npath = \"copy.elf\""),
        ("name = \"text\"", "name = 5"),
        "3 input 1",
    ),
    (
        "a table and one of a later kind",
        ("path = \"b.bin\"", "path = 5"),
        ("name = \"copy_src\"", "name = 5"),
        "2 input 3 path",
    ),
    (
        "a stage and compare",
        ("stage = \"three\"", "stage = 3"),
        ("steps = 6", "steps = 0"),
        "8 stage 3 steps",
    ),
    (
        "no name and a name that stands twice",
        ("name = \"text\"", "name = \"prog\""),
        ("name = \"bin\"", "name = 5"),
        "5 input 2 name",
    ),
    (
        "an element and a later one",
        ("args = [\"copy\"]", "args = [\"a\\u0000\", 5]"),
        ("steps = 6", "steps = 0"),
        "7 stage 1 args",
    ),
    (
        "an element and an earlier one",
        ("args = [\"copy\"]", "args = [5, \"a\\u0000\"]"),
        ("steps = 6", "steps = 0"),
        "2 stage 1 args",
    ),
    (
        "a missing key and an unknown one, in an entry",
        ("path = \"in\", ", "mode = 5, "),
        ("steps = 6", "steps = 0"),
        "2 stage 1 files",
    ),
    (
        "an unknown key and no name, in an entry",
        ("from = \"prog\"", "from = \"Prog\", mode = 5"),
        ("steps = 6", "steps = 0"),
        "3 stage 1",
    ),
    (
        "no name and no path, in an entry",
        ("from = \"prog\"", "from = \"Prog\""),
        ("path = \"in\"", "path = \"\""),
        "4 stage 1 files",
    ),
    (
        "no path, and a path twice in a later entry",
        ("{ path", "{ path = \"\", from = \"bin\" }, { path"),
        ("path = \"in\"", "path = \"\""),
        "7 stage 1 files",
    ),
    (
        "an entry and a later key",
        ("from = \"prog\"", "from = \"prog\", mode = 5"),
        ("output = \"out\"", "output = 5"),
        "3 stage 1",
    ),
    (
        "a key before the entries",
        ("env = [\"A=1\"]", "env = 5"),
        ("from = \"prog\"", "from = 5"),
        "2 stage 1 env",
    ),
    (
        "the first walk and the second",
        ("implements = \"copy_src\"", "implements = \"gone\""),
        ("binary = \"bin\"", "binary = 5"),
        "2 compare 0 binary",
    ),
    (
        "no TOML and all else",
        ("format = 1", "format = 3"),
        ("binary = \"bin\"", "binary = "),
        "1",
    ),
];

static SECOND_WALK: [Row; 13] = [
    (
        "an input and a source",
        ("files = [\"text\"]", "files = [\"gone\"]"),
        ("implements = \"copy_src\"", "implements = \"gone\""),
        "6 input 1 implements",
    ),
    (
        "a source and a stage",
        ("files = [\"text\"]", "files = [\"gone\"]"),
        ("program = \"prog\"", "program = \"gone\""),
        "6 source 1 files",
    ),
    (
        "two stages",
        ("program = \"prog\"", "program = \"gone\""),
        ("program = \"one\"", "program = \"gone\""),
        "6 stage 1 program",
    ),
    (
        "program and files",
        ("program = \"prog\"", "program = \"gone\""),
        ("from = \"prog\"", "from = \"gone\""),
        "6 stage 1 program",
    ),
    (
        "files and check",
        ("from = \"prog\"", "from = \"gone\""),
        ("check = \"copy_src\"", "check = \"gone\""),
        "6 stage 1 files",
    ),
    (
        "check and becomes",
        (
            "check = \"copy_src\"",
            "check = \"gone\"\nbecomes = \"gone\"",
        ),
        ("steps = 6", "steps = 7"),
        "6 stage 1 check",
    ),
    (
        "a source that is not made yet, in no defined language",
        ("check = \"copy_src\"", "check = \"rest_src\""),
        ("steps = 6", "steps = 7"),
        "6 stage 1 check",
    ),
    (
        "the same, made",
        ("becomes = \"rest_src\"", "check = \"rest_src\""),
        ("steps = 6", "steps = 7"),
        "4 stage 2 check",
    ),
    (
        "a stage and compare",
        ("program = \"two\"", "program = \"gone\""),
        ("stage = \"three\"", "stage = \"gone\""),
        "6 stage 3 program",
    ),
    (
        "compare's keys",
        ("stage = \"three\"", "stage = \"gone\""),
        ("binary = \"bin\"", "binary = \"gone\""),
        "6 compare 0 stage",
    ),
    (
        "compare and a program without a source",
        ("becomes = \"rest_src\"", ""),
        ("binary = \"bin\"", "binary = \"gone\""),
        "6 compare 0 binary",
    ),
    (
        "two programs without a source",
        ("check = \"copy_src\"", "becomes = \"copy_src\""),
        ("implements = \"copy_src\"", ""),
        "2 input 1 implements",
    ),
    (
        "a check in m1, which tells no source",
        ("lang = \"hex0\"", "lang = \"m1\""),
        ("implements = \"copy_src\"", ""),
        "2 stage 1 becomes",
    ),
];

fn compare(rt: &impl Abort, alloc: Global, rows: &[Row]) -> Result<(), OutOfMemory> {
    for row in rows {
        assert!(rt; answers_twice(alloc, GOOD, row.1, row.2, row.3)?, "{row:?}");
    }
    Ok(())
}

#[test]
fn of_the_first_walk(rt: HostRuntime) -> Result<(), Fail> {
    compare(&rt, rt.alloc(), &FIRST_WALK)?;
    Ok(())
}

#[test]
fn of_the_second_walk(rt: HostRuntime) -> Result<(), Fail> {
    compare(&rt, rt.alloc(), &SECOND_WALK)?;
    Ok(())
}
