//! The example of docs/reference/recipe.md and that page's changes of it.

use crate::texts::{Change, EXAMPLE, answers, answers_twice};
use ddc_base::OutOfMemory;
use std::alloc::Global;
use std::process::Abort;
use std::test::Fail;

/// An input that implements the source.
const IMPLEMENTS: Change = (
    "path = \"copy.elf\"",
    "path = \"copy.elf\"\nimplements = \"copy_src\"",
);

/// No table `source`.
const NO_SOURCE: Change = (
    "[[source]]\nname = \"copy_src\"\nlang = \"hex0\"\nfiles = [\"text\"]\n",
    "",
);

/// Nothing is changed.
const NOTHING: Change = ("", "");

/// Two changes of the example, and the answer.
type Row = (Change, Change, &'static str);

/// Changes of the top.
static TOP: [Row; 9] = [
    (("format = 1\n", "format\nformat = 1\n"), NOTHING, "1"),
    (("format = 1", ""), NOTHING, "2 top 0 format"),
    (("format = 1", "format = \"1\""), NOTHING, "2 top 0 format"),
    (("format = 1", "format = 3"), NOTHING, "8 top 0 format"),
    (("format = 1", "format = 2"), NOTHING, "2 compare 0 stages"),
    (
        ("stage = \"two\"", "stage = \"two\"\nstages = [\"two\"]"),
        NOTHING,
        "3 compare 0",
    ),
    (
        NO_SOURCE,
        ("format = 1", "format = 1\nsource = 5"),
        "2 top 0 source",
    ),
    (
        NO_SOURCE,
        ("format = 1", "format = 1\nsource = [5]"),
        "2 top 0 source",
    ),
    (
        ("format = 1", "format = 1\ntitle = \"audit\""),
        NOTHING,
        "3 top 0",
    ),
];

/// Changes of inputs and sources.
static INPUTS_AND_SOURCES: [Row; 8] = [
    (
        ("name = \"prog\"", "name = \"Prog\""),
        NOTHING,
        "4 input 1 name",
    ),
    (
        ("path = \"copy.elf\"", "path = \"\""),
        NOTHING,
        "7 input 1 path",
    ),
    (
        ("path = \"copy.elf\"", "path = \"copy.elf\"\nfile = \"x\""),
        NOTHING,
        "3 input 1",
    ),
    (
        ("name = \"copy_src\"", "name = \"text\""),
        NOTHING,
        "5 source 1 name",
    ),
    (
        ("lang = \"hex0\"", "lang = \"hex3\""),
        NOTHING,
        "4 source 1 lang",
    ),
    (
        ("lang = \"hex0\"", "lang = \"hex0\"\nbase = -1"),
        NOTHING,
        "8 source 1 base",
    ),
    (
        ("files = [\"text\"]", "files = []"),
        NOTHING,
        "2 source 1 files",
    ),
    (
        ("files = [\"text\"]", "files = [\"txt\"]"),
        NOTHING,
        "6 source 1 files",
    ),
];

/// Changes of a stage's values.
static STAGES: [Row; 8] = [
    (
        ("args = [\"copy\"]", "args = []"),
        NOTHING,
        "2 stage 1 args",
    ),
    (
        ("args = [\"copy\"]", "args = [\"a\\u0000\"]"),
        NOTHING,
        "7 stage 1 args",
    ),
    ((", from = \"prog\"", ""), NOTHING, "2 stage 1 files"),
    (
        ("from = \"prog\"", "from = \"prog\", mode = 5"),
        NOTHING,
        "3 stage 1",
    ),
    (
        (
            "from = \"prog\" }",
            "from = \"prog\" }, { path = \"./in\", from = \"src\" }",
        ),
        NOTHING,
        "5 stage 1 files",
    ),
    (
        ("from = \"prog\"", "from = \"two\""),
        NOTHING,
        "6 stage 1 files",
    ),
    (
        ("output = \"out\"", "output = \"./\""),
        NOTHING,
        "7 stage 1 output",
    ),
    (("steps = 100000", "steps = 0"), NOTHING, "8 stage 1 steps"),
];

/// Names that stand for nothing that is there by then.
static NAMES: [Row; 5] = [
    (
        ("program = \"prog\"", "program = \"two\""),
        NOTHING,
        "6 stage 1 program",
    ),
    (
        ("check = \"copy_src\"", "check = \"prog\""),
        NOTHING,
        "6 stage 1 check",
    ),
    (
        ("files = [\"text\"]", "files = [\"two\"]"),
        NOTHING,
        "6 stage 1 check",
    ),
    (
        ("lang = \"hex0\"", "lang = \"other\""),
        NOTHING,
        "4 stage 1 check",
    ),
    (
        ("stage = \"two\"", "stage = \"bin\""),
        NOTHING,
        "6 compare 0 stage",
    ),
];

/// Programs and their sources.
static PROGRAMS: [Row; 6] = [
    (
        ("check = \"copy_src\"", ""),
        NOTHING,
        "2 input 1 implements",
    ),
    (
        ("check = \"copy_src\"", ""),
        IMPLEMENTS,
        "2 stage 1 becomes",
    ),
    (IMPLEMENTS, ("check =", "becomes ="), "accepted"),
    (NOTHING, NOTHING, "accepted"),
    (
        IMPLEMENTS,
        ("program = \"one\"", "program = \"prog\""),
        "accepted",
    ),
    (
        ("lang = \"hex0\"", "lang = \"m1\""),
        NOTHING,
        "2 stage 1 becomes",
    ),
];

fn compare(rt: &impl Abort, alloc: Global, rows: &[Row]) -> Result<(), OutOfMemory> {
    for row in rows {
        assert!(rt;
            answers_twice(alloc, EXAMPLE, row.0, row.1, row.2)?,
            "{row:?}"
        );
    }
    Ok(())
}

fn compare_all(rt: &impl Abort, alloc: Global, tables: &[&[Row]]) -> Result<(), OutOfMemory> {
    for rows in tables {
        compare(rt, alloc, rows)?;
    }
    Ok(())
}

fn compare_changes(rt: &impl Abort, alloc: Global) -> Result<(), OutOfMemory> {
    let tables: [&[Row]; 5] = [&TOP, &INPUTS_AND_SOURCES, &STAGES, &NAMES, &PROGRAMS];
    compare_all(rt, alloc, &tables)
}

/// Texts that are no changes of it.
fn answers_others(alloc: Global) -> Result<bool, OutOfMemory> {
    Ok(answers(alloc, b"format = 1 # \xff", "1")? && answers(alloc, b"", "2 top 0 format")?)
}

#[test]
fn changes_of_the_example(rt: HostRuntime) -> Result<(), Fail> {
    compare_changes(&rt, rt.alloc())?;
    assert!(rt; answers_others(rt.alloc())?);
    Ok(())
}
