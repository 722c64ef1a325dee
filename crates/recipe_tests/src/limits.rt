//! Lengths at each limit and one past it: a piece is repeated so often between two others.

use crate::repeated;
use crate::texts::{GOOD, answers, answers_once};
use ddc_base::OutOfMemory;
use std::alloc::Global;
use std::process::Abort;
use std::test::Fail;

/// What is changed; the piece in front, the one that is repeated, the one after; how often, and the answer.
type Row = (&'static str, [&'static str; 3], usize, &'static str);

static LENGTHS: [Row; 17] = [
    (
        "name = \"bin\"",
        ["name = \"", "b", "\""],
        32,
        "6 compare 0 binary",
    ),
    (
        "name = \"bin\"",
        ["name = \"", "b", "\""],
        33,
        "4 input 3 name",
    ),
    (
        "path = \"b.bin\"",
        ["path = \"", "b", "\""],
        255,
        "accepted",
    ),
    (
        "path = \"b.bin\"",
        ["path = \"", "b", "\""],
        256,
        "7 input 3 path",
    ),
    (
        "files = [\"text\"]",
        ["files = [", "\"text\", ", "]"],
        64,
        "accepted",
    ),
    (
        "files = [\"text\"]",
        ["files = [", "\"text\", ", "]"],
        65,
        "9 source 1 files",
    ),
    (
        "args = [\"copy\"]",
        ["args = [", "\"copy\", ", "]"],
        64,
        "accepted",
    ),
    (
        "args = [\"copy\"]",
        ["args = [", "\"copy\", ", "]"],
        65,
        "9 stage 1 args",
    ),
    (
        "args = [\"copy\"]",
        ["args = [\"", "c", "\"]"],
        255,
        "accepted",
    ),
    (
        "args = [\"copy\"]",
        ["args = [\"", "c", "\"]"],
        256,
        "7 stage 1 args",
    ),
    (
        "env = [\"A=1\"]",
        ["env = [", "\"A=1\", ", "]"],
        64,
        "accepted",
    ),
    (
        "env = [\"A=1\"]",
        ["env = [", "\"A=1\", ", "]"],
        65,
        "9 stage 1 env",
    ),
    (
        "path = \"in\"",
        ["path = \"././", "i", "\""],
        255,
        "accepted",
    ),
    (
        "path = \"in\"",
        ["path = \"", "i", "\""],
        256,
        "7 stage 1 files",
    ),
    (
        "output = \"out\"",
        ["output = \"", "./", "o\""],
        200,
        "accepted",
    ),
    (
        "output = \"out\"",
        ["output = \"", "o", "\""],
        256,
        "7 stage 1 output",
    ),
    (
        "{ path = \"in\", from = \"prog\" }",
        ["", "{}, ", ""],
        257,
        "9 stage 1 files",
    ),
];

/// Counted tables: whole texts with so many of them.
static TABLES: [Row; 6] = [
    (
        "",
        ["format = 1\ninput = [", "{}, ", "]"],
        256,
        "2 top 0 stage",
    ),
    (
        "",
        ["format = 1\ninput = [", "{}, ", "]"],
        257,
        "9 top 0 input",
    ),
    (
        "",
        ["format = 1\ninput = [{}]\nsource = [", "{}, ", "]"],
        256,
        "2 top 0 stage",
    ),
    (
        "",
        ["format = 1\ninput = [{}]\nsource = [", "{}, ", "]"],
        257,
        "9 top 0 source",
    ),
    (
        "",
        ["format = 1\ninput = [{}]\nstage = [", "{}, ", "]"],
        256,
        "2 top 0 compare",
    ),
    (
        "",
        ["format = 1\ninput = [{}]\nstage = [", "{}, ", "]"],
        257,
        "9 top 0 stage",
    ),
];

/// Whether the reader answers to the good recipe with the pieces of a row in place of one.
fn answers_value(alloc: Global, row: &Row) -> Result<bool, OutOfMemory> {
    let (old, [prefix, piece, back], count, wanted) = *row;
    let new = repeated(alloc, prefix, piece, count, back)?;
    answers_once(alloc, GOOD, (old, new.as_str()), wanted)
}

/// Whether the reader answers to the pieces of a row.
fn answers_table(alloc: Global, row: &Row) -> Result<bool, OutOfMemory> {
    let (_, [prefix, piece, back], count, wanted) = *row;
    let text = repeated(alloc, prefix, piece, count, back)?;
    answers(alloc, text.as_bytes(), wanted)
}

fn check_values(rt: &impl Abort, alloc: Global, rows: &[Row]) -> Result<(), OutOfMemory> {
    for row in rows {
        assert!(rt; answers_value(alloc, row)?, "{row:?}");
    }
    Ok(())
}

fn check_tables(rt: &impl Abort, alloc: Global, rows: &[Row]) -> Result<(), OutOfMemory> {
    for row in rows {
        assert!(rt; answers_table(alloc, row)?, "{row:?}");
    }
    Ok(())
}

#[test]
fn of_values(rt: HostRuntime) -> Result<(), Fail> {
    Ok(check_values(&rt, rt.alloc(), &LENGTHS)?)
}

#[test]
fn of_tables(rt: HostRuntime) -> Result<(), Fail> {
    Ok(check_tables(&rt, rt.alloc(), &TABLES)?)
}
