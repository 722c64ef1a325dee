//! One change of the good recipe for each refusal at each key.

use crate::texts::{GOOD, answers_once};
use ddc_base::OutOfMemory;
use std::alloc::Global;
use std::process::Abort;
use std::test::Fail;

/// What is changed, into what, and the answer.
type Row = (&'static str, &'static str, &'static str);

static TOP: [Row; 22] = [
    ("", "", "accepted"),
    ("format = 1", "format", "1"),
    ("format = 1", "", "2 top 0 format"),
    ("format = 1", "format = 1.0", "2 top 0 format"),
    ("format = 1", "format = 0", "8 top 0 format"),
    ("format = 1", "format = 3", "8 top 0 format"),
    ("format = 1", "format = 2", "2 compare 0 stages"),
    ("format = 1", "format = 1\ntitle = 1", "3 top 0"),
    ("\n[compare]", "\n[compared]", "2 top 0 compare"),
    ("\n[compare]", "\n[[compare]]", "2 top 0 compare"),
    ("\nstage = \"three\"", "", "2 compare 0 stage"),
    ("stage = \"three\"", "stage = 3", "2 compare 0 stage"),
    (
        "stage = \"three\"",
        "stage = \"Three\"",
        "4 compare 0 stage",
    ),
    ("stage = \"three\"", "stage = \"bin\"", "6 compare 0 stage"),
    ("\nbinary = \"bin\"", "", "2 compare 0 binary"),
    (
        "binary = \"bin\"",
        "binary = [\"bin\"]",
        "2 compare 0 binary",
    ),
    ("binary = \"bin\"", "binary = \"\"", "4 compare 0 binary"),
    (
        "binary = \"bin\"",
        "binary = \"three\"",
        "6 compare 0 binary",
    ),
    (
        "binary = \"bin\"",
        "binary = \"bin\"\nstages = []",
        "3 compare 0",
    ),
    ("binary = \"bin\"", "binary = \"text\"", "accepted"),
    ("stage = \"three\"", "stage = \"one\"", "accepted"),
    ("format = 1", "# a comment\nformat = 0x1", "accepted"),
];

static INPUTS: [Row; 13] = [
    ("\nname = \"prog\"", "", "2 input 1 name"),
    ("name = \"text\"", "name = 5", "2 input 2 name"),
    ("name = \"text\"", "name = \"te-xt\"", "4 input 2 name"),
    ("name = \"text\"", "name = \"prog\"", "5 input 2 name"),
    ("\npath = \"copy.elf\"", "", "2 input 1 path"),
    ("path = \"copy.elf\"", "path = true", "2 input 1 path"),
    ("path = \"copy.elf\"", "path = \"\"", "7 input 1 path"),
    ("path = \"copy.elf\"", "path = \"a\\tb\"", "7 input 1 path"),
    (
        "path = \"copy.elf\"",
        "path = \"a\\u007f\"",
        "7 input 1 path",
    ),
    (
        "implements = \"copy_src\"",
        "implements = 5",
        "2 input 1 implements",
    ),
    (
        "implements = \"copy_src\"",
        "implements = \"\"",
        "4 input 1 implements",
    ),
    (
        "implements = \"copy_src\"",
        "implements = \"prog\"",
        "6 input 1 implements",
    ),
    (
        "path = \"b.bin\"",
        "path = \"b.bin\"\nfile = 1",
        "3 input 3",
    ),
];

static SOURCES: [Row; 21] = [
    ("\nname = \"copy_src\"", "", "2 source 1 name"),
    ("name = \"copy_src\"", "name = []", "2 source 1 name"),
    (
        "name = \"copy_src\"",
        "name = \"copy.src\"",
        "4 source 1 name",
    ),
    ("name = \"copy_src\"", "name = \"text\"", "5 source 1 name"),
    (
        "name = \"rest_src\"",
        "name = \"copy_src\"",
        "5 source 2 name",
    ),
    ("\nlang = \"hex0\"", "", "2 source 1 lang"),
    ("lang = \"hex0\"", "lang = 0", "2 source 1 lang"),
    ("lang = \"hex0\"", "lang = \"hex3\"", "4 source 1 lang"),
    ("lang = \"hex0\"", "lang = \"Hex0\"", "4 source 1 lang"),
    ("lang = \"hex0\"", "lang = \"other\"", "4 stage 1 check"),
    ("base = 65536", "base = \"65536\"", "2 source 1 base"),
    ("base = 65536", "base = -1", "8 source 1 base"),
    ("base = 65536", "base = 137438953473", "8 source 1 base"),
    ("base = 65536", "base = 137438953472", "accepted"),
    ("\nfiles = [\"text\"]", "", "2 source 1 files"),
    ("files = [\"text\"]", "files = \"text\"", "2 source 1 files"),
    ("files = [\"text\"]", "files = []", "2 source 1 files"),
    (
        "files = [\"text\"]",
        "files = [\"text\", 5]",
        "2 source 1 files",
    ),
    (
        "files = [\"text\"]",
        "files = [\"Text\"]",
        "4 source 1 files",
    ),
    (
        "files = [\"text\"]",
        "files = [\"copy_src\"]",
        "6 source 1 files",
    ),
    (
        "files = [\"text\"]",
        "files = [\"text\"]\nfile = 1",
        "3 source 1",
    ),
];

static STAGE_NAMES: [Row; 22] = [
    ("\nname = \"one\"", "", "2 stage 1 name"),
    ("name = \"one\"", "name = 1", "2 stage 1 name"),
    ("name = \"one\"", "name = \"One\"", "4 stage 1 name"),
    ("name = \"one\"", "name = \"bin\"", "5 stage 1 name"),
    ("name = \"one\"", "name = \"rest_src\"", "5 stage 1 name"),
    ("name = \"two\"", "name = \"one\"", "5 stage 2 name"),
    ("\nprogram = \"prog\"", "", "2 stage 1 program"),
    ("program = \"prog\"", "program = 1", "2 stage 1 program"),
    (
        "program = \"prog\"",
        "program = \"/bin/sh\"",
        "4 stage 1 program",
    ),
    (
        "program = \"prog\"",
        "program = \"copy_src\"",
        "6 stage 1 program",
    ),
    (
        "program = \"prog\"",
        "program = \"one\"",
        "6 stage 1 program",
    ),
    (
        "program = \"prog\"",
        "program = \"two\"",
        "6 stage 1 program",
    ),
    ("check = \"copy_src\"", "check = {}", "2 stage 1 check"),
    ("check = \"copy_src\"", "check = \"-\"", "4 stage 1 check"),
    (
        "check = \"copy_src\"",
        "check = \"text\"",
        "6 stage 1 check",
    ),
    (
        "check = \"copy_src\"",
        "check = \"rest_src\"",
        "6 stage 1 check",
    ),
    ("becomes = \"rest_src\"", "becomes = 1", "2 stage 2 becomes"),
    (
        "becomes = \"rest_src\"",
        "becomes = \"\"",
        "4 stage 2 becomes",
    ),
    (
        "becomes = \"rest_src\"",
        "becomes = \"two\"",
        "6 stage 2 becomes",
    ),
    ("becomes = \"rest_src\"", "", "2 stage 2 becomes"),
    ("implements = \"copy_src\"", "", "accepted"),
    (
        "becomes = \"rest_src\"",
        "becomes = \"rest_src\"\ntimeout = 5",
        "3 stage 2",
    ),
];

static STAGE_VALUES: [Row; 35] = [
    ("\nargs = [\"copy\"]", "", "2 stage 1 args"),
    ("args = [\"copy\"]", "args = \"copy\"", "2 stage 1 args"),
    ("args = [\"copy\"]", "args = []", "2 stage 1 args"),
    (
        "args = [\"copy\"]",
        "args = [\"copy\", 5]",
        "2 stage 1 args",
    ),
    (
        "args = [\"copy\"]",
        "args = [\"a\\u0000\"]",
        "7 stage 1 args",
    ),
    (
        "args = [\"copy\"]",
        "args = [\"\", \"\u{fc}\\n\"]",
        "accepted",
    ),
    ("env = [\"A=1\"]", "env = 5", "2 stage 1 env"),
    ("env = [\"A=1\"]", "env = [5]", "2 stage 1 env"),
    (
        "env = [\"A=1\"]",
        "env = [\"A=1\", \"\\u0000\"]",
        "7 stage 1 env",
    ),
    ("env = [\"A=1\"]", "env = []", "accepted"),
    (
        "files = [{ path = \"in\", from = \"prog\" }]",
        "files = 5",
        "2 stage 1 files",
    ),
    (
        "files = [{ path = \"in\", from = \"prog\" }]",
        "files = [5]",
        "2 stage 1 files",
    ),
    (
        "files = [{ path = \"in\", from = \"prog\" }]",
        "files = []",
        "accepted",
    ),
    ("path = \"in\", ", "", "2 stage 1 files"),
    ("path = \"in\"", "path = 5", "2 stage 1 files"),
    ("path = \"in\"", "path = \"\"", "7 stage 1 files"),
    ("path = \"in\"", "path = \"./\"", "7 stage 1 files"),
    ("path = \"in\"", "path = \"a\\n\"", "7 stage 1 files"),
    (", from = \"prog\"", "", "2 stage 1 files"),
    ("from = \"prog\"", "from = 5", "2 stage 1 files"),
    ("from = \"prog\"", "from = \"Prog\"", "4 stage 1 files"),
    ("from = \"prog\"", "from = \"one\"", "6 stage 1 files"),
    ("from = \"prog\"", "from = \"prog\", mode = 5", "3 stage 1"),
    (
        "{ path",
        "{ path = \"./in\", from = \"bin\" }, { path",
        "5 stage 1 files",
    ),
    ("\noutput = \"out\"", "", "2 stage 1 output"),
    ("output = \"out\"", "output = 1", "2 stage 1 output"),
    ("output = \"out\"", "output = \"././\"", "7 stage 1 output"),
    (
        "output = \"out\"",
        "output = \"o\\u0000t\"",
        "7 stage 1 output",
    ),
    ("\nsteps = 100000", "", "2 stage 1 steps"),
    ("steps = 100000", "steps = \"all\"", "2 stage 1 steps"),
    ("steps = 100000", "steps = 0", "8 stage 1 steps"),
    (
        "steps = 100000",
        "steps = 281474976710657",
        "8 stage 1 steps",
    ),
    ("steps = 100000", "steps = 281474976710656", "accepted"),
    ("heap = 4096", "heap = 4096.5", "2 stage 1 heap"),
    ("heap = 4096", "heap = 1073741825", "8 stage 1 heap"),
];

fn compare(rt: &impl Abort, alloc: Global, rows: &[Row]) -> Result<(), OutOfMemory> {
    for row in rows {
        assert!(rt;
            answers_once(alloc, GOOD, (row.0, row.1), row.2)?,
            "{row:?}"
        );
    }
    Ok(())
}

#[test]
fn of_top_and_compare(rt: HostRuntime) -> Result<(), Fail> {
    compare(&rt, rt.alloc(), &TOP)?;
    Ok(())
}

#[test]
fn of_inputs(rt: HostRuntime) -> Result<(), Fail> {
    compare(&rt, rt.alloc(), &INPUTS)?;
    Ok(())
}

#[test]
fn of_sources(rt: HostRuntime) -> Result<(), Fail> {
    compare(&rt, rt.alloc(), &SOURCES)?;
    Ok(())
}

#[test]
fn of_stages(rt: HostRuntime) -> Result<(), Fail> {
    compare(&rt, rt.alloc(), &STAGE_NAMES)?;
    compare(&rt, rt.alloc(), &STAGE_VALUES)?;
    Ok(())
}
