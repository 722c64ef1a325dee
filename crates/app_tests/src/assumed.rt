//! The assumptions that `verify` prints under its answer, of three recipes, each with an equal binary and with another one.
//! They were written down from docs/reference/argument.md.

use crate::scenes::{ends, says};
use crate::worked::{COPY, decoded};
use ddc_app::Status;
use ddc_base::{MemShelf, OutOfMemory};
use std::alloc::Global;
use std::process::Abort;
use std::test::Fail;

/// A line more of the first input, a line more of stage `one`, the program of stage `two`, and the lines.
type Row = (&'static str, &'static str, &'static str, &'static str);

static ROWS: [Row; 3] = [
    ("", "check = \"copy_src\"\n", "one", ""),
    (
        "implements = \"copy_src\"\n",
        "check = \"copy_src\"\n",
        "prog",
        "assumes implements prog copy_src\n",
    ),
    (
        "implements = \"copy_src\"\n",
        "becomes = \"copy_src\"\n",
        "one",
        "assumes implements prog copy_src\nassumes compiles copy_src one copy_src\n",
    ),
];

/// The recipe of a row: `one` copies the copier, and `two` copies three bytes.
fn recipe(alloc: Global, row: &Row) -> Result<String, OutOfMemory> {
    let (implements, check, program, _) = row;
    Ok(format!(in alloc;
        "format = 1
[[input]]
name = \"prog\"
path = \"copy.elf\"
{implements}[[input]]
name = \"text\"
path = \"copy.hex0\"
[[input]]
name = \"src\"
path = \"a.bin\"
[[input]]
name = \"bin\"
path = \"b.bin\"
[[source]]
name = \"copy_src\"
lang = \"hex0\"
files = [\"text\"]
[[stage]]
name = \"one\"
program = \"prog\"
args = [\"copy\"]
files = [{{ path = \"in\", from = \"prog\" }}]
output = \"out\"
steps = 100
{check}[[stage]]
name = \"two\"
program = \"{program}\"
args = [\"copy\"]
files = [{{ path = \"in\", from = \"src\" }}]
output = \"out\"
steps = 100
[compare]
stage = \"two\"
binary = \"bin\"
"
    )?)
}

/// A file store with the recipe of a row and its files, of which this is the binary.
fn shelf_of(alloc: Global, row: &Row, binary: &[u8]) -> Result<MemShelf, OutOfMemory> {
    let mut shelf = MemShelf::new(alloc);
    shelf.set("copy.elf", decoded(alloc, COPY)?.as_slice())?;
    shelf.set("copy.hex0", COPY.as_bytes())?;
    shelf.set("a.bin", b"abc")?;
    shelf.set("b.bin", binary)?;
    shelf.set("a.toml", recipe(alloc, row)?.as_bytes())?;
    Ok(shelf)
}

/// Audits the recipe, replays the report, and compares the answer and the lines.
fn replays(
    rt: &impl Abort,
    alloc: Global,
    shelf: &mut MemShelf,
    status: Status,
    (answer, lines): (&str, &str),
) -> Result<(), OutOfMemory> {
    assert_eq!(rt; ends(alloc, shelf, &["audit", "a.toml", "r"])?, status);
    let text = format!(in alloc; "{answer}{lines}")?;
    let words = ["verify", "a.toml", "r"];
    says(rt, alloc, shelf, &words, (status, text.as_str()))
}

/// The same over the files of a row with this binary.
fn verifies(
    rt: &impl Abort,
    alloc: Global,
    row: &Row,
    binary: &[u8],
    (status, answer): (Status, &str),
) -> Result<(), OutOfMemory> {
    let mut shelf = shelf_of(alloc, row, binary)?;
    replays(rt, alloc, &mut shelf, status, (answer, row.3))
}

#[test]
fn under_a_yes(rt: HostRuntime) -> Result<(), Fail> {
    let answer = (Status::Yes, "yes\nequal two bin 3\n");
    for row in &ROWS {
        verifies(&rt, rt.alloc(), row, b"abc", answer)?;
    }
    Ok(())
}

#[test]
fn under_a_difference(rt: HostRuntime) -> Result<(), Fail> {
    let answer = (Status::Differs, "differs two bin 2 3 3\n");
    for row in &ROWS {
        verifies(&rt, rt.alloc(), row, b"abd", answer)?;
    }
    Ok(())
}
