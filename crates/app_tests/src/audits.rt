//! Audits of one recipe on the files of a worked program, and of that recipe with one change. The expected answers were written down from
//! the rules, and the digests are those of `sha256sum`.

use crate::scenes::{Step, holds, over_worked, says};
use crate::worked::{COPY, EXIT, decoded, with};
use ddc_app::Status;
use ddc_base::{MemShelf, OutOfMemory};
use std::alloc::Global;
use std::process::Abort;
use std::test::Fail;

/// The recipe: `one` copies the copier, and what it made is checked and copies three bytes.
pub(crate) const RECIPE: &str = r#"format = 1
[[input]]
name = "prog"
path = "copy.elf"
[[input]]
name = "text"
path = "copy.hex0"
[[input]]
name = "src"
path = "a.bin"
[[input]]
name = "bin"
path = "b.bin"
[[source]]
name = "copy_src"
lang = "hex0"
files = ["text"]
[[stage]]
name = "one"
program = "prog"
args = ["copy"]
files = [{ path = "in", from = "prog" }]
output = "out"
steps = 100000
check = "copy_src"
[[stage]]
name = "two"
program = "one"
args = ["copy"]
files = [{ path = "in", from = "src" }]
output = "out"
steps = 100000
[compare]
stage = "two"
binary = "bin"
"#;

/// Its report.
pub(crate) const REPORT: &str = "ddc-report 1\n\
    recipe 10b5c639797a4ed2505e4f5394bd88f134e66af1f274d9342e720cc0e4379e08\n\
    input prog 232 da8dcb705eb55cbf9f4852135f93a902f4584b973901f37abb829fd299d0b026\n\
    input text 465 26dbf873fd9f4ae0d6145fe4fcf057357e6d57dc16dc89160bbefa88806e89d5\n\
    input src 3 ba7816bf8f01cfea414140de5dae2223b00361a396177a9cb410ff61f20015ad\n\
    input bin 3 ba7816bf8f01cfea414140de5dae2223b00361a396177a9cb410ff61f20015ad\n\
    stage one 32\n\
    stream 1 0 e3b0c44298fc1c149afbf4c8996fb92427ae41e4649b934ca495991b7852b855\n\
    stream 2 0 e3b0c44298fc1c149afbf4c8996fb92427ae41e4649b934ca495991b7852b855\n\
    left 696e 232 da8dcb705eb55cbf9f4852135f93a902f4584b973901f37abb829fd299d0b026\n\
    left 6f7574 232 da8dcb705eb55cbf9f4852135f93a902f4584b973901f37abb829fd299d0b026\n\
    made 232 da8dcb705eb55cbf9f4852135f93a902f4584b973901f37abb829fd299d0b026\n\
    checked hex0\n\
    stage two 32\n\
    stream 1 0 e3b0c44298fc1c149afbf4c8996fb92427ae41e4649b934ca495991b7852b855\n\
    stream 2 0 e3b0c44298fc1c149afbf4c8996fb92427ae41e4649b934ca495991b7852b855\n\
    left 696e 3 ba7816bf8f01cfea414140de5dae2223b00361a396177a9cb410ff61f20015ad\n\
    left 6f7574 3 ba7816bf8f01cfea414140de5dae2223b00361a396177a9cb410ff61f20015ad\n\
    made 3 ba7816bf8f01cfea414140de5dae2223b00361a396177a9cb410ff61f20015ad\n\
    unchecked\n\
    compare two bin equal 3\n\
    end\n";

/// The ends of the input `bin`'s line and of the comparison, where that file is `abd`.
const ABD: (&str, &str) = (
    "input bin 3 a52d159f262b2c6ddb724a61840befc36eb30c88877a4030b65cbe86298449c9\n",
    "compare two bin differs 2 3 3\n",
);

/// What is changed in the recipe, into what, and the status and the text of its audit.
type Row = (&'static str, &'static str, Status, &'static str);

static ROWS: [Row; 23] = [
    ("", "", Status::Yes, "equal two bin 3\n"),
    // the compared binary: the last byte, one less, one more, none
    (
        "\"b.bin\"",
        "\"abd\"",
        Status::Differs,
        "differs two bin 2 3 3\n",
    ),
    (
        "\"b.bin\"",
        "\"ab\"",
        Status::Differs,
        "differs two bin 2 3 2\n",
    ),
    (
        "\"b.bin\"",
        "\"abcd\"",
        Status::Differs,
        "differs two bin 3 3 4\n",
    ),
    (
        "\"b.bin\"",
        "\"empty\"",
        Status::Differs,
        "differs two bin 0 3 0\n",
    ),
    // `one` exits at step 32
    (
        "steps = 100000",
        "steps = 32",
        Status::Yes,
        "equal two bin 3\n",
    ),
    (
        "steps = 100000",
        "steps = 31",
        Status::RunFailed,
        "run failed one spent step 31\n",
    ),
    (
        "steps = 100000",
        "steps = 281474976710656",
        Status::Yes,
        "equal two bin 3\n",
    ),
    // another program in the first input
    (
        "\"copy.elf\"",
        "\"exit.elf\"",
        Status::RunFailed,
        "run failed one no-output step 3\n",
    ),
    (
        "\"copy.elf\"",
        "\"copy.hex0\"",
        Status::RunFailed,
        "run failed one start elf 2 step 0\n",
    ),
    (
        "\"copy.elf\"",
        "\"none\"",
        Status::FileRefused,
        "file refused none absent\n",
    ),
    ("\"copy.elf\"", "\"r\"", Status::Usage, "usage\n"),
    // Leading `./` are taken off an input's path too, and nothing else is.
    ("\"copy.elf\"", "\"././r\"", Status::Usage, "usage\n"),
    (
        "\"copy.elf\"",
        "\".//r\"",
        Status::FileRefused,
        "file refused .//r absent\n",
    ),
    // `one` makes other bytes than its source stands for
    (
        "from = \"prog\"",
        "from = \"src\"",
        Status::CheckFailed,
        "check failed one differs 0\n",
    ),
    // an altered source of the check, and the check in other languages
    (
        "\"copy.hex0\"",
        "\"altered.hex0\"",
        Status::CheckFailed,
        "check failed one differs 0\n",
    ),
    ("\"hex0\"", "\"hex1\"", Status::Yes, "equal two bin 3\n"),
    ("\"hex0\"", "\"hex2\"", Status::Yes, "equal two bin 3\n"),
    (
        "check = \"copy_src\"",
        "check = \"copy_src\"\nbecomes = \"copy_src\"",
        Status::Yes,
        "equal two bin 3\n",
    ),
    // no recipes
    (
        "\ncheck = \"copy_src\"",
        "",
        Status::RecipeRefused,
        "recipe refused 2 input 1 implements\n",
    ),
    (
        "\"hex0\"",
        "\"m1\"",
        Status::RecipeRefused,
        "recipe refused 2 stage 1 becomes\n",
    ),
    (
        "format = 1",
        "format = 1\nformat = 1",
        Status::RecipeRefused,
        "recipe refused 1\n",
    ),
    (
        "binary = \"bin\"",
        "binary = \"bin\"\nsteps = 1",
        Status::RecipeRefused,
        "recipe refused 3 compare 0\n",
    ),
];

/// A file store with the recipe, changed once, and the files.
pub(crate) fn audit_shelf(alloc: Global, old: &str, new: &str) -> Result<MemShelf, OutOfMemory> {
    let mut shelf = MemShelf::new(alloc);
    shelf.set("exit.elf", &EXIT)?;
    shelf.set("copy.elf", decoded(alloc, COPY)?.as_slice())?;
    shelf.set("copy.hex0", COPY.as_bytes())?;
    shelf.set("altered.hex0", with(alloc, COPY, "7", "6")?.as_bytes())?;
    shelf.set("a.bin", b"abc")?;
    shelf.set("b.bin", b"abc")?;
    for other in ["abd", "ab", "abcd"] {
        shelf.set(other, other.as_bytes())?;
    }
    shelf.set("empty", b"")?;
    shelf.set("a.toml", with(alloc, RECIPE, old, new)?.as_bytes())?;
    Ok(shelf)
}

/// Makes the audit, and compares its status, its text and whether it saved a report.
fn audits(
    rt: &impl Abort,
    alloc: Global,
    shelf: &mut MemShelf,
    (status, text): (Status, &str),
) -> Result<(), OutOfMemory> {
    says(rt, alloc, shelf, &["audit", "a.toml", "r"], (status, text))?;
    let saved = matches!(status, Status::Yes | Status::Differs);
    assert_eq!(rt; shelf.get("r").is_some(), saved);
    Ok(())
}

/// The same over the recipe with one change.
fn audits_changed(
    rt: &impl Abort,
    alloc: Global,
    &(old, new, status, text): &Row,
) -> Result<(), OutOfMemory> {
    let mut shelf = audit_shelf(alloc, old, new)?;
    audits(rt, alloc, &mut shelf, (status, text))
}

#[test]
fn recipes_are_audited(rt: HostRuntime) -> Result<(), Fail> {
    for row in &ROWS {
        audits_changed(&rt, rt.alloc(), row)?;
    }
    Ok(())
}

static SAVED: [Step; 2] = [
    Step::Run(&["audit", "a.toml", "r"], Status::Yes, "equal two bin 3\n"),
    Step::Holds("r", REPORT),
];

#[test]
fn the_report_is_saved(rt: HostRuntime) -> Result<(), Fail> {
    over_worked(&rt, rt.alloc(), &SAVED)?;
    Ok(())
}

/// The report where that file is `abd`.
fn differing(alloc: Global) -> Result<String, OutOfMemory> {
    let (input, compare) = ABD;
    let old = "input bin 3 ba7816bf8f01cfea414140de5dae2223b00361a396177a9cb410ff61f20015ad\n";
    let report = with(alloc, REPORT, old, input)?;
    with(alloc, report.as_str(), "compare two bin equal 3\n", compare)
}

/// Makes the audit with that file, and compares the report.
fn differs(rt: &impl Abort, alloc: Global, shelf: &mut MemShelf) -> Result<(), OutOfMemory> {
    shelf.set("b.bin", b"abd")?;
    audits(
        rt,
        alloc,
        shelf,
        (Status::Differs, "differs two bin 2 3 3\n"),
    )?;
    let report = differing(alloc)?;
    assert!(rt; holds(shelf, "r", report.as_bytes()));
    Ok(())
}

#[test]
fn the_report_says_what_differs(rt: HostRuntime) -> Result<(), Fail> {
    let mut shelf = audit_shelf(rt.alloc(), "", "")?;
    differs(&rt, rt.alloc(), &mut shelf)?;
    Ok(())
}

static UNHEARD: [Step; 2] = [
    Step::Unheard(&["audit", "a.toml", "r"]),
    Step::Holds("r", REPORT),
];

#[test]
fn a_failed_put_leaves_the_report(rt: HostRuntime) -> Result<(), Fail> {
    over_worked(&rt, rt.alloc(), &UNHEARD)?;
    Ok(())
}

static USAGE: [Step; 1] = [Step::Usage(&[
    &["audit"],
    &["audit", "a.toml"],
    &["audit", "a.toml", "r", "r"],
    &["audit", "a.toml", "a.toml"],
    &["audit", "", "r"],
    &["audit", "a.toml", "b.bin"],
    // Words that are equal after leading `./`.
    &["audit", "a.toml", "./a.toml"],
    &["audit", "./a.toml", "././a.toml"],
    &["audit", "a.toml", "./b.bin"],
    &["audit", "a.toml", "./././b.bin"],
    &["audit", "./", "./"],
])];

#[test]
fn the_words_of_an_audit_are_judged(rt: HostRuntime) -> Result<(), Fail> {
    over_worked(&rt, rt.alloc(), &USAGE)?;
    Ok(())
}

static REPORT_WORDS: [&str; 7] = [
    "./r",
    "./",
    "././",
    ".//b.bin",
    "x/../b.bin",
    ".b.bin",
    "./../b.bin",
];

/// Makes the audit, which saves its report under this word alone.
fn saves_under(
    rt: &impl Abort,
    alloc: Global,
    shelf: &mut MemShelf,
    report: &str,
) -> Result<(), OutOfMemory> {
    let equal = (Status::Yes, "equal two bin 3\n");
    says(rt, alloc, shelf, &["audit", "a.toml", report], equal)?;
    assert!(rt; holds(shelf, report, REPORT.as_bytes()));
    assert!(rt; shelf.get("r").is_none());
    assert!(rt; holds(shelf, "b.bin", b"abc"));
    Ok(())
}

fn saves_under_word(rt: &impl Abort, alloc: Global, report: &str) -> Result<(), OutOfMemory> {
    let mut shelf = audit_shelf(alloc, "", "")?;
    saves_under(rt, alloc, &mut shelf, report)
}

/// A word of which nothing is left after `./` names the same file as no other, and only leading `./` are removed. A report is saved under
/// its word.
#[test]
fn reports_are_saved_under_their_words(rt: HostRuntime) -> Result<(), Fail> {
    for report in REPORT_WORDS {
        saves_under_word(&rt, rt.alloc(), report)?;
    }
    Ok(())
}
