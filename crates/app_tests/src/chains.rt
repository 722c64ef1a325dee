//! Audits that are composed. The expected answers of `chain` were written down from docs/reference/chain.md and
//! docs/reference/command-line.md.

use crate::audits::RECIPE;
use crate::scenes::{Step, ends, says, walk};
use crate::worked::{COPY, decoded, run, with};
use ddc_app::Status;
use ddc_base::{Bytes, MemShelf, MemSink, OutOfMemory};
use std::alloc::Global;
use std::process::Abort;
use std::test::Fail;

/// A piece of a recipe and what stands there instead.
type Change = (&'static str, &'static str);

/// The audit that gives the copier: what stage `one` made is compared with it.
static GIVES: [Change; 2] = [
    ("\"b.bin\"", "\"copy.elf\""),
    ("stage = \"two\"", "stage = \"one\""),
];

/// The audit that assumes the copier: both stages run it, the second one unchecked.
static ASSUMES: [Change; 2] = [
    (
        "path = \"copy.elf\"",
        "path = \"copy.elf\"\nimplements = \"copy_src\"",
    ),
    ("program = \"one\"", "program = \"prog\""),
];

/// A recipe with pieces changed, one after the other.
fn changed(alloc: Global, text: &str, changes: &[Change]) -> Result<String, OutOfMemory> {
    let mut text = String::from_str(alloc, text)?;
    for (old, new) in changes {
        text = with(alloc, text.as_str(), old, new)?;
    }
    Ok(text)
}

/// The files of the audits.
fn files(alloc: Global) -> Result<MemShelf, OutOfMemory> {
    let mut shelf = MemShelf::new(alloc);
    let copy = decoded(alloc, COPY)?;
    let mut longer = Bytes::from_slice(alloc, copy.as_slice())?;
    longer.push(0)?;
    let (leading, back) = COPY.split_once('\n').unwrap_or((COPY, ""));
    shelf.set("copy.elf", copy.as_slice())?;
    shelf.set("same.elf", copy.as_slice())?;
    shelf.set("longer.elf", longer.as_slice())?;
    shelf.set("copy.hex0", COPY.as_bytes())?;
    shelf.set(
        "commented.hex0",
        format!(in alloc; "{COPY}# no more\n")?.as_bytes(),
    )?;
    shelf.set("front.hex0", leading.as_bytes())?;
    shelf.set("back.hex0", back.as_bytes())?;
    shelf.set("a.bin", b"abc")?;
    shelf.set("b.bin", b"abc")?;
    Ok(shelf)
}

/// Sets a recipe and the report that its audit saves, and tells whether the audit found its comparison equal.
fn add(
    alloc: Global,
    shelf: &mut MemShelf,
    (recipe, report): (&str, &str),
    base: &[Change],
    changes: &[Change],
) -> Result<bool, OutOfMemory> {
    let text = changed(alloc, changed(alloc, RECIPE, base)?.as_str(), changes)?;
    shelf.set(recipe, text.as_bytes())?;
    Ok(ends(alloc, shelf, &["audit", recipe, report])? == Status::Yes)
}

/// The words of both audits.
const GIVING: (&str, &str) = ("k.toml", "k.rep");

const ASSUMING: (&str, &str) = ("b.toml", "b.rep");

/// Adds both audits, of which each finds its comparison equal.
fn add_both(
    rt: &impl Abort,
    alloc: Global,
    shelf: &mut MemShelf,
    first: &[Change],
    second: &[Change],
) -> Result<(), OutOfMemory> {
    assert!(rt; add(alloc, shelf, GIVING, &GIVES, first)?);
    assert!(rt; add(alloc, shelf, ASSUMING, &ASSUMES, second)?);
    Ok(())
}

/// The files, with both audits: k.toml gives, and b.toml assumes.
fn both(
    rt: &impl Abort,
    alloc: Global,
    first: &[Change],
    second: &[Change],
) -> Result<MemShelf, OutOfMemory> {
    let mut shelf = files(alloc)?;
    add_both(rt, alloc, &mut shelf, first, second)?;
    Ok(shelf)
}

/// Runs `chain list` over this list, and compares its status and text.
fn chains(
    rt: &impl Abort,
    alloc: Global,
    shelf: &mut MemShelf,
    list: &str,
    ending: (Status, &str),
) -> Result<(), OutOfMemory> {
    shelf.set("list", list.as_bytes())?;
    says(rt, alloc, shelf, &["chain", "list"], ending)
}

/// A list, the status, and the text.
type Chain = (&'static str, Status, &'static str);

/// Runs `chain` over each of these lists.
fn chain_all(
    rt: &impl Abort,
    alloc: Global,
    shelf: &mut MemShelf,
    rows: &[Chain],
) -> Result<(), OutOfMemory> {
    for &(list, status, text) in rows {
        chains(rt, alloc, shelf, list, (status, text))?;
    }
    Ok(())
}

/// The same over both audits.
fn chain_both(rt: &impl Abort, alloc: Global, rows: &[Chain]) -> Result<(), OutOfMemory> {
    let mut shelf = both(rt, alloc, &[], &[])?;
    chain_all(rt, alloc, &mut shelf, rows)
}

/// Runs `chain` over both audits with changes.
fn chain_changed(
    rt: &impl Abort,
    alloc: Global,
    first: &[Change],
    second: &[Change],
    text: &str,
) -> Result<(), OutOfMemory> {
    let mut shelf = both(rt, alloc, first, second)?;
    chains(rt, alloc, &mut shelf, IN_ORDER, (Status::Yes, text))
}

const IN_ORDER: &str = "k.toml k.rep\nb.toml b.rep\n";

/// Nothing remains, or the line of the second audit does.
const NONE: &str = "chain 2 yes\n";

const SECOND: &str = "chain 2 yes\nassumes 2 implements prog copy_src\n";

#[test]
fn an_earlier_audit_shows_a_line(rt: HostRuntime) -> Result<(), Fail> {
    chain_changed(&rt, rt.alloc(), &[], &[], NONE)?;
    Ok(())
}

static LATER: [Chain; 6] = [
    (
        "b.toml b.rep\nk.toml k.rep\n",
        Status::Yes,
        "chain 2 yes\nassumes 1 implements prog copy_src\n",
    ),
    ("k.toml k.rep\n", Status::Yes, "chain 1 yes\n"),
    (
        "b.toml b.rep\n",
        Status::Yes,
        "chain 1 yes\nassumes 1 implements prog copy_src\n",
    ),
    (
        "k.toml k.rep\nb.toml b.rep\nb.toml b.rep\n",
        Status::Yes,
        "chain 3 yes\n",
    ),
    (
        "b.toml b.rep\nk.toml k.rep\nb.toml b.rep\n",
        Status::Yes,
        "chain 3 yes\nassumes 1 implements prog copy_src\n",
    ),
    (
        "b.toml b.rep\nb.toml b.rep\nk.toml k.rep\n",
        Status::Yes,
        "chain 3 yes\nassumes 1 implements prog copy_src\nassumes 2 implements prog copy_src\n",
    ),
];

#[test]
fn a_later_audit_shows_none(rt: HostRuntime) -> Result<(), Fail> {
    chain_both(&rt, rt.alloc(), &LATER)?;
    Ok(())
}

/// A stage more, before the others, that copies the text: the source is then of what it made.
static MADE_TEXT: [Change; 2] = [
    (
        "[[stage]]\n",
        "[[stage]]
name = \"copied\"
program = \"prog\"
args = [\"copy\"]
files = [{ path = \"in\", from = \"text\" }]
output = \"out\"
steps = 100000
[[stage]]
",
    ),
    ("files = [\"text\"]", "files = [\"copied\"]"),
];

/// What is changed in the audit that gives, what in the one that assumes, and what remains.
type Row = (&'static [Change], &'static [Change], &'static str);

static ROWS: &[Row] = &[
    // another base, in the later audit, in the earlier one and in both
    (&[], &[("\"hex0\"", "\"hex0\"\nbase = 0")], SECOND),
    (&[("\"hex0\"", "\"hex0\"\nbase = 0")], &[], SECOND),
    (
        &[("\"hex0\"", "\"hex0\"\nbase = 0")],
        &[("\"hex0\"", "\"hex0\"\nbase = 0")],
        NONE,
    ),
    // another language
    (&[], &[("\"hex0\"", "\"hex1\"")], SECOND),
    (&[("\"hex0\"", "\"hex1\"")], &[], SECOND),
    (
        &[("\"hex0\"", "\"hex1\"")],
        &[("\"hex0\"", "\"hex1\"")],
        NONE,
    ),
    // equal names with other bytes, and equal bytes under another path
    (
        &[],
        &[
            ("\"copy.elf\"", "\"longer.elf\""),
            ("check = \"copy_src\"\n", ""),
        ],
        SECOND,
    ),
    (&[], &[("\"copy.elf\"", "\"same.elf\"")], NONE),
    // other names for equal bytes and an equal text
    (
        &[],
        &[
            ("name = \"prog\"", "name = \"copier\""),
            ("program = \"prog\"", "program = \"copier\""),
            ("program = \"prog\"", "program = \"copier\""),
            ("from = \"prog\"", "from = \"copier\""),
            ("name = \"text\"", "name = \"letters\""),
            ("files = [\"text\"]", "files = [\"letters\"]"),
            ("name = \"copy_src\"", "name = \"origin\""),
            ("implements = \"copy_src\"", "implements = \"origin\""),
            ("check = \"copy_src\"", "check = \"origin\""),
        ],
        NONE,
    ),
    // another text of the same value
    (&[], &[("\"copy.hex0\"", "\"commented.hex0\"")], SECOND),
    // the same text in two files
    (
        &[],
        &[
            (
                "name = \"text\"\npath = \"copy.hex0\"",
                "name = \"front\"\npath = \"front.hex0\"\n[[input]]\nname = \"text\"\npath = \"back.hex0\"",
            ),
            ("files = [\"text\"]", "files = [\"front\", \"text\"]"),
        ],
        SECOND,
    ),
    (
        &[
            (
                "name = \"text\"\npath = \"copy.hex0\"",
                "name = \"front\"\npath = \"front.hex0\"\n[[input]]\nname = \"text\"\npath = \"back.hex0\"",
            ),
            ("files = [\"text\"]", "files = [\"front\", \"text\"]"),
        ],
        &[],
        SECOND,
    ),
    // two comparisons in one audit, of which the second stage has a source, or the first
    (
        &[
            ("format = 1", "format = 2"),
            ("stage = \"one\"", "stages = [\"two\", \"one\"]"),
            ("from = \"src\"", "from = \"prog\""),
        ],
        &[],
        NONE,
    ),
    (
        &[
            ("format = 1", "format = 2"),
            ("stage = \"one\"", "stages = [\"one\", \"two\"]"),
            ("from = \"src\"", "from = \"prog\""),
        ],
        &[],
        NONE,
    ),
    // of two comparisons none has a source
    (
        &[
            ("format = 1", "format = 2"),
            ("stage = \"one\"", "stages = [\"two\"]"),
            ("from = \"src\"", "from = \"prog\""),
        ],
        &[],
        SECOND,
    ),
    // the compared stage counts as a program, though no stage runs what it made
    (
        &[
            (
                "path = \"copy.elf\"",
                "path = \"copy.elf\"\nimplements = \"copy_src\"",
            ),
            ("check = \"copy_src\"", "becomes = \"copy_src\""),
            ("program = \"one\"", "program = \"prog\""),
        ],
        &[],
        "chain 2 yes\nassumes 1 implements prog copy_src\nassumes 1 compiles copy_src one copy_src\n",
    ),
];

#[test]
fn lines_are_struck_by_bytes_and_texts(rt: HostRuntime) -> Result<(), Fail> {
    for (first, second, text) in ROWS {
        chain_changed(&rt, rt.alloc(), first, second, text)?;
    }
    Ok(())
}

/// The same of the audit that gives: its copier then has to have a source, too.
static GIVES_MADE_TEXT: [Change; 3] = [
    (
        "path = \"copy.elf\"",
        "path = \"copy.elf\"\nimplements = \"copy_src\"",
    ),
    (
        "[[stage]]\n",
        "[[stage]]
name = \"copied\"
program = \"prog\"
args = [\"copy\"]
files = [{ path = \"in\", from = \"text\" }]
output = \"out\"
steps = 100000
[[stage]]
",
    ),
    ("files = [\"text\"]", "files = [\"copied\"]"),
];

/// The text is made by a stage: its bytes are the same, but they are no input's.
#[test]
fn a_source_of_what_a_stage_made_gives_and_takes_nothing(rt: HostRuntime) -> Result<(), Fail> {
    let alloc = rt.alloc();
    chain_changed(&rt, alloc, &[], &MADE_TEXT, SECOND)?;
    let text =
        "chain 2 yes\nassumes 1 implements prog copy_src\nassumes 2 implements prog copy_src\n";
    chain_changed(&rt, alloc, &GIVES_MADE_TEXT, &[], text)?;
    Ok(())
}

/// What is wrong with the second audit, by a file that is set after both audits, and what `chain` says of it.
type Fault = (&'static str, &'static [u8], Status, &'static str);

static FAULTS: [Fault; 8] = [
    (
        "b.bin",
        b"abd",
        Status::Refuted,
        "audit 2\nrefuted input 4\n",
    ),
    (
        "copy.hex0",
        b"00",
        Status::Refuted,
        "audit 1\nrefuted input 2\n",
    ),
    (
        "b.toml",
        b"",
        Status::RecipeRefused,
        "audit 2\nrecipe refused 2 top 0 format\n",
    ),
    (
        "b.toml",
        b"format",
        Status::RecipeRefused,
        "audit 2\nrecipe refused 1\n",
    ),
    (
        "k.toml",
        b"format",
        Status::RecipeRefused,
        "audit 1\nrecipe refused 1\n",
    ),
    (
        "b.rep",
        b"",
        Status::ReportRefused,
        "audit 2\nreport line 1\n",
    ),
    (
        "b.rep",
        b"ddc-report 1\nrecipe 0\n",
        Status::ReportRefused,
        "audit 2\nreport line 2\n",
    ),
    (
        "k.rep",
        b"ddc-report 1",
        Status::ReportRefused,
        "audit 1\nreport line 1\n",
    ),
];

/// Sets a file after both audits, and runs `chain`.
fn faulty(
    rt: &impl Abort,
    alloc: Global,
    shelf: &mut MemShelf,
    &(name, content, status, text): &Fault,
) -> Result<(), OutOfMemory> {
    shelf.set(name, content)?;
    chains(rt, alloc, shelf, IN_ORDER, (status, text))
}

fn faulty_both(rt: &impl Abort, alloc: Global, fault: &Fault) -> Result<(), OutOfMemory> {
    let mut shelf = both(rt, alloc, &[], &[])?;
    faulty(rt, alloc, &mut shelf, fault)
}

#[test]
fn an_audit_ends_the_chain_in_its_turn(rt: HostRuntime) -> Result<(), Fail> {
    for fault in &FAULTS {
        faulty_both(&rt, rt.alloc(), fault)?;
    }
    Ok(())
}

static UNTRUE: [Chain; 1] = [(
    "k.toml k.rep\nb.toml k.rep\n",
    Status::Refuted,
    "audit 2\nrefuted header 0\n",
)];

static DIFFERING: [Chain; 2] = [
    (
        IN_ORDER,
        Status::Differs,
        "audit 2\ndiffers two bin 2 3 3\n",
    ),
    (
        "b.toml b.rep\nk.toml none\n",
        Status::Differs,
        "audit 1\ndiffers two bin 2 3 3\n",
    ),
];

fn untrue_and_differing(
    rt: &impl Abort,
    alloc: Global,
    shelf: &mut MemShelf,
) -> Result<(), OutOfMemory> {
    chain_all(rt, alloc, shelf, &UNTRUE)?;
    shelf.set("b.bin", b"abd")?;
    assert!(rt; !add(alloc, shelf, ASSUMING, &ASSUMES, &[])?);
    chain_all(rt, alloc, shelf, &DIFFERING)
}

/// A report of the other recipe, and one that is true and says that the binary differs.
#[test]
fn an_untrue_report_and_a_difference_end_the_chain(rt: HostRuntime) -> Result<(), Fail> {
    let mut shelf = both(&rt, rt.alloc(), &[], &[])?;
    untrue_and_differing(&rt, rt.alloc(), &mut shelf)?;
    Ok(())
}

/// Over both audits as they are.
static LISTS: [Chain; 25] = [
    // words that name one file, and a report that is an input of its recipe, each in its turn
    ("k.toml k.toml\n", Status::Usage, "usage\n"),
    ("k.toml ././k.toml\n", Status::Usage, "usage\n"),
    ("k.toml k.rep\nb.toml a.bin\n", Status::Usage, "usage\n"),
    ("k.toml k.rep\nb.toml ./b.bin\n", Status::Usage, "usage\n"),
    (
        "k.toml b.rep\nb.toml b.toml\n",
        Status::Refuted,
        "audit 1\nrefuted header 0\n",
    ),
    // files that are not there
    (
        "k.toml k.rep\nnone b.rep\n",
        Status::FileRefused,
        "file refused none absent\n",
    ),
    (
        "k.toml k.rep\nb.toml none\n",
        Status::FileRefused,
        "file refused none absent\n",
    ),
    (
        "none k.rep\nalso also\n",
        Status::FileRefused,
        "file refused none absent\n",
    ),
    // lists: no line, a line that is not ended, words too many and too few, blanks elsewhere, other bytes
    ("", Status::ListRefused, "list refused 1\n"),
    ("\n", Status::ListRefused, "list refused 1\n"),
    ("k.toml k.rep", Status::ListRefused, "list refused 1\n"),
    ("k.toml\n", Status::ListRefused, "list refused 1\n"),
    ("k.toml \n", Status::ListRefused, "list refused 1\n"),
    (" k.rep\n", Status::ListRefused, "list refused 1\n"),
    ("k.toml  k.rep\n", Status::ListRefused, "list refused 1\n"),
    ("k.toml k.rep \n", Status::ListRefused, "list refused 1\n"),
    (" k.toml k.rep\n", Status::ListRefused, "list refused 1\n"),
    ("k.toml k.rep b\n", Status::ListRefused, "list refused 1\n"),
    ("k.toml\tk.rep\n", Status::ListRefused, "list refused 1\n"),
    ("k.toml k.rep\r\n", Status::ListRefused, "list refused 1\n"),
    (
        "k.toml k.re\u{7f}\n",
        Status::ListRefused,
        "list refused 1\n",
    ),
    (
        "k.t\u{f6}ml k.rep\n",
        Status::ListRefused,
        "list refused 1\n",
    ),
    (
        "k.toml k.rep\nb.toml b.rep",
        Status::ListRefused,
        "list refused 2\n",
    ),
    (
        "none none\nk.toml k.rep\n\n",
        Status::ListRefused,
        "list refused 3\n",
    ),
    // bytes at both ends of what a word may have
    ("! ~\n", Status::FileRefused, "file refused ! absent\n"),
];

/// The longest word that a list may have.
fn longest(alloc: Global) -> Result<String, OutOfMemory> {
    let mut word = String::new(alloc);
    for _ in 0..255 {
        word.push('a')?;
    }
    Ok(word)
}

/// A word that is too long is refused.
fn too_long(
    rt: &impl Abort,
    alloc: Global,
    shelf: &mut MemShelf,
    word: &str,
) -> Result<(), OutOfMemory> {
    let list = format!(in alloc; "{word} {word}b\n")?;
    let refused = (Status::ListRefused, "list refused 1\n");
    chains(rt, alloc, shelf, list.as_str(), refused)
}

/// The longest word stands for a file.
fn long_enough(
    rt: &impl Abort,
    alloc: Global,
    shelf: &mut MemShelf,
    word: &str,
) -> Result<(), OutOfMemory> {
    let list = format!(in alloc; "{word} b\n")?;
    let absent = format!(in alloc; "file refused {word} absent\n")?;
    let refused = (Status::FileRefused, absent.as_str());
    chains(rt, alloc, shelf, list.as_str(), refused)
}

fn long_words(rt: &impl Abort, alloc: Global, word: &str) -> Result<(), OutOfMemory> {
    let mut shelf = both(rt, alloc, &[], &[])?;
    too_long(rt, alloc, &mut shelf, word)?;
    long_enough(rt, alloc, &mut shelf, word)
}

#[test]
fn lists_are_judged_before_their_audits(rt: HostRuntime) -> Result<(), Fail> {
    chain_both(&rt, rt.alloc(), &LISTS)?;
    let word = longest(rt.alloc())?;
    long_words(&rt, rt.alloc(), word.as_str())?;
    Ok(())
}

/// The line of the audit that assumes, so many times.
fn many(alloc: Global, count: usize) -> Result<String, OutOfMemory> {
    let mut list = String::new(alloc);
    for _ in 0..count {
        list.push_str("b.toml b.rep\n")?;
    }
    Ok(list)
}

/// Adds the line that remains of the audit of a number.
fn put_line(alloc: Global, text: &mut String, number: u64) -> Result<(), OutOfMemory> {
    let line = format!(in alloc; "assumes {number} implements prog copy_src\n")?;
    text.push_str(line.as_str())?;
    Ok(())
}

/// What remains of 64 audits that assume.
fn remaining(alloc: Global) -> Result<String, OutOfMemory> {
    let mut text = String::from_str(alloc, "chain 64 yes\n")?;
    for number in 1..65 {
        put_line(alloc, &mut text, number)?;
    }
    Ok(text)
}

/// Runs `chain` over 64 audits that assume.
fn sixty_four(rt: &impl Abort, alloc: Global, shelf: &mut MemShelf) -> Result<(), OutOfMemory> {
    let list = many(alloc, 64)?;
    let text = remaining(alloc)?;
    chains(
        rt,
        alloc,
        shelf,
        list.as_str(),
        (Status::Yes, text.as_str()),
    )
}

#[test]
fn a_chain_has_at_most_sixty_four_audits(rt: HostRuntime) -> Result<(), Fail> {
    let mut shelf = both(&rt, rt.alloc(), &[], &[])?;
    sixty_four(&rt, rt.alloc(), &mut shelf)?;
    Ok(())
}

/// What stands before 64 lines, what after them, and what is said.
type Ends = (&'static str, &'static str, &'static str);

static TOO_MANY: [Ends; 3] = [
    ("", "b.toml b.rep\n", "list refused 65\n"),
    ("", "k", "list refused 65\n"),
    ("k\n", "b.toml b.rep\n", "list refused 1\n"),
];

fn too_many(
    rt: &impl Abort,
    alloc: Global,
    shelf: &mut MemShelf,
    &(leading, end, text): &Ends,
) -> Result<(), OutOfMemory> {
    let whole = many(alloc, 64)?;
    let list = format!(in alloc; "{leading}{whole}{end}")?;
    chains(rt, alloc, shelf, list.as_str(), (Status::ListRefused, text))
}

/// The 65th line is one too many whatever it says, and a line before it comes first.
#[test]
fn a_65th_audit_is_one_too_many(rt: HostRuntime) -> Result<(), Fail> {
    let mut shelf = both(&rt, rt.alloc(), &[], &[])?;
    for row in &TOO_MANY {
        too_many(&rt, rt.alloc(), &mut shelf, row)?;
    }
    Ok(())
}

static LOADS: [&str; 13] = [
    "list",
    "k.toml",
    "k.rep",
    "copy.elf",
    "copy.hex0",
    "a.bin",
    "copy.elf",
    "b.toml",
    "b.rep",
    "copy.elf",
    "copy.hex0",
    "a.bin",
    "b.bin",
];

/// The load of this number fails, after the ten of both audits.
fn names_load(
    rt: &impl Abort,
    alloc: Global,
    shelf: &mut MemShelf,
    number: u64,
    name: &str,
) -> Result<(), OutOfMemory> {
    shelf.fail_load(number)?;
    let text = format!(in alloc; "shelf fault {name}\n")?;
    chains(
        rt,
        alloc,
        shelf,
        IN_ORDER,
        (Status::ShelfFault, text.as_str()),
    )
}

fn names_load_of_both(
    rt: &impl Abort,
    alloc: Global,
    number: u64,
    name: &str,
) -> Result<(), OutOfMemory> {
    let mut shelf = both(rt, alloc, &[], &[])?;
    names_load(rt, alloc, &mut shelf, number, name)
}

/// Each load of the call fails: of the list, and of each audit the recipe, the report and the inputs. The two audits before had five each.
#[test]
fn loads_that_fail_are_named(rt: HostRuntime) -> Result<(), Fail> {
    for (index, name) in LOADS.iter().enumerate() {
        names_load_of_both(&rt, rt.alloc(), 11 + index as u64, name)?;
    }
    Ok(())
}

fn loses_the_text(rt: &impl Abort, alloc: Global, shelf: &mut MemShelf) -> Result<(), OutOfMemory> {
    shelf.set("list", IN_ORDER.as_bytes())?;
    let mut out = MemSink::new(alloc);
    out.fail_put(1)?;
    let words = ["chain", "list"];
    assert_eq!(rt; run(alloc, &words, shelf, &mut out)?, Status::OutFault);
    assert!(rt; NONE.as_bytes().starts_with(out.written()));
    Ok(())
}

/// A put that fails takes a part of the text, and the files are as they were.
#[test]
fn a_put_that_fails_loses_the_text(rt: HostRuntime) -> Result<(), Fail> {
    let mut shelf = both(&rt, rt.alloc(), &[], &[])?;
    loses_the_text(&rt, rt.alloc(), &mut shelf)?;
    Ok(())
}

static WORDS: [Step; 2] = [
    Step::Usage(&[
        &["chain"],
        &["chain", ""],
        &["chain", "list", "list"],
        &["chain", "a\0"],
    ]),
    Step::Run(
        &["chain", "none"],
        Status::FileRefused,
        "file refused none absent\n",
    ),
];

#[test]
fn words_that_are_no_list(rt: HostRuntime) -> Result<(), Fail> {
    let mut shelf = files(rt.alloc())?;
    walk(&rt, rt.alloc(), &mut shelf, &WORDS)?;
    Ok(())
}
