//! Audits and replays of recipes of format 2, which compare several stages with one binary. The expected answers were written down from
//! docs/reference/verify.md and docs/reference/argument.md.

use crate::audits::{RECIPE, REPORT, audit_shelf};
use crate::scenes::says;
use crate::worked::with;
use ddc_app::Status;
use ddc_base::{MemShelf, OutOfMemory};
use std::alloc::Global;
use std::process::Abort;
use std::test::Fail;

/// The worked recipe with a third stage, of which the seed itself makes the artefact, and both stages compared.
fn two_routes(alloc: Global) -> Result<String, OutOfMemory> {
    let second = with(alloc, RECIPE, "format = 1", "format = 2")?;
    let argued = with(
        alloc,
        second.as_str(),
        "path = \"copy.elf\"",
        "path = \"copy.elf\"\nimplements = \"copy_src\"",
    )?;
    with(
        alloc,
        argued.as_str(),
        "[compare]\nstage = \"two\"",
        r#"[[stage]]
name = "three"
program = "prog"
args = ["copy"]
files = [{ path = "in", from = "src" }]
output = "out"
steps = 100000
[compare]
stages = ["two", "three"]"#,
    )
}

/// A file store with that recipe, changed once, and its files.
fn shelf_of(alloc: Global, old: &str, new: &str) -> Result<MemShelf, OutOfMemory> {
    let mut shelf = audit_shelf(alloc, "", "")?;
    let recipe = two_routes(alloc)?;
    shelf.set("a.toml", with(alloc, recipe.as_str(), old, new)?.as_bytes())?;
    Ok(shelf)
}

/// Runs a command on `a.toml` and `r`, and compares its status and text.
fn comes_to(
    rt: &impl Abort,
    alloc: Global,
    shelf: &mut MemShelf,
    command: &str,
    ending: (Status, &str),
) -> Result<(), OutOfMemory> {
    says(rt, alloc, shelf, &[command, "a.toml", "r"], ending)
}

/// Replaces one piece of the report in a file store.
fn alter(alloc: Global, shelf: &mut MemShelf, old: &str, new: &str) -> Result<(), OutOfMemory> {
    let report = with(alloc, text_of(shelf, "r"), old, new)?;
    shelf.set("r", report.as_bytes())?;
    Ok(())
}

/// What a file store holds under a name, as text.
fn text_of<'s>(shelf: &'s MemShelf, name: &str) -> &'s str {
    std::str::from_utf8(shelf.get(name).unwrap_or(&[])).unwrap_or("no text")
}

/// What is changed in the recipe, the status, the comparisons, and what `verify` prints under them.
type Row = (
    &'static str,
    &'static str,
    Status,
    &'static str,
    &'static str,
);

static RECIPES: [Row; 7] = [
    (
        "",
        "",
        Status::Yes,
        "equal two bin 3\nequal three bin 3\n",
        "route two\nroute three\nassumes implements prog copy_src\n",
    ),
    // `three` copies a longer file
    (
        "from = \"src\" }]\noutput = \"out\"\nsteps = 100000\n[compare]",
        "from = \"text\" }]\noutput = \"out\"\nsteps = 100000\n[compare]",
        Status::Differs,
        "equal two bin 3\ndiffers three bin 0 465 3\n",
        "route two\nroute three\nassumes implements prog copy_src\n",
    ),
    // the stages in the other order, and one of them alone
    (
        "stages = [\"two\", \"three\"]",
        "stages = [\"three\", \"two\"]",
        Status::Yes,
        "equal three bin 3\nequal two bin 3\n",
        "route three\nassumes implements prog copy_src\nroute two\n",
    ),
    (
        "stages = [\"two\", \"three\"]",
        "stages = [\"two\"]",
        Status::Yes,
        "equal two bin 3\n",
        "route two\n",
    ),
    // another binary: both differ
    (
        "\"b.bin\"",
        "\"abd\"",
        Status::Differs,
        "differs two bin 2 3 3\ndiffers three bin 2 3 3\n",
        "route two\nroute three\nassumes implements prog copy_src\n",
    ),
    // a checked stage among them: it is the copier, and its line has nothing under it
    (
        "stages = [\"two\", \"three\"]",
        "stages = [\"one\", \"three\"]",
        Status::Differs,
        "differs one bin 0 232 3\nequal three bin 3\n",
        "route one\nroute three\nassumes implements prog copy_src\n",
    ),
    // `one` is not checked but made of the seed: the route of `two` continues to it
    (
        "check = \"copy_src\"",
        "becomes = \"copy_src\"",
        Status::Yes,
        "equal two bin 3\nequal three bin 3\n",
        "route two\nassumes implements prog copy_src\nassumes compiles copy_src one copy_src\nroute three\nassumes implements prog copy_src\n",
    ),
];

/// A yes above the comparisons, where all are equal.
fn answered(
    alloc: Global,
    status: Status,
    compared: &str,
    routes: &str,
) -> Result<String, OutOfMemory> {
    if status == Status::Yes {
        Ok(format!(in alloc; "yes\n{compared}{routes}")?)
    } else {
        Ok(format!(in alloc; "{compared}{routes}")?)
    }
}

/// Audits the recipe and replays the report.
fn prints(
    rt: &impl Abort,
    alloc: Global,
    shelf: &mut MemShelf,
    (status, compared): (Status, &str),
    routes: &str,
) -> Result<(), OutOfMemory> {
    comes_to(rt, alloc, shelf, "audit", (status, compared))?;
    let text = answered(alloc, status, compared, routes)?;
    comes_to(rt, alloc, shelf, "verify", (status, text.as_str()))
}

fn prints_changed(
    rt: &impl Abort,
    alloc: Global,
    &(old, new, status, compared, routes): &Row,
) -> Result<(), OutOfMemory> {
    let mut shelf = shelf_of(alloc, old, new)?;
    prints(rt, alloc, &mut shelf, (status, compared), routes)
}

#[test]
fn routes_are_printed(rt: HostRuntime) -> Result<(), Fail> {
    for row in &RECIPES {
        prints_changed(&rt, rt.alloc(), row)?;
    }
    Ok(())
}

/// What is changed in the report, into what, and what `verify` says of it.
type Change = (&'static str, &'static str, &'static str);

static CHANGES: [Change; 14] = [
    // one comparison is not true: the first, the second, and both
    (
        "compare two bin equal 3",
        "compare two bin equal 4",
        "refuted compare 1\n",
    ),
    (
        "compare three bin equal 3",
        "compare three bin equal 2",
        "refuted compare 2\n",
    ),
    (
        "compare three bin equal 3",
        "compare three bin differs 0 3 3",
        "refuted compare 2\n",
    ),
    (
        "compare two bin equal 3\ncompare three bin equal 3",
        "compare two bin equal 4\ncompare three bin equal 4",
        "refuted compare 1\n",
    ),
    // other names, another order, a line too few, one too many, one twice
    (
        "compare two bin equal 3\ncompare three",
        "compare three bin equal 3\ncompare two",
        "refuted header 0\n",
    ),
    (
        "compare three bin",
        "compare three src",
        "refuted header 0\n",
    ),
    ("compare two bin", "compare two src", "refuted header 0\n"),
    ("compare three bin", "compare two bin", "refuted header 0\n"),
    ("compare three bin equal 3\n", "", "refuted header 0\n"),
    ("compare two bin equal 3\n", "", "refuted header 0\n"),
    (
        "\nend\n",
        "\ncompare three bin equal 3\nend\n",
        "refuted header 0\n",
    ),
    // a compare line is judged after the stages
    ("stage three 32", "stage three 31", "refuted run 3\n"),
    ("made 3 ba78", "made 3 ba79", "refuted files 2\n"),
    // of form 1 a report of one comparison is read, and refuted by its form
    ("ddc-report 2", "ddc-report 1", "report line 29\n"),
];

/// Audits the recipe, and replays the report with a change.
fn refutes(
    rt: &impl Abort,
    alloc: Global,
    shelf: &mut MemShelf,
    &(old, new, text): &Change,
) -> Result<(), OutOfMemory> {
    let equal = "equal two bin 3\nequal three bin 3\n";
    comes_to(rt, alloc, shelf, "audit", (Status::Yes, equal))?;
    alter(alloc, shelf, old, new)?;
    let status = if text.starts_with("report") {
        Status::ReportRefused
    } else {
        Status::Refuted
    };
    comes_to(rt, alloc, shelf, "verify", (status, text))
}

fn refutes_change(rt: &impl Abort, alloc: Global, change: &Change) -> Result<(), OutOfMemory> {
    let mut shelf = shelf_of(alloc, "", "")?;
    refutes(rt, alloc, &mut shelf, change)
}

#[test]
fn reports_are_refuted(rt: HostRuntime) -> Result<(), Fail> {
    for change in &CHANGES {
        refutes_change(&rt, rt.alloc(), change)?;
    }
    Ok(())
}

/// What is said of a report of another recipe.
const HEADER: (Status, &str) = (Status::Refuted, "refuted header 0\n");

fn compares_forms(rt: &impl Abort, alloc: Global, shelf: &mut MemShelf) -> Result<(), OutOfMemory> {
    shelf.set("r", REPORT.as_bytes())?;
    let yes = (Status::Yes, "yes\nequal two bin 3\n");
    comes_to(rt, alloc, shelf, "verify", yes)?;
    alter(alloc, shelf, "ddc-report 1", "ddc-report 2")?;
    comes_to(rt, alloc, shelf, "verify", HEADER)
}

/// A report that was made before there were several forms, and the same under the other form.
#[test]
fn forms_are_compared(rt: HostRuntime) -> Result<(), Fail> {
    let mut shelf = audit_shelf(rt.alloc(), "", "")?;
    compares_forms(&rt, rt.alloc(), &mut shelf)?;
    Ok(())
}

fn has_a_number(rt: &impl Abort, alloc: Global, shelf: &mut MemShelf) -> Result<(), OutOfMemory> {
    let equal = (Status::Yes, "equal three bin 3\n");
    comes_to(rt, alloc, shelf, "audit", equal)?;
    alter(alloc, shelf, "bin equal 3", "bin equal 4")?;
    let compare = (Status::Refuted, "refuted compare 1\n");
    comes_to(rt, alloc, shelf, "verify", compare)?;
    alter(alloc, shelf, "ddc-report 2", "ddc-report 1")?;
    comes_to(rt, alloc, shelf, "verify", HEADER)
}

/// A recipe of format 2 that compares one stage: its comparison has the place 1, and under form 1 the report is another's.
#[test]
fn one_comparison_has_a_number(rt: HostRuntime) -> Result<(), Fail> {
    let stages = "stages = [\"two\", \"three\"]";
    let mut shelf = shelf_of(rt.alloc(), stages, "stages = [\"three\"]")?;
    has_a_number(&rt, rt.alloc(), &mut shelf)?;
    Ok(())
}

/// What a recipe or a text has for each of sixteen stages.
#[derive(Clone, Copy)]
enum Part {
    Stage,
    Name,
    Compared,
    Route,
}

/// Adds what stands for the stage of a letter.
fn put_part(alloc: Global, text: &mut String, part: Part, letter: char) -> Result<(), OutOfMemory> {
    let piece = match part {
        Part::Stage => format!(in alloc;
            "[[stage]]\nname = \"{letter}\"\nprogram = \"prog\"\nargs = [\"copy\"]\nfiles = [{{ path = \"in\", from = \"src\" }}]\noutput = \"out\"\nsteps = 100000\n"
        )?,
        Part::Name => format!(in alloc; "\"{letter}\", ")?,
        Part::Compared => format!(in alloc; "equal {letter} bin 3\n")?,
        Part::Route => format!(in alloc; "route {letter}\nassumes implements prog copy_src\n")?,
    };
    text.push_str(piece.as_str())?;
    Ok(())
}

/// What stands for sixteen stages.
fn sixteen(alloc: Global, part: Part) -> Result<String, OutOfMemory> {
    let mut text = String::new(alloc);
    for letter in "abcdefghijklmnop".chars() {
        put_part(alloc, &mut text, part, letter)?;
    }
    Ok(text)
}

/// The recipe with sixteen stages more, which alone are compared.
fn recipe_of_sixteen(alloc: Global) -> Result<String, OutOfMemory> {
    let stages = sixteen(alloc, Part::Stage)?;
    let names = sixteen(alloc, Part::Name)?;
    let compare = format!(in alloc; "{stages}[compare]\nstages = [{names}]")?;
    let old = "[compare]\nstages = [\"two\", \"three\"]";
    with(alloc, two_routes(alloc)?.as_str(), old, compare.as_str())
}

/// Audits that recipe and replays its report.
fn prints_sixteen(rt: &impl Abort, alloc: Global, shelf: &mut MemShelf) -> Result<(), OutOfMemory> {
    shelf.set("a.toml", recipe_of_sixteen(alloc)?.as_bytes())?;
    let compared = sixteen(alloc, Part::Compared)?;
    let routes = sixteen(alloc, Part::Route)?;
    let yes = (Status::Yes, compared.as_str());
    prints(rt, alloc, shelf, yes, routes.as_str())
}

/// Sixteen stages that copy three bytes, odd ones by the seed and even ones by what the stage before them made of it.
#[test]
fn sixteen_routes(rt: HostRuntime) -> Result<(), Fail> {
    let mut shelf = shelf_of(rt.alloc(), "", "")?;
    prints_sixteen(&rt, rt.alloc(), &mut shelf)?;
    Ok(())
}
