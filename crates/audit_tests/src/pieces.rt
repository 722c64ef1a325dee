//! Audits that are advanced in pieces.

ghost use Rattle.std.specs.Prelude.{◌≤◌};

use crate::place_after;
use audit_run::{Audit, Progress};
use command_plan::FileName;
use ddc_base::{Bytes, MemShelf, OutOfMemory, read_hex};
use guest_run::{Guest, RunBox, RunRam};
use mem_files::Files;
use recipe::Recipe;
use recipe_plan::{fetch_inputs, fetch_recipe};
use std::alloc::Global;
use std::mem::drop;
use std::process::Abort;

/// copy.elf, which copies the file `in` to `out`, with a line's end: its source in hex0.
const COPY: &str =
    "7f454c460201010000000000000000000200f30001000000780001000000000040000000000000000000000000000000000000004000380001000000\
    000000000100000007000000000000000000000000000100000000000000010000000000e800000000000000e80000000000000000100000000000001305c0f9b70501009385050e1306000093088003730000001305c0f9b70501009385350e\
    130610247300000037140000b30481401305300093850400130604009308f00373000000630c0500130605001305400093080004730000006ff09ffd\
    9308d00573000000696e006f75740000\n";

/// The recipe: `one` copies the copier, and what it made is checked and copies three bytes.
const RECIPE: &str = r#"format = 1
[[input]]
name = "prog"
path = "copy.elf"
[[input]]
name = "text"
path = "copy.hex0"
[[input]]
name = "src"
path = "a.bin"
[[input]]
name = "bin"
path = "b.bin"
[[source]]
name = "copy_src"
lang = "hex0"
files = ["text"]
[[stage]]
name = "one"
program = "prog"
args = ["copy"]
files = [{ path = "in", from = "prog" }]
output = "out"
steps = 100000
check = "copy_src"
[[stage]]
name = "two"
program = "one"
args = ["copy"]
files = [{ path = "in", from = "src" }]
output = "out"
steps = 100000
[compare]
stage = "two"
binary = "bin"
"#;

/// The texts of a file store.
static TEXTS: [(&str, &str); 4] = [
    ("copy.hex0", COPY),
    ("a.bin", "abc"),
    ("b.bin", "abc"),
    ("a.toml", RECIPE),
];

fn put_texts(shelf: &mut MemShelf, texts: &[(&str, &str)]) -> Result<(), OutOfMemory> {
    for (name, text) in texts {
        shelf.set(name, text.as_bytes())?;
    }
    Ok(())
}

/// Sets the program of the source.
fn put_program(alloc: Global, shelf: &mut MemShelf) -> Result<(), OutOfMemory> {
    match read_hex(alloc, COPY.trim_end().as_bytes()) {
        Ok(program) => shelf.set("copy.elf", program.as_slice()),
        Err(_) => Err(OutOfMemory),
    }
}

/// Sets the recipe and its files.
fn fill(alloc: Global, shelf: &mut MemShelf) -> Result<(), OutOfMemory> {
    put_program(alloc, shelf)?;
    put_texts(shelf, &TEXTS)
}

/// An audit of a recipe, whose inputs a file store has.
fn audit_of(alloc: Global, shelf: &mut MemShelf, recipe: Recipe) -> Result<Audit, OutOfMemory> {
    match fetch_inputs(alloc, shelf, &recipe) {
        Ok(inputs) => Ok(Audit::new(alloc, recipe, inputs)),
        Err(stop) => {
            drop(stop);
            drop(recipe);
            Err(OutOfMemory)
        }
    }
}

/// An audit of the recipe that a file store has.
fn audit_in(alloc: Global, shelf: &mut MemShelf) -> Result<Audit, OutOfMemory> {
    match fetch_recipe(alloc, shelf, &FileName::of("a.toml")) {
        Ok(recipe) => audit_of(alloc, shelf, recipe),
        Err(stop) => {
            drop(stop);
            Err(OutOfMemory)
        }
    }
}

/// An audit of the recipe, which has not started.
fn worked(alloc: Global) -> Result<Audit, OutOfMemory> {
    let mut shelf = MemShelf::new(alloc);
    let audit = match fill(alloc, &mut shelf) {
        Ok(()) => audit_in(alloc, &mut shelf),
        Err(OutOfMemory) => Err(OutOfMemory),
    };
    drop(shelf);
    audit
}

/// The text of the report of an audit that is over.
fn report_text(alloc: Global, audit: &Audit) -> Result<Bytes, OutOfMemory> {
    match audit.report() {
        Some(report) => report::write(alloc, report),
        None => Ok(Bytes::new(alloc)),
    }
}

/// Whether an audit has this report.
fn has_text(alloc: Global, audit: &Audit, text: &[u8]) -> bool {
    match report_text(alloc, audit) {
        Ok(own) => own.as_slice() == text,
        Err(OutOfMemory) => false,
    }
}

/// The text of the report of an audit that continues to its end.
fn last_text(alloc: Global, audit: &mut Audit) -> Result<Bytes, OutOfMemory> {
    audit.advance(u64::MAX);
    report_text(alloc, audit)
}

/// The text of the report of the undivided audit.
fn whole_text(alloc: Global) -> Result<Bytes, OutOfMemory> {
    match worked(alloc) {
        Ok(mut audit) => {
            let text = last_text(alloc, &mut audit);
            drop(audit);
            text
        }
        Err(OutOfMemory) => Err(OutOfMemory),
    }
}

/// Whether an audit stands after so many steps where they lead.
fn holds_after(audit: &mut Audit, steps: u64) -> bool
    requires { 1 ≤ steps }
{
    let is_paused = audit.advance(steps) == Progress::Paused;
    is_paused == (steps < 64)
        && audit.place() == place_after(steps)
        && audit.report().is_some() != is_paused
}

/// Whether an audit is after so many steps, and then ends with this report.
fn goes_on(alloc: Global, audit: &mut Audit, steps: u64, text: &[u8]) -> bool
    requires { 1 ≤ steps }
{
    holds_after(audit, steps)
        && audit.advance(64) == Progress::Equal
        && audit.place() == (0, 0)
        && has_text(alloc, audit, text)
}

/// The same of a new audit.
fn new_goes_on(alloc: Global, steps: u64, text: &[u8]) -> bool
    requires { 1 ≤ steps }
{
    match worked(alloc) {
        Ok(mut audit) => {
            let goes = goes_on(alloc, &mut audit, steps, text);
            drop(audit);
            goes
        }
        Err(OutOfMemory) => false,
    }
}

fn check_places(rt: &impl Abort, alloc: Global, text: &[u8]) {
    assert!(rt; text.starts_with("ddc-report 1\n".as_bytes()));
    for steps in 1..66 {
        assert!(rt; new_goes_on(alloc, steps, text), "{steps}");
    }
}

#[test]
fn an_audit_holds_where_its_steps_lead(rt: HostRuntime) {
    let text = whole_text(rt.alloc()).expect(&rt, "a report");
    check_places(&rt, rt.alloc(), text.as_slice());
}

/// Whether an audit is over, with this report.
fn is_over(alloc: Global, audit: &Audit, text: &[u8]) -> bool {
    audit.place() == (0, 0) && has_text(alloc, audit, text)
}

/// Whether an audit that is handed on ends with this report.
fn ends_handed_on(alloc: Global, audit: Audit, text: &[u8]) -> bool {
    match audit.advanced(64) {
        Ok(audit) => {
            let ends = is_over(alloc, &audit, text);
            drop(audit);
            ends
        }
        Err(OutOfMemory) => false,
    }
}

/// Whether an audit that was handed on stands after so many steps where they lead.
fn holds_at(audit: &Audit, steps: u64) -> bool {
    audit.place() == place_after(steps) && audit.answer().is_some() == (steps >= 64)
}

/// The same of one that stands there, and first is asked for its place.
fn takes_last(alloc: Global, audit: Audit, steps: u64, text: &[u8]) -> bool {
    let holds = holds_at(&audit, steps);
    ends_handed_on(alloc, audit, text) && holds
}

/// Whether an audit that is handed on is, after so many steps, where they lead, and then ends with this report.
fn takes_pieces(alloc: Global, audit: Audit, steps: u64, text: &[u8]) -> bool {
    match audit.advanced(steps) {
        Ok(audit) => takes_last(alloc, audit, steps, text),
        Err(OutOfMemory) => false,
    }
}

/// The same of a new audit.
fn new_takes_pieces(alloc: Global, steps: u64, text: &[u8]) -> bool {
    match worked(alloc) {
        Ok(audit) => takes_pieces(alloc, audit, steps, text),
        Err(OutOfMemory) => false,
    }
}

fn check_pieces(rt: &impl Abort, alloc: Global, text: &[u8]) {
    for steps in [1, 31, 32, 33, 63, 64, 65] {
        assert!(rt; new_takes_pieces(alloc, steps, text), "{steps}");
    }
}

#[test]
fn an_audit_that_is_handed_on_holds_there_too(rt: HostRuntime) {
    let text = whole_text(rt.alloc()).expect(&rt, "a report");
    check_pieces(&rt, rt.alloc(), text.as_slice());
}

/// After so many steps, the length of the first file of a program that is started with the present setting.
static LENGTHS: [(u64, Option<u64>); 6] = [
    (0, Some(232)),
    (1, Some(232)),
    (31, Some(232)),
    (32, Some(3)),
    (63, Some(3)),
    (64, None),
];

fn check_settings(rt: &impl Abort, alloc: Global, rows: &[(u64, Option<u64>)]) {
    for row in rows {
        assert!(rt; gives_after(alloc, row.0, row.1), "{row:?}");
    }
}

/// A program that is started with the present setting has the stage's file; there is no setting where the audit is over.
#[test]
fn a_setting_is_the_present_stage(rt: HostRuntime) {
    check_settings(&rt, rt.alloc(), &LENGTHS);
}

/// Whether the first file of a program is so long that is started with the present setting after so many steps.
fn gives_after(alloc: Global, steps: u64, length: Option<u64>) -> bool {
    match worked(alloc) {
        Ok(mut audit) => {
            let gives = gives_following(alloc, &mut audit, steps, length);
            drop(audit);
            gives
        }
        Err(OutOfMemory) => false,
    }
}

/// The same of an audit that has not started.
fn gives_following(alloc: Global, audit: &mut Audit, steps: u64, length: Option<u64>) -> bool {
    if steps > 0 {
        audit.advance(steps);
    }
    gives(alloc, audit, length)
}

fn gives(alloc: Global, audit: &Audit, length: Option<u64>) -> bool {
    match audit.setting(alloc) {
        Ok(Some((program, setting))) => {
            let starts = starts_with(alloc, program, &setting, length);
            drop(setting);
            starts
        }
        Ok(None) => length.is_none(),
        Err(OutOfMemory) => false,
    }
}

fn starts_with(alloc: Global, program: &[u8], setting: &RunBox<'_>, length: Option<u64>) -> bool {
    match Guest::<RunRam>::start(alloc, program, setting) {
        Ok(guest) => {
            let first = first_length(guest.files());
            drop(guest);
            first.is_some() && first == length
        }
        Err(_) => false,
    }
}

fn first_length(files: &Files) -> Option<u64> {
    files.file_from(0).map(|file| file.content.len() as u64)
}
