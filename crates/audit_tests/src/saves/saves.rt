ghost use Rattle.std.specs.Prelude.{◌≤◌};
ghost use Rattle.audit_rules.specs.Valid.{IsInputs};

use crate::place_after;
use crate::saves::worked::{RECIPE, REPORT, edited, given, with};
use audit_run::{Audit, Progress, SaveRefusal};
use ddc_base::{Bytes, OutOfMemory};
use recipe::{Inputs, Recipe};
use std::alloc::Global;
use std::mem::drop;
use std::process::Abort;

/// The save of an audit after so many steps more.
fn save_following(audit: &mut Audit, steps: u64) -> Result<Bytes, OutOfMemory>
    requires { 1 ≤ steps }
{
    match audit.advance(steps) {
        Progress::Paused => audit.save(),
        _ => Err(OutOfMemory),
    }
}

/// The save of a new audit after so many steps.
fn save_after(
    alloc: Global,
    recipe: Recipe,
    inputs: Inputs,
    steps: u64,
) -> Result<Bytes, OutOfMemory>
    requires given { IsInputs recipe inputs }
    requires some { 1 ≤ steps }
{
    let mut audit = Audit::new(alloc, recipe, inputs);
    let save = save_following(&mut audit, steps);
    drop(audit);
    save
}

/// The save of the worked audit after so many steps.
pub(crate) fn save_at(alloc: Global, steps: u64) -> Result<Bytes, OutOfMemory> {
    if steps < 1 {
        return Err(OutOfMemory);
    }
    match given(alloc, RECIPE, b"abc") {
        Ok((recipe, inputs)) => save_after(alloc, recipe, inputs, steps),
        Err(OutOfMemory) => Err(OutOfMemory),
    }
}

/// What is resumed of a text, for this recipe and this third input.
fn resumed(alloc: Global, recipe: &str, source: &[u8], text: &[u8]) -> Result<Audit, SaveRefusal> {
    match given(alloc, recipe, source) {
        Ok((recipe, inputs)) => Audit::resume(alloc, recipe, inputs, text),
        Err(OutOfMemory) => Err(SaveRefusal::OutOfMemory),
    }
}

/// Why a text is refused as a save of this recipe and this third input.
pub(crate) fn refusal(
    alloc: Global,
    recipe: &str,
    source: &[u8],
    text: &[u8],
) -> Option<SaveRefusal> {
    resumed(alloc, recipe, source, text).err()
}

/// The report of an audit that is over with one.
fn report_of(alloc: Global, audit: &Audit) -> Result<Bytes, OutOfMemory> {
    match audit.report() {
        Some(report) => report::write(alloc, report),
        None => Err(OutOfMemory),
    }
}

/// Whether an audit is over with this report.
fn has_report(alloc: Global, audit: &Audit, wanted: &str) -> bool {
    match report_of(alloc, audit) {
        Ok(report) => report.as_slice() == wanted.as_bytes(),
        Err(OutOfMemory) => false,
    }
}

/// Whether a resumed audit stands after so many steps, and has the undivided report.
fn goes_on(alloc: Global, audit: &mut Audit, steps: u64) -> bool {
    audit.place() == place_after(steps)
        && audit.advance(100) == Progress::Equal
        && has_report(alloc, audit, REPORT)
}

/// The same of the audit that a save says.
fn is_resumed(alloc: Global, text: &[u8], steps: u64) -> bool {
    match resumed(alloc, RECIPE, b"abc", text) {
        Ok(mut audit) => {
            let goes = goes_on(alloc, &mut audit, steps);
            drop(audit);
            goes
        }
        Err(_) => false,
    }
}

/// The same of the save after so many steps.
fn is_resumed_at(alloc: Global, steps: u64) -> bool {
    match save_at(alloc, steps) {
        Ok(text) => is_resumed(alloc, text.as_slice(), steps),
        Err(OutOfMemory) => false,
    }
}

#[test]
fn a_resumed_audit_has_the_undivided_report(rt: HostRuntime) {
    for steps in 1..64 {
        assert!(rt; is_resumed_at(rt.alloc(), steps), "{steps}");
    }
}

/// The result of the next segment of an audit: a save, or the report.
#[derive(Drop)]
struct Came {
    is_over: bool,
    text: Bytes,
}

/// Advances an audit by so many steps.
fn advanced(alloc: Global, audit: &mut Audit, steps: u64) -> Result<Came, OutOfMemory>
    requires { 1 ≤ steps }
{
    match audit.advance(steps) {
        Progress::Paused => came_to(false, audit.save()),
        Progress::Equal => came_to(true, report_of(alloc, audit)),
        _ => Err(OutOfMemory),
    }
}

fn came_to(is_over: bool, text: Result<Bytes, OutOfMemory>) -> Result<Came, OutOfMemory> {
    match text {
        Ok(text) => Ok(Came { is_over, text }),
        Err(OutOfMemory) => Err(OutOfMemory),
    }
}

/// Resumes the worked audit, and advances it by so many steps.
fn resumed_by(alloc: Global, text: &[u8], steps: u64) -> Result<Came, OutOfMemory>
    requires { 1 ≤ steps }
{
    match resumed(alloc, RECIPE, b"abc", text) {
        Ok(mut audit) => {
            let next = advanced(alloc, &mut audit, steps);
            drop(audit);
            next
        }
        Err(_) => Err(OutOfMemory),
    }
}

/// Resumes what came, where it is no report, and advances it by so many steps.
fn take_piece(alloc: Global, last: &mut Came, steps: u64) -> bool
    requires { 1 ≤ steps }
{
    if last.is_over {
        return true;
    }
    match resumed_by(alloc, last.text.as_slice(), steps) {
        Ok(next) => {
            *last = next;
            true
        }
        Err(OutOfMemory) => false,
    }
}

/// Whether the report of the worked audit comes in pieces of so many steps, which is saved and resumed after each of them.
fn reports_by(alloc: Global, last: &mut Came, steps: u64) -> bool
    requires { 1 ≤ steps }
{
    for _ in 0..64 {
        if !take_piece(alloc, last, steps) {
            return false;
        }
    }
    last.is_over && last.text.as_slice() == REPORT.as_bytes()
}

/// The same from its start on.
fn pieces_report(alloc: Global, steps: u64) -> bool
    requires { 1 ≤ steps }
{
    match came_to(false, save_at(alloc, steps)) {
        Ok(mut last) => reports_by(alloc, &mut last, steps),
        Err(OutOfMemory) => false,
    }
}

#[test]
fn pieces_have_the_undivided_report(rt: HostRuntime) {
    for steps in [1, 7, 20, 31, 32, 63] {
        assert!(rt; pieces_report(rt.alloc(), steps), "{steps}");
    }
}

/// Whether an audit that continues by 1,000 steps ends with this report.
fn ends_with(alloc: Global, audit: &mut Audit, wanted: &str) -> bool {
    audit.advance(1_000) == Progress::Equal && has_report(alloc, audit, wanted)
}

/// The same of the audit that a text says.
fn reports_from(alloc: Global, text: &[u8], wanted: &str) -> bool {
    match resumed(alloc, RECIPE, b"abc", text) {
        Ok(mut audit) => {
            let ends = ends_with(alloc, &mut audit, wanted);
            drop(audit);
            ends
        }
        Err(_) => false,
    }
}

/// After 45 steps x8, at 657, has how many bytes the copier reads at once, and a turn of its loop takes 11 steps.
static TURNS: [(u8, &str); 3] = [
    (3, "stage two 32"),
    (2, "stage two 43"),
    (1, "stage two 54"),
];

/// Whether a save with so many bytes in x8 leads to a report with this line.
fn reads_at_once(alloc: Global, text: &[u8], bytes: u8, line: &str) -> bool {
    match with(alloc, REPORT, "stage two 32", line) {
        Ok(wanted) => reads_as(alloc, text, bytes, wanted.as_str()),
        Err(OutOfMemory) => false,
    }
}

fn reads_as(alloc: Global, text: &[u8], bytes: u8, wanted: &str) -> bool {
    match edited(alloc, text, &[(657, 2, &[bytes, 0])]) {
        Ok(text) => reports_from(alloc, text.as_slice(), wanted),
        Err(OutOfMemory) => false,
    }
}

fn check_turns(rt: &impl Abort, alloc: Global, text: &[u8]) {
    for (bytes, line) in &TURNS {
        assert!(rt; reads_at_once(alloc, text, *bytes, line), "{line}");
    }
}

#[test]
fn an_audit_goes_on_from_what_a_save_says(rt: HostRuntime) {
    let text = save_at(rt.alloc(), 45).expect(&rt, "a save");
    check_turns(&rt, rt.alloc(), text.as_slice());
}

/// The save after so many steps as the first form has it: both magics end with another byte, and nothing says what is reserved. The state
/// begins at 176 in the first stage, and at 577 after it.
pub(crate) fn old_save_at(alloc: Global, steps: u64) -> Result<Bytes, OutOfMemory> {
    let (magic, reserved) = if steps < 32 { (183, 448) } else { (584, 849) };
    let text = save_at(alloc, steps)?;
    edited(
        alloc,
        text.as_slice(),
        &[(reserved, 1, b""), (magic, 1, b"1"), (7, 1, b"1")],
    )
}

fn old_is_resumed_at(alloc: Global, steps: u64) -> bool {
    match old_save_at(alloc, steps) {
        Ok(text) => is_resumed(alloc, text.as_slice(), steps),
        Err(OutOfMemory) => false,
    }
}

#[test]
fn an_old_save_has_the_undivided_report(rt: HostRuntime) {
    for steps in 1..64 {
        assert!(rt; old_is_resumed_at(rt.alloc(), steps), "{steps}");
    }
}

/// Whether an audit is saved like this after so many steps more.
fn saves_as(audit: &mut Audit, steps: u64, wanted: &[u8]) -> bool
    requires { 1 ≤ steps }
{
    match save_following(audit, steps) {
        Ok(save) => save.as_slice() == wanted,
        Err(OutOfMemory) => false,
    }
}

/// The same of the audit that a text says.
fn is_saved_as(alloc: Global, text: &[u8], steps: u64, wanted: &[u8]) -> bool
    requires { 1 ≤ steps }
{
    match resumed(alloc, RECIPE, b"abc", text) {
        Ok(mut audit) => {
            let is_saved = saves_as(&mut audit, steps, wanted);
            drop(audit);
            is_saved
        }
        Err(_) => false,
    }
}

/// The same of its save after so many steps, after 5 steps more.
fn is_saved_at(alloc: Global, text: &[u8], steps: u64) -> bool {
    match save_at(alloc, steps) {
        Ok(wanted) => is_saved_as(alloc, text, 5, wanted.as_slice()),
        Err(OutOfMemory) => false,
    }
}

fn old_is_saved_anew(alloc: Global) -> bool {
    match old_save_at(alloc, 40) {
        Ok(old) => is_saved_at(alloc, old.as_slice(), 45),
        Err(OutOfMemory) => false,
    }
}

/// It is saved again in the second form.
#[test]
fn an_old_save_is_saved_anew(rt: HostRuntime) {
    assert!(rt; old_is_saved_anew(rt.alloc()));
}

/// Whether this is why a text is refused as a save of this recipe and this third input.
fn is_refused(
    alloc: Global,
    recipe: &str,
    source: &[u8],
    text: &[u8],
    wanted: SaveRefusal,
) -> bool {
    refusal(alloc, recipe, source, text) == Some(wanted)
}

/// Whether a save is refused beside a recipe with other limits.
fn is_of_another(alloc: Global, text: &[u8]) -> bool {
    match with(alloc, RECIPE, "steps = 100000", "steps = 200000") {
        Ok(other) => is_refused(
            alloc,
            other.as_str(),
            b"abc",
            text,
            SaveRefusal::OtherRecipe,
        ),
        Err(OutOfMemory) => false,
    }
}

fn check_others(rt: &impl Abort, alloc: Global, text: &[u8]) {
    assert!(rt; is_refused(alloc, RECIPE, b"abc", &[], SaveRefusal::Form(0)));
    assert!(rt; is_refused(alloc, RECIPE, b"abd", text, SaveRefusal::OtherRecipe));
    assert!(rt; is_of_another(alloc, text));
}

#[test]
fn saves_of_others_are_refused(rt: HostRuntime) {
    let text = save_at(rt.alloc(), 45).expect(&rt, "a save");
    check_others(&rt, rt.alloc(), text.as_slice());
}
