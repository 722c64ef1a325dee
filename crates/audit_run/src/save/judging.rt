//! Whether the finished stages of a save are possible. Each is judged alone, by the recipe.

ghost use Rattle.std.specs.Prelude.{◌≡◌, ◌-◌, ◌≤◌, ◌↔◌, All, Contains, IsTrue, None, SomeIff, length};
ghost use Rattle.ddc_base.specs.Limits.{most_artefacts, most_names};
ghost use Rattle.save_format.specs.ByteFields.Spelling.{InTurn};
ghost use Rattle.mem_files.specs.Names.{is_stripped_name};
ghost use Rattle.mem_files.specs.Outputs.{IsContent};
ghost use Rattle.mem_files.specs.Sound.{AreBytes};
ghost use Rattle.report.specs.Reports.{ascend};
ghost use Rattle.save_format.specs.SaveText.{after_left};
ghost use Rattle.save_format.specs.Encoded.{IsSavedLeft};
ghost use Rattle.audit_rules.specs.Stages.{artefact_bytes};
ghost use Rattle.audit_rules.specs.Valid.{AreDone, AreFinished, HasMark, IsFinished, IsLeftLine, IsSmallMark};

use crate::stage::Done;
use ddc_base::limits::{MOST_ARTEFACTS, MOST_CONTENT, MOST_NAMES};
use mem_files::is_stripped_name;
use recipe::{Output, Recipe, Stage};
use report::{LeftLine, Mark};

/// Whether these can be the first finished stages of the recipe.
pub(crate) fn are_done(recipe: &Recipe, done: &[Done]) -> bool
    requires { All (λ f. InTurn IsSavedLeft after_left None f.left) done.now }
    ensures { IsTrue result ↔ AreDone recipe.now done.now }
{
    are_small(done) && are_finished(recipe.stages().as_slice(), done)
}

/// Whether all artefacts together have at most 1,073,741,824 bytes.
fn are_small(done: &[Done]) -> bool
    ensures { IsTrue result ↔ (artefact_bytes done.now ≤ most_artefacts) }
{
    remaining_after(done, MOST_ARTEFACTS).is_some()
}

/// How much of `most` bytes is left after all artefacts; `None` if they have more.
fn remaining_after(done: &[Done], most: u64) -> Option<u64>
    ensures { SomeIff result (artefact_bytes done.now ≤ most) (most - artefact_bytes done.now) }
{
    let mut remaining = most;
    for stage in done {
        let size = stage.made().len() as u64;
        if size > remaining {
            return None;
        }
        remaining -= size;
    }
    Some(remaining)
}

/// Whether the finished stages are the first of these stages, in order.
fn are_finished(stages: &[Stage], done: &[Done]) -> bool
    requires { All (λ f. InTurn IsSavedLeft after_left None f.left) done.now }
    ensures { IsTrue result ↔ AreFinished stages.now done.now }
{
    match done {
        [] => true,
        [first, later @ ..] => match stages {
            [] => false,
            [stage, rest @ ..] => is_finished(stage, first) && are_finished(rest, later),
        },
    }
}

/// Whether a stage can be done with this result.
fn is_finished(stage: &Stage, done: &Done) -> bool
    requires { InTurn IsSavedLeft after_left None done.now.left }
    ensures { IsTrue result ↔ IsFinished stage.now done.now }
{
    let finished = done.finished();
    if !are_steps(finished.steps, stage.steps) {
        return false;
    }
    if !is_small(finished.stream1) {
        return false;
    }
    if !is_small(finished.stream2) {
        return false;
    }
    if !are_left(finished.left.as_slice()) {
        return false;
    }
    if !is_content(done.made()) {
        return false;
    }
    has_mark(&stage.output, done)
}

fn are_steps(steps: u64, most: u64) -> bool
    ensures { IsTrue result ↔ ((1 ≤ steps) × (steps ≤ most)) }
{
    steps >= 1 && steps <= most
}

fn is_small(mark: Mark) -> bool
    ensures { IsTrue result ↔ IsSmallMark mark }
{
    mark.length < 1 << 32 && is_digest(&mark.digest.0)
}

fn is_digest(bytes: &[u8]) -> bool
    ensures { IsTrue result ↔ ((length bytes.now ≡ 32) × AreBytes bytes.now) }
{
    bytes.len() == 32
}

fn is_content(bytes: &[u8]) -> bool
    ensures { IsTrue result ↔ IsContent bytes.now }
{
    bytes.len() as u64 <= MOST_CONTENT
}

/// Whether a program can have left these files.
fn are_left(files: &[LeftLine]) -> bool
    requires { InTurn IsSavedLeft after_left None files.now }
    ensures { IsTrue result ↔ (All IsLeftLine files.now × (length files.now ≤ most_names) × IsTrue (ascend files.now)) }
{
    if files.len() > MOST_NAMES {
        return false;
    }
    are_lines(files)
}

fn are_lines(files: &[LeftLine]) -> bool
    ensures { IsTrue result ↔ All IsLeftLine files.now }
{
    files.iter().all(|file| is_left(file))
}

fn is_left(file: &LeftLine) -> bool
    ensures { IsTrue result ↔ IsLeftLine file.now }
{
    is_small(file.mark) && is_name(file.name.as_slice())
}

fn is_name(name: &[u8]) -> bool
    ensures { IsTrue result ↔ (IsTrue (is_stripped_name name.now) × AreBytes name.now) }
{
    is_stripped_name(name)
}

/// Whether the artefact has the recorded mark of the stage's output.
fn has_mark(output: &Output, done: &Done) -> bool
    ensures { IsTrue result ↔ HasMark output.now done.now }
{
    match output {
        Output::Stream => done.finished().stream1 == done.mark(),
        Output::File(path) => is_among(
            done.finished().left.as_slice(),
            path.as_slice(),
            done.mark(),
        ),
    }
}

fn is_among(files: &[LeftLine], name: &[u8], mark: Mark) -> bool
    ensures { IsTrue result ↔ Contains files.now (record { name = name.now; mark = mark }) }
{
    files
        .iter()
        .any(|file| file.name.as_slice() == name && file.mark == mark)
}
