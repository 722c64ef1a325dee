//! The report of all stages.

ghost use Rattle.std.specs.Prelude.{◌≡◌, [], IfOk, OnOk};
ghost use Rattle.audit_rules.specs.Bench.{compared, compare_line, compare_lines, input_lines, bench_report, stage_line, stage_lines};
ghost use Rattle.audit_rules.specs.Contents.{check_language};
ghost use Rattle.audit_rules.specs.Stages.{contents};

use crate::stage::contents::content;
use crate::stage::done::Done;
use crate::stage::sources::{check_source, defined};
use ddc_base::languages::Language;
use ddc_base::{Bytes, Name, OutOfMemory, first_difference};
use recipe::{Input, Recipe, Stage};
use report::{
    CompareLine, CompareLines, Compared, InputLine, InputLines, LeftLine, LeftLines, Mark, Report,
    StageLine, StageLines,
};
use std::alloc::Global;

/// The report of all stages, with the comparisons. Error: out of memory.
#[tactic(auto, unfolding(audit_rules::specs::Bench::bench_report))]
pub fn report_of(
    alloc: Global,
    recipe: &Recipe,
    inputs: &[Bytes],
    done: &[Done],
) -> Result<Report, OutOfMemory>
    ensures { IfOk result (λ report. report ≡ bench_report recipe.now inputs.now done.now) }
{
    Ok(Report {
        form: recipe.format(),
        recipe: *recipe.digest(),
        inputs: input_lines(alloc, recipe.inputs().as_slice(), inputs)?,
        stages: stage_lines(alloc, recipe, recipe.stages().as_slice(), done)?,
        compare: compare_lines(alloc, recipe, inputs, done)?,
    })
}

/// The lines of the inputs.
fn input_lines(alloc: Global, inputs: &[Input], given: &[Bytes]) -> Result<InputLines, OutOfMemory>
    ensures { IfOk result (λ lines. lines ≡ input_lines inputs.now given.now) }
{
    let mut lines = InputLines::new(alloc);
    for index in 0..inputs.len().min(given.len()) {
        lines.push(InputLine {
            name: inputs[index].name.copy(),
            mark: Mark::of(given[index].as_slice()),
        })?;
    }
    Ok(lines)
}

/// The lines of the finished stages.
fn stage_lines(
    alloc: Global,
    recipe: &Recipe,
    stages: &[Stage],
    done: &[Done],
) -> Result<StageLines, OutOfMemory>
    ensures { IfOk result (λ lines. lines ≡ stage_lines recipe.now stages.now done.now) }
{
    let mut lines = StageLines::new(alloc);
    put_stage_lines(alloc, recipe, stages, done, &mut lines)?;
    Ok(lines)
}

/// Adds the lines of the finished stages to an empty list.
fn put_stage_lines(
    alloc: Global,
    recipe: &Recipe,
    stages: &[Stage],
    done: &[Done],
    lines: &mut StageLines,
) -> Result<(), OutOfMemory>
    requires { lines.old ≡ [] }
    ensures { OnOk result (lines.new ≡ stage_lines recipe.now stages.now done.now) }
{
    for index in 0..stages.len().min(done.len()) {
        lines.push(stage_line(alloc, recipe, &stages[index], &done[index])?)?;
    }
    Ok(())
}

/// The line of a finished stage.
fn stage_line(
    alloc: Global,
    recipe: &Recipe,
    stage: &Stage,
    done: &Done,
) -> Result<StageLine, OutOfMemory>
    ensures { IfOk result (λ line. line ≡ stage_line recipe.now stage.now done.now) }
{
    let finished = done.finished();
    Ok(StageLine {
        name: stage.name.copy(),
        steps: finished.steps,
        stream1: finished.stream1,
        stream2: finished.stream2,
        left: copy_of(alloc, finished.left.as_slice())?,
        made: done.mark(),
        checked: check_language(recipe, stage),
    })
}

/// A copy of these lines.
fn copy_of(alloc: Global, lines: &[LeftLine]) -> Result<LeftLines, OutOfMemory>
    ensures { IfOk result (λ copy. copy ≡ lines.now) }
{
    let mut copy = LeftLines::new(alloc);
    put_copies(alloc, lines, &mut copy)?;
    Ok(copy)
}

/// Adds copies of these lines to an empty list.
fn put_copies(alloc: Global, lines: &[LeftLine], copy: &mut LeftLines) -> Result<(), OutOfMemory>
    requires { copy.old ≡ [] }
    ensures { OnOk result (copy.new ≡ lines.now) }
{
    for line in lines {
        copy.push(copied(alloc, line)?)?;
    }
    Ok(())
}

/// A copy of this line.
fn copied(alloc: Global, line: &LeftLine) -> Result<LeftLine, OutOfMemory>
    ensures { IfOk result (λ copy. copy ≡ line.now) }
{
    Ok(LeftLine {
        name: Bytes::from_slice(alloc, line.name.as_slice())?,
        mark: line.mark,
    })
}

/// The language in which a stage's artefact is checked; `None` for an unchecked stage.
#[tactic(auto, unfolding(audit_rules::specs::Contents::check_language))]
fn check_language(recipe: &Recipe, stage: &Stage) -> Option<Language>
    ensures { result ≡ check_language recipe.now stage.now }
{
    match check_source(recipe, stage) {
        Some(source) => defined(source.lang),
        None => None,
    }
}

/// The lines of the comparisons: one for each compared stage, in the recipe's order.
fn compare_lines(
    alloc: Global,
    recipe: &Recipe,
    inputs: &[Bytes],
    done: &[Done],
) -> Result<CompareLines, OutOfMemory>
    ensures { IfOk result (λ lines. lines ≡ compare_lines recipe.now (contents inputs.now done.now)) }
{
    let mut lines = CompareLines::new(alloc);
    let stages = recipe.compare().stages.as_slice();
    for stage in stages {
        lines.push(compare_line(recipe, inputs, done, stage))?;
    }
    Ok(lines)
}

/// The line of a compared stage: how its artefact compares with the audited binary.
fn compare_line(recipe: &Recipe, inputs: &[Bytes], done: &[Done], stage: &Name) -> CompareLine
    ensures { result ≡ compare_line recipe.now (contents inputs.now done.now) stage.now }
{
    let binary = &recipe.compare().binary;
    CompareLine {
        stage: stage.copy(),
        binary: binary.copy(),
        result: compared(
            content(recipe, inputs, done, stage),
            content(recipe, inputs, done, binary),
        ),
    }
}

/// How an artefact and a binary compare.
fn compared(made: &[u8], binary: &[u8]) -> Compared
    ensures { result ≡ compared made.now binary.now }
{
    match first_difference(made, binary) {
        None => Compared::Equal(made.len() as u64),
        Some(offset) => Compared::Differs(offset, made.len() as u64, binary.len() as u64),
    }
}
