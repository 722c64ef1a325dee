//! The state of reading a report, and which line may come next.

ghost use Rattle.std.specs.Prelude.{◌≡◌, IfOk};
ghost use Rattle.std.specs.Ordering.{nat_cmp, is_lt};
ghost use Rattle.std.specs.Cmp.Lexicographic.{slice_cmp};
ghost use Rattle.report.specs.Inside.States.{step, follows};
ghost use Rattle.report.specs.Reports.{most_comparisons};
ghost use Rattle.report.specs.declared.state.State.TheVariants as state;

use crate::line::ReportLine;
use crate::types::{
    CompareLine, CompareLines, InputLine, InputLines, LeftLine, LeftLines, Mark, Report, StageLine,
    StageLines,
};
use ddc_base::digests::Digest;
use ddc_base::languages::Language;
use ddc_base::limits::MOST_NAMES;
use ddc_base::{ListOf, Name, OutOfMemory};
use std::alloc::Global;

/// The most inputs, and the most stages.
const MANY: usize = 256;

/// The most comparisons of a report of format 2.
const MANY_COMPARED: usize = 16;

/// The part of a report above the comparisons.
#[derive(Drop)]
pub struct Prefix {
    pub form: u32,
    pub recipe: Digest,
    pub inputs: InputLines,
    pub stages: StageLines,
}

/// A stage's block up to its first stream.
#[derive(Drop)]
pub struct BlockPrefix {
    pub name: Name,
    pub steps: u64,
    pub stream1: Mark,
}

/// A stage's block up to its left files.
#[derive(Drop)]
pub struct Opened {
    pub name: Name,
    pub steps: u64,
    pub stream1: Mark,
    pub stream2: Mark,
    pub left: LeftLines,
}

/// The state of reading a report.
#[derive(Drop)]
pub enum State {
    /// Nothing was read yet.
    Start,
    /// The header, with the format number.
    Titled(u32),
    /// After the header: the recipe's digest, and these inputs.
    Inputs(u32, Digest, InputLines),
    /// In a block: the stage's name and steps.
    Named(Prefix, Name, u64),
    /// In a block: the first stream as well.
    Heard(Prefix, BlockPrefix),
    /// In a block: both streams, and these left files.
    Leaving(Prefix, Opened),
    /// In a block: its artefact as well.
    Closing(Prefix, Opened, Mark),
    /// Whole blocks, at least one.
    Stages(Prefix),
    /// Comparisons, at least one.
    Compared(Report),
    /// The end line.
    Ended(Report),
}

impl State {
    /// The state after one more line, if a report may continue with it.
    #[tactic(auto, unfolding(crate::specs::Inside::States::step))]
    pub(crate) fn after(self, alloc: Global, line: ReportLine) -> Result<Option<State>, OutOfMemory>
        ensures { IfOk result (λ next. next ≡ step self line) }
    {
        match self {
            State::Start => Ok(after_nothing(line)),
            State::Titled(form) => Ok(after_header(alloc, form, line)),
            State::Inputs(form, recipe, inputs) => {
                after_inputs(alloc, form, recipe, inputs, line)
            }
            State::Named(prefix, name, steps) => Ok(after_name(prefix, name, steps, line)),
            State::Heard(prefix, stage) => Ok(after_stream1(alloc, prefix, stage, line)),
            State::Leaving(prefix, stage) => after_stream2(prefix, stage, line),
            State::Closing(prefix, stage, made) => after_made(prefix, stage, made, line),
            State::Stages(prefix) => after_stages(alloc, prefix, line),
            State::Compared(report) => after_compared(report, line),
            State::Ended(_) => Ok(None),
        }
    }
}

#[tactic(auto, unfolding(crate::specs::Inside::States::step))]
fn after_nothing(line: ReportLine) -> Option<State>
    ensures { result ≡ step state.Start line }
{
    match line {
        ReportLine::Header(form) => Some(State::Titled(form)),
        _ => None,
    }
}

#[tactic(auto, unfolding(crate::specs::Inside::States::step))]
fn after_header(alloc: Global, form: u32, line: ReportLine) -> Option<State>
    ensures { result ≡ step (state.Titled form) line }
{
    match line {
        ReportLine::Recipe(recipe) => Some(State::Inputs(form, recipe, ListOf::new(alloc))),
        _ => None,
    }
}

#[tactic(auto, unfolding(crate::specs::Inside::States::step))]
fn after_inputs(
    alloc: Global,
    form: u32,
    recipe: Digest,
    mut inputs: InputLines,
    line: ReportLine,
) -> Result<Option<State>, OutOfMemory>
    ensures { IfOk result (λ next. next ≡ step (state.Inputs form recipe inputs) line) }
{
    match line {
        ReportLine::Input(input) => {
            if inputs.len() < MANY {
                inputs.push(input)?;
                Ok(Some(State::Inputs(form, recipe, inputs)))
            } else {
                Ok(None)
            }
        }
        ReportLine::Stage(name, steps) => {
            if inputs.is_empty() {
                return Ok(None);
            }
            let prefix = Prefix {
                form,
                recipe,
                inputs,
                stages: ListOf::new(alloc),
            };
            Ok(Some(State::Named(prefix, name, steps)))
        }
        _ => Ok(None),
    }
}

#[tactic(auto, unfolding(crate::specs::Inside::States::step))]
fn after_name(prefix: Prefix, name: Name, steps: u64, line: ReportLine) -> Option<State>
    ensures { result ≡ step (state.Named prefix name steps) line }
{
    match line {
        ReportLine::Stream1(stream1) => {
            let stage = BlockPrefix {
                name,
                steps,
                stream1,
            };
            Some(State::Heard(prefix, stage))
        }
        _ => None,
    }
}

#[tactic(auto, unfolding(crate::specs::Inside::States::step))]
fn after_stream1(
    alloc: Global,
    prefix: Prefix,
    stage: BlockPrefix,
    line: ReportLine,
) -> Option<State>
    ensures { result ≡ step (state.Heard prefix stage) line }
{
    match line {
        ReportLine::Stream2(stream2) => {
            let opened = Opened {
                name: stage.name,
                steps: stage.steps,
                stream1: stage.stream1,
                stream2,
                left: ListOf::new(alloc),
            };
            Some(State::Leaving(prefix, opened))
        }
        _ => None,
    }
}

#[tactic(auto, unfolding(crate::specs::Inside::States::step))]
fn after_stream2(
    prefix: Prefix,
    mut stage: Opened,
    line: ReportLine,
) -> Result<Option<State>, OutOfMemory>
    ensures { IfOk result (λ next. next ≡ step (state.Leaving prefix stage) line) }
{
    match line {
        ReportLine::Left(file) => {
            if stage.left.len() < MOST_NAMES
                && follows(stage.left.as_slice(), file.name.as_slice())
            {
                stage.left.push(file)?;
                Ok(Some(State::Leaving(prefix, stage)))
            } else {
                Ok(None)
            }
        }
        ReportLine::Made(made) => Ok(Some(State::Closing(prefix, stage, made))),
        _ => Ok(None),
    }
}

#[tactic(auto, unfolding(crate::specs::Inside::States::step))]
fn after_made(
    mut prefix: Prefix,
    stage: Opened,
    made: Mark,
    line: ReportLine,
) -> Result<Option<State>, OutOfMemory>
    ensures { IfOk result (λ next. next ≡ step (state.Closing prefix stage made) line) }
{
    match line {
        ReportLine::Checked(checked) => {
            prefix.stages.push(StageLine {
                name: stage.name,
                steps: stage.steps,
                stream1: stage.stream1,
                stream2: stage.stream2,
                left: stage.left,
                made,
                checked,
            })?;
            Ok(Some(State::Stages(prefix)))
        }
        _ => Ok(None),
    }
}

#[tactic(auto, unfolding(crate::specs::Inside::States::step))]
fn after_stages(
    alloc: Global,
    prefix: Prefix,
    line: ReportLine,
) -> Result<Option<State>, OutOfMemory>
    ensures { IfOk result (λ next. next ≡ step (state.Stages prefix) line) }
{
    match line {
        ReportLine::Stage(name, steps) => {
            if prefix.stages.len() < MANY {
                Ok(Some(State::Named(prefix, name, steps)))
            } else {
                Ok(None)
            }
        }
        ReportLine::Compare(compare) => {
            let mut compares: CompareLines = ListOf::new(alloc);
            compares.push(compare)?;
            Ok(Some(State::Compared(Report {
                form: prefix.form,
                recipe: prefix.recipe,
                inputs: prefix.inputs,
                stages: prefix.stages,
                compare: compares,
            })))
        }
        _ => Ok(None),
    }
}

#[tactic(auto, unfolding(crate::specs::Inside::States::step))]
fn after_compared(mut report: Report, line: ReportLine) -> Result<Option<State>, OutOfMemory>
    ensures { IfOk result (λ next. next ≡ step (state.Compared report) line) }
{
    match line {
        ReportLine::Compare(compare) => {
            if report.compare.len() < most_comparisons(report.form) {
                report.compare.push(compare)?;
                Ok(Some(State::Compared(report)))
            } else {
                Ok(None)
            }
        }
        ReportLine::End => Ok(Some(State::Ended(report))),
        _ => Ok(None),
    }
}

/// The most comparisons of a report with this format number.
fn most_comparisons(form: u32) -> usize
    ensures { result ≡ most_comparisons form }
{
    if form == 1 { 1 } else { MANY_COMPARED }
}

/// Whether a name is greater than those of these files, which ascend.
pub(crate) fn follows(left: &[LeftLine], name: &[u8]) -> bool
    ensures { result ≡ follows left.now name.now }
{
    match left.last() {
        Some(last) => is_below(last.name.as_slice(), name),
        None => true,
    }
}

fn is_below(first: &[u8], second: &[u8]) -> bool
    ensures { result ≡ is_lt (slice_cmp nat_cmp first.now second.now) }
{
    first.cmp(second).is_lt()
}
