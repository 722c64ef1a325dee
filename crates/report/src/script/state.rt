//! The state of reading a script's report, and which line may come next.

ghost use Rattle.std.specs.Prelude.{◌≡◌, IfOk};
ghost use Rattle.report.specs.Inside.Script.States.{step};
ghost use Rattle.report.specs.declared.script.line.ScriptLine.TheVariants as line;
ghost use Rattle.report.specs.declared.script.state.ScriptState.TheVariants as state;

use crate::script::line::ScriptLine;
use crate::script::types::{CommandLine, ScriptReport};
use crate::state::follows;
use crate::types::{LeftLine, Mark};
use ddc_base::digests::Digest;
use ddc_base::limits::{MOST_COMMANDS, MOST_FILES, MOST_NAMES};
use ddc_base::{ListOf, OutOfMemory};
use std::alloc::Global;

/// The state of reading a script's report.
#[derive(Drop)]
pub enum ScriptState {
    /// Nothing was read yet.
    Start,
    /// The header.
    Titled,
    /// The script's digest, and whole lines and blocks.
    Body(ScriptReport),
    /// In a block: the command's steps.
    Named(ScriptReport, u64),
    /// In a block: the first stream as well.
    Heard(ScriptReport, u64, Mark),
    /// The end line.
    Ended(ScriptReport),
}

impl ScriptState {
    /// The state after one more line, if a report may continue with it.
    #[tactic(auto, unfolding(crate::specs::Inside::Script::States::step))]
    pub(crate) fn after(
        self,
        alloc: Global,
        line: ScriptLine,
    ) -> Result<Option<ScriptState>, OutOfMemory>
        ensures { IfOk result (λ next. next ≡ step self line) }
    {
        match self {
            ScriptState::Start => Ok(after_nothing(line)),
            ScriptState::Titled => Ok(after_header(alloc, line)),
            ScriptState::Body(report) => after_block(report, line),
            ScriptState::Named(report, steps) => Ok(after_command(report, steps, line)),
            ScriptState::Heard(report, steps, stream1) => {
                after_stream1(report, steps, stream1, line)
            }
            ScriptState::Ended(_) => Ok(None),
        }
    }
}

#[tactic(auto, unfolding(crate::specs::Inside::Script::States::step))]
fn after_nothing(line: ScriptLine) -> Option<ScriptState>
    ensures { result ≡ step state.Start line }
{
    match line {
        ScriptLine::Header => Some(ScriptState::Titled),
        _ => None,
    }
}

#[tactic(auto, unfolding(crate::specs::Inside::Script::States::step))]
fn after_header(alloc: Global, line: ScriptLine) -> Option<ScriptState>
    ensures { result ≡ step state.Titled line }
{
    match line {
        ScriptLine::Script(digest) => Some(ScriptState::Body(ScriptReport {
            script: digest,
            files: ListOf::new(alloc),
            commands: ListOf::new(alloc),
            left: ListOf::new(alloc),
        })),
        _ => None,
    }
}

/// The state after one more line between blocks.
#[tactic(auto, unfolding(crate::specs::Inside::Script::States::step))]
fn after_block(report: ScriptReport, line: ScriptLine) -> Result<Option<ScriptState>, OutOfMemory>
    ensures { IfOk result (λ next. next ≡ step (state.Body report) line) }
{
    match line {
        ScriptLine::File(file) => with_file(report, file),
        ScriptLine::Command(steps) => Ok(with_command(report, steps)),
        ScriptLine::Left(file) => with_left(report, file),
        ScriptLine::End => Ok(Some(ScriptState::Ended(report))),
        _ => Ok(None),
    }
}

#[tactic(auto, unfolding(crate::specs::Inside::Script::States::step))]
fn with_file(mut report: ScriptReport, file: LeftLine) -> Result<Option<ScriptState>, OutOfMemory>
    ensures { IfOk result (λ next. next ≡ step (state.Body report) (line.File file)) }
{
    if report.files.len() < MOST_FILES && report.commands.len() == 0 && report.left.len() == 0 {
        report.files.push(file)?;
        Ok(Some(ScriptState::Body(report)))
    } else {
        Ok(None)
    }
}

#[tactic(auto, unfolding(crate::specs::Inside::Script::States::step))]
fn with_command(report: ScriptReport, steps: u64) -> Option<ScriptState>
    ensures { result ≡ step (state.Body report) (line.Command steps) }
{
    if report.commands.len() < MOST_COMMANDS && report.left.len() == 0 {
        Some(ScriptState::Named(report, steps))
    } else {
        None
    }
}

#[tactic(auto, unfolding(crate::specs::Inside::Script::States::step))]
fn with_left(mut report: ScriptReport, file: LeftLine) -> Result<Option<ScriptState>, OutOfMemory>
    ensures { IfOk result (λ next. next ≡ step (state.Body report) (line.Left file)) }
{
    if report.left.len() < MOST_NAMES && follows(report.left.as_slice(), file.name.as_slice()) {
        report.left.push(file)?;
        Ok(Some(ScriptState::Body(report)))
    } else {
        Ok(None)
    }
}

#[tactic(auto, unfolding(crate::specs::Inside::Script::States::step))]
fn after_command(report: ScriptReport, steps: u64, line: ScriptLine) -> Option<ScriptState>
    ensures { result ≡ step (state.Named report steps) line }
{
    match line {
        ScriptLine::Stream1(stream1) => Some(ScriptState::Heard(report, steps, stream1)),
        _ => None,
    }
}

#[tactic(auto, unfolding(crate::specs::Inside::Script::States::step))]
fn after_stream1(
    mut report: ScriptReport,
    steps: u64,
    stream1: Mark,
    line: ScriptLine,
) -> Result<Option<ScriptState>, OutOfMemory>
    ensures { IfOk result (λ next. next ≡ step (state.Heard report steps stream1) line) }
{
    match line {
        ScriptLine::Stream2(stream2) => {
            report.commands.push(CommandLine {
                steps,
                stream1,
                stream2,
            })?;
            Ok(Some(ScriptState::Body(report)))
        }
        _ => Ok(None),
    }
}
