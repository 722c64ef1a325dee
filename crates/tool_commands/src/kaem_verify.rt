//! `kaem-verify SCRIPT LIST REPORT`: judges the report of a script by a replay of its commands.

ghost use Rattle.std.specs.Prelude.{length, map};
ghost use Rattle.ddc_base.specs.Outside.{ShelfState};
ghost use Rattle.report.specs.Script.Reading.{script_report_of};
ghost use Rattle.kaem_script.specs.Faults.{first_script_fault};
ghost use Rattle.command_plan.specs.declared.status.Status.TheVariants.{Refuted, ReportRefused, Yes};
ghost use Rattle.command_plan.specs.Performs.{Performs};
ghost use Rattle.command_plan.specs.Plan.{answers, unless_refused};
ghost use Rattle.command_plan.specs.Steps.{Obtains, Says};
ghost use Rattle.command_plan.specs.Texts.{report_line};
ghost use Rattle.tool_commands.specs.KaemVerify.{kaem_verify_plan, needs_script_report, script_verdict_plan};
ghost use Rattle.tool_commands.specs.ScriptTexts.{commands_true_line, script_refuted_line};

use crate::script_texts;
use crate::scripts::{fetch_files, fetch_script, fetch_unlisted};
use crate::words::ScriptWords;
use command_plan::{Answer, FileName, Status, Stop, fetch, texts, usage};
use ddc_base::limits::MOST_REPORT;
use ddc_base::{Bytes, Shelf};
use kaem_script::{FileList, Script, ScriptPart, ScriptVerdict};
use report::ReportRefusal;
use report::script::ScriptReport;
use std::alloc::Global;

/// `kaem-verify SCRIPT LIST REPORT`: judges every statement of a script's report. Statuses 0, 1, 2, 5, 10, 11, 13, 15, 16.
pub fn perform<S: Shelf>(alloc: Global, shelf: &mut S, words: &[&str]) -> Result<Answer, Stop>
    ensures { Performs (kaem_verify_plan (map (λ w. w.now) words.now)) (S.state shelf.old) (S.state shelf.new) result }
{
    let Some(words) = ScriptWords::read(words) else {
        return usage(alloc);
    };
    let script = fetch_script(alloc, shelf, &words.script)?;
    let names = fetch_unlisted(alloc, shelf, &words.list, &words.report)?;
    let report = fetch_report(alloc, shelf, &words.report)?;
    let files = fetch_files(alloc, shelf, &names)?;
    judge(alloc, &script, &files, &report)
}

/// Fetches a script's report and reads it. Stops with 5 where the file is not a report.
fn fetch_report<S: Shelf>(
    alloc: Global,
    shelf: &mut S,
    file: &FileName<'_>,
) -> Result<ScriptReport, Stop>
    ensures { Obtains (needs_script_report file.now) (S.state shelf.old) (S.state shelf.new) result }
{
    let text = fetch(alloc, shelf, file, MOST_REPORT)?;
    read_report(alloc, text)
}

/// Reads a report, and does not keep its text. Stops with 5 where the text is not a report.
fn read_report(alloc: Global, text: Bytes) -> Result<ScriptReport, Stop>
    ensures { (shelf : ShelfState) → Obtains (unless_refused (script_report_of text) (λ number. answers ReportRefused (report_line number)))
        shelf shelf result }
{
    match report::script::read(alloc, text.as_slice()) {
        Ok(report) => Ok(report),
        Err(ReportRefusal::Form(number)) => { Err(Stop::Answered(report_refused(alloc, number)?)) }
        Err(ReportRefusal::OutOfMemory) => Err(Stop::OutOfMemory),
    }
}

/// The answer to a file that is not a report: its first invalid line.
fn report_refused(alloc: Global, number: u64) -> Result<Answer, Stop>
    ensures { Says (answers ReportRefused (report_line number)) result }
{
    Ok(Answer {
        status: Status::ReportRefused,
        text: texts::report(alloc, number)?,
    })
}

/// Replays the script and answers whether the report is true.
fn judge(
    alloc: Global,
    script: &Script,
    files: &FileList,
    report: &ScriptReport,
) -> Result<Answer, Stop>
    ensures { Says (script_verdict_plan (length script.now.commands) (first_script_fault script.now files.now report.now)) result }
{
    match kaem_script::verify(alloc, script, files, report) {
        ScriptVerdict::Yes => accepted(alloc, script.commands().len()),
        ScriptVerdict::Refuted { part, place } => refuted(alloc, part, place),
        ScriptVerdict::OutOfMemory { command: _ } => Err(Stop::OutOfMemory),
    }
}

/// The answer to a true report: the number of its commands.
fn accepted(alloc: Global, commands: usize) -> Result<Answer, Stop>
    ensures { Says (answers Yes (commands_true_line commands)) result }
{
    Ok(Answer {
        status: Status::Yes,
        text: script_texts::commands_true(alloc, commands)?,
    })
}

/// The answer to a false report: its first part that is false, and the place of that part.
fn refuted(alloc: Global, part: ScriptPart, place: u32) -> Result<Answer, Stop>
    ensures { Says (answers Refuted (script_refuted_line part place)) result }
{
    Ok(Answer {
        status: Status::Refuted,
        text: script_texts::refuted(alloc, part, place)?,
    })
}
