//! Loading and reading a report, and the status of its comparisons.

ghost use Rattle.std.specs.Prelude.{◌≡◌, ◌++◌, IfOk};
ghost use Rattle.ddc_base.specs.Outside.{ShelfState};
ghost use Rattle.report.specs.Reading.{report_of};
ghost use Rattle.report.specs.Reports.{IsReport};
ghost use Rattle.command_plan.specs.declared.status.Status.TheVariants.{ReportRefused};
ghost use Rattle.command_plan.specs.Plan.{answers, unless_refused};
ghost use Rattle.command_plan.specs.Steps.{Obtains, Says};
ghost use Rattle.recipe_plan.specs.Reports.{compared_status, needs_report, needs_report_after};
ghost use Rattle.command_plan.specs.Texts.{report_line};

use crate::texts;
use audit_rules::all_equal;
use command_plan::{Answer, FileName, Status, Stop, fetch};
use ddc_base::limits::MOST_REPORT;
use ddc_base::{Bytes, Shelf};
use report::{CompareLine, Report, ReportRefusal};
use std::alloc::Global;

/// Loads and reads a report. Errors: not a report, and those of `command_plan::fetch`.
pub fn fetch_report<S: Shelf>(
    alloc: Global,
    shelf: &mut S,
    file: &FileName<'_>,
) -> Result<Report, Stop>
    ensures obtained { Obtains (needs_report file.now) (S.state shelf.old) (S.state shelf.new) result }
    ensures report { IfOk result IsReport }
{
    fetch_report_after(alloc, shelf, file, &[])
}

/// Loads and reads a report; the answer to any other file stands after `prefix`. Errors: that answer, and those of `command_plan::fetch`.
pub fn fetch_report_after<S: Shelf>(
    alloc: Global,
    shelf: &mut S,
    file: &FileName<'_>,
    prefix: &[u8],
) -> Result<Report, Stop>
    ensures obtained { Obtains (needs_report_after prefix.now file.now) (S.state shelf.old) (S.state shelf.new) result }
    ensures report { IfOk result IsReport }
{
    let bytes = fetch(alloc, shelf, file, MOST_REPORT)?;
    read(alloc, bytes, prefix)
}

/// Reads a report and drops its text.
fn read(alloc: Global, bytes: Bytes, prefix: &[u8]) -> Result<Report, Stop>
    ensures obtained { (shelf : ShelfState) → Obtains (unless_refused (report_of bytes) (λ number. answers ReportRefused (prefix.now ++ report_line number)))
        shelf shelf result }
    ensures report { IfOk result IsReport }
{
    match report::read(alloc, bytes.as_slice()) {
        Ok(report) => Ok(report),
        Err(ReportRefusal::Form(number)) => Err(Stop::Answered(refused(alloc, number, prefix)?)),
        Err(ReportRefusal::OutOfMemory) => Err(Stop::OutOfMemory),
    }
}

/// The answer to a file that is not a report, with its first invalid line, after `prefix`.
fn refused(alloc: Global, number: u64, prefix: &[u8]) -> Result<Answer, Stop>
    ensures { Says (answers ReportRefused (prefix.now ++ report_line number)) result }
{
    let line = command_plan::texts::report(alloc, number)?;
    Ok(Answer {
        status: Status::ReportRefused,
        text: texts::after(alloc, prefix, line.as_slice())?,
    })
}

/// The status of comparisons: `Yes` if each is equal, else `Differs`.
pub fn compared_status(lines: &[CompareLine]) -> Status
    ensures { result ≡ compared_status lines.now }
{
    if all_equal(lines) {
        Status::Yes
    } else {
        Status::Differs
    }
}
