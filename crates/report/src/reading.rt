//! Reading a report.

ghost use Rattle.std.specs.Prelude.{◌≡◌, ◌<◌, length, IfOk, IfErr, Some};
ghost use Rattle.report.specs.Reading.{report_of};
ghost use Rattle.report.specs.Texts.{IsFault, IsRead, ReadsText};
ghost use Rattle.report.specs.Inside.Reading.{report_reader};
ghost use Rattle.report.specs.Inside.Loops.{HasNoLine, ReadsLines};
ghost use Rattle.report.specs.Inside.LineByLine.{next_line};
ghost use Rattle.report.specs.Inside.LinesRead.{line_of};
ghost use Rattle.report.specs.Reports.{IsReport, report_text, report_texts};
ghost use Rattle.report.specs.declared.types.Report.{Report as ReportValue};

use crate::fields::cut_at;
use crate::line::{ReportLine, line_of};
use crate::refusal::ReportRefusal;
use crate::state::State;
use crate::types::Report;
use std::alloc::Global;

/// The report with this text.
///
/// Errors: `Form` with the number of the first invalid line, `OutOfMemory`. That number is the least number of lines that no report
/// begins with. A missing line, a line without its LF, and anything after the last line are invalid.
/// Takes time linear in the number of bytes. Copies only what the report keeps.
pub fn read(alloc: Global, bytes: &[u8]) -> Result<Report, ReportRefusal>
    ensures found { IfOk result (λ report. IsReport report × (bytes.now ≡ report_text report)) }
    ensures only { (report : ReportValue) → IsReport report → bytes.now ≡ report_text report → IsRead report result }
    ensures refused { IfErr result (IsFault report_texts bytes.now) }
    ensures value { ReadsText (report_of bytes.now) result }
{
    read_report(alloc, bytes)
}

fn read_report(alloc: Global, bytes: &[u8]) -> Result<Report, ReportRefusal>
    ensures { ReadsText (report_of bytes.now) result }
{
    let (state, number) = read_lines(alloc, bytes)?;
    match state {
        State::Ended(report) => Ok(report),
        _ => Err(ReportRefusal::Form(number)),
    }
}

/// The state after the bytes' lines, and the number of the next line.
fn read_lines(alloc: Global, bytes: &[u8]) -> Result<(State, u64), ReportRefusal>
    ensures { ReadsLines report_reader (report_of bytes.now) bytes.now result }
{
    let mut state = State::Start;
    let mut rest = bytes;
    let mut number = 0;
    while !rest.is_empty() {
        let (line, after) = next_line(alloc, rest, number + 1)?;
        let Some(next) = state.after(alloc, line)? else {
            return Err(ReportRefusal::Form(number + 1));
        };
        state = next;
        rest = after;
        number += 1;
    }
    Ok((state, number + 1))
}

/// The first line of some bytes, and the bytes after its LF. `number` is that line's number.
#[tactic(auto, unfolding(crate::specs::Inside::LineByLine::next_line))]
fn next_line(alloc: Global, bytes: &[u8], number: u64) -> Result<(ReportLine, &[u8]), ReportRefusal>
    ensures value { IfOk result (λ next. Some (next.0, next.1.now) ≡ next_line line_of bytes.now) }
    ensures shorter { IfOk result (λ next. length next.1.now < length bytes.now) }
    ensures refused { IfErr result (HasNoLine line_of bytes.now number) }
{
    let Some((text, rest)) = cut_at(b'\n', bytes) else {
        return Err(ReportRefusal::Form(number));
    };
    match line_of(alloc, text)? {
        Some(line) => Ok((line, rest)),
        None => Err(ReportRefusal::Form(number)),
    }
}
