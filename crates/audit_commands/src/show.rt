//! `show REPORT`: prints the report, or its first invalid line.

ghost use Rattle.std.specs.Prelude.{map};
ghost use Rattle.report.specs.Reports.{IsReport, report_text};
ghost use Rattle.command_plan.specs.declared.status.Status.TheVariants.{Yes};
ghost use Rattle.command_plan.specs.Performs.{Performs};
ghost use Rattle.command_plan.specs.Plan.{answers};
ghost use Rattle.command_plan.specs.Steps.{Says};
ghost use Rattle.audit_commands.specs.Show.{show_plan};

use crate::words::report_word;
use command_plan::{Answer, Status, Stop, usage};
use ddc_base::Shelf;
use recipe_plan::fetch_report;
use report::Report;
use std::alloc::Global;

/// `show REPORT`: prints the report, or its first invalid line. Statuses 0, 2, 5, 10 to 13.
pub fn perform<S: Shelf>(alloc: Global, shelf: &mut S, words: &[&str]) -> Result<Answer, Stop>
    ensures { Performs (show_plan (map (λ w. w.now) words.now)) (S.state shelf.old) (S.state shelf.new) result }
{
    let Some(report) = report_word(words) else {
        return usage(alloc);
    };
    let report = fetch_report(alloc, shelf, &report)?;
    shown(alloc, &report)
}

/// The answer with a report's text.
fn shown(alloc: Global, report: &Report) -> Result<Answer, Stop>
    requires { IsReport report.now }
    ensures { Says (answers Yes (report_text report.now)) result }
{
    Ok(Answer {
        status: Status::Yes,
        text: report::write(alloc, report)?,
    })
}
