//! `kaem SCRIPT LIST REPORT STEPS`: runs the commands of a script on listed files, and saves the script's report.

ghost use Rattle.std.specs.Prelude.{◌≡◌, ◌≤◌, All, length, map, sum_by};
ghost use Rattle.ddc_base.specs.Limits.{most_commands};
ghost use Rattle.report.specs.declared.script.types.CommandLine.{CommandLine as ReportLine};
ghost use Rattle.report.specs.Script.Reports.{IsCommandLine, IsScriptReport, script_report_text};
ghost use Rattle.command_plan.specs.declared.status.Status.TheVariants.{Yes};
ghost use Rattle.command_plan.specs.Performs.{Performs};
ghost use Rattle.command_plan.specs.Plan.{answers, sets};
ghost use Rattle.command_plan.specs.Steps.{Says};
ghost use Rattle.tool_commands.specs.Inside.Refusing.{AnswersStop};
ghost use Rattle.tool_commands.specs.Kaem.{kaem_plan};
ghost use Rattle.tool_commands.specs.ScriptTexts.{done_line};

use crate::script_texts;
use crate::scripts::{fetch_files, fetch_script, fetch_unlisted};
use crate::words::KaemWords;
use command_plan::{Answer, FileName, Status, Stop, keep, usage};
use ddc_base::Shelf;
use kaem_script::ScriptStop;
use report::script::{CommandLine, ScriptReport};
use std::alloc::Global;

/// `kaem SCRIPT LIST REPORT STEPS`: runs a script and saves its report. Statuses 0, 2, 6, 10, 11, 13, 15, 16.
pub fn perform<S: Shelf>(alloc: Global, shelf: &mut S, words: &[&str]) -> Result<Answer, Stop>
    ensures { Performs (kaem_plan (map (λ w. w.now) words.now)) (S.state shelf.old) (S.state shelf.new) result }
{
    let Some(words) = KaemWords::read(words) else {
        return usage(alloc);
    };
    let script = fetch_script(alloc, shelf, &words.script)?;
    let names = fetch_unlisted(alloc, shelf, &words.list, &words.report)?;
    let files = fetch_files(alloc, shelf, &names)?;
    match kaem_script::audit(alloc, &script, &files, words.steps.count()) {
        Ok(made) => save(alloc, shelf, &words.report, &made),
        Err(stop) => stopped(alloc, stop),
    }
}

/// Saves the report of commands that all ran, and answers how many steps they took.
fn save<S: Shelf>(
    alloc: Global,
    shelf: &mut S,
    file: &FileName<'_>,
    made: &ScriptReport,
) -> Result<Answer, Stop>
    requires { IsScriptReport made.now }
    ensures { Performs (sets file.now (script_report_text made.now)
        (answers Yes (done_line (length made.now.commands) (sum_by (λ (c : ReportLine). c.steps) made.now.commands))))
        (S.state shelf.old) (S.state shelf.new) result }
{
    let answer = done(alloc, made.commands.as_slice())?;
    let text = report::script::write(alloc, made)?;
    keep(alloc, shelf, file, text.as_slice(), answer)
}

/// The answer where all commands ran: their number and their steps together.
fn done(alloc: Global, commands: &[CommandLine]) -> Result<Answer, Stop>
    requires few { length commands.now ≤ most_commands }
    requires each { All IsCommandLine commands.now }
    ensures { Says (answers Yes (done_line (length commands.now) (sum_by (λ (c : ReportLine). c.steps) commands.now))) result }
{
    Ok(Answer {
        status: Status::Yes,
        text: script_texts::done(alloc, commands.len(), steps_in_all(commands))?,
    })
}

/// The steps of all commands together.
fn steps_in_all(commands: &[CommandLine]) -> u64
    requires few { length commands.now ≤ most_commands }
    requires each { All IsCommandLine commands.now }
    ensures { result ≡ sum_by (λ (c : ReportLine). c.steps) commands.now }
{
    let mut steps = 0;
    for command in commands {
        steps += command.steps;
    }
    steps
}

/// The answer where a script stopped: the command that stopped it, and why. Error: out of memory, also where that stopped it.
pub(crate) fn stopped(alloc: Global, stop: ScriptStop) -> Result<Answer, Stop>
    ensures { AnswersStop stop result }
{
    match stop {
        ScriptStop::Failed {
            command,
            cause,
            step,
        } => Ok(Answer {
            status: Status::RunFailed,
            text: script_texts::command_failed(alloc, command, cause, step)?,
        }),
        ScriptStop::OutOfMemory { .. } => Err(Stop::OutOfMemory),
    }
}
