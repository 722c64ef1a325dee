//! The audit of a script.

ghost use Rattle.kaem_script.specs.FilesListed.{listed_files};
ghost use Rattle.ddc_base.specs.Limits.{most_commands, most_steps};
ghost use Rattle.kaem_script.specs.Fold.{AnswersScript};
ghost use Rattle.kaem_script.specs.Reported.{end_of_script, marked};
ghost use Rattle.mem_files.specs.Outputs.{left};
ghost use Rattle.report.specs.Reports.{IsDigest};
ghost use Rattle.report.specs.Script.Reports.{IsCommandLine, IsScriptReport};
ghost use Rattle.kaem_script.specs.Wants.{OnScriptWant, WantsAt};
ghost use Rattle.std.specs.Prelude.{◌≡◌, ◌≤◌, All, IfErr, IfOk, length, map};

use crate::files::FileList;
use crate::fold::{ScriptStop, fold};
use crate::marks::{left_lines, listed_lines};
use crate::present::files_in;
use crate::script::Script;
use ddc_base::OutOfMemory;
use mem_files::Files;
use report::script::{CommandLines, ScriptReport};
use std::alloc::Global;

/// Runs a script's commands in order in one file system, which begins with the listed files. Each command takes at most `most` steps,
/// from 1 to 2^48.
///
/// A command runs the content that its program's name has at that moment. Its program gets all words as arguments, no environment, a heap
/// of 536,870,912 bytes, and all files that exist. The next command gets the files that it leaves. The first command that does not exit
/// with 0 stops the script; a report means that all commands exited with 0.
///
/// `OutOfMemory` occurs only at a command whose program exists and starts, or for the report.
#[tactic(auto, unfolding(crate::specs::Reported::script_report))]
pub fn audit(
    alloc: Global,
    script: &Script,
    files: &FileList,
    most: u64,
) -> Result<ScriptReport, ScriptStop>
    requires some { 1 ≤ most }
    requires few { most ≤ most_steps }
    ensures answer { AnswersScript (end_of_script most script.now files.now) result }
    ensures memory { IfErr result (λ stop. OnScriptWant stop (WantsAt most files.now.world script.now.commands)) }
    // A returned report has a text.
    ensures report { IfOk result IsScriptReport }
{
    let (commands, present) = fold(alloc, script.commands(), files.files(), most)?;
    match report_of(alloc, script, files, commands, files_in(&present)) {
        Ok(report) => Ok(report),
        Err(OutOfMemory) => Err(ScriptStop::OutOfMemory {
            command: script.commands().len() as u32 + 1,
        }),
    }
}

/// The report on a script whose commands all ran, with these lines and the files that they left.
fn report_of(
    alloc: Global,
    script: &Script,
    list: &FileList,
    commands: CommandLines,
    world: &Files,
) -> Result<ScriptReport, OutOfMemory>
    requires digest { IsDigest script.now.digest }
    requires each { All IsCommandLine commands }
    requires few { length commands ≤ most_commands }
    ensures value { IfOk result (λ report. report ≡ record { script = script.now.digest; files = map marked (listed_files list.now); commands = commands; left = map marked (left world.now) }) }
    ensures text { IfOk result IsScriptReport }
{
    list.show_rules();
    list.files().show_sound();
    world.show_sound();
    let files = listed_lines(alloc, list)?;
    let left = left_lines(alloc, world)?;
    Ok(ScriptReport {
        script: *script.digest(),
        files,
        commands,
        left,
    })
}
