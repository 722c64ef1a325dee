//! The verdict on a script's report: checks its parts in order, up to the first that is not true.

ghost use Rattle.kaem_script.specs.Faults.{commands_fault, first_script_fault, left_fault, says_file, says_files, wrong_file};
ghost use Rattle.ddc_base.specs.Limits.{most_names};
ghost use Rattle.kaem_script.specs.Kept.{AreCommands};
ghost use Rattle.kaem_script.specs.FilesListed.{listed_files};
ghost use Rattle.kaem_script.specs.Verdicts.{CanWantFrom, JudgesScript, OnVerdictWant, WantsAtCommand, script_verdict};
ghost use Rattle.mem_files.specs.Outputs.{left};
ghost use Rattle.std.specs.Prelude.{◌≡◌, ◌≤◌, Some, length};

use crate::files::FileList;
use crate::present::{Present, bytes_of, files_in};
use crate::reading::Command;
use crate::replay::{ReplayStop, replay};
use crate::script::Script;
use crate::verdict::{ScriptPart, ScriptVerdict};
use ddc_base::Bytes;
use mem_files::Files;
use report::LeftLine;
use report::script::{CommandLine, ScriptReport};
use std::alloc::Global;

/// Replays a script's report, without trusting it.
///
/// `Refuted` names the first part that is not true, checked on the bytes that the earlier commands left. `OutOfMemory` occurs only at a
/// command whose recorded step is from 1 to 2^48 and whose program exists and starts. The script's digest, all `file` lines and
/// the lines of all earlier commands are right then. docs/reference/kaem.md has the rules.
#[tactic(auto, unfolding(crate::specs::Faults::first_script_fault))]
pub fn verify(
    alloc: Global,
    script: &Script,
    files: &FileList,
    report: &ScriptReport,
) -> ScriptVerdict
    ensures value { JudgesScript (first_script_fault script.now files.now report.now) result }
    ensures memory { OnVerdictWant result (WantsAtCommand script.now files.now report.now) }
{
    if script.digest().0 != report.script.0 {
        return ScriptVerdict::Refuted {
            part: ScriptPart::Header,
            place: 0,
        };
    }
    if let Some(place) = wrong_file(files, report.files.as_slice()) {
        return ScriptVerdict::Refuted {
            part: ScriptPart::File,
            place,
        };
    }
    judge_commands(alloc, script.commands(), files.files(), report)
}

/// The number of the first listed file without a matching line, or of the first surplus line.
fn wrong_file(list: &FileList, lines: &[LeftLine]) -> Option<u32>
    ensures { result ≡ wrong_file 1 (listed_files list.now) lines.now }
{
    list.show_rules();
    list.files().show_sound();
    wrong_name(list, lines)
}

/// The same number as `wrong_file`, for a list that is known to be short.
fn wrong_name(list: &FileList, lines: &[LeftLine]) -> Option<u32>
    requires few { length list.now.names ≤ most_names }
    ensures { result ≡ wrong_file 1 (listed_files list.now) lines.now }
{
    let mut names = list.names();
    let mut ahead = lines;
    let mut number: u32 = 1;
    while let [name, later @ ..] = names {
        match ahead {
            [] => return Some(number),
            [line, others @ ..] => {
                let content = bytes_of(list.files(), name.as_slice());
                if !says_file(line, name.as_slice(), content) {
                    return Some(number);
                }
                names = later;
                ahead = others;
                number += 1;
            }
        }
    }
    if ahead.is_empty() { None } else { Some(number) }
}

/// The verdict on the commands, each replayed on the files that those before it left, and then on the files at the end.
fn judge_commands(
    alloc: Global,
    commands: &[Command],
    files: &Files,
    report: &ScriptReport,
) -> ScriptVerdict
    requires { AreCommands commands.now }
    ensures value { JudgesScript (commands_fault (left_fault report.now.left) 1 files.now commands.now report.now.commands) result }
    ensures memory { OnVerdictWant result (CanWantFrom files.now commands.now report.now.commands) }
{
    let mut present = Present::Given(files);
    let mut ahead = commands;
    let mut lines = report.commands.as_slice();
    let mut number: u32 = 1;
    while let [words, later @ ..] = ahead {
        match lines {
            [] => return refuted(ScriptPart::Run, number),
            [line, others @ ..] => {
                match replay(alloc, present, words, line) {
                    Ok(left) => present = Present::Left(left),
                    Err(ReplayStop::Refuted(part)) => return refuted(part, number),
                    Err(ReplayStop::OutOfMemory) => {
                        return ScriptVerdict::OutOfMemory { command: number };
                    }
                }
                ahead = later;
                lines = others;
                number += 1;
            }
        }
    }
    if lines.is_empty() {
        judge_left(files_in(&present), report.left.as_slice())
    } else {
        refuted(ScriptPart::Run, number)
    }
}

/// The verdict on a report in which this part is not true.
fn refuted(part: ScriptPart, place: u32) -> ScriptVerdict
    ensures { result ≡ script_verdict (Some (part, place)) }
{
    ScriptVerdict::Refuted { part, place }
}

/// The verdict on the files at the end.
fn judge_left(files: &Files, lines: &[LeftLine]) -> ScriptVerdict
    ensures { result ≡ script_verdict (left_fault lines.now files.now) }
{
    if says_left(files, lines) {
        ScriptVerdict::Yes
    } else {
        refuted(ScriptPart::Left, 0)
    }
}

/// Whether the lines are those of the files that are left. Walks along the names that exist, each of which the next line must match.
fn says_left(files: &Files, lines: &[LeftLine]) -> bool
    ensures { result ≡ says_files lines.now (left files.now) }
{
    files.show_sound();
    let mut ahead = lines;
    let mut last: Option<&[u8]> = None;
    while let [line, others @ ..] = ahead {
        let Some(name) = files.name_after(last) else {
            return false;
        };
        if !says_file(line, name, bytes_of(files, name)) {
            return false;
        }
        last = Some(name);
        ahead = others;
    }
    files.name_after(last).is_none()
}

/// Whether a line has a file's name and the mark of its bytes.
fn says_file(line: &LeftLine, name: &[u8], content: &[u8]) -> bool
    ensures { result ≡ says_file line.now (name.now, content.now) }
{
    line.name.as_slice() == name && line.mark.is_of(content)
}
