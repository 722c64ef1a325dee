//! All commands of a script, in order.

ghost use Rattle.kaem_script.specs.Fold.{folded};
ghost use Rattle.ddc_base.specs.Limits.{most_steps};
ghost use Rattle.kaem_script.specs.Inside.Commands.{Folds, WantsWithin};
ghost use Rattle.kaem_script.specs.Kept.{AreCommands};
ghost use Rattle.kaem_script.specs.Wants.{OnScriptWant, WantsAt};
ghost use Rattle.report.specs.Script.Reports.{IsCommandLine};
ghost use Rattle.std.specs.Prelude.{◌≤◌, All, IfErr, IfOk, length};

use crate::cause::CommandCause;
use crate::command::run_command;
use crate::present::Present;
use crate::reading::Command;
use ddc_base::OutOfMemory;
use mem_files::Files;
use report::script::CommandLines;
use std::alloc::Global;

/// Why a script stopped.
#[derive(Clone, Copy)]
pub enum ScriptStop {
    /// The command of this number, from 1, stopped the script for a cause at a step. The step is 0 if no program started, the largest
    /// number of steps if all were taken, and otherwise the step of the end, counted from 1.
    Failed {
        command: u32,
        cause: CommandCause,
        step: u64,
    },
    /// This process ran out of memory at the command of this number, from 1; all earlier commands ran. In an audit, the number after the
    /// last command means the report.
    OutOfMemory {
        command: u32,
    },
}

/// Runs commands in one file system, each within `most` steps. Returns the lines of the commands, which all ran, and the files at the
/// end.
pub(crate) fn fold<'a>(
    alloc: Global,
    commands: &[Command],
    files: &'a Files,
    most: u64,
) -> Result<(CommandLines, Present<'a>), ScriptStop>
    requires kept { AreCommands commands.now }
    requires some { 1 ≤ most }
    requires few { most ≤ most_steps }
    ensures folds { Folds (folded most files.now commands.now) result }
    ensures memory { IfErr result (λ stop. OnScriptWant stop (WantsAt most files.now commands.now)) }
    ensures within { IfErr result (WantsWithin (length commands.now)) }
    ensures lines { IfOk result (λ ran. All IsCommandLine ran.0 × (length ran.0 ≤ length commands.now)) }
{
    let mut lines = CommandLines::new(alloc);
    let mut present = Present::Given(files);
    for (index, words) in commands.iter().enumerate() {
        let command = index as u32 + 1;
        match run_command(alloc, present, words, most) {
            Ok(Ok((line, left))) => {
                left.show_sound();
                match lines.push(line) {
                    Ok(()) => present = Present::Left(left),
                    Err(OutOfMemory) => return Err(ScriptStop::OutOfMemory { command }),
                }
            }
            Ok(Err((cause, step))) => {
                return Err(ScriptStop::Failed {
                    command,
                    cause,
                    step,
                });
            }
            Err(OutOfMemory) => return Err(ScriptStop::OutOfMemory { command }),
        }
    }
    Ok((lines, present))
}
