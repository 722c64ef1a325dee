//! Texts of the commands on scripts.

ghost use Rattle.std.specs.Prelude.{◌≡◌, IfOk, string_bytes};
ghost use Rattle.tool_commands.specs.KaemLeft.{command_left_line, command_none_left_line};
ghost use Rattle.tool_commands.specs.ScriptTexts.{command_cause_text, command_failed_line, commands_true_line, done_line, script_fault_number, script_line, script_refuted_line};

use command_plan::causes;
use ddc_base::{Bytes, OutOfMemory};
use kaem_script::{CommandCause, ScriptFault, ScriptPart};
use std::alloc::Global;

/// The printed number of a script's fault.
fn number(fault: ScriptFault) -> u8
    ensures { result ≡ script_fault_number fault }
{
    fault as u8
}

/// The line of a file that is not a script: its first fault, and the byte offset of the word.
#[tactic(auto, unfolding(crate::specs::ScriptTexts::script_line))]
pub(crate) fn refused(alloc: Global, fault: ScriptFault, offset: u64) -> Result<Bytes, OutOfMemory>
    ensures { IfOk result (λ text. text ≡ script_line fault offset) }
{
    let fault = number(fault);
    Ok(Bytes::from_vec(format!(in alloc; "script refused {fault} {offset}\n")?.into_bytes()))
}

/// The line where all commands ran: their number and their steps together.
#[tactic(auto, unfolding(crate::specs::ScriptTexts::done_line))]
pub(crate) fn done(alloc: Global, commands: usize, steps: u64) -> Result<Bytes, OutOfMemory>
    ensures { IfOk result (λ text. text ≡ done_line commands steps) }
{
    Ok(Bytes::from_vec(format!(in alloc; "done {commands} steps {steps}\n")?.into_bytes()))
}

/// Why a command stopped its script.
fn cause_text(alloc: Global, cause: CommandCause) -> Result<String, OutOfMemory>
    ensures { IfOk result (λ text. string_bytes text ≡ command_cause_text cause) }
{
    match cause {
        CommandCause::NoProgram => Ok(String::from_str(alloc, "no-program")?),
        CommandCause::Elf(refusal) => causes::elf(alloc, refusal),
        CommandCause::Trap(cause) => causes::trap(alloc, cause),
        CommandCause::Call(number) => causes::call(alloc, number),
        CommandCause::Status(status) => causes::status(alloc, status),
        CommandCause::Spent => Ok(String::from_str(alloc, causes::spent())?),
    }
}

/// The line of the command that stopped the script: its number, the cause and the step.
#[tactic(auto, unfolding(crate::specs::ScriptTexts::command_failed_line))]
pub(crate) fn command_failed(
    alloc: Global,
    number: u32,
    cause: CommandCause,
    step: u64,
) -> Result<Bytes, OutOfMemory>
    ensures { IfOk result (λ text. text ≡ command_failed_line number cause step) }
{
    let cause = cause_text(alloc, cause)?;
    let text = format!(in alloc; "run failed {number} {cause} step {step}\n")?;
    Ok(Bytes::from_vec(text.into_bytes()))
}

/// The line of what a command left at FILE: its size in bytes, and the cause and step of the run's end.
#[tactic(auto, unfolding(crate::specs::KaemLeft::command_left_line))]
pub(crate) fn left(
    alloc: Global,
    number: u32,
    file: &str,
    size: u64,
    end: (CommandCause, u64),
) -> Result<Bytes, OutOfMemory>
    ensures { IfOk result (λ text. text ≡ command_left_line number file.now size end.0 end.1) }
{
    let (cause, step) = end;
    let cause = cause_text(alloc, cause)?;
    let text = format!(in alloc; "left {number} {file} {size} {cause} step {step}\n")?;
    Ok(Bytes::from_vec(text.into_bytes()))
}

/// The line of a command that left nothing at FILE, with the cause and step of the run's end.
#[tactic(auto, unfolding(crate::specs::KaemLeft::command_none_left_line))]
pub(crate) fn not_left(
    alloc: Global,
    number: u32,
    file: &str,
    end: (CommandCause, u64),
) -> Result<Bytes, OutOfMemory>
    ensures { IfOk result (λ text. text ≡ command_none_left_line number file.now end.0 end.1) }
{
    let (cause, step) = end;
    let cause = cause_text(alloc, cause)?;
    let text = format!(in alloc; "not left {number} {file} {cause} step {step}\n")?;
    Ok(Bytes::from_vec(text.into_bytes()))
}

/// The line of a true report: the number of its commands.
#[tactic(auto, unfolding(crate::specs::ScriptTexts::commands_true_line))]
pub(crate) fn commands_true(alloc: Global, commands: usize) -> Result<Bytes, OutOfMemory>
    ensures { IfOk result (λ text. text ≡ commands_true_line commands) }
{
    Ok(Bytes::from_vec(format!(in alloc; "yes {commands}\n")?.into_bytes()))
}

/// The line of a false report: its first part that is false, and the place of that part.
#[tactic(auto, unfolding(crate::specs::ScriptTexts::script_refuted_line))]
pub(crate) fn refuted(alloc: Global, part: ScriptPart, place: u32) -> Result<Bytes, OutOfMemory>
    ensures { IfOk result (λ text. text ≡ script_refuted_line part place) }
{
    let part = part.word();
    Ok(Bytes::from_vec(format!(in alloc; "refuted {part} {place}\n")?.into_bytes()))
}
