//! Texts of the command `run`, and its answers where a run failed.

ghost use Rattle.std.specs.Prelude.{◌≡◌, ◌++◌, [], OnOk, IfOk, unwrap_or, IsTrue};
ghost use Rattle.std.specs.List.{flat_map};
ghost use Rattle.mem_files.specs.Calls.{content_at};
ghost use Rattle.mem_files.specs.Names.{is_stripped_name};
ghost use Rattle.mem_files.specs.Outputs.{left};
ghost use Rattle.mem_files.specs.Sound.{IsSound};
ghost use Rattle.command_plan.specs.declared.status.Status.TheVariants.{RunFailed};
ghost use Rattle.command_plan.specs.Plan.{answers};
ghost use Rattle.command_plan.specs.Steps.{Says};
ghost use Rattle.command_plan.specs.Causes.Texts.{trap_text, call_text, elf_text, args_text, box_text, spent_text};
ghost use Rattle.tool_commands.specs.RunProgram.{failed_line, stream_line, left_line, exited_line, exited_text, world_text};

use command_plan::{Answer, Status, Stop};
use ddc_base::{Bytes, OutOfMemory, digest, put_decimal, put_hex};
use elf_load::ElfRefusal;
use mem_files::Files;
use rv64_machine::Cause;
use std::alloc::Global;

/// The line of a failed run: `failed CAUSE step N`.
#[tactic(auto, unfolding(crate::specs::RunProgram::failed_line))]
fn failed_text(alloc: Global, cause: &str, step: u64) -> Result<Bytes, OutOfMemory>
    ensures { IfOk result (λ text. text ≡ failed_line cause.now step) }
{
    Ok(Bytes::from_vec(format!(in alloc; "failed {cause} step {step}\n")?.into_bytes()))
}

/// The answer to a failed run, with status 6.
fn failed(alloc: Global, cause: &str, step: u64) -> Result<Answer, Stop>
    ensures { Says (answers RunFailed (failed_line cause.now step)) result }
{
    Ok(Answer {
        status: Status::RunFailed,
        text: failed_text(alloc, cause, step)?,
    })
}

/// The answer to a run that ended in a trap.
pub(crate) fn trapped(alloc: Global, cause: Cause, step: u64) -> Result<Answer, Stop>
    ensures { Says (answers RunFailed (failed_line (trap_text cause) step)) result }
{
    let cause = command_plan::causes::trap(alloc, cause)?;
    failed(alloc, cause.as_str(), step)
}

/// The answer to a run that made an unknown call.
pub(crate) fn called(alloc: Global, number: u64, step: u64) -> Result<Answer, Stop>
    ensures { Says (answers RunFailed (failed_line (call_text number) step)) result }
{
    let cause = command_plan::causes::call(alloc, number)?;
    failed(alloc, cause.as_str(), step)
}

/// The answer to a run that used up its steps.
pub(crate) fn spent(alloc: Global, steps: u64) -> Result<Answer, Stop>
    ensures { Says (answers RunFailed (failed_line spent_text steps)) result }
{
    failed(alloc, command_plan::causes::spent(), steps)
}

/// The answer to a program that the loader refuses.
pub(crate) fn not_loaded(alloc: Global, refusal: ElfRefusal) -> Result<Answer, Stop>
    ensures { Says (answers RunFailed (failed_line (elf_text refusal) 0)) result }
{
    let cause = command_plan::causes::elf(alloc, refusal)?;
    failed(alloc, cause.as_str(), 0)
}

/// The answer to a program whose arguments are too long.
pub(crate) fn too_many_args(alloc: Global) -> Result<Answer, Stop>
    ensures { Says (answers RunFailed (failed_line args_text 0)) result }
{
    failed(alloc, command_plan::causes::args(), 0)
}

/// The answer to a program whose files are too large.
pub(crate) fn too_large_box(alloc: Global) -> Result<Answer, Stop>
    ensures { Says (answers RunFailed (failed_line box_text 0)) result }
{
    failed(alloc, command_plan::causes::box_files(), 0)
}

/// The line of an exit: `exited STATUS step N`.
#[tactic(auto, unfolding(crate::specs::RunProgram::exited_line))]
fn exited(alloc: Global, status: u8, step: u64) -> Result<Bytes, OutOfMemory>
    ensures { IfOk result (λ text. text ≡ exited_line status step) }
{
    Ok(Bytes::from_vec(format!(in alloc; "exited {status} step {step}\n")?.into_bytes()))
}

/// Appends the line of a stream: its length and digest.
#[tactic(auto, using(crate::proofs::Written::written), unfolding(crate::specs::RunProgram::stream_line))]
fn put_stream(alloc: Global, text: &mut Bytes, which: u8, bytes: &[u8]) -> Result<(), OutOfMemory>
    ensures { OnOk result (text.new ≡ text.old ++ stream_line which bytes.now) }
{
    let size = bytes.len();
    text.extend(format!(in alloc; "stream {which} {size} ")?.as_bytes())?;
    put_hex(text, &digest(bytes).0)?;
    text.push(b'\n')
}

/// Appends the line of a file that was left: its name, length and digest.
#[tactic(auto, using(crate::proofs::LeftNames::left_line_parts))]
fn put_left_file(text: &mut Bytes, files: &Files, name: &[u8]) -> Result<(), OutOfMemory>
    requires { IsTrue (is_stripped_name name.now) }
    ensures { OnOk result (text.new ≡ text.old ++ left_line (name.now, unwrap_or (content_at files.now name.now) [])) }
{
    let content = files.content(name).unwrap_or(&[]);
    text.extend(b"left ")?;
    put_hex(text, name)?;
    text.push(b' ')?;
    put_decimal(text, content.len() as u64)?;
    text.push(b' ')?;
    put_hex(text, &digest(content).0)?;
    text.push(b'\n')
}

/// Appends the lines of all files that were left, in the byte order of their names.
fn put_left(text: &mut Bytes, files: &Files) -> Result<(), OutOfMemory>
    requires { IsSound files.now }
    ensures { OnOk result (text.new ≡ text.old ++ flat_map left_line (left files.now)) }
{
    let mut last: Option<&[u8]> = None;
    while let Some(name) = files.name_after(last) {
        put_left_file(text, files, name)?;
        last = Some(name);
    }
    Ok(())
}

/// The text of an exit: its line, those of both streams, and those of all files that were left.
#[tactic(auto, unfolding(crate::specs::RunProgram::exited_text))]
pub(crate) fn exit_text(
    alloc: Global,
    status: u8,
    step: u64,
    files: &Files,
) -> Result<Bytes, OutOfMemory>
    ensures { IfOk result (λ text. text ≡ exited_text status step files.now) }
{
    let mut text = exited(alloc, status, step)?;
    put_world(alloc, &mut text, files)?;
    Ok(text)
}

/// Appends the lines of both streams and of all files that were left. Error: out of memory.
#[tactic(auto, unfolding(crate::specs::RunProgram::world_text))]
pub fn put_world(alloc: Global, text: &mut Bytes, files: &Files) -> Result<(), OutOfMemory>
    ensures { OnOk result (text.new ≡ text.old ++ world_text files.now) }
{
    put_stream(alloc, text, 1, files.stream(1))?;
    put_stream(alloc, text, 2, files.stream(2))?;
    put_left(text, files)
}
