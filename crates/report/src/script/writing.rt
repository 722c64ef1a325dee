//! Writing a script's report.

ghost use Rattle.std.specs.Prelude.{◌≡◌, ◌++◌, ◌∷◌, ◌<◌, map, length, OnOk, IfOk};
ghost use Rattle.std.specs.List.{flat_map};
ghost use Rattle.ddc_base.specs.Lines.{line as line_text};
ghost use Rattle.ddc_base.specs.Limits.{most_report};
ghost use Rattle.report.specs.Script.Lines.{script_line_words, script_lines_text};
ghost use Rattle.report.specs.Script.Reports.{IsScriptReport, command_block, script_report_text};
ghost use Rattle.report.specs.declared.script.line.ScriptLine.TheVariants as line;

use crate::script::types::{CommandLine, ScriptReport};
use crate::types::LeftLine;
use crate::writing::{put_left, put_mark, put_streams};
use ddc_base::digests::Digest;
use ddc_base::{Bytes, OutOfMemory, put_decimal, put_hex};
use std::alloc::Global;

/// Capacity for the lines around the files and commands, for a file's line without its name, and for a command's block.
/// Lengths and steps have at most 20 digits.
const PREFIX_CAPACITY: usize = 96;

const FILE_CAPACITY: usize = 92;

const COMMAND_CAPACITY: usize = 224;

/// The unique text of a well-formed report of a script. It has fewer than 2^30 bytes.
pub fn write(alloc: Global, report: &ScriptReport) -> Result<Bytes, OutOfMemory>
    requires { IsScriptReport report.now }
    ensures value { IfOk result (λ text. text ≡ script_report_text report.now) }
    ensures short { IfOk result (λ text. length text < most_report) }
{
    text_of(alloc, report)
}

fn text_of(alloc: Global, report: &ScriptReport) -> Result<Bytes, OutOfMemory>
    ensures { IfOk result (λ text. text ≡ script_report_text report.now) }
{
    let mut out = Bytes::with_capacity(alloc, capacity(report))?;
    put_prefix(&mut out, &report.script, report.files.as_slice())?;
    put_commands(&mut out, report.commands.as_slice())?;
    put_left_files(&mut out, report.left.as_slice())?;
    out.extend(b"end\n")?;
    Ok(out)
}

/// Capacity for a report's text, so that it is not moved as it grows. It is little more than needed.
fn capacity(report: &ScriptReport) -> usize {
    let commands = report.commands.len().saturating_mul(COMMAND_CAPACITY);
    PREFIX_CAPACITY
        .saturating_add(commands)
        .saturating_add(files_capacity(report.files.as_slice()))
        .saturating_add(files_capacity(report.left.as_slice()))
}

fn files_capacity(files: &[LeftLine]) -> usize {
    let mut capacity: usize = 0;
    for file in files {
        let name = file.name.len().saturating_mul(2);
        capacity = capacity.saturating_add(FILE_CAPACITY).saturating_add(name);
    }
    capacity
}

/// Writes the lines above the commands.
fn put_prefix(out: &mut Bytes, script: &Digest, files: &[LeftLine]) -> Result<(), OutOfMemory>
    ensures { OnOk result (out.new ≡ out.old ++ script_lines_text (line.Header ∷ line.Script script.now ∷ map line.File files.now)) }
{
    out.extend(b"kaem-report 1\n")?;
    put_script(out, script)?;
    put_files(out, files)
}

#[tactic(auto, using(crate::proofs::Written::written))]
fn put_script(out: &mut Bytes, digest: &Digest) -> Result<(), OutOfMemory>
    ensures { OnOk result (out.new ≡ out.old ++ line_text (script_line_words (line.Script digest.now))) }
{
    out.extend(b"script ")?;
    put_hex(out, &digest.0)?;
    out.push(b'\n')
}

fn put_files(out: &mut Bytes, files: &[LeftLine]) -> Result<(), OutOfMemory>
    ensures { OnOk result (out.new ≡ out.old ++ script_lines_text (map line.File files.now)) }
{
    for file in files {
        put_file(out, file)?;
    }
    Ok(())
}

#[tactic(auto, using(crate::proofs::Written::written))]
fn put_file(out: &mut Bytes, file: &LeftLine) -> Result<(), OutOfMemory>
    ensures { OnOk result (out.new ≡ out.old ++ line_text (script_line_words (line.File file.now))) }
{
    out.extend(b"file ")?;
    put_hex(out, file.name.as_slice())?;
    out.push(b' ')?;
    put_mark(out, &file.mark)
}

fn put_commands(out: &mut Bytes, commands: &[CommandLine]) -> Result<(), OutOfMemory>
    ensures { OnOk result (out.new ≡ out.old ++ script_lines_text (flat_map command_block commands.now)) }
{
    for command in commands {
        put_command(out, command)?;
    }
    Ok(())
}

/// Writes a command's block.
fn put_command(out: &mut Bytes, command: &CommandLine) -> Result<(), OutOfMemory>
    ensures { OnOk result (out.new ≡ out.old ++ script_lines_text (command_block command.now)) }
{
    put_steps(out, command.steps)?;
    put_streams(out, &command.stream1, &command.stream2)
}

#[tactic(auto, using(crate::proofs::Written::written))]
fn put_steps(out: &mut Bytes, steps: u64) -> Result<(), OutOfMemory>
    ensures { OnOk result (out.new ≡ out.old ++ line_text (script_line_words (line.Command steps))) }
{
    out.extend(b"command ")?;
    put_decimal(out, steps)?;
    out.push(b'\n')
}

fn put_left_files(out: &mut Bytes, files: &[LeftLine]) -> Result<(), OutOfMemory>
    ensures { OnOk result (out.new ≡ out.old ++ script_lines_text (map line.Left files.now)) }
{
    for file in files {
        put_left(out, file)?;
    }
    Ok(())
}
