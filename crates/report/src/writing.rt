//! Writing a report.

ghost use Rattle.std.specs.Prelude.{◌≡◌, ◌++◌, ◌∷◌, ◌<◌, [], decimal, map, length, OnOk, IfOk};
ghost use Rattle.std.specs.List.{flat_map};
ghost use Rattle.ddc_base.specs.Lines.{line as line_text};
ghost use Rattle.ddc_base.specs.Limits.{most_report};
ghost use Rattle.report.specs.Lines.{line_words, mark_words, compared_words, checked_words, form_word, lines_text};
ghost use Rattle.report.specs.Reports.{IsReport, stage_block, report_text};
ghost use Rattle.report.specs.declared.line.ReportLine.TheVariants as line;
ghost use Rattle.report.specs.declared.types.Compared.TheVariants as compared;

use crate::types::{CompareLine, Compared, InputLine, LeftLine, Mark, Report, StageLine};
use ddc_base::languages::Language;
use ddc_base::{Bytes, Name, OutOfMemory, put_decimal, put_hex};
use std::alloc::Global;

/// Capacity for the lines around the inputs, stages and comparisons; for an input's line; for a stage's block without
/// left files; for a left file's line without its name; and for a comparison's line. Lengths and steps have at most 20
/// digits.
const PREFIX_CAPACITY: usize = 128;

const INPUT_CAPACITY: usize = 128;

const STAGE_CAPACITY: usize = 384;

const LEFT_CAPACITY: usize = 92;

const COMPARE_CAPACITY: usize = 160;

/// The unique text of a well-formed report. It has fewer than 2^30 bytes.
pub fn write(alloc: Global, report: &Report) -> Result<Bytes, OutOfMemory>
    requires { IsReport report.now }
    ensures value { IfOk result (λ text. text ≡ report_text report.now) }
    ensures short { IfOk result (λ text. length text < most_report) }
{
    text_of(alloc, report)
}

fn text_of(alloc: Global, report: &Report) -> Result<Bytes, OutOfMemory>
    ensures { IfOk result (λ text. text ≡ report_text report.now) }
{
    let mut out = Bytes::with_capacity(alloc, capacity(report))?;
    put_prefix(&mut out, report)?;
    put_stages(&mut out, report.stages.as_slice())?;
    put_compares(&mut out, report.compare.as_slice())?;
    out.extend(b"end\n")?;
    Ok(out)
}

/// Capacity for a report's text, so that it is not moved as it grows. It is little more than needed.
fn capacity(report: &Report) -> usize {
    let mut capacity = report
        .inputs
        .len()
        .saturating_mul(INPUT_CAPACITY)
        .saturating_add(PREFIX_CAPACITY);
    let compares = report.compare.len().saturating_mul(COMPARE_CAPACITY);
    capacity = capacity.saturating_add(compares);
    for stage in report.stages.as_slice() {
        capacity = capacity.saturating_add(STAGE_CAPACITY);
        for file in stage.left.as_slice() {
            let name = file.name.len().saturating_mul(2);
            capacity = capacity.saturating_add(LEFT_CAPACITY).saturating_add(name);
        }
    }
    capacity
}

/// Writes the lines above the stages.
#[tactic(auto, using(crate::proofs::Written::written))]
fn put_prefix(out: &mut Bytes, report: &Report) -> Result<(), OutOfMemory>
    ensures { OnOk result (out.new ≡ out.old ++ lines_text (line.Header report.now.form ∷ line.Recipe report.now.recipe ∷ map line.Input report.now.inputs)) }
{
    out.extend(b"ddc-report ")?;
    out.extend(form_word(report.form))?;
    out.extend(b"\nrecipe ")?;
    put_hex(out, &report.recipe.0)?;
    out.push(b'\n')?;
    put_inputs(out, report.inputs.as_slice())
}

/// The text of a report's format number.
fn form_word(form: u32) -> &'static [u8]
    ensures { result.now ≡ form_word form }
{
    if form == 1 { b"1" } else { b"2" }
}

fn put_inputs(out: &mut Bytes, inputs: &[InputLine]) -> Result<(), OutOfMemory>
    ensures { OnOk result (out.new ≡ out.old ++ lines_text (map line.Input inputs.now)) }
{
    for input in inputs {
        put_input(out, input)?;
    }
    Ok(())
}

#[tactic(auto, using(crate::proofs::Written::written))]
fn put_input(out: &mut Bytes, input: &InputLine) -> Result<(), OutOfMemory>
    ensures { OnOk result (out.new ≡ out.old ++ line_text (line_words (line.Input input.now))) }
{
    out.extend(b"input ")?;
    out.extend(input.name.bytes())?;
    out.push(b' ')?;
    put_mark(out, &input.mark)
}

/// Writes a length and a digest at the end of a line.
#[tactic(auto, using(crate::proofs::Written::written))]
pub(crate) fn put_mark(out: &mut Bytes, mark: &Mark) -> Result<(), OutOfMemory>
    ensures { OnOk result (out.new ≡ out.old ++ line_text (mark_words mark.now)) }
{
    put_decimal(out, mark.length)?;
    out.push(b' ')?;
    put_hex(out, &mark.digest.0)?;
    out.push(b'\n')
}

fn put_stages(out: &mut Bytes, stages: &[StageLine]) -> Result<(), OutOfMemory>
    ensures { OnOk result (out.new ≡ out.old ++ lines_text (flat_map stage_block stages.now)) }
{
    for stage in stages {
        put_stage(out, stage)?;
    }
    Ok(())
}

/// Writes a stage's block.
fn put_stage(out: &mut Bytes, stage: &StageLine) -> Result<(), OutOfMemory>
    ensures { OnOk result (out.new ≡ out.old ++ lines_text (stage_block stage.now)) }
{
    put_name(out, stage)?;
    put_streams(out, &stage.stream1, &stage.stream2)?;
    put_left_files(out, stage.left.as_slice())?;
    put_made(out, &stage.made)?;
    put_checked(out, stage.checked)
}

#[tactic(auto, using(crate::proofs::Written::written))]
fn put_name(out: &mut Bytes, stage: &StageLine) -> Result<(), OutOfMemory>
    ensures { OnOk result (out.new ≡ out.old ++ line_text (line_words (line.Stage stage.now.name stage.now.steps))) }
{
    out.extend(b"stage ")?;
    out.extend(stage.name.bytes())?;
    out.push(b' ')?;
    put_decimal(out, stage.steps)?;
    out.push(b'\n')
}

#[tactic(auto, using(crate::proofs::Written::written))]
pub(crate) fn put_streams(
    out: &mut Bytes,
    stream1: &Mark,
    stream2: &Mark,
) -> Result<(), OutOfMemory>
    ensures { OnOk result (out.new ≡ out.old ++ line_text (line_words (line.Stream1 stream1.now)) ++ line_text (line_words (line.Stream2 stream2.now))) }
{
    out.extend(b"stream 1 ")?;
    put_mark(out, stream1)?;
    out.extend(b"stream 2 ")?;
    put_mark(out, stream2)
}

fn put_left_files(out: &mut Bytes, files: &[LeftLine]) -> Result<(), OutOfMemory>
    ensures { OnOk result (out.new ≡ out.old ++ lines_text (map line.Left files.now)) }
{
    for file in files {
        put_left(out, file)?;
    }
    Ok(())
}

#[tactic(auto, using(crate::proofs::Written::written))]
pub(crate) fn put_left(out: &mut Bytes, file: &LeftLine) -> Result<(), OutOfMemory>
    ensures { OnOk result (out.new ≡ out.old ++ line_text (line_words (line.Left file.now))) }
{
    out.extend(b"left ")?;
    put_hex(out, file.name.as_slice())?;
    out.push(b' ')?;
    put_mark(out, &file.mark)
}

#[tactic(auto, using(crate::proofs::Written::written))]
fn put_made(out: &mut Bytes, mark: &Mark) -> Result<(), OutOfMemory>
    ensures { OnOk result (out.new ≡ out.old ++ line_text (line_words (line.Made mark.now))) }
{
    out.extend(b"made ")?;
    put_mark(out, mark)
}

#[tactic(auto, using(crate::proofs::Written::written))]
fn put_checked(out: &mut Bytes, checked: Option<Language>) -> Result<(), OutOfMemory>
    ensures { OnOk result (out.new ≡ out.old ++ line_text (checked_words checked)) }
{
    match checked {
        None => out.extend(b"unchecked\n"),
        Some(language) => {
            out.extend(b"checked ")?;
            out.extend(language.word().as_bytes())?;
            out.push(b'\n')
        }
    }
}

fn put_compares(out: &mut Bytes, compares: &[CompareLine]) -> Result<(), OutOfMemory>
    ensures { OnOk result (out.new ≡ out.old ++ lines_text (map line.Compare compares.now)) }
{
    for compare in compares {
        put_compare(out, compare)?;
    }
    Ok(())
}

#[tactic(auto, using(crate::proofs::Written::written))]
fn put_compare(out: &mut Bytes, compare: &CompareLine) -> Result<(), OutOfMemory>
    ensures { OnOk result (out.new ≡ out.old ++ line_text (line_words (line.Compare compare.now))) }
{
    out.extend(b"compare ")?;
    out.extend(compare.stage.bytes())?;
    out.push(b' ')?;
    match compare.result {
        Compared::Equal(length) => put_equal(out, &compare.binary, length),
        Compared::Differs(offset, ours, theirs) => {
            put_difference(out, &compare.binary, offset, ours, theirs)
        }
    }
}

#[tactic(auto, using(crate::proofs::Written::written))]
fn put_equal(out: &mut Bytes, binary: &Name, length: u64) -> Result<(), OutOfMemory>
    ensures { OnOk result (out.new ≡ out.old ++ line_text (binary.now ∷ compared_words (compared.Equal length))) }
{
    out.extend(binary.bytes())?;
    out.extend(b" equal ")?;
    put_decimal(out, length)?;
    out.push(b'\n')
}

#[tactic(auto, using(crate::proofs::Written::written))]
fn put_difference(
    out: &mut Bytes,
    binary: &Name,
    offset: u64,
    ours: u64,
    theirs: u64,
) -> Result<(), OutOfMemory>
    ensures { OnOk result (out.new ≡ out.old ++ line_text (binary.now ∷ compared_words (compared.Differs offset ours theirs))) }
{
    out.extend(binary.bytes())?;
    out.extend(b" differs ")?;
    put_decimal(out, offset)?;
    put_lengths(out, ours, theirs)
}

#[tactic(auto, using(crate::proofs::Written::written))]
fn put_lengths(out: &mut Bytes, ours: u64, theirs: u64) -> Result<(), OutOfMemory>
    ensures { OnOk result (out.new ≡ out.old ++ (32 ∷ line_text (decimal ours ∷ decimal theirs ∷ []))) }
{
    out.push(b' ')?;
    put_decimal(out, ours)?;
    out.push(b' ')?;
    put_decimal(out, theirs)?;
    out.push(b'\n')
}
