//! Texts of the commands on one stage.

ghost use Rattle.std.specs.Prelude.{◌≡◌, ◌++◌, IfOk, OnOk, string_bytes};
ghost use Rattle.ddc_base.specs.Lines.{line};
ghost use Rattle.report.specs.Lines.{line_words};
ghost use Rattle.report.specs.declared.line.ReportLine.TheVariants.{Made, Stage};
ghost use Rattle.stage_commands.specs.Texts.{cut_line, other_first_line, refuted_first_line, refuted_last_line, refuted_segment_line, run_record, segment_line, too_many_line};
ghost use Rattle.report.specs.Marks.{mark_of};
ghost use Rattle.audit_rules.specs.Stages.{finished};

use ddc_base::{Bytes, Name, OutOfMemory, digest, put_decimal, put_hex};
use mem_files::Files;
use segments::SegmentFault;
use std::alloc::Global;
use tool_commands::run_texts::put_world;

/// The line of a cut: how many states were saved, and the step at which the run ended.
#[tactic(auto, unfolding(crate::specs::Texts::cut_line))]
pub(crate) fn cut(alloc: Global, saved: u32, step: u64) -> Result<Bytes, OutOfMemory>
    ensures { IfOk result (λ text. text ≡ cut_line saved step) }
{
    Ok(Bytes::from_vec(format!(in alloc; "cut {saved} step {step}\n")?.into_bytes()))
}

/// The line where 1,000 states were saved and the run is not over.
#[tactic(auto, unfolding(crate::specs::Texts::too_many_line))]
pub(crate) fn too_many(alloc: Global) -> Result<Bytes, OutOfMemory>
    ensures { IfOk result (λ text. text ≡ too_many_line) }
{
    Ok(Bytes::from_vec(format!(in alloc; "too many segments\n")?.into_bytes()))
}

/// The line of a segment: its number of steps.
#[tactic(auto, unfolding(crate::specs::Texts::segment_line))]
pub(crate) fn segment(alloc: Global, steps: u64) -> Result<Bytes, OutOfMemory>
    ensures { IfOk result (λ text. text ≡ segment_line steps) }
{
    Ok(Bytes::from_vec(format!(in alloc; "segment yes {steps}\n")?.into_bytes()))
}

/// The line of two texts that are not a segment.
pub(crate) fn refuted_segment(alloc: Global, why: SegmentFault) -> Result<Bytes, OutOfMemory>
    ensures { IfOk result (λ text. text ≡ refuted_segment_line why) }
{
    Ok(Bytes::from_vec(segment_fault(alloc, why)?.into_bytes()))
}

/// The text of a segment's fault.
#[tactic(auto, unfolding(crate::specs::Texts::refuted_segment_line))]
fn segment_fault(alloc: Global, why: SegmentFault) -> Result<String, OutOfMemory>
    ensures { IfOk result (λ text. string_bytes text ≡ refuted_segment_line why) }
{
    match why {
        SegmentFault::From(why) => {
            let number = why.number();
            Ok(format!(in alloc; "refuted segment from {number}\n")?)
        }
        SegmentFault::To(why) => {
            let number = why.number();
            Ok(format!(in alloc; "refuted segment to {number}\n")?)
        }
        SegmentFault::NotLater => Ok(format!(in alloc; "refuted segment later\n")?),
        SegmentFault::TooFar => Ok(format!(in alloc; "refuted segment far\n")?),
        SegmentFault::EndsAt(step) => Ok(format!(in alloc; "refuted segment ends {step}\n")?),
        SegmentFault::Differs(offset) => {
            Ok(format!(in alloc; "refuted segment differs {offset}\n")?)
        }
    }
}

/// The line of a first text that is not a state.
#[tactic(auto, unfolding(crate::specs::Texts::refuted_first_line))]
pub(crate) fn refuted_first(alloc: Global, number: u8) -> Result<Bytes, OutOfMemory>
    ensures { IfOk result (λ text. text ≡ refuted_first_line number) }
{
    Ok(Bytes::from_vec(format!(in alloc; "refuted first {number}\n")?.into_bytes()))
}

/// The line of a first text that is another state than the start.
#[tactic(auto, unfolding(crate::specs::Texts::other_first_line))]
pub(crate) fn other_first(alloc: Global, offset: u64) -> Result<Bytes, OutOfMemory>
    ensures { IfOk result (λ text. text ≡ other_first_line offset) }
{
    Ok(Bytes::from_vec(format!(in alloc; "refuted first differs {offset}\n")?.into_bytes()))
}

/// The line of a last text that is not a state.
#[tactic(auto, unfolding(crate::specs::Texts::refuted_last_line))]
pub(crate) fn refuted_last(alloc: Global, number: u8) -> Result<Bytes, OutOfMemory>
    ensures { IfOk result (λ text. text ≡ refuted_last_line number) }
{
    Ok(Bytes::from_vec(format!(in alloc; "refuted last {number}\n")?.into_bytes()))
}

/// What a run did, as in a report: its steps, both streams, every file that was left, and the artefact.
pub(crate) fn run(
    alloc: Global,
    name: &Name,
    steps: u64,
    files: &Files,
    made: &[u8],
) -> Result<Bytes, OutOfMemory>
    ensures { IfOk result (λ text. text ≡ run_record name.now (finished steps files.now made.now)) }
{
    let mut text = Bytes::new(alloc);
    put_stage(&mut text, name, steps)?;
    put_world(alloc, &mut text, files)?;
    put_made(&mut text, made)?;
    Ok(text)
}

/// Appends the line of a stage's steps.
#[tactic(auto, using(crate::proofs::Written::written))]
fn put_stage(text: &mut Bytes, name: &Name, steps: u64) -> Result<(), OutOfMemory>
    ensures { OnOk result (text.new ≡ text.old ++ line (line_words (Stage name.now steps))) }
{
    text.extend(b"stage ")?;
    text.extend(name.bytes())?;
    text.push(b' ')?;
    put_decimal(text, steps)?;
    text.push(b'\n')
}

/// Appends the line of a stage's artefact.
#[tactic(auto, using(crate::proofs::Written::written))]
fn put_made(text: &mut Bytes, made: &[u8]) -> Result<(), OutOfMemory>
    ensures { OnOk result (text.new ≡ text.old ++ line (line_words (Made (mark_of made.now)))) }
{
    text.extend(b"made ")?;
    put_decimal(text, made.len() as u64)?;
    text.push(b' ')?;
    put_hex(text, &digest(made).0)?;
    text.push(b'\n')
}
