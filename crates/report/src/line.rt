//! One line of a report.

ghost use Rattle.std.specs.Prelude.{◌≡◌, IfOk};
ghost use Rattle.report.specs.Inside.LinesRead.{line_of, longer_line_of, line_of_kind, header_of, recipe_of, input_of, stage_of, stream_of, left_of, made_of, checked_of, binary_of, compare_of};

use crate::fields::{compared_of, cut_at, digest_of, file_line_of, mark_of};
use crate::types::{CompareLine, Compared, InputLine, LeftLine, Mark};
use ddc_base::digests::Digest;
use ddc_base::languages::Language;
use ddc_base::{Name, OutOfMemory, read_decimal};
use std::alloc::Global;

/// A line of a report.
#[derive(Drop)]
pub enum ReportLine {
    /// The report's format number.
    Header(u32),
    Recipe(Digest),
    Input(InputLine),
    Stage(Name, u64),
    Stream1(Mark),
    Stream2(Mark),
    Left(LeftLine),
    Made(Mark),
    Checked(Option<Language>),
    Compare(CompareLine),
    End,
}

/// The line with this text, given without its LF.
#[tactic(auto, unfolding(crate::specs::Inside::LinesRead::line_of))]
pub(crate) fn line_of(alloc: Global, text: &[u8]) -> Result<Option<ReportLine>, OutOfMemory>
    ensures { IfOk result (λ line. line ≡ line_of text.now) }
{
    if text == "end".as_bytes() {
        Ok(Some(ReportLine::End))
    } else if text == "unchecked".as_bytes() {
        Ok(Some(ReportLine::Checked(None)))
    } else {
        longer_line_of(alloc, text)
    }
}

#[tactic(auto, unfolding(crate::specs::Inside::LinesRead::longer_line_of))]
fn longer_line_of(alloc: Global, text: &[u8]) -> Result<Option<ReportLine>, OutOfMemory>
    ensures { IfOk result (λ line. line ≡ longer_line_of text.now) }
{
    match cut_at(b' ', text) {
        Some((kind, fields)) => line_of_kind(alloc, kind, fields),
        None => Ok(None),
    }
}

/// A line with more than one word, by its first word.
#[tactic(auto, unfolding(crate::specs::Inside::LinesRead::line_of_kind))]
fn line_of_kind(
    alloc: Global,
    kind: &[u8],
    fields: &[u8],
) -> Result<Option<ReportLine>, OutOfMemory>
    ensures { IfOk result (λ line. line ≡ line_of_kind kind.now fields.now) }
{
    if kind == "ddc-report".as_bytes() {
        Ok(header_of(fields))
    } else if kind == "recipe".as_bytes() {
        Ok(recipe_of(fields))
    } else if kind == "input".as_bytes() {
        Ok(input_of(fields))
    } else if kind == "stage".as_bytes() {
        Ok(stage_of(fields))
    } else if kind == "stream".as_bytes() {
        Ok(stream_of(fields))
    } else if kind == "left".as_bytes() {
        left_of(alloc, fields)
    } else if kind == "made".as_bytes() {
        Ok(made_of(fields))
    } else if kind == "checked".as_bytes() {
        Ok(checked_of(fields))
    } else if kind == "compare".as_bytes() {
        Ok(compare_of(fields))
    } else {
        Ok(None)
    }
}

#[tactic(auto, unfolding(crate::specs::Inside::LinesRead::header_of))]
fn header_of(fields: &[u8]) -> Option<ReportLine>
    ensures { result ≡ header_of fields.now }
{
    match fields {
        b"1" => Some(ReportLine::Header(1)),
        b"2" => Some(ReportLine::Header(2)),
        _ => None,
    }
}

#[tactic(auto, unfolding(crate::specs::Inside::LinesRead::recipe_of))]
fn recipe_of(fields: &[u8]) -> Option<ReportLine>
    ensures { result ≡ recipe_of fields.now }
{
    let digest = digest_of(fields)?;
    Some(ReportLine::Recipe(digest))
}

#[tactic(auto, unfolding(crate::specs::Inside::LinesRead::input_of))]
fn input_of(fields: &[u8]) -> Option<ReportLine>
    ensures { result ≡ input_of fields.now }
{
    let (name, mark) = cut_at(b' ', fields)?;
    let name = Name::read(name)?;
    let mark = mark_of(mark)?;
    Some(ReportLine::Input(InputLine { name, mark }))
}

#[tactic(auto, unfolding(crate::specs::Inside::LinesRead::stage_of))]
fn stage_of(fields: &[u8]) -> Option<ReportLine>
    ensures { result ≡ stage_of fields.now }
{
    let (name, steps) = cut_at(b' ', fields)?;
    let name = Name::read(name)?;
    let steps = read_decimal(steps)?;
    Some(ReportLine::Stage(name, steps))
}

#[tactic(auto, unfolding(crate::specs::Inside::LinesRead::stream_of))]
fn stream_of(fields: &[u8]) -> Option<ReportLine>
    ensures { result ≡ stream_of fields.now }
{
    let (number, mark) = cut_at(b' ', fields)?;
    match number {
        b"1" => {
            let mark = mark_of(mark)?;
            Some(ReportLine::Stream1(mark))
        }
        b"2" => {
            let mark = mark_of(mark)?;
            Some(ReportLine::Stream2(mark))
        }
        _ => None,
    }
}

#[tactic(auto, unfolding(crate::specs::Inside::LinesRead::left_of))]
fn left_of(alloc: Global, fields: &[u8]) -> Result<Option<ReportLine>, OutOfMemory>
    ensures { IfOk result (λ line. line ≡ left_of fields.now) }
{
    match file_line_of(alloc, fields)? {
        Some(file) => Ok(Some(ReportLine::Left(file))),
        None => Ok(None),
    }
}

#[tactic(auto, unfolding(crate::specs::Inside::LinesRead::made_of))]
fn made_of(fields: &[u8]) -> Option<ReportLine>
    ensures { result ≡ made_of fields.now }
{
    let mark = mark_of(fields)?;
    Some(ReportLine::Made(mark))
}

#[tactic(auto, unfolding(crate::specs::Inside::LinesRead::checked_of))]
fn checked_of(fields: &[u8]) -> Option<ReportLine>
    ensures { result ≡ checked_of fields.now }
{
    let language = Language::named(fields)?;
    Some(ReportLine::Checked(Some(language)))
}

#[tactic(auto, unfolding(crate::specs::Inside::LinesRead::compare_of))]
fn compare_of(fields: &[u8]) -> Option<ReportLine>
    ensures { result ≡ compare_of fields.now }
{
    let (stage, found) = cut_at(b' ', fields)?;
    let stage = Name::read(stage)?;
    let (binary, result) = binary_of(found)?;
    Some(ReportLine::Compare(CompareLine {
        stage,
        binary,
        result,
    }))
}

/// The compared binary and the result of the comparison, from a text.
#[tactic(auto, unfolding(crate::specs::Inside::LinesRead::binary_of))]
fn binary_of(text: &[u8]) -> Option<(Name, Compared)>
    ensures { result ≡ binary_of text.now }
{
    let (binary, found) = cut_at(b' ', text)?;
    let binary = Name::read(binary)?;
    let found = compared_of(found)?;
    Some((binary, found))
}
