//! Reads and writes each field of a save.

ghost use Rattle.std.specs.Prelude.{◌≡◌, ◌<◌, ◌^◌, ◌++◌, All, None, OnErr, OnOk, length, map};
ghost use Rattle.std.specs.Io.{StartsWith};
ghost use Rattle.std.specs.Int.{w32};
ghost use Rattle.std.specs.Option.{option_copied};
ghost use Rattle.std.specs.Ordering.{is_lt};
ghost use Rattle.save_format.specs.ByteFields.Reader.{Finds, GivesField, blob, counted, several};
ghost use Rattle.save_format.specs.ByteFields.Spelling.{list_text};
ghost use Rattle.save_format.specs.SaveText.{after_left, digest_at, comes_after, saved_left_at, saved_stage_at, mark_at, saved_name_at};
ghost use Rattle.save_format.specs.Seen.{stage_view};
ghost use Rattle.save_format.specs.Inside.Headers.{ReadsHeader, left_and_made_at};
ghost use Rattle.save_format.specs.Inside.Passing.{GoesPast};
ghost use Rattle.save_format.specs.Encoded.{digest_text, left_text, mark_text};

use crate::byte_fields::{Cursor, ReadStop, TextItem, WrongField, put_blob16, put_u32};
use crate::parts::{InputPart, StageHeader, StagePart};
use ddc_base::digests::Digest;
use ddc_base::{Bytes, OutOfMemory};
use report::{LeftLine, LeftLines, Mark};
use std::alloc::Global;

/// The 32 bytes of a digest.
#[tactic(auto, unfolding(crate::specs::SaveText::digest_at))]
pub fn digest_of(cursor: &mut Cursor<'_>) -> Result<Digest, WrongField>
    ensures { Finds (λ x. x) result cursor.new (digest_at cursor.old) }
{
    let bytes = cursor.bytes(32)?;
    let mut digest = [0; 32];
    digest.copy_from_slice(bytes);
    Ok(Digest(digest))
}

/// A mark: a length of 4 bytes, and a digest.
#[tactic(auto, unfolding(crate::specs::SaveText::mark_at))]
pub(crate) fn mark_of(cursor: &mut Cursor<'_>) -> Result<Mark, WrongField>
    ensures { Finds (λ x. x) result cursor.new (mark_at cursor.old) }
{
    let length = cursor.u32()?;
    let digest = digest_of(cursor)?;
    Ok(Mark {
        length: u64::from(length),
        digest,
    })
}

/// Appends a mark.
#[tactic(auto, using(crate::proofs::ByteFieldsLemmas::Kept::kept), unfolding(crate::specs::Encoded::mark_text))]
pub(crate) fn put_mark(out: &mut Bytes, mark: Mark) -> Result<(), OutOfMemory>
    requires { mark.length < 2 ^ 32 }
    ensures ok { OnOk result (out.new ≡ out.old ++ mark_text mark) }
    ensures err { OnErr result (StartsWith out.new out.old) }
{
    put_u32(out, mark.length as u32)?;
    out.extend(&mark.digest.0)
}

/// Whether a name is greater than the preceding one.
fn comes_after(last: Option<&[u8]>, name: &[u8]) -> bool
    ensures { result ≡ comes_after (option_copied last.entry) name.now }
{
    match last {
        Some(last) => last.cmp(name).is_lt(),
        None => true,
    }
}

/// The files that a stage left.
fn left_of(alloc: Global, cursor: &mut Cursor<'_>, count: u32) -> Result<LeftLines, ReadStop>
    ensures { GivesField (λ x. x) result cursor.new (several saved_left_at after_left None count cursor.old) }
{
    let mut lines = LeftLines::new(alloc);
    let mut last = None;
    for _ in 0..count {
        let (name, mark) = line_of(cursor, last)?;
        last = Some(name);
        lines.push(LeftLine {
            name: Bytes::from_slice(alloc, name)?,
            mark,
        })?;
    }
    Ok(lines)
}

/// A file that a stage left: its name, borrowed, and its mark.
#[tactic(auto, unfolding(crate::specs::SaveText::saved_left_at, crate::specs::SaveText::saved_name_at))]
pub(crate) fn line_of<'a>(
    cursor: &mut Cursor<'a>,
    last: Option<&[u8]>,
) -> Result<(&'a [u8], Mark), WrongField>
    ensures { Finds (λ x. record { name = x.0.now; mark = x.1 }) result cursor.new (saved_left_at (option_copied last.entry) cursor.old) }
{
    let count = cursor.u16()?;
    let at = cursor.len();
    let name = cursor.bytes(usize::from(count))?;
    if !comes_after(last, name) {
        return Err(WrongField { remaining: at });
    }
    let mark = mark_of(cursor)?;
    Ok((name, mark))
}

/// Appends the files that a stage left.
#[tactic(auto, using(crate::proofs::ByteFieldsLemmas::Kept::kept))]
pub(crate) fn put_left(out: &mut Bytes, files: &[LeftLine]) -> Result<(), OutOfMemory>
    requires few { length files.now < 2 ^ 32 }
    requires short { All (λ file. length file.name < 2 ^ 16) files.now }
    requires small { All (λ file. file.mark.length < 2 ^ 32) files.now }
    ensures ok { OnOk result (out.new ≡ out.old ++ list_text left_text files.now) }
    ensures err { OnErr result (StartsWith out.new out.old) }
{
    put_u32(out, files.len() as u32)?;
    for file in files {
        put_line(out, file)?;
    }
    Ok(())
}

#[tactic(auto, using(crate::proofs::ByteFieldsLemmas::Kept::kept))]
fn put_line(out: &mut Bytes, file: &LeftLine) -> Result<(), OutOfMemory>
    requires short { length file.now.name < 2 ^ 16 }
    requires small { file.now.mark.length < 2 ^ 32 }
    ensures ok { OnOk result (out.new ≡ out.old ++ left_text file.now) }
    ensures err { OnErr result (StartsWith out.new out.old) }
{
    put_blob16(out, file.name.as_slice())?;
    put_mark(out, file.mark)
}

impl<'a> TextItem<'a> for InputPart {
    ghost use Rattle.ddc_base.specs.declared.digests.Digest.{Digest};
    ghost use Rattle.save_format.specs.SaveText.{digest_at};
    ghost use Rattle.save_format.specs.Encoded.{digest_text};
    ghost use Rattle.save_format.specs.Seen.{input_view};

    ghost Seen = { Digest };

    ghost seen = { input_view };

    ghost read_from = { λ any. digest_at };

    ghost next_least = { λ input. 0 };

    ghost text = { digest_text };

    ghost IsShort = { λ _. Unit {0} };

    fn take(cursor: &mut Cursor<'a>, _least: u64) -> Result<InputPart, WrongField> {
        let digest = digest_of(cursor)?;
        Ok(InputPart { digest })
    }

    fn least_after(&self) -> u64 {
        0
    }

    #[tactic(auto, using(crate::proofs::ByteFieldsLemmas::Kept::kept))]
    fn add(&self, out: &mut Bytes) -> Result<(), OutOfMemory> {
        out.extend(&self.digest.0)
    }
}

/// The first fields of a finished stage.
#[tactic(auto, unfolding(crate::specs::SaveText::saved_stage_at, crate::specs::Inside::Headers::left_and_made_at))]
pub(crate) fn stage_header(cursor: &mut Cursor<'_>) -> Result<StageHeader, WrongField>
    ensures { ReadsHeader left_and_made_at result cursor.new (saved_stage_at 0 cursor.old) }
{
    let steps = cursor.u64()?;
    let stream1 = mark_of(cursor)?;
    let stream2 = mark_of(cursor)?;
    let count = cursor.u32()?;
    Ok(StageHeader {
        steps,
        stream1,
        stream2,
        count,
    })
}

/// A length of 4 bytes, and a copy of that many bytes.
fn copy_of(alloc: Global, cursor: &mut Cursor<'_>) -> Result<Bytes, ReadStop>
    ensures { GivesField (λ x. x) result cursor.new (blob w32 cursor.old) }
{
    let made = cursor.blob32()?;
    let copy = Bytes::from_slice(alloc, made)?;
    Ok(copy)
}

/// A finished stage.
#[tactic(auto, unfolding(crate::specs::Inside::Headers::left_and_made_at))]
pub(crate) fn stage_of(alloc: Global, cursor: &mut Cursor<'_>) -> Result<StagePart, ReadStop>
    ensures { GivesField stage_view result cursor.new (saved_stage_at 0 cursor.old) }
{
    let header = stage_header(cursor)?;
    let left = left_of(alloc, cursor, header.count)?;
    let made = copy_of(alloc, cursor)?;
    Ok(StagePart {
        steps: header.steps,
        stream1: header.stream1,
        stream2: header.stream2,
        left,
        made,
    })
}

/// A count of 4 bytes, and that many finished stages.
pub(crate) fn stages_of(alloc: Global, cursor: &mut Cursor<'_>) -> Result<Vec<StagePart>, ReadStop>
    ensures { GivesField (λ v. map stage_view v.items) result cursor.new (counted saved_stage_at (λ stage. 0) 0 cursor.old) }
{
    let count = cursor.u32()?;
    let mut stages = Vec::new(alloc);
    for _ in 0..count {
        let stage = stage_of(alloc, cursor)?;
        stages.push(stage)?;
    }
    Ok(stages)
}

/// Skips the files that a stage left.
fn pass_left(cursor: &mut Cursor<'_>, count: u32) -> Result<(), WrongField>
    ensures { GoesPast result cursor.new (several saved_left_at after_left None count cursor.old) }
{
    let mut last = None;
    for _ in 0..count {
        let (name, _mark) = line_of(cursor, last)?;
        last = Some(name);
    }
    Ok(())
}

/// Skips a finished stage.
#[tactic(auto, unfolding(crate::specs::Inside::Headers::left_and_made_at))]
pub(crate) fn pass_stage(cursor: &mut Cursor<'_>) -> Result<(), WrongField>
    ensures { GoesPast result cursor.new (saved_stage_at 0 cursor.old) }
{
    let header = stage_header(cursor)?;
    pass_left(cursor, header.count)?;
    let _made = cursor.blob32()?;
    Ok(())
}

/// Skips `count` finished stages.
pub(crate) fn pass_several(cursor: &mut Cursor<'_>, count: u32) -> Result<(), WrongField>
    ensures { GoesPast result cursor.new (several saved_stage_at (λ stage. 0) 0 count cursor.old) }
{
    for _ in 0..count {
        pass_stage(cursor)?;
    }
    Ok(())
}

/// Skips a count of 4 bytes, and that many finished stages.
pub(crate) fn pass_stages(cursor: &mut Cursor<'_>) -> Result<(), WrongField>
    ensures { GoesPast result cursor.new (counted saved_stage_at (λ stage. 0) 0 cursor.old) }
{
    let count = cursor.u32()?;
    pass_several(cursor, count)
}
