//! Skips the fields of a patch, so that its format is checked without allocation.
ghost use Rattle.std.specs.Prelude.{map};
ghost use Rattle.save_format.specs.ByteFields.Reader.{counted};
ghost use Rattle.save_format.specs.ByteFields.Spelling.{InTurn};
ghost use Rattle.save_format.specs.StateText.StateText.{after_file, after_page};
ghost use Rattle.save_format.specs.StateText.Encoded.{IsPage, IsStateText};
ghost use Rattle.save_format.specs.StateText.Seen.{file_view, page_view, state_view};
ghost use Rattle.save_format.specs.PatchText.Inside.Walking.{Rises};
ghost use Rattle.save_format.specs.PatchText.PatchText.{after_change, change_at, changed_pages_at, parsed_patch, patch_at, patched_file_at};
ghost use Rattle.save_format.specs.Inside.Passing.{GoesPast, JudgesForm};
ghost use Rattle.save_format.specs.Inside.Headers.{lists_relative_at};

use crate::byte_fields::{Cursor, WrongField, pass_counted};
use crate::patch_text::fields::{change_of, content, file_of, numbers_of};
use crate::state_text::{File, NumberedDescriptor, Page, Run, StateParts, TextRefusal};

/// Skips the changes of pages.
#[tactic(auto, unfolding(crate::specs::PatchText::PatchText::changed_pages_at))]
fn pass_pages(cursor: &mut Cursor<'_>, base: &[Page<'_>]) -> Result<(), WrongField>
    requires { InTurn IsPage after_page 0 (map page_view base.now) }
    ensures { GoesPast result cursor.new (changed_pages_at (map page_view base.now) cursor.old) }
{
    let count = cursor.u32()?;
    let mut least = 0;
    let mut at = 0;
    for _ in 0..count {
        let (change, later) = change_of(cursor, base, at, least)?;
        least = u64::from(change.number) + 1;
        at = later;
    }
    Ok(())
}

/// Skips a count of 4 bytes, and that many files.
fn pass_files<'a>(cursor: &mut Cursor<'a>, base: &[File<'a>]) -> Result<(), WrongField>
    requires { Rises (λ file. file.number) 0 (map file_view base.now) }
    ensures { GoesPast result cursor.new (counted (patched_file_at (map file_view base.now)) after_file 0 cursor.old) }
{
    let count = cursor.u32()?;
    let mut least = 0;
    let mut at = 0;
    for _ in 0..count {
        let (file, later) = file_of(cursor, base, at, least)?;
        least = u64::from(file.number) + 1;
        at = later;
    }
    Ok(())
}

/// Skips a patch at the start of the remaining bytes.
#[tactic(auto, unfolding(crate::specs::Inside::Headers::lists_relative_at))]
pub(crate) fn pass_patch<'a>(
    cursor: &mut Cursor<'a>,
    base: &StateParts<'a>,
) -> Result<(), WrongField>
    requires { IsStateText (state_view base.now) }
    ensures { GoesPast result cursor.new (patch_at (state_view base.now) cursor.old) }
{
    let _numbers = numbers_of(cursor, base)?;
    pass_counted::<Run>(cursor)?;
    pass_pages(cursor, base.pages.as_slice())?;
    pass_files(cursor, base.files.as_slice())?;
    pass_counted::<NumberedDescriptor>(cursor)?;
    let _stream1 = content(cursor, Some(base.stream1))?;
    let _stream2 = content(cursor, Some(base.stream2))?;
    Ok(())
}

/// Checks that the whole text is a well-formed patch.
#[tactic(auto, unfolding(crate::specs::PatchText::PatchText::parsed_patch))]
pub(crate) fn judge<'a>(base: &StateParts<'a>, text: &'a [u8]) -> Result<(), TextRefusal>
    requires { IsStateText (state_view base.now) }
    ensures { JudgesForm result (parsed_patch (state_view base.now) text.now) }
{
    let mut cursor = Cursor::new(text);
    match pass_patch(&mut cursor, base) {
        Ok(()) => {}
        Err(field) => return Err(TextRefusal::Form((text.len() - field.remaining) as u64)),
    }
    match cursor.len() {
        0 => Ok(()),
        remaining => Err(TextRefusal::Form((text.len() - remaining) as u64)),
    }
}
