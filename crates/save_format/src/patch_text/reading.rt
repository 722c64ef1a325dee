//! Parses the state in a patch, relative to its base.
ghost use Rattle.std.specs.Prelude.{◌≡◌, IfOk, Ok, map};
ghost use Rattle.save_format.specs.ByteFields.Reader.{GivesField, counted, several};
ghost use Rattle.save_format.specs.ByteFields.Spelling.{InTurn};
ghost use Rattle.save_format.specs.StateText.StateText.{StateText, after_file, after_page};
ghost use Rattle.save_format.specs.StateText.Encoded.{IsPage, IsStateText};
ghost use Rattle.save_format.specs.StateText.Seen.{ReadsStateText, file_view, page_view, state_view};
ghost use Rattle.save_format.specs.Inside.Headers.{lists_relative_at};
ghost use Rattle.save_format.specs.PatchText.Inside.Walking.{Rises};
ghost use Rattle.save_format.specs.PatchText.PatchText.{after_change, change_at, changed_pages_at, parsed_patch, patch_at, patched_file_at};
ghost use Rattle.save_format.specs.PatchText.Encoded.{IsPatched, text_of_patch};
ghost use Rattle.save_format.specs.PatchText.Seen.{change_view};

use crate::byte_fields::{Cursor, ReadStop, counted};
use crate::patch_text::change::Change;
use crate::patch_text::fields::{change_of, content, file_of, numbers_of};
use crate::patch_text::merging::changed;
use crate::patch_text::passing::judge;
use crate::state_text::{File, HeaderNumbers, Page, StateParts, TextRefusal};
use std::alloc::Global;

/// The eight bytes that begin the text of a patch.
pub const MAGIC: [u8; 8] = *b"ddcdiff2";

/// Reads `count` changes.
fn several_changes<'a>(
    alloc: Global,
    cursor: &mut Cursor<'a>,
    base: &[Page<'_>],
    count: u32,
) -> Result<Vec<Change<'a>>, ReadStop>
    requires { Rises (λ page. page.number) 0 (map page_view base.now) }
    ensures { GivesField (λ v. map change_view v.items) result cursor.new (several (change_at (map page_view base.now)) after_change 0 count cursor.old) }
{
    let mut changes = Vec::new(alloc);
    let mut least = 0;
    let mut at = 0;
    for _ in 0..count {
        let (change, later) = change_of(cursor, base, at, least)?;
        least = u64::from(change.number) + 1;
        at = later;
        changes.push(change)?;
    }
    Ok(changes)
}

/// The pages obtained by applying the changes to those of a base.
#[tactic(auto, unfolding(crate::specs::PatchText::PatchText::changed_pages_at))]
fn pages_apart<'a>(
    alloc: Global,
    cursor: &mut Cursor<'a>,
    base: &[Page<'a>],
) -> Result<Vec<Page<'a>>, ReadStop>
    requires { InTurn IsPage after_page 0 (map page_view base.now) }
    ensures { GivesField (λ v. map page_view v.items) result cursor.new (changed_pages_at (map page_view base.now) cursor.old) }
{
    let count = cursor.u32()?;
    let changes = several_changes(alloc, cursor, base, count)?;
    let pages = changed(alloc, base, changes.as_slice())?;
    Ok(pages)
}

/// A count of 4 bytes, and that many files relative to those of a base.
fn files_relative<'a>(
    alloc: Global,
    cursor: &mut Cursor<'a>,
    base: &[File<'a>],
) -> Result<Vec<File<'a>>, ReadStop>
    requires { Rises (λ file. file.number) 0 (map file_view base.now) }
    ensures { GivesField (λ v. map file_view v.items) result cursor.new (counted (patched_file_at (map file_view base.now)) after_file 0 cursor.old) }
{
    let count = cursor.u32()?;
    let mut files = Vec::new(alloc);
    let mut least = 0;
    let mut at = 0;
    for _ in 0..count {
        let (file, later) = file_of(cursor, base, at, least)?;
        least = u64::from(file.number) + 1;
        at = later;
        files.push(file)?;
    }
    Ok(files)
}

/// The state in a patch at the start of the remaining bytes, relative to its base.
#[tactic(auto, unfolding(crate::specs::Inside::Headers::lists_relative_at))]
pub(crate) fn patch_of<'a>(
    alloc: Global,
    cursor: &mut Cursor<'a>,
    base: &StateParts<'a>,
) -> Result<StateParts<'a>, ReadStop>
    requires { IsStateText (state_view base.now) }
    ensures { GivesField state_view result cursor.new (patch_at (state_view base.now) cursor.old) }
{
    let numbers = numbers_of(cursor, base)?;
    let registers = numbers.registers;
    let runs = counted(alloc, cursor)?;
    let pages = pages_apart(alloc, cursor, base.pages.as_slice())?;
    let files = files_relative(alloc, cursor, base.files.as_slice())?;
    let descriptors = counted(alloc, cursor)?;
    let stream1 = content(cursor, Some(base.stream1))?;
    let stream2 = content(cursor, Some(base.stream2))?;
    Ok(StateParts {
        steps: numbers.steps,
        pc: numbers.pc,
        registers,
        reservation: numbers.reservation,
        heap: numbers.heap,
        runs,
        pages,
        files,
        descriptors,
        stream1,
        stream2,
    })
}

/// Parses a patch: returns the state obtained by applying it to `base`. Errors: `Form` with the offset of the first
/// wrong field, `OutOfMemory`.
/// Contents are borrowed, from the base if they are unchanged. Each field is judged given the base and the fields before it.
/// The format is checked first, without allocation.
pub fn read<'a>(
    alloc: Global,
    base: &StateParts<'a>,
    text: &'a [u8],
) -> Result<StateParts<'a>, TextRefusal>
    requires { IsStateText (state_view base.now) }
    // A parsed patch has this text relative to the base.
    ensures found { IfOk result (λ p. IsPatched (state_view base.now) (state_view p) × (text.now ≡ text_of_patch (state_view base.now) (state_view p))) }
    // Every such text is parsed, unless memory runs out.
    ensures only { (s : StateText) → IsPatched (state_view base.now) s → text.now ≡ text_of_patch (state_view base.now) s → ReadsStateText result (Ok s) }
    // The offset is that of the first wrong field.
    ensures exact { ReadsStateText result (parsed_patch (state_view base.now) text.now) }
{
    all(alloc, base, text)
}

#[tactic(auto, unfolding(crate::specs::PatchText::PatchText::parsed_patch))]
fn all<'a>(
    alloc: Global,
    base: &StateParts<'a>,
    text: &'a [u8],
) -> Result<StateParts<'a>, TextRefusal>
    requires { IsStateText (state_view base.now) }
    ensures { ReadsStateText result (parsed_patch (state_view base.now) text.now) }
{
    judge(base, text)?;
    let mut cursor = Cursor::new(text);
    match patch_of(alloc, &mut cursor, base) {
        Ok(parts) => Ok(parts),
        Err(ReadStop::OutOfMemory) => Err(TextRefusal::OutOfMemory),
        Err(ReadStop::Wrong(_)) => unreachable!(),
    }
}
