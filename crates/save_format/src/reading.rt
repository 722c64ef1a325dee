ghost use Rattle.std.specs.Prelude.{IfOk, Ok};
ghost use Rattle.save_format.specs.ByteFields.Reader.{GivesField};
ghost use Rattle.save_format.specs.SaveText.{SaveText, parsed_save, save_at};
ghost use Rattle.save_format.specs.Encoded.{IsSaveText, IsTextOfSave};
ghost use Rattle.save_format.specs.Seen.{ReadsSaveText, save_view};
ghost use Rattle.save_format.specs.Inside.Passing.{GoesPast, JudgesForm};

use crate::byte_fields::{Cursor, ReadStop, WrongField, counted, pass_counted};
use crate::fields::{digest_of, pass_stages, stages_of};
use crate::parts::{InputPart, Parts};
use crate::state_text::{TextRefusal, parts_in, pass_state_in};
use std::alloc::Global;

/// The eight bytes that begin the text of a save.
pub const MAGIC: [u8; 8] = *b"ddcsave2";

/// The eight bytes that begin the text of a save of format 1.
pub(crate) const OLD_MAGIC: [u8; 8] = *b"ddcsave1";

/// A save in either format, from the start of the remaining bytes.
#[tactic(auto, unfolding(crate::specs::SaveText::save_at, crate::specs::SaveText::fields_at))]
fn save_of<'a>(alloc: Global, cursor: &mut Cursor<'a>) -> Result<Parts<'a>, ReadStop>
    ensures { GivesField save_view result cursor.new (save_at cursor.old) }
{
    let form = cursor.begins_with_either(&OLD_MAGIC, &MAGIC)?;
    let recipe = digest_of(cursor)?;
    let inputs = counted(alloc, cursor)?;
    let done = stages_of(alloc, cursor)?;
    let state = parts_in(alloc, cursor, form)?;
    Ok(Parts {
        recipe,
        inputs,
        done,
        state,
    })
}

/// Skips a save in either format at the start of the remaining bytes.
#[tactic(auto, unfolding(crate::specs::SaveText::save_at, crate::specs::SaveText::fields_at))]
fn pass_save(cursor: &mut Cursor<'_>) -> Result<(), WrongField>
    ensures { GoesPast result cursor.new (save_at cursor.old) }
{
    let form = cursor.begins_with_either(&OLD_MAGIC, &MAGIC)?;
    let _recipe = digest_of(cursor)?;
    pass_counted::<InputPart>(cursor)?;
    pass_stages(cursor)?;
    pass_state_in(cursor, form)
}

/// Checks that the whole text is a well-formed save.
#[tactic(auto, unfolding(crate::specs::SaveText::parsed_save))]
fn judge(text: &[u8]) -> Result<(), TextRefusal>
    ensures { JudgesForm result (parsed_save text.now) }
{
    let mut cursor = Cursor::new(text);
    match pass_save(&mut cursor) {
        Ok(()) => {}
        Err(field) => return Err(TextRefusal::Form((text.len() - field.remaining) as u64)),
    }
    match cursor.len() {
        0 => Ok(()),
        remaining => Err(TextRefusal::Form((text.len() - remaining) as u64)),
    }
}

/// Parses a save of either format. Errors: `Form` with the offset of the first wrong field, `OutOfMemory`.
/// Each field is judged given those before it; the offset of a wrong field of the state counts from the start of the save.
/// The format is checked first, without allocation.
pub fn read(alloc: Global, text: &[u8]) -> Result<Parts<'_>, TextRefusal>
    // A parsed save has this text, in one of the two formats.
    ensures found { IfOk result (λ p. IsSaveText (save_view p) × IsTextOfSave (save_view p) text.now) }
    // Every such text is parsed, unless memory runs out.
    ensures only { (save : SaveText) → IsSaveText save → IsTextOfSave save text.now → ReadsSaveText result (Ok save) }
    // The offset is that of the first wrong field.
    ensures exact { ReadsSaveText result (parsed_save text.now) }
{
    all(alloc, text)
}

#[tactic(auto, unfolding(crate::specs::SaveText::parsed_save))]
fn all(alloc: Global, text: &[u8]) -> Result<Parts<'_>, TextRefusal>
    ensures { ReadsSaveText result (parsed_save text.now) }
{
    judge(text)?;
    let mut cursor = Cursor::new(text);
    match save_of(alloc, &mut cursor) {
        Ok(parts) => Ok(parts),
        Err(ReadStop::OutOfMemory) => Err(TextRefusal::OutOfMemory),
        Err(ReadStop::Wrong(_)) => unreachable!(),
    }
}
