//! Reads parts of a save without allocation: the fields in front of its pages, and the recipe that it belongs to.

ghost use Rattle.std.specs.Prelude.{◌≡◌, IsOk, Ok};
ghost use Rattle.save_format.specs.ByteFields.Reader.{Finds};
ghost use Rattle.save_format.specs.Inside.Mapping.{Tells};
ghost use Rattle.save_format.specs.SaveText.{SaveText, origin_at, parsed_save, save_at};
ghost use Rattle.save_format.specs.Seen.{IsSaveHeaderOf};

use crate::byte_fields::{Cursor, WrongField, pass_counted};
use crate::fields::{digest_of, pass_several};
use crate::parts::InputPart;
use crate::reading::{MAGIC, OLD_MAGIC};
use crate::state_text::{StateHeader, state_header};
use ddc_base::digests::Digest;

/// The fields of a save in front of the pages of its state.
#[derive(Clone, Copy)]
pub struct SaveHeader {
    /// How many stages are finished.
    pub stages: u32,
    pub state: StateHeader,
}

/// The fields in front of the pages, from a save's text at the start of the remaining bytes.
#[tactic(auto, unfolding(crate::specs::SaveText::save_at, crate::specs::SaveText::fields_at))]
fn save_header(cursor: &mut Cursor<'_>) -> Result<SaveHeader, WrongField>
    ensures { Tells IsSaveHeaderOf result (save_at cursor.old) }
{
    let form = cursor.begins_with_either(&OLD_MAGIC, &MAGIC)?;
    let _recipe = digest_of(cursor)?;
    pass_counted::<InputPart>(cursor)?;
    let stages = cursor.u32()?;
    pass_several(cursor, stages)?;
    let state = state_header(cursor, form)?;
    Ok(SaveHeader { stages, state })
}

/// The fields of a well-formed save in front of the pages of its state. Allocates nothing.
pub fn header_of(text: &[u8]) -> SaveHeader
    requires { IsOk (parsed_save text.now) }
    ensures { (save : SaveText) → parsed_save text.now ≡ Ok save → IsSaveHeaderOf result save }
{
    let mut cursor = Cursor::new(text);
    match save_header(&mut cursor) {
        Ok(header) => header,
        Err(_) => unreachable!(),
    }
}

/// The digest of a save's recipe, and the number of its inputs, whose digests follow.
#[tactic(auto, unfolding(crate::specs::SaveText::origin_at))]
pub fn origin_of(cursor: &mut Cursor<'_>) -> Result<(Digest, u32), WrongField>
    ensures { Finds (λ x. (x.0, x.1)) result cursor.new (origin_at cursor.old) }
{
    let _form = cursor.begins_with_either(&OLD_MAGIC, &MAGIC)?;
    let recipe = digest_of(cursor)?;
    let count = cursor.u32()?;
    Ok((recipe, count))
}
