//! Reads the fields of a patch in front of its pages without allocation.

ghost use Rattle.std.specs.Prelude.{◌≡◌, IsOk, Ok};
ghost use Rattle.save_format.specs.Inside.Mapping.{Tells};
ghost use Rattle.save_format.specs.PatchText.PatchText.{parsed_patch, patch_at};
ghost use Rattle.save_format.specs.StateText.Mappable.{IsHeaderOf};
ghost use Rattle.save_format.specs.StateText.Seen.{state_view};
ghost use Rattle.save_format.specs.StateText.StateText.{StateText};

use crate::byte_fields::{Cursor, WrongField};
use crate::patch_text::fields::numbers_of;
use crate::state_text::{StateHeader, StateParts, runs_mappable};

/// The fields in front of the pages, from a patch at the start of the remaining bytes.
fn patch_header(cursor: &mut Cursor<'_>, base: &StateParts<'_>) -> Result<StateHeader, WrongField>
    ensures { Tells IsHeaderOf result (patch_at (state_view base.now) cursor.old) }
{
    let numbers = numbers_of(cursor, base)?;
    let mappable = runs_mappable(cursor)?;
    Ok(numbers.header(mappable))
}

/// Header fields of the state obtained by applying a well-formed patch to `base`. Allocates nothing.
pub fn header_of(base: &StateParts<'_>, text: &[u8]) -> StateHeader
    requires { IsOk (parsed_patch (state_view base.now) text.now) }
    ensures { (s : StateText) → parsed_patch (state_view base.now) text.now ≡ Ok s → IsHeaderOf result s }
{
    let mut cursor = Cursor::new(text);
    match patch_header(&mut cursor, base) {
        Ok(header) => header,
        Err(_) => unreachable!(),
    }
}
