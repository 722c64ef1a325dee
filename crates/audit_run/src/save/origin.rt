//! The recipe and the inputs that a save is of, compared without allocating.

ghost use Rattle.std.specs.Prelude.{◌≡◌, ◌↔◌, ℕ, IsTrue, List, Ok, length, map};
ghost use Rattle.ddc_base.specs.declared.digests.Digest.{Digest as DigestText};
ghost use Rattle.save_format.specs.ByteFields.Reader.{several};
ghost use Rattle.save_format.specs.SaveText.{SaveText, digest_at, parsed_save};
ghost use Rattle.audit_run.specs.Save.Saves.{IsOf, digest_of};

use crate::save::reading::is_digest_of;
use ddc_base::Bytes;
use ddc_base::digests::Digest;
use recipe::Recipe;
use save_format::byte_fields::Cursor;
use save_format::{InputPart, digest_of, origin_of};

/// Whether a text is a save of this recipe and these inputs. The result says nothing about a text with a wrong form.
pub(crate) fn is_text_of(text: &[u8], recipe: &Recipe, inputs: &[Bytes]) -> bool
    ensures { (save : SaveText) → parsed_save text.now ≡ Ok save → IsTrue result ↔ IsOf recipe.now inputs.now save }
{
    let mut cursor = Cursor::new(text);
    match origin_of(&mut cursor) {
        Ok((found, count)) => {
            if !is_same(&found, recipe.digest()) {
                return false;
            }
            if count as usize != inputs.len() {
                return false;
            }
            are_next(&mut cursor, inputs)
        }
        Err(_) => false,
    }
}

fn is_same(first: &Digest, second: &Digest) -> bool
    ensures { IsTrue result ↔ (first.now ≡ second.now) }
{
    *first == *second
}

/// Whether the next digests are those of these inputs.
fn are_next(cursor: &mut Cursor<'_>, inputs: &[Bytes]) -> bool
    ensures { (digests : List DigestText) (left : List ℕ) → several (λ (any : ℕ). digest_at) (λ input. 0) 0 (length inputs.now) cursor.old ≡ Ok (digests, left)
        → IsTrue result ↔ (digests ≡ map digest_of inputs.now) }
{
    match inputs {
        [] => true,
        [input, rest @ ..] => match digest_of(cursor) {
            Ok(digest) => {
                if !is_digest_of(&InputPart { digest }, input) {
                    return false;
                }
                are_next(cursor, rest)
            }
            Err(_) => false,
        },
    }
}
