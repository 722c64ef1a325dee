//! Reading and writing a state relative to a base are inverse. Each law is the contract of a function that does nothing.

ghost use Rattle.std.specs.Prelude.{◌≡◌, List};
ghost use Rattle.save_format.specs.ByteFields.Law.{IsReadAsEncoded};
ghost use Rattle.save_format.specs.ByteFields.Spelling.{InTurn};
ghost use Rattle.save_format.specs.PatchText.PatchText.{changed_pages, patch_at};
ghost use Rattle.save_format.specs.PatchText.Encoded.{IsPatched, page_changes, text_of_patch};
ghost use Rattle.save_format.specs.StateText.Encoded.{IsPage, IsStateText};
ghost use Rattle.save_format.specs.StateText.StateText.{PageText, StateText, after_page};

/// Parsing an encoded patch returns its state, and every accepted text is the encoding of its state, for each base.
pub fn patches_are_read_as_encoded()
    ensures { (base : StateText) → IsStateText base → IsReadAsEncoded (patch_at base) (text_of_patch base) (IsPatched base) }
{}

/// Applying the changes between a base and some pages to the base gives those pages.
pub fn changes_make_the_pages()
    ensures { (base pages : List PageText) → InTurn IsPage after_page 0 pages → changed_pages base (page_changes base pages) ≡ pages }
{}
