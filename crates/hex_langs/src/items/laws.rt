//! Laws of every hex1 and hex2 source. Each law is the contract of a function that does nothing.

ghost use Rattle.hex_langs.specs.Hex0.{hex0_of, HasEvenDigits};
ghost use Rattle.ddc_base.specs.Limits.{most_source};
ghost use Rattle.hex_langs.specs.declared.items.item.Item.TheVariants.{Byte};
ghost use Rattle.hex_langs.specs.declared.items.token.Dialect.{Dialect};
ghost use Rattle.hex_langs.specs.Items.Plain.{is_plain};
ghost use Rattle.hex_langs.specs.Items.Reading.{items_of};
ghost use Rattle.std.specs.Prelude.{◌≡◌, ℕ, ◌≤◌, List, IsTrue, Ok, length, map};

/// The items of a plain source in hex1 and hex2 are its bytes in hex0. A plain source has digits, blanks and comments alone; it must have
/// an even number of digits and at most 67,108,864 bytes.
pub fn plain_sources()
    ensures { (dialect : Dialect) → (source : List ℕ) → length source ≤ most_source → IsTrue (is_plain source) → HasEvenDigits source
        → items_of dialect source ≡ Ok (map Byte (hex0_of source)) }
{}
