//! The law of written texts. It is the contract of a function that does nothing.

ghost use Rattle.hex_langs.specs.declared.items.item.Item.{Item};
ghost use Rattle.ddc_base.specs.Limits.{most_items, most_source};
ghost use Rattle.hex_langs.specs.declared.items.token.Dialect.TheVariants.{Hex2};
ghost use Rattle.hex_langs.specs.Items.Reading.{items_of};
ghost use Rattle.hex_langs.specs.Writer.Writable.{AreWritable};
ghost use Rattle.hex_langs.specs.Writer.Writing.{items_text};
ghost use Rattle.std.specs.Prelude.{◌≡◌, ◌≤◌, List, Ok, length};

/// hex2 reads a written text as the same items. The items must be writable and at most 33,554,432, and their text must have at most
/// 67,108,864 bytes.
pub fn written_is_read_again()
    ensures { (items : List Item) → AreWritable items → length items ≤ most_items → length (items_text items) ≤ most_source
        → items_of Hex2 (items_text items) ≡ Ok items }
{}
