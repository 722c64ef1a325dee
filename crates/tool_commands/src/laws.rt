//! Laws about the definitions. Each is the contract of a function that does nothing.

ghost use Rattle.std.specs.Prelude.{◌≡◌, ◌<◌, ℕ, IsTrue, List, Ok, Some, drop, length, take};
ghost use Rattle.ddc_base.specs.Outside.{NamedFiles, loaded};
ghost use Rattle.ddc_base.specs.declared.languages.Language.{Language};
ghost use Rattle.ddc_base.specs.declared.outside.Loaded.TheVariants.{Bytes};
ghost use Rattle.ddc_base.specs.Limits.{most_content};
ghost use Rattle.hex_langs.specs.Items.Reading.{items_of};
ghost use Rattle.hex_langs.specs.declared.items.item.Item.{Item};
ghost use Rattle.hex_langs.specs.declared.items.token.Dialect.{Dialect};
ghost use Rattle.command_plan.specs.Plan.{outcome};
ghost use Rattle.command_plan.specs.declared.status.Status.TheVariants.{Yes};
ghost use Rattle.tool_commands.specs.Offsets.{leading_word, offset_of_item};
ghost use Rattle.tool_commands.specs.Spots.{IsSpotAfter, holds_offset};
ghost use Rattle.tool_commands.specs.TokenOffsets.{IsOffsetOf};
ghost use Rattle.tool_commands.specs.Where.{refusal_offset, spot_line, where_plan, where_words};
ghost use Rattle.tool_commands.specs.declared.offsets.Spot.{Spot};
ghost use Rattle.tool_commands.specs.declared.refusal_offset.WhereWords.{WhereWords};

/// Each item of an accepted source has a place: the byte offset of the token that forms it. For an item of a four-byte word the place is
/// that of the word's first token.
pub fn items_stand_at_their_tokens()
    ensures { (dialect : Dialect) (source : List ℕ) (items : List Item) (index : ℕ) → items_of dialect source ≡ Ok items → index < length items
        → (offset : ℕ) × (offset_of_item dialect source index ≡ Some offset) × IsOffsetOf dialect source index offset }
{}

/// `where` prints the line and the column of the byte at which a refusal stands. The line is one more than the number of line feeds before that byte.
/// The column is one more than the number of bytes between the last of them, or the beginning of the text, and that byte. A refusal that holds a byte
/// offset (`holds_offset`) stands at the offset PLACE.
pub fn lines_and_columns_are_those_of_the_byte()
    ensures within { (parsed : List (List ℕ)) (words : WhereWords) (files : NamedFiles) (text : List ℕ) (at : ℕ) → where_words parsed ≡ Some words
        → loaded files words.source most_content ≡ Bytes text → refusal_offset words.language text words.number words.place ≡ Some at → at < length text
        → (spot : Spot) × IsSpotAfter (take at text) spot
        × (outcome (where_plan parsed) files ≡ record { status = Yes; text = spot_line spot (leading_word (drop at text)); files = files }) }
    ensures offset { (language : Language) (text : List ℕ) (number place : ℕ) → number < 7 → IsTrue (holds_offset language number)
        → refusal_offset language text number place ≡ Some place }
{}
