//! Laws of every M1 source. Each law is the contract of a function that does nothing.

ghost use Rattle.hex_langs.specs.declared.items.item.Item.{Item};
ghost use Rattle.ddc_base.specs.Limits.{most_source};
ghost use Rattle.hex_langs.specs.declared.items.token.Dialect.TheVariants.{Hex2};
ghost use Rattle.hex_langs.specs.Items.Reading.{items_of};
ghost use Rattle.hex_langs.specs.Writer.Writing.{items_text};
ghost use Rattle.m1_lang.specs.Expansion.{expansion_of};
ghost use Rattle.m1_lang.specs.Words.Words.{open_quote, words_of};
ghost use Rattle.m1_lang.specs.Definitions.{Defines, SourcePart};
ghost use Rattle.m1_lang.specs.Laws.{AreBlanks, IsOfBytes, IsLayout, IsCutIntoWords, laid_out, Layout, parts_in, texts_in};
ghost use Rattle.std.specs.Prelude.{◌≡◌, ◌↔◌, ℕ, ◌≤◌, List, ◌∷◌, ◌++◌, None, Ok, length, map};

/// The text written of a source's items is read by hex2 as the same items, if it has at most 67,108,864 bytes.
pub fn expansions_are_read_again()
    ensures { (source : List ℕ) → (items : List Item) → IsOfBytes source → expansion_of source ≡ Ok items
        → length (items_text items) ≤ most_source → items_of Hex2 (items_text items) ≡ Ok items }
{}

/// Words laid out with blanks before, between and after them are the words of the source, and each quote is closed.
pub fn words_are_those_laid_out()
    ensures { (blanks : List ℕ) → (layout : Layout) → AreBlanks blanks → IsLayout layout
        → (texts_in (blanks ++ laid_out layout) ≡ map (λ laid. laid.0) layout) × (open_quote (words_of (blanks ++ laid_out layout)) ≡ None) }
{}

/// The layout of a source does not matter. Two sources with the same words in the same order give the same items, wherever blanks and
/// comments are between the words.
pub fn layout_does_not_matter()
    ensures { (one : List ℕ) → (other : List ℕ) → (items : List Item) → IsCutIntoWords one → IsCutIntoWords other → texts_in one ≡ texts_in other
        → (expansion_of one ≡ Ok items) ↔ (expansion_of other ≡ Ok items) }
{}

/// The position of a definition does not matter. Two sources whose parts differ only in the position of one definition give the same
/// items.
pub fn definitions_may_move()
    ensures { (one : List ℕ) → (other : List ℕ) → (items : List Item) → (name : List ℕ) → (value : List ℕ) → (prefix : List SourcePart)
        → (between : List SourcePart)
        → (back : List SourcePart) → IsCutIntoWords one → IsCutIntoWords other → parts_in one ≡ prefix ++ Defines 0 name value ∷ (between ++ back)
        → parts_in other ≡ prefix ++ (between ++ Defines 0 name value ∷ back) → (expansion_of one ≡ Ok items) ↔ (expansion_of other ≡ Ok items) }
{}
