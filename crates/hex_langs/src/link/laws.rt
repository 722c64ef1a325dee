//! Laws of linking. Each law is the contract of a function that does nothing.

ghost use Rattle.std.specs.Prelude.{◌≡◌, ℕ, ◌+◌, ◌≤◌, List, Ok, length, map, IsTrue};
ghost use Rattle.std.specs.List.{list_all};
ghost use Rattle.ddc_base.specs.Limits.{most_source};
ghost use Rattle.hex_langs.specs.declared.items.item.Item.{Item};
ghost use Rattle.hex_langs.specs.Hex0.{hex0_of, HasEvenDigits};
ghost use Rattle.hex_langs.specs.Items.Plain.{is_plain};
ghost use Rattle.hex_langs.specs.declared.link.values.HexLanguage.{HexLanguage};
ghost use Rattle.hex_langs.specs.Link.Laws.{is_fixed, address_after, renamed, KeepsApart};
ghost use Rattle.hex_langs.specs.Link.Link.{link_of};
ghost use Rattle.hex_langs.specs.Link.Values.{value_of};

/// Items without references and pads give the same bytes at every base.
pub fn same_at_every_base()
    ensures { (items : List Item) → IsTrue (list_all is_fixed items) → (base other : ℕ) → link_of items base ≡ link_of items other }
{}

/// The bytes of linked items end at the address after the last item.
pub fn bytes_end_after_the_last()
    ensures { (items : List Item) → (base : ℕ) → (bytes : List ℕ) → link_of items base ≡ Ok bytes → base + length bytes ≡ address_after base items }
{}

/// Linking only compares labels' names: other names that keep different names different change nothing.
pub fn names_do_not_matter()
    ensures { (rename : List ℕ → List ℕ) → KeepsApart rename → (items : List Item) → (base : ℕ)
        → link_of (map (renamed rename) items) base ≡ link_of items base }
{}

/// A source of digits, blanks and comments alone, with an even number of digits, has the same value in all three languages.
pub fn plain_sources()
    ensures { (language : HexLanguage) → (base : ℕ) → (source : List ℕ) → length source ≤ most_source → IsTrue (is_plain source) → HasEvenDigits source
        → value_of language base source ≡ Ok (hex0_of source) }
{}
