//! Laws of checks. Each law is the contract of a function that does nothing.

ghost use Rattle.hex_langs.specs.declared.items.reader.HexRefusal.TheVariants as hex;
ghost use Rattle.hex_langs.specs.declared.items.token.Dialect.{Dialect};
ghost use Rattle.hex_langs.specs.Items.Reading.{items_of};
ghost use Rattle.hex_langs.specs.Link.Values.{linked};
ghost use Rattle.ddc_base.specs.declared.languages.Language.TheVariants.{Hex0};
ghost use Rattle.m1_lang.specs.declared.refusal.M1Refusal.TheVariants as m1;
ghost use Rattle.m1_lang.specs.Expansion.{expansion_of};
ghost use Rattle.audit_rules.specs.SourceCheck.Checks.{check, joined_files};
ghost use Rattle.audit_rules.specs.declared.source_check.cause.CheckCause.TheVariants.{Differs};
ghost use Rattle.std.specs.Prelude.{◌≡◌, ◌≢◌, [], ◌∷◌, ℕ, List, None, Some, Err, codes};

/// Reading a source never results in out of memory, so the cause that stands for it does not matter.
pub fn no_source_wants_memory()
    ensures items { (dialect : Dialect) (source : List ℕ) → items_of dialect source ≢ Err hex.OutOfMemory }
    ensures values { (dialect : Dialect) (base : ℕ) (source : List ℕ) → linked base (items_of dialect source) ≢ Err hex.OutOfMemory }
    ensures expansions { (source : List ℕ) → expansion_of source ≢ Err m1.OutOfMemory }
{}

/// Examples in hex0, worked by hand: an equal artefact, a wrong byte, one too short, one too long, and two joined files.
#[tactic(auto, unfolding(crate::specs::SourceCheck::Checks::check, hex_langs::specs::Hex0::hex0_of))]
pub fn worked_rows()
    ensures right { (base : ℕ) → check Hex0 base (codes "# A\n41 4;B") (65 ∷ []) ≡ None }
    ensures differs { (base : ℕ) → check Hex0 base (codes "4142") (65 ∷ 67 ∷ []) ≡ Some (Differs 1) }
    ensures ended { (base : ℕ) → check Hex0 base (codes "4142") (65 ∷ []) ≡ Some (Differs 1) }
    ensures goes_on { (base : ℕ) → check Hex0 base (codes "41") (65 ∷ 66 ∷ []) ≡ Some (Differs 1) }
    ensures joined { (base : ℕ) → check Hex0 base (joined_files (codes "#1" ∷ codes "42" ∷ [])) (66 ∷ []) ≡ None }
{}
