ghost use Rattle.std.specs.Prelude.{◌≡◌};
ghost use Rattle.std.specs.List.{list_all};
ghost use Rattle.ddc_base.specs.Names.{is_name, is_name_byte, IsName};

use arrayvec::ArrayVec;
use std::marker::Model;

/// A name: 1 to 32 bytes of `a` to `z`, `0` to `9` and `_`, which contracts see as these bytes. Allocates nothing.
#[derive(Drop)]
pub struct Name {
    text: ArrayVec<u8, 32>,
}

impl Model for Name {
    ghost use Rattle.std.specs.Prelude.{List, ℕ};
    ghost use Rattle.ddc_base.specs.Names.{IsName};

    ghost Value = { List ℕ };

    ghost view = { λ name. name.text.items };

    ghost invariant = { λ name. IsName name.text.items };
}

impl PartialEq for Name {
    ghost use Rattle.std.specs.Prelude.{bytes_eq};
    ghost use Rattle.std.specs.Cmp.{partial_equiv_from_equiv};
    ghost use Rattle.std.specs.Cmp.Lexicographic.{nat_list_eq_equiv};

    ghost eq = { bytes_eq };

    ghost laws = { partial_equiv_from_equiv nat_list_eq_equiv };

    fn eq(&self, other: &Name) -> bool {
        self.bytes() == other.bytes()
    }
}

impl Eq for Name {
    ghost use Rattle.std.specs.Cmp.Lexicographic.{nat_list_eq_equiv};

    ghost laws = { nat_list_eq_equiv };
}

impl Name {
    ghost use Rattle.ddc_base.specs.Names.{IsName, name_of};

    /// The name that a text spells; `None` for every other text.
    pub fn read(text: &[u8]) -> Option<Name>
        ensures { result ≡ name_of text.now }
    {
        if is_name_text(text) {
            Some(kept_name(text))
        } else {
            None
        }
    }

    /// The name's bytes.
    pub fn bytes(&self) -> &[u8]
        ensures value { result.now ≡ self.now }
        ensures name { IsName self.now }
    {
        self.text.as_slice()
    }

    /// A copy of the name.
    pub fn copy(&self) -> Name
        ensures { result ≡ self.now }
    {
        kept_name(self.bytes())
    }
}

/// Whether a text is a name.
#[tactic(auto, unfolding(crate::specs::Names::is_name))]
fn is_name_text(text: &[u8]) -> bool
    ensures { result ≡ is_name text.now }
{
    !text.is_empty() && text.len() <= 32 && are_name_bytes(text)
}

/// Whether every byte is allowed in a name.
fn are_name_bytes(text: &[u8]) -> bool
    ensures { result ≡ list_all is_name_byte text.now }
{
    text.iter().all(|byte| is_name_letter(*byte))
}

/// Whether a byte is allowed in a name.
fn is_name_letter(byte: u8) -> bool
    ensures { result ≡ is_name_byte byte }
{
    byte.is_ascii_lowercase() || byte.is_ascii_digit() || byte == b'_'
}

/// A name's text in a buffer of its own.
#[tactic(auto, using(crate::proofs::NameTexts::fits))]
fn kept_name(text: &[u8]) -> Name
    requires { IsName text.now }
    ensures { result ≡ text.now }
{
    let mut kept = ArrayVec::new();
    // A name fits.
    kept.try_extend_from_slice(text).unwrap();
    Name { text: kept }
}
