//! Items: the contents of a hex1, hex2 or M1 source before it is linked.

ghost use Rattle.std.specs.Prelude.{◌≡◌, ◌<◌, ℕ, List};
ghost use Rattle.std.specs.Prelude.{[], ◌∷◌, nat_eq};
ghost use Rattle.std.specs.Cmp.{on_equiv, on_per, partial_equiv_from_equiv};
ghost use Rattle.std.specs.Cmp.Lexicographic.{pointwise, bytes_decides, nat_list_eq_equiv};
ghost use Rattle.std.proofs.Common.{ap};

use std::hash::{Hash, Hasher};
use std::marker::Model;

/// The kind of a reference inside a word: the instruction format whose immediate gets the label's distance (RISC-V Unprivileged ISA,
/// "Base Instruction Formats" and "Immediate Encoding Variants").
#[derive(Clone, Copy, PartialEq, Eq)]
pub enum Kind {
    /// `!name`: 12 bits, after a `U` of the word before.
    I,
    /// `@name`: a branch.
    B,
    /// `$name`: a jump.
    J,
    /// `~name`: the upper 20 bits.
    U,
}

/// A label's name, borrowed from the source. Contracts see its bytes.
#[derive(Drop)]
pub struct LabelName<'s> {
    bytes: &'s [u8],
}

impl<'s> Model for LabelName<'s> {
    ghost Value = { List ℕ };

    ghost view = { λ n. n.bytes.now };
}

impl<'s> LabelName<'s> {
    /// The name made of these bytes.
    pub fn new(bytes: &'s [u8]) -> LabelName<'s>
        ensures { result ≡ bytes.now }
    {
        LabelName { bytes }
    }

    /// The name's bytes.
    pub fn bytes(&self) -> &'s [u8]
        ensures { result.now ≡ self.now }
    {
        self.bytes
    }
}

impl<'s> PartialEq for LabelName<'s> {
    ghost eq = { λ a b. pointwise nat_eq a b };

    ghost laws = { on_per (λ n. n) (partial_equiv_from_equiv nat_list_eq_equiv) };

    fn eq(&self, other: &Self) -> bool {
        self.bytes == other.bytes
    }
}

impl<'s> Eq for LabelName<'s> {
    ghost laws = { on_equiv (λ n. n) nat_list_eq_equiv };
}

impl<'s> Hash for LabelName<'s> {
    ghost hash_input = { λ n. n ∷ [] };

    ghost respects_eq = { λ a b is. ap (λ n. n ∷ []) ((bytes_decides a b).0 is) };

    fn hash<H: Hasher>(&self, state: &mut H) {
        state.write(self.bytes);
    }
}

/// One item of a source. Its names are borrowed from the source.
#[derive(Drop)]
pub enum Item<'s> {
    Byte(u8),
    /// Defines the label at the item's address.
    Label(LabelName<'s>),
    /// Four bytes of an instruction: the value, with the label's distance in the field of its kind.
    Word(u32, Kind, LabelName<'s>),
    /// Four bytes: the distance of the label from the end of these bytes.
    Rel(LabelName<'s>),
    /// Four bytes: the distance of the first label from the second.
    Gap(LabelName<'s>, LabelName<'s>),
    /// Four bytes: the address of the label.
    Abs(LabelName<'s>),
    /// Zero bytes up to the next address that is a multiple of 4.
    Pad,
}
