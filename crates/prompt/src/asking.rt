ghost use Rattle.std.specs.Prelude.{◌≡◌, ◌≤◌, IfOk, length};
ghost use Rattle.std.specs.Bool.{OnTrue};
ghost use Rattle.prompt.specs.Prompts.{PromptState, LineLeaves, asked_of};

use arrayvec::ArrayVec;
use std::marker::Model;

/// The error of an input that failed. The failure is counted.
#[derive(Clone, Copy)]
pub struct Failed;

/// A line of at most 256 bytes, without its LF, in a buffer without allocation.
#[derive(Drop)]
pub struct Line {
    bytes: ArrayVec<u8, 256>,
}

impl Model for Line {
    ghost use Rattle.std.specs.Prelude.{ℕ, List, ◌≤◌, length};

    ghost Value = { List ℕ };

    ghost view = { λ line. line.bytes.items };

    ghost invariant = { λ line. length line.bytes.items ≤ 256 };
}

impl Line {
    ghost use Rattle.std.specs.Prelude.{◌++◌, ◌∷◌, ◌<◌, []};

    /// A line of these bytes.
    pub fn of(bytes: &[u8]) -> Line
        requires { length bytes.now ≤ 256 }
        ensures { result ≡ bytes.now }
    {
        let mut kept = ArrayVec::new();
        kept.try_extend_from_slice(bytes).unwrap();
        Line { bytes: kept }
    }

    /// The empty line.
    pub(crate) fn empty() -> Line
        ensures { result ≡ [] }
    {
        Line {
            bytes: ArrayVec::new(),
        }
    }

    /// Appends a byte.
    pub(crate) fn push(&mut self, byte: u8)
        requires { length self.old < 256 }
        ensures { self.new ≡ self.old ++ byte ∷ [] }
    {
        self.bytes.push(byte);
    }

    /// The bytes of the line.
    pub fn as_slice(&self) -> &[u8]
        ensures bytes { result.now ≡ self.now }
        ensures short { length result.now ≤ 256 }
    {
        self.bytes.as_slice()
    }
}

/// The result of asking for a line.
#[derive(Drop)]
pub enum Asked {
    /// A line of at most 256 bytes.
    Line(Line),
    /// A line of more than 256 bytes, of which at most 65,536 bytes were consumed.
    TooLong,
    /// No bytes are left.
    End,
}

/// Standard input: lines that are requested one by one, as from a terminal. docs/reference/outside.md has the rules.
///
/// Clauses on contents hold if the remaining bytes are known (`tells`). Every input counts its failed calls in 64 bits.
pub trait Prompt {
    ghost state: { Self → PromptState };

    /// Reads the next line. Allocates nothing.
    fn line(&mut self) -> Result<Asked, Failed>
        ensures told { OnTrue (state self.old).tells (IfOk result (λ asked. asked ≡ asked_of (state self.old).unread)) }
        ensures leaves { LineLeaves (state self.old) result (state self.new) };
}
