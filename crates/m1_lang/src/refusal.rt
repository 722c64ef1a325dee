//! The refusals of M1.

ghost use Rattle.std.specs.Prelude.{◌≡◌};
ghost use Rattle.m1_lang.specs.Refusals.{m1_refusal_number, m1_refusal_place};

use ddc_base::OutOfMemory;

/// The first refusal of a source, with a byte offset, counted from 0.
#[derive(Clone, Copy, PartialEq, Eq)]
pub enum M1Refusal {
    /// Fewer than two words follow the `DEFINE` at this offset, or the second is not a value.
    BadDefine(u64),
    /// The name that the `DEFINE` at this offset defines is already defined.
    DoubleDefine(u64),
    /// The quote at this offset is not closed.
    OpenString(u64),
    /// The word at this offset has no known form, or is a second reference of a word of four bytes.
    UnknownWord(u64),
    /// The number of the word at this offset is out of its sign's range.
    NumberRange(u64),
    /// The fields from this offset on are not followed by exactly the four bytes of their word.
    Dangling(u64),
    /// The source has more than 67,108,864 bytes, or more than 33,554,432 items.
    TooLong,
    OutOfMemory,
}

impl From<OutOfMemory> for M1Refusal {
    ghost use Rattle.m1_lang.specs.declared.refusal.M1Refusal.TheVariants.{OutOfMemory};

    ghost from_gives = { λ _ e. e ≡ OutOfMemory };

    fn from(_error: OutOfMemory) -> M1Refusal {
        M1Refusal::OutOfMemory
    }
}

impl M1Refusal {
    /// The number of the refusal, from 1.
    pub fn number(&self) -> u8
        ensures { result ≡ m1_refusal_number self.now }
    {
        match self {
            M1Refusal::BadDefine(_) => 1,
            M1Refusal::DoubleDefine(_) => 2,
            M1Refusal::OpenString(_) => 3,
            M1Refusal::UnknownWord(_) => 4,
            M1Refusal::NumberRange(_) => 5,
            M1Refusal::Dangling(_) => 6,
            M1Refusal::TooLong => 7,
            M1Refusal::OutOfMemory => 8,
        }
    }

    /// The byte offset of the refusal; 0 if it has none.
    pub fn place(&self) -> u64
        ensures { result ≡ m1_refusal_place self.now }
    {
        match self {
            M1Refusal::BadDefine(at)
            | M1Refusal::DoubleDefine(at)
            | M1Refusal::OpenString(at)
            | M1Refusal::UnknownWord(at)
            | M1Refusal::NumberRange(at)
            | M1Refusal::Dangling(at) => *at,
            M1Refusal::TooLong | M1Refusal::OutOfMemory => 0,
        }
    }
}
