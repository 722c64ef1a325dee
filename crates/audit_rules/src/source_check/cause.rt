ghost use Rattle.audit_rules.specs.SourceCheck.Causes.{hex_cause_number, hex_cause_place, m1_cause_number, m1_cause_place};
ghost use Rattle.std.specs.Prelude.{◌≡◌};

/// Why a source of hex1 or hex2 has no value, or a text of hex2 no items, by the offset of a byte or the number of an item.
///
/// Like `hex_langs::items::HexRefusal` without out of memory, which no source's value is.
#[derive(Clone, Copy, PartialEq, Eq)]
pub enum HexCause {
    OddDigits(u64),
    BadField(u64),
    Dangling(u64),
    DoubleLabel(u64),
    NoLabel(u64),
    OutOfReach(u64),
    TooLong,
}

impl HexCause {
    /// The number of the refusal, from 1.
    pub fn number(&self) -> u8
        ensures { result ≡ hex_cause_number self.now }
    {
        match self {
            HexCause::OddDigits(_) => 1,
            HexCause::BadField(_) => 2,
            HexCause::Dangling(_) => 3,
            HexCause::DoubleLabel(_) => 4,
            HexCause::NoLabel(_) => 5,
            HexCause::OutOfReach(_) => 6,
            HexCause::TooLong => 7,
        }
    }

    /// The byte offset or the item number in the refusal; 0 for `TooLong`.
    pub fn place(&self) -> u64
        ensures { result ≡ hex_cause_place self.now }
    {
        match self {
            HexCause::OddDigits(at)
            | HexCause::BadField(at)
            | HexCause::Dangling(at)
            | HexCause::DoubleLabel(at)
            | HexCause::NoLabel(at)
            | HexCause::OutOfReach(at) => *at,
            HexCause::TooLong => 0,
        }
    }
}

/// Why a source of M1 has no items, by the offset of a byte.
///
/// Like `m1_lang::M1Refusal` without out of memory, which no source's expansion is.
#[derive(Clone, Copy, PartialEq, Eq)]
pub enum M1Cause {
    BadDefine(u64),
    DoubleDefine(u64),
    OpenString(u64),
    UnknownWord(u64),
    NumberRange(u64),
    Dangling(u64),
    TooLong,
}

impl M1Cause {
    /// The number of the refusal, from 1.
    pub fn number(&self) -> u8
        ensures { result ≡ m1_cause_number self.now }
    {
        match self {
            M1Cause::BadDefine(_) => 1,
            M1Cause::DoubleDefine(_) => 2,
            M1Cause::OpenString(_) => 3,
            M1Cause::UnknownWord(_) => 4,
            M1Cause::NumberRange(_) => 5,
            M1Cause::Dangling(_) => 6,
            M1Cause::TooLong => 7,
        }
    }

    /// The byte offset in the refusal; 0 for `TooLong`.
    pub fn place(&self) -> u64
        ensures { result ≡ m1_cause_place self.now }
    {
        match self {
            M1Cause::BadDefine(at)
            | M1Cause::DoubleDefine(at)
            | M1Cause::OpenString(at)
            | M1Cause::UnknownWord(at)
            | M1Cause::NumberRange(at)
            | M1Cause::Dangling(at) => *at,
            M1Cause::TooLong => 0,
        }
    }
}

/// Why an artefact is not what its source stands for.
#[derive(Clone, Copy, PartialEq, Eq)]
pub enum CheckCause {
    /// The source, of hex1 or hex2, has no value.
    Hex(HexCause),
    /// The source, of M1, has no items.
    M1(M1Cause),
    /// The artefact has no items; it must be a hex2 text with the items of an M1 source.
    NotItems(HexCause),
    /// The first difference, from 0: a byte offset, for M1 an item number. The end of one of the two counts as a difference.
    Differs(u64),
}
