//! The answers of the checks. No fault is out of memory.

ghost use Rattle.std.specs.Prelude.{◌≡◌};
ghost use Rattle.segments.specs.Faults.{state_fault_number};

use elf_load::ElfRefusal;

/// Why bytes are not the text of a state. The form is checked first, then counts and ranges, then references.
#[derive(Clone, Copy, PartialEq, Eq)]
pub enum StateFault {
    /// The field that begins at this offset is the first wrong one.
    Form(u64),
    /// A count or a range is not that of a guest.
    Range,
    /// A descriptor's file is missing, or a file has neither a name nor a descriptor.
    FileRef,
}

impl StateFault {
    /// The number of the fault, from 1.
    pub fn number(&self) -> u8
        ensures { result ≡ state_fault_number self.now }
    {
        match self {
            StateFault::Form(_) => 1,
            StateFault::Range => 2,
            StateFault::FileRef => 3,
        }
    }
}

/// Why a program does not start.
#[derive(Clone, Copy, PartialEq, Eq)]
pub enum StartFault {
    Elf(ElfRefusal),
    ArgsTooLong,
    BoxTooLarge,
}

/// Why two texts are not a segment of a run.
#[derive(Clone, Copy, PartialEq, Eq)]
pub enum SegmentFault {
    /// The first text is not the text of a state.
    From(StateFault),
    /// The second text is not the text of a state.
    To(StateFault),
    /// The second state has taken no more steps than the first.
    NotLater,
    /// The second state has taken more than 2^48 steps more than the first.
    TooFar,
    /// The run from the first state ends at this step, counted from the program's start.
    EndsAt(u64),
    /// The first offset at which the text of the reached state differs from that of the second state.
    Differs(u64),
}

/// The answer of a check of two texts.
#[derive(Clone, Copy, PartialEq, Eq)]
pub enum SegmentAnswer {
    /// They are a segment of this many steps.
    Yes(u64),
    No(SegmentFault),
    OutOfMemory,
}

/// The answer of a check of a first text.
#[derive(Clone, Copy, PartialEq, Eq)]
pub enum StartAnswer {
    /// Its state is that of the program's start.
    Yes,
    Start(StartFault),
    NotState(StateFault),
    /// The first offset at which the text of the program's start differs from that of the text's state.
    Differs(u64),
    OutOfMemory,
}
