ghost use Rattle.rv64_machine.specs.Inside.FlatEnds.{step_end};
ghost use Rattle.std.specs.Prelude.{◌≡◌};

use paged_mem::Width;

/// Why a hart stopped. A trap leaves the hart's state unchanged.
#[derive(Clone, Copy, PartialEq, Eq)]
pub enum Cause {
    /// The word at the pc is in no row of the table.
    Illegal(u32),
    /// A byte of the four at the pc is unmapped. The field is the pc.
    FetchUnmapped(u64),
    /// A jump or a taken branch whose target is not a multiple of 4. The field is the target.
    FetchMisaligned(u64),
    /// A load or a load-reserved of which a byte is unmapped, or a misaligned load-reserved. The field is the address.
    LoadUnmapped(u64),
    /// A store, a store-conditional or an atomic memory operation of which a byte is unmapped, or one of the last two
    /// that is misaligned. The field is the address.
    StoreUnmapped(u64),
    /// EBREAK.
    Break,
}

/// How a step ended. Every result but `Done` leaves the hart unchanged.
#[derive(Clone, Copy, PartialEq, Eq)]
pub enum StepEnd {
    /// The instruction was executed.
    Done,
    /// ECALL. The system performs the call and then answers it.
    Call,
    /// The hart cannot continue.
    Trap(Cause),
    /// Out of memory in a store, a store-conditional or an atomic memory operation.
    OutOfMemory,
}

/// The bytes that a load-reserved reserves: 4 or 8 of them, at an address that is a multiple of their number and below 2^38.
#[derive(Clone, Copy, PartialEq, Eq)]
pub struct Reservation {
    pub wide: Width,
    pub at: u64,
}

/// A `StepEnd` with all variants in one enum, so that it fits two registers.
#[derive(Clone, Copy)]
pub(crate) enum FlatEnd {
    Done,
    Call,
    OutOfMemory,
    Illegal(u32),
    FetchUnmapped(u64),
    FetchMisaligned(u64),
    LoadUnmapped(u64),
    StoreUnmapped(u64),
    Break,
}

impl FlatEnd {
    pub(crate) fn of(end: StepEnd) -> FlatEnd
        ensures { step_end result ≡ end }
    {
        match end {
            StepEnd::Done => FlatEnd::Done,
            StepEnd::Call => FlatEnd::Call,
            StepEnd::OutOfMemory => FlatEnd::OutOfMemory,
            StepEnd::Trap(Cause::Illegal(word)) => FlatEnd::Illegal(word),
            StepEnd::Trap(Cause::FetchUnmapped(at)) => FlatEnd::FetchUnmapped(at),
            StepEnd::Trap(Cause::FetchMisaligned(at)) => FlatEnd::FetchMisaligned(at),
            StepEnd::Trap(Cause::LoadUnmapped(at)) => FlatEnd::LoadUnmapped(at),
            StepEnd::Trap(Cause::StoreUnmapped(at)) => FlatEnd::StoreUnmapped(at),
            StepEnd::Trap(Cause::Break) => FlatEnd::Break,
        }
    }

    #[inline(always)]
    pub(crate) fn step_end(self) -> StepEnd
        ensures { result ≡ step_end self }
    {
        match self {
            FlatEnd::Done => StepEnd::Done,
            FlatEnd::Call => StepEnd::Call,
            FlatEnd::OutOfMemory => StepEnd::OutOfMemory,
            FlatEnd::Illegal(word) => StepEnd::Trap(Cause::Illegal(word)),
            FlatEnd::FetchUnmapped(at) => StepEnd::Trap(Cause::FetchUnmapped(at)),
            FlatEnd::FetchMisaligned(at) => StepEnd::Trap(Cause::FetchMisaligned(at)),
            FlatEnd::LoadUnmapped(at) => StepEnd::Trap(Cause::LoadUnmapped(at)),
            FlatEnd::StoreUnmapped(at) => StepEnd::Trap(Cause::StoreUnmapped(at)),
            FlatEnd::Break => StepEnd::Trap(Cause::Break),
        }
    }
}
