ghost use Rattle.std.specs.Prelude.{◌≡◌, ◌+◌, ◌*◌, ◌%◌, ◌^◌, ◌<◌, ◌≤◌, length, IsTrue, unwrap_or, IfSome, OnOk, OnErr, Some};
ghost use Rattle.std.specs.FinMap as map;
ghost use Rattle.ddc_base.specs.Limits.{address_end};
ghost use Rattle.paged_mem.specs.Memory.{Memory, IsWhole, IsFree, bytes_at, maps, reads, with_bytes, without, zeros};
ghost use Rattle.paged_mem.specs.Ram.{count_of, Stores, StoresNear, Writes, RunsFrom, shown_bytes};

use ddc_base::OutOfMemory;
use std::alloc::Global;

/// How many bytes a load or a store moves: 1, 2, 4 or 8.
#[derive(Clone, Copy, PartialEq, Eq)]
pub enum Width {
    W1,
    W2,
    W4,
    W8,
}

impl Width {
    /// How many bytes an access of this width has.
    pub fn count(self) -> u64
        ensures { result ≡ count_of self }
    {
        match self {
            Width::W1 => 1,
            Width::W2 => 2,
            Width::W4 => 4,
            Width::W8 => 8,
        }
    }
}

/// Why a write was refused. If both reasons hold, it is `Unmapped`.
#[derive(Clone, Copy, PartialEq, Eq)]
pub enum StoreRefusal {
    Unmapped,
    OutOfMemory,
}

/// The contents of a page: unmapped, 4,096 zero bytes, or the 4,096 bytes that are borrowed.
///
/// `Zero` and `Full` are both mapped pages. A page whose bytes are all zero may be shown either way.
#[derive(Clone, Copy, PartialEq, Eq)]
pub enum PageView<'a> {
    Unmapped,
    Zero,
    Full(&'a [u8]),
}

/// A guest's memory. Contracts see it as the finite map from its mapped addresses to bytes.
///
/// The mapped addresses are whole pages of 4,096 bytes below 2^38. Any alignment is accepted, numbers are
/// little-endian, and addresses do not wrap: an address past 2^64 - 1 is unmapped.
pub trait Ram: Sized + Drop {
    ghost bytes: { Self → Memory };

    /// Memory with nothing mapped. Keeps the allocator, and allocates nothing.
    fn empty(alloc: Global) -> Self
        ensures { bytes result ≡ map.empty };

    /// The little-endian number at an address, zero-extended; `None` exactly if a byte of it is unmapped.
    fn load(&self, at: u64, width: Width) -> Option<u64>
        ensures value { result ≡ reads (bytes self.now) at (count_of width) }
        ensures fits { IfSome result (λ value. value < 2 ^ (8 * count_of width)) };

    /// Stores the low bytes of a number, little-endian. A refusal leaves the memory unchanged.
    fn store(&mut self, at: u64, width: Width, value: u64) -> Result<(), StoreRefusal>
        ensures { Stores (bytes self.old) at (count_of width) value result (bytes self.new) };

    /// The number at an address, if it is found without a search. `None` does not say that a byte is unmapped.
    fn load_near(&self, at: u64, width: Width) -> Option<u64>
        ensures value { IfSome result (λ value. reads (bytes self.now) at (count_of width) ≡ Some value) }
        ensures fits { IfSome result (λ value. value < 2 ^ (8 * count_of width)) };

    /// The four bytes at a multiple of 4, as `load_near` finds them. The memory may remember where it found them.
    fn fetch_near(&mut self, at: u64) -> Option<u64>
        requires { at % 4 ≡ 0 }
        ensures same { bytes self.new ≡ bytes self.old }
        ensures value { IfSome result (λ value. reads (bytes self.old) at 4 ≡ Some value) }
        ensures fits { IfSome result (λ value. value < 2 ^ 32) };

    /// Stores as `store` does and returns `true`, if that needs neither a search nor an allocation. Otherwise returns
    /// `false` and stores nothing.
    fn store_near(&mut self, at: u64, width: Width, value: u64) -> bool
        ensures { StoresNear (bytes self.old) at (count_of width) value result (bytes self.new) };

    /// Whether all `count` bytes from an address on are mapped; `true` if `count` is 0.
    fn mapped(&self, at: u64, count: u64) -> bool
        ensures { result ≡ maps (bytes self.now) at count };

    /// Fills `out` from an address on. Returns `false` and leaves `out` unchanged exactly if a byte is unmapped.
    fn read_into(&self, at: u64, out: &mut [u8]) -> bool
        ensures answer { result ≡ maps (bytes self.now) at (length out.old) }
        ensures moved { out.new ≡ unwrap_or (bytes_at (bytes self.now) at (length out.old)) out.old };

    /// Writes bytes from an address on, all or none. A refusal leaves the memory unchanged.
    fn write_from(&mut self, at: u64, source: &[u8]) -> Result<(), StoreRefusal>
        ensures { Writes (bytes self.old) at source.now result (bytes self.new) };

    /// Maps `pages` pages of zero bytes from the page at `first` on. Out of memory: the memory is unchanged.
    fn map_zero(&mut self, first: u64, pages: u64) -> Result<(), OutOfMemory>
        requires aligned { first % 4096 ≡ 0 }
        requires low { first + 4096 * pages ≤ address_end }
        requires free { IsFree (bytes self.old) first (4096 * pages) }
        ensures ok { OnOk result (bytes self.new ≡ with_bytes (bytes self.old) first (zeros (4096 * pages))) }
        ensures err { OnErr result (bytes self.new ≡ bytes self.old) };

    /// Unmaps `pages` mapped pages from the page at `first` on. Allocates nothing.
    fn unmap(&mut self, first: u64, pages: u64)
        requires aligned { first % 4096 ≡ 0 }
        requires present { IsTrue (maps (bytes self.old) first (4096 * pages)) }
        ensures { bytes self.new ≡ without (bytes self.old) first (4096 * pages) };

    /// The first maximal run of mapped pages that holds or follows `at`: the address of its first page and its number of pages.
    /// The run is clipped to begin at the page of `at`. `None` if there is no such run.
    fn run_from(&self, at: u64) -> Option<(u64, u64)>
        ensures { RunsFrom (bytes self.now) at result };

    /// The page at `first`: all its bytes, or that it is unmapped.
    fn page(&self, first: u64) -> PageView<'_>
        requires { first % 4096 ≡ 0 }
        ensures { shown_bytes result ≡ bytes_at (bytes self.now) first 4096 };

    ghost whole: { (ram : Self) → IsWhole (bytes ram) };
}
