//! Consequences of the definitions of a memory. Each law is the contract of a function that does nothing.

ghost use Rattle.std.specs.Prelude.{◌≡◌, ℕ, ◌+◌, ◌/◌, ◌%◌, ◌^◌, ◌<◌, ◌≤◌, ◌⊎◌, true, false, Some};
ghost use Rattle.std.specs.FinMap as map;
ghost use Rattle.paged_mem.specs.Memory.{Memory, IsWhole, IsFree, maps, page_size, reads, writes, with_bytes, without, zeros};

use crate::PAGE;

/// The size of a page in the code equals the size in the definitions.
pub fn page_is_the_one_written()
    ensures { PAGE ≡ page_size }
{}

/// A store changes only the bytes of its access.
pub fn store_changes_its_bytes_alone()
    ensures { (m : Memory) (at count value address : ℕ)
        → (address < at) ⊎ (at + count ≤ address)
        → map.get (writes m at count value) address ≡ map.get m address }
{}

/// A load of the bytes that a store wrote returns the low bytes of the stored number.
pub fn load_after_store()
    ensures { (m : Memory) (at count value : ℕ)
        → reads (writes m at count value) at count ≡ Some (value % 256 ^ count) }
{}

/// Nothing wraps: an access that passes 2^64 - 1 is unmapped.
pub fn nothing_wraps()
    ensures { (m : Memory) → IsWhole m → (at count : ℕ) → 0 < count → 2 ^ 64 < at + count
        → maps m at count ≡ false }
{}

/// Newly mapped pages are mapped, and each of their bytes reads 0.
pub fn mapped_pages_read_zero()
    ensures mapped { (m : Memory) (first count : ℕ) → maps (with_bytes m first (zeros count)) first count ≡ true }
    ensures zero { (m : Memory) (first count address : ℕ) → first ≤ address → address < first + count
        → map.get (with_bytes m first (zeros count)) address ≡ Some 0 }
{}

/// Mapping pages and then unmapping them leaves the memory unchanged.
pub fn unmap_after_map()
    ensures { (m : Memory) (first count : ℕ) → IsFree m first count
        → without (with_bytes m first (zeros count)) first count ≡ m }
{}
