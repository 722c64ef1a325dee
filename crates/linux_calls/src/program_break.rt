//! The heap's calls.

ghost use Rattle.std.specs.Prelude.{◌≡◌, ◌≤◌, ◌<◌, ◌+◌, ◌-◌, ◌%◌, true, OnOk, OnErr};
ghost use Rattle.ddc_base.specs.Limits.{address_end};
ghost use Rattle.paged_mem.specs.Memory.{IsFree, maps, page_up};
ghost use Rattle.linux_calls.specs.HeapOf.{IsHeapOf, resized};
ghost use Rattle.linux_calls.specs.Inside.Parts.{IsBreakAnswer};

use crate::{CallEnd, Heap};
use ddc_base::OutOfMemory;
use paged_mem::{PAGE, Ram};

/// An address rounded up to whole pages.
fn page_up(address: u64) -> u64
    requires { address ≤ address_end }
    ensures { result ≡ page_up address }
{
    address.next_multiple_of(PAGE)
}

/// Maps the pages from `old` to `new`, or unmaps those from `new` to `old`.
fn resize<R: Ram>(ram: &mut R, old: u64, new: u64) -> Result<(), OutOfMemory>
    requires aligned { old % 4096 ≡ 0 }
    requires aligned_too { new % 4096 ≡ 0 }
    requires low { new ≤ address_end }
    requires free { old < new → IsFree (R.bytes ram.old) old (new - old) }
    requires present { new ≤ old → maps (R.bytes ram.old) new (old - new) ≡ true }
    ensures ok { OnOk result (R.bytes ram.new ≡ resized (R.bytes ram.old) old new) }
    ensures err { OnErr result (R.bytes ram.new ≡ R.bytes ram.old) }
    ensures grows { OnErr result (old < new) }
{
    if old < new {
        ram.map_zero(old, (new - old) / PAGE)
    } else {
        ram.unmap(new, (old - new) / PAGE);
        Ok(())
    }
}

/// brk(to): moves the break to `to` if the heap may end there. Returns the break after the call.
pub fn brk<R: Ram>(ram: &mut R, heap: &mut Heap, to: u64) -> CallEnd
    requires { IsHeapOf (R.bytes ram.old) heap.old }
    ensures answer { IsBreakAnswer (R.bytes ram.old) heap.old to (R.bytes ram.new) heap.new result }
    ensures kept { IsHeapOf (R.bytes ram.new) heap.new }
{
    if to < heap.first || to > heap.first + heap.limit {
        return CallEnd::Back(heap.now);
    }
    match resize(ram, page_up(heap.now), page_up(to)) {
        Ok(()) => {
            heap.now = to;
            CallEnd::Back(to)
        }
        Err(OutOfMemory) => CallEnd::OutOfMemory,
    }
}
