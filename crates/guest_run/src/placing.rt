//! The memory of a starting program.

ghost use Rattle.elf_load.specs.Segments.{first_page, paged_size, AreApart, IsPlaced};
ghost use Rattle.ddc_base.specs.Limits.{stack_size};
ghost use Rattle.guest_run.specs.Placed.{with_segment, with_segments, with_stack};
ghost use Rattle.guest_run.specs.Stack.{stack_end};
ghost use Rattle.paged_mem.specs.Memory.{with_bytes, maps, IsFree};
ghost use Rattle.std.specs.FinMap as map;
ghost use Rattle.std.specs.Prelude.{◌≡◌, ◌+◌, ◌-◌, ◌*◌, ◌<◌, ◌≤◌, length, true, All, AllPairs, OnOk};

use crate::stack;
use ddc_base::OutOfMemory;
use elf_load::Segment;
use paged_mem::{PAGE, Ram, StoreRefusal};

/// The number of the stack's pages.
const STACK_PAGES: u64 = 2_048;

/// Maps the pages of every segment and writes the segments' bytes there. Error: out of memory.
pub(crate) fn place_segments<R: Ram>(
    ram: &mut R,
    program: &[u8],
    segments: &[Segment],
) -> Result<(), OutOfMemory>
    requires nothing { R.bytes ram.old ≡ map.empty }
    requires placed { All (IsPlaced (length program.now)) segments.now }
    requires apart { AllPairs AreApart segments.now }
    ensures { OnOk result (R.bytes ram.new ≡ with_segments program.now segments.now) }
{
    for segment in segments {
        place_segment(ram, program, segment)?;
    }
    Ok(())
}

/// Maps the pages of a segment and writes its bytes there. Error: out of memory.
#[tactic(auto, using(crate::proofs::SegmentAddresses::placed_low))]
fn place_segment<R: Ram>(ram: &mut R, program: &[u8], segment: &Segment) -> Result<(), OutOfMemory>
    requires placed { IsPlaced (length program.now) segment.now }
    requires free { IsFree (R.bytes ram.old) (first_page segment.now) (paged_size segment.now) }
    ensures { OnOk result (R.bytes ram.new ≡ with_segment program.now (R.bytes ram.old) segment.now) }
{
    let first = segment.address / PAGE;
    let end = (segment.address + segment.memory_size + (PAGE - 1)) / PAGE;
    ram.map_zero(first * PAGE, end - first)?;
    let offset = segment.offset as usize;
    let bytes = &program[offset..offset + segment.file_size as usize];
    write_mapped(ram, segment.address, bytes)
}

/// Maps the stack's pages and writes its first bytes there. Error: out of memory.
pub(crate) fn place_stack<R: Ram>(ram: &mut R, at: u64, bytes: &[u8]) -> Result<(), OutOfMemory>
    requires free { IsFree (R.bytes ram.old) (stack_end - stack_size) stack_size }
    requires low { stack_end - stack_size ≤ at }
    requires high { at + length bytes.now ≤ stack_end }
    ensures { OnOk result (R.bytes ram.new ≡ with_stack (R.bytes ram.old) at bytes.now) }
{
    ram.map_zero(stack::END - STACK_PAGES * PAGE, STACK_PAGES)?;
    write_mapped(ram, at, bytes)
}

/// Writes bytes at addresses that are all mapped. Error: out of memory.
fn write_mapped<R: Ram>(ram: &mut R, at: u64, bytes: &[u8]) -> Result<(), OutOfMemory>
    requires { maps (R.bytes ram.old) at (length bytes.now) ≡ true }
    ensures { OnOk result (R.bytes ram.new ≡ with_bytes (R.bytes ram.old) at bytes.now) }
{
    match ram.write_from(at, bytes) {
        Ok(()) => Ok(()),
        Err(StoreRefusal::Unmapped) => unreachable!(),
        Err(StoreRefusal::OutOfMemory) => Err(OutOfMemory),
    }
}
