//! Guests made of their parts.

use crate::parts::run_at;
use checkpoints::memory_parts::map_runs;
use guest_run::*;
use linux_calls::Heap;
use mem_files::Files;
use rv64_machine::Hart;
use std::alloc::Global;
use std::process::Abort;
use std::test::Fail;

/// A heap of one page at most, of which nothing is mapped.
const HEAP: Heap = Heap {
    first: 131_072,
    now: 131_072,
    limit: 4096,
};

/// Heaps that do not fit a memory of the pages 16 and 17 and of the stack.
static WRONG: [Heap; 4] = [
    Heap {
        first: 131_072,
        now: 131_073,
        limit: 4096,
    },
    Heap {
        first: 65_536,
        now: 65_536,
        limit: 4096,
    },
    Heap {
        first: 131_073,
        now: 131_073,
        limit: 4096,
    },
    Heap {
        first: 131_072,
        now: 131_072,
        limit: 1_073_741_825,
    },
];

/// Whether none of the wrong heaps fits.
fn fits_none(hart: &Hart<RunRam>) -> bool {
    WRONG.iter().all(|heap| !fit_together(hart, heap))
}

/// Whether a guest of these parts stands after its seven steps where the hart stands.
fn is_restored(alloc: Global, hart: Hart<RunRam>, files: Files) -> bool {
    if !fit_together(&hart, &HEAP) {
        return false;
    }
    let guest = Guest::restore(alloc, hart, files, HEAP, 7);
    guest.steps() == 7 && guest.pc() == 65_536
}

#[test]
fn makes_a_guest(rt: HostRuntime) -> Result<(), Fail> {
    let rows = vec![in rt.alloc(); run_at(16, 2), run_at(67_106_816, 2048)]?;
    let ram: RunRam = map_runs(rt.alloc(), &rows)?;
    let hart = Hart::new(ram, 65_536);
    assert!(rt; fits_none(&hart));
    assert!(rt; is_restored(rt.alloc(), hart, Files::new(rt.alloc())?));
    Ok(())
}
