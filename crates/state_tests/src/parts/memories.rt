//! Memories as runs and pages.

ghost use Rattle.std.specs.Prelude.{IsTrue};
ghost use Rattle.checkpoints.specs.MemoryParts.Canonical.{ArePlaced};

use crate::parts::run_at;
use checkpoints::memory_parts::*;
use ddc_base::OutOfMemory;
use paged_mem::*;
use save_format::state_text::{Page, Run};
use std::alloc::Global;
use std::process::Abort;
use std::test::Fail;

fn are_runs(found: &[Run]) -> bool
    ensures { IsTrue result → ArePlaced 0 found.now }
{
    match found {
        [first, second] => *first == run_at(2, 3) && *second == run_at(6, 1),
        _ => false,
    }
}

fn are_pages(listed: &[Page<'_>]) -> bool {
    match listed {
        [page] => page.number == 4 && page.bytes.len() == 4096,
        _ => false,
    }
}

/// Whether a memory of the two runs has the byte after its page is filled.
fn is_filled<R: Ram>(again: &mut R, listed: &[Page<'_>]) -> bool {
    are_mapped(again, listed)
        && listed.iter().all(|page| page.bytes.len() == 4096)
        && fill_pages(again, listed).is_ok()
        && again.load(4 * 4096 + 5, Width::W1) == Some(120)
        && again.load(6 * 4096, Width::W1) == Some(0)
        && again.load(5 * 4096, Width::W1).is_none()
}

/// Whether a memory is made again of its runs and pages.
fn is_made_again<R: Ram>(
    alloc: Global,
    found: &[Run],
    listed: &[Page<'_>],
) -> Result<bool, OutOfMemory> {
    if !are_runs(found) {
        return Ok(false);
    }
    let mut again: R = map_runs(alloc, found)?;
    Ok(is_filled(&mut again, listed))
}

fn is_listed<R: Ram>(alloc: Global, ram: &R) -> Result<bool, OutOfMemory> {
    let found = runs(alloc, ram)?;
    let listed = pages(alloc, ram)?;
    let made_again = is_made_again::<R>(alloc, &found, &listed)?;
    Ok(are_pages(&listed) && made_again)
}

/// Two runs, one page of which has a byte that is not 0.
fn lists<R: Ram>(alloc: Global) -> Result<bool, OutOfMemory> {
    let runs_of_two = vec![in alloc; run_at(2, 3), run_at(6, 1)]?;
    let mut ram: R = map_runs(alloc, &runs_of_two)?;
    Ok(ram.write_from(4 * 4096 + 5, b"x").is_ok() && is_listed(alloc, &ram)?)
}

#[test]
fn lists_memories(rt: HostRuntime) -> Result<(), Fail> {
    assert!(rt; lists::<PagedRam>(rt.alloc())?);
    assert!(rt; lists::<FlatRam>(rt.alloc())?);
    Ok(())
}
