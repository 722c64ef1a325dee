//! The memory of a parsed text.

ghost use Rattle.std.specs.Prelude.{◌≡◌, ◌+◌, ◌-◌, ◌≤◌, ◌↔◌, All, IsTrue, MatchResult, SomeIff, sum_by};
ghost use Rattle.ddc_base.specs.Limits.{most_pages, page_number_end};
ghost use Rattle.save_format.specs.StateText.Mappable.{AreMappable};
ghost use Rattle.save_format.specs.StateText.Encoded.{IsStateText};
ghost use Rattle.save_format.specs.StateText.Seen.{state_view};
ghost use Rattle.checkpoints.specs.Checkpoint.{IsInMemory, memory_of};
ghost use Rattle.checkpoints.specs.Inside.Parts.{RefusesMemory};

use crate::file_parts::RestoreRefusal;
use crate::memory_parts::{are_mapped, fill_pages, map_runs};
use ddc_base::limits::{MOST_PAGES, PAGE_NUMBER_END};
use paged_mem::Ram;
use save_format::state_text::{Run, StateParts};
use std::alloc::Global;

/// The memory of a parsed text. Its runs are checked before anything is mapped, so that a short text asks for little memory.
pub fn memory_of<R: Ram>(alloc: Global, parts: &StateParts<'_>) -> Result<R, RestoreRefusal>
    requires { IsStateText (state_view parts.now) }
    ensures { MatchResult result
        (λ ram. IsInMemory (state_view parts.now) × (R.bytes ram ≡ memory_of (state_view parts.now)))
        (RefusesMemory (state_view parts.now)) }
{
    if !are_mappable(&parts.runs) {
        return Err(RestoreRefusal::Range);
    }
    let mut ram: R = map_runs(alloc, &parts.runs)?;
    if !are_mapped(&ram, &parts.pages) {
        return Err(RestoreRefusal::Range);
    }
    fill_pages(&mut ram, &parts.pages)?;
    Ok(ram)
}

/// Whether all runs end within memory and have at most 329,728 pages together.
pub fn are_mappable(runs: &[Run]) -> bool
    ensures { IsTrue result ↔ AreMappable runs.now }
{
    are_within(runs) && are_few(runs)
}

/// Whether all runs end within memory.
fn are_within(runs: &[Run]) -> bool
    ensures { IsTrue result ↔ All (λ run. run.first + run.pages ≤ page_number_end) runs.now }
{
    runs.iter().all(|run| u64::from(run.first) + u64::from(run.pages) <= PAGE_NUMBER_END)
}

/// Whether the runs have at most 329,728 pages together.
fn are_few(runs: &[Run]) -> bool
    ensures { IsTrue result ↔ (sum_by (λ run. run.pages) runs.now ≤ most_pages) }
{
    remaining_after(runs, MOST_PAGES).is_some()
}

/// What is left of `most` pages after those of the runs; `None` if they have more.
fn remaining_after(runs: &[Run], most: u64) -> Option<u64>
    ensures { SomeIff result (sum_by (λ run. run.pages) runs.now ≤ most) (most - sum_by (λ run. run.pages) runs.now) }
{
    let mut remaining = most;
    for run in runs {
        let pages = u64::from(run.pages);
        if pages > remaining {
            return None;
        }
        remaining -= pages;
    }
    Some(remaining)
}
