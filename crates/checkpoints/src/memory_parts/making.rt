//! A memory made of runs and pages.

ghost use Rattle.std.specs.Prelude.{◌≡◌, ◌↔◌, ◌*◌, ℕ, All, IfOk, IsTrue, OnErr, OnOk, length, map, reverse, take};
ghost use Rattle.paged_mem.specs.Memory.{maps};
ghost use Rattle.std.specs.FinMap as finite;
ghost use Rattle.save_format.specs.StateText.Seen.{page_view};
ghost use Rattle.checkpoints.specs.MemoryParts.Canonical.{with_pages, mapped_runs, ArePlaced};

use ddc_base::OutOfMemory;
use paged_mem::{PAGE, Ram, StoreRefusal};
use save_format::state_text::{Page, Run};
use std::alloc::Global;

/// A memory with the pages of these runs, filled with zeros. Error: out of memory.
pub fn map_runs<R: Ram>(alloc: Global, runs: &[Run]) -> Result<R, OutOfMemory>
    requires { ArePlaced 0 runs.now }
    ensures { IfOk result (λ ram. R.bytes ram ≡ mapped_runs finite.empty runs.now) }
{
    let mut ram = R::empty(alloc);
    let mut least = 0;
    for run in runs {
        let first = u64::from(run.first);
        let pages = u64::from(run.pages);
        ram.map_zero(PAGE * first, pages)?;
        least = first + pages + 1;
    }
    Ok(ram)
}

/// Whether all these pages are mapped.
pub fn are_mapped<R: Ram>(ram: &R, pages: &[Page<'_>]) -> bool
    ensures { IsTrue result ↔ All (λ page. IsTrue (maps (R.bytes ram.now) (4096 * page.number) 4096)) pages.now }
{
    pages
        .iter()
        .all(|page| ram.mapped(PAGE * u64::from(page.number), PAGE))
}

/// Writes the bytes of pages, which must be mapped. Error: out of memory; then some first pages are written whole, and no part of
/// another.
pub fn fill_pages<R: Ram>(ram: &mut R, pages: &[Page<'_>]) -> Result<(), OutOfMemory>
    requires mapped { All (λ page. IsTrue (maps (R.bytes ram.old) (4096 * page.number) 4096)) pages.now }
    requires full { All (λ page. length page.bytes.now ≡ 4096) pages.now }
    // If two of them are the same page, the later one counts.
    ensures ok { OnOk result (R.bytes ram.new ≡ with_pages (R.bytes ram.old) (reverse (map page_view pages.now))) }
    ensures err { OnErr result ((count : ℕ) × (R.bytes ram.new ≡ with_pages (R.bytes ram.old) (reverse (map page_view (take count pages.now))))) }
{
    for page in pages {
        match ram.write_from(PAGE * u64::from(page.number), page.bytes) {
            Ok(()) => {}
            Err(StoreRefusal::OutOfMemory) => return Err(OutOfMemory),
            Err(StoreRefusal::Unmapped) => unreachable!(),
        }
    }
    Ok(())
}
