//! Runs and pages represent a memory, and a memory has one such list: laws about the definitions.

ghost use Rattle.std.specs.Prelude.{◌≡◌, ◌*◌, All, IsTrue, List, reverse};
ghost use Rattle.std.specs.FinMap as finite;
ghost use Rattle.paged_mem.specs.Memory.{Memory, IsWhole, maps};
ghost use Rattle.save_format.specs.declared.state_text.parts.Run.{Run};
ghost use Rattle.save_format.specs.StateText.StateText.{PageText};
ghost use Rattle.checkpoints.specs.MemoryParts.Canonical.{runs_of, with_pages, mapped_runs, ArePlaced, AreShown, pages_of};

/// The runs and pages of a memory represent that memory.
pub fn runs_and_pages_say_the_memory()
    ensures { (m : Memory) → IsWhole m → with_pages (mapped_runs finite.empty (runs_of m)) (pages_of m) ≡ m }
{}

/// Mapping runs makes a memory with these runs.
pub fn mapped_runs_are_the_runs()
    ensures { (runs : List Run) → ArePlaced 0 runs → runs_of (mapped_runs finite.empty runs) ≡ runs }
{}

/// Writing pages into a memory keeps its runs, since pages within it map nothing.
pub fn filling_keeps_the_runs()
    ensures { (runs : List Run) (pages : List PageText) → ArePlaced 0 runs → AreShown 0 pages
        → All (λ page. IsTrue (maps (mapped_runs finite.empty runs) (4096 * page.number) 4096)) pages
        → runs_of (with_pages (mapped_runs finite.empty runs) pages) ≡ runs }
{}

/// Writing pages into mapped runs makes a memory with these pages.
pub fn filled_pages_are_the_pages()
    ensures { (runs : List Run) (pages : List PageText) → ArePlaced 0 runs → AreShown 0 pages
        → pages_of (with_pages (mapped_runs finite.empty runs) pages) ≡ pages }
{}

/// The order in which pages are written does not matter.
pub fn order_of_pages_is_free()
    ensures { (m : Memory) (pages : List PageText) → AreShown 0 pages → with_pages m (reverse pages) ≡ with_pages m pages }
{}
