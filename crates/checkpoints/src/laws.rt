//! Laws about the definitions.

ghost use Rattle.std.specs.Prelude.{◌+◌, ◌*◌, ◌^◌, ◌<◌, ◌≤◌, ℕ, All, IsTrue, List, length, sum_by};
ghost use Rattle.ddc_base.specs.Limits.{most_pages, page_number_end};
ghost use Rattle.guest_run.specs.State.{GuestState};
ghost use Rattle.guest_run.specs.Valid.{Fits, IsValid};
ghost use Rattle.paged_mem.specs.Memory.{maps};
ghost use Rattle.save_format.specs.PatchText.Encoded.{text_of_patch};
ghost use Rattle.save_format.specs.StateText.StateText.{StateText};
ghost use Rattle.save_format.specs.StateText.Encoded.{IsStateText, IsTextOfState};
ghost use Rattle.checkpoints.specs.Checkpoint.{mapped_of, memory_of, state_of};

/// A limit on the pages of runs follows from the other rules, so that counting them first refuses nothing more.
pub fn few_pages()
    ensures { (s : StateText) → IsStateText s → All (λ run. run.first + run.pages ≤ page_number_end) s.runs
        → All (λ page. IsTrue (maps (mapped_of s) (4096 * page.number) 4096)) s.pages → Fits (memory_of s) s.heap
        → sum_by (λ run. run.pages) s.runs ≤ most_pages }
{}

/// Every text of a valid state has at most 1,892,769,097 bytes.
pub fn texts_are_short()
    ensures { (g : GuestState) (text : List ℕ) → IsValid g → IsTextOfState (state_of g) text → length text ≤ 1_892_769_097 }
{}

/// The patch of a valid state against another one has at most 1,894,752,591 bytes.
pub fn patches_are_short()
    ensures { (base g : GuestState) → IsValid base → base.steps < 2 ^ 64 → IsValid g → g.steps < 2 ^ 64
        → length (text_of_patch (state_of base) (state_of g)) ≤ 1_894_752_591 }
{}
