//! Lists of cells, some of which hold a value.

ghost use Rattle.std.specs.Prelude.{◌≡◌, ◌+◌, ◌^◌, ◌<◌, ◌≤◌, max, MatchOption, OnOk, Option, None, length, slice_index_or};
ghost use Rattle.std.specs.Option.{option_copied};
ghost use Rattle.mem_files.specs.Inside.Cells.{AreEmpty, IsFirstFull, SameCells};

use std::alloc::AllocError;

/// The value in a cell; `None` past the last cell.
pub fn cell<X>(cells: &[Option<X>], at: u32) -> Option<&X>
    ensures { option_copied result ≡ slice_index_or cells.now at None }
{
    cells.get(at as usize)?.as_ref()
}

/// The first cell from an index on that holds a value, with its index.
pub fn full_from<X>(cells: &[Option<X>], from: u32) -> Option<(u32, &X)>
    requires { length cells.now ≤ 2 ^ 32 }
    ensures { MatchOption result (AreEmpty cells.now from (length cells.now)) (λ found. IsFirstFull cells.now from found.0 found.1.now) }
{
    for at in from as usize..cells.len() {
        if let Some(value) = &cells[at] {
            return Some((at as u32, value));
        }
    }
    None
}

/// Appends empty cells until there is one at the index.
pub fn reach<X: Drop>(cells: &mut Vec<Option<X>>, at: usize) -> Result<(), AllocError>
    ensures same { SameCells cells.old.items cells.new.items }
    ensures most { length cells.new.items ≤ max (length cells.old.items) (at + 1) }
    ensures reached { OnOk result (at < length cells.new.items) }
{
    while cells.len() <= at {
        cells.push(None)?;
    }
    Ok(())
}
