ghost use Rattle.std.specs.Prelude.{◌≡◌, ◌+◌, ◌^◌, ◌<◌, ◌≤◌, ◌++◌, take, drop, replicate, None, OnOk, OnErr};
ghost use Rattle.std.specs.Vec.{vec_len};
ghost use Rattle.std.specs.List.{range_with_len};

use crate::entries::Entry;
use std::alloc::AllocError;

/// Inserts `count` elements before the one at `at`, each equal to `value`.
pub fn open_gap<T: Copy>(
    list: &mut Vec<T>,
    at: usize,
    count: usize,
    value: T,
) -> Result<(), AllocError>
    requires within { at ≤ vec_len list.old }
    requires fits { vec_len list.old + count < 2 ^ 64 }
    ensures ok { OnOk result (list.new.items ≡ take at list.old.items ++ (replicate count value ++ drop at list.old.items)) }
    ensures err { OnErr result (list.new.items ≡ list.old.items) }
{
    let len = list.len();
    list.resize(len + count, value)?;
    list[at..].rotate_right(count);
    Ok(())
}

/// Removes `count` elements from the one at `at` on.
pub fn close_gap<T: Drop>(list: &mut Vec<T>, at: usize, count: usize)
    requires { at + count ≤ vec_len list.old }
    ensures { list.new.items ≡ take at list.old.items ++ drop (at + count) list.old.items }
{
    let len = list.len();
    list[at..].rotate_left(count);
    list.truncate(len - count);
}

/// Inserts `count` consecutive page numbers from `number` on before the one at `at`.
pub fn insert_numbers(
    pages: &mut Vec<u64>,
    at: usize,
    number: u64,
    count: usize,
) -> Result<(), AllocError>
    requires within { at ≤ vec_len pages.old }
    requires fits { vec_len pages.old + count < 2 ^ 64 }
    requires low { number + count < 2 ^ 64 }
    ensures ok { OnOk result (pages.new.items ≡ take at pages.old.items ++ (range_with_len number count ++ drop at pages.old.items)) }
    ensures err { OnErr result (pages.new.items ≡ pages.old.items) }
{
    open_gap(pages, at, count, 0)?;
    for i in 0..count {
        pages[at + i] = number + i as u64;
    }
    Ok(())
}

/// Appends `count` entries of pages without stored bytes.
fn add_entries(entries: &mut Vec<Entry>, count: usize) -> Result<(), AllocError>
    ensures ok { OnOk result (entries.new.items ≡ entries.old.items ++ replicate count None) }
    ensures err { OnErr result (entries.new.items ≡ entries.old.items) }
{
    let len = entries.len();
    for added in 0..count {
        if let Err(error) = entries.push(None) {
            entries.truncate(len);
            return Err(error.into());
        }
    }
    Ok(())
}

/// Inserts `count` entries of pages without stored bytes before the one at `at`.
pub fn open_entries(entries: &mut Vec<Entry>, at: usize, count: usize) -> Result<(), AllocError>
    requires { at ≤ vec_len entries.old }
    ensures ok { OnOk result (entries.new.items ≡ take at entries.old.items ++ (replicate count None ++ drop at entries.old.items)) }
    ensures err { OnErr result (entries.new.items ≡ entries.old.items) }
{
    add_entries(entries, count)?;
    entries[at..].rotate_right(count);
    Ok(())
}
