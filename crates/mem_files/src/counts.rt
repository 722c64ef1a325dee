//! How many descriptors stand for each file number. Past the end of the list, the count is 0.

ghost use Rattle.std.specs.Prelude.{◌≡◌, ◌+◌, ◌<◌, ◌≤◌, ◌^◌, ℕ, OnOk, OnErr, Some, slice_index_or};
ghost use Rattle.mem_files.specs.Inside.Counts.{opens_in};

use crate::OpenFile;
use std::alloc::AllocError;

/// How many descriptors stand for a file.
pub fn count_of(counts: &[u32], number: u32) -> u32
    ensures { result ≡ slice_index_or counts.now number 0 }
{
    match counts.get(number as usize) {
        Some(count) => *count,
        None => 0,
    }
}

/// Counts one more descriptor.
pub fn count(counts: &mut Vec<u32>, open_file: OpenFile) -> Result<(), AllocError>
    requires { (number : ℕ) → slice_index_or counts.old.items number 0 < 2 ^ 31 }
    ensures ok { OnOk result ((number : ℕ) → slice_index_or counts.new.items number 0
        ≡ slice_index_or counts.old.items number 0 + opens_in number (Some open_file)) }
    ensures err { OnErr result (counts.new.items ≡ counts.old.items) }
{
    if let OpenFile::File { number, .. } = open_file {
        let number = number as usize;
        if counts.len() <= number {
            counts.resize(number + 1, 0)?;
        }
        counts[number] += 1;
    }
    Ok(())
}

/// Counts one descriptor less.
pub fn uncount(counts: &mut Vec<u32>, cell: Option<OpenFile>)
    requires { (number : ℕ) → opens_in number cell ≤ slice_index_or counts.old.items number 0 }
    ensures { (number : ℕ) → slice_index_or counts.new.items number 0 + opens_in number cell ≡ slice_index_or counts.old.items number 0 }
{
    if let Some(OpenFile::File { number, .. }) = cell {
        counts[number as usize] -= 1;
    }
}
