//! Whether parts obey the rules of files.

ghost use Rattle.std.specs.Prelude.{◌≡◌, ◌+◌, ◌-◌, ◌≤◌, ◌==◌, ℕ, List, SomeIff, nat_le, map, length, sum_by, count_by, is_some};
ghost use Rattle.std.specs.List.{list_all, list_any};
ghost use Rattle.std.specs.Option.{option_copied};
ghost use Rattle.ddc_base.specs.Limits.{most_content, most_names, most_total};
ghost use Rattle.mem_files.specs.Lists.{listed, is_listed, is_used};
ghost use Rattle.mem_files.specs.World.{is_of};
ghost use Rattle.checkpoints.specs.FileParts.Inside.Judged.{content_size, stream_size, is_good_name, is_good_file, is_good_open_file, is_called, is_taken, have_own_names, in_range, are_joined};
ghost use Rattle.checkpoints.specs.FileParts.Inside.Views.{view_of};
ghost use Rattle.std.specs.Borrow.{Bor};

use ddc_base::limits::{FILE_NUMBER_END, MOST_CONTENT, MOST_DESCRIPTORS, MOST_NAMES, MOST_TOTAL};
use mem_files::{FileView, OpenFile, is_stripped_name};

/// Whether a file may have this name, or no name.
fn is_good_name(name: Option<&[u8]>) -> bool
    ensures { result ≡ is_good_name (option_copied name.entry) }
{
    match name {
        Some(name) => is_stripped_name(name),
        None => true,
    }
}

fn is_good_file(file: &FileView<'_>) -> bool
    ensures { result ≡ is_good_file (listed file.now) }
{
    file.number < FILE_NUMBER_END
        && is_good_name(file.name)
        && file.content.len() as u64 <= MOST_CONTENT
}

fn are_good_files(files: &[FileView<'_>]) -> bool
    ensures { result ≡ list_all (λ file. is_good_file (listed file)) files.now }
{
    files.iter().all(|file| is_good_file(file))
}

fn is_good_open_file(fd: u32, open_file: OpenFile) -> bool
    ensures { result ≡ is_good_open_file (fd, open_file) }
{
    if fd as usize >= MOST_DESCRIPTORS {
        return false;
    }
    match open_file {
        OpenFile::Input => fd == 0,
        OpenFile::Stream1 => fd == 1,
        OpenFile::Stream2 => fd == 2,
        OpenFile::File { file_offset, .. } => file_offset < 1 << 63,
    }
}

fn are_good_open_files(open_files: &[(u32, OpenFile)]) -> bool
    ensures { result ≡ list_all is_good_open_file open_files.now }
{
    open_files
        .iter()
        .all(|(fd, open_file)| is_good_open_file(*fd, *open_file))
}

fn are_good_streams(streams: &[&[u8]]) -> bool
    ensures { result ≡ list_all (λ stream. nat_le (length stream.now) most_content) streams.now }
{
    streams
        .iter()
        .all(|stream| stream.len() as u64 <= MOST_CONTENT)
}

/// Whether the number of names is within its limit.
fn are_few_names(files: &[FileView<'_>]) -> bool
    ensures { result ≡ nat_le (count_by (λ file. is_some file.name) files.now) most_names }
{
    let names = files.iter().filter(|file| file.name.is_some()).count();
    names <= MOST_NAMES
}

/// What is left of `most` bytes after all contents; `None` if they have more.
fn remaining_after_files(files: &[FileView<'_>], most: u64) -> Option<u64>
    ensures { SomeIff result (sum_by content_size files.now ≤ most) (most - sum_by content_size files.now) }
{
    let mut remaining = most;
    for file in files {
        let len = file.content.len() as u64;
        if len > remaining {
            return None;
        }
        remaining -= len;
    }
    Some(remaining)
}

fn remaining_after_streams(streams: &[&[u8]], most: u64) -> Option<u64>
    ensures { SomeIff result (sum_by stream_size streams.now ≤ most) (most - sum_by stream_size streams.now) }
{
    let mut remaining = most;
    for stream in streams {
        let len = stream.len() as u64;
        if len > remaining {
            return None;
        }
        remaining -= len;
    }
    Some(remaining)
}

/// Whether all bytes together are within their limit.
fn is_small(files: &[FileView<'_>], streams: &[&[u8]]) -> bool
    ensures { result ≡ nat_le (sum_by stream_size streams.now + sum_by content_size files.now) most_total }
{
    match remaining_after_streams(streams, MOST_TOTAL) {
        Some(remaining) => remaining_after_files(files, remaining).is_some(),
        None => false,
    }
}

/// Whether this is the name of a file.
fn is_called(name: &[u8], file: &FileView<'_>) -> bool
    ensures { result ≡ is_called name.now (listed file.now).name }
{
    match file.name {
        Some(other) => name == other,
        None => false,
    }
}

/// Whether one of these files has this name; `false` without a name.
fn is_taken(name: Option<&[u8]>, files: &[FileView<'_>]) -> bool
    ensures { result ≡ is_taken (option_copied name.entry) (map listed files.now) }
{
    match name {
        Some(name) => has_name(name, files),
        None => false,
    }
}

/// Whether one of these files has this name.
fn has_name(name: &[u8], files: &[FileView<'_>]) -> bool
    ensures { result ≡ list_any (λ file. is_called name.now (listed file).name) files.now }
{
    files.iter().any(|file| is_called(name, file))
}

/// Whether the names are distinct.
fn have_own_names(files: &[FileView<'_>]) -> bool
    ensures { result ≡ have_own_names (map listed files.now) }
{
    let mut remaining = files;
    while let [file, rest @ ..] = remaining {
        if is_taken(file.name, rest) {
            return false;
        }
        remaining = rest;
    }
    true
}

/// Whether a file with this number is among these.
fn is_number_listed(files: &[FileView<'_>], number: u32) -> bool
    ensures { result ≡ list_any (λ file. file.number == number) files.now }
{
    files.iter().any(|file| file.number == number)
}

/// Whether the file that a descriptor stands for is among these.
fn is_listed(files: &[FileView<'_>], open_file: OpenFile) -> bool
    ensures { result ≡ is_listed (map listed files.now) open_file }
{
    match open_file {
        OpenFile::Input => true,
        OpenFile::Stream1 => true,
        OpenFile::Stream2 => true,
        OpenFile::File { number, .. } => is_number_listed(files, number),
    }
}

/// Whether a descriptor stands for the file with this number.
fn is_of(number: u32, open_file: OpenFile) -> bool
    ensures { result ≡ is_of number open_file }
{
    match open_file {
        OpenFile::Input => false,
        OpenFile::Stream1 => false,
        OpenFile::Stream2 => false,
        OpenFile::File { number: held, .. } => held == number,
    }
}

/// Whether one of these descriptors stands for the file with this number.
fn is_open(open_files: &[(u32, OpenFile)], number: u32) -> bool
    ensures { result ≡ list_any (λ held. is_of number held.1) open_files.now }
{
    open_files
        .iter()
        .any(|(_, open_file)| is_of(number, *open_file))
}

/// Whether a file has a name or one of these descriptors.
fn is_used(open_files: &[(u32, OpenFile)], file: &FileView<'_>) -> bool
    ensures { result ≡ is_used open_files.now (listed file.now) }
{
    file.name.is_some() || is_open(open_files, file.number)
}

fn are_all_listed(files: &[FileView<'_>], open_files: &[(u32, OpenFile)]) -> bool
    ensures { result ≡ list_all (λ held. is_listed (map listed files.now) held.1) open_files.now }
{
    open_files
        .iter()
        .all(|(_, open_file)| is_listed(files, *open_file))
}

fn are_all_used(files: &[FileView<'_>], open_files: &[(u32, OpenFile)]) -> bool
    ensures { result ≡ list_all (λ file. is_used open_files.now (listed file)) files.now }
{
    files.iter().all(|file| is_used(open_files, file))
}

/// Whether counts and ranges are right.
#[tactic(auto, using(crate::proofs::FilePartsLemmas::Tests::all_map, crate::proofs::FilePartsLemmas::Tests::sum_map, crate::proofs::FilePartsLemmas::Tests::names_count), unfolding(crate::specs::FileParts::Inside::Judged::in_range))]
pub(crate) fn are_in_range(
    files: &[FileView<'_>],
    open_files: &[(u32, OpenFile)],
    streams: &[&[u8]],
) -> bool
    ensures { result ≡ in_range (view_of files.now open_files.now streams.now) }
{
    are_good_files(files)
        && are_good_open_files(open_files)
        && are_good_streams(streams)
        && are_few_names(files)
        && is_small(files, streams)
        && have_own_names(files)
}

/// Whether references are right.
#[tactic(auto, using(crate::proofs::FilePartsLemmas::Tests::all_map), unfolding(crate::specs::FileParts::Inside::Judged::are_joined))]
pub(crate) fn are_joined(files: &[FileView<'_>], open_files: &[(u32, OpenFile)]) -> bool
    ensures { (streams : List (Bor (List ℕ))) → result ≡ are_joined (view_of files.now open_files.now streams) }
{
    are_all_listed(files, open_files) && are_all_used(files, open_files)
}
