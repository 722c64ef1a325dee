//! One file in memory.

ghost use Rattle.std.specs.Prelude.{◌≡◌, ◌+◌, ◌-◌, ◌<◌, ◌≤◌, ◌^◌, IfOk, OnOk, OnErr, IsSome, Some, None, is_some, length, unwrap_or, take, drop, replicate, ◌++◌, []};
ghost use Rattle.std.specs.Option.{option_copied};
ghost use Rattle.mem_files.specs.Calls.{written_over};

use crate::FileView;
use std::alloc::{AllocError, Global};
use std::mem;

/// A file: its name, unless that was removed, and its bytes.
#[derive(Drop)]
pub struct Stored {
    name: Option<Vec<u8>>,
    content: Vec<u8>,
}

ghost use Rattle.mem_files.specs.Inside.Stored.{name_in, content_in};

impl Stored {
    pub fn new(alloc: Global, name: Option<&[u8]>, content: &[u8]) -> Result<Stored, AllocError>
        ensures name { IfOk result (λ file. name_in (Some file) ≡ option_copied name.entry) }
        ensures content { IfOk result (λ file. content_in (Some file) ≡ Some content.now) }
    {
        let name = match name {
            Some(name) => Some(Vec::from_slice(alloc, name)?),
            None => None,
        };
        let content = Vec::from_slice(alloc, content)?;
        Ok(Stored { name, content })
    }

    pub fn content(&self) -> &[u8]
        ensures { content_in (Some self.now) ≡ Some result.now }
    {
        self.content.as_slice()
    }

    pub fn view(&self, number: u32) -> FileView<'_>
        ensures number { result.number ≡ number }
        ensures name { option_copied result.name ≡ name_in (Some self.now) }
        ensures content { Some result.content.now ≡ content_in (Some self.now) }
    {
        let name = match &self.name {
            Some(name) => Some(name.as_slice()),
            None => None,
        };
        let content = self.content.as_slice();
        FileView {
            number,
            name,
            content,
        }
    }

    pub fn is_named(&self) -> bool
        ensures { result ≡ is_some (name_in (Some self.now)) }
    {
        self.name.is_some()
    }
}

/// How many bytes a file has; 0 if there is no file.
pub fn len(cell: &Option<Stored>) -> usize
    ensures { result ≡ length (unwrap_or (content_in cell.now) []) }
{
    match cell {
        Some(file) => file.content.len(),
        None => 0,
    }
}

/// Removes the name.
pub fn unname(cell: &mut Option<Stored>)
    ensures name { name_in cell.new ≡ None }
    ensures content { content_in cell.new ≡ content_in cell.old }
{
    if let Some(file) = cell {
        file.name = None;
    }
}

/// Removes the bytes.
pub fn empty(cell: &mut Option<Stored>)
    requires { IsSome cell.old }
    ensures name { name_in cell.new ≡ name_in cell.old }
    ensures content { content_in cell.new ≡ Some [] }
{
    if let Some(file) = cell {
        file.content.clear();
    }
}

/// Writes bytes at an offset, and fills a gap before it with zeros. Returns how many bytes were added.
pub fn overwrite(
    cell: &mut Option<Stored>,
    offset: usize,
    bytes: &[u8],
) -> Result<usize, AllocError>
    requires held { IsSome cell.old }
    requires small { offset + length bytes.now < 2 ^ 63 }
    ensures name { name_in cell.new ≡ name_in cell.old }
    ensures ok { OnOk result (content_in cell.new ≡ Some (written_over (unwrap_or (content_in cell.old) []) offset bytes.now)) }
    ensures added { IfOk result (λ added. added ≡ offset + length bytes.now - length (unwrap_or (content_in cell.old) [])) }
    ensures err { OnErr result (content_in cell.new ≡ content_in cell.old) }
    ensures short { OnErr result (length (unwrap_or (content_in cell.old) []) < offset + length bytes.now) }
{
    let before = len(cell);
    if let Some(file) = cell {
        put(&mut file.content, offset, bytes)?;
    }
    Ok(len(cell) - before)
}

/// Writes bytes at an offset, and fills a gap before it with zeros.
fn put(content: &mut Vec<u8>, offset: usize, bytes: &[u8]) -> Result<(), AllocError>
    requires { offset + length bytes.now < 2 ^ 63 }
    ensures ok { OnOk result (content.new.items ≡ written_over content.old.items offset bytes.now) }
    ensures err { OnErr result (content.new.items ≡ content.old.items) }
    ensures short { OnErr result (length content.old.items < offset + length bytes.now) }
{
    grow(content, offset + bytes.len())?;
    copy_at(content, offset, bytes);
    Ok(())
}

/// Appends zeros up to a length.
fn grow(content: &mut Vec<u8>, end: usize) -> Result<(), AllocError>
    ensures ok { OnOk result (content.new.items ≡ content.old.items ++ replicate (end - length content.old.items) 0) }
    ensures err { OnErr result (content.new.items ≡ content.old.items) }
    ensures short { OnErr result (length content.old.items < end) }
{
    if content.len() < end {
        content.resize(end, 0)?;
    }
    Ok(())
}

/// Copies bytes to an offset.
fn copy_at(content: &mut [u8], offset: usize, bytes: &[u8])
    requires { offset + length bytes.now ≤ length content.old }
    ensures { content.new ≡ take offset content.old ++ bytes.now ++ drop (offset + length bytes.now) content.old }
{
    content[offset..offset + bytes.len()].copy_from_slice(bytes);
}

impl Stored {
    /// A file of this name that takes ownership of the bytes.
    pub fn moved(alloc: Global, name: &[u8], content: Vec<u8>) -> Result<Stored, AllocError>
        ensures name { IfOk result (λ file. name_in (Some file) ≡ Some name.now) }
        ensures content { IfOk result (λ file. content_in (Some file) ≡ Some content.items) }
    {
        let name = Some(Vec::from_slice(alloc, name)?);
        Ok(Stored { name, content })
    }
}

/// Takes the bytes of a file; the file stays, empty.
pub fn take(alloc: Global, cell: &mut Option<Stored>) -> Vec<u8>
    requires { IsSome cell.old }
    ensures name { name_in cell.new ≡ name_in cell.old }
    ensures content { content_in cell.new ≡ Some [] }
    ensures value { Some result.items ≡ content_in cell.old }
{
    match cell {
        Some(file) => mem::replace(&mut file.content, Vec::new(alloc)),
        None => Vec::new(alloc),
    }
}
