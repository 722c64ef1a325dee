//! Names, files, descriptors and streams in memory. Each call here is one change of the `World`.

ghost use Rattle.std.specs.Prelude.{◌≡◌, ◌+◌, ◌-◌, ◌<◌, ◌^◌, IfOk, OnOk, OnErr, IsSome, Some, None, option_map, ℕ, ◌≤◌, List, length, false, find, map as map_list, [], ◌++◌};
ghost use Rattle.std.specs.Option.{option_copied};
ghost use Rattle.std.specs.FinMap as map;
ghost use Rattle.mem_files.specs.World.{content_of, total, is_named, is_open, lowest_unused};
ghost use Rattle.mem_files.specs.Calls.{bare_world, first_world, with_file, written_over, stream, name_after, is_after};
ghost use Rattle.mem_files.specs.Lists.{listed, file_from, open_file_from};
ghost use Rattle.mem_files.specs.Inside.Keys.{begins};
ghost use Rattle.std.specs.List.{All};
ghost use Rattle.mem_files.specs.Inside.Counts.{opens_in};

use crate::cells::{cell, full_from, reach};
use crate::counts::{count, count_of, uncount};
use crate::names::{NameKey, key};
use crate::numbers::Numbers;
use crate::stored::{self, Stored};
use crate::{FileView, OpenFile};
use ddc_base::limits::{MOST_DESCRIPTORS, MOST_NAME, MOST_NAMES};
use std::alloc::{AllocError, Global};
use std::collections::BTreeMap;
use std::marker::Model;
use std::ops::Bound;

/// There are at most 2^10 descriptors.
const OPEN_FILES_HEIGHT: u32 = 10;
/// Each file has a name or a descriptor, so there are fewer than 2^13 files.
const FILES_HEIGHT: u32 = 13;

/// The files by number, the descriptors by number, and the numbers by name.
#[derive(Drop)]
pub struct FileTable {
    names: BTreeMap<NameKey, u32>,
    files: Vec<Option<Stored>>,
    used_files: Numbers,
    open_files: Vec<Option<OpenFile>>,
    used_open_files: Numbers,
    open_file_count: usize,
    /// How many descriptors stand for each file number.
    open_counts: Vec<u32>,
    stream1: Vec<u8>,
    stream2: Vec<u8>,
    total: u64,
    alloc: Global,
}

impl Model for FileTable {
    ghost use Rattle.mem_files.specs.World.{World};
    ghost use Rattle.mem_files.specs.Inside.Codes.{world_code};

    ghost Value = { World };

    ghost coded = { world_code };

    ghost use Rattle.mem_files.specs.Inside.FileTable.{parts_of, world_of, IsConsistent};

    ghost view = { λ table. world_of (parts_of table) };

    ghost invariant = { λ table. IsConsistent (parts_of table) };
}

impl FileTable {
    /// No files and no descriptors.
    pub fn bare(alloc: Global) -> Result<FileTable, AllocError>
        ensures { IfOk result (λ table. table ≡ bare_world) }
    {
        Ok(FileTable {
            names: BTreeMap::new(alloc),
            files: Vec::new(alloc),
            used_files: Numbers::new(alloc, FILES_HEIGHT)?,
            open_files: Vec::new(alloc),
            used_open_files: Numbers::new(alloc, OPEN_FILES_HEIGHT)?,
            open_file_count: 0,
            open_counts: Vec::new(alloc),
            stream1: Vec::new(alloc),
            stream2: Vec::new(alloc),
            total: 0,
            alloc,
        })
    }

    /// No files, and the first three descriptors.
    pub fn new(alloc: Global) -> Result<FileTable, AllocError>
        ensures { IfOk result (λ table. table ≡ first_world) }
    {
        let mut table = FileTable::bare(alloc)?;
        table.put_open_file(2, OpenFile::Stream2)?;
        table.put_open_file(1, OpenFile::Stream1)?;
        table.put_open_file(0, OpenFile::Input)?;
        Ok(table)
    }

    /// The open file of a descriptor.
    pub fn open_file(&self, fd: u32) -> Option<OpenFile>
        ensures { result ≡ map.get self.now.open_files fd }
    {
        cell(&self.open_files, fd).copied()
    }

    /// The number of the file of this name.
    pub fn number(&self, name: &[u8]) -> Option<u32>
        ensures { result ≡ map.get self.now.names name.now }
    {
        let held = self.names.get(&key(name)).copied();
        // A longer name is not in the tree, even if its first 255 bytes are.
        if name.len() > MOST_NAME { None } else { held }
    }

    /// The bytes of a file; none if there is no such file.
    pub fn content(&self, number: u32) -> &[u8]
        ensures { result.now ≡ content_of self.now number }
    {
        match cell(&self.files, number) {
            Some(file) => file.content(),
            None => &[],
        }
    }

    /// The bytes of the stream 1 or 2.
    pub fn stream(&self, which: u8) -> &[u8]
        ensures { result.now ≡ stream self.now which }
    {
        if which == 1 {
            self.stream1.as_slice()
        } else {
            self.stream2.as_slice()
        }
    }

    /// The number of bytes of all files and streams.
    pub fn total(&self) -> u64
        ensures { result ≡ total self.now }
    {
        self.total
    }

    /// How many names there are.
    pub fn name_count(&self) -> usize
        ensures { result ≡ map.len self.now.names }
    {
        self.names.len()
    }

    /// How many descriptors there are.
    pub fn open_file_count(&self) -> usize
        ensures { result ≡ map.len self.now.open_files }
    {
        self.open_file_count
    }

    /// Whether a file has a name.
    pub fn is_named(&self, number: u32) -> bool
        ensures { result ≡ is_named self.now number }
    {
        match cell(&self.files, number) {
            Some(file) => file.is_named(),
            None => false,
        }
    }

    /// Whether a descriptor stands for a file.
    pub fn is_open(&self, number: u32) -> bool
        ensures { result ≡ is_open self.now number }
    {
        count_of(&self.open_counts, number) != 0
    }

    /// The lowest unused descriptor.
    pub fn free_open_file(&self) -> u32
        ensures { result ≡ lowest_unused self.now.open_files }
    {
        self.used_open_files.lowest_unused() as u32
    }

    /// The lowest unused file number.
    pub fn free_number(&self) -> u32
        ensures { result ≡ lowest_unused self.now.files }
    {
        self.used_files.lowest_unused() as u32
    }

    /// Gives an open file the lowest unused descriptor, and returns the descriptor.
    pub fn add_open_file(&mut self, open_file: OpenFile) -> Result<u32, AllocError>
        requires { map.len self.old.open_files < MOST_DESCRIPTORS }
        ensures ok { IfOk result (λ fd. (fd ≡ lowest_unused self.old.open_files)
            × (self.new ≡ record self.old { open_files = map.insert self.old.open_files fd open_file })) }
        ensures err { OnErr result (self.new ≡ self.old) }
    {
        let fd = self.free_open_file();
        self.put_open_file(fd, open_file)?;
        Ok(fd)
    }

    /// Gives an open file this unused descriptor.
    pub fn put_open_file(&mut self, fd: u32, open_file: OpenFile) -> Result<(), AllocError>
        requires unused { map.get self.old.open_files fd ≡ None }
        requires low { fd < MOST_DESCRIPTORS }
        ensures ok { OnOk result (self.new ≡ record self.old { open_files = map.insert self.old.open_files fd open_file }) }
        ensures err { OnErr result (self.new ≡ self.old) }
    {
        reach(&mut self.open_files, fd as usize)?;
        count(&mut self.open_counts, open_file)?;
        self.open_files[fd as usize] = Some(open_file);
        self.used_open_files.insert(fd);
        self.open_file_count += 1;
        Ok(())
    }

    /// Replaces the open file of a descriptor by one for the same file.
    pub fn set_open_file(&mut self, fd: u32, open_file: OpenFile)
        requires held { IsSome (map.get self.old.open_files fd) }
        requires same_file { (number : ℕ) → opens_in number (map.get self.old.open_files fd) ≡ opens_in number (Some open_file) }
        ensures { self.new ≡ record self.old { open_files = map.insert self.old.open_files fd open_file } }
    {
        self.open_files[fd as usize] = Some(open_file);
    }

    /// Removes a descriptor.
    pub fn clear_open_file(&mut self, fd: u32)
        requires { IsSome (map.get self.old.open_files fd) }
        ensures { self.new ≡ record self.old { open_files = map.remove self.old.open_files fd } }
    {
        uncount(&mut self.open_counts, self.open_files[fd as usize]);
        self.open_files[fd as usize] = None;
        self.used_open_files.remove(fd);
        self.open_file_count -= 1;
    }

    /// Adds a file under the lowest unused number.
    pub fn add_file(&mut self, name: &[u8], content: &[u8]) -> Result<(), AllocError>
        requires absent { map.get self.old.names name.now ≡ None }
        requires short { length name.now ≤ MOST_NAME }
        requires few { lowest_unused self.old.files < MOST_NAMES + MOST_DESCRIPTORS }
        requires small { total self.old + length content.now < 2 ^ 64 }
        ensures ok { OnOk result (self.new ≡ with_file self.old name.now content.now) }
        ensures err { OnErr result (self.new ≡ self.old) }
    {
        let number = self.free_number();
        self.put_named(number, name, content)
    }

    /// Adds a named file under an unused number.
    pub fn put_named(&mut self, number: u32, name: &[u8], content: &[u8]) -> Result<(), AllocError>
        requires absent { map.get self.old.names name.now ≡ None }
        requires short { length name.now ≤ MOST_NAME }
        requires unused { map.get self.old.files number ≡ None }
        requires low { number < MOST_NAMES + MOST_DESCRIPTORS }
        requires small { total self.old + length content.now < 2 ^ 64 }
        ensures ok { OnOk result (self.new ≡ record self.old {
          names = map.insert self.old.names name.now number;
          files = map.insert self.old.files number content.now;
        }) }
        ensures err { OnErr result (self.new ≡ self.old) }
    {
        let file = Stored::new(self.alloc, Some(name), content)?;
        reach(&mut self.files, number as usize)?;
        self.names.insert(key(name), number)?;
        self.files[number as usize] = Some(file);
        self.used_files.insert(number);
        self.total += content.len() as u64;
        Ok(())
    }

    /// Adds a file without a name under an unused number.
    pub fn put_unnamed(&mut self, number: u32, content: &[u8]) -> Result<(), AllocError>
        requires unused { map.get self.old.files number ≡ None }
        requires low { number < MOST_NAMES + MOST_DESCRIPTORS }
        requires small { total self.old + length content.now < 2 ^ 64 }
        ensures ok { OnOk result (self.new ≡ record self.old { files = map.insert self.old.files number content.now }) }
        ensures err { OnErr result (self.new ≡ self.old) }
    {
        let file = Stored::new(self.alloc, None, content)?;
        reach(&mut self.files, number as usize)?;
        self.files[number as usize] = Some(file);
        self.used_files.insert(number);
        self.total += content.len() as u64;
        Ok(())
    }

    /// Removes a name from its file.
    pub fn unname(&mut self, name: &[u8], number: u32)
        requires { map.get self.old.names name.now ≡ Some number }
        ensures { self.new ≡ record self.old { names = map.remove self.old.names name.now } }
    {
        self.names.remove(&key(name));
        stored::unname(&mut self.files[number as usize]);
    }

    /// Drops a file without a name.
    pub fn drop_file(&mut self, number: u32)
        requires held { IsSome (map.get self.old.files number) }
        requires unnamed { is_named self.old number ≡ false }
        ensures { self.new ≡ record self.old { files = map.remove self.old.files number } }
    {
        self.total -= stored::len(&self.files[number as usize]) as u64;
        self.files[number as usize] = None;
        self.used_files.remove(number);
    }

    /// Removes the bytes of a file.
    pub fn empty(&mut self, number: u32)
        requires { IsSome (map.get self.old.files number) }
        ensures { self.new ≡ record self.old { files = map.insert self.old.files number [] } }
    {
        self.total -= stored::len(&self.files[number as usize]) as u64;
        stored::empty(&mut self.files[number as usize]);
    }

    /// Writes bytes at an offset of a file, and fills a gap before it with zeros.
    pub fn overwrite(&mut self, number: u32, offset: usize, bytes: &[u8]) -> Result<(), AllocError>
        requires held { IsSome (map.get self.old.files number) }
        requires small { offset + length bytes.now < 2 ^ 63 }
        requires capacity { total self.old + (offset + length bytes.now - length (content_of self.old number)) < 2 ^ 64 }
        ensures ok { OnOk result (self.new ≡ record self.old { files = map.insert self.old.files number (written_over (content_of self.old number) offset bytes.now) }) }
        ensures err { OnErr result (self.new ≡ self.old) }
        ensures short { OnErr result (length (content_of self.old number) < offset + length bytes.now) }
    {
        let added = stored::overwrite(&mut self.files[number as usize], offset, bytes)?;
        self.total += added as u64;
        Ok(())
    }

    /// Appends bytes to stream 1.
    pub fn extend_stream1(&mut self, bytes: &[u8]) -> Result<(), AllocError>
        requires { total self.old + length bytes.now < 2 ^ 64 }
        ensures ok { OnOk result (self.new ≡ record self.old { stream1 = self.old.stream1 ++ bytes.now }) }
        ensures err { OnErr result (self.new ≡ self.old) }
    {
        self.stream1.extend_from_slice(bytes)?;
        self.total += bytes.len() as u64;
        Ok(())
    }

    /// Appends bytes to stream 2.
    pub fn extend_stream2(&mut self, bytes: &[u8]) -> Result<(), AllocError>
        requires { total self.old + length bytes.now < 2 ^ 64 }
        ensures ok { OnOk result (self.new ≡ record self.old { stream2 = self.old.stream2 ++ bytes.now }) }
        ensures err { OnErr result (self.new ≡ self.old) }
    {
        self.stream2.extend_from_slice(bytes)?;
        self.total += bytes.len() as u64;
        Ok(())
    }

    /// The file with the least number that is not below the given one.
    pub fn file_from(&self, number: u32) -> Option<FileView<'_>>
        ensures { option_map listed result ≡ file_from self.now number }
    {
        match full_from(&self.files, number) {
            Some((number, file)) => Some(file.view(number)),
            None => None,
        }
    }

    /// The least descriptor that is not below the given one, with its open file.
    pub fn open_file_from(&self, fd: u32) -> Option<(u32, OpenFile)>
        ensures { result ≡ open_file_from self.now fd }
    {
        match full_from(&self.open_files, fd) {
            Some((fd, open_file)) => Some((fd, *open_file)),
            None => None,
        }
    }

    /// The least name greater than the given one; without a given name, the least of all.
    pub fn name_after(&self, name: Option<&[u8]>) -> Option<&[u8]>
        ensures { option_copied result ≡ name_after self.now (option_copied name.entry) }
    {
        next_name(&self.names, name)
    }
}

/// The first name after the given one; without a given name, the first of all.
fn next_name<'a>(names: &'a BTreeMap<NameKey, u32>, name: Option<&[u8]>) -> Option<&'a [u8]>
    requires { All (λ e. length e.0.items ≤ MOST_NAME) names.now.entries }
    ensures { option_copied result ≡ find (is_after (option_copied name.entry)) (map_list (λ e. e.0.items) names.now.entries) }
{
    match names.range((start_after(name), Bound::Unbounded)).next() {
        Some((held, _)) => Some(held.as_slice()),
        None => None,
    }
}

/// The lower bound of the names after the given one; without a given name, no bound.
fn start_after(name: Option<&[u8]>) -> Bound<NameKey>
    ensures { (held : List ℕ) → length held ≤ MOST_NAME → begins result held ≡ is_after (option_copied name.entry) held }
{
    match name {
        Some(name) => Bound::Excluded(key(name)),
        None => Bound::Unbounded,
    }
}

impl FileTable {
    /// Adds a file under the lowest unused number, and takes ownership of the bytes.
    pub fn add_moved(&mut self, name: &[u8], content: Vec<u8>) -> Result<(), AllocError>
        requires absent { map.get self.old.names name.now ≡ None }
        requires short { length name.now ≤ MOST_NAME }
        requires few { lowest_unused self.old.files < MOST_NAMES + MOST_DESCRIPTORS }
        requires small { total self.old + length content.items < 2 ^ 64 }
        ensures ok { OnOk result (self.new ≡ with_file self.old name.now content.items) }
        ensures err { OnErr result (self.new ≡ self.old) }
    {
        let number = self.free_number();
        self.put_moved(number, name, content)
    }

    /// Adds a file under an unused number, and takes ownership of the bytes.
    fn put_moved(&mut self, number: u32, name: &[u8], content: Vec<u8>) -> Result<(), AllocError>
        requires absent { map.get self.old.names name.now ≡ None }
        requires short { length name.now ≤ MOST_NAME }
        requires unused { map.get self.old.files number ≡ None }
        requires low { number < MOST_NAMES + MOST_DESCRIPTORS }
        requires small { total self.old + length content.items < 2 ^ 64 }
        ensures ok { OnOk result (self.new ≡ record self.old {
          names = map.insert self.old.names name.now number;
          files = map.insert self.old.files number content.items;
        }) }
        ensures err { OnErr result (self.new ≡ self.old) }
    {
        let added = byte_count(&content);
        let file = Stored::moved(self.alloc, name, content)?;
        reach(&mut self.files, number as usize)?;
        self.names.insert(key(name), number)?;
        self.files[number as usize] = Some(file);
        self.used_files.insert(number);
        self.total += added;
        Ok(())
    }

    /// Takes the bytes of a file; the file stays, empty.
    pub fn take(&mut self, number: u32) -> Vec<u8>
        requires { IsSome (map.get self.old.files number) }
        ensures value { result.items ≡ content_of self.old number }
        ensures left { self.new ≡ record self.old { files = map.insert self.old.files number [] } }
    {
        self.total -= stored::len(&self.files[number as usize]) as u64;
        stored::take(self.alloc, &mut self.files[number as usize])
    }
}

/// How many bytes there are.
fn byte_count(content: &Vec<u8>) -> u64
    ensures { result ≡ length content.now.items }
{
    content.len() as u64
}
