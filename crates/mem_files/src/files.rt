//! The files of a guest, and what each call returns.

ghost use Rattle.std.specs.Prelude.{◌≡◌, ◌⊎◌, IsTrue, IfOk, IsOkAnd, MatchResult, OnErr, OnOk, Ok, Err, is_some, length, option_map, unwrap_or, []};
ghost use Rattle.std.specs.Option.{option_copied};
ghost use Rattle.std.specs.FinMap as map;
ghost use Rattle.mem_files.specs.Names.{is_stripped_name};
ghost use Rattle.mem_files.specs.Calls.{first_world, placed, opened, closed, sought, ready, skipped, fits, write_offset, written, removed, content_at, stream, name_after, drained};
ghost use Rattle.mem_files.specs.Lists.{listed, file_from, open_file_from, lists_from, world_of, AreOrdered, AreInRange, AreJoined};
ghost use Rattle.mem_files.specs.Replies.{Replies, Places, Grows};
ghost use Rattle.mem_files.specs.Sound.{IsSound};

use crate::table::FileTable;
use crate::{FileRefusal, FileView, OpenFile, PlaceRefusal};
use ddc_base::{OutOfMemory, show_bytes};
use std::alloc::Global;
use std::marker::Model;

/// The files of a guest in memory: names, contents, descriptors and two collected streams, within the limits.
///
/// Contracts see them as a `World`. Looking up a name or a number takes at most logarithmic time. A read or a write of
/// n bytes takes time n; appending takes constant time per byte on average.
#[derive(Drop)]
pub struct Files {
    table: FileTable,
}

impl Model for Files {
    ghost use Rattle.mem_files.specs.World.{World};
    ghost use Rattle.mem_files.specs.Inside.Codes.{world_code};

    ghost Value = { World };

    ghost coded = { world_code };

    ghost use Rattle.mem_files.specs.Sound.{IsSound};

    ghost view = { λ files. files.table };

    ghost invariant = { λ files. IsSound files.table };
}

impl Files {
    /// The files of a new guest: none, with the empty input at descriptor 0 and the streams at 1 and 2.
    pub fn new(alloc: Global) -> Result<Files, OutOfMemory>
        ensures { IfOk result (λ files. files ≡ first_world) }
    {
        let table = FileTable::new(alloc)?;
        Ok(Files { table })
    }

    /// The files that these lists represent.
    pub fn from_lists(
        alloc: Global,
        files: &[FileView<'_>],
        open_files: &[(u32, OpenFile)],
        stream1: &[u8],
        stream2: &[u8],
    ) -> Result<Files, OutOfMemory>
        requires ordered { AreOrdered (lists_from files.now open_files.now stream1.now stream2.now) }
        requires within { AreInRange (lists_from files.now open_files.now stream1.now stream2.now) }
        requires joined { AreJoined (lists_from files.now open_files.now stream1.now stream2.now) }
        ensures { IfOk result (λ made. made ≡ world_of (lists_from files.now open_files.now stream1.now stream2.now)) }
    {
        let table = FileTable::of_lists(alloc, files, open_files, stream1, stream2)?;
        Ok(Files { table })
    }

    /// Adds a named file. Removes `./` from the start of the name first. Errors: `BadName`, `Twice`, `Full`, `OutOfMemory`.
    pub fn place(&mut self, name: &[u8], content: &[u8]) -> Result<(), PlaceRefusal>
        ensures { Places result self.old self.new (placed self.old name.now content.now) }
    {
        self.table.place(name, content)
    }

    /// Opens a file by its name, as openat(2) does with these flags. Returns the new descriptor.
    /// Errors, which change nothing: `EINVAL`, `EMFILE`, `EEXIST`, `ENOENT`, `ENOSPC`.
    pub fn open_name(&mut self, name: &[u8], flags: u32) -> Result<u32, FileRefusal>
        requires { IsTrue (is_stripped_name name.now) }
        ensures { Replies result self.old self.new (opened self.old name.now flags) }
    {
        self.table.open_name(name, flags)
    }

    /// Closes a descriptor. Error: `EBADF`.
    pub fn close(&mut self, fd: u32) -> Result<(), u16>
        ensures { closed self.old fd ≡ (result, self.new) }
    {
        self.table.close(fd)
    }

    /// Moves a file offset, as lseek(2) does. Returns the new file offset. Errors: `EBADF`, `ESPIPE`, `EINVAL`.
    pub fn seek(&mut self, fd: u32, offset: i64, whence: u32) -> Result<u64, u16>
        ensures { sought self.old fd offset whence ≡ (result, self.new) }
    {
        self.table.seek(fd, offset, whence)
    }

    /// The bytes that a read of at most `count` bytes returns. Error: `EBADF`.
    pub fn ready(&self, fd: u32, count: u64) -> Result<&[u8], u16>
        ensures answer { MatchResult result (λ bytes. ready self.now fd count ≡ Ok bytes.now) (λ errno. ready self.now fd count ≡ Err errno) }
        // A repeated read returns as many bytes, as `skip` requires.
        ensures skippable { IfOk result (λ bytes. IsOkAnd (ready self.now fd (length bytes.now)) (λ again. length again ≡ length bytes.now)) }
    {
        self.table.ready(fd, count)
    }

    /// Ends a read of `count` bytes: the file offset increases by `count`.
    pub fn skip(&mut self, fd: u32, count: u64)
        requires { IsOkAnd (ready self.old fd count) (λ bytes. length bytes ≡ count) }
        ensures { self.new ≡ skipped self.old fd count }
    {
        self.table.skip(fd, count);
    }

    /// Whether bytes may be written to this descriptor.
    pub fn is_writable(&self, fd: u32) -> bool
        ensures { result ≡ is_some (write_offset self.now (map.get self.now.open_files fd)) }
    {
        self.table.write_offset(fd).is_some()
    }

    /// Whether a write of `count` bytes is allowed. Errors: `EBADF`, `EFBIG`, `ENOSPC`.
    pub fn fits(&self, fd: u32, count: u64) -> Result<(), u16>
        ensures { result ≡ fits self.now fd count }
    {
        self.table.fits(fd, count)
    }

    /// Writes bytes that fit: at the file offset, at the end of a file that appends, or at the end of a stream. Out of
    /// memory: nothing changes.
    pub fn write(&mut self, fd: u32, bytes: &[u8]) -> Result<(), OutOfMemory>
        requires { fits self.old fd (length bytes.now) ≡ Ok tt }
        ensures ok { OnOk result (written self.old fd bytes.now ≡ (Ok tt, self.new)) }
        ensures err { OnErr result (self.new ≡ self.old) }
        // Only a write that ends past the existing bytes can run out of memory.
        ensures memory { OnErr result (Grows self.old fd (length bytes.now)) }
    {
        self.table.write(fd, bytes)
    }

    /// Removes a name; an open descriptor keeps the bytes. Error: `ENOENT`.
    pub fn remove(&mut self, name: &[u8]) -> Result<(), u16>
        requires { IsTrue (is_stripped_name name.now) }
        ensures { removed self.old name.now ≡ (result, self.new) }
    {
        self.table.remove(name)
    }

    /// Whether a file has this name.
    pub fn exists(&self, name: &[u8]) -> bool
        requires { IsTrue (is_stripped_name name.now) }
        ensures { result ≡ map.contains_key self.now.names name.now }
    {
        self.table.number(name).is_some()
    }

    /// The bytes of the file of this name.
    pub fn content(&self, name: &[u8]) -> Option<&[u8]>
        requires { IsTrue (is_stripped_name name.now) }
        ensures { option_copied result ≡ content_at self.now name.now }
    {
        self.table.named_content(name)
    }

    /// The bytes that were written to a stream, 1 or 2.
    pub fn stream(&self, which: u8) -> &[u8]
        requires { (which ≡ 1) ⊎ (which ≡ 2) }
        ensures bytes { result.now ≡ stream self.now which }
        // The files are sound (docs/reference/files.md, "Rules").
        ensures sound { IsSound self.now }
    {
        self.table.stream(which)
    }

    /// Proves that the files are sound (`IsSound`).
    pub fn show_sound(&self)
        ensures { IsSound self.now }
    {
        let _ = &self.table;
    }

    /// The least name greater than the given one, byte by byte; without a given name, the least of all.
    pub fn name_after(&self, name: Option<&[u8]>) -> Option<&[u8]>
        ensures { option_copied result ≡ name_after self.now (option_copied name.entry) }
    {
        self.table.name_after(name)
    }

    /// The file with the least number that is not below the given one.
    pub fn file_from(&self, number: u32) -> Option<FileView<'_>>
        ensures { option_map listed result ≡ file_from self.now number }
    {
        self.table.file_from(number)
    }

    /// The least descriptor that is not below the given one, with its open file.
    pub fn open_file_from(&self, fd: u32) -> Option<(u32, OpenFile)>
        ensures { result ≡ open_file_from self.now fd }
    {
        self.table.open_file_from(fd)
    }

    /// Whether this is a descriptor.
    pub fn is_descriptor(&self, fd: u32) -> bool
        ensures { result ≡ map.contains_key self.now.open_files fd }
    {
        self.table.open_file(fd).is_some()
    }
}

impl Files {
    /// Adds a named file as `place` does, but takes ownership of the bytes.
    pub fn place_moved(&mut self, name: &[u8], content: Vec<u8>) -> Result<(), PlaceRefusal>
        ensures { Places result self.old self.new (placed self.old name.now content.items) }
    {
        show_bytes(content.as_slice());
        self.table.place_moved(name, content)
    }

    /// Takes the bytes of the file of this name; the file stays, empty. Returns no bytes if no file has the name.
    pub fn take_content(&mut self, alloc: Global, name: &[u8]) -> Vec<u8>
        requires { IsTrue (is_stripped_name name.now) }
        ensures value { result.items ≡ unwrap_or (content_at self.old name.now) [] }
        ensures left { self.new ≡ drained self.old name.now }
    {
        self.table.take_content(alloc, name)
    }
}
