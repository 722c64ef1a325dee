//! The calls on a table. The first rule that applies decides.

ghost use Rattle.std.specs.Prelude.{◌≡◌, ◌+◌, ◌-◌, ◌<◌, ◌≤◌, ◌≢◌, ◌^◌, pos, ◌+ℤ◌, IfOk, IsOkAnd, IsSome, OnOk, OnErr, MatchResult, Ok, Err, Some, None, length, take, drop, [], unwrap_or};
ghost use Rattle.std.specs.Option.{option_copied};
ghost use Rattle.std.specs.FinMap as map;
ghost use Rattle.mem_files.specs.Calls.{placed, is_full, opened, opened_at, access_of, has, closed, released, without_unused, sought, seek_base, as_file_offset, ready, skipped, fits, write_offset, write_file_offset, filled, written, removed, content_at, drained};
ghost use Rattle.mem_files.specs.Replies.{Replies, Places, Grows};
ghost use Rattle.mem_files.specs.Sound.{IsSound};
ghost use Rattle.mem_files.specs.Inside.Kept.{HasFile};

use crate::names::{is_file_name, strip};
use crate::table::FileTable;
use crate::{
    Access, EBADF, EEXIST, EFBIG, EINVAL, EMFILE, ENOENT, ENOSPC, ESPIPE, FileRefusal, Mode,
    O_ACCMODE, O_APPEND, O_CREAT, O_EXCL, O_RDONLY, O_TRUNC, O_WRONLY, OpenFile, PlaceRefusal,
    SEEK_CUR, SEEK_END, SEEK_SET,
};
use ddc_base::OutOfMemory;
use ddc_base::limits::{MOST_CONTENT, MOST_DESCRIPTORS, MOST_NAME, MOST_NAMES, MOST_TOTAL};
use std::alloc::{AllocError, Global};

/// Whether this bit of the flags is set.
fn has(flags: u32, bit: u32) -> bool
    ensures { result ≡ has flags bit }
{
    flags & bit != 0
}

/// How a file is used, from the flags of openat(2).
fn access_of(flags: u32) -> Access
    ensures { result ≡ access_of flags }
{
    let mode = match flags & O_ACCMODE {
        O_RDONLY => Mode::Read,
        O_WRONLY => Mode::Write,
        _ => Mode::ReadWrite,
    };
    let appends = has(flags, O_APPEND);
    Access { mode, appends }
}

/// The base that an offset is added to: 0, the file offset or the length; `None` for an unknown `whence`.
fn seek_base(whence: u32, file_offset: u64, len: u64) -> Option<u64>
    ensures { result ≡ seek_base whence file_offset len }
{
    match whence {
        SEEK_SET => Some(0),
        SEEK_CUR => Some(file_offset),
        SEEK_END => Some(len),
        _ => None,
    }
}

/// A base plus an offset; `None` outside 0 to 2^63 - 1.
fn moved_file_offset(base: u64, offset: i64) -> Option<u64>
    requires { base < 2 ^ 63 }
    ensures { result ≡ as_file_offset (pos base +ℤ offset) }
{
    let to = (base as i64).checked_add(offset)?;
    if to < 0 { None } else { Some(to as u64) }
}

impl FileTable {
    pub fn place(&mut self, name: &[u8], content: &[u8]) -> Result<(), PlaceRefusal>
        requires { IsSound self.old }
        ensures { Places result self.old self.new (placed self.old name.now content.now) }
    {
        let name = strip(name);
        if !is_file_name(name) {
            return Err(PlaceRefusal::BadName);
        }
        if self.number(name).is_some() {
            return Err(PlaceRefusal::Twice);
        }
        if self.is_full(content.len() as u64) {
            return Err(PlaceRefusal::Full);
        }
        self.add_file(name, content)?;
        Ok(())
    }

    pub fn place_moved(&mut self, name: &[u8], content: Vec<u8>) -> Result<(), PlaceRefusal>
        requires { IsSound self.old }
        ensures { Places result self.old self.new (placed self.old name.now content.items) }
    {
        let name = strip(name);
        if !is_file_name(name) {
            return Err(PlaceRefusal::BadName);
        }
        if self.number(name).is_some() {
            return Err(PlaceRefusal::Twice);
        }
        if self.is_full(content.len() as u64) {
            return Err(PlaceRefusal::Full);
        }
        self.add_moved(name, content)?;
        Ok(())
    }

    /// Whether a new file of `len` bytes would exceed a limit.
    fn is_full(&self, len: u64) -> bool
        requires { IsSound self.now }
        ensures { result ≡ is_full self.now len }
    {
        len > MOST_CONTENT || self.total() + len > MOST_TOTAL || self.name_count() >= MOST_NAMES
    }

    pub fn open_name(&mut self, name: &[u8], flags: u32) -> Result<u32, FileRefusal>
        requires sound { IsSound self.old }
        requires short { length name.now ≤ MOST_NAME }
        ensures { Replies result self.old self.new (opened self.old name.now flags) }
    {
        if flags & O_ACCMODE == O_ACCMODE {
            return Err(FileRefusal::Errno(EINVAL));
        }
        if self.open_file_count() >= MOST_DESCRIPTORS {
            return Err(FileRefusal::Errno(EMFILE));
        }
        match self.number(name) {
            Some(number) => self.open_present(number, flags),
            None => self.open_absent(name, flags),
        }
    }

    fn open_present(&mut self, number: u32, flags: u32) -> Result<u32, FileRefusal>
        requires held { IsSome (map.get self.old.files number) }
        requires capacity { map.len self.old.open_files < MOST_DESCRIPTORS }
        ensures { Replies result self.old self.new (opened_at self.old [] flags (Some number)) }
    {
        if has(flags, O_CREAT) && has(flags, O_EXCL) {
            return Err(FileRefusal::Errno(EEXIST));
        }
        let fd = self.add_open_file(OpenFile::File {
            number,
            file_offset: 0,
            access: access_of(flags),
        })?;
        if has(flags, O_TRUNC) {
            self.empty(number);
        }
        Ok(fd)
    }

    fn open_absent(&mut self, name: &[u8], flags: u32) -> Result<u32, FileRefusal>
        requires sound { IsSound self.old }
        requires absent { map.get self.old.names name.now ≡ None }
        requires short { length name.now ≤ MOST_NAME }
        requires capacity { map.len self.old.open_files < MOST_DESCRIPTORS }
        ensures { Replies result self.old self.new (opened_at self.old name.now flags None) }
    {
        if !has(flags, O_CREAT) {
            return Err(FileRefusal::Errno(ENOENT));
        }
        if self.name_count() >= MOST_NAMES {
            return Err(FileRefusal::Errno(ENOSPC));
        }
        let number = self.free_number();
        let fd = self.add_open_file(OpenFile::File {
            number,
            file_offset: 0,
            access: access_of(flags),
        })?;
        if let Err(error) = self.add_file(name, &[]) {
            self.clear_open_file(fd);
            return Err(error.into());
        }
        Ok(fd)
    }

    pub fn close(&mut self, fd: u32) -> Result<(), u16>
        requires { IsSound self.old }
        ensures { closed self.old fd ≡ (result, self.new) }
    {
        let Some(open_file) = self.open_file(fd) else {
            return Err(EBADF);
        };
        self.clear_open_file(fd);
        self.release(open_file);
        Ok(())
    }

    /// Drops the file that a closed descriptor stood for, if no name and no other descriptor has it.
    fn release(&mut self, open_file: OpenFile)
        requires { HasFile self.old open_file }
        ensures { self.new ≡ released self.old open_file }
    {
        if let OpenFile::File { number, .. } = open_file {
            self.drop_unused(number);
        }
    }

    /// Drops a file if it has neither a name nor a descriptor.
    fn drop_unused(&mut self, number: u32)
        requires { IsSome (map.get self.old.files number) }
        ensures { self.new ≡ without_unused self.old number }
    {
        if !self.is_named(number) && !self.is_open(number) {
            self.drop_file(number);
        }
    }

    pub fn remove(&mut self, name: &[u8]) -> Result<(), u16>
        requires { IsSound self.old }
        ensures { removed self.old name.now ≡ (result, self.new) }
    {
        let Some(number) = self.number(name) else {
            return Err(ENOENT);
        };
        self.unname(name, number);
        self.drop_unused(number);
        Ok(())
    }

    pub fn seek(&mut self, fd: u32, offset: i64, whence: u32) -> Result<u64, u16>
        requires { IsSound self.old }
        ensures { sought self.old fd offset whence ≡ (result, self.new) }
    {
        match self.open_file(fd) {
            None => Err(EBADF),
            Some(OpenFile::Input) => Err(ESPIPE),
            Some(OpenFile::Stream1) => Err(ESPIPE),
            Some(OpenFile::Stream2) => Err(ESPIPE),
            Some(
                OpenFile::File {
                    number,
                    file_offset,
                    access,
                },
            ) => {
                let len = self.content(number).len() as u64;
                let Some(base) = seek_base(whence, file_offset, len) else {
                    return Err(EINVAL);
                };
                let Some(file_offset) = moved_file_offset(base, offset) else {
                    return Err(EINVAL);
                };
                self.set_open_file(
                    fd,
                    OpenFile::File {
                        number,
                        file_offset,
                        access,
                    },
                );
                Ok(file_offset)
            }
        }
    }

    pub fn ready(&self, fd: u32, count: u64) -> Result<&[u8], u16>
        requires { IsSound self.now }
        ensures answer { MatchResult result (λ bytes. ready self.now fd count ≡ Ok bytes.now) (λ errno. ready self.now fd count ≡ Err errno) }
        // A repeated read returns as many bytes, as `skip` requires.
        ensures skippable { IfOk result (λ bytes. IsOkAnd (ready self.now fd (length bytes.now)) (λ again. length again ≡ length bytes.now)) }
    {
        match self.open_file(fd) {
            Some(OpenFile::Input) => Ok(&[]),
            Some(
                OpenFile::File {
                    number,
                    file_offset,
                    access,
                },
            ) if access.is_read() => { Ok(part(self.content(number), file_offset, count)) }
            _ => Err(EBADF),
        }
    }

    pub fn skip(&mut self, fd: u32, count: u64)
        requires sound { IsSound self.old }
        requires ready { IsOkAnd (ready self.old fd count) (λ bytes. length bytes ≡ count) }
        ensures { self.new ≡ skipped self.old fd count }
    {
        if let Some(
            OpenFile::File {
                number,
                file_offset,
                access,
            },
        ) = self.open_file(fd)
        {
            let file_offset = file_offset + count;
            self.set_open_file(
                fd,
                OpenFile::File {
                    number,
                    file_offset,
                    access,
                },
            );
        }
    }

    /// Where a write goes: how many bytes are there now, and the offset of the first byte that is written; `None` if no write is allowed.
    pub fn write_offset(&self, fd: u32) -> Option<(u64, u64)>
        ensures { result ≡ write_offset self.now (map.get self.now.open_files fd) }
    {
        match self.open_file(fd) {
            Some(OpenFile::Stream1) => {
                let len = self.stream(1).len() as u64;
                Some((len, len))
            }
            Some(OpenFile::Stream2) => {
                let len = self.stream(2).len() as u64;
                Some((len, len))
            }
            Some(
                OpenFile::File {
                    number,
                    file_offset,
                    access,
                },
            ) if access.is_written() => {
                let len = self.content(number).len() as u64;
                Some((len, write_file_offset(access, len, file_offset)))
            }
            _ => None,
        }
    }

    pub fn fits(&self, fd: u32, count: u64) -> Result<(), u16>
        requires { IsSound self.now }
        ensures { result ≡ fits self.now fd count }
    {
        let Some((len, offset)) = self.write_offset(fd) else {
            return Err(EBADF);
        };
        if count == 0 {
            return Ok(());
        }
        if offset > MOST_CONTENT || count > MOST_CONTENT - offset {
            return Err(EFBIG);
        }
        let growth = (offset + count).saturating_sub(len);
        if self.total() + growth > MOST_TOTAL {
            return Err(ENOSPC);
        }
        Ok(())
    }

    pub fn write(&mut self, fd: u32, bytes: &[u8]) -> Result<(), OutOfMemory>
        requires sound { IsSound self.old }
        requires fit { fits self.old fd (length bytes.now) ≡ Ok tt }
        ensures ok { OnOk result (written self.old fd bytes.now ≡ (Ok tt, self.new)) }
        ensures err { OnErr result (self.new ≡ self.old) }
        ensures memory { OnErr result (Grows self.old fd (length bytes.now)) }
    {
        if !bytes.is_empty() {
            self.fill(fd, bytes)?;
        }
        Ok(())
    }

    /// Writes bytes that fit.
    fn fill(&mut self, fd: u32, bytes: &[u8]) -> Result<(), AllocError>
        requires sound { IsSound self.old }
        requires some { length bytes.now ≢ 0 }
        requires fit { fits self.old fd (length bytes.now) ≡ Ok tt }
        ensures ok { OnOk result (self.new ≡ filled self.old fd bytes.now (map.get self.old.open_files fd)) }
        ensures err { OnErr result (self.new ≡ self.old) }
        ensures memory { OnErr result (Grows self.old fd (length bytes.now)) }
    {
        match self.open_file(fd) {
            Some(OpenFile::Stream1) => self.extend_stream1(bytes)?,
            Some(OpenFile::Stream2) => self.extend_stream2(bytes)?,
            Some(
                OpenFile::File {
                    number,
                    file_offset,
                    access,
                },
            ) => {
                let end = self.content(number).len() as u64;
                let offset = write_file_offset(access, end, file_offset);
                self.overwrite(number, offset as usize, bytes)?;
                let file_offset = offset + bytes.len() as u64;
                self.set_open_file(
                    fd,
                    OpenFile::File {
                        number,
                        file_offset,
                        access,
                    },
                );
            }
            _ => {}
        }
        Ok(())
    }

    pub fn take_content(&mut self, alloc: Global, name: &[u8]) -> Vec<u8>
        requires { IsSound self.old }
        ensures value { result.items ≡ unwrap_or (content_at self.old name.now) [] }
        ensures left { self.new ≡ drained self.old name.now }
    {
        match self.number(name) {
            Some(number) => self.take(number),
            None => Vec::new(alloc),
        }
    }

    /// The bytes of the file of this name.
    pub fn named_content(&self, name: &[u8]) -> Option<&[u8]>
        requires { IsSound self.now }
        ensures { option_copied result ≡ content_at self.now name.now }
    {
        let number = self.number(name)?;
        Some(self.content(number))
    }
}

/// The offset of a write: the end of a file that appends, otherwise the file offset.
fn write_file_offset(access: Access, end: u64, file_offset: u64) -> u64
    ensures { result ≡ write_file_offset access end file_offset }
{
    if access.appends { end } else { file_offset }
}

/// At most `count` bytes from a file offset on.
fn part(content: &[u8], file_offset: u64, count: u64) -> &[u8]
    ensures { result.now ≡ take count (drop file_offset content.now) }
{
    let len = content.len() as u64;
    let from = file_offset.min(len);
    let count = count.min(len - from);
    &content[from as usize..(from + count) as usize]
}
