//! A host's files, of which one call breaks.

use std::alloc::Allocator;
use std::fs::{Metadata, OpenFile, OpenOptions, Permissions};
use std::io;
use std::io::{ErrorKind, PipeReader, PipeWriter, Read, Seek, SeekFrom, Write};
use std::os::fd::BorrowedFd;
use std::os::unix::net::SocketAddr;
use std::path::PathBuf;
use std::rt::Files;

/// The call that breaks, with what kind of error.
#[derive(Clone, Copy, PartialEq, Eq)]
pub enum Breaks {
    Creation(ErrorKind),
    Writing,
    Syncing,
    Renaming(ErrorKind),
}

/// The files of a host, but for one call.
#[derive(Drop)]
pub struct BrokenHost<'r, R> {
    pub host: &'r R,
    pub breaks: Breaks,
}

/// A file of such a host, which takes at most four bytes where it breaks at writing.
#[derive(Drop)]
pub struct BrokenFile<F> {
    file: F,
    breaks: Breaks,
    written: usize,
}

impl<F: Read> Read for BrokenFile<F> {
    fn read(&mut self, buf: &mut [u8]) -> io::Result<usize> {
        self.file.read(buf)
    }
}

impl<F: Write> Write for BrokenFile<F> {
    fn write(&mut self, buf: &[u8]) -> io::Result<usize> {
        if self.breaks != Breaks::Writing {
            return self.file.write(buf);
        }
        if self.written > 0 {
            return Err(io::Error::from(ErrorKind::StorageFull));
        }
        let count = self.file.write(&buf[..buf.len().min(4)])?;
        self.written = count;
        Ok(count)
    }

    fn flush(&mut self) -> io::Result<()> {
        self.file.flush()
    }
}

impl<F: Seek> Seek for BrokenFile<F> {
    fn seek(&mut self, to: SeekFrom) -> io::Result<u64> {
        self.file.seek(to)
    }
}

impl<F: OpenFile> OpenFile for BrokenFile<F> {
    fn metadata(&self) -> io::Result<Metadata> {
        self.file.metadata()
    }

    fn set_len(&self, size: u64) -> io::Result<()> {
        self.file.set_len(size)
    }

    fn sync_all(&self) -> io::Result<()> {
        if self.breaks == Breaks::Syncing {
            return Err(io::Error::from(ErrorKind::StorageFull));
        }
        self.file.sync_all()
    }

    fn sync_data(&self) -> io::Result<()> {
        self.file.sync_data()
    }

    fn set_permissions(&self, permissions: Permissions) -> io::Result<()> {
        self.file.set_permissions(permissions)
    }
}

impl<R: Files> Files for BrokenHost<'_, R> {
    type File = BrokenFile<R::File>;

    type Dir = R::Dir;

    fn open_file(&self, how: &OpenOptions, path: &str) -> io::Result<BrokenFile<R::File>> {
        if let Breaks::Creation(kind) = self.breaks
            && how.asks_create_new()
        {
            return Err(io::Error::from(kind));
        }
        Ok(BrokenFile {
            file: self.host.open_file(how, path)?,
            breaks: self.breaks,
            written: 0,
        })
    }

    fn open_dir(&self, path: &str) -> io::Result<R::Dir> {
        self.host.open_dir(path)
    }

    fn metadata(&self, path: &str) -> io::Result<Metadata> {
        self.host.metadata(path)
    }

    fn symlink_metadata(&self, path: &str) -> io::Result<Metadata> {
        self.host.symlink_metadata(path)
    }

    fn copy(&self, from: &str, to: &str) -> io::Result<u64> {
        self.host.copy(from, to)
    }

    fn rename(&self, from: &str, to: &str) -> io::Result<()> {
        if let Breaks::Renaming(kind) = self.breaks {
            return Err(io::Error::from(kind));
        }
        self.host.rename(from, to)
    }

    fn remove_file(&self, path: &str) -> io::Result<()> {
        self.host.remove_file(path)
    }

    fn create_dir(&self, path: &str) -> io::Result<()> {
        self.host.create_dir(path)
    }

    fn remove_dir(&self, path: &str) -> io::Result<()> {
        self.host.remove_dir(path)
    }

    fn remove_dir_all<B: Allocator>(&self, alloc: B, path: &str) -> io::Result<()> {
        self.host.remove_dir_all(alloc, path)
    }

    // What stands below is written out, since an impl of its own is proved in a third of the time of one that it is given.
    fn canonicalize<B: Allocator>(&self, alloc: B, path: &str) -> io::Result<PathBuf<B>> {
        self.host.canonicalize(alloc, path)
    }

    fn read_link<B: Allocator>(&self, alloc: B, path: &str) -> io::Result<PathBuf<B>> {
        self.host.read_link(alloc, path)
    }

    fn hard_link(&self, original: &str, link: &str) -> io::Result<()> {
        self.host.hard_link(original, link)
    }

    fn set_permissions(&self, path: &str, perm: Permissions) -> io::Result<()> {
        self.host.set_permissions(path, perm)
    }

    fn symlink(&self, original: &str, link: &str) -> io::Result<()> {
        self.host.symlink(original, link)
    }

    fn pipe(&self) -> io::Result<(PipeReader, PipeWriter)> {
        self.host.pipe()
    }

    fn chown(&self, path: &str, uid: Option<u32>, gid: Option<u32>) -> io::Result<()> {
        self.host.chown(path, uid, gid)
    }

    fn lchown(&self, path: &str, uid: Option<u32>, gid: Option<u32>) -> io::Result<()> {
        self.host.lchown(path, uid, gid)
    }

    fn create_dir_with_mode(&self, path: &str, mode: u32) -> io::Result<()> {
        self.host.create_dir_with_mode(path, mode)
    }

    fn bind_unix(&self, socket: BorrowedFd<'_>, addr: &SocketAddr) -> io::Result<()> {
        self.host.bind_unix(socket, addr)
    }
}
