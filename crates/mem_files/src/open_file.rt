//! What a descriptor stands for, and why calls refuse.

ghost use Rattle.std.specs.Prelude.{◌≡◌};
ghost use Rattle.mem_files.specs.Access.{is_read, is_written};
ghost use Rattle.mem_files.specs.declared.open_file.FileRefusal.TheVariants as file;
ghost use Rattle.mem_files.specs.declared.open_file.PlaceRefusal.TheVariants as place;

use std::alloc::AllocError;

/// An open file: what a descriptor stands for.
#[derive(Clone, Copy, Debug, PartialEq, Eq)]
pub enum OpenFile {
    /// The empty input; only descriptor 0.
    Input,
    /// The first collected stream; only descriptor 1.
    Stream1,
    /// The second collected stream; only descriptor 2.
    Stream2,
    /// An open file: its number, its file offset in bytes (below 2^63), and how it is used.
    File {
        number: u32,
        file_offset: u64,
        access: Access,
    },
}

/// Whether an open file is read or written.
#[derive(Clone, Copy, Debug, PartialEq, Eq)]
pub enum Mode {
    Read,
    Write,
    ReadWrite,
}

/// How a descriptor may use its file.
#[derive(Clone, Copy, Debug, PartialEq, Eq)]
pub struct Access {
    pub mode: Mode,
    /// Each write goes to the end of the file.
    pub appends: bool,
}

impl Access {
    /// Whether the file may be read.
    pub fn is_read(self) -> bool
        ensures { result ≡ is_read self }
    {
        match self.mode {
            Mode::Read => true,
            Mode::Write => false,
            Mode::ReadWrite => true,
        }
    }

    /// Whether the file may be written.
    pub fn is_written(self) -> bool
        ensures { result ≡ is_written self }
    {
        match self.mode {
            Mode::Read => false,
            Mode::Write => true,
            Mode::ReadWrite => true,
        }
    }
}

/// Why a file is not opened or written.
#[derive(Clone, Copy)]
pub enum FileRefusal {
    /// An error number of Linux.
    Errno(u16),
    /// This process is out of memory. The guest does not see it.
    OutOfMemory,
}

/// Why a file is not placed.
#[derive(Clone, Copy, PartialEq, Eq)]
pub enum PlaceRefusal {
    /// The stripped name is not a guest file name (1 to 255 bytes, none of them zero).
    BadName,
    /// The name exists already.
    Twice,
    /// A limit would be exceeded.
    Full,
    /// This process is out of memory.
    OutOfMemory,
}

impl From<AllocError> for FileRefusal {
    ghost from_gives = { λ _ refusal. refusal ≡ file.OutOfMemory };

    fn from(_error: AllocError) -> FileRefusal {
        FileRefusal::OutOfMemory
    }
}

impl From<AllocError> for PlaceRefusal {
    ghost from_gives = { λ _ refusal. refusal ≡ place.OutOfMemory };

    fn from(_error: AllocError) -> PlaceRefusal {
        PlaceRefusal::OutOfMemory
    }
}
