//! Files of one guest program, held in memory: names, contents, descriptors and the two collected streams.
//!
//! The rules are in docs/reference/files.md for readers, and in specs/World.antt and specs/Calls.antt for the prover.
//! There are no directories: `/` is an ordinary byte of a name.
#![tactic(auto)]

mod calls;
mod cells;
mod counts;
mod files;
pub mod laws;
mod names;
mod numbers;
mod open_file;
mod restoring;
mod stored;
mod table;
mod view;

pub use files::Files;
pub use names::{is_file_name, is_stripped_name, strip};
pub use open_file::{Access, FileRefusal, Mode, OpenFile, PlaceRefusal};
pub use view::FileView;

/// No such file (Linux, asm-generic/errno-base.h, as the other error numbers).
pub const ENOENT: u16 = 2;
/// Not a descriptor, or not one that can be used in this way.
pub const EBADF: u16 = 9;
/// The file exists already.
pub const EEXIST: u16 = 17;
/// An argument that the call does not know.
pub const EINVAL: u16 = 22;
/// No more descriptors are available.
pub const EMFILE: u16 = 24;
/// The file would be too large.
pub const EFBIG: u16 = 27;
/// No space is left within the limits.
pub const ENOSPC: u16 = 28;
/// A descriptor that has no file offset.
pub const ESPIPE: u16 = 29;

/// The bits of the flags that hold the access mode (Linux, asm-generic/fcntl.h, as the other flags).
pub const O_ACCMODE: u32 = 3;
/// Read only.
pub const O_RDONLY: u32 = 0;
/// Write only.
pub const O_WRONLY: u32 = 1;
/// Read and write.
pub const O_RDWR: u32 = 2;
/// Creates a file that does not exist.
pub const O_CREAT: u32 = 64;
/// With `O_CREAT`: refuses a file that exists.
pub const O_EXCL: u32 = 128;
/// Empties a file that exists.
pub const O_TRUNC: u32 = 512;
/// Each write goes to the end of the file.
pub const O_APPEND: u32 = 1024;

/// The offset counts from the start (Linux, lseek(2), as the other two).
pub const SEEK_SET: u32 = 0;
/// The offset counts from the file offset.
pub const SEEK_CUR: u32 = 1;
/// The offset counts from the end.
pub const SEEK_END: u32 = 2;
