//! The Linux calls that a guest may make, on its memory, its files and its heap.
//!
//! The rules are in docs/reference/calls.md for readers, and in specs/Calls.antt for the prover.
#![tactic(auto)]

pub mod laws;
mod names;
mod path;
mod program_break;
mod table;
mod transfer;

pub use table::call;

/// The number of a call, and its six arguments (Linux, arch/riscv: x17, and x10 to x15).
#[derive(Clone, Copy)]
pub struct CallRegs {
    pub number: u64,
    pub a: [u64; 6],
}

/// The result of a call: a value for the guest, an exit status, the number of an unknown call, or this process is out
/// of memory. The guest does not see the last one.
#[derive(Clone, Copy, PartialEq, Eq)]
pub enum CallEnd {
    Back(u64),
    Exit(u8),
    Unknown(u64),
    OutOfMemory,
}

/// The heap: the address where it begins, its break, and the most bytes that it may have.
#[derive(Clone, Copy)]
pub struct Heap {
    pub first: u64,
    pub now: u64,
    pub limit: u64,
}

/// An address that is not mapped (Linux, asm-generic/errno-base.h, as ENOTDIR).
pub const EFAULT: u16 = 14;
/// Not a directory.
pub const ENOTDIR: u16 = 20;
/// A path that is too long (Linux, asm-generic/errno.h).
pub const ENAMETOOLONG: u16 = 36;

/// The directory argument that means the working directory: -100 in 32 bits (Linux, fcntl.h).
pub const AT_FDCWD: u32 = 0xffff_ff9c;

/// The number of unlinkat (Linux, asm-generic/unistd.h, as the other numbers).
pub const SYS_UNLINKAT: u64 = 35;

pub const SYS_FACCESSAT: u64 = 48;

pub const SYS_FCHMODAT: u64 = 53;

pub const SYS_OPENAT: u64 = 56;

pub const SYS_CLOSE: u64 = 57;

pub const SYS_LSEEK: u64 = 62;

pub const SYS_READ: u64 = 63;

pub const SYS_WRITE: u64 = 64;

pub const SYS_EXIT: u64 = 93;

pub const SYS_EXIT_GROUP: u64 = 94;

pub const SYS_BRK: u64 = 214;
