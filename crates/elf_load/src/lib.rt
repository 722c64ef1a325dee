//! The loader: the parts of an ELF file to place in memory, and where its program begins.
//!
//! The rules, with their public sources, are in docs/reference/loader.md.
#![tactic(auto)]

ghost use Rattle.elf_load.specs.Image.{image_of, IsLoadable};
ghost use Rattle.std.specs.Prelude.{◌≡◌, length, IfOk};

use arrayvec::ArrayVec;

mod checks;
mod fields;
pub mod laws;
mod refusal;
mod table;

pub use refusal::ElfRefusal;

/// A part of a file to be placed in memory: PT_LOAD of the ELF standard.
#[derive(Clone, Copy, PartialEq, Eq, Default)]
pub struct Segment {
    /// The address of its first byte (p_vaddr).
    pub address: u64,
    /// The offset of its first byte in the file (p_offset).
    pub offset: u64,
    /// How many bytes the file holds (p_filesz). Zeros follow them in memory.
    pub file_size: u64,
    /// How many bytes it takes in memory (p_memsz).
    pub memory_size: u64,
}

/// What an accepted file requires: its segments, its entry and its first break.
#[derive(Drop)]
pub struct Image {
    /// The address of the first instruction, a multiple of 4 within a segment.
    pub entry: u64,
    /// The 1 to 16 segments, in the order of the header table. No two of them share a page.
    pub segments: ArrayVec<Segment, 16>,
    /// The end of the last segment in memory, rounded up to whole pages of 4,096 bytes.
    pub first_break: u64,
}

/// Reads a static ELF-64 program for RISC-V.
///
/// Returns the first refusal that applies, in the order of [`ElfRefusal`]'s variants; otherwise the entry, the segments
/// and the first break. Allocates nothing.
///
/// Public source: System V ABI (gABI), "Object Files" and "Program Loading and Dynamic Linking".
pub fn read_image(file: &[u8]) -> Result<Image, ElfRefusal>
    ensures value { result ≡ image_of file.now }
    // The image is loadable (`IsLoadable`).
    ensures sound { IfOk result (IsLoadable (length file.now)) }
{
    checks::check_header(file)?;
    let segments = table::read_segments(file)?;
    checks::check_placing(&segments, file.len() as u64)?;
    let entry = fields::entry(file);
    checks::check_entry(entry, &segments)?;
    let first_break = checks::break_after(&segments);
    Ok(Image {
        entry,
        segments,
        first_break,
    })
}
