ghost use Rattle.std.specs.Prelude.{◌≡◌};
ghost use Rattle.elf_load.specs.Refusal.{rank};

/// Why a file cannot be loaded. The refusals are tried in this order, and the first that applies is returned.
#[derive(Clone, Copy, Debug, PartialEq, Eq)]
pub enum ElfRefusal {
    /// Fewer than the 64 bytes of an ELF header.
    Short = 1,
    /// The first four bytes are not `7F 45 4C 46`.
    Magic = 2,
    /// Not a 64-bit file (EI_CLASS 2), or not little-endian (EI_DATA 1).
    Class = 3,
    /// Not for RISC-V (e_machine 243).
    Machine = 4,
    /// Not an executable file (e_type 2).
    Kind = 5,
    /// Program headers that are not of 56 bytes, or a header table that extends past the end of the file.
    HeaderRange = 6,
    /// A program header that requests an interpreter (PT_INTERP, 3).
    Interpreter = 7,
    /// No PT_LOAD header that takes memory.
    NoLoad = 8,
    /// More than 16 PT_LOAD headers that take memory.
    TooMany = 9,
    /// A segment with more bytes in the file than in memory, with bytes past the end of the file, or with pages above
    /// 2^37. Also: the pages of all segments take more than 268,435,456 bytes together.
    SegmentRange = 10,
    /// Two segments share a page.
    Overlap = 11,
    /// The entry is not a multiple of 4, or is in no segment.
    EntryOutside = 12,
}

impl ElfRefusal {
    /// The refusal's number, 1 to 12.
    pub fn number(self) -> u8
        ensures { result ≡ rank self }
    {
        self as u8
    }
}
