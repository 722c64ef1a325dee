//! The fields of the ELF header and of a program header, each read at its offset.

ghost use Rattle.elf_load.specs.Fields.{field, ei_class, ei_data, e_type, e_machine, e_entry, e_phoff, e_phentsize, e_phnum, p_type, p_memsz};
ghost use Rattle.elf_load.specs.Segments.{segment_at};
ghost use Rattle.std.specs.Prelude.{◌≡◌, ◌+◌, ◌≤◌, length};

use super::Segment;
use byteorder::{ByteOrder, LittleEndian};

/// The bytes of an ELF header.
pub(crate) const HEADER_SIZE: usize = 64;
/// The bytes of a program header.
pub(crate) const PROGRAM_HEADER_SIZE: u16 = 56;

pub(crate) fn class(file: &[u8]) -> u8
    requires { 64 ≤ length file.now }
    ensures { result ≡ ei_class file.now }
{
    byte_at(file, 4)
}

pub(crate) fn byte_order_of(file: &[u8]) -> u8
    requires { 64 ≤ length file.now }
    ensures { result ≡ ei_data file.now }
{
    byte_at(file, 5)
}

pub(crate) fn kind(file: &[u8]) -> u16
    requires { 64 ≤ length file.now }
    ensures { result ≡ e_type file.now }
{
    half_at(file, 16)
}

pub(crate) fn machine(file: &[u8]) -> u16
    requires { 64 ≤ length file.now }
    ensures { result ≡ e_machine file.now }
{
    half_at(file, 18)
}

pub(crate) fn entry(file: &[u8]) -> u64
    requires { 64 ≤ length file.now }
    ensures { result ≡ e_entry file.now }
{
    double_at(file, 24)
}

pub(crate) fn table_offset(file: &[u8]) -> u64
    requires { 64 ≤ length file.now }
    ensures { result ≡ e_phoff file.now }
{
    double_at(file, 32)
}

pub(crate) fn program_header_size(file: &[u8]) -> u16
    requires { 64 ≤ length file.now }
    ensures { result ≡ e_phentsize file.now }
{
    half_at(file, 54)
}

pub(crate) fn program_header_count(file: &[u8]) -> u16
    requires { 64 ≤ length file.now }
    ensures { result ≡ e_phnum file.now }
{
    half_at(file, 56)
}

/// p_type of the program header at `header`.
pub(crate) fn segment_type(file: &[u8], header: usize) -> u32
    requires { header + 56 ≤ length file.now }
    ensures { result ≡ p_type file.now header }
{
    word_at(file, header)
}

/// p_memsz of the program header at `header`.
pub(crate) fn memory_size(file: &[u8], header: usize) -> u64
    requires { header + 56 ≤ length file.now }
    ensures { result ≡ p_memsz file.now header }
{
    double_at(file, header + 40)
}

/// The segment that the program header at `header` describes.
pub(crate) fn segment(file: &[u8], header: usize) -> Segment
    requires { header + 56 ≤ length file.now }
    ensures { result ≡ segment_at file.now header }
{
    Segment {
        offset: double_at(file, header + 8),
        address: double_at(file, header + 16),
        file_size: double_at(file, header + 32),
        memory_size: memory_size(file, header),
    }
}

#[tactic(auto, unfolding(crate::specs::Fields::field))]
fn byte_at(file: &[u8], offset: usize) -> u8
    requires { offset + 1 ≤ length file.now }
    ensures { result ≡ field file.now offset 1 }
{
    file[offset]
}

#[tactic(auto, unfolding(crate::specs::Fields::field))]
fn half_at(file: &[u8], offset: usize) -> u16
    requires { offset + 2 ≤ length file.now }
    ensures { result ≡ field file.now offset 2 }
{
    LittleEndian::read_u16(&file[offset..])
}

#[tactic(auto, unfolding(crate::specs::Fields::field))]
fn word_at(file: &[u8], offset: usize) -> u32
    requires { offset + 4 ≤ length file.now }
    ensures { result ≡ field file.now offset 4 }
{
    LittleEndian::read_u32(&file[offset..])
}

#[tactic(auto, unfolding(crate::specs::Fields::field))]
fn double_at(file: &[u8], offset: usize) -> u64
    requires { offset + 8 ≤ length file.now }
    ensures { result ≡ field file.now offset 8 }
{
    LittleEndian::read_u64(&file[offset..])
}
