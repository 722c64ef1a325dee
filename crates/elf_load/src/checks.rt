//! Checks the header, the positions of the segments, and the entry.

ghost use Rattle.elf_load.specs.Fields.{e_phoff, e_phnum};
ghost use Rattle.ddc_base.specs.Limits.{most_address};
ghost use Rattle.elf_load.specs.Image.{header_rules, placing_rules, entry_rules};
ghost use Rattle.elf_load.specs.Inside.Checks.{HoldsTable, Judges, IsLow};
ghost use Rattle.paged_mem.specs.Memory.{page_up};
ghost use Rattle.elf_load.specs.Segments.{is_out_of_range, paged_size, first_page, page_end, share_page, any_share, holds_address, break_after};
ghost use Rattle.std.specs.List.{list_any};
ghost use Rattle.std.specs.Prelude.{◌≡◌, ◌+◌, ◌*◌, ◌<◌, ◌≤◌, length, nat_le, OnOk, All, sum_by};

use super::{ElfRefusal, Segment, fields};
use ddc_base::limits::{MOST_ADDRESS, MOST_LOADED};
use paged_mem::PAGE;

/// RISC-V and an executable file, in the numbers of the ELF standard.
const RISC_V: u16 = 243;

const EXECUTABLE: u16 = 2;

/// Checks that the file is an ELF-64 executable for RISC-V and contains its header table.
#[tactic(auto, unfolding(crate::specs::Image::header_rules))]
pub(crate) fn check_header(file: &[u8]) -> Result<(), ElfRefusal>
    ensures judged { Judges (header_rules file.now) result }
    ensures holds { OnOk result (HoldsTable file.now) }
{
    if file.len() < fields::HEADER_SIZE {
        return Err(ElfRefusal::Short);
    }
    if !file.starts_with(&[0x7f, b'E', b'L', b'F']) {
        return Err(ElfRefusal::Magic);
    }
    if fields::class(file) != 2 || fields::byte_order_of(file) != 1 {
        return Err(ElfRefusal::Class);
    }
    if fields::machine(file) != RISC_V {
        return Err(ElfRefusal::Machine);
    }
    if fields::kind(file) != EXECUTABLE {
        return Err(ElfRefusal::Kind);
    }
    if fields::program_header_size(file) != fields::PROGRAM_HEADER_SIZE || !holds_table(file) {
        return Err(ElfRefusal::HeaderRange);
    }
    Ok(())
}

/// Whether the header table ends within the file.
fn holds_table(file: &[u8]) -> bool
    requires { 64 ≤ length file.now }
    ensures { result ≡ nat_le (e_phoff file.now + 56 * e_phnum file.now) (length file.now) }
{
    let size = file.len() as u64;
    let first = fields::table_offset(file);
    let table = u64::from(fields::PROGRAM_HEADER_SIZE)
        * u64::from(fields::program_header_count(file));
    first <= size && table <= size - first
}

/// Checks that the segments lie in a file of `size` bytes and below the highest page, and that no two share a page.
#[tactic(auto, unfolding(crate::specs::Image::placing_rules), using(crate::proofs::Pages::all_low))]
pub(crate) fn check_placing(segments: &[Segment], size: u64) -> Result<(), ElfRefusal>
    requires { length segments.now ≤ 16 }
    ensures judged { Judges (placing_rules size segments.now) result }
    ensures placed { OnOk result (All IsLow segments.now) }
{
    if any_out_of_range(segments, size) {
        return Err(ElfRefusal::SegmentRange);
    }
    if pages_together(segments) > MOST_LOADED {
        return Err(ElfRefusal::SegmentRange);
    }
    if any_share(segments) {
        return Err(ElfRefusal::Overlap);
    }
    Ok(())
}

/// Whether a segment does not lie within a file of `size` bytes, or not below the highest page.
fn any_out_of_range(segments: &[Segment], size: u64) -> bool
    ensures { result ≡ list_any (is_out_of_range size) segments.now }
{
    segments
        .iter()
        .any(|segment| is_out_of_range(segment, size))
}

#[tactic(auto, using(crate::proofs::Pages::in_range, crate::proofs::Pages::out_by_size, crate::proofs::Pages::out_by_file, crate::proofs::Pages::out_by_memory))]
fn is_out_of_range(segment: &Segment, size: u64) -> bool
    ensures { result ≡ is_out_of_range size segment.now }
{
    segment.file_size > segment.memory_size
        || segment.file_size > size
        || segment.offset > size - segment.file_size
        || segment.memory_size > MOST_ADDRESS
        || segment.address > MOST_ADDRESS - segment.memory_size
}

/// The number of bytes of all the segments' pages.
fn pages_together(segments: &[Segment]) -> u64
    requires few { length segments.now ≤ 16 }
    requires low { All IsLow segments.now }
    ensures { result ≡ sum_by paged_size segments.now }
{
    let mut together = 0;
    for segment in segments {
        together += paged_size(segment);
    }
    together
}

/// The number of bytes of the segment's pages.
#[tactic(auto, using(crate::proofs::Pages::first_below_end, crate::proofs::Pages::page_end_low))]
fn paged_size(segment: &Segment) -> u64
    requires { IsLow segment.now }
    ensures value { result ≡ paged_size segment.now }
    ensures small { result ≤ most_address }
{
    page_end(segment) - first_page(segment)
}

/// Whether some two segments share a page.
#[tactic(auto, using(crate::proofs::Pages::steps_of_shares))]
fn any_share(segments: &[Segment]) -> bool
    requires { All IsLow segments.now }
    ensures { result ≡ any_share segments.now }
{
    for (index, segment) in segments.iter().enumerate() {
        if shares_with_one(segment, &segments[index + 1..]) {
            return true;
        }
    }
    false
}

/// Whether the segment shares a page with one of the others.
fn shares_with_one(segment: &Segment, others: &[Segment]) -> bool
    requires one { IsLow segment.now }
    requires others { All IsLow others.now }
    ensures { result ≡ list_any (share_page segment.now) others.now }
{
    for other in others {
        if first_page(segment) < page_end(other) && first_page(other) < page_end(segment) {
            return true;
        }
    }
    false
}

/// The address of the segment's first page.
#[tactic(auto, unfolding(crate::specs::Segments::first_page))]
fn first_page(segment: &Segment) -> u64
    ensures { result ≡ first_page segment.now }
{
    segment.address / PAGE * PAGE
}

/// The address that follows the segment's last page.
#[tactic(auto, unfolding(crate::specs::Segments::page_end))]
fn page_end(segment: &Segment) -> u64
    requires { IsLow segment.now }
    ensures { result ≡ page_end segment.now }
{
    page_up(segment.address + segment.memory_size)
}

/// Refuses an entry that is not a multiple of 4 or is in no segment.
#[tactic(auto, unfolding(crate::specs::Image::entry_rules))]
pub(crate) fn check_entry(entry: u64, segments: &[Segment]) -> Result<(), ElfRefusal>
    ensures { Judges (entry_rules entry segments.now) result }
{
    if entry % 4 != 0 {
        return Err(ElfRefusal::EntryOutside);
    }
    if !any_holds(segments, entry) {
        return Err(ElfRefusal::EntryOutside);
    }
    Ok(())
}

/// Whether the address is one of some segment's bytes in memory.
fn any_holds(segments: &[Segment], address: u64) -> bool
    ensures { result ≡ list_any (holds_address address) segments.now }
{
    segments
        .iter()
        .any(|segment| holds_address(address, segment))
}

/// Whether the address is one of the segment's bytes in memory.
fn holds_address(address: u64, segment: &Segment) -> bool
    ensures { result ≡ holds_address address segment.now }
{
    segment.address <= address && address - segment.address < segment.memory_size
}

/// The end of the last segment, rounded up to whole pages.
pub(crate) fn break_after(segments: &[Segment]) -> u64
    requires { All IsLow segments.now }
    ensures { result ≡ break_after segments.now }
{
    let mut end = 0;
    for segment in segments {
        end = end.max(segment.address + segment.memory_size);
    }
    page_up(end)
}

/// The first multiple of the page size that is not below `address`.
fn page_up(address: u64) -> u64
    requires { address ≤ most_address }
    ensures { result ≡ page_up address }
{
    (address + (PAGE - 1)) / PAGE * PAGE
}
