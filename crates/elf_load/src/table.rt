//! Reads the header table: the segments that it lists, in order.

ghost use Rattle.elf_load.specs.Fields.{headers, e_phoff, e_phnum};
ghost use Rattle.elf_load.specs.Image.{table_rules};
ghost use Rattle.elf_load.specs.Inside.Checks.{HoldsTable, Judges};
ghost use Rattle.elf_load.specs.Segments.{is_interpreter, is_load, loads_among, segments_of};
ghost use Rattle.std.specs.List.{list_any};
ghost use Rattle.std.specs.Prelude.{◌≡◌, ◌+◌, ◌*◌, ◌<◌, ◌≤◌, [], ◌∷◌, ◌++◌, length, IfOk, MatchResult};

use super::{ElfRefusal, Segment, fields};
use arrayvec::ArrayVec;

/// PT_LOAD and PT_INTERP of the ELF standard.
const LOAD: u32 = 1;

const INTERPRETER: u32 = 3;

/// The segments of a file that contains its header table, or the first refusal for that table.
#[tactic(auto, unfolding(crate::specs::Image::table_rules))]
pub(crate) fn read_segments(file: &[u8]) -> Result<ArrayVec<Segment, 16>, ElfRefusal>
    requires { HoldsTable file.now }
    ensures judged { Judges (table_rules file.now) result }
    ensures value { IfOk result (λ segments. segments.items ≡ segments_of file.now) }
{
    if has_interpreter(file) {
        return Err(ElfRefusal::Interpreter);
    }
    let segments = loads(file)?;
    if segments.is_empty() {
        return Err(ElfRefusal::NoLoad);
    }
    Ok(segments)
}

/// Whether a program header requests an interpreter.
#[tactic(auto, using(crate::proofs::Tables::interpreter_here, crate::proofs::Tables::interpreter_later, crate::proofs::Tables::ends_of_headers))]
fn has_interpreter(file: &[u8]) -> bool
    requires { HoldsTable file.now }
    ensures { result ≡ list_any (is_interpreter file.now) (headers file.now) }
{
    for index in 0..fields::program_header_count(file) {
        if fields::segment_type(file, header_at(file, index)) == INTERPRETER {
            return true;
        }
    }
    false
}

/// The segments of the program headers that take memory, if there are at most 16.
#[tactic(auto, using(crate::proofs::Tables::steps_of_loads))]
fn loads(file: &[u8]) -> Result<ArrayVec<Segment, 16>, ElfRefusal>
    requires { HoldsTable file.now }
    ensures { MatchResult result
        (λ segments. (segments.items ≡ segments_of file.now) × (length (segments_of file.now) ≤ 16))
        (λ refusal. (refusal ≡ ElfRefusal.TooMany) × (16 < length (segments_of file.now))) }
{
    let mut segments = ArrayVec::new();
    for index in 0..fields::program_header_count(file) {
        take_load(file, header_at(file, index), &mut segments)?;
    }
    Ok(segments)
}

/// Appends the segment of the program header at `header` if it takes memory.
#[tactic(auto, using(crate::proofs::Tables::kinds_of_loads))]
fn take_load(
    file: &[u8],
    header: usize,
    segments: &mut ArrayVec<Segment, 16>,
) -> Result<(), ElfRefusal>
    requires holds { header + 56 ≤ length file.now }
    requires few { length segments.old.items ≤ 16 }
    ensures still_few { length segments.new.items ≤ 16 }
    ensures value { MatchResult result
        (λ _. segments.new.items ≡ segments.old.items ++ loads_among file.now (header ∷ []))
        (λ refusal. (refusal ≡ ElfRefusal.TooMany)
        × (16 < length (segments.old.items ++ loads_among file.now (header ∷ [])))) }
{
    if !is_load(file, header) {
        return Ok(());
    }
    if segments.is_full() {
        return Err(ElfRefusal::TooMany);
    }
    segments.push(fields::segment(file, header));
    Ok(())
}

/// Whether the program header at `header` is a segment that takes memory.
fn is_load(file: &[u8], header: usize) -> bool
    requires { header + 56 ≤ length file.now }
    ensures { result ≡ is_load file.now header }
{
    fields::segment_type(file, header) == LOAD && fields::memory_size(file, header) != 0
}

/// The offset of the program header with this index.
fn header_at(file: &[u8], index: u16) -> usize
    requires holds { HoldsTable file.now }
    requires listed { index < e_phnum file.now }
    ensures value { result ≡ e_phoff file.now + 56 * index }
    ensures fits { result + 56 ≤ length file.now }
{
    fields::table_offset(file) as usize + 56 * usize::from(index)
}
