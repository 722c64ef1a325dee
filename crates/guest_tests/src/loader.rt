//! The loader.

use crate::exit_program::EXIT;
use elf_load::*;
use std::alloc::{AllocError, Global};
use std::test::Fail;

const SEGMENT: Segment = Segment {
    address: 0x10000,
    offset: 0,
    file_size: 132,
    memory_size: 132,
};

fn is_exit(image: &Image) -> bool {
    image.entry == 0x10078
        && image.first_break == 0x11000
        && image.segments.as_slice() == [SEGMENT].as_slice()
}

fn reads_as_exit(file: &[u8]) -> bool {
    match read_image(file) {
        Ok(image) => is_exit(&image),
        Err(_) => false,
    }
}

#[test]
fn reads_exit(rt: HostRuntime) {
    assert!(rt; reads_as_exit(&EXIT));
}

/// A byte of exit.elf, what it is changed to, and what the program is refused for.
static ALTERED: [(usize, u8, ElfRefusal); 9] = [
    (0, 0x00, ElfRefusal::Magic),
    (4, 0x01, ElfRefusal::Class),
    (18, 0x3e, ElfRefusal::Machine),
    (16, 0x03, ElfRefusal::Kind),
    (54, 0x37, ElfRefusal::HeaderRange),
    (64, 0x03, ElfRefusal::Interpreter),
    (64, 0x02, ElfRefusal::NoLoad),
    (96, 0x85, ElfRefusal::SegmentRange),
    (24, 0x79, ElfRefusal::EntryOutside),
];

#[test]
fn refuses_altered_programs(rt: HostRuntime) {
    assert!(rt; refusal_of(&EXIT[..63]) == Some(ElfRefusal::Short));
    for &(index, byte, refusal) in &ALTERED {
        assert!(rt; refusal_of(&altered(index, byte)) == Some(refusal));
    }
}

/// exit.elf has a header of 64 bytes, one program header of 56 after it, and a segment of all its 132 bytes.
#[test]
fn refuses_programs_that_are_cut(rt: HostRuntime) {
    for size in 0..EXIT.len() {
        let refusal = match size {
            0..64 => ElfRefusal::Short,
            64..120 => ElfRefusal::HeaderRange,
            _ => ElfRefusal::SegmentRange,
        };
        assert!(&rt; refusal_of(&EXIT[..size]) == Some(refusal));
    }
}

/// Adds exit.elf with its program header so many times, and the number of headers in its header.
fn put_repeated(file: &mut Vec<u8>, count: u8) -> Result<(), AllocError> {
    file.extend_from_slice(&EXIT[..56])?;
    file.push(count)?;
    file.extend_from_slice(&EXIT[57..120])?;
    for _ in 1..count {
        file.extend_from_slice(&EXIT[64..120])?;
    }
    file.extend_from_slice(&EXIT[120..])
}

/// What exit.elf with its program header so many times is refused for.
fn refusal_of_repeated(alloc: Global, count: u8) -> Result<Option<ElfRefusal>, AllocError> {
    let mut file = Vec::new(alloc);
    put_repeated(&mut file, count)?;
    Ok(refusal_of(&file))
}

/// How often the program header stands, and what the program is refused for.
static REPEATED: [(u8, Option<ElfRefusal>); 4] = [
    (1, None),
    (2, Some(ElfRefusal::Overlap)),
    (16, Some(ElfRefusal::Overlap)),
    (17, Some(ElfRefusal::TooMany)),
];

/// At most 16 segments are loaded, and no two of them lie on one page; that they are too many comes first.
#[test]
fn refuses_repeated_headers(rt: HostRuntime) -> Result<(), Fail> {
    for &(count, refusal) in &REPEATED {
        assert!(rt; refusal_of_repeated(rt.alloc(), count)? == refusal);
    }
    Ok(())
}

/// exit.elf with one byte changed.
fn altered(index: usize, byte: u8) -> [u8; 132] {
    let mut file = EXIT;
    if let Some(target) = file.get_mut(index) {
        *target = byte;
    }
    file
}

fn refusal_of(file: &[u8]) -> Option<ElfRefusal> {
    read_image(file).err()
}
