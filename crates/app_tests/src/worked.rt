//! Two worked programs, and what the tests of audits make of them and of recipes.

use ddc_app::Status;
use ddc_base::{Bytes, MemShelf, MemSink, OutOfMemory, read_hex};
use prompt::MemPrompt;
use std::alloc::Global;
use wheeler::Assembly;

/// The top call with a standard input that has nothing left.
pub(crate) fn run(
    alloc: Global,
    words: &[&str],
    shelf: &mut MemShelf,
    out: &mut MemSink,
) -> Result<Status, OutOfMemory> {
    let mut prompt = MemPrompt::new(alloc, &[])?;
    Ok(ddc_app::run::<Assembly, _, _, _>(alloc, words, shelf, out, &mut prompt))
}

/// exit.elf: header, one program header, and three instructions that exit with status 0.
pub(crate) const EXIT: [u8; 132] = [
    0x7f, 0x45, 0x4c, 0x46, 0x02, 0x01, 0x01, 0x00, 0x00, 0x00, 0x00, 0x00, 0x00, 0x00, 0x00, 0x00,
    0x02, 0x00, 0xf3, 0x00, 0x01, 0x00, 0x00, 0x00, 0x78, 0x00, 0x01, 0x00, 0x00, 0x00, 0x00, 0x00,
    0x40, 0x00, 0x00, 0x00, 0x00, 0x00, 0x00, 0x00, 0x00, 0x00, 0x00, 0x00, 0x00, 0x00, 0x00, 0x00,
    0x00, 0x00, 0x00, 0x00, 0x40, 0x00, 0x38, 0x00, 0x01, 0x00, 0x00, 0x00, 0x00, 0x00, 0x00, 0x00,
    0x01, 0x00, 0x00, 0x00, 0x07, 0x00, 0x00, 0x00, 0x00, 0x00, 0x00, 0x00, 0x00, 0x00, 0x00, 0x00,
    0x00, 0x00, 0x01, 0x00, 0x00, 0x00, 0x00, 0x00, 0x00, 0x00, 0x01, 0x00, 0x00, 0x00, 0x00, 0x00,
    0x84, 0x00, 0x00, 0x00, 0x00, 0x00, 0x00, 0x00, 0x84, 0x00, 0x00, 0x00, 0x00, 0x00, 0x00, 0x00,
    0x00, 0x10, 0x00, 0x00, 0x00, 0x00, 0x00, 0x00, 0x13, 0x05, 0x00, 0x00, 0x93, 0x08, 0xd0, 0x05,
    0x73, 0x00, 0x00, 0x00,
];

/// copy.elf, which copies the file `in` to `out`, with a line's end: its source in hex0.
pub(crate) const COPY: &str =
    "7f454c460201010000000000000000000200f30001000000780001000000000040000000000000000000000000000000000000004000380001000000\
    000000000100000007000000000000000000000000000100000000000000010000000000e800000000000000e80000000000000000100000000000001305c0f9b70501009385050e1306000093088003730000001305c0f9b70501009385350e\
    130610247300000037140000b30481401305300093850400130604009308f00373000000630c0500130605001305400093080004730000006ff09ffd\
    9308d00573000000696e006f75740000\n";

/// The bytes of a text of hexadecimal digits.
pub(crate) fn decoded(alloc: Global, text: &str) -> Result<Bytes, OutOfMemory> {
    match read_hex(alloc, text.trim_end().as_bytes()) {
        Ok(bytes) => Ok(bytes),
        Err(_) => Err(OutOfMemory),
    }
}

/// A program with exit.elf's header and this code, which is given in hexadecimal.
pub(crate) fn program_of(alloc: Global, code: &str) -> Result<Bytes, OutOfMemory> {
    let code = decoded(alloc, code)?;
    let size = (120 + (code.len() as u64 & 0xff)).to_le_bytes();
    let mut file = Bytes::from_slice(alloc, &EXIT[..96])?;
    file.extend(&size)?;
    file.extend(&size)?;
    file.extend(&EXIT[112..120])?;
    file.extend(code.as_slice())?;
    Ok(file)
}

/// A text with another in place of the first piece that is `old`. Without such a piece the result is no recipe.
pub(crate) fn with(alloc: Global, text: &str, old: &str, new: &str) -> Result<String, OutOfMemory> {
    match text.split_once(old) {
        Some((before, after)) => Ok(format!(in alloc; "{before}{new}{after}")?),
        None => Ok(format!(in alloc; "nothing to change: {old}")?),
    }
}
