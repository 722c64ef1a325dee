//! Reading paths and the directory argument that goes with them.

ghost use Rattle.std.specs.Prelude.{◌≡◌, ◌%◌, MatchResult, IfOk, IsTrue, Ok, Err};
ghost use Rattle.mem_files.specs.Names.{is_stripped_name};
ghost use Rattle.linux_calls.specs.Paths.{low, text_at, name_at, name_in_directory, in_directory};

use crate::{AT_FDCWD, EFAULT, ENAMETOOLONG, ENOTDIR};
use arrayvec::ArrayVec;
use mem_files::{EBADF, ENOENT, Files, strip};
use paged_mem::{Ram, Width};

/// The low 32 bits of a register.
pub fn low(register: u64) -> u32
    ensures { result ≡ low register }
{
    (register % 0x1_0000_0000) as u32
}

/// The text at an address, without the zero byte that ends it, which must be among the first 256 bytes.
fn read_text<R: Ram>(ram: &R, at: u64) -> Result<ArrayVec<u8, 256>, u16>
    ensures { MatchResult result
        (λ text. text_at (R.bytes ram.now) at 256 ≡ Ok text.items)
        (λ errno. text_at (R.bytes ram.now) at 256 ≡ Err errno) }
{
    let mut text = ArrayVec::new();
    for i in 0..256 {
        let Some(address) = at.checked_add(i) else {
            return Err(EFAULT);
        };
        let Some(byte) = ram.load(address, Width::W1) else {
            return Err(EFAULT);
        };
        if byte == 0 {
            return Ok(text);
        }
        text.push(byte as u8);
    }
    Err(ENAMETOOLONG)
}

/// The file name in the path at an address: the path after `strip`. Errors: `EFAULT`, `ENAMETOOLONG`, `ENOENT`.
pub fn read_path<R: Ram>(ram: &R, at: u64) -> Result<ArrayVec<u8, 256>, u16>
    ensures value { MatchResult result
        (λ name. name_at (R.bytes ram.now) at ≡ Ok name.items)
        (λ errno. name_at (R.bytes ram.now) at ≡ Err errno) }
    ensures name { IfOk result (λ name. IsTrue (is_stripped_name name.items)) }
{
    let text = read_text(ram, at)?;
    let name = strip(&text);
    if name.is_empty() {
        return Err(ENOENT);
    }
    match ArrayVec::try_from(name) {
        Ok(name) => Ok(name),
        Err(_) => unreachable!(),
    }
}

/// Checks the directory argument for a name. Errors: `ENOTDIR`, `EBADF`.
pub fn check_directory(files: &Files, dir: u64, name: &[u8]) -> Result<(), u16>
    ensures { MatchResult result
        (λ _. in_directory files.now dir name.now ≡ Ok name.now)
        (λ errno. in_directory files.now dir name.now ≡ Err errno) }
{
    if name.first() == Some(&b'/') || low(dir) == AT_FDCWD {
        return Ok(());
    }
    if files.is_descriptor(low(dir)) {
        return Err(ENOTDIR);
    }
    Err(EBADF)
}

/// The file name in the path at an address, if the directory argument is valid. Errors: those of `read_path`, `ENOTDIR`, `EBADF`.
pub fn read_path_in<R: Ram>(
    ram: &R,
    files: &Files,
    dir: u64,
    at: u64,
) -> Result<ArrayVec<u8, 256>, u16>
    ensures value { MatchResult result
        (λ name. name_in_directory (R.bytes ram.now) files.now dir at ≡ Ok name.items)
        (λ errno. name_in_directory (R.bytes ram.now) files.now dir at ≡ Err errno) }
    ensures name { IfOk result (λ name. IsTrue (is_stripped_name name.items)) }
{
    let name = read_path(ram, at)?;
    check_directory(files, dir, &name)?;
    Ok(name)
}
