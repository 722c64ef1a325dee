//! The calls that take a path.

ghost use Rattle.std.specs.Prelude.{◌≡◌};
ghost use Rattle.linux_calls.specs.Calls.{answer_of, unlinked, accessed, mode_changed, opened_as};
ghost use Rattle.linux_calls.specs.Inside.Parts.{IsFilesAnswer};

use crate::CallEnd;
use crate::path::{check_directory, low, read_path, read_path_in};
use mem_files::{EINVAL, ENOENT, FileRefusal, Files, O_ACCMODE};
use paged_mem::Ram;

/// A result for the guest: the value, or the negated number of the error.
pub fn back(answer: Result<u64, u16>) -> CallEnd
    ensures { result ≡ CallEnd.Back (answer_of answer) }
{
    match answer {
        Ok(value) => CallEnd::Back(value),
        Err(errno) => CallEnd::Back((errno as u64).wrapping_neg()),
    }
}

/// unlinkat(dir, path, flags): removes a name.
pub fn unlinkat<R: Ram>(
    ram: &R,
    files: &mut Files,
    dir: u64,
    at: u64,
    flags: u64,
) -> Result<u64, u16>
    ensures { unlinked (R.bytes ram.now) files.old dir at flags ≡ (result, files.new) }
{
    let name = read_path_in(ram, files, dir, at)?;
    if low(flags) != 0 {
        return Err(EINVAL);
    }
    files.remove(&name)?;
    Ok(0)
}

/// faccessat(dir, path, mode): returns 0 if the file exists.
pub fn faccessat<R: Ram>(ram: &R, files: &Files, dir: u64, at: u64, mode: u64) -> Result<u64, u16>
    ensures { result ≡ accessed (R.bytes ram.now) files.now dir at mode }
{
    let name = read_path_in(ram, files, dir, at)?;
    if low(mode) > 7 {
        return Err(EINVAL);
    }
    if !files.exists(&name) {
        return Err(ENOENT);
    }
    Ok(0)
}

/// fchmodat(dir, path, mode): the mode is not stored.
pub fn fchmodat<R: Ram>(ram: &R, files: &Files, dir: u64, at: u64) -> Result<u64, u16>
    ensures { result ≡ mode_changed (R.bytes ram.now) files.now dir at }
{
    let name = read_path_in(ram, files, dir, at)?;
    if !files.exists(&name) {
        return Err(ENOENT);
    }
    Ok(0)
}

/// openat(dir, path, flags, mode): checks the path, then the flags, then the directory.
pub fn openat<R: Ram>(ram: &R, files: &mut Files, dir: u64, at: u64, flags: u64) -> CallEnd
    ensures { IsFilesAnswer files.old files.new (opened_as (R.bytes ram.now) files.old dir at flags) result }
{
    let name = match read_path(ram, at) {
        Ok(name) => name,
        Err(errno) => return back(Err(errno)),
    };
    if low(flags) & O_ACCMODE == O_ACCMODE {
        return back(Err(EINVAL));
    }
    if let Err(errno) = check_directory(files, dir, &name) {
        return back(Err(errno));
    }
    match files.open_name(&name, low(flags)) {
        Ok(fd) => CallEnd::Back(fd as u64),
        Err(FileRefusal::Errno(errno)) => back(Err(errno)),
        Err(FileRefusal::OutOfMemory) => CallEnd::OutOfMemory,
    }
}
