//! The calls that copy bytes between memory and files.

ghost use Rattle.std.specs.Prelude.{◌≡◌, true, IfOk, Some};
ghost use Rattle.paged_mem.specs.Memory.{bytes_at, maps};
ghost use Rattle.linux_calls.specs.declared.Heap.{Heap as the_heap};
ghost use Rattle.linux_calls.specs.Linux.{sys_read, sys_write};
ghost use Rattle.linux_calls.specs.HeapOf.{IsHeapOf};
ghost use Rattle.linux_calls.specs.Calls.{state, or_same_state, back as back_with, read_at, written_at};
ghost use Rattle.linux_calls.specs.Answer.{IsAnswer};

use crate::names::back;
use crate::{CallEnd, EFAULT};
use ddc_base::OutOfMemory;
use mem_files::{EBADF, Files};
use paged_mem::{Ram, StoreRefusal};
use std::alloc::{AllocError, Global};

/// The bytes of memory that a call copies: the address of the first, and their number.
#[derive(Clone, Copy)]
pub struct Buffer {
    pub at: u64,
    pub count: u64,
}

/// read(fd, buffer, count): copies the bytes that are ready to memory, all or none.
pub fn read<R: Ram>(ram: &mut R, files: &mut Files, fd: u32, buffer: Buffer) -> CallEnd
    ensures answer { (heap : the_heap)
        → IsAnswer sys_read (state (R.bytes ram.old) files.old heap) (state (R.bytes ram.new) files.new heap)
        (or_same_state (state (R.bytes ram.old) files.old heap) (read_at (state (R.bytes ram.old) files.old heap) fd buffer.at buffer.count)) result }
    ensures kept { (heap : the_heap) → IsHeapOf (R.bytes ram.old) heap → IsHeapOf (R.bytes ram.new) heap }
{
    let bytes = match files.ready(fd, buffer.count) {
        Ok(bytes) => bytes,
        Err(errno) => return back(Err(errno)),
    };
    if bytes.is_empty() {
        return CallEnd::Back(0);
    }
    let len = bytes.len() as u64;
    match ram.write_from(buffer.at, bytes) {
        Ok(()) => {
            files.skip(fd, len);
            CallEnd::Back(len)
        }
        Err(StoreRefusal::Unmapped) => back(Err(EFAULT)),
        Err(StoreRefusal::OutOfMemory) => CallEnd::OutOfMemory,
    }
}

/// A copy of mapped bytes.
fn copy_of<R: Ram>(alloc: Global, ram: &R, buffer: Buffer) -> Result<Vec<u8>, AllocError>
    requires { maps (R.bytes ram.now) buffer.at buffer.count ≡ true }
    ensures { IfOk result (λ bytes. bytes_at (R.bytes ram.now) buffer.at buffer.count ≡ Some bytes.items) }
{
    let mut bytes = vec![in alloc; 0u8; buffer.count as usize]?;
    ram.read_into(buffer.at, &mut bytes);
    Ok(bytes)
}

/// write(fd, buffer, count): copies the bytes from memory to the file, all or none.
pub fn write<R: Ram>(alloc: Global, ram: &R, files: &mut Files, fd: u32, buffer: Buffer) -> CallEnd
    ensures { (heap : the_heap)
        → IsAnswer sys_write (state (R.bytes ram.now) files.old heap) (state (R.bytes ram.now) files.new heap)
        (back_with (state (R.bytes ram.now) files.old heap) (written_at (R.bytes ram.now) files.old fd buffer.at buffer.count)) result }
{
    if !files.is_writable(fd) {
        return back(Err(EBADF));
    }
    if buffer.count == 0 {
        return CallEnd::Back(0);
    }
    if !ram.mapped(buffer.at, buffer.count) {
        return back(Err(EFAULT));
    }
    if let Err(errno) = files.fits(fd, buffer.count) {
        return back(Err(errno));
    }
    let bytes = match copy_of(alloc, ram, buffer) {
        Ok(bytes) => bytes,
        Err(AllocError) => return CallEnd::OutOfMemory,
    };
    match files.write(fd, &bytes) {
        Ok(()) => CallEnd::Back(buffer.count),
        Err(OutOfMemory) => CallEnd::OutOfMemory,
    }
}
