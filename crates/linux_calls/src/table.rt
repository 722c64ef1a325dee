//! The call table.

ghost use Rattle.std.specs.Prelude.{◌≡◌};
ghost use Rattle.linux_calls.specs.HeapOf.{IsHeapOf};
ghost use Rattle.linux_calls.specs.Calls.{state, syscall, answering};
ghost use Rattle.linux_calls.specs.Answer.{IsAnswer};
ghost use Rattle.mem_files.specs.Calls.{closed};

use crate::names::{back, faccessat, fchmodat, openat, unlinkat};
use crate::path::low;
use crate::program_break::brk;
use crate::transfer::{Buffer, read, write};
use crate::*;
use mem_files::Files;
use paged_mem::Ram;
use std::alloc::Global;

/// close(fd): closes a descriptor.
fn close(files: &mut Files, fd: u32) -> Result<u64, u16>
    ensures { answering 0 (closed files.old fd) ≡ (result, files.new) }
{
    files.close(fd)?;
    Ok(0)
}

/// Performs a call. Returns the guest's result, and updates the memory, the files and the heap.
///
/// An error is `Back` with its negated number modulo 2^64. An error, `Exit`, `Unknown` and `OutOfMemory` change nothing.
/// The heap's pages stay mapped up to its break, and no further.
pub fn call<R: Ram>(
    alloc: Global,
    regs: &CallRegs,
    ram: &mut R,
    files: &mut Files,
    heap: &mut Heap,
) -> CallEnd
    requires { IsHeapOf (R.bytes ram.old) heap.old }
    ensures answer { IsAnswer regs.now.number (state (R.bytes ram.old) files.old heap.old) (state (R.bytes ram.new) files.new heap.new)
        (syscall regs.now.number regs.now.a (state (R.bytes ram.old) files.old heap.old)) result }
    ensures kept { IsHeapOf (R.bytes ram.new) heap.new }
{
    let [a, b, c, ..] = regs.a;
    match regs.number {
        SYS_UNLINKAT => back(unlinkat(ram, files, a, b, c)),
        SYS_FACCESSAT => back(faccessat(ram, files, a, b, c)),
        SYS_FCHMODAT => back(fchmodat(ram, files, a, b)),
        SYS_OPENAT => openat(ram, files, a, b, c),
        SYS_CLOSE => back(close(files, low(a))),
        SYS_LSEEK => back(files.seek(low(a), b.cast_signed(), low(c))),
        SYS_READ => read(ram, files, low(a), Buffer { at: b, count: c }),
        SYS_WRITE => write(alloc, ram, files, low(a), Buffer { at: b, count: c }),
        SYS_EXIT => CallEnd::Exit((a % 256) as u8),
        SYS_EXIT_GROUP => CallEnd::Exit((a % 256) as u8),
        SYS_BRK => brk(ram, heap, a),
        number => CallEnd::Unknown(number),
    }
}
