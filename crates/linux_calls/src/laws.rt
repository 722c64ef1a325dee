//! Consequences of the call table. Each law is the contract of a function that does nothing.

ghost use Rattle.std.specs.Prelude.{◌≡◌, ℕ, ◌<◌, ◌≤◌, Some, List};
ghost use Rattle.std.specs.FinMap as map;
ghost use Rattle.paged_mem.specs.Memory.{Memory, IsWhole};
ghost use Rattle.linux_calls.specs.HeapOf.{resized};
ghost use Rattle.linux_calls.specs.Calls.{CallState, syscall};
ghost use Rattle.linux_calls.specs.Linux.{efault, enotdir, enametoolong, at_fdcwd, sys_unlinkat, sys_faccessat, sys_fchmodat, sys_openat, sys_close, sys_lseek, sys_read, sys_write, sys_exit, sys_exit_group, sys_brk};
ghost use Rattle.linux_calls.specs.Rules.{IsState, LeavesNumber, LeavesOnError, LeavesSound, LeavesState};
ghost use Rattle.mem_files.specs.Sound.{IsSound};

use crate::*;

/// Moving the break keeps every byte below both the old and the new end of the heap's pages, and the page that holds the break.
pub fn a_new_break_keeps_bytes()
    ensures { (m : Memory) (old new address : ℕ) → address < old → address < new
        → map.get (resized m old new) address ≡ map.get m address }
{}

/// Pages that the heap gave back and obtained again read 0.
pub fn pages_come_back_zero()
    ensures { (m : Memory) (old new address : ℕ) → new ≤ address → address < old
        → map.get (resized (resized m old new) new old) address ≡ Some 0 }
{}

/// A call that returns an error changes nothing.
pub fn errors_change_nothing()
    ensures { (number : ℕ) (arguments : List ℕ) (state : CallState) → LeavesOnError state (syscall number arguments state) }
{}

/// Sound files stay sound after every call if memory holds bytes.
pub fn files_stay_sound()
    ensures { (number : ℕ) (arguments : List ℕ) (state : CallState) → IsWhole state.memory → IsSound state.files
        → LeavesSound (syscall number arguments state) }
{}

/// A well-formed state stays well-formed after every call.
pub fn states_stay_in_order()
    ensures { (number : ℕ) (arguments : List ℕ) (state : CallState) → IsState state
        → LeavesState (syscall number arguments state) }
{}

/// In a well-formed state, the value that a call returns to the guest is below 2^64, and an exit status is below 256.
pub fn answers_are_numbers()
    ensures { (number : ℕ) (arguments : List ℕ) (state : CallState) → IsState state
        → LeavesNumber (syscall number arguments state) }
{}

/// The numbers in the code are those of Linux.
pub fn numbers_are_those_of_linux()
    ensures errors { (EFAULT ≡ efault) × (ENOTDIR ≡ enotdir) × (ENAMETOOLONG ≡ enametoolong) }
    ensures directory { AT_FDCWD ≡ at_fdcwd }
    ensures calls { (SYS_UNLINKAT ≡ sys_unlinkat) × (SYS_FACCESSAT ≡ sys_faccessat) × (SYS_FCHMODAT ≡ sys_fchmodat)
        × (SYS_OPENAT ≡ sys_openat) × (SYS_CLOSE ≡ sys_close) × (SYS_LSEEK ≡ sys_lseek) × (SYS_READ ≡ sys_read)
        × (SYS_WRITE ≡ sys_write) × (SYS_EXIT ≡ sys_exit) × (SYS_EXIT_GROUP ≡ sys_exit_group) × (SYS_BRK ≡ sys_brk) }
{}
