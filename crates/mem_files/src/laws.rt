//! Laws about the definitions of several calls together.

ghost use Rattle.std.specs.Prelude.{◌≡◌, ◌<◌, ◌≤◌, ℕ, ℤ, pos, List, length, All, IsTrue, IsSome, IsOkAnd, Ok, Some, None, false};
ghost use Rattle.std.specs.FinMap as map;
ghost use Rattle.mem_files.specs.declared.open_file.OpenFile.TheVariants.{File};
ghost use Rattle.ddc_base.specs.Limits.{most_name};
ghost use Rattle.mem_files.specs.declared.open_file.Access.{Access};
ghost use Rattle.mem_files.specs.Access.{is_read};
ghost use Rattle.mem_files.specs.Linux.{enoent, ebadf, eexist, einval, emfile, efbig, enospc, espipe, o_accmode, o_rdonly, o_wronly, o_rdwr, o_creat, o_excl, o_trunc, o_append, seek_set, seek_cur, seek_end};
ghost use Rattle.mem_files.specs.Names.{is_stripped_name};
ghost use Rattle.mem_files.specs.World.{World, lowest_unused};
ghost use Rattle.mem_files.specs.Calls.{first_world, placed, opened, closed, written, skipped, sought, ready, removed};
ghost use Rattle.mem_files.specs.Sound.{AreBytes, IsSound};
ghost use Rattle.mem_files.specs.Outputs.{left, out, OutputLocation, AtPath, AreLeft, IsContent};
ghost use Rattle.std.specs.List.{Contains};

use crate::*;

/// A read at the offset of a write returns the bytes that were written.
pub fn written_bytes_are_read()
    ensures { (w new : World) (fd number file_offset : ℕ) (access : Access) (bytes : List ℕ)
        → IsSound w → map.get w.open_files fd ≡ Some (File number file_offset access)
        → IsTrue (is_read access) → access.appends ≡ false
        → written w fd bytes ≡ (Ok tt, new)
        → ready (sought new fd (pos file_offset) seek_set).1 fd (length bytes) ≡ Ok bytes }
{}

/// Removing a name does not change what a descriptor reads.
pub fn removed_file_is_read()
    ensures { (w : World) (name : List ℕ) (fd count : ℕ)
        → ready (removed w name).1 fd count ≡ ready w fd count }
{}

/// A number has at most one name.
pub fn number_has_one_name()
    ensures { (w : World) (name other : List ℕ) (number : ℕ) → IsSound w
        → map.get w.names name ≡ Some number → map.get w.names other ≡ Some number → name ≡ other }
{}

/// The files of a new guest are sound, and each call keeps them sound if its names and contents are bytes.
pub fn calls_keep_the_rules()
    ensures at_start { IsSound first_world }
    ensures at_place { (w : World) (name content : List ℕ) → IsSound w → AreBytes name → AreBytes content
        → IsSound (placed w name content).1 }
    ensures at_open { (w : World) (name : List ℕ) (flags : ℕ) → IsSound w → IsTrue (is_stripped_name name) → AreBytes name
        → IsSound (opened w name flags).1 }
    ensures at_close { (w : World) (fd : ℕ) → IsSound w → IsSound (closed w fd).1 }
    ensures at_seek { (w : World) (fd : ℕ) (offset : ℤ) (whence : ℕ) → IsSound w → IsSound (sought w fd offset whence).1 }
    ensures at_skip { (w : World) (fd count : ℕ) → IsSound w → IsOkAnd (ready w fd count) (λ bytes. length bytes ≡ count)
        → IsSound (skipped w fd count) }
    ensures at_write { (w : World) (fd : ℕ) (bytes : List ℕ) → IsSound w → AreBytes bytes → IsSound (written w fd bytes).1 }
    ensures at_remove { (w : World) (name : List ℕ) → IsSound w → IsSound (removed w name).1 }
{}

/// Sound files leave at most 4,096 names of 1 to 255 bytes, strictly ascending, each with the content of its file.
/// No content or stream is longer than 268,435,456 bytes. An output is the first stream or one of these contents.
pub fn what_is_left_keeps_the_limits()
    ensures left { (w : World) → IsSound w → AreLeft (left w) }
    ensures names { (w : World) → IsSound w → All (λ file. (1 ≤ length file.0) × (length file.0 ≤ most_name)) (left w) }
    ensures contents { (w : World) → IsSound w → All (λ file. out w (AtPath file.0) ≡ Some file.1) (left w) }
    ensures streams { (w : World) → IsSound w → IsContent w.stream1 × IsContent w.stream2 }
    ensures output { (w : World) (output : OutputLocation) (content : List ℕ) → IsSound w → out w output ≡ Some content → IsContent content }
    ensures at_path { (w : World) (path content : List ℕ) → IsSound w → out w (AtPath path) ≡ Some content
        → Contains (left w) (path, content) }
{}

/// The lowest unused number is not in use, and every smaller number is. This holds for descriptors and for files.
pub fn lowest_unused_is_free()
    ensures open_files { (w : World) → map.get w.open_files (lowest_unused w.open_files) ≡ None }
    ensures open_files_below { (w : World) (fd : ℕ) → fd < lowest_unused w.open_files → IsSome (map.get w.open_files fd) }
    ensures files { (w : World) → map.get w.files (lowest_unused w.files) ≡ None }
    ensures files_below { (w : World) (number : ℕ) → number < lowest_unused w.files → IsSome (map.get w.files number) }
{}

/// The numbers in the code are those of Linux.
pub fn numbers_are_those_written()
    ensures errors { (ENOENT ≡ enoent) × (EBADF ≡ ebadf) × (EEXIST ≡ eexist) × (EINVAL ≡ einval)
        × (EMFILE ≡ emfile) × (EFBIG ≡ efbig) × (ENOSPC ≡ enospc) × (ESPIPE ≡ espipe) }
    ensures flags { (O_ACCMODE ≡ o_accmode) × (O_RDONLY ≡ o_rdonly) × (O_WRONLY ≡ o_wronly) × (O_RDWR ≡ o_rdwr)
        × (O_CREAT ≡ o_creat) × (O_EXCL ≡ o_excl) × (O_TRUNC ≡ o_trunc) × (O_APPEND ≡ o_append) }
    ensures bases { (SEEK_SET ≡ seek_set) × (SEEK_CUR ≡ seek_cur) × (SEEK_END ≡ seek_end) }
{}
