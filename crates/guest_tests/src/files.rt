//! Files: scripts of calls, with what Linux's manual pages and the limits of this project say of them.

ghost use Rattle.mem_files.specs.Calls.{fits};
ghost use Rattle.std.specs.Prelude.{◌≡◌, Ok, length};

use ddc_base::OutOfMemory;
use mem_files::*;
use std::alloc::Global;
use std::process::Abort;

/// One call of a script, or as many as there are names or descriptors. `Read`, `Stream`, `Content` and `NameAfter` hold what is wanted last, and answer 0 where it comes.
#[derive(Clone, Copy)]
enum Call<'a> {
    Place(&'a [u8], &'a [u8]),
    Open(&'a [u8], u32),
    PlaceAll,
    OpenAll(&'a [u8]),
    Close(u32),
    Seek(u32, i64, u32),
    Read(u32, u64, &'a [u8]),
    Write(u32, &'a [u8]),
    Fits(u32, u64),
    Remove(&'a [u8]),
    Exists(&'a [u8]),
    Content(&'a [u8], Option<&'a [u8]>),
    Out(&'a [u8]),
    Errors(&'a [u8]),
    NameAfter(Option<&'a [u8]>, Option<&'a [u8]>),
}

/// A call, and what it answers: a value, or an error's number negated.
type Row = (Call<'static>, i64);

/// What cannot be where a script is right: other bytes, a name that isn't stripped, no memory.
const WRONG: i64 = -1000;

/// A call's answer as a program sees it: a value, or an error's number negated.
fn answer(files: &mut Files, call: Call<'_>) -> i64 {
    match call {
        Call::Place(name, content) => place(files, name, content),
        Call::PlaceAll => place_all(files),
        Call::OpenAll(name) => open_all(files, name),
        Call::Close(fd) => close(files, fd),
        Call::Seek(fd, offset, whence) => seek(files, fd, offset, whence),
        Call::Read(fd, count, want) => read(files, fd, count, want),
        Call::Write(fd, bytes) => write_if_fits(files, fd, bytes),
        Call::Fits(fd, count) => fits(files, fd, count),
        Call::Out(want) => out(files, want),
        Call::Errors(want) => errors(files, want),
        Call::NameAfter(name, want) => name_after(files, name, want),
        Call::Open(name, flags) => open(files, name, flags),
        Call::Remove(name) => remove(files, name),
        Call::Exists(name) => exists(files, name),
        Call::Content(name, want) => content(files, name, want),
    }
}

fn place(files: &mut Files, name: &[u8], content: &[u8]) -> i64 {
    match files.place(name, content) {
        Ok(()) => 0,
        Err(PlaceRefusal::BadName) => 1,
        Err(PlaceRefusal::Twice) => 2,
        Err(PlaceRefusal::Full) => 3,
        Err(PlaceRefusal::OutOfMemory) => WRONG,
    }
}

fn open(files: &mut Files, name: &[u8], flags: u32) -> i64 {
    if !is_stripped_name(name) {
        return WRONG;
    }
    match files.open_name(name, flags) {
        Ok(fd) => i64::from(fd),
        Err(FileRefusal::Errno(errno)) => -i64::from(errno),
        Err(FileRefusal::OutOfMemory) => WRONG,
    }
}

fn seek(files: &mut Files, fd: u32, offset: i64, whence: u32) -> i64 {
    match files.seek(fd, offset, whence) {
        Ok(file_offset) => i64::try_from(file_offset).unwrap_or(WRONG),
        Err(errno) => -i64::from(errno),
    }
}

fn remove(files: &mut Files, name: &[u8]) -> i64 {
    if is_stripped_name(name) {
        done(files.remove(name))
    } else {
        WRONG
    }
}

fn exists(files: &Files, name: &[u8]) -> i64 {
    if is_stripped_name(name) {
        i64::from(files.exists(name))
    } else {
        WRONG
    }
}

fn content(files: &Files, name: &[u8], want: Option<&[u8]>) -> i64 {
    zero_if(is_stripped_name(name) && files.content(name) == want)
}

fn out(files: &Files, want: &[u8]) -> i64 {
    zero_if(files.stream(1) == want)
}

fn errors(files: &Files, want: &[u8]) -> i64 {
    zero_if(files.stream(2) == want)
}

fn name_after(files: &Files, name: Option<&[u8]>, want: Option<&[u8]>) -> i64 {
    zero_if(files.name_after(name) == want)
}

fn close(files: &mut Files, fd: u32) -> i64 {
    done(files.close(fd))
}

fn fits(files: &Files, fd: u32, count: u64) -> i64 {
    done(files.fits(fd, count))
}

fn zero_if(is: bool) -> i64 {
    if is { 0 } else { WRONG }
}

fn done(outcome: Result<(), u16>) -> i64 {
    match outcome {
        Ok(()) => 0,
        Err(errno) => -i64::from(errno),
    }
}

fn write_if_fits(files: &mut Files, fd: u32, bytes: &[u8]) -> i64 {
    match files.fits(fd, bytes.len() as u64) {
        Ok(()) => write(files, fd, bytes),
        Err(errno) => -i64::from(errno),
    }
}

/// Writes bytes that fit.
fn write(files: &mut Files, fd: u32, bytes: &[u8]) -> i64
    requires { fits files.old fd (length bytes.now) ≡ Ok tt }
{
    match files.write(fd, bytes) {
        Ok(()) => 0,
        Err(OutOfMemory) => WRONG,
    }
}

/// Reads, and moves the file offset.
fn read(files: &mut Files, fd: u32, count: u64, want: &[u8]) -> i64 {
    let count = match files.ready(fd, count) {
        Ok(bytes) if bytes == want => bytes.len() as u64,
        Ok(_) => return WRONG,
        Err(errno) => return -i64::from(errno),
    };
    files.skip(fd, count);
    0
}

/// Runs a script, and asks for each call's answer.
fn run(rt: &impl Abort, files: &mut Files, script: &[Row]) {
    for (index, (call, want)) in script.iter().enumerate() {
        assert!(rt; answer(files, *call) == *want, "call {index}");
    }
}

/// Runs a script on new files.
fn run_anew(rt: &impl Abort, alloc: Global, script: &[Row]) {
    let mut files = Files::new(alloc).expect(rt, "memory");
    run(rt, &mut files, script);
}

/// Names that are guest file names, those that are held already, and what is no name.
static NAMES: [Row; 10] = [
    (Call::NameAfter(None, None), 0),
    (Call::Place(b"a", b"x"), 0),
    (Call::Place(b"./a", b"x"), 2),
    (Call::Place(b"././b", b"x"), 0),
    (Call::Place(b"b", b"x"), 2),
    (Call::Place(b"", b"x"), 1),
    (Call::Place(b"./", b"x"), 1),
    (Call::Place(b"c\0", b"x"), 1),
    (Call::Place(&[b'n'; 255], b"x"), 0),
    (Call::Place(&[b'n'; 256], b"x"), 1),
];

/// The names in the order of their bytes.
static ORDERED: [Row; 10] = [
    (Call::Place(b"b", b""), 0),
    (Call::Place(b"a/b", b""), 0),
    (Call::Place(b"a", b""), 0),
    (Call::Place(b"\xff", b""), 0),
    (Call::NameAfter(None, Some(b"a")), 0),
    (Call::NameAfter(Some(b"a"), Some(b"a/b")), 0),
    (Call::NameAfter(Some(b"a/b"), Some(b"b")), 0),
    (Call::NameAfter(Some(b"aa"), Some(b"b")), 0),
    (Call::NameAfter(Some(b"b"), Some(b"\xff")), 0),
    (Call::NameAfter(Some(b"\xff"), None), 0),
];

/// The flags are looked at before the descriptors, and these before the name.
static NO_MORE_DESCRIPTORS: [Row; 10] = [
    (Call::Place(b"f", b"x"), 0),
    (Call::OpenAll(b"f"), 0),
    (Call::Open(b"f", O_RDONLY), -24),
    (Call::Open(b"g", O_RDONLY), -24),
    (Call::Open(b"f", O_CREAT | O_EXCL), -24),
    (Call::Open(b"f", O_ACCMODE), -22),
    (Call::Close(1023), 0),
    (Call::Open(b"g", O_RDONLY), -2),
    (Call::Open(b"f", O_CREAT | O_EXCL), -17),
    (Call::Open(b"f", O_RDONLY), 1023),
];

/// What is served with 4,096 names, and what is not.
static NO_MORE_NAMES: [Row; 10] = [
    (Call::PlaceAll, 0),
    (Call::Place(b"f", b""), 3),
    (Call::Place(b"@@", b""), 2),
    (Call::Place(b"", b""), 1),
    (Call::Open(b"f", O_CREAT), -28),
    (Call::Open(b"f", O_RDONLY), -2),
    (Call::Open(b"@@", O_CREAT | O_EXCL), -17),
    (Call::Open(b"@@", O_CREAT), 3),
    (Call::Remove(b"A@"), 0),
    (Call::Open(b"f", O_CREAT), 4),
];

/// Writes that end at the limit of a file and at that of all bytes, and one byte past each. A file that would be too large
/// is refused before too many bytes in all, and a bad descriptor before both.
static NO_MORE_BYTES: [Row; 22] = [
    (Call::Open(b"a", O_RDWR | O_CREAT), 3),
    (Call::Seek(3, 268_435_455, SEEK_SET), 268_435_455),
    (Call::Write(3, b"ab"), -27),
    (Call::Write(3, b"a"), 0),
    (Call::Write(3, b"b"), -27),
    (Call::Write(3, b""), 0),
    (Call::Open(b"b", O_RDWR | O_CREAT), 4),
    (Call::Seek(4, 268_435_452, SEEK_SET), 268_435_452),
    (Call::Write(4, b"x"), 0),
    (Call::Write(1, b"1234"), -28),
    (Call::Write(1, b"123"), 0),
    (Call::Write(1, b"4"), -28),
    (Call::Write(4, b"yyy"), -28),
    (Call::Write(4, b"yyyy"), -27),
    (Call::Fits(0, 1 << 40), -9),
    (Call::Place(b"c", b"1"), 3),
    (Call::Place(b"c", b""), 0),
    (Call::Seek(4, 0, SEEK_SET), 0),
    (Call::Write(4, b"zz"), 0),
    (Call::Seek(4, 0, SEEK_END), 268_435_453),
    (Call::Open(b"a", O_RDONLY | O_TRUNC), 5),
    (Call::Write(4, b"yyy"), 0),
];

/// lseek(2), in a file of five bytes.
static SEEKS: [Row; 17] = [
    (Call::Place(b"f", b"01234"), 0),
    (Call::Open(b"f", O_RDONLY), 3),
    (Call::Seek(3, 2, SEEK_SET), 2),
    (Call::Seek(3, 2, SEEK_CUR), 4),
    (Call::Seek(3, -4, SEEK_CUR), 0),
    (Call::Seek(3, -1, SEEK_CUR), -22),
    (Call::Seek(3, -1, SEEK_END), 4),
    (Call::Seek(3, 9, SEEK_END), 14),
    (Call::Seek(3, 9, SEEK_SET), 9),
    (Call::Seek(3, -6, SEEK_END), -22),
    (Call::Seek(3, 0, 3), -22),
    (Call::Seek(3, i64::MAX, SEEK_SET), i64::MAX),
    (Call::Read(3, 1, b""), 0),
    (Call::Seek(3, 1, SEEK_CUR), -22),
    (Call::Seek(0, 0, SEEK_SET), -29),
    (Call::Seek(1, 0, 9), -29),
    (Call::Seek(4, 0, 9), -9),
];

/// write(2), read(2) and unlink(2): a gap, an end, a name that goes while its file is open.
static WRITES_AND_READS: [Row; 18] = [
    (Call::Open(b"g", O_RDWR | O_CREAT), 3),
    (Call::Write(3, b"ab"), 0),
    (Call::Seek(3, 2, SEEK_CUR), 4),
    (Call::Write(3, b"cd"), 0),
    (Call::Open(b"g", O_WRONLY | O_APPEND), 4),
    (Call::Write(4, b"e"), 0),
    (Call::Read(4, 1, b""), -9),
    (Call::Read(3, 9, b"e"), 0),
    (Call::Seek(3, 1, SEEK_SET), 1),
    (Call::Write(3, b"B"), 0),
    (Call::Read(3, 3, b"\0\0c"), 0),
    (Call::Read(3, 9, b"de"), 0),
    (Call::Remove(b"h"), -2),
    (Call::Remove(b"g"), 0),
    (Call::Open(b"g", O_RDWR | O_CREAT), 5),
    (Call::Write(4, b"!"), 0),
    (Call::Read(3, 9, b"!"), 0),
    (Call::Read(5, 9, b""), 0),
];

/// The streams, the descriptors that are used again, O_TRUNC, the most bytes of a file, and what a name holds after calls.
static CLOSES_AND_FITS: [Row; 28] = [
    (Call::Place(b"f", b"old"), 0),
    (Call::Open(b"f", O_RDWR), 3),
    (Call::Open(b"f", O_RDONLY | O_TRUNC), 4),
    (Call::Seek(3, 0, SEEK_END), 0),
    (Call::Write(1, b"out"), 0),
    (Call::Write(2, b"err"), 0),
    (Call::Write(0, b""), -9),
    (Call::Read(0, 1, b""), 0),
    (Call::Read(1, 1, b""), -9),
    (Call::Fits(3, 268_435_456), 0),
    (Call::Fits(3, 268_435_457), -27),
    (Call::Fits(2, 268_435_453), 0),
    (Call::Fits(2, 268_435_454), -27),
    (Call::Fits(4, 0), -9),
    (Call::Close(4), 0),
    (Call::Close(4), -9),
    (Call::Close(1), 0),
    (Call::Open(b"f", O_RDONLY), 1),
    (Call::Open(b"f", O_RDONLY), 4),
    (Call::Exists(b"f"), 1),
    (Call::Content(b"f", Some(b"")), 0),
    (Call::Write(3, b"new"), 0),
    (Call::Content(b"f", Some(b"new")), 0),
    (Call::Remove(b"f"), 0),
    (Call::Exists(b"f"), 0),
    (Call::Content(b"f", None), 0),
    (Call::Out(b"out"), 0),
    (Call::Errors(b"err"), 0),
];

/// openat(2): flags, and what they answer where the file is absent, and where it is present.
static OPENS: [(u32, i64, i64); 8] = [
    (O_RDONLY, -2, 3),
    (O_RDWR, -2, 3),
    (O_ACCMODE, -22, -22),
    (O_ACCMODE | O_CREAT | O_EXCL, -22, -22),
    (O_WRONLY | O_CREAT, 3, 3),
    (O_CREAT | O_EXCL, 3, -17),
    (O_EXCL, -2, 3),
    (O_WRONLY | O_TRUNC, -2, 3),
];

/// Scripts that begin with no files.
#[test]
fn runs_scripts(rt: HostRuntime) {
    let alloc = rt.alloc();
    run_anew(&rt, alloc, &NAMES);
    run_anew(&rt, alloc, &ORDERED);
    run_anew(&rt, alloc, &NO_MORE_BYTES);
    run_anew(&rt, alloc, &SEEKS);
    run_anew(&rt, alloc, &WRITES_AND_READS);
    run_anew(&rt, alloc, &CLOSES_AND_FITS);
}

/// Opens `f` where it is absent, and where it is present.
fn check_flags(rt: &impl Abort, alloc: Global, flags: u32, absent: i64, present: i64) {
    let open = Call::Open(b"f", flags);
    run_anew(rt, alloc, &[(open, absent)]);
    run_anew(rt, alloc, &[(Call::Place(b"f", b"x"), 0), (open, present)]);
}

#[test]
fn opens_by_flags(rt: HostRuntime) {
    for &(flags, absent, present) in &OPENS {
        check_flags(&rt, rt.alloc(), flags, absent, present);
    }
}

/// Opens a file as often as there are descriptors: the 1,024th is the last.
fn open_all(files: &mut Files, name: &[u8]) -> i64 {
    for fd in 3..1024 {
        if open(files, name, O_RDONLY) != fd {
            return WRONG;
        }
    }
    0
}

#[test]
fn runs_out_of_descriptors(rt: HostRuntime) {
    run_anew(&rt, rt.alloc(), &NO_MORE_DESCRIPTORS);
}

/// Places files of two letters as often as there are names: the 4,096th is the last.
fn place_all(files: &mut Files) -> i64 {
    for first in 64..128 {
        for second in 64..128 {
            if place(files, &[first, second], b"") != 0 {
                return WRONG;
            }
        }
    }
    0
}

#[test]
fn runs_out_of_names(rt: HostRuntime) {
    run_anew(&rt, rt.alloc(), &NO_MORE_NAMES);
}
