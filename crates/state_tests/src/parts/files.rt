//! Files as lists, and files made of lists. What is wanted follows from docs/reference/files.md.

ghost use Rattle.std.specs.Prelude.{length, ◌≡◌, OnOk, []};

use checkpoints::file_parts::*;
use ddc_base::OutOfMemory;
use mem_files::*;
use std::alloc::Global;
use std::process::Abort;
use std::test::Fail;

/// Opens a file, which is done.
fn open(rt: &impl Abort, files: &mut Files, name: &[u8], flags: u32) -> u32 {
    assert!(rt; is_stripped_name(name));
    match files.open_name(name, flags) {
        Ok(fd) => fd,
        Err(_) => u32::MAX,
    }
}

fn remove(rt: &impl Abort, files: &mut Files, name: &[u8]) {
    assert!(rt; is_stripped_name(name));
    assert!(rt; files.remove(name).is_ok());
}

const APPENDING: OpenFile = OpenFile::File {
    number: 1,
    file_offset: 0,
    access: Access {
        mode: Mode::ReadWrite,
        appends: true,
    },
};

/// Whether the file from a number on is this.
fn is_file(files: &Files, from: u32, number: u32, name: Option<&[u8]>, content: &[u8]) -> bool {
    match files.file_from(from) {
        Some(file) => file.number == number && file.name == name && file.content == content,
        None => false,
    }
}

/// Makes a named file, and one that is open and lost its name: 66 is O_RDWR with O_CREAT, 1024 O_APPEND.
fn fill(rt: &impl Abort, files: &mut Files) {
    assert!(rt; files.place(b"a", b"xyz").is_ok());
    assert_eq!(rt; open(rt, files, b"b", 66 + 1024), 3);
    remove(rt, files, b"b");
}

fn check_lists(rt: &impl Abort, files: &Files) {
    assert!(rt; is_file(files, 0, 0, Some(b"a"), b"xyz"));
    assert!(rt; is_file(files, 1, 1, None, b""));
    assert!(rt; files.file_from(2).is_none());
    assert_eq!(rt; files.open_file_from(0), Some((0, OpenFile::Input)));
    assert_eq!(rt; files.open_file_from(3), Some((3, APPENDING)));
    assert_eq!(rt; files.open_file_from(4), None);
}

#[test]
fn lists_files(rt: HostRuntime) -> Result<(), Fail> {
    let mut files = Files::new(rt.alloc())?;
    fill(&rt, &mut files);
    Ok(check_lists(&rt, &files))
}

/// Adds the same files, with other bytes and streams.
fn put_parts(parts: &mut FileParts<'static>) -> Result<(), OutOfMemory>
    requires files { parts.old.files ≡ [] }
    requires open_files { parts.old.open_files ≡ [] }
    requires streams { parts.old.streams ≡ [] }
    ensures { OnOk result (length parts.new.streams ≡ 2) }
{
    parts.push_file(0, Some(b"a"), b"xyz")?;
    parts.push_file(1, None, b"1")?;
    parts.push_open_file(3, APPENDING)?;
    parts.push_stream(b"out")?;
    parts.push_stream(b"")
}

fn check_made(rt: &impl Abort, files: &mut Files) {
    assert!(rt; files.content(b"a") == Some(b"xyz"));
    assert!(rt; files.stream(1) == b"out".as_slice());
    assert!(rt; files.ready(3, 9) == Ok(b"1"));
    assert_eq!(rt; files.close(3), Ok(()));
    assert_eq!(rt; open(rt, files, b"a", 0), 0);
}

/// Whether files are made of these parts, which are then used.
fn are_made(rt: &impl Abort, alloc: Global, parts: &FileParts<'_>) -> bool
    requires { length parts.now.streams ≡ 2 }
{
    match restore(alloc, parts) {
        Ok(mut files) => {
            check_made(rt, &mut files);
            true
        }
        Err(_) => false,
    }
}

/// The same files made of lists, and used.
#[test]
fn makes_files(rt: HostRuntime) -> Result<(), Fail> {
    let mut parts = FileParts::new(rt.alloc());
    put_parts(&mut parts)?;
    assert!(rt; are_made(&rt, rt.alloc(), &parts));
    Ok(())
}

/// Why parts are refused.
fn refusal(alloc: Global, parts: &FileParts<'_>) -> Option<RestoreRefusal>
    requires { length parts.now.streams ≡ 2 }
{
    restore(alloc, parts).err()
}

/// Adds one file and one descriptor, and two streams.
fn put_row(parts: &mut FileParts<'static>, row: &Row) -> Result<(), OutOfMemory>
    requires files { parts.old.files ≡ [] }
    requires open_files { parts.old.open_files ≡ [] }
    requires streams { parts.old.streams ≡ [] }
    ensures { OnOk result (length parts.new.streams ≡ 2) }
{
    parts.push_file(row.0, row.1, b"x")?;
    parts.push_open_file(row.2, row.3)?;
    parts.push_stream(b"")?;
    parts.push_stream(b"")
}

/// Why one file and one descriptor are refused.
fn refusal_of(alloc: Global, row: &Row) -> Result<Option<RestoreRefusal>, OutOfMemory> {
    let mut parts = FileParts::new(alloc);
    put_row(&mut parts, row)?;
    Ok(refusal(alloc, &parts))
}

type Row = (
    u32,
    Option<&'static [u8]>,
    u32,
    OpenFile,
    Option<RestoreRefusal>,
);

const READS: Access = Access {
    mode: Mode::Read,
    appends: false,
};

/// Open files of some number, read from a place on.
const SEVENTH_FAR: OpenFile = OpenFile::File {
    number: 7,
    file_offset: 9_223_372_036_854_775_807,
    access: READS,
};

const FIRST: OpenFile = OpenFile::File {
    number: 0,
    file_offset: 0,
    access: READS,
};

const FIRST_TOO_FAR: OpenFile = OpenFile::File {
    number: 0,
    file_offset: 9_223_372_036_854_775_808,
    access: READS,
};

const SECOND: OpenFile = OpenFile::File {
    number: 1,
    file_offset: 0,
    access: READS,
};

static ROWS: [Row; 16] = [
    (0, Some(b"a"), 0, OpenFile::Input, None),
    (5119, Some(b"a"), 2, OpenFile::Stream2, None),
    (7, None, 1023, SEVENTH_FAR, None),
    (
        5120,
        Some(b"a"),
        0,
        OpenFile::Input,
        Some(RestoreRefusal::Range),
    ),
    (
        0,
        Some(b""),
        0,
        OpenFile::Input,
        Some(RestoreRefusal::Range),
    ),
    (
        0,
        Some(b"a\0"),
        0,
        OpenFile::Input,
        Some(RestoreRefusal::Range),
    ),
    (
        0,
        Some(b"./a"),
        0,
        OpenFile::Input,
        Some(RestoreRefusal::Range),
    ),
    (
        0,
        Some(&[b'n'; 256]),
        0,
        OpenFile::Input,
        Some(RestoreRefusal::Range),
    ),
    (
        0,
        Some(b"a"),
        1,
        OpenFile::Input,
        Some(RestoreRefusal::Range),
    ),
    (
        0,
        Some(b"a"),
        2,
        OpenFile::Stream1,
        Some(RestoreRefusal::Range),
    ),
    (
        0,
        Some(b"a"),
        1,
        OpenFile::Stream2,
        Some(RestoreRefusal::Range),
    ),
    (0, Some(b"a"), 1024, FIRST, Some(RestoreRefusal::Range)),
    (0, None, 3, FIRST_TOO_FAR, Some(RestoreRefusal::Range)),
    (0, Some(b"a"), 3, SECOND, Some(RestoreRefusal::FileRef)),
    (0, None, 0, OpenFile::Input, Some(RestoreRefusal::FileRef)),
    (0, None, 3, SECOND, Some(RestoreRefusal::FileRef)),
];

#[test]
fn refuses_parts(rt: HostRuntime) -> Result<(), Fail> {
    for (index, row) in ROWS.iter().enumerate() {
        assert_eq!(rt; refusal_of(rt.alloc(), row)?, row.4, "row {index}");
    }
    Ok(())
}

/// Adds a name that stands twice.
fn put_twice(parts: &mut FileParts<'static>) -> Result<(), OutOfMemory>
    requires files { parts.old.files ≡ [] }
    requires open_files { parts.old.open_files ≡ [] }
    requires streams { parts.old.streams ≡ [] }
    ensures { OnOk result (length parts.new.streams ≡ 2) }
{
    parts.push_file(0, Some(b"a"), b"x")?;
    parts.push_file(9, Some(b"b"), b"x")?;
    parts.push_file(10, Some(b"a"), b"y")?;
    parts.push_stream(b"")?;
    parts.push_stream(b"")
}

#[test]
fn refuses_a_name_twice(rt: HostRuntime) -> Result<(), Fail> {
    let mut parts = FileParts::new(rt.alloc());
    put_twice(&mut parts)?;
    assert_eq!(rt; refusal(rt.alloc(), &parts), Some(RestoreRefusal::Range));
    Ok(())
}
