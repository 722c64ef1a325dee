//! hex2 sources and what Debian's hex2 makes of them, as tests/languages/make-cases prints it.

use crate::languages::zeros;
use ddc_base::{Bytes, OutOfMemory};
use hex_langs::link::{HexLanguage, value};
use std::alloc::Global;
use std::process::Abort;
use std::test::Fail;

/// A base, a source's front, how many bytes ` 00` follow, and its back; the length of its value, and the value's first and last bytes.
type Row = (
    u64,
    &'static str,
    usize,
    &'static str,
    usize,
    &'static [u8],
    &'static [u8],
);

/// Bytes, fields and addresses.
#[rattlefmt::skip]
static BYTES: [Row; 7] = [
    (0, "7f 45 4C46", 0, "", 4, b"\x7f\x45\x4c\x46", b"\x7f\x45\x4c\x46"),
    (0, "# a comment\n7F 4\n5;x", 0, "", 2, b"\x7f\x45", b"\x7f\x45"),
    (0, ".00050000 13000000", 0, "", 4, b"\x13\x05\x00\x00", b"\x13\x05\x00\x00"),
    (0, ".000000ff .0000ff00 13000000 13", 0, "", 5, b"\x13\x00\xff\xff\x13", b"\x13\x00\xff\xff\x13"),
    (0, ":a", 0, " &a", 4, b"\x00\x00\x00\x00", b"\x00\x00\x00\x00"),
    (6291456, ":a 00 &a &b :b", 0, "", 9, b"\x00\x00\x00\x60\x00\x09\x00\x60", b"\x00\x00\x60\x00\x09\x00\x60\x00"),
    (6291456, "&end", 300, " :end", 304, b"\x30\x01\x60\x00\x00\x00\x00\x00", b"\x00\x00\x00\x00\x00\x00\x00\x00"),
];

/// References by `~` and `!`.
#[rattlefmt::skip]
static PAIRS: [Row; 8] = [
    (6291456, "~x 97020000 !x 93820200", 2040, " :x", 2048, b"\x97\x12\x00\x00\x93\x82\x02\x80", b"\x00\x00\x00\x00\x00\x00\x00\x00"),
    (6291456, "~x 97020000 !x 93820200", 2039, " :x", 2047, b"\x97\x02\x00\x00\x93\x82\xf2\x7f", b"\x00\x00\x00\x00\x00\x00\x00\x00"),
    (6291456, ":x", 2048, " ~x 97020000 !x 93820200", 2056, b"\x00\x00\x00\x00\x00\x00\x00\x00", b"\x97\x02\x00\x00\x93\x82\x02\x80"),
    (6291456, ":x", 2052, " ~x 97020000 !x 93820200", 2060, b"\x00\x00\x00\x00\x00\x00\x00\x00", b"\x97\xf2\xff\xff\x93\x82\xc2\x7f"),
    (0, "!x 13000000", 2043, " :x", 2047, b"\x13\x00\x30\x80\x00\x00\x00\x00", b"\x00\x00\x00\x00\x00\x00\x00\x00"),
    (0, "!x 13000000", 2044, " :x", 2048, b"\x13\x00\x40\x80\x00\x00\x00\x00", b"\x00\x00\x00\x00\x00\x00\x00\x00"),
    (0, ":x", 2052, " !x 13000000", 2056, b"\x00\x00\x00\x00\x00\x00\x00\x00", b"\x00\x00\x00\x00\x13\x00\x00\x80"),
    (0, ":x", 2056, " !x 13000000", 2060, b"\x00\x00\x00\x00\x00\x00\x00\x00", b"\x00\x00\x00\x00\x13\x00\xc0\x7f"),
];

/// References by `@`.
#[rattlefmt::skip]
static BRANCHES: [Row; 5] = [
    (0, "@x 63000000", 0, ":x", 4, b"\x63\x02\x00\x00", b"\x63\x02\x00\x00"),
    (0, "@x 63000000", 4090, " :x", 4094, b"\xe3\x0f\x00\x7e\x00\x00\x00\x00", b"\x00\x00\x00\x00\x00\x00\x00\x00"),
    (0, ":x", 4096, " @x 63000000", 4100, b"\x00\x00\x00\x00\x00\x00\x00\x00", b"\x00\x00\x00\x00\x63\x00\x00\x80"),
    (0, "@x 63104500", 26, " :x", 30, b"\x63\x1f\x45\x00\x00\x00\x00\x00", b"\x00\x00\x00\x00\x00\x00\x00\x00"),
    (0, ":x", 1234, " @x 63104500", 1238, b"\x00\x00\x00\x00\x00\x00\x00\x00", b"\x00\x00\x00\x00\xe3\x17\x45\xb2"),
];

/// References by `$`.
#[rattlefmt::skip]
static JUMPS: [Row; 5] = [
    (0, "$x ef000000", 0, ":x", 4, b"\xef\x00\x40\x00", b"\xef\x00\x40\x00"),
    (0, "$x ef000000", 1048570, " :x", 1048574, b"\xef\xf0\xff\x7f\x00\x00\x00\x00", b"\x00\x00\x00\x00\x00\x00\x00\x00"),
    (0, ":x", 1048576, " $x ef000000", 1048580, b"\x00\x00\x00\x00\x00\x00\x00\x00", b"\x00\x00\x00\x00\xef\x00\x00\x80"),
    (0, "$x ef000000", 699050, " :x", 699054, b"\xef\xa0\xfa\x2a\x00\x00\x00\x00", b"\x00\x00\x00\x00\x00\x00\x00\x00"),
    (0, ":x", 349526, " $x ef000000", 349530, b"\x00\x00\x00\x00\x00\x00\x00\x00", b"\x00\x00\x00\x00\xef\xa0\xba\xaa"),
];

/// References by `%`.
#[rattlefmt::skip]
static DISTANCES: [Row; 5] = [
    (0, "%x", 0, " :x", 4, b"\x00\x00\x00\x00", b"\x00\x00\x00\x00"),
    (0, "%x", 1000, " :x", 1004, b"\xe8\x03\x00\x00\x00\x00\x00\x00", b"\x00\x00\x00\x00\x00\x00\x00\x00"),
    (0, ":x", 1000, " %x", 1004, b"\x00\x00\x00\x00\x00\x00\x00\x00", b"\x00\x00\x00\x00\x14\xfc\xff\xff"),
    (0, "%b>a :a", 700, " :b %a>b", 708, b"\xbc\x02\x00\x00\x00\x00\x00\x00", b"\x00\x00\x00\x00\x44\xfd\xff\xff"),
    (0, "%a>b :a", 700, " :b %b>b", 708, b"\x44\xfd\xff\xff\x00\x00\x00\x00", b"\x00\x00\x00\x00\x00\x00\x00\x00"),
];

/// Alignment, further names and fields, and the greatest addresses.
#[rattlefmt::skip]
static ALIGNMENT_AND_NAMES: [Row; 8] = [
    (0, "00 < 01 < <", 0, "", 8, b"\x00\x00\x00\x00\x01\x00\x00\x00", b"\x00\x00\x00\x00\x01\x00\x00\x00"),
    (3, "00 < 01 :x < &x", 0, "", 9, b"\x00\x01\x00\x00\x00\x05\x00\x00", b"\x01\x00\x00\x00\x05\x00\x00\x00"),
    (0, ":#x !#x 13050500", 0, "", 4, b"\x13\x05\x45\x00", b"\x13\x05\x45\x00"),
    (0, ".00100000 !x .00000500 13000000", 9, " :x", 13, b"\x13\x10\x15\x01\x00\x00\x00\x00", b"\x00\x00\x00\x00\x00\x00\x00\x00"),
    (0, "!x .00100000 13000000", 9, " :x", 13, b"\x13\x10\x10\x01\x00\x00\x00\x00", b"\x00\x00\x00\x00\x00\x00\x00\x00"),
    (0, "!a 13 00 # between\n 00 ; and\n00 01 :a", 0, "", 5, b"\x13\x00\x90\x00\x01", b"\x13\x00\x90\x00\x01"),
    (0, ":long_name_of_a_label !long_name_of_a_label 13050500 &long_name_of_a_label", 0, "", 8, b"\x13\x05\x45\x00\x00\x00\x00\x00", b"\x13\x05\x45\x00\x00\x00\x00\x00"),
    (536870908, ":a &a &b 00 :b", 0, "", 9, b"\xfc\xff\xff\x1f\x05\x00\x00\x20", b"\xff\xff\x1f\x05\x00\x00\x20\x00"),
];

/// Adds so many bytes ` 00`.
fn put_zeros(alloc: Global, source: &mut Bytes, count: usize) -> Result<(), OutOfMemory> {
    let zeros = zeros(alloc, count)?;
    source.extend(zeros.as_bytes())
}

/// Adds the source of a row.
fn put_row(alloc: Global, source: &mut Bytes, row: &Row) -> Result<(), OutOfMemory> {
    source.extend(row.1.as_bytes())?;
    put_zeros(alloc, source, row.2)?;
    source.extend(row.3.as_bytes())
}

/// The source of a row.
fn source_of(alloc: Global, row: &Row) -> Result<Bytes, OutOfMemory> {
    let mut source = Bytes::new(alloc);
    put_row(alloc, &mut source, row)?;
    Ok(source)
}

fn are_bytes(bytes: &[u8], row: &Row) -> bool {
    bytes.len() == row.4 && bytes.starts_with(row.5) && bytes.ends_with(row.6)
}

/// Whether a source has the value of a row. No base is above 2^37.
fn has_value(alloc: Global, row: &Row, source: &[u8]) -> bool {
    if row.0 > 137_438_953_472 {
        return false;
    }
    match value(alloc, HexLanguage::Hex2, row.0, source) {
        Ok(bytes) => are_bytes(bytes.as_slice(), row),
        Err(_) => false,
    }
}

fn is_linked(alloc: Global, row: &Row) -> Result<bool, OutOfMemory> {
    let source = source_of(alloc, row)?;
    Ok(has_value(alloc, row, source.as_slice()))
}

fn check(rt: &impl Abort, alloc: Global, rows: &[Row]) -> Result<(), OutOfMemory> {
    for row in rows {
        assert!(rt; is_linked(alloc, row)?, "{} {} {}", row.1, row.2, row.3);
    }
    Ok(())
}

fn check_all(rt: &impl Abort, alloc: Global, tables: &[&[Row]]) -> Result<(), OutOfMemory> {
    for rows in tables {
        check(rt, alloc, rows)?;
    }
    Ok(())
}

#[test]
fn values_of_debians_hex2(rt: HostRuntime) -> Result<(), Fail> {
    let tables: [&[Row]; 6] = [
        &BYTES,
        &PAIRS,
        &BRANCHES,
        &JUMPS,
        &DISTANCES,
        &ALIGNMENT_AND_NAMES,
    ];
    Ok(check_all(&rt, rt.alloc(), &tables)?)
}
