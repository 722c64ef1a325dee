use ddc_base::{
    Bytes, HexFail, ListOf, Name, OutOfMemory, digest, first_difference, put_decimal, put_hex,
    read_decimal, read_hex,
};
use std::alloc::Global;
use std::process::Abort;
use std::test::Fail;

fn put_all(bytes: &mut Bytes) -> Result<(), OutOfMemory> {
    bytes.push(7)?;
    bytes.extend(b"abc")?;
    put_decimal(bytes, 0)?;
    put_decimal(bytes, 18_446_744_073_709_551_615)
}

fn are_all(bytes: &Bytes) -> bool {
    bytes.as_slice() == b"\x07abc018446744073709551615".as_slice()
        && bytes.len() == 25
        && bytes.get(3).copied() == Some(b'c')
        && bytes.get(25).copied() == None
}

/// Whether bytes are those of a copy until one is added.
fn leave(bytes: &mut Bytes, copy: &Bytes) -> Result<bool, OutOfMemory> {
    let is_same = *copy == *bytes;
    bytes.push(0)?;
    Ok(is_same && *copy != *bytes)
}

fn grow(alloc: Global, bytes: &mut Bytes) -> Result<bool, OutOfMemory> {
    let is_empty = bytes.is_empty();
    put_all(bytes)?;
    if !is_empty || !are_all(bytes) {
        return Ok(false);
    }
    let copy = Bytes::from_slice(alloc, bytes.as_slice())?;
    leave(bytes, &copy)
}

fn few_grow(alloc: Global) -> Result<bool, OutOfMemory> {
    let mut bytes = Bytes::with_capacity(alloc, 4)?;
    grow(alloc, &mut bytes)
}

#[test]
fn bytes_grow(rt: HostRuntime) -> Result<(), Fail> {
    assert!(rt; few_grow(rt.alloc())?);
    Ok(())
}

static DECIMALS: [(&[u8], Option<u64>); 12] = [
    (b"0", Some(0)),
    (b"7", Some(7)),
    (b"18446744073709551615", Some(18_446_744_073_709_551_615)),
    (b"18446744073709551616", None),
    (b"", None),
    (b"00", None),
    (b"07", None),
    (b"+1", None),
    (b"-1", None),
    (b" 1", None),
    (b"1a", None),
    (b"\xFF", None),
];

/// Adds the digest of `abc`.
fn put_digest(text: &mut Bytes) -> Result<bool, OutOfMemory> {
    put_hex(text, &digest(b"abc").0)?;
    Ok(
        text.as_slice()
            == b"abc ba7816bf8f01cfea414140de5dae2223b00361a396177a9cb410ff61f20015ad".as_slice(),
    )
}

/// FIPS 180-4, example of one block: the digest of `abc`.
fn is_digest(alloc: Global) -> Result<bool, OutOfMemory> {
    let mut text = Bytes::from_slice(alloc, b"abc ")?;
    put_digest(&mut text)
}

fn check_decimals(rt: &impl Abort, rows: &[(&[u8], Option<u64>)]) {
    for (text, value) in rows {
        assert!(rt; read_decimal(text) == *value, "{text:?}");
    }
}

#[test]
fn numbers_as_text(rt: HostRuntime) -> Result<(), Fail> {
    check_decimals(&rt, &DECIMALS);
    assert!(rt; is_digest(rt.alloc())?);
    Ok(())
}

static HEX: [(&[u8], Result<&[u8], HexFail>); 8] = [
    (b"", Ok(b"")),
    (b"00", Ok(b"\x00")),
    (b"0a9f", Ok(b"\x0A\x9F")),
    (b"ff7e", Ok(b"\xFF\x7E")),
    (b"a", Err(HexFail::Bad)),
    (b"0A", Err(HexFail::Bad)),
    (b"0g", Err(HexFail::Bad)),
    (b"0 1 ", Err(HexFail::Bad)),
];

fn is_read(alloc: Global, text: &[u8], value: Result<&[u8], HexFail>) -> bool {
    match read_hex(alloc, text) {
        Ok(bytes) => value == Ok(bytes.as_slice()),
        Err(fail) => value == Err(fail),
    }
}

fn check_hex(rt: &impl Abort, alloc: Global, rows: &[(&[u8], Result<&[u8], HexFail>)]) {
    for (text, value) in rows {
        assert!(rt; is_read(alloc, text, *value), "{text:?}");
    }
}

#[test]
fn bytes_from_text(rt: HostRuntime) {
    check_hex(&rt, rt.alloc(), &HEX);
}

static NAMES: [(&[u8], bool); 9] = [
    (b"a", true),
    (b"hex0_seed", true),
    (b"_9", true),
    (b"abcdefghijklmnopqrstuvwxyz_01234", true),
    (b"abcdefghijklmnopqrstuvwxyz_012345", false),
    (b"", false),
    (b"A", false),
    (b"a-b", false),
    (b"a\xFF", false),
];

fn is_copied(name: &Name) -> bool {
    let copy = name.copy();
    copy == *name
}

/// Adds a name, and says whether it is this text.
fn put_name(names: &mut ListOf<Name>, name: Name, text: &[u8]) -> Result<bool, OutOfMemory> {
    let is_so = name.bytes() == text && is_copied(&name);
    names.push(name)?;
    Ok(is_so)
}

/// Adds the name that a text is, where it is to be one.
fn put_text(names: &mut ListOf<Name>, text: &[u8], is_name: bool) -> Result<bool, OutOfMemory> {
    match Name::read(text) {
        Some(name) => Ok(put_name(names, name, text)? && is_name),
        None => Ok(!is_name),
    }
}

fn put_names(names: &mut ListOf<Name>, rows: &[(&[u8], bool)]) -> Result<bool, OutOfMemory> {
    for (text, is_name) in rows {
        if !put_text(names, text, *is_name)? {
            return Ok(false);
        }
    }
    Ok(true)
}

fn is_name(name: Option<&Name>, text: &[u8]) -> bool {
    match name {
        Some(name) => name.bytes() == text,
        None => false,
    }
}

fn list(names: &mut ListOf<Name>) -> Result<bool, OutOfMemory> {
    let is_empty = names.is_empty();
    let are_put = put_names(names, &NAMES)?;
    Ok(
        is_empty
            && are_put
            && names.len() == 4
            && is_name(names.get(2), b"_9")
            && names.get(4).is_none()
            && names.as_slice().len() == 4,
    )
}

fn lists(alloc: Global) -> Result<bool, OutOfMemory> {
    let mut names = ListOf::new(alloc);
    list(&mut names)
}

#[test]
fn names_in_a_list(rt: HostRuntime) -> Result<(), Fail> {
    assert!(rt; lists(rt.alloc())?);
    Ok(())
}

static DIFFERENCES: [(&[u8], &[u8], Option<u64>); 6] = [
    (b"", b"", None),
    (b"abc", b"abc", None),
    (b"", b"\0", Some(0)),
    (b"abc", b"abd", Some(2)),
    (b"abc", b"abcd", Some(3)),
    (b"xbc", b"abcd", Some(0)),
];

/// Whether two texts differ first there, either way round.
fn differ_at(a: &[u8], b: &[u8], offset: Option<u64>) -> bool {
    first_difference(a, b) == offset && first_difference(b, a) == offset
}

fn check_differences(rt: &impl Abort, rows: &[(&[u8], &[u8], Option<u64>)]) {
    for (a, b, offset) in rows {
        assert!(rt; differ_at(a, b, *offset), "{a:?} {b:?}");
    }
}

#[test]
fn first_differences(rt: HostRuntime) {
    check_differences(&rt, &DIFFERENCES);
}
