//! Sources of hex1 and hex2 with what the reference pages say of them.

use ddc_base::Bytes;
use hex_langs::items::{HexRefusal, Item, Kind, items1, items2};
use hex_langs::link::{HexLanguage, laws, link, value};
use std::alloc::Global;
use std::process::Abort;

/// What a row's source has to result in: its bytes at base 0, or its refusal.
type Answer = Result<&'static [u8], HexRefusal>;

static HEX2: [(&str, Answer); 32] = [
    // Bytes, comments and blanks.
    ("7f 45 4C46", Ok(b"\x7f\x45\x4c\x46")),
    ("0 # a\n0;\n\t1\r1", Ok(b"\x00\x11")),
    ("0", Err(HexRefusal::OddDigits(0))),
    ("00 0 # and no more", Err(HexRefusal::OddDigits(3))),
    ("0g", Err(HexRefusal::OddDigits(0))),
    ("?", Err(HexRefusal::BadField(0))),
    ("00 g", Err(HexRefusal::BadField(3))),
    // Names end at a blank or `>`; a sign inside them is a byte like another.
    (":", Err(HexRefusal::BadField(0))),
    (": a", Err(HexRefusal::BadField(0))),
    (":a>b", Err(HexRefusal::BadField(2))),
    ("%a>", Err(HexRefusal::BadField(0))),
    ("%>a", Err(HexRefusal::BadField(0))),
    ("%a >b", Err(HexRefusal::BadField(3))),
    ("%a>b>c", Err(HexRefusal::BadField(4))),
    (":a#b 00 &a#b", Ok(b"\x00\x00\x00\x00\x00")),
    (":a; 00\n&a;", Ok(b"\x00\x00\x00\x00\x00")),
    // Fields and words.
    (".0005000", Err(HexRefusal::BadField(0))),
    (".0005000g 13000000", Err(HexRefusal::BadField(0))),
    (". 00050000", Err(HexRefusal::BadField(0))),
    (".00050000 13000000 13", Ok(b"\x13\x05\x00\x00\x13")),
    ("!x 13", Err(HexRefusal::Dangling(0))),
    ("00 !x .00000000 13", Err(HexRefusal::Dangling(3))),
    ("!x @y 13000000", Err(HexRefusal::BadField(3))),
    ("!x 13 @y", Err(HexRefusal::BadField(6))),
    (".00000000 13 !x", Err(HexRefusal::Dangling(0))),
    (
        ".00000000 13 .00000000 000000",
        Err(HexRefusal::Dangling(0)),
    ),
    ("!x :y 13000000", Err(HexRefusal::Dangling(0))),
    ("!x < 13000000", Err(HexRefusal::Dangling(0))),
    ("!x ? 13000000", Err(HexRefusal::BadField(3))),
    ("!x 1300 0", Err(HexRefusal::OddDigits(8))),
    // Linking.
    (":a 00 :a", Err(HexRefusal::DoubleLabel(2))),
    ("&q :a :a", Err(HexRefusal::DoubleLabel(2))),
];

static LINKS: [(&str, Answer); 9] = [
    ("&q", Err(HexRefusal::NoLabel(0))),
    ("00 %a>q :a", Err(HexRefusal::NoLabel(1))),
    ("00 %q>a :a", Err(HexRefusal::NoLabel(1))),
    ("@a 63000000 &q 00 :a", Err(HexRefusal::OutOfReach(0))),
    ("&q @a 63000000 00 :a", Err(HexRefusal::NoLabel(0))),
    ("00 @a 63000000 :b 00 :a", Err(HexRefusal::OutOfReach(1))),
    ("$a 6f000000 00 :a", Err(HexRefusal::OutOfReach(0))),
    ("00 < 01 <", Ok(b"\x00\x00\x00\x00\x01\x00\x00\x00")),
    ("", Ok(b"")),
];

static HEX1: [(&str, Answer); 11] = [
    (
        ":a 00 00 00 00 @a 63000000",
        Ok(b"\x00\x00\x00\x00\xe3\x0e\x00\xfe"),
    ),
    (":#00 &#", Ok(b"\x00\x00\x00\x00\x00")),
    (":;00 &;", Ok(b"\x00\x00\x00\x00\x00")),
    (":<00 &<", Ok(b"\x00\x00\x00\x00\x00")),
    (":>00 %>", Ok(b"\x00\xfb\xff\xff\xff")),
    (":ab0", Ok(b"\xb0")),
    (":\n00", Err(HexRefusal::BadField(0))),
    (":", Err(HexRefusal::BadField(0))),
    ("<", Err(HexRefusal::BadField(0))),
    ("00 %a>b :a", Err(HexRefusal::BadField(5))),
    ("$a 6f000000 :a", Ok(b"\x6f\x00\x40\x00")),
];

/// Whether a source results in this value or this refusal.
fn has_answer(
    alloc: Global,
    language: HexLanguage,
    source: &str,
    answer: Result<&[u8], HexRefusal>,
) -> bool {
    match value(alloc, language, 0, source.as_bytes()) {
        Ok(bytes) => answer == Ok(bytes.as_slice()),
        Err(refusal) => answer == Err(refusal),
    }
}

fn compare(rt: &impl Abort, alloc: Global, language: HexLanguage, rows: &[(&str, Answer)]) {
    for (source, answer) in rows {
        assert!(rt; has_answer(alloc, language, source, *answer), "{source}");
    }
}

#[test]
fn hex2_sources(rt: HostRuntime) {
    compare(&rt, rt.alloc(), HexLanguage::Hex2, &HEX2);
    compare(&rt, rt.alloc(), HexLanguage::Hex2, &LINKS);
}

#[test]
fn hex1_sources(rt: HostRuntime) {
    compare(&rt, rt.alloc(), HexLanguage::Hex1, &HEX1);
    let table: [(&str, Answer); 2] = [("# a\n7F 4\n5;x", Ok(b"\x7f\x45")), ("ABC", Ok(b"\xab"))];
    compare(&rt, rt.alloc(), HexLanguage::Hex0, &table);
}

/// What an item is, in a few words.
fn shown(item: Option<Item<'_>>) -> &'static str {
    match item {
        Some(Item::Word(0x297, Kind::U, _)) => "upper word",
        Some(Item::Word(_, _, _)) => "another word",
        Some(Item::Gap(_, _)) => "gap",
        Some(Item::Pad) => "pad",
        Some(_) => "another item",
        None => "none",
    }
}

/// What items2 answers of a source, in a few words.
fn shown_of(alloc: Global, source: &[u8], index: usize) -> &'static str {
    match items2(alloc, source) {
        Ok(items) => shown(items.get(index)),
        Err(_) => "refused",
    }
}

#[test]
fn items_of_a_source(rt: HostRuntime) {
    let source = b"~x 97020000 %a>b <";
    let table = ["upper word", "gap", "pad", "none"];
    for (index, wanted) in table.iter().enumerate() {
        assert_eq!(rt; shown_of(rt.alloc(), source, index), *wanted);
    }
    laws::same_at_every_base();
    laws::bytes_end_after_the_last();
    laws::names_do_not_matter();
    laws::plain_sources();
    hex_langs::items::laws::plain_sources();
}

/// The bytes of a hex1 source at the greatest base.
fn at_the_greatest_base(alloc: Global, source: &[u8]) -> Result<Bytes, HexRefusal> {
    match items1(alloc, source) {
        Ok(items) => link(alloc, &items, 137_438_953_472),
        Err(refusal) => Err(refusal),
    }
}

fn is_zeros(alloc: Global, source: &[u8]) -> bool {
    match at_the_greatest_base(alloc, source) {
        Ok(bytes) => bytes.as_slice() == [0_u8, 0, 0, 0].as_slice(),
        Err(_) => false,
    }
}

fn is_refused(alloc: Global, source: &[u8], wanted: HexRefusal) -> bool {
    match at_the_greatest_base(alloc, source) {
        Ok(_) => false,
        Err(refusal) => refusal == wanted,
    }
}

#[test]
fn the_greatest_base(rt: HostRuntime) {
    assert!(rt; is_zeros(rt.alloc(), b"%x:x"));
    assert!(rt; is_refused(rt.alloc(), b":x&x", HexRefusal::OutOfReach(1)));
}
