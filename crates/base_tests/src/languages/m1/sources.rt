//! M1 sources with what the reference page says of them: the text of their items, or the refusal.

use crate::languages::m1::blanks;
use ddc_base::{Bytes, OutOfMemory};
use m1_lang::{M1Refusal, expand, laws, write_items};
use std::alloc::Global;
use std::process::Abort;
use std::test::Fail;

/// A source, and its items' text or its refusal.
type Row = (&'static str, Result<&'static str, M1Refusal>);

/// The worked example, and the first refusals.
#[rattlefmt::skip]
static WORKED: [Row; 7] = [
    ("DEFINE addi 13000000\nDEFINE rd_a0 .00050000\n:s rd_a0 !5 addi \"hi\"", Ok(":s\n13\n05\n50\n00\n68\n69\n00\n00\n")),
    ("!2048", Err(M1Refusal::NumberRange(0))),
    ("foo", Err(M1Refusal::UnknownWord(0))),
    ("\"a", Err(M1Refusal::OpenString(0))),
    ("DEFINE x", Err(M1Refusal::BadDefine(0))),
    ("", Ok("")),
    (" \t\r\n# and no more", Ok("")),
];

/// Words, quotes and comments.
#[rattlefmt::skip]
static WORDS: [Row; 10] = [
    ("'00'11", Ok("00\n11\n")),
    ("\"a\"#c", Ok("61\n00\n00\n00\n")),
    ("11\"a\"", Err(M1Refusal::UnknownWord(0))),
    ("x\"a b\"", Err(M1Refusal::UnknownWord(0))),
    ("00;11", Err(M1Refusal::UnknownWord(0))),
    ("00 ;11\n22", Ok("00\n22\n")),
    (":a#b &a#b", Ok(":a#b\n&a#b\n")),
    ("00 \"a # b\n'", Err(M1Refusal::OpenString(3))),
    ("'0\"'", Err(M1Refusal::UnknownWord(0))),
    ("00\t11\r22\n33", Ok("00\n11\n22\n33\n")),
];

/// Texts and digits.
#[rattlefmt::skip]
static TEXTS: [Row; 11] = [
    ("\"\"", Ok("00\n00\n00\n00\n")),
    ("\"abc\"", Ok("61\n62\n63\n00\n")),
    ("\"abcd\"", Ok("61\n62\n63\n64\n00\n00\n00\n00\n")),
    ("\"a'b\"", Ok("61\n27\n62\n00\n")),
    ("''", Err(M1Refusal::UnknownWord(0))),
    ("'0'", Err(M1Refusal::UnknownWord(0))),
    ("'0 0'", Err(M1Refusal::UnknownWord(0))),
    ("'aF'", Ok("AF\n")),
    ("aFbC", Ok("AF\nBC\n")),
    ("000", Err(M1Refusal::UnknownWord(0))),
    ("0g", Err(M1Refusal::UnknownWord(0))),
];

/// Definitions: any word is a name, a value is digits or a field, and a definition holds everywhere.
#[rattlefmt::skip]
static DEFINITIONS: [Row; 19] = [
    ("x DEFINE x 00 x", Ok("00\n00\n")),
    ("DEFINE \"a b\" 11 \"a b\"", Ok("11\n")),
    ("DEFINE !5 22 !5", Ok("22\n")),
    ("DEFINE < 33 <", Ok("33\n")),
    ("DEFINE 00 44 00", Ok("44\n")),
    ("DEFINE DEFINE 55 DEFINE x 66 x", Ok("66\n")),
    ("DEFINE x '00'", Err(M1Refusal::BadDefine(0))),
    ("DEFINE x \"00\"", Err(M1Refusal::BadDefine(0))),
    ("DEFINE x y DEFINE y 00", Err(M1Refusal::BadDefine(0))),
    ("DEFINE x .0005000", Err(M1Refusal::BadDefine(0))),
    ("DEFINE x .0005000g", Err(M1Refusal::BadDefine(0))),
    ("DEFINE x 000", Err(M1Refusal::BadDefine(0))),
    ("00 DEFINE", Err(M1Refusal::BadDefine(3))),
    ("DEFINE DEFINE DEFINE", Err(M1Refusal::BadDefine(0))),
    ("DEFINE a 00 DEFINE a 11", Err(M1Refusal::DoubleDefine(12))),
    ("DEFINE a 00 DEFINE a 0", Err(M1Refusal::BadDefine(12))),
    ("DEFINE a 00 DEFINE a 00 DEFINE b", Err(M1Refusal::DoubleDefine(12))),
    ("define a 00", Err(M1Refusal::UnknownWord(0))),
    ("DEFINE a 00 DEFINE A 11 A a", Ok("11\n00\n")),
];

/// The order of refusals: quotes, definitions, then the other words.
#[rattlefmt::skip]
static ORDERS: [Row; 6] = [
    ("foo DEFINE a 0 \"", Err(M1Refusal::OpenString(15))),
    ("DEFINE a 00 DEFINE a 11 'q", Err(M1Refusal::OpenString(24))),
    ("foo DEFINE a 0", Err(M1Refusal::BadDefine(4))),
    ("DEFINE a 00 !9999 DEFINE a 11", Err(M1Refusal::DoubleDefine(18))),
    ("!2048 foo", Err(M1Refusal::NumberRange(0))),
    ("foo !2048", Err(M1Refusal::UnknownWord(0))),
];

/// Numbers: every base and sign, and both ends of each range.
#[rattlefmt::skip]
static NUMBERS: [Row; 20] = [
    ("!2047 00000000", Ok("00\n00\nF0\n7F\n")),
    ("!-2049", Err(M1Refusal::NumberRange(0))),
    ("!-2048 00000000", Ok("00\n00\n00\n80\n")),
    ("@2048", Err(M1Refusal::NumberRange(0))),
    ("@-2049", Err(M1Refusal::NumberRange(0))),
    ("@-2048 00000000", Ok("00\n00\n00\n80\n")),
    ("~4294967296", Err(M1Refusal::NumberRange(0))),
    ("~-2147483649", Err(M1Refusal::NumberRange(0))),
    ("%4294967296", Err(M1Refusal::NumberRange(0))),
    ("%-2147483649", Err(M1Refusal::NumberRange(0))),
    ("%4294967295 %-2147483648", Ok("FF\nFF\nFF\nFF\n00\n00\n00\n80\n")),
    ("%-0x1 %0xfF", Ok("FF\nFF\nFF\nFF\nFF\n00\n00\n00\n")),
    ("%-0", Ok("00\n00\n00\n00\n")),
    ("%08", Ok("08\n00\n00\n00\n")),
    ("%18446744073709551621", Err(M1Refusal::NumberRange(0))),
    ("%-0x10000000000000005", Err(M1Refusal::NumberRange(0))),
    ("%1111111111111111111111111111111111111111111111111111111111111111111111", Err(M1Refusal::NumberRange(0))),
    ("!-9999999999999999999999999999999999999999999999999999999999999999999999", Err(M1Refusal::NumberRange(0))),
    ("%00000000000000000000000000000000000000000000000000000000000000000000005", Ok("05\n00\n00\n00\n")),
    ("%0x00000000000000000000000000000000000000000000000000000000000000000000007f", Ok("7F\n00\n00\n00\n")),
];

/// What is no number is a name.
#[rattlefmt::skip]
static NAMES: [Row; 10] = [
    ("!0x 13000000", Ok("!0x 13000000\n")),
    ("@0X5 63000000", Ok("@0X5 63000000\n")),
    ("~- 37000000", Ok("~- 37000000\n")),
    ("%+1", Ok("%+1\n")),
    ("$5 6f000000", Ok("$5 6F000000\n")),
    ("&5 :5", Ok("&5\n:5\n")),
    ("%5>6", Ok("%5>6\n")),
    ("!--1 13000000", Ok("!--1 13000000\n")),
    ("%5 %5x", Ok("05\n00\n00\n00\n%5x\n")),
    ("%0xg", Ok("%0xg\n")),
];

/// The forms of hex2, the name being the rest of the word.
#[rattlefmt::skip]
static FORMS: [Row; 16] = [
    ("~x 97020000 !x 93820200 %x %x>y &x :x <", Ok("~x 97020000\n!x 93820200\n%x\n%x>y\n&x\n:x\n<\n")),
    (":a>b", Err(M1Refusal::UnknownWord(0))),
    ("%a>", Err(M1Refusal::UnknownWord(0))),
    ("%>b", Err(M1Refusal::UnknownWord(0))),
    ("%a>b>c", Err(M1Refusal::UnknownWord(0))),
    ("%a>b>", Err(M1Refusal::UnknownWord(0))),
    (":", Err(M1Refusal::UnknownWord(0))),
    ("!", Err(M1Refusal::UnknownWord(0))),
    ("%", Err(M1Refusal::UnknownWord(0))),
    ("$", Err(M1Refusal::UnknownWord(0))),
    ("&a>", Err(M1Refusal::UnknownWord(0))),
    ("<x", Err(M1Refusal::UnknownWord(0))),
    (">", Err(M1Refusal::UnknownWord(0))),
    (".0005000", Err(M1Refusal::UnknownWord(0))),
    (".000500000", Err(M1Refusal::UnknownWord(0))),
    ("?", Err(M1Refusal::UnknownWord(0))),
];

/// Words of four bytes: what follows a field goes into the word, whatever it comes from.
#[rattlefmt::skip]
static FOURS: [Row; 19] = [
    (".00050000 130000001122", Ok("13\n05\n00\n00\n11\n22\n")),
    ("!5 \"abc\"", Ok("61\n62\n33\n00\n")),
    ("!0 \"abcd\"", Ok("61\n62\n63\n64\n00\n00\n00\n00\n")),
    (".000000ff %1 'aabb'", Ok("01\n00\n00\nFF\nAA\nBB\n")),
    ("DEFINE w 13000000 .00050000 w", Ok("13\n05\n00\n00\n")),
    ("!x .00000500 .00100000 13000000", Ok("!x 13100500\n")),
    (".00050000 13 00 # c\n 00 00", Ok("13\n05\n00\n00\n")),
    ("!x 13 @y", Err(M1Refusal::UnknownWord(6))),
    ("!x @y 13000000", Err(M1Refusal::UnknownWord(3))),
    (".00000000 13 !x", Err(M1Refusal::Dangling(0))),
    ("!x 13 !5", Err(M1Refusal::Dangling(0))),
    ("!x :y 13000000", Err(M1Refusal::Dangling(0))),
    ("00 !x 13", Err(M1Refusal::Dangling(3))),
    ("DEFINE f .00000000 00 f", Err(M1Refusal::Dangling(22))),
    ("f 00 :x DEFINE f .00000000", Err(M1Refusal::Dangling(0))),
    ("!1 00 !2048", Err(M1Refusal::NumberRange(6))),
    ("!x ? 13000000", Err(M1Refusal::UnknownWord(3))),
    ("!x <", Err(M1Refusal::Dangling(0))),
    ("!1 !2 @3 13000000", Ok("93\n01\n30\n00\n")),
];

/// The text of a source's items.
fn expanded(alloc: Global, source: &str) -> Result<Bytes, M1Refusal> {
    match expand(alloc, source.as_bytes()) {
        Ok(items) => write_items(alloc, &items).map_err(|_| M1Refusal::OutOfMemory),
        Err(refusal) => Err(refusal),
    }
}

fn is_text(answer: Result<&str, M1Refusal>, text: &[u8]) -> bool {
    match answer {
        Ok(wanted) => text == wanted.as_bytes(),
        Err(_) => false,
    }
}

/// Whether a source's items have this text, or it is refused so.
fn has_answer(alloc: Global, source: &str, answer: Result<&str, M1Refusal>) -> bool {
    match expanded(alloc, source) {
        Ok(text) => is_text(answer, text.as_slice()),
        Err(refusal) => answer == Err(refusal),
    }
}

fn check(rt: &impl Abort, alloc: Global, rows: &[Row]) {
    for (source, answer) in rows {
        assert!(rt; has_answer(alloc, source, *answer), "{source}");
    }
}

fn check_all(rt: &impl Abort, alloc: Global) {
    check(rt, alloc, &WORKED);
    check(rt, alloc, &WORDS);
    check(rt, alloc, &TEXTS);
    check(rt, alloc, &DEFINITIONS);
    check(rt, alloc, &ORDERS);
    check(rt, alloc, &NUMBERS);
    check(rt, alloc, &NAMES);
    check(rt, alloc, &FORMS);
    check(rt, alloc, &FOURS);
}

#[test]
fn sources_of_the_reference_page(rt: HostRuntime) {
    check_all(&rt, rt.alloc());
    laws::expansions_are_read_again();
    laws::words_are_those_laid_out();
    laws::layout_does_not_matter();
    laws::definitions_may_move();
    hex_langs::writer::laws::written_is_read_again();
}

/// Whether a source of so many blanks has this answer.
fn blanks_have(
    alloc: Global,
    count: usize,
    answer: Result<&str, M1Refusal>,
) -> Result<bool, OutOfMemory> {
    let source = blanks(alloc, count)?;
    Ok(has_answer(alloc, source.as_str(), answer))
}

/// The longest source, and one of a byte more.
#[test]
fn sources_at_the_limit(rt: HostRuntime) -> Result<(), Fail> {
    assert!(rt; blanks_have(rt.alloc(), 67_108_864, Ok(""))?);
    assert!(rt; blanks_have(rt.alloc(), 67_108_865, Err(M1Refusal::TooLong))?);
    Ok(())
}
