//! M1 sources and what Debian's M1 and hex2 make of them, as tests/languages/make-m1-cases prints it.

ghost use Rattle.std.specs.Prelude.{◌≤◌};

use hex_langs::items::Items;
use hex_langs::link::link;
use m1_lang::expand;
use std::alloc::Global;
use std::process::Abort;

/// A base, a source, and its bytes.
type Row = (u64, &'static str, &'static [u8]);

/// Words, definitions and texts.
#[rattlefmt::skip]
static WORDS: [Row; 12] = [
    (6291456, "DEFINE addi 13000000\nDEFINE rd_a0 .00050000\n:s rd_a0 !5 addi \"hi!\"", b"\x13\x05\x50\x00\x68\x69\x21\x00"),
    (0, "DEFINE a 11\nDEFINE b 2233\nb a b", b"\x22\x33\x11\x22\x33"),
    (0, "DEFINE f .01020304\nDEFINE g .10203040\nDEFINE w 00000000\nf g w f f w", b"\x11\x22\x33\x44\x00\x00\x00\x00"),
    (0, "DEFINE aB 0aFb\nDEFINE ab 0c\nab aB", b"\x0c\x0a\xfb"),
    (0, "DEFINE ret 67800000 # a comment\n# another ret\nret ; and a third\nret", b"\x67\x80\x00\x00\x67\x80\x00\x00"),
    (0, "# DEFINE no\nDEFINE yes 01\nyes #no\n", b"\x01"),
    (0, "\"abc\"", b"\x61\x62\x63\x00"),
    (0, "\"a # b ; c #\"", b"\x61\x20\x23\x20\x62\x20\x3b\x20\x63\x20\x23\x00"),
    (0, "\"it's so\"", b"\x69\x74\x27\x73\x20\x73\x6f\x00"),
    (0, "\"one\ntwo\"", b"\x6f\x6e\x65\x0a\x74\x77\x6f\x00"),
    (0, "'00112233'", b"\x00\x11\x22\x33"),
    (0, "'aAbBcC' '00'", b"\xaa\xbb\xcc\x00"),
];

/// Numbers after `!`.
#[rattlefmt::skip]
static IMMEDIATE_NUMBERS: [Row; 13] = [
    (0, "DEFINE w 00000000\n!0 w", b"\x00\x00\x00\x00"),
    (0, "DEFINE w 00000000\n!1 w", b"\x00\x00\x10\x00"),
    (0, "DEFINE w 00000000\n!5 w", b"\x00\x00\x50\x00"),
    (0, "DEFINE w 00000000\n!-1 w", b"\x00\x00\xf0\xff"),
    (0, "DEFINE w 00000000\n!2047 w", b"\x00\x00\xf0\x7f"),
    (0, "DEFINE w 00000000\n!-2048 w", b"\x00\x00\x00\x80"),
    (0, "DEFINE w 00000000\n!0x7ff w", b"\x00\x00\xf0\x7f"),
    (0, "DEFINE w 00000000\n!0x7FF w", b"\x00\x00\xf0\x7f"),
    (0, "DEFINE w 00000000\n!0x5a5 w", b"\x00\x00\x50\x5a"),
    (0, "DEFINE w 00000000\n!-5 w", b"\x00\x00\xb0\xff"),
    (0, "DEFINE w 00000000\n!1365 w", b"\x00\x00\x50\x55"),
    (0, "DEFINE w 00000000\n!-1366 w", b"\x00\x00\xa0\xaa"),
    (0, "DEFINE w FFFFFFFF\n!1365 w !-1 w", b"\xff\xff\xaf\xaa\xff\xff\x0f\x00"),
];

/// Numbers after `@`.
#[rattlefmt::skip]
static BRANCH_NUMBERS: [Row; 12] = [
    (0, "DEFINE w 00000000\n@0 w", b"\x00\x00\x00\x00"),
    (0, "DEFINE w 00000000\n@1 w", b"\x80\x00\x00\x00"),
    (0, "DEFINE w 00000000\n@31 w", b"\x80\x0f\x00\x00"),
    (0, "DEFINE w 00000000\n@32 w", b"\x00\x00\x00\x02"),
    (0, "DEFINE w 00000000\n@33 w", b"\x80\x00\x00\x02"),
    (0, "DEFINE w 00000000\n@-1 w", b"\x80\x0f\x00\xfe"),
    (0, "DEFINE w 00000000\n@-32 w", b"\x00\x00\x00\xfe"),
    (0, "DEFINE w 00000000\n@2047 w", b"\x80\x0f\x00\x7e"),
    (0, "DEFINE w 00000000\n@-2048 w", b"\x00\x00\x00\x80"),
    (0, "DEFINE w 00000000\n@0x555 w", b"\x80\x0a\x00\x54"),
    (0, "DEFINE w 00000000\n@1365 w", b"\x80\x0a\x00\x54"),
    (0, "DEFINE w 00000000\n@-1366 w", b"\x00\x05\x00\xaa"),
];

/// Numbers after `~`.
#[rattlefmt::skip]
static UPPER_NUMBERS: [Row; 14] = [
    (0, "DEFINE w 00000000\n~0 w", b"\x00\x00\x00\x00"),
    (0, "DEFINE w 00000000\n~1 w", b"\x00\x00\x00\x00"),
    (0, "DEFINE w 00000000\n~2047 w", b"\x00\x00\x00\x00"),
    (0, "DEFINE w 00000000\n~2048 w", b"\x00\x10\x00\x00"),
    (0, "DEFINE w 00000000\n~4096 w", b"\x00\x10\x00\x00"),
    (0, "DEFINE w 00000000\n~-1 w", b"\x00\x00\x00\x00"),
    (0, "DEFINE w 00000000\n~-2048 w", b"\x00\x00\x00\x00"),
    (0, "DEFINE w 00000000\n~-2049 w", b"\x00\xf0\xff\xff"),
    (0, "DEFINE w 00000000\n~0x12345678 w", b"\x00\x50\x34\x12"),
    (0, "DEFINE w 00000000\n~0x7ffff800 w", b"\x00\x00\x00\x80"),
    (0, "DEFINE w 00000000\n~2147483647 w", b"\x00\x00\x00\x80"),
    (0, "DEFINE w 00000000\n~4294967295 w", b"\x00\x00\x00\x00"),
    (0, "DEFINE w 00000000\n~-2147483648 w", b"\x00\x00\x00\x80"),
    (0, "DEFINE w 00000000\n~0xffffffff w", b"\x00\x00\x00\x00"),
];

/// Numbers after `%`.
#[rattlefmt::skip]
static WORD_NUMBERS: [Row; 12] = [
    (0, "%0", b"\x00\x00\x00\x00"),
    (0, "%1", b"\x01\x00\x00\x00"),
    (0, "%255", b"\xff\x00\x00\x00"),
    (0, "%256", b"\x00\x01\x00\x00"),
    (0, "%-1", b"\xff\xff\xff\xff"),
    (0, "%-256", b"\x00\xff\xff\xff"),
    (0, "%305419896", b"\x78\x56\x34\x12"),
    (0, "%0x12345678", b"\x78\x56\x34\x12"),
    (0, "%0xffffffff", b"\xff\xff\xff\xff"),
    (0, "%4294967295", b"\xff\xff\xff\xff"),
    (0, "%2147483648", b"\x00\x00\x00\x80"),
    (0, "%-2147483648", b"\x00\x00\x00\x80"),
];

/// Instructions and labels.
#[rattlefmt::skip]
static SOURCES: [Row; 9] = [
    (0, "DEFINE addi 13000000\nDEFINE rd_a0 .00050000\nDEFINE rs1_sp .00000100\nrd_a0 rs1_sp !-16 addi", b"\x13\x05\x01\xff"),
    (0, "DEFINE sd 23300000\nDEFINE rs1_sp .00000100\nDEFINE rs2_ra .00001000\nrs1_sp rs2_ra @8 sd rs2_ra rs1_sp @-8 sd", b"\x23\x34\x11\x00\x23\x3c\x11\xfe"),
    (0, "DEFINE lui 37000000\nDEFINE rd_a0 .00050000\nrd_a0 ~0x12345678 lui", b"\x37\x55\x34\x12"),
    (6291456, "DEFINE auipc 17000000\nDEFINE addi 13000000\nDEFINE rd_a0 .00050000\nDEFINE rs1_a0 .00000500\nrd_a0 ~text auipc rd_a0 rs1_a0 !text addi :text \"hello..\"", b"\x17\x05\x00\x00\x13\x05\x85\x00\x68\x65\x6c\x6c\x6f\x2e\x2e\x00"),
    (0, "DEFINE beq 63000000\nDEFINE jal 6F000000\n:top @top beq $end jal $top jal @end beq :end", b"\x63\x00\x00\x00\x6f\x00\xc0\x00\x6f\xf0\x9f\xff\x63\x02\x00\x00"),
    (6291456, ":a &a %a %b &b %a>b %b>a :b", b"\x00\x00\x60\x00\xf8\xff\xff\xff\x0c\x00\x00\x00\x18\x00\x60\x00\xe8\xff\xff\xff\x18\x00\x00\x00"),
    (6291456, ":a_1 '00' < :b.c '11' < &a_1 &b.c", b"\x00\x00\x00\x00\x11\x00\x00\x00\x00\x00\x60\x00\x04\x00\x60\x00"),
    (0, "DEFINE x 11\n:x x &x", b"\x11\x00\x00\x00\x00"),
    (3, "'00' < &p :p", b"\x00\x08\x00\x00\x00"),
];

fn is_linked(alloc: Global, items: &Items<'_>, base: u64, bytes: &[u8]) -> bool
    requires { base ≤ 137438953472 }
{
    match link(alloc, items, base) {
        Ok(linked) => linked.as_slice() == bytes,
        Err(_) => false,
    }
}

/// Whether a source has the bytes of its row. No base is above 2^37.
fn has_bytes(alloc: Global, row: &Row) -> bool {
    if row.0 > 137_438_953_472 {
        return false;
    }
    match expand(alloc, row.1.as_bytes()) {
        Ok(items) => is_linked(alloc, &items, row.0, row.2),
        Err(_) => false,
    }
}

fn check(rt: &impl Abort, alloc: Global, rows: &[Row]) {
    for row in rows {
        assert!(rt; has_bytes(alloc, row), "{}", row.1);
    }
}

fn check_all(rt: &impl Abort, alloc: Global, tables: &[&[Row]]) {
    for rows in tables {
        check(rt, alloc, rows);
    }
}

#[test]
fn values_of_debians_m1(rt: HostRuntime) {
    let tables: [&[Row]; 6] = [
        &WORDS,
        &IMMEDIATE_NUMBERS,
        &BRANCH_NUMBERS,
        &UPPER_NUMBERS,
        &WORD_NUMBERS,
        &SOURCES,
    ];
    check_all(&rt, rt.alloc(), &tables);
}
