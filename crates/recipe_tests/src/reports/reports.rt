ghost use Rattle.report.specs.Reports.{IsReport};

use crate::reports::put_text;
use ddc_base::languages::Language;
use ddc_base::{Bytes, OutOfMemory, digest, put_hex};
use report::{CompareLine, Compared, Report, ReportRefusal, read, write};
use std::alloc::Global;
use std::process::Abort;
use std::test::Fail;

/// The report of examples/report, whose digests are those of its files by `sha256sum`.
static EXAMPLE: &str = "\
ddc-report 1\n\
recipe 10b5c639797a4ed2505e4f5394bd88f134e66af1f274d9342e720cc0e4379e08\n\
input prog 232 da8dcb705eb55cbf9f4852135f93a902f4584b973901f37abb829fd299d0b026\n\
input text 465 26dbf873fd9f4ae0d6145fe4fcf057357e6d57dc16dc89160bbefa88806e89d5\n\
input src 3 ba7816bf8f01cfea414140de5dae2223b00361a396177a9cb410ff61f20015ad\n\
input bin 3 ba7816bf8f01cfea414140de5dae2223b00361a396177a9cb410ff61f20015ad\n\
stage one 32\n\
stream 1 0 e3b0c44298fc1c149afbf4c8996fb92427ae41e4649b934ca495991b7852b855\n\
stream 2 0 e3b0c44298fc1c149afbf4c8996fb92427ae41e4649b934ca495991b7852b855\n\
left 696e 232 da8dcb705eb55cbf9f4852135f93a902f4584b973901f37abb829fd299d0b026\n\
left 6f7574 232 da8dcb705eb55cbf9f4852135f93a902f4584b973901f37abb829fd299d0b026\n\
made 232 da8dcb705eb55cbf9f4852135f93a902f4584b973901f37abb829fd299d0b026\n\
checked hex0\n\
stage two 32\n\
stream 1 0 e3b0c44298fc1c149afbf4c8996fb92427ae41e4649b934ca495991b7852b855\n\
stream 2 0 e3b0c44298fc1c149afbf4c8996fb92427ae41e4649b934ca495991b7852b855\n\
left 696e 3 ba7816bf8f01cfea414140de5dae2223b00361a396177a9cb410ff61f20015ad\n\
left 6f7574 3 ba7816bf8f01cfea414140de5dae2223b00361a396177a9cb410ff61f20015ad\n\
made 3 ba7816bf8f01cfea414140de5dae2223b00361a396177a9cb410ff61f20015ad\n\
unchecked\n\
compare two bin equal 3\n\
end\n\
";

/// How many lines it has.
const LINES: u64 = 22;

/// Changes of the example: from this line on so many lines are replaced by a text, in which `*` stands for the digest of no bytes. What comes
/// of it is no report from this line on, or a report's text where the number is 0, as the grammar of docs/reference/report.md has it.
type Row = (u64, u64, &'static str, u64);

/// Each field, letter and blank of the first two lines.
static FIRST_LINES: [Row; 23] = [
    (1, 1, "ddc-report 0\n", 1),
    (1, 1, "ddc-report 2\n", 0),
    (1, 1, "ddc-report 3\n", 1),
    (1, 1, "ddc-report 12\n", 1),
    (1, 1, "ddc-report 2 \n", 1),
    (1, 1, "ddc-report 02\n", 1),
    (1, 1, "ddc-report 2 2\n", 1),
    (1, 1, "ddc-report 01\n", 1),
    (1, 1, "ddc-report 1 \n", 1),
    (1, 1, " ddc-report 1\n", 1),
    (1, 1, "ddc-report  1\n", 1),
    (1, 1, "Ddc-report 1\n", 1),
    (1, 1, "ddc-report\n", 1),
    (1, 1, "\n", 1),
    (1, 1, "ddc-report 1\r\n", 1),
    (2, 1, "recipe *\n", 0),
    (2, 1, "recipe *0\n", 2),
    (2, 1, "recipe 0\n", 2),
    (
        2,
        1,
        "recipe E3B0C44298FC1C149AFBF4C8996FB92427AE41E4649B934CA495991B7852B855\n",
        2,
    ),
    (
        2,
        1,
        "recipe g3b0c44298fc1c149afbf4c8996fb92427ae41e4649b934ca495991b7852b855\n",
        2,
    ),
    (2, 1, "recipe * \n", 2),
    (2, 1, "recipe\n", 2),
    (2, 1, "recipes *\n", 2),
];

/// The same of the lines of inputs, stages and streams.
static INPUTS_AND_STAGES: [Row; 24] = [
    (
        3,
        1,
        "input abcdefghijklmnopqrstuvwxyz_01234 18446744073709551615 *\n",
        0,
    ),
    (3, 1, "input abcdefghijklmnopqrstuvwxyz_012345 0 *\n", 3),
    (3, 1, "input  0 *\n", 3),
    (3, 1, "input Prog 0 *\n", 3),
    (3, 1, "input a-b 0 *\n", 3),
    (3, 1, "input prog 18446744073709551616 *\n", 3),
    (3, 1, "input prog 00 *\n", 3),
    (3, 1, "input prog +1 *\n", 3),
    (3, 1, "input prog -1 *\n", 3),
    (3, 1, "input prog 1\n", 3),
    (3, 1, "input prog * 1\n", 3),
    (3, 1, "input prog 1 * 1\n", 3),
    (7, 1, "stage one 032\n", 7),
    (7, 1, "stage one 0\n", 0),
    (7, 1, "stage one 18446744073709551615\n", 0),
    (7, 1, "stage one 18446744073709551616\n", 7),
    (7, 1, "stage one\n", 7),
    (7, 1, "stage one 32 32\n", 7),
    (7, 1, "stage \n", 7),
    (7, 1, "stage one 3 2\n", 7),
    (8, 1, "stream 3 0 *\n", 8),
    (8, 1, "stream 01 0 *\n", 8),
    (8, 1, "stream 1 *\n", 8),
    (8, 1, "stream1 0 *\n", 8),
];

/// The same of what is left, made and checked.
static LEFT_AND_MADE: [Row; 24] = [
    (10, 1, "left 69 0 *\n", 0),
    (10, 1, "left 6F 0 *\n", 10),
    (10, 1, "left 6 0 *\n", 10),
    (10, 1, "left 696 0 *\n", 10),
    (10, 1, "left  0 *\n", 10),
    (10, 1, "left 6g 0 *\n", 10),
    (10, 1, "left 6f7574 0 *\n", 11),
    (10, 1, "left 6f757400 0 *\n", 11),
    (10, 1, "left 6f75 0 *\n", 0),
    (10, 1, "left 00 0 *\n", 0),
    (10, 1, "left 70 0 *\n", 11),
    (12, 1, "made 0 *\n", 0),
    (12, 1, "made *\n", 12),
    (12, 1, "made 0 0 *\n", 12),
    (13, 1, "unchecked\n", 0),
    (13, 1, "checked hex1\n", 0),
    (13, 1, "checked hex2\n", 0),
    (13, 1, "checked m1\n", 0),
    (13, 1, "checked other\n", 13),
    (13, 1, "checked Hex0\n", 13),
    (13, 1, "checked\n", 13),
    (13, 1, "checked \n", 13),
    (13, 1, "checked hex0 \n", 13),
    (13, 1, "unchecked \n", 13),
];

/// The same of the last two lines.
static LAST_LINES: [Row; 23] = [
    (21, 1, "compare two bin differs 0 0 1\n", 0),
    (21, 1, "compare two bin differs 3 3 4\n", 0),
    (21, 1, "compare two bin differs 3 4 3\n", 0),
    (21, 1, "compare two bin differs 1 3 3\n", 0),
    (21, 1, "compare two bin differs 0 0 0\n", 21),
    (21, 1, "compare two bin differs 3 3 3\n", 21),
    (21, 1, "compare two bin differs 4 3 5\n", 21),
    (21, 1, "compare two bin differs 4 5 3\n", 21),
    (21, 1, "compare two bin differs 5 3 4\n", 21),
    (21, 1, "compare two bin differs 1 3\n", 21),
    (21, 1, "compare two bin differs 1 3 3 3\n", 21),
    (21, 1, "compare two bin differs 01 3 3\n", 21),
    (21, 1, "compare two bin equal 18446744073709551615\n", 0),
    (21, 1, "compare two bin equal\n", 21),
    (21, 1, "compare two bin equal 3 3\n", 21),
    (21, 1, "compare two bin same 3\n", 21),
    (21, 1, "compare none none equal 0\n", 0),
    (21, 1, "compare two equal 3\n", 21),
    (22, 1, "end \n", 22),
    (22, 1, "End\n", 22),
    (22, 1, "end\r\n", 22),
    (22, 1, " end\n", 22),
    (22, 1, "end 0\n", 22),
];

/// A line or a whole part left out.
static LEFT_OUT: [Row; 28] = [
    (1, 1, "", 1),
    (2, 1, "", 2),
    (3, 1, "", 0),
    (4, 1, "", 0),
    (5, 1, "", 0),
    (6, 1, "", 0),
    (7, 1, "", 7),
    (8, 1, "", 8),
    (9, 1, "", 9),
    (10, 1, "", 0),
    (11, 1, "", 0),
    (12, 1, "", 12),
    (13, 1, "", 13),
    (14, 1, "", 14),
    (15, 1, "", 15),
    (16, 1, "", 16),
    (17, 1, "", 0),
    (18, 1, "", 0),
    (19, 1, "", 19),
    (20, 1, "", 20),
    (21, 1, "", 21),
    (22, 1, "", 22),
    (3, 4, "", 3),
    (7, 7, "", 0),
    (14, 7, "", 0),
    (7, 14, "", 7),
    (10, 2, "", 0),
    (17, 2, "", 0),
];

/// A line too many.
static ADDED: [Row; 9] = [
    (14, 0, "compare two bin equal 3\n", 15),
    (22, 0, "compare one bin equal 3\n", 22),
    (21, 0, "compare one bin differs 0 1 1\n", 22),
    (7, 0, "end\n", 7),
    (23, 0, "x", 23),
    (23, 0, "\n", 23),
    (23, 0, "end\n", 23),
    (1, 22, "", 1),
    (1, 22, "\n", 1),
];

/// What comes of each line of the example if it stands twice, and if it changes places with the next.
static LINE_FAULTS: [(u64, u64); 22] = [
    (2, 1),
    (3, 2),
    (0, 0),
    (0, 0),
    (0, 0),
    (0, 7),
    (8, 7),
    (9, 8),
    (10, 9),
    (11, 11),
    (12, 12),
    (13, 12),
    (14, 13),
    (15, 14),
    (16, 15),
    (17, 16),
    (18, 18),
    (19, 19),
    (20, 19),
    (21, 20),
    (22, 21),
    (23, 0),
];

/// Adds the example's lines from one number to another.
fn put_lines(out: &mut Bytes, first: u64, last: u64) -> Result<(), OutOfMemory> {
    let mut number = 0u64;
    for line in EXAMPLE.lines() {
        number = number.saturating_add(1);
        if first <= number && number <= last {
            out.extend(line.as_bytes())?;
            out.push(b'\n')?;
        }
    }
    Ok(())
}

/// Adds the example with so many lines replaced by a text.
fn put_changed(out: &mut Bytes, row: &Row) -> Result<(), OutOfMemory> {
    let (first, count, text, _) = *row;
    put_lines(out, 1, first.saturating_sub(1))?;
    put_text(out, text.as_bytes())?;
    put_lines(out, first.saturating_add(count), LINES)
}

/// 0 where a text is what is written for its report, and else a line that no text has.
fn fault_of_report(alloc: Global, report: &Report, text: &[u8]) -> Result<u64, OutOfMemory>
    requires { IsReport report.now }
{
    let written = write(alloc, report)?;
    Ok(if written.as_slice() == text {
        0
    } else {
        u64::MAX
    })
}

/// The line at which a text is no report, or 0 where it is one, which then is what is written for it.
fn fault_of(alloc: Global, text: &[u8]) -> Result<u64, OutOfMemory> {
    match read(alloc, text) {
        Ok(report) => fault_of_report(alloc, &report, text),
        Err(ReportRefusal::Form(number)) => Ok(number),
        Err(ReportRefusal::OutOfMemory) => Err(OutOfMemory),
    }
}

/// Whether the fields of some kinds are those of the example's text.
fn is_example(report: &Report) -> bool {
    let Some(third) = report.inputs.get(2) else {
        return false;
    };
    let Some(one) = report.stages.get(0) else {
        return false;
    };
    let Some(file) = one.left.get(1) else {
        return false;
    };
    report.inputs.len() == 4
        && report.stages.len() == 2
        && third.name.bytes() == b"src".as_slice()
        && third.mark.length == 3
        && third.mark.digest == digest(b"abc")
        && one.steps == 32
        && one.stream2.digest == digest(b"")
        && file.name.as_slice() == b"out".as_slice()
        && one.checked == Some(Language::Hex0)
        && report.form == 1
        && report.compare.len() == 1
        && is_equal_line(report.compare.get(0))
}

/// Whether a comparison is that of the example.
fn is_equal_line(line: Option<&CompareLine>) -> bool {
    line.is_some_and(|line| {
        line.stage.bytes() == b"two".as_slice()
            && line.binary.bytes() == b"bin".as_slice()
            && line.result == Compared::Equal(3)
    })
}

fn is_read(alloc: Global) -> bool {
    match read(alloc, EXAMPLE.as_bytes()) {
        Ok(report) => is_example(&report),
        Err(_) => false,
    }
}

#[test]
fn the_example_is_read(rt: HostRuntime) {
    assert!(rt; is_read(rt.alloc()));
}

/// The line at which a change of the example is no report.
fn fault_of_changed(alloc: Global, row: &Row) -> Result<u64, OutOfMemory> {
    let mut out = Bytes::new(alloc);
    put_changed(&mut out, row)?;
    fault_of(alloc, out.as_slice())
}

fn check_changes(rt: &impl Abort, alloc: Global, rows: &[Row]) -> Result<(), OutOfMemory> {
    for row in rows {
        assert!(rt; fault_of_changed(alloc, row)? == row.3, "{row:?}");
    }
    Ok(())
}

fn check_all(rt: &impl Abort, alloc: Global, tables: &[&[Row]]) -> Result<(), OutOfMemory> {
    for rows in tables {
        check_changes(rt, alloc, rows)?;
    }
    Ok(())
}

#[test]
fn changes_are_refused_at_their_line(rt: HostRuntime) -> Result<(), Fail> {
    Ok(check_all(
        &rt,
        rt.alloc(),
        &[
            &FIRST_LINES,
            &INPUTS_AND_STAGES,
            &LEFT_AND_MADE,
            &LAST_LINES,
            &LEFT_OUT,
            &ADDED,
        ],
    )?)
}

/// Adds the example with a line twice.
fn put_doubled(out: &mut Bytes, number: u64) -> Result<(), OutOfMemory> {
    put_lines(out, 1, number)?;
    put_lines(out, number, LINES)
}

/// Adds the example with a line and the next in each other's place.
fn put_swapped(out: &mut Bytes, number: u64) -> Result<(), OutOfMemory> {
    let next = number.saturating_add(1);
    put_lines(out, 1, number.saturating_sub(1))?;
    put_lines(out, next, next)?;
    put_lines(out, number, number)?;
    put_lines(out, next.saturating_add(1), LINES)
}

fn fault_of_doubled(alloc: Global, number: u64) -> Result<u64, OutOfMemory> {
    let mut out = Bytes::new(alloc);
    put_doubled(&mut out, number)?;
    fault_of(alloc, out.as_slice())
}

fn fault_of_swapped(alloc: Global, number: u64) -> Result<u64, OutOfMemory> {
    let mut out = Bytes::new(alloc);
    put_swapped(&mut out, number)?;
    fault_of(alloc, out.as_slice())
}

/// Whether this comes of a line.
fn has_faults(alloc: Global, number: u64, faults: (u64, u64)) -> Result<bool, OutOfMemory> {
    let doubled = fault_of_doubled(alloc, number)?;
    let swapped = fault_of_swapped(alloc, number)?;
    Ok(doubled == faults.0 && swapped == faults.1)
}

fn check_lines(rt: &impl Abort, alloc: Global, rows: &[(u64, u64)]) -> Result<(), OutOfMemory> {
    let mut number = 0u64;
    for row in rows {
        number = number.saturating_add(1);
        assert!(rt; has_faults(alloc, number, *row)?, "{row:?}");
    }
    Ok(())
}

#[test]
fn lines_stand_once_and_in_order(rt: HostRuntime) -> Result<(), Fail> {
    Ok(check_lines(&rt, rt.alloc(), &LINE_FAULTS)?)
}

fn check_cut(rt: &impl Abort, alloc: Global, text: &[u8], line: u64) -> Result<(), OutOfMemory> {
    assert!(rt; fault_of(alloc, text)? == line, "{line}");
    Ok(())
}

/// Adds the example byte by byte, and asserts at each that the line of the cut is lacking.
fn check_cuts(
    rt: &impl Abort,
    alloc: Global,
    text: &mut Bytes,
    whole: &[u8],
) -> Result<(), OutOfMemory> {
    let mut line = 1u64;
    for byte in whole {
        check_cut(rt, alloc, text.as_slice(), line)?;
        text.push(*byte)?;
        if *byte == b'\n' {
            line = line.saturating_add(1);
        }
    }
    check_cut(rt, alloc, text.as_slice(), 0)
}

#[test]
fn a_cut_text_lacks_the_line_of_the_cut(rt: HostRuntime) -> Result<(), Fail> {
    let mut text = Bytes::new(rt.alloc());
    Ok(check_cuts(&rt, rt.alloc(), &mut text, EXAMPLE.as_bytes())?)
}

/// Adds a file that was left, whose name has so many bytes.
fn put_left(text: &mut Bytes, number: u16, name: usize) -> Result<(), OutOfMemory> {
    put_text(text, b"left ")?;
    put_hex(text, &number.to_be_bytes())?;
    for _ in 2..name {
        put_text(text, b"00")?;
    }
    put_text(text, b" 0 *\n")
}

/// Adds a stage, which left so many files with names of so many bytes.
fn put_stage(text: &mut Bytes, left: u16, name: usize) -> Result<(), OutOfMemory> {
    put_text(text, b"stage s 1\nstream 1 0 *\nstream 2 0 *\n")?;
    for number in 0..left {
        put_left(text, number, name)?;
    }
    put_text(text, b"made 0 *\nunchecked\n")
}

/// How many inputs and stages, each of which left so many files with names of so many bytes; and the line at which this is no report, or 0.
type Sizes = (u32, u32, u16, usize, u64);

static SIZES: [Sizes; 10] = [
    (256, 1, 0, 2, 0),
    (257, 1, 0, 2, 259),
    (0, 1, 0, 2, 3),
    (1, 256, 0, 2, 0),
    (1, 257, 0, 2, 1284),
    (1, 0, 0, 2, 4),
    (1, 1, 4096, 2, 0),
    (1, 1, 4097, 2, 4103),
    (1, 1, 1, 255, 0),
    (1, 1, 1, 256, 7),
];

fn put_sized(text: &mut Bytes, row: &Sizes) -> Result<(), OutOfMemory> {
    let (inputs, stages, left, name, _) = *row;
    put_text(text, b"ddc-report 1\nrecipe *\n")?;
    for _ in 0..inputs {
        put_text(text, b"input a 0 *\n")?;
    }
    for _ in 0..stages {
        put_stage(text, left, name)?;
    }
    put_text(text, b"compare s a equal 0\nend\n")
}

fn fault_of_sized(alloc: Global, row: &Sizes) -> Result<u64, OutOfMemory> {
    let mut text = Bytes::new(alloc);
    put_sized(&mut text, row)?;
    fault_of(alloc, text.as_slice())
}

fn check_sizes(rt: &impl Abort, alloc: Global, rows: &[Sizes]) -> Result<(), OutOfMemory> {
    for row in rows {
        assert!(rt; fault_of_sized(alloc, row)? == row.4, "{row:?}");
    }
    Ok(())
}

#[test]
fn counts_have_limits(rt: HostRuntime) -> Result<(), Fail> {
    Ok(check_sizes(&rt, rt.alloc(), &SIZES)?)
}

/// Adds the example with another first line and these compare lines.
fn put_form(text: &mut Bytes, header: &str, compares: &str) -> Result<(), OutOfMemory> {
    put_text(text, header.as_bytes())?;
    put_lines(text, 2, 20)?;
    put_text(text, compares.as_bytes())?;
    put_lines(text, LINES, LINES)
}

/// The line at which the example with these is no report.
fn fault_of_form(alloc: Global, header: &str, compares: &str) -> Result<u64, OutOfMemory> {
    let mut text = Bytes::new(alloc);
    put_form(&mut text, header, compares)?;
    fault_of(alloc, text.as_slice())
}

/// A first line, compare lines, and the line at which the example with these is no report, or 0.
type Form = (&'static str, &'static str, u64);

static FORMS: [Form; 14] = [
    ("ddc-report 1\n", "compare two bin equal 3\n", 0),
    ("ddc-report 2\n", "compare two bin equal 3\n", 0),
    ("ddc-report 2\n", "", 21),
    (
        "ddc-report 2\n",
        "compare two bin equal 3\ncompare one bin differs 0 232 3\n",
        0,
    ),
    (
        "ddc-report 1\n",
        "compare two bin equal 3\ncompare one bin differs 0 232 3\n",
        22,
    ),
    (
        "ddc-report 2\n",
        "compare two bin equal 3\ncompare two bin equal 3\n",
        0,
    ),
    (
        "ddc-report 2\n",
        "compare two bin equal 3\ncompare one two equal 4\n",
        0,
    ),
    (
        "ddc-report 2\n",
        "compare two bin equal 3\ncompare one bin equal 03\n",
        22,
    ),
    (
        "ddc-report 2\n",
        "compare two bin equal 3\n\ncompare one bin equal 3\n",
        22,
    ),
    (
        "ddc-report 2\n",
        "compare two bin equal 3\nend\ncompare one bin equal 3\n",
        23,
    ),
    (
        "ddc-report 2\n",
        "compare two bin equal 3\nstage one 32\n",
        22,
    ),
    ("ddc-report 2\n", "compare two bin equal 3\nunchecked\n", 22),
    (
        "ddc-report 2\nddc-report 2\n",
        "compare two bin equal 3\n",
        2,
    ),
    ("ddc-report 3\n", "compare two bin equal 3\n", 1),
];

fn check_forms(rt: &impl Abort, alloc: Global, rows: &[Form]) -> Result<(), OutOfMemory> {
    for row in rows {
        assert!(rt; fault_of_form(alloc, row.0, row.1)? == row.2, "{row:?}");
    }
    Ok(())
}

#[test]
fn forms_have_their_comparisons(rt: HostRuntime) -> Result<(), Fail> {
    Ok(check_forms(&rt, rt.alloc(), &FORMS)?)
}

/// So many equal compare lines: form 1 takes one of them, form 2 takes 16.
type Count = (&'static str, usize, u64);

static COUNTS: [Count; 10] = [
    ("ddc-report 1\n", 0, 21),
    ("ddc-report 1\n", 1, 0),
    ("ddc-report 1\n", 2, 22),
    ("ddc-report 1\n", 17, 22),
    ("ddc-report 2\n", 0, 21),
    ("ddc-report 2\n", 2, 0),
    ("ddc-report 2\n", 15, 0),
    ("ddc-report 2\n", 16, 0),
    ("ddc-report 2\n", 17, 37),
    ("ddc-report 2\n", 18, 37),
];

fn fault_of_count(alloc: Global, header: &str, count: usize) -> Result<u64, OutOfMemory> {
    let lines = "compare two bin equal 3\n".repeat(alloc, count)?;
    fault_of_form(alloc, header, lines.as_str())
}

fn check_counts(rt: &impl Abort, alloc: Global, rows: &[Count]) -> Result<(), OutOfMemory> {
    for row in rows {
        assert!(rt; fault_of_count(alloc, row.0, row.1)? == row.2, "{row:?}");
    }
    Ok(())
}

#[test]
fn comparisons_have_limits(rt: HostRuntime) -> Result<(), Fail> {
    Ok(check_counts(&rt, rt.alloc(), &COUNTS)?)
}

/// Whether a comparison is the second of two.
fn is_second_line(line: Option<&CompareLine>) -> bool {
    line.is_some_and(|line| {
        line.stage.bytes() == b"one".as_slice() && line.result == Compared::Differs(0, 232, 3)
    })
}

/// Whether a report of form 2 has two comparisons in their order.
fn keeps_order(report: &Report) -> bool {
    report.form == 2
        && report.compare.len() == 2
        && is_equal_line(report.compare.get(0))
        && is_second_line(report.compare.get(1))
}

fn is_read_in_order(alloc: Global, text: &[u8]) -> bool {
    match read(alloc, text) {
        Ok(report) => keeps_order(&report),
        Err(_) => false,
    }
}

fn two_keep_order(alloc: Global) -> Result<bool, OutOfMemory> {
    let lines = "compare two bin equal 3\ncompare one bin differs 0 232 3\n";
    let mut text = Bytes::new(alloc);
    put_form(&mut text, "ddc-report 2\n", lines)?;
    Ok(is_read_in_order(alloc, text.as_slice()))
}

#[test]
fn comparisons_keep_their_order(rt: HostRuntime) -> Result<(), Fail> {
    assert!(rt; two_keep_order(rt.alloc())?);
    Ok(())
}
