//! Calls of the outside that fail in audits by differences, and the same call again. The expected answers were written down from
//! docs/reference/command-line.md.

use crate::differences::{EQUAL, Piece, based, differing, pieces};
use crate::scenes::{content, holds, saves, unheard};
use ddc_app::Status;
use ddc_base::{MemShelf, OutOfMemory};
use std::alloc::Global;
use std::process::Abort;
use std::test::Fail;

/// After the five loads of `part` the loads of `delta-start` are loads 6 to 11.
static START_LOADS: [(u64, &str); 6] = [
    (6, "shelf fault a.toml\n"),
    (7, "shelf fault s\n"),
    (8, "shelf fault copy.elf\n"),
    (9, "shelf fault copy.hex0\n"),
    (10, "shelf fault a.bin\n"),
    (11, "shelf fault b.bin\n"),
];

/// The load of a number fails in a segment, after so many saves, and the same call again continues.
fn load_passes(
    rt: &impl Abort,
    alloc: Global,
    shelf: &mut MemShelf,
    (load, text): (u64, &'static str),
    (again, saved): (Piece, usize),
) -> Result<(), OutOfMemory> {
    shelf.fail_load(load)?;
    pieces(
        rt,
        alloc,
        shelf,
        &[(again.0, again.1, Status::ShelfFault, text)],
    )?;
    assert_eq!(rt; saves(shelf), saved);
    pieces(rt, alloc, shelf, &[again])
}

/// The save of a number fails in a piece, and the base stays.
fn save_fails(
    rt: &impl Abort,
    alloc: Global,
    shelf: &mut MemShelf,
    save: u64,
    fault: Piece,
) -> Result<(), OutOfMemory> {
    let base = content(alloc, shelf, "s")?;
    shelf.fail_save(save)?;
    pieces(rt, alloc, shelf, &[fault])?;
    assert!(rt; holds(shelf, "s", base.as_slice()));
    Ok(())
}

const START: Piece = ("delta-start", "13", Status::Paused, "paused two 13\n");

fn start_load_passes(
    rt: &impl Abort,
    alloc: Global,
    load: (u64, &'static str),
) -> Result<(), OutOfMemory> {
    let mut shelf = based(alloc)?;
    load_passes(rt, alloc, &mut shelf, load, (START, 1))
}

fn start_save_passes(rt: &impl Abort, alloc: Global, fault: Piece) -> Result<(), OutOfMemory> {
    let mut shelf = based(alloc)?;
    save_fails(rt, alloc, &mut shelf, 2, fault)?;
    pieces(rt, alloc, &mut shelf, &[START])
}

static START_SAVES: [Piece; 2] = [
    ("delta-start", "13", Status::ShelfFault, "shelf fault p\n"),
    ("delta-start", "32", Status::ShelfFault, "shelf fault r\n"),
];

/// A failed load sets nothing, and a failed save nothing but its own name; the same call again continues.
#[test]
fn faults_of_delta_start_are_reported_and_pass(rt: HostRuntime) -> Result<(), Fail> {
    for load in START_LOADS {
        start_load_passes(&rt, rt.alloc(), load)?;
    }
    for fault in START_SAVES {
        start_save_passes(&rt, rt.alloc(), fault)?;
    }
    Ok(())
}

/// After these the loads of `delta-resume` are loads 12 to 18.
static RESUME_LOADS: [(u64, &str); 7] = [
    (12, "shelf fault a.toml\n"),
    (13, "shelf fault s\n"),
    (14, "shelf fault p\n"),
    (15, "shelf fault copy.elf\n"),
    (16, "shelf fault copy.hex0\n"),
    (17, "shelf fault a.bin\n"),
    (18, "shelf fault b.bin\n"),
];

const RESUME: Piece = ("delta-resume", "18", Status::Paused, "paused two 31\n");

fn resume_load_passes(
    rt: &impl Abort,
    alloc: Global,
    load: (u64, &'static str),
) -> Result<(), OutOfMemory> {
    let mut shelf = differing(alloc)?;
    load_passes(rt, alloc, &mut shelf, load, (RESUME, 2))
}

fn resume_save_fails(rt: &impl Abort, alloc: Global, fault: Piece) -> Result<(), OutOfMemory> {
    let mut shelf = differing(alloc)?;
    save_fails(rt, alloc, &mut shelf, 3, fault)
}

static RESUME_SAVES: [Piece; 2] = [
    ("delta-resume", "18", Status::ShelfFault, "shelf fault p\n"),
    ("delta-resume", "19", Status::ShelfFault, "shelf fault r\n"),
];

#[test]
fn faults_of_delta_resume_are_reported_and_pass(rt: HostRuntime) -> Result<(), Fail> {
    for load in RESUME_LOADS {
        resume_load_passes(&rt, rt.alloc(), load)?;
    }
    for fault in RESUME_SAVES {
        resume_save_fails(&rt, rt.alloc(), fault)?;
    }
    Ok(())
}

fn unheard_start(rt: &impl Abort, alloc: Global, shelf: &mut MemShelf) -> Result<(), OutOfMemory> {
    let words = ["delta-start", "a.toml", "s", "p", "r", "31"];
    unheard(rt, alloc, shelf, &words)?;
    pieces(
        rt,
        alloc,
        shelf,
        &[("delta-resume", "1", Status::Yes, EQUAL)],
    )
}

#[test]
fn a_failed_put_leaves_what_was_saved(rt: HostRuntime) -> Result<(), Fail> {
    let mut shelf = based(rt.alloc())?;
    unheard_start(&rt, rt.alloc(), &mut shelf)?;
    Ok(())
}
