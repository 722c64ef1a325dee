//! Calls of the outside that fail in runs in segments, and the same call again. The expected answers were written down from
//! docs/reference/command-line.md.

use crate::audits::audit_shelf;
use crate::pieces::{CUT, CUT_WORDS, ENDS_WORDS, cut_shelf, says_all, states};
use crate::scenes::{Step, says, walk};
use ddc_app::Status;
use ddc_base::{MemShelf, OutOfMemory};
use std::alloc::Global;
use std::process::Abort;
use std::test::Fail;

static CUT_LOADS: [(u64, &str); 5] = [
    (1, "shelf fault a.toml\n"),
    (2, "shelf fault copy.elf\n"),
    (3, "shelf fault copy.hex0\n"),
    (4, "shelf fault a.bin\n"),
    (5, "shelf fault b.bin\n"),
];

static CUT_SAVES: [(u64, &str); 4] = [
    (1, "shelf fault c.0\n"),
    (2, "shelf fault c.1\n"),
    (3, "shelf fault c.2\n"),
    (4, "shelf fault c.3\n"),
];

/// A load of `cut` fails, and the same call again continues.
fn load_passes(
    rt: &impl Abort,
    alloc: Global,
    shelf: &mut MemShelf,
    (load, text): (u64, &str),
) -> Result<(), OutOfMemory> {
    shelf.fail_load(load)?;
    says(rt, alloc, shelf, CUT_WORDS, (Status::ShelfFault, text))?;
    assert_eq!(rt; states(shelf), 0);
    says_all(rt, alloc, shelf, CUT)
}

fn cut_load_passes(rt: &impl Abort, alloc: Global, load: (u64, &str)) -> Result<(), OutOfMemory> {
    let mut shelf = audit_shelf(alloc, "", "")?;
    load_passes(rt, alloc, &mut shelf, load)
}

/// Whether the states before one of a number, from 1, stand as in the whole cut, and none after it.
fn stand_before(shelf: &MemShelf, whole: &MemShelf, save: u64) -> bool {
    let names = ["c.0", "c.1", "c.2", "c.3"];
    names.iter().zip(1u64..5).all(|(name, number)| expects_before(
        shelf.get(name),
        whole.get(name),
        number,
        save,
    ))
}

/// The same of the state of a number, which is found here and held there.
fn expects_before(found: Option<&[u8]>, held: Option<&[u8]>, number: u64, save: u64) -> bool {
    if number < save {
        found == held
    } else {
        number == save || found.is_none()
    }
}

/// A save of `cut` fails, and the same call again continues.
fn save_passes(
    rt: &impl Abort,
    alloc: Global,
    shelf: &mut MemShelf,
    (save, text): (u64, &str),
    whole: &MemShelf,
) -> Result<(), OutOfMemory> {
    shelf.fail_save(save)?;
    says(rt, alloc, shelf, CUT_WORDS, (Status::ShelfFault, text))?;
    assert!(rt; stand_before(shelf, whole, save));
    says_all(rt, alloc, shelf, CUT)
}

fn cut_save_passes(
    rt: &impl Abort,
    alloc: Global,
    save: (u64, &str),
    whole: &MemShelf,
) -> Result<(), OutOfMemory> {
    let mut shelf = audit_shelf(alloc, "", "")?;
    save_passes(rt, alloc, &mut shelf, save, whole)
}

#[test]
fn faults_of_cut_are_reported_and_pass(rt: HostRuntime) -> Result<(), Fail> {
    for load in CUT_LOADS {
        cut_load_passes(&rt, rt.alloc(), load)?;
    }
    let whole = cut_shelf(&rt, rt.alloc())?;
    for save in CUT_SAVES {
        cut_save_passes(&rt, rt.alloc(), save, &whole)?;
    }
    Ok(())
}

/// After the five loads of `cut` come those of `ends`, and the two states.
static ENDS_LOADS: [(u64, &str); 7] = [
    (6, "shelf fault a.toml\n"),
    (7, "shelf fault copy.elf\n"),
    (8, "shelf fault copy.hex0\n"),
    (9, "shelf fault a.bin\n"),
    (10, "shelf fault b.bin\n"),
    (11, "shelf fault c.0\n"),
    (12, "shelf fault c.3\n"),
];

static SEGMENT_LOADS: [(u64, &str); 2] = [(6, "shelf fault c.0\n"), (7, "shelf fault c.1\n")];

/// A load of a command over the states fails.
fn names_load(
    rt: &impl Abort,
    alloc: Global,
    shelf: &mut MemShelf,
    words: &[&str],
    (load, text): (u64, &str),
) -> Result<(), OutOfMemory> {
    shelf.fail_load(load)?;
    says(rt, alloc, shelf, words, (Status::ShelfFault, text))
}

fn names_cut_load(
    rt: &impl Abort,
    alloc: Global,
    words: &[&str],
    load: (u64, &str),
) -> Result<(), OutOfMemory> {
    let mut shelf = cut_shelf(rt, alloc)?;
    names_load(rt, alloc, &mut shelf, words, load)
}

#[test]
fn faults_of_checks_are_reported(rt: HostRuntime) -> Result<(), Fail> {
    for load in ENDS_LOADS {
        names_cut_load(&rt, rt.alloc(), ENDS_WORDS, load)?;
    }
    for load in SEGMENT_LOADS {
        names_cut_load(&rt, rt.alloc(), &["segment", "c.0", "c.1"], load)?;
    }
    Ok(())
}

static UNHEARD: [Step; 1] = [Step::Unheard(CUT_WORDS)];

#[test]
fn a_failed_put_leaves_the_states(rt: HostRuntime) -> Result<(), Fail> {
    let mut shelf = audit_shelf(rt.alloc(), "", "")?;
    walk(&rt, rt.alloc(), &mut shelf, &UNHEARD)?;
    assert_eq!(&rt; states(&shelf), 4);
    Ok(())
}
