use crate::hosts::{Breaks, BrokenHost};
use crate::outside::{is_content, is_removed, is_written};
use ddc_base::{DirShelf, OutOfMemory, SaveFail, Shelf};
use std::fs;
use std::io::ErrorKind;
use std::os::unix::fs::PermissionsExt;
use std::rt::Files;
use std::test::Fail;

/// Whether a name is that of a file.
fn is_there<R: Files>(rt: &R, name: &str) -> bool {
    fs::symlink_metadata(rt, name).is_ok()
}

/// Whether neither save writes anything.
fn fails<R: Files + AllocGlobal, S: Shelf>(rt: &R, shelf: &mut S) -> bool {
    shelf.save("kept", b"another") == Err(SaveFail::Failed)
        && is_content(rt, "kept", b"the old content")
        && shelf.save("unborn", b"another") == Err(SaveFail::Failed)
        && !is_there(rt, "unborn")
        && !is_there(rt, "unborn.ddc-0")
        && !is_there(rt, "kept.ddc-0")
}

/// Whether a save writes a file in place.
fn places<R: Files + AllocGlobal, S: Shelf>(rt: &R, shelf: &mut S) -> bool {
    is_written(rt, "placed", b"the old content")
        && shelf.save("placed", b"new").is_ok()
        && is_content(rt, "placed", b"new")
        && !is_there(rt, "placed.ddc-0")
}

/// What a save does where a call of the host breaks.
#[derive(Clone, Copy)]
enum Outcome {
    Fails,
    Places,
}

fn does<R: Files + AllocGlobal, S: Shelf>(rt: &R, shelf: &mut S, outcome: Outcome) -> bool {
    match outcome {
        Outcome::Fails => fails(rt, shelf),
        Outcome::Places => places(rt, shelf),
    }
}

fn does_where<R: Files + AllocGlobal>(rt: &R, breaks: Breaks, outcome: Outcome) -> bool {
    let mut shelf = DirShelf::new(BrokenHost { host: rt, breaks });
    does(rt, &mut shelf, outcome)
}

/// Whether a save does this at each of these breaks.
fn all_do<R: Files + AllocGlobal>(rt: &R, breaks: &[Breaks], outcome: Outcome) -> bool {
    for at in breaks {
        if !does_where(rt, *at, outcome) {
            return false;
        }
    }
    true
}

static FAILING: [Breaks; 4] = [
    Breaks::Creation(ErrorKind::StorageFull),
    Breaks::Writing,
    Breaks::Syncing,
    Breaks::Renaming(ErrorKind::StorageFull),
];

fn keeps_written<R: Files + AllocGlobal>(rt: &R) -> bool {
    is_written(rt, "kept", b"the old content")
        && all_do(rt, &FAILING, Outcome::Fails)
        && is_removed(rt, "kept")
}

#[test]
fn failed_saves_keep_the_file(rt: HostRuntime) {
    assert!(rt; keeps_written(&rt));
}

static PLACING: [Breaks; 4] = [
    Breaks::Creation(ErrorKind::PermissionDenied),
    Breaks::Creation(ErrorKind::ReadOnlyFilesystem),
    Breaks::Renaming(ErrorKind::ResourceBusy),
    Breaks::Renaming(ErrorKind::PermissionDenied),
];

fn places_all<R: Files + AllocGlobal>(rt: &R) -> bool {
    all_do(rt, &PLACING, Outcome::Places) && is_removed(rt, "placed")
}

#[test]
fn saves_in_place_where_nothing_can_stand_beside(rt: HostRuntime) {
    assert!(rt; places_all(&rt));
}

static ENDINGS: [&str; 12] = ["0", "1", "2", "3", "4", "5", "6", "7", "8", "9", "10", "11"];

fn saves_with<R: Files + AllocGlobal, S: Shelf>(
    rt: &R,
    shelf: &mut S,
    taken: &str,
    ending: &str,
) -> bool {
    is_written(rt, taken, b"of the user")
        && shelf.save("mine", ending.as_bytes()).is_ok()
        && is_content(rt, "mine", ending.as_bytes())
}

/// Whether a save is one where the user has taken a name beside it.
fn saves_beside<R: Files + AllocGlobal, S: Shelf>(
    rt: &R,
    shelf: &mut S,
    ending: &str,
) -> Result<bool, OutOfMemory> {
    let taken = format!(in rt.alloc(); "mine.ddc-{ending}")?;
    Ok(saves_with(rt, shelf, taken.as_str(), ending))
}

fn all_save_beside<R: Files + AllocGlobal, S: Shelf>(
    rt: &R,
    shelf: &mut S,
    endings: &[&str],
) -> Result<bool, OutOfMemory> {
    for ending in endings {
        if !saves_beside(rt, shelf, ending)? {
            return Ok(false);
        }
    }
    Ok(true)
}

/// Whether a file of the user is as it was, and is removed.
fn is_left<R: Files + AllocGlobal>(rt: &R, ending: &str) -> Result<bool, OutOfMemory> {
    let taken = format!(in rt.alloc(); "mine.ddc-{ending}")?;
    Ok(is_content(rt, taken.as_str(), b"of the user") && is_removed(rt, taken.as_str()))
}

fn all_are_left<R: Files + AllocGlobal>(rt: &R, endings: &[&str]) -> Result<bool, OutOfMemory> {
    for ending in endings {
        if !is_left(rt, ending)? {
            return Ok(false);
        }
    }
    Ok(true)
}

fn shelf_saves_beside<R: Files + AllocGlobal>(rt: &R) -> Result<bool, OutOfMemory> {
    let mut shelf = DirShelf::new(rt);
    all_save_beside(rt, &mut shelf, &ENDINGS)
}

/// Whether a save beside all these names fails and keeps the file, so that it is not written in place.
fn keeps_mine<R: Files + AllocGlobal>(rt: &R) -> bool {
    let mut shelf = DirShelf::new(BrokenHost {
        host: rt,
        breaks: Breaks::Writing,
    });
    shelf.save("mine", b"another") == Err(SaveFail::Failed) && is_content(rt, "mine", b"11")
}

fn leaves_the_users_own<R: Files + AllocGlobal>(rt: &R) -> Result<bool, OutOfMemory> {
    Ok(
        is_written(rt, "mine", b"the old content")
            && shelf_saves_beside(rt)?
            && keeps_mine(rt)
            && all_are_left(rt, &ENDINGS)?
            && is_removed(rt, "mine"),
    )
}

#[test]
fn saves_beside_the_users_own_names(rt: HostRuntime) -> Result<(), Fail> {
    assert!(rt; leaves_the_users_own(&rt)?);
    Ok(())
}

/// The mode of a file.
fn mode<R: Files>(rt: &R, name: &str) -> Option<u32> {
    match fs::metadata(rt, name) {
        Ok(metadata) => Some(metadata.permissions().mode() & 0o7777),
        Err(_) => None,
    }
}

fn is_symlink<R: Files>(rt: &R, name: &str) -> bool {
    match fs::symlink_metadata(rt, name) {
        Ok(metadata) => metadata.is_symlink(),
        Err(_) => false,
    }
}

fn keeps_mode<R: Files, S: Shelf>(rt: &R, shelf: &mut S) -> bool {
    fs::set_permissions(rt, "moded", fs::Permissions::from_mode(0o751)).is_ok()
        && shelf.save("moded", b"new").is_ok()
        && mode(rt, "moded") == Some(0o751)
}

fn follows_link<R: Files + AllocGlobal, S: Shelf>(rt: &R, shelf: &mut S) -> bool {
    rt.symlink("moded", "link").is_ok()
        && shelf.save("link", b"newer").is_ok()
        && is_symlink(rt, "link")
        && is_content(rt, "moded", b"newer")
}

fn keeps_and_follows<R: Files + AllocGlobal>(rt: &R) -> bool {
    let mut shelf = DirShelf::new(rt);
    keeps_mode(rt, &mut shelf) && follows_link(rt, &mut shelf)
}

fn keeps_and_follows_written<R: Files + AllocGlobal>(rt: &R) -> bool {
    is_written(rt, "moded", b"the old content")
        && keeps_and_follows(rt)
        && is_removed(rt, "link")
        && is_removed(rt, "moded")
}

#[test]
fn saves_keep_the_mode_and_follow_links(rt: HostRuntime) {
    assert!(rt; keeps_and_follows_written(&rt));
}
