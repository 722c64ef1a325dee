//! Writing a file of the host. Its old content is lost only after all of the new content is written, and nobody gains a permission.
//! In a shared directory, others may change a path between two calls. So each file that is written was made by this
//! process, or is checked once more when it is open.

ghost use Rattle.std.specs.Prelude.{◌≡◌, OnOk};
ghost use Rattle.std.specs.Fs.{permissions_mode};
ghost use Rattle.ddc_base.specs.Saving.{mode_kept};
ghost use Rattle.ddc_base.specs.Streams.{TakesAll};

use crate::streams::{ByFlush, write_whole};
use crate::ways::{
    Existing, Maker, Node, PlainFile, Way, creation_mode, is_ours_alone, is_same_node, kept_mode,
    way_of,
};
use arrayvec::ArrayString;
use itoa::Buffer;
use std::fs::{Metadata, OpenFile, OpenOptions, Permissions};
use std::io::{ErrorKind, Write};
use std::os::unix::fs::{MetadataExt, OpenOptionsExt, PermissionsExt};
use std::rt::Files;
use std::{fs, io};

/// The user id of root.
const ROOT: u32 = 0;

/// What was found at a path.
#[derive(Clone, Copy)]
struct Found {
    existing: Existing,
    node: Node,
    /// When the file's inode was last changed, in seconds and nanoseconds.
    changed: (i64, i64),
}

/// An old file whose path a new file is to get.
#[derive(Clone, Copy)]
struct Exchange {
    /// What was found at the path.
    old: Found,
    /// The user and group of the new file.
    maker: Maker,
}

/// The properties of a regular file, from the host's metadata.
fn plain_file(metadata: &Metadata) -> PlainFile {
    PlainFile {
        mode: metadata.mode(),
        owner: metadata.uid(),
        group: metadata.gid(),
        names: metadata.nlink(),
    }
}

/// The identity of a file: two lookups with the same one found the same file.
fn node_of(metadata: &Metadata) -> Node {
    Node {
        device: metadata.dev(),
        number: metadata.ino(),
    }
}

/// What is at a path, from the host's metadata.
fn look_of(metadata: &Metadata) -> Found {
    let existing = if metadata.is_file() {
        Existing::Plain(plain_file(metadata))
    } else if metadata.is_symlink() {
        Existing::Link(metadata.uid())
    } else {
        Existing::Other
    };
    Found {
        existing,
        node: node_of(metadata),
        changed: (metadata.ctime(), metadata.ctime_nsec()),
    }
}

/// The result of a lookup that finds no file.
fn nothing_found() -> Found {
    Found {
        existing: Existing::Nothing,
        node: Node {
            device: 0,
            number: 0,
        },
        changed: (0, 0),
    }
}

/// What is at a path. If it is a regular file that may not be written, that is an error.
fn look_at<R: Files>(rt: &R, path: &str) -> io::Result<Found> {
    match fs::symlink_metadata(rt, path) {
        Ok(metadata) if metadata.is_file() => {
            OpenOptions::new().write(true).open(rt, path)?;
            // On some hosts, opening a file for writing changes its inode number.
            Ok(look_of(&fs::symlink_metadata(rt, path)?))
        }
        Ok(metadata) => Ok(look_of(&metadata)),
        Err(error) if error.kind() == ErrorKind::NotFound => Ok(nothing_found()),
        Err(error) => Err(error),
    }
}

/// The user and group of a new file, from its metadata.
fn maker_of(metadata: &Metadata) -> Maker {
    Maker {
        owner: metadata.uid(),
        group: metadata.gid(),
    }
}

/// The user and group of this process. If the host does not report them, root is assumed, so that only root's links are followed.
fn maker_here<R: Files>(rt: &R) -> Maker {
    match fs::metadata(rt, "/proc/self") {
        Ok(metadata) => maker_of(&metadata),
        Err(_) => Maker {
            owner: ROOT,
            group: ROOT,
        },
    }
}

/// The error of a file that must not be written, or that is no longer the one that was found.
fn not_to_be_written() -> io::Error {
    io::Error::from(ErrorKind::Other)
}

/// A path followed by `.ddc-` and a number, which is usually 0.
fn temporary_path(path: &str, number: u32) -> io::Result<ArrayString<270>> {
    let mut digits = Buffer::new();
    let mut temporary = ArrayString::new();
    let fits = temporary.try_push_str(path).is_ok()
        && temporary.try_push_str(".ddc-").is_ok()
        && temporary.try_push_str(digits.format(number)).is_ok();
    if fits {
        Ok(temporary)
    } else {
        Err(io::Error::from(ErrorKind::InvalidFilename))
    }
}

/// Creates a file with this mode at a path where nothing is, not even a link.
fn make_new<R: Files>(rt: &R, path: &str, mode: u32) -> io::Result<R::File> {
    OpenOptions::new()
        .write(true)
        .create_new(true)
        .mode(mode)
        .open(rt, path)
}

/// Creates a file next to the one at a path. Returns it with its name, the first that was unused.
fn make_temporary<R: Files>(
    rt: &R,
    path: &str,
    mode: u32,
) -> io::Result<(ArrayString<270>, R::File)> {
    for number in 0..=u32::MAX {
        let temporary = temporary_path(path, number)?;
        match make_new(rt, temporary.as_str(), mode) {
            Ok(file) => return Ok((temporary, file)),
            Err(error) if error.kind() == ErrorKind::AlreadyExists => {}
            Err(error) => return Err(error),
        }
    }
    Err(io::Error::from(ErrorKind::AlreadyExists))
}

/// Gives the file at a path a second name next to it, the first that was unused.
fn name_twice<R: Files>(rt: &R, path: &str) -> io::Result<ArrayString<270>> {
    for number in 0..=u32::MAX {
        let second = temporary_path(path, number)?;
        match fs::hard_link(rt, path, second.as_str()) {
            Ok(()) => return Ok(second),
            Err(error) if error.kind() == ErrorKind::AlreadyExists => {}
            Err(error) => return Err(error),
        }
    }
    Err(io::Error::from(ErrorKind::AlreadyExists))
}

/// The permissions that a new file takes from an old one with this mode.
fn kept_permissions(mode: u32) -> Permissions
    ensures { permissions_mode result ≡ mode_kept mode }
{
    Permissions::from_mode(kept_mode(mode))
}

/// Writes a file and syncs it to storage.
fn write_and_sync<F: OpenFile + Write + Drop>(file: F, content: &[u8]) -> io::Result<()>
    ensures { OnOk result (TakesAll F.contents content.now) }
{
    let mut file = ByFlush { writer: file };
    write_whole(&mut file, content)?;
    file.writer.sync_all()
}

/// Gives a new file the owner's permissions of the file that it replaces, writes it, and syncs it. Returns its owner and group.
fn fill<F: OpenFile + Write + Drop>(
    file: F,
    existing: Existing,
    content: &[u8],
) -> io::Result<Maker>
    ensures { OnOk result (TakesAll F.contents content.now) }
{
    let maker = maker_of(&file.metadata()?);
    if let Existing::Plain(old) = existing {
        // If the host does not set them, the file keeps the narrow mode that it was created with.
        file.set_permissions(kept_permissions(old.mode)).ok();
    }
    write_and_sync(file, content)?;
    Ok(maker)
}

/// Writes the old file, whose only name now is the second one, and moves it back to its path.
///
/// It is an error if the file is not the one that was found, or if others can reach it by a further name.
fn bring_back<R: Files>(
    rt: &R,
    path: &str,
    second: &str,
    exchange: Exchange,
    content: &[u8],
) -> io::Result<()>
    ensures { OnOk result (TakesAll R.File.contents content.now) }
{
    let file = OpenOptions::new().write(true).open(rt, second)?;
    let metadata = file.metadata()?;
    let way = way_of(Existing::Plain(plain_file(&metadata)), exchange.maker);
    if way != Way::SameFile || !is_same_node(node_of(&metadata), exchange.old.node) {
        return Err(not_to_be_written());
    }
    file.set_len(0)?;
    write_and_sync(file, content)?;
    fs::rename(rt, second, path)
}

/// Moves the new file to the path, and then the old one, so that the path has the whole old or the whole new content at each moment.
///
/// If the old file cannot be moved back, the new one stays, with the owner's permissions only.
fn take_and_return<R: Files>(
    rt: &R,
    path: &str,
    temporary: &str,
    exchange: Exchange,
    content: &[u8],
) -> io::Result<()> {
    let Ok(second) = name_twice(rt, path) else {
        return fs::rename(rt, temporary, path);
    };
    if let Err(error) = fs::rename(rt, temporary, path) {
        fs::remove_file(rt, second.as_str()).ok();
        return Err(error);
    }
    if bring_back(rt, path, second.as_str(), exchange, content).is_err() {
        fs::remove_file(rt, second.as_str()).ok();
    }
    Ok(())
}

/// Moves a complete new file to the path.
fn take_path<R: Files>(
    rt: &R,
    path: &str,
    temporary: &str,
    exchange: Exchange,
    content: &[u8],
) -> io::Result<()> {
    match way_of(exchange.old.existing, exchange.maker) {
        Way::SameFile => take_and_return(rt, path, temporary, exchange, content),
        Way::AsNew | Way::OwnersRights | Way::InPlace | Way::Refused => {
            fs::rename(rt, temporary, path)
        }
    }
}

/// Writes a file next to the one at a path and moves it to that path. After an error the path is unchanged, and no
/// other file is left, except one that the host fails to remove.
fn replace_file<R: Files>(rt: &R, path: &str, old: Found, content: &[u8]) -> io::Result<()>
    ensures { OnOk result (TakesAll R.File.contents content.now) }
{
    let (temporary, file) = make_temporary(rt, path, creation_mode(old.existing))?;
    let filled = fill(file, old.existing, content);
    match filled.and_then(|maker| take_path(
        rt,
        path,
        temporary.as_str(),
        Exchange { old, maker },
        content,
    )) {
        Ok(()) => Ok(()),
        Err(error) => {
            // The first error is returned, whether or not the new file can be removed.
            fs::remove_file(rt, temporary.as_str()).ok();
            Err(error)
        }
    }
}

/// Opens the file at a path for writing in place. It is emptied only later, after it is known to be the one that was found.
fn open_in_place<R: Files>(rt: &R, path: &str, existing: Existing) -> io::Result<R::File> {
    match existing {
        Existing::Nothing => make_new(rt, path, creation_mode(existing)),
        Existing::Plain(_) => OpenOptions::new().write(true).open(rt, path),
        // Linux refuses another user's pipe in a directory with the sticky bit only for a call that may create a file.
        Existing::Link(_) | Existing::Other => OpenOptions::new()
            .write(true)
            .create(true)
            .open(rt, path),
    }
}

/// Whether a link is unchanged since it was found.
fn is_still_link<R: Files>(rt: &R, path: &str, link: Found) -> bool {
    match fs::symlink_metadata(rt, path) {
        Ok(metadata) => {
            let again = look_of(&metadata);
            is_same_node(again.node, link.node) && again.changed == link.changed
        }
        Err(_) => false,
    }
}

/// Whether the opened file may be written in place of what was found.
fn is_expected<R: Files>(rt: &R, path: &str, old: Found, opened: &Metadata) -> bool {
    match old.existing {
        Existing::Nothing => true,
        Existing::Plain(_) => {
            is_same_node(node_of(opened), old.node)
                && is_ours_alone(plain_file(opened), maker_here(rt))
        }
        Existing::Link(_) => is_still_link(rt, path, old),
        Existing::Other => is_same_node(node_of(opened), old.node),
    }
}

/// Writes what is at a path in place.
fn write_in_place<R: Files>(rt: &R, path: &str, old: Found, content: &[u8]) -> io::Result<()>
    ensures { OnOk result (TakesAll R.File.contents content.now) }
{
    let file = open_in_place(rt, path, old.existing)?;
    let metadata = file.metadata()?;
    if !is_expected(rt, path, old, &metadata) {
        return Err(not_to_be_written());
    }
    if metadata.is_file() {
        file.set_len(0)?;
    }
    let mut file = ByFlush { writer: file };
    write_whole(&mut file, content)
}

/// Whether an error says that no file can be created next to the path or moved to it, so that only writing in place is left.
fn leaves_the_place(kind: ErrorKind) -> bool {
    matches!(
        kind,
        ErrorKind::NotFound
            | ErrorKind::PermissionDenied
            | ErrorKind::ReadOnlyFilesystem
            | ErrorKind::ResourceBusy
            | ErrorKind::CrossesDevices
            | ErrorKind::InvalidFilename
            | ErrorKind::Unsupported
    )
}

/// Sets the content of a regular file, or of one that does not exist.
fn set_plain_file<R: Files>(rt: &R, path: &str, old: Found, content: &[u8]) -> io::Result<()>
    ensures { OnOk result (TakesAll R.File.contents content.now) }
{
    match replace_file(rt, path, old, content) {
        Ok(()) => Ok(()),
        Err(error) if leaves_the_place(error.kind()) => write_in_place(rt, path, old, content),
        Err(error) => Err(error),
    }
}

/// Sets the content of a link's target, a device or a pipe.
fn set_other<R: Files>(rt: &R, path: &str, old: Found, content: &[u8]) -> io::Result<()>
    ensures { OnOk result (TakesAll R.File.contents content.now) }
{
    match way_of(old.existing, maker_here(rt)) {
        Way::InPlace => write_in_place(rt, path, old, content),
        Way::AsNew | Way::OwnersRights | Way::SameFile | Way::Refused => Err(not_to_be_written()),
    }
}

/// Sets the content of a path. docs/reference/outside.md says when a new file replaces the old one, and when it is written in place.
pub(crate) fn set_file<R: Files>(rt: &R, path: &str, content: &[u8]) -> io::Result<()>
    ensures { OnOk result (TakesAll R.File.contents content.now) }
{
    let old = look_at(rt, path)?;
    match old.existing {
        Existing::Nothing | Existing::Plain(_) => set_plain_file(rt, path, old, content),
        Existing::Link(_) | Existing::Other => set_other(rt, path, old, content),
    }
}
