//! How a file of the host is saved, by what is at its path and by who saves.
//!
//! In a shared directory, others may create files, links and names; docs/reference/outside.md has each case as a row.

ghost use Rattle.std.specs.Prelude.{◌≡◌};
ghost use Rattle.ddc_base.specs.Saving.{allowed_way, comes_back, is_followed, is_one_node, is_own_alone, mode_beside, mode_kept};

/// The mode of any new file, before the process's umask.
const MODE_AS_NEW: u32 = 0o666;
/// The mode of a file that only its owner may read and write.
const MODE_PRIVATE: u32 = 0o600;
/// The owner's part of a mode.
const OWNERS_RIGHTS: u32 = 0o700;
/// The part of a mode for the group and for all others.
const OTHERS_RIGHTS: u32 = 0o077;
/// The bits setuid, setgid and sticky of a mode.
const SPECIAL_BITS: u32 = 0o7000;
/// The owner whose links everyone follows.
const ROOT: u32 = 0;

/// The properties of a regular file, as the host reports them.
#[derive(Clone, Copy)]
pub(crate) struct PlainFile {
    /// The kind of file and the permissions, as in `st_mode`.
    pub(crate) mode: u32,
    /// The user id.
    pub(crate) owner: u32,
    /// The group id.
    pub(crate) group: u32,
    /// The number of its names (hard links).
    pub(crate) names: u64,
}

/// What is at a path. A symbolic link is not followed.
#[derive(Clone, Copy)]
pub(crate) enum Existing {
    /// No file exists there.
    Nothing,
    /// A regular file.
    Plain(PlainFile),
    /// A symbolic link with this owner.
    Link(u32),
    /// A directory, a device, a pipe or a socket.
    Other,
}

/// The user and group of a new file of this process.
#[derive(Clone, Copy)]
pub(crate) struct Maker {
    /// The user id.
    pub(crate) owner: u32,
    /// The group id.
    pub(crate) group: u32,
}

/// The identity of a file: two lookups with the same one found the same file.
#[derive(Clone, Copy)]
pub(crate) struct Node {
    /// The device number.
    pub(crate) device: u64,
    /// The inode number on its device.
    pub(crate) number: u64,
}

/// How a file is saved.
#[derive(Clone, Copy, PartialEq, Eq)]
pub(crate) enum Way {
    /// A file with the permissions of any new file is moved to the path.
    AsNew,
    /// A new file with at most the owner's permissions of the old one is moved to the path.
    OwnersRights,
    /// A new file has the path until the old file, with its permissions, is written and is moved back.
    SameFile,
    /// What is at the path is written in place.
    InPlace,
    /// Nothing is written.
    Refused,
}

/// The mode that the file next to the path is created with.
pub(crate) fn creation_mode(existing: Existing) -> u32
    ensures { result ≡ mode_beside existing }
{
    match existing {
        Existing::Nothing => MODE_AS_NEW,
        Existing::Plain(_) | Existing::Link(_) | Existing::Other => MODE_PRIVATE,
    }
}

/// The part of an old file's mode that a new file takes: no permission for others, and no special bit.
pub(crate) fn kept_mode(mode: u32) -> u32
    ensures { result ≡ mode_kept mode }
{
    mode & OWNERS_RIGHTS
}

/// Whether a regular file has this owner, one name and no special bits, so that writing it changes nothing else.
pub(crate) fn is_ours_alone(file: PlainFile, maker: Maker) -> bool
    ensures { result ≡ is_own_alone file maker }
{
    file.owner == maker.owner && file.names == 1 && file.mode & SPECIAL_BITS == 0
}

/// Whether a regular file is moved back with its permissions, because others have some.
fn returns(file: PlainFile, maker: Maker) -> bool
    ensures { result ≡ comes_back file maker }
{
    is_ours_alone(file, maker) && file.group == maker.group && file.mode & OTHERS_RIGHTS != 0
}

/// Whether a symbolic link is followed: only one of this owner or of root is.
fn follows(owner: u32, maker: Maker) -> bool
    ensures { result ≡ is_followed owner maker }
{
    owner == ROOT || owner == maker.owner
}

/// How a file is saved.
pub(crate) fn way_of(existing: Existing, maker: Maker) -> Way
    ensures { result ≡ allowed_way existing maker }
{
    match existing {
        Existing::Nothing => Way::AsNew,
        Existing::Plain(file) => {
            if returns(file, maker) {
                Way::SameFile
            } else {
                Way::OwnersRights
            }
        }
        Existing::Link(owner) => {
            if follows(owner, maker) {
                Way::InPlace
            } else {
                Way::Refused
            }
        }
        Existing::Other => Way::InPlace,
    }
}

/// Whether two lookups found the same file.
pub(crate) fn is_same_node(first: Node, second: Node) -> bool
    ensures { result ≡ is_one_node first second }
{
    first.device == second.device && first.number == second.number
}
