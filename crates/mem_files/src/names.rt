//! Names of files.

ghost use Rattle.std.specs.Prelude.{◌≡◌, ◌==◌, take};
ghost use Rattle.std.specs.List.{list_any};
ghost use Rattle.mem_files.specs.Names.{stripped, is_file_name, is_stripped_name, begins_with_dot_slash};

use arrayvec::ArrayVec;
use ddc_base::limits::MOST_NAME;

/// A name as a key of the tree of names. It needs no allocation of its own.
pub type NameKey = ArrayVec<u8, MOST_NAME>;

/// The first 255 bytes of a name, as a key: all of a guest file name.
pub fn key(name: &[u8]) -> NameKey
    ensures { result.items ≡ take MOST_NAME name.now }
{
    let len = name.len().min(MOST_NAME);
    match ArrayVec::try_from(&name[..len]) {
        Ok(key) => key,
        Err(_) => ArrayVec::new(),
    }
}

/// A name without its leading `./`, removed repeatedly.
pub fn strip(name: &[u8]) -> &[u8]
    ensures { result.now ≡ stripped name.now }
{
    let mut rest = name;
    while let [b'.', b'/', shorter @ ..] = rest {
        rest = shorter;
    }
    rest
}

/// Whether this is a guest file name: 1 to 255 bytes, none of them zero.
pub fn is_file_name(name: &[u8]) -> bool
    ensures { result ≡ is_file_name name.now }
{
    if name.is_empty() || name.len() > MOST_NAME {
        return false;
    }
    !has_zero(name)
}

/// Whether this is a guest file name that does not begin with `./`.
pub fn is_stripped_name(name: &[u8]) -> bool
    ensures { result ≡ is_stripped_name name.now }
{
    is_file_name(name) && !begins_with_dot_slash(name)
}

/// Whether a name begins with `./`.
fn begins_with_dot_slash(name: &[u8]) -> bool
    ensures { result ≡ begins_with_dot_slash name.now }
{
    match name {
        [b'.', b'/', ..] => true,
        _ => false,
    }
}

/// Whether a name has a zero byte.
fn has_zero(name: &[u8]) -> bool
    ensures { result ≡ list_any (λ byte. byte == 0) name.now }
{
    name.iter().any(|byte| *byte == 0)
}
