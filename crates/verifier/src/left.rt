//! What a run left, compared with a stage's line.

ghost use Rattle.mem_files.specs.Calls.{content_at};
ghost use Rattle.mem_files.specs.Names.{is_stripped_name};
ghost use Rattle.mem_files.specs.Outputs.{left};
ghost use Rattle.mem_files.specs.Sound.{IsSound};
ghost use Rattle.std.specs.Prelude.{◌≡◌, IsTrue, Some, [], unwrap_or};
ghost use Rattle.verifier.specs.Faults.{has_left, names_left};

use mem_files::Files;
use report::{LeftLine, StageLine};

/// Whether both streams and all files that are left are as the line says.
#[tactic(auto, unfolding(crate::specs::Faults::has_left))]
pub(crate) fn has_left(line: &StageLine, files: &Files) -> bool
    ensures { result ≡ has_left line.now files.now }
{
    line.stream1.is_of(files.stream(1))
        && line.stream2.is_of(files.stream(2))
        && names_left(line.left.as_slice(), files)
}

/// Whether the lines are those of the files that are left, in the order of the names.
fn names_left(lines: &[LeftLine], files: &Files) -> bool
    requires { IsSound files.now }
    ensures { result ≡ names_left lines.now (left files.now) }
{
    let mut last: Option<&[u8]> = None;
    for line in lines {
        let Some(name) = files.name_after(last) else {
            return false;
        };
        if line.name.as_slice() != name {
            return false;
        }
        if !line.mark.is_of(bytes_of(files, name)) {
            return false;
        }
        last = Some(name);
    }
    files.name_after(last).is_none()
}

/// The bytes of a file that is left, by its name.
fn bytes_of<'f>(files: &'f Files, name: &[u8]) -> &'f [u8]
    requires { IsTrue (is_stripped_name name.now) }
    ensures { result.now ≡ unwrap_or (content_at files.now name.now) [] }
{
    files.content(name).unwrap_or(&[])
}
