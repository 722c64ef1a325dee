//! The lines of files.

ghost use Rattle.kaem_script.specs.FilesListed.{listed_files, named_in};
ghost use Rattle.kaem_script.specs.Reported.{marked};
ghost use Rattle.mem_files.specs.Names.{is_stripped_name};
ghost use Rattle.mem_files.specs.Outputs.{left};
ghost use Rattle.std.specs.Prelude.{◌≡◌, IfOk, IsTrue, map};

use crate::files::FileList;
use crate::present::bytes_of;
use ddc_base::{Bytes, OutOfMemory};
use mem_files::Files;
use report::{LeftLine, LeftLines, Mark};
use std::alloc::Global;

/// The lines of the files of a list, in its order. Error: out of memory.
pub(crate) fn listed_lines(alloc: Global, list: &FileList) -> Result<LeftLines, OutOfMemory>
    ensures { IfOk result (λ lines. lines ≡ map marked (listed_files list.now)) }
{
    let mut lines = LeftLines::new(alloc);
    for name in list.names() {
        lines.push(line_of(alloc, list.files(), name.as_slice())?)?;
    }
    Ok(lines)
}

/// The lines of all files that are left, in the order of their names' bytes. Error: out of memory.
pub(crate) fn left_lines(alloc: Global, files: &Files) -> Result<LeftLines, OutOfMemory>
    ensures { IfOk result (λ lines. lines ≡ map marked (left files.now)) }
{
    files.show_sound();
    let mut lines = LeftLines::new(alloc);
    let mut last: Option<&[u8]> = None;
    while let Some(name) = files.name_after(last) {
        lines.push(line_of(alloc, files, name)?)?;
        last = Some(name);
    }
    Ok(lines)
}

/// The line of a file that exists. Error: out of memory.
fn line_of(alloc: Global, files: &Files, name: &[u8]) -> Result<LeftLine, OutOfMemory>
    requires { IsTrue (is_stripped_name name.now) }
    ensures { IfOk result (λ line. line ≡ marked (named_in files.now name.now)) }
{
    let mark = Mark::of(bytes_of(files, name));
    Ok(LeftLine {
        name: Bytes::from_slice(alloc, name)?,
        mark,
    })
}
