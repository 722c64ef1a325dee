//! The lines of the files that a stage's program left.

ghost use Rattle.std.specs.Prelude.{◌≡◌, [], IfOk, IfSome, IsTrue, map, unwrap_or};
ghost use Rattle.mem_files.specs.Calls.{content_at};
ghost use Rattle.mem_files.specs.Names.{is_stripped_name};
ghost use Rattle.mem_files.specs.Outputs.{left};
ghost use Rattle.mem_files.specs.Sound.{IsSound};
ghost use Rattle.report.specs.Marks.{mark_of};
ghost use Rattle.audit_rules.specs.Stages.{marked_left};

use ddc_base::{Bytes, OutOfMemory};
use mem_files::Files;
use report::{LeftLine, LeftLines, Mark};
use std::alloc::Global;

/// The path of a file whose mark is known, and its mark.
#[derive(Clone, Copy)]
pub(crate) struct Known<'a> {
    pub(crate) path: &'a [u8],
    pub(crate) mark: Mark,
}

/// The lines of all files that are left, ascending by the bytes of their names. Error: out of memory.
pub(crate) fn left_lines(
    alloc: Global,
    files: &Files,
    known: &Option<Known<'_>>,
) -> Result<LeftLines, OutOfMemory>
    requires sound { IsSound files.now }
    requires known { IfSome known.now (λ k. k.mark ≡ mark_of (unwrap_or (content_at files.now k.path.now) [])) }
    ensures { IfOk result (λ lines. lines ≡ map marked_left (left files.now)) }
{
    let mut lines = LeftLines::new(alloc);
    let mut last: Option<&[u8]> = None;
    while let Some(name) = files.name_after(last) {
        lines.push(line_of(alloc, files, name, known)?)?;
        last = Some(name);
    }
    Ok(lines)
}

/// The line of a file that is left.
fn line_of(
    alloc: Global,
    files: &Files,
    name: &[u8],
    known: &Option<Known<'_>>,
) -> Result<LeftLine, OutOfMemory>
    requires name { IsTrue (is_stripped_name name.now) }
    requires known { IfSome known.now (λ k. k.mark ≡ mark_of (unwrap_or (content_at files.now k.path.now) [])) }
    ensures { IfOk result (λ line. line ≡ marked_left (name.now, unwrap_or (content_at files.now name.now) [])) }
{
    let mark = match known {
        Some(known) if known.path == name => known.mark,
        _ => Mark::of(files.content(name).unwrap_or(&[])),
    };
    Ok(LeftLine {
        name: Bytes::from_slice(alloc, name)?,
        mark,
    })
}
