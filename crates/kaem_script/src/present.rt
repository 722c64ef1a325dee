//! The files that exist before a command, and how the next guest gets them.

ghost use Rattle.kaem_script.specs.Inside.Commands.{renewed, world_in};
ghost use Rattle.mem_files.specs.Calls.{content_at, first_world, name_after, placed, with_file};
ghost use Rattle.mem_files.specs.Names.{is_stripped_name};
ghost use Rattle.std.specs.Prelude.{◌≡◌, [], IfOk, IsTrue, Ok, OnOk, unwrap_or};

use ddc_base::{Bytes, OutOfMemory};
use mem_files::{Files, PlaceRefusal};
use std::alloc::Global;

/// The files that exist: those given to the script, which are borrowed, or those that the command before left.
#[derive(Drop)]
pub(crate) enum Present<'a> {
    Given(&'a Files),
    Left(Files),
}

/// The files that exist.
pub(crate) fn files_in<'p>(present: &'p Present<'_>) -> &'p Files
    ensures { result.now ≡ world_in present.now }
{
    match present {
        Present::Given(files) => files,
        Present::Left(files) => files,
    }
}

/// The files with which the next program starts. What a command left is moved, and none of its bytes is copied. Error: out of memory.
pub(crate) fn renewed(alloc: Global, present: Present<'_>) -> Result<Files, OutOfMemory>
    ensures { IfOk result (λ files. files ≡ renewed (world_in present.entry)) }
{
    match present {
        Present::Given(files) => copied(alloc, files),
        Present::Left(mut files) => moved(alloc, &mut files),
    }
}

fn copied(alloc: Global, given: &Files) -> Result<Files, OutOfMemory>
    ensures { IfOk result (λ files. files ≡ renewed given.now) }
{
    let mut files = Files::new(alloc)?;
    copy_all(alloc, given, &mut files)?;
    Ok(files)
}

/// Copies all files into those of a start. Error: out of memory.
fn copy_all(alloc: Global, given: &Files, files: &mut Files) -> Result<(), OutOfMemory>
    requires { files.old ≡ first_world }
    ensures { OnOk result (files.new ≡ renewed given.now) }
{
    given.show_sound();
    let mut last: Option<&[u8]> = None;
    while let Some(name) = given.name_after(last) {
        let content = Vec::from_slice(alloc, bytes_of(given, name))?;
        place(files, name, content)?;
        last = Some(name);
    }
    Ok(())
}

fn moved(alloc: Global, left: &mut Files) -> Result<Files, OutOfMemory>
    ensures { IfOk result (λ files. files ≡ renewed left.old) }
{
    let mut files = Files::new(alloc)?;
    move_all(alloc, left, &mut files)?;
    Ok(files)
}

/// Moves all files into those of a start. Error: out of memory.
fn move_all(alloc: Global, left: &mut Files, files: &mut Files) -> Result<(), OutOfMemory>
    requires { files.old ≡ first_world }
    ensures { OnOk result (files.new ≡ renewed left.old) }
{
    left.show_sound();
    let mut last: Option<Bytes> = None;
    while let Some(name) = next_name(alloc, left, &last)? {
        let content = left.take_content(alloc, name.as_slice());
        place(files, name.as_slice(), content)?;
        last = Some(name);
    }
    Ok(())
}

/// The content of the file with a name; empty without such a file.
pub(crate) fn bytes_of<'f>(files: &'f Files, name: &[u8]) -> &'f [u8]
    requires { IsTrue (is_stripped_name name.now) }
    ensures { result.now ≡ unwrap_or (content_at files.now name.now) [] }
{
    files.content(name).unwrap_or(&[])
}

/// A copy of the first name after the last one. Error: out of memory.
fn next_name(
    alloc: Global,
    files: &Files,
    last: &Option<Bytes>,
) -> Result<Option<Bytes>, OutOfMemory>
    ensures { IfOk result (λ name. name ≡ name_after files.now last.now) }
{
    let last = match last {
        Some(name) => Some(name.as_slice()),
        None => None,
    };
    match files.name_after(last) {
        Some(name) => Ok(Some(Bytes::from_slice(alloc, name)?)),
        None => Ok(None),
    }
}

/// Places a file that no rule refuses. Error: out of memory.
fn place(files: &mut Files, name: &[u8], content: Vec<u8>) -> Result<(), OutOfMemory>
    requires { placed files.old name.now content.items ≡ (Ok tt, with_file files.old name.now content.items) }
    ensures { OnOk result (files.new ≡ with_file files.old name.now content.items) }
{
    match files.place_moved(name, content) {
        Ok(()) => Ok(()),
        Err(PlaceRefusal::BadName) => unreachable!(),
        Err(PlaceRefusal::Twice) => unreachable!(),
        Err(PlaceRefusal::Full) => unreachable!(),
        Err(PlaceRefusal::OutOfMemory) => Err(OutOfMemory),
    }
}
