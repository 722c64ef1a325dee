//! The files and descriptors of a guest, as a text lists them.

ghost use Rattle.std.specs.Prelude.{◌≡◌, IfOk, map};
ghost use Rattle.mem_files.specs.Lists.{AreInRange, lists_of};
ghost use Rattle.save_format.specs.StateText.Seen.{descriptor_view, file_view};

use crate::state_text::parts::{File, NumberedDescriptor};
use ddc_base::OutOfMemory;
use mem_files::Files;
use std::alloc::Global;

/// The files, ascending by number. Names and contents are borrowed. Error: out of memory.
pub fn files_of(alloc: Global, files: &Files) -> Result<Vec<File<'_>>, OutOfMemory>
    requires { AreInRange (lists_of files.now) }
    ensures { IfOk result (λ v. map file_view v.items ≡ (lists_of files.now).files) }
{
    let mut list = Vec::new(alloc);
    let mut number = 0;
    while let Some(file) = files.file_from(number) {
        list.push(File {
            number: file.number,
            name: file.name,
            content: file.content,
        })?;
        number = file.number + 1;
    }
    Ok(list)
}

/// The descriptors, ascending. Error: out of memory.
pub fn descriptors_of(alloc: Global, files: &Files) -> Result<Vec<NumberedDescriptor>, OutOfMemory>
    requires { AreInRange (lists_of files.now) }
    ensures { IfOk result (λ v. map descriptor_view v.items ≡ (lists_of files.now).open_files) }
{
    let mut list = Vec::new(alloc);
    let mut number = 0;
    while let Some((fd, open_file)) = files.open_file_from(number) {
        list.push(NumberedDescriptor { fd, open_file })?;
        number = fd + 1;
    }
    Ok(list)
}
