//! Makes files from parts.

ghost use Rattle.std.specs.Prelude.{◌≡◌, length};
ghost use Rattle.checkpoints.specs.FileParts.Restored.{Restores};

use crate::file_parts::parts::FileParts;
use ddc_base::OutOfMemory;
use mem_files::Files;
use std::alloc::Global;

/// Why parts do not make files.
#[derive(Clone, Copy, Debug, PartialEq, Eq)]
pub enum RestoreRefusal {
    /// A name, a number, a length, a count or a descriptor is not allowed for files.
    Range,
    /// A descriptor's file does not exist, or a file has neither a name nor a descriptor.
    FileRef,
    /// This process is out of memory.
    OutOfMemory,
}

impl From<OutOfMemory> for RestoreRefusal {
    ghost use Rattle.checkpoints.specs.declared.file_parts.restoring.RestoreRefusal.TheVariants as refusal;

    ghost from_gives = { λ _ why. why ≡ refusal.OutOfMemory };

    fn from(_error: OutOfMemory) -> RestoreRefusal {
        RestoreRefusal::OutOfMemory
    }
}

/// Makes files from these parts.
pub fn restore(alloc: Global, parts: &FileParts<'_>) -> Result<Files, RestoreRefusal>
    requires { length parts.now.streams ≡ 2 }
    ensures { Restores parts.now result }
{
    if !parts.is_in_range() {
        return Err(RestoreRefusal::Range);
    }
    if !parts.is_joined() {
        return Err(RestoreRefusal::FileRef);
    }
    Ok(parts.files(alloc)?)
}
