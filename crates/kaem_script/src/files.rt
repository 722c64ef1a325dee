//! The files that a script is given.

ghost use Rattle.kaem_script.specs.FilesListed.{AreNames, IsList, Pushes, no_files};
ghost use Rattle.std.specs.Prelude.{◌≡◌, ◌<◌, [], ◌∷◌, ◌++◌, IfOk, length, vec_capacity, vec_len};

use ddc_base::{Bytes, OutOfMemory};
use mem_files::{Files, PlaceRefusal, strip};
use std::alloc::Global;
use std::marker::Model;

/// A list of files with distinct names: at most 4,096 files of 268,435,456 bytes each, and 536,870,912 bytes together.
#[derive(Drop)]
pub struct FileList {
    names: Vec<Bytes>,
    files: Files,
    alloc: Global,
}

impl Model for FileList {
    ghost use Rattle.kaem_script.specs.FilesListed.{IsList, FilesListed};
    ghost use Rattle.kaem_script.specs.Inside.Codes.{listed_code};

    ghost Value = { FilesListed };

    ghost coded = { listed_code };

    ghost view = { λ list. record { names = list.names.items; world = list.files } };

    ghost invariant = { λ list. IsList (record { names = list.names.items; world = list.files }) };
}

impl FileList {
    /// An empty list. Error: out of memory.
    pub fn new(alloc: Global) -> Result<FileList, OutOfMemory>
        ensures { IfOk result (λ list. list ≡ no_files) }
    {
        Ok(FileList {
            names: Vec::new(alloc),
            files: Files::new(alloc)?,
            alloc,
        })
    }

    /// Adds a file by its name, without a leading `./`.
    ///
    /// Refuses what `Files::place` refuses. A refusal leaves the list unchanged.
    pub fn push(&mut self, name: &[u8], content: &[u8]) -> Result<(), PlaceRefusal>
        ensures { Pushes self.old name.now content.now result self.new }
    {
        let kept = match Bytes::from_slice(self.alloc, strip(name)) {
            Ok(kept) => kept,
            Err(OutOfMemory) => return Err(PlaceRefusal::OutOfMemory),
        };
        self.names.reserve(1)?;
        match self.files.place(name, content) {
            Ok(()) => {
                push_name(&mut self.names, kept);
                Ok(())
            }
            Err(refusal) => Err(refusal),
        }
    }

    /// The names without a leading `./`, in the order of the list.
    pub fn names(&self) -> &[Bytes]
        ensures value { result.now ≡ self.now.names }
        // Each is a name as files hold it.
        ensures kept { AreNames self.now.names }
    {
        self.names.as_slice()
    }

    /// The number of files.
    pub fn len(&self) -> usize
        ensures value { result ≡ length self.now.names }
        // Each listed name is that of a file.
        ensures kept { IsList self.now }
    {
        self.names.as_slice().len()
    }

    /// Shows that the list obeys its rules: each listed name is that of a file.
    pub fn show_rules(&self)
        ensures { IsList self.now }
    {
        let _ = &self.names;
    }

    /// The files.
    pub fn files(&self) -> &Files
        ensures { result.now ≡ self.now.world }
    {
        &self.files
    }
}

/// Adds a name, for which there must be room.
fn push_name(names: &mut Vec<Bytes>, name: Bytes)
    requires { vec_len names.old < vec_capacity names.old }
    ensures { names.new.items ≡ names.old.items ++ name ∷ [] }
{
    names.push(name).unwrap();
}
