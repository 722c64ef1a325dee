//! The files that a program is given.

ghost use Rattle.guest_run.specs.Setting.{files_size, IsBoxFile};
ghost use Rattle.guest_run.specs.Start.{start_world};
ghost use Rattle.mem_files.specs.Calls.{placed, with_file};
ghost use Rattle.ddc_base.specs.Limits.{most_content, most_names, most_total};
ghost use Rattle.mem_files.specs.Names.{is_stripped_name};
ghost use Rattle.std.specs.FinMap as map;
ghost use Rattle.std.specs.Prelude.{◌≡◌, ◌<◌, ◌≤◌, false, length, All, IsTrue, Ok, IfOk, OnErr, OnOk};

use crate::borrowed::Borrowed;
use ddc_base::OutOfMemory;
use mem_files::{Files, PlaceRefusal};
use std::alloc::Global;
use std::collections::BTreeMap;
use std::marker::Model;

/// Files by name, in the order of the names' bytes. Their contents are borrowed.
#[derive(Drop)]
pub(crate) struct GivenFiles<'a> {
    entries: BTreeMap<Vec<u8>, Borrowed<'a>>,
    size: u64,
    alloc: Global,
}

impl<'a> Model for GivenFiles<'a> {
    ghost use Rattle.std.specs.FinMap.{from_sorted};
    ghost use Rattle.mem_files.specs.Inside.Cells.{keyed};
    ghost use Rattle.guest_run.specs.Inside.Codes.{file_map_code};
    ghost use Rattle.guest_run.specs.Setting.{FileMap};
    ghost use Rattle.guest_run.specs.Inside.Given.{IsGiven};

    ghost Value = { FileMap };

    ghost coded = { file_map_code };

    ghost view = { λ files. from_sorted (keyed (λ name. name.items) files.entries.entries) };

    ghost invariant = { λ files. IsGiven (keyed (λ name. name.items) files.entries.entries) files.size };
}

impl<'a> GivenFiles<'a> {
    /// An empty map of files. Allocates nothing.
    pub(crate) fn new(alloc: Global) -> GivenFiles<'a>
        ensures { result ≡ map.empty }
    {
        GivenFiles {
            entries: BTreeMap::new(alloc),
            size: 0,
            alloc,
        }
    }

    /// Whether a file has this name.
    pub(crate) fn holds(&self, name: &[u8]) -> bool
        ensures { result ≡ map.contains_key self.now name.now }
    {
        self.entries.contains_key(name)
    }

    /// The number of files.
    pub(crate) fn len(&self) -> usize
        ensures { result ≡ map.len self.now }
    {
        self.entries.len()
    }

    /// The size of all files together, in bytes.
    pub(crate) fn size(&self) -> u64
        ensures { result ≡ files_size self.now }
    {
        self.size
    }

    /// Adds a file. Error: out of memory; the files are unchanged.
    pub(crate) fn insert(&mut self, name: &[u8], content: &'a [u8]) -> Result<(), OutOfMemory>
        requires absent { map.contains_key self.old name.now ≡ false }
        requires named { IsTrue (is_stripped_name name.now) }
        requires small { length content.now ≤ most_content }
        requires few { map.len self.old < most_names }
        ensures ok { OnOk result (self.new ≡ map.insert self.old name.now content.now) }
        ensures err { OnErr result (self.new ≡ self.old) }
        ensures each { OnOk result (All IsBoxFile (map.entries self.new)) }
    {
        let key = Vec::from_slice(self.alloc, name)?;
        self.entries.insert(key, Borrowed::new(content))?;
        self.size += content.len() as u64;
        Ok(())
    }

    /// The files of a guest that starts with this map. Error: out of memory.
    pub(crate) fn start_files(&self, alloc: Global) -> Result<Files, OutOfMemory>
        requires { files_size self.now ≤ most_total }
        ensures { IfOk result (λ files. files ≡ start_world self.now) }
    {
        let mut files = Files::new(alloc)?;
        for (name, content) in &self.entries {
            place_given(&mut files, name.as_slice(), content.as_slice())?;
        }
        Ok(files)
    }
}

/// Places a file that no rule refuses. Error: out of memory.
fn place_given(files: &mut Files, name: &[u8], content: &[u8]) -> Result<(), OutOfMemory>
    requires { placed files.old name.now content.now ≡ (Ok tt, with_file files.old name.now content.now) }
    ensures { OnOk result (files.new ≡ with_file files.old name.now content.now) }
{
    match files.place(name, content) {
        Ok(()) => Ok(()),
        Err(PlaceRefusal::BadName) => unreachable!(),
        Err(PlaceRefusal::Twice) => unreachable!(),
        Err(PlaceRefusal::Full) => unreachable!(),
        Err(PlaceRefusal::OutOfMemory) => Err(OutOfMemory),
    }
}
