//! Lists of files, descriptors and streams that grow.

ghost use Rattle.std.specs.Prelude.{◌≡◌, ◌<◌, ◌++◌, ◌∷◌, [], IfOk, IfSome, IsTrue, OnErr, OnOk, ◌↔◌, length};
ghost use Rattle.mem_files.specs.Lists.{AreInRange, AreJoined, world_of};
ghost use Rattle.std.specs.List.{All};
ghost use Rattle.std.specs.Option.{option_copied};
ghost use Rattle.mem_files.specs.Sound.{AreBytes};

use crate::file_parts::judging::{are_in_range, are_joined};
use ddc_base::{OutOfMemory, show_bytes};
use mem_files::{FileView, Files, OpenFile};
use std::alloc::Global;
use std::marker::Model;

/// The parts of which files are made: files and descriptors in ascending order, and the contents of the streams. Names and contents are
/// borrowed.
///
/// Contracts see three lists.
#[derive(Drop)]
pub struct FileParts<'a> {
    files: Vec<FileView<'a>>,
    open_files: Vec<(u32, OpenFile)>,
    streams: Vec<&'a [u8]>,
}

impl<'a> Model for FileParts<'a> {
    ghost use Rattle.mem_files.specs.Lists.{FileLists};
    ghost use Rattle.checkpoints.specs.FileParts.Inside.Views.{view_of, lists_code, AreParts};

    ghost Value = { FileLists };

    ghost coded = { lists_code };

    ghost view = { λ parts. view_of parts.files.items parts.open_files.items parts.streams.items };

    ghost invariant = { λ parts. AreParts (view_of parts.files.items parts.open_files.items parts.streams.items) };
}

impl<'a> FileParts<'a> {
    /// Parts without files, descriptors and streams.
    pub fn new(alloc: Global) -> FileParts<'a>
        ensures { result ≡ record { files = []; open_files = []; streams = [] } }
    {
        FileParts {
            files: Vec::new(alloc),
            open_files: Vec::new(alloc),
            streams: Vec::new(alloc),
        }
    }

    /// Whether names, numbers, lengths, counts and descriptors are allowed for files.
    pub(crate) fn is_in_range(&self) -> bool
        ensures { IsTrue result ↔ AreInRange self.now }
    {
        are_in_range(&self.files, &self.open_files, &self.streams)
    }

    /// Whether each descriptor's file exists, and each file has a name or a descriptor.
    pub(crate) fn is_joined(&self) -> bool
        ensures { IsTrue result ↔ AreJoined self.now }
    {
        are_joined(&self.files, &self.open_files)
    }

    /// The files of these parts, which must obey the rules. Error: out of memory.
    pub(crate) fn files(&self, alloc: Global) -> Result<Files, OutOfMemory>
        requires streams { length self.now.streams ≡ 2 }
        requires within { AreInRange self.now }
        requires joined { AreJoined self.now }
        ensures { IfOk result (λ made. made ≡ world_of self.now) }
    {
        Files::from_lists(
            alloc,
            &self.files,
            &self.open_files,
            self.streams[0],
            self.streams[1],
        )
    }

    /// Adds a file, whose number must be above all earlier ones. Error: out of memory; the parts are unchanged.
    pub fn push_file(
        &mut self,
        number: u32,
        name: Option<&'a [u8]>,
        content: &'a [u8],
    ) -> Result<(), OutOfMemory>
        requires { All (λ file. file.number < number) self.old.files }
        ensures ok { OnOk result (self.new ≡ record self.old {
          files = self.old.files
              ++ record { number = number; name = option_copied name.entry; content = content.now } ∷ [];
        }) }
        ensures err { OnErr result (self.new ≡ self.old) }
    {
        show_name_bytes(name);
        self.files.push(FileView {
            number,
            name,
            content,
        })?;
        Ok(())
    }

    /// Adds a descriptor, which must be above all earlier ones, and what it stands for. Error: out of memory; the parts are unchanged.
    pub fn push_open_file(&mut self, fd: u32, open_file: OpenFile) -> Result<(), OutOfMemory>
        requires { All (λ held. held.0 < fd) self.old.open_files }
        ensures ok { OnOk result (self.new ≡ record self.old { open_files = self.old.open_files ++ (fd, open_file) ∷ [] }) }
        ensures err { OnErr result (self.new ≡ self.old) }
    {
        self.open_files.push((fd, open_file))?;
        Ok(())
    }

    /// Adds the content of a stream; there must be fewer than two. Error: out of memory; the parts are unchanged.
    pub fn push_stream(&mut self, content: &'a [u8]) -> Result<(), OutOfMemory>
        requires { length self.old.streams < 2 }
        ensures ok { OnOk result (self.new ≡ record self.old { streams = self.old.streams ++ content.now ∷ [] }) }
        ensures err { OnErr result (self.new ≡ self.old) }
    {
        self.streams.push(content)?;
        Ok(())
    }
}

/// Shows that a name, if there is one, consists of numbers below 256.
fn show_name_bytes(name: Option<&[u8]>)
    ensures { IfSome (option_copied name.entry) AreBytes }
{
    if let Some(name) = name {
        show_bytes(name);
    }
}
