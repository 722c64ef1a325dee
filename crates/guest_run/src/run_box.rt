ghost use Rattle.guest_run.specs.Setting.{IsBox, IsBoxFile, IsText, PlacesIn};
ghost use Rattle.ddc_base.specs.Limits.{most_heap};
ghost use Rattle.mem_files.specs.Names.{is_file_name, stripped};
ghost use Rattle.std.specs.FinMap as map;
ghost use Rattle.std.specs.Prelude.{◌≡◌, ◌≤◌, [], ◌∷◌, ◌++◌, All, OnErr, OnOk};

use crate::borrowed::Borrowed;
use crate::given::GivenFiles;
use ddc_base::OutOfMemory;
use ddc_base::limits::{MOST_CONTENT, MOST_NAMES};
use mem_files::{PlaceRefusal, is_file_name, strip};
use std::alloc::Global;
use std::marker::Model;

/// The execution context of a program: arguments, environment texts, files by name, and the largest size of its heap in bytes.
///
/// It borrows texts and contents for `'a` and copies none of their bytes before a start. It keeps the allocator given to `new`.
#[derive(Drop)]
pub struct RunBox<'a> {
    args: Vec<Borrowed<'a>>,
    env: Vec<Borrowed<'a>>,
    files: GivenFiles<'a>,
    heap: u64,
    alloc: Global,
}

impl<'a> Model for RunBox<'a> {
    ghost use Rattle.guest_run.specs.Inside.Codes.{setting_code};
    ghost use Rattle.guest_run.specs.Setting.{IsBox, Setting};

    ghost Value = { Setting };

    ghost coded = { setting_code };

    ghost view = { λ b. record { args = b.args.items; env = b.env.items; files = b.files; heap = b.heap } };

    ghost invariant = { λ b. IsBox (record { args = b.args.items; env = b.env.items; files = b.files; heap = b.heap }) };
}

impl<'a> RunBox<'a> {
    /// An execution context without arguments, environment and files, with a heap of at most `heap` bytes (0 to 2^30). Allocates nothing.
    pub fn new(alloc: Global, heap: u64) -> RunBox<'a>
        requires { heap ≤ most_heap }
        ensures { result ≡ record { args = []; env = []; files = map.empty; heap = heap } }
    {
        RunBox {
            args: Vec::new(alloc),
            env: Vec::new(alloc),
            files: GivenFiles::new(alloc),
            heap,
            alloc,
        }
    }

    /// Adds an argument. Error: out of memory; the context is unchanged.
    pub fn push_arg(&mut self, text: &'a [u8]) -> Result<(), OutOfMemory>
        requires { IsText text.now }
        ensures ok { OnOk result (self.new ≡ record self.old { args = self.old.args ++ text.now ∷ [] }) }
        ensures err { OnErr result (self.new ≡ self.old) }
    {
        self.args.push(Borrowed::new(text))?;
        Ok(())
    }

    /// Adds an environment text. Error: out of memory; the context is unchanged.
    pub fn push_env(&mut self, text: &'a [u8]) -> Result<(), OutOfMemory>
        requires { IsText text.now }
        ensures ok { OnOk result (self.new ≡ record self.old { env = self.old.env ++ text.now ∷ [] }) }
        ensures err { OnErr result (self.new ≡ self.old) }
    {
        self.env.push(Borrowed::new(text))?;
        Ok(())
    }

    /// Adds a file by its name, without a leading `./`.
    ///
    /// Refuses what `Files::place` refuses, except for the size of all files together, which the start checks. A refusal leaves the
    /// context unchanged.
    pub fn place(&mut self, name: &[u8], content: &'a [u8]) -> Result<(), PlaceRefusal>
        ensures files { PlacesIn self.old.files (stripped name.now) content.now result self.new.files }
        ensures others { self.new ≡ record self.old { files = self.new.files } }
    {
        place_in(&mut self.files, name, content)
    }

    /// The arguments.
    pub(crate) fn args(&self) -> &[Borrowed<'a>]
        ensures { result.now ≡ self.now.args }
    {
        self.args.as_slice()
    }

    /// The environment texts.
    pub(crate) fn env(&self) -> &[Borrowed<'a>]
        ensures { result.now ≡ self.now.env }
    {
        self.env.as_slice()
    }

    /// The files.
    pub(crate) fn files(&self) -> &GivenFiles<'a>
        ensures { result.now ≡ self.now.files }
    {
        &self.files
    }

    /// The largest size of the heap, in bytes.
    pub fn heap(&self) -> u64
        ensures value { result ≡ self.now.heap }
        // Every execution context is valid.
        ensures valid { IsBox self.now }
    {
        self.heap
    }
}

/// Adds a file by its name, without a leading `./`. A refusal leaves the files unchanged.
fn place_in<'a>(
    files: &mut GivenFiles<'a>,
    name: &[u8],
    content: &'a [u8],
) -> Result<(), PlaceRefusal>
    ensures answer { PlacesIn files.old (stripped name.now) content.now result files.new }
    ensures each { OnOk result (All IsBoxFile (map.entries files.new)) }
{
    let name = strip(name);
    if !is_file_name(name) {
        return Err(PlaceRefusal::BadName);
    }
    if files.holds(name) {
        return Err(PlaceRefusal::Twice);
    }
    if content.len() as u64 > MOST_CONTENT || files.len() >= MOST_NAMES {
        return Err(PlaceRefusal::Full);
    }
    match files.insert(name, content) {
        Ok(()) => Ok(()),
        Err(OutOfMemory) => Err(PlaceRefusal::OutOfMemory),
    }
}
