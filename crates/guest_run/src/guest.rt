ghost use Rattle.guest_run.specs.Run.{Runs};
ghost use Rattle.elf_load.specs.Image.{IsLoadable, image_of};
ghost use Rattle.guest_run.specs.Setting.{files_size};
ghost use Rattle.guest_run.specs.Stack.{start_size};
ghost use Rattle.guest_run.specs.Start.{start_of, start_state, Starts};
ghost use Rattle.guest_run.specs.State.{guest_state};
ghost use Rattle.guest_run.specs.Travels.{Travels};
ghost use Rattle.guest_run.specs.Valid.{Fits, IsValid};
ghost use Rattle.ddc_base.specs.Limits.{most_texts, most_total};
ghost use Rattle.paged_mem.specs.Memory.{bytes_at, maps};
ghost use Rattle.std.specs.Prelude.{◌≡◌, ◌+◌, ◌^◌, ◌<◌, ◌≤◌, length, slice_index, unwrap_or, Ok, IfOk, OnOk};

use crate::placing::{place_segments, place_stack};
use crate::run::{Process, RunEnd};
use crate::run_box::RunBox;
use crate::stack;
use ddc_base::OutOfMemory;
use ddc_base::limits::MOST_TOTAL;
use elf_load::{ElfRefusal, Image, read_image};
use linux_calls::Heap;
use mem_files::Files;
use paged_mem::Ram;
use rv64_machine::Hart;
use std::alloc::Global;
use std::marker::Model;

/// A started program: its hart with memory, its files, its heap and the number of steps taken. Two guests equal in these behave alike,
/// whatever type their memory has.
#[derive(Drop)]
pub struct Guest<R: Ram> {
    process: Process<R>,
}

impl<R: Ram> Model for Guest<R> {
    ghost use Rattle.guest_run.specs.State.{GuestState, guest_state};
    ghost use Rattle.guest_run.specs.Inside.Codes.{guest_code};
    ghost use Rattle.guest_run.specs.Valid.{IsValid};

    ghost Value = { GuestState };

    ghost coded = { guest_code };

    ghost view = { λ g. guest_state g.process.hart g.process.files g.process.heap g.process.steps };

    ghost invariant = { λ g. IsValid (guest_state g.process.hart g.process.files g.process.heap g.process.steps) };
}

impl<R: Ram> Guest<R> {
    /// Starts a program in an execution context (`RunBox`).
    ///
    /// Errors, in this order: `Elf`, `ArgsTooLong`, `BoxTooLarge`. `OutOfMemory` occurs only where the program would have started.
    pub fn start(alloc: Global, program: &[u8], setting: &RunBox) -> Result<Guest<R>, StartRefusal>
        ensures answer { Starts (start_of program.now setting.now) result }
        ensures fresh { IfOk result (λ guest. guest.steps ≡ 0) }
    {
        match read_image(program) {
            Ok(image) => Guest::start_image(alloc, program, &image, setting),
            Err(refusal) => Err(StartRefusal::Elf(refusal)),
        }
    }

    /// Starts a program whose image was read before, as `start` does.
    ///
    /// Errors, in this order: `ArgsTooLong`, `BoxTooLarge`. `OutOfMemory` occurs only where the program would have started.
    pub fn start_image(
        alloc: Global,
        program: &[u8],
        image: &Image,
        setting: &RunBox,
    ) -> Result<Guest<R>, StartRefusal>
        requires read { image_of program.now ≡ Ok image.now }
        requires loadable { IsLoadable (length program.now) image.now }
        ensures answer { Starts (start_of program.now setting.now) result }
        ensures fresh { IfOk result (λ guest. guest.steps ≡ 0) }
    {
        if !stack::fits(setting.args(), setting.env()) {
            return Err(StartRefusal::ArgsTooLong);
        }
        if setting.files().size() > MOST_TOTAL {
            return Err(StartRefusal::BoxTooLarge);
        }
        match started(alloc, program, setting, image) {
            Ok(guest) => Ok(guest),
            Err(OutOfMemory) => Err(StartRefusal::OutOfMemory),
        }
    }

    /// The guest made of these parts. Continues a saved state.
    pub fn restore(alloc: Global, hart: Hart<R>, files: Files, heap: Heap, steps: u64) -> Guest<R>
        requires { Fits hart.memory heap }
        ensures { result ≡ guest_state hart files heap steps }
    {
        hart.show_rules();
        files.show_sound();
        Guest {
            process: Process {
                hart,
                files,
                heap,
                steps,
                alloc,
            },
        }
    }

    /// Takes at most `most` steps, until one ends the run.
    ///
    /// Returns the end that occurs within them, or `Spent` if none does. Running an ended guest again returns its end again.
    /// `OutOfMemory` can occur only in a step that would have continued.
    pub fn run(&mut self, most: u64) -> RunEnd
        requires some { 1 ≤ most }
        requires counted { self.old.steps + most < 2 ^ 64 }
        ensures answer { Runs self.old most result self.new }
        ensures rises { self.old.steps ≤ self.new.steps }
        ensures few { self.new.steps ≤ self.old.steps + most }
    {
        self.run_to(most, None)
    }

    /// Takes at most `most` steps, up to the one that reaches the address `stop`, if given. At least one step is taken, unless `most` is
    /// 0: the address at which the guest already is does not count.
    ///
    /// `Spent` means that the run did not end: all steps were taken, or the address was reached.
    pub fn run_to(&mut self, most: u64, stop: Option<u64>) -> RunEnd
        requires { self.old.steps + most < 2 ^ 64 }
        ensures { Travels stop self.old most result self.new }
    {
        self.process.run(most, stop)
    }

    /// The number of steps taken, without the one that ends the run.
    pub fn steps(&self) -> u64
        ensures value { result ≡ self.now.steps }
        // Every guest is in a valid state.
        ensures valid { IsValid self.now }
    {
        self.process.steps
    }

    /// Shows that the guest is in a valid state, and that its number of steps is below 2^64.
    pub fn show_valid(&self)
        ensures valid { IsValid self.now }
        ensures counted { self.now.steps < 2 ^ 64 }
    {
        let _steps = self.process.steps;
    }

    /// The value of a register, by its number 0 to 31.
    pub fn reg(&self, number: u8) -> u64
        requires { number < 32 }
        ensures { result ≡ slice_index self.now.hart.registers number }
    {
        self.process.hart.reg(number)
    }

    /// The address of the next instruction.
    pub fn pc(&self) -> u64
        ensures { result ≡ self.now.hart.pc }
    {
        self.process.hart.pc()
    }

    /// Fills `out` with the bytes from `at` on. Returns `false` and leaves `out` unchanged if a byte is unmapped.
    pub fn peek(&self, at: u64, out: &mut [u8]) -> bool
        ensures answer { result ≡ maps self.now.hart.memory at (length out.old) }
        ensures moved { out.new ≡ unwrap_or (bytes_at self.now.hart.memory at (length out.old)) out.old }
    {
        self.process.hart.ram().read_into(at, out)
    }

    /// The files.
    pub fn files(&self) -> &Files
        ensures { result.now ≡ self.now.world }
    {
        &self.process.files
    }

    /// The hart, with the memory.
    pub fn hart(&self) -> &Hart<R>
        ensures { result.now ≡ self.now.hart }
    {
        &self.process.hart
    }

    /// The heap.
    pub fn heap(&self) -> Heap
        ensures { result ≡ self.now.heap }
    {
        self.process.heap
    }
}

/// Why a program does not start.
#[derive(Clone, Copy, Debug, PartialEq, Eq)]
pub enum StartRefusal {
    /// The file is not a program that can be loaded.
    Elf(ElfRefusal),
    /// The texts, each with its zero byte, and the words below them take more than 131,072 bytes.
    ArgsTooLong,
    /// The files together have more than 536,870,912 bytes.
    BoxTooLarge,
    /// This process is out of memory.
    OutOfMemory,
}

/// The started guest of a program that no rule refuses. Error: out of memory.
fn started<R: Ram>(
    alloc: Global,
    program: &[u8],
    setting: &RunBox,
    image: &Image,
) -> Result<Guest<R>, OutOfMemory>
    requires sound { IsLoadable (length program.now) image.now }
    requires texts { start_size setting.now.args setting.now.env ≤ most_texts }
    requires files { files_size setting.now.files ≤ most_total }
    ensures { IfOk result (λ guest. guest ≡ start_state program.now setting.now image.now) }
{
    let stack = stack::stack_of(alloc, setting.args(), setting.env())?;
    let files = setting.files().start_files(alloc)?;
    let mut ram = R::empty(alloc);
    place_segments(&mut ram, program, image.segments.as_slice())?;
    place_stack(&mut ram, stack.at, stack.bytes.as_slice())?;
    let mut hart = Hart::new(ram, image.entry);
    hart.set_reg(2, stack.at);
    let heap = Heap {
        first: image.first_break,
        now: image.first_break,
        limit: setting.heap(),
    };
    Ok(Guest {
        process: Process {
            hart,
            files,
            heap,
            steps: 0,
            alloc,
        },
    })
}

impl<R: Ram> Guest<R> {
    /// The guest with its files replaced by these.
    pub fn with_files(self, files: Files) -> Guest<R>
        ensures { result ≡ record self { world = files } }
    {
        files.show_sound();
        Guest {
            process: Process {
                files,
                ..self.process
            },
        }
    }

    /// The guest's files; the rest is dropped.
    pub fn into_files(self) -> Files
        ensures { result ≡ self.world }
    {
        self.process.files
    }
}
