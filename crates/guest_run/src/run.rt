//! The steps of a guest, in any state.

ghost use Rattle.guest_run.specs.Run.{Steps};
ghost use Rattle.guest_run.specs.State.{guest_state};
ghost use Rattle.guest_run.specs.Travels.{Travels};
ghost use Rattle.guest_run.specs.Inside.Stretch.{Stretches};
ghost use Rattle.linux_calls.specs.HeapOf.{IsHeapOf};
ghost use Rattle.rv64_machine.specs.Hart.{act, is_stop};
ghost use Rattle.rv64_machine.specs.Hart as machine;
ghost use Rattle.std.specs.Prelude.{◌≡◌, ◌+◌, ◌^◌, ◌<◌, [], ◌∷◌, slice_index};

use linux_calls::{CallEnd, CallRegs, Heap, call};
use mem_files::Files;
use paged_mem::Ram;
use rv64_machine::{Cause, Hart, StepEnd};
use std::alloc::Global;

/// How a run ended. Ending does not change the guest; running it again ends it the same way.
#[derive(Clone, Copy, PartialEq, Eq)]
pub enum RunEnd {
    /// The program called exit or exit_group; the status is the low 8 bits of its argument.
    Exited(u8),
    /// An instruction trapped.
    Trapped(Cause),
    /// The program made a call whose number is not in the table.
    UnknownCall(u64),
    /// All steps asked for were taken, or the stop address was reached.
    Spent,
    /// This process is out of memory, which the guest does not see. The completed steps count.
    OutOfMemory,
}

/// A running program in any state: a hart with its memory, files, a heap and the number of steps taken.
#[derive(Drop)]
pub(crate) struct Process<R: Ram> {
    pub(crate) hart: Hart<R>,
    pub(crate) files: Files,
    pub(crate) heap: Heap,
    pub(crate) steps: u64,
    pub(crate) alloc: Global,
}

impl<R: Ram> Process<R> {
    /// Takes at most `most` steps, up to the one that reaches `stop`. Returns the end that occurs within them, or `Spent`.
    pub(crate) fn run(&mut self, most: u64, stop: Option<u64>) -> RunEnd
        requires heap_of { IsHeapOf self.old.hart.memory self.old.heap }
        requires counted { self.old.steps + most < 2 ^ 64 }
        ensures { Travels stop (guest_state self.old.hart self.old.files self.old.heap self.old.steps) most result
            (guest_state self.new.hart self.new.files self.new.heap self.new.steps) }
    {
        let end = self.steps + most;
        while self.steps < end {
            if let Some(end) = self.stretch(end - self.steps, stop) {
                return end;
            }
            if is_at(stop, self.hart.pc()) {
                return RunEnd::Spent;
            }
        }
        RunEnd::Spent
    }

    /// Takes at most `most` steps: instructions up to the stop or a call, and that call. Returns `None` if the guest continues, otherwise
    /// the reason why not.
    fn stretch(&mut self, most: u64, stop: Option<u64>) -> Option<RunEnd>
        requires some { 0 < most }
        requires heap_of { IsHeapOf self.old.hart.memory self.old.heap }
        requires counted { self.old.steps + most < 2 ^ 64 }
        ensures steps { Stretches stop (guest_state self.old.hart self.old.files self.old.heap self.old.steps) most result
            (guest_state self.new.hart self.new.files self.new.heap self.new.steps) }
        ensures kept { IsHeapOf self.new.hart.memory self.new.heap }
    {
        let (end, done) = self.hart.run_to(most, stop);
        self.steps += done;
        match end {
            StepEnd::Done => None,
            StepEnd::Call => self.serve(),
            StepEnd::Trap(cause) => Some(RunEnd::Trapped(cause)),
            StepEnd::OutOfMemory => Some(RunEnd::OutOfMemory),
        }
    }

    /// Takes the step of a guest that makes a call.
    fn serve(&mut self) -> Option<RunEnd>
        requires calls { act self.old.hart ≡ machine.Calls }
        requires heap_of { IsHeapOf self.old.hart.memory self.old.heap }
        requires counted { self.old.steps + 1 < 2 ^ 64 }
        ensures step { Steps (guest_state self.old.hart self.old.files self.old.heap self.old.steps) result
            (guest_state self.new.hart self.new.files self.new.heap self.new.steps) }
        ensures kept { IsHeapOf self.new.hart.memory self.new.heap }
    {
        let regs = call_regs(&self.hart);
        match call(
            self.alloc,
            &regs,
            self.hart.ram_mut(),
            &mut self.files,
            &mut self.heap,
        ) {
            CallEnd::Back(value) => {
                self.hart.answer(value);
                self.steps += 1;
                None
            }
            CallEnd::Exit(status) => Some(RunEnd::Exited(status)),
            CallEnd::Unknown(number) => Some(RunEnd::UnknownCall(number)),
            CallEnd::OutOfMemory => Some(RunEnd::OutOfMemory),
        }
    }
}

/// Whether a pc is the address at which to stop.
fn is_at(stop: Option<u64>, pc: u64) -> bool
    ensures { result ≡ is_stop stop pc }
{
    match stop {
        None => false,
        Some(address) => pc == address,
    }
}

/// The registers of a call: its number in x17, its arguments in x10 to x15.
fn call_regs<R: Ram>(hart: &Hart<R>) -> CallRegs
    ensures number { result.number ≡ slice_index hart.now.registers 17 }
    ensures arguments { result.a ≡ slice_index hart.now.registers 10 ∷ slice_index hart.now.registers 11
        ∷ slice_index hart.now.registers 12 ∷ slice_index hart.now.registers 13
        ∷ slice_index hart.now.registers 14 ∷ slice_index hart.now.registers 15 ∷ [] }
{
    CallRegs {
        number: hart.reg(17),
        a: [
            hart.reg(10),
            hart.reg(11),
            hart.reg(12),
            hart.reg(13),
            hart.reg(14),
            hart.reg(15),
        ],
    }
}
