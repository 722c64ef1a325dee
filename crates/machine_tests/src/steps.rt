//! What is asked of a hart, a step a row.

use crate::machine::fresh;
use paged_mem::{PagedRam, Ram, Width};
use rv64_machine::{Cause, Hart, Reservation, StepEnd};
use std::alloc::Global;
use std::process::Abort;

/// Where a new hart stands, over three pages.
pub(crate) const CODE: u64 = 0x1_0000;

/// The third of these pages.
pub(crate) const AT: u64 = 0x1_2000;

pub(crate) const HELD: Reservation = Reservation {
    wide: Width::W4,
    at: AT,
};

/// What is done with a hart, or asked of it.
#[derive(Clone, Copy)]
pub(crate) enum Step {
    /// Stores 4 bytes at an address.
    Put(u64, u64),
    /// How a step ends.
    Ends(StepEnd),
    /// How a step of a word at the pc ends.
    Word(u32, StepEnd),
    /// How a step of a word on an address in x11 and a value in x12 ends.
    On(u32, u64, u64, StepEnd),
    /// A step of a word on an address in x11 and 0 in x12 traps for a load there.
    LoadTraps(u32, u64),
    /// The same for a store.
    StoreTraps(u32, u64),
    /// What such a step, which is done, puts into x10, and the 4 bytes at the address then.
    Done(u32, u64, u64, u64, u64),
    /// How a run of at most so many steps ends, and how many it does.
    Run(u64, StepEnd, u64),
    Register(u8, u64),
    Pc(u64),
    /// Answers a call.
    Answer(u64),
    /// Reserves `HELD`.
    Reserve,
    /// What is reserved.
    Reserved(Option<Reservation>),
}

/// Puts a word at the pc and steps over it.
pub(crate) fn run<R: Ram>(rt: &impl Abort, hart: &mut Hart<R>, word: u32) -> StepEnd {
    let pc = hart.pc();
    assert!(rt; hart.ram_mut().store(pc, Width::W4, u64::from(word)).is_ok());
    hart.step()
}

/// The same on values of x11 and x12.
pub(crate) fn run_on<R: Ram>(
    rt: &impl Abort,
    hart: &mut Hart<R>,
    word: u32,
    a: u64,
    b: u64,
) -> StepEnd {
    hart.set_reg(11, a);
    hart.set_reg(12, b);
    run(rt, hart, word)
}

/// Whether such a step is done, and a register has a value then.
pub(crate) fn gives<R: Ram>(
    rt: &impl Abort,
    hart: &mut Hart<R>,
    (word, a, b): (u32, u64, u64),
    (register, value): (u8, u64),
) -> bool {
    run_on(rt, hart, word, a, b) == StepEnd::Done && has(hart, register, value)
}

fn has<R: Ram>(hart: &Hart<R>, register: u8, value: u64) -> bool {
    register < 32 && hart.reg(register) == value
}

/// Whether the 8 bytes at an address are this number.
pub(crate) fn holds<R: Ram>(hart: &Hart<R>, at: u64, number: u64) -> bool {
    hart.ram().load(at, Width::W8) == Some(number)
}

fn is_right<R: Ram>(rt: &impl Abort, hart: &mut Hart<R>, step: Step) -> bool {
    match step {
        Step::Put(at, value) => hart.ram_mut().store(at, Width::W4, value).is_ok(),
        Step::Ends(end) => hart.step() == end,
        Step::Word(word, end) => run(rt, hart, word) == end,
        Step::On(word, at, b, end) => run_on(rt, hart, word, at, b) == end,
        Step::LoadTraps(word, at) => {
            run_on(rt, hart, word, at, 0) == StepEnd::Trap(Cause::LoadUnmapped(at))
        }
        Step::StoreTraps(word, at) => {
            run_on(rt, hart, word, at, 0) == StepEnd::Trap(Cause::StoreUnmapped(at))
        }
        Step::Done(word, at, b, x10, bytes) => {
            gives(rt, hart, (word, at, b), (10, x10))
                && hart.ram().load(at, Width::W4) == Some(bytes)
        }
        Step::Run(most, end, done) => hart.run(most) == (end, done),
        Step::Register(register, value) => has(hart, register, value),
        Step::Pc(at) => hart.pc() == at,
        Step::Answer(value) => {
            hart.answer(value);
            true
        }
        Step::Reserve => {
            hart.set_reservation(Some(HELD));
            true
        }
        Step::Reserved(held) => hart.reservation() == held,
    }
}

fn walk<R: Ram>(rt: &impl Abort, hart: &mut Hart<R>, steps: &[Step]) {
    for (index, step) in steps.iter().enumerate() {
        assert!(rt; is_right(rt, hart, *step), "step {index}");
    }
}

/// Takes steps with a new hart.
pub(crate) fn check(rt: &impl Abort, alloc: Global, steps: &[Step]) {
    let mut hart: Hart<PagedRam> = fresh(rt, alloc);
    walk(rt, &mut hart, steps);
}
