//! The checks of two texts and of the first one.

ghost use Rattle.std.specs.Prelude.{◌≡◌, ◌<◌, ◌^◌, IfOk, None, Ok};
ghost use Rattle.ddc_base.specs.Difference.{first_difference};
ghost use Rattle.guest_run.specs.Start.{start_of};
ghost use Rattle.guest_run.specs.Valid.{IsValid};
ghost use Rattle.segments.specs.Inside.Recorded.{Records};
ghost use Rattle.segments.specs.Segments.{ChecksPiece, IsStateOf, StartChecks, second_text};

use crate::answers::{SegmentAnswer, SegmentFault, StartAnswer, StartFault};
use crate::reading::{Recorded, Unread, guest_of, recorded_by};
use checkpoints::write_state;
use ddc_base::limits::MOST_STEPS;
use ddc_base::{OutOfMemory, first_difference};
use guest_run::{Guest, RunBox, RunEnd, RunRam, StartRefusal};
use std::alloc::Global;

/// Checks that two texts are a segment of a run: one or more steps lead from the first state to the second, and none ends the run.
pub fn check(alloc: Global, from: &[u8], to: &[u8]) -> SegmentAnswer
    ensures { ChecksPiece from.now to.now result }
{
    match guest_of(alloc, from) {
        Ok(mut guest) => check_from(alloc, &mut guest, from, to),
        Err(Unread::Fault(why)) => SegmentAnswer::No(SegmentFault::From(why)),
        Err(Unread::OutOfMemory) => SegmentAnswer::OutOfMemory,
    }
}

fn check_from(alloc: Global, guest: &mut Guest<RunRam>, from: &[u8], to: &[u8]) -> SegmentAnswer
    requires { IsStateOf from.now guest.old }
    ensures { ChecksPiece from.now to.now result }
{
    match recorded_by(alloc, to) {
        Ok(recorded) => check_to(alloc, guest, from, to, &recorded),
        Err(Unread::Fault(why)) => SegmentAnswer::No(SegmentFault::To(why)),
        Err(Unread::OutOfMemory) => SegmentAnswer::OutOfMemory,
    }
}

/// Runs the first guest up to the steps of the second.
fn check_to(
    alloc: Global,
    guest: &mut Guest<RunRam>,
    from: &[u8],
    to: &[u8],
    recorded: &Recorded,
) -> SegmentAnswer
    requires from { IsStateOf from.now guest.old }
    requires to { Records to.now recorded.now }
    ensures { ChecksPiece from.now to.now result }
{
    let first = guest.steps();
    if recorded.steps <= first {
        return SegmentAnswer::No(SegmentFault::NotLater);
    }
    let count = recorded.steps - first;
    if count > MOST_STEPS {
        return SegmentAnswer::No(SegmentFault::TooFar);
    }
    match guest.run(count) {
        RunEnd::Exited(_) => SegmentAnswer::No(SegmentFault::EndsAt(guest.steps() + 1)),
        RunEnd::Trapped(_) => SegmentAnswer::No(SegmentFault::EndsAt(guest.steps() + 1)),
        RunEnd::UnknownCall(_) => SegmentAnswer::No(SegmentFault::EndsAt(guest.steps() + 1)),
        RunEnd::Spent => match difference(alloc, guest, recorded.text.as_slice()) {
            Ok(None) => SegmentAnswer::Yes(count),
            Ok(Some(offset)) => SegmentAnswer::No(SegmentFault::Differs(offset)),
            Err(OutOfMemory) => SegmentAnswer::OutOfMemory,
        },
        RunEnd::OutOfMemory => SegmentAnswer::OutOfMemory,
    }
}

/// The first offset at which the text of a guest's state differs from another text; `None` if they are equal.
fn difference(alloc: Global, guest: &Guest<RunRam>, text: &[u8]) -> Result<Option<u64>, OutOfMemory>
    ensures offset { IfOk result (λ offset. offset ≡ first_difference (second_text guest.now) text.now) }
    ensures none { IfOk result (λ offset. offset ≡ None → text.now ≡ second_text guest.now) }
    ensures valid { IsValid guest.now }
    ensures small { guest.now.steps < 2 ^ 64 }
{
    guest.show_valid();
    let found = write_state(alloc, guest)?;
    Ok(first_difference(found.as_slice(), text))
}

/// Checks that a text's state is the start of a program in this execution context (`RunBox`).
pub fn check_start(alloc: Global, program: &[u8], setting: &RunBox, first: &[u8]) -> StartAnswer
    ensures { StartChecks program.now setting.now first.now result }
{
    match Guest::<RunRam>::start(alloc, program, setting) {
        Ok(guest) => check_first(alloc, &guest, program, setting, first),
        Err(StartRefusal::Elf(why)) => StartAnswer::Start(StartFault::Elf(why)),
        Err(StartRefusal::ArgsTooLong) => StartAnswer::Start(StartFault::ArgsTooLong),
        Err(StartRefusal::BoxTooLarge) => StartAnswer::Start(StartFault::BoxTooLarge),
        Err(StartRefusal::OutOfMemory) => StartAnswer::OutOfMemory,
    }
}

/// Compares the program's start with the state of the first text.
fn check_first(
    alloc: Global,
    guest: &Guest<RunRam>,
    program: &[u8],
    setting: &RunBox,
    first: &[u8],
) -> StartAnswer
    requires { start_of program.now setting.now ≡ Ok guest.now }
    ensures { StartChecks program.now setting.now first.now result }
{
    match recorded_by(alloc, first) {
        Ok(recorded) => match difference(alloc, guest, recorded.text.as_slice()) {
            Ok(None) => StartAnswer::Yes,
            Ok(Some(offset)) => StartAnswer::Differs(offset),
            Err(OutOfMemory) => StartAnswer::OutOfMemory,
        },
        Err(Unread::Fault(why)) => StartAnswer::NotState(why),
        Err(Unread::OutOfMemory) => StartAnswer::OutOfMemory,
    }
}
