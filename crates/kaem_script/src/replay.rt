//! Replays a command to check its line. A command starts as in the audit; its end and what it left are found here.

ghost use Rattle.guest_run.specs.Run.{first_end};
ghost use Rattle.ddc_base.specs.Limits.{most_steps};
ghost use Rattle.kaem_script.specs.Faults.{left_after_steps, left_at_step, replayed_command, says_streams};
ghost use Rattle.kaem_script.specs.Fold.{by_first_end, command};
ghost use Rattle.kaem_script.specs.Inside.Commands.{renewed, world_in};
ghost use Rattle.kaem_script.specs.Inside.Replays.{Judged, OnReplayWant, or_no_run};
ghost use Rattle.kaem_script.specs.Kept.{IsCommand};
ghost use Rattle.kaem_script.specs.Verdicts.{CanReplay};
ghost use Rattle.kaem_script.specs.Wants.{HasProgram};
ghost use Rattle.kaem_script.specs.declared.replay.ReplayStop.TheVariants.{OutOfMemory};
ghost use Rattle.std.specs.Prelude.{◌≡◌, ◌≤◌};

use crate::command::begun;
use crate::present::{Present, files_in, renewed};
use crate::reading::Command;
use crate::verdict::ScriptPart;
use ddc_base::limits::MOST_STEPS;
use guest_run::{Guest, RunEnd, RunRam};
use mem_files::Files;
use report::script::CommandLine;
use std::alloc::Global;

/// What stops the replay of a command.
#[derive(Clone, Copy)]
pub(crate) enum ReplayStop {
    /// This part is not true.
    Refuted(ScriptPart),
    OutOfMemory,
}

impl From<ddc_base::OutOfMemory> for ReplayStop {
    ghost from_gives = { λ _ stop. stop ≡ OutOfMemory };

    fn from(_error: ddc_base::OutOfMemory) -> ReplayStop {
        ReplayStop::OutOfMemory
    }
}

/// The files that a command left, if its line is true.
#[tactic(auto, unfolding(crate::specs::Faults::replayed_command))]
pub(crate) fn replay(
    alloc: Global,
    present: Present<'_>,
    words: &Command,
    line: &CommandLine,
) -> Result<Files, ReplayStop>
    requires { IsCommand words.now }
    ensures value { Judged (λ files. files) (replayed_command (world_in present.entry) words.now line.now) result }
    ensures memory { OnReplayWant result (CanReplay (world_in present.entry) words.now line.now.steps) }
{
    let guest = exited(alloc, present, words, line.steps)?;
    if !says_streams(line, guest.files()) {
        return Err(ReplayStop::Refuted(ScriptPart::Streams));
    }
    Ok(guest.into_files())
}

/// The guest of a command's program, about to exit with 0 at exactly this step.
#[tactic(auto, unfolding(crate::specs::Faults::left_at_step))]
fn exited(
    alloc: Global,
    present: Present<'_>,
    words: &Command,
    step: u64,
) -> Result<Guest<RunRam>, ReplayStop>
    requires { IsCommand words.now }
    ensures value { Judged (λ guest. guest.world) (or_no_run (left_at_step (world_in present.entry) words.now step)) result }
    ensures memory { OnReplayWant result (CanReplay (world_in present.entry) words.now step) }
{
    if 1 <= step && step <= MOST_STEPS {
        run_command(alloc, present, words, step)
    } else {
        Err(ReplayStop::Refuted(ScriptPart::Run))
    }
}

/// Runs a command's program up to its exit with 0 at exactly this step.
fn run_command(
    alloc: Global,
    present: Present<'_>,
    words: &Command,
    step: u64,
) -> Result<Guest<RunRam>, ReplayStop>
    requires words { IsCommand words.now }
    requires some { 1 ≤ step }
    requires few { step ≤ most_steps }
    ensures value { Judged (λ guest. guest.world) (or_no_run (left_after_steps step (command step (world_in present.entry) words.now))) result }
    ensures memory { OnReplayWant result (HasProgram (world_in present.entry) words.now) }
{
    match begun(alloc, files_in(&present), words)? {
        Ok(guest) => run_over(alloc, guest, present, step),
        Err(_) => Err(ReplayStop::Refuted(ScriptPart::Run)),
    }
}

/// Runs a guest with the files that exist up to its exit with 0 at exactly this step.
fn run_over(
    alloc: Global,
    guest: Guest<RunRam>,
    present: Present<'_>,
    step: u64,
) -> Result<Guest<RunRam>, ReplayStop>
    requires fresh { guest.steps ≡ 0 }
    requires some { 1 ≤ step }
    requires few { step ≤ most_steps }
    ensures { Judged (λ guest. guest.world) (or_no_run (left_after_steps step (by_first_end step (first_end (record guest { world = renewed (world_in present.entry) }) step)))) result }
{
    let files = renewed(alloc, present)?;
    run_to(guest.with_files(files), step)
}

/// Runs a fresh guest for `step` steps, the last of which must be its exit with 0.
fn run_to(guest: Guest<RunRam>, step: u64) -> Result<Guest<RunRam>, ReplayStop>
    requires fresh { guest.steps ≡ 0 }
    requires some { 1 ≤ step }
    requires few { step ≤ most_steps }
    ensures { Judged (λ guest. guest.world) (or_no_run (left_after_steps step (by_first_end step (first_end guest step)))) result }
{
    let mut guest = guest;
    exit_at(&mut guest, step)?;
    Ok(guest)
}

/// Runs a fresh guest up to its exit with 0 at exactly this step.
fn exit_at(guest: &mut Guest<RunRam>, step: u64) -> Result<(), ReplayStop>
    requires fresh { guest.old.steps ≡ 0 }
    requires some { 1 ≤ step }
    requires few { step ≤ most_steps }
    ensures { Judged (λ _. guest.new.world) (or_no_run (left_after_steps step (by_first_end step (first_end guest.old step)))) result }
{
    match guest.run(step) {
        RunEnd::Exited(0) => {
            if guest.steps() + 1 == step {
                Ok(())
            } else {
                Err(ReplayStop::Refuted(ScriptPart::Run))
            }
        }
        RunEnd::Exited(_) => Err(ReplayStop::Refuted(ScriptPart::Run)),
        RunEnd::Trapped(_) => Err(ReplayStop::Refuted(ScriptPart::Run)),
        RunEnd::UnknownCall(_) => Err(ReplayStop::Refuted(ScriptPart::Run)),
        RunEnd::Spent => Err(ReplayStop::Refuted(ScriptPart::Run)),
        RunEnd::OutOfMemory => Err(ReplayStop::OutOfMemory),
    }
}

/// Whether a command's line agrees with what it wrote to its streams.
fn says_streams(line: &CommandLine, files: &Files) -> bool
    ensures { result ≡ says_streams line.now files.now }
{
    line.stream1.is_of(files.stream(1)) && line.stream2.is_of(files.stream(2))
}
