//! Where an audit stands.

ghost use Rattle.std.specs.Prelude.{◌≡◌};

use crate::stage::Done;
use audit_rules::source_check::CheckCause;
use audit_rules::{AuditAnswer, RunCause, StageFault};
use guest_run::{Guest, RunRam};

/// The finished stages of an audit, and where it stands.
#[derive(Drop)]
pub(crate) struct Course {
    pub(crate) done: Vec<Done>,
    pub(crate) phase: AuditPhase,
}

/// Where an audit stands.
#[derive(Drop)]
pub(crate) enum AuditPhase {
    /// The first stage has not started.
    Ready,
    /// A stage runs.
    Running(Guest<RunRam>),
    /// The audit is over.
    Over(AuditAnswer),
}

impl AuditPhase {
    /// Replaces where the audit stands.
    pub(crate) fn set(&mut self, next: AuditPhase)
        ensures { self.new ≡ next }
    {
        *self = next;
    }
}

/// The result of some steps.
#[derive(Drop)]
pub(crate) enum Moved {
    /// The stage continues.
    Goes,
    /// The stage's run has ended.
    Ended(Result<Done, StageFault>),
}

/// What becomes of the guest of a finished stage.
#[derive(Clone, Copy)]
pub(crate) enum EndedGuest {
    /// It is kept until the next stage has started, so that the audit remains after out of memory.
    Kept,
    /// It is dropped first, so that one guest is in memory at a time.
    GivenUp,
}

/// What an advance returns.
#[derive(Clone, Copy, PartialEq, Eq)]
pub enum Progress {
    /// The audit is over: each compared artefact is the audited binary.
    Equal,
    /// The audit is over: a compared artefact differs from the audited binary.
    Differs,
    /// The audit is over: a stage's run made no artefact.
    RunFailed {
        /// The stage's number, from 1.
        stage: u32,
        cause: RunCause,
        /// The step of the run, from 1; 0 if the program did not start.
        step: u64,
    },
    /// The audit is over: an artefact is not what its source stands for.
    CheckFailed {
        /// The stage's number, from 1.
        stage: u32,
        cause: CheckCause,
    },
    /// All requested steps were taken, and the audit is not over.
    Paused,
    /// Out of memory. The audit stands after the steps that were done, and may be advanced again.
    OutOfMemory,
}
