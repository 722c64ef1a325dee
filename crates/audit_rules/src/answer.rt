use crate::cause::RunCause;
use crate::source_check::CheckCause;
use ddc_base::Bytes;
use report::{LeftLines, Mark, Report};

/// A stage that is done.
#[derive(Drop)]
pub struct Finished {
    /// The step at which its program exited, counted from 1.
    pub steps: u64,
    /// What its program wrote to its standard output.
    pub stream1: Mark,
    /// What its program wrote to its standard error.
    pub stream2: Mark,
    /// The files that its program left, ascending by the bytes of their names.
    pub left: LeftLines,
    /// The artefact.
    pub made: Bytes,
}

/// Why a stage is not done.
#[derive(Clone, Copy)]
pub enum StageFault {
    /// Its run made no artefact: the cause, and the step, which is 0 if the program did not start.
    Runs(RunCause, u64),
    /// Its artefact is not what its source stands for.
    Checks(CheckCause),
}

/// How an audit is over.
#[derive(Drop)]
pub enum AuditAnswer {
    /// Every stage is done, and the artefacts were compared.
    Completes(Report),
    /// The stage of this number, from 1, is not done.
    Fails(u32, StageFault),
}
