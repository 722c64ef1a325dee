use crate::types::{LeftLines, Mark};
use ddc_base::ListOf;
use ddc_base::digests::Digest;

/// The blocks of the commands, in the script's order.
pub type CommandLines = ListOf<CommandLine>;

/// A command of a script, as the report has it.
#[derive(Clone, Copy)]
pub struct CommandLine {
    /// The step at which its program exited with 0, from 1 to 2^48.
    pub steps: u64,
    /// The mark of its standard output.
    pub stream1: Mark,
    /// The mark of its standard error.
    pub stream2: Mark,
}

/// The report of a script's commands, which ran one after the other on one file system. It has at most 4,096 of each kind of line.
#[derive(Drop)]
pub struct ScriptReport {
    /// The digest of the script's bytes.
    pub script: Digest,
    /// The files that the script was given, in the given order.
    pub files: LeftLines,
    pub commands: CommandLines,
    /// The files that existed after the last command had exited.
    pub left: LeftLines,
}
