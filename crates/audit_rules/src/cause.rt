use elf_load::ElfRefusal;
use rv64_machine::Cause;

/// Why a program does not start.
///
/// Like `guest_run::StartRefusal` without out of memory.
#[derive(Clone, Copy, PartialEq, Eq)]
pub enum StartCause {
    /// The file is not a program that can be loaded.
    Elf(ElfRefusal),
    /// The arguments and environment, a zero byte for each, and the words below them take more than 131,072 bytes.
    ArgsTooLong,
    /// The files have more than 536,870,912 bytes together.
    BoxTooLarge,
}

/// Why a stage's run made no artefact.
#[derive(Clone, Copy, PartialEq, Eq)]
pub enum RunCause {
    /// The program does not start.
    Start(StartCause),
    /// The hart trapped.
    Trap(Cause),
    /// The program made a call with this number, which the table does not have.
    Call(u64),
    /// The program exited with this status, which is not 0.
    Status(u8),
    /// The program exited with 0, and the stage's output does not exist.
    NoOutput,
    /// The stage's step limit is exhausted.
    Spent,
    /// The artefacts have more than 1,073,741,824 bytes together.
    Crowded,
}
