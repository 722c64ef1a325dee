/// A command of a session, read from a line.
#[derive(Clone, Copy)]
pub enum SessionCommand {
    /// Print where the program stands.
    Where,
    /// Take this many steps, from 1 to 2^48, both included.
    Step(u64),
    /// Run to the break or to the end.
    Go,
    /// Go back by this many steps, from 1 to 2^48, both included.
    Back(u64),
    /// Set the break to an address; it replaces the earlier one.
    Break(u64),
    /// Print the pc and the registers.
    Regs,
    /// Print this many bytes, from 1 to 64, at an address.
    Mem(u64, u8),
    /// End the session.
    Quit,
    /// Any other line.
    Unknown,
}
