//! Laws of every session. Each law is the contract of a function that does nothing.

ghost use Rattle.std.specs.Prelude.{◌≡◌, ℕ, ◌+◌, ◌≤◌, None};
ghost use Rattle.step_debug.specs.Sessions.{IsSession, SessionState, came_text, obeyed};
ghost use Rattle.step_debug.specs.declared.command.SessionCommand.TheVariants.{Back, Step};

/// Going back and then forward by the same number of steps restores the session, and the reply says where it stands.
pub fn back_and_on_again()
    ensures { (session : SessionState) (count : ℕ) → IsSession session → count ≤ session.at.steps
        → obeyed (obeyed session (Back count)).1 (Step count) ≡ (came_text session.limit (None, session.at), session) }
{}

/// Steps may be taken in parts: reply and session after the second line are those of one line with the sum. At the end of the run the
/// second line repeats the end, so it has to request a step.
pub fn steps_in_parts()
    ensures { (session : SessionState) (first more : ℕ) → IsSession session → 1 ≤ more
        → obeyed (obeyed session (Step first)).1 (Step more) ≡ obeyed session (Step (first + more)) }
{}
