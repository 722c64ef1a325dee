//! A session: lines are read one by one, and each reply is written as a segment of its own.

ghost use Rattle.std.specs.Prelude.{◌≡◌, ℕ, List, IfOk};
ghost use Rattle.prompt.specs.Converses.{Converses};
ghost use Rattle.prompt.specs.Talks.{talk};
ghost use Rattle.prompt.specs.Inside.Turns.{Replies, Turns};

use crate::asking::{Asked, Failed, Prompt};
use ddc_base::{Bytes, OutOfMemory, PutFail, Sink};

/// A responder: answers lines from its state, which each line may change.
pub trait Respond {
    /// The reply to a line, and the state after it.
    ghost answered: { Self → List ℕ → List ℕ × Self };

    /// The reply to a line. An empty reply says that no further line is to be read.
    fn answer(&mut self, line: &[u8]) -> Result<Bytes, OutOfMemory>
        ensures { IfOk result (λ reply. answered self.old line.now ≡ (reply, self.new)) };
}

/// Answers at most `lines` lines of standard input, and writes each reply as a segment of its own.
///
/// It ends after an empty reply, which is not written, when the input has ended, or after that many lines.
pub fn converse<R: Respond, P: Prompt, K: Sink>(
    session: &mut R,
    lines: u32,
    prompt: &mut P,
    out: &mut K,
) -> Result<(), PutFail>
    ensures { Converses (talk R.answered session.old lines) (K.state out.old) (K.state out.new) (P.state prompt.old) (P.state prompt.new) result }
{
    for _ in 0..lines {
        match turn(session, prompt, out) {
            Ok(true) => {}
            Ok(false) => return Ok(()),
            Err(fail) => return Err(fail),
        }
    }
    Ok(())
}

/// Answers one line and writes the reply. Returns whether the session continues.
#[tactic(auto, using(crate::proofs::Turning::turning))]
fn turn<R: Respond, P: Prompt, K: Sink>(
    session: &mut R,
    prompt: &mut P,
    out: &mut K,
) -> Result<bool, PutFail>
    ensures { Turns R.answered session.old session.new (K.state out.old) (K.state out.new) (P.state prompt.old) (P.state prompt.new) result }
{
    match prompt.line() {
        Ok(Asked::Line(line)) => reply(session, line.as_slice(), out),
        Ok(Asked::TooLong) => reply(session, &[], out),
        Ok(Asked::End) => Ok(false),
        Err(Failed) => Err(PutFail::Failed),
    }
}

/// Answers this line and writes the reply. Returns whether the session continues.
fn reply<R: Respond, K: Sink>(session: &mut R, line: &[u8], out: &mut K) -> Result<bool, PutFail>
    ensures { Replies R.answered session.old line.now session.new (K.state out.old) (K.state out.new) result }
{
    let reply = match session.answer(line) {
        Ok(reply) => reply,
        Err(OutOfMemory) => return Err(PutFail::OutOfMemory),
    };
    if reply.is_empty() {
        return Ok(false);
    }
    match out.put(reply.as_slice()) {
        Ok(()) => Ok(true),
        Err(fail) => Err(fail),
    }
}
