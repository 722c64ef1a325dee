ghost use Rattle.std.specs.Prelude.{◌≡◌, ◌⊎◌, [], ◌∷◌, ℕ, IsTrue, List, Ok, Err, Some, codes, map};
ghost use Rattle.ddc_base.specs.Outside.{after_piece};
ghost use Rattle.ddc_base.specs.declared.outside.PutFail.TheVariants as putting;
ghost use Rattle.prompt.specs.Converses.{SaysAll};
ghost use Rattle.prompt.specs.Talks.{Talk};
ghost use Rattle.command_plan.specs.Answered.{is_answer};
ghost use Rattle.command_plan.specs.Endings.{Completes};
ghost use Rattle.command_plan.specs.Performs.{HoldsTalk, WantsMemory, outside};
ghost use Rattle.command_plan.specs.Plan.{talk_of};
ghost use Rattle.ddc_app.specs.Accepting.{is_compared, verify};
ghost use Rattle.ddc_app.specs.Accounted.{Accounted};
ghost use Rattle.ddc_app.specs.Commands.{is_step, may_begin_session, plan_of_command};
ghost use Rattle.ddc_app.specs.Chained.{Chained};
ghost use Rattle.ddc_app.specs.Scripted.{ScriptReported, ScriptVerified, kaem_verify};
ghost use Rattle.ddc_app.specs.Verified.{Verified};
ghost use Rattle.ddc_app.specs.Run.{plan_for, expected, IsExpected, IsOneText, LosesText, NamesFault, TakesOne};
ghost use Rattle.ddc_app.specs.Inside.Concluding.{Closes, Leaves, PutEnds, SaysEnding, unless_lost};

use crate::command_word::CommandWord;
use crate::laws::{accounted, chained, verified};
use crate::{help, version};
use audit_commands::{audit, delta_resume, delta_start, demo, part, resume, show};
use command_plan::{Answer, Status, Stop, usage};
use ddc_base::{PutFail, Shelf, Sink};
use prompt::Prompt;
use stage_commands::{cut, ends, left, segment, step};
use std::alloc::Global;
use tool_commands::{asm, hex0, kaem, kaem_left, kaem_verify, list, refusal_offset, run};
use verify_commands::{Explanation, chain, rests, verify};
use wheeler::Meaning;

/// Everything that the program does: runs one command line, without the program's own name, and returns the exit status. The commands and
/// statuses are in docs/reference/command-line.md.
///
/// A command is a plan on the files that the file store (`Shelf`) holds. If the contents of the store are known, or the plan loads nothing,
/// the call has the plan's outcome. The exceptions are a fault that was counted in this call, and out of memory.
///
/// Every command writes one text and does not read standard input (`Prompt`), except `step`. If its plan is a session, the lines of
/// standard input are answered one by one, each by a reply of its own.
///
/// `M` is what sources mean. The call does the same under every meaning. What follows from an answer of `verify` holds under each.
pub fn run<M: Meaning, S: Shelf, K: Sink, P: Prompt>(
    alloc: Global,
    words: &[&str],
    shelf: &mut S,
    out: &mut K,
    prompt: &mut P,
) -> Status
    // An answer is the plan's outcome. Exactly the plan's calls were made before, and none failed. A text was written in one piece.
    ensures status { IsExpected words.now (S.state shelf.old) → IsTrue (is_answer result)
        → result ≡ (expected words.now (S.state shelf.old)).status }
    ensures text { IsOneText words.now (S.state shelf.old) → IsExpected words.now (S.state shelf.old) → IsTrue (is_answer result)
        → K.state out.new ≡ after_piece (expected words.now (S.state shelf.old)).text (K.state out.old) }
    ensures calls { IsTrue (is_answer result)
        → Completes (plan_for words.now) (S.state shelf.old) (S.state shelf.new) }
    ensures one_put { IsOneText words.now (S.state shelf.old) → IsTrue (is_answer result) → TakesOne (K.state out.old) (K.state out.new) }

    // A session that is answered was held to its end: each reply was written whole and in order, and exactly its lines were read.
    ensures session { IsExpected words.now (S.state shelf.old) → (talk : List ℕ → Talk)
        → talk_of (plan_for words.now) (S.state shelf.old).files ≡ Some talk → IsTrue (is_answer result)
        → SaysAll talk (K.state out.old) (K.state out.new) (P.state prompt.old) (P.state prompt.new) }
    ensures replies { IsTrue (is_answer result)
        → (TakesOne (K.state out.old) (K.state out.new) × (P.state prompt.new ≡ P.state prompt.old))
        ⊎ HoldsTalk (plan_for words.now) (outside (S.state shelf.old) (K.state out.old) (P.state prompt.old))
        (outside (S.state shelf.new) (K.state out.new) (P.state prompt.new)) (Ok tt) }

    // A fault is a call that failed and was counted. A failed call of the store follows the first calls of the plan; a failed write is the
    // one write.
    ensures shelf_fault { result ≡ Status.ShelfFault
        → NamesFault (plan_for words.now) (S.state shelf.old) (S.state shelf.new) (K.state out.old) (K.state out.new) }
    ensures out_fault { IsOneText words.now (S.state shelf.old) → result ≡ Status.OutFault
        → LosesText (plan_for words.now) (S.state shelf.old) (S.state shelf.new) (K.state out.old) (K.state out.new) }

    // In a session, writing a reply failed after whole replies, or reading a line failed after whole replies. Nothing was written after
    // that.
    ensures talk_fault { result ≡ Status.OutFault
        → (LosesText (plan_for words.now) (S.state shelf.old) (S.state shelf.new) (K.state out.old) (K.state out.new)
        × (P.state prompt.new ≡ P.state prompt.old))
        ⊎ HoldsTalk (plan_for words.now) (outside (S.state shelf.old) (K.state out.old) (P.state prompt.old))
        (outside (S.state shelf.new) (K.state out.new) (P.state prompt.new)) (Err putting.Failed) }

    // Out of memory: nothing is written, or in a session nothing after whole replies. The first calls of the plan were made; the last may
    // have failed.
    ensures silent { IsOneText words.now (S.state shelf.old) → result ≡ Status.OutOfMemory → K.state out.new ≡ K.state out.old }
    ensures talk_want { result ≡ Status.OutOfMemory
        → ((K.state out.new ≡ K.state out.old) × (P.state prompt.new ≡ P.state prompt.old))
        ⊎ HoldsTalk (plan_for words.now) (outside (S.state shelf.old) (K.state out.old) (P.state prompt.old))
        (outside (S.state shelf.new) (K.state out.new) (P.state prompt.new)) (Err putting.OutOfMemory) }
    ensures want { result ≡ Status.OutOfMemory
        → WantsMemory (plan_for words.now) (S.state shelf.old) (S.state shelf.new) }

    // What a 0 or 3 of `verify` shows, under every meaning of sources.
    ensures shown { IsExpected words.now (S.state shelf.old) → (recipe report : List ℕ)
        → map (λ word. word.now) words.now ≡ codes "verify" ∷ recipe ∷ report ∷ [] → IsTrue (is_compared result)
        → Verified M.prescribes M.compiles recipe report (S.state shelf.old).files (expected words.now (S.state shelf.old)) }

    // What a 0 or 3 of `provenance` shows: all that `verify` shows, and a text that the recipe, its inputs and the report determine.
    ensures accounted { IsExpected words.now (S.state shelf.old) → (recipe report : List ℕ)
        → map (λ word. word.now) words.now ≡ codes "provenance" ∷ recipe ∷ report ∷ [] → IsTrue (is_compared result)
        → Accounted M.prescribes M.compiles recipe report (S.state shelf.old).files (expected words.now (S.state shelf.old)) }

    // If `audit` returns 0 or 3, `verify` returns the same status on the files that it left.
    ensures accepted { IsExpected words.now (S.state shelf.old) → (recipe report : List ℕ)
        → map (λ word. word.now) words.now ≡ codes "audit" ∷ recipe ∷ report ∷ [] → IsTrue (is_compared result)
        → (verify recipe report (expected words.now (S.state shelf.old)).files).status ≡ result }

    // What a 0 of `chain` shows.
    ensures chained { IsExpected words.now (S.state shelf.old) → (list : List ℕ) → map (λ word. word.now) words.now ≡ codes "chain" ∷ list ∷ []
        → result ≡ Status.Yes
        → Chained M.prescribes M.compiles list (S.state shelf.old).files (expected words.now (S.state shelf.old)) }

    // What a 0 of `kaem` and of `kaem-verify` shows.
    ensures reported { IsExpected words.now (S.state shelf.old) → (script list report steps : List ℕ)
        → map (λ word. word.now) words.now ≡ codes "kaem" ∷ script ∷ list ∷ report ∷ steps ∷ [] → result ≡ Status.Yes
        → ScriptReported script list report steps (S.state shelf.old).files (expected words.now (S.state shelf.old)) }
    ensures replayed { IsExpected words.now (S.state shelf.old) → (script list report : List ℕ)
        → map (λ word. word.now) words.now ≡ codes "kaem-verify" ∷ script ∷ list ∷ report ∷ [] → result ≡ Status.Yes
        → ScriptVerified script list report (S.state shelf.old).files (expected words.now (S.state shelf.old)) }

    // If `kaem` returns 0, `kaem-verify` returns 0 on the files that it left.
    ensures replays { IsExpected words.now (S.state shelf.old) → (script list report steps : List ℕ)
        → map (λ word. word.now) words.now ≡ codes "kaem" ∷ script ∷ list ∷ report ∷ steps ∷ [] → result ≡ Status.Yes
        → (kaem_verify script list report (expected words.now (S.state shelf.old)).files).status ≡ Status.Yes }

    // Standard input is read only in a session.
    ensures prompt_stays { IsOneText words.now (S.state shelf.old) ⊎ (result ≡ Status.ShelfFault)
        → P.state prompt.new ≡ P.state prompt.old }

    ensures shelf_tells { (S.state shelf.new).tells ≡ (S.state shelf.old).tells }
    ensures out_tells { (K.state out.new).tells ≡ (K.state out.old).tells }
    ensures prompt_tells { (P.state prompt.new).tells ≡ (P.state prompt.old).tells }
{
    verified::<M>();
    accounted::<M>();
    chained::<M>();
    act::<M, S, K, P>(alloc, shelf, out, prompt, words)
}

/// Runs the command that the words name. Words that name no command are answered by the usage.
fn act<M: Meaning, S: Shelf, K: Sink, P: Prompt>(
    alloc: Global,
    shelf: &mut S,
    out: &mut K,
    prompt: &mut P,
    words: &[&str],
) -> Status
    ensures { Leaves (is_step (map (λ word. word.now) words.now)) (plan_for words.now)
        (outside (S.state shelf.old) (K.state out.old) (P.state prompt.old))
        (outside (S.state shelf.new) (K.state out.new) (P.state prompt.new)) result }
{
    match CommandWord::read(words) {
        Some(line) => perform::<M, S, K, P>(alloc, shelf, out, prompt, line),
        None => conclude(out, usage(alloc)),
    }
}

/// Runs a command on the words after its name, writes what it answers, and returns the status.
fn perform<M: Meaning, S: Shelf, K: Sink, P: Prompt>(
    alloc: Global,
    shelf: &mut S,
    out: &mut K,
    prompt: &mut P,
    line: (CommandWord, &[&str]),
) -> Status
    ensures { Leaves (may_begin_session line.entry.0) (plan_of_command line.entry.0 (map (λ word. word.now) line.entry.1.now))
        (outside (S.state shelf.old) (K.state out.old) (P.state prompt.old))
        (outside (S.state shelf.new) (K.state out.new) (P.state prompt.new)) result }
{
    let (command, words) = line;
    match command {
        CommandWord::Hex0 => conclude(out, hex0::perform(alloc, shelf, words)),
        CommandWord::Asm => conclude(out, asm::perform(alloc, shelf, words)),
        CommandWord::Where => conclude(out, refusal_offset::perform(alloc, shelf, words)),
        CommandWord::List => conclude(out, list::perform(alloc, shelf, words)),
        CommandWord::Run => conclude(out, run::perform(alloc, shelf, words)),
        CommandWord::Audit => conclude(out, audit::perform(alloc, shelf, words)),
        CommandWord::Part => conclude(out, part::perform(alloc, shelf, words)),
        CommandWord::Resume => conclude(out, resume::perform(alloc, shelf, words)),
        CommandWord::DeltaStart => conclude(out, delta_start::perform(alloc, shelf, words)),
        CommandWord::DeltaResume => conclude(out, delta_resume::perform(alloc, shelf, words)),
        CommandWord::Show => conclude(out, show::perform(alloc, shelf, words)),
        CommandWord::Verify => conclude(
            out,
            verify::perform::<M, S>(alloc, shelf, Explanation::Assumptions, words),
        ),
        CommandWord::Provenance => conclude(
            out,
            verify::perform::<M, S>(alloc, shelf, Explanation::Provenance, words),
        ),
        CommandWord::Chain => conclude(out, chain::perform(alloc, shelf, words)),
        CommandWord::Rests => conclude(out, rests::perform(alloc, shelf, words)),
        CommandWord::Step => {
            let ended = step::perform(alloc, shelf, out, prompt, words);
            close(out, ended)
        }
        CommandWord::Left => conclude(out, left::perform(alloc, shelf, words)),
        CommandWord::Cut => conclude(out, cut::perform(alloc, shelf, words)),
        CommandWord::Segment => conclude(out, segment::perform(alloc, shelf, words)),
        CommandWord::Ends => conclude(out, ends::perform(alloc, shelf, words)),
        CommandWord::Kaem => conclude(out, kaem::perform(alloc, shelf, words)),
        CommandWord::KaemVerify => conclude(out, kaem_verify::perform(alloc, shelf, words)),
        CommandWord::KaemLeft => conclude(out, kaem_left::perform(alloc, shelf, words)),
        CommandWord::Demo => conclude(out, demo::perform::<M, S>(alloc, shelf, words)),
        CommandWord::Help => conclude(out, help::perform(alloc, words)),
        CommandWord::Version => conclude(out, version::perform(alloc, words)),
    }
}

/// The status of a session that was held; otherwise writes what ended the command before the session.
fn close<K: Sink>(out: &mut K, ended: Result<Result<(), PutFail>, Stop>) -> Status
    ensures { Closes (K.state out.old) ended (K.state out.new) result }
{
    match ended {
        Ok(talked) => unless_lost(talked, Status::Yes),
        Err(stop) => conclude(out, Err(stop)),
    }
}

/// Writes how the command ended, and returns its status.
fn conclude<K: Sink>(out: &mut K, ending: Result<Answer, Stop>) -> Status
    ensures { SaysEnding (K.state out.old) ending (K.state out.new) result }
{
    match ending {
        Ok(answer) => put(out, answer.text.as_slice(), answer.status),
        Err(Stop::Answered(answer)) => put(out, answer.text.as_slice(), answer.status),
        Err(Stop::ShelfFault(text)) => put(out, text.as_slice(), Status::ShelfFault),
        Err(Stop::OutOfMemory) => Status::OutOfMemory,
    }
}

/// Writes the whole text, and returns this status unless the write fails.
fn put<K: Sink>(out: &mut K, text: &[u8], status: Status) -> Status
    ensures { PutEnds (K.state out.old) text.now (K.state out.new) status result }
{
    unless_lost(out.put(text), status)
}

/// This status, or that of the failed write.
fn unless_lost(put: Result<(), PutFail>, status: Status) -> Status
    ensures { result ≡ unless_lost put status }
{
    match put {
        Ok(()) => status,
        Err(PutFail::Failed) => Status::OutFault,
        Err(PutFail::OutOfMemory) => Status::OutOfMemory,
    }
}
