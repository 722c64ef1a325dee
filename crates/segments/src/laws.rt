//! Laws about the definitions. Each is the contract of a function that does nothing.

ghost use Rattle.std.specs.Prelude.{ℕ, List};
ghost use Rattle.guest_run.specs.Setting.{Setting};
ghost use Rattle.guest_run.specs.State.{GuestState};
ghost use Rattle.guest_run.specs.declared.run.RunEnd.{RunEnd};
ghost use Rattle.segments.specs.Segments.{AreLinked, EndsWith, IsWholeRun, StartChecks, last_text};
ghost use Rattle.segments.specs.declared.answers.StartAnswer.TheVariants.{Yes};

/// All segments together are the whole run. If the first text is the start, each text and the next one are a segment, and the last text's
/// run ends, then the whole run ends the same way and not before. Its end is at the step after those that its last guest counts.
pub fn pieces_are_the_whole()
    ensures { (program : List ℕ) (setting : Setting) (text : List ℕ) (texts : List (List ℕ)) (limit : ℕ) (guest : GuestState) (why : RunEnd)
        → StartChecks program setting text Yes → AreLinked text texts → EndsWith (last_text text texts) limit guest why
        → IsWholeRun program setting guest why }
{}
