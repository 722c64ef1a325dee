//! Laws about the definitions. Each is the contract of a function that does nothing.

ghost use Rattle.std.specs.Prelude.{◌≡◌, ◌*◌, ◌<◌, ◌≤◌, ◌^◌, ◌↔◌, ℕ, ◌+◌, IsTrue, List, [], ◌∷◌, None, Ok, Option, Result, Some, decimal};
ghost use Rattle.ddc_base.specs.ByteLists.{AreBytes};
ghost use Rattle.ddc_base.specs.Outside.{NamedFiles};
ghost use Rattle.ddc_base.specs.Limits.{most_states, most_steps};
ghost use Rattle.command_plan.specs.Words.{are_two_files, as_steps};
ghost use Rattle.command_plan.specs.declared.status.Status.TheVariants.{TooManySegments, Yes};
ghost use Rattle.command_plan.specs.Plan.{LoadsBytes, Plan, outcome};
ghost use Rattle.stage_commands.specs.Checked.{AreChecked, EndShows, HoldPiece, IsRunReported, piece_reported_yes};
ghost use Rattle.stage_commands.specs.Cut.{cut_plan};
ghost use Rattle.stage_commands.specs.CutEnds.{SaysSame, cut_end_from};
ghost use Rattle.stage_commands.specs.Cutting.{CutStart, IsRightCut, cut_over, ends_over, segment_over};
ghost use Rattle.stage_commands.specs.Ends.{ends_plan, needs_first};
ghost use Rattle.stage_commands.specs.Left.{are_left_words};
ghost use Rattle.stage_commands.specs.LeftMade.{LeftRun, artefact_saved, left_over, output_word};
ghost use Rattle.stage_commands.specs.Names.{are_stage_words, piece_name};
ghost use Rattle.stage_commands.specs.Segment.{segment_plan};
ghost use Rattle.guest_run.specs.Run.{End, after, first_end};
ghost use Rattle.guest_run.specs.Setting.{Setting};
ghost use Rattle.guest_run.specs.Start.{start_of};
ghost use Rattle.guest_run.specs.State.{GuestState};
ghost use Rattle.guest_run.specs.Valid.{IsValid};
ghost use Rattle.audit_rules.specs.Stages.{stage_result};
ghost use Rattle.audit_rules.specs.declared.answer.Finished.{Finished};
ghost use Rattle.recipe.specs.declared.parts.Stage.{Stage};
ghost use Rattle.segments.specs.Segments.{BeginsWith, ChecksPiece, second_text};
ghost use Rattle.segments.specs.declared.answers.SegmentFault.{SegmentFault};
ghost use Rattle.segments.specs.declared.answers.StateFault.{StateFault};
ghost use Rattle.stage_commands.specs.States.{ReadsAs, end_after, piece_answer, piece_of, state_parsed};

/// The state that is read from a text, or the reason why none is, follows the rules of such texts.
pub fn texts_are_read()
    ensures { (text : List ℕ) → ReadsAs text (state_parsed text) }
{}

/// What `segment` prints of two texts is what the check of a segment answers.
pub fn pieces_are_reported()
    ensures { (from to : List ℕ) (result : Result ℕ SegmentFault) → ChecksPiece from to (piece_answer result) → piece_of from to ≡ result }
{}

/// What `segment` prints of two texts of bytes is true: it is an answer that the check of a segment may give.
pub fn pieces_are_shown()
    ensures { (from to : List ℕ) → AreBytes from → AreBytes to → ChecksPiece from to (piece_answer (piece_of from to)) }
{}

/// What `ends` prints of a first text is true: it judges the last text exactly where the first one is the state in which the program
/// starts.
pub fn firsts_are_reported()
    ensures reported { (stage : Stage) (program : List ℕ) (setting : Setting) (text : List ℕ) (next : Plan) → BeginsWith program setting text
        → needs_first stage (start_of program setting) (state_parsed text) next ≡ next }
    ensures shown { (stage : Stage) (program : List ℕ) (setting : Setting) (text : List ℕ) (begun : GuestState) → start_of program setting ≡ Ok begun → IsValid begun → AreBytes text
        → ((next : Plan) → needs_first stage (start_of program setting) (state_parsed text) next ≡ next) → BeginsWith program setting text }
{}

/// What `ends` prints of the run after a last text is true, and nothing else would be.
pub fn ends_are_reported()
    ensures reported { (text : List ℕ) (limit : ℕ) (result : Result (Option (End × GuestState)) StateFault) → EndShows text limit result → end_after text limit ≡ result }
    ensures shown { (text : List ℕ) (limit : ℕ) → EndShows text limit (end_after text limit) }
{}

/// On files of bytes, `segment` returns 0 exactly where its two names are of two files that hold a segment, and then prints the segment's
/// number of steps.
pub fn segments_are_reported()
    ensures shown { (from to : List ℕ) (files : NamedFiles) → LoadsBytes (segment_plan (from ∷ to ∷ [])) files
        → (segment_over from to files).status ≡ Yes
        → (steps : ℕ) × HoldPiece from to files steps × (segment_over from to files ≡ piece_reported_yes steps files) }
    ensures reported { (from to : List ℕ) (files : NamedFiles) (steps : ℕ) → IsTrue (are_two_files from to) → HoldPiece from to files steps
        → segment_over from to files ≡ piece_reported_yes steps files }
{}

/// Checked segments are the stage's run. Where `ends RECIPE STAGE PREFIX COUNT` returns 0, and so does `segment PREFIX.K PREFIX.(K + 1)`
/// for each K + 1 below COUNT, and what these commands load is bytes, the stage's run from its start exits with 0. `ends`
/// then prints what the run did, as the report of the audit's definition (`bench`) does. Who made the files does not matter.
pub fn checked_pieces_are_the_run()
    ensures { (recipe stage prefix : List ℕ) (count : ℕ) (files : NamedFiles)
        → LoadsBytes (ends_plan (recipe ∷ stage ∷ prefix ∷ decimal count ∷ [])) files
        → ((number : ℕ) → number + 1 < count
        → LoadsBytes (segment_plan (piece_name prefix number ∷ piece_name prefix (number + 1) ∷ [])) files)
        → AreChecked recipe stage prefix count files → IsRunReported recipe stage prefix files (ends_over recipe stage prefix count files) }
{}

/// The texts of two valid states of one run, below 2^64 steps, are a segment if the latter is reached from the former by 1 to 2^48 steps.
/// So `segment` returns 0 for any two neighbours that `cut` saved.
pub fn neighbours_are_pieces()
    ensures { (first last : GuestState) (steps : ℕ) → IsValid first → IsValid last → last.steps < 2 ^ 64 → 1 ≤ steps → steps ≤ most_steps
        → after first steps ≡ Some last → piece_of (second_text first) (second_text last) ≡ Ok steps }
{}

/// A cut is right by its own commands. Where what `cut RECIPE STAGE EVERY PREFIX` loads is bytes, and it returns 0, it leaves the states of
/// the stage's run after 0, EVERY, 2 * EVERY and so on steps, and changes no other name. Over the files afterwards `segment` returns 0 for
/// every two neighbours. `ends` with the printed number of states returns 0 and prints what the run did, as the report of the audit's
/// definition (`bench`) does.
pub fn cuts()
    ensures { (recipe stage every prefix : List ℕ) (files : NamedFiles) → LoadsBytes (cut_plan (recipe ∷ stage ∷ every ∷ prefix ∷ [])) files
        → (cut_over recipe stage every prefix files).status ≡ Yes → IsRightCut recipe stage every prefix files (cut_over recipe stage every prefix files) }
{}

/// Where the stage is found and starts, the status and text of `cut` follow from the first exit, trap or unknown call within 1,000 times
/// EVERY steps and the stage's limit. The status is 14 exactly where 1,000 times EVERY is below the limit and the run is not over after as
/// many steps.
pub fn cuts_end()
    ensures reported { (recipe stage every prefix : List ℕ) (files : NamedFiles) (start : CutStart recipe stage prefix files) (steps : ℕ) → as_steps every ≡ Some steps
        → IsTrue (are_stage_words recipe stage prefix)
        → SaysSame (cut_over recipe stage every prefix files) (outcome (cut_end_from start.named steps start.begun) files) }
    ensures many { (recipe stage every prefix : List ℕ) (files : NamedFiles) (start : CutStart recipe stage prefix files) (steps : ℕ) → as_steps every ≡ Some steps
        → IsTrue (are_stage_words recipe stage prefix)
        → ((cut_over recipe stage every prefix files).status ≡ TooManySegments)
        ↔ ((first_end start.begun (most_states * steps) ≡ None) × (most_states * steps < start.named.steps)) }
{}

/// Where the audit's definition (`bench`) finishes a stage, `left` with the FILE of its output returns 0, saves the artefact under OUT and
/// changes no other name. It prints the size, the exit with 0 and the recorded step. A `left` that returns 0 has found the stage and
/// finished those before it.
pub fn artefacts_are_left()
    ensures made { (recipe stage out : List ℕ) (files : NamedFiles) (run : LeftRun recipe stage out files) (f : Finished)
        → IsTrue (are_left_words recipe stage (output_word run.named.output) out)
        → stage_result run.ready.recipe run.ready.inputs run.ready.done run.named ≡ Ok f
        → left_over recipe stage (output_word run.named.output) out files ≡ artefact_saved run.named out f files }
    ensures found { (recipe stage file out : List ℕ) (files : NamedFiles) → (left_over recipe stage file out files).status ≡ Yes → LeftRun recipe stage out files }
{}
