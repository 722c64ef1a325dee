//! Laws about the outcomes of commands. Each law is the contract of a function that does nothing.
//!
//! A law on files of bytes requires that what a command loads is bytes (`LoadsBytes` of its plan). Clause `calls` of `run` shows that for a
//! call with the command's words.

ghost use Rattle.ddc_app.specs.Accepting.{audit, is_compared, provenance, verify};
ghost use Rattle.ddc_app.specs.Accounted.{Accounted, DigestCollision};
ghost use Rattle.ddc_app.specs.ChainJudged.{AllVerified};
ghost use Rattle.ddc_app.specs.Chained.{Chained, chain};
ghost use Rattle.ddc_app.specs.Collected.{Collected};
ghost use Rattle.ddc_app.specs.Commands.{plan_of};
ghost use Rattle.ddc_app.specs.Differences.{AreDeltaWords, DeltaPieces, Differences, IsSavedRelative, LeavesAllBut, delta_resume, delta_start, in_differences};
ghost use Rattle.ddc_app.specs.Headline.{HoldsTrueReport, SaysHeadline};
ghost use Rattle.ddc_app.specs.Help.{command_name};
ghost use Rattle.ddc_app.specs.Judged.{HoldsReport};
ghost use Rattle.ddc_app.specs.Pausing.{AreWords, IsStepCount, LeavesOthers, LeavesUnwritten, Pieces, IsSavedAt, in_pieces, part, resume};
ghost use Rattle.ddc_app.specs.Scripted.{ChangesOutAlone, ChangesReportAlone, HoldsScript, IsScriptTrue, ScriptReported, ScriptVerified, kaem, kaem_ended, kaem_left, kaem_verify};
ghost use Rattle.ddc_app.specs.Statuses.{HasReadRecipe, is_answer_of};
ghost use Rattle.ddc_app.specs.Verified.{Verified};
ghost use Rattle.ddc_app.specs.declared.command_word.CommandWord.{CommandWord};
ghost use Rattle.command_plan.specs.Plan.{LoadsBytes, outcome};
ghost use Rattle.recipe_plan.specs.Reports.{compared_status};
ghost use Rattle.verify_commands.specs.Provenance.{origin_text, provenance_text};
ghost use Rattle.verify_commands.specs.Texts.{true_text};
ghost use Rattle.verify_commands.specs.Verify.{provenance_plan};
ghost use Rattle.command_plan.specs.declared.status.Status.TheVariants.{Differs, FileRefused, Paused, Refuted, Yes};
ghost use Rattle.ddc_base.specs.Outside.{NamedFiles};
ghost use Rattle.ddc_base.specs.Lines.{line};
ghost use Rattle.kaem_script.specs.FilesListed.{FilesListed};
ghost use Rattle.kaem_script.specs.Fold.{folded};
ghost use Rattle.kaem_script.specs.Script.{ScriptContents};
ghost use Rattle.recipe.specs.declared.contents.RecipeContents.{RecipeContents as Recipe};
ghost use Rattle.report.specs.Lines.{line_words};
ghost use Rattle.report.specs.declared.line.ReportLine.TheVariants.{Left, Stream1, Stream2};
ghost use Rattle.report.specs.declared.types.Report.{Report};
ghost use Rattle.std.specs.FinMap as map;
ghost use Rattle.std.specs.Prelude.{◌≡◌, ◌≢◌, ◌+◌, ◌↔◌, [], ◌∷◌, ◌⊎◌, All, IsTrue, List, None, Ok, Some, codes, decimal, false, length, sum, true, ℕ};
ghost use Rattle.tool_commands.specs.RunProgram.{left_line, stream_line};
ghost use Rattle.tool_commands.specs.ScriptTexts.{commands_true_line};
ghost use Rattle.report.specs.Marks.{mark_of};
ghost use Rattle.verifier.specs.Faults.{first_fault};
ghost use Rattle.verifier.specs.declared.part.Part.{Part};
ghost use Rattle.verify_commands.specs.ChainTexts.{chain_text};
ghost use Rattle.audit_rules.specs.Bench.{all_equal, bench};
ghost use Rattle.audit_rules.specs.Valid.{IsInputs};
ghost use Rattle.audit_rules.specs.declared.answer.AuditAnswer.TheVariants.{Completes};
ghost use Rattle.audit_chain.specs.Rests.Agree.{IsSameArtefact};
ghost use Rattle.wheeler.specs.AllContents.{stage_named};
ghost use Rattle.recipe.specs.Reading.{recipe_of};
ghost use Rattle.recipe.specs.declared.parts.Stage.{Stage};

use audit_chain::laws::composed;
use recipe::laws::a_recipe_that_reads_keeps_the_rules;
use verifier::conclusion::laws::a_true_report_shows;
use verifier::laws::{a_yes_in_its_own_words, no_fault_is_every_word_true, one_report};
use verify_commands::laws::{it_judges_as_verify, what_is_printed_settles_it};
use wheeler::Meaning;

/// `verify` accepts an audit's own report: after an `audit RECIPE REPORT` on files of bytes that returns 0 or 3, `verify RECIPE REPORT`
/// returns the same status.
pub fn accepted()
    ensures { (recipe report : List ℕ) (files : NamedFiles) → LoadsBytes (plan_of (codes "audit" ∷ recipe ∷ report ∷ [])) files
        → IsTrue (is_compared (audit recipe report files).status)
        → (verify recipe report (audit recipe report files).files).status ≡ (audit recipe report files).status }
{}

/// If `verify RECIPE REPORT` on files of bytes returns 0 or 3, the report is true, and Wheeler's argument holds under every meaning of
/// sources. The text ends in exactly the lines of its assumptions, and the status shows the conclusion that belongs to it.
pub fn verified<M: Meaning>()
    ensures { (recipe report : List ℕ) (files : NamedFiles) → LoadsBytes (plan_of (codes "verify" ∷ recipe ∷ report ∷ [])) files
        → IsTrue (is_compared (verify recipe report files).status)
        → Verified M.prescribes M.compiles recipe report files (verify recipe report files) }
{
    a_true_report_shows::<M>();
}

/// On a valid recipe and report (`HoldsReport`), `verify` returns 0 exactly where no fault is found and all comparisons are equal, 3
/// exactly where only a comparison differs, 1 exactly where a fault is found. The files hold the recipe, the report and the recipe's
/// inputs.
pub fn verdicts()
    ensures yes { (recipe report : List ℕ) (files : NamedFiles) (parsed : Recipe) (inputs : List (List ℕ)) (made : Report)
        → HoldsReport recipe report files parsed inputs made
        → ((verify recipe report files).status ≡ Yes) ↔ ((first_fault parsed inputs made ≡ None) × (all_equal made.compare ≡ true)) }
    ensures differs { (recipe report : List ℕ) (files : NamedFiles) (parsed : Recipe) (inputs : List (List ℕ)) (made : Report)
        → HoldsReport recipe report files parsed inputs made
        → ((verify recipe report files).status ≡ Differs) ↔ ((first_fault parsed inputs made ≡ None) × (all_equal made.compare ≡ false)) }
    ensures refuted { (recipe report : List ℕ) (files : NamedFiles) (parsed : Recipe) (inputs : List (List ℕ)) (made : Report)
        → HoldsReport recipe report files parsed inputs made
        → ((verify recipe report files).status ≡ Refuted) ↔ ((one : Part × ℕ) × (first_fault parsed inputs made ≡ Some one)) }
{}

/// The headline: on a valid recipe and report (`HoldsReport`), `verify` returns 0 exactly where the report is true and the artefact of each
/// compared stage is the audited binary. The files hold the recipe, the report and the recipe's inputs. The report is true where:
///
/// - it has the digest of the recipe's file, and the name, length and digest of each input;
/// - the line of each stage is true of its run;
/// - each checked artefact is what its source denotes.
pub fn the_headline()
    ensures { (recipe report : List ℕ) (files : NamedFiles) (parsed : Recipe) (inputs : List (List ℕ)) (made : Report)
        → (held : HoldsReport recipe report files parsed inputs made)
        → ((verify recipe report files).status ≡ Yes) ↔ SaysHeadline held.recipe_bytes parsed inputs made }
{
    a_recipe_that_reads_keeps_the_rules();
    a_yes_in_its_own_words();
    verdicts();
}

/// On any files, if `verify RECIPE REPORT` returns 0 or 3, every line of the report is true, clause by clause.
pub fn compared_reports_are_true()
    ensures { (recipe report : List ℕ) (files : NamedFiles) → IsTrue (is_compared (verify recipe report files).status)
        → HoldsTrueReport recipe report files }
{
    no_fault_is_every_word_true();
}

/// The converse of the headline: an audit on files of bytes that returns 0 or 3 has written a report of which every line is true. The audit
/// may have run undivided, in segments of any numbers of steps, or by differences from an earlier save.
pub fn audits_write_true_reports()
    ensures undivided { (recipe report : List ℕ) (files : NamedFiles) → LoadsBytes (plan_of (codes "audit" ∷ recipe ∷ report ∷ [])) files
        → IsTrue (is_compared (audit recipe report files).status)
        → HoldsTrueReport recipe report (audit recipe report files).files }
    ensures pieces { (recipe save report : List ℕ) (steps : ℕ) (counts : List ℕ) (files : NamedFiles) → AreWords recipe save report files
        → All IsStepCount (steps ∷ counts) → LoadsBytes (plan_of (codes "part" ∷ recipe ∷ save ∷ report ∷ decimal steps ∷ [])) files
        → IsTrue (is_compared (in_pieces recipe save report steps counts files).status)
        → HoldsTrueReport recipe report (in_pieces recipe save report steps counts files).files }
    ensures differences { (recipe base patch report : List ℕ) (steps : ℕ) (counts : List ℕ) (files : NamedFiles)
        → AreDeltaWords recipe base patch report files → All IsStepCount (steps ∷ counts)
        → LoadsBytes (plan_of (codes "part" ∷ recipe ∷ base ∷ report ∷ decimal steps ∷ [])) files
        → IsTrue (is_compared (in_differences recipe base patch report steps counts files).status)
        → HoldsTrueReport recipe report (in_differences recipe base patch report steps counts files).files }
{
    accepted();
    pauses();
    differences();
    compared_reports_are_true();
}

/// If all stages were replayed or checked in segments, as `Collected` says, every line of the report is true, and `verify` returns 0 or 3.
/// `verify` then prints the comparisons and the assumptions. The segments may have been checked on any computers.
pub fn collected_reports_are_true()
    ensures is_true { (recipe report : List ℕ) (files : NamedFiles) → Collected recipe report files → HoldsTrueReport recipe report files }
    ensures told { (recipe report : List ℕ) (files : NamedFiles) (collected : Collected recipe report files)
        → verify recipe report files
        ≡ record { status = compared_status collected.seen.lines; text = true_text collected.parsed collected.seen.lines; files = files } }
{
    a_recipe_that_reads_keeps_the_rules();
    no_fault_is_every_word_true();
    one_report();
}

/// If `verify RECIPE REPORT` on files of bytes returns 0 or 3, `Collected` holds: a person who replays each stage sees all that it names. So
/// `Collected` demands nothing more than `verify` does.
pub fn true_reports_are_collected()
    ensures { (recipe report : List ℕ) (files : NamedFiles) → LoadsBytes (plan_of (codes "verify" ∷ recipe ∷ report ∷ [])) files
        → IsTrue (is_compared (verify recipe report files).status) → Collected recipe report files }
{
    a_recipe_that_reads_keeps_the_rules();
    no_fault_is_every_word_true();
    one_report();
}

/// If `chain LIST` on files of bytes returns 0, each line is a true audit whose comparisons are equal, and the text has exactly the
/// assumptions that are left of all audits. Under every meaning of sources, if these assumptions hold, every assumption of every audit
/// holds, and so does the conclusion of every stage. Each audited binary then implements the source of each compared stage that has one.
pub fn chained<M: Meaning>()
    ensures { (list : List ℕ) (files : NamedFiles) → LoadsBytes (plan_of (codes "chain" ∷ list ∷ [])) files → (chain list files).status ≡ Yes
        → Chained M.prescribes M.compiles list files (chain list files) }
{
    composed::<M>();
}

/// `chain` returns 0 exactly where LIST is valid and has a line, the inputs of all lines fit the limit that they share, and `verify`
/// returns 0 for each line. Its text is then that of these audits.
pub fn chains_verified()
    ensures yes { (list : List ℕ) (files : NamedFiles) → ((chain list files).status ≡ Yes) ↔ AllVerified list files }
    ensures text { (list : List ℕ) (files : NamedFiles) (all : AllVerified list files) → (chain list files).text ≡ chain_text all.links }
{}

/// On a valid recipe and a report without a fault (`HoldsReport`), `provenance` returns the status of the comparisons, the recipe, its
/// inputs and the report determine the text, and no file changes.
pub fn a_true_report_is_told()
    ensures { (recipe report : List ℕ) (files : NamedFiles) (parsed : Recipe) (inputs : List (List ℕ)) (made : Report)
        → HoldsReport recipe report files parsed inputs made → first_fault parsed inputs made ≡ None
        → outcome (provenance_plan (recipe ∷ report ∷ [])) files
        ≡ record { status = compared_status made.compare; text = provenance_text parsed inputs made; files = files } }
{}

/// If `provenance RECIPE REPORT` on files of bytes returns 0 or 3, `verify` returns the same status and shows what `verified` says, under
/// every meaning of sources. The recipe, its inputs and the report determine the text, and no file changes.
pub fn accounted<M: Meaning>()
    ensures { (recipe report : List ℕ) (files : NamedFiles) → LoadsBytes (plan_of (codes "provenance" ∷ recipe ∷ report ∷ [])) files
        → IsTrue (is_compared (provenance recipe report files).status)
        → Accounted M.prescribes M.compiles recipe report files (provenance recipe report files) }
{
    verified::<M>();
    it_judges_as_verify();
    a_true_report_is_told();
}

/// Two completed audits of recipe files with one digest have the same artefact of a stage if `provenance` prints the same lines for it, or
/// two different contents with one digest are known. The lines are those below the stage's comparison, and both recipe files are valid. If
/// the stage is checked in M1, the artefacts have the same items.
pub fn printed_digests_settle_it()
    ensures { (bytes other_bytes : List ℕ) (parsed other_parsed : Recipe) (inputs others : List (List ℕ)) (made other : Report) (name : List ℕ) (stage : Stage)
        → recipe_of bytes ≡ Ok parsed → recipe_of other_bytes ≡ Ok other_parsed → parsed.digest ≡ other_parsed.digest
        → IsInputs parsed inputs → IsInputs other_parsed others → bench parsed inputs ≡ Completes made → bench other_parsed others ≡ Completes other
        → stage_named parsed.stages name ≡ Some stage → origin_text parsed inputs made name ≡ origin_text other_parsed others other name
        → IsSameArtefact parsed inputs others stage ⊎ DigestCollision }
{
    a_recipe_that_reads_keeps_the_rules();
    what_is_printed_settles_it();
}

/// On valid words (`AreWords`), `part` pauses after exactly STEPS steps and leaves the save of that position, or its status, text and
/// REPORT are those of `audit`.
pub fn parts()
    ensures { (recipe save report : List ℕ) (steps : ℕ) (files : NamedFiles) → AreWords recipe save report files → IsStepCount steps
        → Pieces recipe save report files steps (part recipe save report steps files) }
{}

/// On files that hold the save after `count` steps, `resume` pauses after exactly STEPS more and leaves the save of that position, or its
/// status, text and REPORT are those of `audit`. `answered` says so of a call of `resume` whose status is not 10. `bytes` says so of
/// files whose inputs are bytes, where the save always fits its limit.
pub fn resumes()
    ensures bytes { (recipe save report : List ℕ) (count steps : ℕ) (files : NamedFiles) → AreWords recipe save report files
        → IsStepCount steps → LoadsBytes (plan_of (codes "audit" ∷ recipe ∷ report ∷ [])) files → IsSavedAt recipe save files count
        → Pieces recipe save report files (count + steps) (resume recipe save report steps files) }
    ensures answered { (recipe save report : List ℕ) (count steps : ℕ) (files : NamedFiles) → AreWords recipe save report files
        → IsStepCount steps → LoadsBytes (plan_of (codes "resume" ∷ recipe ∷ save ∷ report ∷ decimal steps ∷ [])) files
        → (resume recipe save report steps files).status ≢ FileRefused → IsSavedAt recipe save files count
        → Pieces recipe save report files (count + steps) (resume recipe save report steps files) }
{}

/// Neither `part` nor `resume`, nor an audit in segments, changes a name other than SAVE and REPORT, whatever the files hold.
pub fn others_stay()
    ensures part { (recipe save report : List ℕ) (steps : ℕ) (files : NamedFiles) → LeavesOthers save report files (part recipe save report steps files) }
    ensures resume { (recipe save report : List ℕ) (steps : ℕ) (files : NamedFiles) → LeavesOthers save report files (resume recipe save report steps files) }
    ensures pieces { (recipe save report : List ℕ) (steps : ℕ) (counts : List ℕ) (files : NamedFiles)
        → LeavesOthers save report files (in_pieces recipe save report steps counts files) }
{}

/// A segment leaves REPORT unchanged if it pauses, and SAVE if it does not, whatever the files hold. So REPORT is unchanged as long as an
/// audit in segments pauses.
pub fn unwritten_stays()
    ensures part { (recipe save report : List ℕ) (steps : ℕ) (files : NamedFiles) → LeavesUnwritten save report files (part recipe save report steps files) }
    ensures resume { (recipe save report : List ℕ) (steps : ℕ) (files : NamedFiles)
        → LeavesUnwritten save report files (resume recipe save report steps files) }
    ensures pieces { (recipe save report : List ℕ) (steps : ℕ) (counts : List ℕ) (files : NamedFiles)
        → (in_pieces recipe save report steps counts files).status ≡ Paused
        → map.get (in_pieces recipe save report steps counts files).files report ≡ map.get files report }
{}

/// On valid words (`AreWords`), an audit on files of bytes, in any segments, has the status, text and REPORT of the undivided audit, or
/// pauses after all its steps. If it returns 0 or 3, `verify` on the files afterwards returns the same status.
pub fn pauses()
    ensures same { (recipe save report : List ℕ) (steps : ℕ) (counts : List ℕ) (files : NamedFiles) → AreWords recipe save report files
        → All IsStepCount (steps ∷ counts) → LoadsBytes (plan_of (codes "part" ∷ recipe ∷ save ∷ report ∷ decimal steps ∷ [])) files
        → Pieces recipe save report files (sum (steps ∷ counts)) (in_pieces recipe save report steps counts files) }
    ensures accepted { (recipe save report : List ℕ) (steps : ℕ) (counts : List ℕ) (files : NamedFiles) → AreWords recipe save report files
        → All IsStepCount (steps ∷ counts) → LoadsBytes (plan_of (codes "part" ∷ recipe ∷ save ∷ report ∷ decimal steps ∷ [])) files
        → IsTrue (is_compared (in_pieces recipe save report steps counts files).status)
        → (verify recipe report (in_pieces recipe save report steps counts files).files).status
        ≡ (in_pieces recipe save report steps counts files).status }
{}

/// On files whose BASE is the save after `first` steps, `delta-start` pauses after exactly STEPS more and leaves the delta against BASE, or
/// its status, text and REPORT are those of `audit`. `answered` says so of a call of `delta-start` whose status is not 10. `bytes` says
/// so of files whose inputs are bytes, where the save always fits its limit.
pub fn delta_starts()
    ensures bytes { (recipe base patch report : List ℕ) (first steps : ℕ) (files : NamedFiles)
        → AreDeltaWords recipe base patch report files → IsStepCount steps
        → LoadsBytes (plan_of (codes "audit" ∷ recipe ∷ report ∷ [])) files → IsSavedAt recipe base files first
        → DeltaPieces recipe base patch report files first (first + steps) (delta_start recipe base patch report steps files) }
    ensures answered { (recipe base patch report : List ℕ) (first steps : ℕ) (files : NamedFiles)
        → AreDeltaWords recipe base patch report files → IsStepCount steps
        → LoadsBytes (plan_of (codes "delta-start" ∷ recipe ∷ base ∷ patch ∷ report ∷ decimal steps ∷ [])) files
        → (delta_start recipe base patch report steps files).status ≢ FileRefused → IsSavedAt recipe base files first
        → DeltaPieces recipe base patch report files first (first + steps) (delta_start recipe base patch report steps files) }
{}

/// On files with a save BASE and its delta PATCH, `delta-resume` pauses after exactly STEPS more steps and leaves the delta against BASE, or
/// its status, text and REPORT are those of `audit`. PATCH has the position after `count` steps. `answered` says so of a call whose status is
/// not 10. `bytes` says so of files whose inputs are bytes, where the save and the delta always fit their limits.
pub fn delta_resumes()
    ensures bytes { (recipe base patch report : List ℕ) (first count steps : ℕ) (files : NamedFiles)
        → AreDeltaWords recipe base patch report files → IsStepCount steps
        → LoadsBytes (plan_of (codes "audit" ∷ recipe ∷ report ∷ [])) files → IsSavedRelative recipe base patch files first count
        → DeltaPieces recipe base patch report files first (count + steps) (delta_resume recipe base patch report steps files) }
    ensures answered { (recipe base patch report : List ℕ) (first count steps : ℕ) (files : NamedFiles)
        → AreDeltaWords recipe base patch report files → IsStepCount steps
        → LoadsBytes (plan_of (codes "delta-resume" ∷ recipe ∷ base ∷ patch ∷ report ∷ decimal steps ∷ [])) files
        → (delta_resume recipe base patch report steps files).status ≢ FileRefused → IsSavedRelative recipe base patch files first count
        → DeltaPieces recipe base patch report files first (count + steps) (delta_resume recipe base patch report steps files) }
{}

/// Neither `delta-start` nor `delta-resume` changes a name other than PATCH and REPORT, whatever the files hold. So BASE is unchanged, and
/// an audit by differences changes only BASE, PATCH and REPORT.
pub fn deltas_leave_others()
    ensures start { (recipe base patch report : List ℕ) (steps : ℕ) (files : NamedFiles)
        → LeavesOthers patch report files (delta_start recipe base patch report steps files) }
    ensures resume { (recipe base patch report : List ℕ) (steps : ℕ) (files : NamedFiles)
        → LeavesOthers patch report files (delta_resume recipe base patch report steps files) }
    ensures pieces { (recipe base patch report : List ℕ) (steps : ℕ) (counts : List ℕ) (files : NamedFiles)
        → LeavesAllBut base patch report files (in_differences recipe base patch report steps counts files) }
{}

/// A segment by differences leaves REPORT unchanged if it pauses, and PATCH if it does not, whatever the files hold.
pub fn deltas_leave_unwritten()
    ensures start { (recipe base patch report : List ℕ) (steps : ℕ) (files : NamedFiles)
        → LeavesUnwritten patch report files (delta_start recipe base patch report steps files) }
    ensures resume { (recipe base patch report : List ℕ) (steps : ℕ) (files : NamedFiles)
        → LeavesUnwritten patch report files (delta_resume recipe base patch report steps files) }
{}

/// On valid words (`AreDeltaWords`), an audit by differences on files of bytes, in any segments, has the status, text and REPORT of the
/// undivided audit, or pauses after all its steps. If it returns 0 or 3, `verify` on the files afterwards returns the same status.
pub fn differences()
    ensures same { (recipe base patch report : List ℕ) (steps : ℕ) (counts : List ℕ) (files : NamedFiles)
        → AreDeltaWords recipe base patch report files → All IsStepCount (steps ∷ counts)
        → LoadsBytes (plan_of (codes "part" ∷ recipe ∷ base ∷ report ∷ decimal steps ∷ [])) files
        → Differences recipe base patch report files steps counts (in_differences recipe base patch report steps counts files) }
    ensures accepted { (recipe base patch report : List ℕ) (steps : ℕ) (counts : List ℕ) (files : NamedFiles)
        → AreDeltaWords recipe base patch report files → All IsStepCount (steps ∷ counts)
        → LoadsBytes (plan_of (codes "part" ∷ recipe ∷ base ∷ report ∷ decimal steps ∷ [])) files
        → IsTrue (is_compared (in_differences recipe base patch report steps counts files).status)
        → (verify recipe report (in_differences recipe base patch report steps counts files).files).status
        ≡ (in_differences recipe base patch report steps counts files).status }
{}

/// On a valid script and list (`HoldsScript`), the outcome of `kaem` is that of the script's commands, run one after another on the listed
/// files, each for at most STEPS steps. If all ran, REPORT holds their report. If one stopped the script, no file changes.
pub fn scripts_fold()
    ensures { (script list report : List ℕ) (steps : ℕ) (files : NamedFiles) (parsed : ScriptContents) (listed : FilesListed)
        → HoldsScript script list report files parsed listed → IsStepCount steps
        → kaem script list report steps files ≡ kaem_ended report files parsed listed (folded steps listed.world parsed.commands) }
{}

/// On files of bytes that hold a valid script and list (`HoldsScript`), `kaem-verify` returns 0 exactly where REPORT holds the text of what
/// the script's commands did. Its text then has the number of commands. If what it loads itself is bytes, it refutes no true report.
pub fn scripts_verified()
    ensures yes { (script list report : List ℕ) (steps : ℕ) (files : NamedFiles) (parsed : ScriptContents) (listed : FilesListed)
        → HoldsScript script list report files parsed listed → IsStepCount steps
        → LoadsBytes (plan_of (codes "kaem" ∷ script ∷ list ∷ report ∷ decimal steps ∷ [])) files
        → ((kaem_verify script list report files).status ≡ Yes) ↔ IsScriptTrue report files parsed listed }
    ensures text { (script list report : List ℕ) (files : NamedFiles) (parsed : ScriptContents) (listed : FilesListed)
        → HoldsScript script list report files parsed listed → (kaem_verify script list report files).status ≡ Yes
        → (kaem_verify script list report files).text ≡ commands_true_line (length parsed.commands) }
    ensures refuted { (script list report : List ℕ) (files : NamedFiles) (parsed : ScriptContents) (listed : FilesListed)
        → HoldsScript script list report files parsed listed → LoadsBytes (plan_of (codes "kaem-verify" ∷ script ∷ list ∷ report ∷ [])) files
        → IsScriptTrue report files parsed listed → (kaem_verify script list report files).status ≢ Refuted }
{}

/// `kaem` returns 0 only where the files hold a valid script and list and all commands ran, and `kaem-verify` only where they hold such a
/// script and list and the report is true.
pub fn scripts_shown()
    ensures reported { (script list report : List ℕ) (steps : ℕ) (files : NamedFiles) → (kaem script list report steps files).status ≡ Yes
        → ScriptReported script list report (decimal steps) files (kaem script list report steps files) }
    ensures verified { (script list report : List ℕ) (files : NamedFiles) → (kaem_verify script list report files).status ≡ Yes
        → ScriptVerified script list report files (kaem_verify script list report files) }
{}

/// `kaem-verify` accepts a script's own report: after a `kaem` on files of bytes that returns 0, it returns 0 and prints the number of
/// commands.
pub fn scripts_accepted()
    ensures yes { (script list report : List ℕ) (steps : ℕ) (files : NamedFiles)
        → LoadsBytes (plan_of (codes "kaem" ∷ script ∷ list ∷ report ∷ decimal steps ∷ [])) files → (kaem script list report steps files).status ≡ Yes
        → (kaem_verify script list report (kaem script list report steps files).files).status ≡ Yes }
    ensures text { (script list report : List ℕ) (steps : ℕ) (files : NamedFiles) (parsed : ScriptContents) (listed : FilesListed)
        → HoldsScript script list report files parsed listed → LoadsBytes (plan_of (codes "kaem" ∷ script ∷ list ∷ report ∷ decimal steps ∷ [])) files
        → (kaem script list report steps files).status ≡ Yes
        → (kaem_verify script list report (kaem script list report steps files).files).text ≡ commands_true_line (length parsed.commands) }
{}

/// `kaem` changes only REPORT, and only if it returns 0; `kaem-verify` changes nothing; `kaem-left` changes only OUT, and only if it
/// returns 0 or 6. This holds whatever the files hold.
pub fn scripts_leave_others()
    ensures report { (script list report : List ℕ) (steps : ℕ) (files : NamedFiles) → ChangesReportAlone report files (kaem script list report steps files) }
    ensures none { (script list report : List ℕ) (files : NamedFiles) → (kaem_verify script list report files).files ≡ files }
    ensures out { (script list steps command file out : List ℕ) (files : NamedFiles)
        → ChangesOutAlone out files (kaem_left script list steps command file out files) }
{}

/// The line that `run` prints of a stream or of a file that was left is that of a report, with the length and digest of the content.
pub fn lines_of_a_run()
    ensures first { (bytes : List ℕ) → stream_line 1 bytes ≡ line (line_words (Stream1 (mark_of bytes))) }
    ensures second { (bytes : List ℕ) → stream_line 2 bytes ≡ line (line_words (Stream2 (mark_of bytes))) }
    ensures left { (name content : List ℕ) → left_line (name, content) ≡ line (line_words (Left (record { name = name; mark = mark_of content }))) }
{}

/// Every status that a command answers is printed by `help`, whatever words follow the command's name and whatever the files hold. Two statuses are not
/// printed, because every command has them: a usage error (2), and a file that is absent or too long (10). For `demo` the recipe that it brings with it
/// must be a valid recipe.
pub fn help_prints_each_status()
    ensures { (command : CommandWord) (words : List (List ℕ)) (files : NamedFiles) → HasReadRecipe command
        → IsTrue (is_answer_of command (outcome (plan_of (command_name command ∷ words)) files).status) }
{}
