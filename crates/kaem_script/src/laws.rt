//! Laws of scripts. Each law is the contract of a function that does nothing.
ghost use Rattle.std.specs.Prelude.{◌≡◌, ◌≤◌, ◌+◌, ◌++◌, ◌∷◌, [], ◌↔◌, ℕ, List, None, Ok, Err, length};
ghost use Rattle.ddc_base.specs.Limits.{most_steps};
ghost use Rattle.elf_load.specs.declared.refusal.ElfRefusal.{ElfRefusal};
ghost use Rattle.guest_run.specs.Start.{Elf, Refusal, start_of};
ghost use Rattle.mem_files.specs.Sound.{IsSound};
ghost use Rattle.mem_files.specs.World.{World};
ghost use Rattle.report.specs.declared.script.types.ScriptReport.{ScriptReport};
ghost use Rattle.kaem_script.specs.ByLines.{commands_by_line};
ghost use Rattle.kaem_script.specs.Faults.{first_script_fault};
ghost use Rattle.kaem_script.specs.Fold.{Ran, RanAll, Stopped, command, command_box, folded};
ghost use Rattle.kaem_script.specs.Kept.{AreCommands, IsCommand};
ghost use Rattle.kaem_script.specs.FilesListed.{FilesListed};
ghost use Rattle.kaem_script.specs.Leaving.{IsLast, StopsThere, command_left, left_of_command, result_of};
ghost use Rattle.kaem_script.specs.Reported.{end_of_script};
ghost use Rattle.kaem_script.specs.Runs.{IsCommandRun};
ghost use Rattle.kaem_script.specs.Script.{ScriptContents, commands_of};
ghost use Rattle.kaem_script.specs.declared.cause.CommandCause.{CommandCause};

/// Reading a script byte by byte in one pass gives the same as reading it line by line and word by word, including its first fault and
/// the offset of that.
pub fn one_reading()
    ensures { (script : List ℕ) → commands_of script ≡ commands_by_line script }
{}

/// A script that is read has at most 4,096 commands of 1 to 64 words. Each word has at most 255 bytes, none of them zero, and the first
/// names a file of a guest.
pub fn scripts_keep_the_rules()
    ensures { (script : List ℕ) (commands : List (List (List ℕ))) → commands_of script ≡ Ok commands → AreCommands commands }
{}

/// A command's start is refused only if its file is not a program: the words of a script and the files of a file system are within the
/// limits of a start.
pub fn no_other_refusal()
    ensures { (program : List ℕ) (world : World) (words : List (List ℕ)) (refusal : Refusal) → IsSound world → IsCommand words
        → start_of program (command_box world words) ≡ Err refusal → (fault : ElfRefusal) × (refusal ≡ Elf fault) }
{}

/// A command that ran is a run of the program at its name in the execution context of all files that exist, and conversely.
pub fn a_command_is_a_run()
    ensures runs { (most : ℕ) (world : World) (words : List (List ℕ)) (ran : Ran) → command most world words ≡ Ok ran
        → IsCommandRun most world words ran }
    ensures found { (most : ℕ) (world : World) (words : List (List ℕ)) (ran : Ran) → IsCommandRun most world words ran
        → command most world words ≡ Ok ran }
{}

/// What a command left agrees with the result of all commands. It decides whether the command continues or stops the script. If the
/// command stops the script, it is left at that cause and step. If all commands ran, the last one left its exit with 0, its step and the
/// files at the end.
pub fn what_is_left_is_folded()
    ensures alone { (most number : ℕ) (world : World) (words : List (List ℕ)) → command most world words ≡ result_of (command_left most number world words) }
    ensures stopped { (most : ℕ) (world : World) (earlier : List (List (List ℕ))) (words : List (List ℕ)) (others : List (List (List ℕ))) (why : CommandCause) (step : ℕ)
        → folded most world (earlier ++ words ∷ others) ≡ Stopped (length earlier + 1) why step
        → StopsThere (length earlier + 1) why step (left_of_command most world earlier words) }
    ensures before { (most : ℕ) (world : World) (earlier : List (List (List ℕ))) (words : List (List ℕ)) (number : ℕ) (why : CommandCause) (step : ℕ)
        → folded most world earlier ≡ Stopped number why step → left_of_command most world earlier words ≡ Err (number, why, step) }
    ensures ran { (most : ℕ) (world : World) (earlier : List (List (List ℕ))) (words : List (List ℕ)) (ran : List Ran) (left : World)
        → folded most world (earlier ++ words ∷ []) ≡ RanAll ran left → IsLast (left_of_command most world earlier words) ran left }
{}

/// A report has no fault exactly if it is that of the script's commands on the listed files, which each exit with 0 within 2^48 steps.
pub fn one_report()
    ensures { (script : ScriptContents) (listed : FilesListed) (report : ScriptReport) → (first_script_fault script listed report ≡ None) ↔ (end_of_script most_steps script listed ≡ Ok report) }
{}

/// The report of an audit has no fault, whatever the limit of steps of its commands, up to 2^48.
pub fn what_is_audited_is_verified()
    ensures { (most : ℕ) (script : ScriptContents) (listed : FilesListed) (report : ScriptReport) → most ≤ most_steps
        → end_of_script most script listed ≡ Ok report → first_script_fault script listed report ≡ None }
{}
