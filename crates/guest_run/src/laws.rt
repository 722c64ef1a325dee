//! Laws of every start and every run. Each law is the contract of a function that does nothing.

ghost use Rattle.guest_run.specs.ByAct.{ProgramRunBy};
ghost use Rattle.guest_run.specs.Program.{ProgramRun};
ghost use Rattle.guest_run.specs.Run.{after, end_at, first_end, End, Exited, Runs};
ghost use Rattle.guest_run.specs.Setting.{IsBox, Setting};
ghost use Rattle.guest_run.specs.Start.{start_of};
ghost use Rattle.guest_run.specs.State.{GuestState};
ghost use Rattle.guest_run.specs.Valid.{IsValid};
ghost use Rattle.mem_files.specs.Outputs.{AreLeft, left};
ghost use Rattle.mem_files.specs.Sound.{AreBytes, IsSound};
ghost use Rattle.guest_run.specs.declared.run.RunEnd.{RunEnd};
ghost use Rattle.guest_run.specs.declared.run.RunEnd.TheVariants.{Spent};
ghost use Rattle.mem_files.specs.World.{World};
ghost use Rattle.rv64_machine.specs.Hart.{act};
ghost use Rattle.rv64_machine.specs.WithoutAtomics.{act_without_atomics};
ghost use Rattle.std.specs.Prelude.{◌≡◌, ◌↔◌, ◌≢◌, ℕ, ◌+◌, ◌<◌, ◌≤◌, None, Some, Ok, List};

/// Steps can be taken in parts: `first` steps and then `more` steps lead where `first + more` steps do.
pub fn steps_in_parts()
    ensures { (guest between : GuestState) (first more : ℕ) → after guest first ≡ Some between
        → after guest (first + more) ≡ after between more }
{}

/// A run has at most one end: one step, one reason and one state.
pub fn one_end()
    ensures { (guest : GuestState) (number other : ℕ) (end what : End × GuestState)
        → end_at guest number ≡ Some end → end_at guest other ≡ Some what → (number ≡ other) × (end ≡ what) }
{}

/// An end found within `most` steps is the end at one of them.
pub fn first_end_is_at_a_step()
    ensures { (guest : GuestState) (most : ℕ) (end : End × GuestState) → first_end guest most ≡ Some end
        → (number : ℕ) × (number ≤ most) × (end_at guest number ≡ Some end) }
{}

/// An end at step `number` is the end found within `number` steps or more.
pub fn first_end_is_found()
    ensures { (guest : GuestState) (number most : ℕ) (end : End × GuestState) → number ≤ most
        → end_at guest number ≡ Some end → first_end guest most ≡ Some end }
{}

/// The end found within `first + more` steps is the one within `first`, or else the one within `more` steps from the state after `first`.
pub fn first_end_in_parts()
    ensures former { (guest : GuestState) (first more : ℕ) (end : End × GuestState) → first_end guest first ≡ Some end
        → first_end guest (first + more) ≡ Some end }
    ensures latter { (guest between : GuestState) (first more : ℕ) → after guest first ≡ Some between
        → first_end guest (first + more) ≡ first_end between more }
{}

/// A program in one execution context has at most one run: one number of steps, one status and one file system.
pub fn one_run()
    ensures { (program : List ℕ) (setting : Setting) (n m s t : ℕ) (world other : World)
        → ProgramRun program setting n s world → ProgramRun program setting m t other → (n ≡ m) × (s ≡ t) × (world ≡ other) }
{}

/// An exit found within some steps of a start is a run of the program. It ends at the step after those counted.
pub fn an_exit_is_a_run()
    ensures { (program : List ℕ) (setting : Setting) (start last : GuestState) (most s : ℕ)
        → start_of program setting ≡ Ok start → first_end start most ≡ Some (Exited s, last)
        → ProgramRun program setting (last.steps + 1) s last.world }
{}

/// If no end occurs within some steps, all of them continue.
pub fn steps_go_on_without_an_end()
    ensures { (guest : GuestState) (most : ℕ) → first_end guest most ≡ None
        → (to : GuestState) × (after guest most ≡ Some to) }
{}

/// Every step that continues is counted.
pub fn steps_are_counted()
    ensures { (guest to : GuestState) (count : ℕ) → after guest count ≡ Some to → to.steps ≡ guest.steps + count }
{}

/// A run whose steps are spent, followed by a run from there, equals one run of the sum of their steps.
pub fn runs_join()
    ensures { (guest between to : GuestState) (first more : ℕ) (why : RunEnd)
        → Runs guest first Spent between → Runs between more why to → Runs guest (first + more) why to }
{}

/// A run that ended also ends so if more steps are allowed.
pub fn an_end_stays()
    ensures { (guest to : GuestState) (most more : ℕ) (why : RunEnd) → why ≢ Spent
        → Runs guest most why to → Runs guest (most + more) why to }
{}

/// A program in a valid execution context starts in a valid state, with no step taken.
pub fn starts_are_valid()
    ensures { (program : List ℕ) (setting : Setting) (guest : GuestState) → AreBytes program → IsBox setting
        → start_of program setting ≡ Ok guest → IsValid guest × (guest.steps ≡ 0) }
{}

/// Steps keep a state valid.
pub fn steps_keep_validity()
    ensures { (guest to : GuestState) (count : ℕ) → IsValid guest → after guest count ≡ Some to → IsValid to }
{}

/// A run leaves a valid state valid, whether it ends or stops. An end occurs at the step after those counted, and an exit status from a
/// valid state is below 256.
pub fn ends_leave_valid_states()
    ensures counted { (guest last : GuestState) (number : ℕ) (end : End) → end_at guest number ≡ Some (end, last)
        → guest.steps + number ≡ last.steps + 1 }
    ensures valid { (guest last : GuestState) (number : ℕ) (end : End) → IsValid guest
        → end_at guest number ≡ Some (end, last) → IsValid last }
    ensures status { (guest last : GuestState) (number s : ℕ) → IsValid guest
        → end_at guest number ≡ Some (Exited s, last) → s < 256 }
    ensures run { (guest to : GuestState) (most : ℕ) (why : RunEnd) → IsValid guest → Runs guest most why to → IsValid to }
{}

/// A run in a valid execution context leaves sound files, and the files that remain are within the limits. The step of its exit is at
/// least 1, and its status is below 256.
pub fn runs_leave_sound_files()
    ensures sound { (program : List ℕ) (setting : Setting) (n s : ℕ) (world : World) → AreBytes program → IsBox setting
        → ProgramRun program setting n s world → IsSound world }
    ensures left { (program : List ℕ) (setting : Setting) (n s : ℕ) (world : World) → AreBytes program → IsBox setting
        → ProgramRun program setting n s world → AreLeft (left world) }
    ensures numbers { (program : List ℕ) (setting : Setting) (n s : ℕ) (world : World) → AreBytes program → IsBox setting
        → ProgramRun program setting n s world → (1 ≤ n) × (s < 256) }
{}

/// A run that exits on a machine of RV64I and M alone, where atomic instructions are illegal, has the same step, status and files on the
/// full machine. With all rows, `ProgramRunBy` is `ProgramRun`.
pub fn runs_without_atomics_stand()
    ensures all { (program : List ℕ) (setting : Setting) (n s : ℕ) (world : World)
        → ProgramRunBy act program setting n s world ↔ ProgramRun program setting n s world }
    ensures without { (program : List ℕ) (setting : Setting) (n s : ℕ) (world : World)
        → ProgramRunBy act_without_atomics program setting n s world → ProgramRun program setting n s world }
{}
