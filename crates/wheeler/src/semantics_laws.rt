//! Laws of deterministic semantics. Each law is the contract of a function that does nothing.

ghost use Rattle.std.specs.Prelude.{◌≡◌, ℕ, List, None, Some};
ghost use Rattle.mem_files.specs.Outputs.{OutputLocation, out};
ghost use Rattle.mem_files.specs.World.{World};
ghost use Rattle.ddc_base.specs.declared.languages.Language.TheVariants.{M1};
ghost use Rattle.guest_run.specs.Program.{ProgramRun};
ghost use Rattle.guest_run.specs.Setting.{IsBox, Setting};
ghost use Rattle.recipe.specs.Kept.{IsRecipe};
ghost use Rattle.recipe.specs.declared.contents.RecipeContents.{RecipeContents};
ghost use Rattle.recipe.specs.declared.parts.SourceLanguage.TheVariants.{Defined};
ghost use Rattle.report.specs.declared.types.CompareLine.{CompareLine};
ghost use Rattle.report.specs.declared.types.Report.{Report};
ghost use Rattle.audit_rules.specs.Bench.{bench};
ghost use Rattle.audit_rules.specs.Contents.{SourceText};
ghost use Rattle.audit_rules.specs.Valid.{IsInputs};
ghost use Rattle.audit_rules.specs.declared.answer.AuditAnswer.TheVariants.{Completes};
ghost use Rattle.wheeler.specs.Assembly.{ValueLeaves};
ghost use Rattle.wheeler.specs.AllContents.{all_contents};
ghost use Rattle.wheeler.specs.Assumptions.{Holds, LinesHold, is_trusted};
ghost use Rattle.wheeler.specs.Checked.{HasItemsOf};
ghost use Rattle.wheeler.specs.Concludes.{Concludes};
ghost use Rattle.wheeler.specs.Largest.{AllImplement, CompilesNoMore, PrescribesSame};
ghost use Rattle.wheeler.specs.Listed.{ListedHold};
ghost use Rattle.wheeler.specs.MacroAssembly.{AreOwnPrograms, MacroLeaves, as_hex2, program_of_text};
ghost use Rattle.wheeler.specs.Meaning.{Implements};
ghost use Rattle.wheeler.specs.ProgramsImplement.{ProgramsImplement, RouteImplements};
ghost use Rattle.wheeler.specs.Routes.{RouteHolds, is_on, route_named};
ghost use Rattle.wheeler.specs.Settled.{IsSettledLine, KnowsMacroCode};
ghost use Rattle.wheeler.specs.Values.{binary_of};
ghost use Rattle.wheeler.specs.WithMachineCode.{MachineCodeOr};
ghost use Rattle.wheeler.specs.WithMacroCode.{MacroCodeOr};
ghost use Rattle.wheeler.specs.declared.assumption.Assumption.{Assumption};

use crate::deterministic::Deterministic;
use crate::macro_assembly::MacroAssembly;
use crate::meaning::Meaning;
use crate::of_meaning::OfMeaning;
use crate::other_languages::{OtherLanguages, WithMachineCode, WithMacroCode};
use crate::semantics::Semantics;

/// Every meaning compiles at most as much as the largest relation that the law `carry` allows for what it prescribes.
pub fn a_meaning_compiles_no_more<M: Meaning>()
    ensures { CompilesNoMore M.compiles ⟦<Deterministic<OfMeaning<M>> as Meaning>⟧.compiles }
{}

/// Every meaning that prescribes the same as a semantics compiles at most as much as the semantics taken as a meaning.
pub fn a_semantics_compiles_most<S: Semantics, M: Meaning>()
    ensures { PrescribesSame M.prescribes S.prescribes → CompilesNoMore M.compiles ⟦<Deterministic<S> as Meaning>⟧.compiles }
{}

/// Assumptions that hold under a meaning hold under a semantics that prescribes the same: those of an audit, of a stage's route, and those
/// that are listed. With `OfMeaning<M>` as the semantics this covers every meaning.
pub fn lines_hold_there_too<S: Semantics, M: Meaning>()
    ensures lines { PrescribesSame M.prescribes S.prescribes → (recipe : RecipeContents) (inputs : List (List ℕ))
        → LinesHold M.prescribes M.compiles recipe inputs → LinesHold S.prescribes (AllImplement S.prescribes) recipe inputs }
    ensures route { PrescribesSame M.prescribes S.prescribes → (recipe : RecipeContents) (inputs : List (List ℕ)) (name : List ℕ)
        → RouteHolds M.prescribes M.compiles recipe inputs name → RouteHolds S.prescribes (AllImplement S.prescribes) recipe inputs name }
    ensures listed { PrescribesSame M.prescribes S.prescribes → (recipe : RecipeContents) (inputs : List (List ℕ))
        → ListedHold M.prescribes M.compiles recipe inputs → ListedHold S.prescribes (AllImplement S.prescribes) recipe inputs }
{}

/// What is concluded under a semantics is concluded under every meaning that prescribes the same, for each comparison of an audit.
pub fn its_conclusion_is_the_strongest<S: Semantics, M: Meaning>()
    ensures { PrescribesSame M.prescribes S.prescribes → (recipe : RecipeContents) (inputs : List (List ℕ)) (lines : List CompareLine)
        → Concludes S.prescribes (AllImplement S.prescribes) recipe inputs lines → Concludes M.prescribes M.compiles recipe inputs lines }
{}

/// Wheeler's argument for every deterministic semantics with machine code.
pub fn the_bench_concludes<S: Semantics>()
    ensures { (recipe : RecipeContents) (inputs : List (List ℕ)) (report : Report) → IsRecipe recipe → IsInputs recipe inputs
        → bench recipe inputs ≡ Completes report → Concludes S.prescribes (AllImplement S.prescribes) recipe inputs report.compare }
{
    crate::laws::the_bench_concludes::<Deterministic<S>>();
}

/// Wheeler's argument for every deterministic semantics of other languages, beside machine code.
pub fn the_bench_concludes_in_any_language<L: OtherLanguages>()
    ensures { (recipe : RecipeContents) (inputs : List (List ℕ)) (report : Report) → IsRecipe recipe → IsInputs recipe inputs
        → bench recipe inputs ≡ Completes report → Concludes (MachineCodeOr L.prescribes) (AllImplement (MachineCodeOr L.prescribes)) recipe inputs report.compare }
{
    the_bench_concludes::<WithMachineCode<L>>();
}

/// Wheeler's argument for any deterministic semantics of other languages beside machine code and M1.
pub fn the_bench_concludes_in_m1_and_any_language<L: OtherLanguages>()
    ensures { (recipe : RecipeContents) (inputs : List (List ℕ)) (report : Report) → IsRecipe recipe → IsInputs recipe inputs
        → bench recipe inputs ≡ Completes report → Concludes (MacroCodeOr L.prescribes) (AllImplement (MacroCodeOr L.prescribes)) recipe inputs report.compare }
{
    the_bench_concludes::<WithMacroCode<L>>();
}

/// Wheeler's argument with M1: the meaning of a source in M1 is the program that it links to.
pub fn the_bench_concludes_in_m1()
    ensures { (recipe : RecipeContents) (inputs : List (List ℕ)) (report : Report) → IsRecipe recipe → IsInputs recipe inputs
        → bench recipe inputs ≡ Completes report → Concludes MacroLeaves (AllImplement MacroLeaves) recipe inputs report.compare }
{
    the_bench_concludes::<MacroAssembly>();
}

/// With the largest relation, an assumption `compiles` about a stage whose program implements its source says exactly that the artefact
/// implements the other source. If the source prescribes nothing, it says nothing.
pub fn a_line_says_what_was_made<S: Semantics>()
    ensures made { (source other : SourceText) (box : Setting) (output : OutputLocation) (program made : List ℕ) (step : ℕ) (world : World)
        → IsBox box → Implements S.prescribes program source → ProgramRun program box step 0 world → out world output ≡ Some made
        → (AllImplement S.prescribes source box output other → Implements S.prescribes made other)
        × (Implements S.prescribes made other → AllImplement S.prescribes source box output other) }
    ensures nothing { (source other : SourceText) (box : Setting) (output : OutputLocation)
        → ((content : List ℕ) → S.prescribes source box output content → ⊥) → AllImplement S.prescribes source box output other }
{}

/// With the largest relation, an audit's assumptions say exactly that each program of an unchecked stage implements its source. Those of a
/// stage's route say it of each program on the route.
pub fn lines_are_of_programs<S: Semantics>()
    ensures all { (recipe : RecipeContents) (inputs : List (List ℕ)) (report : Report) → IsRecipe recipe → IsInputs recipe inputs
        → bench recipe inputs ≡ Completes report
        → (LinesHold S.prescribes (AllImplement S.prescribes) recipe inputs → ProgramsImplement S.prescribes recipe inputs)
        × (ProgramsImplement S.prescribes recipe inputs → LinesHold S.prescribes (AllImplement S.prescribes) recipe inputs) }
    ensures route { (recipe : RecipeContents) (inputs : List (List ℕ)) (report : Report) → IsRecipe recipe → IsInputs recipe inputs
        → bench recipe inputs ≡ Completes report → (name : List ℕ)
        → (RouteHolds S.prescribes (AllImplement S.prescribes) recipe inputs name → RouteImplements S.prescribes recipe inputs name)
        × (RouteImplements S.prescribes recipe inputs name → RouteHolds S.prescribes (AllImplement S.prescribes) recipe inputs name) }
{}

/// No meaning prescribes everything.
pub fn no_meaning_prescribes_everything<M: Meaning>()
    ensures { ((source : SourceText) (box : Setting) (output : OutputLocation) (content : List ℕ) → M.prescribes source box output content) → ⊥ }
{}

/// A semantics of other languages prescribes what was given, for every source without a value in hex0, hex1 or hex2.
pub fn others_as_given<L: OtherLanguages>()
    ensures { (source : SourceText) → binary_of source ≡ None → (box : Setting) (output : OutputLocation) (content : List ℕ)
        → (MachineCodeOr L.prescribes source box output content → L.prescribes source box output content)
        × (L.prescribes source box output content → MachineCodeOr L.prescribes source box output content) }
{}

/// The program of a source in hex0, hex1, hex2 or M1 implements it.
pub fn the_program_implements()
    ensures { (source : SourceText) (program : List ℕ) → program_of_text source ≡ Some program → Implements MacroLeaves program source }
{}

/// A source compiles another one if the run of its program leaves the other's program.
pub fn what_makes_the_program_compiles()
    ensures { (source other : SourceText) (box : Setting) (output : OutputLocation) (made : List ℕ)
        → program_of_text other ≡ Some made → MacroLeaves source box output made
        → ⟦<Deterministic<MacroAssembly> as Meaning>⟧.compiles source box output other }
{}

/// Where programs of unchecked stages are byte for byte the programs of their sources, lines on them hold: those of an audit, and those of a route.
pub fn lines_on_own_programs_hold()
    ensures all { (recipe : RecipeContents) (inputs : List (List ℕ)) (report : Report) → IsRecipe recipe → IsInputs recipe inputs
        → bench recipe inputs ≡ Completes report → AreOwnPrograms (is_trusted recipe) recipe inputs
        → LinesHold MacroLeaves (AllImplement MacroLeaves) recipe inputs }
    ensures route { (recipe : RecipeContents) (inputs : List (List ℕ)) (report : Report) → IsRecipe recipe → IsInputs recipe inputs
        → bench recipe inputs ≡ Completes report → (name : List ℕ) → AreOwnPrograms (is_on (route_named recipe name)) recipe inputs
        → RouteHolds MacroLeaves (AllImplement MacroLeaves) recipe inputs name }
{}

/// What `Assembly` prescribes, `MacroAssembly` prescribes too.
pub fn macro_assembly_keeps_assembly()
    ensures { (source : SourceText) (box : Setting) (output : OutputLocation) (content : List ℕ)
        → ValueLeaves source box output content → MacroLeaves source box output content }
{}

/// A hex2 text with the items of an M1 source has that source's program as its value at the source's base. A check in M1 finds such a text.
pub fn items_link_to_the_program()
    ensures { (source : SourceText) (text : List ℕ) → source.lang ≡ Defined M1 → HasItemsOf source text
        → binary_of (as_hex2 source.base text) ≡ program_of_text source }
{}

/// A semantics of other languages beside machine code and M1 prescribes what `MacroAssembly` prescribes for every source with a program in hex0,
/// hex1, hex2 or M1, and what was given for every other source.
pub fn macro_code_and_others_as_given<L: OtherLanguages>()
    ensures macro_code { (source : SourceText) (program : List ℕ) → program_of_text source ≡ Some program
        → (box : Setting) (output : OutputLocation) (content : List ℕ)
        → (MacroCodeOr L.prescribes source box output content → MacroLeaves source box output content)
        × (MacroLeaves source box output content → MacroCodeOr L.prescribes source box output content) }
    ensures others { (source : SourceText) → program_of_text source ≡ None → (box : Setting) (output : OutputLocation) (content : List ℕ)
        → (MacroCodeOr L.prescribes source box output content → L.prescribes source box output content)
        × (L.prescribes source box output content → MacroCodeOr L.prescribes source box output content) }
{}

/// An assumption that a comparison of bytes settles holds under each semantics in which the programs of sources in M1 implement them.
pub fn settled_lines_hold<S: Semantics>()
    ensures { KnowsMacroCode S.prescribes → (recipe : RecipeContents) (inputs : List (List ℕ)) (report : Report) → IsRecipe recipe → IsInputs recipe inputs
        → bench recipe inputs ≡ Completes report → (line : Assumption) → IsSettledLine recipe (all_contents recipe inputs) line
        → Holds S.prescribes (AllImplement S.prescribes) recipe (all_contents recipe inputs) line }
{}

/// The programs of sources in M1 implement them under `MacroAssembly`, and under `WithMacroCode` of any semantics of other languages.
pub fn programs_of_m1_implement<L: OtherLanguages>()
    ensures alone { KnowsMacroCode MacroLeaves }
    ensures others { KnowsMacroCode (MacroCodeOr L.prescribes) }
{}
