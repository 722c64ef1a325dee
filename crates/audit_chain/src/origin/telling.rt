//! The dependencies of a stage's artefact that `provenance` prints besides its basis.

ghost use Rattle.audit_chain.specs.Provenance.{audited_met, audited_input, audited_stage, is_audited, is_met, names_source, run_input_name, programs, same_artefacts};
ghost use Rattle.audit_chain.specs.declared.origin.meeting.Meeting.TheVariants.{Read, Run};
ghost use Rattle.audit_chain.specs.Rests.Walk.{runs_meet, walk};
ghost use Rattle.std.specs.Prelude.{◌≡◌, ◌&&◌, IfOk, bytes_eq, filter_map, not};

use crate::origin::marks::is_audited;
use crate::origin::meeting::Meeting;
use crate::origin::reported::Reported;
use crate::rests::BasisPart;
use crate::rests::resting::push_name;
use crate::rests::walking::{files_meet, runs_meet, walk};
use ddc_base::{ListOf, Name, OutOfMemory};
use recipe::Recipe;
use report::Report;
use std::alloc::Global;
use wheeler::Assumption;

/// The dependencies of a stage's artefact that `provenance` prints besides its basis. Each list has the recipe's order.
#[derive(Drop)]
pub struct Origin {
    /// The inputs that unchecked stages among the dependencies run.
    pub programs: ListOf<Name>,
    /// The inputs among the dependencies that are read and have the audited binary's length and digest.
    pub audited_read: ListOf<Name>,
    /// The inputs among the dependencies that are run and have the audited binary's length and digest.
    pub audited_run: ListOf<Name>,
    /// The other stages among the dependencies whose artefact is read and has the audited binary's length and digest.
    pub same_read: ListOf<Name>,
    /// The other stages among the dependencies whose artefact is run and has the audited binary's length and digest.
    pub same_run: ListOf<Name>,
}

/// The dependencies of the artefact of the stage of a name that `provenance` prints besides its basis. Error: out of memory.
pub fn origin_of(
    alloc: Global,
    recipe: &Recipe,
    report: &Report,
    name: &Name,
) -> Result<Origin, OutOfMemory>
    ensures programs { IfOk result (λ origin. origin.programs ≡ programs recipe.now name.now) }
    ensures audited_read { IfOk result (λ origin. origin.audited_read ≡ audited_met recipe.now report.now Read name.now) }
    ensures audited_run { IfOk result (λ origin. origin.audited_run ≡ audited_met recipe.now report.now Run name.now) }
    ensures same_read { IfOk result (λ origin. origin.same_read ≡ same_artefacts recipe.now report.now Read name.now) }
    ensures same_run { IfOk result (λ origin. origin.same_run ≡ same_artefacts recipe.now report.now Run name.now) }
{
    let parts = walk(alloc, recipe, name)?;
    found_in(alloc, recipe, report, parts.as_slice(), name)
}

/// These dependencies, from the parts that `walk` found.
fn found_in(
    alloc: Global,
    recipe: &Recipe,
    report: &Report,
    parts: &[BasisPart],
    name: &Name,
) -> Result<Origin, OutOfMemory>
    requires { parts.now ≡ walk recipe.now name.now }
    ensures programs { IfOk result (λ origin. origin.programs ≡ programs recipe.now name.now) }
    ensures audited_read { IfOk result (λ origin. origin.audited_read ≡ audited_met recipe.now report.now Read name.now) }
    ensures audited_run { IfOk result (λ origin. origin.audited_run ≡ audited_met recipe.now report.now Run name.now) }
    ensures same_read { IfOk result (λ origin. origin.same_read ≡ same_artefacts recipe.now report.now Read name.now) }
    ensures same_run { IfOk result (λ origin. origin.same_run ≡ same_artefacts recipe.now report.now Run name.now) }
{
    let audit = Reported { recipe, report };
    let programs = programs_of(alloc, recipe, parts)?;
    let audited_read = audited_inputs(alloc, &audit, Meeting::Read, parts, name)?;
    let audited_run = audited_inputs(alloc, &audit, Meeting::Run, parts, name)?;
    let same_read = same_stages(alloc, &audit, Meeting::Read, parts, name)?;
    let same_run = same_stages(alloc, &audit, Meeting::Run, parts, name)?;
    Ok(Origin {
        programs,
        audited_read,
        audited_run,
        same_read,
        same_run,
    })
}

/// The inputs that are run.
fn programs_of(
    alloc: Global,
    recipe: &Recipe,
    parts: &[BasisPart],
) -> Result<ListOf<Name>, OutOfMemory>
    ensures { IfOk result (λ names. names ≡ filter_map (run_input_name parts.now) recipe.now.inputs) }
{
    let mut names = ListOf::new(alloc);
    for input in recipe.inputs().as_slice() {
        push_name(&mut names, &input.name, runs_meet(parts, &input.name))?;
    }
    Ok(names)
}

/// The inputs that are met in this way and have the audited binary's length and digest.
fn audited_inputs(
    alloc: Global,
    audit: &Reported<'_>,
    how: Meeting,
    parts: &[BasisPart],
    own: &Name,
) -> Result<ListOf<Name>, OutOfMemory>
    ensures { IfOk result (λ names. names ≡ filter_map (audited_input audit.now.recipe.now audit.now.report.now how parts.now own.now) audit.now.recipe.now.inputs) }
{
    let mut names = ListOf::new(alloc);
    for input in audit.recipe.inputs().as_slice() {
        push_name(
            &mut names,
            &input.name,
            is_told(audit, how, parts, own, &input.name),
        )?;
    }
    Ok(names)
}

/// The other stages whose artefact is met in this way and has the audited binary's length and digest.
fn same_stages(
    alloc: Global,
    audit: &Reported<'_>,
    how: Meeting,
    parts: &[BasisPart],
    own: &Name,
) -> Result<ListOf<Name>, OutOfMemory>
    ensures { IfOk result (λ names. names ≡ filter_map (audited_stage audit.now.recipe.now audit.now.report.now how parts.now own.now) audit.now.recipe.now.stages) }
{
    let mut names = ListOf::new(alloc);
    for stage in audit.recipe.stages().as_slice() {
        push_name(
            &mut names,
            &stage.name,
            is_told(audit, how, parts, own, &stage.name),
        )?;
    }
    Ok(names)
}

/// Whether a name is met in this way, is not the compared stage, and has the audited binary's length and digest.
fn is_told(audit: &Reported<'_>, how: Meeting, parts: &[BasisPart], own: &Name, name: &Name) -> bool
    ensures { result ≡ (is_met how parts.now name.now && not (bytes_eq own.now name.now) && is_audited audit.now.recipe.now audit.now.report.now name.now) }
{
    is_other(how, parts, own, name) && is_audited(audit.recipe, audit.report, name)
}

/// Whether a name is met in this way, and is not the compared stage.
fn is_other(how: Meeting, parts: &[BasisPart], own: &Name, name: &Name) -> bool
    ensures { result ≡ (is_met how parts.now name.now && not (bytes_eq own.now name.now)) }
{
    is_met(how, parts, name) && *own != *name
}

/// Whether a name is met in this way.
fn is_met(how: Meeting, parts: &[BasisPart], name: &Name) -> bool
    ensures { result ≡ is_met how parts.now name.now }
{
    match how {
        Meeting::Read => files_meet(parts, name),
        Meeting::Run => runs_meet(parts, name),
    }
}

/// Whether an assumption names a source.
pub fn names_source(name: &Name, line: &Assumption) -> bool
    ensures { result ≡ names_source name.now line.now }
{
    match line {
        Assumption::Implements { made: _, source } => *source == *name,
        Assumption::Compiles {
            source,
            stage: _,
            becomes,
        } => *source == *name || *becomes == *name,
    }
}
