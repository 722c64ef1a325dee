//! The second walk: what the names of a recipe refer to.

ghost use Rattle.std.specs.Prelude.{◌≡◌, ◌<◌, ◌≤◌, ◌^◌, ◌-◌, length, is_some, Some};
ghost use Rattle.std.specs.List.{list_all};
ghost use Rattle.ddc_base.specs.Results.{error_unless};
ghost use Rattle.recipe.specs.Text.Reading.{Gives, NeverWants, each_passes};
ghost use Rattle.recipe.specs.declared.text.refusal.RecipeRefusal.TheVariants.{NotMadeYet as NotYet};
ghost use Rattle.recipe.specs.Lookups as spec;
ghost use Rattle.recipe.specs.Lookups.{IsIndex};
ghost use Rattle.recipe.specs.SecondWalk.{check_refers, checks_source, compare_refers, has_source, input_refers, is_content, is_stage, program_has_source, refers_to_source, second_walk, source_refers, stage_refers, stage_refers_after};

use crate::comparison::{COMPARE, stages_key};
use crate::contents::RecipeContents;
use crate::lookups::{content_of, content_source, input_at, source_named, stage_at};
use crate::parts::{Content, Input, Source, SourceLanguage, Stage, StageFile};
use crate::text::{Key, Place, RecipeRefusal, Table};
use ddc_base::Name;

/// Checks that every name refers to something that exists by then.
#[tactic(auto, unfolding(crate::specs::SecondWalk::second_walk))]
pub(crate) fn second_walk(parsed: &RecipeContents) -> Result<(), RecipeRefusal>
    requires inputs { length parsed.now.inputs ≤ 256 }
    requires sources { length parsed.now.sources ≤ 256 }
    requires stages { length parsed.now.stages ≤ 256 }
    ensures refers { Gives (λ x. x) result (second_walk parsed.now) }
    ensures memory { NeverWants result }
{
    inputs_refer(parsed, parsed.inputs.as_slice())?;
    sources_refer(parsed, parsed.sources.as_slice())?;
    stages_refer(parsed, parsed.stages.as_slice())?;
    compare_refers(parsed)?;
    programs_have_sources(parsed, parsed.stages.as_slice())
}

/// Checks the inputs' `implements`.
fn inputs_refer(parsed: &RecipeContents, inputs: &[Input]) -> Result<(), RecipeRefusal>
    requires { length inputs.now < 2 ^ 32 - 1 }
    ensures refers { Gives (λ x. x) result (each_passes (input_refers parsed.now) 1 inputs.now) }
    ensures memory { NeverWants result }
{
    let mut number = 1u32;
    for input in inputs {
        input_refers(parsed, number, input)?;
        number += 1;
    }
    Ok(())
}

fn input_refers(parsed: &RecipeContents, number: u32, input: &Input) -> Result<(), RecipeRefusal>
    ensures refers { Gives (λ x. x) result (input_refers parsed.now number input.now) }
    ensures memory { NeverWants result }
{
    let place = Place {
        table: Table::Input,
        number,
    };
    refers_to_source(
        parsed.sources.as_slice(),
        place,
        Key::Implements,
        &input.implements,
    )
}

/// Checks that a source with the name exists, if there is a name.
fn refers_to_source(
    sources: &[Source],
    place: Place,
    key: Key,
    name: &Option<Name>,
) -> Result<(), RecipeRefusal>
    ensures refers { Gives (λ x. x) result (refers_to_source sources.now place key name.now) }
    ensures memory { NeverWants result }
{
    match name {
        Some(name) => made_by_now(source_named(sources, name).is_some(), place, key),
        None => Ok(()),
    }
}

/// Refuses a name that stands for nothing that exists by then.
fn made_by_now(made: bool, place: Place, key: Key) -> Result<(), RecipeRefusal>
    ensures refers { Gives (λ x. x) result (error_unless (NotYet place key) made) }
    ensures memory { NeverWants result }
{
    if made {
        Ok(())
    } else {
        Err(RecipeRefusal::NotMadeYet(place, key))
    }
}

/// Checks the sources' files.
fn sources_refer(parsed: &RecipeContents, sources: &[Source]) -> Result<(), RecipeRefusal>
    requires { length sources.now < 2 ^ 32 - 1 }
    ensures refers { Gives (λ x. x) result (each_passes (source_refers parsed.now) 1 sources.now) }
    ensures memory { NeverWants result }
{
    let mut number = 1u32;
    for source in sources {
        source_refers(parsed, number, source)?;
        number += 1;
    }
    Ok(())
}

fn source_refers(parsed: &RecipeContents, number: u32, source: &Source) -> Result<(), RecipeRefusal>
    ensures refers { Gives (λ x. x) result (source_refers parsed.now number source.now) }
    ensures memory { NeverWants result }
{
    let place = Place {
        table: Table::Source,
        number,
    };
    let made = are_contents(
        parsed.inputs.as_slice(),
        parsed.stages.as_slice(),
        source.files.as_slice(),
    );
    made_by_now(made, place, Key::Files)
}

/// Whether each name stands for one of these inputs or for the artefact of one of these stages.
fn are_contents(inputs: &[Input], stages: &[Stage], names: &[Name]) -> bool
    ensures { result ≡ list_all (is_content inputs.now stages.now) names.now }
{
    names.iter().all(|name| is_content(inputs, stages, name))
}

/// Whether a name stands for one of these inputs or for the artefact of one of these stages.
fn is_content(inputs: &[Input], stages: &[Stage], name: &Name) -> bool
    ensures { result ≡ is_content inputs.now stages.now name.now }
{
    content_of(inputs, stages, name).is_some()
}

/// Checks the stages' programs, files, checks and what they become.
fn stages_refer(parsed: &RecipeContents, stages: &[Stage]) -> Result<(), RecipeRefusal>
    requires few { length stages.now < 2 ^ 32 - 1 }
    requires same { stages.now ≡ parsed.now.stages }
    ensures refers { Gives (λ x. x) result (each_passes (stage_refers parsed.now) 1 stages.now) }
    ensures memory { NeverWants result }
{
    let mut number = 1u32;
    for stage in stages {
        stage_refers(parsed, number, stage)?;
        number += 1;
    }
    Ok(())
}

fn stage_refers(parsed: &RecipeContents, number: u32, stage: &Stage) -> Result<(), RecipeRefusal>
    requires from_one { 1 ≤ number }
    requires within { number ≤ length parsed.now.stages }
    ensures refers { Gives (λ x. x) result (stage_refers parsed.now number stage.now) }
    ensures memory { NeverWants result }
{
    let place = Place {
        table: Table::Stage,
        number,
    };
    let earlier = &parsed.stages.as_slice()[..number as usize - 1];
    stage_refers_after(parsed, earlier, place, stage)
}

/// Checks a stage that follows these earlier ones.
#[tactic(auto, unfolding(crate::specs::SecondWalk::stage_refers_after))]
fn stage_refers_after(
    parsed: &RecipeContents,
    earlier: &[Stage],
    place: Place,
    stage: &Stage,
) -> Result<(), RecipeRefusal>
    ensures refers { Gives (λ x. x) result (stage_refers_after parsed.now earlier.now place stage.now) }
    ensures memory { NeverWants result }
{
    let inputs = parsed.inputs.as_slice();
    made_by_now(
        is_content(inputs, earlier, &stage.program),
        place,
        Key::Program,
    )?;
    made_by_now(
        are_made(inputs, earlier, stage.files.as_slice()),
        place,
        Key::Files,
    )?;
    check_refers(parsed, earlier, place, &stage.check)?;
    refers_to_source(
        parsed.sources.as_slice(),
        place,
        Key::Becomes,
        &stage.becomes,
    )
}

/// Whether the content of each file is one of these inputs or the artefact of one of these stages.
fn are_made(inputs: &[Input], stages: &[Stage], files: &[StageFile]) -> bool
    ensures { result ≡ list_all (λ file. is_content inputs.now stages.now file.from) files.now }
{
    files
        .iter()
        .all(|file| is_content(inputs, stages, &file.from))
}

/// Checks that a stage may be checked against its source, if it names one.
#[tactic(auto, unfolding(crate::specs::SecondWalk::check_refers))]
fn check_refers(
    parsed: &RecipeContents,
    earlier: &[Stage],
    place: Place,
    check: &Option<Name>,
) -> Result<(), RecipeRefusal>
    ensures refers { Gives (λ x. x) result (check_refers parsed.now earlier.now place check.now) }
    ensures memory { NeverWants result }
{
    match check {
        Some(name) => named_source_checks(parsed, earlier, place, name),
        None => Ok(()),
    }
}

fn named_source_checks(
    parsed: &RecipeContents,
    earlier: &[Stage],
    place: Place,
    name: &Name,
) -> Result<(), RecipeRefusal>
    ensures refers { Gives (λ x. x) result (checks_source parsed.now earlier.now place (spec.source_named parsed.now.sources name.now)) }
    ensures memory { NeverWants result }
{
    match source_named(parsed.sources.as_slice(), name) {
        Some(source) => source_checks(parsed, earlier, place, source),
        None => Err(RecipeRefusal::NotMadeYet(place, Key::Check)),
    }
}

/// Checks that a source's files exist before the stage, and that its language has a definition.
fn source_checks(
    parsed: &RecipeContents,
    earlier: &[Stage],
    place: Place,
    source: &Source,
) -> Result<(), RecipeRefusal>
    ensures refers { Gives (λ x. x) result (checks_source parsed.now earlier.now place (Some source.now)) }
    ensures memory { NeverWants result }
{
    if !are_contents(parsed.inputs.as_slice(), earlier, source.files.as_slice()) {
        return Err(RecipeRefusal::NotMadeYet(place, Key::Check));
    }
    match source.lang {
        SourceLanguage::Defined(_) => Ok(()),
        SourceLanguage::Other => Err(RecipeRefusal::BadName(place, Key::Check)),
    }
}

/// Checks the names that are compared.
#[tactic(auto, unfolding(crate::specs::SecondWalk::compare_refers))]
fn compare_refers(parsed: &RecipeContents) -> Result<(), RecipeRefusal>
    ensures refers { Gives (λ x. x) result (compare_refers parsed.now) }
    ensures memory { NeverWants result }
{
    let there = are_stages(parsed.stages.as_slice(), parsed.compare.stages.as_slice());
    made_by_now(there, COMPARE, stages_key(parsed.format))?;
    let binary = input_at(parsed.inputs.as_slice(), &parsed.compare.binary);
    made_by_now(binary.is_some(), COMPARE, Key::Binary)
}

/// Whether each name is that of a stage.
fn are_stages(stages: &[Stage], names: &[Name]) -> bool
    ensures { result ≡ list_all (is_stage stages.now) names.now }
{
    names.iter().all(|name| is_stage(stages, name))
}

/// Whether a stage has the name.
fn is_stage(stages: &[Stage], name: &Name) -> bool
    ensures { result ≡ is_stage stages.now name.now }
{
    stage_at(stages, name).is_some()
}

/// Checks that the program of each unchecked stage has a source.
fn programs_have_sources(parsed: &RecipeContents, stages: &[Stage]) -> Result<(), RecipeRefusal>
    requires few { length stages.now < 2 ^ 32 - 1 }
    requires few_inputs { length parsed.now.inputs ≤ 256 }
    requires few_stages { length parsed.now.stages ≤ 256 }
    ensures refers { Gives (λ x. x) result (each_passes (program_has_source parsed.now) 1 stages.now) }
    ensures memory { NeverWants result }
{
    let mut number = 1u32;
    for stage in stages {
        program_has_source(parsed, number, stage)?;
        number += 1;
    }
    Ok(())
}

fn program_has_source(
    parsed: &RecipeContents,
    number: u32,
    stage: &Stage,
) -> Result<(), RecipeRefusal>
    requires few_inputs { length parsed.now.inputs ≤ 256 }
    requires few_stages { length parsed.now.stages ≤ 256 }
    ensures refers { Gives (λ x. x) result (program_has_source parsed.now number stage.now) }
    ensures memory { NeverWants result }
{
    match &stage.check {
        Some(_) => Ok(()),
        None => named_has_source(parsed, &stage.program),
    }
}

fn named_has_source(parsed: &RecipeContents, program: &Name) -> Result<(), RecipeRefusal>
    requires few_inputs { length parsed.now.inputs ≤ 256 }
    requires few_stages { length parsed.now.stages ≤ 256 }
    ensures refers { Gives (λ x. x) result (has_source parsed.now (spec.content_named parsed.now.inputs parsed.now.stages program.now)) }
    ensures memory { NeverWants result }
{
    match content_of(parsed.inputs.as_slice(), parsed.stages.as_slice(), program) {
        Some(content) => has_source(parsed, content),
        None => Ok(()),
    }
}

/// Refuses a program without a source, at the key where its source would be.
fn has_source(parsed: &RecipeContents, content: Content) -> Result<(), RecipeRefusal>
    requires index { IsIndex parsed.now.inputs parsed.now.stages content }
    requires few_inputs { length parsed.now.inputs ≤ 256 }
    requires few_stages { length parsed.now.stages ≤ 256 }
    ensures refers { Gives (λ x. x) result (has_source parsed.now (Some content)) }
    ensures memory { NeverWants result }
{
    if content_source(parsed, content).is_some() {
        return Ok(());
    }
    match content {
        Content::Input(index) => Err(RecipeRefusal::Missing(
            Place {
                table: Table::Input,
                number: index as u32 + 1,
            },
            Key::Implements,
        )),
        Content::Stage(index) => Err(RecipeRefusal::Missing(
            Place {
                table: Table::Stage,
                number: index as u32 + 1,
            },
            Key::Becomes,
        )),
    }
}
