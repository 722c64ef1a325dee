//! The verdict on a report: its parts in order, up to the first that is not true.

ghost use Rattle.mem_files.specs.Outputs.{IsContent};
ghost use Rattle.recipe.specs.Kept.{IsRecipe};
ghost use Rattle.std.specs.Option.{option_map};
ghost use Rattle.std.specs.Prelude.{◌≡◌, ◌+◌, ◌<◌, ◌≤◌, ◌^◌, length, All};
ghost use Rattle.verifier.specs.Faults.{compare_fault, first_fault, inputs_fault, is_at, line_place, says, wrong_line};
ghost use Rattle.verifier.specs.Inside.Holdings.{so_far};
ghost use Rattle.verifier.specs.Inside.Replays.{Replays};
ghost use Rattle.verifier.specs.Verdicts.{IsReplaying, Judges, OnWant, verdict_of};
ghost use Rattle.verifier.specs.declared.part.Part.TheVariants as part;
ghost use Rattle.audit_rules.specs.Valid.{IsInputs};

use crate::header::is_header;
use crate::held::Held;
use crate::part::{Part, Verdict};
use crate::replay::{ReportedStage, replay};
use crate::stop::JudgingStop;
use audit_rules::all_equal;
use ddc_base::{Bytes, ListOf, OutOfMemory, first_difference};
use recipe::{Inputs, Recipe, Stage};
use report::{CompareLine, Compared, InputLine, Report, StageLine};
use std::alloc::Global;

/// Replays a report and returns the verdict on it. Nothing in the report is trusted.
///
/// `Refuted` names the first part that is not true, judged on the bytes that the earlier runs left. `Yes`: the report is true and each
/// comparison is equal. `TrueButDiffers`: the report is true and some comparison differs.
///
/// `OutOfMemory` occurs only at a stage, and the header, the inputs and all stages before it are right. For its run, the recorded step is
/// from 1 to the limit and the program can be loaded. For its check, the run and what it left are as recorded.
///
/// Requires as many inputs as the recipe has, each at most 268,435,456 bytes. docs/reference/verify.md has the rules.
pub fn verify(alloc: Global, recipe: &Recipe, inputs: &Inputs, report: &Report) -> Verdict
    requires { IsInputs recipe.now inputs.now }
    ensures value { Judges (first_fault recipe.now inputs.now report.now) report.now.compare result }
    ensures memory { OnWant result (IsReplaying recipe.now inputs.now report.now) }
{
    judge(alloc, recipe, inputs.as_slice(), report)
}

/// The verdict on a report, with borrowed inputs.
#[tactic(auto, unfolding(crate::specs::Faults::first_fault))]
fn judge(alloc: Global, recipe: &Recipe, inputs: &[Bytes], report: &Report) -> Verdict
    requires { IsInputs recipe.now inputs.now }
    ensures value { Judges (first_fault recipe.now inputs.now report.now) report.now.compare result }
    ensures memory { OnWant result (IsReplaying recipe.now inputs.now report.now) }
{
    let stages = recipe.stages().as_slice();
    if !is_header(recipe, report) {
        return Verdict::Refuted {
            part: Part::Header,
            place: 0,
        };
    }
    if let Some(place) = wrong_input(1, inputs, report.inputs.as_slice()) {
        return Verdict::Refuted {
            part: Part::Input,
            place,
        };
    }
    match replay_all(alloc, recipe, stages, inputs, report.stages.as_slice()) {
        Ok(artefacts) => {
            let held = Held {
                recipe,
                inputs,
                artefacts: artefacts.as_slice(),
            };
            compared(&held, report.form, report.compare.as_slice())
        }
        Err(verdict) => verdict,
    }
}

/// The number of the first input that is not as its line says. `number` is that of the first of these inputs.
fn wrong_input(number: u32, inputs: &[Bytes], lines: &[InputLine]) -> Option<u32>
    requires { number + length inputs.now < 2 ^ 32 }
    ensures { inputs_fault number inputs.now lines.now ≡ option_map (λ place. (part.Input, place)) result }
{
    match inputs {
        [] => None,
        [bytes, inputs @ ..] => match lines {
            [] => None,
            [line, lines @ ..] => {
                if line.mark.is_of(bytes.as_slice()) {
                    wrong_input(number + 1, inputs, lines)
                } else {
                    Some(number)
                }
            }
        },
    }
}

/// The artefacts of all stages, each replayed with those before it; or the verdict that ends the replay.
fn replay_all(
    alloc: Global,
    recipe: &Recipe,
    stages: &[Stage],
    inputs: &[Bytes],
    lines: &[StageLine],
) -> Result<ListOf<Bytes>, Verdict>
    requires recipe { IsRecipe recipe.now }
    requires stages { stages.now ≡ recipe.now.stages }
    requires inputs { All IsContent inputs.now }
    ensures { Replays recipe.now inputs.now lines.now result }
{
    let mut artefacts = ListOf::new(alloc);
    let mut total = 0;
    for (index, line) in lines.iter().enumerate() {
        let Some(stage) = stages.get(index) else {
            return Ok(artefacts);
        };
        let number = index as u32 + 1;
        let held = Held {
            recipe,
            inputs,
            artefacts: artefacts.as_slice(),
        };
        let reported = ReportedStage { stage, line };
        match replay(alloc, &held, &reported, total) {
            Ok(made) => {
                total += made.len() as u64;
                match artefacts.push(made) {
                    Ok(()) => {}
                    Err(OutOfMemory) => {
                        return Err(Verdict::OutOfMemory {
                            stage: number,
                            part: Part::Assembled,
                        });
                    }
                }
            }
            Err(JudgingStop::Refuted(part)) => {
                return Err(Verdict::Refuted {
                    part,
                    place: number,
                });
            }
            Err(JudgingStop::OutOfMemory(part)) => {
                return Err(Verdict::OutOfMemory {
                    stage: number,
                    part,
                });
            }
        }
    }
    Ok(artefacts)
}

/// The verdict on a report whose other parts are all true.
fn compared(held: &Held<'_>, form: u32, lines: &[CompareLine]) -> Verdict
    requires { length lines.now ≤ 16 }
    ensures { result ≡ verdict_of (compare_fault held.now.recipe.now form lines.now (so_far held.now)) lines.now }
{
    if let Some(number) = wrong_line(held, 1, lines) {
        return Verdict::Refuted {
            part: Part::Compare,
            place: line_place(form, number),
        };
    }
    if all_equal(lines) {
        Verdict::Yes
    } else {
        Verdict::TrueButDiffers
    }
}

/// The number of the first compare line that is not true. `number` is that of the first of these lines.
fn wrong_line(held: &Held<'_>, number: u32, lines: &[CompareLine]) -> Option<u32>
    requires { number + length lines.now < 2 ^ 32 }
    ensures { result ≡ wrong_line held.now.recipe.now (so_far held.now) number lines.now }
{
    match lines {
        [] => None,
        [line, lines @ ..] => {
            if says(
                line.result,
                held.bytes(&line.stage),
                held.bytes(&line.binary),
            ) {
                wrong_line(held, number + 1, lines)
            } else {
                Some(number)
            }
        }
    }
}

/// The place of a compare line in a verdict: its number; 0 in form 1, which has one line.
fn line_place(form: u32, number: u32) -> u32
    ensures { result ≡ line_place form number }
{
    if form == 1 { 0 } else { number }
}

/// Whether a compare line is true of these bytes.
fn says(line: Compared, made: &[u8], binary: &[u8]) -> bool
    ensures { result ≡ says line made.now binary.now }
{
    match line {
        Compared::Equal(count) => made == binary && count == made.len() as u64,
        Compared::Differs(offset, ours, theirs) => {
            is_at(offset, first_difference(made, binary))
                && ours == made.len() as u64
                && theirs == binary.len() as u64
        }
    }
}

/// Whether the found offset is this one.
fn is_at(offset: u64, found: Option<u64>) -> bool
    ensures { result ≡ is_at offset found }
{
    match found {
        Some(found) => offset == found,
        None => false,
    }
}
