//! `verify RECIPE REPORT` and `provenance RECIPE REPORT`: judge a report by a replay. They differ only in the text for a true report.

ghost use Rattle.std.specs.Prelude.{◌≡◌, IfOk, map};
ghost use Rattle.audit_rules.specs.Valid.{IsInputs};
ghost use Rattle.command_plan.specs.declared.status.Status.TheVariants.{Refuted};
ghost use Rattle.command_plan.specs.Performs.{Performs};
ghost use Rattle.command_plan.specs.Plan.{answers};
ghost use Rattle.command_plan.specs.Steps.{Says};
ghost use Rattle.recipe_plan.specs.Reports.{compared_status};
ghost use Rattle.verify_commands.specs.Verify.{explained, judge_plan, judged_by};
ghost use Rattle.verify_commands.specs.Provenance.{provenance_text};
ghost use Rattle.verify_commands.specs.Texts.{refuted_line};

use crate::explanation::Explanation;
use crate::{provenance_texts, texts};
use audit_chain::origin::Replayed;
use command_plan::{Answer, Status, Stop, usage};
use ddc_base::{Bytes, OutOfMemory, Shelf};
use recipe::{Inputs, Recipe};
use recipe_plan::{AuditWords, apart, compared_status, fetch_inputs, fetch_recipe, fetch_report};
use report::Report;
use std::alloc::Global;
use verifier::{Part, Verdict};
use wheeler::Meaning;

/// `verify RECIPE REPORT` and `provenance RECIPE REPORT`: replays the report. Statuses 0 to 5, 10, 11, 13. It does the same under every
/// meaning of sources.
pub fn perform<M: Meaning, S: Shelf>(
    alloc: Global,
    shelf: &mut S,
    explanation: Explanation,
    words: &[&str],
) -> Result<Answer, Stop>
    ensures { Performs (judge_plan explanation (map (λ w. w.now) words.now)) (S.state shelf.old) (S.state shelf.new) result }
{
    let Some(words) = AuditWords::read(words) else {
        return usage(alloc);
    };
    let recipe = fetch_recipe(alloc, shelf, &words.recipe)?;
    apart(alloc, &recipe, &words.report)?;
    let report = fetch_report(alloc, shelf, &words.report)?;
    let inputs = fetch_inputs(alloc, shelf, &recipe)?;
    answer::<M>(alloc, explanation, &recipe, &inputs, &report)
}

/// Replays the report and answers whether it is true.
fn answer<M: Meaning>(
    alloc: Global,
    explanation: Explanation,
    recipe: &Recipe,
    inputs: &Inputs,
    report: &Report,
) -> Result<Answer, Stop>
    requires { IsInputs recipe.now inputs.now }
    ensures { Says (judged_by explanation recipe.now inputs.now report.now) result }
{
    match verifier::conclusion::verify::<M>(alloc, recipe, inputs, report) {
        Verdict::Yes => accepted(alloc, explanation, recipe, inputs, report),
        Verdict::TrueButDiffers => accepted(alloc, explanation, recipe, inputs, report),
        Verdict::Refuted { part, place } => refuted(alloc, part, place),
        Verdict::OutOfMemory { .. } => Err(Stop::OutOfMemory),
    }
}

/// The answer to a true report: 0 where all comparisons are equal, 3 otherwise.
fn accepted(
    alloc: Global,
    explanation: Explanation,
    recipe: &Recipe,
    inputs: &Inputs,
    report: &Report,
) -> Result<Answer, Stop>
    ensures { Says (answers (compared_status report.now.compare) (explained explanation recipe.now inputs.now report.now)) result }
{
    Ok(Answer {
        status: compared_status(report.compare.as_slice()),
        text: explain(alloc, explanation, recipe, inputs, report)?,
    })
}

/// The text for a true report.
fn explain(
    alloc: Global,
    explanation: Explanation,
    recipe: &Recipe,
    inputs: &Inputs,
    report: &Report,
) -> Result<Bytes, OutOfMemory>
    ensures { IfOk result (λ text. text ≡ explained explanation recipe.now inputs.now report.now) }
{
    match explanation {
        Explanation::Assumptions => texts::accepted(alloc, recipe, report.compare.as_slice()),
        Explanation::Provenance => provenance(alloc, recipe, inputs, report),
    }
}

/// The dependencies of each compared artefact, for a report that is true.
fn provenance(
    alloc: Global,
    recipe: &Recipe,
    inputs: &Inputs,
    report: &Report,
) -> Result<Bytes, OutOfMemory>
    ensures { IfOk result (λ text. text ≡ provenance_text recipe.now inputs.now report.now) }
{
    let inputs = inputs.as_slice();
    provenance_texts::accepted(
        alloc,
        &Replayed {
            recipe,
            inputs,
            report,
        },
    )
}

/// The answer to a false report: its first part that is false, and the place of that part.
fn refuted(alloc: Global, part: Part, place: u32) -> Result<Answer, Stop>
    ensures { Says (answers Refuted (refuted_line part place)) result }
{
    Ok(Answer {
        status: Status::Refuted,
        text: texts::refuted(alloc, part, place)?,
    })
}
