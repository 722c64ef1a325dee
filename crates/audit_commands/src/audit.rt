//! `audit RECIPE REPORT`: runs the stages of a recipe and saves the report.

ghost use Rattle.std.specs.Prelude.{◌≡◌, map, IfOk};
ghost use Rattle.report.specs.Reports.{IsReport};
ghost use Rattle.audit_rules.specs.Valid.{IsAuditAnswer};
ghost use Rattle.command_plan.specs.Performs.{Performs};
ghost use Rattle.recipe_plan.specs.Reports.{compared_status};
ghost use Rattle.recipe_plan.specs.Texts.{compared_lines};
ghost use Rattle.audit_commands.specs.Audit.{audited, audit_plan, completed};

use audit_run::run_bench;
use command_plan::{Answer, FileName, Stop, keep, usage};
use ddc_base::{OutOfMemory, Shelf};
use recipe::Recipe;
use recipe_plan::texts::compared_lines;
use recipe_plan::{AuditWords, apart, compared_status, fetch_inputs, fetch_recipe, unfinished};
use report::{CompareLine, Report};
use std::alloc::Global;

/// `audit RECIPE REPORT`: runs the stages of a recipe and saves the report. Statuses 0, 2, 3, 4, 6, 7, 10 to 13.
pub fn perform<S: Shelf>(alloc: Global, shelf: &mut S, words: &[&str]) -> Result<Answer, Stop>
    ensures { Performs (audit_plan (map (λ w. w.now) words.now)) (S.state shelf.old) (S.state shelf.new) result }
{
    let Some(words) = AuditWords::read(words) else {
        return usage(alloc);
    };
    let recipe = fetch_recipe(alloc, shelf, &words.recipe)?;
    apart(alloc, &recipe, &words.report)?;
    let inputs = fetch_inputs(alloc, shelf, &recipe)?;
    let answer = run_bench(alloc, &recipe, inputs.as_slice())?;
    tell(alloc, shelf, &recipe, &answer, &words.report)
}

/// Saves the report of a finished audit, or answers which stage is not done. Errors: a fault of the file store (`Shelf`), out of memory.
pub fn tell<S: Shelf>(
    alloc: Global,
    shelf: &mut S,
    recipe: &Recipe,
    answer: &audit_rules::AuditAnswer,
    report: &FileName<'_>,
) -> Result<Answer, Stop>
    requires { IsAuditAnswer answer.now }
    ensures { Performs (audited recipe.now report.now answer.now) (S.state shelf.old) (S.state shelf.new) result }
{
    match answer {
        audit_rules::AuditAnswer::Completes(made) => keep_report(alloc, shelf, made, report),
        audit_rules::AuditAnswer::Fails(stage, fault) => unfinished(alloc, recipe, *stage, *fault),
    }
}

/// Saves a report, and answers with its comparisons.
#[tactic(auto, using(command_plan::proofs::Performing::saving), unfolding(crate::specs::Audit::completed))]
fn keep_report<S: Shelf>(
    alloc: Global,
    shelf: &mut S,
    made: &Report,
    report: &FileName<'_>,
) -> Result<Answer, Stop>
    requires { IsReport made.now }
    ensures { Performs (completed report.now made.now) (S.state shelf.old) (S.state shelf.new) result }
{
    let text = report::write(alloc, made)?;
    let answer = compared(alloc, made.compare.as_slice())?;
    keep(alloc, shelf, report, text.as_slice(), answer)
}

/// The answer with these comparisons. Error: out of memory.
pub fn compared(alloc: Global, lines: &[CompareLine]) -> Result<Answer, OutOfMemory>
    ensures status { IfOk result (λ answer. answer.status ≡ compared_status lines.now) }
    ensures text { IfOk result (λ answer. answer.text ≡ compared_lines lines.now) }
{
    Ok(Answer {
        status: compared_status(lines),
        text: compared_lines(alloc, lines)?,
    })
}
