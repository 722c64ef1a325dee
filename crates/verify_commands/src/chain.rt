//! `chain LIST`: verifies the audits of a list, and prints the assumptions that are left of all of them.

ghost use Rattle.std.specs.Prelude.{◌≡◌, ◌+◌, ◌++◌, ◌-◌, ◌<◌, ◌≤◌, ◌^◌, [], length, map};
ghost use Rattle.ddc_base.specs.Outside.{ShelfState};
ghost use Rattle.ddc_base.specs.Limits.{most_audits, most_inputs};
ghost use Rattle.verifier.specs.Faults.{first_fault};
ghost use Rattle.audit_rules.specs.Valid.{IsInputs};
ghost use Rattle.command_plan.specs.declared.status.Status.TheVariants.{Differs, Refuted};
ghost use Rattle.command_plan.specs.Performs.{Performs};
ghost use Rattle.command_plan.specs.Plan.{answers};
ghost use Rattle.command_plan.specs.Steps.{Obtains, Says};
ghost use Rattle.recipe_plan.specs.Texts.{compared_lines};
ghost use Rattle.verify_commands.specs.Chain.{chain_files, chain_plan, chained, chained_lines, needs_audit, needs_true, needs_two_files, budget_after};
ghost use Rattle.verify_commands.specs.Inside.Ends.{EndsWith};
ghost use Rattle.verify_commands.specs.Texts.{refuted_line};

use crate::pair::Pair;
use crate::{chain_texts, texts};
use audit_chain::{ChainLinks, Link};
use command_plan::lists::{self, fetch_list};
use command_plan::words::is_one_file;
use command_plan::{Answer, FileName, Status, Stop, usage};
use ddc_base::limits::{MOST_AUDITS, MOST_INPUTS};
use ddc_base::{Bytes, Shelf};
use recipe::{Inputs, Recipe};
use recipe_plan::texts::{after, compared_lines};
use recipe_plan::{apart, fetch_inputs_within, fetch_recipe_after, fetch_report_after};
use report::{CompareLine, Report};
use std::alloc::Global;
use verifier::{Part, Verdict};

/// `chain LIST`: verifies the audits that LIST names. Statuses 0 to 5, 10, 11, 13, 16.
#[tactic(auto, using(command_plan::proofs::Performing::performing))]
pub fn perform<S: Shelf>(alloc: Global, shelf: &mut S, words: &[&str]) -> Result<Answer, Stop>
    ensures { Performs (chain_plan (map (λ w. w.now) words.now)) (S.state shelf.old) (S.state shelf.new) result }
{
    let [list] = words else {
        return usage(alloc);
    };
    let Some(list) = FileName::read(list) else {
        return usage(alloc);
    };
    chain(alloc, shelf, &list)
}

/// Loads a list, and verifies the audits of its lines.
fn chain<S: Shelf>(alloc: Global, shelf: &mut S, list: &FileName<'_>) -> Result<Answer, Stop>
    ensures { Performs (chain_files list.now) (S.state shelf.old) (S.state shelf.new) result }
{
    let pairs = fetch_list::<Pair, S>(alloc, shelf, list, MOST_AUDITS)?;
    verify_lines(alloc, shelf, pairs.as_slice())
}

/// Verifies the audits of a list's lines; answers with 16 where there is no line.
#[tactic(auto, unfolding(crate::specs::Chain::chained_lines))]
fn verify_lines<S: Shelf>(alloc: Global, shelf: &mut S, pairs: &[Pair]) -> Result<Answer, Stop>
    requires { length pairs.now ≤ most_audits }
    ensures { Performs (chained_lines pairs.now) (S.state shelf.old) (S.state shelf.new) result }
{
    match pairs {
        [] => lists::refused(alloc, 1),
        [_, ..] => verify_each(alloc, shelf, pairs),
    }
}

/// Verifies these audits in order.
fn verify_each<S: Shelf>(alloc: Global, shelf: &mut S, pairs: &[Pair]) -> Result<Answer, Stop>
    requires { length pairs.now ≤ most_audits }
    ensures { Performs (chained [] most_inputs pairs.now) (S.state shelf.old) (S.state shelf.new) result }
{
    let mut links = ChainLinks::new(alloc);
    let mut budget = MOST_INPUTS;
    for (index, pair) in pairs.iter().enumerate() {
        let link = verify_audit(alloc, shelf, index as u32 + 1, budget, pair)?;
        budget = budget_after(budget, link.inputs.as_slice());
        links.push(link)?;
    }
    all_true(alloc, &links)
}

/// The answer where all audits are true and their comparisons are equal.
fn all_true(alloc: Global, links: &ChainLinks) -> Result<Answer, Stop>
    requires { length links.now < 2 ^ 32 }
    ensures { Says (chained links.now 0 []) result }
{
    Ok(Answer {
        status: Status::Yes,
        text: chain_texts::verified(alloc, links)?,
    })
}

/// The number of bytes that are left for the inputs of later audits.
fn budget_after(budget: u64, inputs: &[Bytes]) -> u64
    ensures { result ≡ budget_after budget inputs.now }
{
    let mut remaining = budget;
    for input in inputs {
        remaining = remaining.saturating_sub(input.len() as u64);
    }
    remaining
}

/// Verifies the audit of this number, whose inputs may have `budget` bytes together. Stops where `verify` would not return 0.
fn verify_audit<S: Shelf>(
    alloc: Global,
    shelf: &mut S,
    number: u32,
    budget: u64,
    pair: &Pair,
) -> Result<Link, Stop>
    ensures { Obtains (needs_audit number budget pair.now) (S.state shelf.old) (S.state shelf.new) result }
{
    two_files(alloc, pair)?;
    let prefix = chain_texts::audit(alloc, number)?;
    let recipe = fetch_recipe_after(alloc, shelf, &pair.recipe.name(), prefix.as_slice())?;
    apart(alloc, &recipe, &pair.report.name())?;
    let report = fetch_report_after(alloc, shelf, &pair.report.name(), prefix.as_slice())?;
    let inputs = fetch_inputs_within(alloc, shelf, &recipe, budget)?;
    judge(alloc, prefix.as_slice(), &recipe, &inputs, &report)?;
    Ok(Link { recipe, inputs })
}

/// Stops with a usage answer where both words of a line name the same file.
#[tactic(auto, unfolding(crate::specs::Chain::needs_two_files))]
fn two_files(alloc: Global, pair: &Pair) -> Result<(), Stop>
    ensures { (shelf : ShelfState) → Obtains (needs_two_files pair.now) shelf shelf result }
{
    if is_one_file(pair.recipe.as_str(), pair.report.as_str()) {
        return Err(Stop::Answered(usage(alloc)?));
    }
    Ok(())
}

/// Replays the report of an audit. Stops with 1 where it is not true, and with 3 where a comparison is not equal.
fn judge(
    alloc: Global,
    prefix: &[u8],
    recipe: &Recipe,
    inputs: &Inputs,
    report: &Report,
) -> Result<(), Stop>
    requires { IsInputs recipe.now inputs.now }
    ensures { (shelf : ShelfState) → Obtains (needs_true prefix.now report.now.compare (first_fault recipe.now inputs.now report.now)) shelf shelf result }
{
    match verifier::verify(alloc, recipe, inputs, report) {
        Verdict::Yes => Ok(()),
        Verdict::TrueButDiffers => answered(differs(alloc, prefix, report.compare.as_slice())),
        Verdict::Refuted { part, place } => answered(refuted(alloc, prefix, part, place)),
        Verdict::OutOfMemory { .. } => Err(Stop::OutOfMemory),
    }
}

/// Stops the command with this answer.
fn answered(answer: Result<Answer, Stop>) -> Result<(), Stop>
    ensures { EndsWith answer result }
{
    match answer {
        Ok(answer) => Err(Stop::Answered(answer)),
        Err(ending) => Err(ending),
    }
}

/// The answer to a true report with a comparison that is not equal.
fn differs(alloc: Global, prefix: &[u8], lines: &[CompareLine]) -> Result<Answer, Stop>
    ensures { Says (answers Differs (prefix.now ++ compared_lines lines.now)) result }
{
    let lines = compared_lines(alloc, lines)?;
    Ok(Answer {
        status: Status::Differs,
        text: after(alloc, prefix, lines.as_slice())?,
    })
}

/// The answer to a false report: its first part that is false, and the place of that part.
fn refuted(alloc: Global, prefix: &[u8], part: Part, place: u32) -> Result<Answer, Stop>
    ensures { Says (answers Refuted (prefix.now ++ refuted_line part place)) result }
{
    let line = texts::refuted(alloc, part, place)?;
    Ok(Answer {
        status: Status::Refuted,
        text: after(alloc, prefix, line.as_slice())?,
    })
}
