ghost use Rattle.verifier.specs.Conclusion.Verdicts.{Shows};
ghost use Rattle.verifier.specs.Faults.{first_fault};
ghost use Rattle.verifier.specs.Verdicts.{IsReplaying, Judges, OnWant};
ghost use Rattle.audit_rules.specs.Valid.{IsInputs};

use crate::Verdict;
use crate::conclusion::laws::a_true_report_shows;
use recipe::{Inputs, Recipe};
use report::Report;
use std::alloc::Global;
use wheeler::Meaning;

/// Replays a report, with the verdict of `verifier::verify`, and proves what a true report shows under every meaning of sources.
///
/// If every assumption of `wheeler::assumptions` holds, every stage follows. For each compared stage, let every assumption of
/// `wheeler::assumptions_for` hold; those of other routes are not used. If artefact and binary are equal, the parent source prescribes
/// exactly the audited binary. If they differ, no program that makes the audited binary implements the parent source.
/// docs/reference/argument.md explains the terms.
pub fn verify<M: Meaning>(
    alloc: Global,
    recipe: &Recipe,
    inputs: &Inputs,
    report: &Report,
) -> Verdict
    requires { IsInputs recipe.now inputs.now }
    ensures value { Judges (first_fault recipe.now inputs.now report.now) report.now.compare result }
    ensures memory { OnWant result (IsReplaying recipe.now inputs.now report.now) }
    ensures shown { Shows M.prescribes M.compiles recipe.now inputs.now report.now.compare result }
{
    a_true_report_shows::<M>();
    recipe.show_rules();
    crate::verify(alloc, recipe, inputs, report)
}
