//! Running a whole audit.

ghost use Rattle.recipe.specs.Kept.{IsRecipe};
ghost use Rattle.std.specs.Prelude.{◌≡◌, IfOk};
ghost use Rattle.audit_rules.specs.Bench.{bench};
ghost use Rattle.audit_rules.specs.Valid.{IsAuditAnswer, IsInputs};

use crate::earlier::run_earlier;
use crate::stage::report_of;
use audit_rules::AuditAnswer;
use ddc_base::{Bytes, OutOfMemory};
use recipe::Recipe;
use std::alloc::Global;

/// The answer of the audit of a recipe and its inputs. Error: out of memory.
///
/// Between two stages only the results of the finished ones are kept: a stage's guest is dropped before the next one starts.
pub fn run_bench(
    alloc: Global,
    recipe: &Recipe,
    inputs: &[Bytes],
) -> Result<AuditAnswer, OutOfMemory>
    requires given { IsInputs recipe.now inputs.now }
    ensures answer { IfOk result (λ answer. answer ≡ bench recipe.now inputs.now) }
    ensures form { IfOk result IsAuditAnswer }
    ensures kept { IsRecipe recipe.now }
{
    let count = recipe.stages().as_slice().len();
    match run_earlier(alloc, recipe, inputs, count)? {
        Ok(done) => {
            let report = report_of(alloc, recipe, inputs, done.as_slice())?;
            Ok(AuditAnswer::Completes(report))
        }
        Err(not_done) => Ok(AuditAnswer::Fails(not_done.stage, not_done.fault)),
    }
}
