//! Audits of a recipe and its inputs that are kept as a save and a delta.

ghost use Rattle.std.specs.Prelude.{◌≤◌};
ghost use Rattle.audit_run.specs.Delta.Deltas.{IsBaseAt};
ghost use Rattle.audit_run.specs.Saved.{IsOn};
ghost use Rattle.audit_rules.specs.Positions.{Position};
ghost use Rattle.audit_rules.specs.Valid.{IsInputs};

use audit_run::{Audit, DeltaRefusal, Progress};
use ddc_base::{Bytes, OutOfMemory};
use recipe::{Inputs, Recipe};
use std::alloc::Global;
use std::mem::drop;

/// The delta of an audit after so many steps more, against a save of it.
fn delta_after(audit: &mut Audit, base: &[u8], more: u64) -> Result<Bytes, OutOfMemory>
    requires some { 1 ≤ more }
    requires base { (b : Position) × IsBaseAt audit.old.recipe audit.old.inputs b base.now }
{
    match audit.advance(more) {
        Progress::Paused => audit.save_delta_of(base),
        _ => Err(OutOfMemory),
    }
}

/// The delta of the audit that a base says, after so many steps more.
pub fn delta_from(
    alloc: Global,
    recipe: Recipe,
    inputs: Inputs,
    base: &[u8],
    more: u64,
) -> Result<Bytes, OutOfMemory>
    requires given { IsInputs recipe inputs }
    requires some { 1 ≤ more }
{
    match Audit::resume(alloc, recipe, inputs, base) {
        Ok(mut audit) => {
            let text = delta_after(&mut audit, base, more);
            drop(audit);
            text
        }
        Err(_) => Err(OutOfMemory),
    }
}

/// The save of an audit.
fn save_of(audit: &Audit) -> Result<Bytes, DeltaRefusal>
    requires { IsOn audit.now.current }
{
    Ok(audit.save()?)
}

/// The save of the audit that a base and a delta say.
pub fn save_relative(
    alloc: Global,
    recipe: Recipe,
    inputs: Inputs,
    base: &[u8],
    delta: &[u8],
) -> Result<Bytes, DeltaRefusal>
    requires { IsInputs recipe inputs }
{
    match Audit::resume_delta(alloc, recipe, inputs, base, delta) {
        Ok(audit) => {
            let text = save_of(&audit);
            drop(audit);
            text
        }
        Err(why) => Err(why),
    }
}

/// The delta of the audit that a save says against itself.
pub fn delta_of_none(
    alloc: Global,
    recipe: Recipe,
    inputs: Inputs,
    save: &[u8],
) -> Result<Bytes, OutOfMemory>
    requires given { IsInputs recipe inputs }
{
    match Audit::resume(alloc, recipe, inputs, save) {
        Ok(audit) => {
            let text = audit.save_delta(&audit);
            drop(audit);
            text
        }
        Err(_) => Err(OutOfMemory),
    }
}
