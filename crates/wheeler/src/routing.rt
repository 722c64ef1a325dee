//! The route of a stage.

ghost use Rattle.wheeler.specs.Routes.{unless_checked, route, route_from};
ghost use Rattle.std.specs.Prelude.{◌≡◌, ◌≤◌, IfOk, length};

use ddc_base::{ListOf, Name, OutOfMemory};
use recipe::{Recipe, Stage};
use std::alloc::Global;

/// The programs on which the conclusion about a stage depends, by the stage's number from 1: its own, that program's own if an unchecked
/// stage makes it, and so on. Empty if the stage is checked. Error: out of memory.
#[tactic(auto, unfolding(crate::specs::Routes::route))]
pub(crate) fn route(alloc: Global, recipe: &Recipe, stage: u32) -> Result<ListOf<Name>, OutOfMemory>
    requires some { 1 ≤ stage }
    requires there { stage ≤ length recipe.now.stages }
    ensures { IfOk result (λ names. names ≡ route recipe.now stage) }
{
    let stages = recipe.stages().as_slice();
    route_of(alloc, stages, &stages[stage as usize - 1])
}

/// The route of this stage.
fn route_of(alloc: Global, stages: &[Stage], stage: &Stage) -> Result<ListOf<Name>, OutOfMemory>
    ensures { IfOk result (λ names. names ≡ unless_checked stage.now.check (route_from stages.now (length stages.now) stage.now.program)) }
{
    match stage.check {
        Some(_) => Ok(ListOf::new(alloc)),
        None => route_from(alloc, stages, &stage.program),
    }
}

/// A program, and those after it on the route.
fn route_from(alloc: Global, stages: &[Stage], program: &Name) -> Result<ListOf<Name>, OutOfMemory>
    ensures { IfOk result (λ names. names ≡ route_from stages.now (length stages.now) program.now) }
{
    let mut names = ListOf::new(alloc);
    let mut program = program;
    let mut before = stages.len();
    while before > 0 {
        before -= 1;
        let stage = &stages[before];
        if stage.name == *program {
            names.push(program.copy())?;
            match stage.check {
                Some(_) => return Ok(names),
                None => program = &stage.program,
            }
        }
    }
    names.push(program.copy())?;
    Ok(names)
}
