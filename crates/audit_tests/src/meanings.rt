//! Tests of Wheeler's argument: tables of recipes with their assumptions, written from docs/reference/argument.md.

ghost use Rattle.std.specs.Prelude.{◌≡◌, ◌++◌, IfOk, codes, string_bytes};

use ddc_base::OutOfMemory;
use std::alloc::Global;

#[cfg(test)]
mod lines;
#[cfg(test)]
mod recipes;
#[cfg(test)]
mod routes;
#[cfg(test)]
mod semantics;

/// A recipe with these stages after its other tables.
pub fn with_stages(alloc: Global, leading: &str, stages: &str) -> Result<String, OutOfMemory>
    ensures { IfOk result (λ text. string_bytes text ≡ leading.now ++ (codes "stage = [" ++ (stages.now ++ codes "]\n"))) }
{
    Ok(format!(in alloc; "{leading}stage = [{stages}]\n")?)
}
