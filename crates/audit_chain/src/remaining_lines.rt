//! The assumptions that are left.

ghost use Rattle.audit_chain.specs.Chain.{is_struck, chain_line, remaining, unstruck};
ghost use Rattle.std.specs.Prelude.{◌≡◌, ◌+◌, ◌++◌, ◌∷◌, ◌<◌, ◌^◌, [], filter, length, map, not, IfOk, OnOk};

use crate::giving::is_struck;
use crate::link::{ChainLine, ChainLines, ChainLinks, Link};
use ddc_base::{ListOf, OutOfMemory};
use std::alloc::Global;
use wheeler::{Assumption, assumptions_with_compared};

/// The assumptions left of several audits: those of each, with its number from 1, that no earlier audit discharges. Error: out of memory.
///
/// An audit's assumptions are those of `wheeler::assumptions_with_compared`: each compared stage counts as the program of an unchecked
/// stage.
pub fn remaining(alloc: Global, links: &ChainLinks) -> Result<ChainLines, OutOfMemory>
    requires { length links.now < 2 ^ 32 }
    ensures { IfOk result (λ lines. lines ≡ remaining links.now) }
{
    remaining_of(alloc, links.as_slice())
}

/// The assumptions left of these audits, which are borrowed.
fn remaining_of(alloc: Global, links: &[Link]) -> Result<ChainLines, OutOfMemory>
    requires { length links.now < 2 ^ 32 }
    ensures { IfOk result (λ lines. lines ≡ remaining links.now) }
{
    let mut lines = ListOf::new(alloc);
    for (index, link) in links.iter().enumerate() {
        push_unstruck(alloc, &mut lines, &links[..index], link)?;
    }
    Ok(lines)
}

/// Adds the assumptions of an audit that no earlier one discharges.
#[tactic(auto, unfolding(crate::specs::Chain::unstruck))]
fn push_unstruck(
    alloc: Global,
    lines: &mut ChainLines,
    earlier: &[Link],
    link: &Link,
) -> Result<(), OutOfMemory>
    requires { length earlier.now + 1 < 2 ^ 32 }
    ensures { OnOk result (lines.new ≡ lines.old ++ unstruck earlier.now link.now) }
{
    let listed = assumptions_with_compared(alloc, &link.recipe)?;
    push_each(lines, earlier, link, listed.as_slice())
}

/// Adds those of these assumptions that no earlier audit discharges.
fn push_each(
    lines: &mut ChainLines,
    earlier: &[Link],
    link: &Link,
    listed: &[Assumption],
) -> Result<(), OutOfMemory>
    requires { length earlier.now + 1 < 2 ^ 32 }
    ensures { OnOk result (lines.new ≡ lines.old
        ++ map (chain_line (length earlier.now + 1)) (filter (λ line. not (is_struck earlier.now link.now line)) listed.now)) }
{
    for line in listed {
        push_line(lines, earlier, link, line)?;
    }
    Ok(())
}

/// Adds an assumption, unless an earlier audit discharges it.
fn push_line(
    lines: &mut ChainLines,
    earlier: &[Link],
    link: &Link,
    line: &Assumption,
) -> Result<(), OutOfMemory>
    requires { length earlier.now + 1 < 2 ^ 32 }
    ensures { OnOk result (lines.new ≡ lines.old
        ++ map (chain_line (length earlier.now + 1)) (filter (λ line. not (is_struck earlier.now link.now line)) (line.now ∷ []))) }
{
    if is_struck(earlier, link, line) {
        return Ok(());
    }
    lines.push(ChainLine {
        audit: earlier.len() as u32 + 1,
        line: copy_line(line),
    })
}

/// A copy of an assumption.
pub(crate) fn copy_line(line: &Assumption) -> Assumption
    ensures { result ≡ line.now }
{
    match line {
        Assumption::Implements { made, source } => Assumption::Implements {
            made: made.copy(),
            source: source.copy(),
        },
        Assumption::Compiles {
            source,
            stage,
            becomes,
        } => Assumption::Compiles {
            source: source.copy(),
            stage: stage.copy(),
            becomes: becomes.copy(),
        },
    }
}
