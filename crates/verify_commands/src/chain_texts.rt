//! Texts of the command `chain`.

ghost use Rattle.audit_chain.specs.Chain.{remaining};
ghost use Rattle.std.specs.Prelude.{◌≡◌, ◌++◌, ◌<◌, ◌^◌, IfOk, OnOk, flat_map, length};
ghost use Rattle.verify_commands.specs.ChainTexts.{audit_line, chain_text, remaining_line, verified_line};

use crate::texts::put_claim;
use audit_chain::{ChainLine, ChainLinks, remaining};
use ddc_base::{Bytes, OutOfMemory};
use std::alloc::Global;

/// The line before what is printed of the audit of this number.
#[tactic(auto, unfolding(crate::specs::ChainTexts::audit_line))]
pub fn audit(alloc: Global, number: u32) -> Result<Bytes, OutOfMemory>
    ensures { IfOk result (λ text. text ≡ audit_line number) }
{
    Ok(Bytes::from_vec(format!(in alloc; "audit {number}\n")?.into_bytes()))
}

/// The text where all audits are true and equal: their number, and the assumptions that are left.
#[tactic(auto, unfolding(crate::specs::ChainTexts::chain_text))]
pub fn verified(alloc: Global, links: &ChainLinks) -> Result<Bytes, OutOfMemory>
    requires { length links.now < 2 ^ 32 }
    ensures { IfOk result (λ text. text ≡ chain_text links.now) }
{
    let lines = remaining(alloc, links)?;
    let mut text = count(alloc, links.len())?;
    put_remaining(alloc, &mut text, lines.as_slice())?;
    Ok(text)
}

/// The line with the number of true audits.
#[tactic(auto, unfolding(crate::specs::ChainTexts::verified_line))]
fn count(alloc: Global, count: usize) -> Result<Bytes, OutOfMemory>
    ensures { IfOk result (λ text. text ≡ verified_line count) }
{
    Ok(Bytes::from_vec(format!(in alloc; "chain {count} yes\n")?.into_bytes()))
}

/// Appends a line for each assumption that is left.
fn put_remaining(alloc: Global, text: &mut Bytes, lines: &[ChainLine]) -> Result<(), OutOfMemory>
    ensures { OnOk result (text.new ≡ text.old ++ flat_map remaining_line lines.now) }
{
    for line in lines {
        text.extend(remains(alloc, line)?.as_slice())?;
    }
    Ok(())
}

/// The line of an assumption about a program of an audit.
#[tactic(auto, using(crate::proofs::Claims::begun, crate::proofs::Written::written), unfolding(crate::specs::ChainTexts::remaining_line))]
fn remains(alloc: Global, remains: &ChainLine) -> Result<Bytes, OutOfMemory>
    ensures { IfOk result (λ text. text ≡ remaining_line remains.now) }
{
    let audit = remains.audit;
    let mut text = Bytes::from_vec(format!(in alloc; "assumes {audit} ")?.into_bytes());
    put_claim(&mut text, &remains.line)?;
    Ok(text)
}
