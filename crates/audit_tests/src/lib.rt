//! Tests of audits that go on in pieces, of a recipe whose two stages take 32 steps each.
#![tactic(auto)]

ghost use Rattle.std.specs.Prelude.{◌≡◌, ◌≤◌, ◌<◌, ◌-◌};

pub mod meanings;
#[cfg(test)]
mod pieces;
pub mod saves;

/// The place of such an audit after so many steps: the stage's number, and the steps in it; (0, 0) where the audit is over.
pub fn place_after(steps: u64) -> (u32, u64)
    ensures first { steps < 32 → result ≡ (1, steps) }
    ensures second { 32 ≤ steps → steps < 64 → result ≡ (2, steps - 32) }
    ensures over { 64 ≤ steps → result ≡ (0, 0) }
{
    if steps < 32 {
        (1, steps)
    } else if steps < 64 {
        (2, steps - 32)
    } else {
        (0, 0)
    }
}
