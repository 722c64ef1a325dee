//! Tests of the crates of the guest's memory and machine, through what they make public.
#![tactic(auto)]

ghost use Rattle.std.specs.Prelude.{◌≡◌, ◌*◌, ◌^◌, ◌<◌};

#[cfg(test)]
mod atomics;
#[cfg(test)]
mod instructions;
#[cfg(test)]
mod machine;
#[cfg(test)]
mod memory;
#[cfg(test)]
mod steps;
#[cfg(test)]
mod words;

/// The address of a page.
pub fn page_address(number: u64) -> u64
    requires { number < 2 ^ 26 }
    ensures { result ≡ 4096 * number }
{
    number * 4096
}
