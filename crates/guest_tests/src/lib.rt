//! Tests of the files, the calls, the loader, the runner, sessions and scripts, by their public calls alone: a crate of their own, so that none
//! of those crates is proved twice for its tests.
#![tactic(auto)]

ghost use Rattle.std.specs.Prelude.{◌≡◌, ◌+◌, ◌<◌};

#[cfg(test)]
mod calls;
#[cfg(test)]
mod exit_program;
#[cfg(test)]
mod files;
#[cfg(test)]
mod loader;
#[cfg(test)]
mod programs;
#[cfg(test)]
mod script_verdicts;
#[cfg(test)]
mod scripts;
#[cfg(test)]
mod sessions;

/// A letter of the names that the tests make, one for each number below 26.
pub fn letter(number: u8) -> u8
    requires { number < 26 }
    ensures { result ≡ 97 + number }
{
    b'a' + number
}
