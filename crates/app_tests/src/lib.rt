//! Tests of the commands and of the top call, and a command that saves, by which the rules of saves are tried.
#![tactic(auto)]

#[cfg(test)]
mod accounts;
#[cfg(test)]
mod assumed;
#[cfg(test)]
mod audits;
#[cfg(test)]
mod causes;
#[cfg(test)]
mod chains;
pub mod copying;
#[cfg(test)]
mod delta_faults;
#[cfg(test)]
mod differences;
#[cfg(test)]
mod faults;
#[cfg(test)]
mod left_files;
#[cfg(test)]
mod pauses;
#[cfg(test)]
mod piece_faults;
#[cfg(test)]
mod pieces;
#[cfg(test)]
mod routes;
#[cfg(test)]
mod scenes;
#[cfg(test)]
mod script_calls;
#[cfg(test)]
mod script_left;
#[cfg(test)]
mod script_reports;
#[cfg(test)]
mod scripts;
#[cfg(test)]
mod sessions;
#[cfg(test)]
mod tests;
#[cfg(test)]
mod verifies;
#[cfg(test)]
mod worked;
