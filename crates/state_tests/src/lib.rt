//! Tests of states and saves: their parts, and their texts. A crate of their own, so that none of the crates below is proved twice
//! for its tests.
#![tactic(auto)]

pub mod parts;
pub mod texts;
