//! Typed words: the name of a file, names of distinct files, and a number of steps.

ghost use Rattle.std.specs.Prelude.{◌≡◌, ◌≤◌, IsTrue};
ghost use Rattle.ddc_base.specs.Outside.{IsFileName};
ghost use Rattle.ddc_base.specs.Limits.{most_steps};
ghost use Rattle.command_plan.specs.Words.{as_file_name, as_four_files, as_steps, as_three_files, as_two_files, is_file_word};

use crate::words::{are_four_files, are_three_files, are_two_files, is_file_word, steps_of};
use std::marker::Model;

/// The name of a file: 1 to 255 bytes, none of them zero. Contracts see these bytes.
#[derive(Drop)]
pub struct FileName<'w> {
    text: &'w str,
}

impl<'w> Model for FileName<'w> {
    ghost use Rattle.std.specs.Prelude.{List, ℕ, IsTrue};
    ghost use Rattle.command_plan.specs.Words.{is_file_word};

    ghost Value = { List ℕ };

    ghost view = { λ name. name.text.now };

    ghost invariant = { λ name. IsTrue (is_file_word name.text.now) };
}

impl<'w> FileName<'w> {
    /// The word as a file name; `None` if it is not one.
    pub fn read(word: &'w str) -> Option<FileName<'w>>
        ensures { result ≡ as_file_name word.now }
    {
        if is_file_word(word) {
            Some(FileName { text: word })
        } else {
            None
        }
    }

    /// A text that is known to be a file name.
    pub fn of(text: &'w str) -> FileName<'w>
        requires { IsTrue (is_file_word text.now) }
        ensures { result ≡ text.now }
    {
        FileName { text }
    }

    /// The word by which a file store (`Shelf`) loads and saves.
    pub fn text(&self) -> &'w str
        ensures value { result.now ≡ self.now }
        ensures word { IsTrue (is_file_word self.now) }
        ensures name { IsFileName self.now }
    {
        self.text
    }
}

/// Both words as file names; `None` if either is invalid or both name one file.
pub fn two_files<'w>(first: &'w str, second: &'w str) -> Option<(FileName<'w>, FileName<'w>)>
    ensures { result ≡ as_two_files first.now second.now }
{
    if are_two_files(first, second) {
        Some((FileName { text: first }, FileName { text: second }))
    } else {
        None
    }
}

/// Three words as file names; `None` if one is invalid or two name one file.
pub fn three_files<'w>(
    first: &'w str,
    second: &'w str,
    third: &'w str,
) -> Option<(FileName<'w>, FileName<'w>, FileName<'w>)>
    ensures { result ≡ as_three_files first.now second.now third.now }
{
    if are_three_files(first, second, third) {
        Some((
            FileName { text: first },
            FileName { text: second },
            FileName { text: third },
        ))
    } else {
        None
    }
}

/// Four words as file names; `None` if one is invalid or two name one file.
#[tactic(auto, unfolding(crate::specs::Words::are_four_files))]
pub fn four_files<'w>(
    first: &'w str,
    second: &'w str,
    third: &'w str,
    fourth: &'w str,
) -> Option<(FileName<'w>, FileName<'w>, FileName<'w>, FileName<'w>)>
    ensures { result ≡ as_four_files first.now second.now third.now fourth.now }
{
    if are_four_files(first, second, third, fourth) {
        Some((
            FileName { text: first },
            FileName { text: second },
            FileName { text: third },
            FileName { text: fourth },
        ))
    } else {
        None
    }
}

/// A number of steps, from 1 to 2^48, both included. Contracts see this number.
#[derive(Clone, Copy)]
pub struct StepCount {
    count: u64,
}

impl Model for StepCount {
    ghost use Rattle.std.specs.Prelude.{ℕ, ◌≤◌};
    ghost use Rattle.ddc_base.specs.Limits.{most_steps};

    ghost Value = { ℕ };

    ghost view = { λ steps. steps.count };

    ghost invariant = { λ steps. (1 ≤ steps.count) × (steps.count ≤ most_steps) };

    ghost inverse = { λ count. record { count = count } };
}

impl StepCount {
    /// The word as a number of steps; `None` if it is not one.
    pub fn read(word: &str) -> Option<StepCount>
        ensures { result ≡ as_steps word.now }
    {
        let count = steps_of(word)?;
        Some(StepCount { count })
    }

    /// The number of steps.
    pub fn count(self) -> u64
        ensures value { result ≡ self }
        ensures some { 1 ≤ self }
        ensures most { self ≤ most_steps }
    {
        self.count
    }
}
