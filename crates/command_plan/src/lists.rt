//! Files that are lists, one item a line.
//!
//! Their rules for people: docs/reference/command-line.md.

ghost use Rattle.std.specs.Prelude.{◌≡◌, ◌<◌, ◌≤◌, ◌∷◌, [], IfOk, IfSome, List, MatchOption, Ok, Option, length, ℕ};
ghost use Rattle.std.specs.List.{slice_split};
ghost use Rattle.ddc_base.specs.Outside.{ShelfState};
ghost use Rattle.command_plan.specs.declared.status.Status.TheVariants.{ListRefused};
ghost use Rattle.command_plan.specs.Lists.{IsListed, is_line_feed, list_of, needs_list};
ghost use Rattle.command_plan.specs.Plan.{answers, unless_refused};
ghost use Rattle.command_plan.specs.Steps.{Obtains, Says};
ghost use Rattle.command_plan.specs.Texts.{list_line};

use crate::answer::Answer;
use crate::fetching::fetch;
use crate::file_name::FileName;
use crate::status::Status;
use crate::stop::Stop;
use crate::texts;
use ddc_base::limits::MOST_LIST;
use ddc_base::{Bytes, ListOf, OutOfMemory, Shelf};
use std::alloc::Global;

/// An item of a list, read from a line.
pub trait Listed: Sized + Drop {
    // The item of a line, given the items of the lines before it.
    ghost form: { List Self → List ℕ → Option Self };

    /// The item of a line, after the earlier items; `None` if the line is invalid. Error: out of memory.
    fn read(alloc: Global, earlier: &[Self], line: &[u8]) -> Result<Option<Self>, OutOfMemory>
        ensures { IfOk result (λ item. item ≡ form earlier.now line.now) };
}

/// Loads and reads a list of at most `most` lines, each ended by LF. Errors: the first invalid line, those of `fetch`, out of memory.
pub fn fetch_list<T: Listed, S: Shelf>(
    alloc: Global,
    shelf: &mut S,
    file: &FileName<'_>,
    most: u32,
) -> Result<ListOf<T>, Stop>
    ensures obtained { Obtains (needs_list T.form most file.now) (S.state shelf.old) (S.state shelf.new) result }
    ensures few { IfOk result (λ items. length items ≤ most) }
    ensures listed { IfOk result (IsListed T.form most) }
{
    let text = fetch(alloc, shelf, file, MOST_LIST)?;
    read(alloc, text, most)
}

/// Reads a list and drops its text.
fn read<T: Listed>(alloc: Global, text: Bytes, most: u32) -> Result<ListOf<T>, Stop>
    ensures obtained { (shelf : ShelfState) → Obtains (unless_refused (list_of T.form most text) (λ number. answers ListRefused (list_line number)))
        shelf shelf result }
    ensures few { IfOk result (λ items. length items ≤ most) }
    ensures value { IfOk result (λ items. list_of T.form most text ≡ Ok items) }
{
    match read_lines::<T>(alloc, text.as_slice(), most)? {
        Ok(items) => Ok(items),
        Err(number) => Err(Stop::Answered(refused(alloc, number)?)),
    }
}

/// The answer to a file that is not a list: its first invalid line. Error: out of memory.
pub fn refused(alloc: Global, number: u64) -> Result<Answer, Stop>
    ensures { Says (answers ListRefused (list_line number)) result }
{
    Ok(Answer {
        status: Status::ListRefused,
        text: texts::list(alloc, number)?,
    })
}

/// The items of a text, or the number of the first invalid line, from 1. Error: out of memory.
#[tactic(auto, unfolding(crate::specs::Lists::list_of))]
pub fn read_lines<T: Listed>(
    alloc: Global,
    text: &[u8],
    most: u32,
) -> Result<Result<ListOf<T>, u64>, OutOfMemory>
    ensures value { IfOk result (λ read. read ≡ list_of T.form most text.now) }
    ensures few { IfOk result (λ read. IfOk read (λ items. length items ≤ most)) }
{
    let mut items = ListOf::new(alloc);
    let mut rest = text;
    while let Some((line, after)) = next_line(rest) {
        let number = items.len() as u64 + 1;
        if number > most as u64 {
            return Ok(Err(number));
        }
        match T::read(alloc, items.as_slice(), line)? {
            Some(item) => items.push(item)?,
            None => return Ok(Err(number)),
        }
        rest = after;
    }
    if rest.is_empty() {
        Ok(Ok(items))
    } else {
        Ok(Err(items.len() as u64 + 1))
    }
}

/// The first line of a text, and what follows its LF; `None` if there is no LF.
fn next_line(text: &[u8]) -> Option<(&[u8], &[u8])>
    ensures lines { MatchOption result (slice_split is_line_feed text.now ≡ text.now ∷ [])
        (λ cut. slice_split is_line_feed text.now ≡ cut.0.now ∷ slice_split is_line_feed cut.1.now) }
    ensures shorter { IfSome result (λ cut. length cut.1.now < length text.now) }
{
    for (at, byte) in text.iter().enumerate() {
        if *byte == b'\n' {
            return Some((&text[..at], &text[at + 1..]));
        }
    }
    None
}
