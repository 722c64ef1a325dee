//! `where LANG SOURCE NUMBER PLACE`: the line, the column and the word of a refusal of a source.

ghost use Rattle.std.specs.Prelude.{◌≡◌, ◌<◌, ◌≤◌, ◌^◌, IfOk, None, Some, drop, length, map, take};
ghost use Rattle.ddc_base.specs.Decimals.{as_decimal};
ghost use Rattle.command_plan.specs.declared.status.Status.TheVariants.{Refuted};
ghost use Rattle.command_plan.specs.Performs.{Performs};
ghost use Rattle.command_plan.specs.Plan.{answers};
ghost use Rattle.command_plan.specs.Steps.{Says};
ghost use Rattle.tool_commands.specs.Offsets.{leading_word, spot_after};
ghost use Rattle.tool_commands.specs.Where.{linked_offset, located, no_place_line, offset_in, refusal_offset, spot_line, where_plan, where_words, within_numbers};

use crate::offsets::{leading_word, offset_of_item, spot_after};
use crate::shown_words::shown_word;
use command_plan::{Answer, FileName, Status, Stop, fetch_file, usage};
use ddc_base::languages::Language;
use ddc_base::{Bytes, OutOfMemory, Shelf, read_decimal};
use hex_langs::items::Dialect;
use std::alloc::Global;

/// A refusal of a source, by its number and its place.
#[derive(Drop)]
pub(crate) struct WhereWords<'w> {
    pub language: Language,
    pub source: FileName<'w>,
    /// From 1 to 7.
    pub number: u64,
    pub place: u64,
}

impl<'w> WhereWords<'w> {
    /// The words `LANG SOURCE NUMBER PLACE`, and `None` for every other.
    #[tactic(auto, unfolding(crate::specs::Where::where_words))]
    fn read(words: &[&'w str]) -> Option<WhereWords<'w>>
        ensures { result ≡ where_words (map (λ w. w.now) words.now) }
    {
        let [language, source, number, place] = words else {
            return None;
        };
        let language = Language::named(language.as_bytes())?;
        let source = FileName::read(source)?;
        let number = number_of(number)?;
        let place = read_decimal(place.as_bytes())?;
        Some(WhereWords {
            language,
            source,
            number,
            place,
        })
    }
}

/// The number of a refusal.
fn number_of(word: &str) -> Option<u64>
    ensures { result ≡ within_numbers (as_decimal word.now) }
{
    let number = read_decimal(word.as_bytes())?;
    if 1 <= number && number <= 7 {
        Some(number)
    } else {
        None
    }
}

/// `where LANG SOURCE NUMBER PLACE`: prints the line, column and word at which a refusal of `asm` stands. Statuses 0, 1, 2, 10, 11, 13.
pub fn perform<S: Shelf>(alloc: Global, shelf: &mut S, words: &[&str]) -> Result<Answer, Stop>
    ensures { Performs (where_plan (map (λ w. w.now) words.now)) (S.state shelf.old) (S.state shelf.new) result }
{
    let Some(words) = WhereWords::read(words) else {
        return usage(alloc);
    };
    let text = fetch_file(alloc, shelf, &words.source)?;
    say(alloc, &words, text.as_slice())
}

/// The line, the column and the word of a refusal in a text.
fn say(alloc: Global, words: &WhereWords<'_>, text: &[u8]) -> Result<Answer, Stop>
    requires { length text.now ≤ 2 ^ 32 }
    ensures { Says (located text.now (refusal_offset words.now.language text.now words.now.number words.now.place)) result }
{
    match refusal_offset(alloc, words, text)? {
        Some(at) => say_at(alloc, text, at),
        None => no_place(alloc),
    }
}

/// The number of the refusal of a text that is too long, which stands at no place.
const TOO_LONG: u64 = 7;

/// The offset of the refusal.
fn refusal_offset(
    alloc: Global,
    words: &WhereWords<'_>,
    text: &[u8],
) -> Result<Option<usize>, OutOfMemory>
    ensures { IfOk result (λ offset. offset ≡ refusal_offset words.now.language text.now words.now.number words.now.place) }
{
    if words.number == TOO_LONG {
        return Ok(None);
    }
    offset_in(alloc, words, text)
}

/// The offset of a refusal of a number up to 6.
fn offset_in(
    alloc: Global,
    words: &WhereWords<'_>,
    text: &[u8],
) -> Result<Option<usize>, OutOfMemory>
    ensures { IfOk result (λ offset. offset ≡ offset_in words.now.language text.now words.now.number words.now.place) }
{
    match words.language {
        Language::Hex1 => linked_offset(alloc, Dialect::Hex1, words, text),
        Language::Hex2 => linked_offset(alloc, Dialect::Hex2, words, text),
        Language::Hex0 | Language::M1 => Ok(Some(words.place as usize)),
    }
}

/// The offset of a refusal of a source that is linked.
fn linked_offset(
    alloc: Global,
    dialect: Dialect,
    words: &WhereWords<'_>,
    text: &[u8],
) -> Result<Option<usize>, OutOfMemory>
    ensures { IfOk result (λ offset. offset ≡ linked_offset dialect text.now words.now.number words.now.place) }
{
    if 4 <= words.number && words.number <= 6 {
        offset_of_item(alloc, dialect, text, words.place)
    } else {
        Ok(Some(words.place as usize))
    }
}

/// The answer at an offset, which may lie after the text.
fn say_at(alloc: Global, text: &[u8], at: usize) -> Result<Answer, Stop>
    requires { length text.now ≤ 2 ^ 32 }
    ensures { Says (located text.now (Some at)) result }
{
    if at < text.len() {
        at_offset(alloc, text, at)
    } else {
        no_place(alloc)
    }
}

/// The answer where there is such a place.
fn at_offset(alloc: Global, text: &[u8], at: usize) -> Result<Answer, Stop>
    requires within { at < length text.now }
    requires few { length text.now ≤ 2 ^ 32 }
    ensures { Says (located text.now (Some at)) result }
{
    Ok(Answer {
        status: Status::Yes,
        text: line_of(alloc, text, at)?,
    })
}

/// The line, the column and the word at an offset, the word as it is shown.
#[tactic(auto, using(crate::proofs::Listing::listings), unfolding(crate::specs::Where::spot_line))]
fn line_of(alloc: Global, text: &[u8], at: usize) -> Result<Bytes, OutOfMemory>
    requires within { at < length text.now }
    requires few { length text.now ≤ 2 ^ 32 }
    ensures { IfOk result (λ made. made ≡ spot_line (spot_after (take at text.now)) (leading_word (drop at text.now))) }
{
    let spot = spot_after(&text[..at]);
    let (line, column) = (spot.line, spot.column);
    let mut made = Bytes::from_vec(format!(in alloc;
        "line {line} column {column} word "
    )?.into_bytes());
    let word = shown_word(alloc, leading_word(&text[at..]))?;
    made.extend(word.as_slice())?;
    made.push(b'\n')?;
    Ok(made)
}

/// The answer where a refusal has no place in the text.
#[tactic(auto, unfolding(crate::specs::Where::no_place_line))]
fn no_place(alloc: Global) -> Result<Answer, Stop>
    ensures { Says (answers Refuted no_place_line) result }
{
    Ok(Answer {
        status: Status::Refuted,
        text: Bytes::from_slice(alloc, b"no place\n")?,
    })
}
