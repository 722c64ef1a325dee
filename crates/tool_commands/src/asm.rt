//! `asm LANG BASE SOURCE OUT`: saves the value of a source.

ghost use Rattle.std.specs.Prelude.{◌≡◌, ◌≤◌, IfOk, map};
ghost use Rattle.ddc_base.specs.Outside.{ShelfState};
ghost use Rattle.ddc_base.specs.Limits.{most_address};
ghost use Rattle.command_plan.specs.declared.status.Status.TheVariants.{CheckFailed};
ghost use Rattle.command_plan.specs.Performs.{Performs};
ghost use Rattle.command_plan.specs.Plan.{answers};
ghost use Rattle.command_plan.specs.Steps.{Obtains, Says};
ghost use Rattle.tool_commands.specs.Asm.{made_line, refused_line, needs_items, needs_made, needs_value, asm_plan};
ghost use Rattle.tool_commands.specs.Inside.Refusing.{Refuses, RefusesM1};

use crate::words::AsmWords;
use command_plan::{Answer, Status, Stop, fetch_file, keep, usage};
use ddc_base::languages::Language;
use ddc_base::{Bytes, OutOfMemory, Shelf};
use hex_langs::items::{HexRefusal, Items};
use hex_langs::link::{HexLanguage, value};
use m1_lang::{M1Refusal, expand, write_items};
use std::alloc::Global;

/// `asm LANG BASE SOURCE OUT`: saves under OUT the value of SOURCE. Statuses 0, 2, 7, 10, 11, 13.
pub fn perform<S: Shelf>(alloc: Global, shelf: &mut S, words: &[&str]) -> Result<Answer, Stop>
    ensures { Performs (asm_plan (map (λ w. w.now) words.now)) (S.state shelf.old) (S.state shelf.new) result }
{
    let Some(words) = AsmWords::read(words) else {
        return usage(alloc);
    };
    let text = fetch_file(alloc, shelf, &words.source)?;
    let made = make(alloc, words.language, words.base.address(), text.as_slice())?;
    let answer = Answer {
        status: Status::Yes,
        text: made_text(alloc, made.len())?,
    };
    keep(alloc, shelf, &words.out, made.as_slice(), answer)
}

/// The value of a source in a language at a base; in M1, the text of its items. Stops with 7 where the language refuses the source.
fn make(alloc: Global, language: Language, base: u64, source: &[u8]) -> Result<Bytes, Stop>
    requires { base ≤ most_address }
    ensures { (shelf : ShelfState) → Obtains (needs_made language base source.now) shelf shelf result }
{
    match language {
        Language::Hex0 => make_value(alloc, HexLanguage::Hex0, base, source),
        Language::Hex1 => make_value(alloc, HexLanguage::Hex1, base, source),
        Language::Hex2 => make_value(alloc, HexLanguage::Hex2, base, source),
        Language::M1 => make_items(alloc, source),
    }
}

/// The value of a hex0, hex1 or hex2 source at a base. Stops with 7 where the language refuses the source.
fn make_value(alloc: Global, language: HexLanguage, base: u64, source: &[u8]) -> Result<Bytes, Stop>
    requires { base ≤ most_address }
    ensures { (shelf : ShelfState) → Obtains (needs_value language base source.now) shelf shelf result }
{
    match value(alloc, language, base, source) {
        Ok(bytes) => Ok(bytes),
        Err(refusal) => Err(Stop::Answered(refuse(alloc, refusal)?)),
    }
}

/// The text of the items that an M1 source expands to. Stops with 7 where M1 refuses the source.
fn make_items(alloc: Global, source: &[u8]) -> Result<Bytes, Stop>
    ensures { (shelf : ShelfState) → Obtains (needs_items source.now) shelf shelf result }
{
    match expand(alloc, source) {
        Ok(items) => Ok(write_items(alloc, &items)?),
        Err(refusal) => Err(Stop::Answered(refuse_m1(alloc, refusal)?)),
    }
}

/// The answer to a refused hex0, hex1 or hex2 source. Error: out of memory, also where that was the refusal.
fn refuse(alloc: Global, refusal: HexRefusal) -> Result<Answer, Stop>
    ensures { Refuses refusal result }
{
    match refusal {
        HexRefusal::OutOfMemory => Err(Stop::OutOfMemory),
        refusal => refused(alloc, refusal.number(), refusal.place()),
    }
}

/// The answer to a refused M1 source. Error: out of memory, also where that was the refusal.
fn refuse_m1(alloc: Global, refusal: M1Refusal) -> Result<Answer, Stop>
    ensures { RefusesM1 refusal result }
{
    match refusal {
        M1Refusal::OutOfMemory => Err(Stop::OutOfMemory),
        refusal => refused(alloc, refusal.number(), refusal.place()),
    }
}

/// The answer to a refused source: status 7, the refusal's number and its place. Error: out of memory.
fn refused(alloc: Global, number: u8, place: u64) -> Result<Answer, Stop>
    ensures { Says (answers CheckFailed (refused_line number place)) result }
{
    Ok(Answer {
        status: Status::CheckFailed,
        text: refused_text(alloc, number, place)?,
    })
}

/// The line of a saved value: `made SIZE`, in bytes.
#[tactic(auto, unfolding(crate::specs::Asm::made_line))]
fn made_text(alloc: Global, size: usize) -> Result<Bytes, OutOfMemory>
    ensures { IfOk result (λ text. text ≡ made_line size) }
{
    Ok(Bytes::from_vec(format!(in alloc; "made {size}\n")?.into_bytes()))
}

/// The line of a refused source: `refused NUMBER PLACE`.
#[tactic(auto, unfolding(crate::specs::Asm::refused_line))]
fn refused_text(alloc: Global, number: u8, place: u64) -> Result<Bytes, OutOfMemory>
    ensures { IfOk result (λ text. text ≡ refused_line number place) }
{
    Ok(Bytes::from_vec(format!(in alloc; "refused {number} {place}\n")?.into_bytes()))
}
