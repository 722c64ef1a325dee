//! What the commands on scripts load first: a script, a list of files, and these files.

ghost use Rattle.std.specs.Prelude.{◌≡◌, ◌≤◌, IfOk, OnOk, length, ℕ};
ghost use Rattle.std.specs.List.{list_any};
ghost use Rattle.ddc_base.specs.Outside.{ShelfState};
ghost use Rattle.ddc_base.specs.Limits.{most_files};
ghost use Rattle.kaem_script.specs.declared.refusal.ScriptFault.{ScriptFault as Fault};
ghost use Rattle.command_plan.specs.declared.status.Status.TheVariants.{ScriptRefused};
ghost use Rattle.command_plan.specs.Lists.{needs_list};
ghost use Rattle.command_plan.specs.Plan.{answers, unless_refused};
ghost use Rattle.command_plan.specs.Steps.{Obtains, Says};
ghost use Rattle.command_plan.specs.Words.{is_one_file};
ghost use Rattle.tool_commands.specs.Inside.Listing.{needs_unlisted_words};
ghost use Rattle.tool_commands.specs.Inside.Placing.{AreApart, IsPlaced};
ghost use Rattle.tool_commands.specs.Scripts.{and_file, file_line, needs_files, needs_script, needs_unlisted, script_of};
ghost use Rattle.tool_commands.specs.ScriptTexts.{script_line};

use crate::listed_file::FileLine;
use crate::script_texts;
use command_plan::lists::fetch_list;
use command_plan::words::is_one_file;
use command_plan::{Answer, FileName, Status, Stop, fetch, usage};
use ddc_base::limits::{MOST_CONTENT, MOST_FILES, MOST_SCRIPT, MOST_TOTAL};
use ddc_base::{Bytes, ListOf, OutOfMemory, Shelf};
use kaem_script::{FileList, Script, ScriptFault, ScriptRefusal};
use mem_files::PlaceRefusal;
use std::alloc::Global;

/// Fetches a script and reads it. Stops with 15 where the file is not a script.
pub(crate) fn fetch_script<S: Shelf>(
    alloc: Global,
    shelf: &mut S,
    file: &FileName<'_>,
) -> Result<Script, Stop>
    ensures { Obtains (needs_script file.now) (S.state shelf.old) (S.state shelf.new) result }
{
    let text = fetch(alloc, shelf, file, MOST_SCRIPT)?;
    read_script(alloc, text)
}

/// Reads a script, and does not keep its text. Stops with 15 where the text is not a script.
fn read_script(alloc: Global, text: Bytes) -> Result<Script, Stop>
    ensures { (shelf : ShelfState) → Obtains (unless_refused (script_of text) (λ (fault : Fault × ℕ). answers ScriptRefused (script_line fault.0 fault.1)))
        shelf shelf result }
{
    match kaem_script::read(alloc, text.as_slice()) {
        Ok(script) => Ok(script),
        Err(ScriptRefusal::At(fault, offset)) => {
            Err(Stop::Answered(script_refused(alloc, fault, offset)?))
        }
        Err(ScriptRefusal::OutOfMemory) => Err(Stop::OutOfMemory),
    }
}

/// The answer to a file that is not a script: its first fault, and the byte offset of the word.
fn script_refused(alloc: Global, fault: ScriptFault, offset: u64) -> Result<Answer, Stop>
    ensures { Says (answers ScriptRefused (script_line fault offset)) result }
{
    Ok(Answer {
        status: Status::ScriptRefused,
        text: script_texts::refused(alloc, fault, offset)?,
    })
}

/// Fetches a list of files. A usage answer where one of them is the file that is to be written.
pub(crate) fn fetch_unlisted<S: Shelf>(
    alloc: Global,
    shelf: &mut S,
    list: &FileName<'_>,
    report: &FileName<'_>,
) -> Result<ListOf<FileLine>, Stop>
    ensures obtained { Obtains (needs_unlisted_words list.now report.now) (S.state shelf.old) (S.state shelf.new) result }
    ensures few { IfOk result (λ words. length words ≤ most_files) }
    ensures apart { IfOk result AreApart }
{
    let words = fetch_words(alloc, shelf, list)?;
    unlisted(alloc, &words, report)?;
    Ok(words)
}

/// Fetches a list of files and reads it. Stops with 16 where the file is not a list.
fn fetch_words<S: Shelf>(
    alloc: Global,
    shelf: &mut S,
    list: &FileName<'_>,
) -> Result<ListOf<FileLine>, Stop>
    ensures obtained { Obtains (needs_list file_line most_files list.now) (S.state shelf.old) (S.state shelf.new) result }
    ensures few { IfOk result (λ words. length words ≤ most_files) }
    ensures apart { IfOk result AreApart }
{
    fetch_list::<FileLine, S>(alloc, shelf, list, MOST_FILES as u32)
}

/// Stops with a usage answer where a listed word names the file that is to be written.
#[tactic(auto, unfolding(crate::specs::Scripts::needs_unlisted))]
fn unlisted(alloc: Global, words: &ListOf<FileLine>, report: &FileName<'_>) -> Result<(), Stop>
    ensures { (shelf : ShelfState) → Obtains (needs_unlisted words.now report.now) shelf shelf result }
{
    if is_listed(words, report.text()) {
        return Err(Stop::Answered(usage(alloc)?));
    }
    Ok(())
}

/// Whether a listed word names this file.
fn is_listed(words: &ListOf<FileLine>, file: &str) -> bool
    ensures { result ≡ list_any (λ word. is_one_file word file.now) words.now }
{
    words
        .as_slice()
        .iter()
        .any(|word| is_one_file(word.as_str(), file))
}

/// Fetches the files that the listed words name, in order.
pub(crate) fn fetch_files<S: Shelf>(
    alloc: Global,
    shelf: &mut S,
    words: &ListOf<FileLine>,
) -> Result<FileList, Stop>
    requires apart { AreApart words.now }
    requires few { length words.now ≤ most_files }
    ensures { Obtains (needs_files words.now) (S.state shelf.old) (S.state shelf.new) result }
{
    fetch_each(alloc, shelf, words.as_slice())
}

/// Fetches the files that these words name, in order. While a file is added, its bytes are in memory twice.
fn fetch_each<S: Shelf>(alloc: Global, shelf: &mut S, words: &[FileLine]) -> Result<FileList, Stop>
    requires apart { AreApart words.now }
    requires few { length words.now ≤ most_files }
    ensures { Obtains (needs_files words.now) (S.state shelf.old) (S.state shelf.new) result }
{
    let mut files = FileList::new(alloc)?;
    let mut budget = MOST_TOTAL;
    for word in words {
        let content = fetch(alloc, shelf, &word.name(), MOST_CONTENT.min(budget))?;
        budget -= content.len() as u64;
        add(&mut files, word, content.as_slice())?;
    }
    Ok(files)
}

/// Adds a file that fits the limits.
fn add(files: &mut FileList, word: &FileLine, content: &[u8]) -> Result<(), OutOfMemory>
    requires { IsPlaced files.old word.now content.now }
    ensures { OnOk result (files.new ≡ and_file files.old word.now content.now) }
{
    match files.push(word.as_str().as_bytes(), content) {
        Ok(()) => Ok(()),
        Err(PlaceRefusal::OutOfMemory) => Err(OutOfMemory),
        Err(PlaceRefusal::BadName | PlaceRefusal::Twice | PlaceRefusal::Full) => unreachable!(),
    }
}
