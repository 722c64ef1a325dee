//! What a test does with a file store and what the store holds then, one step in each row. A store's drop is proved at each exit of the
//! function that owns it, and again in each loop: one short function owns it, and hands it on.

use crate::audits::audit_shelf;
use crate::worked::run;
use ddc_app::Status;
use ddc_base::{Bytes, Call, MemShelf, MemSink, OutOfMemory};
use std::alloc::Global;
use std::process::Abort;

/// What is done with a file store, or asked of it.
#[derive(Clone, Copy)]
pub(crate) enum Step {
    /// Runs words, and compares their status and text.
    Run(&'static [&'static str], Status, &'static str),
    /// None of these lines of words is a command's.
    Usage(&'static [&'static [&'static str]]),
    /// Runs words, whose first put fails.
    Unheard(&'static [&'static str]),
    /// Sets the content of a name.
    Set(&'static str, &'static str),
    /// Has the load of this number fail.
    FailLoad(u64),
    /// Has the save of this number fail.
    FailSave(u64),
    /// A name holds this content.
    Holds(&'static str, &'static str),
    /// A name holds nothing.
    Absent(&'static str),
    /// So many calls were answered.
    Calls(usize),
    /// So many of them are saves.
    Saves(usize),
    /// These are all calls.
    Called(&'static [Wanted]),
}

/// A call by its name, and the limit of a load; a save has none.
pub(crate) type Wanted = (&'static str, Option<u64>);

/// Runs words, and compares their status and text.
pub(crate) fn says(
    rt: &impl Abort,
    alloc: Global,
    shelf: &mut MemShelf,
    words: &[&str],
    ending: (Status, &str),
) -> Result<(), OutOfMemory> {
    let mut out = MemSink::new(alloc);
    assert_eq!(rt; run(alloc, words, shelf, &mut out)?, ending.0, "{words:?}");
    assert_eq!(rt; out.written(), ending.1.as_bytes(), "{words:?}");
    Ok(())
}

/// Runs words, whose first put fails.
pub(crate) fn unheard(
    rt: &impl Abort,
    alloc: Global,
    shelf: &mut MemShelf,
    words: &[&str],
) -> Result<(), OutOfMemory> {
    let mut out = MemSink::new(alloc);
    out.fail_put(1)?;
    assert_eq!(rt;
        run(alloc, words, shelf, &mut out)?,
        Status::OutFault,
        "{words:?}"
    );
    Ok(())
}

/// Runs lines of words, none of which is a command's.
pub(crate) fn are_usage(
    rt: &impl Abort,
    alloc: Global,
    shelf: &mut MemShelf,
    lines: &[&[&str]],
) -> Result<(), OutOfMemory> {
    for words in lines {
        says(rt, alloc, shelf, words, (Status::Usage, "usage\n"))?;
    }
    Ok(())
}

/// Runs a command with further words, and compares its status and text.
pub(crate) fn says_of<'w>(
    rt: &impl Abort,
    alloc: Global,
    shelf: &mut MemShelf,
    command: &'w str,
    words: &[&'w str],
    ending: (Status, &str),
) -> Result<(), OutOfMemory> {
    let mut all = vec![in alloc; command]?;
    all.extend_from_slice(words)?;
    says(rt, alloc, shelf, &all, ending)
}

/// Runs a command with lines of further words, none of which is one of its own.
pub(crate) fn are_usage_of<'w>(
    rt: &impl Abort,
    alloc: Global,
    shelf: &mut MemShelf,
    command: &'w str,
    lines: &[&[&'w str]],
) -> Result<(), OutOfMemory> {
    for words in lines {
        says_of(rt, alloc, shelf, command, words, (Status::Usage, "usage\n"))?;
    }
    Ok(())
}

/// Runs words, and gives their status.
pub(crate) fn ends(
    alloc: Global,
    shelf: &mut MemShelf,
    words: &[&str],
) -> Result<Status, OutOfMemory> {
    let mut out = MemSink::new(alloc);
    run(alloc, words, shelf, &mut out)
}

/// Whether a name holds this content.
pub(crate) fn holds(shelf: &MemShelf, name: &str, content: &[u8]) -> bool {
    shelf.get(name) == Some(content)
}

/// The content of a name; nothing where it is not held.
pub(crate) fn content(alloc: Global, shelf: &MemShelf, name: &str) -> Result<Bytes, OutOfMemory> {
    Bytes::from_slice(alloc, shelf.get(name).unwrap_or(&[]))
}

/// Sets other bytes from an offset of a name's content on.
pub(crate) fn alter(
    alloc: Global,
    shelf: &mut MemShelf,
    name: &str,
    at: usize,
    bytes: &[u8],
) -> Result<(), OutOfMemory> {
    let text = shelf.get(name).unwrap_or(&[]);
    let mut new = Bytes::from_slice(alloc, text.get(..at).unwrap_or(text))?;
    new.extend(bytes)?;
    new.extend(text.get(at.saturating_add(bytes.len())..).unwrap_or(&[]))?;
    shelf.set(name, new.as_slice())
}

/// How many of the calls are saves.
pub(crate) fn saves(shelf: &MemShelf) -> usize {
    shelf.calls().iter().filter(|call| is_save(call)).count()
}

fn is_save(call: &Call) -> bool {
    match call {
        Call::Load { .. } => false,
        Call::Save { .. } => true,
    }
}

fn is_call(call: &Call, wanted: Wanted) -> bool {
    match call {
        Call::Load { name, limit } => {
            name.as_slice() == wanted.0.as_bytes() && Some(*limit) == wanted.1
        }
        Call::Save { name, .. } => name.as_slice() == wanted.0.as_bytes() && wanted.1.is_none(),
    }
}

/// Whether these are all calls, in order.
pub(crate) fn are_calls(calls: &[Call], wanted: &[Wanted]) -> bool {
    calls.len() == wanted.len()
        && calls
            .iter()
            .zip(wanted)
            .all(|(call, wanted)| is_call(call, *wanted))
}

/// Asks what a step says of a file store.
fn expects(rt: &impl Abort, shelf: &MemShelf, step: Step) {
    match step {
        Step::Holds(name, text) => assert!(rt; holds(shelf, name, text.as_bytes()), "{name}"),
        Step::Absent(name) => assert!(rt; shelf.get(name).is_none(), "{name}"),
        Step::Calls(count) => assert_eq!(rt; shelf.calls().len(), count),
        Step::Saves(count) => assert_eq!(rt; saves(shelf), count),
        Step::Called(wanted) => assert!(rt; are_calls(shelf.calls(), wanted)),
        _ => {}
    }
}

/// Takes steps one after the other.
pub(crate) fn walk(
    rt: &impl Abort,
    alloc: Global,
    shelf: &mut MemShelf,
    steps: &[Step],
) -> Result<(), OutOfMemory> {
    for step in steps {
        go(rt, alloc, shelf, *step)?;
    }
    Ok(())
}

fn go(rt: &impl Abort, alloc: Global, shelf: &mut MemShelf, step: Step) -> Result<(), OutOfMemory> {
    match step {
        Step::Run(words, status, text) => says(rt, alloc, shelf, words, (status, text)),
        Step::Usage(lines) => are_usage(rt, alloc, shelf, lines),
        Step::Unheard(words) => unheard(rt, alloc, shelf, words),
        Step::Set(name, text) => shelf.set(name, text.as_bytes()),
        Step::FailLoad(number) => shelf.fail_load(number),
        Step::FailSave(number) => shelf.fail_save(number),
        _ => {
            expects(rt, shelf, step);
            Ok(())
        }
    }
}

/// Takes steps over the worked files, whose recipe has a piece changed.
pub(crate) fn over(
    rt: &impl Abort,
    alloc: Global,
    (old, new): (&str, &str),
    steps: &[Step],
) -> Result<(), OutOfMemory> {
    let mut shelf = audit_shelf(alloc, old, new)?;
    walk(rt, alloc, &mut shelf, steps)
}

/// Takes steps over the worked files.
pub(crate) fn over_worked(
    rt: &impl Abort,
    alloc: Global,
    steps: &[Step],
) -> Result<(), OutOfMemory> {
    over(rt, alloc, ("", ""), steps)
}
