//! A good recipe with every key, texts made of it, and what the reader answers, in words.

use ddc_base::OutOfMemory;
use recipe::{RecipeRefusal, read};
use std::alloc::Global;

pub(crate) const GOOD: &str = r#"format = 1
[[input]]
name = "prog"
path = "copy.elf"
implements = "copy_src"
[[input]]
name = "text"
path = "copy.hex0"
[[input]]
name = "bin"
path = "b.bin"
[[source]]
name = "copy_src"
lang = "hex0"
base = 65536
files = ["text"]
[[source]]
name = "rest_src"
lang = "other"
files = ["text", "one"]
[[stage]]
name = "one"
program = "prog"
args = ["copy"]
env = ["A=1"]
files = [{ path = "in", from = "prog" }]
output = "out"
steps = 100000
heap = 4096
check = "copy_src"
[[stage]]
name = "two"
program = "one"
args = ["first"]
output = "-"
steps = 5
becomes = "rest_src"
[[stage]]
name = "three"
program = "two"
args = ["second"]
output = "./-"
steps = 6
[compare]
stage = "three"
binary = "bin"
"#;

/// The example of docs/reference/recipe.md.
pub(crate) const EXAMPLE: &str = r#"format = 1
[[input]]
name = "prog"
path = "copy.elf"
[[input]]
name = "text"
path = "copy.hex0"
[[input]]
name = "src"
path = "a.bin"
[[input]]
name = "bin"
path = "b.bin"
[[source]]
name = "copy_src"
lang = "hex0"
files = ["text"]
[[stage]]
name = "one"
program = "prog"
args = ["copy"]
files = [{ path = "in", from = "prog" }]
output = "out"
steps = 100000
check = "copy_src"
[[stage]]
name = "two"
program = "one"
args = ["copy"]
files = [{ path = "in", from = "src" }]
output = "out"
steps = 100000
[compare]
stage = "two"
binary = "bin"
"#;

/// A text with its first occurrence of `old` replaced. Without an occurrence the result is not a recipe.
pub(crate) fn with(alloc: Global, text: &str, old: &str, new: &str) -> Result<String, OutOfMemory> {
    match text.split_once(old) {
        Some((before, after)) => Ok(format!(in alloc; "{before}{new}{after}")?),
        None => Ok(format!(in alloc; "nothing to change: {old}")?),
    }
}

/// What is changed, and into what.
pub(crate) type Change = (&'static str, &'static str);

/// Why a text is refused, if it is.
fn refusal(alloc: Global, text: &[u8]) -> Option<RecipeRefusal> {
    read(alloc, text).err()
}

/// Whether the reader answers this: `accepted`, or the refusal's number, table, item and key.
pub(crate) fn answers(alloc: Global, text: &[u8], wanted: &str) -> Result<bool, OutOfMemory> {
    match refusal(alloc, text) {
        None => Ok(wanted == "accepted"),
        Some(refusal) => is_shown(alloc, refusal, wanted),
    }
}

fn is_shown(alloc: Global, refusal: RecipeRefusal, wanted: &str) -> Result<bool, OutOfMemory> {
    let shown = shown(alloc, refusal)?;
    Ok(shown.as_str() == wanted)
}

fn shown(alloc: Global, refusal: RecipeRefusal) -> Result<String, OutOfMemory> {
    let number = refusal.number();
    match (refusal.place(), refusal.key()) {
        (Some(place), Some(key)) => Ok(format!(in alloc;
            "{number} {} {} {key}",
            place.table, place.number
        )?),
        (Some(place), None) => Ok(format!(in alloc; "{number} {} {}", place.table, place.number)?),
        _ => Ok(format!(in alloc; "{number}")?),
    }
}

/// Whether the reader answers this to a text with one change.
pub(crate) fn answers_once(
    alloc: Global,
    text: &str,
    (old, new): (&str, &str),
    wanted: &str,
) -> Result<bool, OutOfMemory> {
    let once = with(alloc, text, old, new)?;
    answers(alloc, once.as_bytes(), wanted)
}

/// Whether the reader answers this to a text with two changes, one after the other.
pub(crate) fn answers_twice(
    alloc: Global,
    text: &str,
    (old, new): (&str, &str),
    second: (&str, &str),
    wanted: &str,
) -> Result<bool, OutOfMemory> {
    let once = with(alloc, text, old, new)?;
    answers_once(alloc, once.as_str(), second, wanted)
}
