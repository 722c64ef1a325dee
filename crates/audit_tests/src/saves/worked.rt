//! A worked recipe, its files and its report; the digests are those of `sha256sum`.

ghost use Rattle.std.specs.Prelude.{IfOk};
ghost use Rattle.audit_rules.specs.Valid.{IsInputs};

use crate::saves::are_inputs;
use ddc_base::{Bytes, OutOfMemory, read_hex};
use recipe::{Inputs, Recipe};
use std::alloc::Global;
use std::mem::drop;

/// copy.elf, which copies the file `in` to `out`, with a line's end: its source in hex0.
pub(crate) const COPY: &str =
    "7f454c460201010000000000000000000200f30001000000780001000000000040000000000000000000000000000000000000004000380001000000\
    000000000100000007000000000000000000000000000100000000000000010000000000e800000000000000e80000000000000000100000000000001305c0f9b70501009385050e1306000093088003730000001305c0f9b70501009385350e\
    130610247300000037140000b30481401305300093850400130604009308f00373000000630c0500130605001305400093080004730000006ff09ffd\
    9308d00573000000696e006f75740000\n";

/// The bytes of a text of hexadecimal digits.
fn decoded(alloc: Global, text: &str) -> Result<Bytes, OutOfMemory> {
    match read_hex(alloc, text.trim_end().as_bytes()) {
        Ok(bytes) => Ok(bytes),
        Err(_) => Err(OutOfMemory),
    }
}

/// The recipe: `one` copies the copier, and what it made is checked and copies three bytes.
pub(crate) const RECIPE: &str = r#"format = 1
[[input]]
name = "prog"
path = "copy.elf"
[[input]]
name = "text"
path = "copy.hex0"
[[input]]
name = "src"
path = "a.bin"
[[input]]
name = "bin"
path = "b.bin"
[[source]]
name = "copy_src"
lang = "hex0"
files = ["text"]
[[stage]]
name = "one"
program = "prog"
args = ["copy"]
files = [{ path = "in", from = "prog" }]
output = "out"
steps = 100000
check = "copy_src"
[[stage]]
name = "two"
program = "one"
args = ["copy"]
files = [{ path = "in", from = "src" }]
output = "out"
steps = 100000
[compare]
stage = "two"
binary = "bin"
"#;

/// Its report.
pub(crate) const REPORT: &str = "ddc-report 1\n\
    recipe 10b5c639797a4ed2505e4f5394bd88f134e66af1f274d9342e720cc0e4379e08\n\
    input prog 232 da8dcb705eb55cbf9f4852135f93a902f4584b973901f37abb829fd299d0b026\n\
    input text 465 26dbf873fd9f4ae0d6145fe4fcf057357e6d57dc16dc89160bbefa88806e89d5\n\
    input src 3 ba7816bf8f01cfea414140de5dae2223b00361a396177a9cb410ff61f20015ad\n\
    input bin 3 ba7816bf8f01cfea414140de5dae2223b00361a396177a9cb410ff61f20015ad\n\
    stage one 32\n\
    stream 1 0 e3b0c44298fc1c149afbf4c8996fb92427ae41e4649b934ca495991b7852b855\n\
    stream 2 0 e3b0c44298fc1c149afbf4c8996fb92427ae41e4649b934ca495991b7852b855\n\
    left 696e 232 da8dcb705eb55cbf9f4852135f93a902f4584b973901f37abb829fd299d0b026\n\
    left 6f7574 232 da8dcb705eb55cbf9f4852135f93a902f4584b973901f37abb829fd299d0b026\n\
    made 232 da8dcb705eb55cbf9f4852135f93a902f4584b973901f37abb829fd299d0b026\n\
    checked hex0\n\
    stage two 32\n\
    stream 1 0 e3b0c44298fc1c149afbf4c8996fb92427ae41e4649b934ca495991b7852b855\n\
    stream 2 0 e3b0c44298fc1c149afbf4c8996fb92427ae41e4649b934ca495991b7852b855\n\
    left 696e 3 ba7816bf8f01cfea414140de5dae2223b00361a396177a9cb410ff61f20015ad\n\
    left 6f7574 3 ba7816bf8f01cfea414140de5dae2223b00361a396177a9cb410ff61f20015ad\n\
    made 3 ba7816bf8f01cfea414140de5dae2223b00361a396177a9cb410ff61f20015ad\n\
    unchecked\n\
    compare two bin equal 3\n\
    end\n";

/// Adds an input of these bytes.
fn put_input(alloc: Global, inputs: &mut Inputs, bytes: &[u8]) -> Result<(), OutOfMemory> {
    inputs.push(Bytes::from_slice(alloc, bytes)?)
}

fn put_program(alloc: Global, inputs: &mut Inputs) -> Result<(), OutOfMemory> {
    inputs.push(decoded(alloc, COPY)?)
}

/// Adds the four inputs, the third with these bytes.
fn put_inputs(alloc: Global, inputs: &mut Inputs, source: &[u8]) -> Result<(), OutOfMemory> {
    put_program(alloc, inputs)?;
    put_input(alloc, inputs, COPY.as_bytes())?;
    put_input(alloc, inputs, source)?;
    put_input(alloc, inputs, b"abc")
}

fn inputs(alloc: Global, source: &[u8]) -> Result<Inputs, OutOfMemory> {
    let mut inputs = Inputs::new(alloc);
    put_inputs(alloc, &mut inputs, source)?;
    Ok(inputs)
}

/// A recipe and what can be its inputs.
type Given = (Recipe, Inputs);

/// The two, where these can be the recipe's inputs.
fn fitting(recipe: Recipe, inputs: Inputs) -> Result<Given, OutOfMemory>
    ensures { IfOk result (λ given. IsInputs given.0 given.1) }
{
    if are_inputs(&recipe, &inputs) {
        return Ok((recipe, inputs));
    }
    drop(recipe);
    drop(inputs);
    Err(OutOfMemory)
}

/// A recipe and the four inputs, the third with these bytes.
fn given_of(alloc: Global, recipe: Recipe, source: &[u8]) -> Result<Given, OutOfMemory>
    ensures { IfOk result (λ given. IsInputs given.0 given.1) }
{
    match inputs(alloc, source) {
        Ok(inputs) => fitting(recipe, inputs),
        Err(OutOfMemory) => {
            drop(recipe);
            Err(OutOfMemory)
        }
    }
}

/// The recipe of a text and the four inputs, the third with these bytes.
pub(crate) fn given(alloc: Global, recipe: &str, source: &[u8]) -> Result<Given, OutOfMemory>
    ensures { IfOk result (λ given. IsInputs given.0 given.1) }
{
    match recipe::read(alloc, recipe.as_bytes()) {
        Ok(recipe) => given_of(alloc, recipe, source),
        Err(_) => Err(OutOfMemory),
    }
}

/// A text with another in place of the first piece that is `old`.
pub(crate) fn with(alloc: Global, text: &str, old: &str, new: &str) -> Result<String, OutOfMemory> {
    let (before, after) = text.split_once(old).unwrap_or(("nothing to change: ", old));
    Ok(format!(in alloc; "{before}{new}{after}")?)
}

/// An offset, how many bytes from there on give way, and to which.
pub(crate) type Edit = (usize, usize, &'static [u8]);

/// Adds a text with bytes in place of others.
fn put_edited(
    new: &mut Bytes,
    text: &[u8],
    edit: (usize, usize, &[u8]),
) -> Result<(), OutOfMemory> {
    let (at, count, bytes) = edit;
    let after = text.get(at..).unwrap_or(&[]);
    new.extend(text.get(..at).unwrap_or(&[]))?;
    new.extend(bytes)?;
    new.extend(after.get(count..).unwrap_or(&[]))
}

fn edit_once(
    alloc: Global,
    text: &mut Bytes,
    edit: (usize, usize, &[u8]),
) -> Result<(), OutOfMemory> {
    let mut new = Bytes::new(alloc);
    put_edited(&mut new, text.as_slice(), edit)?;
    *text = new;
    Ok(())
}

fn edit_all(
    alloc: Global,
    text: &mut Bytes,
    edits: &[(usize, usize, &[u8])],
) -> Result<(), OutOfMemory> {
    for one in edits {
        edit_once(alloc, text, *one)?;
    }
    Ok(())
}

/// A text after edits, one after the other.
pub(crate) fn edited(
    alloc: Global,
    text: &[u8],
    edits: &[(usize, usize, &[u8])],
) -> Result<Bytes, OutOfMemory> {
    let mut new = Bytes::from_slice(alloc, text)?;
    edit_all(alloc, &mut new, edits)?;
    Ok(new)
}
