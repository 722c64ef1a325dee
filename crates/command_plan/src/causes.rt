//! Why the run of a program fails, as every command prints it.
//!
//! Their rules for people: docs/reference/command-line.md.

ghost use Rattle.std.specs.Prelude.{◌≡◌, ◌∷◌, [], IfOk, codes, string_bytes};
ghost use Rattle.hex.specs.Hex.{encode_lower};
ghost use Rattle.command_plan.specs.Causes.Texts.{hex_word, hex_address, spaced, trap_text, call_text, elf_text, args_text, box_text, spent_text, status_text};

use byteorder::{BigEndian, ByteOrder};
use ddc_base::OutOfMemory;
use elf_load::ElfRefusal;
use rv64_machine::Cause;
use std::alloc::Global;

/// The text of a trap. Error: out of memory.
#[tactic(auto, unfolding(crate::specs::Causes::Texts::trap_text))]
pub fn trap(alloc: Global, cause: Cause) -> Result<String, OutOfMemory>
    ensures { IfOk result (λ text. string_bytes text ≡ trap_text cause) }
{
    match cause {
        Cause::Illegal(word) => illegal(alloc, word),
        Cause::FetchUnmapped(at) => trap_at(alloc, "fetch-unmapped", at),
        Cause::FetchMisaligned(at) => trap_at(alloc, "fetch-misaligned", at),
        Cause::LoadUnmapped(at) => trap_at(alloc, "load-unmapped", at),
        Cause::StoreUnmapped(at) => trap_at(alloc, "store-unmapped", at),
        Cause::Break => Ok(String::from_str(alloc, "trap break")?),
    }
}

/// The text of a trap at an illegal instruction.
fn illegal(alloc: Global, word: u32) -> Result<String, OutOfMemory>
    ensures { IfOk result (λ text. string_bytes text ≡ spaced (codes "trap" ∷ codes "illegal" ∷ hex_word word ∷ [])) }
{
    let mut bytes = [0; 4];
    BigEndian::write_u32(&mut bytes, word);
    let word = hex_text(alloc, &bytes)?;
    trap_with(alloc, "illegal", word.as_str())
}

/// The text of a trap at an address.
fn trap_at(alloc: Global, name: &str, address: u64) -> Result<String, OutOfMemory>
    ensures { IfOk result (λ text. string_bytes text ≡ spaced (codes "trap" ∷ name.now ∷ hex_address address ∷ [])) }
{
    let mut bytes = [0; 8];
    BigEndian::write_u64(&mut bytes, address);
    let address = hex_text(alloc, &bytes)?;
    trap_with(alloc, name, address.as_str())
}

/// The text of a trap with a value.
fn trap_with(alloc: Global, name: &str, value: &str) -> Result<String, OutOfMemory>
    ensures { IfOk result (λ text. string_bytes text ≡ spaced (codes "trap" ∷ name.now ∷ value.now ∷ [])) }
{
    Ok(format!(in alloc; "trap {name} {value}")?)
}

/// Bytes in lower-case hexadecimal.
fn hex_text(alloc: Global, bytes: &[u8]) -> Result<String, OutOfMemory>
    ensures { IfOk result (λ text. string_bytes text ≡ encode_lower bytes.now) }
{
    Ok(hex::encode(alloc, bytes)?)
}

/// The text of a call with an unknown number. Error: out of memory.
#[tactic(auto, unfolding(crate::specs::Causes::Texts::call_text))]
pub fn call(alloc: Global, number: u64) -> Result<String, OutOfMemory>
    ensures { IfOk result (λ text. string_bytes text ≡ call_text number) }
{
    Ok(format!(in alloc; "call {number}")?)
}

/// The text of a file that is not a program, by the number of the refusal. Error: out of memory.
#[tactic(auto, unfolding(crate::specs::Causes::Texts::elf_text))]
pub fn elf(alloc: Global, refusal: ElfRefusal) -> Result<String, OutOfMemory>
    ensures { IfOk result (λ text. string_bytes text ≡ elf_text refusal) }
{
    let number = refusal.number();
    Ok(format!(in alloc; "start elf {number}")?)
}

/// The text of a start whose arguments and environment are too long.
pub fn args() -> &'static str
    ensures { result.now ≡ args_text }
{
    "start args"
}

/// The text of a start whose files are too large.
pub fn box_files() -> &'static str
    ensures { result.now ≡ box_text }
{
    "start box"
}

/// The text of an exit with a status other than 0. Error: out of memory.
#[tactic(auto, unfolding(crate::specs::Causes::Texts::status_text))]
pub fn status(alloc: Global, status: u8) -> Result<String, OutOfMemory>
    ensures { IfOk result (λ text. string_bytes text ≡ status_text status) }
{
    Ok(format!(in alloc; "status {status}")?)
}

/// The text of a run whose step limit is exhausted.
pub fn spent() -> &'static str
    ensures { result.now ≡ spent_text }
{
    "spent"
}
