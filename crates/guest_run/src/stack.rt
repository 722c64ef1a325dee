//! The stack of a starting program.

ghost use Rattle.guest_run.specs.Stack.{addresses, ended_texts, stack_bytes, stack_pointer, start_size};
ghost use Rattle.ddc_base.specs.Limits.{most_texts};
ghost use Rattle.guest_run.specs.Inside.Bounds.{cost};
ghost use Rattle.paged_mem.specs.Memory.{bytes_of, zeros};
ghost use Rattle.std.specs.List.{flat_map};
ghost use Rattle.std.specs.Prelude.{◌≡◌, ◌+◌, ◌*◌, ◌^◌, ◌<◌, ◌≤◌, ◌++◌, length, sum_by, nat_le, ◌-◌, IfOk, OnOk, SomeIff};

use crate::borrowed::Borrowed;
use ddc_base::OutOfMemory;
use ddc_base::limits::{ADDRESS_END, MOST_TEXTS};
use std::alloc::Global;

/// The address after the stack's last byte.
pub(crate) const END: u64 = ADDRESS_END;
/// The number of words that are not the address of a text: the count of arguments, and four zeros.
const OTHER_WORDS: u64 = 5;

/// The initial bytes of a stack, and the address of the first of them.
#[derive(Drop)]
pub(crate) struct Stack {
    pub(crate) at: u64,
    pub(crate) bytes: Vec<u8>,
}

/// Whether texts and words take at most 131,072 bytes.
pub(crate) fn fits(args: &[Borrowed], env: &[Borrowed]) -> bool
    ensures { result ≡ nat_le (start_size args.now env.now) most_texts }
{
    match remaining_after(args, MOST_TEXTS - 8 * OTHER_WORDS) {
        None => false,
        Some(remaining) => remaining_after(env, remaining).is_some(),
    }
}

/// What is left of `most` bytes after each text's bytes, its zero byte and its address. `None` if they take more.
fn remaining_after(texts: &[Borrowed], most: u64) -> Option<u64>
    ensures { SomeIff result (sum_by cost texts.now ≤ most) (most - sum_by cost texts.now) }
{
    let mut remaining = most;
    for text in texts {
        let len = text.len() as u64;
        if len > remaining || remaining - len < 9 {
            return None;
        }
        remaining -= len + 9;
    }
    Some(remaining)
}

/// The stack of a program with these texts, which must fit. Error: out of memory.
pub(crate) fn stack_of(
    alloc: Global,
    args: &[Borrowed],
    env: &[Borrowed],
) -> Result<Stack, OutOfMemory>
    requires { start_size args.now env.now ≤ most_texts }
    ensures { IfOk result (λ stack. (stack.at ≡ stack_pointer args.now env.now) × (stack.bytes.items ≡ stack_bytes args.now env.now)) }
{
    let args_size = joined_size(args);
    let texts = END - args_size - joined_size(env);
    let words = texts - 8 * (OTHER_WORDS + args.len() as u64 + env.len() as u64);
    let at = words / 16 * 16;
    let mut bytes = Vec::new(alloc);
    put_word(&mut bytes, args.len() as u64)?;
    put_addresses(&mut bytes, texts, args)?;
    put_word(&mut bytes, 0)?;
    put_addresses(&mut bytes, texts + args_size, env)?;
    put_zeros(&mut bytes, 24 + (words - at))?;
    put_texts(&mut bytes, args)?;
    put_texts(&mut bytes, env)?;
    Ok(Stack { at, bytes })
}

/// The size of the texts, each with its zero byte.
fn joined_size(texts: &[Borrowed]) -> u64
    requires { length (ended_texts texts.now) < 2 ^ 64 }
    ensures { result ≡ length (ended_texts texts.now) }
{
    let mut size = 0;
    for text in texts {
        size += text.len() as u64 + 1;
    }
    size
}

/// Appends a word, lowest byte first.
fn put_word(bytes: &mut Vec<u8>, word: u64) -> Result<(), OutOfMemory>
    ensures { OnOk result (bytes.new.items ≡ bytes.old.items ++ bytes_of 8 word) }
{
    bytes.extend_from_slice(&word.to_le_bytes())?;
    Ok(())
}

/// Appends the addresses of consecutive texts, the first of which is at `at`.
fn put_addresses(bytes: &mut Vec<u8>, at: u64, texts: &[Borrowed]) -> Result<(), OutOfMemory>
    requires { at + length (ended_texts texts.now) < 2 ^ 64 }
    ensures { OnOk result (bytes.new.items ≡ bytes.old.items ++ flat_map (bytes_of 8) (addresses at texts.now)) }
{
    let mut next = at;
    for text in texts {
        put_word(bytes, next)?;
        next += text.len() as u64 + 1;
    }
    Ok(())
}

/// Appends `count` zero bytes.
#[tactic(auto, using(crate::proofs::Texts::zeros_rules))]
fn put_zeros(bytes: &mut Vec<u8>, count: u64) -> Result<(), OutOfMemory>
    ensures { OnOk result (bytes.new.items ≡ bytes.old.items ++ zeros count) }
{
    for index in 0..count {
        bytes.push(0)?;
    }
    Ok(())
}

/// Appends the texts, each with its zero byte.
fn put_texts(bytes: &mut Vec<u8>, texts: &[Borrowed]) -> Result<(), OutOfMemory>
    ensures { OnOk result (bytes.new.items ≡ bytes.old.items ++ ended_texts texts.now) }
{
    for text in texts {
        bytes.extend_from_slice(text.as_slice())?;
        bytes.push(0)?;
    }
    Ok(())
}
