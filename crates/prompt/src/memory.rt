ghost use Rattle.std.specs.Prelude.{◌≡◌, ◌++◌, ◌∷◌, ◌≤◌, ◌==◌, ◌<◌, [], IfOk, IfSome, OnErr, OnOk, drop, length};
ghost use Rattle.std.specs.Bool.{OnTrue};
ghost use Rattle.std.specs.List.{list_any, position};
ghost use Rattle.prompt.specs.Memory.{AsksHeld, prompt_over, prompt_state};
ghost use Rattle.prompt.specs.Prompts.{LineLeaves, asked_of, line_size, bytes_taken};

use crate::asking::{Asked, Failed, Line, Prompt};
use ddc_base::{Bytes, OutOfMemory};
use std::alloc::Global;
use std::marker::Model;

/// An input in memory, whose state contracts know in full. A line whose number, from 1, was given to `fail_line` fails
/// after half of its bytes.
#[derive(Drop)]
pub struct MemPrompt {
    bytes: Bytes,
    at: usize,
    lines: u64,
    failing_lines: Vec<u64>,
    faults: u64,
}

impl Model for MemPrompt {
    ghost use Rattle.std.specs.Prelude.{◌≤◌, drop, length};
    ghost use Rattle.prompt.specs.Memory.{MemoryPrompt};

    ghost Value = { MemoryPrompt };

    ghost view = { λ p. record { unread = drop p.at p.bytes; lines = p.lines; failing_lines = p.failing_lines.items; faults = p.faults } };

    ghost invariant = { λ p. p.at ≤ length p.bytes };
}

/// The offset of the first LF.
fn offset_of_lf(unread: &[u8]) -> Option<usize>
    ensures value { result ≡ position (λ byte. byte == 10) unread.now }
    ensures within { IfSome result (λ at. at < length unread.now) }
{
    unread.iter().position(|byte| *byte == b'\n')
}

/// The number of bytes before the first LF, or of all bytes without an LF.
fn line_size(unread: &[u8]) -> usize
    ensures size { result ≡ line_size unread.now }
    ensures within { result ≤ length unread.now }
{
    match offset_of_lf(unread) {
        Some(at) => at,
        None => unread.len(),
    }
}

/// The result of asking for a line when these bytes are left.
fn asked(unread: &[u8]) -> Asked
    ensures { result ≡ asked_of unread.now }
{
    if unread.len() == 0 {
        return Asked::End;
    }
    let size = line_size(unread);
    if size <= 256 {
        Asked::Line(Line::of(&unread[..size]))
    } else {
        Asked::TooLong
    }
}

/// How many of these bytes a request for a line consumes.
fn bytes_taken(unread: &[u8]) -> usize
    ensures value { result ≡ bytes_taken unread.now }
{
    line_size(unread).saturating_add(1).min(65_536)
}

/// Whether the call with this number was set to fail.
fn is_failing(number: u64, failing: &[u64]) -> bool
    ensures { result ≡ list_any (λ k. k == number) failing.now }
{
    failing.contains(&number)
}

impl MemPrompt {
    /// An input with these bytes left, on which no call fails.
    pub fn new(alloc: Global, bytes: &[u8]) -> Result<MemPrompt, OutOfMemory>
        ensures { IfOk result (λ prompt. prompt ≡ prompt_over bytes.now) }
    {
        Ok(MemPrompt {
            bytes: Bytes::from_slice(alloc, bytes)?,
            at: 0,
            lines: 0,
            failing_lines: Vec::new(alloc),
            faults: 0,
        })
    }

    /// The bytes that are left.
    pub fn unread(&self) -> &[u8]
        ensures { result.now ≡ self.now.unread }
    {
        &self.bytes.as_slice()[self.at..]
    }

    /// Makes the `k`-th line, counted from 1, fail.
    pub fn fail_line(&mut self, k: u64) -> Result<(), OutOfMemory>
        ensures ok { OnOk result (self.new ≡ record self.old { failing_lines = self.old.failing_lines ++ k ∷ [] }) }
        ensures err { OnErr result (self.new ≡ self.old) }
    {
        self.failing_lines.push(k)?;
        Ok(())
    }

    /// Consumes `count` bytes, or all if fewer are left.
    fn take(&mut self, count: usize)
        ensures { self.new ≡ record self.old { unread = drop count self.old.unread } }
    {
        self.at += count.min(self.bytes.len() - self.at);
    }
}

impl Prompt for MemPrompt {
    ghost state = { prompt_state };

    fn line(&mut self) -> Result<Asked, Failed>
        ensures told { OnTrue (prompt_state self.old).tells (IfOk result (λ asked. asked ≡ asked_of (prompt_state self.old).unread)) }
        ensures leaves { LineLeaves (prompt_state self.old) result (prompt_state self.new) }
        ensures exact { AsksHeld self.old result self.new }
    {
        let number = self.lines.saturating_add(1);
        let size = bytes_taken(self.unread());
        if is_failing(number, &self.failing_lines) {
            self.take(size / 2);
            self.lines = number;
            self.faults = self.faults.saturating_add(1);
            return Err(Failed);
        }
        let asked = asked(self.unread());
        self.take(size);
        self.lines = number;
        Ok(asked)
    }
}
