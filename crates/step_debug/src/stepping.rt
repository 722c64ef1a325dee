//! A session.

ghost use Rattle.std.specs.Prelude.{◌≡◌, ◌+◌, ◌≤◌, IfOk, OnErr, Some};
ghost use Rattle.ddc_base.specs.Limits.{most_steps};
ghost use Rattle.guest_run.specs.Run.{after};
ghost use Rattle.guest_run.specs.State.{GuestState};
ghost use Rattle.step_debug.specs.Lines.{command_of};
ghost use Rattle.step_debug.specs.declared.command.SessionCommand.TheVariants.{Back};
ghost use Rattle.step_debug.specs.Sessions.{IsFurther, KeepsSession, StartsSession, gone, obeyed, reply_to, state_of_step};
ghost use Rattle.step_debug.specs.Inside.Saying.{Reports};

use crate::command::SessionCommand;
use crate::lines::read_command;
use crate::replies;
use ddc_base::{Bytes, OutOfMemory};
use guest_run::{Guest, RunBox, RunEnd, RunRam, StartRefusal};
use prompt::Respond;
use std::alloc::Global;
use std::marker::Model;

/// A stepping session of a program's run, from its start up to `limit` steps.
///
/// It borrows the program and its execution context (`RunBox`): to go back, the program is started again. It keeps its allocator.
#[derive(Drop)]
pub struct Session<'a> {
    program: &'a [u8],
    setting: RunBox<'a>,
    limit: u64,
    guest: Guest<RunRam>,
    stop: Option<u64>,
    alloc: Global,
}

impl<'a> Model for Session<'a> {
    ghost use Rattle.step_debug.specs.Inside.Codes.{session_code};
    ghost use Rattle.step_debug.specs.Sessions.{IsSession, SessionState, session_state};

    ghost Value = { SessionState };

    ghost coded = { session_code };

    ghost view = { λ s. session_state s.program.now s.setting s.limit s.guest s.stop };

    ghost invariant = { λ s. IsSession (session_state s.program.now s.setting s.limit s.guest s.stop) };
}

impl<'a> Session<'a> {
    /// Starts the program in its execution context. Errors: those of the start, in its order.
    pub fn new(
        alloc: Global,
        program: &'a [u8],
        setting: RunBox<'a>,
        limit: u64,
    ) -> Result<Session<'a>, StartRefusal>
        requires { limit ≤ most_steps }
        ensures { StartsSession program.now setting.entry limit result }
    {
        match Guest::start(alloc, program, &setting) {
            Ok(guest) => Ok(Session {
                program,
                setting,
                limit,
                guest,
                stop: None,
                alloc,
            }),
            Err(refusal) => Err(refusal),
        }
    }

    /// The reply to a command. Error: out of memory; the steps that were done remain, and other commands leave the session as it was.
    fn obey(&mut self, command: SessionCommand) -> Result<Bytes, OutOfMemory>
        ensures ok { IfOk result (λ reply. obeyed self.old command ≡ (reply, self.new)) }
        ensures err { OnErr result (KeepsSession self.old command self.new) }
    {
        match command {
            SessionCommand::Where => replies::where_line(self.alloc, &self.guest),
            SessionCommand::Step(count) => self.go_on(None, count),
            SessionCommand::Go => self.go_on(self.stop, self.limit),
            SessionCommand::Back(count) => self.go_back(count),
            SessionCommand::Break(address) => self.set_break(address),
            SessionCommand::Regs => replies::regs_line(self.alloc, &self.guest),
            SessionCommand::Mem(address, count) => {
                replies::mem_line(self.alloc, &self.guest, address, count)
            }
            SessionCommand::Quit => Ok(Bytes::new(self.alloc)),
            SessionCommand::Unknown => replies::unknown_line(self.alloc),
        }
    }

    /// Runs on by at most `most` steps, within the limit.
    fn go_on(&mut self, stop: Option<u64>, most: u64) -> Result<Bytes, OutOfMemory>
        ensures ok { IfOk result (λ reply. gone self.old stop most ≡ (reply, self.new)) }
        ensures err { OnErr result (IsFurther self.old stop most self.new) }
    {
        let most = most.min(self.limit - self.guest.steps());
        let end = self.guest.run_to(most, stop);
        self.tell(end)
    }

    /// The line of where the run stands now.
    fn tell(&self, end: RunEnd) -> Result<Bytes, OutOfMemory>
        ensures { Reports self.now end result }
    {
        let steps = self.guest.steps();
        match end {
            RunEnd::Exited(status) => replies::exited_line(self.alloc, status, steps + 1),
            RunEnd::Trapped(cause) => replies::trapped_line(self.alloc, cause, steps + 1),
            RunEnd::UnknownCall(number) => replies::call_line(self.alloc, number, steps + 1),
            RunEnd::Spent => {
                if steps < self.limit {
                    replies::where_line(self.alloc, &self.guest)
                } else {
                    replies::spent_line(self.alloc, self.limit)
                }
            }
            RunEnd::OutOfMemory => Err(OutOfMemory),
        }
    }

    /// Goes back by `count` steps. Error: out of memory, which leaves the session as it was.
    fn go_back(&mut self, count: u64) -> Result<Bytes, OutOfMemory>
        ensures ok { IfOk result (λ reply. obeyed self.old (Back count) ≡ (reply, self.new)) }
        ensures err { OnErr result (self.new ≡ self.old) }
    {
        let steps = self.guest.steps();
        if steps < count {
            return replies::no_step_line(self.alloc);
        }
        let guest = self.run_again(steps - count)?;
        let line = replies::where_line(self.alloc, &guest)?;
        self.guest = guest;
        Ok(line)
    }

    /// The guest `count` steps after the start, at most as many as were taken.
    fn run_again(&self, count: u64) -> Result<Guest<RunRam>, OutOfMemory>
        requires { count ≤ self.now.at.steps }
        ensures state { IfOk result (λ guest. state_of_step self.now count ≡ Some guest) }
        ensures steps { IfOk result (λ guest. guest.steps ≡ count) }
    {
        match Guest::start(self.alloc, self.program, &self.setting) {
            Ok(guest) => repeated(guest, count),
            Err(StartRefusal::Elf(_)) => unreachable!(),
            Err(StartRefusal::ArgsTooLong) => unreachable!(),
            Err(StartRefusal::BoxTooLarge) => unreachable!(),
            Err(StartRefusal::OutOfMemory) => Err(OutOfMemory),
        }
    }

    /// Sets the break. Error: out of memory, which leaves the session as it was.
    fn set_break(&mut self, address: u64) -> Result<Bytes, OutOfMemory>
        ensures ok { IfOk result (λ reply. obeyed self.old (SessionCommand.Break address) ≡ (reply, self.new)) }
        ensures err { OnErr result (self.new ≡ self.old) }
    {
        let line = replies::break_line(self.alloc, address)?;
        self.stop = Some(address);
        Ok(line)
    }
}

/// The guest after `count` more steps, which are known not to end the run.
fn repeated(mut guest: Guest<RunRam>, count: u64) -> Result<Guest<RunRam>, OutOfMemory>
    requires few { guest.steps + count ≤ most_steps }
    requires goes { (last : GuestState) × (after guest count ≡ Some last) }
    ensures { IfOk result (λ new. after guest count ≡ Some new) }
{
    match guest.run_to(count, None) {
        RunEnd::Spent => Ok(guest),
        RunEnd::OutOfMemory => Err(OutOfMemory),
        RunEnd::Exited(_) => unreachable!(),
        RunEnd::Trapped(_) => unreachable!(),
        RunEnd::UnknownCall(_) => unreachable!(),
    }
}

impl<'a> Respond for Session<'a> {
    ghost answered = { reply_to };

    fn answer(&mut self, line: &[u8]) -> Result<Bytes, OutOfMemory>
        ensures ok { IfOk result (λ reply. reply_to self.old line.now ≡ (reply, self.new)) }
        ensures err { OnErr result (KeepsSession self.old (command_of line.now) self.new) }
    {
        self.obey(read_command(line))
    }
}
