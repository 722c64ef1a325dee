ghost use Rattle.std.specs.Prelude.{All, None, ◌==◌, ◌≡◌, ℕ, ◌-◌, ◌*◌, ◌%◌, ◌^◌, ◌<◌, IfSome, Some, option_map, replicate, slice_index, if◌then◌else◌};
ghost use Rattle.rv64_decode.specs.Decode.{decoded};
ghost use Rattle.rv64_table.specs.Table.{row_for};
ghost use Rattle.paged_mem.specs.Memory.{reads};
ghost use Rattle.paged_mem.specs.Ram.{count_of, Stores};
ghost use Rattle.rv64_machine.specs.Inside.Down.{ActsDown};
ghost use Rattle.rv64_machine.specs.Inside.FlatEnds.{step_end};
ghost use Rattle.rv64_machine.specs.Hart.{IsReservation, IsReservable, ReservesReservable, reads_aligned, is_reserved, reserved_bytes, carried, effect_of, EndsStep, following, HartState, HasNumbers, IsHart, runs, ActsInARow, ActsTo, Acts, with_register};
ghost use Rattle.std.specs.FinMap.{contains_key};
ghost use Rattle.std.specs.Borrow.{Lends, sem};
ghost use Rattle.rv64_machine.specs.contracts.hart.Hart.{the_row};

use crate::answer::{Cause, FlatEnd, Reservation, StepEnd};
use crate::arithmetic::{sum, widened};
use crate::atomics::amo_result;
use crate::effect::{AmoOperation, Effect, effect_of};
use paged_mem::{Ram, StoreRefusal, Width};
use rv64_decode::decode_as;
use rv64_table::{Op, row_at_once, row_of};
use std::marker::Model;

macro_rules! by_operation {
    ($hart:expr, $op:expr, $word:expr; $($name:ident)*) => {
        match $op {
            $(Op::$name => $hart.perform(Op::$name, $word),)*
            _ => $hart.obey_seldom($word),
        }
    };
}

/// An address that is never a pc, because it is odd.
const NO_PC: u64 = 1;

/// A hart of RV64IMA with its memory.
///
/// Contracts see its state: the registers, the pc, the memory as one map of bytes, and the reservation.
#[derive(Drop)]
pub struct Hart<R: Ram> {
    registers: [u64; 32],
    pc: u64,
    ram: R,
    reservation: Option<Reservation>,
}

impl<R: Ram> Model for Hart<R> {
    ghost use Rattle.std.specs.Prelude.{◌≡◌, ◌%◌, length, option_map, slice_index};
    ghost use Rattle.rv64_machine.specs.Hart.{HartState, IsReservation, reserved_bytes};
    ghost use Rattle.rv64_machine.specs.Inside.Codes.{hart_code};

    ghost Value = { HartState };

    ghost coded = { hart_code };

    ghost view = { λ h. record { registers = h.registers; pc = h.pc; memory = R.bytes h.ram; reservation = option_map reserved_bytes h.reservation } };

    ghost invariant = { λ h.
        (length h.registers ≡ 32) × (slice_index h.registers 0 ≡ 0) × (h.pc % 4 ≡ 0) × IsReservation (option_map reserved_bytes h.reservation) };
}

impl<R: Ram> Hart<R> {
    /// A hart at `pc` whose registers are all 0, without a reservation.
    pub fn new(ram: R, pc: u64) -> Hart<R>
        requires { pc % 4 ≡ 0 }
        ensures { result ≡ record { registers = replicate 32 0; pc = pc; memory = R.bytes ram; reservation = None } }
    {
        Hart {
            registers: [0; 32],
            pc,
            ram,
            reservation: None,
        }
    }

    /// The value of a register, by its number.
    #[inline(always)]
    pub fn reg(&self, number: u8) -> u64
        requires { number < 32 }
        ensures { result ≡ slice_index self.now.registers number }
    {
        self.registers[usize::from(number)]
    }

    /// Sets a register; x0 stays 0.
    #[inline(always)]
    pub fn set_reg(&mut self, number: u8, value: u64)
        requires { number < 32 }
        ensures { self.new ≡ with_register self.old number value }
    {
        self.registers[usize::from(number)] = value;
        self.registers[0] = 0;
    }

    /// The address of the next instruction, a multiple of 4.
    pub fn pc(&self) -> u64
        ensures value { result ≡ self.now.pc }
        ensures hart { IsHart self.now }
    {
        self.pc
    }

    /// The registers x0 to x31.
    pub fn registers(&self) -> [u64; 32]
        ensures value { result ≡ self.now.registers }
        // The registers and the pc are below 2^64.
        ensures numbers { HasNumbers self.now }
    {
        show_numbers(&self.registers, self.pc);
        self.registers
    }

    /// Proves that the hart is well-formed, and that its registers and pc are below 2^64.
    pub fn show_rules(&self)
        ensures hart { IsHart self.now }
        ensures numbers { HasNumbers self.now }
    {
        show_numbers(&self.registers, self.pc);
    }

    /// The memory.
    pub fn ram(&self) -> &R
        ensures { R.bytes result.now ≡ self.now.memory }
    {
        &self.ram
    }

    /// The memory, borrowed mutably.
    pub fn ram_mut(&mut self) -> &mut R
        ensures value { R.bytes result.now ≡ self.old.memory }
        ensures* writes_back { sem 𝓛 (Lends (the_row R.row R.Ram) R.row self.entry result
            (λ w. record self.old { memory = R.bytes w })) }
    {
        &mut self.ram
    }

    /// The reserved bytes, if any.
    pub fn reservation(&self) -> Option<Reservation>
        ensures { option_map reserved_bytes result ≡ self.now.reservation }
    {
        self.reservation
    }

    /// Sets the reserved bytes.
    pub fn set_reservation(&mut self, held: Option<Reservation>)
        requires { IsReservation (option_map reserved_bytes held) }
        ensures { self.new ≡ record self.old { reservation = option_map reserved_bytes held } }
    {
        self.reservation = held;
    }

    /// Answers a call: x10 is set to the value, the reservation ends, and the hart continues at the next instruction.
    pub fn answer(&mut self, value: u64)
        ensures { self.new ≡ record (with_register self.old 10 value) { pc = following self.old; reservation = None } }
    {
        self.registers[10] = value;
        self.reservation = None;
        self.pass();
    }

    /// One step: fetches the four bytes at the pc and executes their instruction.
    ///
    /// Only a store that could otherwise complete can run out of memory. Like every result but `Done`, this leaves the hart unchanged.
    #[inline(always)]
    pub fn step(&mut self) -> StepEnd
        ensures act { Acts self.old result self.new }
        // No step maps or unmaps an address.
        ensures mapping { (address : ℕ)
            → contains_key self.new.memory address ≡ contains_key self.old.memory address }
    {
        self.advance()
    }

    /// Runs at most `most` instructions. Returns why it stopped and how many completed; `Done` means that all did.
    pub fn run(&mut self, most: u64) -> (StepEnd, u64)
        ensures acts { ActsInARow self.old most result.1 result.0 self.new }
        ensures mapping { (address : ℕ)
            → contains_key self.new.memory address ≡ contains_key self.old.memory address }
    {
        self.run_to(most, None)
    }

    /// Runs at most `most` instructions, and stops after a step that reaches the address `stop`, if one is given.
    /// Returns why it stopped and how many completed. The address at the start is not compared, so at least one step is
    /// taken unless `most` is 0.
    pub fn run_to(&mut self, most: u64, stop: Option<u64>) -> (StepEnd, u64)
        ensures acts { ActsTo stop self.old most result.1 result.0 self.new }
        ensures mapping { (address : ℕ)
            → contains_key self.new.memory address ≡ contains_key self.old.memory address }
    {
        let (end, remaining) = self.run_down(most, stop.unwrap_or(NO_PC));
        (end, most - remaining)
    }

    /// Runs at most `most` instructions, and stops after a step that reaches the address `stop`. Returns why it stopped
    /// and how many were left.
    ///
    /// A separate function that counts down, so that its loop needs one register for the count.
    #[inline(never)]
    fn run_down(&mut self, most: u64, stop: u64) -> (StepEnd, u64)
        ensures acts { ActsDown stop self.old most result.1 result.0 self.new }
        ensures mapping { (address : ℕ)
            → contains_key self.new.memory address ≡ contains_key self.old.memory address }
    {
        let mut remaining = most;
        while remaining != 0 {
            match self.step() {
                StepEnd::Done => {}
                StepEnd::Call => return (StepEnd::Call, remaining),
                StepEnd::Trap(cause) => return (StepEnd::Trap(cause), remaining),
                StepEnd::OutOfMemory => return (StepEnd::OutOfMemory, remaining),
            }
            remaining -= 1;
            if self.pc() == stop {
                break;
            }
        }
        (StepEnd::Done, remaining)
    }

    /// One step, by the definition of an act.
    #[inline(always)]
    #[tactic(auto, unfolding(crate::specs::Hart::act, crate::specs::Hart::effect_at))]
    fn advance(&mut self) -> StepEnd
        ensures { Acts self.old result self.new }
    {
        let word = match self.fetch_near() {
            Some(word) => word,
            None => match self.load_anywhere(self.pc, Width::W4) {
                Some(word) => word,
                None => return StepEnd::Trap(Cause::FetchUnmapped(self.pc)),
            },
        };
        self.obey(word as u32)
    }

    /// The word at the pc, if it is found without a search.
    #[inline(always)]
    fn fetch_near(&mut self) -> Option<u64>
        ensures same { self.new ≡ self.old }
        ensures value { IfSome result (λ value. reads self.old.memory self.old.pc 4 ≡ Some value) }
        ensures fits { IfSome result (λ value. value < 2 ^ 32) }
    {
        self.ram.fetch_near(self.pc)
    }

    /// The result of a load by a search. Kept out of the loop, for addresses that are not found at once.
    #[cold]
    #[inline(never)]
    fn load_anywhere(&self, at: u64, width: Width) -> Option<u64>
        ensures value { result ≡ reads self.now.memory at (count_of width) }
        ensures fits { IfSome result (λ value. value < 2 ^ (8 * count_of width)) }
    {
        self.ram.load(at, width)
    }

    /// The result of a store by a search, kept out of the loop as `load_anywhere` is.
    #[cold]
    #[inline(never)]
    fn store_anywhere(&mut self, at: u64, width: Width, value: u64) -> Result<(), StoreRefusal>
        ensures stores { Stores self.old.memory at (count_of width) value result self.new.memory }
        ensures rest { self.new ≡ record self.old { memory = self.new.memory } }
    {
        self.ram.store(at, width, value)
    }

    /// Executes a word.
    #[inline(always)]
    fn obey(&mut self, word: u32) -> StepEnd
        ensures { EndsStep (runs self.old word (decoded word)) (option_map (effect_of self.old) (decoded word)) self.old result self.new }
    {
        match row_at_once(word) {
            None => self.obey_seldom(word),
            Some(op) => self.dispatch(op, word),
        }
    }

    /// Executes a word by its operation. Each arm is compiled for the operation that it names, and so reads only the
    /// fields of that operation's form.
    #[inline(always)]
    fn dispatch(&mut self, op: Op, word: u32) -> StepEnd
        requires { option_map (λ row. row.op) (row_for word) ≡ Some op }
        ensures { EndsStep (runs self.old word (decoded word)) (option_map (effect_of self.old) (decoded word)) self.old result self.new }
    {
        by_operation! { self, op, word;
            Lui Auipc Jal Jalr Beq Bne Blt Bge Bltu Bgeu Lb Lh Lw Ld Lbu Lhu Lwu Sb Sh Sw Sd
            Addi Slti Sltiu Xori Ori Andi Slli Srli Srai Add Sub Sll Slt Sltu Xor Srl Sra Or And Fence Ecall Ebreak
            Addiw Slliw Srliw Sraiw Addw Subw Sllw Srlw Sraw
            Mul Mulh Mulhsu Mulhu Div Divu Rem Remu Mulw Divw Divuw Remw Remuw
        }
    }

    /// Executes a word of an atomic row, or of none.
    #[inline(always)]
    fn obey_seldom(&mut self, word: u32) -> StepEnd
        ensures { EndsStep (runs self.old word (decoded word)) (option_map (effect_of self.old) (decoded word)) self.old result self.new }
    {
        self.obey_rare(word).step_end()
    }

    /// Executes a word of an atomic row or of none, outside the loop.
    /// With the arms of the atomic rows, the loop would be too large to be compiled as one. A result that does not fit
    /// two registers would be cleared in memory at each step.
    #[cold]
    #[inline(never)]
    fn obey_rare(&mut self, word: u32) -> FlatEnd
        ensures { EndsStep (runs self.old word (decoded word)) (option_map (effect_of self.old) (decoded word)) self.old (step_end result) self.new }
    {
        FlatEnd::of(self.obey_by_row(word))
    }

    /// Executes a word of any row, or of none.
    fn obey_by_row(&mut self, word: u32) -> StepEnd
        ensures { EndsStep (runs self.old word (decoded word)) (option_map (effect_of self.old) (decoded word)) self.old result self.new }
    {
        match row_of(word) {
            None => StepEnd::Trap(Cause::Illegal(word)),
            Some(op) => self.perform(op, word),
        }
    }

    /// Executes a word whose row is that of this operation.
    #[inline(always)]
    fn perform(&mut self, op: Op, word: u32) -> StepEnd
        requires { option_map (λ row. row.op) (row_for word) ≡ Some op }
        ensures { EndsStep (runs self.old word (decoded word)) (option_map (effect_of self.old) (decoded word)) self.old result self.new }
    {
        let inst = decode_as(op, word);
        let effect = effect_of(
            inst.op,
            self.reg(inst.rs1),
            self.reg(inst.rs2),
            inst.imm,
            self.pc,
        );
        self.carry_out(inst.rd, effect)
    }

    /// Applies the effect of an instruction with this rd.
    #[inline(always)]
    fn carry_out(&mut self, rd: u8, effect: Effect) -> StepEnd
        requires rd { rd < 32 }
        requires wide { ReservesReservable effect }
        ensures { EndsStep (carried self.old rd effect) (Some effect) self.old result self.new }
    {
        match effect {
            Effect::Put(value) => {
                self.set_reg(rd, value);
                self.pass()
            }
            Effect::Jump(target) => self.jump(rd, target),
            Effect::Branch(taken, target) => self.branch(taken, target),
            Effect::Load(width, at) => self.load(rd, width, at, false),
            Effect::LoadSigned(width, at) => self.load(rd, width, at, true),
            Effect::Store { width, at, value } => self.store(width, at, value),
            Effect::Next => self.pass(),
            Effect::Call => StepEnd::Call,
            Effect::Break => StepEnd::Trap(Cause::Break),
            Effect::LoadReserved(width, at) => self.load_reserved(rd, width, at),
            Effect::StoreConditional { width, at, value } => self.store_conditional(
                rd, width, at, value,
            ),
            Effect::Amo {
                operation,
                width,
                at,
                value,
            } => self.amo(rd, operation, width, at, value),
        }
    }

    /// Executes a load-reserved.
    #[cold]
    #[inline(never)]
    fn load_reserved(&mut self, rd: u8, width: Width, at: u64) -> StepEnd
        requires rd { rd < 32 }
        requires wide { IsReservable width }
        ensures { EndsStep (carried self.old rd (Effect.LoadReserved width at)) None self.old result self.new }
    {
        self.show_rules();
        match self.reads_aligned(at, width) {
            Some(value) => {
                self.set_reg(rd, widened(width, value));
                self.set_reservation(Some(Reservation { wide: width, at }));
                self.pass()
            }
            None => StepEnd::Trap(Cause::LoadUnmapped(at)),
        }
    }

    /// Executes a store-conditional.
    #[cold]
    #[inline(never)]
    fn store_conditional(&mut self, rd: u8, width: Width, at: u64, value: u64) -> StepEnd
        requires { rd < 32 }
        ensures { EndsStep (carried self.old rd (Effect.StoreConditional width at value))
            (Some (Effect.StoreConditional width at value)) self.old result self.new }
    {
        match self.reads_aligned(at, width) {
            Some(_) => {
                if !self.is_reserved(width, at) {
                    self.set_reg(rd, 1);
                    self.set_reservation(None);
                    return self.pass();
                }
                match self.store_anywhere(at, width, value) {
                    Ok(()) => {
                        self.set_reg(rd, 0);
                        self.set_reservation(None);
                        self.pass()
                    }
                    Err(StoreRefusal::Unmapped) => StepEnd::Trap(Cause::StoreUnmapped(at)),
                    Err(StoreRefusal::OutOfMemory) => StepEnd::OutOfMemory,
                }
            }
            None => StepEnd::Trap(Cause::StoreUnmapped(at)),
        }
    }

    /// Executes an atomic memory operation.
    #[cold]
    #[inline(never)]
    fn amo(&mut self, rd: u8, operation: AmoOperation, width: Width, at: u64, value: u64) -> StepEnd
        requires { rd < 32 }
        ensures { EndsStep (carried self.old rd (Effect.Amo operation width at value))
            (Some (Effect.Amo operation width at value)) self.old result self.new }
    {
        match self.reads_aligned(at, width) {
            Some(old) => match self.store_anywhere(
                at,
                width,
                amo_result(operation, width, old, value),
            ) {
                Ok(()) => {
                    self.set_reg(rd, widened(width, old));
                    self.pass()
                }
                Err(StoreRefusal::Unmapped) => StepEnd::Trap(Cause::StoreUnmapped(at)),
                Err(StoreRefusal::OutOfMemory) => StepEnd::OutOfMemory,
            },
            None => StepEnd::Trap(Cause::StoreUnmapped(at)),
        }
    }

    /// The number at an address, if the address is a multiple of the width and the bytes are mapped.
    fn reads_aligned(&self, at: u64, width: Width) -> Option<u64>
        ensures value { result ≡ reads_aligned self.now.memory at (count_of width) }
        ensures fits { IfSome result (λ value. value < 2 ^ (8 * count_of width)) }
    {
        if is_multiple(at, width) {
            self.load_anywhere(at, width)
        } else {
            None
        }
    }

    /// Whether these bytes are reserved.
    fn is_reserved(&self, width: Width, at: u64) -> bool
        ensures { result ≡ is_reserved self.now.reservation (count_of width) at }
    {
        match self.reservation {
            Some(held) => held.wide.count() == width.count() && held.at == at,
            None => false,
        }
    }

    /// Executes a jump.
    #[inline(always)]
    fn jump(&mut self, rd: u8, target: u64) -> StepEnd
        requires { rd < 32 }
        ensures { EndsStep (carried self.old rd (Effect.Jump target)) None self.old result self.new }
    {
        if target % 4 != 0 {
            return StepEnd::Trap(Cause::FetchMisaligned(target));
        }
        let following = sum(self.pc, 4);
        self.set_reg(rd, following);
        self.pc = target;
        StepEnd::Done
    }

    /// Executes a branch.
    #[inline(always)]
    fn branch(&mut self, taken: bool, target: u64) -> StepEnd
        ensures { EndsStep (carried self.old 0 (Effect.Branch taken target)) None
            self.old result self.new }
    {
        if !taken {
            return self.pass();
        }
        if target % 4 != 0 {
            return StepEnd::Trap(Cause::FetchMisaligned(target));
        }
        self.pc = target;
        StepEnd::Done
    }

    /// Executes a load; sign-extends if `is_signed` holds, and zero-extends otherwise.
    #[inline(always)]
    fn load(&mut self, rd: u8, width: Width, at: u64, is_signed: bool) -> StepEnd
        requires { rd < 32 }
        ensures { EndsStep (carried self.old rd (if is_signed then Effect.LoadSigned width at else Effect.Load width at))
            None self.old result self.new }
    {
        let read = match self.ram.load_near(at, width) {
            Some(value) => value,
            None => match self.load_anywhere(at, width) {
                Some(value) => value,
                None => return StepEnd::Trap(Cause::LoadUnmapped(at)),
            },
        };
        let value = if is_signed {
            widened(width, read)
        } else {
            read
        };
        self.set_reg(rd, value);
        self.pass()
    }

    /// Executes a store.
    #[inline(always)]
    #[tactic(auto, using(crate::proofs::StoredBytes::stored))]
    fn store(&mut self, width: Width, at: u64, value: u64) -> StepEnd
        ensures { EndsStep (carried self.old 0 (Effect.Store width at value))
            (Some (Effect.Store width at value)) self.old result self.new }
    {
        if self.ram.store_near(at, width, value) {
            return self.pass();
        }
        match self.store_anywhere(at, width, value) {
            Ok(()) => self.pass(),
            Err(StoreRefusal::Unmapped) => StepEnd::Trap(Cause::StoreUnmapped(at)),
            Err(StoreRefusal::OutOfMemory) => StepEnd::OutOfMemory,
        }
    }

    /// Continues at the next instruction.
    #[inline(always)]
    fn pass(&mut self) -> StepEnd
        ensures end { result ≡ StepEnd.Done }
        ensures state { self.new ≡ record self.old { pc = following self.old } }
    {
        self.pc = sum(self.pc, 4);
        StepEnd::Done
    }
}

/// Whether an address is a multiple of a width.
fn is_multiple(at: u64, width: Width) -> bool
    ensures { result ≡ (at % count_of width == 0) }
{
    match width {
        Width::W1 => true,
        Width::W2 => at % 2 == 0,
        Width::W4 => at % 4 == 0,
        Width::W8 => at % 8 == 0,
    }
}

/// Proves that the registers and the pc are below 2^64.
fn show_numbers(registers: &[u64], pc: u64)
    ensures registers { All (λ value. value < 2 ^ 64) registers.now }
    ensures pc { pc < 2 ^ 64 }
{}
