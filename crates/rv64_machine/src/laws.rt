//! Laws of every act. Each law is the contract of a function that does nothing, or nothing but the steps that it mentions.

ghost use Rattle.paged_mem.specs.Memory.{reads};
ghost use Rattle.paged_mem.specs.Ram.{count_of};
ghost use Rattle.paged_mem.specs.declared.ram.Width.{Width};
ghost use Rattle.rv64_decode.specs.Decode.{decoded};
ghost use Rattle.rv64_machine.specs.Hart.{act, effect_at, following, GoesOn, HartState, HasNumbers, is_store, IsHart, runs, Acts, with_register};
ghost use Rattle.rv64_machine.specs.WithoutAtomics.{ActsWithoutAtomicsStand};
ghost use Rattle.rv64_machine.specs.Atomics.{amo_result};
ghost use Rattle.rv64_machine.specs.declared.effect.AmoOperation.{AmoOperation};
ghost use Rattle.rv64_machine.specs.declared.effect.Effect.TheVariants.{Amo, Store, StoreConditional};
ghost use Rattle.std.specs.FinMap.{contains_key, get};
ghost use Rattle.std.specs.Prelude.{◌≡◌, ◌≢◌, ℕ, ◌+◌, ◌*◌, ◌%◌, ◌^◌, ◌<◌, ◌≤◌, ◌⊎◌, false, Some, None};

use crate::answer::StepEnd;
use crate::hart::Hart;
use paged_mem::Ram;

/// Two harts with equal registers, pc, mapped bytes and reservation step alike, whatever their memories are, unless one
/// runs out of memory. A step reads nothing else.
pub fn equal_harts_step_alike<R: Ram, S: Ram>(
    one: &mut Hart<R>,
    other: &mut Hart<S>,
) -> (StepEnd, StepEnd)
    requires { one.old ≡ other.old }
    ensures one { Acts one.old result.0 one.new }
    ensures other { Acts other.old result.1 other.new }
    ensures alike { result.0 ≢ StepEnd.OutOfMemory → result.1 ≢ StepEnd.OutOfMemory
        → (result.0 ≡ result.1) × (one.new ≡ other.new) }
{
    (one.step(), other.step())
}

/// A row that is not a store leaves the memory unchanged. The atomic memory operations count as stores; a
/// store-conditional does only if its bytes are reserved.
pub fn only_stores_write()
    ensures { (hart next : HartState) → act hart ≡ GoesOn next → is_store hart.reservation (effect_at hart) ≡ false
        → next.memory ≡ hart.memory }
{}

/// An act neither maps nor unmaps an address.
pub fn nothing_is_mapped()
    ensures { (hart next : HartState) → act hart ≡ GoesOn next
        → (address : ℕ) → contains_key next.memory address ≡ contains_key hart.memory address }
{}

/// A store changes only the bytes of its access, to the low bytes of its value.
pub fn a_store_writes_its_access()
    ensures access { (hart next : HartState) (width : Width) (at value : ℕ)
        → act hart ≡ GoesOn next → effect_at hart ≡ Some (Store width at value)
        → reads next.memory at (count_of width) ≡ Some (value % 256 ^ count_of width) }
    ensures others { (hart next : HartState) (width : Width) (at value : ℕ)
        → act hart ≡ GoesOn next → effect_at hart ≡ Some (Store width at value)
        → (address : ℕ) → (address < at) ⊎ (at + count_of width ≤ address)
        → get next.memory address ≡ get hart.memory address }
{}

/// A store-conditional of the reserved bytes changes only these, to the low bytes of its value.
pub fn a_store_conditional_writes_its_access()
    ensures access { (hart next : HartState) (width : Width) (at value : ℕ)
        → act hart ≡ GoesOn next → effect_at hart ≡ Some (StoreConditional width at value)
        → hart.reservation ≡ Some (count_of width, at)
        → reads next.memory at (count_of width) ≡ Some (value % 256 ^ count_of width) }
    ensures others { (hart next : HartState) (width : Width) (at value : ℕ)
        → act hart ≡ GoesOn next → effect_at hart ≡ Some (StoreConditional width at value)
        → (address : ℕ) → (address < at) ⊎ (at + count_of width ≤ address)
        → get next.memory address ≡ get hart.memory address }
{}

/// An atomic memory operation changes only the bytes of its access, to the low bytes of its result on the old number.
pub fn an_amo_writes_its_access()
    ensures access { (hart next : HartState) (operation : AmoOperation) (width : Width) (at value : ℕ)
        → act hart ≡ GoesOn next → effect_at hart ≡ Some (Amo operation width at value)
        → (old : ℕ) × (reads hart.memory at (count_of width) ≡ Some old)
        × (reads next.memory at (count_of width) ≡ Some (amo_result operation (8 * count_of width) old value % 256 ^ count_of width)) }
    ensures others { (hart next : HartState) (operation : AmoOperation) (width : Width) (at value : ℕ)
        → act hart ≡ GoesOn next → effect_at hart ≡ Some (Amo operation width at value)
        → (address : ℕ) → (address < at) ⊎ (at + count_of width ≤ address)
        → get next.memory address ≡ get hart.memory address }
{}

/// The next fetch sees a store into code: after a word is stored over the next instruction, the next act executes that word.
pub fn a_stored_word_is_fetched()
    ensures { (hart next : HartState) (value : ℕ)
        → act hart ≡ GoesOn next → effect_at hart ≡ Some (Store Width.W4 next.pc value)
        → act next ≡ runs next (value % 2 ^ 32) (decoded (value % 2 ^ 32)) }
{}

/// An act of a well-formed hart that continues leaves a well-formed hart: 32 registers with x0 = 0, a pc that is a
/// multiple of 4, and memory in whole pages of bytes.
/// If the registers and the pc were below 2^64, they still are.
pub fn acts_keep_the_rules()
    ensures rules { (hart next : HartState) → IsHart hart → act hart ≡ GoesOn next → IsHart next }
    ensures numbers { (hart next : HartState) → IsHart hart → HasNumbers hart → act hart ≡ GoesOn next → HasNumbers next }
{}

/// The answer to a call leaves a well-formed hart, and registers and a pc below 2^64.
pub fn answers_keep_the_rules()
    ensures rules { (hart : HartState) (value : ℕ) → IsHart hart
        → IsHart (record (with_register hart 10 value) { pc = following hart; reservation = None }) }
    ensures numbers { (hart : HartState) (value : ℕ) → value < 2 ^ 64 → HasNumbers hart
        → HasNumbers (record (with_register hart 10 value) { pc = following hart; reservation = None }) }
{}

/// A hart with the atomic rows does everything that a hart without them does, and keeps the reservation.
pub fn acts_without_atomics_stand()
    ensures { (hart : HartState) → ActsWithoutAtomicsStand hart }
{}
