//! The atomic rows: beside what an independent machine did, and by the rules of docs/reference/machine.md where it has others.
mod cases;

ghost use Rattle.std.specs.Prelude.{◌<◌};

use crate::machine::fresh;
use crate::steps::{AT, CODE, HELD, Step, check, gives, holds};
use cases::{AMOS, PAIRS};
use paged_mem::{FlatRam, PagedRam, Ram, Width};
use rv64_machine::{Cause, Hart, Reservation, StepEnd};
use std::alloc::Global;
use std::process::Abort;

/// rd, bits 11..7 of a word.
fn register_of(word: u32) -> u8
    ensures { result < 32 }
{
    (word / 0x80 % 0x20) as u8
}

fn is_amo<R: Ram>(
    rt: &impl Abort,
    hart: &mut Hart<R>,
    &(word, old, b, rd, after): &(u32, u64, u64, u64, u64),
) -> bool {
    hart.ram_mut().store(AT, Width::W8, old).is_ok()
        && gives(rt, hart, (word, AT, b), (register_of(word), rd))
        && holds(hart, AT, after)
        && hart.reservation() == None
}

fn check_amos<R: Ram>(rt: &impl Abort, hart: &mut Hart<R>) {
    for (index, row) in AMOS.iter().enumerate() {
        assert!(rt; is_amo(rt, hart, row), "row {index}");
    }
}

fn check_amos_on<R: Ram>(rt: &impl Abort, alloc: Global) {
    let mut hart: Hart<R> = fresh(rt, alloc);
    check_amos(rt, &mut hart);
}

#[test]
fn amo_rows_as_an_independent_machine_has_them(rt: HostRuntime) {
    check_amos_on::<PagedRam>(&rt, rt.alloc());
    check_amos_on::<FlatRam>(&rt, rt.alloc());
}

/// Stores a number and what it is not after it, and takes the reservation away.
fn place<R: Ram>(hart: &mut Hart<R>, old: u64) -> bool {
    hart.set_reservation(None);
    hart.ram_mut().store(AT, Width::W8, old).is_ok()
        && hart.ram_mut().store(AT + 8, Width::W8, !old).is_ok()
}

type Pair = (u32, u32, u64, u64, u64, u64, u64, u64, u64, u64);

fn is_pair<R: Ram>(
    rt: &impl Abort,
    hart: &mut Hart<R>,
    &(load, store, distance, old, b, loaded, first, second, after, following): &Pair,
) -> bool {
    let other = AT.wrapping_add(distance);
    place(hart, old)
        && gives(rt, hart, (load, AT, b), (13, loaded))
        && gives(rt, hart, (store, other, b), (10, first))
        && hart.reservation() == None
        && gives(rt, hart, (store, other, b), (10, second))
        && holds(hart, AT, after)
        && holds(hart, AT + 8, following)
}

fn check_pairs<R: Ram>(rt: &impl Abort, hart: &mut Hart<R>) {
    for (index, row) in PAIRS.iter().enumerate() {
        assert!(rt; is_pair(rt, hart, row), "row {index}");
    }
}

fn check_pairs_on<R: Ram>(rt: &impl Abort, alloc: Global) {
    let mut hart: Hart<R> = fresh(rt, alloc);
    check_pairs(rt, &mut hart);
}

#[test]
fn load_reserved_and_store_conditional_as_an_independent_machine_has_them(rt: HostRuntime) {
    check_pairs_on::<PagedRam>(&rt, rt.alloc());
    check_pairs_on::<FlatRam>(&rt, rt.alloc());
}

/// lr.w x10; lr.d x10; sc.w x10, x12; sc.d x10, x12; amoadd.w x10, x12; amoadd.w x10, x11; amomax.w x10, x12; all at (x11).
const LRW: u32 = 0x1005_A52F;

const LRD: u32 = 0x1005_B52F;

const SCW: u32 = 0x18C5_A52F;

const SCD: u32 = 0x18C5_B52F;

const AMOADDW: u32 = 0x00C5_A52F;

const AMOADDW_OF_ADDRESS: u32 = 0x00B5_A52F;

const AMOMAXW: u32 = 0xA0C5_A52F;

static EDGES: [Step; 4] = [
    Step::Put(AT, 0x7FFF_FFFF),
    Step::Done(AMOADDW, AT, 1, 0x7FFF_FFFF, 0x8000_0000),
    Step::Done(AMOMAXW, AT, 1, 0xFFFF_FFFF_8000_0000, 1),
    Step::Done(AMOADDW_OF_ADDRESS, AT, 0, 1, 0x1_2001),
];

#[test]
fn a_sum_and_a_greatest_number_at_the_edge(rt: HostRuntime) {
    check(&rt, rt.alloc(), &EDGES);
}

static ONE_STORE: [Step; 7] = [
    Step::Put(AT, 0x8000_0000),
    Step::Done(SCW, AT, 5, 1, 0x8000_0000),
    Step::Done(LRW, AT, 0, 0xFFFF_FFFF_8000_0000, 0x8000_0000),
    Step::Reserved(Some(HELD)),
    Step::Done(SCW, AT, 5, 0, 5),
    Step::Reserved(None),
    Step::Done(SCW, AT, 9, 1, 5),
];

#[test]
fn a_reservation_holds_for_one_store_conditional(rt: HostRuntime) {
    check(&rt, rt.alloc(), &ONE_STORE);
}

const HELD_AFTER: Reservation = Reservation {
    wide: Width::W8,
    at: AT + 8,
};

static WIDTHS: [Step; 9] = [
    Step::Done(LRD, AT, 0, 0, 0),
    Step::Done(SCW, AT, 9, 1, 0),
    Step::Reserved(None),
    Step::Done(LRW, AT, 0, 0, 0),
    Step::Done(SCD, AT, 9, 1, 0),
    Step::Done(LRW, AT, 0, 0, 0),
    Step::Done(LRD, AT + 8, 0, 0, 0),
    Step::Reserved(Some(HELD_AFTER)),
    Step::Done(SCW, AT, 9, 1, 0),
];

#[test]
fn a_reservation_is_of_a_width_and_the_last_one(rt: HostRuntime) {
    check(&rt, rt.alloc(), &WIDTHS);
}

/// sw x12, 0(x11) and addi x0, x0, 0.
const SW: u32 = 0x00C5_A023;

const NOP: u32 = 0x0000_0013;

static OTHER_ROWS: [Step; 17] = [
    Step::On(LRW, AT, 0, StepEnd::Done),
    Step::On(SW, AT, 7, StepEnd::Done),
    Step::Reserved(Some(HELD)),
    Step::On(AMOADDW, AT, 7, StepEnd::Done),
    Step::Reserved(Some(HELD)),
    Step::On(NOP, AT, 7, StepEnd::Done),
    Step::Reserved(Some(HELD)),
    Step::On(LRD, AT + 4, 7, StepEnd::Trap(Cause::LoadUnmapped(AT + 4))),
    Step::Reserved(Some(HELD)),
    Step::On(SCW, AT + 2, 7, StepEnd::Trap(Cause::StoreUnmapped(AT + 2))),
    Step::Reserved(Some(HELD)),
    Step::On(0x0000_0073, AT, 7, StepEnd::Call),
    Step::Reserved(Some(HELD)),
    Step::Answer(7),
    Step::Reserved(None),
    Step::Reserve,
    Step::Done(SCW, AT, 3, 0, 3),
];

#[test]
fn other_rows_leave_a_reservation_and_an_answer_ends_it(rt: HostRuntime) {
    check(&rt, rt.alloc(), &OTHER_ROWS);
}

const LAST: u64 = 0xFFFF_FFFF_FFFF_FFFF;

static TRAPS: [Step; 21] = [
    Step::LoadTraps(LRW, AT + 1),
    Step::StoreTraps(SCW, AT + 1),
    Step::StoreTraps(AMOADDW, AT + 1),
    Step::LoadTraps(LRW, AT + 2),
    Step::StoreTraps(SCW, AT + 2),
    Step::StoreTraps(AMOADDW, AT + 2),
    Step::LoadTraps(LRW, AT + 3),
    Step::StoreTraps(SCW, AT + 3),
    Step::StoreTraps(AMOADDW, AT + 3),
    Step::LoadTraps(LRW, AT + 0x1000),
    Step::StoreTraps(SCW, AT + 0x1000),
    Step::StoreTraps(AMOADDW, AT + 0x1000),
    Step::LoadTraps(LRW, 0x40),
    Step::StoreTraps(SCW, 0x40),
    Step::StoreTraps(AMOADDW, 0x40),
    Step::LoadTraps(LRW, LAST),
    Step::StoreTraps(SCW, LAST),
    Step::StoreTraps(AMOADDW, LAST),
    Step::StoreTraps(SCD, AT + 4),
    Step::LoadTraps(LRD, AT + 4),
    Step::Pc(CODE),
];

#[test]
fn atomic_rows_trap_at_addresses_that_are_no_multiple_and_unmapped(rt: HostRuntime) {
    check(&rt, rt.alloc(), &TRAPS);
}
