//! Rows and acts of the machine, beside what an independent machine did and by the standard's tables.

mod cases;

ghost use Rattle.paged_mem.specs.Memory.{with_bytes, zeros};
ghost use Rattle.std.specs.FinMap as map;
ghost use Rattle.std.specs.Prelude.{◌≡◌, IfOk, None, replicate};

use crate::steps::{Step, check, gives, holds, run, run_on};
use cases::{BRANCHES, KNOWN, LOADS, REGISTERS, STORES};
use ddc_base::OutOfMemory;
use paged_mem::{FlatRam, PagedRam, Ram, Width};
use rv64_machine::{Cause, Hart, StepEnd, laws};
use std::alloc::Global;
use std::process::Abort;

/// A hart at 0x10000 over three pages of zeros from there on.
fn made<R: Ram>(alloc: Global) -> Result<Hart<R>, OutOfMemory>
    ensures { IfOk result (λ hart. hart ≡ record {
      registers = replicate 32 0;
      pc = 65536;
      memory = with_bytes map.empty 65536 (zeros 12288);
      reservation = None;
    }) }
{
    let mut ram = R::empty(alloc);
    ram.map_zero(0x10000, 3)?;
    Ok(Hart::new(ram, 0x10000))
}

pub(crate) fn fresh<R: Ram>(rt: &impl Abort, alloc: Global) -> Hart<R> {
    made(alloc).expect(rt, "memory")
}

/// Whether a word on values of x11 and x12 is done, with x10 and how far the pc goes.
fn does<R: Ram>(
    rt: &impl Abort,
    hart: &mut Hart<R>,
    (word, a, b): (u32, u64, u64),
    x10: u64,
    way: u64,
) -> bool {
    let pc = hart.pc();
    gives(rt, hart, (word, a, b), (10, x10)) && hart.pc().wrapping_sub(pc) == way
}

/// A word, the values of x11 and x12, and the value that x10 takes.
type Row = (u32, u64, u64, u64);

fn check_registers<R: Ram>(rt: &impl Abort, hart: &mut Hart<R>, rows: &[Row]) {
    for (index, &(word, a, b, x10)) in rows.iter().enumerate() {
        assert!(rt; does(rt, hart, (word, a, b), x10, 4), "row {index}");
    }
}

/// Whether a branch leaves x10, and is taken where it has to be.
fn branches<R: Ram>(
    rt: &impl Abort,
    hart: &mut Hart<R>,
    words: (u32, u64, u64),
    taken: u64,
) -> bool {
    let x10 = hart.reg(10);
    does(rt, hart, words, x10, if taken == 1 { 12 } else { 4 })
}

fn check_branches<R: Ram>(rt: &impl Abort, hart: &mut Hart<R>) {
    for (index, &(word, a, b, taken)) in BRANCHES.iter().enumerate() {
        assert!(rt; branches(rt, hart, (word, a, b), taken), "row {index}");
    }
}

/// Puts the known bytes in memory.
fn place_known<R: Ram>(hart: &mut Hart<R>) -> bool {
    hart.ram_mut().store(0x12000, Width::W8, KNOWN[0]).is_ok()
        && hart.ram_mut().store(0x12008, Width::W8, KNOWN[1]).is_ok()
        && hart.ram_mut().store(0x12010, Width::W8, KNOWN[2]).is_ok()
}

fn check_loads<R: Ram>(rt: &impl Abort, hart: &mut Hart<R>) {
    for &(word, result) in &LOADS {
        assert!(rt;
            does(rt, hart, (word, 0x12008, 0), result, 4),
            "word {word}"
        );
    }
}

/// Whether a store into the known bytes leaves these numbers.
fn stores<R: Ram>(
    rt: &impl Abort,
    hart: &mut Hart<R>,
    word: u32,
    value: u64,
    after: (u64, u64, u64),
) -> bool {
    place_known(hart)
        && run_on(rt, hart, word, 0x12008, value) == StepEnd::Done
        && holds(hart, 0x12000, after.0)
        && holds(hart, 0x12008, after.1)
        && holds(hart, 0x12010, after.2)
}

fn check_stores<R: Ram>(rt: &impl Abort, hart: &mut Hart<R>) {
    for &(word, value, low, middle, high) in &STORES {
        assert!(rt;
            stores(rt, hart, word, value, (low, middle, high)),
            "word {word}"
        );
    }
}

fn check_rows<R: Ram>(rt: &impl Abort, hart: &mut Hart<R>) {
    check_registers(rt, hart, &REGISTERS);
    check_branches(rt, hart);
    assert!(rt; place_known(hart));
    check_loads(rt, hart);
    check_stores(rt, hart);
}

#[test]
fn rows_do_what_an_independent_machine_does(rt: HostRuntime) {
    let mut hart: Hart<PagedRam> = fresh(&rt, rt.alloc());
    check_rows(&rt, &mut hart);
}

/// Division by zero and overflow, by the table in the standard's chapter on M, on 64 bits and on words.
static DIVISIONS: [Row; 6] = [
    (
        0x02c5c533,
        0x8000000000000000,
        0xFFFFFFFFFFFFFFFF,
        0x8000000000000000,
    ), // DIV
    (0x02c5e533, 0x8000000000000000, 0xFFFFFFFFFFFFFFFF, 0), // REM
    (0x02c5c533, 7, 0, 0xFFFFFFFFFFFFFFFF), // DIV
    (0x02c5f53b, 0x180000005, 0, 0xFFFFFFFF80000005), // REMUW
    (
        0x02c5c53b,
        0x180000000,
        0xFFFFFFFFFFFFFFFF,
        0xFFFFFFFF80000000,
    ), // DIVW
    (0x02c5c53b, 0x180000000, 3, 0xFFFFFFFFD5555556), // DIVW
];

#[test]
fn divisions_at_their_edges(rt: HostRuntime) {
    let mut hart: Hart<PagedRam> = fresh(&rt, rt.alloc());
    check_registers(&rt, &mut hart, &DIVISIONS);
}

/// Runs a word on 9 in x10 and a value of x11, and gives how the step ends, x10, and how far the pc went.
fn run_word<R: Ram>(
    rt: &impl Abort,
    hart: &mut Hart<R>,
    word: u32,
    x11: u64,
) -> (StepEnd, u64, u64) {
    hart.set_reg(10, 9);
    hart.set_reg(11, x11);
    let end = run(rt, hart, word);
    assert!(rt; hart.reg(11) == x11 && hart.reg(0) == 0);
    (end, hart.reg(10), hart.pc().wrapping_sub(0x10000))
}

/// The same on a new hart.
fn run_once(rt: &impl Abort, alloc: Global, word: u32, x11: u64) -> (StepEnd, u64, u64) {
    let mut hart: Hart<PagedRam> = fresh(rt, alloc);
    run_word(rt, &mut hart, word, x11)
}

/// A word, the value of x11, and then x10 and how far the pc went.
static GOING_ON: [(u32, u64, u64, u64); 8] = [
    (0xfff58013, 7, 9, 4), // ADDI x0, x11, -1
    (0x00001517, 0, 0x11000, 4), // AUIPC x10, 1
    (0x80000517, 0, 0xFFFFFFFF80010000, 4), // AUIPC x10, 0x80000
    (0x0080056f, 0, 0x10004, 8), // JAL x10, 8
    (0x00558567, 0x10100, 0x10004, 0x104), // JALR x10, 5(x11)
    (0x00058567, 0x10101, 0x10004, 0x100), // JALR x10, 0(x11)
    (0x00058363, 1, 9, 4), // BEQ x11, x0, 6, not taken
    (0x0ff0000f, 0, 9, 4), // FENCE
];

#[test]
fn rows_that_go_on(rt: HostRuntime) {
    for &(word, x11, x10, way) in &GOING_ON {
        let ran = run_once(&rt, rt.alloc(), word, x11);
        assert!(rt; ran == (StepEnd::Done, x10, way), "word {word}");
    }
}

/// A word, the value of x11, and how the step ends, which leaves x10 and the pc.
static STOPPING: [(u32, u64, StepEnd); 10] = [
    (
        0x0060056f,
        0,
        StepEnd::Trap(Cause::FetchMisaligned(0x10006)),
    ), // JAL x10, 6
    (
        0x00358567,
        0x10100,
        StepEnd::Trap(Cause::FetchMisaligned(0x10102)),
    ), // JALR x10, 3(x11)
    (
        0x00058363,
        0,
        StepEnd::Trap(Cause::FetchMisaligned(0x10006)),
    ), // BEQ x11, x0, 6, taken
    (
        0x0005b503,
        0x12FFC,
        StepEnd::Trap(Cause::LoadUnmapped(0x12FFC)),
    ), // LD x10, 0(x11)
    (
        0x0005b503,
        0xFFFFFFFFFFFFFFFC,
        StepEnd::Trap(Cause::LoadUnmapped(0xFFFFFFFFFFFFFFFC)),
    ), // LD x10, 0(x11)
    (
        0x00b5b023,
        0x12FF9,
        StepEnd::Trap(Cause::StoreUnmapped(0x12FF9)),
    ), // SD x11, 0(x11)
    (0x00000000, 0, StepEnd::Trap(Cause::Illegal(0))),
    (0x00008002, 0, StepEnd::Trap(Cause::Illegal(0x8002))), // a compressed instruction
    (0x00100073, 0, StepEnd::Trap(Cause::Break)), // EBREAK
    (0x00000073, 0, StepEnd::Call), // ECALL
];

#[test]
fn rows_that_stop(rt: HostRuntime) {
    for &(word, x11, end) in &STOPPING {
        assert!(rt;
            run_once(&rt, rt.alloc(), word, x11) == (end, 9, 0),
            "word {word}"
        );
    }
}

/// JAL x0, -8, out of the mapped pages: the jump is carried out, and the next fetch traps.
static CALLS: [Step; 6] = [
    Step::Word(0x00000073, StepEnd::Call),
    Step::Answer(3),
    Step::Register(10, 3),
    Step::Pc(0x10004),
    Step::Word(0xff9ff06f, StepEnd::Done),
    Step::Ends(StepEnd::Trap(Cause::FetchUnmapped(0xFFFC))),
];

#[test]
fn calls_and_fetches(rt: HostRuntime) {
    check(&rt, rt.alloc(), &CALLS);
}

/// lui x5, 0x700; addi x5, x5, 0x513: together the word of addi x10, x0, 7. lui x6, 0x10; sw x5, 16(x6)
/// puts it over addi x10, x0, 1, which follows. Then addi x17, x0, 93; ecall. A call ends a run before it.
static REWRITING: [Step; 17] = [
    Step::Put(0x10000, 0x007002B7),
    Step::Put(0x10004, 0x51328293),
    Step::Put(0x10008, 0x00010337),
    Step::Put(0x1000C, 0x00532823),
    Step::Put(0x10010, 0x00100513),
    Step::Put(0x10014, 0x05D00893),
    Step::Put(0x10018, 0x00000073),
    Step::Ends(StepEnd::Done),
    Step::Ends(StepEnd::Done),
    Step::Ends(StepEnd::Done),
    Step::Ends(StepEnd::Done),
    Step::Ends(StepEnd::Done),
    Step::Ends(StepEnd::Done),
    Step::Ends(StepEnd::Call),
    Step::Register(10, 7),
    Step::Register(17, 93),
    Step::Run(3, StepEnd::Call, 0),
];

#[test]
fn a_store_over_the_next_instruction_is_run(rt: HostRuntime) {
    check(&rt, rt.alloc(), &REWRITING);
}

/// Whether two equal harts answer a step alike.
fn step_alike<R: Ram, S: Ram>(one: &mut Hart<R>, other: &mut Hart<S>) -> bool
    requires { one.old ≡ other.old }
{
    let (first, second) = laws::equal_harts_step_alike(one, other);
    first == second
}

/// Whether a new hart and another one over such memories do.
fn steps_as_another<R: Ram, S: Ram>(alloc: Global, one: &mut Hart<R>) -> bool
    requires { one.old ≡ record {
      registers = replicate 32 0;
      pc = 65536;
      memory = with_bytes map.empty 65536 (zeros 12288);
      reservation = None;
    } }
{
    match made::<S>(alloc) {
        Ok(mut other) => step_alike(one, &mut other),
        Err(_) => false,
    }
}

fn new_ones_step_alike<R: Ram, S: Ram>(alloc: Global) -> bool {
    match made::<R>(alloc) {
        Ok(mut one) => steps_as_another::<R, S>(alloc, &mut one),
        Err(_) => false,
    }
}

#[test]
fn equal_harts_step_alike(rt: HostRuntime) {
    assert!(rt; new_ones_step_alike::<PagedRam, FlatRam>(rt.alloc()));
    laws::only_stores_write();
    laws::nothing_is_mapped();
    laws::a_store_writes_its_access();
    laws::a_stored_word_is_fetched();
}

/// Two steps that do nothing, and then a word that is no instruction.
static RUNS: [Step; 7] = [
    Step::Put(0x10000, 0x0000_0013),
    Step::Put(0x10004, 0x0000_0013),
    Step::Run(0, StepEnd::Done, 0),
    Step::Run(1, StepEnd::Done, 1),
    Step::Pc(0x10004),
    Step::Run(9, StepEnd::Trap(Cause::Illegal(0)), 1),
    Step::Pc(0x10008),
];

#[test]
fn runs_of_steps(rt: HostRuntime) {
    check(&rt, rt.alloc(), &RUNS);
}

/// Puts a loop of three instructions at 0x10000: two that do nothing, and JAL x0, -8.
fn put_loop<R: Ram>(hart: &mut Hart<R>) -> bool {
    hart.ram_mut()
        .store(0x10000, Width::W4, 0x0000_0013)
        .is_ok()
        && hart
            .ram_mut()
            .store(0x10004, Width::W4, 0x0000_0013)
            .is_ok()
        && hart
            .ram_mut()
            .store(0x10008, Width::W4, 0xff9f_f06f)
            .is_ok()
}

/// The most steps, an address, how many steps a hart does up to it in the loop, and where it stands then.
static STOPS: [(u64, Option<u64>, u64, u64); 8] = [
    (9, Some(0x10004), 1, 0x10004),
    (9, Some(0x10008), 2, 0x10008),
    // The address at which it stands is reached when the loop comes back.
    (9, Some(0x10000), 3, 0x10000),
    (3, Some(0x10000), 3, 0x10000),
    (2, Some(0x10000), 2, 0x10008),
    (4, Some(0x10001), 4, 0x10004),
    (4, None, 4, 0x10004),
    (0, Some(0x10004), 0, 0x10000),
];

/// How a run in the loop ends, how many steps it does, and where the hart stands then.
fn run_loop<R: Ram>(
    rt: &impl Abort,
    hart: &mut Hart<R>,
    most: u64,
    stop: Option<u64>,
) -> (StepEnd, u64, u64) {
    assert!(rt; put_loop(hart));
    let (end, done) = hart.run_to(most, stop);
    (end, done, hart.pc())
}

/// The same on a new hart.
fn run_loop_anew(
    rt: &impl Abort,
    alloc: Global,
    most: u64,
    stop: Option<u64>,
) -> (StepEnd, u64, u64) {
    let mut hart: Hart<PagedRam> = fresh(rt, alloc);
    run_loop(rt, &mut hart, most, stop)
}

#[test]
fn runs_up_to_an_address(rt: HostRuntime) {
    for &(most, stop, done, pc) in &STOPS {
        let ran = run_loop_anew(&rt, rt.alloc(), most, stop);
        assert!(rt; ran == (StepEnd::Done, done, pc), "{most}");
    }
}
