//! Programs that start and run.

ghost use Rattle.guest_run.specs.Setting.{IsText};
ghost use Rattle.std.specs.Prelude.{◌≤◌, ◌^◌, IfOk};

use crate::exit_program::{EXIT, altered};
use ddc_base::OutOfMemory;
use guest_run::*;
use paged_mem::Ram;
use rv64_machine::Cause;
use std::alloc::{AllocError, Global};
use std::process::Abort;
use std::test::Fail;

/// Adds a program with exit.elf's header and these code words.
fn put_program(file: &mut Vec<u8>, words: &[u32]) -> Result<(), AllocError> {
    let size = (120 + 4 * (words.len() as u64 & 0xff)).to_le_bytes();
    file.extend_from_slice(&EXIT[..96])?;
    file.extend_from_slice(&size)?;
    file.extend_from_slice(&size)?;
    file.extend_from_slice(&EXIT[112..120])?;
    for word in words {
        file.extend_from_slice(&word.to_le_bytes())?;
    }
    Ok(())
}

/// The program of these code words.
fn program_of(alloc: Global, words: &[u32]) -> Result<Vec<u8>, AllocError> {
    let mut file = Vec::new(alloc);
    put_program(&mut file, words)?;
    Ok(file)
}

/// So many bytes `a`.
fn long_text(alloc: Global, len: usize) -> Result<Vec<u8>, AllocError>
    ensures { IfOk result (λ text. IsText text.items) }
{
    let mut text = Vec::new(alloc);
    'long: for _ in 0..len {
        text.push(b'a')?;
    }
    Ok(text)
}

/// What is asked of a guest, one after the other.
#[derive(Clone, Copy)]
enum Step {
    /// How a run of at most so many steps ends.
    Run(u32, RunEnd),
    /// How a run of at most so many steps up to an address ends.
    RunTo(u32, Option<u64>, RunEnd),
    /// How many steps were taken.
    Steps(u64),
    Register(u8, u64),
    Pc(u64),
    /// The break.
    Break(u64),
    /// At most 16 bytes from an address on.
    Bytes(u64, &'static [u8]),
    /// The name of the first file.
    Name(&'static [u8]),
}

/// Whether a run ends so; none of no step.
fn runs<R: Ram>(guest: &mut Guest<R>, most: u32, want: RunEnd) -> bool {
    guest.steps() < 1_000 && most != 0 && guest.run(u64::from(most)) == want
}

fn runs_to<R: Ram>(guest: &mut Guest<R>, most: u32, stop: Option<u64>, want: RunEnd) -> bool {
    guest.steps() < 1_000 && guest.run_to(u64::from(most), stop) == want
}

fn has_bytes<R: Ram>(guest: &Guest<R>, at: u64, want: &[u8]) -> bool {
    let mut bytes = [0xff; 16];
    match bytes.get_mut(..want.len()) {
        Some(out) => guest.peek(at, out) && &*out == want,
        None => false,
    }
}

/// Whether a step is as it has to be.
fn is_right<R: Ram>(guest: &mut Guest<R>, step: Step) -> bool {
    match step {
        Step::Run(most, want) => runs(guest, most, want),
        Step::RunTo(most, stop, want) => runs_to(guest, most, stop, want),
        Step::Steps(want) => guest.steps() == want,
        Step::Register(number, want) => number < 32 && guest.reg(number) == want,
        Step::Pc(want) => guest.pc() == want,
        Step::Break(want) => guest.heap().now == want,
        Step::Bytes(at, want) => has_bytes(guest, at, want),
        Step::Name(want) => guest.files().name_after(None) == Some(want),
    }
}

fn walk<R: Ram>(rt: &impl Abort, guest: &mut Guest<R>, steps: &[Step]) {
    for (index, step) in steps.iter().enumerate() {
        assert!(rt; is_right(guest, *step), "step {index}");
    }
}

/// Takes steps with a program that starts in a setting.
fn check_in<R: Ram>(
    rt: &impl Abort,
    alloc: Global,
    program: &[u8],
    setting: &RunBox<'_>,
    steps: &[Step],
) {
    let mut guest = Guest::<R>::start(alloc, program, setting).expect(rt, "a start");
    walk(rt, &mut guest, steps);
}

/// The same with a heap of at most so many bytes alone.
fn check(rt: &impl Abort, alloc: Global, program: &[u8], heap: u64, steps: &[Step])
    requires { heap ≤ 2 ^ 30 }
{
    let setting = RunBox::new(alloc, heap);
    check_in::<RunRam>(rt, alloc, program, &setting, steps);
}

/// The same of the program of these code words.
fn check_words(
    rt: &impl Abort,
    alloc: Global,
    words: &[u32],
    heap: u64,
    steps: &[Step],
) -> Result<(), AllocError>
    requires { heap ≤ 2 ^ 30 }
{
    let program = program_of(alloc, words)?;
    Ok(check(rt, alloc, &program, heap, steps))
}

/// Asserts how a program without a heap ends within so many steps, and how many it took before.
fn check_end(rt: &impl Abort, alloc: Global, program: &[u8], most: u32, end: RunEnd, steps: u64) {
    check(
        rt,
        alloc,
        program,
        0,
        &[Step::Run(most, end), Step::Steps(steps)],
    );
}

#[test]
fn runs_programs(rt: HostRuntime) {
    let alloc = rt.alloc();
    check_end(&rt, alloc, &EXIT, 3, RunEnd::Exited(0), 2);
    check_end(&rt, alloc, &EXIT, 9, RunEnd::Exited(0), 2);
    check_end(&rt, alloc, &EXIT, 2, RunEnd::Spent, 2);
    let unknown = altered(124, 0x0000_0893);
    check_end(&rt, alloc, &unknown, 9, RunEnd::UnknownCall(0), 2);
    let illegal = altered(120, 0);
    check_end(
        &rt,
        alloc,
        &illegal,
        9,
        RunEnd::Trapped(Cause::Illegal(0)),
        0,
    );
}

/// Runs of `EXIT` up to an address, and how many steps each takes. Its three instructions stand at 0x10078; the third is the call.
static STOPS: [[Step; 2]; 8] = [
    [Step::RunTo(9, Some(0x1007C), RunEnd::Spent), Step::Steps(1)],
    [Step::RunTo(9, Some(0x10080), RunEnd::Spent), Step::Steps(2)],
    [Step::RunTo(2, Some(0x10080), RunEnd::Spent), Step::Steps(2)],
    [Step::RunTo(1, Some(0x10080), RunEnd::Spent), Step::Steps(1)],
    [
        Step::RunTo(9, Some(0x10078), RunEnd::Exited(0)),
        Step::Steps(2),
    ],
    [
        Step::RunTo(9, Some(0x1007D), RunEnd::Exited(0)),
        Step::Steps(2),
    ],
    [Step::RunTo(9, None, RunEnd::Exited(0)), Step::Steps(2)],
    [Step::RunTo(0, Some(0x1007C), RunEnd::Spent), Step::Steps(0)],
];

#[test]
fn runs_up_to_an_address(rt: HostRuntime) {
    for steps in &STOPS {
        check(&rt, rt.alloc(), &EXIT, 0, steps);
    }
}

/// Adds an argument and two files; whether these are taken, and a file of the same name is refused.
fn give_argument_and_files(setting: &mut RunBox<'_>) -> bool {
    setting.push_arg(b"x").is_ok()
        && setting.place(b"./b", b"two").is_ok()
        && setting.place(b"a", b"one").is_ok()
        && setting.place(b"b", b"").is_err()
}

static STARTED: [Step; 7] = [
    Step::Register(2, 0x3f_ffff_ffc0),
    Step::Bytes(
        0x3f_ffff_ffc0,
        &[
            1, 0, 0, 0, 0, 0, 0, 0, 0xfe, 0xff, 0xff, 0xff, 0x3f, 0, 0, 0,
        ],
    ),
    Step::Break(0x11000),
    Step::Pc(0x10078),
    Step::Name(b"a"),
    Step::Run(3, RunEnd::Exited(0)),
    Step::Run(3, RunEnd::Exited(0)),
];

#[test]
fn starts_with_an_argument_and_a_file(rt: HostRuntime) {
    let mut setting = RunBox::new(rt.alloc(), 4_096);
    assert!(rt; give_argument_and_files(&mut setting));
    check_in::<RunRam>(&rt, rt.alloc(), &EXIT, &setting, &STARTED);
}

fn give_environment(setting: &mut RunBox<'_>) -> bool {
    setting.push_arg(b"x").is_ok() && setting.push_env(b"A=1").is_ok()
}

/// The texts `x` and `A=1` take 6 bytes, the seven words 56; so x2 is 2^38 less 62, rounded down to 16.
static WITH_ENVIRONMENT: [Step; 3] = [
    Step::Register(2, 0x3f_ffff_ffc0),
    Step::Bytes(0x3f_ffff_ffd8, &[0xfc, 0xff, 0xff, 0xff, 0x3f, 0, 0, 0]),
    Step::Bytes(0x3f_ffff_fffc, &[0x41, 0x3d, 0x31, 0]),
];

#[test]
fn starts_with_an_environment_text(rt: HostRuntime) {
    let mut setting = RunBox::new(rt.alloc(), 4_096);
    assert!(rt; give_environment(&mut setting));
    check_in::<RunRam>(&rt, rt.alloc(), &EXIT, &setting, &WITH_ENVIRONMENT);
}

/// A store rewrites the next instruction.
static REWRITING: [u32; 7] = [
    0x0070_02b7,
    0x5132_8293,
    0x0001_0337,
    0x0853_2423,
    0x0010_0513,
    0x05d0_0893,
    0x0000_0073,
];

/// brk(0); brk(0x13000); 5A is stored at 0x12000; brk(0x11000); a load there.
static SHRINKING: [u32; 11] = [
    0x0d60_0893,
    0x0000_0513,
    0x0000_0073,
    0x0001_3537,
    0x0000_0073,
    0x0001_22b7,
    0x05a0_0313,
    0x0062_8023,
    0x0001_1537,
    0x0000_0073,
    0x0002_c383,
];

/// brk(0x13000); 5A is stored at 0x12000; brk(0x11000); brk(0x13000); a load there; brk(1).
static GROWING: [u32; 13] = [
    0x0d60_0893,
    0x0001_3537,
    0x0000_0073,
    0x0001_22b7,
    0x05a0_0313,
    0x0062_8023,
    0x0001_1537,
    0x0000_0073,
    0x0001_3537,
    0x0000_0073,
    0x0002_c383,
    0x0010_0513,
    0x0000_0073,
];

#[test]
fn stores_into_code(rt: HostRuntime) -> Result<(), Fail> {
    let steps = [Step::Run(7, RunEnd::Exited(7)), Step::Steps(6)];
    Ok(check_words(&rt, rt.alloc(), &REWRITING, 0, &steps)?)
}

static SHRUNK: [Step; 6] = [
    Step::Run(3, RunEnd::Spent),
    Step::Register(10, 69_632),
    Step::Run(2, RunEnd::Spent),
    Step::Register(10, 77_824),
    Step::Run(9, RunEnd::Trapped(Cause::LoadUnmapped(0x12000))),
    Step::Steps(10),
];

#[test]
fn takes_memory_away_at_a_lower_break(rt: HostRuntime) -> Result<(), Fail> {
    Ok(check_words(&rt, rt.alloc(), &SHRINKING, 1_048_576, &SHRUNK)?)
}

static GROWN: [Step; 3] = [
    Step::Run(13, RunEnd::Spent),
    Step::Register(7, 0),
    Step::Register(10, 77_824),
];

#[test]
fn gives_zeros_at_a_higher_break(rt: HostRuntime) -> Result<(), Fail> {
    Ok(check_words(&rt, rt.alloc(), &GROWING, 1_048_576, &GROWN)?)
}

/// lr.w x5, (x2); sc.w x10, x5, (x2); exit.
static RESERVING: [u32; 4] = [0x1001_22af, 0x1851_252f, 0x05d0_0893, 0x0000_0073];

/// A call's number and first argument; lr.w x5, (x2); the call; sc.w x10, x5, (x2); exit.
fn reserving_over_a_call(number: u32, argument: u32) -> [u32; 7] {
    [
        0x0000_0893 | (number & 0xfff) << 20,
        0x0000_0513 | (argument & 0xfff) << 20,
        0x1001_22af,
        0x0000_0073,
        0x1851_252f,
        0x05d0_0893,
        0x0000_0073,
    ]
}

/// How a program that reserves over a call ends.
fn check_reserving(
    rt: &impl Abort,
    alloc: Global,
    number: u32,
    argument: u32,
) -> Result<(), AllocError> {
    let words = reserving_over_a_call(number, argument);
    let steps = [Step::Run(9, RunEnd::Exited(1)), Step::Steps(6)];
    check_words(rt, alloc, &words, 0, &steps)
}

fn check_reservations(rt: &impl Abort, alloc: Global) -> Result<(), AllocError> {
    let steps = [Step::Run(9, RunEnd::Exited(0)), Step::Steps(3)];
    check_words(rt, alloc, &RESERVING, 0, &steps)?;
    check_reserving(rt, alloc, 214, 0)?;
    check_reserving(rt, alloc, 57, 77)
}

/// A call after which the program continues ends a reservation: one that is served, as brk(0), and one that is refused, as the close of no
/// descriptor.
#[test]
fn calls_end_a_reservation(rt: HostRuntime) -> Result<(), Fail> {
    Ok(check_reservations(&rt, rt.alloc())?)
}

/// The stack pointer of a program without words is 2^38 - 48.
const MISALIGNED: u64 = 0x3f_ffff_ffd2;

/// addi x2, x2, 2, and lr.w x5, (x2) or amoadd.w x5, x5, (x2).
static ATOMIC: [([u32; 2], Cause); 2] = [
    ([0x0021_0113, 0x1001_22af], Cause::LoadUnmapped(MISALIGNED)),
    ([0x0021_0113, 0x0051_22af], Cause::StoreUnmapped(MISALIGNED)),
];

/// Asserts that a program traps after its first step.
fn check_trap(
    rt: &impl Abort,
    alloc: Global,
    words: &[u32],
    cause: Cause,
) -> Result<(), AllocError> {
    let steps = [Step::Run(9, RunEnd::Trapped(cause)), Step::Steps(1)];
    check_words(rt, alloc, words, 0, &steps)
}

#[test]
fn misaligned_atomic_accesses_trap(rt: HostRuntime) -> Result<(), Fail> {
    for &(words, cause) in &ATOMIC {
        check_trap(&rt, rt.alloc(), &words, cause)?;
    }
    Ok(())
}

/// Why `EXIT` does not start in a setting; none where it does.
fn refusal_in(alloc: Global, setting: &RunBox<'_>) -> Option<StartRefusal> {
    Guest::<RunRam>::start(alloc, &EXIT, setting).err()
}

/// The same with an argument.
fn refusal_with(alloc: Global, argument: &[u8]) -> Result<Option<StartRefusal>, OutOfMemory>
    requires { IsText argument.now }
{
    let mut setting = RunBox::new(alloc, 0);
    setting.push_arg(argument)?;
    Ok(refusal_in(alloc, &setting))
}

/// The same with an argument of so many bytes.
fn refusal_at(alloc: Global, len: usize) -> Result<Option<StartRefusal>, OutOfMemory> {
    let text = long_text(alloc, len)?;
    refusal_with(alloc, &text)
}

#[test]
fn limits_the_texts(rt: HostRuntime) -> Result<(), Fail> {
    // 131,023 bytes, a zero byte and six words are 131,072.
    assert!(rt; refusal_at(rt.alloc(), 131_023)? == None);
    assert!(rt; refusal_at(rt.alloc(), 131_024)? == Some(StartRefusal::ArgsTooLong));
    Ok(())
}
