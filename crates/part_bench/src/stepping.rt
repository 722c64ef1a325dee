//! A loop of arithmetic, a load, a store and a branch on the machine, for bench/step.

use paged_mem::{FlatRam, Ram};
use rv64_machine::{Hart, StepEnd};

/// The loop, as GNU as makes it of bench/step/loop.s.
const CODE: [u8; 48] = [
    0x33, 0x07, 0x57, 0x01, 0x33, 0x77, 0x67, 0x01, 0xb3, 0x02, 0xea, 0x00, 0x03, 0xb4, 0x02, 0x00,
    0xb3, 0x83, 0x83, 0x00, 0xb3, 0xc3, 0x63, 0x00, 0x23, 0xb0, 0x72, 0x00, 0x93, 0xd4, 0x73, 0x00,
    0x33, 0x05, 0x95, 0x00, 0x13, 0x03, 0xf3, 0xff, 0xe3, 0x1c, 0x03, 0xfc, 0x73, 0x00, 0x00, 0x00,
];

/// Where the code lies, on a page of its own, and the data after it.
const CODE_AT: u64 = 0x1_0000;

const DATA_AT: u64 = 0x1_1000;

/// A hart at the loop's start, with its registers set; `None` if memory runs out or there are too many pages.
pub(crate) fn hart_at_loop(rt: &impl AllocGlobal, turns: u64, pages: u64) -> Option<Hart<FlatRam>> {
    if pages > 65_536 {
        return None;
    }
    let mut ram = FlatRam::empty(rt.alloc());
    ram.map_zero(CODE_AT, 1 + pages).ok()?;
    ram.write_from(CODE_AT, &CODE).ok()?;
    let mut hart = Hart::new(ram, CODE_AT);
    hart.set_reg(6, turns);
    hart.set_reg(20, DATA_AT);
    hart.set_reg(21, 4_104);
    hart.set_reg(22, (pages * 4_096).saturating_sub(8));
    Some(hart)
}

/// Steps until the loop calls the system, or `most` steps were done; how many were.
pub(crate) fn steps_of(hart: &mut Hart<FlatRam>, most: u64) -> u64 {
    for done in 0..most {
        match hart.step() {
            StepEnd::Done => {}
            _ => return done,
        }
    }
    most
}
