//! What the atomic memory operations write.
ghost use Rattle.std.specs.Prelude.{if◌then◌else◌, ◌≡◌, ◌*◌, ◌%◌, ◌^◌, ◌<◌};
ghost use Rattle.paged_mem.specs.Ram.{count_of};
ghost use Rattle.rv64_machine.specs.Atomics.{amo_result};

use crate::arithmetic::{is_less, sum, widened};
use crate::effect::AmoOperation;
use paged_mem::Width;

/// The number whose low bytes an atomic memory operation writes, from the number that it read and the value of rs2.
pub fn amo_result(operation: AmoOperation, width: Width, old: u64, value: u64) -> u64
    requires { old < 2 ^ (8 * count_of width) }
    ensures { result ≡ amo_result operation (8 * count_of width) old value }
{
    let low = low_part(width, value);
    match operation {
        AmoOperation::Swap => value,
        AmoOperation::Add => sum(old, value),
        AmoOperation::Xor => old ^ value,
        AmoOperation::And => old & value,
        AmoOperation::Or => old | value,
        AmoOperation::Min => chosen(
            is_less(widened(width, old), widened(width, low)),
            old,
            value,
        ),
        AmoOperation::Max => chosen(
            is_less(widened(width, low), widened(width, old)),
            old,
            value,
        ),
        AmoOperation::MinUnsigned => chosen(old < low, old, value),
        AmoOperation::MaxUnsigned => chosen(low < old, old, value),
    }
}

fn chosen(test: bool, yes: u64, no: u64) -> u64
    ensures { result ≡ (if test then yes else no) }
{
    if test { yes } else { no }
}

/// The low bits of a number, as many as the width has.
fn low_part(width: Width, value: u64) -> u64
    ensures value { result ≡ value % 2 ^ (8 * count_of width) }
    ensures fits { result < 2 ^ (8 * count_of width) }
{
    match width {
        Width::W1 => value % 0x100,
        Width::W2 => value % 0x1_0000,
        Width::W4 => value % 0x1_0000_0000,
        Width::W8 => value,
    }
}
