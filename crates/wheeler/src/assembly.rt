ghost use Rattle.wheeler.specs.Assembly.{ValueLeaves, ValueLeavesValue};
ghost use Rattle.wheeler.specs.Inside.AssemblyLaws.{carry-value, fixed-value, literal-value};
ghost use Rattle.guest_run.proofs.Programs.{one-run};

use crate::meaning::Meaning;

/// The meaning of hex0, hex1 and hex2 sources alone: a source means what a run of its value leaves.
///
/// A source in another language, or without a value, prescribes nothing and compiles nothing.
pub struct Assembly;

impl Meaning for Assembly {
    ghost prescribes = { ValueLeaves };

    ghost compiles = { ValueLeavesValue };

    ghost fixed = { fixed-value one-run };

    ghost carry = { carry-value one-run };

    ghost literal = { literal-value };
}
