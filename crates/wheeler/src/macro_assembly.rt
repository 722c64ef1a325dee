ghost use Rattle.wheeler.specs.MacroAssembly.{MacroLeaves, program_of_text};
ghost use Rattle.wheeler.specs.Inside.MacroLaws.{literal-program};
ghost use Rattle.wheeler.specs.Inside.RunLaws.{fixed-program};
ghost use Rattle.guest_run.proofs.Programs.{one-run};

use crate::semantics::Semantics;

/// The semantics of hex0, hex1, hex2 and M1 sources: what a run of their program leaves. The program of a source in M1 is the link of its items
/// at its base, and that of the others their value.
///
/// A source in any other language, or without a program, prescribes nothing.
pub struct MacroAssembly;

impl Semantics for MacroAssembly {
    ghost prescribes = { MacroLeaves };

    ghost fixed = { fixed-program program_of_text one-run };

    ghost literal = { literal-program };
}
