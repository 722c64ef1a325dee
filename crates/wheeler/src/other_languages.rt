ghost use Rattle.std.specs.Prelude.{◌≡◌, ℕ, List};
ghost use Rattle.mem_files.specs.Outputs.{OutputLocation};
ghost use Rattle.guest_run.specs.Setting.{Setting};
ghost use Rattle.audit_rules.specs.Contents.{SourceText};
ghost use Rattle.wheeler.specs.WithMachineCode.{MachineCodeOr};
ghost use Rattle.wheeler.specs.WithMacroCode.{MacroCodeOr};
ghost use Rattle.wheeler.specs.Inside.MacroOrLaws.{fixed-macro-or, literal-macro-or};
ghost use Rattle.wheeler.specs.Inside.OtherLaws.{fixed-or, literal-or};
ghost use Rattle.guest_run.proofs.Programs.{one-run};

use crate::semantics::Semantics;
use std::marker::PhantomData;

/// A deterministic semantics of sources in other languages, such as C: any relation that prescribes at most one content. It is not used for
/// sources in hex0, hex1 and hex2 that have a value. It has no code that runs.
pub trait OtherLanguages {
    /// The source, run as a program in the execution context, prescribes this content at the output.
    ghost prescribes: { SourceText → Setting → OutputLocation → List ℕ → Type 0 };

    /// A source prescribes at most one content at an output.
    ghost fixed: { (source : SourceText) (box : Setting) (output : OutputLocation) (one other : List ℕ)
        → prescribes source box output one → prescribes source box output other → one ≡ other };
}

/// A semantics of other languages beside machine code. A source with a value in hex0, hex1 or hex2 prescribes what runs of the value leave;
/// any other source prescribes what `L` says.
pub struct WithMachineCode<L> {
    others: PhantomData<L>,
}

impl<L: OtherLanguages> Semantics for WithMachineCode<L> {
    ghost prescribes = { MachineCodeOr L.prescribes };

    ghost fixed = { fixed-or L.prescribes L.fixed one-run };

    ghost literal = { literal-or L.prescribes };
}

/// A semantics of other languages beside machine code and M1. A source with a program in hex0, hex1, hex2 or M1 prescribes what runs of that
/// program leave; any other source prescribes what `L` says.
pub struct WithMacroCode<L> {
    others: PhantomData<L>,
}

impl<L: OtherLanguages> Semantics for WithMacroCode<L> {
    ghost prescribes = { MacroCodeOr L.prescribes };

    ghost fixed = { fixed-macro-or L.prescribes L.fixed one-run };

    ghost literal = { literal-macro-or L.prescribes };
}
