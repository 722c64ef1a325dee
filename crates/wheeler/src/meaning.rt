ghost use Rattle.std.specs.Prelude.{◌≡◌, ℕ, List, Some};
ghost use Rattle.mem_files.specs.Outputs.{OutputLocation};
ghost use Rattle.guest_run.specs.Setting.{Setting};
ghost use Rattle.audit_rules.specs.Contents.{SourceText};
ghost use Rattle.wheeler.specs.Meaning.{Implements};
ghost use Rattle.wheeler.specs.Values.{binary_of};

/// What sources mean: two relations, and the three laws that Wheeler's argument needs. It has no code that runs.
///
/// A program implements a source if, in every valid execution context, whatever it leaves at an output when it exits with 0 is prescribed
/// there by the source.
pub trait Meaning {
    /// The source, run as a program in the execution context, prescribes this content at the output.
    ghost prescribes: { SourceText → Setting → OutputLocation → List ℕ → Type 0 };

    /// What the source prescribes at the output is a program of the other source.
    ghost compiles: { SourceText → Setting → OutputLocation → SourceText → Type 0 };

    /// A source prescribes at most one content at an output.
    ghost fixed: { (source : SourceText) (box : Setting) (output : OutputLocation) (one other : List ℕ)
        → prescribes source box output one → prescribes source box output other → one ≡ other };

    /// If a source compiles another source, what it prescribes there implements the other.
    ghost carry: { (source other : SourceText) (box : Setting) (output : OutputLocation) (program : List ℕ)
        → prescribes source box output program → compiles source box output other → Implements prescribes program other };

    /// The value of a source in hex0, hex1 or hex2 implements the source.
    ghost literal: { (source : SourceText) (program : List ℕ) → binary_of source ≡ Some program → Implements prescribes program source };
}
