ghost use Rattle.std.specs.Prelude.{◌≡◌, ℕ, List, Some};
ghost use Rattle.mem_files.specs.Outputs.{OutputLocation};
ghost use Rattle.guest_run.specs.Setting.{Setting};
ghost use Rattle.audit_rules.specs.Contents.{SourceText};
ghost use Rattle.wheeler.specs.Meaning.{Implements};
ghost use Rattle.wheeler.specs.Values.{binary_of};

/// A deterministic semantics of sources with machine code: what a source, run as a program, prescribes. It says nothing about compilers and
/// has no code that runs.
pub trait Semantics {
    /// The source, run as a program in the execution context, prescribes this content at the output.
    ghost prescribes: { SourceText → Setting → OutputLocation → List ℕ → Type 0 };

    /// A source prescribes at most one content at an output.
    ghost fixed: { (source : SourceText) (box : Setting) (output : OutputLocation) (one other : List ℕ)
        → prescribes source box output one → prescribes source box output other → one ≡ other };

    /// The value of a source in hex0, hex1 or hex2 implements the source.
    ghost literal: { (source : SourceText) (program : List ℕ) → binary_of source ≡ Some program → Implements prescribes program source };
}
