//! The laws of semantics, at those of `meaning` and at a language of its own.

ghost use Rattle.std.specs.Prelude.{◌≡◌, ℕ, List, None};
ghost use Rattle.std.proofs.Common.{sym, ◌∙◌};
ghost use Rattle.mem_files.specs.Outputs.{OutputLocation};
ghost use Rattle.guest_run.specs.Setting.{Setting};
ghost use Rattle.wheeler.specs.Assembly.{ValueLeaves, ValueLeavesValue};
ghost use Rattle.wheeler.specs.Largest.{AllImplement, CompilesNoMore};
ghost use Rattle.wheeler.specs.Values.{binary_of};
ghost use Rattle.wheeler.specs.WithMachineCode.{MachineCodeOr};
ghost use Rattle.audit_rules.specs.Contents.{SourceText};
ghost use Rattle.audit_rules.specs.SourceCheck.Checks.{joined_files};

use wheeler::{Assembly, MacroAssembly, OtherLanguages, semantics_laws};

/// A language whose sources prescribe their own text at every output.
struct Quoting;

impl OtherLanguages for Quoting {
    ghost prescribes = { λ source box output content. content ≡ joined_files source.files };

    ghost fixed = { λ source box output one other first second. first ∙ sym second };
}

/// `Assembly` compiles no more than the largest relation for what it prescribes.
fn assembly_is_within()
    ensures { CompilesNoMore ValueLeavesValue (AllImplement ValueLeaves) }
{
    semantics_laws::a_meaning_compiles_no_more::<Assembly>();
}

/// A source without a value prescribes its own text, beside machine code too, and nothing else.
fn quotes_stay_quotes()
    ensures { (source : SourceText) → binary_of source ≡ None → (box : Setting) (output : OutputLocation) (content : List ℕ)
        → (MachineCodeOr ⟦<Quoting as OtherLanguages>⟧.prescribes source box output content → content ≡ joined_files source.files)
        × (content ≡ joined_files source.files → MachineCodeOr ⟦<Quoting as OtherLanguages>⟧.prescribes source box output content) }
{
    semantics_laws::others_as_given::<Quoting>();
}

/// The conclusion of a bench at each of them.
#[test]
fn at_semantics(_rt: HostRuntime) {
    assembly_is_within();
    quotes_stay_quotes();
    semantics_laws::the_bench_concludes::<MacroAssembly>();
    semantics_laws::the_bench_concludes_in_any_language::<Quoting>();
}
