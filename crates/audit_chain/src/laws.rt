//! The law of composed audits. It is the contract of a function that does nothing.

ghost use Rattle.audit_chain.specs.Composed.{EachConcludes, IsTrueAudit, RemainingHold};
ghost use Rattle.audit_chain.specs.declared.link.Link.{Link};
ghost use Rattle.std.specs.Prelude.{All, List};

use verifier::laws::one_report;
use wheeler::Meaning;
use wheeler::laws::an_equal_bench_concludes;

/// If several audits have true reports whose comparisons are all equal, and every assumption left of them holds, each audit concludes,
/// whatever sources mean. Then its assumptions hold, every stage follows, and its audited binary implements the source of each compared
/// stage that has one.
pub fn composed<M: Meaning>()
    ensures { (links : List Link) → All IsTrueAudit links → RemainingHold M.prescribes M.compiles links → EachConcludes M.prescribes M.compiles links }
{
    one_report();
    an_equal_bench_concludes::<M>();
}
