//! What comparisons say.

ghost use Rattle.std.specs.Prelude.{◌≡◌};
ghost use Rattle.audit_rules.specs.Bench.{all_equal, is_equal};

use report::{CompareLine, Compared};

/// Whether each comparison says that the artefact and the binary are equal.
pub fn all_equal(lines: &[CompareLine]) -> bool
    ensures { result ≡ all_equal lines.now }
{
    lines.iter().all(|line| is_equal(line.result))
}

/// Whether a comparison says that the artefact and the binary are equal.
fn is_equal(compared: Compared) -> bool
    ensures { result ≡ is_equal compared }
{
    match compared {
        Compared::Equal(_) => true,
        Compared::Differs(..) => false,
    }
}
