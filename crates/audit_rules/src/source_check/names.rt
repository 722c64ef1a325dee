//! Equality of two parts of items.

ghost use Rattle.std.specs.Prelude.{◌≡◌, bytes_eq};
ghost use Rattle.audit_rules.specs.SourceCheck.Checks.{same_kind};

use hex_langs::items::{Kind, LabelName};

/// Whether two names have the same bytes.
pub fn same_name(one: &LabelName<'_>, other: &LabelName<'_>) -> bool
    ensures { result ≡ bytes_eq one.now other.now }
{
    one.bytes() == other.bytes()
}

/// Whether two references are of the same kind.
pub fn same_kind(one: Kind, other: Kind) -> bool
    ensures { result ≡ same_kind one other }
{
    one == other
}
