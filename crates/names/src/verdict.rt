ghost use Rattle.std.specs.Prelude.{◌≡◌, Some};
ghost use Rattle.names.specs.VerdictText.{verdict_text};

use crate::permissions::Perms;
use std::fmt;

/// What the rules of a profile say about a name and the permissions that are asked for.
/// It is printed as `allowed`, `denied by rule K` or `no rule for X`.
#[derive(Clone, Copy, Debug, PartialEq, Eq)]
pub enum Verdict {
    /// Each asked permission is allowed by some rule, and none is denied.
    Allowed,
    /// Some asked permission is denied; `rule` is the least number of a rule that denies one.
    Denied { rule: u16 },
    /// No asked permission is denied, and no rule allows the missing ones.
    NoRule { missing: Perms },
}

impl fmt::Display for Verdict {
    ghost output = { λ v. Some (verdict_text v) };

    fn fmt<W: fmt::Write>(&self, f: &mut fmt::Formatter<W>) -> fmt::Result {
        match self {
            Verdict::Allowed => write!(f, "allowed"),
            Verdict::Denied { rule } => write!(f, "denied by rule {rule}"),
            Verdict::NoRule { missing } => write!(f, "no rule for {missing}"),
        }
    }
}
