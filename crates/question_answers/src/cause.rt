//! Which rules decide about a permission.
ghost use Rattle.std.specs.Prelude.{◌≡◌};
ghost use Rattle.question_answers.specs.inner.Causes.{cause_of, causes_at};

use names::{LeastHits, Permission};
use profile_questions::Records;

/// The rule that decides about a permission: the least that denies it, otherwise the least that allows it, if there is one.
#[derive(Clone, Copy, Debug, PartialEq, Eq, Hash)]
pub(crate) enum Cause {
    Allowed(u16),
    Denied(u16),
    NoRule,
}

/// The same of two lists of rules.
#[derive(Clone, Copy, Debug, PartialEq, Eq, Hash)]
pub(crate) struct Causes {
    pub(crate) first: Cause,
    pub(crate) second: Cause,
}

// What decides, by least hits.
fn cause_of(hits: LeastHits) -> Cause
    ensures { result ≡ cause_of hits }
{
    if hits.deny != 0 {
        Cause::Denied(hits.deny)
    } else if hits.allow != 0 {
        Cause::Allowed(hits.allow)
    } else {
        Cause::NoRule
    }
}

/// What decides about a permission by the first two lists of rules.
pub(crate) fn causes_of(records: &Records, permission: Permission) -> Causes
    ensures { result ≡ causes_at records.now permission }
{
    Causes {
        first: cause_of(records.first.of(permission)),
        second: cause_of(records.second.of(permission)),
    }
}
