//! What rules decide nothing of.
ghost use Rattle.std.specs.Prelude.{◌≡◌};
ghost use Rattle.trace_lint.specs.Parts.{decides_none_of, decides_nothing};

use names::Perms;

/// Whether a rule that decides these permissions decides nothing.
pub(crate) fn decides_nothing(decided: Perms) -> bool
    ensures { result ≡ decides_nothing decided }
{
    decided.is_empty()
}

/// Whether it decides none of others.
pub(crate) fn decides_none_of(perms: Perms, decided: Perms) -> bool
    ensures { result ≡ decides_none_of perms decided }
{
    !perms.intersects(decided)
}
