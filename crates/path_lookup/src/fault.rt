use crate::look::Torn;
use names::Errno;

/// Why a walk leads nowhere, or an entry has no name.
#[derive(Clone, Copy, Debug, PartialEq, Eq)]
pub enum WalkFault {
    /// In every tree that is still seen, the walk or the name is refused with this error.
    Refused(Errno),
    /// No tree agrees with what was read, or the look couldn't read on.
    Torn,
}

impl From<Torn> for WalkFault {
    ghost use Rattle.std.specs.Prelude.{◌≡◌};
    ghost use Rattle.path_lookup.specs.declared.fault.WalkFault.TheVariants as fault;

    ghost from_gives = { λ _ given. given ≡ fault.Torn };

    fn from(_torn: Torn) -> WalkFault {
        WalkFault::Torn
    }
}
