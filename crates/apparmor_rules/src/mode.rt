//! The modes of a profile.
ghost use Rattle.std.specs.Prelude.{◌≡◌};
ghost use Rattle.apparmor_rules.specs.Changes.{mode_effect};

use crate::effect::{Effect, Extent};
use crate::subject::Subject;

/// What a profile does with what its rules don't allow (apparmor.d(5), "Profile Mode").
#[derive(Clone, Copy, Debug, PartialEq, Eq)]
pub enum Mode {
    /// It refuses it.
    Enforcing,
    /// It allows it, except what a deny rule denies, as `complain` does. (The kernel lets what an audited deny rule denies, too:
    /// here that is refused, which is the safe side.)
    Permissive,
    /// It allows everything.
    Unconfined,
}

impl Mode {
    /// The effect of enforcing restated rules, reported for the chosen subject.
    pub fn effect(self, chosen: Subject) -> Effect
        ensures { result ≡ mode_effect chosen self }
    {
        let change = match self {
            Mode::Enforcing => Extent::Exact,
            Mode::Permissive | Mode::Unconfined => Extent::Narrower,
        };
        Effect {
            chosen,
            on_chosen: change,
            on_other: change,
        }
    }
}
