//! Tries, of which a further one follows only where a change came between.
ghost use Rattle.std.specs.Prelude.{ℕ, List, ◌<◌, ◌≤◌};
ghost use Rattle.names.specs.declared.permissions.Perms.{Perms};
ghost use Rattle.justification.specs.declared.answer.Answer.{Answer};
ghost use Rattle.guarded_row.specs.Tries.{IsTriedUpTo};
ghost use Rattle.guarded_row.specs.inner.Tries.{IsTryOfSession};

use names::Perms;
use path_session::{Answer, Session};

/// What opens are tried on.
pub(crate) trait TryOpen {
    /// What holds of the states before and after a try, its path, what it asks for, and its answer.
    ghost tried: { Self → Self → List ℕ → Perms → Answer → Type 0 };

    /// Tries an open, concurrently with the keeper.
    fn try_once(&mut self, path: &[u8], ask: Perms) -> Answer
        ensures { tried self.old self.new path.now ask result };
}

impl TryOpen for Session {
    ghost tried = { IsTryOfSession };

    fn try_once(&mut self, path: &[u8], ask: Perms) -> Answer {
        self.try_open(path, ask)
    }
}

/// Tries an open this often at most, again only where a change came between.
#[tactic(auto, using(crate::proofs::LastTries::quiet, crate::proofs::LastTries::last))]
pub(crate) fn try_up_to<T: TryOpen>(most: usize, opener: &mut T, path: &[u8], ask: Perms) -> Answer
    requires { 0 < most }
    ensures { IsTriedUpTo (λ before now answer. T.tried before now path.now ask answer) most opener.old opener.new result }
{
    match opener.try_once(path, ask) {
        Answer::Busy { .. } if 1 < most => try_up_to(most - 1, opener, path, ask),
        Answer::Busy { began, ended } => Answer::Busy { began, ended },
        answer => answer,
    }
}
