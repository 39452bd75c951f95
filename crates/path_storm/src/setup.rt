//! The setup of a storm.
ghost use Rattle.std.specs.Prelude.{IfOk};
ghost use Rattle.path_storm.specs.Logs.{IsPolicyLog, IsTreeLog};

use crate::fault::StormFault;
use crate::log::{PolicyLog, TreeLog};
use crate::profiles::Profiles;
use crate::renames::make_file;
use crate::replacements::publish_first;
use path_guard::{Guard, Row};
use std::alloc::Global;
use std::sync::Wait;

/// The file that is opened in a storm.
pub const FILE: &[u8] = b"/a/f";

/// The name of the profile under which all opens of a storm are made.
pub const PROFILE: &[u8] = b"p";

/// The changes before a storm.
#[derive(Drop)]
pub(crate) struct Laid {
    pub tree: TreeLog,
    pub policy: PolicyLog,
}

/// Makes the file, and publishes the first profile.
pub(crate) fn lay<M: Row>(
    rt: &impl Wait,
    alloc: Global,
    guard: &Guard<M>,
    profiles: &Profiles,
) -> Result<Laid, StormFault>
    ensures { IfOk result (λ laid. IsTreeLog 2 laid.tree × IsPolicyLog 1 laid.policy) }
{
    Ok(Laid {
        tree: make_file(rt, alloc, guard)?,
        policy: publish_first(rt, alloc, guard, profiles)?,
    })
}
