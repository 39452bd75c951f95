//! What the names of profiles lead to, each looked up once.
ghost use Rattle.std.specs.Prelude.{◌≡◌, OnOk, Some};
ghost use Rattle.std.specs.BTreeMap.{Updates};
ghost use Rattle.trace_audit.specs.contracts.known.ProfileKeyOrd.TheImpl as key_order;

use crate::lookup::Found;
use audit_log::Denial;
use names::NoMemory;
use std::alloc::{AllocError, Global};
use std::collections::BTreeMap;

/// By what a profile is looked up: its full name, and the subject.
#[derive(Debug, PartialEq, Eq, PartialOrd, Ord, Drop)]
pub(crate) struct ProfileKey {
    pub profile: Vec<u8>,
    pub by_owner: bool,
}

impl ProfileKey {
    ghost use Rattle.std.specs.Prelude.{◌≡◌, IfOk};

    /// The key of a denial's profile.
    pub(crate) fn of(alloc: Global, denial: &Denial) -> Result<ProfileKey, NoMemory>
        ensures profile { IfOk result (λ key. key.profile.items ≡ denial.now.profile.items) }
        ensures by_owner { IfOk result (λ key. key.by_owner ≡ denial.now.by_owner) }
    {
        match Vec::from_slice(alloc, &denial.profile) {
            Ok(profile) => Ok(ProfileKey {
                profile,
                by_owner: denial.by_owner,
            }),
            Err(_) => Err(NoMemory),
        }
    }
}

/// Keeps what a key leads to.
pub(crate) fn keep<'a>(
    known: &mut BTreeMap<ProfileKey, Found<'a>>,
    key: ProfileKey,
    found: Found<'a>,
) -> Result<(), NoMemory>
    ensures { OnOk result (Updates key_order.cmp-value.it known.old known.new key (Some found.entry)) }
{
    match known.insert(key, found) {
        Ok(_) => Ok(()),
        Err(_) => Err(NoMemory),
    }
}
