//! The two profiles that are published alternately.
use crate::fault::StormFault;
use matcher::{AnyProfile, CompiledProfile};
use rule_reader::read;
use std::alloc::Global;
use std::sync::Arc;

/// The two profiles, shared with the policy.
#[derive(Drop)]
pub(crate) struct Profiles {
    first: Arc<AnyProfile>,
    second: Arc<AnyProfile>,
}

impl Profiles {
    pub(crate) fn new(alloc: Global) -> Result<Profiles, StormFault> {
        Ok(Profiles {
            first: compiled(alloc, b"profile p {\n  /a/f r,\n  deny /b/f r,\n}\n")?,
            second: compiled(alloc, b"profile p {\n  /b/f r,\n}\n")?,
        })
    }

    /// Returns a shared reference to the one that is published after `others` others.
    pub(crate) fn after(&self, others: u64) -> Result<Arc<AnyProfile>, StormFault> {
        let profile = if others % 2 == 0 {
            &self.first
        } else {
            &self.second
        };
        Ok(Arc::try_clone(profile)?)
    }
}

/// Compiles the profile of a text. Each text is a valid profile, so the only failure is running out of memory.
fn compiled(alloc: Global, text: &[u8]) -> Result<Arc<AnyProfile>, StormFault> {
    let Ok(profile) = read(alloc, text) else {
        return Err(StormFault::NoMemory);
    };
    let Ok(compiled) = CompiledProfile::make(alloc, profile) else {
        return Err(StormFault::NoMemory);
    };
    Ok(Arc::new(alloc, AnyProfile::Compiled(compiled))?)
}
