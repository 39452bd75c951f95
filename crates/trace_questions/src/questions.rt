//! What is asked: permissions, and the names that a pattern matches.
ghost use Rattle.trace_questions.specs.inner.Questions.{IsAskedOf, IsPatternOf};

use derived_profiles::of_pattern;
use names::{NoMemory, Perms};
use rule_profile::Profile;
use std::alloc::Global;
use trace_report::{Fault, asked_by};

/// Permissions, and the profile whose one rule matches the names that are asked about.
#[derive(Drop)]
pub(crate) struct Asked {
    pub(crate) ask: Perms,
    pub(crate) pattern: Profile,
}

impl Asked {
    /// What the two arguments of a command ask, if they are valid.
    pub(crate) fn of(alloc: Global, perms: &str, pattern: &str) -> Result<Asked, Fault>
        ensures { IsAskedOf perms.now pattern.now result }
    {
        let ask = asked_by(perms).ok_or(Fault::Permissions)?;
        let pattern = pattern_of(alloc, pattern)?;
        Ok(Asked { ask, pattern })
    }
}

/// The profile whose one rule matches the names of a pattern, if the text is one.
pub(crate) fn pattern_of(alloc: Global, pattern: &str) -> Result<Profile, Fault>
    ensures { IsPatternOf pattern.now result }
{
    match of_pattern(alloc, pattern.as_bytes()) {
        Ok(Some(profile)) => Ok(profile),
        Ok(None) => Err(Fault::Pattern),
        Err(NoMemory) => Err(Fault::Memory),
    }
}
