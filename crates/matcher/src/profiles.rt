//! Profiles to judge by: compiled here, or loaded from an image.
ghost use Rattle.std.specs.Prelude.{◌≡◌};
ghost use Rattle.matcher.specs.Profiles.{any_table};

use crate::compiled::CompiledProfile;
use std::sync::Arc;
use table_verifier::{LoadedProfile, VerifiedTable};

/// A profile of either origin.
#[derive(Drop)]
pub enum AnyProfile {
    /// Compiled from a text.
    Compiled(CompiledProfile),
    /// Loaded from an image.
    Loaded(LoadedProfile),
}

impl AnyProfile {
    /// The table to judge by.
    pub fn table(&self) -> &VerifiedTable
        ensures { result.now ≡ any_table self.now }
    {
        match self {
            AnyProfile::Compiled(profile) => profile.table(),
            AnyProfile::Loaded(profile) => profile.table(),
        }
    }
}

/// A change of what is published.
#[derive(Drop)]
pub enum PolicyChange {
    /// This profile is under the name.
    Replace(Vec<u8>, Arc<AnyProfile>),
    /// Nothing is under the name.
    Remove(Vec<u8>),
}
