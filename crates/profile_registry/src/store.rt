//! What is published. There are two copies of it, of which readers read one.
ghost use Rattle.std.specs.Borrow.{ftrue};
ghost use Rattle.std.specs.Coded.{codes, coded_list, coded_ℕ};
ghost use Rattle.std.specs.FinMap.{code};
ghost use Rattle.mediation.specs.Judge.{Judge};
ghost use Rattle.profile_registry.specs.inner.Names.{Profiles};

use matcher::AnyProfile;
use std::alloc::Global;
use std::collections::BTreeMap;
use std::marker::Model;
use std::sync::Arc;

/// The profiles that are published, by their names.
#[derive(Drop)]
pub struct Store {
    pub(crate) alloc: Global,
    pub(crate) profiles: BTreeMap<Vec<u8>, Arc<AnyProfile>>,
    // How many changes there were.
    pub(crate) version: u64,
}

/// What both copies contain, for contracts alone. No value of it is made.
pub struct Contents {
    pub version: u64,
    pub ghost profiles: { Profiles } by { code (coded_list coded_ℕ) (Prim.hlevel codes) },
}

impl Model for Contents {
    ghost also_owns = { λ _. ftrue };
}
