//! Changes of the policy.
use super::fault::Fault;
use super::notes::Noted;
use super::scene::Scene;
use matcher::{AnyProfile, PolicyChange};
use names::Errno;
use path_guard::{Guard, Row};
use std::alloc::Global;
use std::sync::{Arc, Wait};
use storm_parts::{PROFILES, ProfileName, ROUNDS, Random, share};

// One change in this many removes a profile.
const REMOVED: usize = 4;

/// Who changes the policy, and what it changed.
#[derive(Drop)]
struct Publisher {
    random: Random,
    made: Vec<Noted<PolicyChange>>,
}

/// Tries `changes` changes of the policy, and returns those that were made.
pub(crate) fn publish_all<M: Row>(
    rt: &impl Wait,
    scene: &Scene<'_, M>,
    random: Random,
    changes: usize,
) -> Result<Vec<Noted<PolicyChange>>, Fault> {
    let mut publisher = Publisher {
        random,
        made: Vec::new(scene.alloc),
    };
    for round in 0..ROUNDS {
        scene.rounds.begin(round);
        if let Err(fault) = publisher.publish_round(rt, scene, share(changes, round)) {
            scene.rounds.give_up();
            return Err(fault);
        }
    }
    Ok(publisher.made)
}

impl Publisher {
    fn publish_round<M: Row>(
        &mut self,
        rt: &impl Wait,
        scene: &Scene<'_, M>,
        changes: usize,
    ) -> Result<(), Fault> {
        for _ in 0..changes {
            self.publish(rt, scene)?;
        }
        Ok(())
    }

    /// Publishes a profile, or removes one.
    fn publish<M: Row>(&mut self, rt: &impl Wait, scene: &Scene<'_, M>) -> Result<(), Fault> {
        let name = ProfileName::draw(&mut self.random).as_bytes();
        if self.random.below(REMOVED) == 0 {
            return self.remove(rt, scene.alloc, scene.guard, name);
        }
        match scene.profiles.get(self.random.below(PROFILES)) {
            Some(profile) => self.replace(rt, scene.alloc, scene.guard, name, profile),
            None => Ok(()),
        }
    }

    fn replace<M: Row>(
        &mut self,
        rt: &impl Wait,
        alloc: Global,
        guard: &Guard<M>,
        name: &[u8],
        profile: &Arc<AnyProfile>,
    ) -> Result<(), Fault> {
        let change = PolicyChange::Replace(Vec::from_slice(alloc, name)?, Arc::try_clone(profile)?);
        let version = guard.replace(rt, name, Arc::try_clone(profile)?);
        self.note(version, change)
    }

    fn remove<M: Row>(
        &mut self,
        rt: &impl Wait,
        alloc: Global,
        guard: &Guard<M>,
        name: &[u8],
    ) -> Result<(), Fault> {
        let change = PolicyChange::Remove(Vec::from_slice(alloc, name)?);
        let version = guard.remove(rt, name);
        self.note(version, change)
    }

    /// Notes a change, if it was made. Where memory is refused, the storm ends.
    fn note(&mut self, version: Result<u64, Errno>, change: PolicyChange) -> Result<(), Fault> {
        match version {
            Ok(version) => Ok(self.made.push(Noted { version, change })?),
            Err(Errno::ENOMEM) => Err(Fault::NoMemory),
            Err(_) => Ok(()),
        }
    }
}
