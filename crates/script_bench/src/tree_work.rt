//! What is done on a bench.
ghost use Rattle.std.specs.Prelude.{◌≡◌, IfOk, take, ⊤};
ghost use Rattle.mediation.specs.History.{new_history, history_of};

use crate::tree::BenchTree;
use crate::tree_bench::TreeBench;
use directory_tree::Change;
use matcher::{CompiledProfile, MakeFault, PolicyChange};
use mediation::{Answer, Bench, LinkAnswer, Policy, answer_to_open, link_by, replacement};
use names::{Errno, NoMemory, Perms};
use path_lookup::{NAME_ROOM, Scratch};
use rule_profile::Profile;
use std::alloc::Global;

impl<T: BenchTree> TreeBench<T> {
    /// The root alone, with room for `capacity` entries, and no profile.
    pub fn new(alloc: Global, capacity: usize) -> Result<TreeBench<T>, NoMemory>
        requires { T.may_hold capacity }
        ensures { IfOk result (λ bench. history_of (T.plain bench.tree) bench.policy ≡ new_history capacity) }
    {
        Ok(TreeBench {
            alloc,
            tree: T::new(alloc, capacity)?,
            policy: Policy::new(alloc),
            scratch: Scratch::new(),
            name: [0; NAME_ROOM],
            name_length: 0,
        })
    }
}

impl<T: BenchTree> Bench for TreeBench<T> {
    ghost history = { λ b. history_of (T.plain b.tree) b.policy };

    ghost judged_name = { λ b. take b.name_length b.name };

    ghost spares_memory = { ⊤ };

    fn change(&mut self, change: &Change<'_>) -> Result<u64, Errno> {
        self.tree.apply(change)
    }

    fn open(&mut self, profile: &[u8], path: &[u8], ask: Perms) -> Result<Answer, NoMemory> {
        self.name_length = 0;
        let policy_version = self.policy.version();
        let tree_version = self.tree.version();
        let Some(published) = self.policy.get(profile) else {
            return Ok(Answer::NoProfile { policy_version });
        };
        let judged = self
            .tree
            .judge_file(published, path, ask, &mut self.scratch, &mut self.name);
        let (answer, name_length) = answer_to_open(judged, tree_version, policy_version);
        self.name_length = name_length;
        Ok(answer)
    }

    fn link(&mut self, profile: &[u8], old: &[u8], new: &[u8]) -> Result<LinkAnswer, NoMemory> {
        self.name_length = 0;
        let policy_version = self.policy.version();
        let Some(published) = self.policy.get(profile) else {
            return Ok(LinkAnswer::NoProfile { policy_version });
        };
        let (answer, name_length) = link_by(
            &mut self.tree,
            published,
            policy_version,
            old,
            new,
            &mut self.scratch,
            &mut self.name,
        )?;
        self.name_length = name_length;
        Ok(answer)
    }

    fn name(&self) -> &[u8] {
        &self.name[..self.name_length]
    }

    fn publish(&mut self, profile: Profile) -> Result<u64, MakeFault> {
        let compiled = CompiledProfile::make(self.alloc, profile)?;
        let change = replacement(self.alloc, compiled)?;
        Ok(self.policy.publish(&[change])?)
    }

    fn remove(&mut self, name: &[u8]) -> Result<u64, NoMemory> {
        let Ok(name) = Vec::from_slice(self.alloc, name) else {
            return Err(NoMemory);
        };
        self.policy.publish(&[PolicyChange::Remove(name)])
    }
}
