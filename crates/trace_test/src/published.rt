//! The profiles that a test has published, by their names.
ghost use Rattle.std.specs.Prelude.{◌≡◌, None, OnOk, option_map};
ghost use Rattle.glob_automaton.specs.Automata.{StateLimit};
ghost use Rattle.rule_profile.specs.Profile.{profile_value};
ghost use Rattle.trace_script.specs.LineValues.{command_value};
ghost use Rattle.trace_test.specs.inner.Published.{published_by, rules_in, with_rules, without_rules};

use rule_profile::Profile;
use std::alloc::{AllocError, Global};
use std::collections::BTreeMap;
use trace_script::Command;

/// The profiles that a test has published, by their names. A bench lends none, and judges opens alone.
#[derive(Drop)]
pub(crate) struct Published {
    by_name: BTreeMap<Vec<u8>, Profile>,
}

impl Published {
    /// No profile.
    pub(crate) fn new(alloc: Global) -> Published
        ensures { rules_in result ≡ (λ name. None) }
    {
        Published {
            by_name: BTreeMap::new(alloc),
        }
    }

    /// The profile under a name.
    pub(crate) fn get(&self, name: &[u8]) -> Option<&Profile>
        ensures { option_map (λ profile. (profile_value profile.now).rules) result ≡ rules_in self.now name.now }
    {
        self.by_name.get(name)
    }

    /// Adds a profile under its name, in place of the one that was there.
    pub(crate) fn add(&mut self, alloc: Global, profile: Profile) -> Result<(), AllocError>
        ensures { OnOk result (rules_in self.new
            ≡ with_rules (rules_in self.old) (profile_value profile).name (profile_value profile).rules) }
    {
        let name = Vec::from_slice(alloc, profile.name())?;
        self.by_name.insert(name, profile)?;
        Ok(())
    }

    /// Removes the profile that a command of `run` removes, if it removes one.
    pub(crate) fn follow(&mut self, command: Command<'_>)
        ensures { (limit : StateLimit) → rules_in self.new ≡ published_by limit (command_value command.entry) (rules_in self.old) }
    {
        match command {
            Command::Remove(name) => self.remove(name),
            Command::Alter(_) => {}
            Command::JudgeOpen { .. } => {}
            Command::JudgeLink { .. } => {}
        }
    }

    /// Removes the profile under a name.
    fn remove(&mut self, name: &[u8])
        ensures { rules_in self.new ≡ without_rules (rules_in self.old) name.now }
    {
        self.by_name.remove(name);
    }
}
