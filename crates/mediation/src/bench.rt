//! A tree and the published profiles together: what a script works on.
ghost use Rattle.std.specs.Prelude.{◌+◌, ◌≡◌, ◌^◌, ◌<◌, [], ℕ, List, IfOk, IfErr, OnOk, OnErr, IsOk};
ghost use Rattle.glob_automaton.specs.Automata.{most_sets};
ghost use Rattle.glob_automaton.specs.Sets.{AreMoreThan};
ghost use Rattle.matcher.specs.MakeFaults.{IsMakeFault};
ghost use Rattle.mediation.specs.Answers.{answered, name_opened, link_answered, name_linked};
ghost use Rattle.mediation.specs.Deeds.{published_rules, removed};
ghost use Rattle.mediation.specs.History.{History, MayChangePolicy, with_change, with_deed, tree_version, policy_version, open_answer};
ghost use Rattle.mediation.specs.History.{link_answer, after_link};
ghost use Rattle.mediation.specs.Links.{IsMade};
ghost use Rattle.directory_tree.specs.Plain.{outcome, Refused};
ghost use Rattle.rule_profile.specs.Profile.{profile_value};

use crate::answer::{Answer, LinkAnswer};
use directory_tree::Change;
use matcher::MakeFault;
use names::{Errno, NoMemory, Perms};
use rule_profile::Profile;

/// A tree, and the profiles that are published.
pub trait Bench {
    // What was done to both.
    ghost history: { Self → History };

    // The name that was judged last.
    ghost judged_name: { Self → List ℕ };

    // Evidence, if there is any, that memory is needed only for what is made: not for opens, and not for links that would not be made.
    ghost spares_memory: { Type 0 } = { ⊥ };

    /// Makes a change of the tree and returns the new version, or why it fails: ENOMEM if memory was refused for a change that
    /// the tree would accept, else the tree's own reason.
    fn change(&mut self, change: &Change<'_>) -> Result<u64, Errno>
        ensures ok { IfOk result (λ version. (history self.new ≡ with_change (history self.old) change.now)
            × IsOk (outcome (history self.old).tree change.now) × (version ≡ tree_version (history self.new))) }
        ensures err { IfErr result (λ errno. (history self.new ≡ history self.old)
            × Refused (history self.old).tree (history self.new).tree change.now errno) };

    /// Judges the file that a path leads to by a published profile.
    fn open(&mut self, profile: &[u8], path: &[u8], ask: Perms) -> Result<Answer, NoMemory>
        ensures history { history self.new ≡ history self.old }
        ensures ok { IfOk result (λ answer. answered (judged_name self.new) answer ≡ open_answer (history self.old)
            profile.now path.now ask) }
        ensures name { OnOk result (judged_name self.new ≡ name_opened (open_answer (history self.old) profile.now path.now ask)) }
        ensures err { OnErr result (judged_name self.new ≡ []) }
        ensures spares { spares_memory → IsOk result };

    /// Makes one more entry of a file, if a published profile allows it.
    fn link(&mut self, profile: &[u8], old: &[u8], new: &[u8]) -> Result<LinkAnswer, NoMemory>
        ensures ok { IfOk result (λ answer. link_answered (judged_name self.new) answer
            ≡ link_answer (history self.old) profile.now old.now new.now) }
        ensures name { OnOk result (judged_name self.new ≡ name_linked (link_answer (history self.old) profile.now old.now new.now)) }
        ensures history { OnOk result (history self.new
            ≡ after_link (history self.old) old.now new.now (link_answer (history self.old) profile.now old.now new.now)) }
        ensures err { OnErr result ((history self.new ≡ history self.old) × (judged_name self.new ≡ [])) }
        ensures spares { spares_memory → OnErr result (IsMade (link_answer (history self.old) profile.now old.now new.now)) };

    /// The name that the last open or link judged: of a link, the name of its new entry, whether or not it was made. It is
    /// empty if none was judged: the profile isn't published, there was a failure, or memory was refused.
    fn name(&self) -> &[u8]
        ensures { result.now ≡ judged_name self.now };

    /// Publishes a profile under its name, if it can be compiled, and returns the policy's new version.
    fn publish(&mut self, profile: Profile) -> Result<u64, MakeFault>
        requires { MayChangePolicy (history self.old).deeds }
        ensures ok { IfOk result (λ version. (history self.new ≡ with_deed (history self.old) (published_rules (profile_value profile)))
            × (version ≡ policy_version (history self.new)) × ¬ (AreMoreThan most_sets (profile_value profile).rules)) }
        ensures err { IfErr result (λ fault. (history self.new ≡ history self.old) × IsMakeFault (profile_value profile).rules fault) };

    /// Removes the profile of a name and returns the policy's new version.
    fn remove(&mut self, name: &[u8]) -> Result<u64, NoMemory>
        requires { MayChangePolicy (history self.old).deeds }
        ensures ok { IfOk result (λ version. (history self.new ≡ with_deed (history self.old) (removed name.now))
            × (version ≡ policy_version (history self.new))) }
        ensures err { OnErr result (history self.new ≡ history self.old) };
}
