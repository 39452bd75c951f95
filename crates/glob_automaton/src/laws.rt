//! Laws of least hits and of the count of states.
ghost use Rattle.std.specs.Prelude.{◌≡◌, ◌↔◌, ◌<◌, List, ℕ};
ghost use Rattle.names.specs.declared.permissions.Perms.{Perms};
ghost use Rattle.rule_profile.specs.Profile.{RuleValue};
ghost use Rattle.rule_globs.specs.Verdict.{IsVerdict};
ghost use Rattle.names.specs.declared.verdict.Verdict.{Verdict};
ghost use Rattle.names.specs.declared.record.Record.{Record};
ghost use Rattle.glob_automaton.specs.Automata.{StateLimit};
ghost use Rattle.glob_automaton.specs.Least.{IsLeastRecord};
ghost use Rattle.names.specs.Records.{IsTold};
ghost use Rattle.glob_automaton.specs.Sets.{IsCount, AreMoreThan};

use names::records_are_their_hits;
use rule_globs::{live_is_left_first, live_places_go_on, takes_by_cuts};

/// A record of least hits determines the verdict of the rules.
pub fn least_hits_tell_the_verdict()
    ensures { (rules : List RuleValue) (name : List ℕ) (r : Record) (ask : Perms) (v : Verdict) →
        IsLeastRecord rules name r → IsTold r ask v → IsVerdict rules name ask v }
{}

/// Each list of bytes has exactly one record of least hits.
pub fn names_have_one_least_record()
    ensures one { (rules : List RuleValue) (name : List ℕ) (first second : Record) →
        IsLeastRecord rules name first → IsLeastRecord rules name second → first ≡ second }
    ensures some { (rules : List RuleValue) (name : List ℕ) → (r : Record) × IsLeastRecord rules name r }
{
    takes_by_cuts();
    records_are_their_hits();
}

/// Rules have at most one count, and there are more sets than a number exactly if the count is greater.
pub fn rules_have_one_count()
    ensures one { (rules : List RuleValue) (m n : ℕ) → IsCount rules m → IsCount rules n → m ≡ n }
    ensures more { (rules : List RuleValue) (n limit : ℕ) → IsCount rules n → AreMoreThan limit rules ↔ (limit < n) }
{}

/// There is a test of rules for too many states.
pub fn too_many_states_can_be_told()
    ensures { StateLimit }
{
    takes_by_cuts();
    live_places_go_on();
    live_is_left_first();
}
