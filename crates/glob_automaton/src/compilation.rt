//! From a profile to its automaton: those of its rules, joined two by two in a balanced tree.
ghost use Rattle.std.specs.Prelude.{◌≡◌, ◌≤◌, ◌<◌, IfOk, IfErr, OnOk, Some, length, slice_get};
ghost use Rattle.rule_profile.specs.Profile.{profile_value, rule_value};
ghost use Rattle.glob_automaton.specs.Automata.{IsAutomatonOf, IsCompileFault};
ghost use Rattle.glob_automaton.specs.Parts.{BeginWithSlashes, IsAutomatonOfPart};
ghost use Rattle.glob_automaton.specs.inner.Leaves.{AreBuilt};

use crate::leaf::Leaves;
use crate::parts::{parts_are_no_more, parts_make_a_part, whole_parts_are_automata};
use automaton_products::product;
use automaton_rows::{CompileFault, Dfa};
use names::records_are_their_hits;
use rule_profile::{Profile, Rule};
use std::alloc::Global;

/// Compiles a profile's rules (apparmor.d(5), "Globbing" and "Rule Qualifiers"). The automaton has one state for each set of places
/// that is live after a prefix of a name, and state 0 for the empty set, whether or not a prefix has it. It is refused exactly if
/// there are more than 16,384 states, memory aside.
pub fn compile(alloc: Global, profile: &Profile) -> Result<Dfa, CompileFault>
    ensures ok { IfOk result (λ dfa. IsAutomatonOf (profile_value profile.now).rules dfa) }
    ensures err { IfErr result (IsCompileFault (profile_value profile.now).rules) }
{
    whole_parts_are_automata();
    let mut leaves = Leaves::new(alloc);
    tree(alloc, profile, &mut leaves, 0, profile.rules().len())
}

// The automaton of the rules with the numbers from `first + 1` to `last`.
fn tree(
    alloc: Global,
    profile: &Profile,
    leaves: &mut Leaves,
    first: usize,
    last: usize,
) -> Result<Dfa, CompileFault>
    requires built { AreBuilt leaves.old }
    requires ordered { first ≤ last }
    requires within { last ≤ length (profile_value profile.now).rules }
    ensures built { OnOk result (AreBuilt leaves.new) }
    ensures ok { IfOk result (IsAutomatonOfPart (profile_value profile.now).rules first last) }
    ensures err { IfErr result (IsCompileFault (profile_value profile.now).rules) }
{
    records_are_their_hits();
    parts_make_a_part();
    parts_are_no_more();
    if first == last {
        return Ok(Dfa::dead(alloc)?);
    }
    if last - first == 1 {
        return leaves.leaf(rule_at(profile, first), last as u16);
    }
    let middle = first + (last - first) / 2;
    let one = tree(alloc, profile, leaves, first, middle)?;
    let other = tree(alloc, profile, leaves, middle, last)?;
    product(alloc, &one, &other)
}

// The rule with an index.
fn rule_at(profile: &Profile, index: usize) -> &Rule
    requires { index < length (profile_value profile.now).rules }
    ensures { slice_get (profile_value profile.now).rules index ≡ Some (rule_value result.now) }
{
    &profile.rules()[index]
}
