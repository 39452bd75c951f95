//! Which rule stands in for another, by least hits.
ghost use Rattle.std.specs.Prelude.{◌≡◌, ◌↔◌, ◌<◌, IfNone, IfSome, IsTrue};
ghost use Rattle.rule_globs.specs.Glob.{Takes};
ghost use Rattle.rule_globs.specs.Verdict.{IsRuleAt};
ghost use Rattle.rule_profile.specs.Profile.{RuleValue, pattern, profile_value, rule_value};
ghost use Rattle.rule_influence.specs.inner.Candidates.{IsCaseOf, candidate, other_hit, stand_in};

use crate::substitutes::IdleCase;
use names::{LeastHits, Permission, Perms, RuleKind};
use profile_questions::Records;
use rule_profile::{Profile, Rule};

/// A rule of a profile, and permissions, for which stand-ins are looked for.
#[derive(Clone, Copy)]
pub(crate) struct Case<'a> {
    /// How many rules the profile has.
    count: usize,
    number: u16,
    rule: &'a Rule,
    perms: Perms,
}

impl<'a> Case<'a> {
    /// The rule that has the number of an idle one, if there is one.
    pub(crate) fn of(profile: &'a Profile, idle: IdleCase) -> Option<Case<'a>>
        ensures some { IfSome result (IsCaseOf (profile_value profile.now).rules idle) }
        ensures none { IfNone result ((rule : RuleValue) → ¬ (IsRuleAt (profile_value profile.now).rules idle.rule rule)) }
    {
        let rules = profile.rules();
        if idle.rule == 0 {
            return None;
        }
        let rule = rules.get(usize::from(idle.rule) - 1)?;
        Some(Case {
            count: rules.len(),
            number: idle.rule,
            rule,
            perms: idle.perms,
        })
    }

    /// Whether the rule matches the name.
    pub(crate) fn takes(self, name: &[u8]) -> bool
        ensures { IsTrue result ↔ Takes (pattern (rule_value self.entry.rule.now)) name.now }
    {
        self.rule.path().takes(name)
    }

    /// The number of the rule that stands in for this one at a name with these least hits, if this one matches the name; 0 where none
    /// does.
    pub(crate) fn candidate(self, records: &Records, permission: Permission) -> u16
        requires { self.count < 65536 }
        ensures { result ≡ candidate self.entry.count self.entry.number (rule_value self.entry.rule.now) self.entry.perms records.now
            permission }
    {
        if self.perms.contains(permission) && self.rule.perms().held().contains(permission) {
            let hits = records.first.of(permission);
            let reversed = records.second.of(permission);
            stand_in(self.count, self.number, self.rule.kind(), hits, reversed)
        } else {
            0
        }
    }
}

// The stand-in for a rule of this kind where it hits, 0 where it doesn't matter or is the only one of its kind.
fn stand_in(count: usize, number: u16, kind: RuleKind, hits: LeastHits, reversed: LeastHits) -> u16
    requires { count < 65536 }
    ensures { result ≡ stand_in count number kind hits reversed }
{
    match kind {
        RuleKind::Allow if hits.deny == 0 => other_hit(count, number, hits.allow, reversed.allow),
        RuleKind::Deny if hits.allow != 0 => other_hit(count, number, hits.deny, reversed.deny),
        _ => 0,
    }
}

// Of a set of numbers from 1 to `count` the first one or, where that is `number`, the last one; 0 where that is `number`, too, or
// where `number` isn't between them. The last is the first when they are counted from the other end.
fn other_hit(count: usize, number: u16, first: u16, reversed: u16) -> u16
    requires { count < 65536 }
    ensures { result ≡ other_hit count number first reversed }
{
    let last = (count + 1).saturating_sub(usize::from(reversed));
    if reversed == 0 || first == 0 || number < first || last < usize::from(number) {
        0
    } else if first != number {
        first
    } else if last != usize::from(number) {
        last as u16
    } else {
        0
    }
}
