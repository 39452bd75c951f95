//! Why a permission is allowed to a name, or not.
ghost use Rattle.std.specs.Prelude.{◌≡◌, List, option_map, position, map};
ghost use Rattle.rule_globs.specs.Rules.{holds};
ghost use Rattle.rule_profile.specs.Profile.{rule_value, profile_value};
ghost use Rattle.rule_explain.specs.Reasons.{first_hit, hits, reason, IsReason};

use crate::laws::reasons_are_right;
use names::{Permission, RuleKind};
use rule_globs::takes_by_cuts;
use rule_profile::{Profile, Rule};

/// Why a permission is allowed to a name or not, by the rules that hold it and match the name. Rules are counted from 1 in the
/// order of the text.
#[derive(Clone, Copy, Debug, PartialEq, Eq)]
pub enum Reason {
    /// The least of the allow rules, if there is no such deny rule.
    Allowed { rule: u16 },
    /// The least of the deny rules.
    Denied { rule: u16 },
    /// There is no such rule.
    NoRule,
}

/// Whether a rule holds the permission.
fn holds(rule: &Rule, permission: Permission) -> bool
    ensures { result ≡ holds (rule_value rule.now) permission }
{
    rule.perms().held().contains(permission)
}

/// Whether a rule is of this kind, holds the permission and matches the name.
fn hits(rule: &Rule, kind: RuleKind, permission: Permission, name: &[u8]) -> bool
    ensures { result ≡ hits kind permission name.now (rule_value rule.now) }
{
    takes_by_cuts();
    rule.kind() == kind && holds(rule, permission) && rule.path().takes(name)
}

/// The number of the first rule that does.
fn first_hit(profile: &Profile, kind: RuleKind, permission: Permission, name: &[u8]) -> Option<u16>
    ensures { result ≡ first_hit kind permission name.now (profile_value profile.now).rules }
{
    for (i, rule) in profile.rules().iter().enumerate() {
        if hits(rule, kind, permission, name) {
            return Some(i as u16 + 1);
        }
    }
    None
}

/// Why a profile allows a permission to a name, or doesn't (apparmor.d(5), "Rule Qualifiers"). Allocates nothing.
pub fn reason_of(profile: &Profile, name: &[u8], permission: Permission) -> Reason
    // The reason, by sets of hits and least members.
    ensures reason { IsReason (profile_value profile.now).rules name.now permission result }
    // The same, computed.
    ensures plain { result ≡ reason (profile_value profile.now).rules name.now permission }
{
    reasons_are_right();
    match first_hit(profile, RuleKind::Deny, permission, name) {
        Some(rule) => Reason::Denied { rule },
        None => match first_hit(profile, RuleKind::Allow, permission, name) {
            Some(rule) => Reason::Allowed { rule },
            None => Reason::NoRule,
        },
    }
}
