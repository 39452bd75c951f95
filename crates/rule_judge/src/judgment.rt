ghost use Rattle.std.specs.Prelude.{◌≡◌, ◌↔◌, IsTrue};
ghost use Rattle.rule_profile.specs.Profile.{rule_value, profile_value};
ghost use Rattle.rule_globs.specs.inner.RuleHits.{HitsSome};
ghost use Rattle.rule_globs.specs.Verdict.{IsVerdict};
ghost use Rattle.rule_globs.specs.PlainVerdict.{verdict};

use names::{Perms, RuleKind, Verdict};
use rule_globs::one_verdict_is_right;
use rule_profile::{Profile, Rule};

/// Whether the rule matches the name and holds something that is asked.
fn hits(rule: &Rule, name: &[u8], ask: Perms) -> bool
    ensures { IsTrue result ↔ HitsSome (rule_value rule.now) name.now ask }
{
    ask.intersects(rule.perms().held()) && rule.path().takes(name)
}

/// Judges a name by each rule in turn: what the profile says of the permissions that are asked for it
/// (apparmor.d(5), "Access Modes" and "Rule Qualifiers").
///
/// The time grows as the items of the rules times the bytes of the name. Nothing is allocated: each rule is passed over
/// once for each 64 bytes, in room on the stack.
pub fn judge_slow(profile: &Profile, name: &[u8], ask: Perms) -> Verdict
    // The verdict, by sets of hits and least members.
    ensures verdict { IsVerdict (profile_value profile.now).rules name.now ask result }
    // The same, computed.
    ensures plain { result ≡ verdict (profile_value profile.now).rules name.now ask }
{
    one_verdict_is_right();
    let mut missing = ask;
    for (i, rule) in profile.rules().iter().enumerate() {
        if hits(rule, name, ask) {
            match rule.kind() {
                RuleKind::Deny => {
                    return Verdict::Denied { rule: i as u16 + 1 };
                }
                RuleKind::Allow => missing = missing.without(rule.perms().held()),
            }
        }
    }
    if missing.is_empty() {
        Verdict::Allowed
    } else {
        Verdict::NoRule { missing }
    }
}
