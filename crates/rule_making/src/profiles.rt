//! Paths and profiles made of parts.
ghost use Rattle.std.specs.Prelude.{◌≡◌, map, Some, None, IsTrue, false, MatchOption, if◌then◌else◌};
ghost use Rattle.std.specs.List.{list_all, list_any};
ghost use Rattle.names.specs.Permissions.{has, all_permissions};
ghost use Rattle.rule_globs.specs.Tokens.{tokens_of, all_full};
ghost use Rattle.rule_profile.specs.Profile.{rule_value, profile_value};
ghost use Rattle.rule_profile.specs.Readable.{is_path, is_rule, is_name, are_name_bytes, is_profile};

use crate::path_tests::is_path;
use names::{Permission, Perms};
use rule_globs::{Item, RulePath};
use rule_profile::{LONGEST_PROFILE_NAME, MOST_RULES, Profile, Rule};

/// The path with these items, if it could be read ([`is_path`]).
pub fn path_of(items: Vec<Item>) -> Option<RulePath>
    requires { IsTrue (all_full items.items) }
    ensures { result ≡ (if is_path (tokens_of items.items) then Some (tokens_of items.items) else None) }
{
    if !is_path(&items) {
        return None;
    }
    Some(RulePath::new(items))
}

/// Whether the bytes may be a profile's name: 1 to 255 of them, no colon first, no byte 0 or LF, and quotes only after a
/// backslash, which goes with the byte after it.
pub fn is_name(name: &[u8]) -> bool
    ensures { result ≡ is_name name.now }
{
    match name {
        [] | [b':', ..] => false,
        _ => name.len() <= LONGEST_PROFILE_NAME && are_name_bytes(name),
    }
}

fn are_name_bytes(name: &[u8]) -> bool
    ensures { result ≡ are_name_bytes false name.now }
{
    let mut escaped = false;
    for byte in name {
        if matches!(*byte, 0 | b'\n') || *byte == b'"' && !escaped {
            return false;
        }
        escaped = !escaped && *byte == b'\\';
    }
    !escaped
}

fn has_some(perms: Perms) -> bool
    ensures { result ≡ list_any (has perms) all_permissions }
{
    Permission::ALL.iter().any(|p| perms.contains(*p))
}

/// Whether the rule could be read: it has some permission and no two that conflict, and a path that could be read.
fn is_rule(rule: &Rule) -> bool
    ensures { result ≡ is_rule (rule_value rule.now) }
{
    has_some(rule.perms()) && !rule.perms().conflict() && is_path(rule.items())
}

fn are_rules(rules: &[Rule]) -> bool
    ensures { result ≡ list_all is_rule (map rule_value rules.now) }
{
    for rule in rules {
        if !is_rule(rule) {
            return false;
        }
    }
    true
}

/// The profile of this name and these rules, if some text is read as it: the name is one, there are at most 1,024 rules, and
/// each has a permission, no two that conflict, and a path that could be read. Then its canonical text is read as it.
pub fn profile_of(name: Vec<u8>, rules: Vec<Rule>) -> Option<Profile>
    ensures some { MatchOption result (is_profile (record { name = name.items; rules = map rule_value rules.items }) ≡ false)
        (λ p. profile_value p ≡ record { name = name.items; rules = map rule_value rules.items }) }
    ensures only { MatchOption result Unit (λ p. IsTrue (is_profile (profile_value p))) }
{
    if !is_name(&name) || rules.len() > MOST_RULES || !are_rules(&rules) {
        return None;
    }
    Some(Profile::new(name, rules))
}
