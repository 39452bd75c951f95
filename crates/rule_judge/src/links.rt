//! The verdict on a hard link, by what the rules say of both its names.
ghost use Rattle.std.specs.Prelude.{◌≡◌, ◌↔◌, List, ℕ, IsTrue, Some};
ghost use Rattle.names.specs.declared.permissions.Permission.{Permission};
ghost use Rattle.names.specs.declared.permissions.Perms.{Perms};
ghost use Rattle.names.specs.Permissions.{has, only};
ghost use Rattle.rule_judge.specs.Links.{allowed, is_allowed, widening, link_verdict, link_verdict_text, IsSubset};
ghost use Rattle.rule_globs.specs.PlainVerdict.{verdict};
ghost use Rattle.rule_profile.specs.Profile.{RuleValue, profile_value};
ghost use Rattle.rule_globs.specs.Verdict.{IsAllowed};
ghost use Rattle.names.specs.declared.verdict.Verdict.{Verdict};
ghost use Rattle.names.specs.declared.verdict.Verdict.TheVariants.{Allowed};

use crate::judgment::judge_slow;
use names::{Permission, Perms, Verdict};
use rule_globs::one_verdict_is_right;
use rule_profile::Profile;
use std::fmt;

/// What the rules say of a hard link (apparmor.d(5), "Access Modes Details", link mode). It is printed as the verdict on the new
/// name, as `wider by X`, or as `allowed`.
#[derive(Clone, Copy, Debug, PartialEq, Eq)]
pub enum LinkVerdict {
    /// No link may have the new name: the verdict on it.
    Refused(Verdict),
    /// The new name is allowed these permissions, and the old one isn't.
    Wider { extra: Perms },
    /// The link may be made.
    Fine,
}

/// The permissions that a profile allows a name, each asked by itself. Nothing is allocated.
pub fn allowed_perms(profile: &Profile, name: &[u8]) -> Perms
    ensures { result ≡ allowed (profile_value profile.now).rules name.now }
{
    Perms::passing(|permission| is_allowed(profile, name, permission))
}

/// Whether a permission is allowed to a name, asked by itself.
fn is_allowed(profile: &Profile, name: &[u8], permission: Permission) -> bool
    ensures { result ≡ is_allowed (verdict (profile_value profile.now).rules name.now (only permission)) }
{
    let verdict = judge_slow(profile, name, Perms::NONE.with(permission));
    matches!(verdict, Verdict::Allowed)
}

/// Judges a hard link, by the permissions that its old and its new name are allowed, and the verdict on the new name where
/// link is asked. Nothing is allocated.
pub fn judge_link(old_allowed: Perms, new_allowed: Perms, new_l: Verdict) -> LinkVerdict
    ensures { result ≡ link_verdict old_allowed new_allowed new_l }
{
    match new_l {
        Verdict::Allowed => widening(new_allowed.without(old_allowed.with(Permission::Link))),
        Verdict::Denied { .. } | Verdict::NoRule { .. } => LinkVerdict::Refused(new_l),
    }
}

/// The verdict on a link whose new name may be linked to, and is allowed `extra` beyond the old one.
fn widening(extra: Perms) -> LinkVerdict
    ensures { result ≡ widening extra }
{
    if extra.is_empty() {
        LinkVerdict::Fine
    } else {
        LinkVerdict::Wider { extra }
    }
}

/// A link is fine exactly where the new name is one to link to and is allowed nothing, link aside, that the old name isn't.
pub fn fine_links_widen_nothing()
    ensures { (old new : Perms) (new_l : Verdict) →
        (link_verdict old new new_l ≡ LinkVerdict.Fine) ↔ ((new_l ≡ Allowed) × IsSubset old new) }
{}

/// The permissions that a name is allowed are those that are allowed when they are asked by themselves.
pub fn allowed_by_themselves()
    ensures { (rules : List RuleValue) (name : List ℕ) (p : Permission) →
        IsTrue (has (allowed rules name) p) ↔ IsAllowed rules name p }
{
    one_verdict_is_right();
}

impl fmt::Display for LinkVerdict {
    ghost output = { λ v. Some (link_verdict_text v) };

    fn fmt<W: fmt::Write>(&self, f: &mut fmt::Formatter<W>) -> fmt::Result {
        match self {
            LinkVerdict::Refused(verdict) => write!(f, "{verdict}"),
            LinkVerdict::Wider { extra } => write!(f, "wider by {extra}"),
            LinkVerdict::Fine => write!(f, "allowed"),
        }
    }
}
