//! The reasons of all permissions, in one pass over the rules.
ghost use Rattle.std.specs.Prelude.{◌≡◌, ◌↔◌, IsTrue, None};
ghost use Rattle.names.specs.declared.permissions.Permission.{Permission as SomePermission};
ghost use Rattle.names.specs.Permissions.{has, held, Shares};
ghost use Rattle.rule_globs.specs.PlainVerdict.{takes};
ghost use Rattle.rule_globs.specs.Rules.{pattern};
ghost use Rattle.rule_profile.specs.Profile.{rule_value, profile_value};
ghost use Rattle.rule_explain.specs.Reasons.{reason, reason_by};
ghost use Rattle.rule_explain.specs.inner.Firsts.{with_first, with_hit, hits_of};

use crate::reason::Reason;
use names::{Permission, Perms, RuleKind};
use rule_globs::takes_by_cuts;
use rule_profile::{Profile, Rule};

/// The first deny rule so far, and the first allow rule, that hold a permission and match the name.
#[derive(Clone, Copy)]
struct FirstHits {
    denied: Option<u16>,
    allowed: Option<u16>,
}

/// The first rule, if there was none before this one.
fn with_first(before: Option<u16>, rule: u16) -> Option<u16>
    ensures { result ≡ with_first before rule }
{
    match before {
        Some(first) => Some(first),
        None => Some(rule),
    }
}

impl FirstHits {
    /// There is no rule yet.
    const NONE: FirstHits = FirstHits {
        denied: None,
        allowed: None,
    };

    /// With one more rule that matches the name, by whether it holds the permission.
    fn with(self, holds: bool, kind: RuleKind, rule: u16) -> FirstHits
        ensures { result ≡ with_hit self holds kind rule }
    {
        if !holds {
            return self;
        }
        match kind {
            RuleKind::Deny => FirstHits {
                denied: with_first(self.denied, rule),
                allowed: self.allowed,
            },
            RuleKind::Allow => FirstHits {
                denied: self.denied,
                allowed: with_first(self.allowed, rule),
            },
        }
    }

    /// The reason by these rules.
    fn reason(self) -> Reason
        ensures { result ≡ reason_by self.denied self.allowed }
    {
        match (self.denied, self.allowed) {
            (Some(rule), _) => Reason::Denied { rule },
            (None, Some(rule)) => Reason::Allowed { rule },
            (None, None) => Reason::NoRule,
        }
    }
}

/// The first rules of each permission.
#[derive(Clone, Copy)]
pub(crate) struct Firsts {
    read: FirstHits,
    write: FirstHits,
    link: FirstHits,
    lock: FirstHits,
    map: FirstHits,
    append: FirstHits,
}

impl Firsts {
    /// There are no rules yet.
    fn none() -> Firsts
        ensures { (p : SomePermission) → hits_of result p ≡ record { denied = None; allowed = None } }
    {
        Firsts {
            read: FirstHits::NONE,
            write: FirstHits::NONE,
            link: FirstHits::NONE,
            lock: FirstHits::NONE,
            map: FirstHits::NONE,
            append: FirstHits::NONE,
        }
    }

    /// With one more rule that matches the name: the permissions that it holds, its kind and its number.
    fn with(self, perms: Perms, kind: RuleKind, rule: u16) -> Firsts
        ensures { (p : SomePermission) → hits_of result p ≡ with_hit (hits_of self p) (has perms p) kind rule }
    {
        Firsts {
            read: self.read.with(perms.contains(Permission::Read), kind, rule),
            write: self
                .write
                .with(perms.contains(Permission::Write), kind, rule),
            link: self.link.with(perms.contains(Permission::Link), kind, rule),
            lock: self.lock.with(perms.contains(Permission::Lock), kind, rule),
            map: self.map.with(perms.contains(Permission::Map), kind, rule),
            append: self
                .append
                .with(perms.contains(Permission::Append), kind, rule),
        }
    }

    /// Those of one permission.
    fn of(self, permission: Permission) -> FirstHits
        ensures { result ≡ hits_of self permission }
    {
        match permission {
            Permission::Read => self.read,
            Permission::Write => self.write,
            Permission::Link => self.link,
            Permission::Lock => self.lock,
            Permission::Map => self.map,
            Permission::Append => self.append,
        }
    }

    /// The reason of one permission.
    pub(crate) fn reason(self, permission: Permission) -> Reason
        ensures { result ≡ reason_by (hits_of self permission).denied (hits_of self permission).allowed }
    {
        self.of(permission).reason()
    }
}

/// Whether a rule holds something that is asked and matches the name.
fn concerns(rule: &Rule, name: &[u8], ask: Perms) -> bool
    ensures { IsTrue result ↔ (Shares ask (held (rule_value rule.now).perms) × IsTrue (takes (pattern (rule_value rule.now)) name.now)) }
{
    takes_by_cuts();
    ask.intersects(rule.perms().held()) && rule.path().takes(name)
}

/// The first rules of the permissions that are asked, by one pass over all rules.
pub(crate) fn firsts_of(profile: &Profile, name: &[u8], ask: Perms) -> Firsts
    ensures { (p : SomePermission) → IsTrue (has ask p) → reason_by (hits_of result p).denied (hits_of result p).allowed
        ≡ reason (profile_value profile.now).rules name.now p }
{
    let mut firsts = Firsts::none();
    for (i, rule) in profile.rules().iter().enumerate() {
        if concerns(rule, name, ask) {
            firsts = firsts.with(rule.perms().held(), rule.kind(), i as u16 + 1);
        }
    }
    firsts
}
