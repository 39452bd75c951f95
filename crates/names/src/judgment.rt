//! The verdict of a record.
ghost use Rattle.std.specs.Prelude.{◌≡◌, ◌≢◌, ◌⊎◌, ◌&&◌, ◌==◌, if◌then◌else◌};
ghost use Rattle.names.specs.Permissions.{has, set_of, with_permission};
ghost use Rattle.names.specs.Grounds.{IsVerdictOn};
ghost use Rattle.names.specs.Least.{hits_of, IsLeastOrNone};
ghost use Rattle.names.specs.Records.{IsTold, ToldDenied};
ghost use Rattle.names.specs.declared.verdict.Verdict.{Verdict};

use crate::laws::permissions_are_numbered;
use crate::permissions::{Permission, Perms};
use crate::record::Record;
use crate::verdict::Verdict;

/// What a verdict is derived from. Code that encodes verdicts as numbers can use this without a branch on what the rules say,
/// which a processor predicts badly.
#[derive(Clone, Copy, Debug, PartialEq, Eq)]
pub struct Grounds {
    /// The least number of a rule that denies something that is asked; 0 where none does.
    pub rule: u16,
    /// The permissions that are asked for and that no rule allows.
    pub missing: Perms,
}

impl Grounds {
    /// Returns the verdict on these grounds (apparmor.d(5), "Rule Qualifiers"): denied by the rule, if there is one; else what no
    /// rule allows; else allowed.
    pub fn verdict(self) -> Verdict
        ensures { IsVerdictOn self result }
    {
        if self.rule != 0 {
            Verdict::Denied { rule: self.rule }
        } else if self.missing.is_empty() {
            Verdict::Allowed
        } else {
            Verdict::NoRule {
                missing: self.missing,
            }
        }
    }
}

/// Returns the grounds of a record's verdict on what is asked. Allocates no memory.
// One loop finds both, and tests each permission once, so that most names need few instructions.
pub fn grounds_of(record: &Record, ask: Perms) -> Grounds
    ensures rule { IsLeastOrNone (ToldDenied «record».now ask) result.rule }
    ensures missing { result.missing ≡ set_of (λ p. has ask p && ((hits_of «record».now p).allow == 0)) }
    ensures told { (verdict : Verdict) → IsVerdictOn result verdict → IsTold «record».now ask verdict }
{
    permissions_are_numbered();
    let mut rule = 0;
    let mut missing = Perms::NONE;
    for permission in &Permission::ALL {
        if ask.contains(*permission) {
            let hits = record.of(*permission);
            rule = lesser(rule, hits.deny);
            missing = with_missing(missing, *permission, hits.allow);
        }
    }
    Grounds { rule, missing }
}

// Returns what is missing, after one more permission that is asked for and allowed by a rule of this number, or by none.
fn with_missing(missing: Perms, permission: Permission, allow: u16) -> Perms
    ensures { result ≡ if allow == 0 then with_permission missing permission else missing }
{
    if allow == 0 {
        missing.with(permission)
    } else {
        missing
    }
}

// Returns the lesser of two rule numbers, where 0 means no rule.
fn lesser(one: u16, other: u16) -> u16
    ensures { IsLeastOrNone (λ n. (n ≢ 0) × ((n ≡ one) ⊎ (n ≡ other))) result }
{
    if other == 0 || one != 0 && one < other {
        one
    } else {
        other
    }
}

/// The verdict of a record (apparmor.d(5), "Rule Qualifiers"): denied by the least deny rule of what is asked; else what no
/// rule allows; else allowed. Nothing is allocated.
pub fn told(record: &Record, ask: Perms) -> Verdict
    ensures { IsTold «record».now ask result }
{
    grounds_of(record, ask).verdict()
}
