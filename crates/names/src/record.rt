//! The least hits of a name by permission.
ghost use Rattle.std.specs.Prelude.{◌≡◌, length};
ghost use Rattle.names.specs.Permissions.{permission_count};

use crate::kind::RuleKind;
use crate::permissions::{Permission, Perms};

/// The least numbers of the rules that allow and that deny a permission (apparmor.d(5), "Rule Qualifiers"). Rules are counted
/// from 1 in the order of the text; 0 where no rule does.
#[derive(Clone, Copy, Debug, PartialEq, Eq, Hash)]
pub struct LeastHits {
    pub allow: u16,
    pub deny: u16,
}

impl LeastHits {
    ghost use Rattle.names.specs.Hits.{hits_with};

    /// No rule hits.
    pub const NONE: LeastHits = LeastHits { allow: 0, deny: 0 };

    // Returns these hits with one more, of a rule whose number is not below those of the hits before.
    fn with(self, kind: RuleKind, number: u16) -> LeastHits
        ensures { result ≡ hits_with self kind number }
    {
        match kind {
            RuleKind::Allow if self.allow == 0 => LeastHits {
                allow: number,
                ..self
            },
            RuleKind::Deny if self.deny == 0 => LeastHits {
                deny: number,
                ..self
            },
            _ => self,
        }
    }
}

/// The least hits of each permission.
#[derive(Clone, Copy, Debug, PartialEq, Eq, Hash)]
pub struct Record {
    // In the order of `Permission::ALL`.
    hits: [LeastHits; Permission::COUNT],
    ghost each: { length hits ≡ permission_count },
}

impl Record {
    ghost use Rattle.std.specs.Prelude.{slice_index_or};
    ghost use Rattle.names.specs.Permissions.{index};
    ghost use Rattle.names.specs.declared.permissions.Permission.{Permission};
    ghost use Rattle.names.specs.declared.record.LeastHits.{LeastHits};
    ghost use Rattle.names.specs.Least.{hits_of, no_hit, record_of, with_hits};
    ghost use Rattle.names.specs.Hits.{hits_after, no_hits, record_with};

    /// No rule hits.
    pub fn none() -> Record
        ensures { result ≡ no_hits }
    {
        Record {
            hits: [LeastHits::NONE; Permission::COUNT],
        }
    }

    /// Returns the record of these hits, which are in the order of [`Permission::ALL`].
    pub fn from_hits(hits: [LeastHits; Permission::COUNT]) -> Record
        ensures { result ≡ record_of (λ p. slice_index_or hits (index p) no_hit) }
    {
        Record { hits }
    }

    /// Returns the record of the hits that `hits_of` returns for each permission, which it is asked for once.
    pub fn of_each<F: Fn(Permission) -> LeastHits>(hits_of: F) -> Record
        requires { F.IsAlwaysCallable hits_of }
        ensures { (wanted : Permission → LeastHits) →
            ((p : Permission) (hits : LeastHits) → F.post hits_of p hits → hits ≡ wanted p) → result ≡ record_of wanted }
    {
        Record {
            hits: [
                hits_of(Permission::Read),
                hits_of(Permission::Write),
                hits_of(Permission::Link),
                hits_of(Permission::Lock),
                hits_of(Permission::Map),
                hits_of(Permission::Append),
            ],
        }
    }

    /// Returns the least hits of a permission.
    pub fn of(&self, permission: Permission) -> LeastHits
        ensures { result ≡ hits_of self.now permission }
    {
        self.hits[permission.index()]
    }

    /// Returns the record with the hits of a permission replaced by these.
    pub fn with_hits(self, permission: Permission, hits: LeastHits) -> Record
        ensures { result ≡ with_hits self permission hits }
    {
        let mut record = self;
        record.hits[permission.index()] = hits;
        record
    }

    // Returns the least hits of a permission, with one more rule that matches and holds these permissions.
    fn hits_after(
        &self,
        permission: Permission,
        kind: RuleKind,
        perms: Perms,
        number: u16,
    ) -> LeastHits
        ensures { result ≡ hits_after self.now kind perms number permission }
    {
        if perms.contains(permission) {
            self.of(permission).with(kind, number)
        } else {
            self.of(permission)
        }
    }

    /// Returns the record with one more rule that matches and holds these permissions (see [`Perms::held`]), whose number is not
    /// below those of the rules before.
    pub fn with_rule(&self, kind: RuleKind, perms: Perms, number: u16) -> Record
        ensures { result ≡ record_with self.now kind perms number }
    {
        Record::of_each(|permission| self.hits_after(permission, kind, perms, number))
    }
}
