//! What of a rule decides whether it is restated, and what that changes.
ghost use Rattle.std.specs.Prelude.{◌≡◌};
ghost use Rattle.apparmor_rules.specs.Changes.{change, for_everybody, gained, left_out_change, lost, qualifier_alone, restated_change};
ghost use Rattle.apparmor_rules.specs.Restatement.{can_be_said, fitting_letters, has_some, is_restated, loses_link, restated_perms};

use crate::effect::Extent;
use crate::subject::{AppliesTo, Subject};
use names::{Permission, Perms, RuleKind};

/// A file rule without its path and its target.
#[derive(Clone, Copy, Debug, PartialEq, Eq)]
pub struct RuleShape {
    /// Whether it allows or denies.
    pub kind: RuleKind,
    /// To whom.
    pub applies_to: AppliesTo,
    /// Its letters, but those of execute modes. A mode with `i` counts as m.
    pub perms: Perms,
    /// Whether `->` binds link to a target.
    pub has_target: bool,
    /// Whether the path was read as AppArmor reads it.
    pub is_read: bool,
    /// Whether its priority isn't 0.
    pub has_priority: bool,
}

/// The permissions of a rule that are restated: link isn't where the rule binds it to a target, since a restated rule
/// would allow or deny every link.
pub fn restated_perms(perms: Perms, has_target: bool) -> Perms
    ensures { result ≡ restated_perms perms has_target }
{
    if has_target {
        perms.without(Perms::NONE.with(Permission::Link))
    } else {
        perms
    }
}

/// Letters that a rule may have, by which it holds the same: append is left out where write is, since a rule with write holds it.
pub fn fitting_letters(perms: Perms) -> Perms
    ensures { result ≡ fitting_letters perms }
{
    if perms.conflict() {
        perms.without(Perms::NONE.with(Permission::Append))
    } else {
        perms
    }
}

// Whether any permission is in the set.
fn has_some(perms: Perms) -> bool
    ensures { result ≡ has_some perms }
{
    !perms.is_empty()
}

impl RuleShape {
    // Whether a restated rule can say it: its path was read, and its priority is 0.
    fn can_be_said(self) -> bool
        ensures { result ≡ can_be_said self }
    {
        self.is_read && !self.has_priority
    }

    /// Whether the rule is restated for the chosen subject: it applies to it, its path was read, its priority is 0, and a
    /// permission is left.
    pub fn is_restated(self, chosen: Subject) -> bool
        ensures { result ≡ is_restated chosen self }
    {
        self.applies_to.applies_to(chosen)
            && self.can_be_said()
            && has_some(restated_perms(self.perms, self.has_target))
    }

    /// What restating the rule for the chosen subject, or leaving it out, changes for a subject.
    pub fn change(self, chosen: Subject, subject: Subject) -> Extent
        ensures { result ≡ change chosen subject self }
    {
        if self.is_restated(chosen) {
            self.restated_change(subject)
        } else {
            self.left_out_change(subject)
        }
    }

    /// The rule as if its qualifier were all that can't be restated: what that changes is reported separately from the rest.
    pub fn qualifier_alone(self) -> RuleShape
        ensures { result ≡ qualifier_alone self }
    {
        RuleShape {
            has_target: false,
            is_read: true,
            has_priority: false,
            ..self
        }
    }

    /// The rule as if it had no qualifier: what its target changes, its priority, or a path that wasn't read, is reported
    /// separately.
    pub fn for_everybody(self) -> RuleShape
        ensures { result ≡ for_everybody self }
    {
        RuleShape {
            applies_to: AppliesTo::Everybody,
            ..self
        }
    }

    // What a rule that is restated changes: a subject that it didn't apply to gains it, and link to a target is lost.
    fn restated_change(self, subject: Subject) -> Extent
        ensures { result ≡ restated_change subject self }
    {
        if !self.applies_to.applies_to(subject) {
            self.gained()
        } else if self.has_target && self.perms.contains(Permission::Link) {
            self.lost()
        } else {
            Extent::Exact
        }
    }

    // What a rule that is left out changes: a subject that it applied to loses it, if it holds anything.
    fn left_out_change(self, subject: Subject) -> Extent
        ensures { result ≡ left_out_change subject self }
    {
        if self.applies_to.applies_to(subject) && has_some(self.perms) {
            self.lost()
        } else {
            Extent::Exact
        }
    }

    // The change where something of the rule is lost.
    fn lost(self) -> Extent
        ensures { result ≡ lost self.kind }
    {
        match self.kind {
            RuleKind::Allow => Extent::Narrower,
            RuleKind::Deny => Extent::Wider,
        }
    }

    // The change where the rule says more.
    fn gained(self) -> Extent
        ensures { result ≡ gained self.kind }
    {
        match self.kind {
            RuleKind::Allow => Extent::Wider,
            RuleKind::Deny => Extent::Narrower,
        }
    }
}
