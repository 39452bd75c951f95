//! Laws of restating. The functions do nothing: each stands for its contract.
ghost use Rattle.std.specs.Prelude.{◌≡◌, ◌≢◌, ◌↔◌, ◌⊎◌, ℕ, List, None, IsTrue, true, false};
ghost use Rattle.names.specs.declared.permissions.Permission.{Permission};
ghost use Rattle.names.specs.declared.permissions.Perms.{Perms};
ghost use Rattle.names.specs.Permissions.{conflicts, held};
ghost use Rattle.rule_globs.specs.Rules.{RuleValue};
ghost use Rattle.rule_globs.specs.Verdict.{IsVerdict};
ghost use Rattle.apparmor_rules.specs.Causes.{GainsSome, LosesSome};
ghost use Rattle.apparmor_rules.specs.Changes.{change, effect, for_everybody, gained, lost, mode_change, qualifier_alone, AreExact};
ghost use Rattle.apparmor_rules.specs.Changes.{NoneIsNarrower, NoneIsWider};
ghost use Rattle.apparmor_rules.specs.SecondJudge.{IsAllowedTo, IsDenied, IsGranted};
ghost use Rattle.apparmor_rules.specs.Lists.{IsHit, LeavesOut};
ghost use Rattle.apparmor_rules.specs.Restatement.{fitting_letters, has_priority, is_read, restated_all, shape_of, IsPlain};
ghost use Rattle.apparmor_rules.specs.SubjectRules.{SubjectRule, Unknown};
ghost use Rattle.apparmor_rules.specs.declared.effect.Extent.TheVariants.{Exact, Wider, Narrower};
ghost use Rattle.apparmor_rules.specs.declared.mode.Mode.{Mode};
ghost use Rattle.apparmor_rules.specs.declared.shape.RuleShape.{RuleShape};
ghost use Rattle.apparmor_rules.specs.declared.subject.AppliesTo.TheVariants.{Everybody, Others, Owners};
ghost use Rattle.apparmor_rules.specs.declared.subject.Subject.{Subject};
ghost use Rattle.apparmor_rules.specs.declared.subject.Subject.TheVariants.{Owner, Other};
ghost use Rattle.names.specs.declared.kind.RuleKind.{RuleKind};
ghost use Rattle.names.specs.declared.kind.RuleKind.TheVariants.{Allow, Deny};
ghost use Rattle.names.specs.declared.verdict.Verdict.TheVariants.{Allowed};

use rule_globs::allowed_alone;

/// Where each rule is exact for a subject, the restated rules deny and grant it just what the rules do; and they allow
/// just what the rules allow, if the mode is exact too.
pub fn exact_rules_say_the_same()
    ensures denied { (unknown : Unknown) (chosen subject : Subject) (rules : List SubjectRule) (name : List ℕ) (p : Permission) →
        AreExact chosen subject rules →
        IsHit (restated_all chosen rules) Deny p name ↔ IsDenied unknown subject rules name p }
    ensures granted { (unknown : Unknown) (chosen subject : Subject) (rules : List SubjectRule) (name : List ℕ) (p : Permission) →
        AreExact chosen subject rules →
        IsHit (restated_all chosen rules) Allow p name ↔ IsGranted unknown subject rules name p }
    ensures allowed { (unknown : Unknown) (mode : Mode) (chosen subject : Subject) (rules : List SubjectRule)
        (name : List ℕ) (ask : Perms) →
        AreExact chosen subject rules → mode_change mode ≡ Exact →
        IsVerdict (restated_all chosen rules) name ask Allowed ↔ IsAllowedTo unknown mode subject rules name ask }
{
    allowed_alone();
}

/// Where no rule is wider for a subject, the restated rules deny all that the rules deny it, and grant nothing that they
/// don't; what the restated rules allow, the rules allow it, in any mode.
pub fn narrower_rules_allow_no_more()
    ensures denied { (unknown : Unknown) (chosen subject : Subject) (rules : List SubjectRule) (name : List ℕ) (p : Permission) →
        NoneIsWider chosen subject rules →
        IsDenied unknown subject rules name p → IsHit (restated_all chosen rules) Deny p name }
    ensures granted { (unknown : Unknown) (chosen subject : Subject) (rules : List SubjectRule) (name : List ℕ) (p : Permission) →
        NoneIsWider chosen subject rules →
        IsHit (restated_all chosen rules) Allow p name → IsGranted unknown subject rules name p }
    ensures allowed { (unknown : Unknown) (mode : Mode) (chosen subject : Subject) (rules : List SubjectRule)
        (name : List ℕ) (ask : Perms) →
        NoneIsWider chosen subject rules →
        IsVerdict (restated_all chosen rules) name ask Allowed → IsAllowedTo unknown mode subject rules name ask }
{
    allowed_alone();
}

/// Where no rule is narrower for a subject, the restated rules deny nothing that the rules don't deny it, and grant all that
/// they grant; what the rules allow it, the restated rules allow, if the mode isn't narrower either.
pub fn wider_rules_allow_no_less()
    ensures denied { (unknown : Unknown) (chosen subject : Subject) (rules : List SubjectRule) (name : List ℕ) (p : Permission) →
        NoneIsNarrower chosen subject rules →
        IsHit (restated_all chosen rules) Deny p name → IsDenied unknown subject rules name p }
    ensures granted { (unknown : Unknown) (chosen subject : Subject) (rules : List SubjectRule) (name : List ℕ) (p : Permission) →
        NoneIsNarrower chosen subject rules →
        IsGranted unknown subject rules name p → IsHit (restated_all chosen rules) Allow p name }
    ensures allowed { (unknown : Unknown) (mode : Mode) (chosen subject : Subject) (rules : List SubjectRule)
        (name : List ℕ) (ask : Perms) →
        NoneIsNarrower chosen subject rules → mode_change mode ≢ Narrower →
        IsAllowedTo unknown mode subject rules name ask → IsVerdict (restated_all chosen rules) name ask Allowed }
{}

/// A change isn't reported without a cause: where the rule is lost, some permission of it is in nothing that is restated; where
/// it is gained, what is restated has one that the rule doesn't say to the subject.
pub fn changes_have_causes()
    ensures lost { (chosen subject : Subject) (rule : SubjectRule) →
        change chosen subject (shape_of rule) ≡ lost rule.kind → LosesSome chosen subject rule }
    ensures gained { (chosen subject : Subject) (rule : SubjectRule) →
        change chosen subject (shape_of rule) ≡ gained rule.kind → GainsSome chosen subject rule }
{}

/// What isn't exact of a rule is what its qualifier alone changes, or what the rest would change for everybody, so that the two
/// may be reported separately.
pub fn changes_are_told_in_parts()
    ensures { (chosen subject : Subject) (shape : RuleShape) →
        (change chosen subject shape ≡ Exact)
        ⊎ ((change chosen subject shape ≡ change chosen subject (qualifier_alone shape))
        ⊎ (change chosen subject shape ≡ change chosen subject (for_everybody shape))) }
{}

/// Leaving out allow rules never allows more, and leaving out deny rules never denies more.
pub fn fewer_rules_say_less()
    ensures hits { (left_out kind : RuleKind) (rules left : List RuleValue) (name : List ℕ) (p : Permission) →
        LeavesOut left_out rules left → IsHit left kind p name → IsHit rules kind p name }
    ensures allow { (rules left : List RuleValue) (name : List ℕ) (ask : Perms) → LeavesOut Allow rules left →
        IsVerdict left name ask Allowed → IsVerdict rules name ask Allowed }
    ensures deny { (rules left : List RuleValue) (name : List ℕ) (ask : Perms) → LeavesOut Deny rules left →
        IsVerdict rules name ask Allowed → IsVerdict left name ask Allowed }
{}

/// The letters of a restated rule are such that a rule may have, and by them it holds just what it would by those that they replace.
pub fn fitting_letters_hold_the_same()
    ensures fit { (perms : Perms) → conflicts (fitting_letters perms) ≡ false }
    ensures same { (perms : Perms) → held (fitting_letters perms) ≡ held perms }
{}

/// A rule for everybody whose path was read, which binds link to no target and has no priority, is exact for each subject.
pub fn plain_rules_are_exact()
    ensures { (chosen subject : Subject) (rule : SubjectRule) →
        rule.applies_to ≡ Everybody → is_read rule.path ≡ true → rule.target ≡ None → has_priority rule.priority ≡ false →
        change chosen subject (shape_of rule) ≡ Exact }
{}

/// A rule with such a path, no target, no priority and some permission that applies to one subject alone is exact for the chosen one. If
/// that is the one that it applies to, the other gains it; else the other loses it.
pub fn qualified_rules_change_for_one()
    ensures owner { (rule : SubjectRule) → rule.applies_to ≡ Owners → IsPlain rule →
        effect Owner (shape_of rule) ≡ record { chosen = Owner; on_chosen = Exact; on_other = gained rule.kind } }
    ensures owner_left_out { (rule : SubjectRule) → rule.applies_to ≡ Owners → IsPlain rule →
        effect Other (shape_of rule) ≡ record { chosen = Other; on_chosen = Exact; on_other = lost rule.kind } }
    ensures other { (rule : SubjectRule) → rule.applies_to ≡ Others → IsPlain rule →
        effect Other (shape_of rule) ≡ record { chosen = Other; on_chosen = Exact; on_other = gained rule.kind } }
    ensures other_left_out { (rule : SubjectRule) → rule.applies_to ≡ Others → IsPlain rule →
        effect Owner (shape_of rule) ≡ record { chosen = Owner; on_chosen = Exact; on_other = lost rule.kind } }
{}

/// The chosen subject never gains a rule, and loses one only where its path wasn't read, it binds link to a target or it has a
/// priority.
pub fn chosen_subject_gains_nothing()
    ensures never { (chosen : Subject) (shape : RuleShape) → change chosen chosen shape ≢ gained shape.kind }
    ensures exact { (chosen : Subject) (shape : RuleShape) →
        shape.is_read ≡ true → shape.has_target ≡ false → shape.has_priority ≡ false → change chosen chosen shape ≡ Exact }
{}
