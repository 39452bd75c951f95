//! Laws that show the definitions of `specs/` sane. The functions do nothing: each stands for its contract.
ghost use Rattle.std.specs.Prelude.{◌≡◌, ◌⊎◌, ◌↔◌, ◌+◌, ◌-◌, ◌<◌, ◌≤◌, ◌++◌, [], ℕ, List, drop, length, reverse, take, true};
ghost use Rattle.names.specs.declared.kind.RuleKind.{RuleKind};
ghost use Rattle.names.specs.declared.kind.RuleKind.TheVariants.{Allow, Deny};
ghost use Rattle.names.specs.declared.permissions.Permission.{Permission};
ghost use Rattle.names.specs.declared.permissions.Perms.{Perms};
ghost use Rattle.names.specs.declared.verdict.Verdict.TheVariants.{Allowed};
ghost use Rattle.names.specs.Paths.{IsName};
ghost use Rattle.names.specs.Permissions.{has};
ghost use Rattle.rule_globs.specs.Rules.{RuleValue};
ghost use Rattle.rule_globs.specs.Verdict.{Hits, IsAllowed, IsVerdict};
ghost use Rattle.rule_influence.specs.Influence.{Decides, DecidesFor, IsAllowedWithout, IsIdle, IsLoneHit};
ghost use Rattle.rule_influence.specs.StandIns.{AreTheStandIns, IsStandInAt, Matters};
ghost use Rattle.rule_influence.specs.declared.substitutes.IdleCase.{IdleCase};

/// A rule decides exactly where it is the only one that allows and none denies, or the only one that denies and some rule allows.
pub fn lone_hits_decide()
    ensures { (rules : List RuleValue) (k : ℕ) (p : Permission) (name : List ℕ) →
        DecidesFor rules k p name
        ↔ ((IsLoneHit rules Allow p name k × ((n : ℕ) → ¬ (Hits rules Deny p name n)))
        ⊎ (IsLoneHit rules Deny p name k × ((n : ℕ) × Hits rules Allow p name n))) }
{}

/// No rule both decides a permission and is idle for it, and where there is no rule, nothing is decided.
pub fn no_rule_decides_and_is_idle()
    ensures one { (rules : List RuleValue) (k : ℕ) (p : Permission) → Decides rules k p → ¬ (IsIdle rules k p) }
    ensures before { (rules : List RuleValue) (p : Permission) → IsIdle rules 0 p }
    ensures past { (rules : List RuleValue) (k : ℕ) (p : Permission) → length rules < k → IsIdle rules k p }
{}

/// The rule that is taken out could be left out of the list as well: what the others allow doesn't depend on their numbers.
pub fn others_keep_their_numbers()
    ensures { (rules : List RuleValue) (k : ℕ) (p : Permission) (name : List ℕ) → 1 ≤ k →
        IsAllowedWithout rules k name p ↔ IsAllowed (take (k - 1) rules ++ drop k rules) name p }
{}

/// Without a rule that is idle for all permissions, the list of the others allows the same to the same names.
pub fn idle_rule_is_left_out()
    ensures { (rules : List RuleValue) (k : ℕ) → 1 ≤ k → ((p : Permission) → IsIdle rules k p) →
        (name : List ℕ) (ask : Perms) → IsName name →
        IsVerdict rules name ask Allowed ↔ IsVerdict (take (k - 1) rules ++ drop k rules) name ask Allowed }
{}

/// In the reverse order the same rules hit, and their numbers count from the other end.
pub fn reversed_rules_hit()
    ensures { (rules : List RuleValue) (kind : RuleKind) (p : Permission) (name : List ℕ) (n : ℕ) → 1 ≤ n → n ≤ length rules →
        Hits (reverse rules) kind p name n ↔ Hits rules kind p name (length rules + 1 - n) }
{}

/// A rule that is idle has another rule of its kind in its place wherever it matters, which hits the name, too. So there are no
/// stand-ins exactly where no name matters.
pub fn idle_rules_have_stand_ins()
    ensures stand_in { (rules : List RuleValue) (kind : RuleKind) (k : ℕ) (p : Permission) (name : List ℕ) → IsName name →
        IsIdle rules k p → Matters rules kind k p name → (n : ℕ) × IsStandInAt rules kind k p name n }
    ensures hits { (rules : List RuleValue) (kind : RuleKind) (k : ℕ) (p : Permission) (name : List ℕ) (n : ℕ) →
        IsStandInAt rules kind k p name n → Hits rules kind p name n }
    ensures none { (rules : List RuleValue) (idle : IdleCase) (list : List ℕ) → AreTheStandIns rules idle list →
        ((p : Permission) → has idle.perms p ≡ true → IsIdle rules idle.rule p) →
        (list ≡ []) ↔ ((kind : RuleKind) (p : Permission) (name : List ℕ) → has idle.perms p ≡ true → IsName name →
        ¬ (Matters rules kind idle.rule p name)) }
{}

/// The list of the stand-ins of a case is one list.
pub fn one_list_of_stand_ins()
    ensures { (rules : List RuleValue) (idle : IdleCase) (one other : List ℕ) → AreTheStandIns rules idle one →
        AreTheStandIns rules idle other → one ≡ other }
{}
