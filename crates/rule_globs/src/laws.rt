//! Laws that show the definitions of `specs/` sane. The functions do nothing: each stands for its contract.
ghost use Rattle.std.specs.Prelude.{◌≡◌, ◌≢◌, ◌↔◌, ◌+◌, ◌-◌, ◌≤◌, ◌<◌, ◌∷◌, ◌++◌, [], List, ℕ, All, IsTrue};
ghost use Rattle.names.specs.declared.permissions.Permission.{Permission};
ghost use Rattle.names.specs.declared.permissions.Perms.{Perms};
ghost use Rattle.rule_globs.specs.Glob.{Glob, Takes, LiveOrEnd, places};
ghost use Rattle.rule_globs.specs.LiveSteps.{IsLeftFirst};
ghost use Rattle.rule_globs.specs.Follow.{Starts, TakesAt, Goes};
ghost use Rattle.rule_globs.specs.PlainVerdict.{takes, verdict};
ghost use Rattle.rule_globs.specs.Rules.{RuleValue};
ghost use Rattle.rule_globs.specs.Verdict.{IsVerdict, IsAllowed, Hits};
ghost use Rattle.names.specs.declared.kind.RuleKind.TheVariants.{Allow, Deny};
ghost use Rattle.names.specs.declared.verdict.Verdict.{Verdict};

/// A pattern matches bytes exactly where its end is live after them.
pub fn end_is_live()
    ensures { (pattern : Glob) (bytes : List ℕ) →
        Takes pattern bytes ↔ LiveOrEnd pattern bytes (places pattern) }
{}

/// A place is live after bytes exactly where some steps with these bytes leave it first.
pub fn live_is_left_first()
    ensures { (pattern : Glob) (bytes : List ℕ) (place : ℕ) →
        IsLeftFirst pattern bytes place ↔ LiveOrEnd pattern bytes place }
{}

/// Which places are live at first, and which after one more byte. A pattern's end has the number `end` here, and the place
/// `p`, counted from 0 in the order written, the number `end + (places pattern - p)`.
pub fn live_places_go_on()
    ensures begin { (pattern : Glob) (end p : ℕ) → p ≤ places pattern →
        LiveOrEnd pattern [] p ↔ Starts pattern (end + 1) (λ q. q ≡ end) (end + (places pattern - p)) }
    ensures step { (pattern : Glob) (end p : ℕ) (bytes : List ℕ) (b : ℕ) → p ≤ places pattern →
        LiveOrEnd pattern (bytes ++ b ∷ []) p
        ↔ ((r : ℕ) × (r < places pattern) × LiveOrEnd pattern bytes r × TakesAt pattern (end + 1) (end + (places pattern - r)) b
        × Goes pattern (end + 1) (λ q. q ≡ end) (end + (places pattern - r)) (end + (places pattern - p))) }
{}

/// Trying each way to cut the bytes finds out whether a pattern matches them.
pub fn takes_by_cuts()
    ensures { (pattern : Glob) (bytes : List ℕ) →
        IsTrue (takes pattern bytes) ↔ Takes pattern bytes }
{}

/// No pattern matches a byte 0.
pub fn byte_zero_never()
    ensures { (pattern : Glob) (bytes : List ℕ) →
        Takes pattern bytes → All (λ b. b ≢ 0) bytes }
{}

/// The plain verdict is right, and no other verdict is.
pub fn one_verdict_is_right()
    ensures some { (rules : List RuleValue) (name : List ℕ) (ask : Perms) →
        IsVerdict rules name ask (verdict rules name ask) }
    ensures only { (rules : List RuleValue) (name : List ℕ) (ask : Perms) (first second : Verdict) →
        IsVerdict rules name ask first → IsVerdict rules name ask second → first ≡ second }
{}

/// A permission is allowed exactly where no deny rule hits for it and some allow rule does.
pub fn allowed_alone()
    ensures { (rules : List RuleValue) (name : List ℕ) (p : Permission) →
        IsAllowed rules name p
        ↔ (((n : ℕ) → Hits rules Deny p name n → ⊥) × ((n : ℕ) × Hits rules Allow p name n)) }
{}
