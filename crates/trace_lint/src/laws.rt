//! Laws that show the definitions of `specs/` sane. The functions do nothing: each stands for its contract.
ghost use Rattle.std.specs.Prelude.{◌≡◌, ◌⊎◌, ◌↔◌, ◌≤◌, None, Some, ℕ, All, Contains, List, length, true};
ghost use Rattle.names.specs.declared.permissions.Permission.{Permission};
ghost use Rattle.names.specs.declared.permissions.Perms.{Perms};
ghost use Rattle.names.specs.Permissions.{has, held};
ghost use Rattle.rule_globs.specs.Rules.{RuleValue};
ghost use Rattle.rule_influence.specs.Influence.{AreDecided, IsIdle};
ghost use Rattle.trace_lint.specs.Findings.{AreFindings, FindingValue};
ghost use Rattle.trace_lint.specs.LintOutput.{IsLinted};
ghost use Rattle.trace_lint.specs.Parts.{case_of, held_by, idle_parts, letters_of};
ghost use Rattle.trace_lint.specs.declared.findings.Idle.{Idle};
ghost use Rattle.trace_report.specs.Output.{Output};
ghost use Rattle.trace_report.specs.declared.format.Format.{Format};

/// What is reported decides nothing: the rule of each part is idle for each permission that the part is about.
pub fn reported_parts_are_idle()
    ensures { (rules : List RuleValue) (decided : List Perms) → AreDecided rules decided →
        All (λ part. (p : Permission) → has (case_of rules part).perms p ≡ true → IsIdle rules part.rule p)
        (idle_parts rules decided) }
{}

/// What decides nothing is reported: each rule that is idle for each permission that it holds, and each letter of a rule that is idle
/// for each permission that it holds by the letter, if the rule isn't reported.
pub fn idle_parts_are_reported()
    ensures rule { (rules : List RuleValue) (decided : List Perms) (n : ℕ) → AreDecided rules decided → 1 ≤ n → n ≤ length rules →
        ((p : Permission) → has (held (letters_of rules n)) p ≡ true → IsIdle rules n p) →
        Contains (idle_parts rules decided) (record { rule = n; letter = None }) }
    ensures letter { (rules : List RuleValue) (decided : List Perms) (n : ℕ) (letter : Permission) → AreDecided rules decided →
        1 ≤ n → n ≤ length rules → has (letters_of rules n) letter ≡ true →
        ((p : Permission) → has (held_by letter) p ≡ true → IsIdle rules n p) →
        Contains (idle_parts rules decided) (record { rule = n; letter = None })
        ⊎ Contains (idle_parts rules decided) (record { rule = n; letter = Some letter }) }
{}

/// A line warns exactly where some stand-in is idle for each permission that the part is about, and it warns of such a stand-in: of
/// one that decides nothing at all exactly where it says so.
pub fn lines_warn_of_idle_stand_ins()
    ensures none { (rules : List RuleValue) (decided : List Perms) (findings : List FindingValue) (f : FindingValue) →
        AreDecided rules decided → AreFindings rules decided findings → Contains findings f →
        (f.idle ≡ None) ↔ ((n : ℕ) → Contains f.stand_ins n →
        ¬ ((p : Permission) → has (case_of rules f.part).perms p ≡ true → IsIdle rules n p)) }
    ensures some { (rules : List RuleValue) (decided : List Perms) (findings : List FindingValue) (f : FindingValue) (idle : Idle) →
        AreDecided rules decided → AreFindings rules decided findings → Contains findings f → f.idle ≡ Some idle →
        Contains f.stand_ins idle.rule
        × ((p : Permission) → has (case_of rules f.part).perms p ≡ true → IsIdle rules idle.rule p)
        × ((idle.wholly ≡ true) ↔ ((p : Permission) → IsIdle rules idle.rule p)) }
{}

/// What is written where names can be gone through is one output.
pub fn one_lint()
    ensures { (format : Format) (text : List ℕ) (rules : List RuleValue) (one other : Output) → IsLinted format text rules one →
        IsLinted format text rules other → one ≡ other }
{}
