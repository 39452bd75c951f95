//! Laws of names that are alike, of rules that stand for patterns and of shortest names. The functions do nothing: each stands for
//! its contract.
ghost use Rattle.std.specs.Prelude.{◌≡◌, ◌↔◌, ◌∷◌, [], ℕ, List, Option};
ghost use Rattle.names.specs.declared.kind.RuleKind.{RuleKind};
ghost use Rattle.names.specs.declared.permissions.Permission.{Permission};
ghost use Rattle.names.specs.declared.permissions.Perms.{Perms};
ghost use Rattle.names.specs.declared.verdict.Verdict.TheVariants.{Allowed};
ghost use Rattle.rule_globs.specs.Glob.{Takes};
ghost use Rattle.rule_globs.specs.Rules.{RuleValue, pattern};
ghost use Rattle.rule_globs.specs.Verdict.{Hits, IsVerdict};
ghost use Rattle.profile_questions.specs.declared.answer.Answers.{Answers};
ghost use Rattle.profile_questions.specs.Names.{ComparisonValue, IsAlike};
ghost use Rattle.profile_questions.specs.Questions.{IsPatternRule, IsShortest};

use automaton_search::names_are_in_one_order;
use rule_globs::takes_by_cuts;

/// Names that no rule distinguishes have the same hits.
pub fn alike_names_have_the_same_hits()
    ensures { (rules : List RuleValue) (one other : List ℕ) (kind : RuleKind) (p : Permission) (n : ℕ) → IsAlike rules one other →
        Hits rules kind p one n ↔ Hits rules kind p other n }
{}

/// A rule that stands for its pattern allows what is asked of exactly the names that the pattern matches.
pub fn pattern_rules_allow_what_they_take()
    ensures { (rule : RuleValue) (ask : Perms) (name : List ℕ) → IsPatternRule rule ask →
        IsVerdict (rule ∷ []) name ask Allowed ↔ Takes (pattern rule) name }
{
    takes_by_cuts();
}

/// A question has one answer: there is a name, and it is the only shortest one, or there is none.
pub fn one_shortest_name()
    ensures { (c : ComparisonValue) (answers : Answers) (one other : Option (List ℕ)) → IsShortest c answers one →
        IsShortest c answers other → one ≡ other }
{
    names_are_in_one_order();
}
