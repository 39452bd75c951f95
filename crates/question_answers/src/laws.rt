//! Laws of lists of least names. The functions do nothing: each stands for its contract.
ghost use Rattle.std.specs.Prelude.{◌≡◌, ℕ, IsTrue, List, Option, take, true};
ghost use Rattle.names.specs.Permissions.{has};
ghost use Rattle.names.specs.declared.permissions.Permission.{Permission};
ghost use Rattle.names.specs.declared.permissions.Perms.{Perms};
ghost use Rattle.rule_globs.specs.Rules.{RuleValue};
ghost use Rattle.rule_globs.specs.Tokens.{Token};
ghost use Rattle.question_answers.specs.Alone.{AreAlone};
ghost use Rattle.question_answers.specs.Findings.{AreWitnesses};
ghost use Rattle.question_answers.specs.contracts.cause.CausesPartialEq.TheImpl as causes_impl;
ghost use Rattle.question_answers.specs.declared.cause.Causes.{Causes};
ghost use Rattle.question_answers.specs.declared.quantifier.Quantifier.TheVariants.{Any};
ghost use Rattle.question_answers.specs.declared.quantifier.Witnesses.TheVariants.{EachRule, Least};
ghost use Rattle.question_answers.specs.declared.side.Side.{Side};

use automaton_search::names_are_in_one_order;
use rule_explain::reasons_are_right;

/// The list of each rule begins with the name that is found without it, and it is empty exactly where none is found.
pub fn least_of_all_comes_first()
    ensures any { (rules : List RuleValue) (path : List Token) (ask : Perms) (p : Permission) (names : List (List ℕ)) →
        IsTrue (has ask p) → AreWitnesses (Any EachRule) rules path ask names → AreWitnesses (Any Least) rules path ask (take 1 names) }
    ensures alone { (below : Option (List Token)) (old new : List RuleValue) (p : Permission) (side : Side) (names : List (List ℕ)) →
        AreAlone EachRule below old new p side names → AreAlone Least below old new p side (take 1 names) }
{
    names_are_in_one_order();
    reasons_are_right();
}

/// There is only one such list.
pub fn least_names_are_one_list()
    ensures any { (rules : List RuleValue) (path : List Token) (ask : Perms) (names others : List (List ℕ)) →
        AreWitnesses (Any EachRule) rules path ask names → AreWitnesses (Any EachRule) rules path ask others → names ≡ others }
    ensures alone { (below : Option (List Token)) (old new : List RuleValue) (p : Permission) (side : Side)
        (names others : List (List ℕ)) → AreAlone EachRule below old new p side names → AreAlone EachRule below old new p side others →
        names ≡ others }
{
    names_are_in_one_order();
}

/// Causes that `==` finds equal are the same.
pub(crate) fn equal_causes_are_one()
    ensures one { (a b : Causes) → causes_impl.eq-value.it a b ≡ true → a ≡ b }
    ensures itself { (a : Causes) → causes_impl.eq-value.it a a ≡ true }
{}
