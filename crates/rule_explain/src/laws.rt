//! Laws of reasons, and of the rules that explanations name. The functions do nothing: each stands for its contract.
ghost use Rattle.std.specs.Prelude.{◌≡◌, ℕ, List, Ok};
ghost use Rattle.names.specs.declared.permissions.Permission.{Permission};
ghost use Rattle.names.specs.declared.permissions.Perms.{Perms};
ghost use Rattle.rule_globs.specs.PlainVerdict.{verdict};
ghost use Rattle.rule_profile.specs.Profile.{RuleValue, ProfileValue};
ghost use Rattle.rule_reader.specs.ReadText.{outcome_of};
ghost use Rattle.rule_explain.specs.Reasons.{reason, IsReason};
ghost use Rattle.rule_explain.specs.Told.{IsRightlyTold};
ghost use Rattle.rule_explain.specs.VerdictReasons.{AgreesWithReasons};
ghost use Rattle.rule_explain.specs.declared.reason.Reason.{Reason};

use rule_globs::one_verdict_is_right;
use rule_reader::{one_outcome, profiles_can_be_read, spans_are_read_again};
use rule_writer::rule_texts_are_read;

/// The computed reason is right, and no other reason is.
pub fn reasons_are_right()
    ensures some { (rules : List RuleValue) (name : List ℕ) (p : Permission) →
        IsReason rules name p (reason rules name p) }
    ensures only { (rules : List RuleValue) (name : List ℕ) (p : Permission) (first second : Reason) →
        IsReason rules name p first → IsReason rules name p second → first ≡ second }
{}

/// The verdict agrees with the reasons: denied by the least rule by which something that is asked is denied; otherwise no rule for
/// exactly the permissions about which no rule says anything; otherwise allowed, each permission by some rule.
pub fn verdicts_agree_with_reasons()
    ensures { (rules : List RuleValue) (name : List ℕ) (ask : Perms) → AgreesWithReasons rules name ask (verdict rules name ask) }
{
    one_verdict_is_right();
}

/// What is said about a permission by the rules of a text is right: the least deny rule that holds it and matches the name, or
/// otherwise the least allow rule. That rule is in the text where it is said to be: from there on it is read again. Its text in the
/// explanation is read again as that rule, too.
pub fn explanations_are_right()
    ensures { (text : List ℕ) (profile : ProfileValue) (name : List ℕ) (p : Permission) → outcome_of text ≡ Ok profile →
        IsRightlyTold text profile.rules name p (reason profile.rules name p) }
{
    reasons_are_right();
    one_outcome();
    profiles_can_be_read();
    spans_are_read_again();
    rule_texts_are_read();
}
