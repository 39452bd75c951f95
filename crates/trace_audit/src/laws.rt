//! The laws of what is reported. The function does nothing: it exists for its contract.
ghost use Rattle.std.specs.Prelude.{◌≡◌, ◌↔◌, ◌++◌, ℕ, List, Ok, Some};
ghost use Rattle.names.specs.declared.permissions.Perms.{Perms};
ghost use Rattle.rule_globs.specs.Glob.{Takes};
ghost use Rattle.rule_profile.specs.Profile.{pattern};
ghost use Rattle.rule_reader.specs.ReadText.{rule_at};
ghost use Rattle.trace_audit.specs.Answers.{added_rule, rule_of};

use rule_writer::rule_texts_are_read;

/// A rule that is proposed is read as the rule of this name for these permissions, whatever follows it, and its path matches this name
/// and no other.
pub fn added_rules_take_their_name()
    ensures read { (name : List ℕ) (perms : Perms) (text more : List ℕ) → added_rule name perms ≡ Some text →
        rule_at (text ++ more) ≡ Ok (rule_of name perms, more) }
    ensures only { (name : List ℕ) (perms : Perms) (text other : List ℕ) → added_rule name perms ≡ Some text →
        Takes (pattern (rule_of name perms)) other ↔ (other ≡ name) }
{
    rule_texts_are_read();
}
