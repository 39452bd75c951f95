//! Laws of canonical texts. The functions do nothing: each stands for its contract.
ghost use Rattle.std.specs.Prelude.{◌≡◌, ◌↔◌, ◌++◌, ℕ, List, Ok, IsTrue, codes};
ghost use Rattle.rule_reader.specs.Grammar.{ReadsAs};
ghost use Rattle.rule_profile.specs.Profile.{RuleValue, ProfileValue};
ghost use Rattle.rule_profile.specs.Readable.{is_profile, is_rule};
ghost use Rattle.rule_reader.specs.ReadText.{rule_at};
ghost use Rattle.rule_writer.specs.Canonical.{canonical, rule_line, rule_text, CanBeRead};

use rule_reader::{one_outcome, profiles_can_be_read};

/// Which profiles can be read, and that the canonical text of each is read as it and as no other.
pub fn canonical_texts_are_read()
    ensures again { (p : ProfileValue) → CanBeRead p → ReadsAs (canonical p) p }
    ensures apart { (p q : ProfileValue) → CanBeRead p → CanBeRead q → canonical p ≡ canonical q → p ≡ q }
    ensures readable { (p : ProfileValue) → CanBeRead p ↔ IsTrue (is_profile p) }
{
    one_outcome();
    profiles_can_be_read();
}

/// The text of a rule that can be read is read as that rule, whatever follows it. In a canonical text it is on a line.
pub fn rule_texts_are_read()
    ensures again { (r : RuleValue) (more : List ℕ) → IsTrue (is_rule r) → rule_at (rule_text r ++ more) ≡ Ok (r, more) }
    ensures line { (r : RuleValue) → rule_line r ≡ codes "  " ++ (rule_text r ++ codes "\n") }
{}
