//! Laws of the grammar and of reading. The functions do nothing: each stands for its contract.
ghost use Rattle.std.specs.Prelude.{◌≡◌, ◌↔◌, ◌++◌, ℕ, List, Ok, Err, IsTrue};
ghost use Rattle.rule_reader.specs.declared.fault.ReadFault.{ReadFault};
ghost use Rattle.rule_profile.specs.Profile.{ProfileValue, profile_value};
ghost use Rattle.rule_profile.specs.declared.profile.Profile.{Profile};
ghost use Rattle.rule_reader.specs.Grammar.{ReadsAs};
ghost use Rattle.rule_reader.specs.ReadText.{outcome_of};
ghost use Rattle.rule_profile.specs.Readable.{is_profile};
ghost use Rattle.rule_reader.specs.ReadFaults.{FaultsAs, HasOutcome, Refused, IsSettled};
ghost use Rattle.rule_reader.specs.Spans.{AreReadAgain, spans_of};

/// Each text has one profile or one fault.
pub fn one_outcome()
    ensures some { (text : List ℕ) → HasOutcome text }
    ensures not_both { (text : List ℕ) (p : ProfileValue) (f : ReadFault)
        → ReadsAs text p → FaultsAs text f → ⊥ }
    ensures one_profile { (text : List ℕ) (p q : ProfileValue)
        → ReadsAs text p → ReadsAs text q → p ≡ q }
    ensures one_fault { (text : List ℕ) (f g : ReadFault)
        → FaultsAs text f → FaultsAs text g → f ≡ g }
    // The grammar's trees and the functions that read from left to right agree.
    ensures read_as_outcome { (text : List ℕ) (p : ProfileValue)
        → ReadsAs text p ↔ (outcome_of text ≡ Ok p) }
    // Running out of memory is never a text's own fault.
    ensures never_memory { (text : List ℕ) → FaultsAs text ReadFault.NoMemory → ⊥ }
{}

/// If a text's fault is settled, each text that begins with it is refused too, for this fault or another.
pub fn settled_faults_stay()
    ensures { (text more : List ℕ) → IsSettled text → Refused (text ++ more) }
{}

/// Which profiles can be read: what a text is read as passes the test, and so does every profile.
pub fn profiles_can_be_read()
    ensures read { (text : List ℕ) (p : ProfileValue) → ReadsAs text p → IsTrue (is_profile p) }
    ensures kept { (p : Profile) → IsTrue (is_profile (profile_value p)) }
{}

/// The rules of a text are read again at their places: from a rule's first byte on, the text is read as that rule, up to its comma.
/// The places follow one another in the order of the rules.
pub fn spans_are_read_again()
    ensures { (text : List ℕ) (p : ProfileValue) → outcome_of text ≡ Ok p → AreReadAgain text 0 p.rules (spans_of text) }
{}
