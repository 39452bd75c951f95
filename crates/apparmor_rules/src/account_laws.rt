//! Laws of what an account shows. The functions do nothing: each exists for its contract.
ghost use Rattle.std.specs.Prelude.{◌≡◌, ◌≤◌, ◌<◌, ℕ, List, Some, All, length};
ghost use Rattle.apparmor_rules.specs.ShownTexts.{shown_byte, shown_text};
ghost use Rattle.apparmor_rules.specs.Whats.{statement_what, statements, what_word};

/// No control byte is shown, and no more than 72 bytes of a text.
pub fn shown_texts_are_safe()
    ensures control_byte { (byte : ℕ) → shown_byte byte < 32 → ⊥ }
    ensures delete { (byte : ℕ) → shown_byte byte ≡ 127 → ⊥ }
    ensures short { (bytes : List ℕ) → length (shown_text bytes) ≤ 72 }
{}

/// The word of each statement is read as that statement, and no other.
pub fn statements_have_their_words()
    ensures { All (λ what. statement_what (what_word what) ≡ Some what) statements }
{}
