//! Laws of the items of a text. The functions do nothing: each stands for its contract.
ghost use Rattle.std.specs.Prelude.{◌≡◌, ◌++◌, ℕ, List, Option, Some, None};
ghost use Rattle.rule_globs.specs.Each.{Each};
ghost use Rattle.apparmor_text.specs.SoundItems.{IsItem};
ghost use Rattle.apparmor_text.specs.Parts.{ItemValue, bytes_of_items};
ghost use Rattle.apparmor_words.specs.Steps.{Stop};
ghost use Rattle.apparmor_text.specs.Texts.{ReadsItems};

/// The bytes of a text's items, one after another, are the text, or its front part if reading stops at a fault; each item has
/// parts, each part has bytes, and a blank is white space and comments alone.
pub fn items_are_the_text()
    ensures whole { (text : List ℕ) (items : List ItemValue) → ReadsItems text items None → bytes_of_items items ≡ text }
    ensures front { (text : List ℕ) (items : List ItemValue) (stop : Stop) → ReadsItems text items (Some stop)
        → (rest : List ℕ) × (bytes_of_items items ++ rest ≡ text) }
    ensures items { (text : List ℕ) (items : List ItemValue) (end : Option Stop) → ReadsItems text items end → Each IsItem items }
{}

/// Each text has one list of items, and one fault or none.
pub fn texts_have_one_outcome()
    ensures one { (text : List ℕ) (items others : List ItemValue) (end other : Option Stop) → ReadsItems text items end →
        ReadsItems text others other
        → (items ≡ others) × (end ≡ other) }
    ensures some { (text : List ℕ) → (items : List ItemValue) × (end : Option Stop) × ReadsItems text items end }
{}
