//! A law that shows the definition of words in quotes sane. The function does nothing: it stands for its contract.
ghost use Rattle.std.specs.Prelude.{◌≡◌, ◌≢◌, ℕ, List, All, Some};
ghost use Rattle.trace_script.specs.Script.{words_of};
ghost use Rattle.test_script.specs.TestScript.{quote, quoted_words};

/// The words of a line without quotes are those that blanks separate, as in a script of `run`.
pub fn words_without_quotes_are_separated_by_blanks()
    ensures { (line : List ℕ) → All (λ b. b ≢ quote) line → quoted_words line ≡ Some (words_of line) }
{}
