//! Laws that show the definitions of `specs/` sane. The functions do nothing: each stands for its contract.
ghost use Rattle.std.specs.Prelude.{◌≡◌, ◌⊎◌, ◌++◌, ◌∷◌, [], ℕ, List};
ghost use Rattle.trace_script.specs.RunOutput.{text_of_lines};
ghost use Rattle.trace_script.specs.Script.{line_feed, lines_of};

mod endings;

pub use endings::{
    lines_are_read_one_by_one, lines_have_one_text, policies_are_closed_by_their_end,
    scripts_end_as_they_stop,
};

/// The lines of a text, each with its line feed, are the text again, or the text with the line feed that it lacks.
pub fn lines_are_the_text()
    ensures { (text : List ℕ) → (text_of_lines (lines_of text) ≡ text)
        ⊎ (text_of_lines (lines_of text) ≡ text ++ line_feed ∷ []) }
{}
