//! Laws that show the definitions of `specs/Forms.antt` sane. The functions do nothing: each stands for its contract.
ghost use Rattle.std.specs.Prelude.{◌≡◌, ◌<◌, ◌∷◌, ℕ, List, Some, bytes_eq, codes, drop, false, length, slice_get};
ghost use Rattle.std.specs.List.{before_first};
ghost use Rattle.script_notes.specs.Forms.{change_forms, no_change, no_command, run_forms, step_forms, test_forms, why, why_words};
ghost use Rattle.script_notes.specs.Forms.{word_place};
ghost use Rattle.script_notes.specs.Said.{IsSo};
ghost use Rattle.script_notes.specs.ScriptLines.{says, says_in};
ghost use Rattle.script_notes.specs.declared.line.Script.{Script};
ghost use Rattle.script_notes.specs.declared.line.Says.TheVariants.{NoCommand};
ghost use Rattle.test_script.specs.TestScript.{words_kind};
ghost use Rattle.trace_script.specs.Script.{is_blank, line_kind, words_of};
ghost use Rattle.trace_steps.specs.StepScript.{step_kind};

/// Of a line that is no command, what isn't understood is one of its words; and the place that is shown of a word is where the line
/// has it, up to the next blank.
pub fn carets_are_below_words()
    ensures word { (script : Script) (number : ℕ) (line : List ℕ) → says_in script number line ≡ NoCommand →
        (why script line).word < length (words_of line) }
    ensures place { (line : List ℕ) (word : ℕ) → word < length (words_of line) →
        slice_get (words_of line) word ≡ Some (before_first is_blank (drop (word_place word line) line)) }
{}

/// What is said of words that are no command is so: of those of `run`, of `steps`, after `keep`, and of `test`. So where no command
/// is said to begin with a word, none does, and every command has a form.
pub fn what_is_said_is_so()
    ensures run { (word : List ℕ) (words : List (List ℕ)) → says (line_kind (word ∷ words)) ≡ NoCommand →
        IsSo (λ words. says (line_kind words)) run_forms no_command word words (why_words no_command run_forms (word ∷ words)) }
    ensures steps { (word : List ℕ) (words : List (List ℕ)) → bytes_eq (codes "keep") word ≡ false →
        says (step_kind (word ∷ words)) ≡ NoCommand →
        IsSo (λ words. says (step_kind words)) step_forms no_command word words (why_words no_command step_forms (word ∷ words)) }
    ensures after_keep { (word : List ℕ) (words : List (List ℕ)) → says (step_kind (codes "keep" ∷ word ∷ words)) ≡ NoCommand →
        IsSo (λ words. says (step_kind (codes "keep" ∷ words))) change_forms no_change word words
        (why_words no_change change_forms (word ∷ words)) }
    ensures test { (number : ℕ) (word : List ℕ) (words : List (List ℕ)) → says (words_kind number (word ∷ words)) ≡ NoCommand →
        IsSo (λ words. says (words_kind number words)) test_forms no_command word words
        (why_words no_command test_forms (word ∷ words)) }
{}
