//! Laws of how tests end. The functions do nothing: each stands for its contract.
ghost use Rattle.std.specs.Prelude.{◌≡◌, ◌≢◌, ◌<◌, ◌++◌, true, false, [], ℕ, List, Option, Some, None, codes};
ghost use Rattle.std.specs.List.{list_all};
ghost use Rattle.glob_automaton.specs.Automata.{StateLimit};
ghost use Rattle.mediation.specs.History.{History};
ghost use Rattle.trace_report.specs.Streams.{Streams};
ghost use Rattle.trace_report.specs.declared.status.Status.TheVariants.{Done, Unmet, BadArguments, Refused};
ghost use Rattle.trace_test.specs.declared.options.TestOptions.{TestOptions};
ghost use Rattle.trace_test.specs.Expectations.{expectations, holds, holds_by, is_answer, is_dots};
ghost use Rattle.trace_test.specs.Laws.{is_open};
ghost use Rattle.trace_test.specs.TestOutput.{TestEnds, shown_byte};
ghost use Rattle.test_script.specs.TestScript.{test_script};

/// A test is done only where it goes to its end, expects something, and each expectation holds; unmet only where it goes to its
/// end, and expects nothing or something that doesn't hold; and refused only where it stops at a line.
pub fn tests_end_as_their_expectations_hold()
    ensures failed_as_done { (options : TestOptions) (limit : StateLimit) (streams : Streams) (left left_after : Option (List ℕ))
        (history : History)
        (text : List ℕ) →
        list_all holds (expectations limit history (test_script text).commands) ≡ false →
        TestEnds options limit streams left left_after history text Done → ⊥ }
    ensures nothing_as_done { (options : TestOptions) (limit : StateLimit) (streams : Streams) (left left_after : Option (List ℕ))
        (history : History)
        (text : List ℕ) →
        expectations limit history (test_script text).commands ≡ [] →
        TestEnds options limit streams left left_after history text Done → ⊥ }
    ensures held_as_unmet { (options : TestOptions) (limit : StateLimit) (streams : Streams) (left left_after : Option (List ℕ))
        (history : History)
        (text : List ℕ) →
        expectations limit history (test_script text).commands ≢ [] →
        list_all holds (expectations limit history (test_script text).commands) ≡ true →
        TestEnds options limit streams left left_after history text Unmet → ⊥ }
    ensures stopped_as_done { (options : TestOptions) (limit : StateLimit) (streams : Streams) (left left_after : Option (List ℕ))
        (history : History)
        (text : List ℕ) (line : ℕ) →
        (test_script text).stopped ≡ Some line → TestEnds options limit streams left left_after history text Done → ⊥ }
    ensures stopped_as_unmet { (options : TestOptions) (limit : StateLimit) (streams : Streams) (left left_after : Option (List ℕ))
        (history : History)
        (text : List ℕ) (line : ℕ) →
        (test_script text).stopped ≡ Some line → TestEnds options limit streams left left_after history text Unmet → ⊥ }
    ensures whole_as_refused { (options : TestOptions) (limit : StateLimit) (streams : Streams) (left left_after : Option (List ℕ))
        (history : History)
        (text : List ℕ) →
        (test_script text).stopped ≡ None → TestEnds options limit streams left left_after history text Refused → ⊥ }
    ensures bad_arguments { (options : TestOptions) (limit : StateLimit) (streams : Streams) (left left_after : Option (List ℕ))
        (history : History)
        (text : List ℕ) →
        TestEnds options limit streams left left_after history text BadArguments → ⊥ }
{}

/// An expectation doesn't hold where no command was answered before it, and a refused policy of which nothing is expected is one
/// that doesn't hold. Each answer is expected by its own text, by this text and a last word `...`, and by `...` alone; and by no
/// other text without such a last word. No control byte is shown.
pub fn expectations_hold_by_their_answer()
    ensures nothing { (expected : List ℕ) → holds_by (Some expected) None ≡ true → ⊥ }
    ensures unexpected { (got : Option (List ℕ)) → holds_by None got ≡ true → ⊥ }
    ensures own { (text : List ℕ) → is_answer text text ≡ true }
    ensures another { (expected got : List ℕ) → is_dots expected ≡ false → is_open expected ≡ false → got ≢ expected →
        is_answer expected got ≡ true → ⊥ }
    ensures front { (text : List ℕ) → is_answer (text ++ codes " ...") text ≡ true }
    ensures any { (got : List ℕ) → is_answer (codes "...") got ≡ true }
    ensures control_byte { (byte : ℕ) → shown_byte byte < 32 → ⊥ }
    ensures delete { (byte : ℕ) → shown_byte byte ≡ 127 → ⊥ }
{}
