//! Laws of how scripts end and of what is read and composed for them. The functions do nothing: each stands for its contract.
ghost use Rattle.std.specs.Prelude.{◌≡◌, ◌≢◌, ◌∷◌, ◌++◌, ℕ, List, Option, Some, None, Ok, Err, Vec};
ghost use Rattle.std.specs.declared.alloc.Global.{Global};
ghost use Rattle.glob_automaton.specs.Automata.{StateLimit};
ghost use Rattle.mediation.specs.History.{History};
ghost use Rattle.trace_report.specs.Streams.{Streams};
ghost use Rattle.trace_report.specs.declared.status.Status.TheVariants.{Done, Unmet, Refused};
ghost use Rattle.trace_script.specs.Engine.{IsClosed, IsComposed, IsLineRead, IsPut, IsText, stop_status};
ghost use Rattle.trace_script.specs.RunOutput.{Printed, ScriptEnds};
ghost use Rattle.trace_script.specs.Script.{line_feed, outside, script_of, within};
ghost use Rattle.trace_script.specs.declared.reader.LineRead.TheVariants.{Whole, Last, End};
ghost use Rattle.trace_script.specs.declared.stop.Stop.{Stop};
ghost use Rattle.trace_script.specs.declared.stop.Stop.TheVariants.{NoCommand, Memory, Output};

/// A script that goes to its end isn't refused, one that stops at a line is not done, and no stop of any kind is.
pub fn scripts_end_as_they_stop()
    ensures whole_as_refused { (limit : StateLimit) (streams : Streams) (left left_after : Option (List ℕ)) (history : History)
        (text : List ℕ) →
        (script_of text).stopped ≡ None → ScriptEnds limit streams left left_after history text Refused → ⊥ }
    ensures stopped_as_done { (limit : StateLimit) (streams : Streams) (left left_after : Option (List ℕ)) (history : History)
        (text : List ℕ) (line : ℕ) →
        (script_of text).stopped ≡ Some line → ScriptEnds limit streams left left_after history text Done → ⊥ }
    ensures unmet { (limit : StateLimit) (streams : Streams) (left left_after : Option (List ℕ)) (history : History) (text : List ℕ) →
        ScriptEnds limit streams left left_after history text Unmet → ⊥ }
    ensures stop_as_done { (stop : Stop) → stop_status stop ≡ Done → ⊥ }
    ensures memory_as_refused { stop_status Memory ≡ Refused → ⊥ }
{}

/// A policy without its end isn't closed, and is reported at the line that it began at; outside of one nothing is reported.
pub fn policies_are_closed_by_their_end()
    ensures open { (start : ℕ) (text : List ℕ) (done : ℕ) → IsClosed (within start text) (Ok done) → ⊥ }
    ensures another_line { (start line : ℕ) (text : List ℕ) → line ≢ start →
        IsClosed {T = ℕ} (within start text) (Err (NoCommand line)) → ⊥ }
    ensures closed { (line : ℕ) → IsClosed {T = ℕ} outside (Err (NoCommand line)) → ⊥ }
{}

/// A line that was read has no line feed, the last one is not whole, and the end is where nothing is left.
pub fn lines_are_read_one_by_one()
    ensures two_lines { (before after : Option (List ℕ)) (line : List ℕ) → IsLineRead before after (line_feed ∷ line) (Ok Whole) → ⊥ }
    ensures last_as_whole { (line after : List ℕ) → IsLineRead (Some line) (Some after) line (Ok Whole) → ⊥ }
    ensures whole_as_last { (line left : List ℕ) (after : Option (List ℕ)) →
        IsLineRead (Some (line ++ line_feed ∷ left)) after line (Ok Last) → ⊥ }
    ensures end_too_early { (byte : ℕ) (left line : List ℕ) (after : Option (List ℕ)) →
        IsLineRead (Some (byte ∷ left)) after line (Ok End) → ⊥ }
{}

/// A line has one text, and what it says is done; composing it fails only when memory runs out; and bytes that were not written are
/// not reported as written.
pub fn lines_have_one_text()
    ensures text { (text : List ℕ) (one other : Vec ℕ Global) → IsText text (Ok one) → IsText text (Ok other) → one.items ≡ other.items }
    ensures printed { (p : Printed) (history another : History) (one other : Vec ℕ Global) →
        IsComposed p history (Ok one) → IsComposed p another (Ok other) → (one.items ≡ other.items) × (history ≡ another) }
    ensures composed_as_not_written { (p : Printed) (history : History) → IsComposed p history (Err Output) → ⊥ }
    ensures not_written { (before : List ℕ) (byte : ℕ) (bytes : List ℕ) (done : ℕ) →
        IsPut (Some before) (Some before) (byte ∷ bytes) (Ok done) → ⊥ }
{}
