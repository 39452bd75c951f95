//! Laws of how scripts of events end. The functions do nothing: each exists only for its contract.
ghost use Rattle.std.specs.Prelude.{◌≡◌, ℕ, List, Option, Some, None};
ghost use Rattle.event_machine.specs.Machine.{Machine};
ghost use Rattle.glob_automaton.specs.Automata.{StateLimit};
ghost use Rattle.trace_report.specs.Streams.{Streams};
ghost use Rattle.trace_report.specs.declared.status.Status.TheVariants.{Done, Unmet, BadArguments, Refused};
ghost use Rattle.trace_steps.specs.StepScript.{step_script};
ghost use Rattle.trace_steps.specs.StepsOutput.{StepsEnd};

/// A script that runs to its end isn't refused, and one that stops at a line is not done; bad arguments are found earlier, and
/// there is nothing to expect.
pub fn step_scripts_end_as_they_stop()
    ensures whole_as_refused { (limit : StateLimit) (streams : Streams) (left left_after : Option (List ℕ)) (old new : Machine)
        (text : List ℕ) →
        (step_script text).stopped ≡ None → StepsEnd limit streams left left_after old new text Refused → ⊥ }
    ensures stopped_as_done { (limit : StateLimit) (streams : Streams) (left left_after : Option (List ℕ)) (old new : Machine)
        (text : List ℕ) (line : ℕ) →
        (step_script text).stopped ≡ Some line → StepsEnd limit streams left left_after old new text Done → ⊥ }
    ensures bad_arguments { (limit : StateLimit) (streams : Streams) (left left_after : Option (List ℕ)) (old new : Machine)
        (text : List ℕ) →
        StepsEnd limit streams left left_after old new text BadArguments → ⊥ }
    ensures unmet { (limit : StateLimit) (streams : Streams) (left left_after : Option (List ℕ)) (old new : Machine) (text : List ℕ) →
        StepsEnd limit streams left left_after old new text Unmet → ⊥ }
{}
