//! Laws that show the definitions of `specs/` sane. The functions do nothing: each stands for its contract.
ghost use Rattle.std.specs.Prelude.{◌≡◌, ◌++◌, ℕ, List, None, [], codes, decimal, false, length, map, true};
ghost use Rattle.std.specs.List.{list_all};
ghost use Rattle.glob_automaton.specs.Automata.{StateLimit};
ghost use Rattle.mediation.specs.History.{History};
ghost use Rattle.trace_report.specs.Output.{line};
ghost use Rattle.trace_report.specs.declared.format.Format.{Format};
ghost use Rattle.trace_report.specs.declared.format.Format.TheVariants.{Text};
ghost use Rattle.trace_report.specs.declared.status.Status.TheVariants.{Unmet};
ghost use Rattle.trace_script.specs.RunOutput.{script_output};
ghost use Rattle.trace_script.specs.Script.{script_of};
ghost use Rattle.trace_test.specs.Expectations.{expectations, holds};
ghost use Rattle.trace_test.specs.Laws.{IsPlain, IsTaken, answer_lines, asked_of, woven};
ghost use Rattle.trace_test.specs.TestOutput.{count_text, test_output};
ghost use Rattle.test_script.specs.TestScript.{Asked, run, test_script};

mod endings;

pub use endings::{expectations_hold_by_their_answer, tests_end_as_their_expectations_hold};

/// A script without quotes and without lines that ask or expect anything means the same to `test` as to `run`. Where it isn't
/// stopped at a line, and refuses no policy, it has no expectation, so that it shows nothing; and with answers it shows what `run`
/// prints.
pub fn scripts_are_tests()
    ensures commands { (text : List ℕ) → IsPlain text → asked_of (test_script text).commands ≡ map run (script_of text).commands }
    ensures none_expects { (text : List ℕ) → IsPlain text →
        length (test_script text).commands ≡ length (script_of text).commands }
    ensures stopped { (text : List ℕ) → IsPlain text → (test_script text).stopped ≡ (script_of text).stopped }
    ensures output { (text : List ℕ) (limit : StateLimit) → IsPlain text → (script_of text).stopped ≡ None →
        IsTaken limit (script_of text).commands → (format : Format) (history : History) →
        test_output (record { format = format; answers = false }) limit history (test_script text)
        ≡ record { answers = line (count_text format 0 0); faults = []; status = Unmet } }
    ensures answers { (text : List ℕ) (limit : StateLimit) → IsPlain text → (script_of text).stopped ≡ None →
        IsTaken limit (script_of text).commands → (history : History) →
        test_output (record { format = Text; answers = true }) limit history (test_script text) ≡ record {
          answers = (script_output limit history (script_of text)).answers ++ line (count_text Text 0 0);
          faults = [];
          status = Unmet;
        } }
{}

/// Where each command is followed by a line that expects the answer that it gets, there is an expectation for each, and all hold.
pub fn own_answers_hold()
    ensures count { (limit : StateLimit) (history : History) (number : ℕ) (commands : List Asked) →
        length (expectations limit history (woven number commands (answer_lines limit history commands))) ≡ length commands }
    ensures hold { (limit : StateLimit) (history : History) (number : ℕ) (commands : List Asked) →
        list_all holds (expectations limit history (woven number commands (answer_lines limit history commands))) ≡ true }
{}
