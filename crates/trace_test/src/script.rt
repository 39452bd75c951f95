//! `test --capacity N`: a script with questions and expectations, taken line by line.
ghost use Rattle.std.specs.Prelude.{◌≡◌, ℕ, List};
ghost use Rattle.glob_automaton.specs.Automata.{StateLimit};
ghost use Rattle.mediation.specs.History.{policy_version};
ghost use Rattle.trace_report.specs.Streams.{IsTextOf, streams};
ghost use Rattle.trace_test.specs.TestOutput.{TestEnds};
ghost use Rattle.trace_test.specs.inner.Tests.{IsTested};

use crate::options::TestOptions;
use crate::progress::Progress;
use mediation::Bench;
use std::alloc::Global;
use std::io::{BufRead, Write};
use trace_report::{Status, fail};
use trace_script::{Stop, follow_script, print_line};

/// Does the commands of a script line by line, up to its end or to a line that is no command. The answers are shown on `answers`,
/// if the options say so; each expectation that doesn't hold is reported there, and so is each policy that is refused, where no
/// expectation follows; and at the script's end the number of expectations that hold. Without expectations the test is unmet.
pub fn run_test<B: Bench, R: BufRead, A: Write, F: Write>(
    alloc: Global,
    options: TestOptions,
    bench: &mut B,
    input: &mut R,
    answers: &mut A,
    faults: &mut F,
) -> Status
    requires { policy_version (B.history bench.old) ≡ 0 }
    ensures { (limit : StateLimit) → (text : List ℕ) × IsTextOf (R.remaining input.old) text × TestEnds options limit
        (streams (A.contents answers.old) (A.contents answers.new) (F.contents faults.old) (F.contents faults.new))
        (R.remaining input.old) (R.remaining input.new) (B.history bench.old) text result }
{
    match test(alloc, options, bench, input, answers) {
        Ok(status) => status,
        Err(stop) => fail(faults, stop, stop.status()),
    }
}

/// Does the lines of a script, and writes its answers, if they are shown, and the outcome of its expectations.
fn test<B: Bench, R: BufRead, A: Write>(
    alloc: Global,
    options: TestOptions,
    bench: &mut B,
    input: &mut R,
    answers: &mut A,
) -> Result<Status, Stop>
    requires { policy_version (B.history bench.old) ≡ 0 }
    ensures { (limit : StateLimit) → (text : List ℕ) × IsTextOf (R.remaining input.old) text
        × IsTested options limit (B.history bench.old) (R.remaining input.old) (R.remaining input.new) text (A.contents answers.old)
        (A.contents answers.new) result }
{
    let mut progress = Progress::new(alloc, options);
    follow_script(alloc, &mut progress, bench, input, answers)?;
    let lines = progress.ending(alloc)?;
    print_line(answers, &lines)?;
    Ok(progress.status())
}
