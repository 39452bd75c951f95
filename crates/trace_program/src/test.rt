//! `test --capacity N`: a script with expectations, on a bench of a keeper, a publisher and a session.
ghost use Rattle.std.specs.Prelude.{◌≡◌, ◌≤◌, ℕ, List};
ghost use Rattle.glob_automaton.specs.Automata.{StateLimit};
ghost use Rattle.trace_report.specs.Streams.{IsTextOf, streams};
ghost use Rattle.trace_test.specs.TestOutput.{TestEndsFrom};

use names::NoMemory;
use script_bench::SessionBench;
use std::alloc::Global;
use std::io::{BufRead, Write};
use std::sync::Wait;
use trace_report::{Status, fail};
use trace_test::{TestOptions, run_test};
use tree_row::MOST_ENTRIES;

/// Reads a script from `input`, does its commands as `run` does them, and writes to `answers` a line for each expectation that
/// doesn't hold, with the option `answers` one for each answer, and at the end how many hold. The tree begins as the root alone,
/// with room for `capacity` entries. Why the script isn't followed to its end is reported on `faults`.
pub(crate) fn test<H: Wait, R: BufRead, A: Write, F: Write>(
    rt: &H,
    alloc: Global,
    options: TestOptions,
    capacity: u32,
    input: &mut R,
    answers: &mut A,
    faults: &mut F,
) -> Status
    requires { capacity ≤ MOST_ENTRIES }
    ensures { (limit : StateLimit) → (text : List ℕ) × IsTextOf (R.remaining input.old) text × TestEndsFrom options limit
        (streams (A.contents answers.old) (A.contents answers.new) (F.contents faults.old) (F.contents faults.new))
        (R.remaining input.old) (R.remaining input.new) capacity text result }
{
    match SessionBench::new(rt, alloc, capacity as usize) {
        Ok(mut bench) => {
            let status = run_test(alloc, options, &mut bench, input, answers, faults);
            bench.close();
            status
        }
        Err(NoMemory) => fail(faults, NoMemory, Status::NoMemory),
    }
}
