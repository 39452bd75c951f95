//! The engine of `run` over a tree in plain memory, in one thread.
ghost use Rattle.std.specs.Prelude.{ℕ, List};
ghost use Rattle.glob_automaton.specs.Automata.{StateLimit};
ghost use Rattle.trace_report.specs.Streams.{IsTextOf, streams};
ghost use Rattle.trace_script.specs.RunOutput.{RunEnds};

use names::NoMemory;
use script_bench::PlainBench;
use std::alloc::Global;
use std::io::{BufRead, Write};
use trace_report::{Status, fail};
use trace_script::run_script;

/// Does with a script what `aa-trace run --capacity N` does, and writes the same bytes, on a tree in plain memory and a map of
/// profiles: no keeper, no session and no kept verdicts, and it waits for nothing. Any capacity will do.
pub fn run_plain<R: BufRead, A: Write, F: Write>(
    alloc: Global,
    capacity: u32,
    input: &mut R,
    answers: &mut A,
    faults: &mut F,
) -> Status
    ensures { (limit : StateLimit) → (text : List ℕ) × IsTextOf (R.remaining input.old) text × RunEnds limit
        (streams (A.contents answers.old) (A.contents answers.new) (F.contents faults.old) (F.contents faults.new))
        (R.remaining input.old) (R.remaining input.new) capacity text result }
{
    match PlainBench::new(alloc, capacity as usize) {
        Ok(mut bench) => run_script(alloc, &mut bench, input, answers, faults),
        Err(NoMemory) => fail(faults, NoMemory, Status::NoMemory),
    }
}
