//! The compiler of profiles.
ghost use Rattle.std.specs.Prelude.{◌≡◌, ◌⊎◌, IfOk, IfErr};
ghost use Rattle.benchmarks.specs.States.{HasStates, IsRefusal};

use glob_automaton::{CompileFault, compile};
use names::NoMemory;
use rule_reader::{ReadFault, read};
use std::alloc::{AllocError, Global};
use std::io;
use std::io::Print;

/// Why a text has no states.
#[derive(Clone, Copy)]
enum Refusal {
    Text(ReadFault),
    Profile(CompileFault),
}

/// Compiles the text's profile COUNT times, and prints once how many states its automaton has, or why it has none. The word is
/// `COUNT`; with none it is compiled once, and with 0 nothing is compiled or printed, so that the time of such a run is that of all
/// else.
pub(crate) fn print_states<R: Print>(
    rt: &R,
    alloc: Global,
    words: &[String],
    text: &[u8],
) -> io::Result<()> {
    let Some(count) = count_of(words) else {
        return println!(rt; "usage: compile [COUNT]");
    };
    let Some(answer) = last_states(alloc, text, count) else {
        return Ok(());
    };
    let line = report(alloc, answer)?;
    println!(rt; "{line}")
}

// How often the words say that the profile is compiled.
fn count_of(words: &[String]) -> Option<u64> {
    match words {
        [] => Some(1),
        [count] => count.as_str().parse().ok(),
        _ => None,
    }
}

// Asks for the states that often, and returns the last answer, if there is one. Each time the text is read and compiled anew.
fn last_states(alloc: Global, text: &[u8], count: u64) -> Option<Result<u32, Refusal>> {
    let mut last = None;
    for _ in 0..count {
        last = Some(states(alloc, text));
    }
    last
}

/// How many states the automaton of the text's profile has.
fn states(alloc: Global, text: &[u8]) -> Result<u32, Refusal>
    ensures ok { IfOk result (HasStates text.now) }
    ensures err { IfErr result (IsRefusal text.now) }
{
    let profile = match read(alloc, text) {
        Ok(profile) => profile,
        Err(fault) => return Err(Refusal::Text(fault)),
    };
    match compile(alloc, &profile) {
        Ok(dfa) => Ok(dfa.states()),
        Err(fault) => Err(Refusal::Profile(fault)),
    }
}

/// The line that is printed.
fn report(alloc: Global, states: Result<u32, Refusal>) -> Result<String, AllocError> {
    match states {
        Ok(states) => format!(in alloc; "states {states}"),
        Err(Refusal::Text(ReadFault::NoMemory)) | Err(Refusal::Profile(CompileFault::NoMemory)) => {
            format!(in alloc; "{}", NoMemory)
        }
        Err(Refusal::Text(fault)) => {
            let number = fault.number();
            let offset = fault.offset().unwrap_or(0);
            format!(in alloc; "refused: read {number} at {offset}")
        }
        Err(Refusal::Profile(fault)) => {
            let number = fault.number();
            format!(in alloc; "refused: compile {number}")
        }
    }
}
