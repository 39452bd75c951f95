//! Rows of an automaton, read as ranges and as the targets of all bytes, and the order of its states.
ghost use Rattle.std.specs.Prelude.{◌<◌, length};

use automaton_rows::head;
use glob_automaton::{Dfa, compile};
use rule_reader::read;
use std::alloc::Global;
use std::test::Fail;

const TEXTS: [&[u8]; 4] = [
    b"profile p {}",
    b"profile p {/etc/passwd r,}",
    b"profile p {/a*[b-d]?/** r, deny /{a,b}?/c w, /[^a]** k,}",
    b"profile p {/a/** r, /a/** w, deny /a/b{c,d?} rw, /**/x* r, /*/y m, /**a?? l, /a/** k,}",
];

fn compiled(alloc: Global, text: &[u8]) -> Result<Dfa, Fail> {
    Ok(compile(alloc, &read(alloc, text)?)?)
}

// Whether the row of a state says the same of each byte, however it is read.
fn is_one_row(dfa: &Dfa, state: u32) -> bool
    requires { state < length dfa.now.rows }
{
    let targets = dfa.targets(state);
    for byte in 0..256 {
        if targets[byte] != dfa.target(state, byte as u8) {
            return false;
        }
    }
    u32::from(head(dfa.row(state), 0).target) == targets[0]
}

#[test]
fn rows(rt: HostRuntime) -> Result<(), Fail> {
    for text in TEXTS {
        let dfa = compiled(rt.alloc(), text)?;
        for state in 0..dfa.states() {
            assert!(&rt; is_one_row(&dfa, state));
        }
    }
    Ok(())
}

// The greatest state that was met, with those that the bytes lead to from this one, in ascending order. None if a state is met before
// one with a smaller number.
fn met_from(dfa: &Dfa, state: u32, met: u32) -> Option<u32>
    requires { state < length dfa.now.rows }
{
    let mut greatest = met;
    for byte in 0..256u32 {
        let target = dfa.target(state, byte as u8);
        if target.saturating_sub(1) > greatest {
            return None;
        }
        greatest = greatest.max(target);
    }
    Some(greatest)
}

// Whether states are numbered as they are met: first those of shorter prefixes, and of prefixes as long those of smaller bytes.
fn is_in_order(dfa: &Dfa) -> bool {
    let mut met = dfa.start();
    for state in 0..dfa.states() {
        match met_from(dfa, state, met) {
            Some(greatest) => met = greatest,
            None => return false,
        }
    }
    met.saturating_add(1) == dfa.states()
}

#[test]
fn states_in_order(rt: HostRuntime) -> Result<(), Fail> {
    for text in TEXTS {
        assert!(&rt; is_in_order(&compiled(rt.alloc(), text)?));
    }
    Ok(())
}
