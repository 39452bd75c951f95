//! Many names run through one table.
ghost use Rattle.std.specs.Prelude.{◌≡◌, ◌+◌, ◌*◌, ◌^◌, ◌<◌, length};
ghost use Rattle.loop_bench.specs.Walks.{AreAfter, AreAfterRounds, IsWalkOf, steps_of_round};

use std::alloc::Global;
use table_verifier::{LoadedProfile, LookUps, Steps, VerifiedTable, run};

const RUN: u16 = 0;

const BAD_IMAGE: u16 = 1;

const BAD_CALL: u16 = 2;

/// The outcome of running many names.
#[repr(C)]
#[derive(Clone, Copy, Debug)]
pub struct Walk {
    /// 0 if they were run, 1 if the image has a fault, 2 if the count may have no room for the steps.
    pub kind: u16,
    /// The number of the image's fault, or 0.
    pub number: u16,
    /// How many steps were taken: one for each byte of a name.
    pub steps: u64,
}

/// Runs as many names as `states` has entries through the table of an image, which is loaded once. The names follow one another
/// and are equally long, as long as there are bytes for all; and each round runs all of them.
#[unsafe(no_mangle)]
pub extern "C" fn loop_bench_run(
    alloc: Global,
    image: &[u8],
    names: &[u8],
    rounds: u32,
    states: &mut [u32],
) -> Walk
    ensures { IsWalkOf image.now names.now rounds states.old states.new result }
{
    if u64::from(rounds).checked_mul(names.len() as u64).is_none() {
        return Walk {
            kind: BAD_CALL,
            number: 0,
            steps: 0,
        };
    }
    match LoadedProfile::make(alloc, image) {
        Ok(loaded) => Walk {
            kind: RUN,
            number: 0,
            steps: run_rounds(loaded.table(), names, rounds, states),
        },
        Err(fault) => Walk {
            kind: BAD_IMAGE,
            number: fault.number(),
            steps: 0,
        },
    }
}

// Runs this many rounds, and returns how many steps were taken.
fn run_rounds(table: &VerifiedTable, names: &[u8], rounds: u32, states: &mut [u32]) -> u64
    requires { rounds * length names.now < 2 ^ 64 }
    ensures count { result ≡ rounds * steps_of_round names.now states.old }
    ensures states { AreAfterRounds table.now names.now rounds states.old states.new }
{
    let mut steps = Steps::new();
    for _round in 0..rounds {
        run_all(table, names, states, &mut steps);
    }
    steps.count()
}

// Runs one round.
fn run_all(table: &VerifiedTable, names: &[u8], states: &mut [u32], steps: &mut Steps)
    requires { steps.old + length names.now < 2 ^ 64 }
    ensures count { steps.new ≡ steps.old + steps_of_round names.now states.old }
    ensures long { length states.new ≡ length states.old }
    ensures states { AreAfter table.now names.now states.new }
{
    // A bound of depths has few bits, so the look-ups of a name can be counted.
    let _bound = table.depth_bound();
    let count = states.len();
    for place in 0..count {
        let long = names.len() / count;
        let begin = place * long;
        states[place] = run(
            table,
            &names[begin..begin + long],
            steps,
            &mut LookUps::new(),
        );
    }
}
