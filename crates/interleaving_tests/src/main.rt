//! Runs every order of the events of a few opens and of concurrent changes of the tree and of the policy, and checks each answer by
//! `justify`: a test of `interleaving_core`. `interleaving_tests CELLS` prints for each scene how many orders there were, how many
//! answers of each kind, and how many of all those weren't right. Next to that stand tests of `row_keeper` and of the machine.
//!
//! In a scene each open is a list of events: it begins, reads the policy, the count and the cells that its walk needs, reads the count
//! again, and answers. So is the keeper, which opens its changes, sets their cells and closes them, and so is the publisher. Every
//! order is every way to merge these lists to their ends, event by event. Only where two opens are concurrent do some events stay
//! together: an open begins and reads the policy and the count, which only shortens its call, since nothing is published meanwhile;
//! it reads up to CELLS cells at once; and it reads the count again and answers.
//!
//! An answer is right where `justify` says so of what was made and published until then, and where its versions and counts are those
//! at the time that the open read them.
#![tactic(auto)]

mod exploration;
mod failure;
#[cfg(test)]
mod keeper;
#[cfg(test)]
mod machine;
mod run;
mod scene;
mod scenes;
mod tally;

use crate::exploration::explore;
use crate::failure::Failure;
use crate::scene::Scene;
use crate::scenes::{
    another_file, moved_file, renamed_directory, two_opens, two_renames, word_moved_back,
};
use crate::tally::Tally;
use std::alloc::{AllocError, Global};
use std::{env, io};

fn main(rt: HostRuntime) -> io::Result<()> {
    let mut args = env::args(&rt)?;
    let _program = args.next();
    let Some(cells) = number(&args.next()) else {
        return println!(rt; "usage: interleaving_tests CELLS, with CELLS of 1 or more");
    };
    let alloc = rt.alloc();
    let scenes = [
        ("two opens beside a rename", two_opens(alloc, cells)),
        (
            "an open beside two renames of its directory",
            renamed_directory(alloc),
        ),
        (
            "an open beside a move to another directory and back",
            moved_file(alloc),
        ),
        (
            "an open beside two renames and a replacement",
            two_renames(alloc),
        ),
        (
            "an open beside another file at its path and a removal",
            another_file(alloc),
        ),
        (
            "an open beside a removal that moves its word of the index back",
            word_moved_back(alloc),
        ),
    ];
    for (name, scene) in &scenes {
        println!(rt; "{name}: {}", report(alloc, &told_of(alloc, scene))?)?;
    }
    Ok(())
}

// The number that a word gives, if there is a word and it is a number from 1 on.
fn number(word: &Option<String>) -> Option<usize> {
    match word {
        Some(word) => word.as_str().parse().ok().filter(|number| *number > 0),
        None => None,
    }
}

fn told_of(alloc: Global, scene: &Result<Scene, Failure>) -> Result<Tally, Failure> {
    match scene {
        Ok(scene) => explore(alloc, scene),
        Err(failure) => Err(*failure),
    }
}

fn report(alloc: Global, told: &Result<Tally, Failure>) -> Result<String, AllocError> {
    match told {
        Ok(tally) => format!(in alloc;
            "{} orders: {} allowed, {} denied, {} without a rule, {} failed, {} without a profile, {} busy; unjustified {}",
            tally.orders,
            tally.allowed,
            tally.denied,
            tally.unruled,
            tally.failed,
            tally.unpublished,
            tally.busy,
            tally.unjustified
        ),
        Err(failure) => format!(in alloc; "{}", failure.text()),
    }
}
