//! Every order of moves.
use crate::failure::Failure;
use crate::run::Run;
use crate::scene::Scene;
use crate::tally::Tally;
use std::alloc::Global;

/// Who moved, and who else could have moved and wasn't tried yet.
#[derive(Clone, Copy)]
struct Choice {
    actor: usize,
    next: Option<usize>,
}

const MOST_RUNS: usize = 1_000_000_000;

const MOST_MOVES: usize = 10_000;

/// Runs a scene in every order of its moves.
pub(crate) fn explore(alloc: Global, scene: &Scene) -> Result<Tally, Failure> {
    let mut tally = Tally::new();
    let mut choices = Vec::new(alloc);
    for _ in 0..MOST_RUNS {
        run_once(alloc, scene, &mut choices, &mut tally)?;
        tally.count_order();
        if !turn(&mut choices)? {
            return Ok(tally);
        }
    }
    Err(Failure::TooManyRuns)
}

// Makes a run that begins with these choices. Its further choices are added: of all who can move, the first.
fn run_once(
    alloc: Global,
    scene: &Scene,
    choices: &mut Vec<Choice>,
    tally: &mut Tally,
) -> Result<(), Failure> {
    let mut run = Run::new(alloc, scene)?;
    for position in 0..MOST_MOVES {
        let from = match choices.get(position) {
            Some(choice) => choice.actor,
            None => 0,
        };
        let Some(actor) = run.first_live(from) else {
            return Ok(());
        };
        let next = run.first_live(actor.saturating_add(1));
        note(choices, position, Choice { actor, next })?;
        run.go_on(alloc, actor, tally)?;
    }
    Err(Failure::Stuck)
}

// Sets the choice at a position, which is at most one after those that are there.
fn note(choices: &mut Vec<Choice>, position: usize, choice: Choice) -> Result<(), Failure> {
    match choices.get_mut(position) {
        Some(noted) => *noted = choice,
        None => choices.push(choice)?,
    }
    Ok(())
}

// Changes the last choice that can be made otherwise, and forgets those after it. Returns false where there is none.
fn turn(choices: &mut Vec<Choice>) -> Result<bool, Failure> {
    for _ in 0..choices.len() {
        if let Some(
            Choice {
                next: Some(actor),
                ..
            },
        ) = choices.pop()
        {
            choices.push(Choice { actor, next: None })?;
            return Ok(true);
        }
    }
    Ok(false)
}
