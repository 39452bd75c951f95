//! The work of a walker.
ghost use Rattle.std.specs.Prelude.{◌≤◌, IfOk};

use super::answers::{Answer, Answers, Found};
use super::ours::RowWalker;
use super::reach::{Reached, Rooms};
use names::{LONGEST_PATH, Path};
use path_guard::Row;
use path_lookup::WalkFault;
use std::alloc::{AllocError, Global};
use std::sync::Arc;
use storm_parts::{NumberedPath, ROUNDS, Random, Rounds, share};

/// What a walker is given.
#[derive(Drop)]
pub(crate) struct Work<J: Row> {
    pub walker: RowWalker<J>,
    pub random: Random,
    pub attempts: usize,
    pub rounds: Arc<Rounds>,
}

/// What it returns.
#[derive(Drop)]
pub(crate) struct Walked<J: Row> {
    pub walker: RowWalker<J>,
    pub answers: Answers,
}

/// Makes all attempts.
pub(crate) fn walk_all<J: Row>(alloc: Global, work: Work<J>) -> Result<Walked<J>, AllocError> {
    let Work {
        mut walker,
        mut random,
        attempts,
        rounds,
    } = work;
    let mut rooms = Rooms::new();
    let mut answers = Answers {
        ok: Vec::new(alloc),
        busy: 0,
    };
    for round in 0..ROUNDS {
        rounds.begin(round);
        match walk_round(
            alloc,
            walker,
            &mut random,
            share(attempts, round),
            &mut rooms,
            &mut answers,
        ) {
            Ok(back) => walker = back,
            Err(refused) => {
                rounds.give_up();
                return Err(refused);
            }
        }
    }
    Ok(Walked { walker, answers })
}

fn walk_round<J: Row>(
    alloc: Global,
    walker: RowWalker<J>,
    random: &mut Random,
    attempts: usize,
    rooms: &mut Rooms,
    answers: &mut Answers,
) -> Result<RowWalker<J>, AllocError> {
    let mut walker = walker;
    for _ in 0..attempts {
        let number = random.path();
        let path = NumberedPath::new(number);
        let Ok(path) = Path::check(path.as_bytes()) else {
            continue;
        };
        let attempted = walker.attempt(&path, rooms);
        walker = attempted.walker;
        match attempted.end {
            Ok(version) => {
                let found = found(alloc, attempted.reached, rooms)?;
                answers.ok.push(Answer {
                    version,
                    path: number,
                    found,
                })?;
            }
            Err(_) => answers.busy = answers.busy.saturating_add(1),
        }
    }
    Ok(walker)
}

// What was found, with its name, which is in the rooms.
fn found(
    alloc: Global,
    reached: Result<Reached, WalkFault>,
    rooms: &Rooms,
) -> Result<Result<Found, WalkFault>, AllocError>
    requires { IfOk reached (λ reached. reached.length ≤ LONGEST_PATH) }
{
    match reached {
        Ok(reached) => {
            let name = Vec::from_slice(alloc, &rooms.name[..reached.length])?;
            Ok(Ok(Found {
                node: reached.node,
                name,
            }))
        }
        Err(fault) => Ok(Err(fault)),
    }
}
