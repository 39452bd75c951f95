//! Changes of the tree.
use super::fault::Fault;
use super::notes::Noted;
use super::scene::Scene;
use names::Errno;
use path_guard::{Guard, Row};
use std::sync::Wait;
use storm_parts::{DrawnChange, ROUNDS, Random, share};

// A tree makes one in ten or less of the changes that are drawn at random. So that most pieces of work make one, up to this many
// are tried.
const DRAWS: usize = 40;

/// Who changes the tree, and what it changed.
#[derive(Drop)]
struct Changer {
    random: Random,
    made: Vec<Noted<DrawnChange>>,
}

/// Tries `changes` changes of the tree, and returns those that were made.
pub(crate) fn change_all<M: Row>(
    rt: &impl Wait,
    scene: &Scene<'_, M>,
    random: Random,
    changes: usize,
) -> Result<Vec<Noted<DrawnChange>>, Fault> {
    let mut changer = Changer {
        random,
        made: Vec::new(scene.alloc),
    };
    for round in 0..ROUNDS {
        scene.rounds.begin(round);
        if let Err(fault) = changer.change_round(rt, scene.guard, share(changes, round)) {
            scene.rounds.give_up();
            return Err(fault);
        }
    }
    Ok(changer.made)
}

impl Changer {
    fn change_round<M: Row>(
        &mut self,
        rt: &impl Wait,
        guard: &Guard<M>,
        changes: usize,
    ) -> Result<(), Fault> {
        for _ in 0..changes {
            self.change(rt, guard)?;
        }
        Ok(())
    }

    /// Draws changes until one is made.
    fn change<M: Row>(&mut self, rt: &impl Wait, guard: &Guard<M>) -> Result<(), Fault> {
        for _ in 0..DRAWS {
            let drawn = self.random.change();
            if self.make(rt, guard, drawn)? {
                break;
            }
        }
        Ok(())
    }

    /// Makes a change, and notes it where it was made.
    fn make<M: Row>(
        &mut self,
        rt: &impl Wait,
        guard: &Guard<M>,
        drawn: DrawnChange,
    ) -> Result<bool, Fault> {
        let Some(change) = drawn.change() else {
            return Ok(false);
        };
        match guard.change(rt, &change) {
            Ok(version) => {
                self.made.push(Noted {
                    version,
                    change: drawn,
                })?;
                Ok(true)
            }
            Err(Errno::ENOMEM) => Err(Fault::NoMemory),
            Err(_) => Ok(false),
        }
    }
}
