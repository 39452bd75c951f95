//! Sessions that open.
ghost use Rattle.std.specs.Prelude.{◌≡◌};

use super::answers::Answered;
use super::fault::Fault;
use super::scene::Scene;
use path_guard::{Guard, Row, Session};
use std::alloc::Global;
use std::marker::PhantomData;
use std::sync::Wait;
use storm_parts::{ProfileName, QUESTIONS, ROUNDS, Random, share};

// One open in this many is a `try_open`, which may be busy.
const TRIED: usize = 4;

// Before one open in this many another profile is selected.
const SELECTED: usize = 50;

/// A session of a guard, and the answers that it got.
#[derive(Drop)]
pub(crate) struct Opener<M: Row> {
    session: Session,
    profile: ProfileName,
    random: Random,
    answers: Vec<Answered>,
    of: PhantomData<M>,
    ghost ours: { session.walk.table ≡ M.table },
}

impl<M: Row> Opener<M> {
    pub(crate) fn new(
        rt: &impl Wait,
        alloc: Global,
        guard: &Guard<M>,
        random: Random,
    ) -> Result<Opener<M>, Fault> {
        let mut random = random;
        let profile = ProfileName::draw(&mut random);
        let session = guard.session(rt, profile.as_bytes())?;
        Ok(Opener {
            session,
            profile,
            random,
            answers: Vec::new(alloc),
            of: PhantomData,
        })
    }

    /// Makes all opens, and returns their answers.
    pub(crate) fn open_all(
        self,
        rt: &impl Wait,
        scene: &Scene<'_, M>,
    ) -> Result<Vec<Answered>, Fault> {
        let mut opener = self;
        for round in 0..ROUNDS {
            scene.rounds.begin(round);
            let opens = share(scene.plan.opens, round);
            if let Err(fault) = opener.open_round(rt, scene, opens) {
                scene.rounds.give_up();
                return Err(fault);
            }
        }
        Ok(opener.answers)
    }

    fn open_round(
        &mut self,
        rt: &impl Wait,
        scene: &Scene<'_, M>,
        opens: usize,
    ) -> Result<(), Fault> {
        for _ in 0..opens {
            self.open(rt, scene)?;
        }
        Ok(())
    }

    fn select(&mut self) -> Result<(), Fault> {
        let profile = ProfileName::draw(&mut self.random);
        self.session.select(profile.as_bytes())?;
        self.profile = profile;
        Ok(())
    }

    /// Asks one of the questions.
    fn open(&mut self, rt: &impl Wait, scene: &Scene<'_, M>) -> Result<(), Fault> {
        if self.random.below(SELECTED) == 0 {
            self.select()?;
        }
        let number = self.random.below(QUESTIONS);
        let Some(question) = scene.questions.get(number) else {
            return Ok(());
        };
        let before = self.session.kept_answers();
        let answer = if self.random.below(TRIED) == 0 {
            self.session.try_open(&question.path, question.ask)
        } else {
            scene
                .guard
                .open(rt, &mut self.session, &question.path, question.ask)
        };
        self.answers.push(Answered {
            question: number,
            profile: self.profile,
            answer,
            is_kept: self.session.kept_answers() != before,
        })?;
        Ok(())
    }
}
