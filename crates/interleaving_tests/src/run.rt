//! One run of a scene.
use crate::failure::Failure;
use crate::scene::{Grain, Scene};
use crate::tally::Tally;
use interleaving_core::{Answer, Core, Event, EventMachine, StepFault};
use justification::justify;
use names::Perms;
use std::alloc::Global;

/// How many entries the tree has room for.
const CAPACITY: usize = 2;

/// The profile of all opens, and what they ask for.
const PROFILE: &[u8] = b"p";

const ASK: &[u8] = b"r";

// A change of a tree with short names takes fewer events than this.
const MOST_EVENTS_OF_A_CHANGE: usize = 64;

/// What an open has read, as the machine was then: the version of the policy, and the counts that its walk began and ended with.
#[derive(Clone, Copy)]
struct Seen {
    policy_version: u64,
    began: u64,
    ended: u64,
}

/// The state of an open.
#[derive(Clone, Copy)]
enum Open {
    NotBegun,
    Begun(Seen),
    Answered,
}

/// A scene in progress.
#[derive(Drop)]
pub(crate) struct Run<'a> {
    scene: &'a Scene,
    ask: Perms,
    core: Core,
    opens: Vec<Open>,
}

impl<'a> Run<'a> {
    /// A run in which what comes before the opens was made.
    pub(crate) fn new(alloc: Global, scene: &'a Scene) -> Result<Run<'a>, Failure> {
        let Ok(core) = Core::new(alloc, CAPACITY) else {
            return Err(Failure::NoMemory);
        };
        let mut opens = Vec::new(alloc);
        for _ in 0..scene.opens.len() {
            opens.push(Open::NotBegun)?;
        }
        let ask = Perms::from_letters(ASK).ok_or(Failure::NotAScene)?;
        let mut run = Run {
            scene,
            ask,
            core,
            opens,
        };
        run.prepare()?;
        Ok(run)
    }

    fn prepare(&mut self) -> Result<(), Failure> {
        for _ in 0..self.scene.policy_before {
            self.publish()?;
        }
        for _ in 0..self
            .scene
            .changes_before
            .saturating_mul(MOST_EVENTS_OF_A_CHANGE)
        {
            if self.core.tree_version() < self.scene.changes_before as u64 {
                self.keep()?;
            }
        }
        Ok(())
    }

    /// The first who can still move, from this one on: the opens are 0, 1 and so on; then the keeper, and the publisher.
    pub(crate) fn first_live(&self, from: usize) -> Option<usize> {
        (from..self.opens.len().saturating_add(2)).find(|actor| self.is_live(*actor))
    }

    fn is_live(&self, actor: usize) -> bool {
        match self.opens.get(actor) {
            Some(open) => !matches!(open, Open::Answered),
            None if actor == self.opens.len() => {
                self.core.tree_version() < self.scene.changes.len() as u64
            }
            None => self.core.policy_version() < self.scene.policy.len() as u64,
        }
    }

    /// Makes one move of the actor.
    pub(crate) fn go_on(
        &mut self,
        alloc: Global,
        actor: usize,
        tally: &mut Tally,
    ) -> Result<(), Failure> {
        if actor < self.opens.len() {
            self.lead_on(alloc, actor, tally)
        } else if actor == self.opens.len() {
            self.keep()
        } else {
            self.publish()
        }
    }

    // Makes one move of an open.
    fn lead_on(&mut self, alloc: Global, open: usize, tally: &mut Tally) -> Result<(), Failure> {
        if let Some(Open::NotBegun) = self.opens.get(open) {
            self.begin(open)?;
            if self.scene.grain == Grain::Event {
                return Ok(());
            }
        }
        // Two events at most: the policy and the count are read, or the count is checked and the open answered.
        for _ in 0..2 {
            if self.read_cells(open)? || self.take_turn(alloc, open, tally)? {
                return Ok(());
            }
        }
        Err(Failure::Stuck)
    }

    fn begin(&mut self, open: usize) -> Result<(), Failure> {
        let Some(path) = self.scene.opens.get(open) else {
            return Err(Failure::Stuck);
        };
        let begin = Event::Begin {
            session: session_of(open)?,
            profile: PROFILE,
            path: path.as_bytes(),
            ask: self.ask,
        };
        self.step(&begin)?;
        let seen = Seen {
            policy_version: 0,
            began: 0,
            ended: 0,
        };
        self.set(open, Open::Begun(seen));
        Ok(())
    }

    fn set(&mut self, open: usize, stands: Open) {
        if let Some(slot) = self.opens.get_mut(open) {
            *slot = stands;
        }
    }

    // Reads the cells of one move, and returns whether there were any.
    fn read_cells(&mut self, open: usize) -> Result<bool, Failure> {
        let most = match self.scene.grain {
            Grain::Event => 1,
            Grain::Cells(most) => most,
        };
        match self.core.read_cells(session_of(open)?, most) {
            Ok(count) => Ok(count > 0),
            Err(_) => Err(Failure::NoMemory),
        }
    }

    // Takes the event whose turn it is, of those that don't read cells, and returns whether the move ends with it.
    fn take_turn(
        &mut self,
        alloc: Global,
        open: usize,
        tally: &mut Tally,
    ) -> Result<bool, Failure> {
        let session = session_of(open)?;
        let events = [
            Event::PolicyRead(session),
            Event::CountRead(session),
            Event::CountCheck(session),
            Event::Answer(session),
        ];
        for event in &events {
            match self.core.step(event) {
                Ok(None) => {
                    self.note(open, event);
                    let goes_on = matches!(event, Event::PolicyRead(_) | Event::CountCheck(_));
                    return Ok(!goes_on || self.scene.grain == Grain::Event);
                }
                Ok(Some(answer)) => {
                    let is_right = self.is_right(alloc, open, &answer)?;
                    tally.count(&answer, is_right);
                    self.set(open, Open::Answered);
                    return Ok(true);
                }
                Err(StepFault::NotNow) => {}
                Err(StepFault::NoMemory) => return Err(Failure::NoMemory),
            }
        }
        Err(Failure::Stuck)
    }

    // Notes what an open has read by an event.
    fn note(&mut self, open: usize, event: &Event<'_>) {
        let policy_version = self.core.policy_version();
        let count = self.count();
        if let Some(Open::Begun(seen)) = self.opens.get_mut(open) {
            match event {
                Event::PolicyRead(_) => seen.policy_version = policy_version,
                Event::CountRead(_) => seen.began = count,
                Event::CountCheck(_) => seen.ended = count,
                _ => {}
            }
        }
    }

    // The count of the row: twice the version, and one more while a change is open.
    fn count(&self) -> u64 {
        let version = self.core.tree_version();
        version
            .saturating_mul(2)
            .saturating_add(u64::from(self.core.has_open_change()))
    }

    // Whether the answer is justified by what was made until now, and its versions and counts are those that the open read.
    fn is_right(&self, alloc: Global, open: usize, answer: &Answer) -> Result<bool, Failure> {
        let (Some(path), Some(Open::Begun(seen))) = (
            self.scene.opens.get(open),
            self.opens.get(open),
        ) else {
            return Err(Failure::Stuck);
        };
        let justified = justify(
            alloc,
            answer,
            PROFILE,
            path.as_bytes(),
            self.ask,
            first(&self.scene.changes, self.core.tree_version()),
            first(&self.scene.policy, self.core.policy_version()),
        );
        match justified {
            Ok(holds) => Ok(holds && is_as_seen(answer, seen)),
            Err(_) => Err(Failure::NoMemory),
        }
    }

    // Takes the keeper's next event.
    fn keep(&mut self) -> Result<(), Failure> {
        if !self.core.has_open_change() {
            let made = self.core.tree_version() as usize;
            let Some(change) = self.scene.changes.get(made) else {
                return Err(Failure::Stuck);
            };
            return self.step(&Event::Open(change));
        }
        match self.core.step(&Event::CellSet) {
            Ok(_) => Ok(()),
            Err(StepFault::NotNow) => self.step(&Event::Close),
            Err(StepFault::NoMemory) => Err(Failure::NoMemory),
        }
    }

    // Makes the next publication, of one change.
    fn publish(&mut self) -> Result<(), Failure> {
        let published = self.core.policy_version() as usize;
        let policy = &self.scene.policy;
        if published < policy.len() {
            self.step(&Event::Publish(&policy[published..published + 1]))
        } else {
            Err(Failure::Stuck)
        }
    }

    fn step(&mut self, event: &Event<'_>) -> Result<(), Failure> {
        match self.core.step(event) {
            Ok(_) => Ok(()),
            Err(StepFault::NotNow) => Err(Failure::Stuck),
            Err(StepFault::NoMemory) => Err(Failure::NoMemory),
        }
    }
}

// The number of an open's session.
fn session_of(open: usize) -> Result<u32, Failure> {
    u32::try_from(open).ok().ok_or(Failure::NotAScene)
}

// The first `count` elements of a list, or all where it has no more.
fn first<T>(list: &[T], count: u64) -> &[T] {
    let count = count as usize;
    if count <= list.len() {
        &list[..count]
    } else {
        list
    }
}

// Whether an answer's versions and counts are those that the open read: the tree's version is half of the two counts, which are
// equal.
fn is_as_seen(answer: &Answer, seen: &Seen) -> bool {
    match answer {
        Answer::Judged {
            tree_version,
            policy_version,
            ..
        } => is_tree_seen(*tree_version, seen) && *policy_version == seen.policy_version,
        Answer::Failed { tree_version, .. } => is_tree_seen(*tree_version, seen),
        Answer::NoProfile { policy_version } => *policy_version == seen.policy_version,
        Answer::Busy { began, ended } => *began == seen.began && *ended == seen.ended,
        Answer::NoEntry => false,
    }
}

fn is_tree_seen(tree_version: u64, seen: &Seen) -> bool {
    let count = tree_version.saturating_mul(2);
    count == seen.began && count == seen.ended
}
