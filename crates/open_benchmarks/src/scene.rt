//! The tree and the policy that sessions open by.
use crate::profiles::{compiled, stage};
use dentry_cache::Keeper;
use matcher::AnyProfile;
use names::NoMemory;
use path_session::Session;
use profile_registry::Publisher;
use std::alloc::{AllocError, Global};
use std::sync::{Arc, Wait};

/// The name that the profile is published under.
const PROFILE: &[u8] = b"profile";

/// A keeper and a publisher, with two profiles of the same rules to publish in turn.
///
/// It is not `Drop`: end it by [`close`](Scene::close).
pub(crate) struct Scene {
    pub keeper: Keeper,
    pub policy: Policy,
}

/// A publisher, and what it publishes.
pub(crate) struct Policy {
    publisher: Publisher,
    first: Arc<AnyProfile>,
    second: Arc<AnyProfile>,
}

/// Whether sessions keep verdicts.
#[derive(Clone, Copy)]
pub(crate) enum SessionKind {
    Plain,
    Kept,
}

impl SessionKind {
    pub(crate) fn name(self) -> &'static str {
        match self {
            SessionKind::Plain => "plain",
            SessionKind::Kept => "kept",
        }
    }

    /// The kind that has this name.
    pub(crate) fn named(name: &[u8]) -> Option<SessionKind> {
        match name {
            b"plain" => Some(SessionKind::Plain),
            b"kept" => Some(SessionKind::Kept),
            _ => None,
        }
    }
}

impl Scene {
    /// The keeper of a tree, and the published profile of this text; none if memory runs out, or the text is no profile's.
    pub(crate) fn new<R: Wait>(
        rt: &R,
        alloc: Global,
        keeper: Keeper,
        text: &[u8],
    ) -> Option<Scene> {
        let first = compiled(alloc, text)?;
        let second = compiled(alloc, text)?;
        let publisher = Publisher::new(alloc).ok()?;
        let mut policy = Policy {
            publisher,
            first,
            second,
        };
        if policy.publish(rt, 0).is_err() {
            policy.close(rt);
            return None;
        }
        Some(Scene { keeper, policy })
    }

    /// New sessions.
    pub(crate) fn sessions(
        &mut self,
        alloc: Global,
        kind: SessionKind,
        count: usize,
    ) -> Result<Vec<Session>, AllocError> {
        let mut sessions = Vec::new(alloc);
        for _ in 0..count {
            let Some(session) = self.session(alloc, kind) else {
                return Err(AllocError);
            };
            sessions.push(session)?;
        }
        Ok(sessions)
    }

    fn session(&mut self, alloc: Global, kind: SessionKind) -> Option<Session> {
        let walker = self.keeper.walker().ok()?;
        let reader = self.policy.publisher.reader().ok()?;
        let made = match kind {
            SessionKind::Plain => Session::without_kept_verdicts(alloc, walker, reader, PROFILE),
            SessionKind::Kept => Session::new(alloc, walker, reader, PROFILE),
        };
        match made {
            Ok(session) => Some(session),
            Err(_) => None,
        }
    }

    /// Closes the publisher.
    pub(crate) fn close<R: Wait>(self, rt: &R) {
        let Scene {
            keeper: _keeper,
            policy,
        } = self;
        policy.close(rt);
    }
}

impl Policy {
    /// Publishes the first profile after an even number of others, and otherwise the second.
    pub(crate) fn publish<R: Wait>(&mut self, rt: &R, others: u64) -> Result<u64, NoMemory> {
        if others % 2 == 0 {
            stage(&mut self.publisher, PROFILE, &self.first)?;
        } else {
            stage(&mut self.publisher, PROFILE, &self.second)?;
        }
        self.publisher.publish(rt)
    }

    fn close<R: Wait>(self, rt: &R) {
        let Policy {
            publisher,
            first: _first,
            second: _second,
        } = self;
        publisher.close(rt);
    }
}
