//! What happens in a scene.
use crate::failure::Failure;
use directory_tree::Change;
use matcher::{AnyProfile, CompiledProfile, PolicyChange};
use names::Path;
use rule_text::read;
use std::alloc::Global;
use std::sync::Arc;

/// Opens concurrent with changes of the tree and of the policy. The order in which they happen is left open.
#[derive(Drop)]
pub(crate) struct Scene {
    /// The paths that are opened by the profile `p` for reading, each by a session of its own.
    pub(crate) opens: Vec<&'static str>,
    /// All changes of the tree, those made before the opens first, and how many those are.
    pub(crate) changes: Vec<Change<'static>>,
    pub(crate) changes_before: usize,
    /// All changes of the policy, those published before the opens first, and how many those are.
    pub(crate) policy: Vec<PolicyChange>,
    pub(crate) policy_before: usize,
    pub(crate) grain: Grain,
}

/// What an open does in one move.
#[derive(Clone, Copy, Debug, PartialEq, Eq)]
pub(crate) enum Grain {
    /// One event.
    Event,
    /// It begins and reads the policy and the count; it reads up to this many cells; or it reads the count again and answers.
    Cells(usize),
}

pub(crate) fn path(text: &'static str) -> Result<Path<'static>, Failure> {
    Path::check(text.as_bytes()).ok().ok_or(Failure::NotAScene)
}

pub(crate) fn rename(from: &'static str, to: &'static str) -> Result<Change<'static>, Failure> {
    Ok(Change::Rename(path(from)?, path(to)?))
}

/// The profile of a text is published under the name `p`.
pub(crate) fn published(alloc: Global, text: &str) -> Result<PolicyChange, Failure> {
    let Ok(rules) = read(alloc, text.as_bytes()) else {
        return Err(Failure::NotAScene);
    };
    let Ok(profile) = CompiledProfile::make(alloc, rules) else {
        return Err(Failure::NotAScene);
    };
    let Ok(shared) = Arc::new(alloc, AnyProfile::Compiled(profile)) else {
        return Err(Failure::NoMemory);
    };
    Ok(PolicyChange::Replace(Vec::from_slice(alloc, b"p")?, shared))
}
