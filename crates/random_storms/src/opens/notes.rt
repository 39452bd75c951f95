//! What was really changed.
use super::fault::Fault;
use std::alloc::Global;

/// A change that was made, and the version that was returned for it.
#[derive(Drop)]
pub(crate) struct Noted<T> {
    pub version: u64,
    pub change: T,
}

/// The changes that several threads noted, in the order of the versions, which have to be 1, 2 and so on.
pub(crate) fn in_order<T: Drop>(alloc: Global, all: Vec<Vec<Noted<T>>>) -> Result<Vec<T>, Fault> {
    let mut noted = Vec::new(alloc);
    for own in all {
        noted.extend(own)?;
    }
    noted.sort_by_key(|noted| noted.version)?;
    let mut changes: Vec<T> = Vec::new(alloc);
    for Noted { version, change } in noted {
        changes.push(change)?;
        if version != changes.len() as u64 {
            return Err(Fault::NoVersion);
        }
    }
    Ok(changes)
}
