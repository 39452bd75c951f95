//! Tests of `path_session`, and nothing else: as they are in their own crate, the library is proved once.
#![tactic(auto)]

#[cfg(test)]
mod fixtures;
#[cfg(test)]
mod kept;
#[cfg(test)]
mod links;
#[cfg(test)]
mod opens;
#[cfg(test)]
mod order;
#[cfg(test)]
mod replaced;
#[cfg(test)]
mod seats;
#[cfg(test)]
mod threads;
