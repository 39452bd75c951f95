//! Tests of `mediation`, `justification`, `profile_registry` and `verdict_cache` only. A library with tests of its own would be
//! proved twice, once with them; with the tests in this crate, each of these libraries is proved once.
#![tactic(auto)]

#[cfg(test)]
mod either_origin;
#[cfg(test)]
mod justified;
#[cfg(test)]
mod registry;
#[cfg(test)]
mod verdicts;
