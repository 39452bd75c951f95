//! Tests of `table_verifier`, `table_batches` and `matcher`, and nothing else. A library with tests of its own would be proved twice,
//! once with them; with the tests here, each of these libraries is proved once.
#![tactic(auto)]

#[cfg(test)]
mod matches;
#[cfg(test)]
mod verification;
