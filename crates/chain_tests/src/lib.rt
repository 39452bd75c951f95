//! Tests of tables with chains of defaults, and nothing else. A library with tests of its own would be
//! proved twice, once with them; with the tests here, each of these libraries is proved once.
#![tactic(auto)]

#[cfg(test)]
mod batches;
#[cfg(test)]
mod deep;
#[cfg(test)]
mod pack;
#[cfg(test)]
mod profiles;
#[cfg(test)]
mod same_verdicts;
#[cfg(test)]
mod strangers;
#[cfg(test)]
mod targets;
#[cfg(test)]
mod worked;
