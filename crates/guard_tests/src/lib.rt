//! Tests of `guarded_row`, `path_guard`, `justification`, `path_storm` and `script_bench`, and nothing else: with the tests here, each
//! library is proved once.
#![tactic(auto)]

#[cfg(test)]
mod back;
#[cfg(test)]
mod benches;
#[cfg(test)]
mod fixtures;
#[cfg(test)]
mod links;
#[cfg(test)]
mod locked;
#[cfg(test)]
mod places;
#[cfg(test)]
mod storm;
