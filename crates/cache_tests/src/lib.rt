//! Tests of `path_walk`, `row_tally` and `dentry_cache`, and nothing else: with the tests here, each library is proved once.
#![tactic(auto)]

#[cfg(test)]
mod changes;
#[cfg(test)]
mod fixtures;
#[cfg(test)]
mod followed;
#[cfg(test)]
mod lines;
#[cfg(test)]
mod looks;
#[cfg(test)]
mod small_tree;
#[cfg(test)]
mod stopped;
#[cfg(test)]
mod tallies;
#[cfg(test)]
mod tally_cells;
#[cfg(test)]
mod threads;
#[cfg(test)]
mod walks;
