//! Tests of `tree_row` and `open_session`, and nothing else: with the tests here, each library is proved once.
#![tactic(auto)]

#[cfg(test)]
mod altered_index;
#[cfg(test)]
mod circles;
#[cfg(test)]
mod known;
#[cfg(test)]
mod lengths;
#[cfg(test)]
mod lies;
#[cfg(test)]
mod opens;
#[cfg(test)]
mod rows;
#[cfg(test)]
mod sizes;
#[cfg(test)]
mod torn;
#[cfg(test)]
mod torn_index;
#[cfg(test)]
mod walks;
