//! Tests of questions about names: lists of names, selected by profiles, over streams in memory and over a stream that fails; and
//! lines of a test that ask about a name.
#![tactic(auto)]

#[cfg(test)]
mod asked;
#[cfg(test)]
mod lists;
#[cfg(test)]
mod streams;
