//! Tests of runs of the program that no text reaches: streams that fail half way, refused memory, and words that are none; and scripts
//! on both engines of `run`. Everything else that it writes is shown by `program_cases`.
#![tactic(auto)]

#[cfg(test)]
mod engines;
#[cfg(test)]
mod events;
#[cfg(test)]
mod expectations;
#[cfg(test)]
mod images;
#[cfg(test)]
mod imports;
#[cfg(test)]
mod judgment;
#[cfg(test)]
mod questions;
#[cfg(test)]
mod runs;
#[cfg(test)]
mod scripts;
#[cfg(test)]
mod storms;
