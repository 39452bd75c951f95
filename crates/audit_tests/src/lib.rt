//! Tests of lines of a kernel's log, and of what is reported about the denials of a log.
#![tactic(auto)]

#[cfg(test)]
mod denials;
#[cfg(test)]
mod reports;
