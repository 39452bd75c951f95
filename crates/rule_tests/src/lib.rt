//! Tests of calls that no text of `text_cases` reaches, in the libraries that it covers, and of `rule_influence`. A library with tests
//! of its own would be proved twice, once with them; with the tests in this crate, each of these libraries is proved once.
#![tactic(auto)]

#[cfg(test)]
mod blocks;
#[cfg(test)]
mod components;
#[cfg(test)]
mod copies;
#[cfg(test)]
mod cuts;
#[cfg(test)]
mod derived;
#[cfg(test)]
mod errors;
#[cfg(test)]
mod fronts;
#[cfg(test)]
mod influence;
#[cfg(test)]
mod links;
#[cfg(test)]
mod permissions;
#[cfg(test)]
mod plain;
#[cfg(test)]
mod print;
#[cfg(test)]
mod profiles;
#[cfg(test)]
mod records;
#[cfg(test)]
mod rows;
#[cfg(test)]
mod stand_ins;
#[cfg(test)]
mod subjects;
#[cfg(test)]
mod variables;
#[cfg(test)]
mod words;
