//! Tests of questions about whole profiles, of commands that ask them, and of answers in JSON.
#![tactic(auto)]

#[cfg(test)]
mod answers;
#[cfg(test)]
mod commands;
#[cfg(test)]
mod drawn;
#[cfg(test)]
mod json_commands;
#[cfg(test)]
mod least;
#[cfg(test)]
mod lint;
#[cfg(test)]
mod representatives;
#[cfg(test)]
mod rules;
#[cfg(test)]
mod short_names;
