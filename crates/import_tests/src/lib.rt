//! Tests of imports: maps, all profiles of a text, accounts, values that override, and explanations with the places of rules.
#![tactic(auto)]

mod accounts;
mod explanations;
mod maps;
mod texts;
