//! Tests of `verdict_cache`.
mod fixtures;
mod order;
mod questions;
mod refusals;
mod threads;
