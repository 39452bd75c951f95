//! Tests of `interleaving_core`: whole opens, and what is not legal.
mod opens;
mod refusals;
mod scene;
