//! Tests of `row_keeper`.
mod steps;
