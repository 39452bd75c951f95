//! Tests of `justification` and `path_storm`.
mod fixtures;
mod logs;
mod storms;
mod together;
mod trails;
