//! Benchmarks of trees that are kept in a row of words: plans of changes and walks over a row in memory (`time_row`), and changes
//! and walks over the row that threads share (`time_cache`).
#![tactic(auto)]

mod cache;
mod changes;
mod numbers;
mod row;
mod trees;

pub use cache::time_cache;
pub use row::time_row;
