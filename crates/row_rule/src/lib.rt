//! The rule that a row of words keeps while one keeper changes it and walkers read it concurrently, and its laws: each step of a
//! seat keeps the rule, and gives that seat what it may know. The functions of the laws do nothing: each stands for its contract.
//! What the cells of a row hold is open: the rule and the laws are for any `Encoding`.
//!
//! The definitions to believe are those in `specs/`.
#![tactic(auto)]

mod cell;
mod count;
mod encoding;
mod laws;
mod view;

pub use cell::Cell;
pub use count::{Busy, version_between, version_of};
pub use encoding::Encoding;
pub use laws::{
    agreement_is_of_each_read, beginning_keeps_rule, closing_keeps_rule, counts_have_one_version,
    ending_keeps_rule, entering_keeps_rule, first_row_keeps_rule, keeper_fixes_row,
    keeper_reads_its_row, lending_keeps_rule, opening_keeps_rule, parity_tells_changes,
    reading_keeps_rule, setting_keeps_rule, taking_in_keeps_rule, telling_keeps_rule,
    version_names_changes, walkers_fit_keeper, walks_have_one_outcome, writing_sets_its_places,
};
pub use view::{KeeperView, Pending, View, WalkerView};
