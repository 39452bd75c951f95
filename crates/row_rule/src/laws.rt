//! Laws of the rule. The functions do nothing: each stands for its contract.
mod cells;
mod counts;
mod keeper;
mod meeting;
mod row;
mod walker;

pub use cells::{agreement_is_of_each_read, writing_sets_its_places};
pub use counts::{counts_have_one_version, walks_have_one_outcome};
pub use keeper::{
    closing_keeps_rule, keeper_reads_its_row, opening_keeps_rule, setting_keeps_rule,
};
pub use meeting::{lending_keeps_rule, taking_in_keeps_rule, telling_keeps_rule};
pub use row::{
    first_row_keeps_rule, keeper_fixes_row, parity_tells_changes, version_names_changes,
    walkers_fit_keeper,
};
pub use walker::{
    beginning_keeps_rule, ending_keeps_rule, entering_keeps_rule, reading_keeps_rule,
};
