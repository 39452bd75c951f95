use directory_tree::TreeHistory;
use row_rule::Cell;

/// A change that is being made in the row.
#[derive(Drop)]
pub(crate) struct OpenChange {
    /// The cells that it sets.
    pub plan: Vec<Cell>,
    /// The changes that are made once it is closed; it is the last of them.
    pub target: TreeHistory,
}
