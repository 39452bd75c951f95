//! What the words ask for.

/// The number of opens in each thread.
#[derive(Clone, Copy)]
pub(crate) struct Plan {
    pub opens: u64,
    /// Whether times are printed.
    pub is_timed: bool,
}

/// The plan that the words give.
pub(crate) fn planned(words: &[String]) -> Option<Plan> {
    match words {
        [] => Some(Plan {
            opens: 200,
            is_timed: false,
        }),
        [opens] => Some(Plan {
            opens: opens.as_str().parse().ok()?,
            is_timed: true,
        }),
        _ => None,
    }
}
