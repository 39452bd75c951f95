//! How opens were answered.
use interleaving_core::Answer;
use names::Verdict;

/// How many orders there were, how many answers of each kind, and how many of all those weren't right.
#[derive(Clone, Copy, Debug, PartialEq, Eq)]
pub(crate) struct Tally {
    pub(crate) orders: u64,
    pub(crate) allowed: u64,
    pub(crate) denied: u64,
    pub(crate) unruled: u64,
    pub(crate) failed: u64,
    pub(crate) unpublished: u64,
    pub(crate) busy: u64,
    pub(crate) unjustified: u64,
}

impl Tally {
    pub(crate) fn new() -> Tally {
        Tally {
            orders: 0,
            allowed: 0,
            denied: 0,
            unruled: 0,
            failed: 0,
            unpublished: 0,
            busy: 0,
            unjustified: 0,
        }
    }

    pub(crate) fn count_order(&mut self) {
        self.orders = self.orders.saturating_add(1);
    }

    pub(crate) fn count(&mut self, answer: &Answer, is_right: bool) {
        let kind = match answer {
            Answer::Judged { verdict, .. } => match verdict {
                Verdict::Allowed => &mut self.allowed,
                Verdict::Denied { .. } => &mut self.denied,
                Verdict::NoRule { .. } => &mut self.unruled,
            },
            Answer::Failed { .. } => &mut self.failed,
            Answer::NoProfile { .. } => &mut self.unpublished,
            Answer::Busy { .. } => &mut self.busy,
            // No machine gives this answer.
            Answer::NoEntry => &mut self.unjustified,
        };
        *kind = kind.saturating_add(1);
        if !is_right {
            self.unjustified = self.unjustified.saturating_add(1);
        }
    }
}
