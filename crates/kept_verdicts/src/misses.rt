//! Which questions are looked up: all of them, until too many in a row found nothing.
use crate::kept::KEPT_VERDICTS;

/// How many questions in a row may find nothing before others are passed over, once others were.
const IMPATIENT: usize = 16;

/// One question in this many is then looked up and kept.
const SAMPLED: usize = 16;

/// What became of the last questions. If more paths are opened in turn than verdicts are kept, each verdict is dropped before it is
/// asked for again, and keeping it was useless. If few are kept meanwhile, some of them are there when they are asked for.
///
/// At first a whole cache of questions may find nothing before others are passed over; then only [`IMPATIENT`], until a whole cache
/// of questions in a row found their answers.
#[derive(Clone, Copy, Drop)]
pub(crate) struct Misses {
    // How many in a row may find nothing before others are passed over.
    patience: usize,
    // How many of these are left.
    left: usize,
    // How many questions are passed over next.
    passed_next: usize,
    // How many in a row found their answers, up to a whole cache.
    found: usize,
}

impl Misses {
    /// No question yet.
    pub(crate) const NONE: Misses = Misses {
        patience: KEPT_VERDICTS,
        left: KEPT_VERDICTS,
        passed_next: 0,
        found: 0,
    };

    /// Returns whether the next question is passed over, and counts it if it is.
    pub(crate) fn pass_over(&mut self) -> bool {
        if self.passed_next == 0 {
            return false;
        }
        self.passed_next -= 1;
        true
    }

    /// Counts a question that was looked up and found nothing.
    pub(crate) fn miss(&mut self) {
        self.found = 0;
        if self.left == 0 {
            self.patience = IMPATIENT;
            self.passed_next = SAMPLED - 1;
        } else {
            self.left -= 1;
        }
    }

    /// Counts a question that found its answer.
    pub(crate) fn hit(&mut self) {
        self.found = self.found.saturating_add(1).min(KEPT_VERDICTS);
        if self.found == KEPT_VERDICTS {
            self.patience = KEPT_VERDICTS;
        }
        self.left = self.patience;
    }
}
