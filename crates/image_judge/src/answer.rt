//! Answers in numbers.
ghost use Rattle.std.specs.Prelude.{◌≡◌, ◌==◌, if◌then◌else◌};
ghost use Rattle.names.specs.Grounds.{IsVerdictOn};
ghost use Rattle.names.specs.declared.verdict.Verdict.{Verdict};
ghost use Rattle.image_judge.specs.Answers.{answer_of, no_answer};

use crate::permissions::number_of;
use names::Grounds;

// Nothing was judged. It is 0, so that memory that C has cleared holds no verdict.
const NO_ANSWER: u16 = 0;

const ALLOWED: u16 = 1;

const DENIED: u16 = 2;

const NO_RULE: u16 = 3;

/// The answer for a name.
#[repr(C)]
#[derive(Clone, Copy, Debug, PartialEq, Eq)]
pub struct Answer {
    /// The number of steps: one for each byte of the name.
    pub steps: u64,
    /// 0 nothing was judged, 1 allowed, 2 denied, 3 there is no rule for something that was asked.
    pub verdict: u16,
    /// The least rule that denies something that was asked, counted from 1; otherwise 0.
    pub rule: u16,
    /// The sum of the numbers of the permissions that no rule allows; otherwise 0.
    pub missing: u16,
}

/// Nothing was judged.
pub(crate) fn no_answer() -> Answer
    ensures { result ≡ no_answer }
{
    Answer {
        steps: 0,
        verdict: NO_ANSWER,
        rule: 0,
        missing: 0,
    }
}

/// The verdict on these grounds in numbers, and how many steps it took.
// What depends on the rules is selected without branching: a processor predicts badly which verdict a name has, and waits for each
// branch that it mispredicted until the record was read.
pub(crate) fn answer_on(grounds: Grounds, steps: u64) -> Answer
    ensures { (v : Verdict) × IsVerdictOn grounds v × (result ≡ answer_of v steps) }
{
    let missing = number_of(grounds.missing);
    let is_denied = grounds.rule != 0;
    Answer {
        steps,
        verdict: verdict_number(is_denied, missing),
        rule: grounds.rule,
        missing: missing_unless(is_denied, missing),
    }
}

fn verdict_number(is_denied: bool, missing: u16) -> u16
    ensures { result ≡ if is_denied then 2 else (if missing == 0 then 1 else 3) }
{
    if is_denied {
        DENIED
    } else if missing == 0 {
        ALLOWED
    } else {
        NO_RULE
    }
}

fn missing_unless(is_denied: bool, missing: u16) -> u16
    ensures { result ≡ if is_denied then 0 else missing }
{
    if is_denied { 0 } else { missing }
}
