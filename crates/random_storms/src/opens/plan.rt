//! What the words ask for.

/// What a storm is drawn from, and how large it is.
#[derive(Clone, Copy)]
pub(crate) struct Plan {
    pub seed: u64,
    pub sessions: u32,
    /// The opens of each session.
    pub opens: usize,
    /// The changes of the tree, and as many of the policy.
    pub changes: usize,
    /// The change of the tree, counted from 0, that is left out when the answers are checked.
    pub left_out: Option<usize>,
}

// The most sessions, and the most opens of each and changes of both.
const MOST_SESSIONS: u32 = 32;

const MOST_OF_EACH: usize = 1 << 20;

/// The plan that the words give.
pub(crate) fn planned(words: &[String]) -> Option<Plan> {
    let mut plan = Plan {
        seed: 1,
        sessions: 4,
        opens: 1000,
        changes: 1000,
        left_out: None,
    };
    if words.is_empty() {
        return Some(plan);
    }
    if words.len() < 4 || words.len() > 5 {
        return None;
    }
    plan.seed = words[0].as_str().parse().ok()?;
    plan.sessions = words[1].as_str().parse().ok()?;
    plan.opens = words[2].as_str().parse().ok()?;
    plan.changes = words[3].as_str().parse().ok()?;
    if let Some(number) = words.get(4) {
        plan.left_out = Some(number.as_str().parse().ok()?);
    }
    if plan.sessions > MOST_SESSIONS || plan.opens > MOST_OF_EACH || plan.changes > MOST_OF_EACH {
        return None;
    }
    Some(plan)
}
