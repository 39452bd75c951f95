//! What the words ask for.

/// The number of walkers, of the changes that are tried meanwhile, and of the attempts of each walker.
#[derive(Clone, Copy)]
pub(crate) struct Plan {
    pub walkers: usize,
    pub changes: usize,
    pub attempts: usize,
}

const MOST_WALKERS: usize = 16;

/// The plan that the words give.
pub(crate) fn planned(words: &[String]) -> Option<Plan> {
    if words.is_empty() {
        return Some(Plan {
            walkers: 4,
            changes: 10_000,
            attempts: 10_000,
        });
    }
    if words.len() != 3 {
        return None;
    }
    let walkers: usize = words[0].as_str().parse().ok()?;
    let changes: usize = words[1].as_str().parse().ok()?;
    let attempts: usize = words[2].as_str().parse().ok()?;
    if walkers > MOST_WALKERS || changes > 1 << 40 || attempts > 1 << 40 {
        return None;
    }
    Some(Plan {
        walkers,
        changes,
        attempts,
    })
}
