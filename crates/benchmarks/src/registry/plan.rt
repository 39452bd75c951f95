//! What the words ask for.
use profile_registry::PLACES;

/// The number of readers, of changes, and of reads in each thread that is timed.
#[derive(Clone, Copy)]
pub(crate) struct Plan {
    pub readers: usize,
    pub changes: u64,
    pub reads: u64,
}

/// The plan that the words give.
pub(crate) fn planned(words: &[String]) -> Option<Plan> {
    if words.is_empty() {
        return Some(Plan {
            readers: 2,
            changes: 60,
            reads: 0,
        });
    }
    if words.len() != 3 {
        return None;
    }
    let readers: usize = words[0].as_str().parse().ok()?;
    let changes: u64 = words[1].as_str().parse().ok()?;
    let reads: u64 = words[2].as_str().parse().ok()?;
    if readers > PLACES || changes > 1 << 40 || reads > 1 << 40 {
        return None;
    }
    Some(Plan {
        readers,
        changes,
        reads,
    })
}
