//! Which rule decides, by least hits.
ghost use Rattle.std.specs.Prelude.{◌≡◌, ◌<◌};
ghost use Rattle.rule_influence.specs.inner.Deciders.{decider, lone_number};

use names::LeastHits;

// The number that is both the least and the greatest of a set, 0 where none is. The greatest is the least when they are counted
// from the other end.
fn lone_number(count: usize, least: u16, reversed: u16) -> usize
    requires { count < 65536 }
    ensures { result ≡ lone_number count least reversed }
{
    let least = usize::from(least);
    if least + usize::from(reversed) == count + 1 {
        least
    } else {
        0
    }
}

/// The number of the rule that decides, 0 where none does.
pub(crate) fn decider(count: usize, hits: LeastHits, reversed: LeastHits) -> usize
    requires { count < 65536 }
    ensures { result ≡ decider count hits reversed }
{
    if hits.deny == 0 {
        lone_number(count, hits.allow, reversed.allow)
    } else if hits.allow == 0 {
        0
    } else {
        lone_number(count, hits.deny, reversed.deny)
    }
}
