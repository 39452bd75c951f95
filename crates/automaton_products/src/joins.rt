//! Records of two automata, joined.
ghost use Rattle.std.specs.Prelude.{◌≡◌};
ghost use Rattle.automaton_products.specs.Products.{joined, joined_hits};
ghost use Rattle.names.specs.Hits.{first_number};

use names::{LeastHits, Record};

// The first number, or the other one if the first is 0.
fn first_number(one: u16, other: u16) -> u16
    ensures { result ≡ first_number one other }
{
    if one == 0 { other } else { one }
}

fn joined_hits(one: LeastHits, other: LeastHits) -> LeastHits
    ensures { result ≡ joined_hits one other }
{
    LeastHits {
        allow: first_number(one.allow, other.allow),
        deny: first_number(one.deny, other.deny),
    }
}

/// The least hits of both: for each permission that of the first, if there is one.
pub(crate) fn joined(one: &Record, other: &Record) -> Record
    ensures { result ≡ joined one.now other.now }
{
    Record::of_each(|permission| joined_hits(one.of(permission), other.of(permission)))
}
