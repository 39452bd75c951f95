//! What publisher and readers know, for contracts alone.
ghost use Rattle.std.specs.Prelude.{ℕ, List, []};
ghost use Rattle.std.specs.Borrow.{ftrue};
ghost use Rattle.std.specs.Coded.{codes};
ghost use Rattle.mediation.specs.Deeds.{Deed};

use std::marker::{Brand, Model, PhantomData};

/// What a publisher, a reader or a note knows of the changes that were published: the first of them, up to some moment. A reader
/// knows how often it was let in, and which changes it learned from a note last, too. No value of it is made.
pub struct Known {
    marker: PhantomData<u8>,
    pub ghost seen: { List Deed } by { Prim.hlevel codes },
    pub ghost entries: { ℕ },
    pub ghost learned: { List Deed } by { Prim.hlevel codes },
}

impl Model for Known {
    ghost also_owns = { λ _. ftrue };
}

/// The changes that a step publishes. The call of the step picks them.
pub trait Batch {
    ghost staged: { List Deed };
}

impl Batch for Brand {
    ghost staged = { [] };
}
