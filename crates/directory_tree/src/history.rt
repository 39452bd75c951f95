//! What happened, only for contracts.
ghost use Rattle.std.specs.Prelude.{◌≡◌, List, [], ◌∷◌, ◌++◌};
ghost use Rattle.std.specs.Borrow.{ftrue};

use crate::change::Change;
use std::marker::{Model, PhantomData};

/// Events, oldest first. Takes no memory: only contracts read it.
#[derive(Drop)]
pub struct History<T> {
    marker: PhantomData<T>,
    pub ghost events: { List T },
}

impl<T> Model for History<T> {
    ghost also_owns = { λ _. ftrue };
}

/// The changes of a tree. None of them is kept, so it outlives the texts that they borrow.
pub type TreeHistory = History<Change<'static>>;

impl<T> History<T> {
    /// No events.
    pub fn new() -> History<T>
        ensures { result.events ≡ [] }
    {
        History::of(&(), &())
    }

    /// These events and one more.
    pub fn and_one(&self, event: &T) -> History<T>
        ensures { result.events ≡ self.now.events ++ event.now ∷ [] }
    {
        History::of(self, event)
    }

    /// These events and more, in their order.
    pub fn and_all(&self, events: &[T]) -> History<T>
        ensures { result.events ≡ self.now.events ++ events.now }
    {
        History::of(self, &events)
    }

    /// A copy of the same events.
    pub fn again(&self) -> History<T>
        ensures { result.events ≡ self.now.events }
    {
        History::of(self, &())
    }

    // Any events: the proof of each call says which, in terms of these two values.
    fn of<A, B>(_first: &A, _second: &B) -> History<T>
        ghost events: { List T }
        ensures { result.events ≡ events }
    {
        History {
            marker: PhantomData,
        }
    }
}

impl History<Change<'static>> {
    /// These changes and one more, whatever it borrows.
    pub fn and(&self, change: &Change<'_>) -> History<Change<'static>>
        ensures { result.events ≡ self.now.events ++ change.now ∷ [] }
    {
        History::of(self, &change)
    }
}
