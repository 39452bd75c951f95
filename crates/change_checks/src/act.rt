//! What a change that passed its tests does.
use crate::place::Place;

/// A node that a change makes.
#[derive(Clone, Copy)]
pub enum NewNode<'a> {
    Directory,
    File,
    /// A symbolic link with this text, which was tested.
    Link(&'a [u8]),
}

/// An entry that goes from one place to another (rename(2)).
#[derive(Drop)]
pub struct Move<'a, E: Copy> {
    pub from: Place<'a, E>,
    /// The entry that moves.
    pub entry: E,
    pub to: Place<'a, E>,
    /// What is at the new place, and is removed: an empty directory, or no directory.
    pub replaced: Option<E>,
}

impl<'a, E: Copy> Move<'a, E> {
    ghost use Rattle.std.specs.Prelude.{◌≡◌};

    pub(crate) fn new(
        from: &Place<'a, E>,
        entry: E,
        to: &Place<'a, E>,
        replaced: Option<E>,
    ) -> Move<'a, E>
        ensures { result ≡ record { from = from.now; entry = entry; to = to.now; replaced = replaced } }
    {
        Move {
            from: from.copied(),
            entry,
            to: to.copied(),
            replaced,
        }
    }
}

/// What a change does, if its tests found nothing against it.
#[derive(Drop)]
pub enum Act<'a, E: Copy> {
    /// A new node is made, with its entry at this place.
    Make(Place<'a, E>, NewNode<'a>),
    /// One more entry of this file is made at this place.
    Link(E, Place<'a, E>),
    /// This entry is removed from its place: that of a file, of a link or of an empty directory.
    Remove(Place<'a, E>, E),
    /// An entry moves.
    Move(Move<'a, E>),
    /// Nothing is done: two entries of one node are renamed.
    Nothing,
}
