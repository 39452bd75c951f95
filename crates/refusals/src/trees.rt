//! A tree kept in three ways: in plain memory, in a row of words, and in the row that threads share. Each change is made in all three.
ghost use Rattle.std.specs.Prelude.{◌≡◌};

use crate::row::Row;
use dentry_cache::Keeper;
use directory_tree::{Change, Last};
use names::{Errno, NoMemory};
use path_lookup::{Look, NAME_ROOM, Scratch, WalkFault, reach};
use plain_tree::PlainTree;
use std::alloc::Global;
use std::io::Print;
use storm_parts::{Call, Difference, Hash, How, Stop, again, expect, path, tree_changes};

/// Room for the entries of the trees.
const ROOM: usize = 8;

/// What paths lead to is compared in all trees.
const PATHS: [&[u8]; 9] = [
    b"/",
    b"/a",
    b"/a/directory with a longer name/f",
    b"/a/g",
    b"/s",
    b"/s/f",
    b"/h",
    b"/c/f",
    b"/c/a",
];

/// A tree that can be changed.
pub(crate) trait Tree {
    /// The call that changes it.
    const APPLY: Call;

    /// Makes a change.
    fn try_apply(&mut self, change: &Change<'_>) -> Result<(), Errno>;

    /// What is to be seen of it: what paths lead to.
    fn seen(&mut self) -> Result<Hash, Difference>;

    /// A hash of all that it is known by.
    fn state(&mut self) -> Result<Hash, Difference>;
}

impl Tree for PlainTree {
    const APPLY: Call = Call::ApplyToPlainTree;

    fn try_apply(&mut self, change: &Change<'_>) -> Result<(), Errno> {
        self.apply(change)?;
        Ok(())
    }

    fn seen(&mut self) -> Result<Hash, Difference> {
        seen_by(self)
    }

    fn state(&mut self) -> Result<Hash, Difference> {
        Ok(self.seen()?.and_number(self.version()))
    }
}

impl Tree for Keeper {
    const APPLY: Call = Call::ApplyByKeeper;

    fn try_apply(&mut self, change: &Change<'_>) -> Result<(), Errno> {
        self.apply(change)?;
        Ok(())
    }

    fn seen(&mut self) -> Result<Hash, Difference> {
        seen_by(self.look())
    }

    fn state(&mut self) -> Result<Hash, Difference> {
        Ok(self.seen()?.and_number(self.version()))
    }
}

/// A hash of what each of the paths leads to: its node and name, or the number of the refusal.
pub(crate) fn seen_by<L: Look>(look: &mut L) -> Result<Hash, Difference>
    ensures kept { L.kept look.new ≡ L.kept look.old }
{
    let mut hash = Hash::NONE;
    for text in PATHS {
        hash = and_seen(look, text, hash)?;
    }
    Ok(hash)
}

fn and_seen<L: Look>(look: &mut L, text: &[u8], hash: Hash) -> Result<Hash, Difference>
    ensures kept { L.kept look.new ≡ L.kept look.old }
{
    let mut room = [0; NAME_ROOM];
    match reach(
        look,
        &path(text)?,
        Last::Stay,
        &mut Scratch::new(),
        &mut room,
    ) {
        Ok(reached) => match look.node(reached.entry) {
            Ok(node) => Ok(hash.and_number(node).and(&room[..reached.length])),
            Err(_) => Ok(hash.and_number(u64::MAX)),
        },
        Err(WalkFault::Refused(errno)) => Ok(hash.and_number(u64::from(errno.number()))),
        Err(WalkFault::Torn) => Ok(hash.and_number(u64::MAX)),
    }
}

/// Makes a change, or returns why the tree refuses it. Where memory is refused, nothing has changed.
pub(crate) fn apply<T: Tree>(
    tree: &mut T,
    change: &Change<'_>,
) -> Result<Option<Errno>, Difference> {
    let before = tree.state()?;
    match tree.try_apply(change) {
        Err(Errno::ENOMEM) => {
            expect(tree.state()? == before, T::APPLY, How::Changes)?;
            let refusal = tree.try_apply(change).err();
            expect(refusal != Some(Errno::ENOMEM), T::APPLY, How::NoAnswer)?;
            Ok(refusal)
        }
        answer => Ok(answer.err()),
    }
}

/// The three trees.
#[derive(Drop)]
struct Trees {
    plain: PlainTree,
    row: Row,
    keeper: Keeper,
}

impl Trees {
    fn new(alloc: Global) -> Result<Trees, Difference> {
        Ok(Trees {
            plain: again(Call::NewPlainTree, NoMemory, || PlainTree::new(alloc, ROOM))?,
            row: Row::new(alloc, ROOM)?,
            keeper: again(Call::NewKeeper, NoMemory, || Keeper::new(alloc, ROOM))?,
        })
    }

    // How many cells a change would set.
    fn plan(&mut self, change: &Change<'_>) -> Result<usize, Difference> {
        match self.row.plan(change)? {
            Ok(cells) => Ok(cells.len()),
            Err(_) => Ok(0),
        }
    }

    // Makes a change in all trees, which answer alike, as the keeper's test does before.
    fn apply(&mut self, change: &Change<'_>) -> Result<Option<Errno>, Difference> {
        let refusal = apply(&mut self.plain, change)?;
        let tested = self.keeper.test(change).err();
        expect(tested == refusal, Call::TestByKeeper, How::Answers)?;
        let by_row = apply(&mut self.row, change)?;
        expect(by_row == refusal, Call::ChangeRow, How::Answers)?;
        let by_keeper = apply(&mut self.keeper, change)?;
        expect(by_keeper == refusal, Call::ApplyByKeeper, How::Answers)?;
        Ok(refusal)
    }

    // What is to be seen of all of them.
    fn seen(&mut self) -> Result<Hash, Difference> {
        let seen = self.plain.seen()?;
        let is_same = self.plain.version() == self.keeper.version();
        expect(is_same, Call::ApplyToPlainTree, How::Answers)?;
        expect(self.row.seen()? == seen, Call::ChangeRow, How::Answers)?;
        expect(
            self.keeper.seen()? == seen,
            Call::ApplyByKeeper,
            How::Answers,
        )?;
        Ok(seen)
    }
}

/// Prints how each change is answered.
pub(crate) fn show_trees<R: Print>(rt: &R, alloc: Global) -> Result<(), Stop> {
    let mut trees = Trees::new(alloc)?;
    for change in &tree_changes()? {
        let cells = trees.plan(change)?;
        let refusal = trees.apply(change)?;
        let (version, seen) = (trees.keeper.version(), trees.seen()?);
        match refusal {
            None => println!(rt; "{cells} cells, version {version}: {seen}")?,
            Some(errno) => println!(rt; "{errno}, version {version}: {seen}")?,
        }
    }
    Ok(())
}
