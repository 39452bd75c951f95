//! The directory tree in plain memory.
ghost use Rattle.std.specs.Prelude.{◌≡◌, ◌+◌, ◌<◌, ◌≤◌, true, length, Ok, Err, None, OnOk, IfOk, IfErr, IsOk, IsSome, IfSome};
ghost use Rattle.std.specs.Option.{option_map, option_copied};
ghost use Rattle.directory_tree.specs.Tree.{find, own_entry, is_directory, is_empty};
ghost use Rattle.directory_tree.specs.Apply.{entry, with_entry, dropped, moved, has_room, most_changes};
ghost use Rattle.directory_tree.specs.Plain.{new_plain, tree_of, outcome, Accepted, Refused};
ghost use Rattle.change_checks.specs.Act.{kind_of_new, acted, IsTested, IsVacant, NamesOnly, Fits, FitsNode};
ghost use Rattle.change_checks.specs.declared.act.Act.TheVariants as act;
ghost use Rattle.plain_tree.specs.inner.Mirror.{node_for, parent_for, stands_at, IsShort, IsShortText, IsEmptied, AreOther};
ghost use Rattle.plain_tree.specs.PlainEntry.{means_in, knows_in};

use crate::directory::{Node, Parent};
use crate::entry::PlainEntry;
use crate::store::Store;
use change_checks::{Act, NewNode, Place, check_change};
use directory_tree::{Change, LinkText, NodeKind, TreeHistory};
use names::{Errno, LONGEST_COMPONENT, MOST_CHANGES, NoMemory};
use path_lookup::WalkFault;
use std::alloc::Global;
use std::marker::Model;

/// The number of the root's node.
pub(crate) const ROOT: u64 = 1;

/// A directory tree in plain memory. To contracts it is its capacity and the changes that were accepted.
#[derive(Drop)]
pub struct PlainTree {
    alloc: Global,
    store: Store,
    // How many entries there are.
    count: usize,
    capacity: usize,
    // The number of the next node.
    next: u64,
    version: u64,
    history: TreeHistory,
}

impl Model for PlainTree {
    ghost use Rattle.directory_tree.specs.Plain.{Plain};

    ghost Value = { Plain };

    ghost use Rattle.plain_tree.specs.inner.Mirror.{Holds};

    ghost view = { λ t. record { capacity = t.capacity; history = t.history.events } };

    ghost invariant = { λ t. Holds t.store t.count t.next t.version (record { capacity = t.capacity; history = t.history.events }) };
}

impl PlainTree {
    /// The root alone, with room for `capacity` entries. Memory is allocated as entries are added.
    pub fn new(alloc: Global, capacity: usize) -> Result<PlainTree, NoMemory>
        ensures { IfOk result (λ tree. tree ≡ new_plain capacity) }
    {
        let mut store = Store::new(alloc);
        store.open(alloc, ROOT, None)?;
        Ok(PlainTree {
            alloc,
            store,
            count: 0,
            capacity,
            next: 2,
            version: 0,
            history: TreeHistory::new(),
        })
    }

    /// The number of changes that were accepted.
    pub fn version(&self) -> u64
        ensures { result ≡ length self.now.history }
    {
        self.version
    }

    /// Whether the change would be made, memory aside, or the error with which it would be refused. Changes nothing, and allocates
    /// nothing.
    pub fn test(&mut self, change: &Change<'_>) -> Result<(), Errno>
        ensures same { self.new ≡ self.old }
        ensures ok { OnOk result (IsOk (outcome self.old change.now)) }
        ensures err { IfErr result (λ errno. outcome self.old change.now ≡ Err errno) }
    {
        self.tested(change)?;
        Ok(())
    }

    /// Makes the change and returns the version that it makes, or returns the error with which it is refused and changes nothing.
    pub fn apply(&mut self, change: &Change<'_>) -> Result<u64, Errno>
        ensures ok { IfOk result (λ version. Accepted self.old self.new change.now version) }
        ensures err { IfErr result (λ errno. Refused self.old self.new change.now errno) }
    {
        match self.tested(change)? {
            Act::Make(place, node) => self.make(change, &place, &node),
            Act::Link(file, place) => self.link(change, &file, &place),
            Act::Remove(place, _) => {
                let of = self.number_of(&place.directory);
                Ok(self.remove(change, of, place.component))
            }
            Act::Move(moved) => {
                let of = self.number_of(&moved.from.directory);
                let into = self.number_of(&moved.to.directory);
                self.shift(change, of, moved.from.component, into, moved.to.component)
            }
            Act::Nothing => Ok(self.keep(change)),
        }
    }

    // What the change would do, or the error with which it is refused. Whether it is counted is checked first.
    fn tested<'a>(&mut self, change: &Change<'a>) -> Result<Act<'a, PlainEntry>, Errno>
        ensures same { self.new ≡ self.old }
        ensures counted { OnOk result (length self.old.history < most_changes) }
        ensures known { IfOk result (NamesOnly (knows_in (tree_of self.old))) }
        ensures fits { IfOk result Fits }
        ensures acts { IfOk result (λ act. outcome self.old change.now ≡ Ok (acted (means_in (tree_of self.old)) (tree_of self.old) act)) }
        ensures tested { IfOk result (IsTested (means_in (tree_of self.old)) (tree_of self.old) self.old.capacity) }
        ensures err { IfErr result (λ errno. outcome self.old change.now ≡ Err errno) }
    {
        if self.version >= MOST_CHANGES {
            return Err(Errno::EOVERFLOW);
        }
        match check_change(self, change) {
            Ok(act) => Ok(act),
            Err(WalkFault::Refused(errno)) => Err(errno),
            // A plain tree always sees its tree, and knows all of it.
            Err(WalkFault::Torn) => unreachable!(),
        }
    }

    // A new entry of a new node (mkdir(2), open(2), symlink(2)). The text of a link is copied last, since being out of memory
    // comes after all other refusals.
    fn make(
        &mut self,
        change: &Change<'_>,
        place: &Place<'_, PlainEntry>,
        node: &NewNode<'_>,
    ) -> Result<u64, Errno>
        requires known { knows_in (tree_of self.old) place.now.directory }
        requires fits { (length place.now.component.now ≤ LONGEST_COMPONENT) × FitsNode node.now }
        requires acts { outcome self.old change.now
            ≡ Ok (acted (means_in (tree_of self.old)) (tree_of self.old) (act.Make place.now node.now)) }
        requires tested { IsVacant (means_in (tree_of self.old)) (tree_of self.old) self.old.capacity place.now }
        requires counted { length self.old.history < most_changes }
        ensures ok { IfOk result (λ version. Accepted self.old self.new change.now version) }
        ensures err { IfErr result (λ errno. Refused self.old self.new change.now errno) }
    {
        let of = self.number_of(&place.directory);
        let Ok(kind) = kind_of_new(self.alloc, node) else {
            return Err(Errno::ENOMEM);
        };
        let number = self.next_number();
        self.add(
            change,
            of,
            place.component,
            Node { number, kind },
            number + 1,
        )
    }

    // One more entry of a file (link(2)).
    fn link(
        &mut self,
        change: &Change<'_>,
        file: &PlainEntry,
        place: &Place<'_, PlainEntry>,
    ) -> Result<u64, Errno>
        requires file { knows_in (tree_of self.old) file.now }
        requires known { knows_in (tree_of self.old) place.now.directory }
        requires fits { length place.now.component.now ≤ LONGEST_COMPONENT }
        requires acts { outcome self.old change.now
            ≡ Ok (acted (means_in (tree_of self.old)) (tree_of self.old) (act.Link file.now place.now)) }
        requires tested { IsVacant (means_in (tree_of self.old)) (tree_of self.old) self.old.capacity place.now }
        requires counted { length self.old.history < most_changes }
        ensures ok { IfOk result (λ version. Accepted self.old self.new change.now version) }
        ensures err { IfErr result (λ errno. Refused self.old self.new change.now errno) }
    {
        let number = self.number_of(file);
        let of = self.number_of(&place.directory);
        let next = self.next_number();
        let kind = NodeKind::File;
        self.add(change, of, place.component, Node { number, kind }, next)
    }

    /// What the entry of a component in a directory stands for.
    pub(crate) fn stored_node(&self, of: u64, component: &[u8]) -> Option<&Node>
        ensures node { option_copied result ≡ option_map node_for (find (tree_of self.now).entries of component.now) }
        ensures fits { IsSome result → length component.now ≤ LONGEST_COMPONENT }
        ensures text_fits { IfSome result (λ node. IsShortText node.now.kind) }
    {
        self.store.node(of, component)
    }

    /// Where a directory is.
    pub(crate) fn stored_parent(&self, number: u64) -> Option<&Parent>
        ensures parent { option_copied result ≡ option_map parent_for (own_entry (tree_of self.now).entries number) }
        ensures fits { IfSome result (λ parent. length parent.now.component ≤ LONGEST_COMPONENT) }
    {
        self.store.parent(number)
    }

    // Whether no entry is in the directory.
    pub(crate) fn has_no_entry(&self, number: u64) -> bool
        ensures { result ≡ is_empty (tree_of self.now).entries number }
    {
        self.store.is_empty(number)
    }

    // How many entries there are.
    pub(crate) fn count(&self) -> usize
        ensures { result ≡ length (tree_of self.now).entries }
    {
        self.count
    }

    // Whether an entry is free.
    pub(crate) fn has_spare(&self) -> bool
        ensures { result ≡ has_room self.now.capacity (tree_of self.now) }
    {
        self.count < self.capacity
    }

    // The number of the next node.
    fn next_number(&self) -> u64
        ensures next { result ≡ (tree_of self.now).next }
        ensures few { result ≤ length self.now.history + 2 }
    {
        self.next
    }

    // Adds an entry, in a tree that accepts it.
    fn add(
        &mut self,
        change: &Change<'_>,
        of: u64,
        component: &[u8],
        node: Node,
        next: u64,
    ) -> Result<u64, Errno>
        requires new { outcome self.old change.now
            ≡ Ok (with_entry (tree_of self.old) (entry of component.now node.number node.kind) next) }
        requires free { find (tree_of self.old).entries of component.now ≡ None }
        requires parent { IsSome (stands_at (tree_of self.old) of) }
        requires fresh { is_directory node.kind ≡ true → stands_at (tree_of self.old) node.number ≡ None }
        requires short { IsShort (entry of component.now node.number node.kind) }
        requires few { next ≤ length self.old.history + 3 }
        requires counted { length self.old.history < most_changes }
        requires room { length (tree_of self.old).entries < self.old.capacity }
        ensures ok { IfOk result (λ version. Accepted self.old self.new change.now version) }
        ensures err { IfErr result (λ errno. Refused self.old self.new change.now errno) }
    {
        if self.store.enter(self.alloc, of, component, node).is_err() {
            return Err(Errno::ENOMEM);
        }
        self.count += 1;
        self.next = next;
        self.history = self.history.and(change);
        self.version += 1;
        Ok(self.version)
    }

    // Removes an entry, from a tree that accepts it.
    fn remove(&mut self, change: &Change<'_>, of: u64, component: &[u8]) -> u64
        requires new { outcome self.old change.now ≡ Ok (dropped (tree_of self.old) of component.now) }
        requires there { IsSome (find (tree_of self.old).entries of component.now) }
        requires empty { IsEmptied (tree_of self.old) (find (tree_of self.old).entries of component.now) }
        requires counted { length self.old.history < most_changes }
        ensures { Accepted self.old self.new change.now result }
    {
        self.store.leave(of, component);
        self.count -= 1;
        self.history = self.history.and(change);
        self.version += 1;
        self.version
    }

    // Moves an entry, in a tree that accepts it.
    fn shift(
        &mut self,
        change: &Change<'_>,
        of: u64,
        component: &[u8],
        into: u64,
        name: &[u8],
    ) -> Result<u64, Errno>
        requires new { outcome self.old change.now ≡ Ok (moved (tree_of self.old) of component.now into name.now) }
        requires old { IsSome (find (tree_of self.old).entries of component.now) }
        requires parent { IsSome (stands_at (tree_of self.old) into) }
        requires empty { IsEmptied (tree_of self.old) (find (tree_of self.old).entries into name.now) }
        requires other { AreOther (find (tree_of self.old).entries of component.now) (find (tree_of self.old).entries into name.now) }
        requires short { length name.now ≤ LONGEST_COMPONENT }
        requires counted { length self.old.history < most_changes }
        ensures ok { IfOk result (λ version. Accepted self.old self.new change.now version) }
        ensures err { IfErr result (λ errno. Refused self.old self.new change.now errno) }
    {
        let Ok(replaced) = self.store.shift(self.alloc, of, component, into, name) else {
            return Err(Errno::ENOMEM);
        };
        self.count -= usize::from(replaced);
        self.history = self.history.and(change);
        self.version += 1;
        Ok(self.version)
    }

    // A change that leaves the tree as it is.
    fn keep(&mut self, change: &Change<'_>) -> u64
        requires new { outcome self.old change.now ≡ Ok (tree_of self.old) }
        requires counted { length self.old.history < most_changes }
        ensures { Accepted self.old self.new change.now result }
    {
        self.history = self.history.and(change);
        self.version += 1;
        self.version
    }
}

// What the new node is, with a copy of a link's text.
fn kind_of_new(alloc: Global, node: &NewNode<'_>) -> Result<NodeKind, NoMemory>
    ensures { IfOk result (λ kind. kind ≡ kind_of_new node.now) }
{
    match node {
        NewNode::Directory => Ok(NodeKind::Directory),
        NewNode::File => Ok(NodeKind::File),
        NewNode::Link(text) => match LinkText::copied(alloc, text) {
            Ok(text) => Ok(NodeKind::Link(text)),
            Err(_) => Err(NoMemory),
        },
    }
}
