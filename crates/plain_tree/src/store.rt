//! The directories of a plain tree, by the numbers of their nodes.
ghost use Rattle.std.specs.Prelude.{◌≡◌, ◌↔◌, ℕ, List, OnOk, OnErr, IfOk, IsTrue, IsSome, is_some, true};
ghost use Rattle.std.specs.Option.{option_copied};
ghost use Rattle.plain_tree.specs.inner.Store.{stored_node, stored_parent, known_parent, moved_parent, Sets, SetsParent, Keeps, Enters};
ghost use Rattle.plain_tree.specs.inner.Store.{IsOpened, IsLoose, Differ, MakesWay, MovesOver, Shifts, Leaves};
ghost use Rattle.directory_tree.specs.Tree.{is_directory};

use crate::directory::{Component, Directory, Node, Parent};
use directory_tree::NodeKind;
use names::NoMemory;
use std::alloc::Global;
use std::collections::BTreeMap;

/// Every directory, by the number of its node.
#[derive(Drop)]
pub(crate) struct Store {
    pub directories: BTreeMap<u64, Directory>,
}

impl Store {
    /// No directory at all.
    pub(crate) fn new(alloc: Global) -> Store
        ensures parents { (d : ℕ) → stored_parent result d ≡ None }
        ensures nodes { (d : ℕ) (c : List ℕ) → stored_node result d c ≡ None }
    {
        Store {
            directories: BTreeMap::new(alloc),
        }
    }

    /// What the entry of a component in a directory stands for.
    pub(crate) fn node(&self, of: u64, component: &[u8]) -> Option<&Node>
        ensures { option_copied result ≡ stored_node self.now of component.now }
    {
        match self.directories.get(&of) {
            Some(directory) => directory.node(component),
            None => None,
        }
    }

    /// Where a directory is.
    pub(crate) fn parent(&self, number: u64) -> Option<&Parent>
        ensures { option_copied result ≡ known_parent (stored_parent self.now number) }
    {
        match self.directories.get(&number) {
            Some(directory) => directory.parent.as_ref(),
            None => None,
        }
    }

    /// Whether no entry is in the directory.
    pub(crate) fn is_empty(&self, number: u64) -> bool
        ensures { IsTrue result ↔ ((c : List ℕ) → stored_node self.now number c ≡ None) }
    {
        match self.directories.get(&number) {
            Some(directory) => directory.is_empty(),
            None => true,
        }
    }

    /// Adds a directory at this place, without entries.
    pub(crate) fn open(
        &mut self,
        alloc: Global,
        number: u64,
        parent: Option<Parent>,
    ) -> Result<(), NoMemory>
        requires { stored_parent self.old number ≡ None }
        ensures ok { OnOk result (SetsParent self.old self.new number (Some parent)) }
        ensures err { OnErr result (Keeps self.old self.new) }
    {
        let directory = Directory::new(alloc, parent);
        match self.directories.insert(number, directory) {
            Ok(_) => Ok(()),
            Err(_) => Err(NoMemory),
        }
    }

    /// Removes an empty directory.
    pub(crate) fn close(&mut self, number: u64)
        requires { (c : List ℕ) → stored_node self.old number c ≡ None }
        ensures { SetsParent self.old self.new number None }
    {
        let _ = self.directories.remove(&number);
    }

    /// Adds an entry to a directory.
    pub(crate) fn put(
        &mut self,
        alloc: Global,
        of: u64,
        component: &[u8],
        node: Node,
    ) -> Result<(), NoMemory>
        requires { IsSome (stored_parent self.old of) }
        ensures ok { OnOk result (Sets self.old self.new of component.now (Some node)) }
        ensures err { OnErr result (Keeps self.old self.new) }
    {
        let Ok(key) = Vec::from_slice(alloc, component) else {
            return Err(NoMemory);
        };
        match self.directories.get_mut(&of) {
            Some(directory) => directory.put(key, node),
            None => Ok(()),
        }
    }

    /// Makes an entry stand for another node.
    pub(crate) fn set(&mut self, of: u64, component: &[u8], node: Node)
        requires { IsSome (stored_node self.old of component.now) }
        ensures { Sets self.old self.new of component.now (Some node) }
    {
        if let Some(directory) = self.directories.get_mut(&of) {
            directory.set(component, node);
        }
    }

    /// Removes an entry.
    pub(crate) fn take(&mut self, of: u64, component: &[u8]) -> Option<Node>
        ensures old { result ≡ stored_node self.old of component.now }
        ensures new { Sets self.old self.new of component.now None }
    {
        match self.directories.get_mut(&of) {
            Some(directory) => directory.take(component),
            None => None,
        }
    }

    /// Sets where a directory is.
    pub(crate) fn set_parent(&mut self, number: u64, parent: Parent)
        requires { IsSome (stored_parent self.old number) }
        ensures { SetsParent self.old self.new number (Some (Some parent)) }
    {
        if let Some(directory) = self.directories.get_mut(&number) {
            directory.parent = Some(parent);
        }
    }

    /// Adds an entry; that of a directory comes with a directory.
    pub(crate) fn enter(
        &mut self,
        alloc: Global,
        of: u64,
        component: &[u8],
        node: Node,
    ) -> Result<(), NoMemory>
        requires parent { IsSome (stored_parent self.old of) }
        requires fresh { is_directory node.kind ≡ true → stored_parent self.old node.number ≡ None }
        ensures ok { OnOk result (Enters self.old self.new of component.now node) }
        ensures err { OnErr result (Keeps self.old self.new) }
    {
        if node.kind.is_directory() {
            self.enter_directory(alloc, of, component, node)
        } else {
            self.put(alloc, of, component, node)
        }
    }

    // Adds a directory, and its entry.
    fn enter_directory(
        &mut self,
        alloc: Global,
        of: u64,
        component: &[u8],
        node: Node,
    ) -> Result<(), NoMemory>
        requires parent { IsSome (stored_parent self.old of) }
        requires fresh { stored_parent self.old node.number ≡ None }
        requires directory { is_directory node.kind ≡ true }
        ensures ok { OnOk result (Enters self.old self.new of component.now node) }
        ensures err { OnErr result (Keeps self.old self.new) }
    {
        let number = node.number;
        let parent = parent_in(alloc, of, component)?;
        self.open(alloc, number, Some(parent))?;
        match self.put(alloc, of, component, node) {
            Ok(()) => Ok(()),
            Err(refused) => {
                // There was memory for the directory, but not for its entry.
                self.close(number);
                Err(refused)
            }
        }
    }

    /// Removes an entry, that of a directory with its directory.
    pub(crate) fn leave(&mut self, of: u64, component: &[u8])
        requires { IsLoose self.old (stored_node self.old of component.now) }
        ensures { Leaves self.old self.new of component.now }
    {
        if let Some(node) = self.take(of, component) {
            if node.kind.is_directory() {
                self.close(node.number);
            }
        }
    }

    /// Moves the entry of one place to another. What was there is removed, an empty directory with its entry. Returns whether
    /// something was there.
    pub(crate) fn shift(
        &mut self,
        alloc: Global,
        of: u64,
        component: &[u8],
        into: u64,
        name: &[u8],
    ) -> Result<bool, NoMemory>
        requires old { IsSome (stored_node self.old of component.now) }
        requires parent { IsSome (stored_parent self.old into) }
        requires apart { of ≡ into → component.now ≡ name.now → ⊥ }
        requires opened { IsOpened self.old (stored_node self.old of component.now) }
        requires empty { IsLoose self.old (stored_node self.old into name.now) }
        requires differ { Differ (stored_node self.old of component.now) (stored_node self.old into name.now) }
        ensures ok { IfOk result (λ replaced. Shifts self.old self.new of component.now into name.now
            × (replaced ≡ is_some (stored_node self.old into name.now))) }
        ensures err { OnErr result (Keeps self.old self.new) }
    {
        let parent = self.moved_parent(alloc, of, component, into, name)?;
        // The new place is taken before the old one is released, so that nothing is lost if memory is refused.
        let replaced = self.make_way(alloc, into, name)?;
        self.move_over(of, component, into, name, parent);
        Ok(replaced)
    }

    // Where the directory will be, if the entry is a directory's.
    fn moved_parent(
        &self,
        alloc: Global,
        of: u64,
        component: &[u8],
        into: u64,
        name: &[u8],
    ) -> Result<Option<Parent>, NoMemory>
        ensures { IfOk result (λ parent. parent ≡ moved_parent (stored_node self.now of component.now) into name.now) }
    {
        match self.node(of, component) {
            Some(node) => {
                if node.kind.is_directory() {
                    Ok(Some(parent_in(alloc, into, name)?))
                } else {
                    Ok(None)
                }
            }
            None => Ok(None),
        }
    }

    // Makes sure that some entry is at the place, and removes a directory that was there.
    fn make_way(&mut self, alloc: Global, into: u64, name: &[u8]) -> Result<bool, NoMemory>
        requires parent { IsSome (stored_parent self.old into) }
        requires empty { IsLoose self.old (stored_node self.old into name.now) }
        ensures ok { IfOk result (λ replaced. MakesWay self.old self.new into name.now
            × (replaced ≡ is_some (stored_node self.old into name.now))) }
        ensures err { OnErr result (Keeps self.old self.new) }
    {
        let number = match self.node(into, name) {
            None => {
                let placeholder = Node {
                    number: 0,
                    kind: NodeKind::File,
                };
                self.put(alloc, into, name, placeholder)?;
                return Ok(false);
            }
            Some(node) => {
                if !node.kind.is_directory() {
                    return Ok(true);
                }
                node.number
            }
        };
        self.close(number);
        Ok(true)
    }

    // Moves the entry of one place to another that has some entry.
    fn move_over(
        &mut self,
        of: u64,
        component: &[u8],
        into: u64,
        name: &[u8],
        parent: Option<Parent>,
    )
        requires old { IsSome (stored_node self.old of component.now) }
        requires there { IsSome (stored_node self.old into name.now) }
        requires apart { of ≡ into → component.now ≡ name.now → ⊥ }
        requires parent { parent ≡ moved_parent (stored_node self.old of component.now) into name.now }
        requires opened { IsOpened self.old (stored_node self.old of component.now) }
        ensures { MovesOver self.old self.new of component.now into name.now }
    {
        if let Some(node) = self.take(of, component) {
            if let Some(parent) = parent {
                self.set_parent(node.number, parent);
            }
            self.set(into, name, node);
        }
    }
}

// The place of a component in a directory.
fn parent_in(alloc: Global, of: u64, component: &[u8]) -> Result<Parent, NoMemory>
    ensures { IfOk result (λ parent. parent ≡ record { of = of; component = component.now }) }
{
    match Component::copied(alloc, component) {
        Ok(component) => Ok(Parent { of, component }),
        Err(_) => Err(NoMemory),
    }
}
