//! What the store of a plain tree is made of.
use directory_tree::NodeKind;
use names::NoMemory;
use std::alloc::{AllocError, Global};
use std::collections::BTreeMap;
use std::marker::Model;

/// The component of an entry.
#[derive(Drop)]
pub(crate) struct Component {
    bytes: Vec<u8>,
}

impl Model for Component {
    ghost use Rattle.std.specs.Prelude.{List, ℕ};

    ghost Value = { List ℕ };

    ghost view = { λ c. c.bytes.items };
}

impl Component {
    ghost use Rattle.std.specs.Prelude.{◌≡◌, IfOk};

    pub(crate) fn copied(alloc: Global, bytes: &[u8]) -> Result<Component, AllocError>
        ensures { IfOk result (λ component. component ≡ bytes.now) }
    {
        let bytes = Vec::from_slice(alloc, bytes)?;
        Ok(Component { bytes })
    }

    pub(crate) fn as_bytes(&self) -> &[u8]
        ensures { result.now ≡ self.now }
    {
        self.bytes.as_slice()
    }
}

/// What an entry stands for: the number of its node, and what the node is.
#[derive(Drop)]
pub(crate) struct Node {
    pub number: u64,
    pub kind: NodeKind,
}

/// Where a directory is: the number of the directory that has its entry, and the component there.
#[derive(Drop)]
pub(crate) struct Parent {
    pub of: u64,
    pub component: Component,
}

/// A directory: where it is (the root is nowhere), and its entries.
#[derive(Drop)]
pub(crate) struct Directory {
    pub parent: Option<Parent>,
    pub entries: BTreeMap<Vec<u8>, Node>,
}

impl Directory {
    ghost use Rattle.std.specs.Prelude.{◌≡◌, ◌↔◌, ℕ, List, IfOk, OnOk, OnErr, IsTrue, IsSome, Some, None};
    ghost use Rattle.std.specs.Option.{option_copied};
    ghost use Rattle.plain_tree.specs.inner.Store.{node_in, SetsIn, KeepsIn};

    /// A directory at this place, without entries.
    pub(crate) fn new(alloc: Global, parent: Option<Parent>) -> Directory
        ensures parent { result.parent ≡ parent }
        ensures nodes { (c : List ℕ) → node_in result c ≡ None }
    {
        let entries = BTreeMap::new(alloc);
        Directory { parent, entries }
    }

    /// What the entry of a component stands for.
    pub(crate) fn node(&self, component: &[u8]) -> Option<&Node>
        ensures { option_copied result ≡ node_in self.now component.now }
    {
        self.entries.get(component)
    }

    /// Whether there is no entry.
    pub(crate) fn is_empty(&self) -> bool
        ensures { IsTrue result ↔ ((c : List ℕ) → node_in self.now c ≡ None) }
    {
        self.entries.is_empty()
    }

    /// Adds an entry.
    pub(crate) fn put(&mut self, component: Vec<u8>, node: Node) -> Result<(), NoMemory>
        ensures ok { OnOk result (SetsIn self.old self.new component.items (Some node)) }
        ensures err { OnErr result (KeepsIn self.old self.new) }
    {
        match self.entries.insert(component, node) {
            Ok(_) => Ok(()),
            Err(_) => Err(NoMemory),
        }
    }

    /// Makes an entry stand for another node.
    pub(crate) fn set(&mut self, component: &[u8], node: Node)
        requires { IsSome (node_in self.old component.now) }
        ensures { SetsIn self.old self.new component.now (Some node) }
    {
        if let Some(old) = self.entries.get_mut(component) {
            *old = node;
        }
    }

    /// Removes an entry.
    pub(crate) fn take(&mut self, component: &[u8]) -> Option<Node>
        ensures old { result ≡ node_in self.old component.now }
        ensures new { SetsIn self.old self.new component.now None }
    {
        self.entries.remove(component)
    }
}
