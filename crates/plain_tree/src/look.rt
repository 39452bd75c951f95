//! A plain tree as a look: nothing changes meanwhile, and every answer is about the tree as it is.
ghost use Rattle.std.specs.Prelude.{◌≡◌, ◌≤◌, ℕ, List, take};
ghost use Rattle.directory_tree.specs.declared.node.NodeKind.TheVariants.{Link};
ghost use Rattle.directory_tree.specs.Spots.{shape_of};
ghost use Rattle.plain_tree.specs.inner.Mirror.{IsShortText};

use crate::entry::{EntryKey, PlainEntry, copy_to_front};
use crate::plain::{PlainTree, ROOT};
use change_checks::ChangeLook;
use directory_tree::{Kind, LONGEST_LINK_TEXT, NodeKind};
use names::LONGEST_COMPONENT;
use path_lookup::{Look, Torn};

impl Look for PlainTree {
    ghost use Rattle.std.specs.Prelude.{◌≡◌};
    ghost use Rattle.directory_tree.specs.Plain.{Plain, tree_of};
    ghost use Rattle.plain_tree.specs.PlainEntry.{means_in, knows_in};
    ghost use Rattle.plain_tree.specs.PlainLaws.{SeesPlain, entry_stands};

    type Entry = PlainEntry;

    ghost Kept = { Plain };

    ghost kept = { λ p. p };

    ghost sees = { SeesPlain };

    ghost means = { λ e w. means_in w.tree e };

    ghost knows = { λ p e. knows_in (tree_of p) e };

    ghost lacks = { λ _. ⊥ };

    ghost stands = { λ p w e h k. entry_stands w.tree e };

    fn root(&self) -> PlainEntry {
        PlainEntry::Root
    }

    fn child(
        &mut self,
        directory: PlainEntry,
        component: &[u8],
    ) -> Result<Option<PlainEntry>, Torn> {
        let of = self.number_of(&directory);
        match self.stored_node(of, component) {
            Some(_) => Ok(Some(PlainEntry::Held(EntryKey::new(of, component)))),
            None => Ok(None),
        }
    }

    fn kind(&mut self, entry: PlainEntry) -> Result<Kind, Torn> {
        let key = match entry {
            PlainEntry::Root => return Ok(Kind::Directory),
            PlainEntry::Held(key) => key,
        };
        match self.stored_node(key.of, key.component()) {
            Some(node) => Ok(shape(&node.kind)),
            None => unreachable!(),
        }
    }

    fn node(&mut self, entry: PlainEntry) -> Result<u64, Torn> {
        Ok(self.number_of(&entry))
    }

    fn parent(&mut self, entry: PlainEntry) -> Result<Option<PlainEntry>, Torn> {
        let key = match entry {
            PlainEntry::Root => return Ok(None),
            PlainEntry::Held(key) => key,
        };
        match self.stored_parent(key.of) {
            Some(parent) => Ok(Some(PlainEntry::Held(EntryKey::new(
                parent.of,
                parent.component.as_bytes(),
            )))),
            None => Ok(Some(PlainEntry::Root)),
        }
    }

    fn component(
        &mut self,
        entry: PlainEntry,
        room: &mut [u8; LONGEST_COMPONENT],
    ) -> Result<usize, Torn> {
        match entry {
            PlainEntry::Root => Ok(0),
            PlainEntry::Held(key) => {
                let bytes = key.bytes;
                *room = bytes;
                Ok(key.count)
            }
        }
    }

    fn link_text(
        &mut self,
        entry: PlainEntry,
        room: &mut [u8; LONGEST_LINK_TEXT],
    ) -> Result<usize, Torn> {
        let key = match entry {
            PlainEntry::Root => return Ok(0),
            PlainEntry::Held(key) => key,
        };
        match self.stored_node(key.of, key.component()) {
            Some(node) => Ok(copy_text(&node.kind, room)),
            None => unreachable!(),
        }
    }
}

impl ChangeLook for PlainTree {
    ghost capacity = { λ p. p.capacity };

    ghost use Rattle.std.proofs.Common.{ap};
    ghost use Rattle.directory_tree.specs.Plain.{Plain};

    ghost capacity_kept = { λ before after same. ap (λ (p : Plain). p.capacity) same };

    fn is_empty(&mut self, directory: PlainEntry) -> Result<bool, Torn> {
        let number = self.number_of(&directory);
        Ok(self.has_no_entry(number))
    }

    fn has_room(&mut self) -> Result<bool, Torn> {
        Ok(self.has_spare())
    }

    fn most_entries(&self) -> usize {
        self.count()
    }
}

impl PlainTree {
    ghost use Rattle.std.specs.Prelude.{◌≡◌};
    ghost use Rattle.directory_tree.specs.Plain.{tree_of};
    ghost use Rattle.directory_tree.specs.Spots.{node_at};
    ghost use Rattle.plain_tree.specs.PlainEntry.{means_in, knows_in};

    // The number of an entry's node.
    pub(crate) fn number_of(&self, entry: &PlainEntry) -> u64
        requires { knows_in (tree_of self.now) entry.now }
        ensures { result ≡ node_at (means_in (tree_of self.now) entry.now) }
    {
        match entry {
            PlainEntry::Root => ROOT,
            PlainEntry::Held(key) => match self.stored_node(key.of, key.component()) {
                Some(node) => node.number,
                None => unreachable!(),
            },
        }
    }
}

// What a node is, without the text of a link.
fn shape(kind: &NodeKind) -> Kind
    ensures { result ≡ shape_of kind.now }
{
    match kind {
        NodeKind::Directory => Kind::Directory,
        NodeKind::File => Kind::File,
        NodeKind::Link(_) => Kind::Link,
    }
}

// Writes the text of a link to the front of the room, and returns its length.
fn copy_text(kind: &NodeKind, room: &mut [u8; LONGEST_LINK_TEXT]) -> usize
    requires { IsShortText kind.now }
    ensures fits { result ≤ LONGEST_LINK_TEXT }
    ensures text { (text : List ℕ) → kind.now ≡ Link text → text ≡ take result room.new }
{
    match kind {
        NodeKind::Link(text) => {
            let text = text.as_bytes();
            copy_to_front(room, text);
            text.len()
        }
        _ => 0,
    }
}
