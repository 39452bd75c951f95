//! A look at one small tree, and a look that ends.
ghost use Rattle.std.specs.Prelude.{◌≡◌, IfErr};
ghost use Rattle.path_lookup.specs.World.{World};
ghost use Rattle.test_parts.specs.SmallTrees.{HasSmall};

use directory_tree::{Kind, changes_keep_well_formed};
use path_lookup::{Look, Torn};

/// The entries of the small tree (`specs/SmallTree.antt`).
#[derive(Clone, Copy, Debug, PartialEq, Eq)]
pub enum Place {
    Root,
    /// `/a`, a directory.
    A,
    /// `/a/f`, a file.
    F,
    /// `/a/l`, a link to `/a/f`.
    L,
    /// `/a/r`, a link to itself.
    R,
    /// `/d`, a link to `a/`.
    D,
}

/// A look at the small tree.
#[derive(Drop)]
pub struct SmallTree;

impl SmallTree {
    /// There is such a tree.
    pub fn new() -> SmallTree
        ensures { (w : World) × HasSmall w }
    {
        changes_keep_well_formed();
        SmallTree
    }
}

impl Look for SmallTree {
    type Entry = Place;

    ghost use Rattle.std.specs.Prelude.{◌≡◌, refl};
    ghost use Rattle.test_parts.specs.declared.toy.Place.TheVariants as place;
    ghost use Rattle.directory_tree.specs.Walk.{Spot};
    ghost use Rattle.directory_tree.specs.Walk.Spot.{Root, Held};
    ghost use Rattle.directory_tree.specs.Spots.{Stands};
    ghost use Rattle.test_parts.specs.SmallTrees.{HasSmall, a, f, l, r, d, stands_small};

    ghost Kept = { Unit {0} };

    ghost kept = { λ _. tt };

    ghost sees = { λ _ w. HasSmall w };

    ghost means = { λ e w. elim e [
      | place.Root ↦ Root
      | place.A ↦ Held a
      | place.F ↦ Held f
      | place.L ↦ Held l
      | place.R ↦ Held r
      | place.D ↦ Held d
    ] };

    ghost knows = { λ _ _. Unit {0} };

    ghost lacks = { λ _. ⊥ };

    ghost stands = { λ _ w e seen _. elim e as (λ k. Stands w.tree (elim k as (λ _. Spot) [
      | place.Root ↦ Root
      | place.A ↦ Held a
      | place.F ↦ Held f
      | place.L ↦ Held l
      | place.R ↦ Held r
      | place.D ↦ Held d
    ])) [
      | place.Root ↦ tt
      | place.A ↦ stands_small w.tree a seen refl
      | place.F ↦ stands_small w.tree f seen refl
      | place.L ↦ stands_small w.tree l seen refl
      | place.R ↦ stands_small w.tree r seen refl
      | place.D ↦ stands_small w.tree d seen refl
    ] };

    fn root(&self) -> Place {
        Place::Root
    }

    fn child(&mut self, directory: Place, component: &[u8]) -> Result<Option<Place>, Torn> {
        Ok(match directory {
            Place::Root if b"a".as_slice() == component => Some(Place::A),
            Place::Root if b"d".as_slice() == component => Some(Place::D),
            Place::A if b"f".as_slice() == component => Some(Place::F),
            Place::A if b"l".as_slice() == component => Some(Place::L),
            Place::A if b"r".as_slice() == component => Some(Place::R),
            _ => None,
        })
    }

    fn kind(&mut self, entry: Place) -> Result<Kind, Torn> {
        Ok(match entry {
            Place::Root | Place::A => Kind::Directory,
            Place::F => Kind::File,
            Place::L | Place::R | Place::D => Kind::Link,
        })
    }

    fn node(&mut self, entry: Place) -> Result<u64, Torn> {
        Ok(match entry {
            Place::Root => 1,
            Place::A => 2,
            Place::F => 3,
            Place::L => 4,
            Place::R => 5,
            Place::D => 6,
        })
    }

    fn parent(&mut self, entry: Place) -> Result<Option<Place>, Torn> {
        Ok(match entry {
            Place::Root => None,
            Place::A | Place::D => Some(Place::Root),
            Place::F | Place::L | Place::R => Some(Place::A),
        })
    }

    fn component(&mut self, entry: Place, room: &mut [u8; 255]) -> Result<usize, Torn> {
        let component: &[u8] = match entry {
            Place::Root => b"",
            Place::A => b"a",
            Place::F => b"f",
            Place::L => b"l",
            Place::R => b"r",
            Place::D => b"d",
        };
        room[..component.len()].copy_from_slice(component);
        Ok(component.len())
    }

    fn link_text(&mut self, entry: Place, room: &mut [u8; 1023]) -> Result<usize, Torn> {
        let text: &[u8] = match entry {
            Place::L => b"/a/f",
            Place::R => b"r",
            Place::D => b"a/",
            Place::Root | Place::A | Place::F => b"",
        };
        room[..text.len()].copy_from_slice(text);
        Ok(text.len())
    }
}

/// A look that stops after this many reads.
#[derive(Drop)]
pub struct EndsAfter<L: Look> {
    pub look: L,
    pub reads_left: u64,
}

impl<L: Look> EndsAfter<L> {
    // Counts one read.
    fn count(&mut self) -> Result<(), Torn>
        ensures look { self.new.look ≡ self.old.look }
        ensures ended { IfErr result (λ _. self.new.reads_left ≡ 0) }
    {
        if self.reads_left == 0 {
            return Err(Torn);
        }
        self.reads_left -= 1;
        Ok(())
    }
}

impl<L: Look> Look for EndsAfter<L> {
    type Entry = L::Entry;

    ghost use Rattle.std.specs.Prelude.{◌≡◌, ◌⊎◌};

    ghost Kept = { L.Kept };

    ghost kept = { λ t. L.kept t.look };

    ghost sees = { λ t. L.sees t.look };

    ghost means = { L.means };

    ghost knows = { λ t. L.knows t.look };

    ghost lacks = { λ t. (t.reads_left ≡ 0) ⊎ L.lacks t.look };

    ghost stands = { λ t. L.stands t.look };

    fn root(&self) -> L::Entry {
        self.look.root()
    }

    fn child(&mut self, directory: L::Entry, component: &[u8]) -> Result<Option<L::Entry>, Torn> {
        self.count()?;
        self.look.child(directory, component)
    }

    fn kind(&mut self, entry: L::Entry) -> Result<Kind, Torn> {
        self.count()?;
        self.look.kind(entry)
    }

    fn node(&mut self, entry: L::Entry) -> Result<u64, Torn> {
        self.count()?;
        self.look.node(entry)
    }

    fn parent(&mut self, entry: L::Entry) -> Result<Option<L::Entry>, Torn> {
        self.count()?;
        self.look.parent(entry)
    }

    fn component(&mut self, entry: L::Entry, room: &mut [u8; 255]) -> Result<usize, Torn> {
        self.count()?;
        self.look.component(entry, room)
    }

    fn link_text(&mut self, entry: L::Entry, room: &mut [u8; 1023]) -> Result<usize, Torn> {
        self.count()?;
        self.look.link_text(entry, room)
    }
}
