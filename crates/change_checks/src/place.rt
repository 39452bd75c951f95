//! The places that the paths of a change name.
ghost use Rattle.std.specs.Prelude.{◌≡◌, ◌≤◌, ℕ, List, IfOk, IfErr, length};
ghost use Rattle.directory_tree.specs.declared.node.Kind.TheVariants as kind;
ghost use Rattle.directory_tree.specs.Apply.{Changed, at_one, at_two};
ghost use Rattle.directory_tree.specs.Spots.{shape_of, node_at, kind_at};
ghost use Rattle.path_lookup.specs.Target.{target_for};
ghost use Rattle.path_lookup.specs.WalkFaults.{IsFault};
ghost use Rattle.path_lookup.specs.World.{World, Narrows};

use names::{Errno, LONGEST_COMPONENT, Path};
use path_lookup::{EndSlash, Look, Scratch, SplitPath, WalkFault, find_directory, split_path};

/// The place that a path names: a directory, and the component that an entry has there or is to have.
#[derive(Clone, Copy)]
pub struct Place<'a, E: Copy> {
    /// The entry of the directory.
    pub directory: E,
    /// At most 255 bytes.
    pub component: &'a [u8],
}

impl<'a, E: Copy> Place<'a, E> {
    ghost use Rattle.std.specs.Prelude.{◌≡◌};

    // The same place.
    pub(crate) fn copied(&self) -> Place<'a, E>
        ensures { result ≡ self.now }
    {
        Place {
            directory: self.directory,
            component: self.component,
        }
    }
}

/// The place that a path names. Links on the way are followed.
pub(crate) fn find_place<'a, L: Look>(
    look: &mut L,
    path: &Path<'a>,
    slash: EndSlash,
) -> Result<Place<'a, L::Entry>, WalkFault>
    ensures kept { L.kept look.new ≡ L.kept look.old }
    ensures narrows { Narrows (L.sees look.old) (L.sees look.new) }
    ensures keeps { (e : L.Entry) → L.knows look.old e → L.knows look.new e }
    ensures known { IfOk result (λ place. L.knows look.new place.directory) }
    ensures fits { IfOk result (λ place. length place.component.now ≤ LONGEST_COMPONENT) }
    ensures directory { IfOk result (λ place. (w : World) → L.sees look.new w →
        shape_of (kind_at (L.means place.directory w)) ≡ kind.Directory) }
    ensures acts { IfOk result (λ place. (w : World) → L.sees look.new w → (act : ℕ → List ℕ → Changed) →
        at_one w.tree (target_for slash path.now) act ≡ act (node_at (L.means place.directory w)) place.component.now) }
    ensures fault { IfErr result (λ fault. (act : World → ℕ → List ℕ → Changed) → IsFault (L.lacks look.new) (L.sees look.new)
        (λ w. at_one w.tree (target_for slash path.now) (act w)) fault) }
{
    let parts = match split_path(path, slash) {
        Ok(parts) => parts,
        Err(errno) => return Err(WalkFault::Refused(errno)),
    };
    let mut scratch = Scratch::new();
    let directory = find_directory(look, parts.before, &mut scratch)?;
    Ok(Place {
        directory,
        component: parts.last,
    })
}

/// The places that two paths name. The form of both paths is tested before the first walk.
pub(crate) fn find_places<'a, L: Look>(
    look: &mut L,
    old: &Path<'a>,
    new: &Path<'a>,
) -> Result<(Place<'a, L::Entry>, Place<'a, L::Entry>), WalkFault>
    ensures kept { L.kept look.new ≡ L.kept look.old }
    ensures narrows { Narrows (L.sees look.old) (L.sees look.new) }
    ensures keeps { (e : L.Entry) → L.knows look.old e → L.knows look.new e }
    ensures known_old { IfOk result (λ places. L.knows look.new places.0.directory) }
    ensures known_new { IfOk result (λ places. L.knows look.new places.1.directory) }
    ensures fits { IfOk result (λ places. length places.1.component.now ≤ LONGEST_COMPONENT) }
    ensures directory { IfOk result (λ places. (w : World) → L.sees look.new w →
        shape_of (kind_at (L.means places.1.directory w)) ≡ kind.Directory) }
    ensures acts { IfOk result (λ places. (w : World) → L.sees look.new w → (act : ℕ → List ℕ → ℕ → List ℕ → Changed) →
        at_two w.tree (target_for EndSlash.Refused old.now) (target_for EndSlash.Refused new.now) act
        ≡ act (node_at (L.means places.0.directory w)) places.0.component.now (node_at (L.means places.1.directory w))
        places.1.component.now) }
    ensures fault { IfErr result (λ fault. (act : World → ℕ → List ℕ → ℕ → List ℕ → Changed) → IsFault (L.lacks look.new) (L.sees look.new)
        (λ w. at_two w.tree (target_for EndSlash.Refused old.now) (target_for EndSlash.Refused new.now) (act w)) fault) }
{
    let from = match split_path(old, EndSlash::Refused) {
        Ok(parts) => parts,
        Err(errno) => return Err(WalkFault::Refused(errno)),
    };
    let to = match split_path(new, EndSlash::Refused) {
        Ok(parts) => parts,
        Err(errno) => return Err(WalkFault::Refused(errno)),
    };
    let mut scratch = Scratch::new();
    let directory = find_directory(look, from.before, &mut scratch)?;
    let into = find_directory(look, to.before, &mut scratch)?;
    let old = Place {
        directory,
        component: from.last,
    };
    let new = Place {
        directory: into,
        component: to.last,
    };
    Ok((old, new))
}
