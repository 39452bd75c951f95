//! A way to read a tree, piece by piece.
ghost use Rattle.std.specs.Prelude.{◌≡◌, ◌≤◌, ℕ, List, IfOk, IfErr, IfSome, take};
ghost use Rattle.std.specs.Option.{option_map};
ghost use Rattle.directory_tree.specs.declared.node.NodeKind.TheVariants.{Link};
ghost use Rattle.directory_tree.specs.Walk.{Spot};
ghost use Rattle.directory_tree.specs.Walk.Spot.{Root};
ghost use Rattle.directory_tree.specs.Spots.{Stands, shape_of, node_at, kind_at, component_at, directory_of, child_of};
ghost use Rattle.path_lookup.specs.World.{World, Narrows, IsTorn};

use directory_tree::{Kind, LONGEST_LINK_TEXT};
use names::LONGEST_COMPONENT;

/// What was read so far agrees with no tree, or no more can be read.
#[derive(Clone, Copy, Debug, PartialEq, Eq)]
pub struct Torn;

/// A way to read a tree piece by piece, while what is read may be changing.
///
/// A look *sees* the worlds (sound trees, with a naming) that agree with all that it has read. Reading only narrows them. Every
/// answer but [`Torn`] is right in every world that is still seen, and [`Torn`] is returned only if none is seen, or if something
/// that was asked for isn't known to the look.
pub trait Look {
    /// Names one entry in each world that is seen.
    type Entry: Copy;

    // What no reading changes.
    ghost Kept: { Type 0 };

    ghost kept: { Self → Kept };

    // The worlds that agree with what was read.
    ghost sees: { Self → World → Type 0 };

    // What an entry stands for in a world.
    ghost means: { Self.Entry → World → Spot };

    // The look may be asked about this entry.
    ghost knows: { Self → Self.Entry → Type 0 };

    // Something that was asked for isn't known to the look.
    ghost lacks: { Self → Type 0 };

    // Every tree that is seen has every entry that the look may be asked about.
    ghost stands: { (look : Self) (w : World) (entry : Self.Entry) → sees look w → knows look entry → Stands w.tree (means entry w) };

    /// The root. Nothing is read.
    fn root(&self) -> Self::Entry
        ensures known { knows self.now result }
        ensures root { (w : World) → sees self.now w → means result w ≡ Root };

    /// The entry of a component in a directory, if it has one.
    fn child(
        &mut self,
        directory: Self::Entry,
        component: &[u8],
    ) -> Result<Option<Self::Entry>, Torn>
        requires { knows self.old directory }
        ensures kept { kept self.new ≡ kept self.old }
        ensures narrows { Narrows (sees self.old) (sees self.new) }
        ensures keeps { (e : Self.Entry) → knows self.old e → knows self.new e }
        ensures known { IfOk result (λ found. IfSome found (knows self.new)) }
        ensures answer { IfOk result (λ found. (w : World) → sees self.new w →
            child_of w.tree (means directory w) component.now ≡ option_map (λ e. means e w) found) }
        ensures torn { IfErr result (λ _. IsTorn (lacks self.new) (sees self.new)) };

    /// What the entry's node is.
    fn kind(&mut self, entry: Self::Entry) -> Result<Kind, Torn>
        requires { knows self.old entry }
        ensures kept { kept self.new ≡ kept self.old }
        ensures narrows { Narrows (sees self.old) (sees self.new) }
        ensures keeps { (e : Self.Entry) → knows self.old e → knows self.new e }
        ensures answer { IfOk result (λ kind. (w : World) → sees self.new w →
            shape_of (kind_at (means entry w)) ≡ kind) }
        ensures torn { IfErr result (λ _. IsTorn (lacks self.new) (sees self.new)) };

    /// The number of the entry's node.
    fn node(&mut self, entry: Self::Entry) -> Result<u64, Torn>
        requires { knows self.old entry }
        ensures kept { kept self.new ≡ kept self.old }
        ensures narrows { Narrows (sees self.old) (sees self.new) }
        ensures keeps { (e : Self.Entry) → knows self.old e → knows self.new e }
        ensures answer { IfOk result (λ node. (w : World) → sees self.new w → node_at (means entry w) ≡ node) }
        ensures torn { IfErr result (λ _. IsTorn (lacks self.new) (sees self.new)) };

    /// The directory that has the entry; the root has none.
    fn parent(&mut self, entry: Self::Entry) -> Result<Option<Self::Entry>, Torn>
        requires { knows self.old entry }
        ensures kept { kept self.new ≡ kept self.old }
        ensures narrows { Narrows (sees self.old) (sees self.new) }
        ensures keeps { (e : Self.Entry) → knows self.old e → knows self.new e }
        ensures known { IfOk result (λ found. IfSome found (knows self.new)) }
        ensures answer { IfOk result (λ found. (w : World) → sees self.new w →
            directory_of w.tree (means entry w) ≡ option_map (λ e. means e w) found) }
        ensures torn { IfErr result (λ _. IsTorn (lacks self.new) (sees self.new)) };

    /// Writes the entry's own component to the front of `room`, and returns its length. The root's is empty.
    fn component(
        &mut self,
        entry: Self::Entry,
        room: &mut [u8; LONGEST_COMPONENT],
    ) -> Result<usize, Torn>
        requires { knows self.old entry }
        ensures kept { kept self.new ≡ kept self.old }
        ensures narrows { Narrows (sees self.old) (sees self.new) }
        ensures keeps { (e : Self.Entry) → knows self.old e → knows self.new e }
        ensures fits { IfOk result (λ length. length ≤ LONGEST_COMPONENT) }
        ensures answer { IfOk result (λ length. (w : World) → sees self.new w →
            component_at (means entry w) ≡ take length room.new) }
        ensures torn { IfErr result (λ _. IsTorn (lacks self.new) (sees self.new)) };

    /// Writes the text of a symbolic link to the front of `room`, and returns its length. About other nodes nothing is said.
    fn link_text(
        &mut self,
        entry: Self::Entry,
        room: &mut [u8; LONGEST_LINK_TEXT],
    ) -> Result<usize, Torn>
        requires { knows self.old entry }
        ensures kept { kept self.new ≡ kept self.old }
        ensures narrows { Narrows (sees self.old) (sees self.new) }
        ensures keeps { (e : Self.Entry) → knows self.old e → knows self.new e }
        ensures fits { IfOk result (λ length. length ≤ LONGEST_LINK_TEXT) }
        ensures answer { IfOk result (λ length. (w : World) (text : List ℕ) → sees self.new w →
            kind_at (means entry w) ≡ Link text → text ≡ take length room.new) }
        ensures torn { IfErr result (λ _. IsTorn (lacks self.new) (sees self.new)) };
}
