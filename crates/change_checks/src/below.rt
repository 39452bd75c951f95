//! Whether a directory lies below another.
ghost use Rattle.std.specs.Prelude.{◌≡◌, ℕ, IfOk, IfErr, length};
ghost use Rattle.directory_tree.specs.declared.node.Kind.TheVariants as kind;
ghost use Rattle.directory_tree.specs.Tree.{is_below};
ghost use Rattle.directory_tree.specs.Spots.{shape_of, node_at, kind_at};
ghost use Rattle.path_lookup.specs.World.{World, Narrows, IsTorn};

use crate::look::ChangeLook;
use path_lookup::{Look, Torn};

/// Whether a directory is the one with this number, or lies below it.
pub(crate) fn lies_below<L: ChangeLook>(
    look: &mut L,
    top: u64,
    from: L::Entry,
) -> Result<bool, Torn>
    requires known { L.knows look.old from }
    requires directory { (w : World) → L.sees look.old w → shape_of (kind_at (L.means from w)) ≡ kind.Directory }
    ensures kept { L.kept look.new ≡ L.kept look.old }
    ensures narrows { Narrows (L.sees look.old) (L.sees look.new) }
    ensures keeps { (e : L.Entry) → L.knows look.old e → L.knows look.new e }
    ensures answer { IfOk result (λ below. (w : World) → L.sees look.new w →
        is_below w.tree.entries (length w.tree.entries) top (node_at (L.means from w)) ≡ below) }
    ensures torn { IfErr result (λ _. IsTorn (L.lacks look.new) (L.sees look.new)) }
{
    let most = look.most_entries();
    let mut at = from;
    for step in 0..most {
        // The steps up that were made: the loop is proved by their number.
        let _made = step;
        if look.node(at)? == top {
            return Ok(true);
        }
        match look.parent(at)? {
            None => return Ok(false),
            Some(parent) => at = parent,
        }
    }
    Ok(look.node(at)? == top)
}
